//! The check of the two layouts of programs: with calls written out, and with calls that stay calls.

use crate::case::Case;
use crate::engines::run_input;
use crate::part::input_of;
use fancy_regex::{CompileError, Error, Expr, RegexInput, Result, RuntimeError};
use fancy_regex_analysis::analyze;
use fancy_regex_class::RunInput;
use fancy_regex_compiler::{Prog, compile_within};
use fancy_regex_info::{AnalyzeContext, CompileOptions, Info};
use fancy_regex_machine::{RunOptions, run};
use std::alloc::Global;

/// The limits on backtracks under which programs are run.
static LIMITS: [usize; 6] = [0, 1, 3, 10, 60, 2000];

/// The program of a pattern in both layouts.
#[derive(Drop)]
struct Layouts {
    written_out: Prog,
    kept: Prog,
}

/// Whether the program of a pattern with calls ends alike in both layouts, for the first match and for the longest.
pub fn layouts_alike(alloc: Global, case: Case<'_>) -> Result<bool> {
    let tree = Expr::parse_tree_with_flags(alloc, case.pattern, case.setting.flags())?;
    if !tree.contains_subroutines {
        return Ok(true);
    }
    let context = AnalyzeContext {
        explicit_capture_group_0: false,
        find_not_empty: case.setting.not_empty,
    };
    let info = analyze(alloc, &tree, context)?;
    Ok(alike_in_mode(alloc, case, &info, false)? && alike_in_mode(alloc, case, &info, true)?)
}

/// Whether both layouts end alike, where the program can be written out within the cap.
fn alike_in_mode(alloc: Global, case: Case<'_>, info: &Info<'_>, longest: bool) -> Result<bool> {
    match layouts_of(alloc, case, info, longest) {
        Ok(layouts) => alike_on_texts(alloc, case, &layouts),
        Err(Error::CompileError(CompileError::PatternTooComplex)) => Ok(true),
        Err(error) => Err(error),
    }
}

/// The program in both layouts.
fn layouts_of(alloc: Global, case: Case<'_>, info: &Info<'_>, longest: bool) -> Result<Layouts> {
    let capped = CompileOptions {
        contains_subroutines: true,
        leftmost_longest: longest,
        ..case.setting.compile_options()
    };
    let uncapped = CompileOptions {
        max_prog_size: None,
        ..capped
    };
    let written_out = compile_within(alloc, info, &capped, 0)?;
    let kept = compile_within(alloc, info, &uncapped, 0)?;
    Ok(Layouts { written_out, kept })
}

/// Whether both end alike on the case's part and on the whole text.
fn alike_on_texts(alloc: Global, case: Case<'_>, layouts: &Layouts) -> Result<bool> {
    let part = run_input(input_of(case.text, case.part));
    let whole = run_input(RegexInput::new(case.text));
    Ok(
        alike_under_limits(alloc, case, layouts, part)?
            && alike_under_limits(alloc, case, layouts, whole)?,
    )
}

/// Whether both end alike under each limit; without a search they do.
fn alike_under_limits(
    alloc: Global,
    case: Case<'_>,
    layouts: &Layouts,
    input: Option<RunInput>,
) -> Result<bool> {
    let Some(input) = input else {
        return Ok(true);
    };
    for limit in LIMITS.iter() {
        let options = RunOptions {
            backtrack_limit: *limit,
            ..case.setting.run_options()
        };
        if !end_alike(alloc, case.text, layouts, &input, &options)? {
            return Ok(false);
        }
    }
    Ok(true)
}

/// Whether both end with the same groups, or in the same limit. The error is want of memory.
fn end_alike(
    alloc: Global,
    text: &str,
    layouts: &Layouts,
    input: &RunInput,
    options: &RunOptions,
) -> Result<bool> {
    let Layouts { written_out, kept } = layouts;
    if input.range.end <= text.len() && written_out.has_whole() && kept.has_whole() {
        let one = run(alloc, written_out, text, input, options);
        let other = run(alloc, kept, text, input, options);
        if one == Err(RuntimeError::Memory) || other == Err(RuntimeError::Memory) {
            return Err(Error::Memory);
        }
        return Ok(one == other);
    }
    Ok(true)
}
