//! The analysis of a pattern, and its search by the backtracking machine.

use crate::call::AnalysisCall;
use crate::case::{Case, flags_of};
use crate::layout::{append_layout, append_repeats};
use crate::quoted::put_error;
use fancy_regex::{Error, Expr, RuntimeError};
use fancy_regex_analysis::analyze;
use fancy_regex_class::{RunInput, Span};
use fancy_regex_compiled::Prog;
use fancy_regex_compiler::compile;
use fancy_regex_info::{AnalyzeContext, CompileOptions, Info};
use fancy_regex_machine::{RunOptions, run};
use std::alloc::{AllocError, Global};
use std::fmt::Write;

/// Appends what the analysis says of a pattern; the text of the error if it fails.
pub fn append_analysis(
    alloc: Global,
    out: &mut String,
    case: &Case<'_>,
    call: AnalysisCall,
) -> Result<(), AllocError> {
    match append_analyzed(alloc, out, case, call) {
        Ok(()) => Ok(()),
        Err(error) => put_error(alloc, out, &error),
    }
}

/// Appends what the analysis says of a pattern. Fails with the error of the first step that fails, or for want of memory.
fn append_analyzed(
    alloc: Global,
    out: &mut String,
    case: &Case<'_>,
    call: AnalysisCall,
) -> Result<(), Error> {
    let flags = flags_of(case.row.letters);
    let tree = Expr::parse_tree_with_flags(alloc, case.pattern, flags)?;
    let context = AnalyzeContext {
        explicit_capture_group_0: false,
        find_not_empty: case.row.letters.contains('e'),
    };
    let info = analyze(alloc, &tree, context)?;
    let options = options_of(case, call, tree.contains_subroutines);
    append_of_info(alloc, out, case, call, &info, &options)
}

/// The options of compilation. Where repeats are counted, calls are written out, however many instructions that makes.
fn options_of(case: &Case<'_>, call: AnalysisCall, has_calls: bool) -> CompileOptions {
    CompileOptions {
        contains_subroutines: has_calls && !matches!(call, AnalysisCall::Repeats),
        unicode: case.row.letters.contains('u'),
        leftmost_longest: case.row.letters.contains('l'),
        max_prog_size: case.cap,
        ..CompileOptions::default()
    }
}

/// Appends what is asked of an analysed pattern.
fn append_of_info(
    alloc: Global,
    out: &mut String,
    case: &Case<'_>,
    call: AnalysisCall,
    info: &Info<'_>,
    options: &CompileOptions,
) -> Result<(), Error> {
    match call {
        AnalysisCall::Sizes => append_sizes(out, info)?,
        AnalysisCall::Weight => write!(out, "{}", info.weight.saturating_add(2))?,
        AnalysisCall::Easy => write!(out, "{}", !info.hard)?,
        _ => append_compiled(alloc, out, case, call, info, options)?,
    }
    Ok(())
}

/// Appends what is asked of the program of a pattern.
fn append_compiled(
    alloc: Global,
    out: &mut String,
    case: &Case<'_>,
    call: AnalysisCall,
    info: &Info<'_>,
    options: &CompileOptions,
) -> Result<(), Error> {
    let prog = compile(alloc, info, options)?;
    append_of_program(alloc, out, case, call, &prog)
}

/// Appends what is asked of a program.
fn append_of_program(
    alloc: Global,
    out: &mut String,
    case: &Case<'_>,
    call: AnalysisCall,
    prog: &Prog,
) -> Result<(), Error> {
    match call {
        AnalysisCall::Layout => append_layout(out, prog)?,
        AnalysisCall::Repeats => append_repeats(out, prog)?,
        _ => append_run(out, run_on(alloc, prog, case)?)?,
    }
    Ok(())
}

/// Appends the groups of the first match, or `none`.
fn append_run(out: &mut String, slots: Option<Vec<usize>>) -> Result<(), AllocError> {
    match slots {
        Some(slots) => append_slots(out, &slots),
        None => out.push_str("none"),
    }
}

/// Appends the least and the greatest number of characters, `-` for unbounded, and whether all matches have the same number.
fn append_sizes(out: &mut String, info: &Info<'_>) -> Result<(), AllocError> {
    let (least, is_const) = (info.min_size, info.const_size);
    if info.max_size == usize::MAX {
        write!(out, "{least} - {is_const}")
    } else {
        write!(out, "{least} {} {is_const}", info.max_size)
    }
}

/// Runs a program on the whole text of a case; without an answer if a program without a whole match is to find none that is empty.
fn run_on(alloc: Global, prog: &Prog, case: &Case<'_>) -> Result<Option<Vec<usize>>, RuntimeError> {
    let text = case.text;
    let input = RunInput {
        first: 0,
        continue_at: Some(0),
        range: Span {
            start: 0,
            end: text.len(),
        },
        anchored: false,
        no_start_text: false,
        no_end_text: false,
    };
    let find_not_empty = case.row.letters.contains('e');
    let options = RunOptions {
        backtrack_limit: 1_000_000,
        find_not_empty,
        seek: None,
    };
    if find_not_empty && !prog.has_whole() {
        return Ok(None);
    }
    run(alloc, prog, text, &input, &options)
}

/// Appends the spans of all groups with a blank between, `-` for a group that did not participate in the match.
fn append_slots(out: &mut String, slots: &[usize]) -> Result<(), AllocError> {
    for pair in slots.chunks_exact(2) {
        if !out.is_empty() {
            out.push(' ')?;
        }
        match pair {
            [start, end] if *start != usize::MAX => write!(out, "{start}..{end}")?,
            _ => out.push('-')?,
        }
    }
    Ok(())
}
