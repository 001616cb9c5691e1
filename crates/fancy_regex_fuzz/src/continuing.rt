//! The checks of searches whose `\G` holds anywhere, and of longest matches.

use crate::case::Case;
use crate::engines::run_input;
use crate::part::input_of;
use fancy_regex::{CompileError, Error, Expr, Result, Steps};
use fancy_regex_analysis::analyze;
use fancy_regex_class::{RunInput, Span};
use fancy_regex_compiled::Prog;
use fancy_regex_compiler::compile;
use fancy_regex_info::{AnalyzeContext, CompileOptions};
use fancy_regex_machine::run;
use fancy_regex_regular::{Regular, RegularMemory};
use std::alloc::Global;

/// Whether states and program find the same groups in the whole text, wherever `\G` holds. A pattern without `\G` is passed over.
pub fn continue_alike(alloc: Global, case: Case<'_>, regular: &Regular) -> Result<bool> {
    if !case.pattern.contains("\\G") {
        return Ok(true);
    }
    let found = program_of(alloc, case, false)?;
    let Some(prog) = found else {
        return Ok(true);
    };
    for place in 0..=case.text.len() {
        let input = input_from(case.text, 0, Some(place));
        if !finds_alike(alloc, case, regular, &prog, &input)? {
            return Ok(false);
        }
    }
    Ok(true)
}

/// The program of the case's pattern, for its first match or its longest; `None` where it is too long.
fn program_of(alloc: Global, case: Case<'_>, longest: bool) -> Result<Option<Prog>> {
    let tree = Expr::parse_tree_with_flags(alloc, case.pattern, case.setting.flags())?;
    let options = CompileOptions {
        contains_subroutines: tree.contains_subroutines,
        leftmost_longest: longest,
        ..case.setting.compile_options()
    };
    let info = analyze(alloc, &tree, AnalyzeContext::default())?;
    match compile(alloc, &info, &options) {
        Ok(prog) => Ok(Some(prog)),
        Err(CompileError::PatternTooComplex) => Ok(None),
        Err(error) => Err(Error::from(error)),
    }
}

/// Whether states and program for the longest match find the same groups in the case's part, and the states for its span alone the same.
pub fn longest_alike(alloc: Global, case: Case<'_>, regular: &Regular) -> Result<bool> {
    let found = program_of(alloc, case, true)?;
    let Some(prog) = found else {
        return Ok(true);
    };
    match run_input(input_of(case.text, case.part)) {
        Some(input) => Ok(
            finds_alike(alloc, case, regular, &prog, &input)?
                && has_span_of_groups(alloc, case.text, regular, &input)?,
        ),
        None => Ok(true),
    }
}

/// Whether a search for the span alone finds that of a search for the groups.
fn has_span_of_groups(
    alloc: Global,
    text: &str,
    regular: &Regular,
    input: &RunInput,
) -> Result<bool> {
    if input.range.end > text.len() || !text.is_char_boundary(input.first) {
        return Ok(true);
    }
    let mut memory = RegularMemory::new(alloc);
    let span = regular.find_span_in(text, input, &mut Steps::new(), &mut memory)?;
    let places = regular.search_in(alloc, text, input, &mut memory)?;
    match (span, places) {
        (Some((start, end)), Some(places)) => {
            Ok(places.get(0) == Some(&start) && places.get(1) == Some(&end))
        }
        (None, None) => Ok(true),
        _ => Ok(false),
    }
}

/// Whether states and program find the same groups in a search, unless the program meets a limit.
fn finds_alike(
    alloc: Global,
    case: Case<'_>,
    regular: &Regular,
    prog: &Prog,
    input: &RunInput,
) -> Result<bool> {
    let text = case.text;
    if input.range.end > text.len() || !text.is_char_boundary(input.first) || !prog.has_whole() {
        return Ok(true);
    }
    let mut memory = RegularMemory::new(alloc);
    let places = regular.search_in(alloc, text, input, &mut memory)?;
    match run(alloc, prog, text, input, &case.setting.run_options()) {
        Ok(found) => Ok(found == places),
        Err(_) => Ok(true),
    }
}

/// The input of a search from a byte offset to the end of the text.
fn input_from(text: &str, first: usize, continue_at: Option<usize>) -> RunInput {
    RunInput {
        first,
        continue_at,
        range: Span {
            start: 0,
            end: text.len(),
        },
        anchored: false,
        no_start_text: false,
        no_end_text: false,
    }
}
