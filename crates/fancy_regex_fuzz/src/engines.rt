//! The checks of the inner calls: reading, analysis, the linear engine, the compiler and the machine, one after the other, end as the build
//! of a regex does, and find what the regex finds.

use crate::case::Case;
use crate::part::input_of;
use crate::searches::span;
use fancy_regex::{
    Captures, CompileError, Error, Expr, ExprTree, Regex, RegexInput, Result, Steps,
};
use fancy_regex_analysis::analyze;
use fancy_regex_class::RunInput;
use fancy_regex_compiler::compile;
use fancy_regex_info::{AnalyzeContext, CompileOptions, Info};
use fancy_regex_linear::Easy;
use fancy_regex_machine::{RunOptions, run};
use std::alloc::Global;

/// Which engine runs a pattern.
#[derive(Clone, Copy)]
pub enum Engine {
    /// That of a regex: the linear engine for an easy tree, else the machine.
    Own,
    /// The machine.
    Machine,
}

/// Whether the inner calls give the regex's groups in the case's part.
pub fn engine_agrees(alloc: Global, case: Case<'_>, regex: &Regex) -> Result<bool> {
    let places = inner_places(alloc, case, Engine::Own)?;
    has_places(alloc, case, regex, &places)
}

/// Whether the machine gives the regex's groups in the case's part, where it meets no limit.
pub fn machine_agrees(alloc: Global, case: Case<'_>, regex: &Regex) -> Result<bool> {
    match inner_places(alloc, case, Engine::Machine) {
        Ok(places) => has_places(alloc, case, regex, &places),
        Err(Error::RuntimeError(_) | Error::CompileError(CompileError::PatternTooComplex)) => {
            Ok(true)
        }
        Err(error) => Err(error),
    }
}

/// The offsets of the groups that the inner calls find in the case's part; `None` without a match.
pub fn inner_places(alloc: Global, case: Case<'_>, engine: Engine) -> Result<Option<Vec<usize>>> {
    let tree = Expr::parse_tree_with_flags(alloc, case.pattern, case.setting.flags())?;
    places_by_tree(alloc, case, &tree, engine)
}

/// The offsets of the groups that the analysis and an engine find for a tree.
fn places_by_tree(
    alloc: Global,
    case: Case<'_>,
    tree: &ExprTree,
    engine: Engine,
) -> Result<Option<Vec<usize>>> {
    let options = CompileOptions {
        contains_subroutines: tree.contains_subroutines,
        ..case.setting.compile_options()
    };
    let context = AnalyzeContext {
        explicit_capture_group_0: false,
        find_not_empty: case.setting.not_empty,
    };
    let info = analyze(alloc, tree, context)?;
    match engine {
        Engine::Own if !info.hard && !case.setting.not_empty => {
            places_by_runner(alloc, case, &info, &options)
        }
        _ => places_by_machine(alloc, case, &info, &options),
    }
}

/// The offsets of the groups that the linear engine finds for an easy tree.
fn places_by_runner(
    alloc: Global,
    case: Case<'_>,
    info: &Info<'_>,
    options: &CompileOptions,
) -> Result<Option<Vec<usize>>> {
    if info.hard {
        return Ok(None);
    }
    let easy = Easy::new(alloc, info, options)?;
    let text = case.text;
    match run_input(input_of(text, case.part)) {
        Some(input) if input.range.end <= text.len() && text.is_char_boundary(input.first) => {
            Ok(easy.search(alloc, text, &input, &mut Steps::new())?)
        }
        _ => Ok(None),
    }
}

/// The offsets of the groups that the program finds.
fn places_by_machine(
    alloc: Global,
    case: Case<'_>,
    info: &Info<'_>,
    options: &CompileOptions,
) -> Result<Option<Vec<usize>>> {
    let prog = compile(alloc, info, options)?;
    let text = case.text;
    match run_input(input_of(text, case.part)) {
        Some(input) if input.range.end <= text.len() && prog.has_whole() => {
            Ok(run(alloc, &prog, text, &input, &case.setting.run_options())?)
        }
        _ => Ok(None),
    }
}

/// The input of the engines for a search; `None` if the search begins after its range.
pub fn run_input(input: RegexInput<&str>) -> Option<RunInput> {
    if input.is_done() {
        return None;
    }
    Some(*input.run_input())
}

/// Whether these are the offsets of the groups that the regex finds in the case's part.
pub fn has_places(
    alloc: Global,
    case: Case<'_>,
    regex: &Regex,
    places: &Option<Vec<usize>>,
) -> Result<bool> {
    let found = regex.captures_input(alloc, input_of(case.text, case.part))?;
    match (&found, places) {
        (Some(groups), Some(places)) => Ok(are_places(groups, places.as_slice())),
        (None, None) => Ok(true),
        _ => Ok(false),
    }
}

/// Whether these are the offsets of the groups: the start and the end of each, and no offset of a text for one that is not set.
fn are_places(groups: &Captures<'_, &str>, places: &[usize]) -> bool {
    for (group, pair) in places.chunks_exact(2).enumerate() {
        let is_place = match (span(groups.get(group)), pair) {
            (Some((start, end)), [first, last]) => start == *first && end == *last,
            (None, [first, last]) => *first == usize::MAX && *last == usize::MAX,
            _ => false,
        };
        if !is_place {
            return false;
        }
    }
    groups.len() == places.len() / 2
}
