//! The groups of matches that the machine finds: by runs in one memory, in turn, and by default runs.

use crate::compiled::{Text, program};
use fancy_regex_class::{RunInput, Span};
use fancy_regex_compiled::Prog;
use fancy_regex_info::CompileOptions;
use fancy_regex_machine::{
    RunMemory, RunOptions, RuntimeError, run, run_default, run_in, run_spans_in,
};
use std::alloc::Global;

/// How a run has to end.
enum RunEnding {
    /// With the byte offsets of the groups.
    Groups(&'static [usize]),
    NoMatch,
    Fails(RuntimeError),
}

/// Whether a run ends as wanted.
fn ends(found: &Result<Option<Vec<usize>>, RuntimeError>, wanted: &RunEnding) -> bool {
    match (found, wanted) {
        (Ok(Some(places)), RunEnding::Groups(groups)) => places.as_slice() == *groups,
        (Ok(None), RunEnding::NoMatch) => true,
        (Err(found), RunEnding::Fails(error)) => found == error,
        _ => false,
    }
}

/// A pattern, a text, and how runs of at most 100 backtracks have to end.
struct Run(Text, Text, RunEnding);

static RUNS: [Run; 9] = [
    Run(
        "(?=(a|ab)(?!x))\\1c",
        "abc",
        RunEnding::Groups(&[0, 3, 0, 2]),
    ),
    Run(
        "(a+)+\\1b",
        "aaaaaaaaaaaaaaaaaaaa",
        RunEnding::Fails(RuntimeError::BacktrackLimitExceeded),
    ),
    Run("(\\w)(x)?\\1", "abcd", RunEnding::NoMatch),
    Run(
        "(\\w)(x)?\\1",
        "zaxa",
        RunEnding::Groups(&[1, 4, 1, 2, 2, 3]),
    ),
    Run(
        "(\\w)(x)?\\1",
        "abb",
        RunEnding::Groups(&[1, 3, 1, 2, usize::MAX, usize::MAX]),
    ),
    // a run for spans leaves out what nothing reads
    Run(
        "((\\w)\\2)(\\w)",
        "abbc",
        RunEnding::Groups(&[1, 4, 1, 3, 1, 2, 3, 4]),
    ),
    Run("((\\w)\\2)(\\w)", "abcd", RunEnding::NoMatch),
    Run(
        "(?:(a)|(b))+(?!c)",
        "xabc",
        RunEnding::Groups(&[1, 2, 1, 2, usize::MAX, usize::MAX]),
    ),
    Run("(a)?(?(1)b|c)", "ab", RunEnding::Groups(&[0, 2, 0, 1])),
];

/// Whether the run in this memory and one in new memory end as wanted, and the start and the end in this memory as well.
fn all_end(
    alloc: Global,
    memory: &mut RunMemory,
    prog: &Prog,
    text: &str,
    wanted: &RunEnding,
) -> bool {
    let input = RunInput {
        first: 0,
        continue_at: None,
        range: Span {
            start: 0,
            end: text.len(),
        },
        anchored: false,
        no_start_text: false,
        no_end_text: false,
    };
    let options = RunOptions {
        backtrack_limit: 100,
        find_not_empty: false,
        seek: None,
    };
    if !ends(&run_in(alloc, prog, text, &input, &options, memory), wanted) {
        return false;
    }
    if !ends(&run(alloc, prog, text, &input, &options), wanted) {
        return false;
    }
    if !prog.has_whole() {
        return false;
    }
    match (
        run_spans_in(alloc, prog, text, &input, &options, memory),
        wanted,
    ) {
        (Ok(Some((start, end))), RunEnding::Groups(groups)) => {
            matches!(**groups, [first, last, ..] if first == start && last == end)
        }
        (Ok(None), RunEnding::NoMatch) => true,
        (Err(found), RunEnding::Fails(error)) => found == *error,
        _ => false,
    }
}

/// Whether the runs of a row end as wanted.
fn holds_in(alloc: Global, memory: &mut RunMemory, row: &Run) -> bool {
    match program(alloc, row.0, false, &CompileOptions::default()) {
        Some(prog) => all_end(alloc, memory, &prog, row.1, &row.2),
        None => false,
    }
}

#[test]
fn runs_in_one_memory_end_as_in_new_memory(rt: HostRuntime) {
    let mut memory = RunMemory::new(rt.alloc());
    for _ in 0..3 {
        for (number, row) in RUNS.iter().enumerate() {
            assert!(rt; holds_in(rt.alloc(), &mut memory, row), "row {number}");
        }
    }
}

/// A pattern, a text and how often it is repeated, the start of a default run, and how it has to end.
struct DefaultRun(Text, Text, usize, usize, RunEnding);

static DEFAULT_RUNS: [DefaultRun; 4] = [
    // the body is entered again where it has a capture group
    DefaultRun(
        "(?=(a|ab)(?!x))\\1c",
        "abc",
        1,
        0,
        RunEnding::Groups(&[0, 3, 0, 2]),
    ),
    // it continues at its start
    DefaultRun("\\Ga", "aab", 1, 1, RunEnding::Groups(&[1, 2])),
    DefaultRun("\\Ga", "aba", 1, 1, RunEnding::NoMatch),
    // a million branches are the limit
    DefaultRun(
        "(a)*\\1c",
        "a",
        1_000_001,
        0,
        RunEnding::Fails(RuntimeError::StackOverflow),
    ),
];

/// Whether a default run ends as wanted.
fn holds(alloc: Global, row: &DefaultRun) -> bool {
    let Some(prog) = program(alloc, row.0, false, &CompileOptions::default()) else {
        return false;
    };
    let Ok(text) = row.1.repeat(alloc, row.2) else {
        return false;
    };
    ends(&run_default(alloc, &prog, &text, row.3), &row.4)
}

#[test]
fn default_runs_end_as_wanted(rt: HostRuntime) {
    let wrong = DEFAULT_RUNS.iter().position(|row| !holds(rt.alloc(), row));
    assert_eq!(rt; wrong, None);
}
