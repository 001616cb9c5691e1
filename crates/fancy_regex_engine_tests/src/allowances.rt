//! Runs that do no more work than they are allowed.

use crate::compiled::{Text, program};
use fancy_regex_class::{RunInput, Span};
use fancy_regex_compiled::Prog;
use fancy_regex_info::CompileOptions;
use fancy_regex_machine::{
    Allowance, Exhausted, ProgramRun, RunMemory, RunOptions, run_spans_within, run_within,
};
use std::alloc::Global;

/// How a run has to end.
#[derive(Clone, Copy)]
enum Ending {
    Found(usize, usize),
    NoMatch,
    Exhausted,
}

/// A pattern, a text and how often it is repeated, what the run is allowed, and how it has to end.
struct Run(Text, Text, usize, Allowance, Ending);

/// Little, however far the start goes on.
const LITTLE: Allowance = Allowance::Bounded {
    first: 100,
    per_byte: 0,
};

/// Little at first, and more where the start goes on.
const STEADY: Allowance = Allowance::Bounded {
    first: 100,
    per_byte: 64,
};

/// Much at first.
const MUCH: Allowance = Allowance::Bounded {
    first: 100_000,
    per_byte: 64,
};

static RUNS: [Run; 11] = [
    Run("(?>a*)b", "ab", 1, LITTLE, Ending::Found(0, 2)),
    Run("(?>a*)b", "a", 1_000, LITTLE, Ending::Exhausted),
    Run("(?>a*)b", "a", 100, MUCH, Ending::NoMatch),
    Run("(?>a*)b", "a", 10_000, MUCH, Ending::Exhausted),
    // each look-ahead reads its line alone
    Run(
        "(?=.*x)b",
        "a line with b\n",
        1_000,
        STEADY,
        Ending::NoMatch,
    ),
    Run("(?=.*x)a", "a", 10_000, MUCH, Ending::Exhausted),
    // what a look-ahead reads is read again after it
    Run("(?:(?=a*+)a)*c", "a", 10_000, MUCH, Ending::Exhausted),
    // the linear engine searches the body
    Run("(?=(?:a|aa)*b)a", "aab", 1, LITTLE, Ending::Found(0, 1)),
    Run("(?>(?:a|aa)+)b", "a", 1_000, LITTLE, Ending::Exhausted),
    Run(
        "(?!(?:\\w+\\s?)*:)\\d",
        "a",
        10_000,
        MUCH,
        Ending::Exhausted,
    ),
    Run(
        "(?:(?=(?:a|aa)*b)a)*c",
        "a",
        10_000,
        MUCH,
        Ending::Exhausted,
    ),
];

/// Whether the run for groups and the one for the span end as wanted.
fn ends(alloc: Global, memory: &mut RunMemory, prog: &Prog, text: &str, row: &Run) -> bool {
    if !prog.has_whole() {
        return false;
    }
    let input = RunInput {
        first: 0,
        continue_at: Some(0),
        range: Span {
            start: 0,
            end: text.len(),
        },
        anchored: false,
        no_start_text: false,
        no_end_text: false,
    };
    let options = RunOptions {
        backtrack_limit: usize::MAX,
        find_not_empty: false,
        seek: None,
    };
    let run = ProgramRun {
        prog,
        options: &options,
        allowance: row.3,
        walks: true,
    };
    let span = run_spans_within(alloc, &run, text, &input, memory);
    let groups = run_within(alloc, &run, text, &input, memory);
    match (span, groups, row.4) {
        (Ok(Ok(Some(span))), Ok(Ok(Some(groups))), Ending::Found(start, end)) => {
            span == (start, end)
                && matches!(*groups, [first, last] if first == start && last == end)
        }
        (Ok(Ok(None)), Ok(Ok(None)), Ending::NoMatch) => true,
        (Err(Exhausted), Err(Exhausted), Ending::Exhausted) => true,
        _ => false,
    }
}

/// Whether the runs of a row end as wanted.
fn holds(alloc: Global, memory: &mut RunMemory, row: &Run) -> bool {
    let Some(prog) = program(alloc, row.0, false, &CompileOptions::default()) else {
        return false;
    };
    let Ok(text) = row.1.repeat(alloc, row.2) else {
        return false;
    };
    ends(alloc, memory, &prog, &text, row)
}

#[test]
fn runs_end_where_their_allowance_is_exhausted(rt: HostRuntime) {
    let mut memory = RunMemory::new(rt.alloc());
    for (number, row) in RUNS.iter().enumerate() {
        assert!(rt; holds(rt.alloc(), &mut memory, row), "row {number}");
    }
}
