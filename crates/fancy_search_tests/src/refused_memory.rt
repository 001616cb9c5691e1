//! Memory is refused while the program runs: nothing is written, and the same words then answer.

use fancy_search_run::{Fault, Status, run};
use std::alloc::Global;

/// Words, an input, and what is written; `None` for words that do not parse.
type Row = (&'static [&'static str], &'static str, Option<&'static str>);

static ANSWERED: [Row; 10] = [
    (&["find", "\\w+(?=!)"], "so fancy!", Some("3..8\n")),
    (
        &["captures", "(a)|(b)"],
        "ab",
        Some("0..1 0..1 -\n1..2 - 1..2\n"),
    ),
    (&["split", ",(?=b)"], "a,b,c", Some("1:a\n3:b,c\n")),
    (
        &["replace", "(\\w+) (\\w+)", "$2 $1"],
        "hello world",
        Some("world hello"),
    ),
    (&["print", "(?:a|b)c"], "", Some("(?:a|b)c\n")),
    (&["set", "\\d+", "\\w+"], "a1", Some("1 0..2\n")),
    (&["find", "-i", "É"], "é", Some("0..2\n")),
    (
        &["find", "--limit", "1000", "(a|aa)+\\1"],
        "aaa",
        Some("0..3\n"),
    ),
    (&["find", "--", "-a"], "-a", Some("0..2\n")),
    (&["set", "--longest", "a|ab"], "ab", Some("0 0..2\n")),
];

static REFUSED: [Row; 3] = [
    (&["find"], "a", None),
    (&["seek", "a"], "a", None),
    (&[], "a", None),
];

/// Whether the program does what is wanted, or wants memory and writes nothing; `None` for anything else. There is room for each
/// output, so that writing wants no more memory.
fn is_answered(alloc: Global, row: &Row) -> Option<bool> {
    let (words, input, wanted) = *row;
    let Ok(mut output) = Vec::with_capacity(alloc, 64) else {
        return Some(false);
    };
    let ended = run(alloc, words, &mut input.as_bytes(), &mut output);
    match (&ended, wanted) {
        (Ok(Status::Done), Some(text)) if output.as_slice() == text.as_bytes() => Some(true),
        (Err(Fault::Words(_)), None) if output.is_empty() => Some(true),
        (Err(Fault::Memory), _) if output.is_empty() => Some(false),
        _ => None,
    }
}

/// The same; a row that wants memory is run once more, and that is told on standard output. `tests/refused_memory/sweep` asks for
/// the line where it refuses a request.
fn is_answered_at_last(rt: &HostRuntime, row: &Row) -> bool {
    match is_answered(rt.alloc(), row) {
        Some(false) => {
            let _ = println!(rt; "a call wanted memory");
            is_answered(rt.alloc(), row) == Some(true)
        }
        first => first == Some(true),
    }
}

#[test]
fn words_that_want_memory_write_nothing(rt: HostRuntime) {
    for row in ANSWERED.iter() {
        assert!(rt; is_answered_at_last(&rt, row), "{}", row.1);
    }
}

#[test]
fn words_that_do_not_parse_may_want_memory(rt: HostRuntime) {
    for row in REFUSED.iter() {
        assert!(rt; is_answered_at_last(&rt, row));
    }
}
