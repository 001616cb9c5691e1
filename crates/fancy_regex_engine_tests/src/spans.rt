//! The spans of matches that the machine finds.

use crate::compiled::{Text, program};
use fancy_regex_class::{RunInput, Span};
use fancy_regex_compiled::Prog;
use fancy_regex_info::CompileOptions;
use fancy_regex_machine::{RunOptions, run_spans};
use std::alloc::Global;

/// How a text is searched.
#[derive(Clone, Copy)]
struct How {
    /// How often the text of the row is repeated to make the text that is searched.
    times: usize,
    /// Where the range ends. No match ends past it, or past the text.
    end: usize,
    /// The limit of backtracks.
    limit: usize,
    /// Whether the longest match is wanted.
    longest: bool,
    /// Whether empty matches are refused.
    not_empty: bool,
    /// Whether a match may start before an `a` only.
    at_a: bool,
    /// Whether the program is anchored.
    anchored: bool,
}

/// The whole text, by default.
const WHOLE: How = How {
    times: 1,
    end: usize::MAX,
    limit: 1_000_000,
    longest: false,
    not_empty: false,
    at_a: false,
    anchored: false,
};

/// The whole text, with few backtracks.
const FEW: How = How {
    limit: 100,
    ..WHOLE
};

/// The same where empty matches are refused.
const NOT_EMPTY: How = How {
    not_empty: true,
    ..FEW
};

/// Thirty times the text.
const THIRTY: How = How { times: 30, ..WHOLE };

/// Matches start before an `a` only.
const AT_A: How = How {
    limit: 1_000,
    at_a: true,
    ..WHOLE
};

/// The same, by an anchored program.
const ANCHORED: How = How {
    anchored: true,
    ..AT_A
};

/// Has a tail whose longest match is not its first one.
const TAIL: Text = "(?<=x)(?:a|ab){1,2}(?:c|bcd)?";

/// A pattern, a text, how it is searched, and the span of the match, `None` for no match.
struct Search(Text, Text, How, Option<(usize, usize)>);

static SEARCHES: [Search; 31] = [
    // atomic groups
    Search("(?>a*)b", "aab", WHOLE, Some((0, 3))),
    Search("(?>(?:a|ab)(?:c|bcd)?)d", "abcd", WHOLE, None),
    Search("(?>(?:ab|a)(?:c|bcd)?)d", "abcd", WHOLE, Some((0, 4))),
    Search("(?>(?:a?){30}a{30})c(?!d)", "a", THIRTY, None),
    // the body goes past the range of the search, where no match may end
    Search("(?>(?:a|b)*)", "abab", How { end: 2, ..FEW }, None),
    Search("(?>(?:a|b)*)", "abab", FEW, Some((0, 4))),
    // negative look-aheads and conditions
    Search("(?!(?:a?){30}a{30})a", "a", THIRTY, Some((1, 2))),
    Search("(?!(?:a?){30}a{30}b)a", "a", THIRTY, Some((0, 1))),
    Search("(?((?:a?){30}a{30})x|a)", "a", THIRTY, Some((1, 2))),
    Search("(?((?:a|b)+c)d|b)", "abcd", WHOLE, Some((0, 4))),
    Search("(?!a*b)a", "aab", WHOLE, None),
    Search("(?!a*b)a", "aba", WHOLE, Some((2, 3))),
    Search("(?!a|b*c)b", "bcb", WHOLE, Some((2, 3))),
    // positive look-aheads
    Search("(?=a+?b)a", "aab", WHOLE, Some((0, 1))),
    Search("(?=(?:b|ab)*c)a", "xabbc", WHOLE, Some((1, 2))),
    Search("(?=(?:a?){30}a{30})b", "a", THIRTY, None),
    // a look-ahead is one backtrack at each start
    Search(
        "(?=a*)b",
        "a",
        How {
            times: 2_000,
            limit: 3_000,
            ..WHOLE
        },
        None,
    ),
    // a tail is searched in linear time
    Search(
        "(?<=x)(?:a?){30}a{30}",
        "xaaaaaaaaaaaaaaaaaaaaaaaaaaaaaa",
        How { limit: 40, ..WHOLE },
        Some((1, 31)),
    ),
    // a tail ends in range
    Search(TAIL, "xabcd", FEW, Some((1, 5))),
    Search(TAIL, "xabcd", How { end: 4, ..FEW }, Some((1, 2))),
    Search(TAIL, "xabcd", How { end: 1, ..FEW }, None),
    // the longest match of a tail
    Search(
        TAIL,
        "xabcd",
        How {
            longest: true,
            ..FEW
        },
        Some((1, 5)),
    ),
    Search(
        TAIL,
        "xabcd",
        How {
            longest: true,
            end: 4,
            ..FEW
        },
        Some((1, 4)),
    ),
    // a tail where empty matches are refused
    Search("(?:a??){2}b??", "ca", NOT_EMPTY, Some((1, 2))),
    Search("a*", "ba", NOT_EMPTY, Some((1, 2))),
    Search(
        TAIL,
        "xabcd",
        How {
            end: 4,
            ..NOT_EMPTY
        },
        Some((1, 2)),
    ),
    // an anchored program tries the first start alone
    Search("a", "ba", AT_A, Some((1, 2))),
    Search("a", "ba", ANCHORED, None),
    Search("a", "ab", ANCHORED, Some((0, 1))),
    Search("b?a", "ba", ANCHORED, None),
    // a search starts at sought bytes alone
    Search("[a-c]+", "bcab", AT_A, Some((2, 4))),
];

/// Whether the run has the wanted answer.
fn is_found(
    alloc: Global,
    prog: &Prog,
    text: &str,
    how: &How,
    wanted: Option<(usize, usize)>,
) -> bool {
    if !prog.has_whole() {
        return false;
    }
    let mut sought = [false; 256];
    sought[97] = true;
    let input = RunInput {
        first: 0,
        continue_at: Some(0),
        range: Span {
            start: 0,
            end: how.end.min(text.len()),
        },
        anchored: false,
        no_start_text: false,
        no_end_text: false,
    };
    let options = RunOptions {
        backtrack_limit: how.limit,
        find_not_empty: how.not_empty,
        seek: how.at_a.then_some(sought),
    };
    run_spans(alloc, prog, text, &input, &options) == Ok(wanted)
}

/// Whether a search has the wanted answer.
fn holds(alloc: Global, row: &Search) -> bool {
    let options = CompileOptions {
        anchored: row.2.anchored,
        leftmost_longest: row.2.longest,
        ..CompileOptions::default()
    };
    let Some(prog) = program(alloc, row.0, false, &options) else {
        return false;
    };
    let Ok(text) = row.1.repeat(alloc, row.2.times) else {
        return false;
    };
    is_found(alloc, &prog, &text, &row.2, row.3)
}

#[test]
fn searches_find_spans(rt: HostRuntime) {
    let wrong = SEARCHES.iter().position(|row| !holds(rt.alloc(), row));
    assert_eq!(rt; wrong, None);
}
