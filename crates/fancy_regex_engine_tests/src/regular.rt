//! Searches by states with parts, and which patterns have such states.

use crate::compiled::Text;
use fancy_regex_analysis::analyze;
use fancy_regex_class::{RunInput, Span, Steps};
use fancy_regex_info::{AnalyzeContext, CompileOptions};
use fancy_regex_regular::{Regular, RegularMemory};
use fancy_regex_tree::{Expr, FLAG_MULTI, FLAG_ONIGURUMA_MODE, FLAG_UNICODE};
use std::alloc::Global;

/// What is known of a pattern and a text.
#[derive(Clone, Copy)]
enum Answer {
    /// The pattern has no states with parts.
    NoStates,
    /// It has, and nothing is to be found.
    Nothing,
    /// It has, and the first match has this span.
    Match(usize, usize),
}

/// A pattern, the flags that it is read with, a text and the answer.
struct Search(Text, u32, Text, Answer);

/// Flags of a pattern over ASCII alone.
const ASCII: u32 = 0;

const UNICODE: u32 = FLAG_UNICODE;

const ONIGURUMA: u32 = FLAG_UNICODE | FLAG_MULTI | FLAG_ONIGURUMA_MODE;

static SEARCHES: [Search; 100] = [
    // a line break is `\r\n`, or one character
    Search("\\R", UNICODE, "\r\n", Answer::Match(0, 2)),
    Search("\\R\\n", UNICODE, "\r\n", Answer::Nothing),
    Search("\\R\\n", UNICODE, "\r\n\n", Answer::Match(0, 3)),
    Search("\\R{2}", UNICODE, "a\r\r\n", Answer::Match(1, 4)),
    Search("a\\Rb", UNICODE, "a\u{b}b", Answer::Match(0, 3)),
    Search("a\\Rb", UNICODE, "a\u{c}b", Answer::Match(0, 3)),
    Search("a\\Rb", UNICODE, "a\tb", Answer::Nothing),
    Search("a\\Rb", UNICODE, "a\u{e}b", Answer::Nothing),
    Search("\\R", UNICODE, "\u{85}", Answer::Match(0, 2)),
    Search("\\R", ASCII, "\u{85}", Answer::Nothing),
    Search("\\R", UNICODE, "a\u{2028}", Answer::Match(1, 4)),
    Search("\\R", UNICODE, "a\u{2029}", Answer::Match(1, 4)),
    Search("\\R", UNICODE, "a\u{2027}", Answer::Nothing),
    Search("\\R", ASCII, "\u{2028}\r", Answer::Match(3, 4)),
    Search("(?>\\R*)\\n", UNICODE, "\r\n\n", Answer::Nothing),
    Search("\\R*\\n", UNICODE, "\r\n\n", Answer::Match(0, 3)),
    Search("(?=\\R)\\s", UNICODE, "a \r\n", Answer::Match(2, 3)),
    Search("(?!\\R)\\s", UNICODE, "\n\r\n ", Answer::Match(3, 4)),
    Search("(a\\R)+", UNICODE, "a\r\na\ra", Answer::Match(0, 5)),
    // only newlines follow up to the end of the text
    Search("\\Z", UNICODE, "", Answer::Match(0, 0)),
    Search("a\\Z", UNICODE, "a", Answer::Match(0, 1)),
    Search("a\\Z", UNICODE, "a\n\n", Answer::Match(0, 1)),
    Search("a\\Z", UNICODE, "a\n\na", Answer::Match(3, 4)),
    Search("a\\Z", UNICODE, "a\r\n", Answer::Nothing),
    Search("\\Z\\n", UNICODE, "a\n\n", Answer::Match(1, 2)),
    Search("(?!\\Z)\\n", UNICODE, "\n\nb\n", Answer::Match(0, 1)),
    Search("(?=.*\\Z)\\w", UNICODE, "a\nbc\n", Answer::Match(2, 3)),
    Search("(?>b*)\\Z", UNICODE, "bba", Answer::Match(3, 3)),
    // `\r\n` too, with the flag for it
    Search("(?R)a\\Z", UNICODE, "a\r\n", Answer::Match(0, 1)),
    Search("(?R)a\\Z", UNICODE, "a\n\r\n\n", Answer::Match(0, 1)),
    Search("(?R)a\\Z", UNICODE, "a\r\r\n", Answer::Nothing),
    Search("(?R)a\\Z", UNICODE, "a\r", Answer::Nothing),
    Search("(?R)a\\r\\Z", UNICODE, "a\r\n", Answer::Match(0, 2)),
    // no word character before, and none after
    Search("\\b{start-half}a", UNICODE, "ba a", Answer::Match(3, 4)),
    Search("\\b{start-half}-", UNICODE, "a--", Answer::Match(2, 3)),
    Search("a\\b{end-half}", UNICODE, "ab a", Answer::Match(3, 4)),
    Search("-\\b{end-half}", UNICODE, "-a--", Answer::Match(2, 3)),
    Search("a\\b{end-half}", UNICODE, "aé", Answer::Nothing),
    Search("a\\b{end-half}", ASCII, "aé", Answer::Match(0, 1)),
    // the start of a line, but not the end of the text after a newline
    Search("^", ONIGURUMA, "", Answer::Match(0, 0)),
    Search("\\n^", ONIGURUMA, "a\n", Answer::Nothing),
    Search("\\n^", ONIGURUMA, "a\nb", Answer::Match(1, 2)),
    Search("\\n^", ONIGURUMA, "a\n\n", Answer::Match(1, 2)),
    // what never matches
    Search("a*(*FAIL)", UNICODE, "aa", Answer::Nothing),
    Search("a(*FAIL)|b", UNICODE, "ab", Answer::Match(1, 2)),
    Search("(?!a(*FAIL))a", UNICODE, "a", Answer::Match(0, 1)),
    // a group in a part
    Search("(?=(a))a", UNICODE, "a", Answer::Match(0, 1)),
    // a look-behind of several characters, or of branches that are not equally long
    Search("(?<=ab|c)d", UNICODE, "abd", Answer::Match(2, 3)),
    Search("(?<=ab|c)d", UNICODE, "cd", Answer::Match(1, 2)),
    Search("(?<=ab|c)d", UNICODE, "bd", Answer::Nothing),
    Search("(?<!ab|c)d", UNICODE, "abdcdd", Answer::Match(5, 6)),
    Search("(?<=é.)x", UNICODE, "axéax", Answer::Match(5, 6)),
    Search("(?<=(?<=a|bc)b)c", UNICODE, "bbcabc", Answer::Match(5, 6)),
    Search("(?<=(?=.{3}).b)c", UNICODE, "abc", Answer::Match(2, 3)),
    // a conditional: from the first way of its condition the one branch, and where there is none the other
    Search("(?((?=a))ab|c)", UNICODE, "xab", Answer::Match(1, 3)),
    Search("(?((?=a))ab|c)", UNICODE, "ac", Answer::Match(1, 2)),
    Search("(?((?=a))ab|a)", UNICODE, "ac", Answer::Nothing),
    Search("(?(a|ab)c|d)", UNICODE, "abc", Answer::Nothing),
    Search("(?(ab|a)c|d)", UNICODE, "abc", Answer::Match(0, 3)),
    Search("(?(a?)b|c)", UNICODE, "cb", Answer::Match(1, 2)),
    Search("(?((?(a)b|c))d|e)", UNICODE, "abd", Answer::Match(0, 3)),
    Search("(?((?(a)b|c))d|e)", UNICODE, "cd", Answer::Match(0, 2)),
    Search("(?((?(a)b|c))d|e)", UNICODE, "ae", Answer::Match(1, 2)),
    Search("(?!(?(a)b|c))\\w", UNICODE, "abcad", Answer::Match(1, 2)),
    Search("(?>(?(a)b*|c))b", UNICODE, "abb", Answer::Nothing),
    Search("(?(a)b|c){3,}?", UNICODE, "ababcc", Answer::Match(0, 5)),
    Search("(?:(?(a)b?|c?))*d", UNICODE, "abcad", Answer::Match(0, 5)),
    Search("(?:(?(a?)b?|c))*d", UNICODE, "abad", Answer::Match(0, 4)),
    Search(
        "(?:x(?((?=a))a|))*b",
        UNICODE,
        "xaxxab",
        Answer::Match(0, 6),
    ),
    Search("(?(\\d)\\w|[^x])", UNICODE, "x1", Answer::Nothing),
    // definitions match the empty string, whatever is in them
    Search("(?(DEFINE)(a))b", UNICODE, "ab", Answer::Match(1, 2)),
    Search("(?(DEFINE)(a)\\1)b", UNICODE, "aab", Answer::Match(2, 3)),
    Search("(?:(?(DEFINE)(a)))*b", UNICODE, "ab", Answer::Match(1, 2)),
    Search(
        "(?=(?(DEFINE)([bc]))\\d)[1-9]",
        UNICODE,
        "0b5",
        Answer::Match(2, 3),
    ),
    // calls are the bodies of their groups, as often as there are calls
    Search("(?(DEFINE)(a))\\g<1>", UNICODE, "ba", Answer::Match(1, 2)),
    Search(
        "(?(DEFINE)(a|ab))\\g<1>c",
        UNICODE,
        "abc",
        Answer::Match(0, 3),
    ),
    Search(
        "(?(DEFINE)([ab]c))\\g<1>{2,}d",
        UNICODE,
        "xacbcd",
        Answer::Match(1, 6),
    ),
    Search(
        "(?(DEFINE)(a)(\\g<1>\\g<1>)(\\g<2>\\g<2>))\\g<3>b",
        UNICODE,
        "aaab aaaab",
        Answer::Match(5, 10),
    ),
    Search("\\g<w>-(?<w>\\w+)", UNICODE, "ab-cd", Answer::Match(0, 5)),
    Search(
        "(?(DEFINE)(?<octet>25[0-5]|2[0-4]\\d|1?\\d?\\d))\\b\\g<octet>(?:\\.\\g<octet>){3}\\b(?!\\.)",
        UNICODE,
        "x 1.2.3.4.5",
        Answer::Match(4, 11),
    ),
    // in look-arounds, atomic groups and loops
    Search(
        "(?(DEFINE)(ab))(?<=\\g<1>)c",
        UNICODE,
        "abc",
        Answer::Match(2, 3),
    ),
    Search(
        "(?(DEFINE)(a|ab))(?>\\g<1>)c",
        UNICODE,
        "abc",
        Answer::Nothing,
    ),
    Search(
        "(?(DEFINE)(a|ab))(?!\\g<1>)\\w",
        UNICODE,
        "abc",
        Answer::Match(1, 2),
    ),
    Search(
        "(?(DEFINE)(a?))(?:\\g<1>)*b",
        UNICODE,
        "aab",
        Answer::Match(0, 3),
    ),
    // what is repeated no times is not asked
    Search("(?:\\g<1>){0}(a)\\g<1>", UNICODE, "aa", Answer::Match(0, 2)),
    Search("(?:(a)\\1){0}b", UNICODE, "ab", Answer::Match(1, 2)),
    // what has no states
    Search("(a\\g<1>?b)", UNICODE, "ab", Answer::NoStates),
    Search("(x\\g<2>?)(y\\g<1>?)", UNICODE, "ab", Answer::NoStates),
    Search("(x\\g<2>?|z)(a)\\2", UNICODE, "ab", Answer::NoStates),
    Search("(?(DEFINE)((a)\\2))\\g<1>", UNICODE, "ab", Answer::NoStates),
    Search(
        "(?(DEFINE)(a{3000}))\\g<1>\\g<1>",
        UNICODE,
        "ab",
        Answer::NoStates,
    ),
    Search("(a)?(?(1)b|c)", UNICODE, "ab", Answer::NoStates),
    Search("(?(a)b|(c)\\1)", UNICODE, "ab", Answer::NoStates),
    Search("(a)\\1", UNICODE, "aa", Answer::NoStates),
    Search("(a\\K)\\g<1>", UNICODE, "aa", Answer::NoStates),
    // `\K` resets the start
    Search("a\\Kb", UNICODE, "ab", Answer::Match(1, 2)),
    Search("(?>(?:a|b\\K)+)c", UNICODE, "abac", Answer::Match(2, 4)),
    // `\G` has no place
    Search("\\Ga", UNICODE, "aa", Answer::Nothing),
    Search("\\G\\Kb", UNICODE, "ab", Answer::Nothing),
    Search("(?!\\G)a", UNICODE, "ba", Answer::Match(1, 2)),
];

/// A pattern with `\G`, a text, where `\G` holds, and the span of the first match.
struct Continued(Text, Text, Option<usize>, Option<(usize, usize)>);

static CONTINUED: [Continued; 14] = [
    Continued("\\Ga", "baa", Some(1), Some((1, 2))),
    Continued("\\Ga", "baa", Some(2), Some((2, 3))),
    Continued("\\Ga", "baa", Some(0), None),
    Continued("\\Ga", "aaa", None, None),
    Continued("a*\\G", "aab", Some(2), Some((0, 2))),
    Continued("(?:a|\\Gb)+", "babb", Some(2), Some((1, 3))),
    Continued("(?!\\G)a", "aa", Some(0), Some((1, 2))),
    Continued("(?!\\G)a", "aa", None, Some((0, 1))),
    Continued("(?=.*\\G)a", "baba", Some(1), Some((1, 2))),
    Continued("(?=.*\\G)a", "baba", Some(2), Some((1, 2))),
    Continued("(?<=\\Gé)b", "ébéb", Some(3), Some((5, 6))),
    Continued("(?>\\Ga|b)c", "acbc", Some(1), Some((2, 4))),
    Continued("(?(\\G)a|b)", "ab", None, Some((1, 2))),
    Continued("(?(\\G)a|b)", "aba", Some(2), Some((1, 2))),
];

/// A pattern, a text, and the slots of the first match.
struct Groups(Text, Text, [usize; 6], usize);

/// No place.
const UNSET: usize = usize::MAX;

/// Groups in look-arounds, atomic groups and conditionals, as the backtracking program has them.
static GROUPS: [Groups; 19] = [
    // of the last iteration
    Groups("(a(?=b|(c)))+", "abac", [0, 1, 0, 1, UNSET, UNSET], 6),
    Groups("(a(?=b|(c))b?)+", "abac", [0, 3, 2, 3, 3, 4], 6),
    // the first way of a part stays
    Groups("(?=(a|ab)(?!x))ab", "abx", [0, 2, 0, 1, UNSET, UNSET], 4),
    Groups("(?=(a|ab)(?!x))ab", "aba", [0, 2, 0, 1, UNSET, UNSET], 4),
    Groups("(?>(a)|b)+c", "abc", [0, 3, 0, 1, UNSET, UNSET], 4),
    Groups("(?:(?=(.*))a)*b", "aab", [0, 3, 1, 3, UNSET, UNSET], 4),
    // before the start
    Groups("(?<=(a|b)c)d", "xacd", [3, 4, 1, 2, UNSET, UNSET], 4),
    // a condition keeps what its first way writes
    Groups("(?((a)|b)(?=(c))c|d)", "ac", [0, 2, 0, 1, 1, 2], 6),
    Groups("(?((a)|b)(?=(c))c|d)", "bc", [0, 2, UNSET, UNSET, 1, 2], 6),
    Groups("(?((a)|b)c|(d))", "bd", [1, 2, UNSET, UNSET, 1, 2], 6),
    Groups("(?:(?((?=a))(a)|(b)))+", "aba", [0, 3, 2, 3, 1, 2], 6),
    Groups("(?:(?((?=a))(a?)|(b?)))*", "aab", [0, 3, 1, 2, 3, 3], 6),
    // groups of definitions are numbered, and not set
    Groups("(?(DEFINE)(a))(b)", "ab", [1, 2, UNSET, UNSET, 1, 2], 6),
    Groups(
        "(?=(?(DEFINE)(a))b)(\\w)",
        "ab",
        [1, 2, UNSET, UNSET, 1, 2],
        6,
    ),
    // a call does not write its own group, but those inside
    Groups("(a|b)\\g<1>", "ab", [0, 2, 0, 1, UNSET, UNSET], 4),
    Groups("((a)|b)\\g<1>", "ba", [0, 2, 0, 1, 1, 2], 6),
    Groups(
        "(?(DEFINE)((a|b)c))\\g<1>",
        "bc",
        [0, 2, UNSET, UNSET, 0, 1],
        6,
    ),
    Groups(
        "(?(DEFINE)((a)b))(?=\\g<1>)a",
        "ab",
        [0, 1, UNSET, UNSET, 0, 1],
        6,
    ),
    // what must not be is not written
    Groups("(?!(b))a", "a", [0, 1, UNSET, UNSET, UNSET, UNSET], 4),
];

/// A pattern, a text, and the offsets of the groups of the longest match, of which so many count; none where there is no match.
struct Longest(Text, Text, [usize; 6], usize);

static LONGEST: [Longest; 24] = [
    Longest(
        "a|ab(?=c)|abc",
        "abcd",
        [0, 3, UNSET, UNSET, UNSET, UNSET],
        2,
    ),
    Longest("(?>a|ab)c?", "abc", [0, 1, UNSET, UNSET, UNSET, UNSET], 2),
    Longest(
        "(?>a|ab)c?|ab",
        "abc",
        [0, 2, UNSET, UNSET, UNSET, UNSET],
        2,
    ),
    Longest(
        "(?=a|ab)\\w*?",
        "xab",
        [1, 3, UNSET, UNSET, UNSET, UNSET],
        2,
    ),
    // of the ways that end last the first one counts
    Longest("(a)b|(ab)(?!x)", "ab", [0, 2, 0, 1, UNSET, UNSET], 6),
    Longest("a(?!x)|(a)b|(ab)", "ab", [0, 2, 0, 1, UNSET, UNSET], 6),
    Longest("(a|ab)(?=c|b)(b?)", "abc", [0, 2, 0, 1, 1, 2], 6),
    Longest("(a??)(?=a)(a*)", "aaa", [0, 3, 0, 0, 0, 3], 6),
    // lazy repeats go as far as they may
    Longest(
        "a(?!x).*?",
        "abbbbbbbbb",
        [0, 10, UNSET, UNSET, UNSET, UNSET],
        2,
    ),
    Longest("(?=a)(a*?)(?!b)", "aaaaaab", [0, 5, 0, 5, UNSET, UNSET], 4),
    Longest(
        "(?:a|aa|b(?=b)){2,}?",
        "xaabbbba",
        [1, 6, UNSET, UNSET, UNSET, UNSET],
        2,
    ),
    // the first start that has a way, though a later one has a longer
    Longest(
        "a(?!c)|b(?=c)\\w+",
        "abcccc",
        [0, 1, UNSET, UNSET, UNSET, UNSET],
        2,
    ),
    // parts keep their first way
    Longest("(?=(a|ab))a(?:b)?", "ab", [0, 2, 0, 1, UNSET, UNSET], 4),
    Longest("(?=(a|ab)c)\\w+?", "abc", [0, 3, 0, 2, UNSET, UNSET], 4),
    Longest("(?((?=(a|ab)))a|b)b?", "ab", [0, 2, 0, 1, UNSET, UNSET], 4),
    Longest("(?>(a|ab))(c|bcd)?", "abcd", [0, 4, 0, 1, 1, 4], 6),
    Longest("((?>a|ab))c|(a)b", "abc", [0, 2, UNSET, UNSET, 0, 1], 6),
    // characters of several bytes
    Longest("é(?!x)|é.", "éé", [0, 4, UNSET, UNSET, UNSET, UNSET], 2),
    Longest("(?<=é)(.??)(.*?)", "ééaé", [2, 7, 2, 2, 2, 7], 6),
    Longest(
        "(?<=a|bc)x*?",
        "aaxxxx",
        [1, 1, UNSET, UNSET, UNSET, UNSET],
        2,
    ),
    Longest(
        "(?<=a|bc)x+?",
        "aaxxxx",
        [2, 6, UNSET, UNSET, UNSET, UNSET],
        2,
    ),
    Longest(
        "\\Ra??|\\R\\n?(?=a)",
        "\r\na",
        [0, 3, UNSET, UNSET, UNSET, UNSET],
        2,
    ),
    Longest("(?=b)a", "ab", [0, 0, UNSET, UNSET, UNSET, UNSET], 0),
    Longest("(a|b)*?(?!a|b)", "abab", [0, 4, 3, 4, UNSET, UNSET], 4),
];

/// The states of a pattern, if it has some. `None` for a pattern that is refused.
fn compiled(alloc: Global, pattern: &str, flags: u32) -> Option<Option<Regular>> {
    compiled_for(alloc, pattern, flags, false)
}

/// The same, for the first match or the longest.
fn compiled_for(
    alloc: Global,
    pattern: &str,
    flags: u32,
    longest: bool,
) -> Option<Option<Regular>> {
    let tree = Expr::parse_tree_with_flags(alloc, pattern, flags).ok()?;
    let info = analyze(alloc, &tree, AnalyzeContext::default()).ok()?;
    let options = CompileOptions {
        unicode: flags != ASCII,
        leftmost_longest: longest,
        ..CompileOptions::default()
    };
    Regular::if_supported(alloc, &info, &options).ok()
}

/// A search from the start of the text to its end.
fn whole(text: &str) -> RunInput {
    RunInput {
        first: 0,
        continue_at: None,
        range: Span {
            start: 0,
            end: text.len(),
        },
        anchored: false,
        no_start_text: false,
        no_end_text: false,
    }
}

/// Whether a search from the start of the text, in memory that other searches used, has this answer.
fn answers(regular: &Regular, text: &str, memory: &mut RegularMemory, answer: Answer) -> bool {
    let input = whole(text);
    if input.range.end > text.len() || !text.is_char_boundary(input.first) {
        return false;
    }
    match (
        regular.find_span_in(text, &input, &mut Steps::new(), memory),
        answer,
    ) {
        (Ok(Some(span)), Answer::Match(start, end)) => span == (start, end),
        (Ok(None), Answer::Nothing) => true,
        _ => false,
    }
}

/// A search whose `\G` holds at this place.
fn input_at(text: &str, continue_at: Option<usize>) -> RunInput {
    RunInput {
        continue_at,
        ..whole(text)
    }
}

/// Whether a search whose `\G` holds at this place has this answer.
fn continues(regular: &Regular, row: &Continued, memory: &mut RegularMemory) -> bool {
    let input = input_at(row.1, row.2);
    if input.range.end > row.1.len() || !row.1.is_char_boundary(input.first) {
        return false;
    }
    match regular.find_span_in(row.1, &input, &mut Steps::new(), memory) {
        Ok(span) => span == row.3,
        Err(_) => false,
    }
}

/// Whether a pattern has states as wanted, which answer as wanted.
fn holds(alloc: Global, row: &Search, memory: &mut RegularMemory) -> bool {
    match (compiled(alloc, row.0, row.1), row.3) {
        (Some(None), Answer::NoStates) => true,
        (Some(Some(regular)), answer) => answers(&regular, row.2, memory, answer),
        _ => false,
    }
}

/// Whether the first match of a pattern has these slots.
fn has_groups(alloc: Global, row: &Groups, memory: &mut RegularMemory) -> bool {
    let Some(Some(regular)) = compiled(alloc, row.0, UNICODE) else {
        return false;
    };
    let input = whole(row.1);
    if input.range.end > row.1.len() || !row.1.is_char_boundary(input.first) {
        return false;
    }
    match regular.search_in(alloc, row.1, &input, memory) {
        Ok(Some(slots)) => row.2.get(..row.3) == Some(slots.as_slice()),
        _ => false,
    }
}

/// Whether the longest match of a pattern has these slots, and its search for the span alone finds the same.
fn has_longest(alloc: Global, row: &Longest, memory: &mut RegularMemory) -> bool {
    let Some(Some(regular)) = compiled_for(alloc, row.0, UNICODE, true) else {
        return false;
    };
    let input = whole(row.1);
    if input.range.end > row.1.len() || !row.1.is_char_boundary(input.first) {
        return false;
    }
    let span = regular.find_span_in(row.1, &input, &mut Steps::new(), memory);
    match (regular.search_in(alloc, row.1, &input, memory), span) {
        (Ok(Some(slots)), Ok(Some(span))) => {
            row.2.get(..row.3) == Some(slots.as_slice()) && span == (row.2[0], row.2[1])
        }
        (Ok(None), Ok(None)) => row.3 == 0,
        _ => false,
    }
}

#[test]
fn longest_matches_are_found(rt: HostRuntime) {
    let mut memory = RegularMemory::new(rt.alloc());
    for (number, row) in LONGEST.iter().enumerate() {
        assert!(rt; has_longest(rt.alloc(), row, &mut memory), "row {number}");
    }
}

#[test]
fn parts_write_their_groups(rt: HostRuntime) {
    let mut memory = RegularMemory::new(rt.alloc());
    for (number, row) in GROUPS.iter().enumerate() {
        assert!(rt; has_groups(rt.alloc(), row, &mut memory), "row {number}");
    }
}

#[test]
fn states_with_parts_answer_searches(rt: HostRuntime) {
    let mut memory = RegularMemory::new(rt.alloc());
    for (number, row) in SEARCHES.iter().enumerate() {
        assert!(rt; holds(rt.alloc(), row, &mut memory), "row {number}");
    }
}

/// Whether a pattern has states that answer this search as wanted.
fn continues_as_wanted(alloc: Global, row: &Continued, memory: &mut RegularMemory) -> bool {
    match compiled(alloc, row.0, UNICODE) {
        Some(Some(regular)) => continues(&regular, row, memory),
        _ => false,
    }
}

#[test]
fn searches_continue_at_their_place(rt: HostRuntime) {
    let mut memory = RegularMemory::new(rt.alloc());
    for (number, row) in CONTINUED.iter().enumerate() {
        assert!(rt;
            continues_as_wanted(rt.alloc(), row, &mut memory),
            "row {number}"
        );
    }
}
