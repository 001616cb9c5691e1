//! Memory is refused during a search or a replacement: the regex is as before, and the same call then answers.

use crate::outcome::first_wrong;
use crate::regex_row::{RegexCall, RegexRow};

// One of each kind of construct.
static FOUND: [RegexRow; 25] = [
    RegexRow("(a|b|ab)*bc", "ababac", RegexCall::Find(0, None)),
    RegexRow("(?>a|ab)c", "abc", RegexCall::Find(0, None)),
    RegexRow("(a|b|ab)*bc", "xababbc", RegexCall::Find(0, Some((1, 7)))),
    RegexRow("(?<=a|bc)d", "bcd", RegexCall::Find(0, Some((2, 3)))),
    RegexRow(
        "(?<!b)[[:alpha:]&&[^a]]",
        "abcd",
        RegexCall::Find(0, Some((1, 2))),
    ),
    RegexRow("(?~abc)", "xabcx", RegexCall::Find(0, Some((0, 3)))),
    RegexRow("(?i)k", "\u{212a}", RegexCall::Find(0, Some((0, 3)))),
    RegexRow("(?i)(s)\\1", "xsS", RegexCall::Find(0, Some((1, 3)))),
    RegexRow("a++\\Kb", "aab", RegexCall::Find(0, Some((2, 3)))),
    RegexRow(
        "a{2}b{1,}?c{,1}$",
        "aabbc",
        RegexCall::Find(0, Some((0, 5))),
    ),
    RegexRow("(?:a|){2,3}+b", "aab", RegexCall::Find(0, Some((0, 3)))),
    RegexRow("^", "ab", RegexCall::Find(1, None)),
    RegexRow("(?m)^b$|\\Ac\\z", "a\nb", RegexCall::Find(0, Some((2, 3)))),
    RegexRow("\\bbar\\b", "fooé bar", RegexCall::Find(3, Some((6, 9)))),
    RegexRow(
        "\\<b\\B\\p{Ll}\\>\\Z",
        "a bé\n",
        RegexCall::Find(0, Some((2, 5))),
    ),
    RegexRow("\\Gx", "yx", RegexCall::Find(1, Some((1, 2)))),
    RegexRow("\\w+(?=!)", "so fancy!", RegexCall::Find(3, Some((3, 8)))),
    RegexRow("(?s).(?!.)", "ab", RegexCall::Find(0, Some((1, 2)))),
    RegexRow(
        "(?x) a # b\n (?(DEFINE)(?<d>[0-9]+))\\g<d>",
        "xa12",
        RegexCall::Find(0, Some((1, 4))),
    ),
    RegexRow("(?((?=a))ab|c)", "xab", RegexCall::Find(0, Some((1, 3)))),
    RegexRow("(a)?(?(1)b|c)", "c", RegexCall::Find(0, Some((0, 1)))),
    RegexRow("\\R\\x41\\d", "\r\nA1", RegexCall::Find(0, Some((0, 4)))),
    RegexRow("a(*FAIL)|b", "ab", RegexCall::Find(0, Some((1, 2)))),
    RegexRow("a(?:\\g<0>)?b", "aabb", RegexCall::Find(0, Some((0, 4)))),
    RegexRow(
        "(a\\g<1>?\\g<1>?b)",
        "xaabb",
        RegexCall::Find(0, Some((1, 5))),
    ),
];

#[test]
fn a_search_that_wants_memory_can_be_repeated(rt: HostRuntime) {
    assert_eq!(rt; first_wrong(&rt, &FOUND), None);
}

// A class that is not read as one class, so that its members are found by a search for each character.
static CLASSES: [RegexRow; 1] = [RegexRow("[)-[a]|b]", "ba", RegexCall::Find(0, Some((1, 2))))];

#[test]
fn a_class_that_wants_memory_is_searched_for_again(rt: HostRuntime) {
    assert_eq!(rt; first_wrong(&rt, &CLASSES), None);
}

static SOUGHT: [RegexRow; 5] = [
    RegexRow(
        "(?=(a|ab)(?!x))\\1c",
        "xxabc",
        RegexCall::Seek(false, Some((2, 5))),
    ),
    RegexRow(
        "(?<=\\$)\\d+(?!\\d)",
        "a1 $29",
        RegexCall::Seek(false, Some((4, 6))),
    ),
    RegexRow(
        "(?:a|ab)(?!c)",
        "xxabd",
        RegexCall::Seek(true, Some((2, 4))),
    ),
    RegexRow("fn|let|impl", "a let", RegexCall::Seek(false, Some((2, 5)))),
    RegexRow("a|ab", "xab", RegexCall::Seek(true, Some((1, 3)))),
];

#[test]
fn a_seeking_search_that_wants_memory_can_be_repeated(rt: HostRuntime) {
    assert_eq!(rt; first_wrong(&rt, &SOUGHT), None);
}

// The greatest number of looks is the weight of the pattern for each of the text's bytes, and once more; the machine has none.
static SEARCHED: [RegexRow; 5] = [
    RegexRow("(\\w+)b", "xab c", RegexCall::Search(Some((0, 3)), 54)),
    RegexRow("(x)(?:a|ab){3}", "xaab", RegexCall::Search(None, 115)),
    RegexRow("(a|b|ab)*bc", ALTERNATING, RegexCall::Search(None, 1121)),
    RegexRow("(\\w+)(?=b)", "xab c", RegexCall::Search(Some((0, 2)), 0)),
    RegexRow("(x)(?!a)", "xa", RegexCall::Search(None, 0)),
];

const ALTERNATING: &str = "ababababababababababababababababababababababababababababac";

#[test]
fn each_search_that_wants_memory_can_be_repeated(rt: HostRuntime) {
    assert_eq!(rt; first_wrong(&rt, &SEARCHED), None);
}

static CAPTURED: [RegexRow; 6] = [
    RegexRow(
        "(?=(a|ab)(?!x))\\1c",
        "abc",
        RegexCall::Capture(&[Some((0, 3)), Some((0, 2))]),
    ),
    RegexRow(
        "(\\((?:[^()]|\\g<1>)*\\))",
        "x(a(b)c)y",
        RegexCall::Capture(&[Some((1, 8)), Some((1, 8))]),
    ),
    RegexRow(
        "(a|b?)*",
        "ab",
        RegexCall::Capture(&[Some((0, 2)), Some((2, 2))]),
    ),
    RegexRow(
        "(?<a>x)(?<b>y)(?<a>z)",
        "xyz",
        RegexCall::Capture(&[Some((0, 3)), Some((0, 1)), Some((1, 2)), Some((2, 3))]),
    ),
    RegexRow(
        "(a)?(?(1)b|c)",
        "c",
        RegexCall::Capture(&[Some((0, 1)), None]),
    ),
    RegexRow(
        "(a)(?!a)",
        "aa",
        RegexCall::Capture(&[Some((1, 2)), Some((1, 2))]),
    ),
];

#[test]
fn a_capture_that_wants_memory_can_be_repeated(rt: HostRuntime) {
    assert_eq!(rt; first_wrong(&rt, &CAPTURED), None);
}

static REPLACED: [RegexRow; 11] = [
    RegexRow("(b)", "abc", RegexCall::Replace(0, "$1a", "ac")),
    RegexRow("(b)", "abc", RegexCall::Replace(0, "${1}a", "abac")),
    RegexRow("(b)", "abc", RegexCall::Replace(0, "x$", "ax$c")),
    RegexRow("foo\\Kbar", "foobar", RegexCall::Replace(0, "X", "fooX")),
    RegexRow("", "ab", RegexCall::Replace(0, "-", "-a-b-")),
    RegexRow("[^01]+", "1078910", RegexCall::Replace(1, "", "1010")),
    RegexRow(
        "(\\w+)(?!\\w) (\\w+)",
        "a bc d",
        RegexCall::Replace(1, "$2 $1", "bc a d"),
    ),
    RegexRow(
        "a\\.b",
        "a.b axb a.b",
        RegexCall::ReplacePlainly(0, "$1", "$1 axb $1"),
    ),
    RegexRow(
        "foo\\Kbar",
        "foobar",
        RegexCall::ReplacePlainly(0, "X", "fooX"),
    ),
    RegexRow("", "ab", RegexCall::ReplacePlainly(0, "-", "-a-b-")),
    RegexRow(
        "[^01]+",
        "1078910",
        RegexCall::ReplacePlainly(1, "", "1010"),
    ),
];

#[test]
fn a_replacement_that_wants_memory_can_be_repeated(rt: HostRuntime) {
    assert_eq!(rt; first_wrong(&rt, &REPLACED), None);
}

// What the function has done is kept also where the replacement wants memory.
static CALLED: [RegexRow; 2] = [
    RegexRow("a", "banana", RegexCall::ReplaceByFunction),
    RegexRow("a(?!x)", "banana", RegexCall::ReplaceByFunction),
];

#[test]
fn a_refused_replacement_keeps_what_its_function_did(rt: HostRuntime) {
    assert_eq!(rt; first_wrong(&rt, &CALLED), None);
}
