//! Memory is refused while a text is made, or appended to a buffer: the buffer is as before, and the same call then appends.

use crate::appending::Expanding;
use crate::outcome::first_wrong;
use crate::regex_row::{RegexCall, RegexRow};

const PATTERN: &str = "(\\w+) (?<b>\\w+)";

const TEXT: &str = "hello world";

static APPENDED: [RegexRow; 8] = [
    RegexRow(
        PATTERN,
        TEXT,
        RegexCall::Expand(Expanding::AppendExpansion, "$2 $1", "before world hello"),
    ),
    RegexRow(
        PATTERN,
        TEXT,
        RegexCall::Expand(Expanding::AppendExpansion, "", "before "),
    ),
    RegexRow(
        PATTERN,
        TEXT,
        RegexCall::Expand(
            Expanding::AppendExpansion,
            "a text without groups, longer than the buffer has room for at first",
            "before a text without groups, longer than the buffer has room for at first",
        ),
    ),
    RegexRow(
        PATTERN,
        TEXT,
        RegexCall::Expand(
            Expanding::Expand,
            "${b}-$0-$$",
            "before world-hello world-$",
        ),
    ),
    RegexRow(
        PATTERN,
        TEXT,
        RegexCall::Expand(Expanding::ReplaceAppend, "$2 $1", "before world hello"),
    ),
    RegexRow(
        PATTERN,
        TEXT,
        RegexCall::Expand(
            Expanding::ReplaceAppend,
            "$0$0",
            "before hello worldhello world",
        ),
    ),
    RegexRow(
        PATTERN,
        TEXT,
        RegexCall::Expand(
            Expanding::ReplaceAppendPlain,
            "$0 as it is, and not as a template",
            "before $0 as it is, and not as a template",
        ),
    ),
    RegexRow(
        PATTERN,
        TEXT,
        RegexCall::Expand(
            Expanding::WriteExpansion,
            "\\g<1>-\\10\\\\",
            "before hello-\\",
        ),
    ),
];

#[test]
fn a_refused_expansion_leaves_the_buffer(rt: HostRuntime) {
    assert_eq!(rt; first_wrong(&rt, &APPENDED), None);
}

static MADE: [RegexRow; 5] = [
    RegexRow(PATTERN, "a.b", RegexCall::Escape("a\\.b")),
    RegexRow(PATTERN, "ab", RegexCall::Escape("ab")),
    RegexRow(PATTERN, "$a", RegexCall::EscapeTemplate("$$a")),
    RegexRow(
        PATTERN,
        TEXT,
        RegexCall::Expand(Expanding::Expansion, "$b-$0", "world-hello world"),
    ),
    RegexRow(PATTERN, "$b ${other}", RegexCall::Check("other")),
];

#[test]
fn a_text_that_wants_memory_can_be_made_again(rt: HostRuntime) {
    assert_eq!(rt; first_wrong(&rt, &MADE), None);
}
