//! Words, inputs and patterns from strangers: what the program tells of each and what it writes, for writers that take one byte a
//! call and are full, or fail, after each beginning of the output.

use crate::program::Input::{Broken, Unread, Whole};
use crate::program::{ProgramCall, is_right};

static CALLS: [ProgramCall; 35] = [
    // The first fault.
    ProgramCall(&["find", "a"], Whole(b"\xFF"), 2, "input is not UTF-8", ""),
    ProgramCall(&["find", ")"], Whole(b"\xFF"), 2, "input is not UTF-8", ""),
    ProgramCall(&["find", "("], Whole(b"\xFF"), 2, "input is not UTF-8", ""),
    ProgramCall(
        &["set", "a", "("],
        Whole(b"a\xC3"),
        2,
        "input is not UTF-8",
        "",
    ),
    ProgramCall(
        &["print", "("],
        Unread,
        2,
        "Parsing error at position 1: Opening parenthesis without closing parenthesis",
        "",
    ),
    ProgramCall(
        &["print", "a\\Z"],
        Unread,
        2,
        "pattern does not reprint",
        "",
    ),
    ProgramCall(
        &["set", "--limit", "0", "a", "(?:(a|aa)+)\\1"],
        Whole(b"aa"),
        2,
        "Error executing regex: backtrack limit exceeded",
        "",
    ),
    ProgramCall(
        &["find", "--limit", "1000", "(a+)+\\1b"],
        Whole(b"aaaaaaaaaaaaaaaaaaaaaaaaaaaaaaaaaaaaaaaa"),
        2,
        "Error executing regex: backtrack limit exceeded",
        "",
    ),
    ProgramCall(
        &["find", "(?:a{65536}){65536}"],
        Whole(b"a"),
        2,
        "Error compiling regex: pattern too complex",
        "",
    ),
    ProgramCall(
        &["captures", "[z-a]"],
        Whole(b"a"),
        2,
        "Error compiling regex: inner error: [z-a]",
        "",
    ),
    ProgramCall(
        &["split", "a**"],
        Whole(b"a"),
        2,
        "Parsing error at position 2: Target of repeat operator is invalid",
        "",
    ),
    ProgramCall(
        &["replace", "\\q", "$0"],
        Whole(b"a"),
        2,
        "Parsing error at position 0: Invalid escape: \\q",
        "",
    ),
    ProgramCall(
        &["find", "--not-empty", "^"],
        Whole(b"a"),
        2,
        "Error compiling regex: pattern can never match",
        "",
    ),
    ProgramCall(&["find", "b"], Broken(b"b"), 2, "cannot read input", ""),
    ProgramCall(&["find", "b"], Broken(b"\xFF"), 2, "cannot read input", ""),
    // Words that do not parse, and a call for help.
    ProgramCall(&[], Unread, 2, "words", ""),
    ProgramCall(&["find"], Unread, 2, "words", ""),
    ProgramCall(&["--bogus"], Unread, 2, "words", ""),
    ProgramCall(&["find", "--bogus", "a"], Unread, 2, "words", ""),
    ProgramCall(&["find", "--limit", "x", "a"], Unread, 2, "words", ""),
    ProgramCall(&["find", "-a"], Unread, 2, "words", ""),
    ProgramCall(&["seek", "a"], Unread, 2, "words", ""),
    ProgramCall(&["replace", "a"], Unread, 2, "words", ""),
    ProgramCall(&["--help"], Unread, 0, "help", ""),
    // What is written.
    ProgramCall(&["find", "a"], Whole(b"b"), 1, "nothing", ""),
    ProgramCall(&["find", "b"], Whole(b"b"), 0, "done", "0..1\n"),
    ProgramCall(&["find", "b"], Whole(b"ab"), 0, "done", "1..2\n"),
    ProgramCall(&["find", "--", "-a"], Whole(b"-a"), 0, "done", "0..2\n"),
    ProgramCall(&["find", "ab|b"], Whole(b"xabb"), 0, "done", "1..3\n3..4\n"),
    ProgramCall(
        &["captures", "(a)|(b)"],
        Whole(b"ab"),
        0,
        "done",
        "0..1 0..1 -\n1..2 - 1..2\n",
    ),
    ProgramCall(
        &["split", ",(?=b)"],
        Whole(b"a,b,c"),
        0,
        "done",
        "1:a\n3:b,c\n",
    ),
    ProgramCall(
        &["replace", "(\\w+) (\\w+)", "$2 $1"],
        Whole(b"hello world"),
        0,
        "done",
        "world hello",
    ),
    ProgramCall(&["print", "a"], Unread, 0, "done", "a\n"),
    ProgramCall(&["print", "(?:a|b)c"], Unread, 0, "done", "(?:a|b)c\n"),
    ProgramCall(
        &["set", "\\d+", "\\w+"],
        Whole(b"a1"),
        0,
        "done",
        "1 0..2\n",
    ),
];

#[test]
fn strangers_get_what_they_asked_for_or_the_first_fault(rt: HostRuntime) {
    for call in CALLS.iter() {
        let ProgramCall(_, _, _, told, written) = call;
        assert!(rt; is_right(rt.alloc(), call), "{told} {written}");
    }
}
