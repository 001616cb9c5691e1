//! Tests of the lexer: layout, escapes, bracketed classes, quantifiers and open parentheses.

use crate::debug_text::debug_text;
use fancy_regex_lex::{
    Flags, bracketed_class, escape, leading_quantifier, opening, quantifier_suffix, skip,
};
use std::alloc::{AllocError, Global};
use std::test::Fail;

/// A function of the lexer, with its mode.
#[derive(Clone, Copy)]
enum Reader {
    /// Skips layout.
    Layout { verbose: bool },
    /// Reads an escape.
    Escape { oniguruma: bool },
    /// Reads a class in brackets.
    Class,
    /// Reads a quantifier.
    Quantifier { oniguruma: bool },
    /// Reads what may follow a quantifier, in verbose mode.
    Suffix,
    /// Reads an open parenthesis, in Oniguruma mode.
    Opening,
}

/// A reader, a text, and its answer as `Debug` writes it.
static READINGS: [(Reader, &str, &str); 28] = [
    (Reader::Layout { verbose: false }, "(?#a\\)b)c", "Ok(\"c\")"),
    (Reader::Layout { verbose: true }, " # é\n\tb", "Ok(\"b\")"),
    (Reader::Layout { verbose: false }, " b", "Ok(\" b\")"),
    (
        Reader::Layout { verbose: false },
        "(?#\\)",
        "Err(ParseFault(ParseFault { left: 0, kind: UnclosedOpenParen }))",
    ),
    (
        Reader::Escape { oniguruma: false },
        "\\x41b",
        "Ok((Character('A'), \"b\"))",
    ),
    (
        Reader::Escape { oniguruma: false },
        "\\xE9",
        "Ok((Byte(233), \"\"))",
    ),
    (
        Reader::Escape { oniguruma: false },
        "\\U{1F600}",
        "Ok((Character('😀'), \"\"))",
    ),
    (
        Reader::Escape { oniguruma: false },
        "\\b{end}",
        "Ok((Assertion(RightWordBoundary), \"\"))",
    ),
    (
        Reader::Escape { oniguruma: true },
        "\\<",
        "Ok((Character('<'), \"\"))",
    ),
    (
        Reader::Escape { oniguruma: false },
        "\\p{^Lu}x",
        "Ok((Class(Named { negated: true, name: \"Lu\" }), \"x\"))",
    ),
    (
        Reader::Escape { oniguruma: false },
        "\\k<é-1>",
        "Ok((BackReference(Reference { target: ByName(\"é\"), level: Some(-1) }), \"\"))",
    ),
    (
        Reader::Escape { oniguruma: false },
        "\\g'+2'",
        "Ok((Call(Relative(2)), \"\"))",
    ),
    (
        Reader::Escape { oniguruma: false },
        "\\12a",
        "Ok((BackReference(Reference { target: ByNumber(12), level: None }), \"a\"))",
    ),
    (
        Reader::Escape { oniguruma: false },
        "\\x{000000041}",
        "Err(ParseFault(ParseFault { left: 13, kind: InvalidHex }))",
    ),
    (
        Reader::Escape { oniguruma: false },
        "\\uD800",
        "Err(ParseFault(ParseFault { left: 6, kind: InvalidCodepointValue }))",
    ),
    (
        Reader::Escape { oniguruma: false },
        "\\qa",
        "Err(ParseFault(ParseFault { left: 3, kind: InvalidEscape(\"\\\\q\") }))",
    ),
    (
        Reader::Class,
        "[^]a[b]\\d\\]\\x41]é",
        "Ok((\"[^]a[b]\\\\d\\\\]A]\", \"é\"))",
    ),
    (
        Reader::Class,
        "[a[b]",
        "Err(ParseFault(ParseFault { left: 0, kind: InvalidClass }))",
    ),
    (
        Reader::Class,
        "[a\\B]",
        "Err(ParseFault(ParseFault { left: 3, kind: InvalidClass }))",
    ),
    (
        Reader::Quantifier { oniguruma: true },
        "{ 1 , 2 }?",
        "Some((Quantifier { lo: 1, hi: 2, braces: true }, \"?\"))",
    ),
    (Reader::Quantifier { oniguruma: false }, "{,}", "None"),
    (
        Reader::Quantifier { oniguruma: false },
        "{18446744073709551615}",
        "None",
    ),
    (
        Reader::Suffix,
        " ?++",
        "Ok((QuantifierSuffix { lazy: true, possessive: true }, \"+\"))",
    ),
    (
        Reader::Opening,
        "(?<n>a)",
        "Ok((Capturing(Some(\"n\")), \"a)\"))",
    ),
    (
        Reader::Opening,
        "(?im-m:a)",
        "Ok((NonCapturing(Flags { casei: true, multi: false, dot_newline: false, verbose: false, swap_greed: false, \
        crlf: false }), \"a)\"))",
    ),
    (
        Reader::Opening,
        "(?(1+0)b)",
        "Ok((IfSet(Reference { target: ByNumber(1), level: Some(0) }), \"b)\"))",
    ),
    (Reader::Opening, "(?(<a)b)", "Ok((IfMatches, \"<a)b)\"))"),
    (
        Reader::Opening,
        "(?i-m-s)",
        "Err(ParseFault(ParseFault { left: 8, kind: UnknownFlag(\"(?i-m-\") }))",
    ),
];

/// All flags cleared.
const NO_FLAGS: Flags = Flags {
    casei: false,
    multi: false,
    dot_newline: false,
    verbose: false,
    swap_greed: false,
    crlf: false,
};

/// What the reader answers for the text, as `Debug` writes it.
fn reading(alloc: Global, reader: Reader, text: &str) -> Result<String, AllocError> {
    match reader {
        Reader::Layout { verbose } => debug_text(alloc, skip(verbose, text)),
        Reader::Escape { oniguruma } => debug_text(alloc, escape(alloc, oniguruma, text)),
        Reader::Class => debug_text(alloc, bracketed_class(alloc, false, text)),
        Reader::Quantifier { oniguruma } => debug_text(alloc, leading_quantifier(oniguruma, text)),
        Reader::Suffix => debug_text(alloc, quantifier_suffix(false, true, true, text)),
        Reader::Opening => debug_text(alloc, opening(alloc, true, NO_FLAGS, text)),
    }
}

#[test]
fn reads_tokens(rt: HostRuntime) -> Result<(), Fail> {
    for (reader, text, wanted) in READINGS.iter() {
        let found = reading(rt.alloc(), *reader, text)?;
        assert_eq!(rt; found.as_str(), *wanted);
    }
    Ok(())
}
