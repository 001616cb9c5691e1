//! Which regexes are linear.

use fancy_regex::{Error, RegexOptionsBuilder};
use std::alloc::Global;
use std::test::Fail;

/// Patterns, and whether their regexes are linear.
static PATTERNS: [(&str, bool); 47] = [
    ("a+b", true),
    (r"\bfoo\b", true),
    ("(a)(b|c)*", true),
    ("a{5000}", true),
    ("(?=.*x)a", true),
    ("(?!(?=.*x)a)b", true),
    ("(?>a*)b", true),
    ("(a)(?>b)(c)", true),
    ("(?<=a)c", true),
    (r"(?<!\w)c", true),
    ("(?<=ab)c", true),
    ("(?<=(a))c", true),
    ("(?<!the |an )b", true),
    (r"\b{start-half}c", true),
    ("a|(*FAIL)", true),
    (r"a\Z", true),
    (r"(?R)a\Z", true),
    (r"a\R", true),
    ("(?=a)a{100}", true),
    ("(?:x(?=(a))){0}b", true),
    ("(?((?=a))ab|c)", true),
    ("(?((?(a)b|c))d|(e))", true),
    (r"(?(DEFINE)(a)\1)b", true),
    ("(?=a)a{5000}", false),
    (r"(a)\1", false),
    ("(?=(a))b", true),
    ("(?>(a))b", true),
    ("(?:a(?=(b)))", true),
    (r"\Ka", true),
    (r"(a\K)\g<1>", false),
    (r"\Ga", true),
    (r"(?>\G|,)\w(?<!\Ga)", true),
    (r"\G(a)\1", false),
    (r"(a)\g<1>", true),
    (r"(a|(b))\g<1>\g<2>", true),
    (r"(a\g<1>?b)", false),
    (r"(x\g<2>?)(y\g<1>?)", false),
    (r"(a)\1\g<1>", false),
    (r"(?(DEFINE)((a)\2))\g<1>", false),
    (r"(?(DEFINE)(a{3000}))\g<1>", true),
    (r"(?(DEFINE)(a{3000}))\g<1>\g<1>", false),
    (r"(?(DEFINE)(a{3000}))(?:\g<1>){2}", false),
    (r"(?:(a)\1){0}b", true),
    (
        r"(?(DEFINE)(?<octet>25[0-5]|2[0-4]\d|1?\d?\d))\b\g<octet>(?:\.\g<octet>){3}\b(?!\.)",
        true,
    ),
    ("(a)?(?(1)b|c)", false),
    (r"(a)(?(b)c|\1)", false),
    (r"(?(DEFINE)(a))\g<1>", true),
];

/// Whether the regex of a pattern is linear, with these options.
fn is_linear(alloc: Global, pattern: &str, not_empty: bool, longest: bool) -> Result<bool, Error> {
    let text = String::from_str(alloc, pattern)?;
    let mut options = RegexOptionsBuilder::new();
    options.find_not_empty(not_empty).leftmost_longest(longest);
    Ok(options.build(alloc, text)?.is_linear())
}

#[test]
fn linear_patterns_are_told(rt: HostRuntime) -> Result<(), Fail> {
    for (pattern, is_due) in PATTERNS.iter() {
        let is_told = is_linear(rt.alloc(), pattern, false, false)?;
        assert!(rt; is_told == *is_due, "{pattern}");
    }
    Ok(())
}

#[test]
fn no_regex_that_refuses_empty_matches_is_linear(rt: HostRuntime) -> Result<(), Fail> {
    for pattern in ["a+b", "(?=.*x)a"] {
        assert!(rt; !is_linear(rt.alloc(), pattern, true, false)?, "{pattern}");
    }
    Ok(())
}

#[test]
fn the_same_patterns_are_linear_for_the_longest_match(rt: HostRuntime) -> Result<(), Fail> {
    for (pattern, is_due) in PATTERNS.iter() {
        let is_told = is_linear(rt.alloc(), pattern, false, true)?;
        assert!(rt; is_told == *is_due, "{pattern}");
    }
    Ok(())
}

/// A pattern of so many groups, each of which calls the one before three times.
fn multiplied(alloc: Global, groups: usize) -> Result<String, Fail> {
    let mut pattern = String::from_str(alloc, r"(?(DEFINE)(\b)")?;
    for group in 1..groups {
        pattern.push_str(&format!(in alloc; r"(\g<{group}>\g<{group}>\g<{group}>)")?)?;
    }
    pattern.push_str(&format!(in alloc; r")\g<{groups}>")?)?;
    Ok(pattern)
}

#[test]
fn what_calls_multiply_is_weighed_and_not_written_out(rt: HostRuntime) -> Result<(), Fail> {
    for (groups, is_due) in [
        (3usize, true),
        (7, true),
        (8, false),
        (18, false),
        (30, false),
    ] {
        let pattern = multiplied(rt.alloc(), groups)?;
        let is_told = is_linear(rt.alloc(), &pattern, false, false)?;
        assert!(rt; is_told == is_due, "{groups}");
    }
    Ok(())
}
