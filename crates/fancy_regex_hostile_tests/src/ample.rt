//! Long runs, large counts, many groups, and long texts that are searched and made: while memory is ample, each has its answer, and
//! none is told as want of memory.

use fancy_regex::{NoExpand, Regex, RegexBuilder, Result};
use std::alloc::Global;

/// A text that is made of another one so many times.
#[derive(Clone, Copy)]
struct Repeated(&'static str, usize);

/// A pattern, a text, and where the match of a search ends, if there is one. The search may go back 1,000,000,000 times.
struct Search(Repeated, Repeated, Option<usize>);

/// More than 100,000,000 steps of the machine, and long texts for the linear engine and for the machine.
static LONG: [Search; 3] = [
    Search(
        Repeated("(?:(?:(?=a)(?=a)){1000}){1000}(?=b)", 1),
        Repeated("a", 40),
        None,
    ),
    Search(
        Repeated("(?:a|b|ab)*bc", 1),
        Repeated("ab", 5_000_000),
        None,
    ),
    Search(Repeated("(\\w)\\1", 1), Repeated("ab", 5_000_000), None),
];

/// Counts, and more groups than 16 bits count, for the machine and for the linear engine.
static LARGE: [Search; 6] = [
    Search(
        Repeated("(?!b)(?:ab){100000}", 1),
        Repeated("ab", 100_000),
        Some(200_000),
    ),
    Search(
        Repeated("(?!b)a{100000,}", 1),
        Repeated("a", 100_001),
        Some(100_001),
    ),
    Search(
        Repeated("(?!b)a{0,1000000}", 1),
        Repeated("a", 1_000),
        Some(1_000),
    ),
    Search(Repeated("a{10000}", 1), Repeated("a", 10_000), Some(10_000)),
    Search(
        Repeated("(?!b)(a)", 70_000),
        Repeated("a", 70_000),
        Some(70_000),
    ),
    Search(Repeated("(a)", 70_000), Repeated("b", 1), None),
];

/// Where the first match ends.
fn found_end(alloc: Global, row: &Search) -> Result<Option<usize>> {
    let Search(Repeated(pattern, patterns), Repeated(text, texts), _) = row;
    let pattern = pattern.repeat(alloc, *patterns)?;
    let text = text.repeat(alloc, *texts)?;
    let mut builder = RegexBuilder::new(alloc, &pattern)?;
    let regex = builder.backtrack_limit(1_000_000_000).build(alloc)?;
    match regex.find(alloc, text.as_str())? {
        Some(found) => Ok(Some(found.end())),
        None => Ok(None),
    }
}

/// Whether a search has its answer.
fn is_right(alloc: Global, row: &Search) -> bool {
    match found_end(alloc, row) {
        Ok(end) => end == row.2,
        Err(_) => false,
    }
}

#[test]
fn long_searches_answer_while_memory_is_ample(rt: HostRuntime) {
    let wrong = LONG.iter().position(|row| !is_right(rt.alloc(), row));
    assert_eq!(rt; wrong, None);
}

#[test]
fn large_patterns_answer_while_memory_is_ample(rt: HostRuntime) {
    let wrong = LARGE.iter().position(|row| !is_right(rt.alloc(), row));
    assert_eq!(rt; wrong, None);
}

/// Whether each `a` of a long text is replaced by a regex of `a`.
fn replaces_all(alloc: Global, regex: &Regex) -> Result<bool> {
    let text = "ab".repeat(alloc, 100_000)?;
    let wanted = "xyzb".repeat(alloc, 100_000)?;
    let made = regex.replace_all(alloc, text.as_str(), NoExpand("xyz"))?;
    Ok(made.as_str() == wanted.as_str())
}

/// Whether the regex of a pattern, which matches `a`, makes a long text.
fn makes_a_long_text(alloc: Global, pattern: &str) -> Result<bool> {
    let regex = Regex::new(alloc, pattern)?;
    replaces_all(alloc, &regex)
}

#[test]
fn a_long_text_is_made_while_memory_is_ample(rt: HostRuntime) {
    let is_made = makes_a_long_text(rt.alloc(), "a");
    assert!(rt; matches!(is_made, Ok(true)));
}
