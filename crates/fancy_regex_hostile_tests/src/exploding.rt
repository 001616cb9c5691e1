//! Searches that pass a limit: too many branches are open, or the search goes back too often. Where a whole run would pass both, the
//! first is told; at a limit a search still answers, and one branch or backtrack more passes it. The other patterns that explode or go
//! back without end are cases of `fancy_regex_vectors`.

use fancy_regex::{Error, RegexBuilder, Result, RuntimeError};
use std::alloc::Global;

/// A search of so many letters, all of them `a`, and how often it may go back: the limit that it passes first, if it passes one.
struct Passes {
    pattern: &'static str,
    letters: usize,
    limit: usize,
    told: Option<RuntimeError>,
}

static SEARCHES: [Passes; 7] = [
    Passes {
        pattern: "(a)*\\1c",
        letters: 1_000_001,
        limit: 1_000_000,
        told: Some(RuntimeError::StackOverflow),
    },
    // each iteration opens a branch, and the search would go back only after them
    Passes {
        pattern: "(a)*\\1c",
        letters: 1_000_001,
        limit: 0,
        told: Some(RuntimeError::StackOverflow),
    },
    // it goes back once before them, from the `b`
    Passes {
        pattern: "(?:b|(a)*)\\1c",
        letters: 1_000_001,
        limit: 1,
        told: Some(RuntimeError::StackOverflow),
    },
    Passes {
        pattern: "(?:b|(a)*)\\1c",
        letters: 1_000_001,
        limit: 0,
        told: Some(RuntimeError::BacktrackLimitExceeded),
    },
    // 1,000,000 branches: one for the next start, one for each letter and one at the end; it goes back twice
    Passes {
        pattern: "(a)*\\1",
        letters: 999_998,
        limit: 2,
        told: None,
    },
    Passes {
        pattern: "(a)*\\1",
        letters: 999_998,
        limit: 1,
        told: Some(RuntimeError::BacktrackLimitExceeded),
    },
    Passes {
        pattern: "(a)*\\1",
        letters: 999_999,
        limit: 2,
        told: Some(RuntimeError::StackOverflow),
    },
];

/// The error of a search of the letters.
fn error_of(alloc: Global, row: &Passes) -> Result<Option<Error>> {
    let text = "a".repeat(alloc, row.letters)?;
    let mut builder = RegexBuilder::new(alloc, row.pattern)?;
    let regex = builder.backtrack_limit(row.limit).build(alloc)?;
    Ok(regex.find(alloc, text.as_str()).err())
}

/// Whether a search tells the limit that it passes first, or answers.
fn is_told(alloc: Global, row: &Passes) -> bool {
    match error_of(alloc, row) {
        Ok(Some(Error::RuntimeError(error))) => row.told == Some(error),
        Ok(None) => row.told.is_none(),
        _ => false,
    }
}

#[test]
fn a_search_tells_the_first_limit_that_it_passes(rt: HostRuntime) {
    let wrong = SEARCHES.iter().position(|row| !is_told(rt.alloc(), row));
    assert_eq!(rt; wrong, None);
}
