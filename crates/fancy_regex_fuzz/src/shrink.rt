//! The shortest pattern that can be found for a contradiction.

use crate::case::Case;
use crate::check::Check;
use crate::ending::{Ending, ending_of};
use std::alloc::{AllocError, Global};

/// The greatest number of characters that are removed.
const MOST: usize = 100;

/// The pattern of a case with as many characters removed as can be, one after the other, while the check still does not hold. One
/// that is made as plain may not stay plain, so it is left as it is where just that is the check.
pub fn shortest_pattern(alloc: Global, case: Case<'_>, check: Check) -> Result<String, AllocError> {
    let mut least = String::from_str(alloc, case.pattern)?;
    if check == Check::Plain {
        return Ok(least);
    }
    for _ in 0..MOST {
        let shorter = Case {
            pattern: &least,
            ..case
        };
        match shorter_pattern(alloc, shorter, check)? {
            Some(pattern) => least = pattern,
            None => return Ok(least),
        }
    }
    Ok(least)
}

/// The pattern without one of its characters, if the check still does not hold.
fn shorter_pattern(
    alloc: Global,
    case: Case<'_>,
    check: Check,
) -> Result<Option<String>, AllocError> {
    for index in 0..case.pattern.chars().count() {
        let pattern = without(alloc, case.pattern, index)?;
        let shorter = Case {
            pattern: &pattern,
            ..case
        };
        if ending_of(alloc, shorter) == Ending::Contradicts(check) {
            return Ok(Some(pattern));
        }
    }
    Ok(None)
}

/// The text without the character of this index.
fn without(alloc: Global, text: &str, left_out: usize) -> Result<String, AllocError> {
    let mut rest = String::new(alloc);
    for (index, sign) in text.chars().enumerate() {
        if index != left_out {
            rest.push(sign)?;
        }
    }
    Ok(rest)
}
