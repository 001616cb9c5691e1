//! The check of a pattern that is refused.

use crate::case::Case;
use crate::engines::{Engine, inner_places};
use fancy_regex::{Error, RegexSet, Result};
use std::alloc::Global;

/// Whether a set and the inner calls refuse the pattern with the same error, and printing as well if the pattern cannot be read; one
/// that can be read is printed or has no printed text. The place of an error lies in the pattern or at its end.
pub fn refused_alike(alloc: Global, case: Case<'_>, error: &Error) -> Result<bool> {
    let options = case.setting.builder();
    let patterns = [case.pattern];
    Ok(
        fails_with(
            RegexSet::new_with_options(alloc, &patterns, &options),
            error,
        )? && fails_with(inner_places(alloc, case, Engine::Own), error)?
            && prints_alike(alloc, case, error)?,
    )
}

/// Whether printing fails with this error if it is one of reading, at a place in the pattern or at its end, and does not fail if it
/// is not.
fn prints_alike(alloc: Global, case: Case<'_>, error: &Error) -> Result<bool> {
    let printed = case.setting.builder().reprint(alloc, case.pattern);
    match error {
        Error::ParseError(at, _) => Ok(*at <= case.pattern.len() && fails_with(printed, error)?),
        _ => {
            let _printed = printed?;
            Ok(true)
        }
    }
}

/// Whether a call failed with this error.
fn fails_with<T: Drop>(made: Result<T>, error: &Error) -> Result<bool> {
    match made {
        Ok(_) => Ok(false),
        Err(Error::Memory) => Err(Error::Memory),
        Err(other) => Ok(other == *error),
    }
}
