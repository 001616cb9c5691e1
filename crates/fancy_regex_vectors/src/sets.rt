//! Sets of patterns.

use crate::case::Case;
use crate::quoted::{append_error, put_error};
use fancy_regex::{Error, RegexInput, RegexSet, RegexSetMatch, RegexSetMatchesAt, Result as Found};
use std::alloc::{AllocError, Global};
use std::fmt::Write;

/// Appends the members of the case's set that match at the earliest place, or `none`.
pub fn append_set(
    alloc: Global,
    out: &mut String,
    case: &Case<'_>,
    input: RegexInput<&str>,
) -> Result<(), AllocError> {
    match set_of(alloc, case) {
        Ok(set) => append_found(alloc, out, set.find_input(alloc, input)),
        Err(error) => put_error(alloc, out, &error),
    }
}

/// The set of the case's patterns.
fn set_of(alloc: Global, case: &Case<'_>) -> Result<RegexSet, Error> {
    let mut patterns: Vec<&str> = Vec::new(alloc);
    if case.pattern != "-" {
        for pattern in case.pattern.split(' ') {
            patterns.push(pattern)?;
        }
    }
    RegexSet::new_with_options(alloc, &patterns, &case.options)
}

/// Appends the members that match at a place, or `none`.
fn append_found(
    alloc: Global,
    out: &mut String,
    found: Found<Option<RegexSetMatchesAt<'_, &str>>>,
) -> Result<(), AllocError> {
    match found {
        Ok(Some(members)) => append_members(alloc, out, members),
        Ok(None) => out.push_str("none"),
        Err(error) => put_error(alloc, out, &error),
    }
}

/// Appends the members, with a blank between.
fn append_members(
    alloc: Global,
    out: &mut String,
    mut members: RegexSetMatchesAt<'_, &str>,
) -> Result<(), AllocError> {
    while let Some(member) = members.next() {
        append_member(alloc, out, &member)?;
    }
    Ok(())
}

/// Appends the number of a member and the span of its match, or the text of its error; after a blank if it is not the first.
fn append_member(
    alloc: Global,
    out: &mut String,
    member: &Found<RegexSetMatch<'_, &str>>,
) -> Result<(), AllocError> {
    if !out.is_empty() {
        out.push(' ')?;
    }
    match member {
        Ok(found) => {
            let (number, start, end) = (found.pattern(), found.start(), found.end());
            write!(out, "{number}:{start}..{end}")
        }
        Err(error) => append_error(alloc, out, error),
    }
}
