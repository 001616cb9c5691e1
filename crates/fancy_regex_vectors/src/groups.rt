//! Groups of matches.

use crate::call::GroupCall;
use crate::case::{Case, Question};
use crate::quoted::{append_quoted, put_error};
use crate::spans::{append_found, append_span};
use fancy_regex::{CaptureMatches, Captures, Regex, RegexInput, Result as Found};
use std::alloc::{AllocError, Global};

/// Appends the answer of a call for groups.
pub fn append_groups_call(
    alloc: Global,
    out: &mut String,
    case: &Case<'_>,
    input: RegexInput<&str>,
    regex: &Regex,
    question: Question<'_>,
    call: GroupCall,
) -> Result<(), AllocError> {
    let text = case.text;
    match call {
        GroupCall::Captures => append_captured(alloc, out, regex.captures(alloc, text)),
        GroupCall::CapturesInput => append_captured(alloc, out, regex.captures_input(alloc, input)),
        GroupCall::CapturesFromPos => {
            append_captured_from(alloc, out, text, regex, question.number)
        }
        GroupCall::CapturesIter => append_all(alloc, out, regex.captures_iter(alloc, text)),
        GroupCall::CapturesIterInput => {
            append_all(alloc, out, regex.captures_iter_input(alloc, input))
        }
        GroupCall::Name => append_named(alloc, out, regex.captures(alloc, text), question.argument),
        GroupCall::CaptureNames => append_names(out, regex),
    }
}

/// Appends the spans of all groups with a blank between, `-` for a group that did not participate in the match.
fn append_groups(out: &mut String, groups: &Captures<'_, &str>) -> Result<(), AllocError> {
    for group in 0..groups.len() {
        if group > 0 {
            out.push(' ')?;
        }
        match groups.get(group) {
            Some(found) => append_span(out, found)?,
            None => out.push('-')?,
        }
    }
    Ok(())
}

/// Appends the groups of a match, or `none`.
fn append_captured(
    alloc: Global,
    out: &mut String,
    captured: Found<Option<Captures<'_, &str>>>,
) -> Result<(), AllocError> {
    match captured {
        Ok(Some(groups)) => append_groups(out, &groups),
        Ok(None) => out.push_str("none"),
        Err(error) => put_error(alloc, out, &error),
    }
}

/// Appends the groups of the match from a byte offset, if that is a character boundary.
fn append_captured_from(
    alloc: Global,
    out: &mut String,
    text: &str,
    regex: &Regex,
    position: usize,
) -> Result<(), AllocError> {
    if !text.is_char_boundary(position) {
        return out.push_str("no boundary");
    }
    append_captured(alloc, out, regex.captures_from_pos(alloc, text, position))
}

/// Appends the groups of all matches, with ` / ` between; the error alone if a search fails.
fn append_all(
    alloc: Global,
    out: &mut String,
    mut matches: CaptureMatches<'_, &str>,
) -> Result<(), AllocError> {
    while let Some(found) = matches.next() {
        match found {
            Ok(groups) => append_next(out, &groups)?,
            Err(error) => return put_error(alloc, out, &error),
        }
    }
    Ok(())
}

/// Appends the groups of a match, after ` / ` if it is not the first.
fn append_next(out: &mut String, groups: &Captures<'_, &str>) -> Result<(), AllocError> {
    if !out.is_empty() {
        out.push_str(" / ")?;
    }
    append_groups(out, groups)
}

/// Appends the span of the group with this name, `none` without a match or where the group did not participate in it.
fn append_named(
    alloc: Global,
    out: &mut String,
    captured: Found<Option<Captures<'_, &str>>>,
    name: &str,
) -> Result<(), AllocError> {
    match captured {
        Ok(Some(groups)) => append_found(alloc, out, Ok(groups.name(name))),
        Ok(None) => out.push_str("none"),
        Err(error) => put_error(alloc, out, &error),
    }
}

/// Appends the names of all groups in order, `-` for a group without one.
fn append_names(out: &mut String, regex: &Regex) -> Result<(), AllocError> {
    for name in regex.capture_names() {
        match name {
            Some(name) => append_quoted(out, name)?,
            None => out.push('-')?,
        }
    }
    Ok(())
}
