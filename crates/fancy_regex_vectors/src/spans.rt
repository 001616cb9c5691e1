//! Spans of matches.

use crate::call::SpanCall;
use crate::case::{Case, Question};
use crate::quoted::put_error;
use fancy_regex::{Match, Matches, Regex, RegexInput, Result as Found, Steps};
use std::alloc::{AllocError, Global};
use std::fmt::Write;

/// Appends the answer of a call for spans.
pub fn append_span_call(
    alloc: Global,
    out: &mut String,
    case: &Case<'_>,
    input: RegexInput<&str>,
    regex: &Regex,
    question: Question<'_>,
    call: SpanCall,
) -> Result<(), AllocError> {
    let text = case.text;
    match call {
        SpanCall::Find => append_found(alloc, out, regex.find(alloc, text)),
        SpanCall::FindInput => append_found(alloc, out, regex.find_input(alloc, input)),
        SpanCall::FindFromPos => append_found_from(alloc, out, text, regex, question.number),
        SpanCall::IsMatch => append_truth(alloc, out, regex.is_match(alloc, text)),
        SpanCall::IsMatchInput => append_truth(alloc, out, regex.is_match_input(alloc, input)),
        SpanCall::FindIter => append_all(alloc, out, regex.find_iter(alloc, text)),
        SpanCall::FindIterInput => append_all(alloc, out, regex.find_iter_input(alloc, input)),
        SpanCall::Looks => append_looks(alloc, out, input, regex, question.argument),
    }
}

/// Appends a span.
pub fn append_span(out: &mut String, found: Match<'_>) -> Result<(), AllocError> {
    let start = found.start();
    let end = found.end();
    write!(out, "{start}..{end}")
}

/// Appends a span, or `none`.
pub fn append_found(
    alloc: Global,
    out: &mut String,
    found: Found<Option<Match<'_>>>,
) -> Result<(), AllocError> {
    match found {
        Ok(Some(found)) => append_span(out, found),
        Ok(None) => out.push_str("none"),
        Err(error) => put_error(alloc, out, &error),
    }
}

/// Appends the span of the match from a byte offset, if that is a character boundary.
fn append_found_from(
    alloc: Global,
    out: &mut String,
    text: &str,
    regex: &Regex,
    position: usize,
) -> Result<(), AllocError> {
    if !text.is_char_boundary(position) {
        return out.push_str("no boundary");
    }
    append_found(alloc, out, regex.find_from_pos(alloc, text, position))
}

/// Appends whether there is a match.
fn append_truth(alloc: Global, out: &mut String, is_match: Found<bool>) -> Result<(), AllocError> {
    match is_match {
        Ok(is_match) => write!(out, "{is_match}"),
        Err(error) => put_error(alloc, out, &error),
    }
}

/// Appends the spans of all matches, with a blank between; the error alone if a search fails.
fn append_all(
    alloc: Global,
    out: &mut String,
    mut matches: Matches<'_, &str>,
) -> Result<(), AllocError> {
    while let Some(found) = matches.next() {
        match found {
            Ok(found) => append_next(out, found)?,
            Err(error) => return put_error(alloc, out, &error),
        }
    }
    Ok(())
}

/// Appends a span, after a blank if it is not the first.
fn append_next(out: &mut String, found: Match<'_>) -> Result<(), AllocError> {
    if !out.is_empty() {
        out.push(' ')?;
    }
    append_span(out, found)
}

/// Appends `within` if the looks of the search are within these bounds, else their count.
fn append_looks(
    alloc: Global,
    out: &mut String,
    input: RegexInput<&str>,
    regex: &Regex,
    bounds: &str,
) -> Result<(), AllocError> {
    let mut steps = Steps::new();
    match regex.find_input_counted(alloc, input, &mut steps) {
        Ok(_) if are_within(bounds, steps.count()) => out.push_str("within"),
        Ok(_) => write!(out, "{}", steps.count()),
        Err(error) => put_error(alloc, out, &error),
    }
}

/// Whether these looks are within bounds, of which `..` stands between the least and the greatest.
fn are_within(bounds: &str, looks: u64) -> bool {
    let (least, greatest) = bounds.split_once("..").unwrap_or((bounds, bounds));
    match (least.parse::<u64>(), greatest.parse::<u64>()) {
        (Ok(least), Ok(greatest)) => least <= looks && looks <= greatest,
        _ => false,
    }
}
