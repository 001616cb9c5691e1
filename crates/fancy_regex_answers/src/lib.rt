//! The answers of a regex on a text, as one text with a line for each call, so that two regexes can be compared.
#![tactic(auto)]

use fancy_regex::{
    CaptureMatches, Captures, Error, Match, Matches, Regex, RegexInput, Split, SplitN,
};
use std::alloc::{AllocError, Global};
use std::fmt::Write;

/// What replaces matches: the first groups of each.
const TEMPLATE: &str = "<${0}${1}${2}>";

/// The greatest number of pieces of a limited split.
const PIECES: usize = 3;

/// The answers of all searches from each position, anchored there and not, of iterations, splits and replacements. Fails with the
/// first error of a search, or for want of memory.
pub fn answers(alloc: Global, regex: &Regex, text: &str) -> Result<String, Error> {
    let mut out = String::new(alloc);
    append_answers(alloc, &mut out, regex, text)?;
    Ok(out)
}

/// Appends the answers of all calls.
fn append_answers(alloc: Global, out: &mut String, regex: &Regex, text: &str) -> Result<(), Error> {
    append_searches(alloc, out, regex, text)?;
    append_matches(out, regex.find_iter(alloc, text))?;
    append_all_groups(out, regex.captures_iter(alloc, text))?;
    append_pieces(out, regex.split(alloc, text))?;
    append_some_pieces(out, regex.splitn(alloc, text, PIECES))?;
    append_all_replaced(alloc, out, regex, text)?;
    append_first_replaced(alloc, out, regex, text)
}

/// Appends the answers of the searches from each position, anchored there and not.
fn append_searches(
    alloc: Global,
    out: &mut String,
    regex: &Regex,
    text: &str,
) -> Result<(), Error> {
    for position in 0..=text.len() {
        append_search(alloc, out, regex, text, position, false)?;
        append_search(alloc, out, regex, text, position, true)?;
    }
    Ok(())
}

/// Appends whether a search from a position finds a match, its span, and the spans of its groups; nothing if the position is no
/// character boundary.
fn append_search(
    alloc: Global,
    out: &mut String,
    regex: &Regex,
    text: &str,
    position: usize,
    anchored: bool,
) -> Result<(), Error> {
    if !text.is_char_boundary(position) {
        return Ok(());
    }
    let input = RegexInput::new(text).from_pos(position).anchored(anchored);
    append_truth(out, regex.is_match_input(alloc, input)?)?;
    let input = RegexInput::new(text).from_pos(position).anchored(anchored);
    append_found(out, regex.find_input(alloc, input)?)?;
    let input = RegexInput::new(text).from_pos(position).anchored(anchored);
    append_captured(out, regex.captures_input(alloc, input)?)?;
    Ok(())
}

/// Appends whether there is a match.
fn append_truth(out: &mut String, is_match: bool) -> Result<(), AllocError> {
    write!(out, "\n{is_match}")
}

/// Appends the span of a match, if there is one.
fn append_found(out: &mut String, found: Option<Match<'_>>) -> Result<(), AllocError> {
    match found {
        Some(found) => append_span(out, found),
        None => Ok(()),
    }
}

/// Appends the span of a match.
fn append_span(out: &mut String, found: Match<'_>) -> Result<(), AllocError> {
    let start = found.start();
    let end = found.end();
    write!(out, " {start}..{end}")
}

/// Appends the groups of a match, if there is one.
fn append_captured(
    out: &mut String,
    captured: Option<Captures<'_, &str>>,
) -> Result<(), AllocError> {
    match captured {
        Some(groups) => append_groups(out, &groups),
        None => Ok(()),
    }
}

/// Appends the spans of all groups, `-` for a group that did not participate in the match.
fn append_groups(out: &mut String, groups: &Captures<'_, &str>) -> Result<(), AllocError> {
    out.push_str(" /")?;
    for group in 0..groups.len() {
        match groups.get(group) {
            Some(found) => append_span(out, found)?,
            None => out.push_str(" -")?,
        }
    }
    Ok(())
}

/// Appends the spans of all matches.
fn append_matches(out: &mut String, mut matches: Matches<'_, &str>) -> Result<(), Error> {
    out.push_str("\nfind_iter")?;
    while let Some(found) = matches.next() {
        append_span(out, found?)?;
    }
    Ok(())
}

/// Appends the groups of all matches.
fn append_all_groups(out: &mut String, mut matches: CaptureMatches<'_, &str>) -> Result<(), Error> {
    out.push_str("\ncaptures_iter")?;
    while let Some(groups) = matches.next() {
        append_groups(out, &groups?)?;
    }
    Ok(())
}

/// Appends the pieces of the text between the matches.
fn append_pieces(out: &mut String, pieces: Split<'_, '_>) -> Result<(), Error> {
    out.push_str("\nsplit")?;
    for piece in pieces {
        append_piece(out, piece?)?;
    }
    Ok(())
}

/// Appends the pieces of a limited split.
fn append_some_pieces(out: &mut String, pieces: SplitN<'_, '_>) -> Result<(), Error> {
    out.push_str("\nsplitn")?;
    for piece in pieces {
        append_piece(out, piece?)?;
    }
    Ok(())
}

/// Appends a piece of the text in brackets.
fn append_piece(out: &mut String, piece: &str) -> Result<(), AllocError> {
    write!(out, " [{piece}]")
}

/// Appends the text with each match replaced by its first groups.
fn append_all_replaced(
    alloc: Global,
    out: &mut String,
    regex: &Regex,
    text: &str,
) -> Result<(), Error> {
    let replaced = regex.replace_all(alloc, text, TEMPLATE)?;
    append_text(out, replaced.as_str())?;
    Ok(())
}

/// Appends the text with the first match replaced by its first groups.
fn append_first_replaced(
    alloc: Global,
    out: &mut String,
    regex: &Regex,
    text: &str,
) -> Result<(), Error> {
    let replaced = regex.replace(alloc, text, TEMPLATE)?;
    append_text(out, replaced.as_str())?;
    Ok(())
}

/// Appends a replaced text on a line of its own.
fn append_text(out: &mut String, text: &str) -> Result<(), AllocError> {
    write!(out, "\nreplaced {text}")
}
