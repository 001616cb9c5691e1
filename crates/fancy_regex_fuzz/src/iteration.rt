//! Checks of iterations and splits.

use crate::case::Case;
use crate::part::input_of;
use crate::searches::{Place, found_span, span};
use fancy_regex::{CaptureMatches, Matches, Regex, Result, Split};
use std::alloc::Global;

/// The spans of all matches.
fn all_places(alloc: Global, mut matches: Matches<'_, &str>) -> Result<Vec<Place>> {
    let mut places = Vec::new(alloc);
    while let Some(item) = matches.next() {
        let found = item?;
        places.push((found.start(), found.end()))?;
    }
    Ok(places)
}

/// The spans of group 0 of all matches.
fn all_group_places(alloc: Global, mut matches: CaptureMatches<'_, &str>) -> Result<Vec<Place>> {
    let mut places = Vec::new(alloc);
    while let Some(item) = matches.next() {
        if let Some(place) = span(item?.get(0)) {
            places.push(place)?;
        }
    }
    Ok(places)
}

/// Whether the iteration over the groups in the case's part has the matches of the iteration over matches there.
pub fn items_alike(alloc: Global, case: Case<'_>, regex: &Regex) -> Result<bool> {
    let places = all_places(
        alloc,
        regex.find_iter_input(alloc, input_of(case.text, case.part)),
    )?;
    let all = regex.captures_iter_input(alloc, input_of(case.text, case.part));
    Ok(all_group_places(alloc, all)? == places)
}

/// Whether the ends of the matches increase, from the match that `find` finds on.
pub fn ends_increase(alloc: Global, case: Case<'_>, regex: &Regex) -> Result<bool> {
    let first = found_span(alloc, regex, case.text)?;
    let places = all_places(alloc, regex.find_iter(alloc, case.text))?;
    Ok(places.first().copied() == first && increase(&places))
}

/// Whether each place begins at the end of the one before or after it, and ends after it.
fn increase(places: &[Place]) -> bool {
    let mut last: Option<usize> = None;
    for (start, end) in places.iter() {
        if let Some(before) = last {
            if *start < before || *end <= before {
                return false;
            }
        }
        last = Some(*end);
    }
    true
}

/// Whether the iteration's second match is what a search from the end of the first finds, where the first is not empty and that
/// search finds no empty match at its start.
pub fn next_is_found(alloc: Global, case: Case<'_>, regex: &Regex) -> Result<bool> {
    let places = all_places(alloc, regex.find_iter(alloc, case.text))?;
    match places.first() {
        Some((start, end)) if start < end => {
            follows(alloc, case, regex, *end, places.get(1).copied())
        }
        _ => Ok(true),
    }
}

/// Whether this is what a search from a byte offset on finds, where that is no empty match there.
fn follows(
    alloc: Global,
    case: Case<'_>,
    regex: &Regex,
    from: usize,
    next: Option<Place>,
) -> Result<bool> {
    if !case.text.is_char_boundary(from) {
        return Ok(false);
    }
    let found = span(regex.find_from_pos(alloc, case.text, from)?);
    Ok(found == Some((from, from)) || found == next)
}

/// Whether pieces and matches in turn are the text.
pub fn pieces_are_the_text(alloc: Global, case: Case<'_>, regex: &Regex) -> Result<bool> {
    let places = all_places(alloc, regex.find_iter(alloc, case.text))?;
    lie_between(regex.split(alloc, case.text), case.text, &places)
}

/// Whether the pieces lie before, between and after these places, as the text has it.
fn lie_between(pieces: Split<'_, '_>, text: &str, places: &[Place]) -> Result<bool> {
    let mut count = 0usize;
    let mut from = 0;
    for piece in pieces {
        let (start, end) = match places.get(count) {
            Some(place) => *place,
            None => (text.len(), text.len()),
        };
        if text.get(from..start) != Some(piece?) {
            return Ok(false);
        }
        from = end;
        count = count.saturating_add(1);
    }
    Ok(count == places.len().saturating_add(1))
}
