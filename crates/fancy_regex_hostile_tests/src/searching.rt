//! Searches of a regex.

use fancy_regex::{Captures, Match, Regex, RegexInput, Result, SearchMemory, Steps};
use std::alloc::Global;

/// The byte offsets of a match.
pub type Place = (usize, usize);

/// The span of a match.
fn span(found: Option<Match<'_>>) -> Option<Place> {
    match found {
        Some(found) => Some((found.start(), found.end())),
        None => None,
    }
}

/// The span of group 0.
fn whole(groups: Option<Captures<'_, &str>>) -> Option<Place> {
    match groups {
        Some(groups) => span(groups.get(0)),
        None => None,
    }
}

/// Whether the searches for a match from this byte offset find this span.
pub fn finds(
    alloc: Global,
    regex: &Regex,
    text: &str,
    from: usize,
    wanted: Option<Place>,
) -> Result<bool> {
    if !text.is_char_boundary(from) {
        return Ok(false);
    }
    let is_found = regex.is_match_input(alloc, RegexInput::new(text).from_pos(from))?;
    let found = span(regex.find_from_pos(alloc, text, from)?);
    Ok(found == wanted && is_found == wanted.is_some())
}

/// Whether the search for a match in the whole text finds this span.
pub fn finds_in_all(
    alloc: Global,
    regex: &Regex,
    text: &str,
    wanted: Option<Place>,
) -> Result<bool> {
    Ok(span(regex.find(alloc, text)?) == wanted)
}

/// Whether all searches in the whole text find this span. They go on up to the first that wants memory, and all of them are repeated.
pub fn all_find(alloc: Global, regex: &Regex, text: &str, wanted: Option<Place>) -> Result<bool> {
    let is_found = [
        regex.is_match(alloc, text)?,
        regex.is_match_input(alloc, RegexInput::new(text))?,
    ];
    let found = [
        span(regex.find(alloc, text)?),
        span(regex.find_input(alloc, RegexInput::new(text))?),
        span(regex.find_from_pos(alloc, text, 0)?),
        whole(regex.captures(alloc, text)?),
        whole(regex.captures_input(alloc, RegexInput::new(text))?),
        whole(regex.captures_from_pos(alloc, text, 0)?),
    ];
    Ok(is_found == [wanted.is_some(); 2] && found == [wanted; 6])
}

/// Whether searches that share their memory find this span, also after one of them that wanted memory.
pub fn all_find_in(
    alloc: Global,
    regex: &Regex,
    text: &str,
    wanted: Option<Place>,
) -> Result<bool> {
    let memory = &mut SearchMemory::new(alloc);
    let first = regex.find_in(alloc, RegexInput::new(text), memory);
    let is_found = regex.is_match_in(alloc, RegexInput::new(text), memory)?;
    let found = [
        span(regex.find_in(alloc, RegexInput::new(text), memory)?),
        whole(regex.captures_in(alloc, RegexInput::new(text), memory)?),
    ];
    Ok(is_found == wanted.is_some() && found == [wanted; 2] && span(first?) == wanted)
}

/// Whether a counted search of the whole text finds this span with at most so many looks at the text, also where it wants memory.
pub fn looks_little(
    alloc: Global,
    regex: &Regex,
    text: &str,
    wanted: Option<Place>,
    looks: u64,
) -> Result<bool> {
    let mut steps = Steps::new();
    let found = regex.find_input_counted(alloc, RegexInput::new(text), &mut steps);
    if steps.count() > looks {
        return Ok(false);
    }
    Ok(span(found?) == wanted)
}

/// Whether the spans of all groups are these.
fn are_at(groups: &Captures<'_, &str>, wanted: &[Option<Place>]) -> bool {
    for (group, place) in wanted.iter().enumerate() {
        if span(groups.get(group)) != *place {
            return false;
        }
    }
    groups.len() == wanted.len()
}

/// Whether the spans of all groups of the first match are these; there is no match where there are none.
pub fn has_groups(
    alloc: Global,
    regex: &Regex,
    text: &str,
    wanted: &[Option<Place>],
) -> Result<bool> {
    match regex.captures(alloc, text)? {
        Some(groups) => Ok(are_at(&groups, wanted)),
        None => Ok(wanted.is_empty()),
    }
}
