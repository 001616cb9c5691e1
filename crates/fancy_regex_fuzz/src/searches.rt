//! Checks of single searches.

use crate::case::Case;
use crate::part::input_of;
use fancy_regex::{Captures, Match, Regex, RegexInput, Result, Steps};
use std::alloc::Global;

/// The byte offsets of a match.
pub type Place = (usize, usize);

/// The span of a match.
pub fn span(found: Option<Match<'_>>) -> Option<Place> {
    match found {
        Some(found) => Some((found.start(), found.end())),
        None => None,
    }
}

/// The span of group 0.
fn whole(groups: Option<Captures<'_, &str>>) -> Option<Place> {
    match groups {
        Some(groups) => span(groups.get(0)),
        None => None,
    }
}

/// The span that `find` finds.
pub fn found_span(alloc: Global, regex: &Regex, text: &str) -> Result<Option<Place>> {
    Ok(span(regex.find(alloc, text)?))
}

/// The span that a search of the case's part finds.
pub fn found_in_part(alloc: Global, case: Case<'_>, regex: &Regex) -> Result<Option<Place>> {
    Ok(span(regex.find_input(alloc, input_of(case.text, case.part))?))
}

/// Whether the searches of the whole text find the same.
pub fn whole_alike(alloc: Global, case: Case<'_>, regex: &Regex) -> Result<bool> {
    let found = found_span(alloc, regex, case.text)?;
    let told = regex.is_match(alloc, case.text)?;
    let captured = whole(regex.captures(alloc, case.text)?);
    Ok(captured == found && told == found.is_some())
}

/// Whether the searches of the case's part find the same, inside the part.
pub fn part_alike(alloc: Global, case: Case<'_>, regex: &Regex) -> Result<bool> {
    let found = found_in_part(alloc, case, regex)?;
    let told = regex.is_match_input(alloc, input_of(case.text, case.part))?;
    let captured = whole(regex.captures_input(alloc, input_of(case.text, case.part))?);
    Ok(captured == found && told == found.is_some() && lies_in_part(case, found))
}

/// Whether a match lies in the part that is searched.
fn lies_in_part(case: Case<'_>, found: Option<Place>) -> bool {
    let Some((first, last)) = found else {
        return true;
    };
    let input = input_of(case.text, case.part);
    input.effective_start() <= first && first <= last && last <= input.get_range().end
}

/// Whether the searches from a byte offset on find the same.
pub fn begins_alike(alloc: Global, case: Case<'_>, regex: &Regex) -> Result<bool> {
    let from = input_of(case.text, case.part).start();
    if from > case.text.len() || !case.text.is_char_boundary(from) {
        return Ok(true);
    }
    let found = span(regex.find_from_pos(alloc, case.text, from)?);
    let captured = whole(regex.captures_from_pos(alloc, case.text, from)?);
    let input = RegexInput::new(case.text).from_pos(from);
    Ok(captured == found && span(regex.find_input(alloc, input)?) == found)
}

/// Whether a search with a count finds what `find` finds, and looks at the text, where the pattern is plain, at most 4(n+1) times for
/// each byte and once more.
pub fn keeps_its_bound(alloc: Global, case: Case<'_>, regex: &Regex) -> Result<bool> {
    let mut steps = Steps::new();
    let input = RegexInput::new(case.text);
    let found = span(regex.find_input_counted(alloc, input, &mut steps)?);
    let is_bounded = !case.setting.is_plain || steps.count() <= bound_on_looks(case);
    Ok(is_bounded && found == found_span(alloc, regex, case.text)?)
}

/// The greatest number of looks of a search for a plain pattern.
fn bound_on_looks(case: Case<'_>) -> u64 {
    let states = (case.pattern.len() as u64)
        .saturating_add(1)
        .saturating_mul(4);
    let places = (case.text.len() as u64).saturating_add(1);
    states.saturating_mul(places)
}
