//! The check of a set.

use crate::case::Case;
use crate::part::input_of;
use crate::searches::{Place, found_in_part};
use fancy_regex::{Regex, RegexSet, RegexSetMatchesAt, Result};
use std::alloc::Global;

/// Whether a set that has the pattern twice finds in the case's part the match of the regex for both, in the order of their numbers.
pub fn twice_in_a_set(alloc: Global, case: Case<'_>, regex: &Regex) -> Result<bool> {
    let found = found_in_part(alloc, case, regex)?;
    let patterns = [case.pattern, case.pattern];
    let set = RegexSet::new_with_options(alloc, &patterns, &case.setting.builder())?;
    match set.find_input(alloc, input_of(case.text, case.part))? {
        Some(items) => are_two(items, found),
        None => Ok(found.is_none()),
    }
}

/// Whether there are two items, of the members 0 and 1, with this span.
fn are_two(mut items: RegexSetMatchesAt<'_, &str>, found: Option<Place>) -> Result<bool> {
    let mut count = 0usize;
    while let Some(item) = items.next() {
        let item = item?;
        if item.pattern() != count || Some((item.start(), item.end())) != found {
            return Ok(false);
        }
        count = count.saturating_add(1);
    }
    Ok(count == 2)
}
