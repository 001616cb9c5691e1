//! The check of capture groups.

use crate::case::Case;
use crate::searches::span;
use fancy_regex::{Captures, Regex, Result};
use std::alloc::Global;

/// Whether the groups of the first match agree with the regex and with their names, and lie in the text.
pub fn groups_agree(alloc: Global, case: Case<'_>, regex: &Regex) -> Result<bool> {
    match regex.captures(alloc, case.text)? {
        Some(groups) => Ok(
            groups.len() == regex.captures_len()
                && names_agree(regex, &groups)
                && spans_agree(&groups, case.text),
        ),
        None => Ok(true),
    }
}

/// Whether each name gives the last group of that name.
fn names_agree(regex: &Regex, groups: &Captures<'_, &str>) -> bool {
    for name in regex.capture_names() {
        if let Some(name) = name {
            if span(groups.name(name)) != span(groups.get(last_of_name(regex, name))) {
                return false;
            }
        }
    }
    true
}

/// The number of the last group of this name.
fn last_of_name(regex: &Regex, name: &str) -> usize {
    let mut last = 0usize;
    let mut group = 0usize;
    for other in regex.capture_names() {
        if other == Some(name) {
            last = group;
        }
        group = group.saturating_add(1);
    }
    last
}

/// Whether the groups that are set lie in the text, in the order of their numbers as `get` gives them.
fn spans_agree(groups: &Captures<'_, &str>, text: &str) -> bool {
    let mut group = 0usize;
    let mut all = groups.iter();
    while let Some(found) = all.next() {
        if span(found) != span(groups.get(group)) {
            return false;
        }
        if let Some(found) = found {
            if text.get(found.range()) != Some(found.as_str()) {
                return false;
            }
        }
        group = group.saturating_add(1);
    }
    group == groups.len() && groups.get(group).is_none()
}
