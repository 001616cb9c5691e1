//! Iterations, whose items are shown as one text: each piece or match in brackets, `!` for want of memory, `?` for another error.

use fancy_regex::{Captures, Error, Regex, Result};
use std::alloc::Global;

/// A call that iterates.
pub enum Iterating {
    Matches,
    /// The first group of each match.
    Groups,
    Split,
    /// `splitn` with this limit.
    SplitN(usize),
}

/// A text to show items in, with room for more bytes than any text has that is shown, so that showing wants no more memory.
pub fn room(alloc: Global) -> Result<String> {
    Ok(String::with_capacity(alloc, 64)?)
}

/// Appends an item, for which there is room.
pub fn show(shown: &mut String, item: Result<&str>) {
    let parts = match item {
        Ok(piece) => ["[", piece, "]"],
        Err(Error::Memory) => ["!", "", ""],
        Err(_) => ["?", "", ""],
    };
    for part in parts {
        let _ = shown.push_str(part);
    }
}

/// Shows the matches of an iteration.
fn show_matches(alloc: Global, regex: &Regex, text: &str, shown: &mut String) {
    let mut matches = regex.find_iter(alloc, text);
    while let Some(item) = matches.next() {
        match item {
            Ok(found) => show(shown, Ok(found.as_str())),
            Err(error) => show(shown, Err(error)),
        }
    }
}

/// The text of the first group, or `?`.
fn first_group<'t>(groups: &Captures<'_, &'t str>) -> &'t str {
    match groups.get(1) {
        Some(found) => found.as_str(),
        None => "?",
    }
}

/// Shows the first groups of an iteration.
fn show_groups(alloc: Global, regex: &Regex, text: &str, shown: &mut String) {
    let mut all = regex.captures_iter(alloc, text);
    while let Some(item) = all.next() {
        match item {
            Ok(groups) => show(shown, Ok(first_group(&groups))),
            Err(error) => show(shown, Err(error)),
        }
    }
}

/// Shows the pieces of a split.
fn show_pieces(alloc: Global, regex: &Regex, text: &str, shown: &mut String) {
    for item in regex.split(alloc, text) {
        show(shown, item);
    }
}

/// Shows the pieces of a split up to a limit.
fn show_first_pieces(alloc: Global, regex: &Regex, text: &str, limit: usize, shown: &mut String) {
    for item in regex.splitn(alloc, text, limit) {
        show(shown, item);
    }
}

/// Shows the items of a call.
pub fn show_items(alloc: Global, regex: &Regex, text: &str, call: &Iterating, shown: &mut String) {
    match call {
        Iterating::Matches => show_matches(alloc, regex, text, shown),
        Iterating::Groups => show_groups(alloc, regex, text, shown),
        Iterating::Split => show_pieces(alloc, regex, text, shown),
        Iterating::SplitN(limit) => show_first_pieces(alloc, regex, text, *limit, shown),
    }
}
