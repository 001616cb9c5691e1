//! Rows with a call on a regex.

use crate::appending::{Expanding, escapes, escapes_template, expands, is_refused};
use crate::iterating::{Iterating, room, show_items};
use crate::outcome::{Attempt, Text, shows};
use crate::replacing::{calls_for_each, replaces, replaces_plainly};
use crate::searching::{
    Place, all_find, all_find_in, finds, finds_in_all, has_groups, looks_little,
};
use fancy_regex::{Regex, RegexOptionsBuilder, Result};
use std::alloc::Global;

/// A call with a regex and a text, and the right answer.
pub enum RegexCall {
    /// `is_match_input` and `find_from_pos` from this byte offset: the span of the match.
    Find(usize, Option<Place>),
    /// `find` of a regex that seeks, and whether the longest match is wanted: the span of the match.
    Seek(bool, Option<Place>),
    /// All searches, also those that share their memory: the span of the match, and the greatest number of looks of the linear engine at
    /// the text.
    Search(Option<Place>, u64),
    /// `captures`: the spans of all groups of the first match.
    Capture(&'static [Option<Place>]),
    /// `try_replacen` of so many matches at most (0 for all) by a template: the result.
    Replace(usize, Text, Text),
    /// `replacen` of so many matches at most (0 for all) by a text as it is: the result.
    ReplacePlainly(usize, Text, Text),
    /// `replacen_by` with a function. The text is `banana`, and the pattern matches each of its `a`.
    ReplaceByFunction,
    /// A template for the groups of the first match: what comes of it.
    Expand(Expanding, Text, Text),
    /// `escape` of the text: the result.
    Escape(Text),
    /// `Expander::escape` of the text: the result.
    EscapeTemplate(Text),
    /// `Expander::check` of the text, a template: the name that no group has.
    Check(Text),
    /// An iteration: its items, and the items where a search wants memory.
    Iterate(Iterating, Text, &'static [Text]),
}

/// A pattern, a text, and a call.
pub struct RegexRow(pub Text, pub Text, pub RegexCall);

/// The regex of a pattern that seeks.
fn seeking(alloc: Global, pattern: &str, is_longest: bool) -> Result<Regex> {
    let mut options = RegexOptionsBuilder::new();
    options.seek(true).leftmost_longest(is_longest);
    options.build(alloc, String::from_str(alloc, pattern)?)
}

/// Whether an iteration has these items.
fn iterates(
    alloc: Global,
    regex: &Regex,
    text: &str,
    call: &Iterating,
    whole: &str,
    cut: &[&str],
) -> Result<bool> {
    let mut shown = room(alloc)?;
    show_items(alloc, regex, text, call, &mut shown);
    shows(&shown, whole, cut)
}

impl Attempt for RegexRow {
    type Made = Regex;

    fn make(&self, alloc: Global) -> Result<Regex> {
        match &self.2 {
            RegexCall::Seek(is_longest, _) => seeking(alloc, self.0, *is_longest),
            _ => Regex::new(alloc, self.0),
        }
    }

    fn is_right(&self, alloc: Global, regex: &Regex) -> Result<bool> {
        let text = self.1;
        match &self.2 {
            RegexCall::Find(from, wanted) => finds(alloc, regex, text, *from, *wanted),
            RegexCall::Seek(_, wanted) => finds_in_all(alloc, regex, text, *wanted),
            RegexCall::Search(wanted, looks) => {
                Ok(
                    looks_little(alloc, regex, text, *wanted, *looks)?
                        && all_find(alloc, regex, text, *wanted)?
                        && all_find_in(alloc, regex, text, *wanted)?,
                )
            }
            RegexCall::Capture(wanted) => has_groups(alloc, regex, text, wanted),
            RegexCall::Replace(limit, template, wanted) => {
                replaces(alloc, regex, text, *limit, template, wanted)
            }
            RegexCall::ReplacePlainly(limit, fixed, wanted) => {
                replaces_plainly(alloc, regex, text, *limit, fixed, wanted)
            }
            RegexCall::ReplaceByFunction => calls_for_each(alloc, regex),
            RegexCall::Expand(call, template, wanted) => {
                expands(alloc, regex, text, call, template, wanted)
            }
            RegexCall::Escape(wanted) => escapes(alloc, text, wanted),
            RegexCall::EscapeTemplate(wanted) => escapes_template(alloc, text, wanted),
            RegexCall::Check(name) => is_refused(alloc, regex, text, name),
            RegexCall::Iterate(call, whole, cut) => iterates(alloc, regex, text, call, whole, cut),
        }
    }
}
