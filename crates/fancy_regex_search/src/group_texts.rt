//! The texts of the capture groups of a match, as templates read them.

ghost use Rattle.fancy_regex_search.specs.GroupTexts.{texts_of};

use crate::group_spans::group_span;
use crate::names::last_group_named;
use crate::regex::Regex;
use fancy_regex_template::GroupTexts;

/// The capture groups of a match.
#[derive(Clone, Copy)]
pub struct CaptureTexts<'c> {
    /// The regex that matched.
    pub regex: &'c Regex,
    /// The searched haystack.
    pub haystack: &'c str,
    /// The start and end byte offsets of each group.
    pub slots: &'c [usize],
}

impl GroupTexts for CaptureTexts<'_> {
    ghost texts = { λ s. texts_of s.regex.now.meta s.haystack.now s.slots.now };

    fn text_by_name(&self, name: &str) -> Option<&str> {
        let group = last_group_named(self.regex.meta.named_groups(), name)?;
        self.text_by_number(group)
    }

    fn text_by_number(&self, number: usize) -> Option<&str> {
        let (start, end) = group_span(self.haystack, self.slots, number)?;
        Some(&self.haystack[start..end])
    }
}
