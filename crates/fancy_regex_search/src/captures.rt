//! `Captures`: the capture groups of one match, by number and by name.

ghost use Rattle.std.specs.Prelude.{◌≡◌, ◌+◌, ◌-◌, ◌*◌, ◌/◌, ◌<◌, ◌≤◌, option_map, vec_len, slice_index, slice_range, MatchOption, IfSome};
ghost use Rattle.std.specs.Iterator.{at_most};
ghost use Rattle.fancy_regex_search.specs.GroupLookup.{meta_last_group, IsSpanOf, NamedGroupParticipated, IsTextOf};
ghost use Rattle.fancy_regex_search.specs.CaptureSpans.{IsSpanAt, Participated};

use crate::group_spans::group_match;
use crate::group_texts::CaptureTexts;
use crate::names::last_group_named;
use crate::regex::Regex;
use fancy_regex_input::Input;

/// The capture groups of one match. Group 0 is the whole match.
///
/// ```
/// let regex = Regex::new(alloc, r"(?<year>\d+)(-\d+)?")?;
/// match regex.captures(alloc, "in 1897")? {
///     Some(groups) => {
///         assert!(rt; groups.len() == 3 && groups.input_as_bytes() == b"in 1897".as_slice());
///         assert!(rt; groups.name("year").map(|year| year.as_str()) == Some("1897"));
///         assert!(rt; groups.get(2).is_none());
///         let mut text = String::new(alloc);
///         groups.expand(alloc, "year $year", &mut text)?;
///         assert!(rt; text.as_str() == "year 1897");
///     }
///     None => assert!(rt; false),
/// }
/// ```
#[derive(Drop)]
pub struct Captures<'r, S: Input> {
    /// The regex that matched.
    regex: &'r Regex,
    /// The searched haystack.
    haystack: S,
    /// For each group its start and end as byte offsets; both are `usize::MAX` for a group that did not participate.
    slots: Vec<usize>,
}

impl<'r, S: Input> Captures<'r, S> {
    /// The groups of a match of the regex in the haystack, from its start and end offsets.
    pub(crate) fn new(regex: &'r Regex, haystack: S, slots: Vec<usize>) -> Captures<'r, S>
        ensures slots { result.slots ≡ slots }
        ensures haystack { result.haystack ≡ haystack }
        ensures regex { result.regex ≡ regex.entry }
    {
        Captures {
            regex,
            haystack,
            slots,
        }
    }

    /// The match of the group with this number; group 0 is the whole match. `None` if the group did not participate, or if
    /// the regex has no such group.
    pub fn get(&self, i: usize) -> Option<S::Match>
        ensures span { IsSpanAt (S.text self.now.haystack) self.now.slots.items i (option_map S.span result) }
        ensures text { IfSome result (λ m. S.match_text m ≡ S.text self.now.haystack) }
    {
        group_match(self.haystack, &self.slots, i)
    }

    /// The match of the last group with this name. `None` if that group did not participate, or if no group has the name.
    pub fn name(&self, name: &str) -> Option<S::Match>
        ensures span { IsSpanOf (S.text self.now.haystack) self.now.slots.items (meta_last_group self.now.regex.now.meta name.now)
            (option_map S.span result) }
        ensures text { IfSome result (λ m. S.match_text m ≡ S.text self.now.haystack) }
    {
        self.get(self.group_named(name)?)
    }

    /// The number of the last group with this name; `None` if no group has it.
    fn group_named(&self, name: &str) -> Option<usize>
        ensures { result ≡ meta_last_group self.now.regex.now.meta name.now }
    {
        last_group_named(self.regex.meta.named_groups(), name)
    }

    /// The groups in order of their numbers, from group 0.
    ///
    /// ```
    /// let regex = Regex::new(alloc, "(a)|(b)")?;
    /// if let Some(groups) = regex.captures(alloc, "b")? {
    ///     let mut each = groups.iter();
    ///     assert!(rt; matches!(each.next(), Some(Some(_))));
    ///     assert!(rt; matches!(each.next(), Some(None)));
    /// }
    /// ```
    pub fn iter(&self) -> SubCaptureMatches<'_, 'r, S>
        ensures captures { result.captures.now ≡ self.now }
        ensures next { result.next ≡ 0 }
    {
        SubCaptureMatches {
            captures: self,
            next: 0,
        }
    }

    /// The number of groups, group 0 included.
    pub fn len(&self) -> usize
        ensures { result ≡ vec_len self.now.slots / 2 }
    {
        self.slots.len() / 2
    }

    /// The bytes of the searched haystack, in UTF-8.
    pub fn input_as_bytes(&self) -> &[u8]
        ensures { result.now ≡ S.text self.now.haystack }
    {
        self.haystack.as_bytes()
    }
}

impl<'r, 't> Captures<'r, &'t str> {
    /// The groups, as templates read their texts.
    pub(crate) fn texts(&self) -> CaptureTexts<'_>
        ensures { (result.regex.now ≡ self.now.regex.now) × (result.haystack.now ≡ self.now.haystack.now)
            × (result.slots.now ≡ self.now.slots.items) }
    {
        CaptureTexts {
            regex: self.regex,
            haystack: self.haystack,
            slots: &self.slots,
        }
    }

    /// The text that the group with this number matched. The group must have participated: `get` returns `Some` for it.
    ///
    /// ```
    /// let regex = Regex::new(alloc, r"(\d+)px")?;
    /// if let Some(groups) = regex.captures(alloc, "12px")? {
    ///     if groups.get(1).is_some() {
    ///         assert!(rt; groups.group_text(1) == "12");
    ///     }
    /// }
    /// ```
    pub fn group_text(&self, i: usize) -> &'t str
        requires { Participated self.now.haystack.now self.now.slots.items i }
        ensures { result.now ≡ slice_range self.now.haystack.now (slice_index self.now.slots.items (2 * i))
            (slice_index self.now.slots.items (2 * i + 1)) }
    {
        &self.haystack[self.slots[2 * i]..self.slots[2 * i + 1]]
    }

    /// The text that the last group with this name matched. The group must have participated: `name` returns `Some` for it.
    ///
    /// ```
    /// let regex = Regex::new(alloc, r"(?<size>\d+)px")?;
    /// if let Some(groups) = regex.captures(alloc, "12px")? {
    ///     if groups.name("size").is_some() {
    ///         assert!(rt; groups.group_text_by_name("size") == "12");
    ///     }
    /// }
    /// ```
    pub fn group_text_by_name(&self, name: &str) -> &'t str
        requires { NamedGroupParticipated self.now.haystack.now self.now.slots.items (meta_last_group self.now.regex.now.meta name.now) }
        ensures { IsTextOf self.now.haystack.now self.now.slots.items (meta_last_group self.now.regex.now.meta name.now) result.now }
    {
        self.group_text(self.group_named(name).unwrap())
    }
}

/// The iterator over the groups of one match in order of their numbers, from group 0: the match of each, or `None` if it did not
/// participate.
///
/// ```
/// let regex = Regex::new(alloc, "(a)|(b)")?;
/// if let Some(groups) = regex.captures(alloc, "b")? {
///     let mut each = groups.iter();
///     assert!(rt; each.next().is_some());
/// }
/// ```
#[derive(Drop)]
pub struct SubCaptureMatches<'c, 'r, S: Input> {
    /// The groups.
    captures: &'c Captures<'r, S>,
    /// The number of the next group.
    next: usize,
}

impl<'c, 'r, S: Input> Iterator for SubCaptureMatches<'c, 'r, S> {
    type Item = Option<S::Match>;

    ghost next_gives = { λ s r t. MatchOption r ((vec_len s.captures.now.slots / 2 ≤ s.next) × (t ≡ s))
        (λ item. (s.next < vec_len s.captures.now.slots / 2) × (t.next ≡ s.next + 1) × (t.captures ≡ s.captures)
        × IsSpanAt (S.text s.captures.now.haystack) s.captures.now.slots.items s.next (option_map S.span item)
        × IfSome item (λ m. S.match_text m ≡ S.text s.captures.now.haystack)) };

    ghost remaining = { λ s. at_most (vec_len s.captures.now.slots / 2 - s.next) };

    /// The match of the next group, or `Some(None)` if it did not participate; `None` after the last group.
    fn next(&mut self) -> Option<Option<S::Match>> {
        let group = self.next;
        if group >= self.captures.len() {
            return None;
        }
        self.next = group + 1;
        Some(self.captures.get(group))
    }
}
