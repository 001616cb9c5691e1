//! Searches that use the memory of earlier ones again. They answer as the searches of `search` do, each of which has memory of its own:
//! for every memory, also one that another regex has used, or a search that ended in an error.

ghost use Rattle.std.specs.Prelude.{◌≡◌, ◌≤◌, ◌+◌, ◌-◌, ◌^◌, IfOk, IfErr, IfSome, is_some, option_map, true, false, min};
ghost use Rattle.fancy_regex_meta.specs.SearchLimits.{IsMetaSearchError, MetaStaysInLimits, meta_uses_easy, meta_starts_tried, max_looks};
ghost use Rattle.fancy_regex_meta.specs.MetaMatches.{meta_pattern, meta_match};
ghost use Rattle.fancy_regex_search.specs.Looks.{MetaHasNoCountedRepeats, plain_looks};
ghost use Rattle.fancy_regex_search.specs.CaptureSpans.{span_in, AreGroupsOf, IsResultFor};

use crate::captures::Captures;
use crate::group_spans::{SearchRequest, find_match, has_match, whole_match};
use crate::regex::Regex;
use fancy_regex_class::Steps;
use fancy_regex_input::{Input, RegexInput};
use fancy_regex_meta::{MatchDetail, MetaMemory, Result};
use fancy_regex_tree_laws::weight_bound;
use std::alloc::Global;

impl Regex {
    /// `is_match_input` that uses the memory of earlier searches again. Where that has the room nothing is allocated.
    ///
    /// # Errors
    ///
    /// Those of `is_match_input`. The regex and the memory can be used again.
    ///
    /// ```
    /// let regex = Regex::new(alloc, r"(\w)\1")?;
    /// let mut memory = SearchMemory::new(alloc);
    /// assert!(rt; regex.is_match_in(alloc, RegexInput::new("a book"), &mut memory)?);
    /// assert!(rt; !regex.is_match_in(alloc, RegexInput::new("a page"), &mut memory)?);
    /// ```
    pub fn is_match_in<S: Input>(
        &self,
        alloc: Global,
        input: RegexInput<S>,
        memory: &mut MetaMemory,
    ) -> Result<bool>
        ensures answer { IfOk result (λ yes. yes ≡ is_some (meta_match self.now.meta (S.text input.haystack) (input.config))) }
        ensures limits { IfErr result (λ e. IsMetaSearchError self.now.meta (S.text input.haystack) input.config false e) }
        ensures stays { IfOk result (λ _. MetaStaysInLimits self.now.meta (S.text input.haystack) input.config false) }
    {
        has_match(alloc, self, &input, memory)
    }

    /// `find_input` that uses the memory of earlier searches again. Where that has the room nothing is allocated.
    ///
    /// # Errors
    ///
    /// Those of `find_input`. The regex and the memory can be used again.
    ///
    /// ```
    /// let words = Regex::new(alloc, r"\w+")?;
    /// let numbers = Regex::new(alloc, r"\d+(?!\.)")?;
    /// let mut memory = SearchMemory::new(alloc);
    /// let word = words.find_in(alloc, RegexInput::new("1. in 1897"), &mut memory)?;
    /// let number = numbers.find_in(alloc, RegexInput::new("1. in 1897"), &mut memory)?;
    /// assert!(rt; word.map(|found| found.as_str()) == Some("1"));
    /// assert!(rt; number.map(|found| found.as_str()) == Some("1897"));
    /// ```
    pub fn find_in<S: Input>(
        &self,
        alloc: Global,
        input: RegexInput<S>,
        memory: &mut MetaMemory,
    ) -> Result<Option<S::Match>>
        ensures answer { IfOk result (λ found. option_map S.span found ≡ option_map span_in
            (meta_match self.now.meta (S.text input.haystack) (input.config))) }
        ensures text { IfOk result (λ found. IfSome found (λ m. S.match_text m ≡ S.text input.haystack)) }
        ensures limits { IfErr result (λ e. IsMetaSearchError self.now.meta (S.text input.haystack) input.config false e) }
        ensures stays { IfOk result (λ _. MetaStaysInLimits self.now.meta (S.text input.haystack) input.config false) }
    {
        self.find_counted_in(alloc, input, &mut Steps::new(), memory)
    }

    /// `find_input_counted` that uses the memory of earlier searches again. Where that has the room nothing is allocated.
    ///
    /// # Errors
    ///
    /// Those of `find_input_counted`. The regex and the memory can be used again.
    ///
    /// ```
    /// let regex = Regex::new(alloc, "a+b")?;
    /// let mut steps = Steps::new();
    /// let mut memory = SearchMemory::new(alloc);
    /// let input = RegexInput::new("aaac");
    /// let found = regex.find_counted_in(alloc, input, &mut steps, &mut memory)?;
    /// assert!(rt; found.is_none() && steps.count() > 0);
    /// ```
    // Inlined where it is called: else the input and the answer are put together in memory, and each call waits for both.
    #[inline(always)]
    pub fn find_counted_in<S: Input>(
        &self,
        alloc: Global,
        input: RegexInput<S>,
        steps: &mut Steps,
        memory: &mut MetaMemory,
    ) -> Result<Option<S::Match>>
        ensures answer { IfOk result (λ found. option_map S.span found ≡ option_map span_in
            (meta_match self.now.meta (S.text input.haystack) (input.config))) }
        ensures text { IfOk result (λ found. IfSome found (λ m. S.match_text m ≡ S.text input.haystack)) }
        ensures limits { IfErr result (λ e. IsMetaSearchError self.now.meta (S.text input.haystack) input.config false e) }
        ensures stays { IfOk result (λ _. MetaStaysInLimits self.now.meta (S.text input.haystack) input.config false) }
        ensures looks_most { meta_uses_easy self.now.meta ≡ true → steps.new ≤ steps.old + max_looks self.now.meta input.config }
        ensures looks_least { IfOk result (λ _. meta_uses_easy self.now.meta ≡ true
            → min (steps.old + meta_starts_tried self.now.meta (S.text input.haystack) input.config false) (2 ^ 64 - 1) ≤ steps.new) }
        ensures looks_plain { MetaHasNoCountedRepeats self.now.meta → meta_uses_easy self.now.meta ≡ true → steps.new ≤ steps.old
            + plain_looks self.now.meta input.config }
        ensures looks_none { meta_uses_easy self.now.meta ≡ false → steps.new ≡ steps.old }
        ensures counts { steps.old ≤ steps.new }
    {
        weight_bound();
        let request = SearchRequest {
            regex: self,
            input: &input,
            continue_disabled: false,
            wanted: MatchDetail::Span,
        };
        match find_match(alloc, &request, steps, memory)? {
            Some(found) => Ok(Some(whole_match(input.haystack(), &found))),
            None => Ok(None),
        }
    }

    /// `captures_input` that uses the memory of earlier searches again. The list of the groups is allocated.
    ///
    /// # Errors
    ///
    /// Those of `captures_input`. The regex and the memory can be used again.
    ///
    /// ```
    /// let regex = Regex::new(alloc, r"(\d+)-(\d+)")?;
    /// let mut memory = SearchMemory::new(alloc);
    /// let groups = regex.captures_in(alloc, RegexInput::new("in 2018-04"), &mut memory)?;
    /// assert!(rt; groups.map_or(0, |groups| groups.len()) == 3);
    /// ```
    pub fn captures_in<S: Input>(
        &self,
        alloc: Global,
        input: RegexInput<S>,
        memory: &mut MetaMemory,
    ) -> Result<Option<Captures<'_, S>>>
        ensures answer { IfOk result (λ found. IsResultFor (λ c. AreGroupsOf (meta_pattern self.now.meta) c.slots.items) found
            (meta_match self.now.meta
            (S.text input.haystack) (input.config))) }
        ensures of { IfOk result (λ found. IfSome found (λ c. (c.haystack ≡ input.haystack) × (c.regex.now ≡ self.now))) }
        ensures limits { IfErr result (λ e. IsMetaSearchError self.now.meta (S.text input.haystack) input.config false e) }
        ensures stays { IfOk result (λ _. MetaStaysInLimits self.now.meta (S.text input.haystack) input.config false) }
    {
        let request = SearchRequest {
            regex: self,
            input: &input,
            continue_disabled: false,
            wanted: MatchDetail::Groups,
        };
        let found = find_match(alloc, &request, &mut Steps::new(), memory)?;
        match found {
            Some(matched) => Ok(Some(Captures::new(self, input.haystack(), matched.groups))),
            None => Ok(None),
        }
    }
}
