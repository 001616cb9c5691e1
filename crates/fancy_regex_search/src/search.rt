//! The searches of `Regex`. Every offset is in bytes from the start of the haystack. A search that runs a program fails with
//! `RuntimeError` at the backtrack limit or the limit of open branches; each may fail with `Memory`. The regex can be used again
//! afterwards.

ghost use Rattle.std.specs.Prelude.{◌≡◌, ◌≤◌, ◌+◌, ◌-◌, ◌^◌, IfOk, IfErr, IfSome, is_some, option_map, length, true, false, min, None, IsCharBoundary};
ghost use Rattle.fancy_regex_input.specs.SearchInputs.{whole};
ghost use Rattle.fancy_regex_meta.specs.SearchLimits.{IsMetaSearchError, MetaStaysInLimits, meta_uses_easy, meta_starts_tried, max_looks};
ghost use Rattle.fancy_regex_meta.specs.MetaMatches.{meta_pattern, meta_match};
ghost use Rattle.fancy_regex_search.specs.RemainingMatches.{remaining_matches, all_matches};
ghost use Rattle.fancy_regex_search.specs.Looks.{MetaHasNoCountedRepeats, plain_looks};
ghost use Rattle.fancy_regex_search.specs.CaptureSpans.{span_in, AreGroupsOf, IsResultFor};

use crate::capture_matches::CaptureMatches;
use crate::captures::Captures;
use crate::group_spans::{SearchRequest, find_next, whole_match};
use crate::matches::Matches;
use crate::regex::Regex;
use fancy_regex_class::Steps;
use fancy_regex_input::{Input, RegexInput};
use fancy_regex_meta::{MatchDetail, MetaMemory, Result};
use std::alloc::Global;

impl Regex {
    /// Whether the haystack has a match.
    ///
    /// # Errors
    ///
    /// `RuntimeError` if the search exceeds a limit, which only a search that runs a program does; `Memory` if memory runs out. The
    /// regex can be used again.
    ///
    /// ```
    /// let regex = Regex::new(alloc, r"\w+(?=!)")?;
    /// assert!(rt; regex.is_match(alloc, "so fancy!")?);
    /// assert!(rt; !regex.is_match(alloc, "so plain.")?);
    /// ```
    pub fn is_match<S: Input>(&self, alloc: Global, haystack: S) -> Result<bool>
        ensures answer { IfOk result (λ yes. yes ≡ is_some (meta_match self.now.meta (S.text haystack) (whole (S.text haystack)))) }
        ensures limits { IfErr result (λ e. IsMetaSearchError self.now.meta (S.text haystack) (whole (S.text haystack)) false e) }
        ensures stays { IfOk result (λ _. MetaStaysInLimits self.now.meta (S.text haystack) (whole (S.text haystack)) false) }
    {
        self.is_match_input(alloc, RegexInput::new(haystack))
    }

    /// Whether `find_input` returns a match for this input.
    ///
    /// # Errors
    ///
    /// Those of `find_input`.
    ///
    /// ```
    /// let regex = Regex::new(alloc, "a")?;
    /// assert!(rt; !regex.is_match_input(alloc, RegexInput::new("ab").from_pos(1))?);
    /// ```
    pub fn is_match_input<S: Input>(&self, alloc: Global, input: RegexInput<S>) -> Result<bool>
        ensures answer { IfOk result (λ yes. yes ≡ is_some (meta_match self.now.meta (S.text input.haystack) (input.config))) }
        ensures limits { IfErr result (λ e. IsMetaSearchError self.now.meta (S.text input.haystack) input.config false e) }
        ensures stays { IfOk result (λ _. MetaStaysInLimits self.now.meta (S.text input.haystack) input.config false) }
    {
        self.is_match_in(alloc, input, &mut MetaMemory::new(alloc))
    }

    /// The first match in the haystack, with its byte offsets; `None` if there is none.
    ///
    /// # Errors
    ///
    /// `RuntimeError` if the search exceeds a limit, which only a search that runs a program does; `Memory` if memory runs out. The
    /// regex can be used again.
    ///
    /// ```
    /// let regex = Regex::new(alloc, r"\d+(?!\.)")?;
    /// let found = regex.find(alloc, "1. in 1897")?;
    /// assert!(rt; found.map(|found| found.as_str()) == Some("1897"));
    /// assert!(rt; regex.find(alloc, "1.")?.is_none());
    /// ```
    pub fn find<S: Input>(&self, alloc: Global, haystack: S) -> Result<Option<S::Match>>
        ensures answer { IfOk result (λ found. option_map S.span found ≡ option_map span_in
            (meta_match self.now.meta (S.text haystack) (whole (S.text haystack)))) }
        ensures text { IfOk result (λ found. IfSome found (λ m. S.match_text m ≡ S.text haystack)) }
        ensures limits { IfErr result (λ e. IsMetaSearchError self.now.meta (S.text haystack) (whole (S.text haystack)) false e) }
        ensures stays { IfOk result (λ _. MetaStaysInLimits self.now.meta (S.text haystack) (whole (S.text haystack)) false) }
    {
        let input = RegexInput::new(haystack);
        let request = SearchRequest {
            regex: self,
            input: &input,
            continue_disabled: false,
            wanted: MatchDetail::Span,
        };
        let memory = &mut MetaMemory::new(alloc);
        match find_next(alloc, &request, memory)? {
            Some(found) => Ok(Some(whole_match(input.haystack(), &found))),
            None => Ok(None),
        }
    }

    /// The first match that starts at the byte offset `position` or later; `None` if there is none. `\G` matches at `position`,
    /// which must be a character boundary of the haystack or lie past its end, where nothing is found.
    ///
    /// # Errors
    ///
    /// Those of `find`.
    ///
    /// ```
    /// let regex = Regex::new(alloc, r"\bb|\Gc")?;
    /// let found = regex.find_from_pos(alloc, "abc", 2)?;
    /// assert!(rt; found.map(|found| found.start()) == Some(2));
    /// ```
    pub fn find_from_pos<S: Input>(
        &self,
        alloc: Global,
        haystack: S,
        position: usize,
    ) -> Result<Option<S::Match>>
        requires { position ≤ length (S.text haystack) → IsCharBoundary (S.text haystack) position }
        ensures answer { IfOk result (λ found. option_map S.span found
            ≡ option_map span_in (meta_match self.now.meta (S.text haystack) (record (whole (S.text haystack)) { start = position }))) }
        ensures text { IfOk result (λ found. IfSome found (λ m. S.match_text m ≡ S.text haystack)) }
        ensures limits { IfErr result (λ e. IsMetaSearchError self.now.meta (S.text haystack)
            (record (whole (S.text haystack)) { start = position }) false e) }
        ensures stays { IfOk result (λ _. MetaStaysInLimits self.now.meta (S.text haystack)
            (record (whole (S.text haystack)) { start = position }) false) }
    {
        let input = RegexInput::new(haystack).from_pos(position);
        self.find_counted_in(alloc, input, &mut Steps::new(), &mut MetaMemory::new(alloc))
    }

    /// The first match of an input; `None` if there is none.
    ///
    /// # Errors
    ///
    /// `RuntimeError` if the search exceeds a limit, which only a search that runs a program does; `Memory` if memory runs out. The
    /// regex can be used again.
    ///
    /// ```
    /// let regex = Regex::new(alloc, "b+")?;
    /// let found = regex.find_input(alloc, RegexInput::new("abbb").range(0..3))?;
    /// assert!(rt; found.map(|found| found.range()) == Some(1..3));
    /// ```
    pub fn find_input<S: Input>(
        &self,
        alloc: Global,
        input: RegexInput<S>,
    ) -> Result<Option<S::Match>>
        ensures answer { IfOk result (λ found. option_map S.span found ≡ option_map span_in
            (meta_match self.now.meta (S.text input.haystack) (input.config))) }
        ensures text { IfOk result (λ found. IfSome found (λ m. S.match_text m ≡ S.text input.haystack)) }
        ensures limits { IfErr result (λ e. IsMetaSearchError self.now.meta (S.text input.haystack) input.config false e) }
        ensures stays { IfOk result (λ _. MetaStaysInLimits self.now.meta (S.text input.haystack) input.config false) }
    {
        self.find_counted_in(alloc, input, &mut Steps::new(), &mut MetaMemory::new(alloc))
    }

    /// `find_input` that also counts, for a plain pattern: one without look-around, reference or other fancy part, in a regex whose
    /// empty matches are wanted. Each time the linear-time matcher inspects a position of the haystack is meant to raise the counter by
    /// one. What is proved is how much it rises at most, also if memory runs out, and that it rises at least once for each start that is
    /// tried, where there is an answer; it never falls. For every other pattern it stays as it is, also where the linear-time matcher
    /// runs it.
    ///
    /// # Errors
    ///
    /// Those of `find_input`.
    ///
    /// ```
    /// let regex = Regex::new(alloc, "a+b")?;
    /// let mut steps = Steps::new();
    /// let found = regex.find_input_counted(alloc, RegexInput::new("aaac"), &mut steps)?;
    /// assert!(rt; found.is_none() && steps.count() > 0);
    /// ```
    pub fn find_input_counted<S: Input>(
        &self,
        alloc: Global,
        input: RegexInput<S>,
        steps: &mut Steps,
    ) -> Result<Option<S::Match>>
        ensures answer { IfOk result (λ found. option_map S.span found ≡ option_map span_in
            (meta_match self.now.meta (S.text input.haystack) (input.config))) }
        ensures text { IfOk result (λ found. IfSome found (λ m. S.match_text m ≡ S.text input.haystack)) }
        ensures limits { IfErr result (λ e. IsMetaSearchError self.now.meta (S.text input.haystack) input.config false e) }
        ensures stays { IfOk result (λ _. MetaStaysInLimits self.now.meta (S.text input.haystack) input.config false) }
        ensures looks_most { meta_uses_easy self.now.meta ≡ true → steps.new ≤ steps.old + max_looks self.now.meta input.config }
        ensures looks_least { IfOk result (λ _. meta_uses_easy self.now.meta ≡ true
            → min (steps.old + meta_starts_tried self.now.meta (S.text input.haystack) input.config false) (2 ^ 64 - 1) ≤ steps.new) }
        ensures looks_plain { MetaHasNoCountedRepeats self.now.meta → meta_uses_easy self.now.meta ≡ true → steps.new ≤ steps.old
            + plain_looks self.now.meta input.config }
        ensures looks_none { meta_uses_easy self.now.meta ≡ false → steps.new ≡ steps.old }
        ensures counts { steps.old ≤ steps.new }
    {
        self.find_counted_in(alloc, input, steps, &mut MetaMemory::new(alloc))
    }

    /// The capture groups of the first match in the haystack; `None` if there is none.
    ///
    /// # Errors
    ///
    /// `RuntimeError` if the search exceeds a limit, which only a search that runs a program does; `Memory` if memory runs out. The
    /// regex can be used again.
    ///
    /// ```
    /// let regex = Regex::new(alloc, r"(\d+)-(\d+)")?;
    /// let month = match regex.captures(alloc, "in 2018-04")? {
    ///     Some(groups) => groups.get(2),
    ///     None => None,
    /// };
    /// assert!(rt; month.map(|month| month.as_str()) == Some("04"));
    /// ```
    pub fn captures<S: Input>(&self, alloc: Global, haystack: S) -> Result<Option<Captures<'_, S>>>
        ensures answer { IfOk result (λ found. IsResultFor (λ c. AreGroupsOf (meta_pattern self.now.meta) c.slots.items) found
            (meta_match self.now.meta
            (S.text haystack) (whole (S.text haystack)))) }
        ensures of { IfOk result (λ found. IfSome found (λ c. (c.haystack ≡ haystack) × (c.regex.now ≡ self.now))) }
        ensures limits { IfErr result (λ e. IsMetaSearchError self.now.meta (S.text haystack) (whole (S.text haystack)) false e) }
        ensures stays { IfOk result (λ _. MetaStaysInLimits self.now.meta (S.text haystack) (whole (S.text haystack)) false) }
    {
        self.captures_input(alloc, RegexInput::new(haystack))
    }

    /// The capture groups of the first match that starts at the byte offset `position` or later; `None` if there is none. `\G`
    /// matches at `position`, which must be a character boundary of the haystack or lie past its end, where nothing is found.
    ///
    /// # Errors
    ///
    /// Those of `captures`.
    ///
    /// ```
    /// let regex = Regex::new(alloc, r"a(b)?")?;
    /// if let Some(groups) = regex.captures_from_pos(alloc, "aba", 1)? {
    ///     assert!(rt; groups.get(0).is_some() && groups.get(1).is_none());
    /// }
    /// ```
    pub fn captures_from_pos<S: Input>(
        &self,
        alloc: Global,
        haystack: S,
        position: usize,
    ) -> Result<Option<Captures<'_, S>>>
        requires { position ≤ length (S.text haystack) → IsCharBoundary (S.text haystack) position }
        ensures answer { IfOk result (λ found. IsResultFor (λ c. AreGroupsOf (meta_pattern self.now.meta) c.slots.items) found
            (meta_match self.now.meta (S.text haystack) (record (whole (S.text haystack)) { start = position }))) }
        ensures of { IfOk result (λ found. IfSome found (λ c. (c.haystack ≡ haystack) × (c.regex.now ≡ self.now))) }
        ensures limits { IfErr result (λ e. IsMetaSearchError self.now.meta (S.text haystack)
            (record (whole (S.text haystack)) { start = position }) false e) }
        ensures stays { IfOk result (λ _. MetaStaysInLimits self.now.meta (S.text haystack)
            (record (whole (S.text haystack)) { start = position }) false) }
    {
        self.captures_input(alloc, RegexInput::new(haystack).from_pos(position))
    }

    /// The capture groups of the first match of an input; `None` if there is none.
    ///
    /// # Errors
    ///
    /// `RuntimeError` if the search exceeds a limit, which only a search that runs a program does; `Memory` if memory runs out. The
    /// regex can be used again.
    ///
    /// ```
    /// let regex = Regex::new(alloc, r"(b)")?;
    /// let groups = regex.captures_input(alloc, RegexInput::new("ab").anchored(true))?;
    /// assert!(rt; groups.is_none());
    /// ```
    pub fn captures_input<S: Input>(
        &self,
        alloc: Global,
        input: RegexInput<S>,
    ) -> Result<Option<Captures<'_, S>>>
        ensures answer { IfOk result (λ found. IsResultFor (λ c. AreGroupsOf (meta_pattern self.now.meta) c.slots.items) found
            (meta_match self.now.meta
            (S.text input.haystack) (input.config))) }
        ensures of { IfOk result (λ found. IfSome found (λ c. (c.haystack ≡ input.haystack) × (c.regex.now ≡ self.now))) }
        ensures limits { IfErr result (λ e. IsMetaSearchError self.now.meta (S.text input.haystack) input.config false e) }
        ensures stays { IfOk result (λ _. MetaStaysInLimits self.now.meta (S.text input.haystack) input.config false) }
    {
        self.captures_in(alloc, input, &mut MetaMemory::new(alloc))
    }

    /// The non-overlapping matches in the haystack, from left to right. An item may be an error of `find`, and is the last one then.
    ///
    /// ```
    /// let regex = Regex::new(alloc, r"\w+(?=!)")?;
    /// let mut matches = regex.find_iter(alloc, "so fancy! even with! iterators!");
    /// let mut last = 0;
    /// while let Some(found) = matches.next() {
    ///     last = found?.start();
    /// }
    /// assert!(rt; last == 21);
    /// ```
    pub fn find_iter<S: Input>(&self, alloc: Global, haystack: S) -> Matches<'_, S>
        ensures left { remaining_matches result.match_iter.regex.now.meta
            (S.text result.match_iter.input.haystack) result.match_iter.input.config result.match_iter.state
            ≡ all_matches self.now.meta (S.text haystack) (whole (S.text haystack)) }
        ensures input { (result.match_iter.input.haystack ≡ haystack) × (result.match_iter.input.config ≡ whole (S.text haystack)) }
        ensures regex { result.match_iter.regex.now ≡ self.now }
        ensures begins { result.match_iter.state.continue_disabled ≡ false }
        ensures going { result.match_iter.state.is_done ≡ false }
        ensures first { result.match_iter.state.last ≡ None }
    {
        self.find_iter_input(alloc, RegexInput::new(haystack))
    }

    /// The non-overlapping matches of an input, from left to right. An item may be an error of `find_input`, and is the last one
    /// then.
    ///
    /// ```
    /// let regex = Regex::new(alloc, "a|b")?;
    /// let mut matches = regex.find_iter_input(alloc, RegexInput::new("ab").from_pos(1));
    /// assert!(rt; matches.input().start() == 1);
    /// assert!(rt; matches.next().is_some());
    /// assert!(rt; matches.next().is_none());
    /// ```
    pub fn find_iter_input<S: Input>(&self, alloc: Global, input: RegexInput<S>) -> Matches<'_, S>
        ensures left { remaining_matches result.match_iter.regex.now.meta
            (S.text result.match_iter.input.haystack) result.match_iter.input.config result.match_iter.state
            ≡ all_matches self.now.meta (S.text input.haystack) (input.config) }
        ensures input { (result.match_iter.input.haystack ≡ input.haystack) × (result.match_iter.input.config ≡ input.config) }
        ensures regex { result.match_iter.regex.now ≡ self.now }
        ensures begins { result.match_iter.state.continue_disabled ≡ false }
        ensures going { result.match_iter.state.is_done ≡ false }
        ensures first { result.match_iter.state.last ≡ None }
    {
        Matches::new(alloc, self, input)
    }

    /// The capture groups of the non-overlapping matches in the haystack, from left to right. An item may be an error of `captures`,
    /// and is the last one then.
    ///
    /// ```
    /// let regex = Regex::new(alloc, r"(\w)=(\d)?")?;
    /// let mut all = regex.captures_iter(alloc, "a=1 b=");
    /// let mut is_set = true;
    /// while let Some(groups) = all.next() {
    ///     is_set = groups?.get(2).is_some();
    /// }
    /// assert!(rt; !is_set);
    /// ```
    pub fn captures_iter<S: Input>(&self, alloc: Global, haystack: S) -> CaptureMatches<'_, S>
        ensures left { remaining_matches result.match_iter.regex.now.meta
            (S.text result.match_iter.input.haystack) result.match_iter.input.config result.match_iter.state
            ≡ all_matches self.now.meta (S.text haystack) (whole (S.text haystack)) }
        ensures input { (result.match_iter.input.haystack ≡ haystack) × (result.match_iter.input.config ≡ whole (S.text haystack)) }
        ensures regex { result.match_iter.regex.now ≡ self.now }
        ensures begins { result.match_iter.state.continue_disabled ≡ false }
        ensures going { result.match_iter.state.is_done ≡ false }
        ensures first { result.match_iter.state.last ≡ None }
    {
        self.captures_iter_input(alloc, RegexInput::new(haystack))
    }

    /// The capture groups of the non-overlapping matches of an input, from left to right. An item may be an error of
    /// `captures_input`, and is the last one then.
    ///
    /// ```
    /// let regex = Regex::new(alloc, "(a)|b")?;
    /// let mut all = regex.captures_iter_input(alloc, RegexInput::new("ab").range(0..1));
    /// if let Some(groups) = all.next() {
    ///     assert!(rt; groups?.get(1).is_some());
    /// }
    /// ```
    pub fn captures_iter_input<S: Input>(
        &self,
        alloc: Global,
        input: RegexInput<S>,
    ) -> CaptureMatches<'_, S>
        ensures left { remaining_matches result.match_iter.regex.now.meta
            (S.text result.match_iter.input.haystack) result.match_iter.input.config result.match_iter.state
            ≡ all_matches self.now.meta (S.text input.haystack) (input.config) }
        ensures input { (result.match_iter.input.haystack ≡ input.haystack) × (result.match_iter.input.config ≡ input.config) }
        ensures regex { result.match_iter.regex.now ≡ self.now }
        ensures begins { result.match_iter.state.continue_disabled ≡ false }
        ensures going { result.match_iter.state.is_done ≡ false }
        ensures first { result.match_iter.state.last ≡ None }
    {
        CaptureMatches::new(alloc, self, input)
    }
}
