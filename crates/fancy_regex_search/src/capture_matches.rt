//! `CaptureMatches`: the iterator over the capture groups of all matches in a haystack.

ghost use Rattle.std.specs.Prelude.{◌≡◌, ◌≤◌, false, None, slice_index, IfSome, IfOk, IfErr};
ghost use Rattle.std.specs.Iterator.{at_most};
ghost use Rattle.fancy_regex_class.specs.RunInputs.{match_slots};
ghost use Rattle.fancy_regex_meta.specs.MetaMatches.{meta_pattern};
ghost use Rattle.fancy_regex_meta.specs.declared.found.MatchDetail.TheVariants.{Groups};
ghost use Rattle.fancy_regex_search.specs.IterationErrors.{IsItemError};
ghost use Rattle.fancy_regex_search.specs.IterationLimits.{NextStays};
ghost use Rattle.fancy_regex_search.specs.IterationSearches.{KeepsSearches};
ghost use Rattle.fancy_regex_search.specs.RemainingMatches.{remaining_matches, all_matches, remaining_searches, Yields};
ghost use Rattle.fancy_regex_search.specs.IterationSteps.{NextEnds, NextKeeps, NextReturns};

use crate::captures::Captures;
use crate::match_iter::MatchIter;
use crate::regex::Regex;
use fancy_regex_input::{Input, RegexInput};
use fancy_regex_meta::{MatchDetail, Result};
use std::alloc::Global;

/// The capture groups of the non-overlapping matches in a haystack, from left to right. After an error or `None` there are no more
/// items.
///
/// # Errors
///
/// An item is `RuntimeError` if its search exceeds a limit, which only a search that runs a program does, and `Memory` if memory runs
/// out.
///
/// ```
/// let regex = Regex::new(alloc, "(a)n")?;
/// let mut all = regex.captures_iter(alloc, "banana");
/// assert!(rt; all.text() == "banana" && all.regex().captures_len() == 2);
/// if let Some(groups) = all.next() {
///     assert!(rt; groups?.len() == 2);
/// }
/// ```
#[derive(Drop)]
pub struct CaptureMatches<'r, S: Input> {
    /// The searches of the iteration.
    match_iter: MatchIter<'r, S>,
    pub ghost groups: { match_iter.wanted ≡ Groups },
}

impl<'r, S: Input> CaptureMatches<'r, S> {
    /// The iterator before its first search.
    pub(crate) fn new(
        alloc: Global,
        regex: &'r Regex,
        input: RegexInput<S>,
    ) -> CaptureMatches<'r, S>
        ensures left { remaining_matches result.match_iter.regex.now.meta
            (S.text result.match_iter.input.haystack) result.match_iter.input.config result.match_iter.state
            ≡ all_matches regex.entry.now.meta (S.text input.haystack) input.config }
        ensures input { (result.match_iter.input.haystack ≡ input.haystack) × (result.match_iter.input.config ≡ input.config) }
        ensures regex { result.match_iter.regex ≡ regex.entry }
        ensures begins { result.match_iter.state.continue_disabled ≡ false }
        ensures going { result.match_iter.state.is_done ≡ false }
        ensures first { result.match_iter.state.last ≡ None }
    {
        CaptureMatches {
            match_iter: MatchIter::new(alloc, regex, input, MatchDetail::Groups),
        }
    }

    /// The haystack.
    pub fn text(&self) -> S
        ensures { result ≡ self.now.match_iter.input.haystack }
    {
        self.match_iter.input.haystack()
    }

    /// The regex that searches.
    pub fn regex(&self) -> &'r Regex
        ensures { result ≡ self.now.match_iter.regex }
    {
        self.match_iter.regex
    }
}

impl<'r, S: Input> Iterator for CaptureMatches<'r, S> {
    type Item = Result<Captures<'r, S>>;

    ghost next_gives = { λ s r t. (Yields (λ c m. c.slots.items ≡ match_slots (meta_pattern s.match_iter.regex.now.meta) m)
        (remaining_matches s.match_iter.regex.now.meta (S.text s.match_iter.input.haystack) s.match_iter.input.config s.match_iter.state) r
        (remaining_matches t.match_iter.regex.now.meta (S.text t.match_iter.input.haystack) t.match_iter.input.config t.match_iter.state))
        × IfSome r (λ item. IfOk item (λ c. (c.haystack ≡ s.match_iter.input.haystack) × (c.regex ≡ s.match_iter.regex)))
        × (s.match_iter.input.config.start ≤ t.match_iter.input.config.start)
        × (t.match_iter.input.haystack ≡ s.match_iter.input.haystack) × (t.match_iter.regex ≡ s.match_iter.regex)
        × (t.match_iter.input.config ≡ record (s.match_iter.input.config) { start = t.match_iter.input.config.start })
        × IfSome r (λ item. IfErr item (λ e. IsItemError s.match_iter.regex.now.meta
        (S.text s.match_iter.input.haystack) s.match_iter.input.config s.match_iter.state e))
        × IfSome r (λ item. IfOk item (λ m. KeepsSearches s.match_iter.regex.now.meta
        (S.text s.match_iter.input.haystack) s.match_iter.input.config s.match_iter.state.continue_disabled
        t.match_iter.input.config t.match_iter.state.continue_disabled))
        × NextEnds r t.match_iter.state
        × NextKeeps (λ c. slice_index c.slots.items 1) r t.match_iter.state
        × NextStays s.match_iter.regex.now.meta (S.text s.match_iter.input.haystack) s.match_iter.input.config s.match_iter.state r
        × NextReturns s.match_iter.regex.now.meta (S.text s.match_iter.input.haystack) s.match_iter.input.config s.match_iter.state r
        t.match_iter.input.config t.match_iter.state };

    ghost remaining = { λ s. at_most (remaining_searches (S.text s.match_iter.input.haystack) s.match_iter.input.config
        s.match_iter.state) };

    /// The groups of the next match, or the error of its search, after which the iteration is over. `None` after the last match and
    /// after an error.
    fn next(&mut self) -> Option<Result<Captures<'r, S>>> {
        let regex = self.match_iter.regex;
        let haystack = self.match_iter.input.haystack();
        match self.match_iter.advance()? {
            Ok(found) => Some(Ok(Captures::new(regex, haystack, found.groups))),
            Err(error) => Some(Err(error)),
        }
    }
}
