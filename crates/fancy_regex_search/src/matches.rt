//! `Matches`: the iterator over all matches in a haystack.

ghost use Rattle.std.specs.Prelude.{◌≡◌, ◌≤◌, false, None, IfSome, IfNone, IfOk, IfErr};
ghost use Rattle.std.specs.Iterator.{at_most};
ghost use Rattle.fancy_regex_search.specs.IterationErrors.{IsItemError};
ghost use Rattle.fancy_regex_search.specs.IterationLimits.{NextStays};
ghost use Rattle.fancy_regex_search.specs.IterationSearches.{KeepsSearches};
ghost use Rattle.fancy_regex_search.specs.RemainingMatches.{remaining_matches, all_matches, remaining_searches, Yields};
ghost use Rattle.fancy_regex_search.specs.CaptureSpans.{span_in};
ghost use Rattle.fancy_regex_search.specs.IterationSteps.{IsLeftByNone, NextMoves, NextEnds, NextKeeps, NextReturns};

use crate::group_spans::whole_match;
use crate::match_iter::MatchIter;
use crate::regex::Regex;
use fancy_regex_input::{Input, RegexInput};
use fancy_regex_meta::{MatchDetail, Result};
use std::alloc::Global;

/// The non-overlapping matches in a haystack, from left to right. After an error or `None` there are no more items.
///
/// # Errors
///
/// An item is `RuntimeError` if its search exceeds a limit, which only a search that runs a program does, and `Memory` if memory runs
/// out.
///
/// ```
/// let regex = Regex::new(alloc, "a")?;
/// let mut matches = regex.find_iter(alloc, "banana");
/// assert!(rt; matches.text() == "banana" && matches.regex().as_str() == "a");
/// let first = matches.next().ok_or("a match")??;
/// assert!(rt; first.range() == (1..2) && matches.input().start() == 2);
/// ```
#[derive(Drop)]
pub struct Matches<'r, S: Input> {
    /// The searches of the iteration.
    match_iter: MatchIter<'r, S>,
}

impl<'r, S: Input> Matches<'r, S> {
    /// The iterator before its first search.
    pub(crate) fn new(alloc: Global, regex: &'r Regex, input: RegexInput<S>) -> Matches<'r, S>
        ensures left { remaining_matches result.match_iter.regex.now.meta
            (S.text result.match_iter.input.haystack) result.match_iter.input.config result.match_iter.state
            ≡ all_matches regex.entry.now.meta (S.text input.haystack) input.config }
        ensures input { (result.match_iter.input.haystack ≡ input.haystack) × (result.match_iter.input.config ≡ input.config) }
        ensures regex { result.match_iter.regex ≡ regex.entry }
        ensures begins { result.match_iter.state.continue_disabled ≡ false }
        ensures going { result.match_iter.state.is_done ≡ false }
        ensures first { result.match_iter.state.last ≡ None }
    {
        Matches {
            match_iter: MatchIter::new(alloc, regex, input, MatchDetail::Span),
        }
    }

    /// The regex that searches.
    pub fn regex(&self) -> &'r Regex
        ensures { result ≡ self.now.match_iter.regex }
    {
        self.match_iter.regex
    }

    /// The haystack.
    pub fn text(&self) -> S
        ensures { result ≡ self.now.match_iter.input.haystack }
    {
        self.match_iter.input.haystack()
    }

    /// The input of the next search. After `None` it is the input of the search that found nothing, and further calls of
    /// `next` leave it so. After an error its start is the character boundary after the end of the range, or one byte past the
    /// end of the haystack if there is no such boundary.
    pub fn input(&self) -> &RegexInput<S>
        ensures { result.now ≡ self.now.match_iter.input }
    {
        &self.match_iter.input
    }
}

impl<'r, S: Input> Iterator for Matches<'r, S> {
    type Item = Result<S::Match>;

    ghost next_gives = { λ s r t. (Yields (λ x m. S.span x ≡ span_in m)
        (remaining_matches s.match_iter.regex.now.meta (S.text s.match_iter.input.haystack) s.match_iter.input.config s.match_iter.state) r
        (remaining_matches t.match_iter.regex.now.meta (S.text t.match_iter.input.haystack) t.match_iter.input.config t.match_iter.state))
        × NextMoves S.span (S.text s.match_iter.input.haystack) s.match_iter.input.config r t.match_iter.input.config
        × (s.match_iter.input.config.start ≤ t.match_iter.input.config.start)
        × (t.match_iter.input.haystack ≡ s.match_iter.input.haystack) × (t.match_iter.regex ≡ s.match_iter.regex)
        × (t.match_iter.input.config ≡ record (s.match_iter.input.config) { start = t.match_iter.input.config.start })
        × IfSome r (λ item. IfErr item (λ e. IsItemError s.match_iter.regex.now.meta
        (S.text s.match_iter.input.haystack) s.match_iter.input.config s.match_iter.state e))
        × IfSome r (λ item. IfOk item (λ m. KeepsSearches s.match_iter.regex.now.meta
        (S.text s.match_iter.input.haystack) s.match_iter.input.config s.match_iter.state.continue_disabled
        t.match_iter.input.config t.match_iter.state.continue_disabled))
        × NextEnds r t.match_iter.state × IfSome r (λ item. IfOk item (λ m. S.match_text m ≡ S.text s.match_iter.input.haystack))
        × NextKeeps (λ m. (S.span m).1) r t.match_iter.state
        × IfNone r (IsLeftByNone s.match_iter.regex.now.meta (S.text s.match_iter.input.haystack) s.match_iter.input.config
        s.match_iter.state
        t.match_iter.input.config t.match_iter.state)
        × NextStays s.match_iter.regex.now.meta (S.text s.match_iter.input.haystack) s.match_iter.input.config s.match_iter.state r
        × NextReturns s.match_iter.regex.now.meta (S.text s.match_iter.input.haystack) s.match_iter.input.config s.match_iter.state r
        t.match_iter.input.config t.match_iter.state };

    ghost remaining = { λ s. at_most (remaining_searches (S.text s.match_iter.input.haystack) s.match_iter.input.config
        s.match_iter.state) };

    /// The next match, or the error of its search, after which the iteration is over. `None` after the last match and after an error.
    fn next(&mut self) -> Option<Result<S::Match>> {
        let haystack = self.match_iter.input.haystack();
        match self.match_iter.advance()? {
            Ok(found) => Some(Ok(whole_match(haystack, &found))),
            Err(error) => Some(Err(error)),
        }
    }
}
