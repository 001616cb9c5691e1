//! `Split` and `SplitN`: the iterators over the pieces of a text between its matches.

ghost use Rattle.std.specs.Prelude.{◌≡◌, ◌+◌, ◌-◌, ◌<◌, ◌≢◌, drop, true, false, None, MatchOption, IfSome, IfOk, IfErr, if◌then◌else◌};
ghost use Rattle.std.specs.Iterator.{at_most};
ghost use Rattle.fancy_regex_input.specs.SearchInputs.{whole};
ghost use Rattle.fancy_regex_meaning.specs.Searches.{pieces, pieces_up_to};
ghost use Rattle.fancy_regex_search.specs.IterationErrors.{IsItemError};
ghost use Rattle.fancy_regex_search.specs.IterationLimits.{PieceStays};
ghost use Rattle.fancy_regex_search.specs.IterationSearches.{KeepsSearches};
ghost use Rattle.fancy_regex_search.specs.IterationSteps.{NextReturns};
ghost use Rattle.fancy_regex_search.specs.NextCalls.{StartsLater, PieceKeepsLimits};
ghost use Rattle.fancy_regex_search.specs.RemainingMatches.{remaining_matches, remaining_searches, all_matches};
ghost use Rattle.fancy_regex_search.specs.Pieces.{pieces_left, pieces_left_up_to, MovesPiece, YieldsPiece, PieceEnds};

use crate::gap_iter::GapIter;
use crate::regex::Regex;
use fancy_regex_meta::{MatchDetail, Result};
use std::alloc::Global;
use std::iter::FusedIterator;

/// The pieces of a text between the matches, and the rest after the last match. After an error only the rest of the text comes,
/// from the end of the last match on.
///
/// # Errors
///
/// An item is `RuntimeError` if a search exceeds a limit, which only a search that runs a program does, and `Memory` if memory runs out.
///
/// ```
/// let comma = Regex::new(alloc, r"\s*,\s*")?;
/// let mut pieces = comma.split(alloc, "a , b");
/// assert!(rt; pieces.next().ok_or("a piece")?? == "a");
/// assert!(rt; pieces.next().ok_or("the rest")?? == "b");
/// assert!(rt; pieces.next().is_none());
/// ```
#[derive(Drop)]
pub struct Split<'r, 'h> {
    /// The matches.
    gaps: GapIter<'r, 'h>,
    /// The rest has been returned.
    is_done: bool,
}

impl<'r, 'h> Split<'r, 'h> {
    /// The iterator before its first search.
    fn new(alloc: Global, regex: &'r Regex, text: &'h str) -> Split<'r, 'h>
        ensures left { pieces_left result.is_done result.gaps.match_iter.input.haystack.now result.gaps.last_end
            (remaining_matches result.gaps.match_iter.regex.now.meta result.gaps.match_iter.input.haystack.now
            result.gaps.match_iter.input.config result.gaps.match_iter.state)
            ≡ pieces text.entry.now (all_matches regex.entry.now.meta text.entry.now (whole text.entry.now)) }
        ensures matches { remaining_matches result.gaps.match_iter.regex.now.meta result.gaps.match_iter.input.haystack.now
            result.gaps.match_iter.input.config
            result.gaps.match_iter.state
            ≡ all_matches regex.entry.now.meta text.entry.now (whole text.entry.now) }
        ensures input { (result.gaps.match_iter.input.haystack ≡ text.entry)
            × (result.gaps.match_iter.input.config ≡ whole text.entry.now) }
        ensures regex { result.gaps.match_iter.regex ≡ regex.entry }
        ensures begins { (result.gaps.match_iter.state.continue_disabled ≡ false) × (result.gaps.last_end ≡ 0) × (result.is_done ≡ false) }
        ensures going { result.gaps.match_iter.state.is_done ≡ false }
        ensures first { result.gaps.match_iter.state.last ≡ None }
    {
        Split {
            gaps: GapIter::new(alloc, regex, text, MatchDetail::Span),
            is_done: false,
        }
    }

    /// The next piece, an error, or the rest of the text after the last match and after an error. `None` after the rest.
    fn next_piece(&mut self) -> Option<Result<&'h str>>
        ensures moves { MovesPiece self.old.gaps.match_iter.input.haystack.now self.old.is_done self.old.gaps.last_end
            (remaining_matches self.old.gaps.match_iter.regex.now.meta self.old.gaps.match_iter.input.haystack.now
            self.old.gaps.match_iter.input.config self.old.gaps.match_iter.state) result
            self.new.is_done self.new.gaps.last_end
            (remaining_matches self.new.gaps.match_iter.regex.now.meta self.new.gaps.match_iter.input.haystack.now
            self.new.gaps.match_iter.input.config self.new.gaps.match_iter.state) }
        ensures nears { self.new.is_done ≡ false → remaining_searches self.new.gaps.match_iter.input.haystack.now
            self.new.gaps.match_iter.input.config
            self.new.gaps.match_iter.state
            < remaining_searches self.old.gaps.match_iter.input.haystack.now self.old.gaps.match_iter.input.config
            self.old.gaps.match_iter.state }
        ensures same { (self.new.gaps.match_iter.input.haystack ≡ self.old.gaps.match_iter.input.haystack)
            × (self.new.gaps.match_iter.regex ≡ self.old.gaps.match_iter.regex) }
        ensures onward { StartsLater self.old.gaps.match_iter.input.config self.new.gaps.match_iter.input.config }
        ensures limits { PieceKeepsLimits self.old.gaps.match_iter.regex.now.meta self.old.gaps.match_iter.input.haystack.now
            self.old.gaps.match_iter.input.config self.old.gaps.match_iter.state result self.new.is_done
            self.new.gaps.match_iter.input.config self.new.gaps.match_iter.state }
        ensures ends { PieceEnds result self.old.gaps.match_iter.state self.new.is_done self.new.gaps.match_iter.state }
    {
        if self.is_done {
            return None;
        }
        match self.gaps.next_gap() {
            Some(Ok(gap)) => Some(Ok(gap.text)),
            Some(Err(error)) => Some(Err(error)),
            None => Some(Ok(self.take_rest()?)),
        }
    }

    /// The rest of the text, unless it has been returned.
    fn take_rest(&mut self) -> Option<&'h str>
        ensures value { MatchOption result (self.old.is_done ≡ true)
            (λ rest. (self.old.is_done ≡ false) × (rest.now ≡ drop self.old.gaps.last_end self.old.gaps.match_iter.input.haystack.now)) }
        ensures done { self.new.is_done ≡ true }
        ensures same { self.new.gaps ≡ self.old.gaps }
    {
        if self.is_done {
            return None;
        }
        self.is_done = true;
        Some(self.gaps.rest())
    }
}

impl<'r, 'h> Iterator for Split<'r, 'h> {
    type Item = Result<&'h str>;

    ghost next_gives = { λ s r t. (YieldsPiece (drop s.gaps.last_end s.gaps.match_iter.input.haystack.now)
        (pieces_left s.is_done s.gaps.match_iter.input.haystack.now s.gaps.last_end
        (remaining_matches s.gaps.match_iter.regex.now.meta s.gaps.match_iter.input.haystack.now s.gaps.match_iter.input.config
        s.gaps.match_iter.state)) r
        (pieces_left t.is_done t.gaps.match_iter.input.haystack.now t.gaps.last_end
        (remaining_matches t.gaps.match_iter.regex.now.meta t.gaps.match_iter.input.haystack.now t.gaps.match_iter.input.config
        t.gaps.match_iter.state)))
        × (t.gaps.match_iter.input.haystack ≡ s.gaps.match_iter.input.haystack) × (t.gaps.match_iter.regex ≡ s.gaps.match_iter.regex)
        × (t.gaps.match_iter.input.config ≡ record (s.gaps.match_iter.input.config) { start = t.gaps.match_iter.input.config.start })
        × IfSome r (λ item. IfErr item (λ e. IsItemError s.gaps.match_iter.regex.now.meta s.gaps.match_iter.input.haystack.now
        s.gaps.match_iter.input.config
        s.gaps.match_iter.state e))
        × (t.is_done ≡ false → IfSome r (λ item. IfOk item (λ _. KeepsSearches s.gaps.match_iter.regex.now.meta
        s.gaps.match_iter.input.haystack.now s.gaps.match_iter.input.config
        s.gaps.match_iter.state.continue_disabled t.gaps.match_iter.input.config t.gaps.match_iter.state.continue_disabled)))
        × PieceEnds r s.gaps.match_iter.state t.is_done t.gaps.match_iter.state
        × PieceStays s.gaps.match_iter.regex.now.meta s.gaps.match_iter.input.haystack.now s.gaps.match_iter.input.config
        s.gaps.match_iter.state r
        × (t.is_done ≡ false → NextReturns s.gaps.match_iter.regex.now.meta s.gaps.match_iter.input.haystack.now
        s.gaps.match_iter.input.config
        s.gaps.match_iter.state r t.gaps.match_iter.input.config t.gaps.match_iter.state) };

    ghost remaining = { λ s. at_most (if s.is_done then 0 else
        1 + remaining_searches s.gaps.match_iter.input.haystack.now s.gaps.match_iter.input.config s.gaps.match_iter.state) };

    /// The next piece, the error of its search, or the rest of the text, which is the last item.
    fn next(&mut self) -> Option<Result<&'h str>> {
        self.next_piece()
    }
}

impl FusedIterator for Split<'_, '_> {}

/// The first pieces of a text between the matches, and then the rest of the text as the last piece. An error counts as an item;
/// after it only the rest of the text comes.
///
/// # Errors
///
/// Those of `Split`. The last item that the limit allows is the rest, and no error.
///
/// ```
/// let comma = Regex::new(alloc, ",")?;
/// let mut pieces = comma.splitn(alloc, "a,b,c", 2);
/// assert!(rt; pieces.next().ok_or("a piece")?? == "a");
/// assert!(rt; pieces.next().ok_or("the rest")?? == "b,c");
/// ```
#[derive(Drop)]
pub struct SplitN<'r, 'h> {
    /// The pieces.
    split: Split<'r, 'h>,
    /// How many items are still to be returned at most.
    limit: usize,
}

impl<'r, 'h> Iterator for SplitN<'r, 'h> {
    type Item = Result<&'h str>;

    ghost next_gives = { λ s r t. (YieldsPiece (drop s.split.gaps.last_end s.split.gaps.match_iter.input.haystack.now)
        (pieces_left_up_to s.limit s.split.is_done s.split.gaps.match_iter.input.haystack.now s.split.gaps.last_end
        (remaining_matches s.split.gaps.match_iter.regex.now.meta s.split.gaps.match_iter.input.haystack.now
        s.split.gaps.match_iter.input.config s.split.gaps.match_iter.state)) r
        (pieces_left_up_to t.limit t.split.is_done t.split.gaps.match_iter.input.haystack.now t.split.gaps.last_end
        (remaining_matches t.split.gaps.match_iter.regex.now.meta t.split.gaps.match_iter.input.haystack.now
        t.split.gaps.match_iter.input.config t.split.gaps.match_iter.state)))
        × (t.split.gaps.match_iter.input.haystack ≡ s.split.gaps.match_iter.input.haystack)
        × (t.split.gaps.match_iter.regex ≡ s.split.gaps.match_iter.regex)
        × (t.split.gaps.match_iter.input.config ≡ record (s.split.gaps.match_iter.input.config)
        { start = t.split.gaps.match_iter.input.config.start })
        × IfSome r (λ item. IfErr item (λ e. IsItemError s.split.gaps.match_iter.regex.now.meta
        s.split.gaps.match_iter.input.haystack.now s.split.gaps.match_iter.input.config
        s.split.gaps.match_iter.state e))
        × (t.split.is_done ≡ false → IfSome r (λ item. IfOk item
        (λ _. KeepsSearches s.split.gaps.match_iter.regex.now.meta s.split.gaps.match_iter.input.haystack.now
        s.split.gaps.match_iter.input.config s.split.gaps.match_iter.state.continue_disabled t.split.gaps.match_iter.input.config
        t.split.gaps.match_iter.state.continue_disabled)))
        × (r ≢ None → t.limit + 1 ≡ s.limit)
        × PieceEnds r s.split.gaps.match_iter.state t.split.is_done t.split.gaps.match_iter.state
        × (1 < s.limit → PieceStays s.split.gaps.match_iter.regex.now.meta s.split.gaps.match_iter.input.haystack.now
        s.split.gaps.match_iter.input.config s.split.gaps.match_iter.state r) };

    ghost remaining = { λ s. at_most s.limit };

    /// The next piece, the error of its search, or the rest of the text, which is the last item.
    fn next(&mut self) -> Option<Result<&'h str>> {
        if self.limit == 0 {
            return None;
        }
        self.limit -= 1;
        if self.limit > 0 {
            return self.split.next_piece();
        }
        Some(Ok(self.split.take_rest()?))
    }
}

impl FusedIterator for SplitN<'_, '_> {}

impl Regex {
    /// The pieces of a text between its matches, from left to right, and the rest after the last match: one piece more than
    /// there are matches. An item may be an error of `find`, and then only the rest of the text follows.
    ///
    /// ```
    /// let blank = Regex::new(alloc, " ")?;
    /// assert!(rt; blank.split(alloc, "a b  c").count() == 4);
    /// ```
    pub fn split<'r, 'h>(&'r self, alloc: Global, target: &'h str) -> Split<'r, 'h>
        ensures left { pieces_left result.is_done result.gaps.match_iter.input.haystack.now result.gaps.last_end
            (remaining_matches result.gaps.match_iter.regex.now.meta result.gaps.match_iter.input.haystack.now
            result.gaps.match_iter.input.config result.gaps.match_iter.state)
            ≡ pieces target.entry.now (all_matches self.entry.now.meta target.entry.now (whole target.entry.now)) }
        ensures matches { remaining_matches result.gaps.match_iter.regex.now.meta result.gaps.match_iter.input.haystack.now
            result.gaps.match_iter.input.config
            result.gaps.match_iter.state
            ≡ all_matches self.entry.now.meta target.entry.now (whole target.entry.now) }
        ensures input { (result.gaps.match_iter.input.haystack ≡ target.entry)
            × (result.gaps.match_iter.input.config ≡ whole target.entry.now) }
        ensures regex { result.gaps.match_iter.regex ≡ self.entry }
        ensures begins { (result.gaps.match_iter.state.continue_disabled ≡ false) × (result.is_done ≡ false) }
        ensures going { result.gaps.match_iter.state.is_done ≡ false }
        ensures first { result.gaps.match_iter.state.last ≡ None }
    {
        Split::new(alloc, self, target)
    }

    /// The first pieces of `split`, and then the rest of the text: at most `limit` items, the last of which is the rest, for
    /// which no search is made. Limit 0 returns nothing. An item before the last may be an error of `find`, and then only the rest of
    /// the text follows.
    ///
    /// ```
    /// let blank = Regex::new(alloc, " ")?;
    /// assert!(rt; blank.splitn(alloc, "a b  c", 2).count() == 2);
    /// assert!(rt; blank.splitn(alloc, "a b  c", 0).next().is_none());
    /// ```
    pub fn splitn<'r, 'h>(&'r self, alloc: Global, target: &'h str, limit: usize) -> SplitN<'r, 'h>
        ensures left { pieces_left_up_to result.limit result.split.is_done result.split.gaps.match_iter.input.haystack.now
            result.split.gaps.last_end
            (remaining_matches result.split.gaps.match_iter.regex.now.meta result.split.gaps.match_iter.input.haystack.now
            result.split.gaps.match_iter.input.config result.split.gaps.match_iter.state)
            ≡ pieces_up_to limit target.entry.now (all_matches self.entry.now.meta target.entry.now (whole target.entry.now)) }
        ensures input { (result.split.gaps.match_iter.input.haystack ≡ target.entry)
            × (result.split.gaps.match_iter.input.config ≡ whole target.entry.now) }
        ensures regex { result.split.gaps.match_iter.regex ≡ self.entry }
        ensures begins { (result.split.gaps.match_iter.state.continue_disabled ≡ false) × (result.split.is_done ≡ false)
            × (result.limit ≡ limit) }
        ensures going { result.split.gaps.match_iter.state.is_done ≡ false }
    {
        SplitN {
            split: Split::new(alloc, self, target),
            limit,
        }
    }
}
