//! The searches after the iterators over matches: each search starts where the previous match ended. An empty match at the
//! end of the previous match is skipped, and after an error the iteration is over.

ghost use Rattle.std.specs.Prelude.{◌≡◌, ◌≤◌, ◌<◌, option_map, None, Some, true, false, MatchOption, MatchResult, IfSome, IfOk};
ghost use Rattle.fancy_regex_input.specs.SearchInputs.{effective_start};
ghost use Rattle.fancy_regex_meta.specs.MetaMatches.{meta_pattern, meta_match_from};
ghost use Rattle.fancy_regex_meta.specs.MatchOffsets.{IsMatchWithin};
ghost use Rattle.fancy_regex_meta.specs.FoundParts.{found_parts, wanted_parts};
ghost use Rattle.fancy_regex_meta.specs.SearchLimits.{MetaStaysInLimits};
ghost use Rattle.fancy_regex_meta.specs.Kept.{MetaKeeps};
ghost use Rattle.fancy_regex_meta.specs.KeptProps.{keeps_prop};

use crate::group_spans::{SearchRequest, find_next};
use crate::regex::Regex;
use fancy_regex_input::{Input, RegexInput};
use fancy_regex_meaning::laws_of_items;
use fancy_regex_meta::{Error, FoundMatch, MatchDetail, MetaMemory, Result};
use std::alloc::Global;

/// The state that an iteration keeps between its searches.
#[derive(Clone, Copy)]
pub struct IterState {
    /// The byte offset at which the previous match ended; `None` before the first match.
    pub last: Option<usize>,
    /// `\G` never matches in the next search.
    pub continue_disabled: bool,
    /// The iteration is over.
    pub is_done: bool,
}

/// An iteration over the matches of an input.
#[derive(Drop)]
pub struct MatchIter<'r, S: Input> {
    /// The allocator.
    alloc: Global,
    /// The regex that searches.
    pub regex: &'r Regex,
    /// The input of the next search.
    pub input: RegexInput<S>,
    /// The state between searches.
    pub state: IterState,
    /// Which byte offsets each match is to have.
    pub wanted: MatchDetail,
    /// What the searches allocate, used again by each, and what they find out about the haystack.
    memory: MetaMemory,
    ghost kept: { MetaKeeps regex.now.meta (S.text input.haystack) memory } by { keeps_prop regex.now.meta (S.text input.haystack) memory },
}

/// The result of one search of an iteration.
#[derive(Drop)]
enum Step {
    /// A match.
    Item(FoundMatch),
    /// An empty match that is skipped; the iteration goes on.
    Skip,
    /// No further match.
    End,
    /// The search failed; the iteration is over.
    Failed(Error),
}

impl<'r, S: Input> MatchIter<'r, S> {
    ghost use Rattle.fancy_regex_search.specs.RemainingMatches.{remaining_matches, all_matches, remaining_searches, Yields};
    ghost use Rattle.fancy_regex_search.specs.CaptureSpans.{IsFoundOf};
    ghost use Rattle.fancy_regex_search.specs.IterationSteps.{IsStep, NextMoves};
    ghost use Rattle.fancy_regex_search.specs.NextCalls.{StartsLater, NextKeepsLimits, NextLeaves};

    /// The iteration before its first search.
    pub fn new(
        alloc: Global,
        regex: &'r Regex,
        input: RegexInput<S>,
        wanted: MatchDetail,
    ) -> MatchIter<'r, S>
        ensures left { remaining_matches result.regex.now.meta (S.text result.input.haystack) result.input.config result.state
            ≡ all_matches regex.entry.now.meta (S.text input.haystack) input.config }
        ensures input { (result.input.haystack ≡ input.haystack) × (result.input.config ≡ input.config) }
        ensures regex { result.regex ≡ regex.entry }
        ensures begins { result.state.continue_disabled ≡ false }
        ensures going { result.state.is_done ≡ false }
        ensures first { result.state.last ≡ None }
        ensures wanted { result.wanted ≡ wanted }
    {
        MatchIter {
            alloc,
            regex,
            input,
            state: IterState {
                last: None,
                continue_disabled: false,
                is_done: false,
            },
            wanted,
            memory: MetaMemory::new(alloc),
        }
    }

    /// Makes one search and moves the start of the next one.
    fn step(&mut self) -> Step
        ensures step { IsStep self.old.regex.now.meta (S.text self.old.input.haystack) self.old.input.config self.old.state
            self.old.wanted result
            self.new.input.config self.new.state }
        ensures same { (self.new.input.haystack ≡ self.old.input.haystack) × (self.new.regex ≡ self.old.regex)
            × (self.new.wanted ≡ self.old.wanted) }
    {
        if self.state.is_done {
            return Step::End;
        }
        let range_end = self.input.get_range().end;
        if self.input.effective_start() > range_end {
            self.state.is_done = true;
            return Step::End;
        }
        let request = SearchRequest {
            regex: self.regex,
            input: &self.input,
            continue_disabled: self.state.continue_disabled,
            wanted: self.wanted,
        };
        let found = find_next(self.alloc, &request, &mut self.memory);
        match found {
            Ok(Some(matched)) => self.step_past_match(matched),
            Ok(None) => self.end_without_match(),
            Err(error) => {
                self.state.is_done = true;
                let next = self.input.haystack().advance_position(range_end);
                self.input.set_start(next);
                Step::Failed(error)
            }
        }
    }

    /// Ends the iteration after a search without a match.
    fn end_without_match(&mut self) -> Step
        requires going { self.old.state.is_done ≡ false }
        requires inside { effective_start self.old.input.config ≤ self.old.input.config.range_end }
        requires found { None
            ≡ option_map (wanted_parts self.old.wanted (meta_pattern self.old.regex.now.meta))
            (meta_match_from self.old.regex.now.meta (S.text self.old.input.haystack) self.old.input.config
            (effective_start self.old.input.config) self.old.state.continue_disabled) }
        requires stays { MetaStaysInLimits self.old.regex.now.meta
            (S.text self.old.input.haystack) self.old.input.config self.old.state.continue_disabled }
        ensures step { IsStep self.old.regex.now.meta (S.text self.old.input.haystack) self.old.input.config self.old.state
            self.old.wanted result
            self.new.input.config self.new.state }
        ensures same { (self.new.input.haystack ≡ self.old.input.haystack) × (self.new.regex ≡ self.old.regex)
            × (self.new.wanted ≡ self.old.wanted) }
    {
        self.state.is_done = true;
        Step::End
    }

    /// Moves the start of the next search past a match, and skips an empty match at the end of the previous one.
    fn step_past_match(&mut self, found: FoundMatch) -> Step
        requires going { self.old.state.is_done ≡ false }
        requires found { Some (found_parts found)
            ≡ option_map (wanted_parts self.old.wanted (meta_pattern self.old.regex.now.meta))
            (meta_match_from self.old.regex.now.meta (S.text self.old.input.haystack) self.old.input.config
            (effective_start self.old.input.config) self.old.state.continue_disabled) }
        requires within { IsMatchWithin self.old.wanted (S.text self.old.input.haystack)
            (effective_start self.old.input.config) self.old.input.config.range_end found }
        requires stays { MetaStaysInLimits self.old.regex.now.meta
            (S.text self.old.input.haystack) self.old.input.config self.old.state.continue_disabled }
        ensures step { IsStep self.old.regex.now.meta (S.text self.old.input.haystack) self.old.input.config self.old.state
            self.old.wanted result
            self.new.input.config self.new.state }
        ensures same { (self.new.input.haystack ≡ self.old.input.haystack) × (self.new.regex ≡ self.old.regex)
            × (self.new.wanted ≡ self.old.wanted) }
    {
        laws_of_items();
        let start = found.start;
        let end = found.end;
        let is_repeated = self.state.last == Some(end);
        self.state.last = Some(end);
        if start < end {
            self.state.continue_disabled = false;
            self.input.set_start(end);
            return Step::Item(found);
        }
        self.state.continue_disabled = end == self.input.effective_start();
        let next = self.input.haystack().advance_position(end);
        self.input.set_start(next);
        if is_repeated {
            return Step::Skip;
        }
        Step::Item(found)
    }

    /// The next match, with the byte offsets that are wanted. `None` after the last match and after an error.
    pub fn advance(&mut self) -> Option<Result<FoundMatch>>
        ensures gives { Yields (IsFoundOf self.old.wanted (meta_pattern self.old.regex.now.meta))
            (remaining_matches self.old.regex.now.meta (S.text self.old.input.haystack) self.old.input.config self.old.state) result
            (remaining_matches self.new.regex.now.meta (S.text self.new.input.haystack) self.new.input.config self.new.state) }
        ensures within { IfSome result (λ item. IfOk item (IsMatchWithin self.old.wanted (S.text self.old.input.haystack)
            (effective_start self.old.input.config) self.old.input.config.range_end)) }
        ensures moves { NextMoves (λ x. (x.start, x.end)) (S.text self.old.input.haystack) self.old.input.config result
            self.new.input.config }
        ensures nears { IfSome result (λ _. remaining_searches (S.text self.new.input.haystack) self.new.input.config self.new.state
            < remaining_searches (S.text self.old.input.haystack) self.old.input.config self.old.state) }
        ensures same { (self.new.input.haystack ≡ self.old.input.haystack) × (self.new.regex ≡ self.old.regex)
            × (self.new.wanted ≡ self.old.wanted) }
        ensures onward { StartsLater self.old.input.config self.new.input.config }
        ensures limits { NextKeepsLimits self.old.regex.now.meta (S.text self.old.input.haystack) self.old.input.config self.old.state
            result self.new.input.config self.new.state }
        ensures leaves { NextLeaves self.old.regex.now.meta (S.text self.old.input.haystack) self.old.input.config self.old.state
            (λ x. x.end) result self.new.input.config self.new.state }
    {
        loop {
            match self.step() {
                Step::Item(found) => return Some(Ok(found)),
                Step::Skip => {}
                Step::End => return None,
                Step::Failed(error) => return Some(Err(error)),
            }
        }
    }
}
