//! The matches of a text, each with the text between the previous match and it: what splitting and replacement go over.

ghost use Rattle.std.specs.Prelude.{◌≡◌, ◌≤◌, ◌<◌, false, None, drop, IfSome, IsCharBoundary};
ghost use Rattle.fancy_regex_input.specs.SearchInputs.{whole};
ghost use Rattle.fancy_regex_meta.specs.MetaMatches.{meta_pattern};

use crate::match_iter::MatchIter;
use crate::regex::Regex;
use fancy_regex_input::RegexInput;
use fancy_regex_meta::{MatchDetail, Result};
use std::alloc::Global;

/// A match and the text between the previous match and it.
#[derive(Drop)]
pub struct Gap<'h> {
    /// The text from the end of the previous match, or from the start of the haystack, to the start of the match.
    pub text: &'h str,
    /// The start and end byte offsets of each group of the match, where they are wanted.
    pub groups: Vec<usize>,
}

/// An iteration over the matches of a text that keeps where the last match ended.
#[derive(Drop)]
pub struct GapIter<'r, 'h> {
    /// The searches of the iteration.
    pub match_iter: MatchIter<'r, &'h str>,
    /// The byte offset at which the last match ended; 0 before the first match.
    pub last_end: usize,
    pub ghost boundary: { IsCharBoundary match_iter.input.haystack.now last_end },
    pub ghost following: { last_end ≤ match_iter.input.config.start },
}

impl<'r, 'h> GapIter<'r, 'h> {
    ghost use Rattle.fancy_regex_search.specs.RemainingMatches.{remaining_matches, all_matches, remaining_searches};
    ghost use Rattle.fancy_regex_search.specs.IterationSteps.{NextEnds};
    ghost use Rattle.fancy_regex_search.specs.NextCalls.{StartsLater, NextKeepsLimits};
    ghost use Rattle.fancy_regex_search.specs.Pieces.{YieldsGap};

    /// The iteration before its first search.
    pub fn new(
        alloc: Global,
        regex: &'r Regex,
        text: &'h str,
        wanted: MatchDetail,
    ) -> GapIter<'r, 'h>
        ensures left { remaining_matches result.match_iter.regex.now.meta result.match_iter.input.haystack.now
            result.match_iter.input.config
            result.match_iter.state ≡ all_matches regex.entry.now.meta text.entry.now (whole text.entry.now) }
        ensures input { (result.match_iter.input.haystack ≡ text.entry) × (result.match_iter.input.config ≡ whole text.entry.now) }
        ensures regex { result.match_iter.regex ≡ regex.entry }
        ensures begins { (result.match_iter.state.continue_disabled ≡ false) × (result.last_end ≡ 0) }
        ensures going { result.match_iter.state.is_done ≡ false }
        ensures first { result.match_iter.state.last ≡ None }
        ensures wanted { result.match_iter.wanted ≡ wanted }
    {
        GapIter {
            match_iter: MatchIter::new(alloc, regex, RegexInput::new(text), wanted),
            last_end: 0,
        }
    }

    /// The next match and the text before it. `None` after the last match and after an error.
    pub fn next_gap(&mut self) -> Option<Result<Gap<'h>>>
        ensures gives { YieldsGap (λ gap. gap.text.now) (λ gap. gap.groups.items) self.old.match_iter.wanted
            (meta_pattern self.old.match_iter.regex.now.meta)
            self.old.match_iter.input.haystack.now self.old.last_end
            (remaining_matches self.old.match_iter.regex.now.meta self.old.match_iter.input.haystack.now
            self.old.match_iter.input.config self.old.match_iter.state) result self.new.last_end
            (remaining_matches self.new.match_iter.regex.now.meta self.new.match_iter.input.haystack.now
            self.new.match_iter.input.config self.new.match_iter.state) }
        ensures nears { IfSome result (λ _. remaining_searches self.new.match_iter.input.haystack.now
            self.new.match_iter.input.config self.new.match_iter.state
            < remaining_searches self.old.match_iter.input.haystack.now self.old.match_iter.input.config self.old.match_iter.state) }
        ensures same { (self.new.match_iter.input.haystack ≡ self.old.match_iter.input.haystack)
            × (self.new.match_iter.regex ≡ self.old.match_iter.regex) × (self.new.match_iter.wanted ≡ self.old.match_iter.wanted) }
        ensures onward { StartsLater self.old.match_iter.input.config self.new.match_iter.input.config }
        ensures limits { NextKeepsLimits self.old.match_iter.regex.now.meta self.old.match_iter.input.haystack.now
            self.old.match_iter.input.config self.old.match_iter.state result
            self.new.match_iter.input.config self.new.match_iter.state }
        ensures ends { NextEnds result self.new.match_iter.state }
    {
        let text = self.match_iter.input.haystack();
        match self.match_iter.advance()? {
            Ok(found) => {
                let before = &text[self.last_end..found.start];
                self.last_end = found.end;
                Some(Ok(Gap {
                    text: before,
                    groups: found.groups,
                }))
            }
            Err(error) => Some(Err(error)),
        }
    }

    /// The text after the last match.
    pub fn rest(&self) -> &'h str
        ensures { result.now ≡ drop self.now.last_end self.now.match_iter.input.haystack.now }
    {
        &self.match_iter.input.haystack()[self.last_end..]
    }
}
