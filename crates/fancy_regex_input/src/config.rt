//! `SearchConfig`: the configuration of a search, apart from its haystack. It holds the `RunInput` that goes to the engines, and
//! each setter keeps that up to date. Contracts see what the setters set: the record `Config`.

ghost use Rattle.std.specs.Prelude.{◌≡◌, false};
ghost use Rattle.fancy_regex_input.specs.SearchInputs.{whole_up_to, effective_start, run_input_of};

use fancy_regex_class::{RunInput, Span};
use std::marker::Model;

/// The configuration of a search, apart from its haystack. All offsets are in bytes from the start of the haystack.
///
/// ```
/// let config = RegexInput::new("ab").from_pos(1).config();
/// assert!(rt; config.start() == 1 && config.copied().start() == 1);
/// ```
#[derive(Clone, Debug, PartialEq, Eq, Drop)]
pub struct SearchConfig {
    /// The offset at which the search starts, unless the range starts later.
    start: usize,
    /// The input of the search: its first start is the later of `start` and the start of the range.
    input: RunInput,
}

impl Model for SearchConfig {
    ghost use Rattle.fancy_regex_input.specs.Configs.{Config};

    ghost Value = { Config };

    ghost use Rattle.fancy_regex_input.specs.ConfigViews.{config_of, IsUpToDate, inside_of, inside_same};

    ghost view = { config_of };

    ghost invariant = { IsUpToDate };

    ghost inverse = { inside_of };

    ghost inverse_ok = { inside_same };
}

impl SearchConfig {
    /// The configuration of a search of a whole haystack of this length from its start: unanchored, and `^`, `$` and `\G` match
    /// as usual.
    pub(crate) fn whole(length: usize) -> SearchConfig
        ensures { result ≡ whole_up_to length }
    {
        SearchConfig {
            start: 0,
            input: RunInput {
                first: 0,
                continue_at: Some(0),
                range: Span {
                    start: 0,
                    end: length,
                },
                anchored: false,
                no_start_text: false,
                no_end_text: false,
            },
        }
    }

    /// The same configuration.
    pub fn copied(&self) -> SearchConfig
        ensures { result ≡ self.now }
    {
        SearchConfig {
            start: self.start,
            input: self.input,
        }
    }

    /// The offset at which the search starts, unless the range starts later.
    pub fn start(&self) -> usize
        ensures { result ≡ self.now.start }
    {
        self.start
    }

    /// The input of the search, as both engines take it.
    pub fn run_input(&self) -> &RunInput
        ensures { result.now ≡ run_input_of self.now (effective_start self.now) false }
    {
        &self.input
    }

    /// Starts the search at this offset.
    pub(crate) fn set_start(&mut self, start: usize)
        ensures { self.new ≡ record (self.old) { start = start } }
    {
        let first = start.max(self.input.range.start);
        self.start = start;
        self.input.first = first;
        if self.input.continue_at.is_some() {
            self.input.continue_at = Some(first);
        }
    }

    /// Limits the search to the range from one offset to another.
    pub(crate) fn set_range(&mut self, start: usize, end: usize)
        ensures { self.new ≡ record (self.old) { range_start = start; range_end = end } }
    {
        let first = self.start.max(start);
        self.input.range = Span { start, end };
        self.input.first = first;
        if self.input.continue_at.is_some() {
            self.input.continue_at = Some(first);
        }
    }

    /// Whether `^` and `\A` match at the start of the haystack.
    pub(crate) fn set_start_text(&mut self, yes: bool)
        ensures { self.new ≡ record (self.old) { start_text = yes } }
    {
        self.input.no_start_text = !yes;
    }

    /// Whether `$` and `\z` match at the end of the haystack.
    pub(crate) fn set_end_text(&mut self, yes: bool)
        ensures { self.new ≡ record (self.old) { end_text = yes } }
    {
        self.input.no_end_text = !yes;
    }

    /// Whether `\G` matches at the start of the search; otherwise it never matches.
    pub(crate) fn set_continues(&mut self, yes: bool)
        ensures { self.new ≡ record (self.old) { continues = yes } }
    {
        self.input.continue_at = if yes { Some(self.input.first) } else { None };
    }

    /// Whether the match has to start at the start of the search.
    pub(crate) fn set_anchored(&mut self, yes: bool)
        ensures { self.new ≡ record (self.old) { anchored = yes } }
    {
        self.input.anchored = yes;
    }
}
