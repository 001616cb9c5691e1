//! Random options.

use crate::pattern::Kind;
use crate::random::Random;
use fancy_regex::{
    FLAG_CASEI, FLAG_CRLF, FLAG_DOTNL, FLAG_IGNORE_NUMBERED_GROUPS_WHEN_NAMED_GROUPS_EXIST,
    FLAG_IGNORE_SPACE, FLAG_MULTI, FLAG_ONIGURUMA_MODE, FLAG_UNICODE, RegexBuilder,
    RegexOptionsBuilder, Result,
};
use fancy_regex_info::CompileOptions;
use fancy_regex_machine::RunOptions;
use std::alloc::Global;

/// The limit on backtracks of each search.
const BACKTRACKS: usize = 2000;

/// The cap on each program.
const INSTRUCTIONS: usize = 2000;

/// The options of a case.
#[derive(Clone, Copy, Debug)]
pub struct Setting {
    /// Whether the pattern is plain by its making.
    pub is_plain: bool,
    pub case_insensitive: bool,
    pub multi_line: bool,
    pub dot_matches_new_line: bool,
    pub ignore_whitespace: bool,
    pub crlf: bool,
    pub unicode: bool,
    pub oniguruma: bool,
    pub not_empty: bool,
    pub named_groups_alone: bool,
}

impl Setting {
    /// Random options; each is seldom set. A plain pattern is read outside Oniguruma mode and may match nothing.
    pub fn random(random: &mut Random, kind: Kind) -> Setting {
        let is_plain = matches!(kind, Kind::Plain);
        Setting {
            is_plain,
            case_insensitive: random.one_in(8),
            multi_line: random.one_in(8),
            dot_matches_new_line: random.one_in(8),
            ignore_whitespace: random.one_in(8),
            crlf: random.one_in(8),
            unicode: !random.one_in(8),
            oniguruma: random.one_in(8) && !is_plain,
            not_empty: random.one_in(8) && !is_plain,
            named_groups_alone: random.one_in(16),
        }
    }

    /// The builder with these options and limits.
    pub fn builder(self) -> RegexOptionsBuilder {
        let mut options = self.search_builder();
        options
            .case_insensitive(self.case_insensitive)
            .multi_line(self.multi_line)
            .dot_matches_new_line(self.dot_matches_new_line)
            .ignore_whitespace(self.ignore_whitespace);
        options
            .crlf(self.crlf)
            .oniguruma_mode(self.oniguruma)
            .ignore_numbered_groups_when_named_groups_exist(self.named_groups_alone);
        options
    }

    /// The builder that keeps a pattern, with the same options and limits.
    pub fn kept_builder(self, alloc: Global, pattern: &str) -> Result<RegexBuilder> {
        let mut builder = RegexBuilder::new(alloc, pattern)?;
        builder
            .case_insensitive(self.case_insensitive)
            .multi_line(self.multi_line)
            .dot_matches_new_line(self.dot_matches_new_line)
            .verbose_mode(self.ignore_whitespace);
        builder
            .crlf(self.crlf)
            .unicode_mode(self.unicode)
            .oniguruma_mode(self.oniguruma)
            .find_not_empty(self.not_empty);
        builder
            .ignore_numbered_groups_when_named_groups_exist(self.named_groups_alone)
            .backtrack_limit(BACKTRACKS)
            .max_prog_size(INSTRUCTIONS);
        Ok(builder)
    }

    /// The builder of a printed pattern: Unicode mode and the options of searches alone.
    pub fn search_builder(self) -> RegexOptionsBuilder {
        let mut options = RegexOptionsBuilder::new();
        options
            .unicode_mode(self.unicode)
            .find_not_empty(self.not_empty)
            .backtrack_limit(BACKTRACKS)
            .max_prog_size(INSTRUCTIONS);
        options
    }

    /// The same as the flags of a reading.
    pub fn flags(self) -> u32 {
        let flags = [
            (self.case_insensitive, FLAG_CASEI),
            (self.multi_line, FLAG_MULTI),
            (self.dot_matches_new_line, FLAG_DOTNL),
            (self.ignore_whitespace, FLAG_IGNORE_SPACE),
            (self.crlf, FLAG_CRLF),
            (self.unicode, FLAG_UNICODE),
            (self.oniguruma, FLAG_ONIGURUMA_MODE),
            (
                self.named_groups_alone,
                FLAG_IGNORE_NUMBERED_GROUPS_WHEN_NAMED_GROUPS_EXIST,
            ),
        ];
        let mut all = 0u32;
        for (is_set, flag) in flags {
            if is_set {
                all |= flag;
            }
        }
        all
    }

    /// The same for the compiler and the linear engine, of a pattern without calls.
    pub fn compile_options(self) -> CompileOptions {
        CompileOptions {
            unicode: self.unicode,
            max_prog_size: Some(INSTRUCTIONS),
            ..CompileOptions::default()
        }
    }

    /// The same for the machine.
    pub fn run_options(self) -> RunOptions {
        RunOptions {
            backtrack_limit: BACKTRACKS,
            find_not_empty: self.not_empty,
            seek: None,
        }
    }
}
