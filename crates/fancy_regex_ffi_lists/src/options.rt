//! `Options`: how a pattern is built, as C gives it.

ghost use Rattle.std.specs.Prelude.{◌≡◌};
ghost use Rattle.fancy_regex_ffi_lists.specs.Choices.{chosen};

use fancy_regex::RegexOptionsBuilder;

/// How a pattern is built.
#[repr(C)]
#[derive(Clone, Copy)]
pub struct Options {
    /// How often one search by a program may go back.
    pub backtrack_limit: usize,
    /// The most instructions that a program may have, if `has_max_prog_size`.
    pub max_prog_size: usize,
    /// Whether `max_prog_size` is a cap.
    pub has_max_prog_size: bool,
    /// Upper and lower case are the same.
    pub case_insensitive: bool,
    /// `^` and `$` match at each line.
    pub multi_line: bool,
    /// Blanks and comments in the pattern are skipped.
    pub ignore_whitespace: bool,
    /// `.` matches a newline too.
    pub dot_matches_new_line: bool,
    /// A carriage return with a newline ends a line.
    pub crlf: bool,
    /// Classes and cases are those of Unicode.
    pub unicode_mode: bool,
    /// No empty match is found.
    pub find_not_empty: bool,
    /// Unnamed groups do not capture if the pattern has a named group.
    pub ignore_numbered_groups: bool,
    /// Places at which no match can start are skipped in searches by a program.
    pub seek: bool,
    /// Oniguruma mode: the pattern is read in a dialect that is close to Oniguruma's.
    pub oniguruma_mode: bool,
    /// The longest match at each place is found, not the first.
    pub leftmost_longest: bool,
}

impl Options {
    /// The builder with these options.
    pub fn builder(&self) -> RegexOptionsBuilder
        ensures { result.options ≡ chosen self.now }
    {
        let mut builder = RegexOptionsBuilder::new();
        builder
            .case_insensitive(self.case_insensitive)
            .multi_line(self.multi_line)
            .ignore_whitespace(self.ignore_whitespace)
            .dot_matches_new_line(self.dot_matches_new_line)
            .crlf(self.crlf)
            .unicode_mode(self.unicode_mode)
            .backtrack_limit(self.backtrack_limit)
            .find_not_empty(self.find_not_empty)
            .ignore_numbered_groups_when_named_groups_exist(self.ignore_numbered_groups)
            .seek(self.seek)
            .oniguruma_mode(self.oniguruma_mode)
            .leftmost_longest(self.leftmost_longest);
        if self.has_max_prog_size {
            builder.max_prog_size(self.max_prog_size);
        }
        builder
    }
}
