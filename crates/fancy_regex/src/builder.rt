//! `RegexBuilder`: a pattern with its options. `build` compiles them to a `Regex`; each setter changes one option only.

ghost use Rattle.std.specs.Prelude.{◌≡◌, Some, string_bytes, IfOk, IfErr};
ghost use Rattle.fancy_regex_search.specs.Caps.{MetaKeepsCap};
ghost use Rattle.fancy_regex_search.specs.Defaults.{default_options};
ghost use Rattle.fancy_regex_search.specs.Refusals.{Accepts, Refuses};
ghost use Rattle.fancy_regex_search.specs.Error.TheVariants.{Memory};

use crate::options_builder::RegexOptionsBuilder;
use fancy_regex_info::BytesMode;
use fancy_regex_search::{Regex, Result};
use std::alloc::Global;

/// A pattern and the options to compile it with. Each setter changes only what it names and returns the builder.
///
/// ```
/// let mut builder = RegexBuilder::new(alloc, "^b")?;
/// builder.multi_line(true).case_insensitive(true);
/// assert!(rt; builder.build(alloc)?.is_match(alloc, "a\nB")?);
/// ```
#[derive(Debug, Drop)]
pub struct RegexBuilder {
    /// The text of the pattern.
    pattern: String,
    /// The options to compile it with.
    options: RegexOptionsBuilder,
}

impl RegexBuilder {
    /// This pattern with the default options: Unicode mode, a backtrack limit of 1,000,000, no cap on the program's size, and
    /// every other option false. The pattern is copied, and not parsed yet.
    ///
    /// # Errors
    ///
    /// `Memory` if memory runs out.
    ///
    /// ```
    /// let mut builder = RegexBuilder::new(alloc, "a.b")?;
    /// builder.dot_matches_new_line(true);
    /// assert!(rt; builder.build(alloc)?.is_match(alloc, "a\nb")?);
    /// ```
    pub fn new(alloc: Global, pattern: &str) -> Result<RegexBuilder>
        ensures pattern { IfOk result (λ b. string_bytes b.pattern ≡ pattern.now) }
        ensures options { IfOk result (λ b. b.options.options ≡ default_options) }
        ensures fails { IfErr result (λ e. e ≡ Memory) }
    {
        Ok(RegexBuilder {
            pattern: String::from_str(alloc, pattern)?,
            options: RegexOptionsBuilder::new(),
        })
    }

    /// Parses and compiles the pattern with these options. The builder can be used again. If the pattern needs a program, that has
    /// at most `max_prog_size` instructions.
    ///
    /// # Errors
    ///
    /// `ParseError` if the text is no pattern, with the first error and its byte offset; `CompileError` if the pattern is refused,
    /// with one of the reasons that hold, `RepeatBoundsReversed` before all others; `Memory` if memory runs out. The builder can be
    /// used again.
    ///
    /// ```
    /// let mut builder = RegexBuilder::new(alloc, r"\w+(?=!)")?;
    /// let regex = builder.case_insensitive(true).build(alloc)?;
    /// assert!(rt; regex.as_str() == r"\w+(?=!)");
    /// ```
    pub fn build(&self, alloc: Global) -> Result<Regex>
        ensures pattern { IfOk result (λ regex. string_bytes regex.meta.pattern ≡ string_bytes self.now.pattern) }
        ensures options { IfOk result (λ regex. regex.meta.options ≡ self.now.options.options) }
        ensures cap { IfOk result (λ regex. MetaKeepsCap regex.meta) }
        ensures accepted { IfOk result (λ _. Accepts self.now.options.options (string_bytes self.now.pattern)) }
        ensures refused { IfErr result (λ e. Refuses self.now.options.options (string_bytes self.now.pattern) e) }
    {
        let pattern = String::from_str(alloc, self.pattern.as_str())?;
        self.options.build(alloc, pattern)
    }

    /// Replaces the pattern and keeps the options.
    ///
    /// ```
    /// let mut builder = RegexBuilder::new(alloc, "a")?;
    /// builder.pattern(String::from_str(alloc, "b")?);
    /// assert!(rt; builder.build(alloc)?.as_str() == "b");
    /// ```
    pub fn pattern(&mut self, pattern: String) -> &mut Self
        ensures value { result.now.pattern ≡ pattern }
        ensures options { result.now.options ≡ self.old.options }
        ensures same { result.ghost_name ≡ self.entry.ghost_name }
    {
        self.pattern = pattern;
        self
    }

    /// Letters match case-insensitively, as after `(?i)`. Default: false.
    ///
    /// ```
    /// let mut builder = RegexBuilder::new(alloc, "é")?;
    /// let regex = builder.case_insensitive(true).build(alloc)?;
    /// assert!(rt; regex.is_match(alloc, "É")?);
    /// ```
    pub fn case_insensitive(&mut self, yes: bool) -> &mut Self
        ensures value { result.now.options.options ≡ record (self.old.options.options) { case_insensitive = yes } }
        ensures pattern { result.now.pattern ≡ self.old.pattern }
        ensures same { result.ghost_name ≡ self.entry.ghost_name }
    {
        self.options.case_insensitive(yes);
        self
    }

    /// `^` and `$` match at the start and the end of each line, as after `(?m)`. Default: false.
    ///
    /// ```
    /// let mut builder = RegexBuilder::new(alloc, "^b$")?;
    /// let regex = builder.multi_line(true).build(alloc)?;
    /// assert!(rt; regex.is_match(alloc, "a\nb\nc")?);
    /// ```
    pub fn multi_line(&mut self, yes: bool) -> &mut Self
        ensures value { result.now.options.options ≡ record (self.old.options.options) { multi_line = yes } }
        ensures pattern { result.now.pattern ≡ self.old.pattern }
        ensures same { result.ghost_name ≡ self.entry.ghost_name }
    {
        self.options.multi_line(yes);
        self
    }

    /// Whitespace and `#` comments in the pattern are ignored, as after `(?x)`. Default: false.
    ///
    /// ```
    /// let mut builder = RegexBuilder::new(alloc, "a b # a comment")?;
    /// let regex = builder.ignore_whitespace(true).build(alloc)?;
    /// assert!(rt; regex.is_match(alloc, "ab")?);
    /// ```
    pub fn ignore_whitespace(&mut self, yes: bool) -> &mut Self
        ensures value { result.now.options.options ≡ record (self.old.options.options) { ignore_whitespace = yes } }
        ensures pattern { result.now.pattern ≡ self.old.pattern }
        ensures same { result.ghost_name ≡ self.entry.ghost_name }
    {
        self.options.ignore_whitespace(yes);
        self
    }

    /// Another name for `ignore_whitespace`.
    ///
    /// ```
    /// let mut builder = RegexBuilder::new(alloc, "a b")?;
    /// let regex = builder.verbose_mode(true).build(alloc)?;
    /// assert!(rt; regex.is_match(alloc, "ab")?);
    /// ```
    pub fn verbose_mode(&mut self, yes: bool) -> &mut Self
        ensures value { result.now.options.options ≡ record (self.old.options.options) { ignore_whitespace = yes } }
        ensures pattern { result.now.pattern ≡ self.old.pattern }
        ensures same { result.ghost_name ≡ self.entry.ghost_name }
    {
        self.ignore_whitespace(yes)
    }

    /// `.` also matches a newline, as after `(?s)`. Default: false.
    ///
    /// ```
    /// let mut builder = RegexBuilder::new(alloc, "a.b")?;
    /// let regex = builder.dot_matches_new_line(true).build(alloc)?;
    /// assert!(rt; regex.is_match(alloc, "a\nb")?);
    /// ```
    pub fn dot_matches_new_line(&mut self, yes: bool) -> &mut Self
        ensures value { result.now.options.options ≡ record (self.old.options.options) { dot_matches_new_line = yes } }
        ensures pattern { result.now.pattern ≡ self.old.pattern }
        ensures same { result.ghost_name ≡ self.entry.ghost_name }
    {
        self.options.dot_matches_new_line(yes);
        self
    }

    /// CRLF mode: a carriage return with a newline ends a line, as after `(?R)`. Default: false.
    ///
    /// ```
    /// let mut builder = RegexBuilder::new(alloc, "(?m)a$")?;
    /// let regex = builder.crlf(true).build(alloc)?;
    /// assert!(rt; regex.is_match(alloc, "a\r\nb")?);
    /// ```
    pub fn crlf(&mut self, yes: bool) -> &mut Self
        ensures value { result.now.options.options ≡ record (self.old.options.options) { crlf = yes } }
        ensures pattern { result.now.pattern ≡ self.old.pattern }
        ensures same { result.ghost_name ≡ self.entry.ghost_name }
    {
        self.options.crlf(yes);
        self
    }

    /// Character classes, case folding and word characters are those of Unicode if true, of ASCII if false. Default: true.
    ///
    /// ```
    /// let mut builder = RegexBuilder::new(alloc, r"\w")?;
    /// let regex = builder.unicode_mode(false).build(alloc)?;
    /// assert!(rt; !regex.is_match(alloc, "é")?);
    /// ```
    pub fn unicode_mode(&mut self, yes: bool) -> &mut Self
        ensures value { result.now.options.options ≡ record (self.old.options.options) { unicode_mode = yes } }
        ensures pattern { result.now.pattern ≡ self.old.pattern }
        ensures same { result.ghost_name ≡ self.entry.ghost_name }
    {
        self.options.unicode_mode(yes);
        self
    }

    /// How often one search by a program may backtrack before it fails with `BacktrackLimitExceeded`. Searches that run no program never
    /// fail so. Nor do those of a regex that keeps states beside its program; docs/SECURITY.md says which patterns have such states.
    /// Default: 1,000,000.
    ///
    /// ```
    /// let mut builder = RegexBuilder::new(alloc, r"(a|aa)+\1b")?;
    /// let regex = builder.backtrack_limit(100).build(alloc)?;
    /// assert!(rt; regex.is_match(alloc, "aaaaaaaaaaaaaaaa").is_err());
    /// ```
    pub fn backtrack_limit(&mut self, limit: usize) -> &mut Self
        ensures value { result.now.options.options ≡ record (self.old.options.options) { backtrack_limit = limit } }
        ensures pattern { result.now.pattern ≡ self.old.pattern }
        ensures same { result.ghost_name ≡ self.entry.ghost_name }
    {
        self.options.backtrack_limit(limit);
        self
    }

    /// How many instructions a program may have. A pattern whose program is longer is refused with `PatternTooComplex`; a plain
    /// pattern has no program. Calls count as what they write. Default: no cap.
    ///
    /// ```
    /// let mut builder = RegexBuilder::new(alloc, r"(a\g<1>?b)")?;
    /// assert!(rt; builder.max_prog_size(10).build(alloc).is_err());
    /// assert!(rt; builder.max_prog_size(10_000).build(alloc).is_ok());
    /// ```
    pub fn max_prog_size(&mut self, limit: usize) -> &mut Self
        ensures value { result.now.options.options ≡ record (self.old.options.options) { max_prog_size = Some limit } }
        ensures pattern { result.now.pattern ≡ self.old.pattern }
        ensures same { result.ghost_name ≡ self.entry.ghost_name }
    {
        self.options.max_prog_size(limit);
        self
    }

    /// Empty matches are skipped. A pattern that can match nothing else is refused with `PatternCanNeverMatch`. Default: false.
    ///
    /// ```
    /// let mut builder = RegexBuilder::new(alloc, "a*")?;
    /// let regex = builder.find_not_empty(true).build(alloc)?;
    /// assert!(rt; regex.find(alloc, "ba")?.map(|found| found.start()) == Some(1));
    /// ```
    pub fn find_not_empty(&mut self, yes: bool) -> &mut Self
        ensures value { result.now.options.options ≡ record (self.old.options.options) { find_not_empty = yes } }
        ensures pattern { result.now.pattern ≡ self.old.pattern }
        ensures same { result.ghost_name ≡ self.entry.ghost_name }
    {
        self.options.find_not_empty(yes);
        self
    }

    /// Unnamed groups do not capture if the pattern has a named group. Default: false.
    ///
    /// ```
    /// let mut builder = RegexBuilder::new(alloc, "(a)(?<b>b)")?;
    /// let regex = builder
    ///     .ignore_numbered_groups_when_named_groups_exist(true)
    ///     .build(alloc)?;
    /// assert!(rt; regex.captures_len() == 2);
    /// ```
    pub fn ignore_numbered_groups_when_named_groups_exist(&mut self, yes: bool) -> &mut Self
        ensures value { result.now.options.options
            ≡ record (self.old.options.options) { ignore_numbered_groups_when_named_groups_exist = yes } }
        ensures pattern { result.now.pattern ≡ self.old.pattern }
        ensures same { result.ghost_name ≡ self.entry.ghost_name }
    {
        self.options
            .ignore_numbered_groups_when_named_groups_exist(yes);
        self
    }

    /// Allows a search that runs a program to skip start offsets at which no match can start. It changes no answer. Default: false.
    ///
    /// ```
    /// let mut builder = RegexBuilder::new(alloc, r"ab(?!c)")?;
    /// let regex = builder.seek(true).build(alloc)?;
    /// assert!(rt; regex.is_match(alloc, "abc ab")?);
    /// ```
    pub fn seek(&mut self, yes: bool) -> &mut Self
        ensures value { result.now.options.options ≡ record (self.old.options.options) { seek = yes } }
        ensures pattern { result.now.pattern ≡ self.old.pattern }
        ensures same { result.ghost_name ≡ self.entry.ghost_name }
    {
        self.options.seek(yes);
        self
    }

    /// Oniguruma mode: `\<`, `\>`, reversed counts, repeated quantifiers, quantifiers on empty groups and `^` at the end of a text are
    /// read as Oniguruma does. Other differences remain; docs/COMING-FROM.md lists them. Default: false.
    ///
    /// ```
    /// let mut builder = RegexBuilder::new(alloc, r"a\<b")?;
    /// let regex = builder.oniguruma_mode(true).build(alloc)?;
    /// assert!(rt; regex.is_match(alloc, "a<b")?);
    /// ```
    pub fn oniguruma_mode(&mut self, yes: bool) -> &mut Self
        ensures value { result.now.options.options ≡ record (self.old.options.options) { oniguruma_mode = yes } }
        ensures pattern { result.now.pattern ≡ self.old.pattern }
        ensures same { result.ghost_name ≡ self.entry.ghost_name }
    {
        self.options.oniguruma_mode(yes);
        self
    }

    /// How the bytes of a haystack are interpreted. `build` refuses every mode but `Unicode`, which is the default.
    ///
    /// ```
    /// let mut builder = RegexBuilder::new(alloc, "a")?;
    /// let regex = builder.bytes_mode(BytesMode::Unicode).build(alloc)?;
    /// assert!(rt; regex.is_match(alloc, "a")?);
    /// ```
    pub fn bytes_mode(&mut self, mode: BytesMode) -> &mut Self
        ensures value { result.now.options.options ≡ record (self.old.options.options) { bytes_mode = mode } }
        ensures pattern { result.now.pattern ≡ self.old.pattern }
        ensures same { result.ghost_name ≡ self.entry.ghost_name }
    {
        self.options.bytes_mode(mode);
        self
    }

    /// At the leftmost start that has a match, the longest match is found, and not the first in priority order. Of several that are as
    /// long it is the first in that order. Default: false.
    ///
    /// ```
    /// let mut builder = RegexBuilder::new(alloc, "a|ab")?;
    /// let regex = builder.leftmost_longest(true).build(alloc)?;
    /// assert!(rt; regex.find(alloc, "ab")?.map(|found| found.end()) == Some(2));
    /// ```
    pub fn leftmost_longest(&mut self, yes: bool) -> &mut Self
        ensures value { result.now.options.options ≡ record (self.old.options.options) { leftmost_longest = yes } }
        ensures pattern { result.now.pattern ≡ self.old.pattern }
        ensures same { result.ghost_name ≡ self.entry.ghost_name }
    {
        self.options.leftmost_longest(yes);
        self
    }
}
