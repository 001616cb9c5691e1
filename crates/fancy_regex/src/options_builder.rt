//! `RegexOptionsBuilder`: compile options without a pattern, to compile several patterns with. Each setter changes one
//! option only.

ghost use Rattle.std.specs.Prelude.{◌≡◌, Some, string_bytes, IfOk, IfErr};
ghost use Rattle.fancy_regex_search.specs.Caps.{MetaKeepsCap};
ghost use Rattle.fancy_regex_search.specs.Defaults.{default_options};
ghost use Rattle.fancy_regex_search.specs.Refusals.{Accepts, Refuses};

use fancy_regex_info::BytesMode;
use fancy_regex_search::{Regex, RegexOptions, Result};
use std::alloc::Global;

/// The options to compile patterns with. Each setter changes only the option that it names and returns the builder.
///
/// ```
/// let mut options = RegexOptionsBuilder::new();
/// options.case_insensitive(true).multi_line(true);
/// let set = RegexSet::new_with_options(alloc, &["^a", "b$"], &options)?;
/// assert!(rt; set.len() == 2);
/// ```
#[derive(Clone, Copy, Debug, PartialEq, Eq)]
pub struct RegexOptionsBuilder {
    /// The options set so far.
    pub(crate) options: RegexOptions,
}

impl Default for RegexOptionsBuilder {
    ghost is_default = { λ builder. builder.options ≡ default_options };

    /// The builder that `new` returns.
    fn default() -> RegexOptionsBuilder {
        RegexOptionsBuilder::new()
    }
}

impl RegexOptionsBuilder {
    /// The default options: Unicode mode, a backtrack limit of 1,000,000, no cap on the program's size, and every other
    /// option false.
    ///
    /// ```
    /// assert!(rt; RegexOptionsBuilder::new() == RegexOptionsBuilder::default());
    /// ```
    pub fn new() -> RegexOptionsBuilder
        ensures { result.options ≡ default_options }
    {
        RegexOptionsBuilder {
            options: RegexOptions::default(),
        }
    }

    /// Parses and compiles a pattern with these options. The text is taken, and not copied; the builder can be used again. If the
    /// pattern needs a program, that has at most `max_prog_size` instructions.
    ///
    /// # Errors
    ///
    /// `ParseError` if the text is no pattern, with the first error and its byte offset; `CompileError` if the pattern is refused,
    /// with one of the reasons that hold, `RepeatBoundsReversed` before all others; `Memory` if memory runs out. The builder can be
    /// used again.
    ///
    /// ```
    /// let options = RegexOptionsBuilder::new();
    /// let regex = options.build(alloc, String::from_str(alloc, r"(\w)\1")?)?;
    /// assert!(rt; regex.is_match(alloc, "book")?);
    /// ```
    pub fn build(&self, alloc: Global, pattern: String) -> Result<Regex>
        ensures pattern { IfOk result (λ regex. regex.meta.pattern ≡ pattern) }
        ensures options { IfOk result (λ regex. regex.meta.options ≡ self.now.options) }
        ensures cap { IfOk result (λ regex. MetaKeepsCap regex.meta) }
        ensures accepted { IfOk result (λ _. Accepts self.now.options (string_bytes pattern)) }
        ensures refused { IfErr result (λ e. Refuses self.now.options (string_bytes pattern) e) }
    {
        Regex::with_options(alloc, pattern, &self.options)
    }

    /// Letters match case-insensitively, as after `(?i)`. Default: false.
    ///
    /// ```
    /// let mut options = RegexOptionsBuilder::new();
    /// let text = options.case_insensitive(true).reprint(alloc, "a")?;
    /// assert!(rt; text.map_or(false, |text| text.as_str() == "(?i:a)"));
    /// ```
    pub fn case_insensitive(&mut self, yes: bool) -> &mut Self
        ensures value { result.now.options ≡ record (self.old.options) { case_insensitive = yes } }
        ensures same { result.ghost_name ≡ self.entry.ghost_name }
    {
        self.options.case_insensitive = yes;
        self
    }

    /// `^` and `$` match at the start and the end of each line, as after `(?m)`. Default: false.
    ///
    /// ```
    /// let mut options = RegexOptionsBuilder::new();
    /// let text = options.multi_line(true).reprint(alloc, "^a")?;
    /// assert!(rt; text.map_or(false, |text| text.as_str() == "(?m:^)a"));
    /// ```
    pub fn multi_line(&mut self, yes: bool) -> &mut Self
        ensures value { result.now.options ≡ record (self.old.options) { multi_line = yes } }
        ensures same { result.ghost_name ≡ self.entry.ghost_name }
    {
        self.options.multi_line = yes;
        self
    }

    /// Whitespace and `#` comments in the pattern are ignored, as after `(?x)`. Default: false.
    ///
    /// ```
    /// let mut options = RegexOptionsBuilder::new();
    /// let text = options.ignore_whitespace(true).reprint(alloc, "a b")?;
    /// assert!(rt; text.map_or(false, |text| text.as_str() == "ab"));
    /// ```
    pub fn ignore_whitespace(&mut self, yes: bool) -> &mut Self
        ensures value { result.now.options ≡ record (self.old.options) { ignore_whitespace = yes } }
        ensures same { result.ghost_name ≡ self.entry.ghost_name }
    {
        self.options.ignore_whitespace = yes;
        self
    }

    /// Another name for `ignore_whitespace`.
    ///
    /// ```
    /// let mut options = RegexOptionsBuilder::new();
    /// let text = options.verbose_mode(true).reprint(alloc, "a b")?;
    /// assert!(rt; text.map_or(false, |text| text.as_str() == "ab"));
    /// ```
    pub fn verbose_mode(&mut self, yes: bool) -> &mut Self
        ensures value { result.now.options ≡ record (self.old.options) { ignore_whitespace = yes } }
        ensures same { result.ghost_name ≡ self.entry.ghost_name }
    {
        self.ignore_whitespace(yes)
    }

    /// `.` also matches a newline, as after `(?s)`. Default: false.
    ///
    /// ```
    /// let mut options = RegexOptionsBuilder::new();
    /// let text = options.dot_matches_new_line(true).reprint(alloc, ".")?;
    /// assert!(rt; text.map_or(false, |text| text.as_str() == "(?s:.)"));
    /// ```
    pub fn dot_matches_new_line(&mut self, yes: bool) -> &mut Self
        ensures value { result.now.options ≡ record (self.old.options) { dot_matches_new_line = yes } }
        ensures same { result.ghost_name ≡ self.entry.ghost_name }
    {
        self.options.dot_matches_new_line = yes;
        self
    }

    /// CRLF mode: a carriage return with a newline ends a line, as after `(?R)`. Default: false.
    ///
    /// ```
    /// let mut options = RegexOptionsBuilder::new();
    /// let regex = options
    ///     .crlf(true)
    ///     .build(alloc, String::from_str(alloc, "(?m)a$")?)?;
    /// assert!(rt; regex.is_match(alloc, "a\r\nb")?);
    /// ```
    pub fn crlf(&mut self, yes: bool) -> &mut Self
        ensures value { result.now.options ≡ record (self.old.options) { crlf = yes } }
        ensures same { result.ghost_name ≡ self.entry.ghost_name }
    {
        self.options.crlf = yes;
        self
    }

    /// Character classes, case folding and word characters are those of Unicode if true, of ASCII if false. Default: true.
    ///
    /// ```
    /// let mut options = RegexOptionsBuilder::new();
    /// let regex = options
    ///     .unicode_mode(false)
    ///     .build(alloc, String::from_str(alloc, r"\w")?)?;
    /// assert!(rt; !regex.is_match(alloc, "é")?);
    /// ```
    pub fn unicode_mode(&mut self, yes: bool) -> &mut Self
        ensures value { result.now.options ≡ record (self.old.options) { unicode_mode = yes } }
        ensures same { result.ghost_name ≡ self.entry.ghost_name }
    {
        self.options.unicode_mode = yes;
        self
    }

    /// How often one search by a program may backtrack before it fails with `BacktrackLimitExceeded`. Searches that run no program never
    /// fail so. Nor do those of a regex that keeps states beside its program; docs/SECURITY.md says which patterns have such states.
    /// Default: 1,000,000.
    ///
    /// ```
    /// let mut options = RegexOptionsBuilder::new();
    /// let regex = options
    ///     .backtrack_limit(100)
    ///     .build(alloc, String::from_str(alloc, r"(a|aa)+\1b")?)?;
    /// assert!(rt; regex.is_match(alloc, "aaaaaaaaaaaaaaaa").is_err());
    /// ```
    pub fn backtrack_limit(&mut self, limit: usize) -> &mut Self
        ensures value { result.now.options ≡ record (self.old.options) { backtrack_limit = limit } }
        ensures same { result.ghost_name ≡ self.entry.ghost_name }
    {
        self.options.backtrack_limit = limit;
        self
    }

    /// How many instructions a program may have. A pattern whose program is longer is refused with `PatternTooComplex`; a plain
    /// pattern has no program. Calls count as what they write. Default: no cap.
    ///
    /// ```
    /// let mut options = RegexOptionsBuilder::new();
    /// let called = String::from_str(alloc, r"(a\g<1>?b)")?;
    /// assert!(rt; options.max_prog_size(10).build(alloc, called).is_err());
    /// ```
    pub fn max_prog_size(&mut self, limit: usize) -> &mut Self
        ensures value { result.now.options ≡ record (self.old.options) { max_prog_size = Some limit } }
        ensures same { result.ghost_name ≡ self.entry.ghost_name }
    {
        self.options.max_prog_size = Some(limit);
        self
    }

    /// Empty matches are skipped. A pattern that can match nothing else is refused with `PatternCanNeverMatch`. Default: false.
    ///
    /// ```
    /// let mut options = RegexOptionsBuilder::new();
    /// let regex = options
    ///     .find_not_empty(true)
    ///     .build(alloc, String::from_str(alloc, "a*")?)?;
    /// assert!(rt; !regex.is_match(alloc, "b")?);
    /// ```
    pub fn find_not_empty(&mut self, yes: bool) -> &mut Self
        ensures value { result.now.options ≡ record (self.old.options) { find_not_empty = yes } }
        ensures same { result.ghost_name ≡ self.entry.ghost_name }
    {
        self.options.find_not_empty = yes;
        self
    }

    /// Unnamed groups do not capture if the pattern has a named group. Default: false.
    ///
    /// ```
    /// let mut options = RegexOptionsBuilder::new();
    /// let regex = options
    ///     .ignore_numbered_groups_when_named_groups_exist(true)
    ///     .build(alloc, String::from_str(alloc, "(a)(?<b>b)")?)?;
    /// assert!(rt; regex.captures_len() == 2);
    /// ```
    pub fn ignore_numbered_groups_when_named_groups_exist(&mut self, yes: bool) -> &mut Self
        ensures value { result.now.options ≡ record (self.old.options) { ignore_numbered_groups_when_named_groups_exist = yes } }
        ensures same { result.ghost_name ≡ self.entry.ghost_name }
    {
        self.options.ignore_numbered_groups_when_named_groups_exist = yes;
        self
    }

    /// Allows a search that runs a program to skip start offsets at which no match can start. It changes no answer. Default: false.
    ///
    /// ```
    /// let mut options = RegexOptionsBuilder::new();
    /// let regex = options
    ///     .seek(true)
    ///     .build(alloc, String::from_str(alloc, "ab(?!c)")?)?;
    /// assert!(rt; regex.is_match(alloc, "abc ab")?);
    /// ```
    pub fn seek(&mut self, yes: bool) -> &mut Self
        ensures value { result.now.options ≡ record (self.old.options) { seek = yes } }
        ensures same { result.ghost_name ≡ self.entry.ghost_name }
    {
        self.options.seek = yes;
        self
    }

    /// Oniguruma mode: `\<`, `\>`, reversed counts, repeated quantifiers, quantifiers on empty groups and `^` at the end of a text are
    /// read as Oniguruma does. Other differences remain; docs/COMING-FROM.md lists them. Default: false.
    ///
    /// ```
    /// let mut options = RegexOptionsBuilder::new();
    /// let regex = options
    ///     .oniguruma_mode(true)
    ///     .build(alloc, String::from_str(alloc, r"a\<b")?)?;
    /// assert!(rt; regex.is_match(alloc, "a<b")?);
    /// ```
    pub fn oniguruma_mode(&mut self, yes: bool) -> &mut Self
        ensures value { result.now.options ≡ record (self.old.options) { oniguruma_mode = yes } }
        ensures same { result.ghost_name ≡ self.entry.ghost_name }
    {
        self.options.oniguruma_mode = yes;
        self
    }

    /// How the bytes of a haystack are interpreted. `build` refuses every mode but `Unicode`, which is the default.
    ///
    /// ```
    /// let mut options = RegexOptionsBuilder::new();
    /// let regex = options
    ///     .bytes_mode(BytesMode::Unicode)
    ///     .build(alloc, String::from_str(alloc, "a")?)?;
    /// assert!(rt; regex.is_match(alloc, "a")?);
    /// ```
    pub fn bytes_mode(&mut self, mode: BytesMode) -> &mut Self
        ensures value { result.now.options ≡ record (self.old.options) { bytes_mode = mode } }
        ensures same { result.ghost_name ≡ self.entry.ghost_name }
    {
        self.options.bytes_mode = mode;
        self
    }

    /// At the leftmost start that has a match, the longest match is found, and not the first in priority order. Of several that are as
    /// long it is the first in that order. Default: false.
    ///
    /// ```
    /// let mut options = RegexOptionsBuilder::new();
    /// let regex = options
    ///     .leftmost_longest(true)
    ///     .build(alloc, String::from_str(alloc, "a|ab")?)?;
    /// assert!(rt; regex.find(alloc, "ab")?.map(|found| found.end()) == Some(2));
    /// ```
    pub fn leftmost_longest(&mut self, yes: bool) -> &mut Self
        ensures value { result.now.options ≡ record (self.old.options) { leftmost_longest = yes } }
        ensures same { result.ghost_name ≡ self.entry.ghost_name }
    {
        self.options.leftmost_longest = yes;
        self
    }
}
