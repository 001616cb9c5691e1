//! `Regex`: a compiled pattern. Its searches are in `search`.

ghost use Rattle.std.specs.Prelude.{◌≡◌, ◌↔◌, IfOk, IfErr, MatchResult, Some, true, length, string_bytes};
ghost use Rattle.fancy_regex_meta.specs.MetaMatches.{meta_pattern};
ghost use Rattle.fancy_regex_meta.specs.Caps.{MetaKeepsCap};
ghost use Rattle.fancy_regex_meta.specs.Defaults.{default_options};
ghost use Rattle.fancy_regex_meta.specs.Refusals.{Accepts, Refuses};
ghost use Rattle.fancy_regex_meta.specs.SearchLimits.{MetaIsLinear, MeetsNoLimit};

use crate::names::CaptureNames;
use fancy_regex_meta::{Error, MetaRegex, RegexOptions, Result};
use std::alloc::Global;
use std::fmt;

/// A compiled pattern. No call changes it, so it can be used again after every error.
///
/// ```
/// let regex = Regex::new(alloc, r"(\d+) (?<unit>\w+)(?!\w|!)")?;
/// assert!(rt; regex.captures_len() == 3);
/// assert!(rt; regex.as_str() == r"(\d+) (?<unit>\w+)(?!\w|!)");
/// assert!(rt; regex.is_match(alloc, "80 columns!, 24 lines")?);
/// let same = Regex::try_from((regex.as_str(), alloc))?;
/// assert!(rt; same.captures_len() == 3);
/// ```
#[derive(Drop)]
pub struct Regex {
    /// The pattern, its options and what runs it.
    pub(crate) meta: MetaRegex,
}

impl Regex {
    /// Parses and compiles a pattern with the default options: Unicode mode, a backtrack limit of 1,000,000, no cap on the
    /// program's size, and every other option false.
    ///
    /// # Errors
    ///
    /// `ParseError` if the text is no pattern, with the first error and its byte offset; `CompileError` if the pattern is refused,
    /// with one of the reasons that hold, `RepeatBoundsReversed` before all others; `Memory` if memory runs out.
    ///
    /// ```
    /// assert!(rt; Regex::new(alloc, r"\bfancy\b(?=!)").is_ok());
    /// let fault = Regex::new(alloc, "a)");
    /// assert!(rt; matches!(&fault, Err(Error::ParseError(1, _))));
    /// ```
    pub fn new(alloc: Global, re: &str) -> Result<Regex>
        ensures pattern { IfOk result (λ regex. string_bytes regex.meta.pattern ≡ re.now) }
        ensures options { IfOk result (λ regex. regex.meta.options ≡ default_options) }
        ensures cap { IfOk result (λ regex. MetaKeepsCap regex.meta) }
        ensures accepted { IfOk result (λ _. Accepts default_options re.now) }
        ensures refused { IfErr result (λ e. Refuses default_options re.now e) }
    {
        let pattern = String::from_str(alloc, re)?;
        Regex::with_options(alloc, pattern, &RegexOptions::default())
    }

    /// Parses and compiles a pattern with these options. If the pattern needs a program, that has at most `max_prog_size`
    /// instructions.
    ///
    /// # Errors
    ///
    /// Those of `new`.
    pub fn with_options(alloc: Global, pattern: String, options: &RegexOptions) -> Result<Regex>
        ensures pattern { IfOk result (λ regex. regex.meta.pattern ≡ pattern) }
        ensures options { IfOk result (λ regex. regex.meta.options ≡ options.now) }
        ensures cap { IfOk result (λ regex. MetaKeepsCap regex.meta) }
        ensures accepted { IfOk result (λ _. Accepts options.now (string_bytes pattern)) }
        ensures refused { IfErr result (λ e. Refuses options.now (string_bytes pattern) e) }
    {
        Ok(Regex {
            meta: MetaRegex::new(alloc, pattern, options)?,
        })
    }

    /// The text of the pattern, as it was given.
    pub fn as_str(&self) -> &str
        ensures { result.now ≡ string_bytes self.now.meta.pattern }
    {
        self.meta.pattern()
    }

    /// The number of groups, group 0 (the whole match) included.
    pub fn captures_len(&self) -> usize
        ensures { result ≡ length (meta_pattern self.now.meta).groups }
    {
        self.meta.groups()
    }

    /// Whether no search of this regex meets a limit: if so, `Memory` is the only error of its searches.
    ///
    /// It is so where the option `find_not_empty` is off, in two cases. The pattern is plain: it has no more than characters, classes,
    /// assertions but `\Z`, groups, alternations and repeats of these. Or the pattern's weight (about its length, with counted repeats and
    /// calls written out) is at most 4,000, and it has besides no more than look-arounds, atomic groups, conditionals whose condition is
    /// such a pattern, definitions, calls that do not recur and nest at most 18 deep, `\R`, `\Z`, `\G`, half boundaries, starts of lines
    /// of Oniguruma mode, `(*FAIL)`, and `\K`, but not in a group that is called. So a pattern with a reference, a call that recurs or a
    /// condition on a group is not linear, unless these stand in a definition and are not called, or in what is repeated no times. The
    /// answer depends on the pattern and its options alone, and on no text. It is the same for the first match and for the longest.
    ///
    /// ```
    /// assert!(rt; Regex::new(alloc, r"\b(?>a+)b(?=c)")?.is_linear());
    /// assert!(rt; !Regex::new(alloc, r"(a)\1")?.is_linear());
    /// ```
    pub fn is_linear(&self) -> bool
        ensures exact { result ≡ true ↔ MetaIsLinear self.now.meta }
        ensures unlimited { result ≡ true → MeetsNoLimit self.now.meta }
    {
        self.meta.is_linear()
    }

    /// The names of the groups, from group 0, which has none; `None` for an unnamed group.
    ///
    /// ```
    /// let regex = Regex::new(alloc, r"(\d+) (?<unit>\w+)")?;
    /// let mut names = regex.capture_names();
    /// assert!(rt; names.next() == Some(None));
    /// assert!(rt; names.next() == Some(None));
    /// assert!(rt; names.next() == Some(Some("unit")));
    /// ```
    pub fn capture_names(&self) -> CaptureNames<'_>
        ensures regex { result.regex.now ≡ self.now }
        ensures next { result.next ≡ 0 }
    {
        CaptureNames::new(self)
    }
}

impl TryFrom<(&str, Global)> for Regex {
    type Error = Error;

    ghost try_from_gives = { λ source result. MatchResult result
        (λ regex. (string_bytes regex.meta.pattern ≡ source.0.now) × (regex.meta.options ≡ default_options)
        × Accepts default_options source.0.now)
        (λ e. Refuses default_options source.0.now e) };

    /// The regex of a text, by an allocator: `Regex::new`.
    ///
    /// # Errors
    ///
    /// Those of `Regex::new`.
    fn try_from(source: (&str, Global)) -> Result<Regex> {
        let (re, alloc) = source;
        Regex::new(alloc, re)
    }
}

impl TryFrom<(String, Global)> for Regex {
    type Error = Error;

    ghost try_from_gives = { λ source result. MatchResult result
        (λ regex. (regex.meta.pattern ≡ source.0) × (regex.meta.options ≡ default_options) × Accepts default_options
        (string_bytes source.0))
        (λ e. Refuses default_options (string_bytes source.0) e) };

    /// The regex of a text, by an allocator: `Regex::new`. The text is taken, and not copied.
    ///
    /// # Errors
    ///
    /// Those of `Regex::new`.
    fn try_from(source: (String, Global)) -> Result<Regex> {
        let (pattern, alloc) = source;
        Regex::with_options(alloc, pattern, &RegexOptions::default())
    }
}

impl fmt::Display for Regex {
    ghost output = { λ regex. Some (string_bytes regex.meta.pattern) };

    /// Writes the text of the pattern.
    fn fmt<W: fmt::Write>(&self, f: &mut fmt::Formatter<W>) -> fmt::Result {
        f.write_str(self.as_str())
    }
}

impl fmt::Debug for Regex {
    ghost debug_output = { λ regex. Some (string_bytes regex.meta.pattern) };

    /// Writes the text of the pattern.
    fn fmt<W: fmt::Write>(&self, f: &mut fmt::Formatter<W>) -> fmt::Result {
        fmt::Display::fmt(self, f)
    }
}
