//! `RegexInput`: a haystack with the configuration of a search. Its start and its range always lie on character boundaries,
//! except for a start past the end of the haystack, which finds nothing.

ghost use Rattle.std.specs.Prelude.{◌≡◌, ◌≤◌, false, max, length, nat_lt, ⊤, IsCharBoundary};
ghost use Rattle.fancy_regex_input.specs.SearchInputs.{whole, effective_start, run_input_of, FitsText};

use crate::config::SearchConfig;
use crate::input::Input;
use fancy_regex_class::RunInput;
use std::alloc::AllocError;
use std::ops::Range;

/// A haystack with the configuration of a search in it. Each setter changes only what it names.
///
/// ```
/// let input = RegexInput::new("aéb")
///     .from_pos(1)
///     .range(0..3)
///     .anchored(true);
/// assert!(rt; input.haystack() == "aéb" && input.start() == 1);
/// assert!(rt; input.get_range() == (0..3) && input.effective_start() == 1);
/// assert!(rt; !input.is_done() && input.config().start() == 1);
/// ```
#[derive(Drop)]
pub struct RegexInput<S: Input> {
    /// The searched text.
    haystack: S,
    /// The configuration of the search.
    config: SearchConfig,
    pub ghost fits: { FitsText (S.text haystack) config },
}

impl<S: Input> RegexInput<S> {
    /// The whole haystack, searched from its start: unanchored, and `^`, `$` and `\G` match as usual.
    pub fn new(haystack: S) -> RegexInput<S>
        ensures haystack { result.haystack ≡ haystack }
        ensures config { result.config ≡ whole (S.text haystack) }
    {
        let end = haystack.len();
        let _bytes = haystack.as_bytes();
        RegexInput {
            haystack,
            config: SearchConfig::whole(end),
        }
    }

    /// The haystack.
    pub fn haystack(&self) -> S
        ensures { result ≡ self.now.haystack }
    {
        self.haystack
    }

    /// The configuration of the search.
    pub fn config(&self) -> SearchConfig
        ensures { result ≡ self.now.config }
    {
        self.config.copied()
    }

    /// The input of the search, as both engines take it.
    pub fn run_input(&self) -> &RunInput
        ensures { result.now ≡ run_input_of self.now.config (effective_start self.now.config) false }
    {
        self.config.run_input()
    }

    /// The byte offset at which the search starts, unless the range starts later.
    pub fn start(&self) -> usize
        ensures { result ≡ self.now.config.start }
    {
        self.config.start()
    }

    /// The range in which the whole match has to lie, in bytes.
    pub fn get_range(&self) -> Range<usize>
        ensures { (result.start ≡ self.now.config.range_start) × (result.end ≡ self.now.config.range_end) }
    {
        let range = self.run_input().range;
        range.start..range.end
    }

    /// The byte offset at which the search really starts: the later of `start` and the start of the range.
    pub fn effective_start(&self) -> usize
        ensures { result ≡ max (self.now.config.start) (self.now.config.range_start) }
    {
        self.run_input().first
    }

    /// Whether the search starts after the end of its range, so that it finds nothing.
    pub fn is_done(&self) -> bool
        ensures { result ≡ nat_lt (self.now.config.range_end)
            (max (self.now.config.start) (self.now.config.range_start)) }
    {
        let input = self.run_input();
        input.range.end < input.first
    }

    /// Starts the search at this byte offset: a character boundary, or an offset past the end of the haystack, where nothing
    /// is found.
    pub fn from_pos(mut self, start: usize) -> RegexInput<S>
        requires { start ≤ length (S.text self.haystack) → IsCharBoundary (S.text self.haystack) start }
        ensures haystack { result.haystack ≡ self.haystack }
        ensures config { result.config ≡ record (self.config) { start = start } }
    {
        self.config.set_start(start);
        self
    }

    /// Limits the search to this byte range, from one character boundary of the haystack to another.
    pub fn range(mut self, range: Range<usize>) -> RegexInput<S>
        requires ordered { range.start ≤ range.end }
        requires starts { IsCharBoundary (S.text self.haystack) range.start }
        requires ends { IsCharBoundary (S.text self.haystack) range.end }
        ensures haystack { result.haystack ≡ self.haystack }
        ensures config { result.config ≡ record (self.config) { range_start = range.start; range_end = range.end } }
    {
        self.config.set_range(range.start, range.end);
        self
    }

    /// Whether `^` and `\A` match at the start of the haystack.
    ///
    /// ```
    /// let regex = Regex::new(alloc, "^a")?;
    /// assert!(rt; !regex.is_match_input(alloc, RegexInput::new("a").start_text(false))?);
    /// ```
    pub fn start_text(mut self, yes: bool) -> RegexInput<S>
        ensures haystack { result.haystack ≡ self.haystack }
        ensures config { result.config ≡ record (self.config) { start_text = yes } }
    {
        self.config.set_start_text(yes);
        self
    }

    /// Whether `$` and `\z` match at the end of the haystack.
    ///
    /// ```
    /// let regex = Regex::new(alloc, "a$")?;
    /// assert!(rt; !regex.is_match_input(alloc, RegexInput::new("a").end_text(false))?);
    /// ```
    pub fn end_text(mut self, yes: bool) -> RegexInput<S>
        ensures haystack { result.haystack ≡ self.haystack }
        ensures config { result.config ≡ record (self.config) { end_text = yes } }
    {
        self.config.set_end_text(yes);
        self
    }

    /// Whether `\G` matches at the start of the search; otherwise it never matches.
    ///
    /// ```
    /// let regex = Regex::new(alloc, r"\Ga")?;
    /// let input = RegexInput::new("a").continue_from_previous_match_end(false);
    /// assert!(rt; !regex.is_match_input(alloc, input)?);
    /// ```
    pub fn continue_from_previous_match_end(mut self, yes: bool) -> RegexInput<S>
        ensures haystack { result.haystack ≡ self.haystack }
        ensures config { result.config ≡ record (self.config) { continues = yes } }
    {
        self.config.set_continues(yes);
        self
    }

    /// Whether the match has to start at the start of the search; otherwise it may start later.
    pub fn anchored(mut self, yes: bool) -> RegexInput<S>
        ensures haystack { result.haystack ≡ self.haystack }
        ensures config { result.config ≡ record (self.config) { anchored = yes } }
    {
        self.config.set_anchored(yes);
        self
    }

    /// Changes the start of the search to this byte offset: a character boundary, or an offset past the end of the haystack,
    /// where nothing is found.
    ///
    /// ```
    /// let mut input = RegexInput::new("ab");
    /// input.set_start(1);
    /// assert!(rt; input.start() == 1);
    /// ```
    pub fn set_start(&mut self, start: usize)
        requires { start ≤ length (S.text self.old.haystack) → IsCharBoundary (S.text self.old.haystack) start }
        ensures haystack { self.new.haystack ≡ self.old.haystack }
        ensures config { self.new.config ≡ record (self.old.config) { start = start } }
    {
        self.config.set_start(start);
    }
}

/// The haystack is lent again, not copied. It allocates nothing, and never fails.
impl<S: Input> Clone for RegexInput<S> {
    ghost is_clone = { λ input copy. (copy.haystack ≡ input.haystack) × (copy.config ≡ input.config) };

    ghost is_infallible = { λ _. ⊤ };

    fn clone(&self) -> Result<RegexInput<S>, AllocError> {
        Ok(RegexInput {
            haystack: self.haystack,
            config: self.config.copied(),
        })
    }
}

/// A search of the whole haystack, from its start.
impl<S: Input> From<S> for RegexInput<S> {
    ghost from_gives = { λ s input. (input.haystack ≡ s) × (input.config ≡ whole (S.text s)) };

    fn from(haystack: S) -> RegexInput<S> {
        RegexInput::new(haystack)
    }
}
