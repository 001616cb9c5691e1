//! `RegexSet`: several regexes that are searched for together. Its search is in `set_search`.

ghost use Rattle.std.specs.Prelude.{◌≡◌, ◌==◌, ◌≤◌, ◌<◌, map, length, IfOk, IfErr, MatchOption, vec_len};
ghost use Rattle.std.specs.Option.{ForSome};
ghost use Rattle.fancy_regex_search.specs.Defaults.{default_options};
ghost use Rattle.fancy_regex.specs.SetMembers.{AreBuiltOf, RefusesPatterns};
ghost use Rattle.fancy_regex.specs.SetStarts.{FindNoneBetween, PassesOver};

use crate::options_builder::RegexOptionsBuilder;
use crate::set_starts::start_table;
use crate::start_table::StartTable;
use fancy_regex_search::{Regex, Result};
use std::alloc::Global;

/// Several regexes, its members, that are searched for together. They are numbered from 0. No search changes the set, so it can
/// be used again after every error.
///
/// ```
/// let set = RegexSet::new(alloc, &[r"\d+", r"\w+", r"\.\d+"])?;
/// assert!(rt; set.len() == 3 && !set.is_empty());
/// if let Some(mut found) = set.find_input(alloc, RegexInput::new("$29.99"))? {
///     assert!(rt; found.start() == 1);
///     if let Some(first) = found.next() {
///         assert!(rt; first?.as_str() == "29");
///     }
/// }
/// ```
#[derive(Drop)]
pub struct RegexSet {
    /// The members, by number.
    pub(crate) regexes: Vec<Regex>,
    /// The members that may match at a place, by the byte there; `None` asks every member.
    pub(crate) starts: Option<StartTable>,
    pub ghost passes: { ForSome starts (λ table. PassesOver regexes.items table) },
}

impl RegexSet {
    /// Parses and compiles each pattern with the default options.
    ///
    /// # Errors
    ///
    /// Those of `new_with_options`.
    ///
    /// ```
    /// assert!(rt; RegexSet::new(alloc, &["a", "b"])?.len() == 2);
    /// assert!(rt; RegexSet::new(alloc, &["a", "b)"]).is_err());
    /// ```
    pub fn new(alloc: Global, patterns: &[&str]) -> Result<RegexSet>
        ensures members { IfOk result (λ set. AreBuiltOf default_options (map (λ p. p.now) patterns.now) set.regexes.items) }
        ensures refused { IfErr result (λ e. RefusesPatterns default_options (map (λ p. p.now) patterns.now) e) }
    {
        RegexSet::new_with_options(alloc, patterns, &RegexOptionsBuilder::new())
    }

    /// Parses and compiles each pattern with these options. Its number is its place in the list.
    ///
    /// # Errors
    ///
    /// That of the first pattern that is refused: `ParseError` if it is no pattern, with its first error and the byte offset of that
    /// in it; `CompileError` with one of the reasons that hold, `RepeatBoundsReversed` before all others. `Memory` if memory runs out.
    ///
    /// ```
    /// let mut options = RegexOptionsBuilder::new();
    /// let set = RegexSet::new_with_options(alloc, &["a", "b"], options.case_insensitive(true))?;
    /// assert!(rt; set.find_input(alloc, RegexInput::new("xB"))?.is_some());
    /// ```
    pub fn new_with_options(
        alloc: Global,
        patterns: &[&str],
        options: &RegexOptionsBuilder,
    ) -> Result<RegexSet>
        ensures members { IfOk result (λ set. AreBuiltOf options.now.options (map (λ p. p.now) patterns.now) set.regexes.items) }
        ensures refused { IfErr result (λ e. RefusesPatterns options.now.options (map (λ p. p.now) patterns.now) e) }
    {
        let regexes = build_all(alloc, patterns, options)?;
        let starts = Some(start_table(alloc, patterns, options)?);
        Ok(RegexSet { regexes, starts })
    }

    /// The set of these regexes, which may have different options. It takes no memory, so no table is made of the bytes that the
    /// members start with, and a search asks each of them at each place; a set that is built of patterns is faster.
    ///
    /// ```
    /// let mut regexes = Vec::new(alloc);
    /// regexes.push(Regex::new(alloc, "a")?)?;
    /// assert!(rt; RegexSet::from_regexes(regexes).len() == 1);
    /// ```
    pub fn from_regexes(regexes: Vec<Regex>) -> RegexSet
        ensures { result.regexes ≡ regexes }
    {
        RegexSet {
            regexes,
            starts: None,
        }
    }

    /// The number of members.
    pub fn len(&self) -> usize
        ensures { result ≡ length self.now.regexes.items }
    {
        self.regexes.len()
    }

    /// Whether the set has no members.
    pub fn is_empty(&self) -> bool
        ensures { result ≡ (length self.now.regexes.items == 0) }
    {
        self.regexes.len() == 0
    }

    /// The first member from this number on that may match at a place with this byte, or at the end of a text; `None` if there is
    /// none.
    pub(crate) fn candidate(&self, byte: Option<u8>, from: usize) -> Option<usize>
        ensures { MatchOption result (FindNoneBetween self.now.regexes.items byte from (length self.now.regexes.items))
            (λ k. (from ≤ k) × (k < length self.now.regexes.items) × FindNoneBetween self.now.regexes.items byte from k) }
    {
        let number = self.next_candidate(byte, from);
        if number < self.regexes.len() {
            Some(number)
        } else {
            None
        }
    }

    /// The number of that member; a number after the last if there is none.
    fn next_candidate(&self, byte: Option<u8>, from: usize) -> usize
        ensures { (from ≤ result) × FindNoneBetween self.now.regexes.items byte from result }
    {
        match &self.starts {
            Some(table) => table.next(byte, from),
            None => from,
        }
    }
}

/// A regex of each pattern. The error is that of the first pattern that is refused, or `Memory`.
fn build_all(alloc: Global, patterns: &[&str], options: &RegexOptionsBuilder) -> Result<Vec<Regex>>
    ensures members { IfOk result (λ regexes. AreBuiltOf options.now.options (map (λ p. p.now) patterns.now) regexes.items) }
    ensures refused { IfErr result (λ e. RefusesPatterns options.now.options (map (λ p. p.now) patterns.now) e) }
{
    let mut regexes = Vec::new(alloc);
    for pattern in patterns {
        let text = String::from_str(alloc, pattern)?;
        match options.build(alloc, text) {
            Ok(regex) => regexes.push(regex)?,
            Err(error) => return Err(error),
        }
    }
    Ok(regexes)
}
