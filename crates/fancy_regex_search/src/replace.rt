//! Replacement of the matches in a text. The replaced text is made in one buffer, from left to right; the text itself is
//! returned if it has no match.

ghost use Rattle.std.specs.Prelude.{◌≡◌, ◌-◌, [], None, option_map, IfOk, IfErr};
ghost use Rattle.std.specs.Cow.{cow_str_bytes};
ghost use Rattle.fancy_regex_input.specs.SearchInputs.{whole};
ghost use Rattle.fancy_regex_meaning.specs.Searches.{counted};
ghost use Rattle.fancy_regex_search.specs.RemainingMatches.{all_matches};
ghost use Rattle.fancy_regex_search.specs.IterationLimits.{ReplacementStays};
ghost use Rattle.fancy_regex_search.specs.Replacements.{limit_of, is_spent, AnswersBy, IsReplacedByCalls, IsReplacedBy, IsReplacedLeaving, IsReplaceError, IsReplaceErrorLeaving};

use crate::captures::Captures;
use crate::gap_iter::GapIter;
use crate::regex::Regex;
use crate::replacer::{NoExpand, Replacer};
use fancy_regex_meta::{MatchDetail, Result};
use std::alloc::Global;
use std::borrow::CowStr;

/// The limit of a replacement as an option: 0 is none.
fn limit_of(limit: usize) -> Option<usize>
    ensures { result ≡ limit_of limit }
{
    if limit == 0 { None } else { Some(limit) }
}

/// Whether the limit allows no further replacement.
fn is_spent(limit: Option<usize>) -> bool
    ensures { result ≡ is_spent limit }
{
    match limit {
        Some(count) => count == 0,
        None => false,
    }
}

/// The limit after one replacement.
fn one_less(limit: Option<usize>) -> Option<usize>
    ensures { result ≡ option_map (λ n. n - 1) limit }
{
    match limit {
        Some(count) => Some(count.saturating_sub(1)),
        None => None,
    }
}

/// The text with its first matches replaced by what the replacer answers for each, or with all of them for limit 0. Errors:
/// those of the searches, the last of which is the one after the last match that is replaced, that of the replacer, or `Memory`.
/// The replacer is called with the groups where they are wanted; otherwise its answers must not depend on them.
// Not inlined: where it was, LLVM had not compiled `try_replacen` for `NoExpand` after half an hour. Why was not looked into.
#[inline(never)]
fn replace_by_calls<'t, R: Replacer>(
    alloc: Global,
    regex: &Regex,
    text: &'t str,
    limit: usize,
    wanted: MatchDetail,
    replacer: &mut R,
) -> Result<CowStr<'t>>
    requires ready { R.is_ready replacer.old }
    requires alike { AnswersBy wanted R.answers }
    ensures replaced { IfOk result (λ v. IsReplacedByCalls R.answers regex.now.meta text.entry.now 0 (counted limit
        (all_matches regex.now.meta text.entry.now (whole text.entry.now)))
        replacer.old (cow_str_bytes v) replacer.new) }
    ensures borrowed { IfOk result (λ v. counted limit (all_matches regex.now.meta text.entry.now (whole text.entry.now)) ≡ [] → v
        ≡ CowStr.Borrowed text.entry) }
    ensures stays { IfOk result (λ _. ReplacementStays regex.now.meta text.entry.now
        (counted limit (all_matches regex.now.meta text.entry.now (whole text.entry.now)))) }
    ensures fails { IfErr result (λ e. IsReplaceErrorLeaving R.answers regex.now.meta text.entry.now (counted limit
        (all_matches regex.now.meta text.entry.now (whole text.entry.now))) replacer.old e replacer.new None) }
    ensures ready { R.is_ready replacer.new }
{
    let mut gaps = GapIter::new(alloc, regex, text, wanted);
    let mut out = String::new(alloc);
    let mut rest = text;
    let mut left = limit_of(limit);
    let mut is_changed = false;
    while let Some(found) = gaps.next_gap() {
        let gap = found?;
        if is_spent(left) {
            break;
        }
        out.push_str(gap.text)?;
        let captures = Captures::new(regex, text, gap.groups);
        replacer.replace_append(alloc, &captures, &mut out)?;
        rest = gaps.rest();
        left = one_less(left);
        is_changed = true;
    }
    if !is_changed {
        return Ok(CowStr::Borrowed(text));
    }
    out.push_str(rest)?;
    Ok(CowStr::Owned(out))
}

impl Regex {
    /// The text with its first match replaced. The text itself if it has no match.
    ///
    /// # Errors
    ///
    /// Those of `try_replacen`.
    ///
    /// ```
    /// let name = Regex::new(alloc, r"(\w+), (\w+)")?;
    /// let text = name.replace(alloc, "Mitchell, Joni; Gray, David", "$2 $1")?;
    /// assert!(rt; text.as_str() == "Joni Mitchell; Gray, David");
    /// ```
    pub fn replace<'t, R: Replacer>(
        &self,
        alloc: Global,
        text: &'t str,
        rep: R,
    ) -> Result<CowStr<'t>>
        requires { R.is_ready rep }
        ensures replaced { IfOk result (λ v. IsReplacedBy R.answers self.now.meta text.entry.now (counted 1
            (all_matches self.now.meta text.entry.now (whole text.entry.now))) rep (cow_str_bytes v) (R.fixed_text rep)) }
        ensures borrowed { IfOk result (λ v. counted 1 (all_matches self.now.meta text.entry.now (whole text.entry.now)) ≡ [] → v
            ≡ CowStr.Borrowed text.entry) }
        ensures stays { IfOk result (λ _. ReplacementStays self.now.meta text.entry.now
            (counted 1 (all_matches self.now.meta text.entry.now (whole text.entry.now)))) }
        ensures fails { IfErr result (λ e. IsReplaceError R.answers self.now.meta text.entry.now (counted 1
            (all_matches self.now.meta text.entry.now (whole text.entry.now))) rep (R.fixed_text rep) e) }
    {
        self.try_replacen(alloc, text, 1, rep)
    }

    /// The text with all its matches replaced. The text itself if it has no match.
    ///
    /// # Errors
    ///
    /// Those of `try_replacen`.
    ///
    /// ```
    /// let vowel = Regex::new(alloc, "[aeiou](?!$)")?;
    /// assert!(rt; vowel.replace_all(alloc, "banana", "o")?.as_str() == "bonona");
    /// ```
    pub fn replace_all<'t, R: Replacer>(
        &self,
        alloc: Global,
        text: &'t str,
        rep: R,
    ) -> Result<CowStr<'t>>
        requires { R.is_ready rep }
        ensures replaced { IfOk result (λ v. IsReplacedBy R.answers self.now.meta text.entry.now
            (all_matches self.now.meta text.entry.now (whole text.entry.now)) rep (cow_str_bytes v) (R.fixed_text rep)) }
        ensures borrowed { IfOk result (λ v. all_matches self.now.meta text.entry.now (whole text.entry.now) ≡ [] → v
            ≡ CowStr.Borrowed text.entry) }
        ensures stays { IfOk result (λ _. ReplacementStays self.now.meta text.entry.now
            (all_matches self.now.meta text.entry.now (whole text.entry.now))) }
        ensures fails { IfErr result (λ e. IsReplaceError R.answers self.now.meta text.entry.now
            (all_matches self.now.meta text.entry.now (whole text.entry.now)) rep (R.fixed_text rep) e) }
    {
        self.try_replacen(alloc, text, 0, rep)
    }

    /// The text with its first `limit` matches replaced, or with all of them for limit 0. The text itself if it has no match.
    ///
    /// # Errors
    ///
    /// Those of `try_replacen`.
    ///
    /// ```
    /// let vowel = Regex::new(alloc, "a")?;
    /// assert!(rt; vowel.replacen(alloc, "banana", 2, "o")?.as_str() == "bonona");
    /// ```
    pub fn replacen<'t, R: Replacer>(
        &self,
        alloc: Global,
        text: &'t str,
        limit: usize,
        rep: R,
    ) -> Result<CowStr<'t>>
        requires { R.is_ready rep }
        ensures replaced { IfOk result (λ v. IsReplacedBy R.answers self.now.meta text.entry.now (counted limit
            (all_matches self.now.meta text.entry.now (whole text.entry.now))) rep (cow_str_bytes v) (R.fixed_text rep)) }
        ensures borrowed { IfOk result (λ v. counted limit (all_matches self.now.meta text.entry.now (whole text.entry.now)) ≡ []
            → v ≡ CowStr.Borrowed text.entry) }
        ensures stays { IfOk result (λ _. ReplacementStays self.now.meta text.entry.now
            (counted limit (all_matches self.now.meta text.entry.now (whole text.entry.now)))) }
        ensures fails { IfErr result (λ e. IsReplaceError R.answers self.now.meta text.entry.now (counted limit
            (all_matches self.now.meta text.entry.now (whole text.entry.now))) rep (R.fixed_text rep) e) }
    {
        self.try_replacen(alloc, text, limit, rep)
    }

    /// The text with its first `limit` matches replaced, or with all of them for limit 0. The text itself if it has no match.
    /// If `no_expansion` returns a text, each match is replaced by it; otherwise the replacer is called once for each match
    /// that is replaced, in order. One match more than the limit is searched for.
    ///
    /// # Errors
    ///
    /// `RuntimeError` if a search exceeds a limit, which only a search that runs a program does; the error of a call of the replacer;
    /// `Memory` if memory runs out. No text is returned then, and the regex can be used again.
    ///
    /// ```
    /// let vowel = Regex::new(alloc, "a")?;
    /// let text = vowel.try_replacen(alloc, "banana", 0, NoExpand("$1"))?;
    /// assert!(rt; text.as_str() == "b$1n$1n$1");
    /// ```
    pub fn try_replacen<'t, R: Replacer>(
        &self,
        alloc: Global,
        text: &'t str,
        limit: usize,
        mut rep: R,
    ) -> Result<CowStr<'t>>
        requires { R.is_ready rep }
        ensures replaced { IfOk result (λ v. IsReplacedBy R.answers self.now.meta text.entry.now (counted limit
            (all_matches self.now.meta text.entry.now (whole text.entry.now))) rep (cow_str_bytes v) (R.fixed_text rep)) }
        ensures borrowed { IfOk result (λ v. counted limit (all_matches self.now.meta text.entry.now (whole text.entry.now)) ≡ []
            → v ≡ CowStr.Borrowed text.entry) }
        ensures stays { IfOk result (λ _. ReplacementStays self.now.meta text.entry.now
            (counted limit (all_matches self.now.meta text.entry.now (whole text.entry.now)))) }
        ensures fails { IfErr result (λ e. IsReplaceError R.answers self.now.meta text.entry.now (counted limit
            (all_matches self.now.meta text.entry.now (whole text.entry.now))) rep (R.fixed_text rep) e) }
    {
        self.replacen_by(alloc, text, limit, &mut rep)
    }

    /// As `try_replacen`, by a replacer that is lent, and that can be used again afterwards. It keeps what its calls changed,
    /// also where the replacement ends in an error: it has been called once for each match before that place, in order.
    ///
    /// # Errors
    ///
    /// Those of `try_replacen`.
    ///
    /// ```
    /// let vowel = Regex::new(alloc, "a")?;
    /// let mut dot = NoExpand(".");
    /// assert!(rt; vowel.replacen_by(alloc, "banana", 1, &mut dot)?.as_str() == "b.nana");
    /// assert!(rt; vowel.replacen_by(alloc, "banana", 0, &mut dot)?.as_str() == "b.n.n.");
    /// ```
    pub fn replacen_by<'t, R: Replacer>(
        &self,
        alloc: Global,
        text: &'t str,
        limit: usize,
        rep: &mut R,
    ) -> Result<CowStr<'t>>
        requires { R.is_ready rep.old }
        ensures replaced { IfOk result (λ v. IsReplacedLeaving R.answers self.now.meta text.entry.now (counted limit
            (all_matches self.now.meta text.entry.now (whole text.entry.now))) rep.old (cow_str_bytes v) rep.new (R.fixed_text rep.old)) }
        ensures borrowed { IfOk result (λ v. counted limit (all_matches self.now.meta text.entry.now (whole text.entry.now)) ≡ []
            → v ≡ CowStr.Borrowed text.entry) }
        ensures stays { IfOk result (λ _. ReplacementStays self.now.meta text.entry.now
            (counted limit (all_matches self.now.meta text.entry.now (whole text.entry.now)))) }
        ensures fails { IfErr result (λ e. IsReplaceErrorLeaving R.answers self.now.meta text.entry.now (counted limit
            (all_matches self.now.meta text.entry.now (whole text.entry.now))) rep.old e rep.new (R.fixed_text rep.old)) }
        ensures ready { R.is_ready rep.new }
    {
        if let Some(fixed) = rep.no_expansion() {
            let mut replacer = NoExpand(fixed.as_str());
            return replace_by_calls(alloc, self, text, limit, MatchDetail::Span, &mut replacer);
        }
        replace_by_calls(alloc, self, text, limit, MatchDetail::Groups, rep)
    }
}
