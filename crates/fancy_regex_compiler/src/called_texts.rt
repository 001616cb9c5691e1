//! The groups that write nothing but characters, and how many a call of each writes. Calls of them may stand in each other, so that a short
//! pattern writes a text of any length.

ghost use Rattle.std.specs.Prelude.{◌≡◌, ◌≤◌, ◌+◌, ℕ, List, true, false, map, IfOk, IfSome, IfNone, Some, None, slice_get};
ghost use Rattle.fancy_regex_desugar.specs.Unfolded.{cat_all};
ghost use Rattle.fancy_regex_info.specs.Infos.{InfoTree, info_of};
ghost use Rattle.fancy_regex_compiler.specs.Known.{info_written};
ghost use Rattle.fancy_regex_compiler.specs.CalledTexts.{AreTexts, IsFree, WritesText, infos_at};

use crate::open_calls::OpenCalls;
use fancy_regex_info::Info;
use fancy_regex_tree::Expr;
use std::alloc::{AllocError, Global};

/// For each group how many characters a call of it writes, where it writes nothing else; and how many groups there are of that kind.
#[derive(Drop)]
pub(crate) struct CalledTexts {
    /// The number of characters, as far as `usize` goes.
    pub lengths: Vec<Option<usize>>,
    /// How many groups have one.
    pub known: usize,
}

impl CalledTexts {
    /// Nothing is known of any group.
    pub fn none(alloc: Global) -> CalledTexts
        ensures { (groups : List InfoTree) → AreTexts groups result.lengths.items result.known }
    {
        CalledTexts {
            lengths: Vec::new(alloc),
            known: 0,
        }
    }

    /// What is known of these groups, of which each comes in the order after those that it calls. The error is want of memory.
    pub fn new<'i, 'e>(
        alloc: Global,
        groups: &Vec<&'i Info<'e>>,
        order: &[usize],
    ) -> Result<CalledTexts, AllocError>
        ensures { IfOk result (λ texts. AreTexts (infos_at groups.now.items) texts.lengths.items texts.known) }
    {
        if order.is_empty() {
            return Ok(CalledTexts::none(alloc));
        }
        let mut texts = CalledTexts {
            lengths: vec![in alloc; None; groups.len()]?,
            known: 0,
        };
        for group in order {
            texts.take_up(groups, *group);
        }
        Ok(texts)
    }

    /// Takes up the group if it writes nothing but characters, where the groups that it calls were taken up.
    fn take_up<'i, 'e>(&mut self, groups: &Vec<&'i Info<'e>>, group: usize)
        ensures { AreTexts (infos_at groups.now.items) self.old.lengths.items self.old.known
            → AreTexts (infos_at groups.now.items) self.new.lengths.items self.new.known }
    {
        if group >= groups.len() || !is_unknown(&self.lengths, group) {
            return;
        }
        let Some(characters) = characters_of(groups[group], &self.lengths) else {
            return;
        };
        let Some(known) = self.known.checked_add(1) else {
            return;
        };
        self.lengths[group] = Some(characters);
        self.known = known;
    }

    /// How many characters a call of the target writes, where it writes nothing else and none of the calls in it meets the limit of open
    /// calls: these calls are open, and so many more may open.
    pub fn characters(&self, opened: &OpenCalls, calls_left: usize, target: usize) -> Option<usize>
        ensures target { IfSome result (λ n. slice_get self.now.lengths.items target ≡ Some (Some n)) }
        ensures left { IfSome result (λ n. self.now.known ≤ calls_left) }
        ensures free { IfSome result (λ n. IsFree self.now.lengths.items n opened.now.items) }
    {
        let characters = length_at(&self.lengths, target)?;
        if calls_left < self.known || is_full(&self.lengths, opened, characters) {
            return None;
        }
        Some(characters)
    }
}

/// The number of characters of the group, if it is known.
fn length_at(lengths: &[Option<usize>], group: usize) -> Option<usize>
    ensures some { IfSome result (λ n. slice_get lengths.now group ≡ Some (Some n)) }
    ensures none { IfNone result ((n : ℕ) → slice_get lengths.now group ≡ Some (Some n) → ⊥) }
{
    match lengths.get(group) {
        Some(length) => *length,
        None => None,
    }
}

/// Whether the group is there, and its number of characters is not known.
fn is_unknown(lengths: &[Option<usize>], group: usize) -> bool
    ensures { result ≡ true → slice_get lengths.now group ≡ Some None }
{
    match lengths.get(group) {
        Some(None) => true,
        _ => false,
    }
}

/// Whether as many calls are open as may be of a group that writes at most so many characters and nothing else.
fn is_full(lengths: &[Option<usize>], opened: &OpenCalls, most: usize) -> bool
    ensures { result ≡ false → IsFree lengths.now most opened.now.items }
{
    let full = opened.full_groups();
    for group in full {
        if has_at_most(lengths, *group, most) {
            return true;
        }
    }
    false
}

/// Whether the group writes at most so many characters and nothing else.
fn has_at_most(lengths: &[Option<usize>], group: usize, most: usize) -> bool
    ensures { result ≡ false → (n : ℕ) → slice_get lengths.now group ≡ Some (Some n) → n ≤ most → ⊥ }
{
    match length_at(lengths, group) {
        Some(length) => length <= most,
        None => false,
    }
}

/// How many characters the node writes, where it writes nothing else; of the groups that it calls that is known.
#[cycle(texts)]
fn characters_of(info: &Info<'_>, lengths: &[Option<usize>]) -> Option<usize>
    ensures { IfSome result (λ n. WritesText lengths.now n (λ call. (info_written call (info_of info.now)).front)) }
{
    match info.expr {
        Expr::Empty => Some(0),
        Expr::DefineGroup { .. } => Some(0),
        Expr::Repeat { lo, hi, .. } => characters_of_repeat(*lo, *hi),
        Expr::Literal { casei, .. } => characters_of_literal(*casei),
        Expr::SubroutineCall(group) => length_at(lengths, *group),
        Expr::Concat(_) => characters_of_row(&info.children, lengths),
        _ => None,
    }
}

/// The same for the nodes of a concatenation.
#[cycle(texts)]
fn characters_of_row(children: &[Info<'_>], lengths: &[Option<usize>]) -> Option<usize>
    ensures { IfSome result (λ n. WritesText lengths.now n (λ call. cat_all (map (λ i. info_written call (info_of i)) children.now))) }
{
    let mut characters: usize = 0;
    for child in children {
        let more = characters_of(child, lengths)?;
        characters = sum_of(characters, more);
    }
    Some(characters)
}

/// Those of a repeat: none, if it is of no times.
fn characters_of_repeat(lo: usize, hi: usize) -> Option<usize>
    ensures none { IfSome result (λ n. n ≡ 0) }
    ensures least { IfSome result (λ n. lo ≡ 0) }
    ensures greatest { IfSome result (λ n. hi ≡ 0) }
{
    if lo > 0 || hi > 0 {
        return None;
    }
    Some(0)
}

/// Those of a literal: one, if its case counts.
fn characters_of_literal(casei: bool) -> Option<usize>
    ensures one { IfSome result (λ n. n ≡ 1) }
    ensures case { IfSome result (λ n. casei ≡ false) }
{
    if casei {
        return None;
    }
    Some(1)
}

/// The sum, as far as `usize` goes.
fn sum_of(first: usize, second: usize) -> usize
    ensures first { first ≤ result }
    ensures second { second ≤ result }
    ensures both { result ≤ first + second }
{
    match first.checked_add(second) {
        Some(sum) => sum,
        None => usize::MAX,
    }
}
