//! The characters that a match can begin with.

ghost use Rattle.std.specs.Prelude.{◌≡◌, ◌<◌, ℕ, true, false, Contains, IfOk, IfSome, OnOk, length, slice_index_or};
ghost use Rattle.fancy_regex_states.specs.CharTests.{IsAsciiLeaf};
ghost use Rattle.fancy_regex_states.specs.declared.atom.Leaf.{Leaf as LeafValue};
ghost use Rattle.fancy_regex_states.specs.First.{state_at, Leads, IsClosed, Extends, IsAmong, one_matches};

use crate::atom::{Leaf, Test};
use crate::char_tests::{is_ascii_leaf, leaf_matches};
use crate::second::refused_second;
use crate::state::State;
use fancy_regex_class::CharClassMatcher;
use std::alloc::{AllocError, Global};

/// The most states that may be reached without reading; a pattern that reaches more has no table.
pub(crate) const MOST_STATES: usize = 256;

/// The characters that a match can begin with anywhere but at the start of the text, for a pattern whose matches there all
/// read a character.
#[derive(Drop)]
pub struct FirstChars {
    /// For each ASCII character whether one of the leaves matches it.
    ascii: [bool; 128],
    /// What reads the first character of a match.
    leaves: Vec<Leaf>,
    /// For each ASCII character whether no match has it second, and none ends before it, if that is known.
    second: Option<[bool; 128]>,
}

impl FirstChars {
    ghost use Rattle.std.specs.Prelude.{Bool, List, Option};
    ghost use Rattle.fancy_regex_states.specs.First.{IsTableOf, CannotBegin, RefusesWide};
    ghost use Rattle.fancy_regex_states.specs.declared.state.State.{State as StateValue};

    /// The table of these states, from the number of the entry; `None` where a match can be empty, or where more than 256
    /// states can be reached without reading. The error is want of memory.
    pub fn new(
        alloc: Global,
        states: &[State],
        entry: usize,
        matchers: &[CharClassMatcher],
        unicode: bool,
    ) -> Result<Option<FirstChars>, AllocError>
        ensures { IfOk result (λ made. IfSome made (λ table. IsTableOf unicode matchers.now states.now entry table)) }
    {
        let Some(first) = FirstChars::of_one(alloc, states, entry, matchers, unicode)? else {
            return Ok(None);
        };
        let FirstChars { ascii, leaves, .. } = first;
        let second = refused_second(alloc, states, entry, matchers, unicode)?;
        Ok(Some(FirstChars {
            ascii,
            leaves,
            second,
        }))
    }

    /// The table as `new` makes it, where nothing is known of second characters.
    pub(crate) fn of_one(
        alloc: Global,
        states: &[State],
        entry: usize,
        matchers: &[CharClassMatcher],
        unicode: bool,
    ) -> Result<Option<FirstChars>, AllocError>
        ensures { IfOk result (λ made. IfSome made (λ table. IsTableOf unicode matchers.now states.now entry table)) }
    {
        let Some(reached) = reached(alloc, states, entry)? else {
            return Ok(None);
        };
        let Some(leaves) = leaves_of(alloc, states, &reached)? else {
            return Ok(None);
        };
        let ascii = ascii_of(&leaves, matchers, unicode);
        Ok(Some(FirstChars {
            ascii,
            leaves,
            second: None,
        }))
    }

    /// Whether no match that begins after another character begins with this one; `None` is the end of the text.
    pub fn refuses(&self, matchers: &[CharClassMatcher], unicode: bool, after: Option<char>) -> bool
        ensures { result ≡ true → (states : List State) (entry : ℕ) → IsTableOf unicode matchers.now states entry self.now
            → CannotBegin unicode matchers.now states entry after }
    {
        match after {
            None => true,
            Some(c) => {
                let code = c as u32;
                if code < 128 {
                    !self.ascii[code as usize]
                } else {
                    !matches_one(&self.leaves, matchers, unicode, c)
                }
            }
        }
    }

    /// Whether no match that begins after another character begins with one that is not ASCII.
    pub fn refuses_wide(&self, matchers: &[CharClassMatcher], unicode: bool) -> bool
        ensures { result ≡ true → (states : List State) (entry : ℕ) → IsTableOf unicode matchers.now states entry self.now
            → RefusesWide unicode matchers.now states entry }
    {
        are_ascii(&self.leaves, matchers, unicode)
    }

    /// For each ASCII character whether no match that begins after another character has it second, if that is known.
    #[inline(always)]
    pub fn refused_second(&self) -> &Option<[bool; 128]>
        ensures { result.now ≡ self.now.second }
    {
        &self.second
    }

    /// Whether no match begins after a character, as where the start of the text is demanded.
    #[inline(always)]
    pub fn refuses_all(&self) -> bool
        ensures { result ≡ true → (unicode : Bool) (matchers : List CharClassMatcher) (states : List State) (entry : ℕ) (after : Option ℕ)
            → IsTableOf unicode matchers states entry self.now → CannotBegin unicode matchers states entry after }
    {
        self.leaves.is_empty()
    }
}

/// The states that are reached from the entry without reading, where a character stands before; `None` if there are more
/// than 256. The error is want of memory.
pub fn reached(
    alloc: Global,
    states: &[State],
    entry: usize,
) -> Result<Option<Vec<usize>>, AllocError>
    ensures { IfOk result (λ found. IfSome found (λ numbers. Contains numbers.items entry × IsClosed states.now numbers.items)) }
{
    let mut found = Vec::new(alloc);
    found.push(entry)?;
    for next in 0..MOST_STATES {
        if next >= found.len() {
            return Ok(Some(found));
        }
        let number = found[next];
        if number >= states.len() {
            return Ok(None);
        }
        add_successors(&mut found, states[number])?;
    }
    Ok(None)
}

/// Adds the numbers of the states that this one leads to without reading. The error is want of memory.
fn add_successors(found: &mut Vec<usize>, state: State) -> Result<(), AllocError>
    ensures extends { OnOk result (Extends found.old.items found.new.items) }
    ensures successors { OnOk result ((p : ℕ) → Leads state p → Contains found.new.items p) }
{
    match state {
        State::Read { .. } | State::Back { .. } | State::Match => Ok(()),
        State::Look { test, next } => {
            if test == Test::StartText {
                return Ok(());
            }
            add_number(found, next)
        }
        State::Enter { next, .. } | State::Leave { next, .. } | State::Ask { next, .. } => {
            add_number(found, next)
        }
        State::Atomic { part, .. } => add_number(found, part),
        State::Split { first, second } => {
            add_number(found, first)?;
            add_number(found, second)
        }
    }
}

/// Adds a number, unless it is there. The error is want of memory.
pub(crate) fn add_number(found: &mut Vec<usize>, number: usize) -> Result<(), AllocError>
    ensures extends { OnOk result (Extends found.old.items found.new.items) }
    ensures there { OnOk result (Contains found.new.items number) }
{
    if found.contains(&number) {
        return Ok(());
    }
    found.push(number)?;
    Ok(())
}

/// The leaves of the states of these numbers; `None` if one of them is the final state. The error is want of memory.
fn leaves_of(
    alloc: Global,
    states: &[State],
    numbers: &[usize],
) -> Result<Option<Vec<Leaf>>, AllocError>
    ensures { IfOk result (λ made. IfSome made (λ leaves.
        (q : ℕ) → Contains numbers.now q → IsAmong leaves.items (state_at states.now q))) }
{
    let mut leaves = Vec::new(alloc);
    for i in 0..numbers.len() {
        let number = numbers[i];
        if number >= states.len() || !add_leaf(&mut leaves, states[number])? {
            return Ok(None);
        }
    }
    Ok(Some(leaves))
}

/// Adds the leaf of a state that reads; returns whether the state is not final. The error is want of memory.
fn add_leaf(leaves: &mut Vec<Leaf>, state: State) -> Result<bool, AllocError>
    ensures extends { OnOk result ((leaf : Leaf) → Contains leaves.old.items leaf → Contains leaves.new.items leaf) }
    ensures among { IfOk result (λ goes_on. goes_on ≡ true → IsAmong leaves.new.items state) }
{
    match state {
        State::Read { leaf, .. } => {
            leaves.push(leaf)?;
            Ok(true)
        }
        State::Look { .. }
        | State::Split { .. }
        | State::Enter { .. }
        | State::Leave { .. }
        | State::Ask { .. }
        | State::Atomic { .. } => Ok(true),
        State::Back { .. } | State::Match => Ok(false),
    }
}

/// For each ASCII character whether one of the leaves matches it.
fn ascii_of(leaves: &[Leaf], matchers: &[CharClassMatcher], unicode: bool) -> [bool; 128]
    ensures { (c : ℕ) → c < 128 → slice_index_or result c false ≡ one_matches unicode matchers.now leaves.now c }
{
    let mut ascii = [false; 128];
    for code in 0..128u8 {
        ascii[code as usize] = matches_one(leaves, matchers, unicode, code as char);
    }
    ascii
}

/// Whether all characters that the leaves match are ASCII characters.
fn are_ascii(leaves: &[Leaf], matchers: &[CharClassMatcher], unicode: bool) -> bool
    ensures { result ≡ true → (k : ℕ) (d : LeafValue) → k < length leaves.now
        → IsAsciiLeaf unicode matchers.now (slice_index_or leaves.now k d) }
{
    for i in 0..leaves.len() {
        if !is_ascii_leaf(matchers, unicode, leaves[i]) {
            return false;
        }
    }
    true
}

/// Whether one of the leaves matches the character.
fn matches_one(leaves: &[Leaf], matchers: &[CharClassMatcher], unicode: bool, c: char) -> bool
    ensures { result ≡ one_matches unicode matchers.now leaves.now c }
{
    leaves
        .iter()
        .any(|leaf| leaf_matches(matchers, unicode, *leaf, c))
}
