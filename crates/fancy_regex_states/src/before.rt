//! The characters after which a match can begin.

ghost use Rattle.std.specs.Prelude.{◌≡◌, ◌==◌, ◌&&◌, ◌||◌, ℕ, true, false, not, Contains, IfOk, IfSome, OnOk};
ghost use Rattle.fancy_regex_states.specs.CharTests.{leaf_matches_char};
ghost use Rattle.fancy_regex_states.specs.First.{Extends};
ghost use Rattle.fancy_regex_states.specs.Before.{may_pass, CannotBeginAfter, IsMeant, OnlyLeadsOn, LeadsAfter, RefusesAfter};

use crate::atom::{Leaf, Test};
use crate::char_tests::{is_ascii_leaf, leaf_matches};
use crate::first::{MOST_STATES, add_number};
use crate::state::State;
use fancy_regex_class::CharClassMatcher;
use std::alloc::{AllocError, Global};

/// What stands before a match, and how it is tested.
#[derive(Clone, Copy)]
struct Before<'p> {
    matchers: &'p [CharClassMatcher],
    unicode: bool,
    /// An ASCII character; `None` is any character that is not ASCII.
    character: Option<char>,
}

/// Marks ASCII characters after which no match begins at the entry, by the assertions before its first character. Where there are
/// marks, none begins after a character that is not ASCII. No clause says which characters are marked, or that there are marks: `None`
/// is meant for where a match may begin after a character that is not ASCII. The error is want of memory.
pub fn refused_after(
    alloc: Global,
    states: &[State],
    entry: usize,
    matchers: &[CharClassMatcher],
    unicode: bool,
) -> Result<Option<[bool; 128]>, AllocError>
    ensures { IfOk result (λ made. IfSome made (RefusesAfter unicode matchers.now states.now entry)) }
{
    let others = Before {
        matchers,
        unicode,
        character: None,
    };
    let mut found = Vec::new(alloc);
    let is_none_wide = refuses(&mut found, states, entry, others)?;
    if !is_none_wide {
        return Ok(None);
    }
    let mut refused = [false; 128];
    for code in 0..128u8 {
        let before = Before {
            matchers,
            unicode,
            character: Some(code as char),
        };
        let is_refused = refuses(&mut found, states, entry, before)?;
        refused[code as usize] = is_refused;
    }
    Ok(Some(refused))
}

/// True only where no way from the entry reads or ends after this. `found` may hold anything: it serves as memory. The error is want of
/// memory.
fn refuses(
    found: &mut Vec<usize>,
    states: &[State],
    entry: usize,
    before: Before,
) -> Result<bool, AllocError>
    ensures { IfOk result (λ none. none ≡ true → (c : ℕ) → IsMeant before.entry.character c
        → CannotBeginAfter before.entry.unicode before.entry.matchers.now states.now entry c) }
{
    found.clear();
    found.push(entry)?;
    for next in 0..MOST_STATES {
        if next >= found.len() {
            return Ok(true);
        }
        let number = found[next];
        if number >= states.len() {
            return Ok(false);
        }
        let only_leads_on = add_successors(found, states[number], before)?;
        if !only_leads_on {
            return Ok(false);
        }
    }
    Ok(false)
}

/// Adds the numbers of the states that this one leads to after this. True only where it neither reads nor is final, but leads on. The
/// error is want of memory.
fn add_successors(found: &mut Vec<usize>, state: State, before: Before) -> Result<bool, AllocError>
    ensures extends { OnOk result (Extends found.old.items found.new.items) }
    ensures leads_on { IfOk result (λ only. only ≡ true → OnlyLeadsOn state) }
    ensures successors { IfOk result (λ only. only ≡ true → (c p : ℕ) → IsMeant before.entry.character c
        → LeadsAfter before.entry.unicode before.entry.matchers.now c state p → Contains found.new.items p) }
{
    match state {
        State::Read { .. } | State::Back { .. } | State::Match => Ok(false),
        State::Look { test, next } => {
            if may_hold(test, before) {
                add_number(found, next)?;
            }
            Ok(true)
        }
        State::Enter { next, .. } | State::Leave { next, .. } | State::Ask { next, .. } => {
            add_number(found, next)?;
            Ok(true)
        }
        State::Atomic { part, .. } => {
            add_number(found, part)?;
            Ok(true)
        }
        State::Split { first, second } => {
            add_number(found, first)?;
            add_number(found, second)?;
            Ok(true)
        }
    }
}

/// Whether the assertion may hold after this.
fn may_hold(test: Test, before: Before) -> bool
    ensures { result ≡ false → (c : ℕ) → IsMeant before.entry.character c
        → may_pass before.entry.unicode before.entry.matchers.now test c ≡ false }
{
    match test {
        Test::StartText => false,
        Test::StartLine { crlf } => may_end_line(crlf, before.character),
        Test::LookBehind(leaf) => may_match(leaf, before),
        Test::LookBehindNeg(leaf) => may_not_match(leaf, before),
        _ => true,
    }
}

/// Whether this may end a line.
fn may_end_line(crlf: bool, character: Option<char>) -> bool
    ensures { result ≡ false → (c : ℕ) → IsMeant character c → (c == 10 || (crlf && c == 13)) ≡ false }
{
    match character {
        Some(c) => ends_line(crlf, c),
        None => false,
    }
}

/// Whether the character ends a line, perhaps with one after it.
fn ends_line(crlf: bool, c: char) -> bool
    ensures { result ≡ (c == 10 || (crlf && c == 13)) }
{
    c == '\n' || (crlf && c == '\r')
}

/// Whether the leaf may match this.
fn may_match(leaf: Leaf, before: Before) -> bool
    ensures { result ≡ false → (c : ℕ) → IsMeant before.entry.character c
        → leaf_matches_char before.entry.unicode before.entry.matchers.now leaf c ≡ false }
{
    match before.character {
        Some(c) => leaf_matches(before.matchers, before.unicode, leaf, c),
        None => !is_ascii_leaf(before.matchers, before.unicode, leaf),
    }
}

/// Whether the leaf may not match this.
fn may_not_match(leaf: Leaf, before: Before) -> bool
    ensures { result ≡ false → (c : ℕ) → IsMeant before.entry.character c
        → not (leaf_matches_char before.entry.unicode before.entry.matchers.now leaf c) ≡ false }
{
    match before.character {
        Some(c) => !leaf_matches(before.matchers, before.unicode, leaf, c),
        None => true,
    }
}
