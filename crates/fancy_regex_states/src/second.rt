//! The characters that a match can have second.

ghost use Rattle.std.specs.Prelude.{◌≡◌, ◌<◌, ℕ, true, false, List, IfOk, IfSome, OnOk, Some, slice_index_or};
ghost use Rattle.fancy_regex_states.specs.First.{IsTableOf, CannotBegin, CannotGoOn, HasNoNewMarks, RefusesSecond};

use crate::first::{FirstChars, reached};
use crate::state::State;
use fancy_regex_class::CharClassMatcher;
use std::alloc::{AllocError, Global};

/// The most states that may read the first character; a pattern with more has no table.
const MOST_READERS: usize = 16;

/// For each ASCII character whether no match that begins at the entry, anywhere but at the start of the text, has it second, and
/// none ends after its first character; `None` where that is not known. The error is want of memory.
pub fn refused_second(
    alloc: Global,
    states: &[State],
    entry: usize,
    matchers: &[CharClassMatcher],
    unicode: bool,
) -> Result<Option<[bool; 128]>, AllocError>
    ensures { IfOk result (λ made. IfSome made (RefusesSecond unicode matchers.now states.now entry)) }
{
    let Some(reached) = reached(alloc, states, entry)? else {
        return Ok(None);
    };
    if reached.len() > MOST_READERS {
        return Ok(None);
    }
    let mut refused = [true; 128];
    for i in 0..reached.len() {
        let number = reached[i];
        if number >= states.len()
            || !refuse_after(
                alloc,
                &mut refused,
                states,
                states[number],
                matchers,
                unicode,
            )?
        {
            return Ok(None);
        }
    }
    Ok(Some(refused))
}

/// Takes away the marks of those that a way may go on with after this state, if it reads; returns whether they are known, and the
/// state is not final. The error is want of memory.
fn refuse_after(
    alloc: Global,
    refused: &mut [bool; 128],
    states: &[State],
    state: State,
    matchers: &[CharClassMatcher],
    unicode: bool,
) -> Result<bool, AllocError>
    ensures no_new { OnOk result (HasNoNewMarks refused.old refused.new) }
    ensures second { IfOk result (λ known. known ≡ true → (c : ℕ) → c < 128 → slice_index_or refused.new c false ≡ true
        → CannotGoOn unicode matchers.now states.now (Some c) state) }
{
    match state {
        State::Read { next, .. } => {
            match FirstChars::of_one(alloc, states, next, matchers, unicode)? {
                Some(first) => {
                    retain_refused(refused, &first, matchers, unicode);
                    Ok(true)
                }
                None => Ok(false),
            }
        }
        State::Look { .. }
        | State::Split { .. }
        | State::Enter { .. }
        | State::Leave { .. }
        | State::Ask { .. }
        | State::Atomic { .. } => Ok(true),
        State::Back { .. } | State::Match => Ok(false),
    }
}

/// Takes away the marks of those that the table does not refuse.
fn retain_refused(
    refused: &mut [bool; 128],
    first: &FirstChars,
    matchers: &[CharClassMatcher],
    unicode: bool,
)
    ensures no_new { HasNoNewMarks refused.old refused.new }
    ensures refused { (c : ℕ) → c < 128 → slice_index_or refused.new c false ≡ true → (states : List State) (entry : ℕ)
        → IsTableOf unicode matchers.now states entry first.now → CannotBegin unicode matchers.now states entry (Some c) }
{
    for code in 0..128u8 {
        let is_refused = first.refuses(matchers, unicode, Some(code as char));
        refused[code as usize] = refused[code as usize] & is_refused;
    }
}
