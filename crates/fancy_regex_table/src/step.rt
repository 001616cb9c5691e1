//! The states that are reached by reading a character.

ghost use Rattle.std.specs.Prelude.{◌≡◌, ◌<◌, ℕ, IfOk, OnOk};
ghost use Rattle.regex_hir.specs.Text.{is_some_and};
ghost use Rattle.fancy_regex_states.specs.CharTests.{leaf_matches_char};
ghost use Rattle.fancy_regex_states.specs.First.{state_at};
ghost use Rattle.fancy_regex_table.specs.Meanings.{IsStep, IsStepBeside, IsAddedTo, IsNextAdded, read_next};

use fancy_regex_class::CharClassMatcher;
use fancy_regex_states::{Leaf, State, is_matched};
use std::alloc::{AllocError, Global};

/// What the states read: the matchers of their classes, and whether case and word characters follow Unicode.
#[derive(Clone, Copy)]
pub struct Reader<'p> {
    pub states: &'p [State],
    pub matchers: &'p [CharClassMatcher],
    pub unicode: bool,
}

/// Whether the leaf matches the character; `None` is the end of the text.
pub fn matches(reader: &Reader, leaf: Leaf, c: Option<char>) -> bool
    ensures { result ≡ is_some_and c (leaf_matches_char reader.now.unicode reader.now.matchers.now leaf) }
{
    is_matched(reader.matchers, reader.unicode, leaf, c)
}

/// The state that this one leads to by the character, if it reads it.
fn next_of(reader: &Reader, id: usize, c: Option<char>) -> Option<usize>
    ensures { result ≡ read_next reader.now.unicode reader.now.matchers.now c (state_at reader.now.states.now id) }
{
    if id >= reader.states.len() {
        return None;
    }
    match reader.states[id] {
        State::Read { leaf, next } if matches(reader, leaf, c) => Some(next),
        _ => None,
    }
}

/// The states that these lead to by the character, in the same order, each once. The error is want of memory.
pub fn step(
    alloc: Global,
    reader: &Reader,
    reads: &[usize],
    c: Option<char>,
) -> Result<Vec<usize>, AllocError>
    ensures { IfOk result (λ nexts. IsStep reader.now.unicode reader.now.matchers.now reader.now.states.now c reads.now nexts.items) }
{
    let mut nexts: Vec<usize> = Vec::new(alloc);
    for i in 0..reads.len() {
        add_next(next_of(reader, reads[i], c), &[], &mut nexts)?;
    }
    Ok(nexts)
}

/// The states that these lead to by the character and that are not among the others, each once. The error is want of memory.
pub fn step_beside(
    alloc: Global,
    reader: &Reader,
    reads: &[usize],
    c: Option<char>,
    others: &[usize],
) -> Result<Vec<usize>, AllocError>
    ensures { IfOk result (λ nexts.
        IsStepBeside reader.now.unicode reader.now.matchers.now reader.now.states.now c reads.now others.now nexts.items) }
{
    let mut nexts: Vec<usize> = Vec::new(alloc);
    for i in 0..reads.len() {
        add_next(next_of(reader, reads[i], c), others, &mut nexts)?;
    }
    Ok(nexts)
}

/// Adds a state to a list, if there is one, as `add_new`. The error is want of memory.
fn add_next(next: Option<usize>, others: &[usize], list: &mut Vec<usize>) -> Result<(), AllocError>
    ensures { OnOk result (IsNextAdded next others.now list.old.items list.new.items) }
{
    match next {
        Some(next) => add_new(next, others, list),
        None => Ok(()),
    }
}

/// Adds a state to a list, unless it is there or among the others. The error is want of memory.
pub fn add_new(state: usize, others: &[usize], list: &mut Vec<usize>) -> Result<(), AllocError>
    ensures { OnOk result (IsAddedTo state others.now list.old.items list.new.items) }
{
    if list.contains(&state) || others.contains(&state) {
        return Ok(());
    }
    list.push(state)?;
    Ok(())
}
