//! The states that are reached from others without reading.

ghost use Rattle.std.specs.Prelude.{◌≡◌, ◌++◌, ◌∷◌, ◌⊎◌, ℕ, true, false, [], reverse, if◌then◌else◌, IfOk, IfSome, OnOk};
ghost use Rattle.fancy_regex_table.specs.Meanings.{IsClosing, epsilon_successors, is_reader, is_final};

use crate::sort::{Sort, holds};
use fancy_regex_states::State;
use std::alloc::{AllocError, Global};

/// A set of states.
#[derive(Drop)]
struct StateSet {
    marks: Vec<bool>,
}

impl StateSet {
    ghost use Rattle.fancy_regex_table.specs.Sets.{Has};

    /// The empty set, for states below `count`. The error is want of memory.
    fn new(alloc: Global, count: usize) -> Result<StateSet, AllocError>
        ensures { IfOk result (λ set. (q : ℕ) → Has set q → ⊥) }
    {
        Ok(StateSet {
            marks: vec![in alloc; false; count]?,
        })
    }

    /// Adds a state; returns whether it was not there. One that is not below the count is never there.
    fn insert(&mut self, state: usize) -> bool
        ensures old { result ≡ false → Has self.old state }
        ensures added { (q : ℕ) → Has self.new q → Has self.old q ⊎ (q ≡ state) }
    {
        if state >= self.marks.len() {
            return true;
        }
        let is_new = !self.marks[state];
        self.marks[state] = true;
        is_new
    }
}

/// What states lead to without reading.
#[derive(Drop)]
pub struct Closed {
    /// The states that read, in the order of preference, up to the first way that ends here.
    pub reads: Vec<usize>,
    /// Whether a way ends here.
    pub is_end: bool,
}

/// What these states lead to without reading, between characters of these sorts; `None` where that is too much work: `steps` are as
/// many as may be taken, and fall by those that were. The error is want of memory.
pub fn close(
    alloc: Global,
    states: &[State],
    from: &[usize],
    before: Sort,
    after: Sort,
    steps: &mut usize,
) -> Result<Option<Closed>, AllocError>
    ensures { IfOk result (λ found. IfSome found (IsClosing states.now before after from.now)) }
{
    let mut seen = StateSet::new(alloc, states.len())?;
    let mut stack = reversed(alloc, from)?;
    let mut reads = Vec::new(alloc);
    'states: for _ in 0..*steps {
        *steps = steps.saturating_sub(1);
        let Some(id) = stack.pop() else {
            return Ok(Some(Closed {
                reads,
                is_end: false,
            }));
        };
        if id >= states.len() {
            return Ok(None);
        }
        if !seen.insert(id) {
            continue;
        }
        if follow(states[id], id, before, after, &mut stack, &mut reads)? {
            return Ok(Some(Closed {
                reads,
                is_end: true,
            }));
        }
    }
    Ok(None)
}

/// The states, the last one first. The error is want of memory.
fn reversed(alloc: Global, states: &[usize]) -> Result<Vec<usize>, AllocError>
    ensures { IfOk result (λ list. list.items ≡ reverse states.now) }
{
    let mut list = Vec::new(alloc);
    list.extend_from_slice(states)?;
    list.reverse();
    Ok(list)
}

/// Adds the state `id` to those that read, or what it leads to to the stack; returns whether it is the final state. The error is
/// want of memory.
fn follow(
    state: State,
    id: usize,
    before: Sort,
    after: Sort,
    stack: &mut Vec<usize>,
    reads: &mut Vec<usize>,
) -> Result<bool, AllocError>
    ensures is_final { IfOk result (λ ends. ends ≡ is_final state) }
    ensures stack { OnOk result (reverse stack.new.items ≡ epsilon_successors before after state ++ reverse stack.old.items) }
    ensures reads { OnOk result (reads.new.items ≡ (if is_reader state then reads.old.items ++ id ∷ [] else reads.old.items)) }
{
    match state {
        State::Read { .. } => {
            reads.push(id)?;
            Ok(false)
        }
        State::Look { test, next } => {
            if holds(test, before, after) {
                stack.push(next)?;
            }
            Ok(false)
        }
        State::Split { first, second } => {
            stack.push(second)?;
            stack.push(first)?;
            Ok(false)
        }
        State::Enter { next, .. } | State::Leave { next, .. } => {
            stack.push(next)?;
            Ok(false)
        }
        State::Match => Ok(true),
        // No state of an easy pattern asks a part or steps back.
        State::Ask { .. } | State::Atomic { .. } | State::Back { .. } => Ok(false),
    }
}
