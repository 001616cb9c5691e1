//! The memory that searches share.

ghost use Rattle.std.specs.Prelude.{◌≡◌, ◌-◌, ◌*◌, ◌^◌, true, Some, vec_len, replicate, IfOk, OnOk};
ghost use Rattle.fancy_regex_linear.specs.Attempt.{better_spot};
ghost use Rattle.fancy_regex_linear.specs.Search.{end_spot};

use crate::backtrack::{BacktrackState, unset};
use crate::visited::Visited;
use std::alloc::{AllocError, Global};
use std::mem;

/// The memory of earlier searches, used again by later ones. What it holds has no effect on any answer, also after a search
/// that ran out of memory, and it is as good for any pattern and any text. It keeps the most memory that a search has needed
/// until it is dropped.
pub struct SearchMemory {
    /// The pairs of a state and a byte offset that were tried.
    pub(crate) visited: Visited,
    /// The frames to go back to, and the slots of the way that is tried.
    pub(crate) backtrack: BacktrackState,
    /// The slots of the farthest way so far.
    pub(crate) farthest: Vec<usize>,
    /// The memory of an answer that was given back.
    pub(crate) answer: Vec<usize>,
}

// Written, not derived: so a crate in which such a value may be dropped uses this proof, and has none to make of each type inside.
impl Drop for SearchMemory {
    fn drop(self) {
        let SearchMemory {
            visited: _visited,
            backtrack: _backtrack,
            farthest: _farthest,
            answer: _answer,
        } = self;
    }
}

impl SearchMemory {
    /// The memory of no search so far. It allocates nothing.
    pub fn new(alloc: Global) -> SearchMemory {
        SearchMemory {
            visited: Visited::new(alloc),
            backtrack: BacktrackState::new(alloc),
            farthest: Vec::new(alloc),
            answer: Vec::new(alloc),
        }
    }

    /// Takes an answer of an earlier search back: its memory serves the answer of a later one.
    pub fn give_back(&mut self, answer: Vec<usize>) {
        self.answer = answer;
    }

    /// The slots of the way that was found, which are gone then; an answer that was given back serves in their place, if it has
    /// the room, and else they are copied. The error is want of memory.
    pub(crate) fn take_answer(&mut self, alloc: Global) -> Result<Vec<usize>, AllocError>
        ensures value { IfOk result (λ answer. answer.items ≡ self.old.backtrack.slots.items) }
    {
        let mut answer = mem::replace(&mut self.answer, Vec::new(alloc));
        if answer.capacity() >= self.backtrack.slots.len() {
            return Ok(mem::replace(&mut self.backtrack.slots, answer));
        }
        answer.clear();
        answer.extend_from_slice(&self.backtrack.slots)?;
        Ok(answer)
    }

    /// Begins a search over `count` states and the byte offsets from `base` on, of a pattern with so many groups: nothing is
    /// visited, there are no frames, all slots are unset, and there are as many of the farthest way. The error is want of memory.
    pub(crate) fn restart(
        &mut self,
        count: usize,
        base: usize,
        groups: usize,
    ) -> Result<(), AllocError>
        ensures visited { OnOk result ((self.new.visited.count ≡ count) × (self.new.visited.base ≡ base) × (self.new.visited.rows ≡ 0)) }
        ensures stack { OnOk result (vec_len self.new.backtrack.stack ≡ 0) }
        ensures slots { OnOk result (self.new.backtrack.slots.items ≡ replicate (2 * groups) (2 ^ 64 - 1)) }
        ensures farthest { OnOk result (vec_len self.new.farthest ≡ 2 * groups) }
    {
        self.visited.restart(count, base);
        self.backtrack.restart(groups)?;
        if self.farthest.len() != self.backtrack.slots.len() {
            unset(&mut self.farthest, groups)?;
        }
        Ok(())
    }

    /// Stores the slots of the way that is tried, which ends at `at`, as the farthest if it is longer than the best so far;
    /// returns the best end.
    pub(crate) fn store_farther(&mut self, best: Option<usize>, at: usize) -> Option<usize>
        requires { vec_len self.old.farthest ≡ vec_len self.old.backtrack.slots }
        ensures best { end_spot result self.new.farthest.items
            ≡ better_spot true (end_spot best self.old.farthest.items) (end_spot (Some at) self.old.backtrack.slots.items) }
        ensures len { vec_len self.new.farthest ≡ vec_len self.old.farthest }
        ensures visited { self.new.visited ≡ self.old.visited }
        ensures backtrack { self.new.backtrack ≡ self.old.backtrack }
    {
        match best {
            Some(end) if at <= end => best,
            _ => {
                self.farthest.copy_from_slice(&self.backtrack.slots);
                Some(at)
            }
        }
    }

    /// Takes the slots of the farthest way.
    pub(crate) fn load_farthest(&mut self)
        requires { vec_len self.old.farthest ≡ vec_len self.old.backtrack.slots }
        ensures slots { self.new.backtrack.slots.items ≡ self.old.farthest.items }
        ensures len { vec_len self.new.backtrack.slots ≡ vec_len self.old.backtrack.slots }
        ensures stack { self.new.backtrack.stack ≡ self.old.backtrack.stack }
        ensures farthest { self.new.farthest ≡ self.old.farthest }
        ensures visited { self.new.visited ≡ self.old.visited }
    {
        self.backtrack.slots.copy_from_slice(&self.farthest);
    }
}
