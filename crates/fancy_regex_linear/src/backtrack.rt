//! The backtrack stack and the slots of the capture groups.

ghost use Rattle.std.specs.Prelude.{◌≡◌, ℕ, List, ◌∷◌, ◌<◌, ◌≤◌, ◌+◌, ◌-◌, ◌*◌, ◌^◌, replicate, vec_len, IfSome, IfNone, IfOk, OnOk, slice_set, slice_index, length};
ghost use Rattle.std.specs.Bool.{MatchBool};
ghost use Rattle.fancy_regex_linear.specs.Search.{top_first, put_back, resume_result};
ghost use Rattle.fancy_regex_linear.specs.declared.frame.Frame.TheVariants.{Explore, Restore};

use crate::frame::Frame;
use std::alloc::{AllocError, Global};

/// The backtrack stack, and two slots for each capture group: the start of group k in slot 2k, its end in slot 2k + 1.
#[derive(Drop)]
pub struct BacktrackState {
    /// The frames, the next one last.
    pub stack: Vec<Frame>,
    /// Byte offsets, `usize::MAX` for an unset slot.
    pub slots: Vec<usize>,
}

impl BacktrackState {
    /// No frames and no slots. It allocates nothing.
    pub fn new(alloc: Global) -> BacktrackState {
        BacktrackState {
            stack: Vec::new(alloc),
            slots: Vec::new(alloc),
        }
    }

    /// Begins anew with no frames, and two unset slots for each group. The memory of both is kept. The error is want of memory.
    pub fn restart(&mut self, groups: usize) -> Result<(), AllocError>
        ensures stack { OnOk result (vec_len self.new.stack ≡ 0) }
        ensures slots { OnOk result (self.new.slots.items ≡ replicate (2 * groups) (2 ^ 64 - 1)) }
    {
        self.stack.clear();
        unset(&mut self.slots, groups)
    }

    /// Pops frames, undoing writes, up to the next pair to explore, and returns its state and byte offset; `None` if the
    /// stack is empty.
    #[inline(always)]
    pub fn pop_explore(&mut self) -> Option<(usize, usize)>
        ensures popped { resume_result (top_first self.old.stack.items) self.old.slots.items
            ≡ (put_back result (top_first self.new.stack.items), self.new.slots.items) }
        ensures shorter { IfSome result (λ _. vec_len self.new.stack < vec_len self.old.stack) }
        ensures empty { IfNone result (vec_len self.new.stack ≡ 0) }
        ensures slots { vec_len self.new.slots ≡ vec_len self.old.slots }
    {
        while let Some(frame) = self.stack.pop() {
            match frame {
                Frame::Explore { state, at } => return Some((state, at)),
                Frame::Restore { slot, old } => {
                    if slot < self.slots.len() {
                        self.slots[slot] = old;
                    }
                }
            }
        }
        None
    }

    /// Pushes a pair to explore later. The error is want of memory.
    #[inline(always)]
    pub fn push_explore(&mut self, state: usize, at: usize) -> Result<(), AllocError>
        ensures pushed { OnOk result (top_first self.new.stack.items ≡ Explore state at ∷ top_first self.old.stack.items) }
        ensures len { OnOk result (vec_len self.new.stack ≡ vec_len self.old.stack + 1) }
        ensures slots { self.new.slots ≡ self.old.slots }
    {
        self.stack.push(Frame::Explore { state, at })?;
        Ok(())
    }

    /// Writes to a slot and pushes its old value; returns whether the slot exists. The error is want of memory.
    #[inline(always)]
    pub fn write(&mut self, slot: usize, at: usize) -> Result<bool, AllocError>
        ensures pushed { IfOk result (λ written. MatchBool written
            (top_first self.new.stack.items ≡ Restore slot (slice_index self.old.slots.items slot) ∷ top_first self.old.stack.items)
            (top_first self.new.stack.items ≡ top_first self.old.stack.items)) }
        ensures written { OnOk result (self.new.slots.items ≡ slice_set self.old.slots.items slot at) }
        ensures small { IfOk result (λ written.
            MatchBool written (slot < length self.old.slots.items) (length self.old.slots.items ≤ slot)) }
        ensures len { OnOk result (vec_len self.new.stack ≤ vec_len self.old.stack + 1) }
        ensures slots { vec_len self.new.slots ≡ vec_len self.old.slots }
    {
        if slot >= self.slots.len() {
            return Ok(false);
        }
        self.stack.push(Frame::Restore {
            slot,
            old: self.slots[slot],
        })?;
        self.slots[slot] = at;
        Ok(true)
    }
}

/// Makes these two unset slots for each group. The error is want of memory.
pub fn unset(slots: &mut Vec<usize>, groups: usize) -> Result<(), AllocError>
    ensures { OnOk result (slots.new.items ≡ replicate (2 * groups) (2 ^ 64 - 1)) }
{
    slots.clear();
    slots.resize(groups.saturating_mul(2), usize::MAX)?;
    Ok(())
}
