//! The verifier of programs: whether each slot and each instruction that the instructions name is there.

ghost use Rattle.std.specs.Prelude.{◌≡◌, ◌<◌, ◌≤◌, ◌+◌, ◌-◌, ◌*◌, true, length, slice_get, Some};
ghost use Rattle.fancy_regex_program.specs.Ops.{op_of, ops_of, part_of, place_of};
ghost use Rattle.fancy_regex_program.specs.ValidPrograms.{HasSlots, HasPlace, CountsPastLeast, LeadsInside, IsValidOp, AreValidOps, IsValidProgram, is_finish};

use crate::insn::{AbsentRepeater, Callee, Insn};

/// Whether the instructions are a valid program for runs with so many slots: each slot that one of them names is there, and so is
/// each instruction that it leads to, but for a return, which leads to what a slot holds then; each unbounded repeat can count past
/// its least count; and the last instruction is `End`.
pub fn is_valid_program(body: &[Insn], slots: usize) -> bool
    ensures valid { result ≡ true → IsValidProgram (ops_of body.now) slots }
    ensures complete { IsValidProgram (ops_of body.now) slots → result ≡ true }
{
    ends_with_end(body) && are_valid(body, slots)
}

/// Whether the last instruction is `End`.
fn ends_with_end(body: &[Insn]) -> bool
    ensures { result ≡ is_finish (slice_get (ops_of body.now) (length body.now - 1)) }
{
    match body.last() {
        Some(insn) => is_end(insn),
        None => false,
    }
}

/// Whether the instruction is `End`.
fn is_end(insn: &Insn) -> bool
    ensures { result ≡ is_finish (Some (op_of insn.now)) }
{
    matches!(insn, Insn::End)
}

/// Whether all instructions are valid in a program of these instructions and of so many slots.
fn are_valid(body: &[Insn], slots: usize) -> bool
    ensures valid { result ≡ true → AreValidOps (ops_of body.now) slots }
    ensures complete { AreValidOps (ops_of body.now) slots → result ≡ true }
{
    for pc in 0..body.len() {
        if !is_valid(&body[pc], body.len(), slots, pc) {
            return false;
        }
    }
    true
}

/// Whether the instruction at the index `pc` is valid in a program of so many instructions and slots.
fn is_valid(insn: &Insn, size: usize, slots: usize, pc: usize) -> bool
    requires { pc < size }
    ensures valid { result ≡ true → IsValidOp size slots pc (op_of insn.now) }
    ensures complete { IsValidOp size slots pc (op_of insn.now) → result ≡ true }
{
    has_slots(insn, slots) && leads_inside(insn, size, pc)
}

/// Whether the slots that the instruction names are among so many, and what it counts fits its slot.
fn has_slots(insn: &Insn, slots: usize) -> bool
    ensures valid { result ≡ true → HasSlots slots (op_of insn.now) × CountsPastLeast (op_of insn.now) }
    ensures complete { HasSlots slots (op_of insn.now) → CountsPastLeast (op_of insn.now) → result ≡ true }
{
    match insn {
        Insn::Save(slot)
        | Insn::Restore(slot)
        | Insn::BeginRepeat(slot)
        | Insn::FailNegativeLookAround(slot)
        | Insn::BeginAtomic(slot)
        | Insn::EndAtomic(slot)
        | Insn::BackrefExistsCondition(slot) => *slot < slots,
        Insn::Save0 => 0 < slots,
        Insn::SaveCaptureGroupStart { saved, slot } => *saved < slots && *slot < slots,
        Insn::RepeatGr(repeat) | Insn::RepeatNg(repeat) => repeat.repeat < slots,
        Insn::RepeatEpsilonGr(repeat) | Insn::RepeatEpsilonNg(repeat) => {
            repeat.lo < usize::MAX && repeat.repeat < slots && repeat.check < slots
        }
        Insn::Backref { slot, casei: _ } => *slot < slots && *slot + 1 < slots,
        Insn::AbsentRepeater(part) => has_part_slots(**part, slots),
        Insn::Call(callee) | Insn::Return(callee) => has_place(**callee, slots),
        Insn::End
        | Insn::Any
        | Insn::AnyNoNL
        | Insn::AnyNoCRLF
        | Insn::Assertion(_)
        | Insn::Lit(_)
        | Insn::LitCasei(_)
        | Insn::CharClass(_)
        | Insn::GeneralNewline { unicode: _ }
        | Insn::Split(_, _)
        | Insn::SplitUnanchored
        | Insn::Jmp(_)
        | Insn::GoBack(_)
        | Insn::ContinueFromPreviousMatchEnd
        | Insn::Fail
        | Insn::Delegate(_)
        | Insn::DelegateTail { .. } => true,
    }
}

/// The same for an absent repeater's instruction.
fn has_part_slots(part: AbsentRepeater, slots: usize) -> bool
    ensures valid { result ≡ true → HasSlots slots (part_of part) × CountsPastLeast (part_of part) }
    ensures complete { HasSlots slots (part_of part) → result ≡ true }
{
    match part {
        AbsentRepeater::Begin { start, limit } | AbsentRepeater::End { start, limit } => {
            start < slots && limit < slots
        }
        AbsentRepeater::Scan { limit, end: _ } | AbsentRepeater::Limit { limit } => limit < slots,
    }
}

/// Whether the count of a called group, its own slots and its frames are among so many slots.
fn has_place(callee: Callee, slots: usize) -> bool
    ensures valid { result ≡ true → HasPlace slots (place_of callee) }
    ensures complete { HasPlace slots (place_of callee) → result ≡ true }
{
    callee.count < slots
        && callee.first <= slots
        && callee.own <= slots - callee.first
        && callee.frames <= slots
        && has_frames(callee, slots - callee.frames)
}

/// Whether so many slots are enough for the frames of a called group.
fn has_frames(callee: Callee, room: usize) -> bool
    ensures valid { result ≡ true → callee.most * (callee.own + 1) ≤ room }
    ensures complete { callee.most * (callee.own + 1) ≤ room → result ≡ true }
{
    if callee.most == 0 {
        return true;
    }
    if callee.own >= room {
        return false;
    }
    match callee.most.checked_mul(callee.own + 1) {
        Some(needed) => needed <= room,
        None => false,
    }
}

/// Whether the instructions that the one at the index `pc` leads to are among so many.
fn leads_inside(insn: &Insn, size: usize, pc: usize) -> bool
    requires { pc < size }
    ensures valid { result ≡ true → LeadsInside size pc (op_of insn.now) }
    ensures complete { LeadsInside size pc (op_of insn.now) → result ≡ true }
{
    let has_next = pc + 1 < size;
    match insn {
        Insn::End | Insn::Fail | Insn::FailNegativeLookAround(_) => true,
        Insn::Jmp(to) => *to < size,
        Insn::Split(first, second) => *first < size && *second < size,
        Insn::DelegateTail { part: _, end } => has_next && *end < size,
        Insn::RepeatGr(repeat) | Insn::RepeatNg(repeat) => has_next && repeat.next < size,
        Insn::RepeatEpsilonGr(repeat) | Insn::RepeatEpsilonNg(repeat) => {
            has_next && repeat.next < size
        }
        Insn::AbsentRepeater(part) => part_leads_inside(**part, size, pc),
        Insn::Return(_) => true,
        Insn::Call(callee) => has_next && callee.start < size,
        Insn::Any
        | Insn::AnyNoNL
        | Insn::AnyNoCRLF
        | Insn::Assertion(_)
        | Insn::Lit(_)
        | Insn::LitCasei(_)
        | Insn::CharClass(_)
        | Insn::GeneralNewline { unicode: _ }
        | Insn::SplitUnanchored
        | Insn::Save(_)
        | Insn::Save0
        | Insn::SaveCaptureGroupStart { saved: _, slot: _ }
        | Insn::Restore(_)
        | Insn::BeginRepeat(_)
        | Insn::GoBack(_)
        | Insn::Backref { slot: _, casei: _ }
        | Insn::BeginAtomic(_)
        | Insn::EndAtomic(_)
        | Insn::ContinueFromPreviousMatchEnd
        | Insn::BackrefExistsCondition(_)
        | Insn::Delegate(_) => has_next,
    }
}

/// The same for an absent repeater's instruction.
fn part_leads_inside(part: AbsentRepeater, size: usize, pc: usize) -> bool
    requires { pc < size }
    ensures valid { result ≡ true → LeadsInside size pc (part_of part) }
    ensures complete { LeadsInside size pc (part_of part) → result ≡ true }
{
    let has_next = pc + 1 < size;
    match part {
        AbsentRepeater::Begin { start: _, limit: _ } => has_next && pc + 2 < size,
        AbsentRepeater::Scan { limit: _, end } => has_next && end < size,
        AbsentRepeater::Limit { limit: _ } => true,
        AbsentRepeater::End { start: _, limit: _ } => has_next,
    }
}
