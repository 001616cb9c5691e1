//! What calls of groups do with the current thread: they enter a body, and come back from it.

ghost use Rattle.std.specs.Prelude.{◌≡◌, ◌+◌, ◌^◌, ◌<◌, ◌≤◌, ◌==◌, length, slice_index, IfOk, OnOk, if◌then◌else◌};
ghost use Rattle.fancy_regex_slots.specs.Memory.{Memory};
ghost use Rattle.fancy_regex_program.specs.Machine as machine;
ghost use Rattle.fancy_regex_program.specs.Machine.{with_place, enters, comes_back, copied};
ghost use Rattle.fancy_regex_program.specs.Ops.{place_of};
ghost use Rattle.fancy_regex_program.specs.ValidPrograms.{HasPlace};
ghost use Rattle.fancy_regex_loops.specs.Steps.{IsNotStuck};
ghost use Rattle.fancy_regex_loops.specs.Threads.{current, Makes, KeepsSlotCount};

use fancy_regex_loops::step_outcome::StepOutcome;
use fancy_regex_loops::thread::CurrentThread;
use fancy_regex_program::Callee;
use fancy_regex_slots::slots::{Slots, UNSET};
use std::alloc::AllocError;

/// Enters the body of a called group: writes the next instruction to the frame of the call and, where the group is open already, copies
/// the group's own slots there. Fails where as many calls are open as may be. The error is want of memory.
#[inline(never)]
pub(crate) fn enter(callee: &Callee, thread: &mut CurrentThread) -> Result<StepOutcome, AllocError>
    requires pc { thread.old.cursor.pc + 1 < 2 ^ 64 }
    requires place { HasPlace (length thread.old.slots.slots) (place_of callee.now) }
    ensures told { IfOk result (λ next. Makes
        (with_place (place_of callee.now) (current thread.old)
        (enters (place_of callee.now) (machine.open_calls (slice_index thread.old.slots.slots callee.now.count)) (current thread.old)))
        thread.old next thread.new) }
    ensures slots { IfOk result (λ _. KeepsSlotCount thread.old.slots thread.new.slots) }
{
    let depth = open_calls(thread.slots.get(callee.count));
    if depth >= callee.most {
        return Ok(StepOutcome::Fail);
    }
    let frame = frame_of(callee, depth, thread.slots.count());
    thread.slots.save(frame, thread.cursor.pc + 1)?;
    copy_if_open(
        &mut thread.slots,
        depth,
        callee.first,
        frame + 1,
        callee.own,
    )?;
    thread.slots.save(callee.count, depth + 1)?;
    thread.cursor.pc = callee.start;
    Ok(StepOutcome::Go)
}

/// Comes back after the call of the group that was entered last: takes the instruction to go on with from the frame of the call and,
/// where the group stays open, copies the group's own slots back. The error is want of memory.
#[inline(never)]
pub(crate) fn come_back(
    callee: &Callee,
    thread: &mut CurrentThread,
) -> Result<StepOutcome, AllocError>
    requires place { HasPlace (length thread.old.slots.slots) (place_of callee.now) }
    ensures told { IfOk result (λ next. IsNotStuck (with_place (place_of callee.now) (current thread.old)
        (comes_back (place_of callee.now) (machine.open_calls (slice_index thread.old.slots.slots callee.now.count)) (current thread.old)))
        → Makes (with_place (place_of callee.now) (current thread.old)
        (comes_back (place_of callee.now) (machine.open_calls (slice_index thread.old.slots.slots callee.now.count)) (current thread.old)))
        thread.old next thread.new) }
    ensures slots { IfOk result (λ _. KeepsSlotCount thread.old.slots thread.new.slots) }
{
    let open = open_calls(thread.slots.get(callee.count));
    if open == 0 || open > callee.most {
        return Ok(StepOutcome::Fail);
    }
    let depth = open - 1;
    let frame = frame_of(callee, depth, thread.slots.count());
    let next = thread.slots.get(frame);
    thread.slots.save(callee.count, depth)?;
    copy_if_open(
        &mut thread.slots,
        depth,
        frame + 1,
        callee.first,
        callee.own,
    )?;
    thread.cursor.pc = next;
    Ok(StepOutcome::Go)
}

/// How many calls of a group are open, by its slot that counts them.
fn open_calls(count: usize) -> usize
    ensures { result ≡ machine.open_calls count }
{
    if count == UNSET { 0 } else { count }
}

/// The first slot of the frame of a call with so many open calls below it. The frame is among so many slots.
fn frame_of(callee: &Callee, depth: usize, slots: usize) -> usize
    requires depth { depth < callee.now.most }
    requires place { HasPlace slots (place_of callee.now) }
    ensures first { result ≡ machine.frame_of (place_of callee.now) depth }
    ensures inside { result + callee.now.own + 1 ≤ slots }
{
    callee.frames + depth * (callee.own + 1)
}

/// Copies so many slots, unless no call is open. The error is want of memory.
#[inline(always)]
fn copy_if_open(
    slots: &mut Slots,
    depth: usize,
    from: usize,
    to: usize,
    count: usize,
) -> Result<(), AllocError>
    requires from { from + count ≤ length slots.old.slots }
    requires to { to + count ≤ length slots.old.slots }
    ensures value { OnOk result (slots.new
        ≡ record { slots = if depth == 0 then slots.old.slots else copied from to count slots.old.slots; stack = slots.old.stack }) }
    ensures length { OnOk result (length slots.new.slots ≡ length slots.old.slots) }
    ensures slots { OnOk result (KeepsSlotCount slots.old slots.new) }
{
    if depth == 0 {
        return Ok(());
    }
    copy_slots(slots, from, to, count)?;
    Ok(())
}

/// Copies so many slots, one after another. The error is want of memory.
fn copy_slots(slots: &mut Slots, from: usize, to: usize, count: usize) -> Result<(), AllocError>
    requires from { from + count ≤ length slots.old.slots }
    requires to { to + count ≤ length slots.old.slots }
    ensures { OnOk result (slots.new ≡ record { slots = copied from to count slots.old.slots; stack = slots.old.stack }) }
{
    let size = slots.count();
    prove!(from + count <= size && to + count <= size);
    for index in 0..count {
        let value = slots.get(from + index);
        slots.save(to + index, value)?;
    }
    Ok(())
}
