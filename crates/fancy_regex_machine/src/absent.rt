//! The instructions of absent repeaters, `(?~body)`: they find how far the text goes without a match of the body.

ghost use Rattle.std.specs.Prelude.{◌+◌, ◌^◌, ◌<◌, length, Some, IfOk, slice_index};
ghost use Rattle.fancy_regex_program.specs.Machine.{by_limit, begun, looked, looks, scans, offers};
ghost use Rattle.fancy_regex_program.specs.Ops.{part_of};
ghost use Rattle.fancy_regex_prefilter.specs.RunContexts.{setting_of_run};
ghost use Rattle.fancy_regex_loops.specs.Steps.{IsNotStuck};
ghost use Rattle.fancy_regex_loops.specs.Threads.{current, Makes, KeepsSlotCount};
ghost use Rattle.fancy_regex_machine.specs.Moves.{move_of, MakesPart, IsRunnable};

use fancy_regex_loops::step_outcome::StepOutcome;
use fancy_regex_loops::thread::CurrentThread;
use fancy_regex_prefilter::cursor::Cursor;
use fancy_regex_prefilter::matching::{match_any, position_before};
use fancy_regex_prefilter::run_context::RunContext;
use fancy_regex_program::AbsentRepeater;
use fancy_regex_slots::slots::{Slots, UNSET};
use std::alloc::AllocError;

/// Executes one instruction of an absent repeater; `bound` is the lowest end of a body match so far. The error is want of
/// memory.
pub(crate) fn step_absent_repeater(
    part: AbsentRepeater,
    run: &RunContext<'_>,
    thread: &mut CurrentThread,
    bound: &mut usize,
) -> Result<StepOutcome, AllocError>
    requires pc { thread.old.cursor.pc + 2 < 2 ^ 64 }
    requires runnable { IsRunnable (part_of part) thread.old }
    ensures told { IfOk result (λ next. IsNotStuck (move_of run.now (Some (part_of part)) thread.old)
        → MakesPart (move_of run.now (Some (part_of part)) thread.old) thread.old next thread.new bound.old bound.new) }
    ensures slots { IfOk result (λ _. KeepsSlotCount thread.old.slots thread.new.slots) }
{
    match part {
        AbsentRepeater::Begin { start, limit } => begin(start, limit, thread, bound),
        AbsentRepeater::Scan { limit, end } => scan(limit, end, run, thread, bound),
        AbsentRepeater::Limit { limit: _ } => {
            *bound = (*bound).min(thread.cursor.position);
            Ok(StepOutcome::Fail)
        }
        AbsentRepeater::End { start, limit } => offer_end(start, limit, run, thread),
    }
}

/// Begins an absent repeater: runs the body here, and later at the next offsets. The outer limit is saved to a slot.
fn begin(
    start: usize,
    limit: usize,
    thread: &mut CurrentThread,
    bound: &mut usize,
) -> Result<StepOutcome, AllocError>
    requires pc { thread.old.cursor.pc + 2 < 2 ^ 64 }
    requires start { start < length thread.old.slots.slots }
    requires limit { limit < length thread.old.slots.slots }
    ensures told { IfOk result (λ next. MakesPart (by_limit (begun start limit (current thread.old)))
        thread.old next thread.new bound.old bound.new) }
    ensures slots { IfOk result (λ _. KeepsSlotCount thread.old.slots thread.new.slots) }
{
    thread.slots.save(start, thread.cursor.position)?;
    thread.slots.save(limit, *bound)?;
    thread
        .slots
        .push(thread.cursor.pc + 1, thread.cursor.position)?;
    thread.cursor.pc += 2;
    *bound = UNSET;
    Ok(StepOutcome::Go)
}

/// Moves the scan for body matches to the next character, or ends it at the end of the text.
fn scan(
    limit: usize,
    end: usize,
    run: &RunContext<'_>,
    thread: &mut CurrentThread,
    bound: &mut usize,
) -> Result<StepOutcome, AllocError>
    requires pc { thread.old.cursor.pc + 2 < 2 ^ 64 }
    requires slot { limit < length thread.old.slots.slots }
    ensures told { IfOk result (λ next. MakesPart (scans (setting_of_run run.now) end limit (current thread.old))
        thread.old next thread.new bound.old bound.new) }
    ensures slots { IfOk result (λ _. KeepsSlotCount thread.old.slots thread.new.slots) }
{
    match match_any(run, true, false, thread.cursor.position) {
        Some(next) => look(next, limit, end, thread, bound),
        None => end_scan(limit, end, thread, bound),
    }
}

/// Runs the body at the offset `next`, and later further on, unless `next` is at or past the limit.
fn look(
    next: usize,
    limit: usize,
    end: usize,
    thread: &mut CurrentThread,
    bound: &mut usize,
) -> Result<StepOutcome, AllocError>
    requires pc { thread.old.cursor.pc + 2 < 2 ^ 64 }
    requires slot { limit < length thread.old.slots.slots }
    ensures told { IfOk result (λ then. MakesPart (by_limit (looks end limit (current thread.old) next))
        thread.old then thread.new bound.old bound.new) }
    ensures slots { IfOk result (λ _. KeepsSlotCount thread.old.slots thread.new.slots) }
{
    if *bound <= next {
        return end_scan(limit, end, thread, bound);
    }
    thread.slots.push(thread.cursor.pc, next)?;
    thread.cursor.pc += 1;
    thread.cursor.position = next;
    Ok(StepOutcome::Go)
}

/// Ends the scan: saves the limit to the slot and restores the outer limit from it.
fn end_scan(
    limit: usize,
    end: usize,
    thread: &mut CurrentThread,
    bound: &mut usize,
) -> Result<StepOutcome, AllocError>
    requires slot { limit < length thread.old.slots.slots }
    ensures told { IfOk result (λ next. MakesPart (by_limit (looked end limit (current thread.old)))
        thread.old next thread.new bound.old bound.new) }
    ensures slots { IfOk result (λ _. KeepsSlotCount thread.old.slots thread.new.slots) }
{
    let outer = thread.slots.get(limit);
    thread.slots.save(limit, *bound)?;
    *bound = outer;
    thread.cursor.pc = end;
    Ok(StepOutcome::Go)
}

/// Ends the absent repeater here if this is before the limit, and later one character earlier, down to its start.
fn offer_end(
    start: usize,
    limit: usize,
    run: &RunContext<'_>,
    thread: &mut CurrentThread,
) -> Result<StepOutcome, AllocError>
    requires pc { thread.old.cursor.pc + 2 < 2 ^ 64 }
    requires start { start < length thread.old.slots.slots }
    requires limit { limit < length thread.old.slots.slots }
    ensures told { IfOk result (λ next. Makes
        (offers (setting_of_run run.now) (slice_index thread.old.slots.slots start)
        (slice_index thread.old.slots.slots limit) (current thread.old))
        thread.old next thread.new) }
    ensures slots { IfOk result (λ _. KeepsSlotCount thread.old.slots thread.new.slots) }
{
    let before = if thread.slots.get(start) < thread.cursor.position {
        position_before(run.text, 1, thread.cursor.position)
    } else {
        None
    };
    if thread.cursor.position < thread.slots.get(limit) {
        if let Some(earlier) = before {
            thread.slots.push(thread.cursor.pc, earlier)?;
        }
        thread.cursor.pc += 1;
        return Ok(StepOutcome::Go);
    }
    match before {
        Some(earlier) => {
            thread.cursor.position = earlier;
            Ok(StepOutcome::Go)
        }
        None => Ok(StepOutcome::Fail),
    }
}
