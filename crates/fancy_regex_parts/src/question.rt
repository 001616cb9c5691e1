//! Questions to parts.

ghost use Rattle.std.specs.Prelude.{◌≡◌, ◌+◌, ◌-◌, ◌*◌, ◌^◌, ◌<◌, ◌≤◌, ℕ, None, length, vec_len, slice_index, slice_index_or, IfOk, IfSome, OnOk};
ghost use Rattle.fancy_regex_class.specs.Looks.{looked_text, look_count};
ghost use Rattle.fancy_regex_parts.specs.Ways.{state_after, place_after};
ghost use Rattle.fancy_regex_parts.specs.Tables.{due, known_cost, cost_from};
ghost use Rattle.fancy_regex_parts.specs.Frames.{IsInReach, IsPlace, resume_task};
ghost use Rattle.fancy_regex_parts.specs.Layers.{CanAsk, ForTrueWays, IsPaid, IsResumed, IsTrueOf, IsWithinLooks, LeavesMemory};
ghost use Rattle.fancy_regex_parts.specs.declared.frame.Task.TheVariants.{Visit};

use crate::frame::{Frame, Task};
use crate::memory::PartMemory;
use crate::recall::Recall;
use crate::step::{PartContext, visit};
use fancy_regex_class::Counted;
use std::alloc::{AllocError, Global};

/// What is done next where the answer comes to a frame; an open pair gets its answer.
#[inline(always)]
fn resume(frame: Frame, end: Option<usize>, recall: &mut Recall) -> Task
    requires { IfSome end (λ e. e < 2 ^ 64 - 2) }
    ensures task { result ≡ resume_task frame end }
    ensures recall { IsResumed frame end recall.old recall.new }
{
    match frame {
        Frame::Branch { state, at } => match end {
            None => Task::Visit { state, at },
            Some(_) => Task::Answer(end),
        },
        Frame::Open { cell } => {
            if let Some(e) = end {
                recall.store(cell, e);
            }
            Task::Answer(end)
        }
        Frame::Ask { negated, next, at } => {
            if end.is_some() != negated {
                Task::Visit { state: next, at }
            } else {
                Task::Answer(None)
            }
        }
        Frame::Atomic { at, same, moved } => match end {
            Some(e) => visit_after_atomic(at, same, moved, e),
            None => Task::Answer(None),
        },
    }
}

/// Continues after the part of an atomic group that began at `at` and ends at `end`.
#[inline(always)]
fn visit_after_atomic(at: usize, same: usize, moved: usize, end: usize) -> Task
    ensures { result ≡ Visit (state_after at same moved end) (place_after at end) }
{
    if at < end {
        Task::Visit {
            state: moved,
            at: end,
        }
    } else {
        Task::Visit { state: same, at }
    }
}

/// The answer of `ask`. After an error pairs may be left open.
fn search(
    context: &PartContext,
    text: &mut Counted,
    memory: &mut PartMemory,
    part: usize,
    at: usize,
) -> Result<Option<usize>, AllocError>
    requires ready { CanAsk context.now text.old memory.old }
    requires place { IsInReach context.now.table.now (looked_text text.old) memory.old.recall.base part at }
    ensures answer { IfOk result (λ end. ForTrueWays context.now text.old memory.old
        (λ ways. (end ≡ ways.end part at) × IsTrueOf context.now ways memory.new.recall)) }
    ensures stack { OnOk result (vec_len memory.new.stack ≡ 0) }
    ensures place { IfOk result (λ end. IfSome end (IsPlace (looked_text text.old) memory.old.recall.base)) }
    ensures paid { IsPaid context.now text.old text.new memory.old.recall memory.new.recall (due context.now.table.now part) 0 }
{
    let mut task = Task::Visit { state: part, at };
    'tasks: loop {
        let end = match task {
            Task::Visit { state, at } => {
                task = visit(context, text, memory, state, at)?;
                continue 'tasks;
            }
            Task::Answer(end) => end,
        };
        let Some(frame) = memory.stack.pop() else {
            return Ok(end);
        };
        task = resume(frame, end, &mut memory.recall);
    }
}

/// Where the first way ends of the part that begins at the state `part`, in the text from the byte offset `at` on; `None` if it has no
/// way. The memory may remember what earlier questions have found out about the same parts in the same text. The error is want of
/// memory, and what the memory remembers then is still true.
pub fn ask(
    context: &PartContext,
    text: &mut Counted,
    memory: &mut PartMemory,
    part: usize,
    at: usize,
) -> Result<Option<usize>, AllocError>
    requires ready { CanAsk context.now text.old memory.old }
    requires place { IsInReach context.now.table.now (looked_text text.old) memory.old.recall.base part at }
    ensures answer { IfOk result (λ end. ForTrueWays context.now text.old memory.old (λ ways. end ≡ ways.end part at)) }
    ensures place { IfOk result (λ end. IfSome end (IsPlace (looked_text text.old) memory.old.recall.base)) }
    ensures leaves { LeavesMemory context.now text.old text.new memory.old memory.new }
    ensures counted { OnOk result (IsWithinLooks context.now text.old text.new memory.old memory.new (due context.now.table.now part)) }
    ensures at_most { look_count text.new + known_cost context.now.table.now memory.old.recall
        ≤ look_count text.old + due context.now.table.now part
        + cost_from context.now.table.now (looked_text text.old) memory.old.recall.base }
{
    match search(context, text, memory, part, at) {
        Ok(end) => Ok(end),
        Err(error) => {
            memory.forget();
            Err(error)
        }
    }
}

/// The answers of `ask` for this part at each of these byte offsets, in turn. All of them together look at each place of the text at
/// most as often as the parts weigh, and what is due for the part's first state once more for each answer. The error is want of
/// memory, and what the memory remembers then is still true.
pub fn ask_each(
    alloc: Global,
    context: &PartContext,
    text: &mut Counted,
    memory: &mut PartMemory,
    part: usize,
    places: &[usize],
) -> Result<Vec<Option<usize>>, AllocError>
    requires ready { CanAsk context.now text.old memory.old }
    requires places { (k : ℕ) → k < length places.now
        → IsInReach context.now.table.now (looked_text text.old) memory.old.recall.base part (slice_index places.now k) }
    ensures len { IfOk result (λ answers. length answers.items ≡ length places.now) }
    ensures answers { IfOk result (λ answers. ForTrueWays context.now text.old memory.old (λ ways. (k : ℕ) → k < length places.now
        → slice_index_or answers.items k None ≡ ways.end part (slice_index places.now k))) }
    ensures leaves { LeavesMemory context.now text.old text.new memory.old memory.new }
    ensures counted { OnOk result (IsWithinLooks context.now text.old text.new memory.old memory.new
        (length places.now * due context.now.table.now part)) }
    ensures at_most { OnOk result (look_count text.new ≤ look_count text.old + length places.now * due context.now.table.now part
        + cost_from context.now.table.now (looked_text text.old) memory.old.recall.base) }
{
    let mut answers = Vec::new(alloc);
    for k in 0..places.len() {
        let end = ask(context, text, memory, part, places[k])?;
        answers.push(end)?;
    }
    Ok(answers)
}
