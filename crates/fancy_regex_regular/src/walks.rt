//! Walks along the attempt that finds a match.

ghost use Rattle.std.specs.Prelude.{◌≡◌, ◌≤◌, ℕ, Some, true, false, length, OnOk, IsCharBoundary};
ghost use Rattle.fancy_regex_regular.specs.Attempts.{IsAttempt, IsAttemptOf};
ghost use Rattle.fancy_regex_regular.specs.Kept.{IsKeptOf};
ghost use Rattle.fancy_regex_regular.specs.Regulars.{LooksFrom, LooksForGroupsFrom};
ghost use Rattle.fancy_regex_regular.specs.Walks.{CanWalk, IsWalkOf, reset_start};

use crate::memory::RegularMemory;
use crate::regular::Regular;
use fancy_regex_class::{Counted, RunInput, Steps};
use fancy_regex_parts::walk;
use std::alloc::AllocError;

/// Walks along the attempt from `start` to `end` that finds the match, the first or the longest, and writes the slots of its groups, as
/// `walk`: those of group 0 where `\K` stood last, if the tree does not write that itself. The error is want of memory.
pub(crate) fn walk_along(
    regular: &Regular,
    text: &str,
    input: &RunInput,
    steps: &mut Steps,
    memory: &mut RegularMemory,
    start: usize,
    end: usize,
    slots: &mut [usize],
) -> Result<(), AllocError>
    requires first { IsCharBoundary text.now input.now.first }
    requires range { input.now.range.end ≤ length text.now }
    requires kept { IsKeptOf regular.now text.now memory.old }
    requires walks { CanWalk regular.now text.now input.now memory.old start }
    requires attempt { IsAttempt regular.now text.now input.now (Some (start, end)) }
    ensures told { OnOk result
        (IsWalkOf regular.now.longest regular.now text.now input.now start end (length slots.old) slots.new) }
    ensures at_most { regular.now.longest ≡ false → OnOk result ((before : ℕ)
        → LooksFrom regular.now text.now memory.old.parts.recall.base before steps.old
        → LooksForGroupsFrom regular.now text.now memory.new.parts.recall.base before steps.new) }
    ensures base { memory.new.parts.recall.base ≡ memory.old.parts.recall.base }
    ensures kept { IsKeptOf regular.now text.now memory.new }
    ensures walks { CanWalk regular.now text.now input.now memory.new start }
    ensures counts { steps.old ≤ steps.new }
{
    if regular.longest {
        walk_longest(regular, text, input, steps, memory, start, end, slots)
    } else {
        walk_first(regular, text, input, steps, memory, start, slots)
    }
}

/// Walks along the attempt that finds the first match, as `walk_along`: the memory of the search answers what it has found out.
fn walk_first(
    regular: &Regular,
    text: &str,
    input: &RunInput,
    steps: &mut Steps,
    memory: &mut RegularMemory,
    start: usize,
    slots: &mut [usize],
) -> Result<(), AllocError>
    requires first { IsCharBoundary text.now input.now.first }
    requires range { input.now.range.end ≤ length text.now }
    requires kept { IsKeptOf regular.now text.now memory.old }
    requires walks { CanWalk regular.now text.now input.now memory.old start }
    requires plain { regular.now.longest ≡ false }
    ensures told { OnOk result ((end : ℕ) → IsAttemptOf false regular.now text.now input.now (Some (start, end))
        → IsWalkOf false regular.now text.now input.now start end (length slots.old) slots.new) }
    ensures at_most { OnOk result ((before : ℕ) → LooksFrom regular.now text.now memory.old.parts.recall.base before steps.old
        → LooksForGroupsFrom regular.now text.now memory.new.parts.recall.base before steps.new) }
    ensures base { memory.new.parts.recall.base ≡ memory.old.parts.recall.base }
    ensures kept { IsKeptOf regular.now text.now memory.new }
    ensures walks { CanWalk regular.now text.now input.now memory.new start }
    ensures counts { steps.old ≤ steps.new }
{
    // Read so that the proof knows that the counter is a `u64`, which no look lowers.
    let _before = steps.count();
    let context = regular.context(input, 0);
    let mut looked = Counted::new(text, steps);
    walk(
        &context,
        &mut looked,
        &mut memory.parts,
        &mut memory.walked,
        start,
        slots,
    )?;
    Ok(())
}

/// Walks along the attempt that finds the longest match, as `walk_along`. What questions for that end find out is not kept.
fn walk_longest(
    regular: &Regular,
    text: &str,
    input: &RunInput,
    steps: &mut Steps,
    memory: &mut RegularMemory,
    start: usize,
    end: usize,
    slots: &mut [usize],
) -> Result<(), AllocError>
    requires first { IsCharBoundary text.now input.now.first }
    requires range { input.now.range.end ≤ length text.now }
    requires kept { IsKeptOf regular.now text.now memory.old }
    requires walks { CanWalk regular.now text.now input.now memory.old start }
    requires attempt { IsAttemptOf true regular.now text.now input.now (Some (start, end)) }
    requires plain { regular.now.longest ≡ true }
    ensures told { OnOk result (IsWalkOf true regular.now text.now input.now start end (length slots.old) slots.new) }
    ensures base { memory.new.parts.recall.base ≡ memory.old.parts.recall.base }
    ensures kept { IsKeptOf regular.now text.now memory.new }
    ensures walks { CanWalk regular.now text.now input.now memory.new start }
    ensures counts { steps.old ≤ steps.new }
{
    // Read so that the proof knows that the counter is a `u64`, which no look lowers.
    let _before = steps.count();
    let context = regular.context(input, end);
    let lowest = regular.table.lowest(regular.entry, start);
    memory.farther.restart(&context, lowest);
    memory.walked.restart(&context, lowest);
    let mut looked = Counted::new(text, steps);
    walk(
        &context,
        &mut looked,
        &mut memory.farther,
        &mut memory.walked,
        start,
        slots,
    )?;
    Ok(())
}

/// Where a match is said to begin whose attempt starts at `start`, where the walk along it left these slots: where `\K` stood last, or else
/// at the start. A slot that is unset is no place of the text.
pub(crate) fn told_start(text: &str, start: usize, slots: &[usize]) -> usize
    ensures told { IsCharBoundary text.now (reset_start start slots.now) → result ≡ reset_start start slots.now }
    ensures boundary { IsCharBoundary text.now start → IsCharBoundary text.now result }
{
    match slots.first() {
        Some(&told) if text.is_char_boundary(told) => told,
        _ => start,
    }
}
