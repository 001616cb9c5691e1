//! Where the longest match from a start ends.

ghost use Rattle.std.specs.Prelude.{◌≡◌, ◌+◌, ◌≤◌, Some, None, length, IfOk, IfSome, IsCharBoundary};
ghost use Rattle.fancy_regex_regular.specs.Ends.{IsEndFrom};

use crate::regular::Regular;
use fancy_regex_class::{Counted, RunInput, Steps};
use fancy_regex_parts::{PartMemory, ask};
use std::alloc::AllocError;

/// Where the longest way from `start` ends within the input's range, where one ends at `end`. It is looked for from there on in steps that
/// are doubled as long as a way ends that far, and then halved. The memory begins anew with each question. The error is want of memory.
pub(crate) fn longest_end(
    regular: &Regular,
    text: &str,
    input: &RunInput,
    steps: &mut Steps,
    memory: &mut PartMemory,
    start: usize,
    end: usize,
) -> Result<usize, AllocError>
    requires start { IsCharBoundary text.now start }
    requires range { input.now.range.end ≤ length text.now }
    requires inside { end ≤ input.now.range.end }
    requires way { IsEndFrom regular.now text.now input.now start end (Some end) }
    ensures way { IfOk result (λ end. IsEndFrom regular.now text.now input.now start end (Some end)) }
    ensures last { IfOk result (λ end. IsEndFrom regular.now text.now input.now start (end + 1) None) }
    ensures counts { steps.old ≤ steps.new }
{
    let (reached, gap) = reach(regular, text, input, steps, memory, start, end)?;
    narrow(regular, text, input, steps, memory, start, reached, gap)
}

/// Where a way from `start` ends, at `end` or later, and a number: no way ends that many bytes farther, or later. The error is want of
/// memory.
fn reach(
    regular: &Regular,
    text: &str,
    input: &RunInput,
    steps: &mut Steps,
    memory: &mut PartMemory,
    start: usize,
    end: usize,
) -> Result<(usize, usize), AllocError>
    requires start { IsCharBoundary text.now start }
    requires range { input.now.range.end ≤ length text.now }
    requires inside { end ≤ input.now.range.end }
    requires way { IsEndFrom regular.now text.now input.now start end (Some end) }
    ensures inside { IfOk result (λ found. found.0 ≤ input.now.range.end) }
    ensures way { IfOk result (λ found. IsEndFrom regular.now text.now input.now start found.0 (Some found.0)) }
    ensures past { IfOk result (λ found. IsEndFrom regular.now text.now input.now start (found.0 + found.1) None) }
    ensures step { IfOk result (λ found. 1 ≤ found.1) }
    ensures counts { steps.old ≤ steps.new }
{
    let mut reached = end;
    let mut gap: usize = 1;
    'steps: while gap <= input.range.end - reached {
        let found = end_from(regular, text, input, steps, memory, start, reached + gap)?;
        match found {
            Some(farther) => {
                reached = farther;
                gap = gap.saturating_mul(2);
            }
            None => return Ok((reached, gap)),
        }
    }
    Ok((reached, gap))
}

/// Where the longest way from `start` ends, where one ends at `end`, and none `gap` bytes farther, or later. The error is want of memory.
fn narrow(
    regular: &Regular,
    text: &str,
    input: &RunInput,
    steps: &mut Steps,
    memory: &mut PartMemory,
    start: usize,
    end: usize,
    gap: usize,
) -> Result<usize, AllocError>
    requires start { IsCharBoundary text.now start }
    requires range { input.now.range.end ≤ length text.now }
    requires inside { end ≤ input.now.range.end }
    requires way { IsEndFrom regular.now text.now input.now start end (Some end) }
    requires past { IsEndFrom regular.now text.now input.now start (end + gap) None }
    requires step { 1 ≤ gap }
    ensures way { IfOk result (λ end. IsEndFrom regular.now text.now input.now start end (Some end)) }
    ensures last { IfOk result (λ end. IsEndFrom regular.now text.now input.now start (end + 1) None) }
    ensures counts { steps.old ≤ steps.new }
{
    let mut reached = end;
    let mut left = gap;
    'steps: while left > 1 {
        let half = left / 2;
        let found = end_from(regular, text, input, steps, memory, start, reached + half)?;
        match found {
            Some(farther) => {
                reached = farther;
                left -= half;
            }
            None => left = half,
        }
    }
    Ok(reached)
}

/// Where the first way from `start` ends that ends at the byte offset `least` or later, within the input's range; `None` if there is none.
/// The error is want of memory.
fn end_from(
    regular: &Regular,
    text: &str,
    input: &RunInput,
    steps: &mut Steps,
    memory: &mut PartMemory,
    start: usize,
    least: usize,
) -> Result<Option<usize>, AllocError>
    requires start { IsCharBoundary text.now start }
    requires range { input.now.range.end ≤ length text.now }
    ensures end { IfOk result (IsEndFrom regular.now text.now input.now start least) }
    ensures inside { IfOk result (λ end. IfSome end (λ e. (least ≤ e) × (e ≤ input.now.range.end))) }
    ensures counts { steps.old ≤ steps.new }
{
    if least > input.range.end {
        return Ok(None);
    }
    // Read so that the proof knows that the counter is a `u64`, which no look lowers.
    let _before = steps.count();
    let context = regular.context(input, least);
    memory.restart(&context, regular.table.lowest(regular.entry, start));
    let mut looked = Counted::new(text, steps);
    let end = ask(&context, &mut looked, memory, regular.entry, start)?;
    Ok(if_inside(end, least, input.range.end))
}

/// The end, if it lies between these two: where a way of the range is asked for, it does.
fn if_inside(end: Option<usize>, least: usize, most: usize) -> Option<usize>
    ensures inside { IfSome result (λ e. (least ≤ e) × (e ≤ most)) }
    ensures same { IfSome end (λ e. (least ≤ e) × (e ≤ most)) → result ≡ end }
{
    match end {
        Some(e) if least <= e && e <= most => end,
        _ => None,
    }
}
