//! The ends of constructs: what is written after their parts, and what is patched in front of them then.

ghost use Rattle.std.specs.Prelude.{◌≡◌, ◌≤◌, ◌<◌, ◌+◌, true, IfOk};
ghost use Rattle.fancy_regex_program.specs.Code.{split_by, loop_entry, loop_head};
ghost use Rattle.fancy_regex_program.specs.Machine.{unset};
ghost use Rattle.fancy_regex_program.specs.Ops as op;
ghost use Rattle.fancy_regex_program.specs.Ops.{op_of};
ghost use Rattle.fancy_regex_compiler.specs.Tasks.{Closes};
ghost use Rattle.fancy_regex_compiler.specs.declared.closing.Closing.TheVariants as ends;

use crate::program_builder::ProgramBuilder;
use fancy_regex_info::CompileError;
use fancy_regex_program::{AbsentRepeater, Insn, Repeat, RepeatEpsilon, is_uncounted};
use std::alloc::{AllocError, Global};

/// A construct that ends after the part that was emitted last.
#[derive(Clone, Copy)]
pub(crate) enum Closing {
    /// A capture group.
    Group {
        /// The slot in which its start was saved.
        saved_start: usize,
        /// The group's first slot.
        start: usize,
        /// The group's second slot.
        end: usize,
    },
    /// A positive look-around, whose position is in the slot.
    PositiveLookAround {
        /// The slot.
        slot: usize,
    },
    /// A negative look-around.
    NegativeLookAround {
        /// The slot of the height of the backtrack stack.
        slot: usize,
        /// The index of its split.
        split: usize,
        /// The index of its body.
        first: usize,
    },
    /// An atomic group.
    AtomicGroup {
        /// The slot of the height of the backtrack stack.
        slot: usize,
    },
    /// A bounded repeat.
    BoundedRepeat {
        /// The index of its head.
        head: usize,
        /// The least and the greatest count of iterations.
        bounds: (usize, usize),
        /// Whether more iterations are tried first.
        greedy: bool,
        /// The slot that counts the iterations.
        slot: usize,
    },
    /// An unbounded repeat.
    UnboundedRepeat {
        /// The index of its head, after its entry.
        head: usize,
        /// The least count of iterations.
        lo: usize,
        /// Whether more iterations are tried first.
        greedy: bool,
        /// The slot that counts the iterations.
        slot: usize,
        /// The slot of the position at which the last iteration began.
        check: usize,
    },
    /// An absent repeater.
    AbsentRepeater {
        /// The index of its scan.
        scan: usize,
        /// The slot of the start.
        start: usize,
        /// The slot of the limit.
        limit: usize,
    },
    /// Alternatives, of which the first ends with a jump over the others.
    Alternatives {
        /// The index of the jump.
        jump: usize,
    },
    /// The end of a whole pattern that may be searched in linear time.
    Tail {
        /// The index of the instruction in front of it.
        begin: usize,
    },
}

/// Writes the end of a construct.
pub(crate) fn close(body: &mut ProgramBuilder, closing: Closing) -> Result<(), CompileError>
    ensures { Closes closing body.old body.new result }
{
    match closing {
        Closing::Group {
            saved_start,
            start,
            end,
        } => close_group(body, saved_start, start, end),
        Closing::PositiveLookAround { slot } => body.flush_and_push(Insn::Restore(slot)),
        Closing::NegativeLookAround { slot, split, first } => {
            close_negative_look_around(body, slot, split, first)
        }
        Closing::AtomicGroup { slot } => body.flush_and_push(Insn::EndAtomic(slot)),
        Closing::BoundedRepeat {
            head,
            bounds,
            greedy,
            slot,
        } => close_bounded_repeat(body, head, bounds, greedy, slot),
        Closing::UnboundedRepeat {
            head,
            lo,
            greedy,
            slot,
            check,
        } => close_unbounded_repeat(body, head, lo, greedy, (slot, check)),
        Closing::AbsentRepeater { scan, start, limit } => close_absent(body, scan, start, limit),
        Closing::Alternatives { jump } => close_alternatives(body, jump),
        Closing::Tail { begin } => close_tail(body, begin),
    }
}

/// Sets the slots of a group.
fn close_group(
    body: &mut ProgramBuilder,
    saved_start: usize,
    start: usize,
    end: usize,
) -> Result<(), CompileError>
    ensures { Closes (ends.Group saved_start start end) body.old body.new result }
{
    body.flush_and_push(Insn::SaveCaptureGroupStart {
        saved: saved_start,
        slot: start,
    })?;
    body.push_insn(Insn::Save(end))?;
    Ok(())
}

/// Lets a negative look-around fail where its body matched, and go on after it where it did not.
fn close_negative_look_around(
    body: &mut ProgramBuilder,
    slot: usize,
    split: usize,
    first: usize,
) -> Result<(), CompileError>
    ensures { Closes (ends.NegativeLookAround slot split first) body.old body.new result }
{
    body.flush_and_push(Insn::FailNegativeLookAround(slot))?;
    let second = body.len();
    body.patch(split, Insn::Split(first, second));
    Ok(())
}

/// Leads back to the head of a bounded repeat, which is written now.
fn close_bounded_repeat(
    body: &mut ProgramBuilder,
    head: usize,
    bounds: (usize, usize),
    greedy: bool,
    slot: usize,
) -> Result<(), CompileError>
    ensures { Closes (ends.BoundedRepeat head bounds greedy slot) body.old body.new result }
{
    body.flush_and_push(Insn::Jmp(head))?;
    let (lo, hi) = bounds;
    let counted = Repeat {
        lo,
        hi,
        next: body.len(),
        repeat: slot,
    };
    let head_insn = bounded_repeat_head(body.alloc, counted, greedy)?;
    body.patch(head, head_insn);
    Ok(())
}

/// The head of a bounded repeat.
fn bounded_repeat_head(alloc: Global, repeat: Repeat, greedy: bool) -> Result<Insn, AllocError>
    ensures { IfOk result (λ insn. op_of insn ≡ op.repeat greedy repeat.lo repeat.hi repeat.next repeat.repeat) }
{
    let operands = Box::new(alloc, repeat)?;
    if greedy {
        Ok(Insn::RepeatGr(operands))
    } else {
        Ok(Insn::RepeatNg(operands))
    }
}

/// Leads back to the head of an unbounded repeat. The head and the entry in front of it are written now, since the body shows
/// whether they need a counter.
fn close_unbounded_repeat(
    body: &mut ProgramBuilder,
    head: usize,
    lo: usize,
    greedy: bool,
    slots: (usize, usize),
) -> Result<(), CompileError>
    ensures { Closes (ends.UnboundedRepeat head lo greedy slots.0 slots.1) body.old body.new result }
{
    body.flush()?;
    let uncounted = is_uncounted(&body.insns, lo, head);
    body.push_insn(Insn::Jmp(head))?;
    let (repeat, check) = slots;
    let endless = RepeatEpsilon {
        lo,
        next: body.len(),
        repeat,
        check,
    };
    let (entry_insn, head_insn) = opening(body.alloc, uncounted, endless, head, greedy)?;
    body.patch(head.saturating_sub(1), entry_insn);
    body.patch(head, head_insn);
    Ok(())
}

/// The entry and the head of an unbounded repeat. Without a counter at most one iteration is due.
fn opening(
    alloc: Global,
    uncounted: bool,
    repeat: RepeatEpsilon,
    head: usize,
    greedy: bool,
) -> Result<(Insn, Insn), AllocError>
    requires few { uncounted ≡ true → repeat.lo ≤ 1 }
    requires inside { uncounted ≡ true → head < unset }
    ensures entry { IfOk result (λ insns. op_of insns.0 ≡ loop_entry uncounted repeat.lo head repeat.repeat) }
    ensures head { IfOk result (λ insns.
        op_of insns.1 ≡ loop_head uncounted repeat.lo greedy (head + 1) repeat.next repeat.repeat repeat.check) }
{
    if uncounted {
        Ok(uncounted_opening(repeat, head, greedy))
    } else {
        let insns = counted_opening(alloc, repeat, greedy)?;
        Ok(insns)
    }
}

/// The entry and the head of an unbounded repeat that counts its iterations.
fn counted_opening(
    alloc: Global,
    repeat: RepeatEpsilon,
    greedy: bool,
) -> Result<(Insn, Insn), AllocError>
    ensures entry { IfOk result (λ insns. op_of insns.0 ≡ op.begin_repeat repeat.repeat) }
    ensures head { IfOk result (λ insns. op_of insns.1 ≡ op.repeat_epsilon greedy repeat.lo repeat.next repeat.repeat repeat.check) }
{
    let operands = Box::new(alloc, repeat)?;
    let head = if greedy {
        Insn::RepeatEpsilonGr(operands)
    } else {
        Insn::RepeatEpsilonNg(operands)
    };
    Ok((Insn::BeginRepeat(repeat.repeat), head))
}

/// The entry and the head of an unbounded repeat that does not count its iterations, of which at most one is due.
fn uncounted_opening(repeat: RepeatEpsilon, head: usize, greedy: bool) -> (Insn, Insn)
    requires few { repeat.lo ≤ 1 }
    requires inside { head < unset }
    ensures entry { op_of result.0 ≡ op.jump (head + repeat.lo) }
    ensures head { op_of result.1 ≡ split_by greedy (head + 1) repeat.next }
{
    let first = head + 1;
    let choice = if greedy {
        Insn::Split(first, repeat.next)
    } else {
        Insn::Split(repeat.next, first)
    };
    (Insn::Jmp(head + repeat.lo), choice)
}

/// Writes the end of an absent repeater, and its scan.
fn close_absent(
    body: &mut ProgramBuilder,
    scan: usize,
    start: usize,
    limit: usize,
) -> Result<(), CompileError>
    ensures { Closes (ends.AbsentRepeater scan start limit) body.old body.new result }
{
    let limits = absent_step(body.alloc, AbsentRepeater::Limit { limit })?;
    body.flush_and_push(limits)?;
    let end = body.len();
    let ends = absent_step(body.alloc, AbsentRepeater::End { start, limit })?;
    body.push_insn(ends)?;
    let scans = absent_step(body.alloc, AbsentRepeater::Scan { limit, end })?;
    body.patch(scan, scans);
    Ok(())
}

/// Lets the jump after the first of some alternatives lead here.
fn close_alternatives(body: &mut ProgramBuilder, jump: usize) -> Result<(), CompileError>
    ensures { Closes (ends.Alternatives jump) body.old body.new result }
{
    body.flush()?;
    let end = body.len();
    body.patch(jump, Insn::Jmp(end));
    Ok(())
}

/// Lets the instruction in front of the end of a whole pattern lead here.
fn close_tail(body: &mut ProgramBuilder, begin: usize) -> Result<(), CompileError>
    ensures { Closes (ends.Tail begin) body.old body.new result }
{
    body.flush()?;
    let end = body.len();
    body.end_tail(begin, end);
    Ok(())
}

/// The instruction of a step of an absent repeater.
pub(crate) fn absent_step(alloc: Global, step: AbsentRepeater) -> Result<Insn, AllocError>
    ensures { IfOk result (λ insn. op_of insn ≡ op.part_of step) }
{
    let step = Box::new(alloc, step)?;
    Ok(Insn::AbsentRepeater(step))
}
