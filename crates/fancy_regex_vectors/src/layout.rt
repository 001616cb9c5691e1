//! Programs as text.

use fancy_regex_compiled::Prog;
use fancy_regex_program::{Callee, Insn};
use std::alloc::AllocError;
use std::fmt::Write;

/// Appends each instruction of a program with its operands, in brackets.
pub fn append_layout(out: &mut String, prog: &Prog) -> Result<(), AllocError> {
    for insn in prog.body() {
        append_insn(out, insn)?;
    }
    Ok(())
}

/// Appends an instruction; `[?]` for one that no worked layout has.
fn append_insn(out: &mut String, insn: &Insn) -> Result<(), AllocError> {
    match insn {
        Insn::End => write!(out, "[End]"),
        Insn::SplitUnanchored => write!(out, "[SplitUnanchored]"),
        Insn::Lit(text) => write!(out, "[Lit({text})]"),
        Insn::Split(first, second) => write!(out, "[Split({first},{second})]"),
        Insn::Jmp(to) => write!(out, "[Jmp({to})]"),
        Insn::Save(slot) => write!(out, "[Save({slot})]"),
        Insn::Save0 => write!(out, "[Save0]"),
        Insn::SaveCaptureGroupStart { saved, slot } => {
            write!(out, "[SaveCaptureGroupStart({saved},{slot})]")
        }
        Insn::Restore(slot) => write!(out, "[Restore({slot})]"),
        Insn::GoBack(count) => write!(out, "[GoBack({count})]"),
        Insn::Fail => write!(out, "[Fail]"),
        Insn::BeginRepeat(slot) => write!(out, "[BeginRepeat({slot})]"),
        Insn::RepeatGr(head) => write!(out, "[RepeatGr({},{})]", head.next, head.repeat),
        Insn::Call(callee) => append_callee(out, "Call", **callee),
        Insn::Return(callee) => append_callee(out, "Return", **callee),
        _ => write!(out, "[?]"),
    }
}

/// Appends a call or a return: where the body is, its own slots and how many, its count, and its frames and how many.
fn append_callee(out: &mut String, name: &str, callee: Callee) -> Result<(), AllocError> {
    let Callee {
        start,
        count,
        most,
        frames,
        first,
        own,
    } = callee;
    write!(
        out,
        "[{name}({start},{first},{own},{count},{frames},{most})]"
    )
}

/// Appends how many instructions begin a greedy repeat, and how many fail.
pub fn append_repeats(out: &mut String, prog: &Prog) -> Result<(), AllocError> {
    let (mut repeats, mut failing) = (0_usize, 0_usize);
    for insn in prog.body() {
        match insn {
            Insn::RepeatGr(_) => repeats = repeats.saturating_add(1),
            Insn::Fail => failing = failing.saturating_add(1),
            _ => {}
        }
    }
    write!(out, "{repeats} {failing}")
}
