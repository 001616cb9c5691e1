//! The state of the compiler while it emits a program.

ghost use Rattle.std.specs.Prelude.{◌≡◌, ◌≤◌, ◌+◌, ◌*◌, ◌^◌, false, length, IfOk, IfErr};
ghost use Rattle.fancy_regex_analysis.specs.AnalysisErrors.{is_too_complex};
ghost use Rattle.fancy_regex_compiler.specs.CalledTexts.{AreTexts, infos_at};
ghost use Rattle.fancy_regex_compiler.specs.Inlined.{AreNamed, AreLaidOut, AreSilent};
ghost use Rattle.fancy_regex_compiler.specs.Refusals.{IsMemoryOrTooComplex};

use crate::called_texts::CalledTexts;
use crate::class_table::ClassTable;
use crate::inlined_groups::InlinedGroups;
use crate::needs::Needs;
use crate::open_calls::OpenCalls;
use crate::part_table::PartTable;
use crate::program_builder::ProgramBuilder;
use fancy_regex_info::{CompileError, Info};
use fancy_regex_program::Callee;
use std::alloc::Global;
use std::sync::Arc;

/// What is fixed for one compilation.
#[derive(Clone, Copy)]
pub(crate) struct CompileContext<'g, 'i, 'e> {
    /// Where the program is allocated.
    pub alloc: Global,
    /// The body of each group by its number; the whole pattern for group 0 if that is the whole match.
    pub groups: &'g Vec<&'i Info<'e>>,
    /// Whether group 0 is the whole match.
    pub whole: bool,
    /// Whether classes and case folding follow Unicode.
    pub unicode: bool,
    /// The groups that write nothing but characters.
    pub texts: &'g CalledTexts,
    /// The groups whose calls are inlined also where calls stay calls.
    pub inlined: &'g InlinedGroups,
    /// A draft for each group whose calls stay, by its number: it stands for the group until its place is known. Where there is none, calls
    /// are inlined.
    pub drafts: &'g Vec<Option<Arc<Callee>>>,
    ghost are_texts: { AreTexts (infos_at groups.now.items) texts.now.lengths.items texts.now.known },
    ghost all_drafted: { (length drafts.now.items ≡ 0 → ⊥) → length drafts.now.items ≡ length groups.now.items },
    ghost are_silent: { AreSilent (infos_at groups.now.items) inlined.now.rooms.items inlined.now.known },
    ghost are_named: { AreNamed drafts.now.items },
    ghost laid_out: { AreLaidOut inlined.now.rooms.items drafts.now.items },
}

/// A group whose body is needed, since a call of it stays, and what is allowed where the call stands.
#[derive(Clone, Copy, PartialEq, Eq)]
pub(crate) struct Need {
    /// The number of the group.
    pub group: usize,
    /// Whether `\K` is allowed there.
    pub may_keep: bool,
    /// Whether an absent repeater is allowed there.
    pub may_be_absent: bool,
}

/// The program so far, the calls that are being inlined, and those that stay.
#[derive(Drop)]
pub(crate) struct Emitter {
    /// The instructions so far.
    pub body: ProgramBuilder,
    /// The classes that were read so far.
    pub classes: ClassTable,
    /// The parts that were delegated so far.
    pub parts: PartTable,
    /// The calls that are open.
    pub opened: OpenCalls,
    /// The bodies that are needed.
    pub needs: Needs,
}

/// The context of a subexpression.
#[derive(Clone, Copy)]
pub(crate) struct Scope {
    /// How many more calls may be inlined inside of each other here.
    pub calls_left: usize,
    /// Whether `\K` is allowed: no look-around and no absent repeater encloses this.
    pub may_keep: bool,
    /// Whether an absent repeater is allowed: no other one encloses this.
    pub may_be_absent: bool,
}

/// The slot `count` slots after this one. The error is `Memory`, only if it exceeds `usize`.
pub(crate) fn past_slots(slot: usize, count: usize) -> Result<usize, CompileError>
    ensures value { IfOk result (λ after. after ≡ slot + count) }
    ensures past { IfErr result (λ _. 2 ^ 64 ≤ slot + count) }
    ensures full { IfErr result (λ e. is_too_complex e ≡ false) }
    ensures refused { IfErr result IsMemoryOrTooComplex }
{
    match slot.checked_add(count) {
        Some(after) => Ok(after),
        None => Err(CompileError::Memory),
    }
}

/// The first of the two slots of a group. The error is `Memory`, only if it exceeds `usize`.
pub(crate) fn first_slot(group: usize) -> Result<usize, CompileError>
    ensures value { IfOk result (λ slot. slot ≡ 2 * group) }
    ensures past { IfErr result (λ _. 2 ^ 64 ≤ 2 * group) }
    ensures full { IfErr result (λ e. is_too_complex e ≡ false) }
    ensures refused { IfErr result IsMemoryOrTooComplex }
{
    match group.checked_mul(2) {
        Some(slot) => Ok(slot),
        None => Err(CompileError::Memory),
    }
}
