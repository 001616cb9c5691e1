//! The main program of a pattern: its beginning, the instructions of the whole pattern, and its end.

ghost use Rattle.std.specs.Prelude.{◌≡◌, ◌≤◌, ◌<◌, ℕ, ◌+◌, ◌*◌, ◌^◌, List, ◌++◌, Bool, true, false, [], OnOk, IfOk, IfErr};
ghost use Rattle.fancy_regex_tree.specs.Tree.{Text};
ghost use Rattle.fancy_regex_analysis.specs.AnalysisErrors.{is_too_complex};
ghost use Rattle.fancy_regex_info.specs.Infos.{info_of};
ghost use Rattle.fancy_regex_program.specs.Caps.{cap_of};
ghost use Rattle.fancy_regex_program.specs.Code.{opening, closing};
ghost use Rattle.fancy_regex_compiler.specs.Extents.{extent, IsFull};
ghost use Rattle.fancy_regex_compiler.specs.Kept.{IsMain, WholeStands};
ghost use Rattle.fancy_regex_compiler.specs.Known.{pat_with};
ghost use Rattle.fancy_regex_compiler.specs.Needs.{AreAmong, Notes};
ghost use Rattle.fancy_regex_compiler.specs.Refusals.{IsMemoryOrTooComplex, IsReasonWhere};
ghost use Rattle.fancy_regex_compiler.specs.Tasks.{room_of, IsLetThrough};
ghost use Rattle.fancy_regex_compiler.specs.Writing.{draft_of, closed_draft, infos_of};
ghost use Rattle.fancy_regex_compiler.specs.declared.emitter.Need.{Need as NeedOf};

use crate::class_table::ClassTable;
use crate::emit::emit;
use crate::emitter::{CompileContext, Emitter, Scope, first_slot};
use crate::needs::Needs;
use crate::open_calls::{MAX_OPEN_CALLS_PER_GROUP, OpenCalls};
use crate::part_table::PartTable;
use crate::program_builder::ProgramBuilder;
use fancy_regex_info::{CompileError, Info};
use fancy_regex_program::Insn;
use std::alloc::Global;

/// The emitter of an empty program, with a cap on its length if there is one. No call is open.
pub(crate) fn new_emitter(alloc: Global, cap: Option<usize>) -> Emitter
    ensures cap { result.body.cap ≡ cap_of cap }
    ensures draft { draft_of result.body ≡ record { ops = []; text = [] } }
    ensures opened { result.opened.items ≡ [] }
    ensures needs { result.needs.list.items ≡ [] }
{
    Emitter {
        body: ProgramBuilder::new(alloc, cap),
        classes: ClassTable::new(alloc),
        parts: PartTable::new(alloc),
        opened: OpenCalls::new(alloc),
        needs: Needs::new(alloc),
    }
}

/// Writes the main program. Returns the number of slots that it needs.
pub(crate) fn write_main<'i, 'e>(
    context: &CompileContext<'_, 'i, 'e>,
    emitter: &mut Emitter,
    info: &'i Info<'e>,
    anchored: bool,
) -> Result<usize, CompileError>
    requires begins { draft_of emitter.old.body ≡ record { ops = []; text = [] } }
    requires opened { emitter.old.opened.items ≡ [] }
    ensures opened { IfOk result (λ _. emitter.new.opened.items ≡ []) }
    ensures cap { emitter.new.body.cap ≡ emitter.old.body.cap }
    ensures wrote { IfOk result (IsMain context.now (info_of info.now) anchored (draft_of emitter.new.body)) }
    ensures allowed { IfOk result (λ _. (all : List NeedOf) → AreAmong emitter.new.needs.list.items all →
        IsLetThrough context.now true (pat_with (infos_of context.now) (info_of info.now)) all) }
    ensures notes { IfOk result (λ _. Notes (infos_of context.now) emitter.old.needs.list.items emitter.new.needs.list.items
        (WholeStands (info_of info.now))) }
    ensures full { IfErr result (λ e. is_too_complex e ≡ true →
        emitter.old.body.cap < room_of context.now (pat_with (infos_of context.now) (info_of info.now)) + 4) }
    ensures refused { IfErr result (IsReasonWhere context.now.unicode (infos_of context.now) (WholeStands (info_of info.now))) }
{
    let scope = Scope {
        calls_left: max_open_calls(context.groups.len())?,
        may_keep: true,
        may_be_absent: true,
    };
    let slot = first_slot(context.groups.len())?;
    open(&mut emitter.body, anchored, context.whole)?;
    let slots = emit(context, emitter, info, scope, slot)?;
    close(&mut emitter.body, context.whole)?;
    Ok(slots)
}

/// The greatest number of calls inlined inside of each other. The error is `Memory`, only if it exceeds `usize`.
pub(crate) fn max_open_calls(groups: usize) -> Result<usize, CompileError>
    ensures value { IfOk result (λ calls. calls ≡ 19 * groups) }
    ensures past { IfErr result (λ _. 2 ^ 64 ≤ 19 * groups) }
    ensures full { IfErr result (λ e. is_too_complex e ≡ false) }
    ensures refused { IfErr result IsMemoryOrTooComplex }
{
    match groups.checked_mul(MAX_OPEN_CALLS_PER_GROUP) {
        Some(calls) => Ok(calls),
        None => Err(CompileError::Memory),
    }
}

/// Emits the beginning of a program: the loop over starts unless it is anchored, and the start of group 0.
fn open(body: &mut ProgramBuilder, anchored: bool, whole: bool) -> Result<(), CompileError>
    ensures cap { body.new.cap ≡ body.old.cap }
    ensures long { OnOk result (extent (draft_of body.new) ≤ extent (draft_of body.old) + 2) }
    ensures full { IfErr result (IsFull body.old 2) }
    ensures refused { IfErr result IsMemoryOrTooComplex }
    ensures draft { OnOk result ((has_member : Text → Bool → ℕ → Bool) (fold : ℕ → ℕ) →
        draft_of body.old ≡ record { ops = []; text = [] } →
        draft_of body.new ≡ record { ops = opening has_member fold whole anchored; text = [] }) }
{
    if !anchored {
        body.push_insn(Insn::SplitUnanchored)?;
    }
    if whole {
        body.push_insn(Insn::Save0)?;
    }
    Ok(())
}

/// Emits the end of a program: the end of group 0, and `End`.
fn close(body: &mut ProgramBuilder, whole: bool) -> Result<(), CompileError>
    ensures cap { body.new.cap ≡ body.old.cap }
    ensures full { IfErr result (IsFull body.old 2) }
    ensures refused { IfErr result IsMemoryOrTooComplex }
    ensures draft { OnOk result ((has_member : Text → Bool → ℕ → Bool) (fold : ℕ → ℕ) →
        (draft_of body.new).ops ≡ (closed_draft (draft_of body.old)).ops ++ closing has_member fold whole) }
    ensures text { OnOk result ((draft_of body.new).text ≡ []) }
{
    body.flush()?;
    if whole {
        body.push_insn(Insn::Save(1))?;
    }
    body.push_insn(Insn::End)?;
    Ok(())
}
