//! Instructions of the nodes of an analyzed tree. What is left to emit stands on a stack of tasks, so nothing recurses. Each
//! function takes the first free slot and returns the next one; the errors are those of `compile`. What emitting gives is said once,
//! in `specs/Tasks.antt`: `EmitsTask` for a task, `EmitsPattern` for a pattern, `Begins` for a construct.

ghost use Rattle.std.specs.Prelude.{◌≡◌, ◌<◌, ◌+◌, ℕ, List, [], ◌∷◌, ◌++◌, length, vec_len, false, true, slice_get, IfOk, IfErr, Some, None};
ghost use Rattle.fancy_regex_desugar.specs.CorePatterns as pat;
ghost use Rattle.fancy_regex_desugar.specs.CorePatterns.{CorePattern};
ghost use Rattle.fancy_regex_desugar.specs.Unfolded.{repeated, look};
ghost use Rattle.fancy_regex_tree.specs.Tree.{tree_of};
ghost use Rattle.fancy_regex_analysis.specs.AnalysisErrors.{is_too_complex};
ghost use Rattle.fancy_regex_info.specs.Infos.{InfoTree, info_of};
ghost use Rattle.fancy_regex_info.specs.declared.info.Info.TheViews.{out-Info};
ghost use Rattle.fancy_regex_compiler.specs.Extents.{IsFull, Appends};
ghost use Rattle.fancy_regex_compiler.specs.Known.{info_call};
ghost use Rattle.fancy_regex_program.specs.Machine.{unset};
ghost use Rattle.fancy_regex_program.specs.Ops as op;
ghost use Rattle.fancy_regex_program.specs.Ops.{op_of};
ghost use Rattle.fancy_regex_compiler.specs.Needs.{AreAmong, Notes};
ghost use Rattle.fancy_regex_compiler.specs.Refusals.{IsMemoryOrTooComplex, IsReasonWhere, IsExpandedPart, IsExpandedBody, IsExpandedRepeat, IsExpandedAbsent};
ghost use Rattle.fancy_regex_compiler.specs.Refusals.{IsExpandedConditional, IsExpandedTarget, looks_behind};
ghost use Rattle.fancy_regex_compiler.specs.Tasks.{listed, node_pattern, body_pattern, whole_pattern, LeadsOn, EmitsTask, EmitsPattern, Begins};
ghost use Rattle.fancy_regex_compiler.specs.Tasks.{IsAllowedTask, IsExpandedTask, EmitsAll, past, progress, task_room, room_of};
ghost use Rattle.fancy_regex_compiler.specs.Tasks.{call_work, info_work, infos_work, task_work, tasks_work};
ghost use Rattle.fancy_regex_compiler.specs.Inlined.{draft_place};
ghost use Rattle.fancy_regex_compiler.specs.Writing.{added, draft_of, layout_of, with_op, closed_draft, infos_of, part};
ghost use Rattle.fancy_regex_compiler.specs.declared.emitter.CompileContext.{CompileContext as TheContext};
ghost use Rattle.fancy_regex_compiler.specs.declared.emitter.Emitter.{Emitter as TheEmitter};
ghost use Rattle.fancy_regex_compiler.specs.declared.emitter.Need.{Need as TheNeed};
ghost use Rattle.fancy_regex_program.specs.declared.insn.Insn.TheVariants as the_insn;
ghost use Rattle.fancy_regex_compiler.specs.declared.task.Task.TheVariants as the_task;

use crate::closing::{Closing, absent_step, close};
use crate::emitter::{CompileContext, Emitter, Need, Scope, first_slot, past_slots};
use crate::leaf::{emit_leaf, not_supported};
use crate::program_builder::ProgramBuilder;
use crate::tail::tail_from;
use crate::task::{Step, Task, Tasks};
use fancy_regex_info::{CompileError, Info};
use fancy_regex_program::{AbsentRepeater, Callee, Delegate, Insn};
use fancy_regex_tree::{Absent, Expr, LookAround};
use std::alloc::{AllocError, Global};
use std::slice;
use std::sync::Arc;

/// Emits a whole pattern; `slot` is the first free slot. Returns the first free slot after it.
pub(crate) fn emit<'i, 'e>(
    context: &CompileContext<'_, 'i, 'e>,
    emitter: &mut Emitter,
    info: &'i Info<'e>,
    scope: Scope,
    slot: usize,
) -> Result<usize, CompileError>
    ensures { EmitsAll context.now (whole_pattern context.now info.now scope emitter.old.opened.items) scope.may_keep
        (λ tree_context. IsExpandedPart tree_context scope.may_keep scope.may_be_absent false (info_of info.now))
        emitter.old emitter.new slot result }
{
    emit_all(context, emitter, Task::Whole { info, scope }, slot)
}

/// Emits the body of a group whose calls stay; `slot` is the first free slot. Returns the first free slot after it.
pub(crate) fn emit_called<'i, 'e>(
    context: &CompileContext<'_, 'i, 'e>,
    emitter: &mut Emitter,
    info: &'i Info<'e>,
    scope: Scope,
    slot: usize,
) -> Result<usize, CompileError>
    ensures { EmitsAll context.now (node_pattern context.now info.now false scope emitter.old.opened.items) scope.may_keep
        (λ tree_context. IsExpandedPart tree_context scope.may_keep scope.may_be_absent false (info_of info.now))
        emitter.old emitter.new slot result }
{
    let body = Task::Node {
        info,
        steps_back: false,
        scope,
    };
    emit_all(context, emitter, body, slot)
}

/// Emits a task and all that it leads to.
fn emit_all<'i, 'e>(
    context: &CompileContext<'_, 'i, 'e>,
    emitter: &mut Emitter,
    begin: Task<'i, 'e>,
    slot: usize,
) -> Result<usize, CompileError>
    ensures cap { emitter.new.body.cap ≡ emitter.old.body.cap }
    ensures ends { IfOk result (λ after. progress emitter.new after ≡ past context.now begin.entry (progress emitter.old slot)) }
    ensures allowed { IfOk result (λ after. (all : List TheNeed) → AreAmong emitter.new.needs.list.items all →
        IsAllowedTask context.now begin.entry emitter.old.opened.items all) }
    ensures notes { IfOk result (λ after. Notes (infos_of context.now) emitter.old.needs.list.items emitter.new.needs.list.items
        (λ tree_context. IsExpandedTask tree_context begin.entry)) }
    ensures full { IfErr result (IsFull emitter.old.body (task_room context.now begin.entry emitter.old.opened.items)) }
    ensures refused { IfErr result (IsReasonWhere context.now.unicode (infos_of context.now)
        (λ tree_context. IsExpandedTask tree_context begin.entry)) }
{
    let mut tasks = Vec::new(context.alloc);
    tasks.push(begin)?;
    let mut next = slot;
    while let Some(task) = tasks.pop() {
        let step = emit_task(context, emitter, task, next)?;
        add_tasks(&mut tasks, step.tasks)?;
        next = step.slot;
    }
    Ok(next)
}

/// The task of a node that does not go back first.
fn node_task<'i, 'e>(info: &'i Info<'e>, scope: Scope) -> Task<'i, 'e>
    ensures { result ≡ the_task.Node info.entry false scope }
{
    Task::Node {
        info,
        steps_back: false,
        scope,
    }
}

/// Adds tasks to those that are left. The error is want of memory.
fn add_tasks<'i, 'e>(left: &mut Vec<Task<'i, 'e>>, tasks: Tasks<'i, 'e>) -> Result<(), AllocError>
    ensures { IfOk result (λ _. left.new.items ≡ left.old.items ++ listed tasks.entry) }
{
    match tasks {
        Tasks::Nothing => {}
        Tasks::One(task) => left.push(task)?,
        Tasks::Two { first, then } => {
            left.push(then)?;
            left.push(first)?;
        }
    }
    Ok(())
}

/// A step that leads to these tasks, and needs no slot.
fn leads_to<'i, 'e>(slot: usize, tasks: Tasks<'i, 'e>) -> Step<'i, 'e>
    ensures { result ≡ record { slot = slot; tasks = tasks.entry } }
{
    Step { slot, tasks }
}

/// Emits what a task has of its own.
fn emit_task<'i, 'e>(
    context: &CompileContext<'_, 'i, 'e>,
    emitter: &mut Emitter,
    task: Task<'i, 'e>,
    slot: usize,
) -> Result<Step<'i, 'e>, CompileError>
    ensures { EmitsTask context.now task.entry emitter.old emitter.new slot result }
{
    match task {
        Task::Node {
            info,
            steps_back,
            scope,
        } => emit_node_task(context, emitter, info, steps_back, scope, slot),
        Task::Body {
            body,
            for_any,
            info,
            scope,
        } => emit_body(context, emitter, body, for_any, info, scope, slot),
        Task::Whole { info, scope } => {
            let tasks = whole_tasks(context.alloc, info, scope)?;
            Ok(leads_to(slot, tasks))
        }
        Task::Tail { parts, scope } => emit_tail(context, emitter, parts, scope, slot),
        Task::Row { parts, scope } => Ok(leads_to(slot, row_tasks(parts, scope))),
        Task::Branches {
            branches,
            steps_back,
            scope,
        } => emit_branches(emitter, branches, steps_back, scope, slot),
        Task::Otherwise {
            split,
            first,
            branches,
            steps_back,
            scope,
        } => emit_otherwise(emitter, (split, first), branches, steps_back, scope, slot),
        Task::Tested {
            slot: height_slot,
            split,
            first,
            yes,
            no,
            scope,
        } => emit_tested(emitter, height_slot, (split, first), (yes, no), scope, slot),
        Task::Close(closing) => {
            close(&mut emitter.body, closing)?;
            Ok(leads_to(slot, Tasks::Nothing))
        }
        Task::EndCall => {
            emitter.opened.pop();
            Ok(leads_to(slot, Tasks::Nothing))
        }
    }
}

/// The parts of a whole pattern: those of a concatenation before its tail, and that tail; or its root. The error is want of memory.
fn whole_tasks<'i, 'e>(
    alloc: Global,
    info: &'i Info<'e>,
    scope: Scope,
) -> Result<Tasks<'i, 'e>, AllocError>
    ensures leads { IfOk result (λ tasks. (context : TheContext) (emitter : TheEmitter) (slot : ℕ) →
        LeadsOn context (the_task.Whole info.entry scope) emitter emitter slot (record { slot = slot; tasks = tasks })) }
    ensures work { IfOk result (λ tasks. (groups : List InfoTree) →
        tasks_work groups (listed tasks) < task_work groups (the_task.Whole info.entry scope)) }
{
    match info.expr {
        Expr::Concat(_) => {
            let begin = tail_from(alloc, &info.children)?;
            let (parts, last) = info.children.split_at(begin);
            Ok(Tasks::Two {
                first: Task::Row { parts, scope },
                then: Task::Tail { parts: last, scope },
            })
        }
        _ => Ok(Tasks::One(node_task(info, scope))),
    }
}

/// Emits the tail of a whole pattern, after one instruction if it is delegated.
fn emit_tail<'i, 'e>(
    context: &CompileContext<'_, 'i, 'e>,
    emitter: &mut Emitter,
    parts: &'i [Info<'e>],
    scope: Scope,
    slot: usize,
) -> Result<Step<'i, 'e>, CompileError>
    ensures { EmitsTask context.now (the_task.Tail parts.entry scope) emitter.old emitter.new slot result }
{
    let row = Task::Row { parts, scope };
    match emitter
        .parts
        .delegate_row(context.alloc, parts, context.unicode)?
    {
        Some(part) => {
            let begin = begin_tail(&mut emitter.body, part)?;
            Ok(leads_to(
                slot,
                Tasks::Two {
                    first: row,
                    then: Task::Close(Closing::Tail { begin }),
                },
            ))
        }
        None => Ok(leads_to(slot, Tasks::One(row))),
    }
}

/// Appends the instruction that begins a delegated tail, whose end is set later. Returns its index.
fn begin_tail(body: &mut ProgramBuilder, part: Arc<Delegate>) -> Result<usize, CompileError>
    ensures begin { IfOk result (λ begin. begin ≡ length (closed_draft (draft_of body.old)).ops) }
    ensures appends { Appends (with_op (op_of (the_insn.DelegateTail part 0)) (closed_draft (draft_of body.old))) 1
        body.old body.new result }
{
    body.flush()?;
    let begin = body.len();
    body.push_insn(Insn::DelegateTail { part, end: 0 })?;
    Ok(begin)
}

/// The first part of a concatenation, and the others.
fn row_tasks<'i, 'e>(parts: &'i [Info<'e>], scope: Scope) -> Tasks<'i, 'e>
    ensures leads { (context : TheContext) (emitter : TheEmitter) (slot : ℕ) →
        LeadsOn context (the_task.Row parts.entry scope) emitter emitter slot (record { slot = slot; tasks = result }) }
    ensures work { (groups : List InfoTree) → tasks_work groups (listed result) < infos_work groups scope parts.now }
{
    match parts.split_first() {
        Some((info, parts)) => Tasks::Two {
            first: node_task(info, scope),
            then: Task::Row { parts, scope },
        },
        None => Tasks::Nothing,
    }
}

/// Begins an alternation.
fn emit_branches<'i, 'e>(
    emitter: &mut Emitter,
    branches: &'i [Info<'e>],
    steps_back: bool,
    scope: Scope,
    slot: usize,
) -> Result<Step<'i, 'e>, CompileError>
    ensures { (context : TheContext) → EmitsTask context
        (the_task.Branches branches.entry steps_back scope) emitter.old emitter.new slot result }
{
    let Some((info, others)) = branches.split_first() else {
        emitter.body.flush_and_push(Insn::Fail)?;
        return Ok(leads_to(slot, Tasks::Nothing));
    };
    let branch = Task::Node {
        info,
        steps_back,
        scope,
    };
    if others.is_empty() {
        return Ok(leads_to(slot, Tasks::One(branch)));
    }
    let begins = begin_choice(&mut emitter.body)?;
    let (split, first) = begins;
    let otherwise = Task::Otherwise {
        split,
        first,
        branches: others,
        steps_back,
        scope,
    };
    Ok(leads_to(
        slot,
        Tasks::Two {
            first: branch,
            then: otherwise,
        },
    ))
}

/// Appends a choice whose targets are set later. Returns its index, and that of the instruction after it.
fn begin_choice(body: &mut ProgramBuilder) -> Result<(usize, usize), CompileError>
    ensures split { IfOk result (λ begins. begins.0 ≡ length (closed_draft (draft_of body.old)).ops) }
    ensures first { IfOk result (λ begins. begins.1 ≡ length (draft_of body.new).ops) }
    ensures appends { Appends (with_op (op.split 0 0) (closed_draft (draft_of body.old))) 1 body.old body.new result }
{
    body.flush()?;
    let split = body.len();
    body.push_insn(Insn::Split(0, 0))?;
    Ok((split, body.len()))
}

/// Begins an atomic group that keeps its height in this slot, and appends a choice whose targets are set later. Returns the index of
/// the choice, and that of the instruction after it.
fn begin_atomic_choice(
    body: &mut ProgramBuilder,
    slot: usize,
) -> Result<(usize, usize), CompileError>
    ensures split { IfOk result (λ begins. begins.0 ≡ length (added (op.begin_atomic slot) (draft_of body.old)).ops) }
    ensures first { IfOk result (λ begins. begins.1 ≡ length (draft_of body.new).ops) }
    ensures appends { Appends (with_op (op.split 0 0) (added (op.begin_atomic slot) (draft_of body.old))) 2 body.old body.new result }
{
    body.flush_and_push(Insn::BeginAtomic(slot))?;
    let split = body.len();
    body.push_insn(Insn::Split(0, 0))?;
    Ok((split, body.len()))
}

/// Appends this instruction, and one after it that is replaced later, where each iteration of a loop begins. Returns the index of
/// the latter.
fn begin_loop(body: &mut ProgramBuilder, begin: Insn) -> Result<usize, CompileError>
    ensures head { IfOk result (λ head. head ≡ length (added (op_of begin) (draft_of body.old)).ops) }
    ensures appends { Appends (with_op op.fail (added (op_of begin) (draft_of body.old))) 2 body.old body.new result }
{
    body.flush_and_push(begin)?;
    let head = body.len();
    body.push_insn(Insn::Fail)?;
    Ok(head)
}

/// Ends a branch by a jump over the others, which is patched later, and goes on with those.
fn emit_otherwise<'i, 'e>(
    emitter: &mut Emitter,
    begins: (usize, usize),
    branches: &'i [Info<'e>],
    steps_back: bool,
    scope: Scope,
    slot: usize,
) -> Result<Step<'i, 'e>, CompileError>
    ensures { (context : TheContext) → EmitsTask context
        (the_task.Otherwise begins.0 begins.1 branches.entry steps_back scope) emitter.old emitter.new slot result }
{
    emitter.body.flush()?;
    let jump = emitter.body.len();
    emitter.body.push_insn(Insn::Jmp(0))?;
    let second = emitter.body.len();
    let (split, first) = begins;
    emitter.body.patch(split, Insn::Split(first, second));
    let others = Task::Branches {
        branches,
        steps_back,
        scope,
    };
    Ok(leads_to(
        slot,
        Tasks::Two {
            first: others,
            then: Task::Close(Closing::Alternatives { jump }),
        },
    ))
}

/// Ends the condition of a conditional, and goes on with what is matched where it matches.
fn emit_tested<'i, 'e>(
    emitter: &mut Emitter,
    height_slot: usize,
    begins: (usize, usize),
    branches: (&'i Info<'e>, &'i Info<'e>),
    scope: Scope,
    slot: usize,
) -> Result<Step<'i, 'e>, CompileError>
    ensures { (context : TheContext) → EmitsTask context
        (the_task.Tested height_slot begins.0 begins.1 branches.entry.0 branches.entry.1 scope) emitter.old emitter.new slot result }
{
    emitter.body.flush_and_push(Insn::EndAtomic(height_slot))?;
    let (split, first) = begins;
    let (yes, no) = branches;
    let otherwise = Task::Otherwise {
        split,
        first,
        branches: slice::from_ref(no),
        steps_back: false,
        scope,
    };
    Ok(leads_to(
        slot,
        Tasks::Two {
            first: node_task(yes, scope),
            then: otherwise,
        },
    ))
}

/// Emits a node; with `steps_back` it first goes back by its own length.
fn emit_node_task<'i, 'e>(
    context: &CompileContext<'_, 'i, 'e>,
    emitter: &mut Emitter,
    info: &'i Info<'e>,
    steps_back: bool,
    scope: Scope,
    slot: usize,
) -> Result<Step<'i, 'e>, CompileError>
    ensures { EmitsTask context.now (the_task.Node info.entry steps_back scope) emitter.old emitter.new slot result }
{
    if steps_back {
        emit_look_behind_body(context, emitter, info, scope, slot)
    } else {
        emit_node(context, emitter, info, scope, slot)
    }
}

/// Emits the body of a look-behind: goes back by its length, then matches it. In an alternation of unequal lengths each branch
/// goes back by its own. The error is `LookBehindNotConst` for a body of variable length.
fn emit_look_behind_body<'i, 'e>(
    context: &CompileContext<'_, 'i, 'e>,
    emitter: &mut Emitter,
    info: &'i Info<'e>,
    scope: Scope,
    slot: usize,
) -> Result<Step<'i, 'e>, CompileError>
    ensures { EmitsTask context.now (the_task.Node info.entry true scope) emitter.old emitter.new slot result }
{
    if info.const_size {
        emitter.body.flush_and_push(Insn::GoBack(info.min_size))?;
        return emit_node(context, emitter, info, scope, slot);
    }
    match info.expr {
        Expr::Alt(_) => Ok(leads_to(
            slot,
            Tasks::One(Task::Branches {
                branches: &info.children,
                steps_back: true,
                scope,
            }),
        )),
        _ => Err(CompileError::LookBehindNotConst),
    }
}

/// Emits what a node has of its own.
fn emit_node<'i, 'e>(
    context: &CompileContext<'_, 'i, 'e>,
    emitter: &mut Emitter,
    info: &'i Info<'e>,
    scope: Scope,
    slot: usize,
) -> Result<Step<'i, 'e>, CompileError>
    ensures { EmitsTask context.now (the_task.Node info.entry false scope) emitter.old emitter.new slot result }
{
    match info.expr {
        Expr::Empty => Ok(leads_to(slot, Tasks::Nothing)),
        Expr::Concat(_) => Ok(leads_to(
            slot,
            Tasks::One(Task::Row {
                parts: &info.children,
                scope,
            }),
        )),
        Expr::Alt(_) => Ok(leads_to(
            slot,
            Tasks::One(Task::Branches {
                branches: &info.children,
                steps_back: false,
                scope,
            }),
        )),
        Expr::Group(_) => {
            let child = child_at(info, 0)?;
            emit_group(emitter, child, info.start_group(), scope, slot)
        }
        Expr::LookAround(body, how) => {
            let child = child_at(info, 0)?;
            emit_look_around(emitter, body, child, *how, scope, slot)
        }
        Expr::Repeat { lo, hi, greedy, .. } => {
            let child = child_at(info, 0)?;
            emit_repeat(emitter, child, (*lo, *hi), *greedy, scope, slot)
        }
        Expr::AtomicGroup(body) => {
            let child = child_at(info, 0)?;
            emit_atomic(emitter, body, child, scope, slot)
        }
        Expr::Conditional { condition, .. } => {
            let tested = child_at(info, 0)?;
            let branches = (child_at(info, 1)?, child_at(info, 2)?);
            emit_conditional(emitter, condition, tested, branches, scope, slot)
        }
        Expr::SubroutineCall(target) => emit_call(context, emitter, *target, scope, slot),
        Expr::Absent(absent) => match absent {
            Absent::Repeater(_) => {
                let child = child_at(info, 0)?;
                emit_absent(context, emitter, child, scope, slot)
            }
            _ => Err(not_supported(context.alloc, "absent operator")),
        },
        Expr::DefineGroup { .. } => Ok(leads_to(slot, Tasks::Nothing)),
        leaf => {
            emit_leaf(context, emitter, leaf, scope)?;
            Ok(leads_to(slot, Tasks::Nothing))
        }
    }
}

/// The child at this index. The error is `UnresolvedAstNode` if there is none; a parsed tree has it.
fn child_at<'i, 'e>(info: &'i Info<'e>, place: usize) -> Result<&'i Info<'e>, CompileError>
    ensures value { IfOk result (λ child. slice_get (out-Info info.now).children.items place ≡ Some child.now) }
    ensures full { IfErr result (λ e. is_too_complex e ≡ false) }
    ensures refused { IfErr result (λ e. slice_get (out-Info info.now).children.items place ≡ None) }
{
    match info.children.get(place) {
        Some(child) => Ok(child),
        None => Err(CompileError::UnresolvedAstNode),
    }
}

/// Begins the capture group of this number.
fn emit_group<'i, 'e>(
    emitter: &mut Emitter,
    child: &'i Info<'e>,
    number: usize,
    scope: Scope,
    slot: usize,
) -> Result<Step<'i, 'e>, CompileError>
    ensures { Begins emitter.old emitter.new slot result scope.may_keep
        (λ (context : TheContext). pat.group number (node_pattern context child.now false scope emitter.old.opened.items))
        (λ tree_context. IsExpandedPart tree_context scope.may_keep scope.may_be_absent false (info_of child.now))
        (λ groups. 2 + info_work groups scope child.now) }
{
    let inside = past_slots(slot, 1)?;
    let start = first_slot(number)?;
    let end = past_slots(start, 1)?;
    emitter.body.flush_and_push(Insn::Save(slot))?;
    let closing = Closing::Group {
        saved_start: slot,
        start,
        end,
    };
    Ok(enclosed_node(child, false, scope, closing, inside))
}

/// A step to the part of a construct, and then to its end.
fn enclosed_node<'i, 'e>(
    info: &'i Info<'e>,
    steps_back: bool,
    scope: Scope,
    closing: Closing,
    slot: usize,
) -> Step<'i, 'e>
    ensures tasks { listed result.tasks ≡ the_task.Close closing ∷ the_task.Node info.entry steps_back scope ∷ [] }
    ensures slot { result.slot ≡ slot }
    ensures work { (groups : List InfoTree) → tasks_work groups (listed result.tasks) < 2 + info_work groups scope info.now }
{
    let first = Task::Node {
        info,
        steps_back,
        scope,
    };
    let then = Task::Close(closing);
    Step {
        slot,
        tasks: Tasks::Two { first, then },
    }
}

/// A step to the body of a construct, of which only the first way matters, or with `for_any` only whether there is one, and then to the
/// end of the construct.
fn enclosed_body<'i, 'e>(
    body: &'e Expr,
    for_any: bool,
    info: &'i Info<'e>,
    scope: Scope,
    closing: Closing,
    slot: usize,
) -> Step<'i, 'e>
    ensures tasks { listed result.tasks ≡ the_task.Close closing ∷ the_task.Body body.entry for_any info.entry scope ∷ [] }
    ensures slot { result.slot ≡ slot }
    ensures work { (groups : List InfoTree) → tasks_work groups (listed result.tasks) < 3 + info_work groups scope info.now }
{
    let first = Task::Body {
        body,
        for_any,
        info,
        scope,
    };
    let then = Task::Close(closing);
    Step {
        slot,
        tasks: Tasks::Two { first, then },
    }
}

/// Emits a body of which only the first way matters, or with `for_any` only whether there is one: one instruction if it is delegated.
fn emit_body<'i, 'e>(
    context: &CompileContext<'_, 'i, 'e>,
    emitter: &mut Emitter,
    body: &'e Expr,
    for_any: bool,
    info: &'i Info<'e>,
    scope: Scope,
    slot: usize,
) -> Result<Step<'i, 'e>, CompileError>
    ensures { EmitsTask context.now (the_task.Body body.entry for_any info.entry scope) emitter.old emitter.new slot result }
{
    match emitter
        .parts
        .delegate(context.alloc, body, for_any, context.unicode)?
    {
        Some(part) => {
            emitter.body.flush_and_push(Insn::Delegate(part))?;
            Ok(leads_to(slot, Tasks::Nothing))
        }
        None => Ok(leads_to(slot, Tasks::One(node_task(info, scope)))),
    }
}

/// Begins an atomic group.
fn emit_atomic<'i, 'e>(
    emitter: &mut Emitter,
    body: &'e Expr,
    child: &'i Info<'e>,
    scope: Scope,
    slot: usize,
) -> Result<Step<'i, 'e>, CompileError>
    ensures { Begins emitter.old emitter.new slot result scope.may_keep
        (λ (context : TheContext). pat.atomic (body_pattern context false body.now child.now scope emitter.old.opened.items))
        (λ tree_context. IsExpandedBody tree_context scope.may_keep scope.may_be_absent false (tree_of body.now) (info_of child.now))
        (λ groups. 3 + info_work groups scope child.now) }
{
    let inside = past_slots(slot, 1)?;
    emitter.body.flush_and_push(Insn::BeginAtomic(slot))?;
    let closing = Closing::AtomicGroup { slot };
    Ok(enclosed_body(body, false, child, scope, closing, inside))
}

/// Begins a look-around.
fn emit_look_around<'i, 'e>(
    emitter: &mut Emitter,
    body: &'e Expr,
    child: &'i Info<'e>,
    how: LookAround,
    scope: Scope,
    slot: usize,
) -> Result<Step<'i, 'e>, CompileError>
    ensures { Begins emitter.old emitter.new slot result scope.may_keep
        (λ (context : TheContext). look (tree_of body.now) how (part context scope emitter.old.opened.items child.now))
        (λ tree_context. IsExpandedBody tree_context false scope.may_be_absent (looks_behind how) (tree_of body.now) (info_of child.now))
        (λ groups. 3 + info_work groups scope child.now) }
{
    match how {
        LookAround::LookAhead => emit_positive_look_ahead(emitter, body, child, scope, slot),
        LookAround::LookAheadNeg => emit_negative_look_ahead(emitter, body, child, scope, slot),
        LookAround::LookBehind => emit_positive_look_behind(emitter, child, scope, slot),
        LookAround::LookBehindNeg => emit_negative_look_behind(emitter, child, scope, slot),
    }
}

/// Begins a positive look-ahead.
fn emit_positive_look_ahead<'i, 'e>(
    emitter: &mut Emitter,
    body: &'e Expr,
    info: &'i Info<'e>,
    scope: Scope,
    slot: usize,
) -> Result<Step<'i, 'e>, CompileError>
    ensures { Begins emitter.old emitter.new slot result scope.may_keep
        (λ (context : TheContext). pat.ahead (body_pattern context true body.now info.now scope emitter.old.opened.items))
        (λ tree_context. IsExpandedBody tree_context false scope.may_be_absent false (tree_of body.now) (info_of info.now))
        (λ groups. 3 + info_work groups scope info.now) }
{
    let inside = past_slots(slot, 1)?;
    emitter.body.flush_and_push(Insn::Save(slot))?;
    let closing = Closing::PositiveLookAround { slot };
    let looking = Scope {
        may_keep: false,
        ..scope
    };
    Ok(enclosed_body(body, true, info, looking, closing, inside))
}

/// Begins a positive look-behind.
fn emit_positive_look_behind<'i, 'e>(
    emitter: &mut Emitter,
    info: &'i Info<'e>,
    scope: Scope,
    slot: usize,
) -> Result<Step<'i, 'e>, CompileError>
    ensures { Begins emitter.old emitter.new slot result scope.may_keep
        (λ (context : TheContext). pat.ahead (node_pattern context info.now true scope emitter.old.opened.items))
        (λ tree_context. IsExpandedPart tree_context false scope.may_be_absent true (info_of info.now))
        (λ groups. 2 + info_work groups scope info.now) }
{
    let inside = past_slots(slot, 1)?;
    emitter.body.flush_and_push(Insn::Save(slot))?;
    let looking = Scope {
        may_keep: false,
        ..scope
    };
    Ok(enclosed_node(
        info,
        true,
        looking,
        Closing::PositiveLookAround { slot },
        inside,
    ))
}

/// Begins a negative look-ahead.
fn emit_negative_look_ahead<'i, 'e>(
    emitter: &mut Emitter,
    body: &'e Expr,
    info: &'i Info<'e>,
    scope: Scope,
    slot: usize,
) -> Result<Step<'i, 'e>, CompileError>
    ensures { Begins emitter.old emitter.new slot result scope.may_keep
        (λ (context : TheContext). pat.never (body_pattern context true body.now info.now scope emitter.old.opened.items))
        (λ tree_context. IsExpandedBody tree_context false scope.may_be_absent false (tree_of body.now) (info_of info.now))
        (λ groups. 3 + info_work groups scope info.now) }
{
    let inside = past_slots(slot, 1)?;
    let begins = begin_atomic_choice(&mut emitter.body, slot)?;
    let (split, first) = begins;
    let closing = Closing::NegativeLookAround { slot, split, first };
    let looking = Scope {
        may_keep: false,
        ..scope
    };
    Ok(enclosed_body(body, true, info, looking, closing, inside))
}

/// Begins a negative look-behind.
fn emit_negative_look_behind<'i, 'e>(
    emitter: &mut Emitter,
    info: &'i Info<'e>,
    scope: Scope,
    slot: usize,
) -> Result<Step<'i, 'e>, CompileError>
    ensures { Begins emitter.old emitter.new slot result scope.may_keep
        (λ (context : TheContext). pat.never (node_pattern context info.now true scope emitter.old.opened.items))
        (λ tree_context. IsExpandedPart tree_context false scope.may_be_absent true (info_of info.now))
        (λ groups. 2 + info_work groups scope info.now) }
{
    let inside = past_slots(slot, 1)?;
    let begins = begin_atomic_choice(&mut emitter.body, slot)?;
    let (split, first) = begins;
    let closing = Closing::NegativeLookAround { slot, split, first };
    let looking = Scope {
        may_keep: false,
        ..scope
    };
    Ok(enclosed_node(info, true, looking, closing, inside))
}

/// Begins a quantifier; the greatest count `usize::MAX` is no bound. A body that is repeated zero times is left out. The error
/// is `RepeatBoundsReversed` if the least count exceeds the greatest, and `Memory` for a least count of `usize::MAX`.
fn emit_repeat<'i, 'e>(
    emitter: &mut Emitter,
    child: &'i Info<'e>,
    bounds: (usize, usize),
    greedy: bool,
    scope: Scope,
    slot: usize,
) -> Result<Step<'i, 'e>, CompileError>
    ensures { (context : TheContext) → EmitsPattern context
        (repeated (node_pattern context child.now false scope emitter.old.opened.items) bounds.0 bounds.1 greedy) scope.may_keep
        (λ tree_context. IsExpandedRepeat tree_context scope.may_keep scope.may_be_absent bounds.0 bounds.1 (info_of child.now))
        (2 + info_work (infos_of context) scope child.now) emitter.old emitter.new slot result }
{
    let (lo, hi) = bounds;
    if lo > hi {
        return Err(CompileError::RepeatBoundsReversed);
    }
    if hi == 0 {
        return Ok(leads_to(slot, Tasks::Nothing));
    }
    if lo == usize::MAX {
        return Err(CompileError::Memory);
    }
    if hi == usize::MAX {
        emit_unbounded_repeat(emitter, child, lo, greedy, scope, slot)
    } else {
        emit_bounded_repeat(emitter, child, (lo, hi), greedy, scope, slot)
    }
}

/// Begins a bounded repeat.
fn emit_bounded_repeat<'i, 'e>(
    emitter: &mut Emitter,
    child: &'i Info<'e>,
    bounds: (usize, usize),
    greedy: bool,
    scope: Scope,
    slot: usize,
) -> Result<Step<'i, 'e>, CompileError>
    ensures { Begins emitter.old emitter.new slot result scope.may_keep
        (λ (context : TheContext).
        pat.repeat (node_pattern context child.now false scope emitter.old.opened.items) bounds.0 (Some bounds.1) greedy)
        (λ tree_context. IsExpandedPart tree_context scope.may_keep scope.may_be_absent false (info_of child.now))
        (λ groups. 2 + info_work groups scope child.now) }
{
    let inside = past_slots(slot, 1)?;
    let head = begin_loop(&mut emitter.body, Insn::BeginRepeat(slot))?;
    let closing = Closing::BoundedRepeat {
        head,
        bounds,
        greedy,
        slot,
    };
    Ok(enclosed_node(child, false, scope, closing, inside))
}

/// Begins an unbounded repeat.
fn emit_unbounded_repeat<'i, 'e>(
    emitter: &mut Emitter,
    child: &'i Info<'e>,
    lo: usize,
    greedy: bool,
    scope: Scope,
    slot: usize,
) -> Result<Step<'i, 'e>, CompileError>
    requires { lo < unset }
    ensures { Begins emitter.old emitter.new slot result scope.may_keep
        (λ (context : TheContext). pat.repeat (node_pattern context child.now false scope emitter.old.opened.items) lo None greedy)
        (λ tree_context. IsExpandedPart tree_context scope.may_keep scope.may_be_absent false (info_of child.now))
        (λ groups. 2 + info_work groups scope child.now) }
{
    let check = past_slots(slot, 1)?;
    let inside = past_slots(slot, 2)?;
    let head = begin_loop(&mut emitter.body, Insn::Fail)?;
    let closing = Closing::UnboundedRepeat {
        head,
        lo,
        greedy,
        slot,
        check,
    };
    Ok(enclosed_node(child, false, scope, closing, inside))
}

/// Begins a conditional, whose condition has this body: the first branch if it matches, the second if it does not.
fn emit_conditional<'i, 'e>(
    emitter: &mut Emitter,
    body: &'e Expr,
    condition: &'i Info<'e>,
    branches: (&'i Info<'e>, &'i Info<'e>),
    scope: Scope,
    slot: usize,
) -> Result<Step<'i, 'e>, CompileError>
    ensures { Begins emitter.old emitter.new slot result scope.may_keep
        (λ (context : TheContext). pat.conditional (body_pattern context false body.now condition.now scope emitter.old.opened.items)
        (node_pattern context branches.entry.0.now false scope emitter.old.opened.items)
        (node_pattern context branches.entry.1.now false scope emitter.old.opened.items))
        (λ tree_context. IsExpandedConditional tree_context scope.may_keep scope.may_be_absent (tree_of body.now) (info_of condition.now)
        (info_of branches.entry.0.now) (info_of branches.entry.1.now))
        (λ groups. 10 + (info_work groups scope condition.now
        + (info_work groups scope branches.entry.0.now + info_work groups scope branches.entry.1.now))) }
{
    let (yes, no) = branches;
    let inside = past_slots(slot, 1)?;
    let begins = begin_atomic_choice(&mut emitter.body, slot)?;
    let (split, first) = begins;
    let tested = Task::Tested {
        slot,
        split,
        first,
        yes,
        no,
        scope,
    };
    Ok(leads_to(
        inside,
        Tasks::Two {
            first: Task::Body {
                body,
                for_any: false,
                info: condition,
                scope,
            },
            then: tested,
        },
    ))
}

/// Begins a subroutine call: an instruction where calls of the target stay, and else what is written out. The error is
/// `SubroutineCallTargetNotFound` if there is no such group.
fn emit_call<'i, 'e>(
    context: &CompileContext<'_, 'i, 'e>,
    emitter: &mut Emitter,
    target: usize,
    scope: Scope,
    slot: usize,
) -> Result<Step<'i, 'e>, CompileError>
    ensures { EmitsPattern context.now
        (info_call (infos_of context.now) scope.calls_left emitter.old.opened.items target) scope.may_keep
        (λ tree_context. IsExpandedTarget tree_context scope.may_keep scope.may_be_absent (infos_of context.now) target)
        (1 + call_work (infos_of context.now) scope.calls_left target) emitter.old emitter.new slot result }
{
    if target >= context.groups.len() {
        return Err(CompileError::SubroutineCallTargetNotFound(format!(in context.alloc;
            "{target}"
        )?));
    }
    match context.drafts.get(target) {
        Some(Some(draft)) => {
            let need = Need {
                group: target,
                may_keep: scope.may_keep,
                may_be_absent: scope.may_be_absent,
            };
            emit_kept_call(context, emitter, need, draft, slot)
        }
        _ => emit_written_call(context, emitter, target, scope, slot),
    }
}

/// Emits a call that stays, and notes what it needs.
fn emit_kept_call<'i, 'e>(
    context: &CompileContext<'_, 'i, 'e>,
    emitter: &mut Emitter,
    need: Need,
    draft: &Arc<Callee>,
    slot: usize,
) -> Result<Step<'i, 'e>, CompileError>
    requires there { need.group < length (infos_of context.now) }
    requires stays { layout_of context.now need.group ≡ Some (draft_place draft.now) }
    ensures { (p : CorePattern) → EmitsPattern context.now (pat.called need.group p) need.may_keep
        (λ tree_context. IsExpandedTarget tree_context need.may_keep need.may_be_absent (infos_of context.now) need.group) 1
        emitter.old emitter.new slot result }
{
    emitter.needs.note(need)?;
    emitter.body.flush_and_push(Insn::Call(draft.clone()?))?;
    Ok(leads_to(slot, Tasks::Nothing))
}

/// Begins a call that is written out: the body of its target, or `Fail` where the target is inlined inside of itself as often as is
/// allowed. A call that writes nothing is done at once. One that writes nothing but characters is refused at once where there is no room
/// for them.
fn emit_written_call<'i, 'e>(
    context: &CompileContext<'_, 'i, 'e>,
    emitter: &mut Emitter,
    target: usize,
    scope: Scope,
    slot: usize,
) -> Result<Step<'i, 'e>, CompileError>
    requires there { target < vec_len context.now.groups.now }
    requires inlined { layout_of context.now target ≡ None }
    ensures { EmitsPattern context.now
        (info_call (infos_of context.now) scope.calls_left emitter.old.opened.items target) scope.may_keep
        (λ tree_context. IsExpandedTarget tree_context scope.may_keep scope.may_be_absent (infos_of context.now) target)
        (1 + call_work (infos_of context.now) scope.calls_left target) emitter.old emitter.new slot result }
{
    if context
        .inlined
        .writes_nothing(&emitter.opened, scope.calls_left, target)
    {
        return Ok(leads_to(slot, Tasks::Nothing));
    }
    check_text(context, emitter, target, scope)?;
    let body = context.groups[target];
    if emitter.opened.is_full(target) || scope.calls_left == 0 {
        emitter.body.flush_and_push(Insn::Fail)?;
        return Ok(leads_to(slot, Tasks::Nothing));
    }
    emitter.opened.push(target)?;
    let called = Scope {
        calls_left: scope.calls_left - 1,
        ..scope
    };
    Ok(leads_to(
        slot,
        Tasks::Two {
            first: node_task(body, called),
            then: Task::EndCall,
        },
    ))
}

/// Refuses a call that writes nothing but characters at once where there is no room for them.
fn check_text(
    context: &CompileContext<'_, '_, '_>,
    emitter: &Emitter,
    target: usize,
    scope: Scope,
) -> Result<(), CompileError>
    ensures full { IfErr result (IsFull emitter.now.body
        (room_of context.now (info_call (infos_of context.now) scope.calls_left emitter.now.opened.items target))) }
    ensures refused { IfErr result IsMemoryOrTooComplex }
{
    if !context.drafts.is_empty() {
        return Ok(());
    }
    match context
        .texts
        .characters(&emitter.opened, scope.calls_left, target)
    {
        Some(characters) => emitter.body.check_room(characters),
        None => Ok(()),
    }
}

/// Begins an absent repeater. The error is `FeatureNotYetSupported` inside of another one.
fn emit_absent<'i, 'e>(
    context: &CompileContext<'_, '_, '_>,
    emitter: &mut Emitter,
    child: &'i Info<'e>,
    scope: Scope,
    slot: usize,
) -> Result<Step<'i, 'e>, CompileError>
    ensures { (context : TheContext) → EmitsPattern context
        (pat.absent (node_pattern context child.now false scope emitter.old.opened.items)) scope.may_keep
        (λ tree_context. IsExpandedAbsent tree_context scope.may_be_absent (info_of child.now))
        (2 + info_work (infos_of context) scope child.now) emitter.old emitter.new slot result }
{
    if !scope.may_be_absent {
        return Err(not_supported(context.alloc, "absent operator"));
    }
    let limit = past_slots(slot, 1)?;
    let inside = past_slots(slot, 2)?;
    let within = Scope {
        may_keep: false,
        may_be_absent: false,
        ..scope
    };
    let begin = absent_step(context.alloc, AbsentRepeater::Begin { start: slot, limit })?;
    let scan = begin_loop(&mut emitter.body, begin)?;
    let closing = Closing::AbsentRepeater {
        scan,
        start: slot,
        limit,
    };
    Ok(enclosed_node(child, false, within, closing, inside))
}
