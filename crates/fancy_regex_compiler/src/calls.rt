//! Programs in which calls stay calls, but for those of small groups, which are inlined: the main program, and behind it the body of each
//! group whose calls stay, with its return.

ghost use Rattle.std.specs.Prelude.{◌≡◌, ℕ, slice_get, Some, not, is_some, IfSome, ◌+◌, ◌*◌, ◌<◌, List, [], length, map, true, false, slice_index_or, All, IfOk, IfErr, None};
ghost use Rattle.fancy_regex_analysis.specs.AnalysisErrors.{is_too_complex};
ghost use Rattle.fancy_regex_info.specs.Infos.{info_of};
ghost use Rattle.fancy_regex_program.specs.Assembled.{resolved as resolved_op, or_draft};
ghost use Rattle.fancy_regex_program.specs.Layouts.{frames_end as place_end};
ghost use Rattle.fancy_regex_program.specs.Ops.{Op, place_of, op_of, ops_of};
ghost use Rattle.fancy_regex_program.specs.Shapes.{IsAllowed};
ghost use Rattle.fancy_regex_compiler.specs.Kept.{HasBodies, IsMet, MeetsNeed, WritesBodies, WholeStands, KeepsCallsOf};
ghost use Rattle.fancy_regex_compiler.specs.Inlined.{is_inlined, AreInlined, AreNamed, AreLaidOut};
ghost use Rattle.fancy_regex_compiler.specs.Kept.{ArePlaces, AreStacked, table_of, place_for, with_place, scope_for};
ghost use Rattle.fancy_regex_compiler.specs.Known.{pat_with};
ghost use Rattle.fancy_regex_compiler.specs.Needs.{AreOfGroups, AreStanding};
ghost use Rattle.fancy_regex_compiler.specs.Refusals.{IsMemoryOrTooComplex, IsReasonWhere};
ghost use Rattle.fancy_regex_compiler.specs.Writing.{draft_of, infos_of};

use crate::emit::emit_called;
use crate::emitter::{CompileContext, Emitter, Need, Scope, past_slots};
use crate::inlined_groups::InlinedGroups;
use crate::main_program::{max_open_calls, new_emitter, write_main};
use crate::open_calls::MAX_OPEN_CALLS_PER_GROUP;
use crate::program_builder::ProgramBuilder;
use fancy_regex_info::{CompileError, Info};
use fancy_regex_program::{Callee, Insn};
use std::alloc::{AllocError, Global};
use std::mem;
use std::sync::Arc;

/// The body of a group whose calls stay, in a program.
#[derive(Clone, Copy)]
pub(crate) struct Body {
    /// The group.
    pub group: usize,
    /// The first instruction.
    pub start: usize,
    /// The first of the group's own slots.
    pub first: usize,
    /// How many slots of its own the group has.
    pub own: usize,
}

/// The bodies that were written so far.
#[derive(Drop)]
pub(crate) struct Bodies {
    /// The bodies, one behind another.
    pub list: Vec<Body>,
    /// For each group whether its body is among them.
    pub written: Vec<bool>,
    /// The first slot after theirs.
    pub end: usize,
}

/// Where the groups are whose calls stay, and where their open calls are kept.
#[derive(Drop)]
pub(crate) struct Places {
    /// The place of each group, if its body was written.
    pub of_groups: Vec<Option<Arc<Callee>>>,
    /// The first slot after theirs.
    pub end: usize,
}

/// The instructions of the whole pattern in which calls stay calls, but for those of small groups, and the number of slots that they
/// need. The error is never `PatternTooComplex`.
pub(crate) fn write_calls<'i, 'e>(
    context: &CompileContext<'_, 'i, 'e>,
    info: &'i Info<'e>,
    anchored: bool,
) -> Result<(Vec<Insn>, usize), CompileError>
    requires some { 0 < length context.now.groups.now.items }
    requires inlined { AreInlined (infos_of context.now) context.now.inlined.now.rooms.items context.now.inlined.now.known }
    ensures kept { IfOk result (λ p. KeepsCallsOf context.now.unicode context.now.whole anchored (infos_of context.now)
        (info_of info.now) p.0.items p.1) }
    ensures allowed { IfOk result (λ _. IsAllowed context.now.unicode true (pat_with (infos_of context.now) (info_of info.now))) }
    ensures full { IfErr result (λ e. is_too_complex e ≡ false) }
    ensures refused { IfErr result (IsReasonWhere context.now.unicode (infos_of context.now) (WholeStands (info_of info.now))) }
{
    let drafts = drafts_of(context.alloc, context.inlined, context.groups.len())?;
    let context = CompileContext {
        alloc: context.alloc,
        groups: context.groups,
        whole: context.whole,
        unicode: context.unicode,
        texts: context.texts,
        inlined: context.inlined,
        drafts: &drafts,
    };
    match write_kept(&context, info, anchored) {
        Err(CompileError::PatternTooComplex) => Err(CompileError::Memory),
        written => written,
    }
}

/// What stands for the body of each group whose calls stay until it has a place: it tells the group by its start. The error is want of
/// memory.
fn drafts_of(
    alloc: Global,
    inlined: &InlinedGroups,
    count: usize,
) -> Result<Vec<Option<Arc<Callee>>>, AllocError>
    requires few { (k : ℕ) → is_inlined inlined.now.rooms.items k ≡ true → k < count }
    ensures count { IfOk result (λ drafts. length drafts.items ≡ count) }
    ensures named { IfOk result (λ drafts. AreNamed drafts.items) }
    ensures laid_out { IfOk result (λ drafts. AreLaidOut inlined.now.rooms.items drafts.items) }
{
    let mut drafts = Vec::new(alloc);
    for group in 0..count {
        let draft = draft_for(alloc, inlined, group)?;
        drafts.push(draft)?;
    }
    Ok(drafts)
}

/// What stands for the body of this group, if its calls stay. The error is want of memory.
fn draft_for(
    alloc: Global,
    inlined: &InlinedGroups,
    group: usize,
) -> Result<Option<Arc<Callee>>, AllocError>
    ensures named { IfOk result (λ drafted. IfSome drafted (λ draft. draft.value.start ≡ group)) }
    ensures laid_out { IfOk result (λ drafted. is_some drafted ≡ not (is_inlined inlined.now.rooms.items group)) }
{
    if inlined.contains(group) {
        return Ok(None);
    }
    let draft = Callee {
        start: group,
        count: 0,
        most: 0,
        frames: 0,
        first: 0,
        own: 0,
    };
    let shared = Arc::new(alloc, draft)?;
    Ok(Some(shared))
}

/// Writes the main program and the bodies of the groups whose calls stay, and lets those calls lead to them.
fn write_kept<'i, 'e>(
    context: &CompileContext<'_, 'i, 'e>,
    info: &'i Info<'e>,
    anchored: bool,
) -> Result<(Vec<Insn>, usize), CompileError>
    requires some { 0 < length context.now.groups.now.items }
    requires inlined { AreInlined (infos_of context.now) context.now.inlined.now.rooms.items context.now.inlined.now.known }
    requires drafted { length context.now.drafts.now.items ≡ length context.now.groups.now.items }
    ensures kept { IfOk result (λ p. KeepsCallsOf context.now.unicode context.now.whole anchored (infos_of context.now)
        (info_of info.now) p.0.items p.1) }
    ensures allowed { IfOk result (λ _. IsAllowed context.now.unicode true (pat_with (infos_of context.now) (info_of info.now))) }
    ensures refused { IfErr result (IsReasonWhere context.now.unicode (infos_of context.now) (WholeStands (info_of info.now))) }
{
    let mut emitter = new_emitter(context.alloc, None);
    let slot = write_main(context, &mut emitter, info, anchored)?;
    let bodies = write_bodies(context, &mut emitter, slot)?;
    emitter.body.push_insn(Insn::End)?;
    let places = places_of(context.alloc, &bodies)?;
    let insns = resolve(context.alloc, emitter.body.into_insns(), &places.of_groups)?;
    Ok((insns, places.end))
}

/// Writes the bodies that are needed, and those that they need; `slot` is the first free slot.
fn write_bodies<'i, 'e>(
    context: &CompileContext<'_, 'i, 'e>,
    emitter: &mut Emitter,
    slot: usize,
) -> Result<Bodies, CompileError>
    requires begins { (draft_of emitter.old.body).text ≡ [] }
    requires opened { emitter.old.opened.items ≡ [] }
    requires drafted { length context.now.drafts.now.items ≡ length context.now.groups.now.items }
    requires of_groups { AreOfGroups (length (infos_of context.now)) emitter.old.needs.list.items }
    ensures wrote { WritesBodies context.now slot emitter.old emitter.new result }
    ensures refused { IfErr result (IsReasonWhere context.now.unicode (infos_of context.now)
        (λ tree_context. AreStanding tree_context (infos_of context.now) emitter.old.needs.list.items)) }
{
    let mut bodies = Bodies {
        list: Vec::new(context.alloc),
        written: vec![in context.alloc; false; context.groups.len()]?,
        end: slot,
    };
    let mut done = 0;
    while done < emitter.needs.list.len() {
        let need = emitter.needs.list[done];
        meet_need(context, emitter, &mut bodies, need)?;
        done += 1;
    }
    Ok(bodies)
}

/// Writes the body that is needed, if that of the group was not written yet. Else it is only seen that it may stand there.
fn meet_need<'i, 'e>(
    context: &CompileContext<'_, 'i, 'e>,
    emitter: &mut Emitter,
    bodies: &mut Bodies,
    need: Need,
) -> Result<(), CompileError>
    requires group { need.group < length context.now.groups.now.items }
    requires opened { emitter.old.opened.items ≡ [] }
    requires drafted { length context.now.drafts.now.items ≡ length context.now.groups.now.items }
    requires marks { length bodies.old.written.items ≡ length context.now.groups.now.items }
    ensures bodies { IfOk result (λ _. (main : List Op) (from : ℕ) →
        HasBodies context.now main from (draft_of emitter.old.body) bodies.old →
        HasBodies context.now main from (draft_of emitter.new.body) bodies.new) }
    ensures met { IfOk result (λ _. IsMet context.now bodies.old bodies.new need) }
    ensures needs { MeetsNeed context.now need emitter.old emitter.new result }
{
    match &context.drafts[need.group] {
        Some(draft) => {
            if bodies.written[need.group] {
                try_body(context, emitter, need)
            } else {
                add_body(context, emitter, bodies, need, draft)
            }
        }
        None => Ok(()),
    }
}

/// Emits the body that is needed, and drops it again.
fn try_body<'i, 'e>(
    context: &CompileContext<'_, 'i, 'e>,
    emitter: &mut Emitter,
    need: Need,
) -> Result<(), CompileError>
    requires group { need.group < length context.now.groups.now.items }
    requires opened { emitter.old.opened.items ≡ [] }
    ensures same { IfOk result (λ _. emitter.new.body ≡ emitter.old.body) }
    ensures needs { MeetsNeed context.now need emitter.old emitter.new result }
{
    let body = mem::replace(&mut emitter.body, ProgramBuilder::new(context.alloc, None));
    emit_called(
        context,
        emitter,
        context.groups[need.group],
        scope_of(context, need)?,
        0,
    )?;
    emitter.body = body;
    Ok(())
}

/// Writes the body that is needed, and its return.
fn add_body<'i, 'e>(
    context: &CompileContext<'_, 'i, 'e>,
    emitter: &mut Emitter,
    bodies: &mut Bodies,
    need: Need,
    draft: &Arc<Callee>,
) -> Result<(), CompileError>
    requires group { need.group < length context.now.groups.now.items }
    requires opened { emitter.old.opened.items ≡ [] }
    requires drafted { length context.now.drafts.now.items ≡ length context.now.groups.now.items }
    requires marks { length bodies.old.written.items ≡ length context.now.groups.now.items }
    requires draft { slice_get context.now.drafts.now.items need.group ≡ Some (Some draft.now) }
    requires fresh { slice_index_or bodies.old.written.items need.group false ≡ false }
    ensures bodies { IfOk result (λ _. (main : List Op) (from : ℕ) →
        HasBodies context.now main from (draft_of emitter.old.body) bodies.old →
        HasBodies context.now main from (draft_of emitter.new.body) bodies.new) }
    ensures met { IfOk result (λ _. IsMet context.now bodies.old bodies.new need) }
    ensures needs { MeetsNeed context.now need emitter.old emitter.new result }
{
    let group = need.group;
    let start = emitter.body.len();
    let first = bodies.end;
    let scope = scope_of(context, need)?;
    let end = emit_called(context, emitter, context.groups[group], scope, first)?;
    emitter.body.flush_and_push(Insn::Return(draft.clone()?))?;
    let own = end - first;
    bodies.list.push(Body {
        group,
        start,
        first,
        own,
    })?;
    bodies.written[group] = true;
    bodies.end = end;
    Ok(())
}

/// The context of the body, around which no call is open. The error is `Memory`.
fn scope_of(context: &CompileContext<'_, '_, '_>, need: Need) -> Result<Scope, CompileError>
    ensures scope { IfOk result (λ scope. scope ≡ scope_for context.now need) }
    ensures refused { IfErr result IsMemoryOrTooComplex }
{
    Ok(Scope {
        calls_left: max_open_calls(context.groups.len())?,
        may_keep: need.may_keep,
        may_be_absent: need.may_be_absent,
    })
}

/// Gives each group with a body the slots for its open calls. The error is `Memory`.
fn places_of(alloc: Global, bodies: &Bodies) -> Result<Places, CompileError>
    requires { All (λ b. b.group < length bodies.now.written.items) bodies.now.list.items }
    ensures places { IfOk result (λ places. (from : ℕ) → AreStacked from bodies.now.end bodies.now.list.items →
        ArePlaces bodies.now.list.items from bodies.now.end (length bodies.now.list.items) (table_of places.of_groups.items) places.end) }
    ensures refused { IfErr result IsMemoryOrTooComplex }
{
    let mut places = Places {
        of_groups: no_places(alloc, bodies.written.len())?,
        end: bodies.end,
    };
    for body in &bodies.list {
        add_place(alloc, &mut places, *body)?;
    }
    Ok(places)
}

/// No place for so many groups. The error is want of memory.
fn no_places(alloc: Global, count: usize) -> Result<Vec<Option<Arc<Callee>>>, AllocError>
    ensures count { IfOk result (λ places. length places.items ≡ count) }
    ensures none { IfOk result (λ places. (k : ℕ) → table_of places.items k ≡ None) }
{
    let mut places = Vec::new(alloc);
    for group in 0..count {
        let _ = group;
        places.push(None)?;
    }
    Ok(places)
}

/// Gives the group of the body its place. The error is `Memory`.
fn add_place(alloc: Global, places: &mut Places, body: Body) -> Result<(), CompileError>
    requires { body.group < length places.old.of_groups.items }
    ensures count { IfOk result (λ _. length places.new.of_groups.items ≡ length places.old.of_groups.items) }
    ensures placed { IfOk result (λ _. (k : ℕ) → table_of places.new.of_groups.items k
        ≡ with_place body.group (place_for places.old.end body) (table_of places.old.of_groups.items) k) }
    ensures end { IfOk result (λ _. places.new.end ≡ place_end (place_for places.old.end body)) }
    ensures refused { IfErr result IsMemoryOrTooComplex }
{
    let count = places.end;
    let frames = past_slots(count, 1)?;
    let end = frames_end(frames, body.own)?;
    let callee = Callee {
        start: body.start,
        count,
        most: MAX_OPEN_CALLS_PER_GROUP,
        frames,
        first: body.first,
        own: body.own,
    };
    places.of_groups[body.group] = Some(Arc::new(alloc, callee)?);
    places.end = end;
    Ok(())
}

/// The first slot after the frames, where the group has so many slots of its own. The error is `Memory`, only if it exceeds `usize`.
fn frames_end(frames: usize, own: usize) -> Result<usize, CompileError>
    ensures value { IfOk result (λ end. end ≡ frames + 19 * (own + 1)) }
    ensures refused { IfErr result IsMemoryOrTooComplex }
{
    let frame = past_slots(own, 1)?;
    match frame.checked_mul(MAX_OPEN_CALLS_PER_GROUP) {
        Some(all) => past_slots(frames, all),
        None => Err(CompileError::Memory),
    }
}

/// The instructions, in which each call and each return leads to the place of its group. The error is want of memory.
fn resolve(
    alloc: Global,
    insns: Vec<Insn>,
    places: &[Option<Arc<Callee>>],
) -> Result<Vec<Insn>, AllocError>
    ensures { IfOk result (λ all. ops_of all.items ≡ map (resolved_op (table_of places.now)) (ops_of insns.items)) }
{
    let mut all = Vec::with_capacity(alloc, insns.len())?;
    for insn in insns {
        all.push(resolved(insn, places)?)?;
    }
    Ok(all)
}

/// The instruction with the place of its group, if it is a call or a return. The error is want of memory.
fn resolved(insn: Insn, places: &[Option<Arc<Callee>>]) -> Result<Insn, AllocError>
    ensures { IfOk result (λ new. op_of new ≡ resolved_op (table_of places.now) (op_of insn)) }
{
    match insn {
        Insn::Call(draft) => Ok(Insn::Call(placed(draft, places)?)),
        Insn::Return(draft) => Ok(Insn::Return(placed(draft, places)?)),
        other => Ok(other),
    }
}

/// The place of the group of a draft, or the draft where that has none. The error is want of memory.
fn placed(draft: Arc<Callee>, places: &[Option<Arc<Callee>>]) -> Result<Arc<Callee>, AllocError>
    ensures { IfOk result (λ new. place_of new.value ≡ or_draft (table_of places.now draft.value.start) (place_of draft.value)) }
{
    match places.get(draft.start) {
        Some(Some(place)) => place.clone(),
        _ => Ok(draft),
    }
}
