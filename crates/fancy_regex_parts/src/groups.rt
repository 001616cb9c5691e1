//! A walk along the way of a match and into its parts, which writes its slots.

ghost use Rattle.std.specs.Prelude.{◌≡◌, ◌+◌, ◌-◌, ◌*◌, ◌^◌, ◌<◌, ◌≤◌, ◌∷◌, ◌++◌, ℕ, List, Some, length, max, replicate, IfOk, IfSome, OnOk};
ghost use Rattle.std.specs.Char.{len_utf8};
ghost use Rattle.fancy_regex_class.specs.Looks.{looked_text, look_count};
ghost use Rattle.regex_hir.specs.Text.{char_at, char_before};
ghost use Rattle.fancy_regex_states.specs.First.{state_at};
ghost use Rattle.fancy_regex_states.specs.Attempts.{Continuation, Trace};
ghost use Rattle.fancy_regex_parts.specs.Ways.{ways_of};
ghost use Rattle.fancy_regex_parts.specs.Tables.{IsTable, cost_from, cost_of, due, owed, known_cost};
ghost use Rattle.fancy_regex_parts.specs.Frames.{IsInReach, IsLedInReach, IsPlace};
ghost use Rattle.fancy_regex_parts.specs.Layers.{CanAsk, ForTrueWays, IsTrueOf, IsWithinLooks, LeavesMemory};
ghost use Rattle.fancy_regex_parts.specs.Writes.{apply, list_of, IsExtended, SameWrites};
ghost use Rattle.fancy_regex_parts.specs.Walk.{ForTried, AreWalked, HasTrace, dearest, last_first, walk_tasks, AllTasksWithin, IsAt, part_end_of, EntersPart, IsArrival, IsWalkedIn, AreLeft, tasks_at, read_tasks, back_tasks, group_tasks, branch_of, IsWalking, tasks_due, work_left};
ghost use Rattle.fancy_regex_parts.specs.declared.groups.WalkTask.TheVariants.{Follow};

use crate::memory::PartMemory;
use crate::question::ask;
use crate::recall::{Known, Recall};
use crate::step::PartContext;
use crate::writes::WriteLists;
use fancy_regex_class::Counted;
use fancy_regex_states::State;
use std::alloc::{AllocError, Global};

/// What a walk has yet to do. What stands later in the text is done first, so that what is done next comes before what is written.
#[derive(Clone, Copy)]
pub enum WalkTask {
    /// Follow the first way from this state at this byte offset, where nothing is written.
    Follow { state: usize, at: usize },
    /// Follow the first way of the part that begins at this state, at this byte offset.
    Part { state: usize, at: usize },
    /// What is written is that of a part, and the list of this number comes after it.
    Join { rest: usize },
    /// What is written is that of the pair whose cell has this number.
    Keep { cell: usize },
    /// Write that this group begins at this byte offset.
    Start { group: usize, at: usize },
    /// Write that this group ends at this byte offset.
    End { group: usize, at: usize },
}

/// What walks have found out about the ways of the states of one context in one text: what the way from a marked state at a place
/// writes. Later walks use it. It has to be started anew for other parts, another text, other rules or another range of ends.
#[derive(Drop)]
pub struct WalkMemory {
    /// For pairs of a marked state and a byte offset the number of the list.
    pub(crate) visited: Recall,
    /// What ways write.
    pub(crate) lists: WriteLists,
    /// The next task is the last one.
    pub(crate) tasks: Vec<WalkTask>,
}

impl WalkMemory {
    /// The memory of no walk so far. It allocates nothing.
    pub fn new(alloc: Global) -> WalkMemory {
        WalkMemory {
            visited: Recall::new(alloc),
            lists: WriteLists::new(alloc),
            tasks: Vec::new(alloc),
        }
    }

    /// Forgets everything: the memory is that of these parts and of any text, for byte offsets from `base` on.
    pub fn restart(&mut self, context: &PartContext, base: usize)
        ensures walked { (len : ℕ) → IsWalkedIn context.now.table.now len base self.new }
        ensures known { (go : ℕ → Continuation) → AreWalked go context.now.table.now.heads.items self.new }
        ensures cost { known_cost context.now.table.now self.new.visited ≡ 0 }
    {
        self.visited.restart(context.table.heads.len(), base);
        self.lists.clear();
    }
}

/// Follows the first way from the context's entry at `start` and into the parts on it, and writes the slots of the groups: slot 2g where
/// the group g is entered last, slot 2g + 1 where it is left last. The other slots become unset, `usize::MAX`, and a slot that is not
/// there is passed over. A group in a part that is asked, or in an atomic group, is on the part's own first way; one in a part that
/// must have no way is not. The state has to have a way from `start`, as `ask` tells: the walk tests no assertion and no character
/// again, and where there is no way the slots mean nothing. What the way from a marked state at a place writes is kept, and no walk
/// follows it again, nor one from which no way writes a slot. A step takes at most as many looks as the dearest state, and the questions
/// that the memory does not answer yet take those that it is paid for. The error is want of memory, and what the memory remembers then
/// is still true.
pub fn walk(
    context: &PartContext,
    text: &mut Counted,
    memory: &mut PartMemory,
    walked: &mut WalkMemory,
    start: usize,
    slots: &mut [usize],
) -> Result<(), AllocError>
    requires ready { CanAsk context.now text.old memory.old }
    requires place { IsInReach context.now.table.now (looked_text text.old) memory.old.recall.base context.now.entry start }
    requires walked { IsWalkedIn context.now.table.now (length (looked_text text.old)) memory.old.recall.base walked.old }
    ensures written { OnOk result (ForTried context.now (looked_text text.old) memory.old.recall (λ go.
        AreWalked go context.now.table.now.heads.items walked.old → (t : Trace) → (go context.now.entry start).answer ≡ Some t
        → slots.new ≡ apply t.writes (replicate (length slots.old) (2 ^ 64 - 1)))) }
    ensures known { ForTried context.now (looked_text text.old) memory.old.recall (λ go.
        AreWalked go context.now.table.now.heads.items walked.old → HasTrace (go context.now.entry start).answer
        → AreWalked go context.now.table.now.heads.items walked.new) }
    ensures walked { IsWalkedIn context.now.table.now (length (looked_text text.old)) memory.old.recall.base walked.new }
    ensures leaves { LeavesMemory context.now text.old text.new memory.old memory.new }
    ensures counted { OnOk result (look_count text.new + known_cost context.now.table.now memory.old.recall
        + dearest context.now.table.now context.now.entry * known_cost context.now.table.now walked.old.visited
        ≤ look_count text.old + known_cost context.now.table.now memory.new.recall
        + dearest context.now.table.now context.now.entry * due context.now.table.now context.now.entry
        + dearest context.now.table.now context.now.entry * known_cost context.now.table.now walked.new.visited) }
    ensures at_most { OnOk result (look_count text.new ≤ look_count text.old + dearest context.now.table.now context.now.entry
        * (due context.now.table.now context.now.entry
        + cost_from context.now.table.now (looked_text text.old) memory.old.recall.base + 1)
        + cost_from context.now.table.now (looked_text text.old) memory.old.recall.base) }
{
    slots.fill(usize::MAX);
    match writes_from(context, text, memory, walked, start) {
        Ok(list) => {
            walked.lists.write(list, slots);
            walked.lists.drop_others();
            Ok(())
        }
        Err(error) => {
            walked.restart(context, memory.base());
            Err(error)
        }
    }
}

/// The list of what the first way from the context's entry at `start` writes, as `walk`. After an error pairs may be left open.
fn writes_from(
    context: &PartContext,
    text: &mut Counted,
    memory: &mut PartMemory,
    walked: &mut WalkMemory,
    start: usize,
) -> Result<usize, AllocError>
    requires ready { CanAsk context.now text.old memory.old }
    requires place { IsInReach context.now.table.now (looked_text text.old) memory.old.recall.base context.now.entry start }
    requires walked { IsWalkedIn context.now.table.now (length (looked_text text.old)) memory.old.recall.base walked.old }
    ensures list { IfOk result (λ list. ForTried context.now (looked_text text.old) memory.old.recall (λ go.
        AreWalked go context.now.table.now.heads.items walked.old → (t : Trace) → (go context.now.entry start).answer ≡ Some t
        → SameWrites (list_of walked.new.lists.writes.items list) t.writes
        × AreWalked go context.now.table.now.heads.items walked.new)) }
    ensures walked { OnOk result
        (IsWalkedIn context.now.table.now (length (looked_text text.old)) memory.old.recall.base walked.new) }
    ensures leaves { LeavesMemory context.now text.old text.new memory.old memory.new }
    ensures counted { OnOk result (look_count text.new + known_cost context.now.table.now memory.old.recall
        + dearest context.now.table.now context.now.entry * known_cost context.now.table.now walked.old.visited
        ≤ look_count text.old + known_cost context.now.table.now memory.new.recall
        + dearest context.now.table.now context.now.entry * due context.now.table.now context.now.entry
        + dearest context.now.table.now context.now.entry * known_cost context.now.table.now walked.new.visited) }
{
    walked.tasks.clear();
    push(
        &mut walked.tasks,
        WalkTask::Follow {
            state: context.entry,
            at: start,
        },
    )?;
    let mut written: usize = 0;
    'tasks: loop {
        let Some(task) = walked.tasks.pop() else {
            return Ok(written);
        };
        written = perform(context, text, memory, walked, task, written)?;
    }
}

/// Does a task of a walk, where the list of this number is written; the number of that which is written then. The error is want of
/// memory.
#[inline(always)]
fn perform(
    context: &PartContext,
    text: &mut Counted,
    memory: &mut PartMemory,
    walked: &mut WalkMemory,
    task: WalkTask,
    written: usize,
) -> Result<usize, AllocError>
    requires ready { CanAsk context.now text.old memory.old }
    requires task { IsAt context.now.table.now (looked_text text.old) memory.old.recall.base task }
    requires walked { IsWalkedIn context.now.table.now (length (looked_text text.old)) memory.old.recall.base walked.old }
    requires written { written ≤ length walked.old.lists.writes.items }
    ensures walking { IfOk result (λ list. ForTried context.now (looked_text text.old) memory.old.recall (λ go. (goal : List (ℕ × ℕ))
        → IsWalking go context.now.table.now.heads.items memory.old.recall.base walked.old.lists.writes.items walked.old.visited
        (task ∷ last_first walked.old.tasks.items) written goal
        → IsWalking go context.now.table.now.heads.items memory.old.recall.base walked.new.lists.writes.items walked.new.visited
        (last_first walked.new.tasks.items) list goal)) }
    ensures within { OnOk result ((dear : ℕ) → context.now.table.now.most ≤ dear
        → AllTasksWithin context.now.table.now (looked_text text.old) memory.old.recall.base dear
        (task ∷ last_first walked.old.tasks.items)
        → AllTasksWithin context.now.table.now (looked_text text.old) memory.old.recall.base dear
        (last_first walked.new.tasks.items)) }
    ensures walked { OnOk result
        (IsWalkedIn context.now.table.now (length (looked_text text.old)) memory.old.recall.base walked.new) }
    ensures list { IfOk result (λ list. list ≤ length walked.new.lists.writes.items) }
    ensures progress { OnOk result (work_left context.now.table.now (length (looked_text text.old)) memory.old.recall.base
        walked.new.visited (last_first walked.new.tasks.items)
        < work_left context.now.table.now (length (looked_text text.old)) memory.old.recall.base walked.old.visited
        (task ∷ last_first walked.old.tasks.items)) }
    ensures leaves { LeavesMemory context.now text.old text.new memory.old memory.new }
    ensures counted { OnOk result ((dear : ℕ) → context.now.table.now.most ≤ dear
        → AllTasksWithin context.now.table.now (looked_text text.old) memory.old.recall.base dear
        (task ∷ last_first walked.old.tasks.items)
        → look_count text.new + known_cost context.now.table.now memory.old.recall
        + dear * (tasks_due context.now.table.now (last_first walked.new.tasks.items)
        + known_cost context.now.table.now walked.old.visited)
        ≤ look_count text.old + known_cost context.now.table.now memory.new.recall
        + dear * (tasks_due context.now.table.now (task ∷ last_first walked.old.tasks.items)
        + known_cost context.now.table.now walked.new.visited)) }
{
    match task {
        WalkTask::Follow { state, at } => {
            let list = pass(context, text, memory, walked, state, at)?;
            Ok(list)
        }
        WalkTask::Part { state, at } => {
            let list = enter_part(context, walked, state, at, written)?;
            Ok(list)
        }
        WalkTask::Join { rest } => {
            let list = walked.lists.join(written, rest)?;
            Ok(list)
        }
        WalkTask::Keep { cell } => {
            walked.lists.hold(written);
            walked.visited.store(cell, written);
            Ok(written)
        }
        WalkTask::Start { group, at } => {
            let list = walked.lists.add(group.saturating_mul(2), at, written)?;
            Ok(list)
        }
        WalkTask::End { group, at } => {
            let slot = group.saturating_mul(2).saturating_add(1);
            let list = walked.lists.add(slot, at, written)?;
            Ok(list)
        }
    }
}

/// Leaves the first way of a part to be followed, and what is written to come after it, unless the part writes no slot; the number of
/// the list that is written then. The error is want of memory.
fn enter_part(
    context: &PartContext,
    walked: &mut WalkMemory,
    state: usize,
    at: usize,
    written: usize,
) -> Result<usize, AllocError>
    ensures list { IfOk result (λ list. EntersPart context.now.table.now state at written (last_first walked.old.tasks.items)
        (last_first walked.new.tasks.items) list) }
    ensures visited { walked.new.visited ≡ walked.old.visited }
    ensures lists { walked.new.lists ≡ walked.old.lists }
{
    if !context.table.may_write(state) {
        return Ok(written);
    }
    push(&mut walked.tasks, WalkTask::Join { rest: written })?;
    push(&mut walked.tasks, WalkTask::Follow { state, at })?;
    Ok(0)
}

/// Follows the first way from a state at the byte offset `at` by one step, unless it writes no slot or what it writes is known; the
/// number of the list that is written then. The error is want of memory.
fn pass(
    context: &PartContext,
    text: &mut Counted,
    memory: &mut PartMemory,
    walked: &mut WalkMemory,
    state: usize,
    at: usize,
) -> Result<usize, AllocError>
    requires ready { CanAsk context.now text.old memory.old }
    requires place { IsInReach context.now.table.now (looked_text text.old) memory.old.recall.base state at }
    requires walked { IsWalkedIn context.now.table.now (length (looked_text text.old)) memory.old.recall.base walked.old }
    ensures walking { IfOk result (λ list. ForTried context.now (looked_text text.old) memory.old.recall (λ go. (goal : List (ℕ × ℕ))
        → IsWalking go context.now.table.now.heads.items memory.old.recall.base walked.old.lists.writes.items walked.old.visited
        (Follow state at ∷ last_first walked.old.tasks.items) 0 goal
        → IsWalking go context.now.table.now.heads.items memory.old.recall.base walked.new.lists.writes.items walked.new.visited
        (last_first walked.new.tasks.items) list goal)) }
    ensures within { OnOk result ((dear : ℕ) → context.now.table.now.most ≤ dear
        → AllTasksWithin context.now.table.now (looked_text text.old) memory.old.recall.base dear
        (Follow state at ∷ last_first walked.old.tasks.items)
        → AllTasksWithin context.now.table.now (looked_text text.old) memory.old.recall.base dear
        (last_first walked.new.tasks.items)) }
    ensures walked { OnOk result
        (IsWalkedIn context.now.table.now (length (looked_text text.old)) memory.old.recall.base walked.new) }
    ensures list { IfOk result (λ list. list ≤ length walked.new.lists.writes.items) }
    ensures progress { OnOk result (work_left context.now.table.now (length (looked_text text.old)) memory.old.recall.base
        walked.new.visited (last_first walked.new.tasks.items)
        < work_left context.now.table.now (length (looked_text text.old)) memory.old.recall.base walked.old.visited
        (Follow state at ∷ last_first walked.old.tasks.items)) }
    ensures leaves { LeavesMemory context.now text.old text.new memory.old memory.new }
    ensures counted { OnOk result ((dear : ℕ) → context.now.table.now.most ≤ dear
        → AllTasksWithin context.now.table.now (looked_text text.old) memory.old.recall.base dear
        (Follow state at ∷ last_first walked.old.tasks.items)
        → look_count text.new + known_cost context.now.table.now memory.old.recall
        + dear * (tasks_due context.now.table.now (last_first walked.new.tasks.items)
        + known_cost context.now.table.now walked.old.visited)
        ≤ look_count text.old + known_cost context.now.table.now memory.new.recall
        + dear * (tasks_due context.now.table.now (Follow state at ∷ last_first walked.old.tasks.items)
        + known_cost context.now.table.now walked.new.visited)) }
{
    if !context.table.may_write(state) {
        return Ok(0);
    }
    match arrive(context, walked, state, at)? {
        Some(list) => Ok(list),
        None => {
            follow(context, text, memory, &mut walked.tasks, state, at)?;
            Ok(0)
        }
    }
}

/// The list of what the way from this state at the byte offset `at` writes, if the state is marked and that is known; if it is marked and
/// that is not known, it is kept when it is. The error is want of memory.
fn arrive(
    context: &PartContext,
    walked: &mut WalkMemory,
    state: usize,
    at: usize,
) -> Result<Option<usize>, AllocError>
    requires table { IsTable context.now.table.now }
    requires state { state < length context.now.table.now.states.items }
    requires width { walked.old.visited.width ≡ length context.now.table.now.heads.items }
    requires base { walked.old.visited.base ≤ at }
    requires small { at < 2 ^ 63 }
    ensures arrival { IfOk result (IsArrival context.now.table.now walked.old walked.new state at) }
    ensures rows { walked.new.visited.rows ≤ max walked.old.visited.rows (at - walked.old.visited.base + 1) }
    ensures lists { walked.new.lists ≡ walked.old.lists }
{
    let Some(mark) = context.table.mark(state) else {
        return Ok(None);
    };
    match walked.visited.open(mark, at)? {
        Known::New(cell) => {
            push(&mut walked.tasks, WalkTask::Keep { cell })?;
            Ok(None)
        }
        // No way comes to a pair twice.
        Known::Fails => Ok(Some(0)),
        Known::Ends(list) => Ok(Some(list)),
    }
}

/// Leaves what is to be done at the state `q` at the byte offset `at`, and after it. The error is want of memory.
fn follow(
    context: &PartContext,
    text: &mut Counted,
    memory: &mut PartMemory,
    tasks: &mut Vec<WalkTask>,
    q: usize,
    at: usize,
) -> Result<(), AllocError>
    requires ready { CanAsk context.now text.old memory.old }
    requires place { IsInReach context.now.table.now (looked_text text.old) memory.old.recall.base q at }
    ensures tasks { OnOk result (ForTrueWays context.now text.old memory.old (λ ways. last_first tasks.new.items
        ≡ walk_tasks ways (char_before (looked_text text.old) at) (char_at (looked_text text.old) at)
        (state_at context.now.table.now.states.items q) at
        ++ last_first tasks.old.items)) }
    ensures left { OnOk result (AreLeft context.now.table.now (looked_text text.old) memory.old.recall.base q at
        (last_first tasks.old.items) (last_first tasks.new.items)) }
    ensures leaves { LeavesMemory context.now text.old text.new memory.old memory.new }
    ensures counted { OnOk result (IsWithinLooks context.now text.old text.new memory.old memory.new (cost_of context.now.table.now q)) }
{
    let state = context.table.states[q];
    let end = part_end(context, text, memory, state, at)?;
    let (before, after) = text.look(at);
    leave_tasks(tasks, state, at, before, after, end)?;
    Ok(())
}

/// Where the first of two branches ends, or the part of an atomic group, if the state has one and that has a way. The error is want of
/// memory.
fn part_end(
    context: &PartContext,
    text: &mut Counted,
    memory: &mut PartMemory,
    state: State,
    at: usize,
) -> Result<Option<usize>, AllocError>
    requires ready { CanAsk context.now text.old memory.old }
    requires place { IsLedInReach context.now.table.now (looked_text text.old) memory.old.recall.base state at }
    ensures end { IfOk result (λ end. ForTrueWays context.now text.old memory.old (λ ways. end ≡ part_end_of ways state at)) }
    ensures place { IfOk result (λ end. IfSome end (IsPlace (looked_text text.old) memory.old.recall.base)) }
    ensures leaves { LeavesMemory context.now text.old text.new memory.old memory.new }
    ensures counted { OnOk result (IsWithinLooks context.now text.old text.new memory.old memory.new (owed context.now.table.now state)) }
{
    match state {
        State::Split { first, .. } => {
            let end = ask(context, text, memory, first, at)?;
            Ok(end)
        }
        State::Atomic { part, .. } => {
            let end = ask(context, text, memory, part, at)?;
            Ok(end)
        }
        _ => Ok(None),
    }
}

/// Leaves what is to be done at a state at the byte offset `at`, between the characters `before` and `after`, and after it. `end` is that
/// of `part_end`. The error is want of memory.
fn leave_tasks(
    tasks: &mut Vec<WalkTask>,
    state: State,
    at: usize,
    before: Option<char>,
    after: Option<char>,
    end: Option<usize>,
) -> Result<(), AllocError>
    requires after { IfSome after (λ c. at + len_utf8 c < 2 ^ 64) }
    requires before { IfSome before (λ c. len_utf8 c ≤ at) }
    ensures { OnOk result (last_first tasks.new.items ≡ tasks_at state at before after end ++ last_first tasks.old.items) }
{
    match state {
        State::Read { next, .. } => leave_read(tasks, next, at, after),
        State::Back { next } => leave_back(tasks, next, at, before),
        State::Look { next, .. }
        | State::Ask {
            negated: true,
            next,
            ..
        } => push(tasks, WalkTask::Follow { state: next, at }),
        State::Split { first, second } => {
            let state = branch(first, second, end);
            push(tasks, WalkTask::Follow { state, at })
        }
        State::Enter { group, next } => {
            push(tasks, WalkTask::Start { group, at })?;
            push(tasks, WalkTask::Follow { state: next, at })
        }
        State::Leave { group, next } => {
            push(tasks, WalkTask::End { group, at })?;
            push(tasks, WalkTask::Follow { state: next, at })
        }
        State::Ask { part, next, .. } => {
            push(tasks, WalkTask::Part { state: part, at })?;
            push(tasks, WalkTask::Follow { state: next, at })
        }
        State::Atomic { part, same, moved } => leave_atomic(tasks, part, same, moved, at, end),
        State::Match => Ok(()),
    }
}

/// Leaves what follows the character at `at`. The error is want of memory.
fn leave_read(
    tasks: &mut Vec<WalkTask>,
    next: usize,
    at: usize,
    after: Option<char>,
) -> Result<(), AllocError>
    requires { IfSome after (λ c. at + len_utf8 c < 2 ^ 64) }
    ensures { OnOk result (last_first tasks.new.items ≡ read_tasks next at after ++ last_first tasks.old.items) }
{
    match after {
        Some(c) => {
            let place = at + c.len_utf8();
            push(
                tasks,
                WalkTask::Follow {
                    state: next,
                    at: place,
                },
            )
        }
        None => Ok(()),
    }
}

/// Leaves what follows a step back over the character before `at`. The error is want of memory.
fn leave_back(
    tasks: &mut Vec<WalkTask>,
    next: usize,
    at: usize,
    before: Option<char>,
) -> Result<(), AllocError>
    requires { IfSome before (λ c. len_utf8 c ≤ at) }
    ensures { OnOk result (last_first tasks.new.items ≡ back_tasks next at before ++ last_first tasks.old.items) }
{
    match before {
        Some(c) => {
            let place = at - c.len_utf8();
            push(
                tasks,
                WalkTask::Follow {
                    state: next,
                    at: place,
                },
            )
        }
        None => Ok(()),
    }
}

/// Leaves the part of an atomic group that began at `at`, and what follows where its way ends. The error is want of memory.
fn leave_atomic(
    tasks: &mut Vec<WalkTask>,
    part: usize,
    same: usize,
    moved: usize,
    at: usize,
    end: Option<usize>,
) -> Result<(), AllocError>
    ensures { OnOk result (last_first tasks.new.items ≡ group_tasks part same moved at end ++ last_first tasks.old.items) }
{
    match end {
        Some(e) => {
            push(tasks, WalkTask::Part { state: part, at })?;
            if at < e {
                push(
                    tasks,
                    WalkTask::Follow {
                        state: moved,
                        at: e,
                    },
                )
            } else {
                push(tasks, WalkTask::Follow { state: same, at })
            }
        }
        None => Ok(()),
    }
}

/// Of two branches the first, if its way has an end.
fn branch(first: usize, second: usize, end: Option<usize>) -> usize
    ensures { result ≡ branch_of first second end }
{
    match end {
        Some(_) => first,
        None => second,
    }
}

/// Adds a task that is done next. The error is want of memory.
fn push(tasks: &mut Vec<WalkTask>, task: WalkTask) -> Result<(), AllocError>
    ensures { OnOk result (last_first tasks.new.items ≡ task ∷ last_first tasks.old.items) }
{
    tasks.push(task)?;
    Ok(())
}
