//! The groups whose calls are inlined also where calls stay calls: those that are small and lead to no group that calls itself.

ghost use Rattle.std.specs.Prelude.{◌≡◌, ◌≤◌, ◌<◌, ◌+◌, ℕ, List, true, false, IfSome, IfOk, Some, None, slice_get};
ghost use Rattle.fancy_regex_tree.specs.Tree.{tree_of};
ghost use Rattle.fancy_regex_info.specs.Infos.{InfoTree, info_of};
ghost use Rattle.fancy_regex_compiler.specs.CalledTexts.{IsFree, infos_at};
ghost use Rattle.fancy_regex_compiler.specs.Inlined.{room_at as room_in, is_inlined, AreInlined, AreSilent, TakesRoom, FirstTakesRoom, AllTakeRoom, IsLeafRoom};
ghost use Rattle.fancy_regex_compiler.specs.Known.{info_written};
ghost use Rattle.fancy_regex_compiler.specs.Refusals.{looks_behind as is_behind};

use crate::open_calls::OpenCalls;
use fancy_regex_info::Info;
use fancy_regex_tree::{Expr, LookAround};
use std::alloc::{AllocError, Global};

/// The most room that an inlined call takes.
const MOST_ROOM: usize = 500;

/// The room of a node without parts, and that of a node besides its part.
const NODE_ROOM: usize = 12;

/// The room of a node besides its part, which may be delegated.
const DELEGATING_ROOM: usize = 24;

/// The room of a branch besides what stands in it: a split and a jump.
const BRANCH_ROOM: usize = 2;

/// For each group the room that a call of it takes where its calls are inlined, if it is small and leads to no group that calls itself.
#[derive(Drop)]
pub(crate) struct InlinedGroups {
    /// The room: a bound on the number of instructions.
    pub rooms: Vec<Option<usize>>,
    /// How many groups have one.
    pub known: usize,
}

impl InlinedGroups {
    /// Nothing is known of any group.
    pub fn none(alloc: Global) -> InlinedGroups
        ensures inlined { (groups : List InfoTree) → AreInlined groups result.rooms.items result.known }
        ensures silent { (groups : List InfoTree) → AreSilent groups result.rooms.items result.known }
    {
        InlinedGroups {
            rooms: Vec::new(alloc),
            known: 0,
        }
    }

    /// Those of these groups, of which each comes in the order after those that it calls. The error is want of memory.
    pub fn new<'i, 'e>(
        alloc: Global,
        groups: &Vec<&'i Info<'e>>,
        order: &[usize],
    ) -> Result<InlinedGroups, AllocError>
        ensures inlined { IfOk result (λ inlined. AreInlined (infos_at groups.now.items) inlined.rooms.items inlined.known) }
        ensures silent { IfOk result (λ inlined. AreSilent (infos_at groups.now.items) inlined.rooms.items inlined.known) }
    {
        if order.is_empty() {
            return Ok(InlinedGroups::none(alloc));
        }
        let mut inlined = InlinedGroups {
            rooms: no_rooms(alloc, groups.len())?,
            known: 0,
        };
        for group in order {
            inlined.take_up(groups, *group);
        }
        Ok(inlined)
    }

    /// Takes up the group if it is small, where the groups that it calls were taken up.
    fn take_up<'i, 'e>(&mut self, groups: &Vec<&'i Info<'e>>, group: usize)
        ensures { AreInlined (infos_at groups.now.items) self.old.rooms.items self.old.known
            → AreInlined (infos_at groups.now.items) self.new.rooms.items self.new.known }
    {
        if group >= groups.len() || self.known >= groups.len() || !is_unknown(&self.rooms, group) {
            return;
        }
        let Some(room) = room_of(groups[group], &self.rooms) else {
            return;
        };
        if room > MOST_ROOM {
            return;
        }
        self.rooms[group] = Some(room);
        self.known += 1;
    }

    /// Whether calls of the group are inlined.
    pub fn contains(&self, group: usize) -> bool
        ensures { result ≡ is_inlined self.now.rooms.items group }
    {
        room_at(&self.rooms, group).is_some()
    }

    /// Whether a call of the group writes nothing: none of the calls in it meets the limit of open calls. These calls are open, and so many
    /// more may open.
    pub fn writes_nothing(&self, opened: &OpenCalls, calls_left: usize, group: usize) -> bool
        ensures room { result ≡ true → room_in self.now.rooms.items group ≡ Some 0 }
        ensures left { result ≡ true → self.now.known ≤ calls_left }
        ensures free { result ≡ true → IsFree self.now.rooms.items 0 opened.now.items }
    {
        has_no_room(&self.rooms, group) && self.known <= calls_left && !is_full(&self.rooms, opened)
    }
}

/// No room for so many groups. The error is want of memory.
fn no_rooms(alloc: Global, count: usize) -> Result<Vec<Option<usize>>, AllocError>
    ensures { IfOk result (λ rooms. (k : ℕ) → room_in rooms.items k ≡ None) }
{
    let mut rooms = Vec::new(alloc);
    for group in 0..count {
        let _ = group;
        rooms.push(None)?;
    }
    Ok(rooms)
}

/// The room of a call of the group, if it is known.
fn room_at(rooms: &[Option<usize>], group: usize) -> Option<usize>
    ensures { result ≡ room_in rooms.now group }
{
    match rooms.get(group) {
        Some(room) => *room,
        None => None,
    }
}

/// Whether a call of the group writes nothing.
fn has_no_room(rooms: &[Option<usize>], group: usize) -> bool
    ensures yes { result ≡ true → room_in rooms.now group ≡ Some 0 }
    ensures no { result ≡ false → room_in rooms.now group ≡ Some 0 → ⊥ }
{
    match room_at(rooms, group) {
        Some(room) => room == 0,
        None => false,
    }
}

/// Whether the group is there, and its room is not known.
fn is_unknown(rooms: &[Option<usize>], group: usize) -> bool
    ensures { result ≡ true → slice_get rooms.now group ≡ Some None }
{
    match rooms.get(group) {
        Some(None) => true,
        _ => false,
    }
}

/// Whether as many calls are open as may be of a group that writes nothing.
fn is_full(rooms: &[Option<usize>], opened: &OpenCalls) -> bool
    ensures { result ≡ false → IsFree rooms.now 0 opened.now.items }
{
    let full = opened.full_groups();
    for group in full {
        if has_no_room(rooms, *group) {
            return true;
        }
    }
    false
}

/// The room of the node, if that of each group that it calls is known, and it has neither a look-behind nor a conditional nor an operator
/// that is seldom used.
#[cycle(rooms)]
fn room_of(info: &Info<'_>, rooms: &[Option<usize>]) -> Option<usize>
    ensures { IfSome result (λ n. TakesRoom rooms.now n (λ call. (info_written call (info_of info.now)).front)) }
{
    match info.expr {
        Expr::Empty => Some(0),
        Expr::DefineGroup { .. } => Some(0),
        Expr::SubroutineCall(group) => {
            let room = room_at(rooms, *group)?;
            with_work(room, NODE_ROOM)
        }
        Expr::Concat(_) => {
            let room = room_of_all(&info.children, 0, rooms)?;
            with_work(room, info.children.len())
        }
        Expr::Alt(_) => {
            let room = room_of_all(&info.children, BRANCH_ROOM, rooms)?;
            sum_of(room, NODE_ROOM)
        }
        Expr::Group(_) => {
            let room = room_of_first(&info.children, rooms)?;
            sum_of(room, NODE_ROOM)
        }
        Expr::AtomicGroup(_) => {
            let room = room_of_first(&info.children, rooms)?;
            sum_of(room, DELEGATING_ROOM)
        }
        Expr::LookAround(_, how) => {
            if looks_behind(*how) {
                return None;
            }
            let room = room_of_first(&info.children, rooms)?;
            sum_of(room, DELEGATING_ROOM)
        }
        Expr::Repeat { lo, hi, .. } => {
            if *lo == 0 && *hi == 0 {
                return Some(0);
            }
            let room = room_of_first(&info.children, rooms)?;
            sum_of(room, NODE_ROOM)
        }
        _ => room_of_leaf(info.expr),
    }
}

/// The room of the first of the nodes.
#[cycle(rooms)]
fn room_of_first(children: &[Info<'_>], rooms: &[Option<usize>]) -> Option<usize>
    ensures { IfSome result (λ n. FirstTakesRoom rooms.now n children.now) }
{
    match children.first() {
        Some(child) => room_of(child, rooms),
        None => None,
    }
}

/// The room of all of the nodes, each with so much more.
#[cycle(rooms)]
fn room_of_all(children: &[Info<'_>], more: usize, rooms: &[Option<usize>]) -> Option<usize>
    ensures { IfSome result (λ n. AllTakeRoom rooms.now more n children.now) }
{
    let mut all: usize = 0;
    for child in children {
        let room = room_of(child, rooms)?;
        let both = sum_of(room, more)?;
        all = sum_of(all, both)?;
    }
    Some(all)
}

/// The room of a node without parts, if it is of a kind that is often used.
fn room_of_leaf(expr: &Expr) -> Option<usize>
    ensures { IfSome result (λ n. IsLeafRoom n (tree_of expr.now)) }
{
    match expr {
        Expr::Any { .. } => Some(NODE_ROOM),
        Expr::Assertion(_) => Some(NODE_ROOM),
        Expr::GeneralNewline { .. } => Some(NODE_ROOM),
        Expr::Literal { .. } => Some(NODE_ROOM),
        Expr::Delegate { .. } => Some(NODE_ROOM),
        Expr::Backref { .. } => Some(NODE_ROOM),
        Expr::KeepOut => Some(NODE_ROOM),
        _ => None,
    }
}

/// The room of what writes something, with so much more: so that to write out a call of a small group is little work, it counts there
/// what writes nothing too, and how deep calls nest.
fn with_work(room: usize, more: usize) -> Option<usize>
    ensures { IfSome result (λ sum. room ≤ sum) }
{
    if room == 0 {
        return Some(0);
    }
    sum_of(room, more)
}

/// The sum, if `usize` has it.
fn sum_of(first: usize, second: usize) -> Option<usize>
    ensures { IfSome result (λ sum. sum ≡ first + second) }
{
    first.checked_add(second)
}

/// Whether it is a look-behind.
fn looks_behind(how: LookAround) -> bool
    ensures { result ≡ is_behind how }
{
    match how {
        LookAround::LookAhead | LookAround::LookAheadNeg => false,
        LookAround::LookBehind | LookAround::LookBehindNeg => true,
    }
}
