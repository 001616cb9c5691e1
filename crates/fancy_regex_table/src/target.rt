//! What the cells of a table are to lead to.

ghost use Rattle.std.specs.Prelude.{◌≡◌, ℕ, Bool, List, [], IfOk, OnOk};
ghost use Rattle.fancy_regex_table.specs.Making.{parts_of, IsUnion, IsBegun, IsReading, IsRestarted, IsFreshTarget, IsOwnTarget, IsLateTarget, IsLaterTarget, IsOpenTarget};
ghost use Rattle.fancy_regex_table.specs.Cells.{IsRight};
ghost use Rattle.fancy_regex_table.specs.declared.sort.Sort.{Sort as SortValue};
ghost use Rattle.fancy_regex_table.specs.declared.row.Row.{Row as RowValue};
ghost use Rattle.fancy_regex_table.specs.declared.row.Row.TheVariants.{Fresh};

use crate::begun::{Begun, Reading};
use crate::columns::Column;
use crate::pattern::{Pattern, Starts};
use crate::row::{Cell, Found, Row};
use crate::sort::Sort;
use crate::step::{add_new, step, step_beside};
use std::alloc::{AllocError, Global};

/// What a cell is to lead to.
#[derive(Drop)]
pub enum Target {
    /// This cell.
    Cell(Cell),
    /// This row.
    Row { row: Row, begins: bool, ends: bool },
}

/// What the cell of a fresh row leads to. Where no attempt begins it is the fresh row after the character, if starts are common, so that a
/// pass goes on. The error is want of memory.
pub fn fresh_target(
    alloc: Global,
    begun: &Begun,
    column: Column,
    starts: Starts,
) -> Result<Target, AllocError>
    ensures { IfOk result (IsFreshTarget begun.now column.sort) }
{
    let after = column.sort;
    if begun.nexts.is_empty() {
        if begun.is_end {
            return Ok(Target::Cell(Cell::Empty));
        }
        if starts.are_common() && column.sample.is_some() {
            return Ok(Target::Row {
                row: Row::Fresh { before: after },
                begins: false,
                ends: false,
            });
        }
        return Ok(Target::Cell(Cell::Idle));
    }
    let mut own = Vec::new(alloc);
    own.extend_from_slice(&begun.nexts)?;
    Ok(Target::Row {
        row: Row::Open {
            before: after,
            own,
            later: Vec::new(alloc),
            found: if begun.is_end {
                Found::Own
            } else {
                Found::Nothing
            },
        },
        begins: true,
        ends: begun.is_end,
    })
}

/// What the cell of another row leads to where the first attempt has a match. `own` are its states after the character.
fn own_target(alloc: Global, own: Vec<usize>, is_end: bool, after: Sort) -> Target
    ensures { IsOwnTarget own.items is_end after result }
{
    if own.is_empty() {
        if is_end {
            return Target::Cell(Cell::EndsHere);
        }
        return Target::Cell(Cell::EndsEarlier);
    }
    Target::Row {
        row: Row::Open {
            before: after,
            own,
            later: Vec::new(alloc),
            found: Found::Own,
        },
        begins: false,
        ends: is_end,
    }
}

/// What the cell of another row leads to where an attempt from a later start may have a match.
fn late_target(alloc: Global, own: Vec<usize>, after: Sort) -> Target
    ensures { IsLateTarget own.items after result }
{
    if own.is_empty() {
        return Target::Cell(Cell::Unknown);
    }
    Target::Row {
        row: Row::Open {
            before: after,
            own,
            later: Vec::new(alloc),
            found: Found::Later,
        },
        begins: false,
        ends: false,
    }
}

/// What the cell of another row leads to where all attempts fail that are under way: `fresh` is the cell of the fresh row with the
/// same sort before.
fn restarted(fresh: Cell, after: Sort) -> Target
    ensures { IsRestarted fresh after result }
{
    match fresh {
        Cell::Idle => Target::Row {
            row: Row::Fresh { before: after },
            begins: false,
            ends: false,
        },
        _ => Target::Cell(fresh),
    }
}

/// Adds these states to a list, but for those that are there or among the others. The error is want of memory.
fn add_all(states: &[usize], others: &[usize], list: &mut Vec<usize>) -> Result<(), AllocError>
    ensures { OnOk result (IsUnion states.now others.now list.old.items list.new.items) }
{
    for i in 0..states.len() {
        add_new(states[i], others, list)?;
    }
    Ok(())
}

/// What the cell of another row leads to where no attempt has a match. `own` and `later` are the states after the character, and
/// `begun` is what an attempt comes to that begins before it. The error is want of memory.
fn later_target(
    own: Vec<usize>,
    later: Vec<usize>,
    begun: &Begun,
    fresh: Cell,
    after: Sort,
) -> Result<Target, AllocError>
    ensures { IfOk result (IsLaterTarget own.items later.items begun.now fresh after) }
{
    if own.is_empty() && later.is_empty() {
        return Ok(restarted(fresh, after));
    }
    let mut later = later;
    add_all(&begun.nexts, &own, &mut later)?;
    Ok(Target::Row {
        row: Row::Open {
            before: after,
            own,
            later,
            found: Found::Nothing,
        },
        begins: false,
        ends: false,
    })
}

/// What comes of the attempts and of the searches that begin before a character.
#[derive(Clone, Copy)]
pub struct Beginning<'m> {
    /// What an attempt comes to that begins there.
    pub begun: &'m Begun,
    /// The cell of the fresh row with the same sort before.
    pub fresh: Cell,
}

/// What the cell of a row leads to that is not fresh. The error is want of memory.
pub fn open_target(
    alloc: Global,
    pattern: &Pattern,
    found: Found,
    reading: &Reading,
    c: Option<char>,
    beginning: &Beginning,
) -> Result<Target, AllocError>
    ensures { IfOk result (λ target. (rows : List RowValue) (before : SortValue) (own later : List ℕ)
        → IsReading pattern.now.reader.states.now before own later reading.now
        → IsBegun (parts_of pattern.now) before reading.now.after c beginning.now.begun.now
        → IsRight (parts_of pattern.now) rows (Fresh before) reading.now.after c beginning.now.fresh
        → IsOpenTarget (parts_of pattern.now) rows before own later found reading.now.after c target) }
{
    let own = step(alloc, &pattern.reader, &reading.own.reads, c)?;
    let after = reading.after;
    if reading.own.is_end {
        return Ok(own_target(alloc, own, true, after));
    }
    match found {
        Found::Own => Ok(own_target(alloc, own, false, after)),
        Found::Later => Ok(late_target(alloc, own, after)),
        Found::Nothing => {
            if reading.later.is_end || beginning.begun.is_end {
                return Ok(late_target(alloc, own, after));
            }
            let later = step_beside(alloc, &pattern.reader, &reading.later.reads, c, &own)?;
            let target = later_target(own, later, beginning.begun, beginning.fresh, after)?;
            Ok(target)
        }
    }
}
