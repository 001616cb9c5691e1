//! The making of a table's cells.

ghost use Rattle.std.specs.Prelude.{◌≡◌, ◌<◌, ℕ, List, true, Some, IfOk, IfSome, slice_get, length};
ghost use Rattle.fancy_regex_table.specs.Cells.{Parts, IsRight, sort_before};
ghost use Rattle.fancy_regex_table.specs.Making.{parts_of, BeginsWith, IsBegun, AreHomes, IsRightTarget, AreRightCells};
ghost use Rattle.fancy_regex_table.specs.Made.{AreReadingsOf, AreRightRows, IsKnownOf, IsCellTo, AreFresh, IsMadeOf};
ghost use Rattle.fancy_regex_table.specs.declared.columns.Column.{Column as ColumnValue};
ghost use Rattle.fancy_regex_table.specs.declared.row.Row.{Row as RowValue};
ghost use Rattle.fancy_regex_table.specs.declared.row.Row.TheVariants.{Fresh};
ghost use Rattle.fancy_regex_table.specs.declared.sort.Sort.{Sort as SortValue};

use crate::begun::{Home, Reading, RowStates, begun_in, home_at, reading_at, readings_of};
use crate::columns::Column;
use crate::pattern::{Pattern, Starts};
use crate::row::{Cell, Row};
use crate::rows::{FreshRow, Rows};
use crate::sort::Sort;
use crate::target::{Beginning, Target, fresh_target, open_target};
use std::alloc::{AllocError, Global};

/// The most rows.
const MOST_ROWS: usize = 2000;

/// The rows of a table.
#[derive(Drop)]
pub struct Made {
    /// For each row the cells, one for each class of characters.
    pub cells: Vec<Vec<Cell>>,
    /// The rows for searches that begin, by the sort of the character before.
    pub fresh: Vec<FreshRow>,
    /// Whether these are all rows that a search can come to.
    pub is_whole: bool,
}

/// What the making of the cells reads and does not change.
#[derive(Clone, Copy)]
pub struct MakerContext<'m> {
    /// Where the table is allocated.
    pub alloc: Global,
    pub pattern: &'m Pattern<'m>,
    /// The classes of characters, with one of each.
    pub columns: &'m [Column],
    /// What the attempts come to that begin with the character.
    pub homes: &'m [Home],
    /// How common starts are.
    pub starts: Starts,
}

/// What is known of a row before its cells are made.
#[derive(Clone, Copy)]
pub struct Known<'k> {
    /// What attempts come to that begin in the row.
    pub home: &'k Home,
    /// The number of the fresh row with the same sort before, if there is one.
    pub fresh: Option<usize>,
    /// What the states of the row lead to.
    pub readings: &'k [Reading],
}

/// The number of the fresh row with this sort before, if there is one.
fn fresh_number(rows: &Rows, before: Sort) -> Option<usize>
    ensures { IfSome result (λ number. slice_get rows.now.list.items number ≡ Some (Fresh before)) }
{
    for i in 0..rows.list.len() {
        if is_fresh(&rows.list[i], before) {
            return Some(i);
        }
    }
    None
}

/// The cell of this row and column, if it was made.
fn made_cell(cells: &[Vec<Cell>], number: Option<usize>, column: usize) -> Cell
    ensures { (parts : Parts) (columns : List ColumnValue) (rows : List RowValue) (before : SortValue)
        → AreRightRows parts columns rows cells.now
        → IfSome number (λ fresh. slice_get rows fresh ≡ Some (Fresh before)) → (it : ColumnValue) → slice_get columns column ≡ Some it
        → IsRight parts rows (Fresh before) it.sort it.sample result }
{
    let Some(number) = number else {
        return Cell::Unknown;
    };
    if number >= cells.len() {
        return Cell::Unknown;
    }
    let made: &[Cell] = &cells[number];
    if column < made.len() {
        return made[column];
    }
    Cell::Unknown
}

/// Whether the row is the fresh one with this sort before.
fn is_fresh(row: &Row, before: Sort) -> bool
    ensures { result ≡ true → row.now ≡ Fresh before }
{
    match row {
        Row::Fresh { before: it } => it.is_same(&before),
        Row::Open { .. } => false,
    }
}

/// What the states of the row lead to, if it is not fresh. The error is want of memory.
fn readings_at(
    context: &MakerContext,
    row: &Row,
    steps: &mut usize,
) -> Result<Vec<Reading>, AllocError>
    ensures { IfOk result (λ readings. AreReadingsOf context.now.pattern.now.reader.states.now row.now readings.items) }
{
    match row {
        Row::Fresh { .. } => Ok(Vec::new(context.alloc)),
        Row::Open {
            before,
            own,
            later,
            ..
        } => {
            let states = RowStates {
                before: *before,
                own,
                later,
            };
            readings_of(
                context.alloc,
                context.pattern,
                &states,
                context.columns,
                steps,
            )
        }
    }
}

/// What the cell of this row and column leads to. The error is want of memory.
fn target_of(
    context: &MakerContext,
    row: &Row,
    readings: &[Reading],
    column: Column,
    beginning: &Beginning,
) -> Result<Target, AllocError>
    ensures { IfOk result (λ target. (rows : List RowValue) → AreReadingsOf context.now.pattern.now.reader.states.now row.now readings.now
        → IsBegun (parts_of context.now.pattern.now) (sort_before row.now) column.sort column.sample beginning.now.begun.now
        → IsRight (parts_of context.now.pattern.now) rows (Fresh (sort_before row.now)) column.sort column.sample beginning.now.fresh
        → IsRightTarget (parts_of context.now.pattern.now) rows row.now column.sort column.sample target) }
{
    match row {
        Row::Fresh { .. } => {
            let target = fresh_target(context.alloc, beginning.begun, column, context.starts)?;
            Ok(target)
        }
        Row::Open { found, .. } => {
            let Some(reading) = reading_at(readings, column.sort) else {
                return Ok(Target::Cell(Cell::Unknown));
            };
            let target = open_target(
                context.alloc,
                context.pattern,
                *found,
                reading,
                column.sample,
                beginning,
            )?;
            Ok(target)
        }
    }
}

/// The cell that leads there; unknown where there is no room for the row. The error is want of memory.
fn cell_to(rows: &mut Rows, target: Target) -> Result<Cell, AllocError>
    ensures grows { BeginsWith rows.new.list.items rows.old.list.items }
    ensures cell { IfOk result (IsCellTo rows.old.list.items rows.new.list.items target) }
{
    match target {
        Target::Cell(cell) => Ok(cell),
        Target::Row { row, begins, ends } => {
            let Some(row) = small(rows.number_of(row)?) else {
                return Ok(Cell::Unknown);
            };
            Ok(Cell::Next { begins, ends, row })
        }
    }
}

/// The number, if it fits.
fn small(number: Option<usize>) -> Option<u32>
    ensures { IfSome result (λ small. number ≡ Some small) }
{
    match number {
        Some(number) if number <= 65_535 => Some(number as u32),
        _ => None,
    }
}

/// The cell of a row and a column. The error is want of memory.
fn cell_of(
    context: &MakerContext,
    rows: &mut Rows,
    number: usize,
    known: &Known,
    place: usize,
    cells: &[Vec<Cell>],
) -> Result<Cell, AllocError>
    requires row { number < length rows.old.list.items }
    requires column { place < length context.now.columns.now }
    ensures grows { BeginsWith rows.new.list.items rows.old.list.items }
    ensures cell { IfOk result (λ cell. AreHomes (parts_of context.now.pattern.now) context.now.columns.now context.now.homes.now
        → AreRightRows (parts_of context.now.pattern.now) context.now.columns.now rows.old.list.items cells.now
        → (row : RowValue) → slice_get rows.old.list.items number ≡ Some row
        → IsKnownOf context.now.pattern.now.reader.states.now context.now.homes.now rows.old.list.items row known.now
        → (column : ColumnValue) → slice_get context.now.columns.now place ≡ Some column
        → IsRight (parts_of context.now.pattern.now) rows.new.list.items row column.sort column.sample cell) }
{
    let Some(begun) = begun_in(&known.home.begun, place) else {
        return Ok(Cell::Unknown);
    };
    let fresh = made_cell(cells, known.fresh, place);
    let beginning = Beginning { begun, fresh };
    let row = &rows.list[number];
    let target = target_of(
        context,
        row,
        known.readings,
        context.columns[place],
        &beginning,
    )?;
    let cell = cell_to(rows, target)?;
    Ok(cell)
}

/// The cells of a row, one for each column; none where no attempt is known that begins in the row. The error is want of memory.
pub fn cells_of(
    context: &MakerContext,
    rows: &mut Rows,
    number: usize,
    cells: &[Vec<Cell>],
    steps: &mut usize,
) -> Result<Vec<Cell>, AllocError>
    requires { number < length rows.old.list.items }
    ensures grows { BeginsWith rows.new.list.items rows.old.list.items }
    ensures made { IfOk result (λ made. AreHomes (parts_of context.now.pattern.now) context.now.columns.now context.now.homes.now
        → AreRightRows (parts_of context.now.pattern.now) context.now.columns.now rows.old.list.items cells.now
        → (row : RowValue) → slice_get rows.old.list.items number ≡ Some row
        → AreRightCells (parts_of context.now.pattern.now) context.now.columns.now rows.new.list.items row made.items) }
{
    let row = &rows.list[number];
    let before = row.before();
    let Some(home) = home_at(context.homes, before) else {
        return Ok(Vec::new(context.alloc));
    };
    let fresh = fresh_number(rows, before);
    let readings = readings_at(context, row, steps)?;
    let known = Known {
        home,
        fresh,
        readings: &readings,
    };
    let mut made = Vec::with_capacity(context.alloc, context.columns.len())?;
    for k in 0..context.columns.len() {
        let cell = cell_of(context, rows, number, &known, k, cells)?;
        made.push(cell)?;
    }
    Ok(made)
}

/// The rows for searches that begin. The error is want of memory.
fn fresh_rows(alloc: Global, homes: &[Home], rows: &mut Rows) -> Result<Vec<FreshRow>, AllocError>
    ensures { IfOk result (λ fresh. AreFresh rows.new.list.items fresh.items) }
{
    let mut fresh = Vec::new(alloc);
    for i in 0..homes.len() {
        let before = homes[i].before;
        let found = rows.number_of(Row::Fresh { before })?;
        if let Some(row) = small(found) {
            fresh.push(FreshRow { before, row })?;
        }
    }
    Ok(fresh)
}

/// The rows of a table, as many as can be made in so many steps. The error is want of memory.
pub fn rows_of(
    alloc: Global,
    pattern: &Pattern,
    columns: &[Column],
    homes: &[Home],
    starts: Starts,
    steps: &mut usize,
) -> Result<Made, AllocError>
    ensures { IfOk result (λ made. AreHomes (parts_of pattern.now) columns.now homes.now
        → IsMadeOf (parts_of pattern.now) columns.now made.cells.items made.fresh.items) }
{
    let states = pattern.reader.states.len();
    let mut rows = Rows::new(
        alloc,
        MOST_ROWS.min(states.saturating_mul(4).saturating_add(64)),
    )?;
    let fresh = fresh_rows(alloc, homes, &mut rows)?;
    let context = MakerContext {
        alloc,
        pattern,
        columns,
        homes,
        starts,
    };
    let mut cells = Vec::new(alloc);
    for number in 0..MOST_ROWS {
        if number >= rows.list.len() {
            break;
        }
        let made = cells_of(&context, &mut rows, number, &cells, steps)?;
        cells.push(made)?;
    }
    let is_whole = *steps > 0 && cells.len() >= rows.list.len() && rows.has_room();
    Ok(Made {
        cells,
        fresh,
        is_whole,
    })
}
