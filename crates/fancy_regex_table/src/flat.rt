//! The cells of a table in one list, row by row.

ghost use Rattle.std.specs.Prelude.{◌≡◌, ◌+◌, ◌*◌, ◌<◌, ◌≤◌, ℕ, IfOk, IfSome, slice_index};
ghost use Rattle.fancy_regex_table.specs.Flat.{IsFoundCell, IsPlaced, IsFlatCell, AreFlat, ArePlaced};

use crate::row::Cell;
use crate::rows::FreshRow;
use std::alloc::{AllocError, Global};

/// The cell of a class in the row that begins at this place of the list.
#[inline(always)]
pub fn cell_at(cells: &[Cell], class: u32, row: u32) -> Cell
    ensures { IsFoundCell cells.now (row + class) result }
{
    let place = row as usize + class as usize;
    if place < cells.len() {
        return cells[place];
    }
    Cell::Unknown
}

/// The place at which the row of this number begins, where each has so many cells; `None` where it does not fit.
fn place_of(number: u32, classes: usize) -> Option<u32>
    ensures { IfSome result (λ place. place ≡ number * classes) }
{
    match (number as usize).checked_mul(classes) {
        Some(place) if place <= 0xFFFF_FFFF => Some(place as u32),
        _ => None,
    }
}

/// The cell, which leads to the place where a row begins and not to its number; unknown where that does not fit.
fn placed(cell: Cell, classes: usize) -> Cell
    ensures { IsPlaced classes cell result }
{
    match cell {
        Cell::Next { begins, ends, row } => match place_of(row, classes) {
            Some(place) => Cell::Next {
                begins,
                ends,
                row: place,
            },
            None => Cell::Unknown,
        },
        _ => cell,
    }
}

/// The cell of a row and a class, by places of rows; unknown where it was not made.
fn flat_cell(rows: &[Vec<Cell>], number: usize, class: usize, classes: usize) -> Cell
    ensures { IsFlatCell rows.now classes number class result }
{
    if number >= rows.len() {
        return Cell::Unknown;
    }
    let made: &[Cell] = &rows[number];
    if class < made.len() {
        return placed(made[class], classes);
    }
    Cell::Unknown
}

/// The cells of all rows, so many of each, by places of rows. The error is want of memory.
pub fn flat_cells(
    alloc: Global,
    rows: &[Vec<Cell>],
    classes: usize,
) -> Result<Vec<Cell>, AllocError>
    ensures { IfOk result (λ cells. AreFlat rows.now classes cells.items) }
{
    let mut cells = Vec::new(alloc);
    for number in 0..rows.len() {
        for class in 0..classes {
            let cell = flat_cell(rows, number, class, classes);
            cells.push(cell)?;
        }
    }
    Ok(cells)
}

/// The rows for searches that begin, by the places where they begin. The error is want of memory.
pub fn fresh_places(
    alloc: Global,
    fresh: &[FreshRow],
    classes: usize,
) -> Result<Vec<FreshRow>, AllocError>
    ensures { IfOk result (λ placed. ArePlaced classes fresh.now placed.items) }
{
    let mut placed = Vec::new(alloc);
    for i in 0..fresh.len() {
        let it = fresh[i];
        if let Some(row) = place_of(it.row, classes) {
            placed.push(FreshRow {
                before: it.before,
                row,
            })?;
        }
    }
    Ok(placed)
}

/// The class of each ASCII character, and for each other byte this number.
pub fn classes_of(ascii: &[u8; 128], other: u32) -> [u32; 256]
    ensures ascii { (c : ℕ) → c < 128 → slice_index result c ≡ slice_index ascii.now c }
    ensures others { (b : ℕ) → 128 ≤ b → b < 256 → slice_index result b ≡ other }
{
    let mut classes = [other; 256];
    for code in 0..128 {
        classes[code] = ascii[code] as u32;
    }
    classes
}
