//! What attempts come to that begin before a character, and what the states of a row lead to.

ghost use Rattle.fancy_regex_table.specs.declared.sort.Sort.{Sort as SortValue};
ghost use Rattle.std.specs.Prelude.{◌∷◌, [], ◌≡◌, List, IfOk, IfSome, Some, slice_get};
ghost use Rattle.fancy_regex_table.specs.Making.{parts_of, IsBegun, IsReading, IsHome, AreHomes, AreReadings};
ghost use Rattle.fancy_regex_table.specs.Readings.{IsReadingAt, IsHomeAt};

use crate::close::{Closed, close};
use crate::columns::Column;
use crate::pattern::Pattern;
use crate::sort::Sort;
use crate::step::step;
use std::alloc::{AllocError, Global};

/// What a cell costs besides the states that it is made of, in steps over states.
const CELL_WORK: usize = 8;

/// What an attempt that begins before a character comes to after it.
#[derive(Drop)]
pub struct Begun {
    /// Its states after the character, in the order of preference.
    pub nexts: Vec<usize>,
    /// Whether it has a match that is empty.
    pub is_end: bool,
}

/// What the states of a row lead to without reading, before a character of this sort.
#[derive(Drop)]
pub struct Reading {
    pub after: Sort,
    pub own: Closed,
    pub later: Closed,
}

/// The attempts that begin after characters of one sort.
#[derive(Drop)]
pub struct Home {
    pub before: Sort,
    /// For each column what an attempt comes to, if that is known.
    pub begun: Vec<Option<Begun>>,
}

/// The states of a row that is for places after characters of this sort.
#[derive(Clone, Copy)]
pub struct RowStates<'r> {
    pub before: Sort,
    /// Those of the first attempt.
    pub own: &'r [usize],
    /// Those of the attempts from later starts.
    pub later: &'r [usize],
}

/// What the states of a row lead to. The error is want of memory.
fn read_row(
    alloc: Global,
    pattern: &Pattern,
    row: &RowStates,
    after: Sort,
    steps: &mut usize,
) -> Result<Option<Reading>, AllocError>
    ensures { IfOk result (λ found. IfSome found (λ reading. (reading.after ≡ after)
        × IsReading pattern.now.reader.states.now row.now.before row.now.own.now row.now.later.now reading)) }
{
    let states = pattern.reader.states;
    let Some(own) = close(alloc, states, row.own, row.before, after, steps)? else {
        return Ok(None);
    };
    let Some(later) = close(alloc, states, row.later, row.before, after, steps)? else {
        return Ok(None);
    };
    Ok(Some(Reading { after, own, later }))
}

/// What the states of a row lead to before characters of each sort, as far as that is known. The error is want of memory.
pub fn readings_of(
    alloc: Global,
    pattern: &Pattern,
    row: &RowStates,
    columns: &[Column],
    steps: &mut usize,
) -> Result<Vec<Reading>, AllocError>
    ensures { IfOk result (λ readings.
        AreReadings pattern.now.reader.states.now row.now.before row.now.own.now row.now.later.now readings.items) }
{
    let mut readings: Vec<Reading> = Vec::new(alloc);
    for k in 0..columns.len() {
        let after = columns[k].sort;
        if reading_at(&readings, after).is_none() {
            if let Some(reading) = read_row(alloc, pattern, row, after, steps)? {
                let reads = reading
                    .own
                    .reads
                    .len()
                    .saturating_add(reading.later.reads.len());
                let work = reads
                    .saturating_add(CELL_WORK)
                    .saturating_mul(columns.len().saturating_add(reads));
                if work > *steps {
                    *steps = 0;
                    return Ok(readings);
                }
                *steps -= work;
                readings.push(reading)?;
            }
        }
    }
    Ok(readings)
}

/// The reading before characters of this sort, if it is there.
pub fn reading_at(readings: &[Reading], after: Sort) -> Option<&Reading>
    ensures { IfSome result (λ found. IsReadingAt readings.now after found.now) }
{
    for i in 0..readings.len() {
        if readings[i].after.is_same(&after) {
            return Some(&readings[i]);
        }
    }
    None
}

/// What an attempt comes to that begins before a character of the column, by what the entry leads to, if that is known. The error is
/// want of memory.
fn begin(
    alloc: Global,
    pattern: &Pattern,
    readings: &[Reading],
    column: Column,
) -> Result<Option<Begun>, AllocError>
    ensures { IfOk result (λ found. IfSome found (λ begun. (before : SortValue)
        → AreReadings pattern.now.reader.states.now before (pattern.now.entry ∷ []) [] readings.now
        → IsBegun (parts_of pattern.now) before column.sort column.sample begun)) }
{
    let Some(reading) = reading_at(readings, column.sort) else {
        return Ok(None);
    };
    let nexts = step(alloc, &pattern.reader, &reading.own.reads, column.sample)?;
    Ok(Some(Begun {
        nexts,
        is_end: reading.own.is_end,
    }))
}

/// The attempts that begin after characters of this sort. The error is want of memory.
fn home_of(
    alloc: Global,
    pattern: &Pattern,
    columns: &[Column],
    before: Sort,
    steps: &mut usize,
) -> Result<Home, AllocError>
    ensures { IfOk result (λ home. (home.before ≡ before) × IsHome (parts_of pattern.now) columns.now home) }
{
    let entry = [pattern.entry];
    let row = RowStates {
        before,
        own: &entry,
        later: &[],
    };
    let readings = readings_of(alloc, pattern, &row, columns, steps)?;
    let mut begun = Vec::new(alloc);
    for k in 0..columns.len() {
        let found = begin(alloc, pattern, &readings, columns[k])?;
        begun.push(found)?;
    }
    Ok(Home { before, begun })
}

/// The attempts that begin after characters of each sort. The error is want of memory.
pub fn homes_of(
    alloc: Global,
    pattern: &Pattern,
    columns: &[Column],
    steps: &mut usize,
) -> Result<Vec<Home>, AllocError>
    ensures { IfOk result (λ homes. AreHomes (parts_of pattern.now) columns.now homes.items) }
{
    let mut homes: Vec<Home> = Vec::new(alloc);
    for k in 0..columns.len() {
        let before = columns[k].sort;
        if !is_home(&homes, before) {
            let home = home_of(alloc, pattern, columns, before, steps)?;
            homes.push(home)?;
        }
    }
    Ok(homes)
}

/// Whether the attempts after characters of this sort are there.
fn is_home(homes: &[Home], before: Sort) -> bool {
    homes.iter().any(|home| home.before.is_same(&before))
}

/// The attempts that begin after characters of this sort, if they are there.
pub fn home_at(homes: &[Home], before: Sort) -> Option<&Home>
    ensures { IfSome result (λ found. IsHomeAt homes.now before found.now) }
{
    for i in 0..homes.len() {
        if homes[i].before.is_same(&before) {
            return Some(&homes[i]);
        }
    }
    None
}

/// What an attempt comes to that begins before a character of the column, if that is known.
pub fn begun_in(begun: &[Option<Begun>], column: usize) -> Option<&Begun>
    ensures { IfSome result (λ found. slice_get begun.now column ≡ Some (Some found.now)) }
{
    if column >= begun.len() {
        return None;
    }
    match &begun[column] {
        Some(found) => Some(found),
        None => None,
    }
}
