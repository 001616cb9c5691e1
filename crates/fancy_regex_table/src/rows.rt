//! The rows of a table, each with a number.

ghost use Rattle.std.specs.Prelude.{◌≡◌, ℕ, IfOk, IfSome};
ghost use Rattle.fancy_regex_table.specs.Rows.{IsNumberOf, IsPlaceOf};
ghost use Rattle.fancy_regex_table.specs.Tables.{IsFreshRow, AreBegins};
ghost use Rattle.fancy_regex_table.specs.Making.{BeginsWith};

use crate::columns::Column;
use crate::leaf_set::LeafSet;
use crate::row::{Found, Row, is_same};
use crate::sort::Sort;
use std::alloc::{AllocError, Global};

/// The rows, and where each is found by its hash.
#[derive(Drop)]
pub struct Rows {
    pub list: Vec<Row>,
    /// By hashes, open addressed.
    numbers: Vec<Option<usize>>,
}

/// The row for a search that begins after a character of this sort.
#[derive(Clone, Copy)]
pub struct FreshRow {
    pub before: Sort,
    pub row: u32,
}

/// Where a row is looked for.
#[derive(Clone, Copy)]
enum Place {
    /// It is there, and has this number.
    Number(usize),
    /// It is not there, and its number belongs at this place.
    Free(usize),
    /// It is not found, and no place is free.
    Full,
}

impl Rows {
    /// No rows, and room for `most`. The error is want of memory.
    pub fn new(alloc: Global, most: usize) -> Result<Rows, AllocError> {
        Ok(Rows {
            list: Vec::new(alloc),
            numbers: vec![in alloc; None; most.saturating_mul(2)]?,
        })
    }

    /// Whether there is room for one more row.
    pub fn has_room(&self) -> bool {
        2 * self.list.len() < self.numbers.len()
    }

    #[tactic(auto, using(crate::proofs::Adding::begins_more, crate::proofs::Adding::begins_same, crate::proofs::Adding::number_of_last))]
    /// The number of the row, which is added if it is new; `None` where there is no room. The error is want of memory.
    pub fn number_of(&mut self, row: Row) -> Result<Option<usize>, AllocError>
        ensures grows { BeginsWith self.new.list.items self.old.list.items }
        ensures number { IfOk result (λ found. IfSome found (IsNumberOf self.new.list.items row)) }
    {
        match self.place_of(&row) {
            Place::Number(number) => Ok(Some(number)),
            Place::Free(place) => {
                let number = self.list.len();
                if 2 * number >= self.numbers.len() {
                    return Ok(None);
                }
                self.list.push(row)?;
                self.numbers[place] = Some(number);
                Ok(Some(number))
            }
            Place::Full => Ok(None),
        }
    }

    /// Where the row's number is found, or where it belongs.
    fn place_of(&self, row: &Row) -> Place
        ensures { IsPlaceOf self.now.list.items self.now.numbers.items row.now result }
    {
        let size = self.numbers.len();
        if size == 0 {
            return Place::Full;
        }
        let mut place = (hash_of(row) % size as u64) as usize;
        'places: for _ in 0..size {
            match self.numbers[place] {
                None => return Place::Free(place),
                Some(number) => {
                    if number < self.list.len() && is_same(&self.list[number], row) {
                        return Place::Number(number);
                    }
                }
            }
            place = if place + 1 < size { place + 1 } else { 0 };
        }
        Place::Full
    }
}

/// The number of the row for a search that begins after a character of this sort.
pub fn fresh_for(fresh: &[FreshRow], sort: Sort) -> Option<u32>
    ensures { IfSome result (IsFreshRow fresh.now sort) }
{
    for i in 0..fresh.len() {
        let it = fresh[i];
        if it.before.is_same(&sort) {
            return Some(it.row);
        }
    }
    None
}

/// For each class the row for a search that begins after one of its characters, if there is one. The error is want of memory.
pub fn begins_of(
    alloc: Global,
    columns: &[Column],
    fresh: &[FreshRow],
) -> Result<Vec<Option<u32>>, AllocError>
    ensures { IfOk result (λ begins. AreBegins columns.now fresh.now begins.items) }
{
    let mut begins = Vec::new(alloc);
    for k in 0..columns.len() {
        let column = columns[k];
        let found = fresh_for(fresh, column.sort);
        begins.push(found)?;
    }
    Ok(begins)
}

/// A number that is the same for rows that are.
fn hash_of(row: &Row) -> u64 {
    let hash = match row {
        Row::Fresh { before } => with_sort(1, *before),
        Row::Open {
            before,
            own,
            later,
            found,
        } => {
            let head = with_sort(2, *before);
            let kind = match found {
                Found::Nothing => 1,
                Found::Own => 2,
                Found::Later => 3,
            };
            with_states(with_states(mixed(head, kind), own), later)
        }
    };
    hash ^ (hash >> 32)
}

fn with_sort(hash: u64, sort: Sort) -> u64 {
    let edge = mixed(hash, sort.edge as u64);
    let newline = mixed(edge, sort.newline as u64);
    let word = mixed(
        mixed(newline, sort.carriage_return as u64),
        sort.word as u64,
    );
    with_leaves(word, sort.matched)
}

fn with_leaves(hash: u64, leaves: LeafSet) -> u64 {
    let second = mixed(
        mixed(hash, leaves.first.is_some() as u64),
        leaves.second.is_some() as u64,
    );
    mixed(
        mixed(second, leaves.third.is_some() as u64),
        leaves.fourth.is_some() as u64,
    )
}

fn with_states(hash: u64, states: &[usize]) -> u64 {
    let mut hash = mixed(hash, states.len() as u64);
    for i in 0..states.len() {
        hash = mixed(hash, states[i] as u64);
    }
    hash
}

fn mixed(hash: u64, value: u64) -> u64 {
    hash.wrapping_mul(0x9E37_79B9_7F4A_7C15).wrapping_add(value)
}
