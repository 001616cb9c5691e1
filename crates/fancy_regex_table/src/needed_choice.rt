//! Which characters in a row a search goes on to.

use crate::flat::cell_at;
use crate::needed_maker::{CellPlaces, is_at, is_reached, matched_after};
use crate::pattern::Starts;
use crate::row::Cell;
use std::alloc::{AllocError, Global};

/// The most characters in a row that are looked for.
const LONGEST: usize = 3;

/// The most rows that a search may be in before characters that are needed, each with the number of those that it has come past.
const MOST_REACHED: usize = 64;

/// How many strings are asked whether matches need them, the best ones.
const MOST_ASKED: usize = 4;

/// The class of the end of the text.
const END_OF_TEXT: u32 = 0;

/// How much more a search for starts costs than one for needed characters, at least, where that is done.
const TIMES_RARER: u64 = 4;

/// Starts before fewer than so many of a million characters are few enough.
const LEAST_STARTS: u32 = 4_000;

/// What it costs to test a second character where one of a thousand is a first one, beside a stop in a million characters.
const PER_FIRST: u64 = 2;

/// How many classes are weighed.
const MARKED: usize = 256;

/// A row in which a search may be, and how many characters of a needed string stand before it.
#[derive(Clone, Copy)]
pub struct Reached {
    pub row: u32,
    pub matched: usize,
}

/// The classes of characters that stand in a row in each match, and the rows before them.
pub struct NeededString {
    pub classes: Vec<u32>,
    pub reached: Vec<Reached>,
}

/// A row on the way to a match.
#[derive(Clone, Copy)]
struct Step {
    row: u32,
    /// The step before, and the class by which it led here.
    from: usize,
    class: u32,
}

/// Where the steps from a row lead.
#[derive(Clone, Copy)]
enum Onward {
    /// To other rows.
    Steps,
    /// To a match, by these steps up to this one.
    Match(usize),
    /// To a cell that is unknown.
    Unknown,
}

/// A part of the way to a match.
#[derive(Clone, Copy)]
struct Part {
    at: usize,
    long: usize,
    cost: u64,
}

/// The characters in a row that a search is to go on to, if there are some that are rarer than starts. The error is want of memory.
pub fn string_for(
    alloc: Global,
    cells: &[Cell],
    places: &CellPlaces,
    starts: Starts,
) -> Result<Option<NeededString>, AllocError> {
    if starts.per_million < LEAST_STARTS {
        return Ok(None);
    }
    let most = u64::from(starts.per_million) / TIMES_RARER;
    let weights = weights_of(places.classes);
    let classes = ascii_classes(alloc, places.classes, &weights)?;
    let Some(way) = way_to_match(alloc, cells, places, &classes, false)? else {
        return Ok(None);
    };
    let Some(other) = way_to_match(alloc, cells, places, &classes, true)? else {
        return Ok(None);
    };
    let mut refused: Vec<Part> = Vec::new(alloc);
    for _asked in 0..MOST_ASKED {
        let Some(part) = best_part(&weights, &way, &other, &refused, most) else {
            return Ok(None);
        };
        let string = part_of(alloc, &way, part)?;
        if let Some(reached) = reached_before(alloc, cells, places, &classes, &string)? {
            return Ok(Some(NeededString {
                classes: string,
                reached,
            }));
        }
        refused.push(part)?;
    }
    Ok(None)
}

/// How many of a thousand characters of a text are ASCII characters of each class, about.
fn weights_of(classes: &[u32; 256]) -> [u32; 256] {
    let mut weights = [0u32; 256];
    for code in 0..128u8 {
        let class = classes[code as usize] as usize;
        if class < MARKED {
            weights[class] = weights[class].saturating_add(weight(code));
        }
    }
    weights
}

/// How many of a thousand characters of a text are of this class, about.
fn weight_of(weights: &[u32; 256], class: u32) -> u64 {
    let class = class as usize;
    if class >= MARKED {
        return 1_000;
    }
    u64::from(weights[class].max(1))
}

/// The class at this place, or one that none is.
fn class_at(classes: &[u32], place: usize) -> u32 {
    if place < classes.len() {
        return classes[place];
    }
    u32::MAX
}

/// The classes of ASCII characters, each once, the commonest ones first. The error is want of memory.
fn ascii_classes(
    alloc: Global,
    by_code: &[u32; 256],
    weights: &[u32; 256],
) -> Result<Vec<u32>, AllocError> {
    let mut classes: Vec<u32> = Vec::new(alloc);
    let mut seen = [false; 256];
    for code in 0..128 {
        let class = by_code[code];
        if is_new(&seen, class) {
            mark(&mut seen, class);
            classes.push(class)?;
            settle(&mut classes, weights);
        }
    }
    Ok(classes)
}

/// Whether the class is not marked, and could be.
fn is_new(seen: &[bool; 256], class: u32) -> bool {
    let class = class as usize;
    class < MARKED && !seen[class]
}

/// Marks the class.
fn mark(seen: &mut [bool; 256], class: u32) {
    let class = class as usize;
    if class < MARKED {
        seen[class] = true;
    }
}

/// Brings the last class to its place among the others, the commonest ones of which come first.
fn settle(classes: &mut Vec<u32>, weights: &[u32; 256]) {
    let long = classes.len();
    for k in 0..long {
        let at = long - 1 - k;
        let is_first = at == 0;
        if is_first
            || weight_of(weights, class_at(classes, at - 1))
                >= weight_of(weights, class_at(classes, at))
        {
            return;
        }
        swap_back(classes, at);
    }
}

/// Swaps the class at this place with the one before it, if both are there.
fn swap_back(classes: &mut Vec<u32>, at: usize) {
    if at == 0 || at >= classes.len() {
        return;
    }
    let class = classes[at];
    let before = classes[at - 1];
    classes[at] = before;
    classes[at - 1] = class;
}

/// The classes of characters on a short way to a match; `None` where none is found among few rows. The last one ends the match or comes
/// after it, unless the text ends there. Those that are commonest are tried first, or with `is_reversed` the rarest ones. The error is
/// want of memory.
fn way_to_match(
    alloc: Global,
    cells: &[Cell],
    places: &CellPlaces,
    classes: &[u32],
    is_reversed: bool,
) -> Result<Option<Vec<u32>>, AllocError> {
    let mut steps = first_steps(alloc, places)?;
    for next in 0..MOST_REACHED {
        if next >= steps.len() {
            return Ok(None);
        }
        let row = steps[next].row;
        match steps_after(cells, classes, is_reversed, row, next, &mut steps)? {
            Onward::Steps => {}
            Onward::Match(last) => {
                let way = way_of(alloc, &steps, last)?;
                return Ok(Some(way));
            }
            Onward::Unknown => return Ok(None),
        }
    }
    Ok(None)
}

/// The rows in which a search begins, as steps. The error is want of memory.
fn first_steps(alloc: Global, places: &CellPlaces) -> Result<Vec<Step>, AllocError> {
    let mut steps: Vec<Step> = Vec::new(alloc);
    for i in 0..places.fresh.len() {
        add_step(&mut steps, places.fresh[i].row, usize::MAX, 0)?;
    }
    Ok(steps)
}

/// Adds the step, unless there is one to its row. The error is want of memory.
fn add_step(steps: &mut Vec<Step>, row: u32, from: usize, class: u32) -> Result<(), AllocError> {
    if !has_step(steps, row) {
        steps.push(Step { row, from, class })?;
    }
    Ok(())
}

/// Adds the steps from this row by these classes, up to one that notes a match, which comes last; if none does, there may be a match where
/// the text ends. The error is want of memory.
fn steps_after(
    cells: &[Cell],
    classes: &[u32],
    is_reversed: bool,
    row: u32,
    from: usize,
    steps: &mut Vec<Step>,
) -> Result<Onward, AllocError> {
    for k in 0..classes.len() {
        let place = if is_reversed {
            classes.len() - 1 - k
        } else {
            k
        };
        let class = class_at(classes, place);
        match cell_at(cells, class, row) {
            Cell::Idle => {}
            Cell::Unknown => return Ok(Onward::Unknown),
            Cell::Next {
                ends: false,
                row: to,
                ..
            } => add_step(steps, to, from, class)?,
            _ => {
                steps.push(Step { row, from, class })?;
                return Ok(Onward::Match(steps.len().saturating_sub(1)));
            }
        }
    }
    if is_match_at_end(cells, row) {
        return Ok(Onward::Match(from));
    }
    Ok(Onward::Steps)
}

/// Whether there is a match where the text ends after this row.
fn is_match_at_end(cells: &[Cell], row: u32) -> bool {
    match cell_at(cells, END_OF_TEXT, row) {
        Cell::Idle | Cell::Unknown | Cell::Next { ends: false, .. } => false,
        Cell::Next { .. } | Cell::Empty | Cell::EndsHere | Cell::EndsEarlier => true,
    }
}

/// Whether there is a step to this row.
fn has_step(steps: &[Step], row: u32) -> bool {
    for i in 0..steps.len() {
        if steps[i].row == row {
            return true;
        }
    }
    false
}

/// The classes of the steps up to this one. The error is want of memory.
fn way_of(alloc: Global, steps: &[Step], last: usize) -> Result<Vec<u32>, AllocError> {
    let mut way: Vec<u32> = Vec::new(alloc);
    let mut at = last;
    for _step in 0..steps.len() {
        if at < steps.len() && steps[at].from < steps.len() {
            way.push(steps[at].class)?;
            at = steps[at].from;
        }
    }
    way.reverse();
    Ok(way)
}

/// The part of the way that costs least to look for, and no more than `most`, of those that are on the other way too and have none of the
/// refused ones.
fn best_part(
    weights: &[u32; 256],
    way: &[u32],
    other: &[u32],
    refused: &[Part],
    most: u64,
) -> Option<Part> {
    let mut best: Option<Part> = None;
    for at in 0..way.len() {
        best = better_part(weights, (way, other), refused, most, at, best);
    }
    best
}

/// The best one so far, or a better one that begins at this place of the first way.
fn better_part(
    weights: &[u32; 256],
    ways: (&[u32], &[u32]),
    refused: &[Part],
    most: u64,
    at: usize,
    so_far: Option<Part>,
) -> Option<Part> {
    let (way, other) = ways;
    let mut best = so_far;
    for long in 1..LONGEST + 1 {
        let cost = cost_of(weights, way, at, long);
        let part = Part { at, long, cost };
        if is_better(best, cost, most)
            && is_string(way, at, long)
            && !has_refused(refused, part)
            && has_part(other, way, at, long)
        {
            best = Some(part);
        }
    }
    best
}

/// Whether one of the refused parts stands in the part.
fn has_refused(refused: &[Part], part: Part) -> bool {
    let end = part.at.saturating_add(part.long);
    for inner in refused {
        if inner.at >= part.at && inner.at.saturating_add(inner.long) <= end {
            return true;
        }
    }
    false
}

/// Whether a part of this cost is better than the best one so far, and costs no more than `most`.
fn is_better(best: Option<Part>, cost: u64, most: u64) -> bool {
    match best {
        Some(part) => cost < part.cost,
        None => cost <= most,
    }
}

/// The class at this place of a part of the way.
fn part_class(way: &[u32], at: usize, i: usize) -> u32 {
    class_at(way, at.saturating_add(i))
}

/// Whether the way has the part, and the first class of the part is none of its others.
fn is_string(way: &[u32], at: usize, long: usize) -> bool {
    for i in 1..long {
        if part_class(way, at, i) == part_class(way, at, 0) {
            return false;
        }
    }
    at.saturating_add(long) <= way.len()
}

/// Whether the part is a part of the other way too.
fn has_part(other: &[u32], way: &[u32], at: usize, long: usize) -> bool {
    for from in 0..other.len() {
        if is_part_at(other, from, way, at, long) {
            return true;
        }
    }
    false
}

/// Whether the part stands at this place of the other way.
fn is_part_at(other: &[u32], from: usize, way: &[u32], at: usize, long: usize) -> bool {
    for i in 0..long {
        if part_class(other, from, i) != part_class(way, at, i) {
            return false;
        }
    }
    true
}

/// How often a search for the part stops in a million characters, about. A stop at its first two characters alone counts as an eighth.
fn cost_of(weights: &[u32; 256], way: &[u32], at: usize, long: usize) -> u64 {
    let first = weight_of(weights, part_class(way, at, 0));
    if long < 2 {
        return first.saturating_mul(1_000);
    }
    let pairs = first.saturating_mul(weight_of(weights, part_class(way, at, 1)));
    let mut all = pairs;
    for i in 2..long {
        all = all.saturating_mul(weight_of(weights, part_class(way, at, i))) / 1_000;
    }
    all.saturating_add(pairs / 8)
        .saturating_add(first.saturating_mul(PER_FIRST))
}

/// The classes of the part. The error is want of memory.
fn part_of(alloc: Global, way: &[u32], part: Part) -> Result<Vec<u32>, AllocError> {
    let mut string: Vec<u32> = Vec::new(alloc);
    for i in 0..part.long {
        string.push(part_class(way, part.at, i))?;
    }
    Ok(string)
}

/// The rows that a search may be in before a character that completes the string, if before one nothing matches. The error is want of
/// memory.
fn reached_before(
    alloc: Global,
    cells: &[Cell],
    places: &CellPlaces,
    classes: &[u32],
    string: &[u32],
) -> Result<Option<Vec<Reached>>, AllocError> {
    let mut reached = first_reached(alloc, places)?;
    for next in 0..MOST_REACHED {
        if next >= reached.len() {
            return Ok(Some(reached));
        }
        let it = reached[next];
        if !add_after(cells, places, classes, string, it, &mut reached)? {
            return Ok(None);
        }
    }
    Ok(None)
}

/// The rows in which a search begins, with nothing of a string before them. The error is want of memory.
fn first_reached(alloc: Global, places: &CellPlaces) -> Result<Vec<Reached>, AllocError> {
    let mut reached: Vec<Reached> = Vec::new(alloc);
    for i in 0..places.fresh.len() {
        add(&mut reached, places.fresh[i].row, 0)?;
    }
    Ok(reached)
}

/// Adds the row, unless it is there with as many characters of the string before it. The error is want of memory.
fn add(reached: &mut Vec<Reached>, row: u32, matched: usize) -> Result<(), AllocError> {
    if !is_reached(reached, row, matched) {
        reached.push(Reached { row, matched })?;
    }
    Ok(())
}

/// Adds the rows to which characters of these classes lead that do not complete the string; `false` where one of them ends the search or
/// notes a match. The error is want of memory.
fn add_after(
    cells: &[Cell],
    places: &CellPlaces,
    classes: &[u32],
    string: &[u32],
    it: Reached,
    reached: &mut Vec<Reached>,
) -> Result<bool, AllocError> {
    for k in 0..classes.len() {
        let class = classes[k];
        let matched = matched_after(string, it.matched, class);
        if matched < string.len() {
            match cell_at(cells, class, it.row) {
                Cell::Idle => match begin_of(places.begins, class) {
                    Some(row) => add(reached, row, matched)?,
                    None => return Ok(false),
                },
                Cell::Next {
                    ends: false,
                    row,
                    ..
                } => add(reached, row, matched)?,
                _ => return Ok(false),
            }
        }
    }
    Ok(true)
}

/// The row for a search that begins after a character of this class, if there is one.
fn begin_of(begins: &[Option<u32>], class: u32) -> Option<u32> {
    let class = class as usize;
    if class < begins.len() {
        return begins[class];
    }
    None
}

/// How many of a thousand characters of a text are this one, about.
pub fn weight(code: u8) -> u32 {
    match code {
        b' ' => 150,
        b'e' => 95,
        b't' => 70,
        b'a' => 62,
        b'o' | b'i' | b'n' => 56,
        b's' | b'r' => 49,
        b'h' => 40,
        b'l' | b'd' => 31,
        b'c' => 26,
        b'\n' => 25,
        b'u' | b'm' => 21,
        b'f' | b'p' => 18,
        b'g' | b'w' | b'y' | b'b' => 13,
        b'v' | b'k' => 7,
        b'0'..=b'9' => 4,
        b'x' | b'j' | b'q' | b'z' | b'A'..=b'Z' => 2,
        b'!'..=b'~' => 3,
        _ => 0,
    }
}
