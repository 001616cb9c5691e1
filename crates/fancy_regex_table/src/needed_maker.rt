//! How the characters in a row are found that each match needs.

ghost use Rattle.std.specs.Prelude.{◌≡◌, ◌<◌, ◌≤◌, ◌+◌, ℕ, Some, true, false, IfOk, IfSome, length, slice_get, slice_index_or};
ghost use Rattle.fancy_regex_stops.specs.Stops.{Covers};
ghost use Rattle.fancy_regex_table.specs.Wides.{AllShortAre};
ghost use Rattle.fancy_regex_table.specs.declared.wide.Wide.{Wide as WideValue};
ghost use Rattle.fancy_regex_table.specs.Needed.{IsOther, AreEffects, AreEnded, AreOfClasses, AreOthers, HasBegin, HasCell, IsAfter, IsDone, IsKept, IsKeptWide, IsNeededOf, IsOneOf, IsReached, IsReset, IsResetWide, IsStray, LeadsTo, Resets, ResetsAnyhow};

use crate::flat::cell_at;
use crate::needed::Needed;
use crate::needed_choice::{NeededString, Reached, string_for};
use crate::pattern::Starts;
use crate::row::Cell;
use crate::rows::FreshRow;
use crate::wide::Wide;
use fancy_regex_stops::Stops;
use std::alloc::{AllocError, Global};

/// How many classes are marked.
const MARKED: usize = 256;

/// By what the cells of a table are found.
#[derive(Clone, Copy)]
pub struct CellPlaces<'t> {
    /// For each ASCII character the number of its class.
    pub classes: &'t [u32; 256],
    pub wide: &'t Wide,
    pub fresh: &'t [FreshRow],
    /// For each class the row for a search that begins after one of its characters, if there is one.
    pub begins: &'t [Option<u32>],
}

/// What a character of each class does where a search is in one of some rows.
#[derive(Clone, Copy)]
struct Effects {
    /// The search is in one of them afterwards, unless the character completes the string.
    kept: [bool; 256],
    /// The search is in one of them afterwards, and the character is of no string.
    kept_wide: [bool; 256],
    /// No attempt is under way afterwards, unless the character completes the string.
    reset: [bool; 256],
    /// No attempt is under way afterwards.
    reset_wide: [bool; 256],
}

/// How searches go on to characters in a row that each match needs, if there are some that are rarer than starts. Then a cell that led to a
/// row for searches that begin says that nothing is under way, so that a pass ends there. The error is want of memory.
pub fn needed_of(
    alloc: Global,
    cells: &mut Vec<Cell>,
    places: &CellPlaces,
    starts: Starts,
) -> Result<Option<Needed>, AllocError>
    ensures ended { AreEnded places.now.fresh.now cells.old.items cells.new.items }
    ensures needed { IfOk result (λ needed. IfSome needed (IsNeededOf cells.new.items places.now.fresh.now places.now.begins.now
        places.now.classes.now places.now.wide.now)) }
{
    let Some(string) = string_for(alloc, cells, places, starts)? else {
        return Ok(None);
    };
    let NeededString { classes, reached } = string;
    if stops_at(places.classes, &classes, 0, false).is_none() {
        return Ok(None);
    }
    end_passes(cells, places.fresh);
    Ok(needed_in(cells, places, classes, &reached))
}

/// The stops of the characters of the class at this place.
fn stops_at(classes: &[u32; 256], string: &[u32], place: usize, passes: bool) -> Option<Stops> {
    let others = others_of(classes, string, place);
    Stops::of_short(&others, passes)
}

/// How searches go on to characters of these classes, before which they may be in one of these rows.
fn needed_in(
    cells: &[Cell],
    places: &CellPlaces,
    string: Vec<u32>,
    reached: &[Reached],
) -> Option<Needed>
    ensures { IfSome result (IsNeededOf cells.now places.now.fresh.now places.now.begins.now places.now.classes.now places.now.wide.now) }
{
    if !all_begin(places, reached) {
        return None;
    }
    let effects = effects_of(cells, places, &string, reached);
    if !ascii_are(places.classes, &effects.kept) {
        return None;
    }
    let used = places.wide.short_classes();
    let passes_short = all_short_are(&used, &effects.kept_wide);
    let resets_short = all_short_are(&used, &effects.reset_wide);
    let others = others_of(places.classes, &string, 0);
    let next_others = others_of(places.classes, &string, 1);
    let stops = Stops::of_short(&others, passes_short)?;
    let next_stops = next_stops_of(&string, &next_others);
    Some(Needed {
        string,
        others,
        next_others,
        passes_short,
        stops,
        next_stops,
        resets: resets_of(places.classes, &effects.reset, resets_short),
    })
}

/// The stops of the second characters, if there is a second one, where the characters that are not among them are marked.
fn next_stops_of(string: &[u32], next_others: &[bool; 128]) -> Option<Stops>
    ensures covers { IfSome result (λ stops. Covers stops next_others.now true) }
    ensures long { IfSome result (λ _. 1 < length string.now) }
{
    if string.len() > 1 {
        return Stops::of(next_others, true);
    }
    None
}

/// Whether the class at this place of the string is this one.
pub fn is_at(string: &[u32], place: usize, class: u32) -> bool
    ensures yes { result ≡ true → slice_get string.now place ≡ Some class }
{
    place < string.len() && string[place] == class
}

/// How many characters of the string stand before the place after a character of this class, where so many stand before the character.
pub fn matched_after(string: &[u32], matched: usize, class: u32) -> usize
    ensures { IsAfter string.now matched class result }
{
    if is_at(string, matched, class) {
        return matched + 1;
    }
    if is_at(string, 0, class) {
        return 1;
    }
    0
}

/// Whether no character of the string is of this class, and the string has characters.
fn is_stray(string: &[u32], class: u32) -> bool
    ensures { result ≡ true → IsStray string.now class }
{
    for i in 0..string.len() {
        if string[i] == class {
            return false;
        }
    }
    !string.is_empty()
}

/// Whether the row is one of these, with so many characters of the string before it.
pub fn is_reached(reached: &[Reached], row: u32, matched: usize) -> bool
    ensures { result ≡ true → IsReached reached.now row matched }
{
    for i in 0..reached.len() {
        let it = reached[i];
        if it.row == row && it.matched == matched {
            return true;
        }
    }
    false
}

/// Whether the row is one for searches that begin.
fn is_one_of(fresh: &[FreshRow], row: u32) -> bool
    ensures { result ≡ true → IsOneOf fresh.now row }
{
    for i in 0..fresh.len() {
        let it = fresh[i];
        if it.row == row {
            return true;
        }
    }
    false
}

/// Whether a search that begins after a character of this class is in one of these rows, with so many characters of the string before it.
fn begins_in(begins: &[Option<u32>], class: usize, reached: &[Reached], matched: usize) -> bool
    ensures { result ≡ true → HasBegin begins.now reached.now class matched }
{
    if class >= begins.len() {
        return false;
    }
    match begins[class] {
        Some(row) => is_reached(reached, row, matched),
        None => false,
    }
}

/// Whether the cell of this class leads to one of these rows, with so many characters of the string before it.
fn leads_to(
    cell: Cell,
    begins: &[Option<u32>],
    class: u32,
    reached: &[Reached],
    matched: usize,
) -> bool
    ensures { result ≡ true → LeadsTo begins.now reached.now class matched cell }
{
    match cell {
        Cell::Idle => begins_in(begins, class as usize, reached, matched),
        Cell::Next { row, .. } => is_reached(reached, row, matched),
        _ => false,
    }
}

/// Whether the cell leads to a row for searches that begin, or says that nothing is under way.
fn resets(cell: Cell, fresh: &[FreshRow]) -> bool
    ensures { result ≡ true → Resets fresh.now cell }
{
    match cell {
        Cell::Idle => true,
        Cell::Next { row, .. } => is_one_of(fresh, row),
        _ => false,
    }
}

/// Whether it leads to a row for searches that begin, or says that nothing is under way.
fn resets_at(cells: &[Cell], class: u32, row: u32, fresh: &[FreshRow]) -> bool
    ensures { result ≡ true → HasCell cells.now (row + class) (Resets fresh.now) }
{
    resets(cell_at(cells, class, row), fresh)
}

/// Whether searches that begin after an ASCII character, or at the start of the text, are in one of these rows.
fn all_begin(places: &CellPlaces, reached: &[Reached]) -> bool
    ensures first { result ≡ true → HasBegin places.now.begins.now reached.now 0 0 }
    ensures ascii { result ≡ true → (c : ℕ) → c < 128
        → HasBegin places.now.begins.now reached.now (slice_index_or places.now.classes.now c 0) 0 }
{
    for code in 0..128 {
        if !begins_in(places.begins, places.classes[code] as usize, reached, 0) {
            return false;
        }
    }
    begins_in(places.begins, 0, reached, 0)
}

/// Whether a search that is in one of these rows is in one of them after a character of this class, unless that completes the string.
fn keeps(
    cells: &[Cell],
    begins: &[Option<u32>],
    string: &[u32],
    class: u32,
    reached: &[Reached],
) -> bool
    ensures { result ≡ true → IsKept cells.now begins.now reached.now string.now class }
{
    for i in 0..reached.len() {
        let it = reached[i];
        let matched = matched_after(string, it.matched, class);
        let cell = cell_at(cells, class, it.row);
        if matched != string.len() && !leads_to(cell, begins, class, reached, matched) {
            return false;
        }
    }
    true
}

/// Whether each of these rows leads to one of them by this class, with no character of the string before it.
fn leads_all(cells: &[Cell], begins: &[Option<u32>], class: u32, reached: &[Reached]) -> bool
    ensures { result ≡ true → IsKeptWide cells.now begins.now reached.now class }
{
    for i in 0..reached.len() {
        let cell = cell_at(cells, class, reached[i].row);
        if !leads_to(cell, begins, class, reached, 0) {
            return false;
        }
    }
    true
}

/// The same as `keeps`, which said `is_kept`, where the character is not ASCII.
fn keeps_wide(
    cells: &[Cell],
    begins: &[Option<u32>],
    string: &[u32],
    class: u32,
    reached: &[Reached],
    is_kept: bool,
) -> bool
    ensures { (is_kept ≡ true → IsKept cells.now begins.now reached.now string.now class) → result ≡ true
        → IsKeptWide cells.now begins.now reached.now class }
{
    if is_stray(string, class) {
        return is_kept;
    }
    leads_all(cells, begins, class, reached)
}

/// Whether no attempt is under way after a character of this class, if the search is in this row, unless the character completes the
/// string.
fn resets_row(cells: &[Cell], fresh: &[FreshRow], string: &[u32], class: u32, it: Reached) -> bool
    ensures { result ≡ true → IsDone cells.now string.now class it (ResetsAnyhow fresh.now) }
{
    let matched = matched_after(string, it.matched, class);
    if matched == string.len() {
        return true;
    }
    resets_at(cells, class, it.row, fresh)
}

/// The same of all these rows.
fn resets_all(
    cells: &[Cell],
    fresh: &[FreshRow],
    string: &[u32],
    class: u32,
    reached: &[Reached],
) -> bool
    ensures { result ≡ true → IsReset cells.now fresh.now reached.now string.now class }
{
    for i in 0..reached.len() {
        if !resets_row(cells, fresh, string, class, reached[i]) {
            return false;
        }
    }
    true
}

/// Whether no attempt is under way after a character of this class, if the search is in one of these rows.
fn resets_each(cells: &[Cell], fresh: &[FreshRow], class: u32, reached: &[Reached]) -> bool
    ensures { result ≡ true → IsResetWide cells.now fresh.now reached.now class }
{
    for i in 0..reached.len() {
        if !resets_at(cells, class, reached[i].row, fresh) {
            return false;
        }
    }
    true
}

/// The same as `resets_all`, which said `is_reset`, where the character is not ASCII.
fn resets_wide(
    cells: &[Cell],
    fresh: &[FreshRow],
    string: &[u32],
    class: u32,
    reached: &[Reached],
    is_reset: bool,
) -> bool
    ensures { (is_reset ≡ true → IsReset cells.now fresh.now reached.now string.now class) → result ≡ true
        → IsResetWide cells.now fresh.now reached.now class }
{
    if is_stray(string, class) {
        return is_reset;
    }
    resets_each(cells, fresh, class, reached)
}

/// What a character of each class but the first does, if the search is in one of these rows.
fn effects_of(cells: &[Cell], places: &CellPlaces, string: &[u32], reached: &[Reached]) -> Effects
    ensures { AreEffects cells.now places.now.fresh.now places.now.begins.now reached.now string.now result }
{
    let mut kept = [false; 256];
    let mut kept_wide = [false; 256];
    let mut reset = [false; 256];
    let mut reset_wide = [false; 256];
    for class in 1..places.begins.len().min(MARKED) {
        let number = class as u32;
        let is_kept = keeps(cells, places.begins, string, number, reached);
        let is_reset = resets_all(cells, places.fresh, string, number, reached);
        kept[class] = is_kept;
        kept_wide[class] = keeps_wide(cells, places.begins, string, number, reached, is_kept);
        reset[class] = is_reset;
        reset_wide[class] = resets_wide(cells, places.fresh, string, number, reached, is_reset);
    }
    Effects {
        kept,
        kept_wide,
        reset,
        reset_wide,
    }
}

/// Whether the class is marked.
fn mark_of(by_class: &[bool; 256], class: u32) -> bool
    ensures { result ≡ true → slice_index_or by_class.now class false ≡ true }
{
    let class = class as usize;
    if class >= MARKED {
        return false;
    }
    by_class[class]
}

/// Whether the classes of all ASCII characters are marked.
fn ascii_are(classes: &[u32; 256], by_class: &[bool; 256]) -> bool
    ensures { result ≡ true → (c : ℕ) → c < 128 → slice_index_or by_class.now (slice_index_or classes.now c 0) false ≡ true }
{
    for code in 0..128 {
        if !mark_of(by_class, classes[code]) {
            return false;
        }
    }
    true
}

/// Whether all classes of the characters below U+10000 that are not ASCII are marked, where these are used, if each has a class.
fn all_short_are(used: &Option<[bool; 256]>, marked: &[bool; 256]) -> bool
    ensures { (wide : WideValue) → IfSome used.now (AllShortAre wide) → result ≡ true → AllShortAre wide marked.now }
{
    match used {
        Some(used) => are_among(used, marked),
        None => false,
    }
}

/// Whether each class that is used is marked.
fn are_among(used: &[bool; 256], marked: &[bool; 256]) -> bool
    ensures { result ≡ true → (k : ℕ) → slice_index_or used.now k false ≡ true → slice_index_or marked.now k false ≡ true }
{
    for class in 0..MARKED {
        if used[class] && !marked[class] {
            return false;
        }
    }
    true
}

/// Whether there is a class at this place of the string, and another than this one.
fn is_other(string: &[u32], place: usize, class: u32) -> bool
    ensures { result ≡ true → IsOther string.now place class }
{
    place < string.len() && string[place] != class
}

/// For each ASCII character whether it is of another class than that at this place of the string.
fn others_of(classes: &[u32; 256], string: &[u32], place: usize) -> [bool; 128]
    ensures { AreOthers classes.now string.now place result }
{
    let mut marked = [false; 128];
    for code in 0..128 {
        marked[code] = is_other(string, place, classes[code]);
    }
    marked
}

/// The marks of all bytes, by those of the classes of ASCII characters: this mark for those that are not of ASCII characters.
fn resets_of(classes: &[u32; 256], by_class: &[bool; 256], others: bool) -> [bool; 256]
    ensures ascii { AreOfClasses classes.now by_class.now result }
    ensures others { (b : ℕ) → 128 ≤ b → slice_index_or result b false ≡ true → others ≡ true }
{
    let mut marked = [others; 256];
    for code in 0..128 {
        marked[code] = mark_of(by_class, classes[code]);
    }
    marked
}

/// Lets the cells say that nothing is under way that lead to rows for searches that begin.
fn end_passes(cells: &mut Vec<Cell>, fresh: &[FreshRow])
    ensures { AreEnded fresh.now cells.old.items cells.new.items }
{
    for i in 0..cells.len() {
        if resets(cells[i], fresh) {
            cells[i] = Cell::Idle;
        }
    }
}
