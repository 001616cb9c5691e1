//! The table, and the pass over a text by it.

ghost use Rattle.std.specs.Prelude.{◌≡◌, ◌+◌, ◌^◌, ◌<◌, ◌≤◌, ℕ, Option, true, IfOk, IfSome, IsCharBoundary, length, slice_index};
ghost use Rattle.regex_hir.specs.Text.{char_before};
ghost use Rattle.fancy_regex_states.specs.declared.rules.Rules.{Rules};
ghost use Rattle.fancy_regex_table.specs.Cells.{Parts, Search, begun_at as noted_at};

use crate::alphabet::Alphabet;
use crate::begun::homes_of;
use crate::columns::columns_of;
use crate::flat::{cell_at, classes_of, flat_cells, fresh_places};
use crate::maker::rows_of;
use crate::needed::Needed;
use crate::needed_maker::{CellPlaces, needed_of};
use crate::pattern::{Pattern, Starts};
use crate::row::Cell;
use crate::rows::{FreshRow, begins_of, fresh_for};
use crate::sort::{Asked, asked_by, sort_of};
use crate::step::Reader;
use crate::wide::{Wide, WideChar};
use fancy_regex_class::CharClassMatcher;
use fancy_regex_states::State;
use std::alloc::{AllocError, Global};

/// The most steps over states that may be taken to make a table.
const MOST_STEPS: usize = 1_000_000;

/// What a pass over a text found. `read` is the byte offset up to which the text was read.
#[derive(Clone, Copy)]
pub enum Passed {
    /// The first match.
    Match {
        start: usize,
        end: usize,
        read: usize,
    },
    /// No match.
    Ended,
    /// No match starts before this place, and no attempt is under way there.
    Idle {
        at: usize,
    },
    /// No match starts before `from`.
    Unknown {
        from: usize,
        read: usize,
    },
}

/// Where a pass stands.
#[derive(Clone, Copy)]
pub(crate) struct Place {
    /// Where the row begins in the list of cells.
    pub row: u32,
    pub at: usize,
    /// Where the first attempt began that is under way.
    pub start: usize,
    /// Where its match ended that was noted last.
    pub last: usize,
}

/// A table of the states of a pattern, by which a search goes through a text.
#[derive(Drop)]
pub struct Table {
    /// The cells, row by row, one for each class of characters. The first class is the end of the text.
    pub(crate) cells: Vec<Cell>,
    /// The number of each ASCII character's class, and for each other byte one beyond all cells.
    pub(crate) classes: [u32; 256],
    /// The classes of the characters that are not ASCII.
    wide: Wide,
    asked: Asked,
    unicode: bool,
    fresh: Vec<FreshRow>,
    /// For each class of characters the row for a search that begins after one of them, if there is one.
    begins: Vec<Option<u32>>,
    is_whole: bool,
    /// How searches go on to characters that each match needs, if they do.
    pub(crate) needed: Option<Needed>,
    ghost beyond: { (b : ℕ) → 128 ≤ b → b < 256 → length cells.items ≤ slice_index classes b },
}

impl Table {
    ghost use Rattle.fancy_regex_table.specs.Tables.{IsTable, IsSearchOf, IsPassed, Stands, IsStartAt, IsFreshRow, HasColumn, IsOnward, IsRunTo, IsLater, IsFreshAt, IsIdleAfter, IsPlaceIn, IsAsciiAt, IsWideTo, LiesAt, IsInRange};
    ghost use Rattle.fancy_regex_table.specs.Wides.{IsWideAt};
    ghost use Rattle.fancy_regex_table.specs.Cells.{TellsBy};
    ghost use Rattle.fancy_regex_table.specs.Sorts.{sort_at};
    ghost use Rattle.fancy_regex_table.specs.declared.sort.Sort.{Sort as SortValue};

    /// The table of these states, from the number of the entry; `None` where a state is `\G`, where their look-arounds ask about more than
    /// four leaves, or where there are more cells than a `u32` counts. Where starts are common, passes go on where no attempt is under way,
    /// unless searches go on to characters that each match needs; no clause says so. The error is want of memory.
    pub fn new(
        alloc: Global,
        states: &[State],
        entry: usize,
        matchers: &[CharClassMatcher],
        unicode: bool,
        starts: Starts,
    ) -> Result<Option<Table>, AllocError>
        ensures { IfOk result (λ made. IfSome made (IsTable (record {
          states = states.now;
          entry = entry;
          matchers = matchers.now;
          unicode = unicode;
        }))) }
    {
        let reader = Reader {
            states,
            matchers,
            unicode,
        };
        let pattern = Pattern { reader, entry };
        let Some(asked) = asked_by(states) else {
            return Ok(None);
        };
        let alphabet = Alphabet::new(alloc, &reader, asked)?;
        let columns = columns_of(alloc, &alphabet, &reader)?;
        let mut steps = MOST_STEPS;
        let homes = homes_of(alloc, &pattern, &columns, &mut steps)?;
        let made = rows_of(alloc, &pattern, &columns, &homes, starts, &mut steps)?;
        let mut cells = flat_cells(alloc, &made.cells, columns.len())?;
        let fresh = fresh_places(alloc, &made.fresh, columns.len())?;
        let begins = begins_of(alloc, &columns, &fresh)?;
        let Ok(other) = u32::try_from(cells.len()) else {
            return Ok(None);
        };
        let classes = classes_of(&alphabet.ascii, other);
        let places = CellPlaces {
            classes: &classes,
            wide: &alphabet.wide,
            fresh: &fresh,
            begins: &begins,
        };
        let needed = needed_of(alloc, &mut cells, &places, starts)?;
        Ok(Some(Table {
            cells,
            classes,
            wide: alphabet.wide,
            asked: alphabet.asked,
            unicode,
            fresh,
            begins,
            is_whole: made.is_whole,
            needed,
        }))
    }

    /// Whether the table has all rows that a search can come to.
    pub fn is_whole(&self) -> bool {
        self.is_whole
    }

    /// Goes through the text from the byte offset `from`, after the character `before`, up to `stop`. With `at_end` that is the end of
    /// the text. With `past_idle` the pass goes on where attempts end before a character that may begin another one. The matchers are
    /// those of the states.
    #[inline(always)]
    pub fn pass(
        &self,
        matchers: &[CharClassMatcher],
        text: &str,
        from: usize,
        before: Option<char>,
        stop: usize,
        at_end: bool,
        past_idle: bool,
    ) -> Passed
        requires range { (from ≤ stop) × (stop ≤ length text.now) }
        requires boundary { IsCharBoundary text.now from }
        requires before { before ≡ char_before text.now from }
        requires end { at_end ≡ true → stop ≡ length text.now }
        ensures passed { (parts : Parts) (rules : Rules) (s : Search) → IsTable parts self.now → IsSearchOf parts rules s
            → parts.matchers ≡ matchers.now → s.text ≡ text.now → s.from ≡ from → s.stop ≡ stop → IsPassed s result }
        ensures range { IsInRange text.now from stop result }
    {
        let Some(row) = self.first_row(matchers, before) else {
            return Passed::Unknown { from, read: from };
        };
        let mut place = Place {
            row,
            at: from,
            start: from,
            last: from,
        };
        self.run(text, &mut place, stop);
        if self.goes_on(text, row, place, stop, past_idle) {
            return self.pass_on(matchers, text, place, stop, at_end);
        }
        if place.at >= stop {
            return self.at_stop(place, at_end);
        }
        self.outcome(matchers, text, place, stop)
    }

    /// Whether the character at this place is not ASCII, or, with `past_idle`, ends the attempts that are under way where the next one may
    /// begin another, as far as this row tells. The row after the character may tell otherwise.
    #[inline(always)]
    fn goes_on(&self, text: &str, row: u32, place: Place, stop: usize, past_idle: bool) -> bool
        requires { stop ≤ length text.now }
    {
        if place.at >= stop {
            return false;
        }
        let bytes = text.as_bytes();
        let byte = bytes[place.at];
        if byte >= 128 {
            return true;
        }
        match cell_at(&self.cells, self.classes[byte as usize], place.row) {
            Cell::Idle if past_idle && place.at + 1 < stop => self.may_begin(
                bytes[place.at + 1],
                row,
            ),
            _ => false,
        }
    }

    /// What a pass finds from this place on.
    // Not inlined: the loops keep their values in registers, and most passes end before.
    #[inline(never)]
    fn pass_on(
        &self,
        matchers: &[CharClassMatcher],
        text: &str,
        first: Place,
        stop: usize,
        at_end: bool,
    ) -> Passed
        requires place { IsPlaceIn text.now stop first }
        requires stop { stop ≤ length text.now }
        requires end { at_end ≡ true → stop ≡ length text.now }
        ensures range { IsInRange text.now first.start stop result }
        ensures passed { (parts : Parts) (rules : Rules) (s : Search) (table : IsTable parts self.now) → IsSearchOf parts rules s
            → parts.matchers ≡ matchers.now → s.text ≡ text.now → s.stop ≡ stop
            → Stands parts.matchers self.now.asked self.now.unicode table.rows s first → IsPassed s result }
    {
        let place = self.run_on(matchers, text, first, stop);
        if place.at >= stop {
            return self.at_stop(place, at_end);
        }
        self.outcome(matchers, text, place, stop)
    }

    /// The place to which the characters from this one on lead.
    #[inline(always)]
    fn run_on(&self, matchers: &[CharClassMatcher], text: &str, first: Place, stop: usize) -> Place
        requires place { IsPlaceIn text.now stop first }
        requires stop { stop ≤ length text.now }
        ensures run { IsRunTo text.now first stop result }
        ensures stands { (parts : Parts) (rules : Rules) (s : Search) (table : IsTable parts self.now) → IsSearchOf parts rules s
            → parts.matchers ≡ matchers.now
            → s.text ≡ text.now → s.stop ≡ stop → Stands parts.matchers self.now.asked self.now.unicode table.rows s first
            → Stands parts.matchers self.now.asked self.now.unicode table.rows s result }
    {
        let place = self.run_attempts(text, first, stop);
        if place.at < stop && text.as_bytes()[place.at] >= 128 {
            return self.run_wide(matchers, text, place, stop);
        }
        place
    }

    /// The place to which the attempts from this one on lead, as long as an ASCII character ends those that are under way and the next
    /// character may begin another.
    #[inline(always)]
    fn run_attempts(&self, text: &str, first: Place, stop: usize) -> Place
        requires place { IsPlaceIn text.now stop first }
        requires stop { stop ≤ length text.now }
        ensures run { IsRunTo text.now first stop result }
        ensures stands { (parts : Parts) (rules : Rules) (s : Search) (table : IsTable parts self.now) → IsSearchOf parts rules s
            → s.text ≡ text.now → s.stop ≡ stop → Stands parts.matchers self.now.asked self.now.unicode table.rows s first
            → Stands parts.matchers self.now.asked self.now.unicode table.rows s result }
    {
        let mut place = first;
        'attempts: while place.at < stop {
            match self.next_attempt(text, place, stop) {
                Some(next) => place = self.run_from(text, next, stop),
                None => return place,
            }
        }
        place
    }

    /// The place after the character at this one, if it is ASCII and ends the attempts that are under way, and the next character may
    /// begin another.
    #[inline(always)]
    fn next_attempt(&self, text: &str, place: Place, stop: usize) -> Option<Place>
        requires place { IsPlaceIn text.now stop place }
        requires inside { (place.at < stop) × (stop ≤ length text.now) }
        ensures later { IfSome result (IsLater text.now place stop) }
        ensures stands { (parts : Parts) (rules : Rules) (s : Search) (table : IsTable parts self.now) → IsSearchOf parts rules s
            → s.text ≡ text.now → s.stop ≡ stop → Stands parts.matchers self.now.asked self.now.unicode table.rows s place
            → IfSome result (Stands parts.matchers self.now.asked self.now.unicode table.rows s) }
    {
        let bytes = text.as_bytes();
        let Some(next) = self.step_idle(bytes[place.at], place) else {
            return None;
        };
        if next.at < stop && self.may_begin(bytes[next.at], next.row) {
            return Some(next);
        }
        None
    }

    /// The place after the character at this one, whose first byte this is, if it is ASCII and ends the attempts that are under way, and
    /// there is a row for searches that begin there.
    #[inline(always)]
    fn step_idle(&self, byte: u8, place: Place) -> Option<Place>
        requires next { place.at + 1 < 2 ^ 64 }
        ensures fresh { IfSome result (IsIdleAfter place byte) }
        ensures stands { (parts : Parts) (rules : Rules) (s : Search) (table : IsTable parts self.now) → IsSearchOf parts rules s
            → (byte < 128 → IsAsciiAt s.text place.at byte) → place.at < s.stop
            → Stands parts.matchers self.now.asked self.now.unicode table.rows s place
            → IfSome result (Stands parts.matchers self.now.asked self.now.unicode table.rows s) }
    {
        let class = self.classes[byte as usize];
        match cell_at(&self.cells, class, place.row) {
            Cell::Idle => self.fresh_place(class as usize, place.at + 1),
            _ => None,
        }
    }

    /// Whether a match may begin with the character whose first byte this is, as far as this row tells; not if it is not ASCII.
    #[inline(always)]
    fn may_begin(&self, byte: u8, row: u32) -> bool {
        match cell_at(&self.cells, self.classes[byte as usize], row) {
            Cell::Idle | Cell::Unknown => false,
            _ => true,
        }
    }

    /// Goes on to the place to which the characters from this one on lead, as long as each is ASCII and leads to a row.
    // Not inlined: the loop alone keeps its values in registers.
    #[inline(never)]
    fn run(&self, text: &str, place: &mut Place, stop: usize)
        requires place { IsPlaceIn text.now stop place.old }
        requires stop { stop ≤ length text.now }
        ensures run { IsRunTo text.now place.old stop place.new }
        ensures stands { (parts : Parts) (rules : Rules) (s : Search) (table : IsTable parts self.now) → IsSearchOf parts rules s
            → s.text ≡ text.now → s.stop ≡ stop → Stands parts.matchers self.now.asked self.now.unicode table.rows s place.old
            → Stands parts.matchers self.now.asked self.now.unicode table.rows s place.new }
    {
        *place = self.run_from(text, *place, stop);
    }

    /// That place.
    #[inline(always)]
    fn run_from(&self, text: &str, first: Place, stop: usize) -> Place
        requires place { IsPlaceIn text.now stop first }
        requires stop { stop ≤ length text.now }
        ensures run { IsRunTo text.now first stop result }
        ensures stands { (parts : Parts) (rules : Rules) (s : Search) (table : IsTable parts self.now) → IsSearchOf parts rules s
            → s.text ≡ text.now → s.stop ≡ stop → Stands parts.matchers self.now.asked self.now.unicode table.rows s first
            → Stands parts.matchers self.now.asked self.now.unicode table.rows s result }
    {
        let bytes = text.as_bytes();
        let cells: &[Cell] = &self.cells;
        let mut place = first;
        'chars: while place.at < stop {
            match self.step(cells, bytes[place.at], place) {
                Some(next) => place = next,
                None => return place,
            }
        }
        place
    }

    /// The place to which the characters from this one on lead, as long as each leads to a row, or is one that is not ASCII after which no
    /// attempt is under way.
    #[inline(always)]
    fn run_wide(
        &self,
        matchers: &[CharClassMatcher],
        text: &str,
        first: Place,
        stop: usize,
    ) -> Place
        requires place { IsPlaceIn text.now stop first }
        requires stop { stop ≤ length text.now }
        ensures run { IsRunTo text.now first stop result }
        ensures stands { (parts : Parts) (rules : Rules) (s : Search) (table : IsTable parts self.now) → IsSearchOf parts rules s
            → parts.matchers ≡ matchers.now
            → s.text ≡ text.now → s.stop ≡ stop → Stands parts.matchers self.now.asked self.now.unicode table.rows s first
            → Stands parts.matchers self.now.asked self.now.unicode table.rows s result }
    {
        let mut place = first;
        'places: while place.at < stop {
            match self.next_place(matchers, text, place, stop) {
                Some(next) => place = next,
                None => return place,
            }
        }
        place
    }

    /// The place after the character at this one, if it leads to a row, or is not ASCII and no attempt is under way after it.
    #[inline(always)]
    fn next_place(
        &self,
        matchers: &[CharClassMatcher],
        text: &str,
        place: Place,
        stop: usize,
    ) -> Option<Place>
        requires place { IsPlaceIn text.now stop place }
        requires inside { (place.at < stop) × (stop ≤ length text.now) }
        ensures later { IfSome result (IsLater text.now place stop) }
        ensures stands { (parts : Parts) (rules : Rules) (s : Search) (table : IsTable parts self.now) → IsSearchOf parts rules s
            → parts.matchers ≡ matchers.now → s.text ≡ text.now → s.stop ≡ stop
            → Stands parts.matchers self.now.asked self.now.unicode table.rows s place
            → IfSome result (Stands parts.matchers self.now.asked self.now.unicode table.rows s) }
    {
        let byte = text.as_bytes()[place.at];
        if byte < 128 {
            return self.step(&self.cells, byte, place);
        }
        self.wide_step(matchers, text, place, stop)
    }

    /// The row for a search that begins after this character, by its class where it is ASCII.
    #[inline(always)]
    pub(crate) fn first_row(
        &self,
        matchers: &[CharClassMatcher],
        before: Option<char>,
    ) -> Option<u32>
        ensures { (parts : Parts) → IsTable parts self.now → parts.matchers ≡ matchers.now
            → IfSome result (IsFreshRow self.now.fresh.items (sort_at parts.matchers self.now.asked self.now.unicode before)) }
    {
        match before {
            None => self.row_of_class(0),
            Some(c) if (c as u32) < 128 => self.row_of_class(self.classes[c as usize] as usize),
            Some(c) => self.wide_row(matchers, c),
        }
    }

    /// The row for a search that begins after a character of this class.
    #[inline(always)]
    fn row_of_class(&self, class: usize) -> Option<u32>
        ensures { (parts : Parts) (table : IsTable parts self.now) (c : Option ℕ)
            → HasColumn parts table.columns self.now.asked c class
            → IfSome result (IsFreshRow self.now.fresh.items (sort_at parts.matchers self.now.asked self.now.unicode c)) }
    {
        if class < self.begins.len() {
            return self.begins[class];
        }
        None
    }

    /// The row for a search that begins after this character, which is not ASCII.
    #[inline(never)]
    fn wide_row(&self, matchers: &[CharClassMatcher], c: char) -> Option<u32>
        requires { 128 ≤ c }
        ensures { (parts : Parts) → IsTable parts self.now → parts.matchers ≡ matchers.now
            → IfSome result (IsFreshRow self.now.fresh.items (sort_at parts.matchers self.now.asked self.now.unicode (Some c))) }
    {
        let class = self.wide.class_of(matchers, self.unicode, c);
        if class > 0 {
            return self.row_of_class(class as usize);
        }
        self.fresh_row(matchers, Some(c))
    }

    /// The row for a search that begins after this character.
    // Not inlined: few searches come to it.
    #[inline(never)]
    fn fresh_row(&self, matchers: &[CharClassMatcher], before: Option<char>) -> Option<u32>
        ensures { IfSome result (IsFreshRow self.now.fresh.items (sort_at matchers.now self.now.asked self.now.unicode before)) }
    {
        let reader = Reader {
            states: &[],
            matchers,
            unicode: self.unicode,
        };
        fresh_for(&self.fresh, sort_of(self.asked, &reader, before))
    }

    /// Where the first attempt began, or the place itself in a row for searches that begin.
    fn start_at(&self, place: Place) -> usize
        ensures { IsStartAt self.now.fresh.items place result }
    {
        for i in 0..self.fresh.len() {
            let it = self.fresh[i];
            if it.row == place.row {
                return place.at;
            }
        }
        place.start
    }

    /// That nothing more is known at the place.
    fn unknown(&self, place: Place) -> Passed
        requires { place.start ≤ place.at }
        ensures passed { (parts : Parts) (s : Search) (table : IsTable parts self.now)
            → Stands parts.matchers self.now.asked self.now.unicode table.rows s place → IsPassed s result }
        ensures lies { LiesAt place result }
    {
        Passed::Unknown {
            from: self.start_at(place),
            read: place.at,
        }
    }

    /// What a cell says that leads to no row, but for `Idle`.
    fn ended(&self, cell: Cell, place: Place) -> Passed
        requires { place.start ≤ place.at }
        ensures passed { (parts : Parts) (s : Search) (table : IsTable parts self.now) (after : SortValue) (next : ℕ)
            → Stands parts.matchers self.now.asked self.now.unicode table.rows s place
            → TellsBy s table.rows after place.at next place.start place.last cell → IsPassed s result }
        ensures lies { LiesAt place result }
    {
        match cell {
            Cell::Empty => Passed::Match {
                start: place.at,
                end: place.at,
                read: place.at,
            },
            Cell::EndsHere => Passed::Match {
                start: place.start,
                end: place.at,
                read: place.at,
            },
            Cell::EndsEarlier => Passed::Match {
                start: place.start,
                end: place.last,
                read: place.at,
            },
            Cell::Next { .. } | Cell::Unknown | Cell::Idle => self.unknown(place),
        }
    }

    /// What is found at the end of the range. With `at_end` that is the end of the text.
    pub(crate) fn at_stop(&self, place: Place, at_end: bool) -> Passed
        requires { place.start ≤ place.at }
        ensures passed { (parts : Parts) (rules : Rules) (s : Search) (table : IsTable parts self.now) → IsSearchOf parts rules s
            → place.at ≡ s.stop → (at_end ≡ true → s.stop ≡ length s.text)
            → Stands parts.matchers self.now.asked self.now.unicode table.rows s place → IsPassed s result }
        ensures lies { LiesAt place result }
    {
        if !at_end {
            return self.unknown(place);
        }
        match cell_at(&self.cells, 0, place.row) {
            Cell::Idle => Passed::Ended,
            cell => self.ended(cell, place),
        }
    }

    /// The place after the character at this one, whose first byte this is, if it is ASCII and leads to a row. The cells are the table's.
    #[inline(always)]
    pub(crate) fn step(&self, cells: &[Cell], byte: u8, place: Place) -> Option<Place>
        requires cells { cells.now ≡ self.now.cells.items }
        requires next { place.at + 1 < 2 ^ 64 }
        requires order { place.start ≤ place.at }
        ensures onward { IfSome result (IsOnward place byte) }
        ensures stands { (parts : Parts) (rules : Rules) (s : Search) (table : IsTable parts self.now) → IsSearchOf parts rules s
            → (byte < 128 → IsAsciiAt s.text place.at byte) → place.at < s.stop
            → Stands parts.matchers self.now.asked self.now.unicode table.rows s place
            → IfSome result (Stands parts.matchers self.now.asked self.now.unicode table.rows s) }
    {
        match cell_at(cells, self.classes[byte as usize], place.row) {
            Cell::Next { begins, ends, row } => Some(Place {
                row,
                at: place.at + 1,
                start: begun_at(begins, place.at, place.start),
                last: begun_at(ends, place.at, place.last),
            }),
            _ => None,
        }
    }

    /// The character at this place, which is not ASCII; its class is 0 where none is known, or where it ends after `stop`.
    #[inline(always)]
    pub(crate) fn wide_char(
        &self,
        matchers: &[CharClassMatcher],
        text: &str,
        at: usize,
        stop: usize,
    ) -> WideChar
        requires { IsWideAt text.now at }
        ensures { IsWideTo self.now.unicode matchers.now self.now.wide text.now at stop result }
    {
        let c = self.wide.decode(matchers, self.unicode, text, at);
        if c.next > stop {
            return WideChar {
                class: 0,
                next: c.next,
            };
        }
        c
    }

    /// The place after the character at this one, which is not ASCII, if it leads to a row, or no attempt is under way after it.
    #[inline(always)]
    fn wide_step(
        &self,
        matchers: &[CharClassMatcher],
        text: &str,
        place: Place,
        stop: usize,
    ) -> Option<Place>
        requires place { IsPlaceIn text.now stop place }
        requires wide { IsWideAt text.now place.at }
        ensures later { IfSome result (IsLater text.now place stop) }
        ensures stands { (parts : Parts) (rules : Rules) (s : Search) (table : IsTable parts self.now) → IsSearchOf parts rules s
            → parts.matchers ≡ matchers.now → s.text ≡ text.now → s.stop ≡ stop
            → Stands parts.matchers self.now.asked self.now.unicode table.rows s place
            → IfSome result (Stands parts.matchers self.now.asked self.now.unicode table.rows s) }
    {
        let c = self.wide_char(matchers, text, place.at, stop);
        if c.class == 0 {
            return None;
        }
        match cell_at(&self.cells, c.class as u32, place.row) {
            Cell::Next { begins, ends, row } => Some(Place {
                row,
                at: c.next,
                start: begun_at(begins, place.at, place.start),
                last: begun_at(ends, place.at, place.last),
            }),
            Cell::Idle => self.fresh_place(c.class as usize, c.next),
            _ => None,
        }
    }

    /// The place `at` after a character of this class where no attempt is under way, if there is a row for searches that begin there.
    #[inline(always)]
    fn fresh_place(&self, class: usize, at: usize) -> Option<Place>
        ensures place { IfSome result (IsFreshAt at) }
        ensures row { (parts : Parts) (table : IsTable parts self.now) (d : Option ℕ)
            → HasColumn parts table.columns self.now.asked d class
            → IfSome result (λ place. IsFreshRow self.now.fresh.items
            (sort_at parts.matchers self.now.asked self.now.unicode d) place.row) }
    {
        match self.row_of_class(class) {
            Some(row) => Some(Place {
                row,
                at,
                start: at,
                last: at,
            }),
            None => None,
        }
    }

    /// What is told at the place where a run ends, before a character.
    pub(crate) fn outcome(
        &self,
        matchers: &[CharClassMatcher],
        text: &str,
        place: Place,
        stop: usize,
    ) -> Passed
        requires place { IsPlaceIn text.now stop place }
        requires inside { (place.at < stop) × (stop ≤ length text.now) }
        ensures range { IsInRange text.now place.start stop result }
        ensures passed { (parts : Parts) (rules : Rules) (s : Search) (table : IsTable parts self.now) → IsSearchOf parts rules s
            → parts.matchers ≡ matchers.now → s.text ≡ text.now → s.stop ≡ stop
            → Stands parts.matchers self.now.asked self.now.unicode table.rows s place → IsPassed s result }
    {
        let byte = text.as_bytes()[place.at];
        if byte >= 128 {
            return self.wide_outcome(matchers, text, place, stop);
        }
        let cell = cell_at(&self.cells, self.classes[byte as usize], place.row);
        match cell {
            Cell::Idle => Passed::Idle { at: place.at + 1 },
            _ => self.ended(cell, place),
        }
    }

    /// The same before a character that is not ASCII.
    #[inline(never)]
    fn wide_outcome(
        &self,
        matchers: &[CharClassMatcher],
        text: &str,
        place: Place,
        stop: usize,
    ) -> Passed
        requires place { IsPlaceIn text.now stop place }
        requires wide { IsWideAt text.now place.at }
        ensures range { IsInRange text.now place.start stop result }
        ensures passed { (parts : Parts) (rules : Rules) (s : Search) (table : IsTable parts self.now) → IsSearchOf parts rules s
            → parts.matchers ≡ matchers.now → s.text ≡ text.now → s.stop ≡ stop
            → Stands parts.matchers self.now.asked self.now.unicode table.rows s place → IsPassed s result }
    {
        let c = self.wide_char(matchers, text, place.at, stop);
        if c.class == 0 {
            return self.unknown(place);
        }
        let cell = cell_at(&self.cells, c.class as u32, place.row);
        match cell {
            Cell::Idle => Passed::Idle { at: c.next },
            _ => self.ended(cell, place),
        }
    }
}

/// What was noted, or this place if it is to be noted.
#[inline(always)]
pub(crate) fn begun_at(is_noted: bool, at: usize, before: usize) -> usize
    ensures { result ≡ noted_at is_noted at before }
{
    if is_noted { at } else { before }
}
