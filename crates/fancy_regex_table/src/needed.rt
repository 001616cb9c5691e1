//! How a search goes on to characters in a row that each match needs.

ghost use Rattle.std.specs.Prelude.{◌≡◌, ◌<◌, ◌≤◌, ◌-◌, ℕ, List, true, IsCharBoundary, length};
ghost use Rattle.fancy_regex_stops.specs.Stops.{Covers, CoversShort};
ghost use Rattle.std.specs.Option.{ForSome};

use crate::table::Table;
use fancy_regex_stops::Stops;

/// The least byte with which a character of four bytes begins.
const FIRST_OF_FOUR: u8 = 240;

/// How a search goes on to characters in a row that each match needs.
#[derive(Drop)]
pub struct Needed {
    /// The classes of these characters.
    pub string: Vec<u32>,
    /// For each ASCII character whether it is not of the first of these classes.
    pub others: [bool; 128],
    /// The same of the second one.
    pub next_others: [bool; 128],
    /// Whether the characters of two and three bytes are passed over. None of four bytes is.
    pub passes_short: bool,
    pub stops: Stops,
    /// The stops of the second character, where there is one of few ranges.
    pub next_stops: Option<Stops>,
    /// For each byte whether no attempt is under way after it, where all characters up to it were passed over.
    pub resets: [bool; 256],
    ghost covered: { CoversShort stops others passes_short },
    ghost next_covered: { ForSome next_stops (λ stops. Covers stops next_others true) },
}

/// Where a search goes on.
#[derive(Clone, Copy)]
pub struct Onset {
    /// No match starts from where the search stands up to here.
    pub place: usize,
    /// From this place on the next characters that are needed have to be looked for. No clause says so.
    pub clear: usize,
}

impl Needed {
    ghost use Rattle.fancy_regex_table.specs.Needed.{AreMarks, IsMisfitIn, IsPassedIn, IsPassedTo, IsResetAt};

    /// Where a search goes on that begins at `from`, after an ASCII character or at the start of the text: after the last character up to
    /// those that are needed after which no attempt is under way.
    #[inline(always)]
    fn onset(&self, classes: &[u32; 256], bytes: &[u8], from: usize) -> Onset
        requires { from ≤ length bytes.now }
        ensures range { (from ≤ result.place) × (result.place ≤ length bytes.now) }
        ensures passed { AreMarks classes.now self.now → IsPassedTo classes.now self.now bytes.now from result.place }
    {
        let stop = self.stop_from(classes, bytes, from);
        let place = self.reset_before(bytes, from, stop);
        Onset {
            place,
            clear: stop.saturating_add(1),
        }
    }

    /// The first byte offset from `from` on of the characters that are needed, or of a byte of a character that is not passed over, or the
    /// end. No clause says that it is the first.
    #[inline(always)]
    fn stop_from(&self, classes: &[u32; 256], bytes: &[u8], from: usize) -> usize
        requires { from ≤ length bytes.now }
        ensures range { (from ≤ result) × (result ≤ length bytes.now) }
        ensures passed { AreMarks classes.now self.now → (i : ℕ) → from ≤ i → i < result → IsPassedIn classes.now self.now bytes.now i }
    {
        let mut stop = self.skip(bytes, from);
        'stops: while stop < bytes.len() {
            if !self.is_passed(classes, bytes, stop) {
                return stop;
            }
            stop = self.skip(bytes, stop + 1);
        }
        stop
    }

    /// The place to which characters are passed over sixteen at a time.
    #[inline(always)]
    fn skip(&self, bytes: &[u8], from: usize) -> usize
        requires { from ≤ length bytes.now }
        ensures range { (from ≤ result) × (result ≤ length bytes.now) }
        ensures passed { (classes : List ℕ) → AreMarks classes self.now
            → (i : ℕ) → from ≤ i → i < result → IsPassedIn classes self.now bytes.now i }
    {
        match self.next_stops {
            Some(next) => self.stops.pairs_until(&next, bytes, from),
            None => self.stops.until(bytes, from),
        }
    }

    /// Whether the byte is of a character that is passed over.
    #[inline(always)]
    fn is_passed(&self, classes: &[u32; 256], bytes: &[u8], at: usize) -> bool
        requires { at < length bytes.now }
        ensures { result ≡ true → IsPassedIn classes.now self.now bytes.now at }
    {
        let byte = bytes[at];
        if byte < 128 {
            return self.is_misfit(classes, bytes, at);
        }
        byte < FIRST_OF_FOUR && self.passes_short
    }

    /// Whether one of the characters from here on is not of the class that it needs.
    #[inline(always)]
    fn is_misfit(&self, classes: &[u32; 256], bytes: &[u8], at: usize) -> bool
        requires { at < length bytes.now }
        ensures { result ≡ true → IsMisfitIn classes.now self.now.string.items bytes.now at }
    {
        let string: &[u32] = &self.string;
        for i in 0..string.len() {
            if i >= bytes.len() - at {
                return false;
            }
            if classes[bytes[at + i] as usize] != string[i] {
                return true;
            }
        }
        false
    }

    /// The last place up to `stop` after a byte after which no attempt is under way, or `from`. No clause says that it is the last.
    #[inline(always)]
    fn reset_before(&self, bytes: &[u8], from: usize, stop: usize) -> usize
        requires { (from ≤ stop) × (stop ≤ length bytes.now) }
        ensures range { (from ≤ result) × (result ≤ stop) }
        ensures reset { from < result → IsResetAt self.now.resets bytes.now (result - 1) }
    {
        let mut place = stop;
        'bytes: while place > from {
            if self.resets[bytes[place - 1] as usize] {
                return place;
            }
            place -= 1;
        }
        place
    }
}

impl Table {
    ghost use Rattle.fancy_regex_states.specs.declared.rules.Rules.{Rules};
    ghost use Rattle.fancy_regex_table.specs.Cells.{Parts, Search, NoneBefore};
    ghost use Rattle.fancy_regex_table.specs.Tables.{IsTable, IsSearchOf};

    /// Whether searches go on to characters that each match needs.
    #[inline(always)]
    pub fn has_needed(&self) -> bool {
        self.needed.is_some()
    }

    /// Where a search goes on that begins at `from`. After a character that is not ASCII that is the same place.
    #[inline(always)]
    pub fn onset(&self, text: &str, from: usize) -> Onset
        requires boundary { IsCharBoundary text.now from }
        ensures early { (parts : Parts) (rules : Rules) (s : Search) → IsTable parts self.now → IsSearchOf parts rules s
            → s.text ≡ text.now → s.from ≡ from → s.stop ≡ length text.now → NoneBefore s result.place }
        ensures range { (from ≤ result.place) × (result.place ≤ length text.now) }
        ensures boundary { IsCharBoundary text.now result.place }
    {
        let bytes = text.as_bytes();
        let here = Onset {
            place: from,
            clear: from,
        };
        if from > 0 && bytes[from - 1] >= 128 {
            return here;
        }
        let Some(needed) = self.needed.as_ref() else {
            return here;
        };
        let onset = needed.onset(&self.classes, bytes, from);
        if is_boundary(bytes, onset.place) {
            return onset;
        }
        here
    }
}

/// Whether a character begins at this place, or the text ends.
#[inline(always)]
fn is_boundary(bytes: &[u8], at: usize) -> bool
    requires { at ≤ length bytes.now }
    ensures { result ≡ true → IsCharBoundary bytes.now at }
{
    if at >= bytes.len() {
        return true;
    }
    let byte = bytes[at];
    byte < 128 || byte >= 192
}
