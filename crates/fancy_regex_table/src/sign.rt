//! A pass over a text that ends at the first sign of a match.

ghost use Rattle.std.specs.Prelude.{◌≡◌, ◌+◌, ◌^◌, ◌<◌, ◌≤◌, IsCharBoundary, length};
ghost use Rattle.regex_hir.specs.Text.{char_before};
ghost use Rattle.fancy_regex_states.specs.declared.rules.Rules.{Rules};
ghost use Rattle.fancy_regex_table.specs.Cells.{Parts, Search};
ghost use Rattle.fancy_regex_table.specs.Signs.{sign_in};

use crate::flat::cell_at;
use crate::row::Cell;
use crate::table::{Passed, Place, Table, begun_at};
use fancy_regex_class::CharClassMatcher;

/// What a pass found that ends at the first sign of a match.
#[derive(Clone, Copy)]
pub enum Sign {
    /// There is a match.
    Match,
    /// There is none.
    Ended,
    /// No match starts before this place, and no attempt is under way there.
    Idle { at: usize },
    /// No match starts before `from`.
    Unknown { from: usize },
}

/// What a pass to the first sign of a match learns by a character.
#[derive(Clone, Copy)]
enum Onward {
    /// The place after the character.
    To(Place),
    /// The first attempt has a match before the character, and goes on.
    Noted,
    /// Neither: no row is led to, or the character is not ASCII.
    Nowhere,
}

impl Table {
    ghost use Rattle.fancy_regex_table.specs.Tables.{IsTable, IsSearchOf, IsAsciiAt, IsLater, IsPlaceIn, Stands};
    ghost use Rattle.fancy_regex_table.specs.Signs.{IsSign, IsSignInRange, IsLearned, IfTo, LearnsOf};
    ghost use Rattle.fancy_regex_table.specs.Wides.{IsWideAt};

    /// Goes through the text as `pass` does, from the byte offset `from`, after the character `before`, to the end of the text, but
    /// only up to where the first attempt has a match, which need not be the one that is wanted. The matchers are those of the states.
    // Not inlined: the loop alone keeps its values in registers.
    #[inline(never)]
    pub fn sign(
        &self,
        matchers: &[CharClassMatcher],
        text: &str,
        from: usize,
        before: Option<char>,
    ) -> Sign
        requires boundary { IsCharBoundary text.now from }
        requires before { before ≡ char_before text.now from }
        ensures sign { (parts : Parts) (rules : Rules) (s : Search) → IsTable parts self.now → IsSearchOf parts rules s
            → parts.matchers ≡ matchers.now → s.text ≡ text.now → s.from ≡ from → s.stop ≡ length text.now → IsSign s result }
        ensures range { IsSignInRange text.now from result }
    {
        let Some(row) = self.first_row(matchers, before) else {
            return Sign::Unknown { from };
        };
        let bytes = text.as_bytes();
        let mut place = Place {
            row,
            at: from,
            start: from,
            last: from,
        };
        'chars: while place.at < bytes.len() {
            match self.learn(matchers, text, place) {
                Onward::To(next) => place = next,
                Onward::Noted => return Sign::Match,
                Onward::Nowhere => {
                    return sign_of(self.outcome(matchers, text, place, bytes.len()));
                }
            }
        }
        sign_of(self.at_stop(place, true))
    }

    /// What is learned by the character at this place.
    #[inline(always)]
    fn learn(&self, matchers: &[CharClassMatcher], text: &str, place: Place) -> Onward
        requires place { IsPlaceIn text.now (length text.now) place }
        requires inside { place.at < length text.now }
        ensures later { IfTo result (IsLater text.now place (length text.now)) }
        ensures learns { (parts : Parts) (rules : Rules) (s : Search) (table : IsTable parts self.now) → IsSearchOf parts rules s
            → parts.matchers ≡ matchers.now → s.text ≡ text.now → s.stop ≡ length text.now
            → Stands parts.matchers self.now.asked self.now.unicode table.rows s place
            → LearnsOf s result (Stands parts.matchers self.now.asked self.now.unicode table.rows s) }
    {
        let byte = text.as_bytes()[place.at];
        if byte < 128 {
            return self.onward(byte, place);
        }
        self.wide_onward(matchers, text, place)
    }

    /// What is learned by the character at this place, whose first byte this is. Its cell is looked up once.
    #[inline(always)]
    fn onward(&self, byte: u8, place: Place) -> Onward
        requires next { place.at + 1 < 2 ^ 64 }
        requires order { place.start ≤ place.at }
        ensures learned { IsLearned self.now place byte result }
        ensures stands { (parts : Parts) (rules : Rules) (s : Search) (table : IsTable parts self.now) → IsSearchOf parts rules s
            → (byte < 128 → IsAsciiAt s.text place.at byte) → place.at < s.stop
            → Stands parts.matchers self.now.asked self.now.unicode table.rows s place
            → IfTo result (Stands parts.matchers self.now.asked self.now.unicode table.rows s) }
    {
        match cell_at(&self.cells, self.classes[byte as usize], place.row) {
            Cell::Next { ends: true, .. } => Onward::Noted,
            Cell::Next { begins, row, .. } => Onward::To(Place {
                row,
                at: place.at + 1,
                start: begun_at(begins, place.at, place.start),
                last: place.last,
            }),
            _ => Onward::Nowhere,
        }
    }

    /// The same of a character that is not ASCII.
    #[inline(always)]
    fn wide_onward(&self, matchers: &[CharClassMatcher], text: &str, place: Place) -> Onward
        requires place { IsPlaceIn text.now (length text.now) place }
        requires wide { IsWideAt text.now place.at }
        ensures later { IfTo result (IsLater text.now place (length text.now)) }
        ensures learns { (parts : Parts) (rules : Rules) (s : Search) (table : IsTable parts self.now) → IsSearchOf parts rules s
            → parts.matchers ≡ matchers.now → s.text ≡ text.now → s.stop ≡ length text.now
            → Stands parts.matchers self.now.asked self.now.unicode table.rows s place
            → LearnsOf s result (Stands parts.matchers self.now.asked self.now.unicode table.rows s) }
    {
        let c = self.wide_char(matchers, text, place.at, text.len());
        if c.class == 0 {
            return Onward::Nowhere;
        }
        match cell_at(&self.cells, c.class as u32, place.row) {
            Cell::Next {
                ends: true,
                row: _,
                ..
            } => Onward::Noted,
            Cell::Next { begins, row, .. } => Onward::To(Place {
                row,
                at: c.next,
                start: begun_at(begins, place.at, place.start),
                last: place.last,
            }),
            _ => Onward::Nowhere,
        }
    }
}

/// What a whole pass says of the matches.
#[inline(always)]
fn sign_of(passed: Passed) -> Sign
    ensures { result ≡ sign_in passed }
{
    match passed {
        Passed::Match { .. } => Sign::Match,
        Passed::Ended => Sign::Ended,
        Passed::Idle { at } => Sign::Idle { at },
        Passed::Unknown { from, .. } => Sign::Unknown { from },
    }
}
