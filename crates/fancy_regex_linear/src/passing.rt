//! The characters at which starts are passed over.

ghost use Rattle.std.specs.Prelude.{◌≡◌, ◌≤◌, ◌<◌, ◌+◌, ◌⊎◌, ℕ, true, false, IfSome, length};
ghost use Rattle.std.specs.Option.{ForSome};
ghost use Rattle.fancy_regex_linear.specs.Passing.{HasMarksOf, IsPassedUntil, ArePairsUntil, AreAfterPairsUntil};
ghost use Rattle.fancy_regex_stops.specs.Stops.{Covers, IsBeforeMarked, IsMarked, IsPairAt};

use fancy_regex_stops::Stops;
use fancy_regex_table::{Starts, weight};

/// How many bytes are tested together.
pub const TOGETHER: usize = 16;

/// By what starts are passed over. Each is right; this says which is fast.
#[derive(Clone, Copy, PartialEq, Eq)]
pub enum By {
    /// The ASCII characters there, one after another.
    Chars,
    /// The bytes there.
    Bytes,
    /// The bytes before.
    Before,
}

/// The characters at which starts are passed over. Where starts are passed over by the characters before them, `first` and `wide` are of
/// those, and `second` is of the characters at starts.
#[derive(Clone, Copy)]
pub struct Passing {
    /// For each ASCII character whether it is known that no match begins with it, after another character.
    pub first: [bool; 128],
    /// Whether it is known that no match begins with any other character, after another one.
    pub wide: bool,
    /// The same as `first` of the second character of a match, where the first one is ASCII.
    pub second: [bool; 128],
    /// How it is done.
    pub by: By,
    /// The ranges of the others, if they are few.
    pub first_stops: Option<Stops>,
    pub second_stops: Option<Stops>,
    /// How common the starts are that are left.
    pub starts: Starts,
    ghost first_covered: { ForSome first_stops (λ stops. Covers stops first wide) },
    ghost second_covered: { ForSome second_stops (λ stops. Covers stops second false) },
}

impl Passing {
    ghost use Rattle.std.specs.Prelude.{IfSome};
    ghost use Rattle.fancy_regex_linear.specs.Before.{HasMarksBefore};

    /// The characters that are marked, and all that are not ASCII if `wide`. None are where nothing is known of the second.
    pub fn new(first: &[bool; 128], wide: bool, second: &Option<[bool; 128]>, by: By) -> Passing
        ensures first { result.first ≡ first.now }
        ensures wide { result.wide ≡ wide }
        ensures second { HasMarksOf second.now result.second }
    {
        let second = match second {
            Some(marked) => *marked,
            None => [false; 128],
        };
        Passing {
            first: *first,
            wide,
            second,
            by,
            first_stops: Stops::of(first, wide),
            second_stops: Stops::of(&second, false),
            starts: starts_of(first, &second),
        }
    }

    /// How starts are passed over by the characters before them: those that are marked in `refused`, and those that are not ASCII.
    /// `first` and `second` are the marks of the first and the second characters of matches. No clause says when there is an answer:
    /// `None` is meant for where the characters before that are not marked are as common as the first or the second ones of matches,
    /// or not in few ranges.
    pub fn before_of(
        refused: &Option<[bool; 128]>,
        first: &[bool; 128],
        second: &Option<[bool; 128]>,
    ) -> Option<Passing>
        ensures { IfSome result (HasMarksBefore refused.now first.now) }
    {
        let Some(marked) = refused else {
            return None;
        };
        let common = commonness(marked);
        if common >= commonness(first) {
            return None;
        }
        if let Some(second) = second {
            if common >= commonness(second) {
                return None;
            }
        }
        let passing = Passing::new(marked, true, &Some(*first), By::Bytes);
        if passing.first_stops.is_none() {
            return None;
        }
        Some(passing)
    }

    /// The first byte offset from `from` on of a character that is not known to begin no match, or the end; `None` where the ranges are
    /// not known.
    #[inline(always)]
    pub fn first_until(&self, bytes: &[u8], from: usize) -> Option<usize>
        requires { from ≤ length bytes.now }
        ensures { IfSome result (IsPassedUntil bytes.now self.now.first self.now.wide from) }
    {
        let Some(stops) = self.first_stops else {
            return None;
        };
        let at = stops.until(bytes, from);
        if bytes.len() - at >= TOGETHER && self.is_stop(bytes[at]) {
            return Some(at);
        }
        Some(self.bytes_until(bytes, at))
    }

    /// The first byte offset from `from` on of a character that is not known to begin no match, nor to be followed by one that is second
    /// in no match, or where fewer than seventeen bytes are left; `None` where the ranges are not known.
    #[inline(always)]
    pub fn pairs_until(&self, bytes: &[u8], from: usize) -> Option<usize>
        requires { from ≤ length bytes.now }
        ensures { IfSome result (ArePairsUntil bytes.now self.now.first self.now.wide self.now.second from) }
    {
        let Some(first_stops) = self.first_stops else {
            return None;
        };
        let at = self.pairs_from(first_stops, bytes, from);
        if bytes.len() - at > TOGETHER && self.is_stop(bytes[at]) {
            return Some(at);
        }
        Some(self.bytes_until(bytes, at))
    }

    /// The first byte offset from `from` on that does not come after a character that is marked, nor has one of the second ones, or the
    /// end: where these are the characters before starts and those at them.
    #[inline(always)]
    pub fn after_pairs_until(&self, bytes: &[u8], from: usize) -> usize
        requires { from ≤ length bytes.now }
        ensures { AreAfterPairsUntil bytes.now self.now.first self.now.wide self.now.second from result }
    {
        if from == 0 {
            return from;
        }
        let Some(last) = self.pairs_until(bytes, from - 1) else {
            return from;
        };
        if last >= bytes.len() {
            return last;
        }
        last + 1
    }

    /// The place to which `pairs_until` goes together.
    #[inline(always)]
    fn pairs_from(&self, first_stops: Stops, bytes: &[u8], from: usize) -> usize
        requires range { from ≤ length bytes.now }
        requires covers { Covers first_stops self.now.first self.now.wide }
        ensures range { (from ≤ result) × (result ≤ length bytes.now) }
        ensures passed { (i : ℕ) → from ≤ i → i < result → IsPairAt bytes.now self.now.first self.now.wide self.now.second i }
    {
        match self.second_stops {
            Some(second_stops) => first_stops.pairs_until(&second_stops, bytes, from),
            None => self.marked_until(first_stops, bytes, from),
        }
    }

    /// The same where the second characters are in many ranges.
    // Not inlined: few patterns have them.
    #[inline(never)]
    fn marked_until(&self, first_stops: Stops, bytes: &[u8], from: usize) -> usize
        requires range { from ≤ length bytes.now }
        requires covers { Covers first_stops self.now.first self.now.wide }
        ensures range { (from ≤ result) × (result ≤ length bytes.now) }
        ensures passed { (i : ℕ) → from ≤ i → i < result → IsPairAt bytes.now self.now.first self.now.wide self.now.second i }
    {
        let mut at = from;
        'stops: loop {
            let stop = first_stops.until(bytes, at);
            if bytes.len() - stop <= TOGETHER {
                return stop;
            }
            if !self.is_before_marked(bytes, stop) {
                return stop;
            }
            at = stop + 1;
        }
    }

    /// Whether an ASCII character stands here before a marked one.
    #[inline(always)]
    fn is_before_marked(&self, bytes: &[u8], at: usize) -> bool
        requires { at + 1 < length bytes.now }
        ensures { result ≡ true → IsBeforeMarked bytes.now self.now.second at }
    {
        let byte = bytes[at];
        let next = bytes[at + 1];
        byte < 128 && next < 128 && self.second[next as usize]
    }

    /// The first byte offset from `from` on of a byte of a character that is not known to begin no match, or the end.
    // Not inlined: few searches come to it.
    #[inline(never)]
    fn bytes_until(&self, bytes: &[u8], from: usize) -> usize
        requires { from ≤ length bytes.now }
        ensures { IsPassedUntil bytes.now self.now.first self.now.wide from result }
    {
        let mut at = from;
        'bytes: while at < bytes.len() {
            if !self.is_passed(bytes[at]) {
                return at;
            }
            at += 1;
        }
        at
    }

    /// Whether bytes that were passed over together end before a character, where this byte comes after them.
    #[inline(always)]
    fn is_stop(&self, byte: u8) -> bool
        ensures { result ≡ true → (byte < 128) ⊎ (self.now.wide ≡ false) }
    {
        byte < 128 || !self.wide
    }

    /// Whether the byte is of a character that is known to begin no match.
    #[inline(always)]
    fn is_passed(&self, byte: u8) -> bool
        ensures passed { result ≡ true → IsMarked self.now.first self.now.wide byte }
        ensures stop { result ≡ false → (byte < 128) ⊎ (self.now.wide ≡ false) }
    {
        if byte < 128 {
            return self.first[byte as usize];
        }
        self.wide
    }
}

/// How common starts are at which an ASCII character stands that is not marked as a first one, before one that is not marked as a second
/// one, by a fixed measure.
fn starts_of(first: &[bool; 128], second: &[bool; 128]) -> Starts {
    Starts {
        per_million: commonness(first).saturating_mul(commonness(second)),
    }
}

/// How often a character of a text is one of those that are not marked, by a fixed measure.
fn commonness(marked: &[bool; 128]) -> u32 {
    let mut sum = 0u32;
    for code in 0..128u8 {
        if !marked[code as usize] {
            sum = sum.saturating_add(weight(code));
        }
    }
    sum
}
