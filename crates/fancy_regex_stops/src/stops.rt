//! The bytes at which a search for a start may stop.

ghost use Rattle.std.specs.Prelude.{◌≡◌, ◌≤◌, ◌<◌, ℕ, List, Bool, true, false, IfSome, length, slice_index_or};
ghost use Rattle.fancy_regex_stops.specs.Gaps.{gap_in};
ghost use Rattle.fancy_regex_stops.specs.Stops.{Covers, CoversShort, AreCovered, IsMarkedAt, IsShortAt, IsPairAt, IsSingle, IsShortPairAt};

use crate::byte_range::{ByteRange, gap_below};
use crate::lanes::{LANES, all, has_zero, lanes_to_zero, load};
use crate::stop_lanes::{RangeLanes, StopLanes, single_gaps};

/// The least byte that is not ASCII.
const FIRST_WIDE: u8 = 128;

/// The least byte with which a character of four bytes begins.
const FIRST_OF_FOUR: u8 = 240;

/// A byte that no text has.
const NO_BYTE: u8 = 255;

/// Three ranges that have all ASCII characters at which a search stops, and the first of the other bytes at which it does.
#[derive(Clone, Copy)]
pub struct Stops {
    pub(crate) first: ByteRange,
    pub(crate) second: ByteRange,
    pub(crate) third: ByteRange,
    /// The least of the other bytes that stop the search; where none does, one that no text has.
    pub(crate) limit: u8,
}

impl Stops {
    /// The ranges of the ASCII characters that are not marked; `None` where they are none, or more than three. All other characters
    /// are passed over if `passes_wide`, and else none of them is.
    pub fn of(marked: &[bool; 128], passes_wide: bool) -> Option<Stops>
        ensures { IfSome result (λ stops. Covers stops marked.now passes_wide) }
    {
        Stops::with_limit(marked, limit_for(passes_wide))
    }

    /// The same, where of the other characters those of up to three bytes are passed over if `passes_short`, and none of four bytes is.
    pub fn of_short(marked: &[bool; 128], passes_short: bool) -> Option<Stops>
        ensures { IfSome result (λ stops. CoversShort stops marked.now passes_short) }
    {
        Stops::with_limit(marked, short_limit_for(passes_short))
    }

    /// The ranges of the ASCII characters that are not marked, and this limit; `None` where the ranges are none, or more than three.
    fn with_limit(marked: &[bool; 128], limit: u8) -> Option<Stops>
        ensures { IfSome result (λ stops. (stops.limit ≡ limit) × AreCovered stops marked.now) }
    {
        let [first, second, third] = ranges_of(marked)?;
        let stops = Stops {
            first,
            second,
            third,
            limit,
        };
        if stops.covers(marked) {
            return Some(stops);
        }
        None
    }

    /// The first byte offset from `from` on of a byte at which a search stops, or one from which on fewer than sixteen are left.
    // Not inlined: the loop alone keeps its values in registers.
    #[inline(never)]
    pub fn until(&self, bytes: &[u8], from: usize) -> usize
        requires { from ≤ length bytes.now }
        ensures range { (from ≤ result) × (result ≤ length bytes.now) }
        ensures passed { (marks : List Bool) (wide : Bool) → Covers self.now marks wide
            → (i : ℕ) → from ≤ i → i < result → IsMarkedAt bytes.now marks wide i }
        ensures short { (marks : List Bool) (short : Bool) → CoversShort self.now marks short
            → (i : ℕ) → from ≤ i → i < result → IsShortAt bytes.now marks short i }
    {
        if self.is_single() {
            self.until_single(bytes, from)
        } else {
            self.until_any(bytes, from)
        }
    }

    /// Whether the three ranges are one.
    fn is_single(&self) -> bool
        ensures { result ≡ true → IsSingle self.now }
    {
        self.second == self.first && self.third == self.first
    }

    /// The first byte offset from `from` on of a byte that has no gap, or one from which on fewer than sixteen are left, where the three
    /// ranges are one.
    #[inline(always)]
    fn until_single(&self, bytes: &[u8], from: usize) -> usize
        requires single { IsSingle self.now }
        requires from { from ≤ length bytes.now }
        ensures range { (from ≤ result) × (result ≤ length bytes.now) }
        ensures passed { (i : ℕ) → from ≤ i → i < result → 0 < gap_in self.now (slice_index_or bytes.now i 0) }
    {
        let limit = all(self.limit);
        let range = RangeLanes::of(self.first);
        let mut at = from;
        'blocks: while bytes.len() - at >= LANES {
            let gaps = single_gaps(limit, range, load(bytes, at));
            if has_zero(gaps) {
                return at + lanes_to_zero(gaps);
            }
            at += LANES;
        }
        at
    }

    /// The same, whatever the ranges.
    #[inline(always)]
    fn until_any(&self, bytes: &[u8], from: usize) -> usize
        requires { from ≤ length bytes.now }
        ensures range { (from ≤ result) × (result ≤ length bytes.now) }
        ensures passed { (i : ℕ) → from ≤ i → i < result → 0 < gap_in self.now (slice_index_or bytes.now i 0) }
    {
        let stops = StopLanes::of(self);
        let mut at = from;
        'blocks: while bytes.len() - at >= LANES {
            let gaps = stops.gaps(load(bytes, at));
            if has_zero(gaps) {
                return at + lanes_to_zero(gaps);
            }
            at += LANES;
        }
        at
    }

    /// The first byte offset from `from` on of a byte at which a search stops, before one at which the search for a second one does, or
    /// one from which on fewer than seventeen are left.
    #[inline(never)]
    pub fn pairs_until(&self, second: &Stops, bytes: &[u8], from: usize) -> usize
        requires { from ≤ length bytes.now }
        ensures range { (from ≤ result) × (result ≤ length bytes.now) }
        ensures passed { (marks others : List Bool) (wide : Bool) → Covers self.now marks wide → Covers second.now others false
            → (i : ℕ) → from ≤ i → i < result → IsPairAt bytes.now marks wide others i }
        ensures short { (marks others : List Bool) (short : Bool) → CoversShort self.now marks short → Covers second.now others true
            → (i : ℕ) → from ≤ i → i < result → IsShortPairAt bytes.now marks short others i }
    {
        let stops = StopLanes::of(self);
        let seconds = StopLanes::of(second);
        let mut at = from;
        'blocks: while bytes.len() - at > LANES {
            let passed = stops.pairs_at(seconds, bytes, at);
            at += passed;
            if passed < LANES {
                return at;
            }
        }
        at
    }

    /// 0 for a byte of one of the ranges, and from the limit on.
    fn gap(&self, byte: u8) -> u8
        ensures { result ≡ gap_in self.now byte }
    {
        let below = gap_below(self.limit, byte);
        let first = below.min(self.first.gap(byte));
        let second = first.min(self.second.gap(byte));
        second.min(self.third.gap(byte))
    }

    /// Whether each ASCII character that is not marked is in one of the ranges.
    fn covers(&self, marked: &[bool; 128]) -> bool
        ensures { result ≡ true → AreCovered self.now marked.now }
    {
        for code in 0..128u8 {
            if self.gap(code) > 0 && !marked[code as usize] {
                return false;
            }
        }
        true
    }
}

/// The first byte at which a search stops that is not ASCII.
fn limit_for(passes_wide: bool) -> u8
    ensures byte { result < 256 }
    ensures stops { 128 < result → passes_wide ≡ true }
{
    if passes_wide { NO_BYTE } else { FIRST_WIDE }
}

/// The same, where no character of four bytes is passed over.
fn short_limit_for(passes_short: bool) -> u8
    ensures most { result ≤ 240 }
    ensures stops { 128 < result → passes_short ≡ true }
{
    if passes_short {
        FIRST_OF_FOUR
    } else {
        FIRST_WIDE
    }
}

/// The ranges of the ASCII characters that are not marked; `None` where they are none, or more than three.
fn ranges_of(marked: &[bool; 128]) -> Option<[ByteRange; 3]> {
    let (first, end) = range_from(marked, 0)?;
    let Some((second, end)) = range_from(marked, end) else {
        return Some([first, first, first]);
    };
    let Some((third, end)) = range_from(marked, end) else {
        return Some([first, second, second]);
    };
    if range_from(marked, end).is_some() {
        return None;
    }
    Some([first, second, third])
}

/// The first range from this code on of ASCII characters that are not marked, and the code after it.
fn range_from(marked: &[bool; 128], from: usize) -> Option<(ByteRange, usize)> {
    let low = run_end(marked, from, true);
    if low >= marked.len() {
        return None;
    }
    let last = run_end(marked, low + 1, false) - 1;
    let range = ByteRange {
        low: low as u8,
        width: (last - low) as u8,
    };
    Some((range, last + 1))
}

/// The first code from this one on that is marked otherwise, or the number of codes.
fn run_end(marked: &[bool; 128], from: usize, mark: bool) -> usize
    ensures low { from ≤ result }
    ensures high { from ≤ 128 → result ≤ 128 }
{
    for code in from..marked.len() {
        if marked[code] != mark {
            return code;
        }
    }
    from.max(marked.len())
}
