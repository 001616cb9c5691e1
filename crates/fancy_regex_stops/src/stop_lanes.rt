//! Stops with each number in all lanes of a vector, so that a loop does not spread them anew.

ghost use Rattle.std.specs.Prelude.{◌≡◌, ◌≤◌, ◌<◌, ◌+◌, ℕ, length, map, slice_index_or};
ghost use Rattle.std.specs.Simd.Lanes.{zip2};
ghost use Rattle.fancy_regex_stops.specs.Gaps.{gap_in, gap_of, limit_gap, lesser, pair_gap};
ghost use Rattle.fancy_regex_stops.specs.StopLanes.{AreAll, AreBounds, AreNumbers};
ghost use Rattle.fancy_regex_stops.specs.declared.byte_range.ByteRange.{ByteRange as TheRange};
ghost use Rattle.fancy_regex_stops.specs.declared.stops.Stops.{Stops as TheStops};

use crate::byte_range::ByteRange;
use crate::lanes::{LANES, all, greatest, has_zero, lanes_to_zero, least, load, minus};
use crate::stops::Stops;
use std::simd::u8x16;

/// The bounds of a range of bytes, each in all lanes.
#[derive(Clone, Copy)]
pub struct RangeLanes {
    pub low: u8x16,
    pub width: u8x16,
}

/// The numbers of stops, each in all lanes.
#[derive(Clone, Copy)]
pub struct StopLanes {
    pub first: RangeLanes,
    pub second: RangeLanes,
    pub third: RangeLanes,
    pub limit: u8x16,
}

impl RangeLanes {
    /// Those of this range.
    #[inline(always)]
    pub fn of(range: ByteRange) -> RangeLanes
        ensures { AreBounds range result }
    {
        RangeLanes {
            low: all(range.low),
            width: all(range.width),
        }
    }

    /// How far each byte is past the range: 0 for those in it.
    #[inline(always)]
    pub fn gaps(self, lanes: u8x16) -> u8x16
        ensures { (range : TheRange) → AreBounds range self → result ≡ map (gap_of range) lanes }
    {
        let past = minus(lanes, self.low);
        minus(past, least(past, self.width))
    }
}

impl StopLanes {
    /// Those of these stops.
    #[inline(always)]
    pub fn of(stops: &Stops) -> StopLanes
        ensures { AreNumbers stops.now result }
    {
        StopLanes {
            first: RangeLanes::of(stops.first),
            second: RangeLanes::of(stops.second),
            third: RangeLanes::of(stops.third),
            limit: all(stops.limit),
        }
    }

    /// 0 for a byte of one of the ranges, and from the limit on.
    #[inline(always)]
    pub fn gaps(self, lanes: u8x16) -> u8x16
        ensures { (stops : TheStops) → AreNumbers stops self → result ≡ map (gap_in stops) lanes }
    {
        let first = single_gaps(self.limit, self.first, lanes);
        let second = least(first, self.second.gaps(lanes));
        least(second, self.third.gaps(lanes))
    }

    /// How many of the sixteen bytes from `at` on come before one at which the search stops, where the bytes after them are tested too if
    /// it stops at one of the sixteen.
    #[inline(always)]
    pub fn pairs_at(self, seconds: StopLanes, bytes: &[u8], at: usize) -> usize
        requires { at + 17 ≤ length bytes.now }
        ensures most { result ≤ 16 }
        ensures passed { (stops others : TheStops) → AreNumbers stops self → AreNumbers others seconds → (i : ℕ) → at ≤ i → i < at + result
            → 0 < pair_gap stops others (slice_index_or bytes.now i 0) (slice_index_or bytes.now (i + 1) 0) }
    {
        let lanes = load(bytes, at);
        let gaps = self.gaps(lanes);
        if !has_zero(gaps) {
            return LANES;
        }
        let either = greatest(gaps, seconds.gaps(load(bytes, at + 1)));
        lanes_to_zero(least(limit_gaps(self.limit, lanes), either))
    }
}

/// 0 for a byte of the range, and from the limit on.
#[inline(always)]
pub fn single_gaps(limit: u8x16, range: RangeLanes, lanes: u8x16) -> u8x16
    ensures { (least : ℕ) (bytes : TheRange) → AreAll least limit → AreBounds bytes range
        → result ≡ map (λ byte. lesser (limit_gap least byte) (gap_of bytes byte)) lanes }
{
    least(limit_gaps(limit, lanes), range.gaps(lanes))
}

/// How far each byte is below the limit: 0 from there on.
#[inline(always)]
fn limit_gaps(limit: u8x16, lanes: u8x16) -> u8x16
    ensures { (least : ℕ) → AreAll least limit → result ≡ map (limit_gap least) lanes }
{
    minus(limit, least(lanes, limit))
}
