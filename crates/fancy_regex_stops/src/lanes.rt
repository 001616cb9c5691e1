//! Vectors of sixteen bytes, lane by lane.

ghost use Rattle.std.specs.Prelude.{◌≡◌, ◌≤◌, ◌+◌, false, length, map, replicate};
ghost use Rattle.std.specs.List.{prefix_len};
ghost use Rattle.std.specs.Simd.Lanes.{zip2, chunk, mask_l};
ghost use Rattle.fancy_regex_stops.specs.Gaps.{wrapped, lesser, greater, is_zero, is_more};

use std::simd::cmp::{SimdOrd, SimdPartialEq};
use std::simd::u8x16;

/// How many bytes a vector has.
pub const LANES: usize = 16;

/// The bytes from `at` on.
#[inline(always)]
pub fn load(bytes: &[u8], at: usize) -> u8x16
    requires { at + 16 ≤ length bytes.now }
    ensures { result ≡ chunk at 16 bytes.now }
{
    u8x16::from_slice(&bytes[at..])
}

/// This byte in each lane.
#[inline(always)]
pub fn all(byte: u8) -> u8x16
    ensures { result ≡ replicate 16 byte }
{
    u8x16::splat(byte)
}

/// The difference of each lane, modulo 256.
#[inline(always)]
pub fn minus(one: u8x16, other: u8x16) -> u8x16
    ensures { result ≡ zip2 wrapped one other }
{
    one - other
}

/// The lesser of each lane.
#[inline(always)]
pub fn least(one: u8x16, other: u8x16) -> u8x16
    ensures { result ≡ zip2 lesser one other }
{
    one.simd_min(other)
}

/// The greater of each lane.
#[inline(always)]
pub fn greatest(one: u8x16, other: u8x16) -> u8x16
    ensures { result ≡ zip2 greater one other }
{
    one.simd_max(other)
}

/// A bit for each lane that is 0.
#[inline(always)]
fn zeros_of(lanes: u8x16) -> u64
    ensures { result ≡ mask_l (map is_zero lanes) }
{
    lanes.simd_eq(u8x16::splat(0)).to_bitmask()
}

/// Whether a lane is 0.
#[inline(always)]
pub fn has_zero(lanes: u8x16) -> bool
    ensures { result ≡ false → prefix_len is_more lanes ≡ 16 }
{
    zeros_of(lanes) > 0
}

/// How many lanes come before the first that is 0.
#[inline(always)]
pub fn lanes_to_zero(lanes: u8x16) -> usize
    ensures count { result ≡ prefix_len is_more lanes }
    ensures most { result ≤ 16 }
{
    let zeros = zeros_of(lanes);
    if zeros == 0 {
        return LANES;
    }
    zeros.trailing_zeros() as usize
}
