//! Words of bits for the members of ranges.

ghost use Rattle.std.specs.Prelude.{◌≡◌, ◌<◌, ◌≤◌, ◌&&◌, ◌||◌, ◌==◌, ℕ, nat_le, length, IfOk};
ghost use Rattle.std.specs.Int.{bit_at};
ghost use Rattle.regex_class.specs.Ranges.{in_range, in_ranges};
ghost use Rattle.fancy_regex_class.specs.RangeBits.{has_bit};

use regex_class::ClassRange;
use std::alloc::{AllocError, Global};

/// The first code point that has no bit.
pub const END: u32 = 65536;

/// How many rows of 64 code points have bits.
const ROWS: usize = 1024;

/// A word for each row, with the members of the ranges. The error is want of memory.
pub fn words_of(alloc: Global, ranges: &[ClassRange]) -> Result<Vec<u64>, AllocError>
    ensures filled { IfOk result (λ words. length words.items ≡ 1024) }
    ensures members { IfOk result (λ words. (c : ℕ) → c < 65536 → has_bit words.items c ≡ in_ranges ranges.now c) }
{
    let mut words = Vec::new(alloc);
    words.resize(ROWS, 0)?;
    for range in ranges {
        add_range(&mut words, range.0, range.1);
    }
    Ok(words)
}

/// Adds the code points from `start` to `end`, both included, as far as they have bits.
fn add_range(words: &mut Vec<u64>, start: u32, end: u32)
    requires { length words.old.items ≡ 1024 }
    ensures filled { length words.new.items ≡ 1024 }
    ensures members { (c : ℕ) → c < 65536 → has_bit words.new.items c ≡ (has_bit words.old.items c || in_range (start, end) c) }
{
    if start >= END || end < start {
        return;
    }
    let last = end.min(END - 1);
    for row in start / 64..last / 64 + 1 {
        let first = row * 64;
        let low = if start > first { start - first } else { 0 };
        let high = if last < first + 63 { last - first } else { 63 };
        let word = words[row as usize];
        words[row as usize] = word | mask(low, high);
    }
}

/// A word with the bits from `low` to `high`, both included.
fn mask(low: u32, high: u32) -> u64
    requires ordered { low ≤ high }
    requires inside { high < 64 }
    ensures { (i : ℕ) → i < 64 → (bit_at result i == 1) ≡ (nat_le low i && nat_le i high) }
{
    (u64::MAX >> (63 - high)) & (u64::MAX << low)
}
