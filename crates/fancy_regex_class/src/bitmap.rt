//! The members of a class below U+10000 as bits in two levels: each row of 64 code points names a word. A test takes two reads,
//! where the ranges of a class take a binary search.

ghost use Rattle.std.specs.Prelude.{◌≡◌, ◌<◌, ◌≤◌, ◌+◌, ℕ, length, slice_index_or, IfOk, OnOk};
ghost use Rattle.regex_class.specs.Ranges.{in_ranges};

use crate::range_bits::{END, words_of};
use regex_class::ClassRange;
use std::alloc::{AllocError, Global};

/// The members of a class below `END`.
#[derive(Debug, Drop)]
pub struct Bitmap {
    /// For each row of 64 code points the index of its word.
    rows: Vec<u16>,
    /// The words: none of the bits set, all of them, and one for each row with some.
    words: Vec<u64>,
    ghost filled: { length rows.items ≡ 1024 },
    ghost inside: { (row : ℕ) → row < 1024 → slice_index_or rows.items row 0 < length words.items },
}

impl Bitmap {
    ghost use Rattle.fancy_regex_class.specs.Bitmaps.{has_member};

    /// The members of these ranges. The error is want of memory.
    pub fn new(alloc: Global, ranges: &[ClassRange]) -> Result<Bitmap, AllocError>
        ensures { IfOk result (λ bitmap. (c : ℕ) → c < 65536 → has_member bitmap c ≡ in_ranges ranges.now c) }
    {
        let all = words_of(alloc, ranges)?;
        let mut words = Vec::new(alloc);
        words.push(0)?;
        words.push(u64::MAX)?;
        let mut rows = Vec::new(alloc);
        for word in all.iter() {
            let row = index_of(&mut words, *word)?;
            rows.push(row)?;
        }
        Ok(Bitmap { rows, words })
    }

    /// Whether the code point is a member.
    #[inline(always)]
    pub fn has(&self, code: u32) -> bool
        requires { code < END }
        ensures { result ≡ has_member self.now code }
    {
        let row = self.rows[(code / 64) as usize];
        (self.words[row as usize] >> (code % 64)) & 1 == 1
    }
}

/// The index of the word, which is added if it is another one than the first two. The error is want of memory.
fn index_of(words: &mut Vec<u64>, word: u64) -> Result<u16, AllocError>
    requires two { 2 ≤ length words.old.items }
    requires few { length words.old.items ≤ 1025 }
    requires none { slice_index_or words.old.items 0 0 ≡ 0 }
    requires all { slice_index_or words.old.items 1 0 ≡ 18446744073709551615 }
    ensures word { IfOk result (λ index. (index < length words.new.items) × (slice_index_or words.new.items index 0 ≡ word)) }
    ensures others { OnOk result ((k : ℕ) → k < length words.old.items
        → slice_index_or words.new.items k 0 ≡ slice_index_or words.old.items k 0) }
    ensures length { OnOk result ((length words.old.items ≤ length words.new.items)
        × (length words.new.items ≤ length words.old.items + 1)) }
{
    if word == 0 {
        return Ok(0);
    }
    if word == u64::MAX {
        return Ok(1);
    }
    let index = words.len() as u16;
    words.push(word)?;
    Ok(index)
}
