//! The characters that pass a test, as words of bits: those that are not ASCII and lie below U+10000. The error of each function is
//! want of memory.

ghost use Rattle.std.specs.Prelude.{◌≡◌, ◌≤◌, ◌&&◌, ◌||◌, ◌==◌, ℕ, codes, false, not, IfOk, OnOk};
ghost use Rattle.regex_class.specs.Ranges.{in_ranges};
ghost use Rattle.ucd_case.specs.CaseFolding.{simple_fold};
ghost use Rattle.fancy_regex_class.specs.Classes.{in_class, folded};
ghost use Rattle.fancy_regex_class.specs.RangeBits.{AreWideBits};

use crate::folding::fold;
use crate::range_bits::words_of;
use regex_class::{ClassRange, MAX};
use std::alloc::{AllocError, Global};
use ucd_case::fold_pairs;
use ucd_perl::word_ranges;

/// All characters, or none.
pub fn constant_bits(alloc: Global, all: bool) -> Result<Vec<u64>, AllocError>
    ensures { IfOk result (λ words. AreWideBits words.items (λ _. all)) }
{
    if all {
        words_of(alloc, &[(128, MAX)])
    } else {
        words_of(alloc, &[])
    }
}

/// This character.
pub fn char_bits(alloc: Global, c: char) -> Result<Vec<u64>, AllocError>
    ensures { IfOk result (λ words. AreWideBits words.items (λ d. d == c)) }
{
    words_of(alloc, &[(c as u32, c as u32)])
}

/// Those whose case folding is this one; `unicode` chooses the folding, as for `fold`.
pub fn folding_bits(alloc: Global, folding: char, unicode: bool) -> Result<Vec<u64>, AllocError>
    ensures { IfOk result (λ words. AreWideBits words.items (λ c. folded unicode c == folding)) }
{
    let ranges = folding_ranges(alloc, folding, unicode)?;
    words_of(alloc, &ranges)
}

/// Those that `\w` matches.
pub fn word_bits(alloc: Global, unicode: bool) -> Result<Vec<u64>, AllocError>
    ensures { IfOk result (λ words. AreWideBits words.items (in_class unicode (codes "\\w") false)) }
{
    if unicode {
        let ranges = word_ranges(alloc)?;
        words_of(alloc, &ranges)
    } else {
        words_of(alloc, &[])
    }
}

/// Those whose case folding is this one, as ranges.
fn folding_ranges(
    alloc: Global,
    folding: char,
    unicode: bool,
) -> Result<Vec<ClassRange>, AllocError>
    ensures { IfOk result (λ ranges. (c : ℕ) → 128 ≤ c → in_ranges ranges.items c ≡ (folded unicode c == folding)) }
{
    let mut ranges = Vec::new(alloc);
    if fold(folding, unicode) != folding {
        return Ok(ranges);
    }
    let code = folding as u32;
    ranges.push((code, code))?;
    if unicode {
        add_partners(&mut ranges, code)?;
    }
    Ok(ranges)
}

/// Adds the other characters that have the simple folding of this one.
fn add_partners(ranges: &mut Vec<ClassRange>, code: u32) -> Result<(), AllocError>
    ensures { OnOk result ((c : ℕ) → in_ranges ranges.new.items c
        ≡ (in_ranges ranges.old.items c || (not (c == code) && (simple_fold c == simple_fold code)))) }
{
    for pair in fold_pairs() {
        if pair.0 == code {
            ranges.push((pair.1, pair.1))?;
        }
    }
    Ok(())
}
