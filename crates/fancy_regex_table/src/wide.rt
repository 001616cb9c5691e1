//! The classes of characters that are not ASCII, by what the leaves say of them.

ghost use Rattle.std.specs.Prelude.{◌≡◌, ◌<◌, ◌≤◌, ℕ, Bool, List, Some, true, false, IfOk, IfSome, IsCharBoundary, length, slice_index_or};
ghost use Rattle.regex_hir.specs.Text.{char_at};
ghost use Rattle.fancy_regex_class.specs.declared.class.CharClassMatcher.{CharClassMatcher as MatcherValue};
ghost use Rattle.fancy_regex_table.specs.Blocks.{AreInside};

use crate::blocks::{FIRST_ROW, ROWS};
use crate::question::{Question, number_of};
use fancy_regex_class::CharClassMatcher;
use std::alloc::{AllocError, Global};

/// The classes of characters that are not ASCII.
#[derive(Drop)]
pub struct Wide {
    /// What tells such characters apart.
    pub questions: Vec<Question>,
    /// For each number of answers the class of the characters with these; 0 where none is known.
    pub by_answers: [u8; 256],
    /// For each row of 64 characters below U+10000 the number of its block.
    pub rows: [u8; 1024],
    /// The blocks: for each character of a row its class, 0 where none is known.
    pub classes: Vec<u8>,
    ghost inside: { AreInside rows classes.items },
}

/// A character of a text that is not ASCII.
#[derive(Clone, Copy)]
pub struct WideChar {
    /// The number of its class, 0 where none is known.
    pub class: u8,
    /// The byte offset after it.
    pub next: usize,
}

impl Wide {
    ghost use Rattle.fancy_regex_table.specs.Wides.{class_of, class_in, AllShortAre, IsWideAt, IsDecoded};

    /// No class is known. The error is want of memory.
    pub fn unknown(alloc: Global) -> Result<Wide, AllocError>
        ensures { IfOk result (λ wide. (unicode : Bool) (matchers : List MatcherValue) (c : ℕ) → class_of unicode matchers wide c ≡ 0) }
    {
        Ok(Wide {
            questions: Vec::new(alloc),
            by_answers: [0; 256],
            rows: [0; 1024],
            classes: vec![in alloc; 0; 64]?,
        })
    }

    /// The class of a character below U+10000, by its row and its place in the row; 0 where none is known.
    #[inline(always)]
    fn class_in(&self, row: usize, place: usize) -> u8
        requires row { row < 1024 }
        requires place { place < 64 }
        ensures { result ≡ class_in self.now row place }
    {
        self.classes[self.rows[row] as usize * 64 + place]
    }

    /// The number of the class of a character, 0 where none is known.
    pub fn class_of(&self, matchers: &[CharClassMatcher], unicode: bool, c: char) -> u8
        ensures { result ≡ class_of unicode matchers.now self.now c }
    {
        let code = c as usize;
        if code < 65_536 {
            return self.class_in(code / 64, code % 64);
        }
        self.by_answers[number_of(matchers, unicode, &self.questions, c) as usize]
    }

    /// The classes of the characters below U+10000 that are not ASCII, marked, if each has one. Others may be marked too.
    pub fn short_classes(&self) -> Option<[bool; 256]>
        ensures { IfSome result (AllShortAre self.now) }
    {
        if self.have_blocks() {
            return Some(self.block_classes());
        }
        None
    }

    /// Whether each row of characters that are not ASCII has a block of known classes.
    fn have_blocks(&self) -> bool
        ensures { result ≡ true → (row : ℕ) → 2 ≤ row → row < 1024 → 0 < slice_index_or self.now.rows row 0 }
    {
        for row in FIRST_ROW..ROWS {
            if self.rows[row] == 0 {
                return false;
            }
        }
        true
    }

    /// The classes of the blocks after the first, marked.
    fn block_classes(&self) -> [bool; 256]
        ensures { (i : ℕ) → 64 ≤ i → i < length self.now.classes.items
            → slice_index_or result (slice_index_or self.now.classes.items i 0) false ≡ true }
    {
        let mut marked = [false; 256];
        for i in 64..self.classes.len() {
            marked[self.classes[i] as usize] = true;
        }
        marked
    }

    /// The character at the byte offset `at`, which is not ASCII.
    #[inline(always)]
    pub fn decode(
        &self,
        matchers: &[CharClassMatcher],
        unicode: bool,
        text: &str,
        at: usize,
    ) -> WideChar
        requires { IsWideAt text.now at }
        ensures { IsDecoded unicode matchers.now self.now text.now at result }
    {
        let bytes = text.as_bytes();
        let first = bytes[at];
        if first < 0xE0 {
            let place = (bytes[at + 1] % 64) as usize;
            return WideChar {
                class: self.class_in((first % 32) as usize, place),
                next: at + 2,
            };
        }
        if first < 0xF0 {
            let row = (first % 16) as usize * 64 + (bytes[at + 1] % 64) as usize;
            let place = (bytes[at + 2] % 64) as usize;
            return WideChar {
                class: self.class_in(row, place),
                next: at + 3,
            };
        }
        WideChar {
            class: self.class_after(matchers, unicode, text, at),
            next: at + 4,
        }
    }

    /// The number of the class of the character at the byte offset `at`, 0 where none is known.
    // Not inlined: few texts have such long characters.
    #[inline(never)]
    fn class_after(&self, matchers: &[CharClassMatcher], unicode: bool, text: &str, at: usize) -> u8
        requires { IsCharBoundary text.now at }
        ensures { (c : ℕ) → char_at text.now at ≡ Some c → result ≡ class_of unicode matchers.now self.now c }
    {
        let (_, rest) = text.split_at(at);
        match rest.chars().next() {
            Some(c) => self.class_of(matchers, unicode, c),
            None => 0,
        }
    }
}
