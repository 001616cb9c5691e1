//! What is answered about the characters below U+10000, in blocks of 64. Rows of characters with one set of answers share a block.

ghost use Rattle.std.specs.Prelude.{◌≡◌, ◌<◌, ◌≤◌, ◌+◌, ◌*◌, ◌==◌, ℕ, List, Vec as VecValue, IfOk, IfSome, OnOk, slice_index, slice_index_or, length};
ghost use Rattle.std.specs.Int.{bit_at};
ghost use Rattle.std.specs.declared.alloc.Global.{Global as GlobalValue};
ghost use Rattle.fancy_regex_table.specs.Blocks.{AreBlocks, AreWhole, IsBlock, AreRows, AreUniform};
ghost use Rattle.fancy_regex_table.specs.Questions.{AreFilled, number_at, with_answer as number_with};

use crate::question::with_answer;
use std::alloc::{AllocError, Global};

/// How many rows of 64 characters lie below U+10000.
pub const ROWS: usize = 1024;

/// The first row of characters that are not ASCII.
pub const FIRST_ROW: usize = 2;

/// The most blocks.
const MOST_BLOCKS: usize = 256;

/// The numbers of what is answered about the characters below U+10000.
#[derive(Drop)]
pub struct Blocks {
    /// For each row of 64 characters the number of its block; 0 where it has none.
    pub rows: [u8; 1024],
    /// For each character of a block the number of the answers about it. The first block is of no row.
    pub answers: Vec<u8>,
    /// For each number of answers the block of the rows of which all characters have it; 0 where there is none.
    pub uniform: [u8; 256],
}

impl Blocks {
    /// The blocks of all rows, by the bits of each question. The error is want of memory.
    pub fn new(alloc: Global, bits: &[Vec<u64>]) -> Result<Blocks, AllocError>
        requires { AreFilled bits.now }
        ensures { IfOk result (AreBlocks bits.now) }
    {
        let mut blocks = Blocks {
            rows: [0; 1024],
            answers: vec![in alloc; 0; 64]?,
            uniform: [0; 256],
        };
        for row in FIRST_ROW..ROWS {
            blocks.add_row(bits, row)?;
        }
        Ok(blocks)
    }

    /// Finds or adds the block of a row. The error is want of memory.
    fn add_row(&mut self, bits: &[Vec<u64>], row: usize) -> Result<(), AllocError>
        requires row { row < 1024 }
        requires filled { AreFilled bits.now }
        requires blocks { AreBlocks bits.now self.old }
        ensures { OnOk result (AreBlocks bits.now self.new) }
    {
        let block = self.block_for(bits, row)?;
        self.rows[row] = block;
        Ok(())
    }

    /// The block for a row, which is added if it is new; 0 where there is no room. The error is want of memory.
    fn block_for(&mut self, bits: &[Vec<u64>], row: usize) -> Result<u8, AllocError>
        requires row { row < 1024 }
        requires filled { AreFilled bits.now }
        requires blocks { AreBlocks bits.now self.old }
        ensures blocks { OnOk result (AreBlocks bits.now self.new) }
        ensures block { IfOk result (λ block. IsBlock self.new.answers.items block (number_at bits.now row)) }
    {
        match uniform_number(bits, row) {
            Some(number) => self.uniform_block(number),
            None => self.add_block(&numbers_of_row(bits, row)),
        }
    }

    /// The block of rows of which all characters have these answers, which is added if there is none; 0 where there is no room. The error
    /// is want of memory.
    fn uniform_block(&mut self, number: u8) -> Result<u8, AllocError>
        requires whole { AreWhole self.old.answers.items }
        requires uniform { AreUniform self.old.uniform self.old.answers.items }
        ensures whole { OnOk result (AreWhole self.new.answers.items) }
        ensures uniform { OnOk result (AreUniform self.new.uniform self.new.answers.items) }
        ensures rows { OnOk result ((bits : List (VecValue ℕ GlobalValue)) → AreRows bits self.old.rows self.old.answers.items
            → AreRows bits self.new.rows self.new.answers.items) }
        ensures block { IfOk result (λ block. IsBlock self.new.answers.items block (λ _. number)) }
    {
        let known = self.uniform[number as usize];
        if known > 0 {
            return Ok(known);
        }
        let block = self.add_block(&[number; 64])?;
        self.uniform[number as usize] = block;
        Ok(block)
    }

    /// Adds a block; 0 where there is no room. The error is want of memory.
    fn add_block(&mut self, numbers: &[u8; 64]) -> Result<u8, AllocError>
        requires { AreWhole self.old.answers.items }
        ensures whole { OnOk result (AreWhole self.new.answers.items) }
        ensures uniform { OnOk result (AreUniform self.old.uniform self.old.answers.items
            → AreUniform self.new.uniform self.new.answers.items) }
        ensures rows { OnOk result ((bits : List (VecValue ℕ GlobalValue)) → AreRows bits self.old.rows self.old.answers.items
            → AreRows bits self.new.rows self.new.answers.items) }
        ensures block { IfOk result (λ block. IsBlock self.new.answers.items block (λ place. slice_index numbers.now place)) }
    {
        let block = self.answers.len() / 64;
        if block >= MOST_BLOCKS {
            return Ok(0);
        }
        self.answers.extend_from_slice(numbers)?;
        Ok(block as u8)
    }
}

/// The number of the answers about all characters of a row, if they are the same; each question has a word for the row.
fn uniform_number(bits: &[Vec<u64>], row: usize) -> Option<u8>
    requires row { row < 1024 }
    requires filled { AreFilled bits.now }
    ensures { IfSome result (λ number. (place : ℕ) → place < 64 → number_at bits.now row place ≡ number) }
{
    let mut number = 0u8;
    for i in 0..bits.len() {
        let word = bits[i][row];
        if word != 0 && word != u64::MAX {
            return None;
        }
        number = with_answer(number, word != 0);
    }
    Some(number)
}

/// The numbers of the answers about the characters of a row.
fn numbers_of_row(bits: &[Vec<u64>], row: usize) -> [u8; 64]
    requires row { row < 1024 }
    requires filled { AreFilled bits.now }
    ensures { (place : ℕ) → place < 64 → slice_index result place ≡ number_at bits.now row place }
{
    let mut numbers = [0u8; 64];
    for i in 0..bits.len() {
        add_answers(&mut numbers, bits[i][row]);
    }
    numbers
}

/// Adds to each number the answer by a bit.
fn add_answers(numbers: &mut [u8; 64], word: u64)
    ensures { (place : ℕ) → place < 64
        → slice_index numbers.new place ≡ number_with (slice_index numbers.old place) (bit_at word place == 1) }
{
    for place in 0..64 {
        numbers[place] = with_answer(numbers[place], (word >> place) & 1 == 1);
    }
}
