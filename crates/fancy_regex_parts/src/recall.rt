//! What is known of pairs of a marked state and a byte offset.

ghost use Rattle.std.specs.Prelude.{◌≡◌, ◌+◌, ◌-◌, ◌*◌, ◌<◌, ◌≤◌, ◌^◌, ◌++◌, ℕ, true, max, length, replicate, slice_set, IfOk, OnOk, OnErr};

use std::alloc::{AllocError, Global};

/// What is known of a pair.
#[derive(Clone, Copy)]
pub enum Known {
    /// Nothing was known. Its cell has this number, and now says that there is no way.
    New(usize),
    /// There is no way.
    Fails,
    /// The first way ends at this byte offset.
    Ends(usize),
}

/// Cells in rows: one row for each byte offset from the first row's on, made when the search first reaches it, and in it one cell for each
/// mark. A cell is 0 where nothing is known, 1 where there is no way, and two more than the byte offset where the first way ends.
#[derive(Drop)]
pub struct Recall {
    /// The number of cells in a row.
    width: usize,
    /// The byte offset of the first row.
    base: usize,
    /// The number of rows so far.
    rows: usize,
    cells: Vec<usize>,
    ghost narrow: { width < 2 ^ 63 },
    ghost filled: { length cells.items ≡ rows * width },
}

impl Recall {
    ghost use Rattle.fancy_regex_parts.specs.Recall.{cell, cell_number, known_weight, IsKnown, IsSame, IsStored};

    /// No cells. It allocates nothing.
    pub fn new(alloc: Global) -> Recall
        ensures { result.rows ≡ 0 }
    {
        Recall {
            width: 0,
            base: 0,
            rows: 0,
            cells: Vec::new(alloc),
        }
    }

    /// Forgets everything, for `width` marks and byte offsets from `base` on. The memory of the rows is kept for later ones.
    pub fn restart(&mut self, width: usize, base: usize)
        requires { width < 2 ^ 63 }
        ensures width { self.new.width ≡ width }
        ensures base { self.new.base ≡ base }
        ensures rows { self.new.rows ≡ 0 }
        ensures cells { (k : ℕ) → cell self.new k ≡ 0 }
        ensures weight { (w : ℕ → ℕ) → known_weight w self.new ≡ 0 }
    {
        self.cells.clear();
        self.rows = 0;
        self.width = width;
        self.base = base;
    }

    /// Forgets everything.
    pub fn forget(&mut self)
        ensures width { self.new.width ≡ self.old.width }
        ensures base { self.new.base ≡ self.old.base }
        ensures rows { self.new.rows ≡ 0 }
        ensures cells { (k : ℕ) → cell self.new k ≡ 0 }
        ensures weight { (w : ℕ → ℕ) → known_weight w self.new ≡ 0 }
    {
        self.cells.clear();
        self.rows = 0;
    }

    /// The byte offset of the first row.
    pub fn base(&self) -> usize
        ensures { result ≡ self.now.base }
    {
        self.base
    }

    /// Whether there is no row for the byte offset `at`, nor for a later one.
    pub fn ends_before(&self, at: usize) -> bool
        ensures { result ≡ true → self.now.rows ≤ at - self.now.base }
    {
        at.saturating_sub(self.base) >= self.rows
    }

    /// Adds a row of which nothing is known. The error is want of memory.
    fn add_row(&mut self) -> Result<(), AllocError>
        requires { self.old.rows < 2 ^ 64 - 1 }
        ensures same { IsSame self.old self.new }
        ensures row { OnOk result (self.new.rows ≡ self.old.rows + 1) }
        ensures err { OnErr result (self.new.rows ≡ self.old.rows) }
    {
        add_zeros(&mut self.cells, self.width)?;
        self.rows += 1;
        Ok(())
    }

    /// Adds rows up to that of the byte offset `at`. The error is want of memory.
    #[inline(always)]
    fn reach(&mut self, at: usize) -> Result<(), AllocError>
        requires base { self.old.base ≤ at }
        requires small { at < 2 ^ 63 }
        ensures same { IsSame self.old self.new }
        ensures rows { self.new.rows ≤ max self.old.rows (at - self.old.base + 1) }
        ensures reached { OnOk result (at - self.old.base < self.new.rows) }
    {
        'rows: while self.rows <= at - self.base {
            self.add_row()?;
        }
        Ok(())
    }

    /// What is known of the pair of this mark and this byte offset. Where nothing is known, its cell says from now on that there
    /// is no way. The error is want of memory.
    #[inline(always)]
    pub fn open(&mut self, mark: usize, at: usize) -> Result<Known, AllocError>
        requires mark { mark < self.old.width }
        requires base { self.old.base ≤ at }
        requires small { at < 2 ^ 63 }
        ensures rows { self.new.rows ≤ max self.old.rows (at - self.old.base + 1) }
        ensures known { IfOk result (IsKnown self.old self.new (cell_number self.old mark at)) }
        ensures err { OnErr result (IsSame self.old self.new) }
    {
        self.reach(at)?;
        Ok(self.take(mark, at))
    }

    /// What is known of the pair, as `open`, where its row exists.
    #[inline(always)]
    fn take(&mut self, mark: usize, at: usize) -> Known
        requires mark { mark < self.old.width }
        requires base { self.old.base ≤ at }
        requires row { at - self.old.base < self.old.rows }
        ensures rows { self.new.rows ≡ self.old.rows }
        ensures known { IsKnown self.old self.new (cell_number self.old mark at) result }
    {
        let number = (at - self.base) * self.width + mark;
        let value = self.cells[number];
        if value == 0 {
            self.cells[number] = 1;
            return Known::New(number);
        }
        if value == 1 {
            return Known::Fails;
        }
        Known::Ends(value - 2)
    }

    /// Stores in the cell of this number, of which something is known, that the first way ends at `end`.
    #[inline(always)]
    pub fn store(&mut self, number: usize, end: usize)
        requires { end < 2 ^ 64 - 2 }
        ensures rows { self.new.rows ≡ self.old.rows }
        ensures stored { IsStored self.old self.new number end }
    {
        if number >= self.cells.len() {
            return;
        }
        let value = self.cells[number];
        if value == 0 {
            return;
        }
        self.cells[number] = end + 2;
    }
}

/// Adds `count` zeros. The error is want of memory, and then nothing is added.
fn add_zeros(cells: &mut Vec<usize>, count: usize) -> Result<(), AllocError>
    requires { count < 2 ^ 63 }
    ensures added { OnOk result (cells.new.items ≡ cells.old.items ++ replicate count 0) }
    ensures err { OnErr result (cells.new.items ≡ cells.old.items) }
{
    let length = cells.len() + count;
    cells.resize(length, 0)?;
    Ok(())
}
