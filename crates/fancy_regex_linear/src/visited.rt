//! The set of visited pairs of a state and a byte offset.

ghost use Rattle.std.specs.Prelude.{◌++◌, replicate, true, ◌≡◌, ◌+◌, ◌-◌, ◌*◌, ◌/◌, ◌<◌, ◌≤◌, ℕ, max, ◌^◌, length, IfOk, OnOk, OnErr};
ghost use Rattle.std.specs.Bool.{MatchBool};

use std::alloc::{AllocError, Global};

/// The visited set, as rows of bits: one row for each byte offset from the first row's on, made when the search first reaches
/// it.
#[derive(Drop)]
pub struct Visited {
    /// The number of states.
    count: usize,
    /// The number of words in a row.
    width: usize,
    /// The byte offset of the first row.
    base: usize,
    /// The number of rows so far.
    rows: usize,
    words: Vec<u64>,
    ghost wide: { width ≡ count / 64 + 1 },
    ghost filled: { length words.items ≡ rows * width },
}

impl Visited {
    ghost use Rattle.fancy_regex_linear.specs.Visited.{Has, pair_count, visited_bound, Adds, IsSame};

    /// The empty set, for no states. It allocates nothing.
    pub fn new(alloc: Global) -> Visited {
        Visited {
            count: 0,
            width: 1,
            base: 0,
            rows: 0,
            words: Vec::new(alloc),
        }
    }

    /// Begins anew with the empty set, for `count` states and byte offsets from `base` on. The memory of the rows is kept
    /// for later ones.
    pub fn restart(&mut self, count: usize, base: usize)
        ensures count { self.new.count ≡ count }
        ensures base { self.new.base ≡ base }
        ensures rows { self.new.rows ≡ 0 }
    {
        self.words.clear();
        self.rows = 0;
        self.count = count;
        self.width = count / 64 + 1;
        self.base = base;
    }

    /// Adds an empty row.
    fn add_row(&mut self) -> Result<(), AllocError>
        requires { self.old.rows < 2 ^ 64 - 1 }
        ensures same { (self.new.count ≡ self.old.count) × (self.new.base ≡ self.old.base) }
        ensures pairs { IsSame self.old self.new }
        ensures row { OnOk result (self.new.rows ≡ self.old.rows + 1) }
        ensures err { OnErr result (self.new.rows ≡ self.old.rows) }
    {
        add_zeros(&mut self.words, self.width)?;
        self.rows += 1;
        Ok(())
    }

    /// Adds a pair in a new row, after the last one, where a row is one word. The error is want of memory, and then the set
    /// is unchanged.
    #[inline(always)]
    fn append(&mut self, state: usize) -> Result<(), AllocError>
        requires state { state < self.old.count }
        requires narrow { self.old.width ≡ 1 }
        requires rows { self.old.rows < 2 ^ 64 - 1 }
        ensures same { (self.new.count ≡ self.old.count) × (self.new.base ≡ self.old.base) }
        ensures rows { OnOk result (self.new.rows ≡ self.old.rows + 1) }
        ensures adds { OnOk result (Adds (Has self.old) (Has self.new) state (self.old.base + self.old.rows)) }
        ensures counted { OnOk result (pair_count self.new ≡ pair_count self.old + 1) }
        ensures err { OnErr result ((self.new.rows ≡ self.old.rows) × IsSame self.old self.new) }
    {
        self.words.push(1u64 << (state % 64))?;
        self.rows += 1;
        Ok(())
    }

    /// Adds rows up to that of the byte offset `at`. The error is want of memory.
    #[inline(always)]
    fn reach(&mut self, at: usize) -> Result<(), AllocError>
        requires { self.old.base ≤ at }
        ensures same { (self.new.count ≡ self.old.count) × (self.new.base ≡ self.old.base) }
        ensures pairs { IsSame self.old self.new }
        ensures rows { self.new.rows ≤ max self.old.rows (at - self.old.base + 1) }
        ensures reached { OnOk result (at - self.old.base < self.new.rows) }
    {
        'rows: while self.rows <= at - self.base {
            self.add_row()?;
        }
        Ok(())
    }

    /// Drops the rows if all are of byte offsets before `from`, and goes on from there. Their memory is kept for later rows.
    pub fn drop_before(&mut self, from: usize)
        requires { self.old.base ≤ from }
        ensures count { self.new.count ≡ self.old.count }
        ensures base { (self.old.base ≤ self.new.base) × (self.new.base ≤ from) }
        ensures rows { (stop : ℕ) → self.old.rows ≤ stop - self.old.base + 1 → self.new.rows ≤ stop - self.new.base + 1 }
        ensures pairs { (q i : ℕ) → Has self.new q i → Has self.old q i }
        ensures visited_bound { visited_bound self.old ≤ visited_bound self.new }
        ensures dropped { self.old.rows ≤ from - self.old.base → (self.new.base ≡ from) × (self.new.rows ≡ 0) }
    {
        if self.rows <= from - self.base {
            self.words.clear();
            self.rows = 0;
            self.base = from;
        }
    }

    /// Whether all rows are of byte offsets before `from`.
    #[inline(always)]
    pub fn ends_before(&self, from: usize) -> bool
        requires { self.now.base ≤ from }
        ensures { MatchBool result (self.now.rows ≤ from - self.now.base) (from - self.now.base < self.now.rows) }
    {
        self.rows <= from - self.base
    }

    /// The byte offset of the last row, which is not before `at`.
    #[inline(always)]
    pub fn last_row(&self, at: usize) -> usize
        requires { (self.now.base ≤ at) × (at - self.now.base < self.now.rows) }
        ensures { at ≤ result }
    {
        at.saturating_add(self.rows - (at - self.base) - 1)
    }

    /// Sets the bit of a pair whose row exists; returns whether it was clear.
    #[inline(always)]
    fn set(&mut self, state: usize, at: usize) -> bool
        requires state { state < self.old.count }
        requires base { self.old.base ≤ at }
        requires row { at - self.old.base < self.old.rows }
        ensures same { (self.new.count ≡ self.old.count) × (self.new.base ≡ self.old.base) }
        ensures rows { self.new.rows ≡ self.old.rows }
        ensures adds { Adds (Has self.old) (Has self.new) state at }
        ensures counted { MatchBool result (pair_count self.new ≡ pair_count self.old + 1)
            (Has self.old state at × IsSame self.old self.new) }
    {
        let place = (at - self.base) * self.width + state / 64;
        let word = self.words[place];
        let bit = 1u64 << (state % 64);
        self.words[place] = word | bit;
        word & bit == 0
    }

    /// Adds a pair; returns whether it is new. The error is want of memory, and then the set is unchanged.
    #[inline(always)]
    pub fn insert_pair(&mut self, state: usize, at: usize) -> Result<bool, AllocError>
        requires state { state < self.old.count }
        requires base { self.old.base ≤ at }
        ensures same { (self.new.count ≡ self.old.count) × (self.new.base ≡ self.old.base) }
        ensures rows { self.new.rows ≤ max self.old.rows (at - self.old.base + 1) }
        ensures adds { Adds (Has self.old) (Has self.new) state at }
        ensures counted { IfOk result (λ new. MatchBool new (pair_count self.new ≡ pair_count self.old + 1)
            (Has self.old state at × (pair_count self.new ≡ pair_count self.old))) }
        ensures err { OnErr result (IsSame self.old self.new) }
    {
        if self.width == 1 && at - self.base == self.rows {
            self.append(state)?;
            return Ok(true);
        }
        self.reach(at)?;
        Ok(self.set(state, at))
    }
}

/// Adds `count` words without bits. The error is want of memory, and then nothing is added.
fn add_zeros(words: &mut Vec<u64>, count: usize) -> Result<(), AllocError>
    requires { count ≤ 2 ^ 60 }
    ensures added { OnOk result (words.new.items ≡ words.old.items ++ replicate count 0) }
    ensures err { OnErr result (words.new.items ≡ words.old.items) }
{
    if count == 1 {
        words.push(0)?;
        return Ok(());
    }
    let length = words.len() + count;
    words.resize(length, 0)?;
    Ok(())
}
