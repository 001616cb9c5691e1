//! How much work a run may do.

ghost use Rattle.std.specs.Prelude.{IsTrue};
ghost use Rattle.fancy_regex_machine.specs.Allowances.{IsBounded};

use crate::memory::Delegates;
use fancy_regex_prefilter::cursor::Cursor;
use thiserror::Error;

/// How much work a run may do. Each time that the run goes back counts one, and one more for each byte that it goes back by, since it reads
/// a byte again only after it has gone back over it. Each look of a delegated part at the text counts one, and each byte of the newlines
/// that `\Z` reads. That is what the code counts; no clause speaks of it.
#[derive(Clone, Copy, Debug)]
pub enum Allowance {
    /// As much as it takes.
    Unbounded,
    /// As much as is said here. It is meant to keep the time of a run in proportion to its text, which is not proved.
    Bounded {
        /// The work that may be done before the start goes on.
        first: u64,
        /// The work that may be done besides for each byte that the start goes on by.
        per_byte: u64,
    },
}

impl Allowance {
    /// Whether it has a bound, so that a run may use it up.
    // Not inlined: so a step tests no more than whether work is left.
    #[cold]
    #[inline(never)]
    pub(crate) fn is_bounded(self) -> bool
        ensures { IsTrue result → IsBounded self }
    {
        matches!(self, Allowance::Bounded { .. })
    }
}

/// A run would have done more work than it was allowed. The program is unchanged and may be run again.
#[derive(Clone, Copy, Debug, PartialEq, Eq, Error)]
#[error("allowance exhausted")]
pub struct Exhausted;

/// What is left of the work that a run may do.
#[derive(Clone, Copy)]
pub(crate) struct Work {
    /// The rest; 0 where the allowance is exhausted.
    left: u64,
    /// What it grows by for each byte that the start goes on by.
    per_byte: u64,
    /// The last start so far, a byte offset.
    start: usize,
    /// The looks of delegated parts and of `\Z` so far.
    looks: u64,
}

impl Work {
    /// What a run that begins at this start may do.
    pub fn new(allowance: Allowance, start: usize) -> Work {
        let (left, per_byte) = match allowance {
            Allowance::Unbounded => (u64::MAX, 0),
            Allowance::Bounded { first, per_byte } => (first, per_byte),
        };
        Work {
            left,
            per_byte,
            start,
            looks: 0,
        }
    }

    /// Whether no work is left. Where the allowance has no bound this says nothing.
    #[inline(always)]
    pub fn is_exhausted(&self) -> bool {
        self.left == 0
    }

    /// Counts a step, from the byte offset `before` to the cursor, if it led back.
    #[inline(always)]
    pub fn step(&mut self, before: usize, cursor: &Cursor, delegates: &Delegates) {
        if cursor.position < before {
            self.go_back(before, cursor, delegates);
        }
    }

    /// Counts that the run has gone back from the byte offset `reached` to the cursor, and the looks that delegated parts and `\Z` have
    /// made since it was asked last.
    #[inline(always)]
    pub fn go_back(&mut self, reached: usize, cursor: &Cursor, delegates: &Delegates) {
        if cursor.pc == 0 {
            self.go_on(cursor.position);
        }
        let distance = reached.saturating_sub(cursor.position) as u64;
        let looks = delegates.looks();
        let work = distance
            .saturating_add(1)
            .saturating_add(looks.saturating_sub(self.looks));
        self.left = self.left.saturating_sub(work);
        self.looks = looks;
    }

    /// Adds what may be done since the start went on to this one, if it did.
    #[inline(always)]
    fn go_on(&mut self, start: usize) {
        if start <= self.start {
            return;
        }
        let distance = (start - self.start) as u64;
        self.left = self
            .left
            .saturating_add(distance.saturating_mul(self.per_byte));
        self.start = start;
    }
}
