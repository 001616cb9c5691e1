//! The few ways that a quick search leaves open.

ghost use Rattle.std.specs.Prelude.{◌≡◌, ◌≤◌, true, [], ◌∷◌, length, MatchOption};

/// How many pairs wait at most.
const MOST_OPEN: usize = 8;

/// A state that is to be tried, at a byte offset.
#[derive(Clone, Copy)]
pub struct OpenPair {
    pub state: usize,
    pub at: usize,
}

/// The pairs that are to be tried where the way fails that is gone, the next one last.
#[derive(Clone, Copy)]
pub struct OpenPairs {
    pairs: [OpenPair; MOST_OPEN],
    count: usize,
    ghost room: { count ≤ length pairs },
}

impl OpenPairs {
    ghost use Rattle.fancy_regex_linear.specs.Quick.{open_of};

    /// None.
    #[inline(always)]
    pub fn new() -> OpenPairs
        ensures { open_of result ≡ [] }
    {
        OpenPairs {
            pairs: [OpenPair { state: 0, at: 0 }; MOST_OPEN],
            count: 0,
        }
    }

    /// Adds a pair, and answers whether there was room.
    #[inline(always)]
    pub fn push(&mut self, state: usize, at: usize) -> bool
        ensures { result ≡ true → open_of self.new ≡ record { state = state; at = at } ∷ open_of self.old }
    {
        if self.count >= self.pairs.len() {
            return false;
        }
        self.pairs[self.count] = OpenPair { state, at };
        self.count += 1;
        true
    }

    /// Takes off the pair that was added last.
    #[inline(always)]
    pub fn pop(&mut self) -> Option<OpenPair>
        ensures { MatchOption result (open_of self.old ≡ []) (λ pair. open_of self.old ≡ pair ∷ open_of self.new) }
    {
        if self.count == 0 {
            return None;
        }
        self.count -= 1;
        Some(self.pairs[self.count])
    }
}
