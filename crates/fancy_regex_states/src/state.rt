//! The states that a pattern is compiled to.

use crate::atom::{Leaf, Test};

/// A state. `next`, `first` and `second` are numbers of states.
#[derive(Clone, Copy, PartialEq, Eq, Debug)]
pub enum State {
    /// Consumes one character that the leaf matches.
    Read {
        leaf: Leaf,
        next: usize,
    },
    /// Checks a zero-width assertion.
    Look {
        test: Test,
        next: usize,
    },
    /// Two alternatives; the first is preferred.
    Split {
        first: usize,
        second: usize,
    },
    /// Writes the start of the capture group of this number.
    Enter {
        group: usize,
        next: usize,
    },
    /// Writes the end of the capture group of this number.
    Leave {
        group: usize,
        next: usize,
    },
    /// Steps back over one character, and continues before it; at the start of the text there is no way. Only parts begin with it, those
    /// of look-behinds.
    Back {
        next: usize,
    },
    /// Asks the part that begins at the state `part`: continues where it has a way from here or, where `negated`, where it has none.
    Ask {
        part: usize,
        negated: bool,
        next: usize,
    },
    /// Continues where the first way of the part that begins at the state `part` ends: at `same` if that is here, else at `moved`.
    Atomic {
        part: usize,
        same: usize,
        moved: usize,
    },
    /// The pattern, or the part, has matched.
    Match,
}
