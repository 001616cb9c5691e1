//! The frames of the backtrack stack.

/// A frame of the backtrack stack.
#[derive(Clone, Copy)]
pub enum Frame {
    /// Explore this state at this byte offset.
    Explore { state: usize, at: usize },
    /// Undo a write: restore the old value of the slot.
    Restore { slot: usize, old: usize },
}

/// The outcome of a visit.
#[derive(Clone, Copy)]
pub enum SearchStep {
    /// Continue with this state at this byte offset.
    Pair(usize, usize),
    /// Backtrack: pop the next frame.
    Backtrack,
    /// The final state was reached.
    Matched,
}
