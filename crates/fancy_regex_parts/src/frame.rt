//! What a search in parts does next, and what it has yet to do.

/// A frame of the stack: what becomes of the answer that is found above it.
#[derive(Clone, Copy)]
pub enum Frame {
    /// Where there is no way, this state at this byte offset is tried.
    Branch {
        state: usize,
        at: usize,
    },
    /// The answer is that of the pair whose cell has this number.
    Open {
        cell: usize,
    },
    /// The answer is that of the part that is asked about; the search continues with `next` at this byte offset, or fails.
    Ask {
        negated: bool,
        next: usize,
        at: usize,
    },
    /// The answer is that of the part of an atomic group that begins at the byte offset `at`; the search continues at the end, with
    /// `same` if that is `at`, else with `moved`, or fails.
    Atomic {
        at: usize,
        same: usize,
        moved: usize,
    },
}

/// What a search does next.
#[derive(Clone, Copy)]
pub enum Task {
    /// Try this state at this byte offset.
    Visit { state: usize, at: usize },
    /// This is the answer of what was tried last: where its first way ends.
    Answer(Option<usize>),
}
