//! Where a thread is.

/// Where the current thread is in the program and in the text.
#[derive(Clone, Copy)]
pub struct Cursor {
    /// The index of the next instruction.
    pub pc: usize,
    /// The byte offset in the text.
    pub position: usize,
}
