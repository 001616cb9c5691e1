//! `Member`: a member of a set that matches, as C sees it.

/// The match of a member of a set.
#[repr(C)]
#[derive(Clone, Copy)]
pub struct Member {
    /// The number of the member, from 0.
    pub pattern: usize,
    /// The byte offset at which its match starts.
    pub start: usize,
    /// The byte offset at which its match ends, exclusive.
    pub end: usize,
}
