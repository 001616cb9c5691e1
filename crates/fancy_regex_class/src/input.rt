//! The input of a search, shared by both engines.

/// A part of a text, by byte offsets: from `start` up to `end`, which is not part of it.
#[derive(Clone, Copy, Debug, PartialEq, Eq)]
pub struct Span {
    /// Where it starts.
    pub start: usize,
    /// Where it ends.
    pub end: usize,
}

/// The parameters of a search. All offsets are byte offsets; `first` and the ends of the range are to be character
/// boundaries of the text.
#[derive(Clone, Copy, Debug, PartialEq, Eq)]
pub struct RunInput {
    /// The first start of a match to try.
    pub first: usize,
    /// The offset at which `\G` holds, if any.
    pub continue_at: Option<usize>,
    /// The range of the search: no match ends past its end.
    pub range: Span,
    /// Whether a match may start at `first` only.
    pub anchored: bool,
    /// Whether the start-of-text assertion fails at the start of the text.
    pub no_start_text: bool,
    /// Whether the end-of-text assertion fails at the end of the text.
    pub no_end_text: bool,
}
