//! `Span`: where a match, a group or a piece stands, as C sees it.

ghost use Rattle.std.specs.Prelude.{◌≡◌};
ghost use Rattle.fancy_regex_ffi_lists.specs.Spans.{span_of};

/// From the byte offset `start` to the byte offset `end`, exclusive; both are `usize::MAX`, which C writes `(size_t)-1`, where
/// nothing matched.
#[repr(C)]
#[derive(Clone, Copy)]
pub struct Span {
    /// The byte offset of the first byte.
    pub start: usize,
    /// The byte offset after the last byte.
    pub end: usize,
}

impl Span {
    /// The span of a match, or of none.
    pub fn of(found: Option<(usize, usize)>) -> Span
        ensures { result ≡ span_of found }
    {
        match found {
            Some((start, end)) => Span { start, end },
            None => Span {
                start: usize::MAX,
                end: usize::MAX,
            },
        }
    }
}
