//! `Match`: the span of a match in its haystack, always between character boundaries.

ghost use Rattle.std.specs.Prelude.{◌≡◌, ◌≤◌, slice_range, IsCharBoundary};

use std::ops::Range;

/// A match: the part of a haystack from the byte offset `start` to the byte offset `end`, exclusive.
///
/// ```
/// let found = Match::new("so fancy!", 3, 8);
/// assert!(rt; found.as_str() == "fancy" && found.start() == 3 && found.end() == 8);
/// assert!(rt; found.range() == (3..8));
/// ```
#[derive(Clone, Copy, Debug, PartialEq, Eq)]
pub struct Match<'t> {
    /// The haystack.
    text: &'t str,
    /// The byte offset of the first byte.
    start: usize,
    /// The byte offset after the last byte.
    end: usize,
    pub ghost ordered: { start ≤ end },
    pub ghost starts_well: { IsCharBoundary text.now start },
    pub ghost ends_well: { IsCharBoundary text.now end },
}

impl<'t> Match<'t> {
    /// The match from one byte offset to another, both character boundaries of the text and in order.
    pub fn new(text: &'t str, start: usize, end: usize) -> Match<'t>
        requires ordered { start ≤ end }
        requires starts { IsCharBoundary text.now start }
        requires ends { IsCharBoundary text.now end }
        ensures text { result.text ≡ text.entry }
        ensures span { (result.start ≡ start) × (result.end ≡ end) }
    {
        Match { text, start, end }
    }

    /// The byte offset at which the match starts.
    pub fn start(&self) -> usize
        ensures { result ≡ self.now.start }
    {
        self.start
    }

    /// The byte offset at which the match ends, exclusive.
    pub fn end(&self) -> usize
        ensures { result ≡ self.now.end }
    {
        self.end
    }

    /// The byte range of the match.
    pub fn range(&self) -> Range<usize>
        ensures { (result.start ≡ self.now.start) × (result.end ≡ self.now.end) }
    {
        self.start..self.end
    }

    /// The text that matched.
    pub fn as_str(&self) -> &'t str
        ensures { result.now ≡ slice_range self.now.text.now self.now.start self.now.end }
    {
        &self.text[self.start..self.end]
    }
}

/// The byte range of a match.
impl<'t> From<Match<'t>> for Range<usize> {
    ghost from_gives = { λ m range. (range.start ≡ m.start) × (range.end ≡ m.end) };

    fn from(found: Match<'t>) -> Range<usize> {
        found.range()
    }
}

/// The text of a match.
impl<'t> From<Match<'t>> for &'t str {
    ghost from_gives = { λ m piece. piece.now ≡ slice_range m.text.now m.start m.end };

    fn from(found: Match<'t>) -> &'t str {
        found.as_str()
    }
}
