//! `Input`: the haystacks that can be searched, `&str` and `&String`.

ghost use Rattle.std.specs.Prelude.{◌≡◌, ◌≤◌, ◌<◌, ◌↔◌, ◌==◌, ◌^◌, ℕ, List, length, Some, IsTrue, IsUtf8, IsCharBoundary, MatchBool, string_bytes};
ghost use Rattle.std.specs.Str.{IsAscii, IsNotAscii};
ghost use Rattle.fancy_regex_meaning.specs.Positions.{position_after, position_before};

use crate::boundaries::{next_boundary, previous_boundary};
use crate::matched::Match;

/// A haystack: a borrowed UTF-8 text. All offsets are in bytes from its start.
///
/// ```
/// let text = "aé";
/// assert!(rt; Input::len(&text) == 3 && !Input::is_empty(&text) && !Input::is_ascii(&text));
/// assert!(rt; Input::is_char_boundary(&text, 1) && !Input::is_char_boundary(&text, 2));
/// assert!(rt; Input::as_str(&text) == "aé" && Input::as_bytes(&text).len() == 3);
/// assert!(rt; text.advance_position(1) == 3 && text.prev_codepoint_ix(3) == 1);
/// assert!(rt; text.make_match(1, 3).as_str() == "é");
/// ```
pub trait Input: Copy {
    /// The type of its matches.
    type Match: Drop;

    /// The bytes of the haystack, in UTF-8.
    ghost text: { Self → List ℕ };

    /// The start and end byte offsets of a match.
    ghost span: { Self.Match → ℕ × ℕ };

    /// The bytes of the haystack of a match.
    ghost match_text: { Self.Match → List ℕ };

    /// The length of the haystack in bytes.
    fn len(&self) -> usize
        ensures text { result ≡ length (text self.now) }
        ensures bound { result < 2 ^ 63 };

    /// The haystack's bytes, in UTF-8.
    fn as_bytes(&self) -> &[u8]
        ensures text { result.now ≡ text self.now }
        ensures utf8 { IsUtf8 (text self.now) };

    /// The haystack as a string.
    fn as_str(&self) -> &str
        ensures { result.now ≡ text self.now }
    {
        unsafe { str::from_utf8_unchecked(self.as_bytes()) }
    }

    /// Whether the byte offset is a character boundary: a character starts there, or it is the end of the haystack. `false`
    /// past the end.
    fn is_char_boundary(&self, index: usize) -> bool
        ensures { IsTrue result ↔ IsCharBoundary (text self.now) index };

    /// Whether all characters of the haystack are ASCII.
    fn is_ascii(&self) -> bool
        ensures { MatchBool result (IsAscii (text self.now)) (IsNotAscii (text self.now)) };

    /// The byte offset of the character boundary before this one, which must not be the start of the haystack.
    fn prev_codepoint_ix(&self, index: usize) -> usize
        requires boundary { IsCharBoundary (text self.now) index }
        requires above { 0 < index }
        ensures value { Some result ≡ position_before (text self.now) 1 index }
        ensures boundary { IsCharBoundary (text self.now) result }
        ensures before { result < index };

    /// Whether the haystack is empty.
    fn is_empty(&self) -> bool
        ensures { result ≡ (length (text self.now) == 0) }
    {
        self.len() == 0
    }

    /// The match from one byte offset to another, both character boundaries and in order.
    fn make_match(&self, start: usize, end: usize) -> Self::Match
        requires ordered { start ≤ end }
        requires starts { IsCharBoundary (text self.now) start }
        requires ends { IsCharBoundary (text self.now) end }
        ensures span { span result ≡ (start, end) }
        ensures text { match_text result ≡ text self.now };

    /// The byte offset of the character boundary after this one. At the end of the haystack it is one byte past the end.
    fn advance_position(&self, index: usize) -> usize
        requires { IsCharBoundary (text self.now) index }
        ensures value { result ≡ position_after (text self.now) index }
        ensures boundary { result ≤ length (text self.now) → IsCharBoundary (text self.now) result }
        ensures after { index < result };
}

/// Offsets are bytes of the text.
impl<'t> Input for &'t str {
    type Match = Match<'t>;

    ghost text = { λ s. s.now };

    ghost span = { λ m. (m.start, m.end) };

    ghost match_text = { λ m. m.text.now };

    fn len(&self) -> usize {
        (*self).len()
    }

    fn as_bytes(&self) -> &[u8] {
        (*self).as_bytes()
    }

    fn is_char_boundary(&self, index: usize) -> bool {
        (*self).is_char_boundary(index)
    }

    fn is_ascii(&self) -> bool {
        (*self).is_ascii()
    }

    fn prev_codepoint_ix(&self, index: usize) -> usize {
        previous_boundary(*self, index)
    }

    fn make_match(&self, start: usize, end: usize) -> Match<'t> {
        Match::new(*self, start, end)
    }

    fn advance_position(&self, index: usize) -> usize {
        next_boundary(*self, index)
    }
}

/// As for its text.
impl<'t> Input for &'t String {
    type Match = Match<'t>;

    ghost text = { λ s. string_bytes s.now };

    ghost span = { λ m. (m.start, m.end) };

    ghost match_text = { λ m. m.text.now };

    fn len(&self) -> usize {
        (*self).as_str().len()
    }

    fn as_bytes(&self) -> &[u8] {
        (*self).as_str().as_bytes()
    }

    fn is_char_boundary(&self, index: usize) -> bool {
        (*self).as_str().is_char_boundary(index)
    }

    fn is_ascii(&self) -> bool {
        (*self).as_str().is_ascii()
    }

    fn prev_codepoint_ix(&self, index: usize) -> usize {
        previous_boundary((*self).as_str(), index)
    }

    fn make_match(&self, start: usize, end: usize) -> Match<'t> {
        Match::new((*self).as_str(), start, end)
    }

    fn advance_position(&self, index: usize) -> usize {
        next_boundary((*self).as_str(), index)
    }
}
