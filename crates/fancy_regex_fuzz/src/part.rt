//! Parts of a text, and how they are searched.

use crate::random::Random;
use fancy_regex::RegexInput;

/// A part of a text, and how it is searched. An offset inside a character or past the text means the boundary before it.
#[derive(Clone, Copy, Debug)]
pub struct Part {
    /// The byte offset at which a search starts.
    from: usize,
    /// The first byte offset of the range.
    start: usize,
    /// The length of the range in bytes.
    length: usize,
    start_text: bool,
    end_text: bool,
    continues: bool,
    anchored: bool,
}

/// The greatest byte offset of a part, and its greatest length.
const FARTHEST: usize = 12;

impl Part {
    /// A random part.
    pub fn random(random: &mut Random) -> Part {
        Part {
            from: random.below(FARTHEST),
            start: random.below(FARTHEST),
            length: random.below(FARTHEST),
            start_text: !random.one_in(6),
            end_text: !random.one_in(6),
            continues: !random.one_in(6),
            anchored: random.one_in(4),
        }
    }
}

/// The greatest character boundary of the text that is not after the byte offset.
fn boundary_at(text: &str, offset: usize) -> usize {
    let last = offset.min(text.len());
    for back in 0..4 {
        let at = last.saturating_sub(back);
        if text.is_char_boundary(at) {
            return at;
        }
    }
    0
}

/// The input of a search from the part's offset on, in the part's range.
fn placed(text: &str, part: Part) -> RegexInput<&str> {
    let from = boundary_at(text, part.from);
    let start = boundary_at(text, part.start);
    let end = boundary_at(text, start.saturating_add(part.length));
    if end < start || !text.is_char_boundary(start) || !text.is_char_boundary(end) {
        return RegexInput::new(text);
    }
    if from <= text.len() && !text.is_char_boundary(from) {
        return RegexInput::new(text);
    }
    RegexInput::new(text).from_pos(from).range(start..end)
}

/// The input of a search of a part of the text.
pub fn input_of(text: &str, part: Part) -> RegexInput<&str> {
    placed(text, part)
        .start_text(part.start_text)
        .end_text(part.end_text)
        .continue_from_previous_match_end(part.continues)
        .anchored(part.anchored)
}
