//! Random texts and templates.

use crate::pattern::Kind;
use crate::random::Random;
use std::alloc::{AllocError, Global};

/// What texts are made of. Of the characters that are not ASCII some are word characters and others are not, in each length.
static PIECES: [&str; 20] = [
    "a", "b", "a", "b", "ab", "c", "A", "B", " ", "\n", "\r\n", "1", "é", "\u{212a}", "_", "()",
    "«", "—", "𝐀", "😀",
];

/// What templates are made of.
static TEMPLATE_PIECES: [&str; 16] = [
    "a", "<", ">", "$1", "$2a", "${1}", "${n}", "$n", "$0", "$$", "$", "${", "}", "\\1", "é", " ",
];

/// The greatest number of pieces.
const MOST: usize = 10;

/// What nested texts begin with, and what they end with.
static NESTS: [(&str, &str); 4] = [("a", "b"), ("(", ")"), ("a", "bc"), ("ab", "")];

/// How deep the shallowest of nested texts is. Calls of a group nest nineteen deep.
const SHALLOWEST: usize = 17;

/// How many calls of a group may be open.
const MOST_OPEN: usize = 19;

/// A text of a few pieces. Where groups call each other some texts are nested, about as deep as calls of one group or of two may be.
pub fn make_text(alloc: Global, random: &mut Random, kind: Kind) -> Result<String, AllocError> {
    let is_nested = matches!(kind, Kind::Calls) && random.one_in(3);
    if is_nested {
        return nested(alloc, random);
    }
    of_pieces(alloc, random, &PIECES)
}

/// A piece so often, one of another kind, and what belongs to the first as often.
fn nested(alloc: Global, random: &mut Random) -> Result<String, AllocError> {
    let mut text = String::new(alloc);
    let mut depth = SHALLOWEST.saturating_add(random.below(6));
    if random.one_in(4) {
        depth = depth.saturating_add(MOST_OPEN);
    }
    let Some((first, last)) = NESTS.get(random.below(NESTS.len())) else {
        return Ok(text);
    };
    push_times(&mut text, first, depth)?;
    if random.one_in(3) {
        text.push_str(random.pick(&PIECES))?;
    }
    push_times(&mut text, last, depth)?;
    Ok(text)
}

/// Appends a piece so often.
fn push_times(text: &mut String, piece: &str, times: usize) -> Result<(), AllocError> {
    for _ in 0..times {
        text.push_str(piece)?;
    }
    Ok(())
}

/// A template of a few pieces.
pub fn make_template(alloc: Global, random: &mut Random) -> Result<String, AllocError> {
    of_pieces(alloc, random, &TEMPLATE_PIECES)
}

fn of_pieces(alloc: Global, random: &mut Random, pieces: &[&str]) -> Result<String, AllocError> {
    let mut text = String::new(alloc);
    for _ in 0..random.below(MOST) {
        text.push_str(random.pick(pieces))?;
    }
    Ok(text)
}
