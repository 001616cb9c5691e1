//! What a table is made of.

use crate::step::Reader;

/// The states of a pattern, how they read, and where each attempt begins.
#[derive(Clone, Copy)]
pub struct Pattern<'p> {
    pub reader: Reader<'p>,
    /// The state at which each attempt begins.
    pub entry: usize,
}

/// Starts are rare up to so many of a million characters.
const MOST_RARE: u32 = 50_000;

/// How common starts are from which an attempt goes on.
#[derive(Clone, Copy)]
pub struct Starts {
    /// Before how many of a million characters of a text there is one, about.
    pub per_million: u32,
}

impl Starts {
    /// Whether a pass goes on where no attempt is under way, unless searches go on to characters that each match needs. Else who asks the
    /// table finds the next start.
    #[inline(always)]
    pub fn are_common(self) -> bool {
        self.per_million > MOST_RARE
    }

    /// These, or as many as are rare if they are common.
    pub fn or_rare(self) -> Starts {
        Starts {
            per_million: self.per_million.min(MOST_RARE),
        }
    }
}
