//! What a search knows at a place: a row of the table.

ghost use Rattle.std.specs.Prelude.{◌≡◌, true};
ghost use Rattle.fancy_regex_table.specs.Cells.{sort_before};
ghost use Rattle.fancy_regex_table.specs.Rows.{SameRow};

use crate::sort::Sort;

/// Which attempts have a match.
#[derive(Clone, Copy)]
pub enum Found {
    /// None that is known.
    Nothing,
    /// The first attempt that is under way; those from later starts are of no use.
    Own,
    /// Perhaps one from a later start.
    Later,
}

/// What a search knows at a place.
#[derive(Drop)]
pub enum Row {
    /// All attempts from earlier starts have failed.
    Fresh {
        /// The sort of the character before.
        before: Sort,
    },
    /// Attempts are under way.
    Open {
        /// The sort of the character before.
        before: Sort,
        /// The states of the first attempt, in the order of preference, up to the first way that ended.
        own: Vec<usize>,
        /// The states of attempts from later starts, in any order, but for those of the first.
        later: Vec<usize>,
        found: Found,
    },
}

/// What a search learns by a character at a place in a row.
#[derive(Clone, Copy)]
pub enum Cell {
    /// The row after the character.
    Next {
        /// All attempts from earlier starts have failed: the first one is that from this place.
        begins: bool,
        /// The first attempt has a match that ends at this place.
        ends: bool,
        row: u32,
    },
    /// Nothing.
    Unknown,
    /// The match is empty, at this place.
    Empty,
    /// The match is that of the first attempt, and ends at this place.
    EndsHere,
    /// The match is that of the first attempt that was noted last.
    EndsEarlier,
    /// No match starts at this place or before it.
    Idle,
}

impl Row {
    /// The sort of the character before.
    pub fn before(&self) -> Sort
        ensures { result ≡ sort_before self.now }
    {
        match self {
            Row::Fresh { before } => *before,
            Row::Open { before, .. } => *before,
        }
    }
}

/// Whether the rows are the same.
pub fn is_same(one: &Row, other: &Row) -> bool
    ensures { result ≡ true → SameRow one.now other.now }
{
    match (one, other) {
        (Row::Fresh { before: a }, Row::Fresh { before: b }) => a.is_same(b),
        (
            Row::Open {
                before: a,
                own: own_a,
                later: later_a,
                found: found_a,
            },
            Row::Open {
                before: b,
                own: own_b,
                later: later_b,
                found: found_b,
            },
        ) => {
            a.is_same(b)
                && is_same_found(*found_a, *found_b)
                && are_same(own_a, own_b)
                && are_same(later_a, later_b)
        }
        _ => false,
    }
}

fn is_same_found(one: Found, other: Found) -> bool
    ensures { result ≡ true → one ≡ other }
{
    match (one, other) {
        (Found::Nothing, Found::Nothing) => true,
        (Found::Own, Found::Own) => true,
        (Found::Later, Found::Later) => true,
        _ => false,
    }
}

/// Whether the lists are the same.
fn are_same(one: &[usize], other: &[usize]) -> bool
    ensures { result ≡ true → one.now ≡ other.now }
{
    one == other
}
