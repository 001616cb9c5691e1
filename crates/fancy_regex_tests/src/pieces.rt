//! Splits whose searches fail, each with the items that have to come.

use fancy_regex::{Error, Regex, RegexBuilder, Result, RuntimeError};
use std::alloc::Global;

/// A piece; `None` for a search that exceeds the backtrack limit.
type Item = Option<&'static str>;

/// The items of a split of `xb` at `x`, where the search after that fails.
static ITEMS: [Item; 3] = [Some(""), None, Some("b")];

/// The limits of splits, and their items.
static LIMITED: [(usize, &[Item]); 2] = [
    (2, &[Some(""), Some("b")]),
    (3, &[Some(""), None, Some("b")]),
];

/// Whether an item is there, and is this one.
fn is_item(found: Option<Result<&str>>, wanted: Item) -> bool {
    match (found, wanted) {
        (Some(Ok(piece)), Some(text)) => piece == text,
        (Some(Err(Error::RuntimeError(RuntimeError::BacktrackLimitExceeded))), None) => true,
        _ => false,
    }
}

/// Whether a split has the items.
fn splits(alloc: Global, regex: &Regex) -> bool {
    let mut pieces = regex.split(alloc, "xb");
    for item in ITEMS.iter() {
        if !is_item(pieces.next(), *item) {
            return false;
        }
    }
    pieces.next().is_none()
}

/// Whether a split with a limit has the items.
fn splits_up_to(alloc: Global, regex: &Regex, limit: usize, items: &[Item]) -> bool {
    let mut pieces = regex.splitn(alloc, "xb", limit);
    for item in items {
        if !is_item(pieces.next(), *item) {
            return false;
        }
    }
    pieces.next().is_none()
}

/// A regex whose searches fail at the first way back.
fn limited(alloc: Global) -> Result<Regex> {
    let mut builder = RegexBuilder::new(alloc, "x|(a)\\1")?;
    builder.backtrack_limit(0).build(alloc)
}

#[test]
fn goes_on_after_an_error(rt: HostRuntime) {
    let Ok(regex) = limited(rt.alloc()) else {
        panic!(rt; "no regex");
    };
    assert!(rt; splits(rt.alloc(), &regex), "all");
    for (limit, items) in LIMITED.iter() {
        assert!(rt; splits_up_to(rt.alloc(), &regex, *limit, items), "{limit}");
    }
}
