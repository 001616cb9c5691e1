//! Iterators over matches.

use fancy_regex::Regex;
use std::alloc::Global;

/// Whether the input of an iterator over `a` starts at the end of the only item from the first call on.
pub fn stays_at_the_item(alloc: Global, regex: &Regex) -> bool {
    let mut matches = regex.find_iter(alloc, "ab");
    for is_item in [true, false, false] {
        let is_due = match matches.next() {
            Some(item) => is_item && item.is_ok(),
            None => !is_item,
        };
        if !is_due || matches.input().start() != 1 {
            return false;
        }
    }
    true
}
