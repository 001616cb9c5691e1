//! Sets of regexes: what is found, member by member.

use fancy_regex::{
    Regex, RegexInput, RegexOptionsBuilder, RegexSet, RegexSetMatch, RegexSetMatchesAt, Result,
};
use std::alloc::Global;
use std::test::Fail;

/// The number of a member, the span of its match, its text, and the start of its first group.
struct Item(usize, usize, usize, &'static str, Option<usize>);

/// Whether an item shows this.
fn is_item(found: &RegexSetMatch<'_, &str>, wanted: &Item) -> bool {
    let Item(pattern, start, end, text, group) = wanted;
    let is_in_group = match found.captures().get(1) {
        Some(first) => *group == Some(first.start()),
        None => group.is_none(),
    };
    let is_placed = found.start() == *start && found.end() == *end;
    let is_text = found.as_str() == *text && found.get().as_str() == *text;
    found.pattern() == *pattern && is_placed && is_text && is_in_group
}

/// Whether just these items come.
fn are_items(mut found: RegexSetMatchesAt<'_, &str>, items: &[Item]) -> bool {
    for item in items {
        let is_due = match found.next() {
            Some(Ok(next)) => is_item(&next, item),
            Some(Err(_error)) => false,
            None => false,
        };
        if !is_due {
            return false;
        }
    }
    found.next().is_none()
}

/// Whether a set of two members finds these items at offset 1.
fn finds(alloc: Global, set: &RegexSet, text: &str, items: &[Item]) -> bool {
    let Ok(Some(found)) = set.find_input(alloc, RegexInput::new(text)) else {
        return false;
    };
    let is_counted = set.len() == 2 && !set.is_empty() && found.regex_set().len() == 2;
    let is_placed = found.start() == 1 && found.haystack() == text;
    are_items(found, items) && is_counted && is_placed
}

/// A regex of longest matches, and one of first matches.
fn mixed(alloc: Global) -> Result<RegexSet> {
    let mut longest = RegexOptionsBuilder::new();
    longest.leftmost_longest(true);
    let mut regexes = Vec::new(alloc);
    regexes.push(longest.build(alloc, String::from_str(alloc, "a|ab")?)?)?;
    regexes.push(Regex::new(alloc, "a|ab")?)?;
    Ok(RegexSet::from_regexes(regexes))
}

/// What the members of `mixed` find in `xabc`.
static MIXED: [Item; 2] = [Item(0, 1, 3, "ab", None), Item(1, 1, 2, "a", None)];

#[test]
fn members_keep_their_options(rt: HostRuntime) -> std::result::Result<(), Fail> {
    let set = mixed(rt.alloc())?;
    assert!(rt; finds(rt.alloc(), &set, "xabc", &MIXED));
    Ok(())
}

/// What the second of the patterns finds in `aéb`.
static KEPT_OUT: [Item; 1] = [Item(1, 3, 4, "b", Some(3))];

#[test]
fn an_item_shows_its_match(rt: HostRuntime) -> std::result::Result<(), Fail> {
    let set = RegexSet::new(rt.alloc(), &["x", "é\\K(b)"])?;
    assert!(rt; finds(rt.alloc(), &set, "aéb", &KEPT_OUT));
    Ok(())
}
