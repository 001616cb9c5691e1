//! Memory is refused during an iteration: `Matches` and `CaptureMatches` give the error once and end; `Split` and `SplitN` give
//! the error, the rest and the end; a set gives the error in the place of that member's item. The same call then gives all items.

use crate::iterating::{Iterating, room, show};
use crate::outcome::{Attempt, Text, first_wrong, shows};
use crate::regex_row::{RegexCall, RegexRow};
use fancy_regex::{
    Regex, RegexInput, RegexOptionsBuilder, RegexSet, RegexSetMatch, RegexSetMatchesAt, Result,
};
use std::alloc::Global;

const WORDS: &str = "[ab][c][def]";

const CUT_WORDS: [&str; 4] = ["!", "[ab]!", "[ab][c]!", "[ab][c][def]!"];

const PIECES: &str = "[a][][bc][]";

const THREE: &str = "[a][][bc,]";

const CUT_THREE: [&str; 2] = ["![a,,bc,]", "[a]![,bc,]"];

const CUT_PIECES: [&str; 4] = ["![a,,bc,]", "[a]![,bc,]", "[a][]![bc,]", "[a][][bc]![]"];

static ITERATED: [RegexRow; 12] = [
    RegexRow(
        "(\\w+)",
        "ab c,def",
        RegexCall::Iterate(Iterating::Matches, WORDS, &CUT_WORDS),
    ),
    RegexRow(
        "(\\w+)(?!x)",
        "ab c,def",
        RegexCall::Iterate(Iterating::Matches, WORDS, &CUT_WORDS),
    ),
    RegexRow(
        "(\\w+)",
        "ab c,def",
        RegexCall::Iterate(Iterating::Groups, WORDS, &CUT_WORDS),
    ),
    RegexRow(
        "(\\w+)(?!x)",
        "ab c,def",
        RegexCall::Iterate(Iterating::Groups, WORDS, &CUT_WORDS),
    ),
    RegexRow(
        ",",
        "a,,bc,",
        RegexCall::Iterate(Iterating::Split, PIECES, &CUT_PIECES),
    ),
    RegexRow(
        ",(?!x)",
        "a,,bc,",
        RegexCall::Iterate(Iterating::Split, PIECES, &CUT_PIECES),
    ),
    RegexRow(
        ",",
        "a,,bc,",
        RegexCall::Iterate(Iterating::SplitN(9), PIECES, &CUT_PIECES),
    ),
    RegexRow(
        ",(?!x)",
        "a,,bc,",
        RegexCall::Iterate(Iterating::SplitN(9), PIECES, &CUT_PIECES),
    ),
    RegexRow(
        ",",
        "a,,bc,",
        RegexCall::Iterate(Iterating::SplitN(3), THREE, &CUT_THREE),
    ),
    RegexRow(
        ",(?!x)",
        "a,,bc,",
        RegexCall::Iterate(Iterating::SplitN(3), THREE, &CUT_THREE),
    ),
    RegexRow(
        ",(?!x)",
        "a,,bc,",
        RegexCall::Iterate(Iterating::SplitN(1), "[a,,bc,]", &[]),
    ),
    RegexRow(
        ",(?!x)",
        "abc",
        RegexCall::Iterate(Iterating::SplitN(9), "[abc]", &["![abc]"]),
    ),
];

#[test]
fn an_iteration_ends_or_gives_the_rest_after_want_of_memory(rt: HostRuntime) {
    assert_eq!(rt; first_wrong(&rt, &ITERATED), None);
}

/// A call that makes a set.
enum Making {
    /// `RegexSet::new`, whose set knows which members may start at a byte.
    New,
    /// `RegexSet::from_regexes`, whose set does not.
    FromRegexes,
    /// `RegexSet::new_with_options`, with no backtracks allowed.
    Limited,
}

/// A call, the patterns of a set, a text, the items of a search, one for each member, and the items where a search wants memory.
struct Asking(Making, &'static [Text], Text, Text, &'static [Text]);

const MEMBERS: [&str; 3] = ["\\d+", "\\w+", "(?<=\\$)\\d+\\.\\d+"];

const ITEMS: &str = "[29][29][29.99]";

const CUT_ITEMS: [&str; 3] = ["!", "[29]![29.99]", "[29][29]!"];

// The second meets its limit on `aa`.
const LIMITED: [&str; 2] = ["a", "(?:(a|aa)+)\\1"];

// `!` alone is want of memory of the search of the set. A set asks its first member while it looks for the place of the match.
static ASKED: [Asking; 3] = [
    Asking(Making::New, &MEMBERS, "$29.99", ITEMS, &CUT_ITEMS),
    Asking(Making::FromRegexes, &MEMBERS, "$29.99", ITEMS, &CUT_ITEMS),
    Asking(Making::Limited, &LIMITED, "aa", "[a]?", &["!", "[a]!"]),
];

/// The set of the regexes of the patterns.
fn set_of_regexes(alloc: Global, patterns: &[&str]) -> Result<RegexSet> {
    let mut regexes = Vec::new(alloc);
    for pattern in patterns {
        regexes.push(Regex::new(alloc, pattern)?)?;
    }
    Ok(RegexSet::from_regexes(regexes))
}

/// Shows the match of a member, or `?` if it is not its turn.
fn show_member(shown: &mut String, found: &RegexSetMatch<'_, &str>, member: usize) {
    if found.pattern() == member {
        show(shown, Ok(found.as_str()));
    } else {
        show(shown, Ok("?"));
    }
}

/// Shows the items of a set, one for each member in turn.
fn show_members(shown: &mut String, found: &mut RegexSetMatchesAt<'_, &str>) {
    let mut member = 0usize;
    while let Some(item) = found.next() {
        match item {
            Ok(found) => show_member(shown, &found, member),
            Err(error) => show(shown, Err(error)),
        }
        member = member.saturating_add(1);
    }
}

/// Shows the items of a search of a set.
fn show_search(alloc: Global, set: &RegexSet, text: &str, shown: &mut String) {
    match set.find_input(alloc, RegexInput::new(text)) {
        Ok(Some(mut found)) => show_members(shown, &mut found),
        Ok(None) => {}
        Err(error) => show(shown, Err(error)),
    }
}

impl Attempt for Asking {
    type Made = RegexSet;

    fn make(&self, alloc: Global) -> Result<RegexSet> {
        match &self.0 {
            Making::New => RegexSet::new(alloc, self.1),
            Making::FromRegexes => set_of_regexes(alloc, self.1),
            Making::Limited => {
                let mut options = RegexOptionsBuilder::new();
                options.backtrack_limit(0);
                RegexSet::new_with_options(alloc, self.1, &options)
            }
        }
    }

    fn is_right(&self, alloc: Global, set: &RegexSet) -> Result<bool> {
        let mut shown = room(alloc)?;
        show_search(alloc, set, self.2, &mut shown);
        shows(&shown, self.3, self.4)
    }
}

#[test]
fn a_set_goes_on_after_want_of_memory(rt: HostRuntime) {
    assert_eq!(rt; first_wrong(&rt, &ASKED), None);
}
