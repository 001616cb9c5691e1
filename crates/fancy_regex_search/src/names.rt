//! `CaptureNames`: the iterator over the names of a regex's groups, and look-ups between names and group numbers.

ghost use Rattle.std.specs.Prelude.{◌≡◌, ◌+◌, ◌-◌, ◌≤◌, ◌<◌, MatchOption, length, chars, codes, option_map, Some};
ghost use Rattle.std.specs.Iterator.{at_most};
ghost use Rattle.fancy_regex_tree.specs.Numbering.{Names, last_named};
ghost use Rattle.fancy_regex_meta.specs.GroupNames.{AreGroupNumbersOf, name_at};
ghost use Rattle.fancy_regex_meta.specs.MetaMatches.{meta_pattern};
ghost use Rattle.fancy_regex_search.specs.GroupLookup.{meta_group_names};

use crate::regex::Regex;
use fancy_regex_tree::NamedGroups;
use std::fmt;

/// The iterator over the names of a regex's groups, from group 0, which has none; `None` for an unnamed group.
///
/// ```
/// let regex = Regex::new(alloc, r"(?<key>\w+)=(\w+)")?;
/// assert!(rt; regex.capture_names().count() == 3);
/// ```
#[derive(Clone, Drop)]
pub struct CaptureNames<'r> {
    /// The regex.
    regex: &'r Regex,
    /// The number of the next group.
    next: usize,
}

/// The name of the group with this number; `None` if it has none.
fn group_name(named: &NamedGroups, group: usize) -> Option<&str>
    ensures { (names : Names) → AreGroupNumbersOf named.now names → option_map (λ s. chars s.now) result ≡ name_at names group }
{
    for (name, numbers) in named {
        if numbers.contains(&group) {
            return Some(name.as_str());
        }
    }
    None
}

/// The number of the last group with this name; `None` if no group has it.
pub fn last_group_named(named: &NamedGroups, name: &str) -> Option<usize>
    ensures { (names : Names) → AreGroupNumbersOf named.now names → result ≡ last_named names (chars name.now) }
{
    let numbers = named.get(name)?;
    numbers.last().copied()
}

impl<'r> CaptureNames<'r> {
    /// The iterator before group 0.
    pub(crate) fn new(regex: &'r Regex) -> CaptureNames<'r>
        ensures regex { result.regex ≡ regex.entry }
        ensures next { result.next ≡ 0 }
    {
        CaptureNames { regex, next: 0 }
    }
}

impl<'r> Iterator for CaptureNames<'r> {
    type Item = Option<&'r str>;

    ghost next_gives = { λ s r t. MatchOption r ((length (meta_pattern s.regex.now.meta).groups ≤ s.next) × (t ≡ s))
        (λ item. (s.next < length (meta_pattern s.regex.now.meta).groups) × (t.next ≡ s.next + 1) × (t.regex ≡ s.regex)
        × (option_map (λ name. chars name.now) item ≡ name_at (meta_group_names s.regex.now.meta) s.next)) };

    ghost remaining = { λ s. at_most (length (meta_pattern s.regex.now.meta).groups - s.next) };

    /// The name of the next group, or `Some(None)` if it has none; `None` after the last group.
    fn next(&mut self) -> Option<Option<&'r str>> {
        let group = self.next;
        if group >= self.regex.captures_len() {
            return None;
        }
        self.next = group + 1;
        Some(group_name(self.regex.meta.named_groups(), group))
    }
}

impl fmt::Debug for CaptureNames<'_> {
    ghost debug_output = { λ _. Some (codes "<CaptureNames>") };

    /// Writes `<CaptureNames>`.
    fn fmt<W: fmt::Write>(&self, f: &mut fmt::Formatter<W>) -> fmt::Result {
        f.write_str("<CaptureNames>")
    }
}
