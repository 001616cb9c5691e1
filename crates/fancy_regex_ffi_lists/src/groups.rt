//! The groups of matches, and those of the members of a set that match.

ghost use Rattle.std.specs.Prelude.{◌≡◌, IfOk, IfErr, OnOk, IsCharBoundary};
ghost use Rattle.fancy_regex_ffi_lists.specs.Groups.{IsGroupSpan, AreGroupsAdded, AreMatchingGroups};
ghost use Rattle.fancy_regex.specs.SetLimits.{SetStays};
ghost use Rattle.fancy_regex_ffi_lists.specs.Lists.{config_at, IsMemberError};

use crate::member::Member;
use crate::members::input_at;
use crate::spans::Span;
use fancy_regex::{Captures, RegexSet, Result};
use std::alloc::{AllocError, Global};

/// The groups of the members of a set that match at the earliest place of the text, from the byte offset `position` on, at which one
/// of them does: the members in the order of their numbers, and of each all its groups in the order of theirs, from group 0, the whole
/// match, on; none if no member matches. `\G` matches at `position` if `continues`.
///
/// # Errors
///
/// `RuntimeError` if the search of a member exceeds a limit; `Memory` if memory runs out. The set can be used again.
pub fn set_groups(
    alloc: Global,
    set: &RegexSet,
    text: &str,
    position: usize,
    continues: bool,
) -> Result<Vec<Member>>
    requires { IsCharBoundary text.now position }
    ensures groups { IfOk result (λ groups.
        AreMatchingGroups set.now.regexes.items text.now (config_at text.now position continues) groups.items) }
    ensures fails { IfErr result (IsMemberError set.now.regexes.items text.now (config_at text.now position continues)) }
    ensures stays { OnOk result (SetStays set.now.regexes.items text.now (config_at text.now position continues)) }
{
    let mut groups = Vec::new(alloc);
    let Some(mut found) = set.find_input(alloc, input_at(text, position, continues))? else {
        return Ok(groups);
    };
    while let Some(member) = found.next() {
        let member = member?;
        push_groups(&mut groups, member.pattern(), member.captures())?;
    }
    Ok(groups)
}

/// Appends the groups of a match of the member with this number.
fn push_groups(
    groups: &mut Vec<Member>,
    number: usize,
    captures: &Captures<'_, &str>,
) -> std::result::Result<(), AllocError>
    ensures { OnOk result (AreGroupsAdded captures.now.haystack.now captures.now.slots.items number groups.old.items groups.new.items) }
{
    for group in 0..captures.len() {
        let span = group_span(captures, group);
        groups.push(Member {
            pattern: number,
            start: span.start,
            end: span.end,
        })?;
    }
    Ok(())
}

/// The span of a group; unset if it took no part in the match, or if there is no such group.
pub fn group_span(captures: &Captures<'_, &str>, group: usize) -> Span
    ensures { IsGroupSpan captures.now.haystack.now captures.now.slots.items group result }
{
    match captures.get(group) {
        Some(found) => Span::of(Some((found.start(), found.end()))),
        None => Span::of(None),
    }
}
