//! The members of a set that match.

ghost use Rattle.std.specs.Prelude.{◌≡◌, IfOk, IfErr, OnOk, IsCharBoundary};
ghost use Rattle.fancy_regex.specs.SetLimits.{SetStays};
ghost use Rattle.fancy_regex_ffi_lists.specs.Lists.{config_at, matching_members, IsMemberError};

use crate::member::Member;
use fancy_regex::{RegexInput, RegexSet, RegexSetMatch, Result};
use std::alloc::Global;

/// The members of a set that match at the earliest place of the text, from the byte offset `position` on, at which one of them does,
/// in the order of their numbers; none if no member matches. `\G` matches at `position` if `continues`.
///
/// # Errors
///
/// `RuntimeError` if the search of a member exceeds a limit; `Memory` if memory runs out. The set can be used again.
pub fn set_members(
    alloc: Global,
    set: &RegexSet,
    text: &str,
    position: usize,
    continues: bool,
) -> Result<Vec<Member>>
    requires { IsCharBoundary text.now position }
    ensures members { IfOk result (λ members.
        members.items ≡ matching_members set.now.regexes.items text.now (config_at text.now position continues)) }
    ensures fails { IfErr result (IsMemberError set.now.regexes.items text.now (config_at text.now position continues)) }
    ensures stays { OnOk result (SetStays set.now.regexes.items text.now (config_at text.now position continues)) }
{
    let mut members = Vec::new(alloc);
    let Some(mut found) = set.find_input(alloc, input_at(text, position, continues))? else {
        return Ok(members);
    };
    while let Some(member) = found.next() {
        let member = member?;
        members.push(member_at(&member))?;
    }
    Ok(members)
}

/// The input of a search of the whole text from a byte offset on.
pub(crate) fn input_at(text: &str, position: usize, continues: bool) -> RegexInput<&str>
    requires { IsCharBoundary text.now position }
    ensures haystack { result.haystack ≡ text.entry }
    ensures config { result.config ≡ config_at text.entry.now position continues }
{
    RegexInput::new(text)
        .from_pos(position)
        .continue_from_previous_match_end(continues)
}

/// A member that matches, as C sees it.
fn member_at(found: &RegexSetMatch<'_, &str>) -> Member
    ensures { result ≡ record { pattern = found.now.pattern; start = found.now.matched.start; end = found.now.matched.end } }
{
    Member {
        pattern: found.pattern(),
        start: found.start(),
        end: found.end(),
    }
}
