//! The members of a set that match in a text, as lines.

ghost use Rattle.std.specs.Prelude.{◌≡◌, ◌≢◌, ◌++◌, IfOk, IfErr, OnOk, string_bytes};
ghost use Rattle.fancy_regex.specs.Error.TheVariants.{Memory};
ghost use Rattle.fancy_regex.specs.SearchInputs.{whole};
ghost use Rattle.fancy_regex.specs.SetLimits.{SetStays};
ghost use Rattle.fancy_search_text.specs.Members.{answer_in, member_line, member_lines, members_found, sources_of, IsErrorOfSet, IsFirstError};

use fancy_regex::{RegexInput, RegexSet, Result};
use std::alloc::{AllocError, Global};

/// A line for each member of the set that matches at the earliest position of the text at which one of them does, in the order
/// of their numbers: the number from 0, a space, and the span of its match. `RuntimeError` if the search of a member exceeds a
/// limit, or `Memory`.
pub fn member_lines(alloc: Global, set: &RegexSet, text: &str) -> Result<String>
    ensures lines { IfOk result (λ lines. string_bytes lines ≡ member_lines (members_found (answer_in (sources_of set.now) text.now))) }
    ensures fails { IfErr result (IsErrorOfSet (sources_of set.now) text.now) }
    ensures stays { OnOk result (SetStays set.now.regexes.items text.now (whole text.now)) }
    ensures passes { IfErr result (λ e. e ≢ Memory → IsFirstError set.now.regexes.items text.now e) }
{
    let mut lines = String::new(alloc);
    let Some(mut members) = set.find_input(alloc, RegexInput::new(text))? else {
        return Ok(lines);
    };
    while let Some(member) = members.next() {
        let member = member?;
        write_member(&mut lines, member.pattern(), member.start(), member.end())?;
    }
    Ok(lines)
}

/// Appends the line of a member: its number, a space, and its span as `START..END`.
fn write_member(
    lines: &mut String,
    number: usize,
    start: usize,
    end: usize,
) -> std::result::Result<(), AllocError>
    ensures { OnOk result (string_bytes lines.new ≡ string_bytes lines.old ++ member_line number (start, end)) }
{
    writeln!(lines, "{number} {start}..{end}")
}
