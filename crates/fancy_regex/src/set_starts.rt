//! The start table of a set: which of its members may match at a place, by the byte there.

ghost use Rattle.std.specs.Prelude.{◌≡◌, IfOk, IfErr, IfSome, List, map};
ghost use Rattle.fancy_regex_search.specs.SeekTables.{marked};
ghost use Rattle.fancy_regex_search.specs.Error.TheVariants.{Memory};
ghost use Rattle.fancy_regex_search.specs.declared.regex.Regex.{Regex};
ghost use Rattle.fancy_regex.specs.ByteSetLaws.{FindsOnlyIn};
ghost use Rattle.fancy_regex.specs.SetMembers.{AreBuiltOf};
ghost use Rattle.fancy_regex.specs.SetStarts.{HaveStarts, PassesOver};

use crate::options_builder::RegexOptionsBuilder;
use crate::start_table::{StartBytes, StartTable};
use fancy_regex_search::{Error, Result};
use std::alloc::Global;

/// The bytes that the matches of a pattern start with; `None` where they are not known, and where `regex` rejects a class of the
/// pattern, as that may stand in a part that is repeated no times. The error is `Memory`.
fn known_starts(
    alloc: Global,
    pattern: &str,
    options: &RegexOptionsBuilder,
) -> Result<Option<StartBytes>>
    ensures starts { IfOk result (λ found. IfSome found (λ table. FindsOnlyIn options.now.options pattern.now (marked table))) }
    ensures memory { IfErr result (λ e. e ≡ Memory) }
{
    match options.start_bytes(alloc, pattern) {
        Ok(Some(set)) => Ok(Some(*set.table())),
        Ok(None) => Ok(None),
        Err(Error::Memory) => Err(Error::Memory),
        Err(_) => Ok(None),
    }
}

/// Of each pattern the bytes that its matches start with, if they are known. The error is `Memory`.
fn all_known_starts(
    alloc: Global,
    patterns: &[&str],
    options: &RegexOptionsBuilder,
) -> Result<Vec<Option<StartBytes>>>
    ensures starts { IfOk result (λ members. HaveStarts options.now.options (map (λ p. p.now) patterns.now) members.items) }
    ensures memory { IfErr result (λ e. e ≡ Memory) }
{
    let mut members = Vec::new(alloc);
    for pattern in patterns {
        members.push(known_starts(alloc, pattern, options)?)?;
    }
    Ok(members)
}

/// The start table of the regexes that are built of the patterns with these options. The error is `Memory`.
pub(crate) fn start_table(
    alloc: Global,
    patterns: &[&str],
    options: &RegexOptionsBuilder,
) -> Result<StartTable>
    ensures passes { IfOk result (λ table. (regexes : List Regex) →
        AreBuiltOf options.now.options (map (λ p. p.now) patterns.now) regexes → PassesOver regexes table) }
    ensures memory { IfErr result (λ e. e ≡ Memory) }
{
    let members = all_known_starts(alloc, patterns, options)?;
    Ok(StartTable::new(alloc, &members)?)
}
