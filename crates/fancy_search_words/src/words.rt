//! `read_words`: parses the words, and turns what `clap` matched into the subcommand and its options.

ghost use Rattle.std.specs.Prelude.{◌≡◌, map, codes, option_map, option_and_then, Some, IfOk, IfErr};
ghost use Rattle.clap.specs.Matches.{found_of};
ghost use Rattle.clap.specs.Simple.{subcommand_rows_of};
ghost use Rattle.clap.specs.Values.{kind_of};
ghost use Rattle.clap.specs.Walk.{rows_of, all_of};
ghost use Rattle.fancy_search_words.specs.Requests as requests;
ghost use Rattle.fancy_search_words.specs.Requests.{requested, is_given, limit_of, options_of, request_of_subcommand, request_of_arguments, command_of, command_from, pattern_command_from, command_with, Refuses, IsRefusalFor};

use crate::arguments::{Arguments, Options, Subcommand};
use crate::command::command;
use crate::refusal::Refusal;
use clap::error::ErrorKind;
use clap::{ArgMatches, Error};
use std::alloc::{AllocError, Global};
use std::convert::AsStr;

/// Parses the words after the program's name. `Refusal::Help` if they request help and `Refusal::Words` if they do not parse,
/// each with the text of `clap`; `Refusal::Memory` if memory runs out.
pub fn read_words<'a, S: AsStr>(alloc: Global, words: &'a [S]) -> Result<Arguments<'a>, Refusal>
    ensures ok { IfOk result (λ a. requested (map S.text words.entry.now) ≡ Some (request_of_arguments a)) }
    ensures err { IfErr result (Refuses (map S.text words.entry.now)) }
{
    let mut command = command(alloc)?;
    let requested = match command.try_get_matches_from_mut(words) {
        Ok(matches) => arguments_from(alloc, &matches)?,
        Err(error) => return Err(refusal(alloc, &error)),
    };
    match requested {
        Some(requested) => Ok(requested),
        // `clap` has already refused words without a subcommand or a pattern.
        None => {
            let missing = "a subcommand and a pattern are required";
            let error = command.error(ErrorKind::MissingSubcommand, missing)?;
            Err(refusal(alloc, &error))
        }
    }
}

/// The subcommand and the options that `clap` matched; `None` if the subcommand is unknown or an argument of it is missing.
/// Fails only if memory runs out.
fn arguments_from<'a>(
    alloc: Global,
    matches: &ArgMatches<'a>,
) -> Result<Option<Arguments<'a>>, AllocError>
    ensures { IfOk result (λ found. option_map request_of_arguments found
        ≡ option_and_then request_of_subcommand (subcommand_rows_of matches.now)) }
{
    let Some((name, found)) = matches.subcommand() else {
        return Ok(None);
    };
    let Some(subcommand) = subcommand(alloc, name, found)? else {
        return Ok(None);
    };
    Ok(Some(Arguments {
        subcommand,
        options: options(found),
    }))
}

/// The subcommand with this name and the arguments that were matched for it; `None` if there is none of this name or an
/// argument is missing. Fails only if memory runs out.
fn subcommand<'a>(
    alloc: Global,
    name: &str,
    found: &ArgMatches<'a>,
) -> Result<Option<Subcommand<'a>>, AllocError>
    ensures { IfOk result (λ made. option_map command_of made ≡ command_from name.now (rows_of (found_of found.now))) }
{
    if name == "set" {
        return set_of(alloc, found);
    }
    Ok(pattern_subcommand(name, found))
}

/// The subcommand `set` with the patterns that were matched; `None` if there are none. Fails only if memory runs out.
fn set_of<'a>(alloc: Global, found: &ArgMatches<'a>) -> Result<Option<Subcommand<'a>>, AllocError>
    ensures { IfOk result (λ made. option_map command_of made
        ≡ option_map requests.set (all_of (codes "patterns") (rows_of (found_of found.now)))) }
{
    let Some(patterns) = found.get_strs("patterns") else {
        return Ok(None);
    };
    let mut copied = Vec::new(alloc);
    copied.extend_from_slice(patterns)?;
    Ok(Some(Subcommand::Set(copied)))
}

/// The subcommand with this name that takes one pattern, and the arguments that were matched for it; `None` if there is none of
/// this name or an argument is missing.
fn pattern_subcommand<'a>(name: &str, found: &ArgMatches<'a>) -> Option<Subcommand<'a>>
    ensures { option_map command_of result ≡ pattern_command_from name.now (rows_of (found_of found.now)) }
{
    let pattern = found.get_str("pattern")?;
    subcommand_with(name, pattern, found.get_str("template"))
}

/// The subcommand with this name, pattern and template; `None` if there is none of this name or it needs a template and there is
/// none.
fn subcommand_with<'a>(
    name: &str,
    pattern: &'a str,
    template: Option<&'a str>,
) -> Option<Subcommand<'a>>
    ensures { option_map command_of result ≡ command_with name.now pattern.entry.now (option_map (λ t. t.now) template.entry) }
{
    match name {
        "find" => Some(Subcommand::Find(pattern)),
        "captures" => Some(Subcommand::Captures(pattern)),
        "split" => Some(Subcommand::Split(pattern)),
        "replace" => Some(Subcommand::Replace {
            pattern,
            template: template?,
        }),
        "print" => Some(Subcommand::Print(pattern)),
        _ => None,
    }
}

/// The options that `clap` matched.
fn options(found: &ArgMatches<'_>) -> Options
    ensures { result ≡ options_of (rows_of (found_of found.now)) }
{
    Options {
        case_insensitive: is_set(found, "case_insensitive"),
        multi_line: is_set(found, "multi_line"),
        dot_matches_new_line: is_set(found, "dot_matches_new_line"),
        ignore_whitespace: is_set(found, "ignore_whitespace"),
        ascii: is_set(found, "ascii"),
        oniguruma: is_set(found, "oniguruma"),
        not_empty: is_set(found, "not_empty"),
        longest: is_set(found, "longest"),
        limit: limit(found),
    }
}

/// Whether the flag was given.
#[tactic(auto, using(crate::proofs::Rows::given_some, crate::proofs::Rows::given_none))]
fn is_set(found: &ArgMatches<'_>, id: &str) -> bool
    ensures { result ≡ is_given id.now (rows_of (found_of found.now)) }
{
    match found.get_str(id) {
        Some(value) => value == "true",
        None => false,
    }
}

/// The number of `--limit`; `None` if it was not given.
fn limit(found: &ArgMatches<'_>) -> Option<u64>
    ensures { result ≡ limit_of (rows_of (found_of found.now)) }
{
    found.get_one::<u64>("limit")
}

/// The refusal for an error of `clap`, with its text.
fn refusal(alloc: Global, error: &Error) -> Refusal
    ensures { IsRefusalFor (kind_of error.now) result }
{
    let Ok(text) = error.to_string(alloc) else {
        return Refusal::Memory;
    };
    match error.kind() {
        ErrorKind::OutOfMemory => Refusal::Memory,
        ErrorKind::DisplayHelp => Refusal::Help(text),
        _ => Refusal::Words(text),
    }
}
