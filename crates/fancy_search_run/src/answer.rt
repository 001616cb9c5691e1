//! `Answer`: what a subcommand writes, and how its call ends. Each function here answers one subcommand for a text.

ghost use Rattle.std.specs.Prelude.{◌≡◌, ℕ, List, string_bytes};
ghost use Rattle.std.specs.Cow.{cow_str_bytes};
ghost use Rattle.fancy_search_run.specs.Answers.{IsAnswer, status_of_lines};
ghost use Rattle.fancy_search_run.specs.Requests.{regex_options};
ghost use Rattle.fancy_search_run.specs.declared.status.Status.TheVariants.{Done};
ghost use Rattle.fancy_search_words.specs.Requests.{command_of, texts_of};
ghost use Rattle.fancy_search_words.specs.Requests as commands;

use crate::fault::Fault;
use crate::pattern::{builder, regex, set};
use crate::status::Status;
use fancy_search_text::{
    group_lines, member_lines, piece_lines, printed_line, replaced_text, span_lines,
};
use fancy_search_words::{Arguments, Options, Subcommand};
use std::alloc::Global;
use std::borrow::CowStr;

/// What a subcommand writes, and the status of the call once it is written.
#[derive(Debug, Drop)]
pub struct Answer<'t> {
    /// The text to write.
    pub output: CowStr<'t>,
    /// The status.
    pub status: Status,
}

/// The answer of a subcommand for the text of the input, which `print` ignores. Faults: the pattern, a search; or `Memory`.
pub fn answer_for<'t>(
    alloc: Global,
    arguments: Arguments<'_>,
    text: &'t str,
) -> Result<Answer<'t>, Fault>
    ensures { IsAnswer (regex_options arguments.entry.options) (command_of arguments.entry.subcommand) text.entry.now result }
{
    let options = arguments.options;
    match arguments.subcommand {
        Subcommand::Find(pattern) => find(alloc, options, pattern, text),
        Subcommand::Captures(pattern) => captures(alloc, options, pattern, text),
        Subcommand::Split(pattern) => split(alloc, options, pattern, text),
        Subcommand::Replace { pattern, template } => {
            replace(alloc, options, pattern, template, text)
        }
        Subcommand::Print(pattern) => print(alloc, options, pattern),
        Subcommand::Set(patterns) => members(alloc, options, &patterns, text),
    }
}

/// The spans of all matches, a line for each.
fn find<'t>(
    alloc: Global,
    options: Options,
    pattern: &str,
    text: &'t str,
) -> Result<Answer<'t>, Fault>
    ensures { IsAnswer (regex_options options) (commands.find pattern.now) text.entry.now result }
{
    let regex = regex(alloc, options, pattern)?;
    Ok(found(span_lines(alloc, &regex, text)?))
}

/// The spans of all groups of all matches, a line for each match.
fn captures<'t>(
    alloc: Global,
    options: Options,
    pattern: &str,
    text: &'t str,
) -> Result<Answer<'t>, Fault>
    ensures { IsAnswer (regex_options options) (commands.captures pattern.now) text.entry.now result }
{
    let regex = regex(alloc, options, pattern)?;
    Ok(found(group_lines(alloc, &regex, text)?))
}

/// The members of the set of these patterns that match at the earliest position at which one of them does, a line for each.
fn members<'t>(
    alloc: Global,
    options: Options,
    patterns: &[&str],
    text: &'t str,
) -> Result<Answer<'t>, Fault>
    ensures { IsAnswer (regex_options options) (commands.set (texts_of patterns.now)) text.entry.now result }
{
    let set = set(alloc, options, patterns)?;
    Ok(found(member_lines(alloc, &set, text)?))
}

/// The answer with a line for each match; without lines nothing was found.
fn found<'t>(lines: String) -> Answer<'t>
    ensures output { cow_str_bytes result.output ≡ string_bytes lines }
    ensures status { result.status ≡ status_of_lines (string_bytes lines) }
{
    let status = if lines.is_empty() {
        Status::Nothing
    } else {
        Status::Done
    };
    Answer {
        output: CowStr::Owned(lines),
        status,
    }
}

/// The pieces between the matches, a line for each.
fn split<'t>(
    alloc: Global,
    options: Options,
    pattern: &str,
    text: &'t str,
) -> Result<Answer<'t>, Fault>
    ensures { IsAnswer (regex_options options) (commands.split pattern.now) text.entry.now result }
{
    let regex = regex(alloc, options, pattern)?;
    let lines = piece_lines(alloc, &regex, text)?;
    Ok(done(CowStr::Owned(lines)))
}

/// The text with each match replaced.
fn replace<'t>(
    alloc: Global,
    options: Options,
    pattern: &str,
    template: &str,
    text: &'t str,
) -> Result<Answer<'t>, Fault>
    ensures { IsAnswer (regex_options options) (commands.replace pattern.now template.now) text.entry.now result }
{
    let regex = regex(alloc, options, pattern)?;
    Ok(done(replaced_text(alloc, &regex, text, template)?))
}

/// The printed pattern. `Fault::NotReprinted` if it does not reprint.
fn print<'t>(alloc: Global, options: Options, pattern: &str) -> Result<Answer<'t>, Fault>
    ensures { (text : List ℕ) → IsAnswer (regex_options options) (commands.print pattern.now) text result }
{
    match printed_line(alloc, &builder(options), pattern)? {
        Some(line) => Ok(done(CowStr::Owned(line))),
        None => Err(Fault::NotReprinted),
    }
}

/// The answer with this text.
fn done(output: CowStr<'_>) -> Answer<'_>
    ensures output { result.output ≡ output.entry }
    ensures status { result.status ≡ Done }
{
    Answer {
        output,
        status: Status::Done,
    }
}
