//! The program's command line as a `clap` command: the subcommands, each with its arguments and all options, and the help texts.
//! Every function fails only if memory runs out.

ghost use Rattle.std.specs.Prelude.{◌≡◌, false, IfOk};
ghost use Rattle.clap.specs.Words.{app_of, rule_of, new_app, with_rule, with_subcommand};
ghost use Rattle.clap.specs.declared.builder.command.Command.TheViews.{out-Command};
ghost use Rattle.fancy_search_words.specs.CommandLine as rules;
ghost use Rattle.fancy_search_words.specs.CommandLine.{the_app, short_rule, long_rule, limit_rule, pattern_rule, patterns_rule, template_rule};

use clap::builder::ValueParser;
use clap::{Arg, ArgAction, Command};
use std::alloc::{AllocError, Global};

/// The program's name.
const NAME: &str = "fancy_search";

const ABOUT: &str =
    "Finds, splits at or replaces the matches of a pattern in the text on standard input.";

const USES: &str = "\
Examples:
  fancy_search find 'ab|b'
  fancy_search captures -i '(?<year>\\d{4})-(?<month>\\d{2})'
  fancy_search split ',\\s*'
  fancy_search replace '(\\w+) (\\w+)' '$2 $1'
  fancy_search print '(?:a|b)c'
  fancy_search set '\\d+' '\\w+'
  fancy_search find -- '-a'

Status:
  0  done, or this help
  1  find, captures or set found nothing
  2  a fault, told on standard error";

const FIND: &str =
    "Prints the span of each match, in bytes, as START..END, a line for each. Example: find 'a+'";

const CAPTURES: &str =
    "Prints a line for each match: the spans of all groups in order, - for a group that is not set. Example: captures '(a)|(b)'";

const SPLIT: &str =
    "Prints each piece of the input between the matches, a line for each: its length in bytes, a colon and the piece. \
    Example: split ',\\s*'";

const REPLACE: &str =
    "Prints the input with each match replaced by the template, where $1 or ${name} is the text of a group. Example: replace '(a)b' '$1'";

const PRINT: &str =
    "Prints the pattern as one that means the same without -i, -m, -s, -x and --oniguruma, and reads no input. Example: print -i a";

const SET: &str =
    "Prints the patterns that match at the earliest place where one of them does, a line for each: \
    its number, from 0, and its span. Example: set '\\d+' '\\w+'";

const PATTERNS: &str = "The patterns, one or more. Those that begin with - stand after --";

const TEMPLATE: &str = "The template. One that begins with - stands after --";

const PATTERN: &str = "The pattern. One that begins with - stands after --";

const CASE_INSENSITIVE: &str = "Takes upper and lower case for the same. Example: find -i 'straße'";

const MULTI_LINE: &str =
    "Lets ^ and $ stand at the start and the end of each line. Example: find -m '^a'";

const DOT_MATCHES_NEW_LINE: &str = "Lets . match a newline too. Example: find -s 'a.b'";

const IGNORE_WHITESPACE: &str =
    "Skips blanks, and comments from # on, in the pattern. Example: find -x 'a b # ab'";

const ASCII: &str = "Takes classes and cases by ASCII alone. Example: find --ascii '\\w+'";

const ONIGURUMA: &str =
    "Reads \\<, \\>, reversed counts and repeated quantifiers as Oniguruma does, and nothing else. Example: find --oniguruma '\\<\\w*\\>'";

const NOT_EMPTY: &str = "Finds no empty match. Example: find --not-empty 'a*'";

const LONGEST: &str =
    "Finds the longest match at each place, and not the first. Example: find --longest 'a|ab'";

const LIMIT: &str =
    "Ends in a fault where a search goes back more often than N times; 1000000 if left out. Example: find --limit 100 '(a|aa)+\\1'";

/// The command of the program, for the words after the program's name.
pub fn command<'a>(alloc: Global) -> Result<Command<'a>, AllocError>
    ensures { IfOk result (λ c. app_of c ≡ the_app) }
{
    let search = with_searches(alloc, top(alloc)?)?;
    let replace = with_replace(alloc, search)?;
    let print = with_pattern_subcommand(alloc, replace, "print", PRINT)?;
    with_set(alloc, print)
}

/// The command with the subcommand `replace`.
fn with_replace<'a>(alloc: Global, command: Command<'a>) -> Result<Command<'a>, AllocError>
    ensures { IfOk result (λ c. app_of c ≡ with_subcommand (app_of command.entry) rules.replace_subcommand.top) }
{
    let subcommand = replace_subcommand(alloc)?;
    joined(command, subcommand)
}

/// The command with the subcommand `set`.
fn with_set<'a>(alloc: Global, command: Command<'a>) -> Result<Command<'a>, AllocError>
    ensures { IfOk result (λ c. app_of c ≡ with_subcommand (app_of command.entry) rules.set_subcommand.top) }
{
    let subcommand = set_subcommand(alloc)?;
    joined(command, subcommand)
}

/// The command with the subcommands that search with a pattern: `find`, `captures`, `split`.
fn with_searches<'a>(alloc: Global, command: Command<'a>) -> Result<Command<'a>, AllocError>
    ensures { IfOk result (λ c. app_of c ≡ rules.with_searches (app_of command.entry)) }
{
    let find = with_pattern_subcommand(alloc, command, "find", FIND)?;
    let captures = with_pattern_subcommand(alloc, find, "captures", CAPTURES)?;
    with_pattern_subcommand(alloc, captures, "split", SPLIT)
}

/// The command with one more subcommand, which has a pattern and all options.
fn with_pattern_subcommand<'a>(
    alloc: Global,
    command: Command<'a>,
    name: &'a str,
    about: &'a str,
) -> Result<Command<'a>, AllocError>
    ensures { IfOk result (λ c. app_of c ≡ rules.with_pattern_subcommand (app_of command.entry) name.entry.now) }
{
    let subcommand = pattern_subcommand(alloc, name, about)?;
    joined(command, subcommand)
}

/// The command without its subcommands. Usage lines begin with the program's name, which is none of the words.
fn top<'a>(alloc: Global) -> Result<Command<'a>, AllocError>
    ensures app { IfOk result (λ c. app_of c ≡ rules.top) }
{
    Command::new(alloc, NAME)
        .no_binary_name(true)
        .subcommand_required(true)
        .about(ABOUT)
        .after_help(USES)
        .bin_name(NAME)
}

/// The command with one more subcommand.
fn joined<'a>(command: Command<'a>, subcommand: Command<'a>) -> Result<Command<'a>, AllocError>
    requires { (out-Command subcommand).has_globals ≡ false }
    ensures { IfOk result (λ c. app_of c ≡ with_subcommand (app_of command.entry) (app_of subcommand.entry).top) }
{
    command.subcommand(subcommand)
}

/// A subcommand with a pattern and all options.
fn pattern_subcommand<'a>(
    alloc: Global,
    name: &'a str,
    about: &'a str,
) -> Result<Command<'a>, AllocError>
    ensures app { IfOk result (λ c. app_of c ≡ rules.pattern_subcommand name.entry.now) }
    ensures local { IfOk result (λ c. (out-Command c).has_globals ≡ false) }
{
    with_options(alloc, with(bare(alloc, name, about), pattern(alloc))?)
}

/// The subcommand `replace`, with a pattern, a template and all options.
fn replace_subcommand<'a>(alloc: Global) -> Result<Command<'a>, AllocError>
    ensures app { IfOk result (λ c. app_of c ≡ rules.replace_subcommand) }
    ensures local { IfOk result (λ c. (out-Command c).has_globals ≡ false) }
{
    let pattern = with(bare(alloc, "replace", REPLACE), pattern(alloc))?;
    with_options(alloc, with(pattern, template(alloc))?)
}

/// The subcommand `set`, with patterns and all options.
fn set_subcommand<'a>(alloc: Global) -> Result<Command<'a>, AllocError>
    ensures app { IfOk result (λ c. app_of c ≡ rules.set_subcommand) }
    ensures local { IfOk result (λ c. (out-Command c).has_globals ≡ false) }
{
    with_options(alloc, with(bare(alloc, "set", SET), patterns(alloc))?)
}

/// The command with all options.
fn with_options<'a>(alloc: Global, command: Command<'a>) -> Result<Command<'a>, AllocError>
    requires { (out-Command command).has_globals ≡ false }
    ensures app { IfOk result (λ c. app_of c ≡ rules.with_options (app_of command.entry)) }
    ensures local { IfOk result (λ c. (out-Command c).has_globals ≡ false) }
{
    let flagged = with_short_options(alloc, command)?;
    with_long_options(alloc, flagged)
}

/// A command without arguments.
fn bare<'a>(alloc: Global, name: &'a str, about: &'a str) -> Command<'a>
    ensures app { app_of result ≡ new_app name.entry.now }
    ensures local { (out-Command result).has_globals ≡ false }
{
    Command::new(alloc, name).about(about)
}

/// The command with one more argument.
fn with<'a>(command: Command<'a>, arg: Arg<'a>) -> Result<Command<'a>, AllocError>
    requires arg { arg.global ≡ false }
    requires command { (out-Command command).has_globals ≡ false }
    ensures app { IfOk result (λ c. app_of c ≡ with_rule (app_of command.entry) (rule_of arg.entry)) }
    ensures local { IfOk result (λ c. (out-Command c).has_globals ≡ false) }
{
    command.arg(arg)
}

/// The command with the options that have inline flags in a pattern too: `-i`, `-m`, `-s`, `-x`.
fn with_short_options<'a>(alloc: Global, command: Command<'a>) -> Result<Command<'a>, AllocError>
    requires { (out-Command command).has_globals ≡ false }
    ensures app { IfOk result (λ c. app_of c ≡ rules.with_short_options (app_of command.entry)) }
    ensures local { IfOk result (λ c. (out-Command c).has_globals ≡ false) }
{
    let one = with_letter(alloc, command, "case_insensitive", 'i', CASE_INSENSITIVE)?;
    let two = with_letter(alloc, one, "multi_line", 'm', MULTI_LINE)?;
    let three = with_letter(
        alloc,
        two,
        "dot_matches_new_line",
        's',
        DOT_MATCHES_NEW_LINE,
    )?;
    with_letter(alloc, three, "ignore_whitespace", 'x', IGNORE_WHITESPACE)
}

/// The command with the options that have a long name: `--ascii`, `--oniguruma`, `--not-empty`, `--longest`, `--limit`.
fn with_long_options<'a>(alloc: Global, command: Command<'a>) -> Result<Command<'a>, AllocError>
    requires { (out-Command command).has_globals ≡ false }
    ensures app { IfOk result (λ c. app_of c ≡ rules.with_long_options (app_of command.entry)) }
    ensures local { IfOk result (λ c. (out-Command c).has_globals ≡ false) }
{
    let flagged = with_long_flags(alloc, command)?;
    with(flagged, limit(alloc))
}

/// The command with the flags that have a long name: `--ascii`, `--oniguruma`, `--not-empty`, `--longest`.
fn with_long_flags<'a>(alloc: Global, command: Command<'a>) -> Result<Command<'a>, AllocError>
    requires { (out-Command command).has_globals ≡ false }
    ensures app { IfOk result (λ c. app_of c ≡ rules.with_long_flags (app_of command.entry)) }
    ensures local { IfOk result (λ c. (out-Command c).has_globals ≡ false) }
{
    let one = with_name(alloc, command, "ascii", "ascii", ASCII)?;
    let two = with_name(alloc, one, "oniguruma", "oniguruma", ONIGURUMA)?;
    let three = with_name(alloc, two, "not_empty", "not-empty", NOT_EMPTY)?;
    with_name(alloc, three, "longest", "longest", LONGEST)
}

/// The command with one more flag, which has a short name of one letter.
fn with_letter<'a>(
    alloc: Global,
    command: Command<'a>,
    id: &'a str,
    short: char,
    help: &'a str,
) -> Result<Command<'a>, AllocError>
    requires { (out-Command command).has_globals ≡ false }
    ensures app { IfOk result (λ c. app_of c ≡ with_rule (app_of command.entry) (short_rule id.entry.now short)) }
    ensures local { IfOk result (λ c. (out-Command c).has_globals ≡ false) }
{
    with(command, letter(alloc, id, short, help))
}

/// The command with one more flag, which has a long name.
fn with_name<'a>(
    alloc: Global,
    command: Command<'a>,
    id: &'a str,
    name: &'a str,
    help: &'a str,
) -> Result<Command<'a>, AllocError>
    requires { (out-Command command).has_globals ≡ false }
    ensures app { IfOk result (λ c. app_of c ≡ with_rule (app_of command.entry) (long_rule id.entry.now name.entry.now)) }
    ensures local { IfOk result (λ c. (out-Command c).has_globals ≡ false) }
{
    with(command, named(alloc, id, name, help))
}

/// The positional argument: the pattern.
fn pattern<'a>(alloc: Global) -> Arg<'a>
    ensures rule { rule_of result ≡ pattern_rule }
    ensures local { result.global ≡ false }
{
    Arg::new(alloc, "pattern")
        .value_name("PATTERN")
        .required(true)
        .help(PATTERN)
}

/// The positional argument of `set`: one pattern or more.
fn patterns<'a>(alloc: Global) -> Arg<'a>
    ensures rule { rule_of result ≡ patterns_rule }
    ensures local { result.global ≡ false }
{
    Arg::new(alloc, "patterns")
        .value_name("PATTERN")
        .num_args(1..)
        .required(true)
        .help(PATTERNS)
}

/// The positional argument of `replace` after the pattern: the template.
fn template<'a>(alloc: Global) -> Arg<'a>
    ensures rule { rule_of result ≡ template_rule }
    ensures local { result.global ≡ false }
{
    Arg::new(alloc, "template")
        .value_name("TEMPLATE")
        .required(true)
        .help(TEMPLATE)
}

/// A flag with a short name of one letter.
fn letter<'a>(alloc: Global, id: &'a str, letter: char, help: &'a str) -> Arg<'a>
    ensures rule { rule_of result ≡ short_rule id.entry.now letter }
    ensures local { result.global ≡ false }
{
    Arg::new(alloc, id)
        .short(letter)
        .action(ArgAction::SetTrue)
        .help(help)
}

/// A flag with a long name.
fn named<'a>(alloc: Global, id: &'a str, name: &'a str, help: &'a str) -> Arg<'a>
    ensures rule { rule_of result ≡ long_rule id.entry.now name.entry.now }
    ensures local { result.global ≡ false }
{
    Arg::new(alloc, id)
        .long(name)
        .action(ArgAction::SetTrue)
        .help(help)
}

/// The option `--limit` with its number.
fn limit<'a>(alloc: Global) -> Arg<'a>
    ensures rule { rule_of result ≡ limit_rule }
    ensures local { result.global ≡ false }
{
    Arg::new(alloc, "limit")
        .long("limit")
        .value_name("N")
        .value_parser(ValueParser::unsigned(0, u64::MAX))
        .help(LIMIT)
}
