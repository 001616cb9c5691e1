//! The regex of a pattern and the options that the words give.

ghost use Rattle.std.specs.Prelude.{◌≡◌, IfOk, IfErr, string_bytes};
ghost use Rattle.fancy_regex.specs.Caps.{MetaKeepsCap};
ghost use Rattle.fancy_regex.specs.Refusals.{Accepts, Refuses};
ghost use Rattle.fancy_regex.specs.SetMembers.{AreBuiltOf, RefusesPatterns};
ghost use Rattle.fancy_search_words.specs.Requests.{texts_of};
ghost use Rattle.fancy_search_run.specs.Requests.{regex_options};

use fancy_regex::{Regex, RegexOptionsBuilder, RegexSet, Result};
use fancy_search_words::Options;
use std::alloc::Global;

/// Compiles the pattern with the options that the words give. `ParseError` if it is no pattern, `CompileError` if it is
/// refused, `Memory` if memory runs out.
pub fn regex(alloc: Global, options: Options, pattern: &str) -> Result<Regex>
    ensures pattern { IfOk result (λ regex. string_bytes regex.meta.pattern ≡ pattern.now) }
    ensures options { IfOk result (λ regex. regex.meta.options ≡ regex_options options) }
    ensures cap { IfOk result (λ regex. MetaKeepsCap regex.meta) }
    ensures accepted { IfOk result (λ _. Accepts (regex_options options) pattern.now) }
    ensures refused { IfErr result (Refuses (regex_options options) pattern.now) }
{
    let pattern = String::from_str(alloc, pattern)?;
    builder(options).build(alloc, pattern)
}

/// Compiles the patterns as a set with the options that the words give. `ParseError` if one is no pattern, `CompileError` if one
/// is refused, `Memory` if memory runs out.
pub fn set(alloc: Global, options: Options, patterns: &[&str]) -> Result<RegexSet>
    ensures members { IfOk result (λ set. AreBuiltOf (regex_options options) (texts_of patterns.now) set.regexes.items) }
    ensures refused { IfErr result (RefusesPatterns (regex_options options) (texts_of patterns.now)) }
{
    RegexSet::new_with_options(alloc, patterns, &builder(options))
}

/// The builder with these options; the others keep their defaults.
pub fn builder(options: Options) -> RegexOptionsBuilder
    ensures { result.options ≡ regex_options options }
{
    let mut builder = RegexOptionsBuilder::new();
    builder
        .case_insensitive(options.case_insensitive)
        .multi_line(options.multi_line)
        .dot_matches_new_line(options.dot_matches_new_line)
        .ignore_whitespace(options.ignore_whitespace)
        .unicode_mode(!options.ascii)
        .oniguruma_mode(options.oniguruma)
        .find_not_empty(options.not_empty)
        .leftmost_longest(options.longest);
    if let Some(limit) = options.limit {
        builder.backtrack_limit(limit as usize);
    }
    builder
}
