//! Checks against other regexes of the same pattern.

use crate::case::Case;
use crate::searches::found_span;
use fancy_regex::{CompileError, Error, Regex, RegexOptionsBuilder, Result, escape};
use fancy_regex_answers::answers;
use std::alloc::Global;

/// The regex of a pattern; none where only the cap refuses it.
fn variant(alloc: Global, options: &RegexOptionsBuilder, pattern: &str) -> Result<Option<Regex>> {
    match options.build(alloc, String::from_str(alloc, pattern)?) {
        Ok(regex) => Ok(Some(regex)),
        Err(Error::CompileError(CompileError::PatternTooComplex)) => Ok(None),
        Err(error) => Err(error),
    }
}

/// Whether the regex of another pattern or of other options has the same answers.
fn answers_alike(
    alloc: Global,
    case: Case<'_>,
    regex: &Regex,
    options: &RegexOptionsBuilder,
    pattern: &str,
) -> Result<bool> {
    let wanted = answers(alloc, regex, case.text)?;
    match variant(alloc, options, pattern)? {
        Some(other) => Ok(answers(alloc, &other, case.text)? == wanted),
        None => Ok(true),
    }
}

/// Whether the option `seek` changes nothing.
pub fn seeks_alike(alloc: Global, case: Case<'_>, regex: &Regex) -> Result<bool> {
    let mut options = case.setting.builder();
    options.seek(true);
    answers_alike(alloc, case, regex, &options, case.pattern)
}

/// Whether the printed pattern, if there is one, has the same answers.
pub fn reprints_alike(alloc: Global, case: Case<'_>, regex: &Regex) -> Result<bool> {
    match case.setting.builder().reprint(alloc, case.pattern)? {
        Some(printed) => {
            let options = case.setting.search_builder();
            answers_alike(alloc, case, regex, &options, &printed)
        }
        None => Ok(true),
    }
}

/// Whether the longest match ends where the first one ends, or after it, and there is one exactly where there is the other.
pub fn longest_ends_after(alloc: Global, case: Case<'_>, regex: &Regex) -> Result<bool> {
    let first = found_span(alloc, regex, case.text)?;
    let mut options = case.setting.builder();
    options.leftmost_longest(true);
    let Some(other) = variant(alloc, &options, case.pattern)? else {
        return Ok(true);
    };
    match (found_span(alloc, &other, case.text)?, first) {
        (Some((_, long)), Some((_, short))) => Ok(short <= long),
        (None, None) => Ok(true),
        _ => Ok(false),
    }
}

/// Whether the text as a pattern, escaped, finds the whole text.
pub fn finds_itself(alloc: Global, text: &str) -> Result<bool> {
    let escaped = escape(alloc, text)?;
    let regex = Regex::new(alloc, escaped.as_str())?;
    Ok(found_span(alloc, &regex, text)? == Some((0, text.len())))
}
