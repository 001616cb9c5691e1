//! What is said of a pattern, or of a text for one, without a search.

use crate::byte_sets::append_bytes;
use crate::call::PatternCall;
use crate::case::{Case, kept_options};
use crate::quoted::{append_quoted, put_error};
use crate::texts::append_text;
use fancy_regex::{ByteSet, Error, Expander, Regex, Result as Found, escape};
use fancy_regex_answers::answers;
use std::alloc::{AllocError, Global};
use std::fmt::Write;

/// Appends the answer of a call on a pattern.
pub fn append_pattern_call(
    alloc: Global,
    out: &mut String,
    case: &Case<'_>,
    call: PatternCall,
) -> Result<(), AllocError> {
    let (options, pattern, text) = (&case.options, case.pattern, case.text);
    match call {
        PatternCall::StartBytes => {
            append_start_bytes(alloc, out, options.start_bytes(alloc, pattern))
        }
        PatternCall::RequiredBytes => {
            append_required_bytes(alloc, out, options.required_bytes(alloc, pattern))
        }
        PatternCall::Reprint => append_reprinted(alloc, out, options.reprint(alloc, pattern)),
        PatternCall::Escape => append_text(alloc, out, escape(alloc, text)),
        PatternCall::ExpanderEscape => {
            append_text(alloc, out, Expander::default().escape(alloc, text))
        }
    }
}

/// Appends the bytes that the matches of a pattern start with, or `none` if they are not known.
fn append_start_bytes(
    alloc: Global,
    out: &mut String,
    set: Found<Option<ByteSet>>,
) -> Result<(), AllocError> {
    match set {
        Ok(Some(set)) => append_bytes(out, &set),
        Ok(None) => out.push_str("none"),
        Err(error) => put_error(alloc, out, &error),
    }
}

/// Appends the bytes that each text has in which a pattern matches.
fn append_required_bytes(
    alloc: Global,
    out: &mut String,
    set: Found<ByteSet>,
) -> Result<(), AllocError> {
    match set {
        Ok(set) => append_bytes(out, &set),
        Err(error) => put_error(alloc, out, &error),
    }
}

/// Appends the printed text of a pattern, or `none`.
fn append_reprinted(
    alloc: Global,
    out: &mut String,
    printed: Found<Option<String>>,
) -> Result<(), AllocError> {
    match printed {
        Ok(Some(text)) => append_quoted(out, &text),
        Ok(None) => out.push_str("none"),
        Err(error) => put_error(alloc, out, &error),
    }
}

/// Appends `alike` if all searches by a regex of the printed text have the answers that they have by the regex, else the answers of
/// both.
pub fn append_reprinted_answers(
    alloc: Global,
    out: &mut String,
    case: &Case<'_>,
    regex: &Regex,
) -> Result<(), AllocError> {
    match answers(alloc, regex, case.text) {
        Ok(wanted) => append_comparison(alloc, out, &wanted, reprinted_answers(alloc, case)),
        Err(error) => put_error(alloc, out, &error),
    }
}

/// Appends `alike` if these answers are those that are wanted, else both; the text of the error if there are none.
fn append_comparison(
    alloc: Global,
    out: &mut String,
    wanted: &str,
    found: Found<String>,
) -> Result<(), AllocError> {
    match found {
        Ok(found) if found.as_str() == wanted => out.push_str("alike"),
        Ok(found) => write!(out, "{wanted}\nprinted:{found}"),
        Err(error) => put_error(alloc, out, &error),
    }
}

/// The answers of all searches by a regex of the printed text; an empty text if the pattern does not reprint.
fn reprinted_answers(alloc: Global, case: &Case<'_>) -> Result<String, Error> {
    match case.options_to_build().reprint(alloc, case.pattern)? {
        Some(printed) => kept_answers(alloc, case, printed),
        None => Ok(String::new(alloc)),
    }
}

/// The answers of all searches by a regex of this pattern, with the options that a printed text keeps.
fn kept_answers(alloc: Global, case: &Case<'_>, pattern: String) -> Result<String, Error> {
    let regex = kept_options(case.row.letters)
        .seek(case.seek)
        .build(alloc, pattern)?;
    answers(alloc, &regex, case.text)
}
