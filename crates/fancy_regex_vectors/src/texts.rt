//! Texts that matches are cut from or put into.

use crate::call::TextCall;
use crate::case::{Case, Question};
use crate::quoted::{append_quoted, put_error};
use fancy_regex::{Error, Expander, NoExpand, Regex, Result as Found, Split, SplitN};
use std::alloc::{AllocError, Global};
use std::borrow::CowStr;

/// Appends the answer of a call for texts.
pub fn append_text_call(
    alloc: Global,
    out: &mut String,
    case: &Case<'_>,
    regex: &Regex,
    question: Question<'_>,
    call: TextCall,
) -> Result<(), AllocError> {
    let (text, template, number) = (case.text, case.template, question.number);
    match call {
        TextCall::Split => append_pieces(alloc, out, regex.split(alloc, text)),
        TextCall::SplitN => append_some_pieces(alloc, out, regex.splitn(alloc, text, number)),
        TextCall::ReplaceN => {
            append_text(alloc, out, regex.replacen(alloc, text, number, template))
        }
        TextCall::NoExpand => append_text(
            alloc,
            out,
            regex.replacen(alloc, text, number, NoExpand(template)),
        ),
        TextCall::Expand => append_made(alloc, out, expanded(alloc, case, regex)),
        TextCall::Python => append_made(alloc, out, expanded_as_python(alloc, case, regex)),
        TextCall::Check => append_checked(
            alloc,
            out,
            Expander::default().check(alloc, template, regex),
        ),
    }
}

/// Appends the pieces of a split; the error alone if a search fails.
fn append_pieces(alloc: Global, out: &mut String, pieces: Split<'_, '_>) -> Result<(), AllocError> {
    for piece in pieces {
        match piece {
            Ok(piece) => append_quoted(out, piece)?,
            Err(error) => return put_error(alloc, out, &error),
        }
    }
    Ok(())
}

/// Appends the pieces of a split with a limit; the error alone if a search fails.
fn append_some_pieces(
    alloc: Global,
    out: &mut String,
    pieces: SplitN<'_, '_>,
) -> Result<(), AllocError> {
    for piece in pieces {
        match piece {
            Ok(piece) => append_quoted(out, piece)?,
            Err(error) => return put_error(alloc, out, &error),
        }
    }
    Ok(())
}

/// Appends a text that is perhaps the haystack itself.
pub fn append_text(
    alloc: Global,
    out: &mut String,
    text: Found<CowStr<'_>>,
) -> Result<(), AllocError> {
    match text {
        Ok(text) => append_quoted(out, text.as_str()),
        Err(error) => put_error(alloc, out, &error),
    }
}

/// Appends a text that was made.
fn append_made(alloc: Global, out: &mut String, text: Found<String>) -> Result<(), AllocError> {
    match text {
        Ok(text) => append_quoted(out, &text),
        Err(error) => put_error(alloc, out, &error),
    }
}

/// The template expanded on the first match.
fn expanded(alloc: Global, case: &Case<'_>, regex: &Regex) -> Result<String, Error> {
    match regex.captures(alloc, case.text)? {
        Some(groups) => {
            let mut text = String::new(alloc);
            groups.expand(alloc, case.template, &mut text)?;
            Ok(text)
        }
        None => Ok(String::new(alloc)),
    }
}

/// The template, in the form of Python, expanded on the first match.
fn expanded_as_python(alloc: Global, case: &Case<'_>, regex: &Regex) -> Result<String, Error> {
    match regex.captures(alloc, case.text)? {
        Some(groups) => Expander::python().expansion(alloc, case.template, &groups),
        None => Ok(String::new(alloc)),
    }
}

/// Appends `accepted` if a template has no error.
fn append_checked(alloc: Global, out: &mut String, checked: Found<()>) -> Result<(), AllocError> {
    match checked {
        Ok(()) => out.push_str("accepted"),
        Err(error) => put_error(alloc, out, &error),
    }
}
