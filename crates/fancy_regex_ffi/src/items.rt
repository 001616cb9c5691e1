//! All matches of a text, the pieces between them, and the text with its matches replaced.

ghost use Rattle.std.specs.Prelude.{◌≡◌, true, IfOk, IfErr, OnOk, IsUtf8, string_bytes};
ghost use Rattle.std.specs.Cow.{cow_str_bytes};
ghost use Rattle.fancy_regex.specs.IterationLimits.{IterationStays};
ghost use Rattle.fancy_regex.specs.ReplacedTexts.{replaced_in};
ghost use Rattle.fancy_regex.specs.TextMatches.{IsErrorOfSearch};
ghost use Rattle.fancy_regex_ffi.specs.Lists.{AreMatchSpans, ArePieceSpans, IsErrorBetween, IsReplacedText, OfRegex, listed};

use crate::contents::Subject;
use crate::fault::CallError;
use crate::query::text_of;
use fancy_regex::Regex;
use fancy_regex_ffi_lists::{Span, match_spans, piece_spans};
use std::alloc::Global;
use std::borrow::CowStr;

/// The spans of all matches, from left to right.
pub fn spans_of(
    alloc: Global,
    subject: &Subject,
    text: &[u8],
    is_utf8: bool,
) -> Result<Vec<Span>, CallError>
    requires { is_utf8 ≡ true → IsUtf8 text.now }
    ensures { OfRegex (AreMatchSpans text.now) subject.now (listed (λ spans. spans.items) result) }
{
    match subject {
        Subject::Regex(regex) => match text_of(text, is_utf8) {
            Ok(text) => Ok(match_spans(alloc, regex, text)?),
            Err(fault) => Err(fault),
        },
        Subject::Set(_) | Subject::Nothing => Err(CallError::NoRegex),
    }
}

/// The spans of all pieces between the matches, and of the rest after the last one, from left to right.
pub fn pieces_of(
    alloc: Global,
    subject: &Subject,
    text: &[u8],
    is_utf8: bool,
) -> Result<Vec<Span>, CallError>
    requires { is_utf8 ≡ true → IsUtf8 text.now }
    ensures { OfRegex (ArePieceSpans text.now) subject.now (listed (λ spans. spans.items) result) }
{
    match subject {
        Subject::Regex(regex) => match text_of(text, is_utf8) {
            Ok(text) => Ok(piece_spans(alloc, regex, text)?),
            Err(fault) => Err(fault),
        },
        Subject::Set(_) | Subject::Nothing => Err(CallError::NoRegex),
    }
}

/// The text with each match replaced by what the template stands for there.
pub fn replaced_of<'t>(
    alloc: Global,
    subject: &Subject,
    text: &'t [u8],
    is_utf8: bool,
    template: &[u8],
) -> Result<CowStr<'t>, CallError>
    requires { is_utf8 ≡ true → IsUtf8 text.now }
    ensures { OfRegex (IsReplacedText text.entry.now template.now) subject.now (listed (λ text. cow_str_bytes text) result) }
{
    match subject {
        Subject::Regex(regex) => {
            let text = text_of(text, is_utf8)?;
            let template = text_of(template, false)?;
            Ok(replaced_text(alloc, regex, text, template)?)
        }
        Subject::Set(_) | Subject::Nothing => Err(CallError::NoRegex),
    }
}

/// The text with each match replaced by what the template stands for there; the text itself if there is no match.
fn replaced_text<'t>(
    alloc: Global,
    regex: &Regex,
    text: &'t str,
    template: &str,
) -> fancy_regex::Result<CowStr<'t>>
    ensures text { IfOk result (λ v. cow_str_bytes v
        ≡ replaced_in regex.now.meta.options (string_bytes regex.now.meta.pattern) template.now text.entry.now) }
    ensures fails { IfErr result (IsErrorOfSearch regex.now.meta.options (string_bytes regex.now.meta.pattern) text.entry.now) }
    ensures stays { OnOk result (IterationStays regex.now.meta text.entry.now) }
    ensures passes { IfErr result (IsErrorBetween regex.now text.entry.now) }
{
    regex.replace_all(alloc, text, template)
}
