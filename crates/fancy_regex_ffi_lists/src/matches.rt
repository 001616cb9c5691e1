//! The matches of a text, and the pieces between them, as spans.

ghost use Rattle.std.specs.Prelude.{◌≡◌, ◌≢◌, Some, IfOk, IfErr, OnOk, length, string_bytes};
ghost use Rattle.fancy_regex.specs.Error.TheVariants.{Memory};
ghost use Rattle.fancy_regex.specs.IterationErrors.{IsErrorOfIteration};
ghost use Rattle.fancy_regex.specs.IterationLimits.{IterationStays};
ghost use Rattle.fancy_regex.specs.TextMatches.{matches_of, IsErrorOfSearch};
ghost use Rattle.fancy_regex_ffi_lists.specs.Lists.{match_spans, gap_spans};
ghost use Rattle.fancy_regex_ffi_lists.specs.Spans.{span_of};

use crate::spans::Span;
use fancy_regex::{Match, Regex, Result};
use std::alloc::Global;

/// The span of each match of the text, from left to right.
///
/// # Errors
///
/// `RuntimeError` if a search exceeds a limit; `Memory` if memory runs out. The regex can be used again.
pub fn match_spans(alloc: Global, regex: &Regex, text: &str) -> Result<Vec<Span>>
    ensures spans { IfOk result (λ spans. spans.items ≡ match_spans (matches_of regex.now text.now)) }
    ensures fails { IfErr result (IsErrorOfSearch regex.now.meta.options (string_bytes regex.now.meta.pattern) text.now) }
    ensures stays { OnOk result (IterationStays regex.now.meta text.now) }
    ensures passes { IfErr result (λ e. e ≢ Memory → IsErrorOfIteration regex.now.meta text.now e) }
{
    let mut spans = Vec::new(alloc);
    let mut matches = regex.find_iter(alloc, text);
    while let Some(found) = matches.next() {
        spans.push(span_at(found?))?;
    }
    Ok(spans)
}

/// The span of a match.
fn span_at(found: Match<'_>) -> Span
    ensures { result ≡ span_of (Some (found.entry.start, found.entry.end)) }
{
    Span::of(Some((found.start(), found.end())))
}

/// The spans of the pieces of the text between its matches, and of the rest after the last one, from left to right.
///
/// # Errors
///
/// `RuntimeError` if a search exceeds a limit; `Memory` if memory runs out. The regex can be used again.
pub fn piece_spans(alloc: Global, regex: &Regex, text: &str) -> Result<Vec<Span>>
    ensures spans { IfOk result (λ spans. spans.items ≡ gap_spans 0 (length text.now) (matches_of regex.now text.now)) }
    ensures fails { IfErr result (IsErrorOfSearch regex.now.meta.options (string_bytes regex.now.meta.pattern) text.now) }
    ensures stays { OnOk result (IterationStays regex.now.meta text.now) }
    ensures passes { IfErr result (λ e. e ≢ Memory → IsErrorOfIteration regex.now.meta text.now e) }
{
    let mut spans = Vec::new(alloc);
    let mut start = 0;
    let mut matches = regex.find_iter(alloc, text);
    while let Some(found) = matches.next() {
        let found = found?;
        spans.push(Span {
            start,
            end: found.start(),
        })?;
        start = found.end();
    }
    spans.push(Span {
        start,
        end: text.len(),
    })?;
    Ok(spans)
}
