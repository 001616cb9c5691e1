//! The matches of a regex in a text, as lines. Offsets are in bytes, in decimal digits.

ghost use Rattle.std.specs.Prelude.{◌≡◌, ◌≢◌, ◌≤◌, ◌+◌, ◌++◌, IfOk, IfErr, OnOk, codes, drop, length, replicate, string_bytes, take};
ghost use Rattle.fancy_regex.specs.Error.TheVariants.{Memory};
ghost use Rattle.fancy_regex.specs.IterationErrors.{IsErrorOfIteration};
ghost use Rattle.fancy_regex.specs.IterationLimits.{IterationStays};
ghost use Rattle.fancy_regex.specs.Ways.{Pairs};
ghost use Rattle.fancy_search_text.specs.Lines.{span_lines, group_lines, groups_text, span_text};
ghost use Rattle.fancy_regex.specs.TextMatches.{matches_of, IsErrorOfSearch};
ghost use Rattle.fancy_search_text.specs.Spans.{AreGroupSpans};

use fancy_regex::{Captures, Match, Regex, Result, laws_of_items};
use itoa::write_digits;
use std::alloc::{AllocError, Global};

/// A line `START..END` for each match in the text. `RuntimeError` if a search exceeds a limit, or `Memory`.
pub fn span_lines(alloc: Global, regex: &Regex, text: &str) -> Result<String>
    ensures lines { IfOk result (λ lines. string_bytes lines ≡ span_lines (matches_of regex.now text.now)) }
    ensures fails { IfErr result (IsErrorOfSearch regex.now.meta.options (string_bytes regex.now.meta.pattern) text.now) }
    ensures stays { OnOk result (IterationStays regex.now.meta text.now) }
    ensures passes { IfErr result (λ e. e ≢ Memory → IsErrorOfIteration regex.now.meta text.now e) }
{
    let mut lines = String::new(alloc);
    let mut matches = regex.find_iter(alloc, text);
    while let Some(found) = matches.next() {
        write_span_line(&mut lines, found?)?;
    }
    Ok(lines)
}

/// A line for each match in the text, with the spans of all its groups, and `-` for a group that did not participate.
/// `RuntimeError` if a search exceeds a limit, or `Memory`.
pub fn group_lines(alloc: Global, regex: &Regex, text: &str) -> Result<String>
    ensures lines { IfOk result (λ lines. string_bytes lines ≡ group_lines (matches_of regex.now text.now)) }
    ensures fails { IfErr result (IsErrorOfSearch regex.now.meta.options (string_bytes regex.now.meta.pattern) text.now) }
    ensures stays { OnOk result (IterationStays regex.now.meta text.now) }
    ensures passes { IfErr result (λ e. e ≢ Memory → IsErrorOfIteration regex.now.meta text.now e) }
{
    laws_of_items();
    let mut lines = String::new(alloc);
    let mut matches = regex.captures_iter(alloc, text);
    while let Some(found) = matches.next() {
        write_groups(&mut lines, &found?)?;
        lines.push('\n')?;
    }
    Ok(lines)
}

/// Appends the spans of the groups in order, separated by a space, with `-` for a group that did not participate.
fn write_groups(
    line: &mut String,
    groups: &Captures<'_, &str>,
) -> std::result::Result<(), AllocError>
    ensures { OnOk result ((spans : Pairs) → AreGroupSpans groups.now.haystack.now groups.now.slots.items spans
        → string_bytes line.new ≡ string_bytes line.old ++ groups_text spans) }
{
    for group in 0..groups.len() {
        if group > 0 {
            line.push(' ')?;
        }
        match groups.get(group) {
            Some(found) => write_span(line, found)?,
            None => line.push('-')?,
        }
    }
    Ok(())
}

/// The most bytes of a span's text: two offsets of at most twenty digits, and two dots.
const LONGEST_SPAN: usize = 42;

/// Appends the span of a match as `START..END`.
fn write_span(line: &mut String, found: Match<'_>) -> std::result::Result<(), AllocError>
    ensures { OnOk result (string_bytes line.new ≡ string_bytes line.old ++ span_text (found.entry.start, found.entry.end)) }
{
    let mut text = [b'.'; LONGEST_SPAN];
    let first = put_span(&mut text, found.start(), found.end());
    line.push_str(unsafe { str::from_utf8_unchecked(&text[first..]) })
}

/// Appends the span of a match as `START..END`, and the end of the line.
#[inline(always)]
fn write_span_line(line: &mut String, found: Match<'_>) -> std::result::Result<(), AllocError>
    ensures { OnOk result (string_bytes line.new
        ≡ (string_bytes line.old ++ span_text (found.entry.start, found.entry.end)) ++ codes "\n") }
{
    let mut text = [b'.'; LONGEST_SPAN + 1];
    text[LONGEST_SPAN] = b'\n';
    let first = put_span(&mut text, found.start(), found.end());
    line.push_str(unsafe { str::from_utf8_unchecked(&text[first..]) })
}

/// Puts `START..END` at the end of the text's first bytes, which are dots, as many as a span has at most. Answers where it begins.
#[inline(always)]
fn put_span(text: &mut [u8], start: usize, end: usize) -> usize
    requires long { 42 ≤ length text.old }
    requires dots { take 42 text.old ≡ replicate 42 46 }
    ensures written { drop result text.new ≡ span_text (start, end) ++ drop 42 text.old }
    ensures place { result + length (span_text (start, end)) ≡ 42 }
{
    let last = write_digits(end as u64, text, LONGEST_SPAN);
    write_digits(start as u64, text, last - 2)
}
