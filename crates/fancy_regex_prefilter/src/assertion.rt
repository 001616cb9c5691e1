//! Evaluation of the zero-width assertions.

ghost use Rattle.std.specs.Prelude.{◌≡◌, ◌≤◌, codes, drop, false, length, nat_le};
ghost use Rattle.fancy_regex_class.specs.Classes.{in_class};
ghost use Rattle.fancy_regex_meaning.specs.Positions as places;
ghost use Rattle.fancy_regex_meaning.specs.Ways as ways;
ghost use Rattle.fancy_regex_prefilter.specs.RunContexts.{setting_of_run};
ghost use Rattle.fancy_regex_tree.specs.declared.expr.Assertion.TheVariants.{EndTextIgnoreTrailingNewlines};

use crate::matching::{char_at, char_before};
use crate::run_context::RunContext;
use fancy_regex_class::is_word;
use fancy_regex_tree::Assertion;
use ucd_perl::is_word_code;

/// How many bytes of newlines may be read where nothing counts them.
const MOST_NEWLINES: usize = 64;

/// Whether the assertion holds at the byte offset `position`.
pub fn holds(run: &RunContext<'_>, assertion: Assertion, position: usize) -> bool
    ensures { result ≡ ways.holds (setting_of_run run.now) assertion position }
{
    let text = run.text.as_bytes();
    match assertion {
        Assertion::StartText => position == 0 && !run.input.no_start_text,
        Assertion::EndText => position == text.len() && !run.input.no_end_text,
        Assertion::EndTextIgnoreTrailingNewlines { crlf } => are_newlines(text, crlf, position),
        Assertion::StartLine { crlf } => is_line_start(text, crlf, position),
        Assertion::StartLineOniguruma { crlf } => {
            is_line_start(text, crlf, position)
                && !(position == text.len() && is_after_byte(text, b'\n', position))
        }
        Assertion::EndLine { crlf } => is_line_end(text, crlf, position),
        Assertion::LeftWordBoundary => {
            !is_after_word(run, position) && is_before_word(run, position)
        }
        Assertion::LeftWordHalfBoundary => !is_after_word(run, position),
        Assertion::RightWordBoundary => {
            is_after_word(run, position) && !is_before_word(run, position)
        }
        Assertion::RightWordHalfBoundary => !is_before_word(run, position),
        Assertion::WordBoundary => is_after_word(run, position) != is_before_word(run, position),
        Assertion::NotWordBoundary => {
            is_after_word(run, position) == is_before_word(run, position)
        }
    }
}

/// Whether the byte before `position` is this one.
#[tactic(auto, unfolding(regex_hir::specs::Text::byte_before))]
fn is_after_byte(text: &[u8], byte: u8, position: usize) -> bool
    ensures { result ≡ places.is_after_byte text.now byte position }
{
    position > 0 && is_before_byte(text, byte, position - 1)
}

/// Whether the byte at `position` is this one.
pub(crate) fn is_before_byte(text: &[u8], byte: u8, position: usize) -> bool
    ensures { result ≡ places.is_before_byte text.now byte position }
{
    match text.get(position) {
        Some(found) => *found == byte,
        None => false,
    }
}

/// Whether a line starts at `position`; with `crlf` a line ends with `\n`, `\r` or `\r\n`.
fn is_line_start(text: &[u8], crlf: bool, position: usize) -> bool
    ensures { result ≡ places.is_line_start text.now crlf position }
{
    position == 0
        || is_after_byte(text, b'\n', position)
        || (crlf && is_after_byte(text, b'\r', position) && !is_before_byte(text, b'\n', position))
}

/// Whether a line ends at `position`.
fn is_line_end(text: &[u8], crlf: bool, position: usize) -> bool
    ensures { result ≡ places.is_line_end text.now crlf position }
{
    if position == text.len() {
        return true;
    }
    if crlf {
        is_before_byte(text, b'\r', position)
            || (is_before_byte(text, b'\n', position) && !is_after_byte(text, b'\r', position))
    } else {
        is_before_byte(text, b'\n', position)
    }
}

/// Whether the rest of the text from `position` on consists of newlines.
fn are_newlines(text: &[u8], crlf: bool, position: usize) -> bool
    ensures { result ≡ places.are_newlines crlf (drop position text.now) }
{
    newlines_end(text, crlf, position) >= text.len()
}

/// Where the newlines end that follow one another from `position` on: before the end of the text only if something else comes there.
fn newlines_end(text: &[u8], crlf: bool, position: usize) -> usize
    ensures low { position ≤ result }
    ensures told { nat_le (length text.now) result ≡ places.are_newlines crlf (drop position text.now) }
{
    let mut at = position;
    while at < text.len() {
        if text[at] == b'\n' {
            at += 1;
        } else if crlf && text[at] == b'\r' && is_before_byte(text, b'\n', at + 1) {
            at += 2;
        } else {
            return at;
        }
    }
    at
}

/// Whether `\Z` holds at `position`, and how many bytes are read to tell that. No clause speaks of the second.
pub fn text_end_holds(run: &RunContext<'_>, crlf: bool, position: usize) -> (bool, usize)
    ensures { result.0 ≡ ways.holds (setting_of_run run.now) (EndTextIgnoreTrailingNewlines crlf) position }
{
    let text = run.text.as_bytes();
    let end = newlines_end(text, crlf, position);
    (end >= text.len(), end - position)
}

/// Whether many bytes may be read to tell whether the assertion holds at `position`. It is asked where nothing counts what is read. No
/// clause says so.
#[inline(always)]
pub(crate) fn may_read_far(run: &RunContext<'_>, assertion: Assertion, position: usize) -> bool {
    match assertion {
        Assertion::EndTextIgnoreTrailingNewlines { .. } => {
            follow_many_newlines(run.text.as_bytes(), position)
        }
        _ => false,
    }
}

/// Whether bytes of newlines stand at `position` and after it, as many as may be read.
fn follow_many_newlines(text: &[u8], position: usize) -> bool {
    for distance in 0..MOST_NEWLINES {
        if !may_be_newline(text, position.saturating_add(distance)) {
            return false;
        }
    }
    true
}

/// Whether a byte of a newline stands at `position`.
#[inline(always)]
fn may_be_newline(text: &[u8], position: usize) -> bool {
    match text.get(position) {
        Some(byte) => *byte == b'\n' || *byte == b'\r',
        None => false,
    }
}

/// Whether the character before `position` is a word character.
#[inline(always)]
fn is_after_word(run: &RunContext<'_>, position: usize) -> bool
    ensures { result ≡ ways.is_after_word (setting_of_run run.now) position }
{
    match char_before(run.text, position) {
        Some(c) => is_word_here(c, run.unicode),
        None => false,
    }
}

/// Whether the character at `position` is a word character.
#[inline(always)]
fn is_before_word(run: &RunContext<'_>, position: usize) -> bool
    ensures { result ≡ ways.is_before_word (setting_of_run run.now) position }
{
    match char_at(run.text, position) {
        Some(c) => is_word_here(c, run.unicode),
        None => false,
    }
}

/// Whether `\w` matches the character; without `unicode` these are the ASCII letters, digits and `_`.
#[inline(always)]
fn is_word_here(c: char, unicode: bool) -> bool
    ensures { result ≡ in_class unicode (codes "\\w") false c }
{
    if unicode {
        is_word_code(c as u32)
    } else {
        is_word(c, false)
    }
}
