//! Matching of single characters and literals at a byte offset. Each function answers the offset after the match, or
//! `None`.

ghost use Rattle.std.specs.Prelude.{◌≡◌, ◌+◌, ◌^◌, ◌<◌, ◌≤◌, Some, IfSome, IsTrue, chars, length};
ghost use Rattle.std.specs.Char.{len_utf8};
ghost use Rattle.std.specs.Str.{IsCharBoundary};
ghost use Rattle.regex_hir.specs.Text as hir_text;
ghost use Rattle.fancy_regex_meaning.specs.Positions as places;
ghost use Rattle.fancy_regex_meaning.specs.Ways.{is_any};
ghost use Rattle.fancy_regex_class.specs.Matchers.{has, equals_ignoring_case};
ghost use Rattle.fancy_regex_program.specs.Machine as machine;
ghost use Rattle.fancy_regex_program.specs.Ops.{among_scalars};
ghost use Rattle.fancy_regex_prefilter.specs.Bytes.{BeginOtherwise};
ghost use Rattle.fancy_regex_prefilter.specs.FirstBytes.{IsFirstByte};
ghost use Rattle.fancy_regex_prefilter.specs.RunContexts.{setting_of_run};

use crate::run_context::RunContext;
use fancy_regex_class::{CaseiLiteral, CharClassMatcher};

/// The character that begins at the byte offset `position`, if there is one.
#[inline(always)]
pub(crate) fn char_at(text: &str, position: usize) -> Option<char>
    ensures char { result ≡ hir_text.char_at text.now position }
    ensures room { IfSome result (λ c. position + len_utf8 c < 2 ^ 64) }
{
    match ascii_at(text, position) {
        Some(c) => Some(c),
        None => wide_at(text, position),
    }
}

/// The character that begins at the byte offset `position`, if there is one.
fn wide_at(text: &str, position: usize) -> Option<char>
    ensures char { result ≡ hir_text.char_at text.now position }
    ensures room { IfSome result (λ c. position + len_utf8 c < 2 ^ 64) }
{
    let (_, rest) = text.split_at_checked(position)?;
    rest.chars().next()
}

/// The ASCII character at the byte offset `position`, if there is one.
#[inline(always)]
pub fn ascii_at(text: &str, position: usize) -> Option<char>
    ensures char { IfSome result (λ c. hir_text.char_at text.now position ≡ Some c) }
    ensures ascii { IfSome result (λ c. c < 128) }
    ensures inside { IfSome result (λ _. position < length text.now) }
{
    let byte = *text.as_bytes().get(position)?;
    if byte >= 128 {
        return None;
    }
    Some(byte as char)
}

/// The byte at the byte offset `position`, if a character begins with it.
#[inline(always)]
pub(crate) fn first_byte_at(text: &str, position: usize) -> Option<u8>
    ensures begins { IfSome result (IsFirstByte text.now position) }
    ensures room { IfSome result (λ _. position + 4 < 2 ^ 64) }
{
    let byte = *text.as_bytes().get(position)?;
    if byte < 128 {
        return Some(byte);
    }
    if byte < 192 {
        return None;
    }
    Some(byte)
}

/// The ASCII character at the byte offset `position`, if there is one. The text may be cut after it.
#[inline(always)]
pub(crate) fn one_byte_char(text: &str, position: usize) -> Option<char>
    ensures char { IfSome result (λ c. hir_text.char_at text.now position ≡ Some c) }
    ensures ascii { IfSome result (λ c. c < 128) }
    ensures cut { IfSome result (λ _. IsCharBoundary text.now (position + 1)) }
{
    let c = ascii_at(text, position)?;
    Some(c)
}

/// The ASCII character that ends at the byte offset `position`, if there is one.
#[inline(always)]
fn ascii_before(text: &str, position: usize) -> Option<char>
    ensures char { IfSome result (λ c. hir_text.char_before text.now position ≡ Some c) }
    ensures ascii { IfSome result (λ c. c < 128) }
    ensures room { IfSome result (λ _. 0 < position) }
{
    let before = position.checked_sub(1)?;
    let c = ascii_at(text, before)?;
    Some(c)
}

/// The character that ends at the byte offset `position`, if there is one.
#[inline(always)]
pub(crate) fn char_before(text: &str, position: usize) -> Option<char>
    ensures char { result ≡ hir_text.char_before text.now position }
    ensures room { IfSome result (λ c. len_utf8 c ≤ position) }
{
    match ascii_before(text, position) {
        Some(c) => Some(c),
        None => wide_before(text, position),
    }
}

/// The character that ends at the byte offset `position`, if there is one.
fn wide_before(text: &str, position: usize) -> Option<char>
    ensures char { result ≡ hir_text.char_before text.now position }
    ensures room { IfSome result (λ c. len_utf8 c ≤ position) }
{
    let (front, _) = text.split_at_checked(position)?;
    front.chars().next_back()
}

/// The byte offset `count` characters before `position`, or `None` if the text has fewer characters there.
#[inline(always)]
pub fn position_before(text: &str, count: usize, position: usize) -> Option<usize>
    ensures { result ≡ places.position_before text.now count position }
{
    let mut cursor = position;
    for back in 0..count {
        let _ = back;
        let before = one_back(text, cursor)?;
        cursor = before;
    }
    Some(cursor)
}

/// The byte offset one character before `position`, if the text has one there.
#[inline(always)]
fn one_back(text: &str, position: usize) -> Option<usize>
    ensures { result ≡ places.position_before text.now 1 position }
{
    match ascii_before(text, position) {
        Some(_) => Some(position - 1),
        None => {
            let c = wide_before(text, position)?;
            Some(position - c.len_utf8())
        }
    }
}

/// The byte offset after the literal `wanted` if it occurs at `position`.
#[inline(always)]
pub fn match_text(text: &str, wanted: &str, position: usize) -> Option<usize>
    requires { position ≤ length text.now }
    ensures { result ≡ machine.match_text text.now (chars wanted.now) position }
{
    let rest = &text.as_bytes()[position..];
    if begins_otherwise(rest, wanted.as_bytes()) {
        return None;
    }
    if rest.starts_with(wanted.as_bytes()) {
        Some(position + wanted.len())
    } else {
        None
    }
}

/// Whether both have a first byte, and these differ.
#[inline(always)]
fn begins_otherwise(rest: &[u8], wanted: &[u8]) -> bool
    ensures { IsTrue result → BeginOtherwise wanted.now rest.now }
{
    match (wanted.get(0), rest.get(0)) {
        (Some(a), Some(b)) => *a != *b,
        _ => false,
    }
}

/// The byte offset after the character at `position`, if there is one. Without `newline` it may not be `\n`, and with
/// `crlf` and without `newline` not `\r` either.
pub fn match_any(run: &RunContext<'_>, newline: bool, crlf: bool, position: usize) -> Option<usize>
    ensures { result ≡ machine.match_char run.now.text.now (is_any (setting_of_run run.now) newline crlf) position }
{
    let c = char_at(run.text, position)?;
    if newline || !(c == '\n' || (crlf && c == '\r')) {
        Some(position + c.len_utf8())
    } else {
        None
    }
}

/// The byte offset after the character at `position`, if it equals the literal under case folding.
pub fn match_casei(text: &str, literal: CaseiLiteral, position: usize) -> Option<usize>
    ensures { result ≡ machine.match_char text.now (equals_ignoring_case literal) position }
{
    let c = char_at(text, position)?;
    if literal.matches(c) {
        Some(position + c.len_utf8())
    } else {
        None
    }
}

/// The byte offset after the character at `position`, if it is a member of the class.
#[inline(always)]
pub fn match_class(text: &str, matcher: &CharClassMatcher, position: usize) -> Option<usize>
    ensures { result ≡ machine.match_char text.now (among_scalars (has matcher.now)) position }
{
    let c = char_at(text, position)?;
    if matcher.contains(c) {
        Some(position + c.len_utf8())
    } else {
        None
    }
}
