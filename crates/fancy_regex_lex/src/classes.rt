//! Bracketed classes. The text of a class is rewritten for the class parser of `regex`: its escapes become literal
//! characters, escaped where needed, or class texts that it knows.

ghost use Rattle.std.specs.Prelude.{◌≡◌, ◌<◌, ◌≤◌, ◌+◌, ◌-◌, ◌^◌, ◌++◌, length, chars, option_map, string_bytes, All, IfOk, OnOk, OnErr, [], ◌∷◌};
ghost use Rattle.fancy_regex_text.specs.ParseFault.{Gives, prepend};
ghost use Rattle.fancy_regex_lex.specs.Escapes.{property_letter, class_of, escape_of};
ghost use Rattle.fancy_regex_lex.specs.Classes.{is_quoted, quoted, IsAdded, escaped_text, class_escape_at, class_part, nesting_after, class_parts, optional, bracketed_class};

use crate::escapes::escape;
use crate::token::{Escape, EscapedClass};
use fancy_regex_text::writing::{empty, push, push_ascii, push_escaped, push_text};
use fancy_regex_text::{
    ParseError, ReadError, fail_at, rest_after_first, split_first, strip_prefix,
};
use std::alloc::{AllocError, Global};

/// Whether the character must be escaped in a class to be literal.
fn is_quoted(c: char) -> bool
    ensures { result ≡ is_quoted c }
{
    matches!(
        c,
        '\\' | '.'
            | '+'
            | '*'
            | '?'
            | '('
            | ')'
            | '|'
            | '['
            | ']'
            | '{'
            | '}'
            | '^'
            | '$'
            | '#'
            | '&'
            | '-'
            | '~'
    )
}

/// Appends a literal character of a class, with a backslash if it needs one.
#[tactic(auto, unfolding(crate::specs::Classes::quoted))]
fn push_quoted(out: &mut String, c: char) -> Result<(), AllocError>
    ensures { OnOk result (chars (string_bytes out.new) ≡ chars (string_bytes out.old) ++ quoted c) }
{
    if is_quoted(c) {
        push_escaped(out, c)
    } else {
        push(out, c)
    }
}

/// The letter of the escape of a Unicode property, `p` or `P`.
fn property_letter(negated: bool) -> char
    ensures { result ≡ property_letter negated }
{
    if negated { 'P' } else { 'p' }
}

impl EscapedClass<'_> {
    /// Appends the class as `regex` writes it. If an allocation is refused, `out` is unchanged.
    pub fn push_to(self, out: &mut String) -> Result<(), AllocError>
        ensures added { OnOk result (chars (string_bytes out.new) ≡ chars (string_bytes out.old) ++ class_of self.entry) }
        ensures refused { OnErr result (string_bytes out.new ≡ string_bytes out.old) }
    {
        let text = self.text(*out.allocator())?;
        push_text(out, &text)
    }

    /// The class as `regex` writes it.
    pub fn text(self, alloc: Global) -> Result<String, AllocError>
        ensures { IfOk result (λ s. chars (string_bytes s) ≡ class_of self.entry) }
    {
        let mut out = empty(alloc);
        match self {
            EscapedClass::Perl(c) => push_escaped(&mut out, c)?,
            EscapedClass::HexDigit => push_ascii(&mut out, "[0-9A-Fa-f]")?,
            EscapedClass::NotHexDigit => push_ascii(&mut out, "[^0-9A-Fa-f]")?,
            EscapedClass::OneLetter { negated, letter } => {
                push_escaped(&mut out, property_letter(negated))?;
                push(&mut out, letter)?
            }
            EscapedClass::Named { negated, name } => {
                push_escaped(&mut out, property_letter(negated))?;
                push(&mut out, '{')?;
                push_text(&mut out, name)?;
                push(&mut out, '}')?
            }
        }
        Ok(out)
    }
}

/// Appends an escape of a class, a character or a class. Returns false, and appends nothing, for any other escape.
#[tactic(auto, unfolding(crate::specs::Classes::escaped_text))]
fn push_escape(out: &mut String, escape: Escape<'_>) -> Result<bool, AllocError>
    ensures { IfOk result
        (λ added. IsAdded added (chars (string_bytes out.old)) (chars (string_bytes out.new)) (escaped_text (escape_of escape.entry))) }
{
    match escape {
        Escape::Character(c) => {
            push_quoted(out, c)?;
            Ok(true)
        }
        Escape::Class(class) => {
            class.push_to(out)?;
            Ok(true)
        }
        _ => Ok(false),
    }
}

/// Parses the escape that the text starts with, appends it to a class, and returns the rest. Fails as `escape` does, or with
/// `InvalidClass` at the backslash if the escape is not allowed in classes.
#[tactic(auto, unfolding(crate::specs::Classes::class_escape_at))]
fn push_escape_at<'t>(
    alloc: Global,
    oniguruma: bool,
    text: &'t str,
    out: &mut String,
) -> Result<&'t str, ReadError>
    ensures value { Gives (λ rest. (chars (string_bytes out.new), chars rest.now)) result
        (prepend (chars (string_bytes out.old)) (class_escape_at oniguruma (chars text.now))) }
    ensures shorter { IfOk result (λ rest. length (chars rest.now) < length (chars text.now)) }
{
    let (escape, rest) = escape(alloc, oniguruma, text)?;
    if push_escape(out, escape)? {
        return Ok(rest);
    }
    fail_at(ParseError::InvalidClass, text)
}

/// Parses one item of a class, appends it, and returns the rest: an escape, of which `\b` is a backspace, or a character.
/// Fails with `InvalidClass` at the end of the pattern, and as `push_escape_at` does.
#[tactic(auto, unfolding(crate::specs::Classes::class_part))]
fn push_part<'t>(
    alloc: Global,
    oniguruma: bool,
    text: &'t str,
    out: &mut String,
) -> Result<&'t str, ReadError>
    ensures value { Gives (λ rest. (chars (string_bytes out.new), chars rest.now)) result
        (prepend (chars (string_bytes out.old)) (class_part oniguruma (chars text.now))) }
    ensures shorter { IfOk result (λ rest. length (chars rest.now) < length (chars text.now)) }
{
    let Some((c, rest)) = split_first(text) else {
        return fail_at(ParseError::InvalidClass, text);
    };
    if c != '\\' {
        push(out, c)?;
        return Ok(rest);
    }
    if let Some(rest) = strip_prefix(rest, "b") {
        push(out, '\x08')?;
        return Ok(rest);
    }
    push_escape_at(alloc, oniguruma, text, out)
}

/// The nesting level after the first character: how many nested brackets are open. `None` if it closes the whole class.
#[tactic(auto, unfolding(crate::specs::Classes::nesting_after))]
fn nesting_after(level: usize, text: &str) -> Option<usize>
    requires { level < 2 ^ 64 - 1 }
    ensures { result ≡ nesting_after level (chars text.now) }
{
    match split_first(text) {
        Some(('[', _)) => Some(level + 1),
        Some((']', _)) => level.checked_sub(1),
        _ => Some(level),
    }
}

/// If the text starts with `front`, appends that and returns the rest after it; else returns the text. `front` must be ASCII.
fn push_optional<'t>(text: &'t str, front: &str, out: &mut String) -> Result<&'t str, AllocError>
    requires { All (λ b. b < 128) front.now }
    ensures added { OnOk result (chars (string_bytes out.new) ≡ chars (string_bytes out.old) ++ (optional front.now (chars text.now)).0) }
    ensures rest { IfOk result (λ rest. chars rest.now ≡ (optional front.now (chars text.now)).1) }
    ensures shorter { IfOk result (λ rest. length (chars rest.now) ≤ length (chars text.now)) }
{
    let Some(rest) = strip_prefix(text, front) else {
        return Ok(text);
    };
    push_ascii(out, front)?;
    Ok(rest)
}

/// Parses the bracketed class that the text starts with: its text for `regex`, brackets included, and the rest after it.
/// Fails with `InvalidClass` at the end of the pattern if the class is not closed; with `InvalidClass` at the backslash of an
/// escape that is not allowed in classes; as `escape` does; or for want of memory.
pub fn bracketed_class(
    alloc: Global,
    oniguruma: bool,
    text: &str,
) -> Result<(String, &str), ReadError>
    ensures value { Gives (λ x. (chars (string_bytes x.0), chars x.1.now)) result (bracketed_class oniguruma (chars text.now)) }
    ensures shorter { IfOk result (λ x. length (chars x.1.now) < length (chars text.now)) }
{
    let mut out = empty(alloc);
    push(&mut out, '[')?;
    let rest = push_optional(rest_after_first(text), "^", &mut out)?;
    let rest = push_optional(rest, "]", &mut out)?;
    let rest = push_parts(alloc, oniguruma, rest, &mut out)?;
    Ok((out, rest))
}

/// Parses the items of a class up to and with the bracket that closes it, appends them, and returns the rest.
fn push_parts<'t>(
    alloc: Global,
    oniguruma: bool,
    text: &'t str,
    out: &mut String,
) -> Result<&'t str, ReadError>
    ensures value { Gives (λ rest. (chars (string_bytes out.new), chars rest.now)) result
        (prepend (chars (string_bytes out.old)) (class_parts oniguruma (length (chars text.now) + 1) 0 (chars text.now))) }
    ensures shorter { IfOk result (λ rest. length (chars rest.now) < length (chars text.now)) }
{
    let size = text.len();
    let mut level = 0;
    let mut rest = text;
    loop {
        let after = push_part(alloc, oniguruma, rest, out)?;
        prove!(level < size);
        let Some(next) = nesting_after(level, rest) else {
            return Ok(after);
        };
        level = next;
        rest = after;
    }
}
