//! Escaping: texts as templates and as patterns that stand for them.

ghost use Rattle.std.specs.Prelude.{◌≡◌, ◌↔◌, chars, IfOk, IsOk, string_bytes, ◌++◌, OnOk, true, false};
ghost use Rattle.std.specs.Cow.{cow_str_bytes, IsBorrowedStr};
ghost use Rattle.fancy_regex_template.specs.Parts.{is_no_sign};
ghost use Rattle.fancy_regex_template.specs.Cuts.{AllPass};
ghost use Rattle.fancy_regex_template.specs.Expansion.{escaped, doubled_if_sign};
ghost use Rattle.fancy_regex_template.specs.PatternEscape.{is_special, has_special, escaped_char, escaped_pattern};

use crate::parts::split_literal;
use crate::syntax::TemplateSyntax;
use fancy_regex_text::is_empty;
use fancy_regex_text::writing::{empty, push, push_escaped};
use std::alloc::{AllocError, Global};
use std::borrow::CowStr;

/// Appends a character of an escaped template: twice if it is the sign.
fn push_template_char(out: &mut String, syntax: TemplateSyntax, c: char) -> Result<(), AllocError>
    ensures { OnOk result (chars (string_bytes out.new) ≡ chars (string_bytes out.old) ++ doubled_if_sign syntax c) }
{
    push(out, c)?;
    if c == syntax.sign() {
        push(out, c)?;
    }
    Ok(())
}

/// The text as a template that expands to it: each sign doubled. A text without a sign is borrowed, and nothing is allocated.
/// Fails if an allocation is refused.
pub fn escape_template(
    alloc: Global,
    syntax: TemplateSyntax,
    text: &str,
) -> Result<CowStr<'_>, AllocError>
    ensures value { IfOk result (λ made. chars (cow_str_bytes made) ≡ escaped syntax (chars text.now)) }
    ensures borrowed { IfOk result (λ made. IsBorrowedStr made ↔ AllPass (is_no_sign syntax) (chars text.now)) }
    ensures succeeds { AllPass (is_no_sign syntax) (chars text.now) → IsOk result }
{
    let (_, from_sign) = split_literal(syntax, text);
    if is_empty(from_sign) {
        return Ok(CowStr::Borrowed(text));
    }
    let mut out = empty(alloc);
    for c in text.chars() {
        push_template_char(&mut out, syntax, c)?;
    }
    Ok(CowStr::Owned(out))
}

/// Whether the character has a meaning of its own in patterns.
fn is_special(c: char) -> bool
    ensures { result ≡ is_special c }
{
    matches!(
        c,
        '\\' | '.' | '+' | '*' | '?' | '(' | ')' | '|' | '[' | ']' | '{' | '}' | '^' | '$' | '#'
    )
}

/// Whether the text has a character that has a meaning of its own in patterns.
fn has_special(text: &str) -> bool
    ensures { result ≡ has_special (chars text.now) }
{
    text.chars().any(is_special)
}

/// Appends a character of an escaped pattern.
fn push_escaped_char(out: &mut String, c: char) -> Result<(), AllocError>
    ensures { OnOk result (chars (string_bytes out.new) ≡ chars (string_bytes out.old) ++ escaped_char c) }
{
    match c {
        '\n' => push_escaped(out, 'n'),
        '\t' => push_escaped(out, 't'),
        '\r' => push_escaped(out, 'r'),
        _ if is_special(c) => push_escaped(out, c),
        _ => push(out, c),
    }
}

/// The text as a pattern that matches exactly it: a backslash before each of `\.+*?()|[]{}^$#`, and `\n`, `\t` and `\r` for
/// newlines, tabs and carriage returns. A text without one of these fifteen characters is borrowed as it is, and nothing is
/// allocated. Fails if an allocation is refused.
pub fn escape_pattern(alloc: Global, text: &str) -> Result<CowStr<'_>, AllocError>
    ensures value { IfOk result (λ made. chars (cow_str_bytes made) ≡ escaped_pattern (chars text.now)) }
    ensures borrowed { IfOk result (λ made. IsBorrowedStr made ↔ (has_special (chars text.now) ≡ false)) }
    ensures succeeds { has_special (chars text.now) ≡ false → IsOk result }
{
    if !has_special(text) {
        return Ok(CowStr::Borrowed(text));
    }
    let mut out = empty(alloc);
    for c in text.chars() {
        push_escaped_char(&mut out, c)?;
    }
    Ok(CowStr::Owned(out))
}
