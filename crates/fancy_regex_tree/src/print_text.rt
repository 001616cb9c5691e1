//! Appends texts to a buffer; the contracts speak of characters instead of bytes.

ghost use Rattle.std.specs.Prelude.{◌≡◌, ◌<◌, ◌++◌, All, OnOk, OnErr, [], ◌∷◌, chars, string_bytes, decimal};
ghost use Rattle.fancy_regex_tree.specs.Printed.{is_metacharacter, escaped_char, escaped};

use fancy_regex_lex::split_first;
use std::alloc::AllocError;

/// Appends a character.
pub fn print_char(out: &mut String, c: char) -> Result<(), AllocError>
    ensures { OnOk result (chars (string_bytes out.new) ≡ chars (string_bytes out.old) ++ c ∷ []) }
{
    out.push(c)?;
    Ok(())
}

/// Appends a text. If an allocation fails, the buffer is unchanged.
pub fn print_text(out: &mut String, text: &str) -> Result<(), AllocError>
    ensures added { OnOk result (chars (string_bytes out.new) ≡ chars (string_bytes out.old) ++ chars text.now) }
    ensures refused { OnErr result (string_bytes out.new ≡ string_bytes out.old) }
{
    out.push_str(text)?;
    Ok(())
}

/// Appends an ASCII text.
pub fn print_ascii(out: &mut String, text: &str) -> Result<(), AllocError>
    requires { All (λ b. b < 128) text.now }
    ensures { OnOk result (chars (string_bytes out.new) ≡ chars (string_bytes out.old) ++ text.now) }
{
    print_text(out, text)?;
    Ok(())
}

/// Appends a number in decimal digits.
pub fn print_number(out: &mut String, number: usize) -> Result<(), AllocError>
    ensures { OnOk result (chars (string_bytes out.new) ≡ chars (string_bytes out.old) ++ decimal number) }
{
    write!(out, "{number}")?;
    Ok(())
}

/// Whether the character is a metacharacter, which a pattern must escape.
fn is_metacharacter(c: char) -> bool
    ensures { result ≡ is_metacharacter c }
{
    matches!(
        c,
        '\\' | '.' | '+' | '*' | '?' | '(' | ')' | '|' | '[' | ']' | '{' | '}' | '^' | '$' | '#'
    )
}

/// Appends a character as a literal, escaped if it must be.
#[tactic(auto, unfolding(crate::specs::Printed::escaped_char))]
fn print_escaped_char(out: &mut String, c: char) -> Result<(), AllocError>
    ensures { OnOk result (chars (string_bytes out.new) ≡ chars (string_bytes out.old) ++ escaped_char c) }
{
    if c == '\n' {
        return print_ascii(out, "\\n");
    }
    if c == '\r' {
        return print_ascii(out, "\\r");
    }
    if c == '\t' {
        return print_ascii(out, "\\t");
    }
    if is_metacharacter(c) {
        print_char(out, '\\')?;
    }
    print_char(out, c)
}

/// Appends a text as literal characters, each escaped if it must be.
pub fn print_escaped(out: &mut String, text: &str) -> Result<(), AllocError>
    ensures { OnOk result (chars (string_bytes out.new) ≡ chars (string_bytes out.old) ++ escaped (chars text.now)) }
{
    let mut left = text;
    while let Some((c, rest)) = split_first(left) {
        print_escaped_char(out, c)?;
        left = rest;
    }
    Ok(())
}
