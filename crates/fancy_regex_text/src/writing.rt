//! Appending to a `String`, with contracts on its characters. If an allocation is refused the string is unchanged.

ghost use Rattle.std.specs.Prelude.{◌≡◌, ◌<◌, ◌++◌, All, chars, string_bytes, IfOk, OnOk, OnErr, [], ◌∷◌};

use std::alloc::{AllocError, Global};

/// An empty string. Allocates nothing.
pub fn empty(alloc: Global) -> String
    ensures { chars (string_bytes result) ≡ [] }
{
    String::new(alloc)
}

/// Appends a character. If an allocation is refused, `out` is unchanged.
pub fn push(out: &mut String, c: char) -> Result<(), AllocError>
    ensures added { OnOk result (chars (string_bytes out.new) ≡ chars (string_bytes out.old) ++ c ∷ []) }
    ensures refused { OnErr result (string_bytes out.new ≡ string_bytes out.old) }
{
    out.push(c)?;
    Ok(())
}

/// Appends a text. If an allocation is refused, `out` is unchanged.
pub fn push_text(out: &mut String, text: &str) -> Result<(), AllocError>
    ensures added { OnOk result (chars (string_bytes out.new) ≡ chars (string_bytes out.old) ++ chars text.now) }
    ensures refused { OnErr result (string_bytes out.new ≡ string_bytes out.old) }
{
    out.push_str(text)?;
    Ok(())
}

/// Appends a text, which must be ASCII: its contract is on bytes. If an allocation is refused, `out` is unchanged.
pub fn push_ascii(out: &mut String, text: &str) -> Result<(), AllocError>
    requires { All (λ b. b < 128) text.now }
    ensures added { OnOk result (chars (string_bytes out.new) ≡ chars (string_bytes out.old) ++ text.now) }
    ensures refused { OnErr result (string_bytes out.new ≡ string_bytes out.old) }
{
    push_text(out, text)?;
    Ok(())
}

/// Appends a backslash and a character. If an allocation is refused, `out` is unchanged, so neither is appended.
pub fn push_escaped(out: &mut String, c: char) -> Result<(), AllocError>
    ensures added { OnOk result (chars (string_bytes out.new) ≡ chars (string_bytes out.old) ++ 0x5C ∷ c ∷ []) }
    ensures refused { OnErr result (string_bytes out.new ≡ string_bytes out.old) }
{
    let text = escaped(*out.allocator(), c)?;
    push_text(out, &text)
}

/// A new string of a backslash and a character.
pub fn escaped(alloc: Global, c: char) -> Result<String, AllocError>
    ensures { IfOk result (λ s. chars (string_bytes s) ≡ 0x5C ∷ c ∷ []) }
{
    let mut text = empty(alloc);
    push(&mut text, '\\')?;
    push(&mut text, c)?;
    Ok(text)
}
