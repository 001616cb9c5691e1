//! Prefixes of a text, and errors at the position where a text begins.

ghost use Rattle.std.specs.Prelude.{◌≡◌, ◌+◌, ◌<◌, ◌≤◌, ◌<◌, ◌≤◌, length, drop, All, chars, option_map, is_some, IfSome, ◌∷◌, ◌++◌, Err};
ghost use Rattle.fancy_regex_text.specs.Text.{uncons, strip_prefix, split_once, bytes, is_empty, IsSuffix, prefix_before};
ghost use Rattle.fancy_regex_text.specs.declared.fault.ReadError.TheVariants as errors;

use crate::fault::{ParseError, ParseFault, ReadError};

/// The first character and the rest. `None` if the text is empty.
pub fn split_first(text: &str) -> Option<(char, &str)>
    ensures value { option_map (λ x. (x.0, chars x.1.now)) result ≡ uncons (chars text.now) }
    ensures whole { IfSome result (λ x. chars text.now ≡ x.0 ∷ chars x.1.now) }
{
    let mut chars = text.chars();
    match chars.next() {
        Some(c) => Some((c, chars.as_str())),
        None => None,
    }
}

/// The text without its first character. An empty text stays empty.
pub fn rest_after_first(text: &str) -> &str
    ensures value { chars result.now ≡ drop 1 (chars text.now) }
    ensures shorter { length (chars result.now) ≤ length (chars text.now) }
{
    match split_first(text) {
        Some((_, rest)) => rest,
        None => text,
    }
}

/// The rest of the text after `word`. `None` if the text does not start with it. `word` must be ASCII.
pub fn strip_prefix<'t>(text: &'t str, word: &str) -> Option<&'t str>
    requires { All (λ b. b < 128) word.now }
    ensures value { option_map (λ rest. chars rest.now) result ≡ strip_prefix word.now (chars text.now) }
    ensures whole { IfSome result (λ rest. chars text.now ≡ word.now ++ chars rest.now) }
    ensures len { IfSome result (λ rest. length word.now + length (chars rest.now) ≡ length (chars text.now)) }
    ensures shorter { IfSome result (λ rest. length (chars rest.now) ≤ length (chars text.now)) }
{
    let rest = text.strip_prefix(word)?;
    Some(rest)
}

/// Whether the text starts with `word`, which must be ASCII.
pub fn has_prefix(text: &str, word: &str) -> bool
    requires { All (λ b. b < 128) word.now }
    ensures { result ≡ is_some (strip_prefix word.now (chars text.now)) }
{
    strip_prefix(text, word).is_some()
}

/// The text before the first `close`, and the text after it. `None` if `close` does not occur.
pub fn split_once(text: &str, close: char) -> Option<(&str, &str)>
    ensures value { option_map (λ x. (chars x.0.now, chars x.1.now)) result ≡ split_once close (chars text.now) }
    ensures shorter { IfSome result (λ x. length (chars x.1.now) < length (chars text.now)) }
{
    let (front, rest) = text.split_once(close)?;
    Some((front, rest))
}

/// Whether the text is empty.
pub fn is_empty(text: &str) -> bool
    ensures { result ≡ is_empty (chars text.now) }
{
    text.is_empty()
}

/// The prefix of the text before `rest`, which must be a suffix of it.
pub fn prefix_before<'t>(text: &'t str, rest: &str) -> &'t str
    requires { IsSuffix (chars rest.now) (chars text.now) }
    ensures { chars result.now ≡ prefix_before (chars text.now) (chars rest.now) }
{
    &text[..text.len() - rest.len()]
}

/// A parse error of this kind at the position where `text`, the rest of the pattern, begins.
pub fn fault_at(kind: ParseError, text: &str) -> ParseFault
    ensures { result ≡ record { left = bytes (chars text.now); kind = kind } }
{
    ParseFault {
        left: text.len(),
        kind,
    }
}

/// Fails with a parse error of this kind at the position where `text`, the rest of the pattern, begins.
pub fn fail_at<T>(kind: ParseError, text: &str) -> Result<T, ReadError>
    ensures { result ≡ Err (errors.ParseFault (record { left = bytes (chars text.now); kind = kind })) }
{
    Err(ReadError::ParseFault(fault_at(kind, text)))
}
