//! Escapes. In these functions `here` is the text from the backslash on, where errors are reported, and `text` the rest that
//! is still to be read.

ghost use Rattle.std.specs.Prelude.{◌≡◌, ◌<◌, ◌≤◌, ◌^◌, length, chars, option_map, string_bytes, IfOk, IfErr, IfSome, OnOk, [], ◌∷◌};
ghost use Rattle.fancy_regex_text.specs.Text.{split_digit, span_at_most, is_hexadecimal, value};
ghost use Rattle.fancy_regex_text.specs.ParseFault.{Gives};
ghost use Rattle.fancy_regex_text.specs.FaultOnly.{IsFault};
ghost use Rattle.fancy_regex_text.specs.Names.{referred_of};
ghost use Rattle.fancy_regex_lex.specs.Escapes.{class_escape, control_letter, class_letter, assertion_letter, other_letter, plain_sign, other_sign, one_letter, code_point, braced_digits, braced_hex, plain_digits, plain_hex, hex, property_class, property, half_boundary, boundary, delimited_reference, bracketed_reference, numbered_reference, single, after_backslash, escape, class_of, escape_of};

use crate::token::{AssertionEscape, Escape, EscapedClass};
use fancy_regex_text::writing::escaped;
use fancy_regex_text::{
    ParseError, ReadError, Reference, Target, digits, fail_at, is_empty, reference, split_first,
    split_once, strip_prefix,
};
use std::alloc::Global;

/// The control character of an escape of one letter, as `\n`.
#[tactic(auto, unfolding(crate::specs::Escapes::control_letter))]
fn control_letter(c: char) -> Option<char>
    ensures { result ≡ control_letter c }
{
    match c {
        'a' => Some('\x07'),
        'e' => Some('\x1B'),
        'f' => Some('\x0C'),
        'n' => Some('\n'),
        'r' => Some('\r'),
        't' => Some('\t'),
        'v' => Some('\x0B'),
        _ => None,
    }
}

/// The class of an escape of one letter, as `\d`.
#[tactic(auto, unfolding(crate::specs::Escapes::class_letter))]
fn class_letter<'t>(c: char) -> Option<EscapedClass<'t>>
    ensures { option_map class_of result ≡ class_letter c }
{
    match c {
        'd' | 'D' | 'w' | 'W' | 's' | 'S' => Some(EscapedClass::Perl(c)),
        'h' => Some(EscapedClass::HexDigit),
        'H' => Some(EscapedClass::NotHexDigit),
        _ => None,
    }
}

/// The assertion of an escape of one character, as `\A`. `\<` and `\>` are not assertions in Oniguruma mode.
#[tactic(auto, unfolding(crate::specs::Escapes::assertion_letter))]
fn assertion_letter(oniguruma: bool, c: char) -> Option<AssertionEscape>
    ensures { result ≡ assertion_letter oniguruma c }
{
    match c {
        'A' => Some(AssertionEscape::TextStart),
        'z' => Some(AssertionEscape::TextEnd),
        'Z' => Some(AssertionEscape::TextEndOrNewlines),
        'B' => Some(AssertionEscape::NotWordBoundary),
        '<' if !oniguruma => Some(AssertionEscape::LeftWordBoundary),
        '>' if !oniguruma => Some(AssertionEscape::RightWordBoundary),
        _ => None,
    }
}

/// The other escapes of one letter: `\N`, `\O`, `\R`, `\G` and `\K`.
#[tactic(auto, unfolding(crate::specs::Escapes::other_letter))]
fn other_letter<'t>(c: char) -> Option<Escape<'t>>
    ensures { option_map escape_of result ≡ other_letter c }
{
    match c {
        'N' => Some(Escape::Any { newline: false }),
        'O' => Some(Escape::Any { newline: true }),
        'R' => Some(Escape::GeneralNewline),
        'G' => Some(Escape::ContinueFromPreviousMatchEnd),
        'K' => Some(Escape::KeepOut),
        _ => None,
    }
}

/// The literal character of an escape: any character but an ASCII letter is itself.
#[tactic(auto, unfolding(crate::specs::Escapes::plain_sign))]
fn plain_sign<'t>(c: char) -> Option<Escape<'t>>
    ensures { option_map escape_of result ≡ plain_sign c }
{
    if c.is_ascii_alphabetic() {
        return None;
    }
    Some(Escape::Character(c))
}

/// An escape of one character that is neither a control character nor a class.
#[tactic(auto, unfolding(crate::specs::Escapes::other_sign))]
fn other_sign<'t>(oniguruma: bool, c: char) -> Option<Escape<'t>>
    ensures { option_map escape_of result ≡ other_sign oniguruma c }
{
    if let Some(place) = assertion_letter(oniguruma, c) {
        return Some(Escape::Assertion(place));
    }
    if let Some(escape) = other_letter(c) {
        return Some(escape);
    }
    plain_sign(c)
}

/// An escape of one character. `None` for an ASCII letter that has no meaning.
#[tactic(auto, unfolding(crate::specs::Escapes::one_letter))]
fn one_letter<'t>(oniguruma: bool, c: char) -> Option<Escape<'t>>
    ensures { option_map escape_of result ≡ one_letter oniguruma c }
{
    if let Some(character) = control_letter(c) {
        return Some(Escape::Character(character));
    }
    if let Some(class) = class_letter(c) {
        return Some(Escape::Class(class));
    }
    other_sign(oniguruma, c)
}

/// The literal character of a code point. Fails with `InvalidCodepointValue` if it is not a character.
#[tactic(auto, unfolding(crate::specs::Escapes::code_point))]
fn code_point<'t>(here: &str, code: u32, rest: &'t str) -> Result<(Escape<'t>, &'t str), ReadError>
    ensures value { Gives (λ x. (escape_of x.0, chars x.1.now)) result (code_point (chars here.now) code (chars rest.now)) }
    ensures shorter { IfOk result (λ x. length (chars x.1.now) ≤ length (chars rest.now)) }
{
    match char::from_u32(code) {
        Some(c) => Ok((Escape::Character(c), rest)),
        None => fail_at(ParseError::InvalidCodepointValue, here),
    }
}

/// The value of the first character as a hexadecimal digit, and the rest.
fn strip_hex_digit(text: &str) -> Option<(u32, &str)>
    ensures value { option_map (λ x. (x.0, chars x.1.now)) result ≡ split_digit 16 (chars text.now) }
    ensures shorter { IfSome result (λ x. length (chars x.1.now) ≤ length (chars text.now)) }
    ensures digit { IfSome result (λ x. x.0 < 16) }
{
    let (c, rest) = split_first(text)?;
    let digit = c.to_digit(16)?;
    Some((digit, rest))
}

/// Leading hexadecimal digits of a text.
#[derive(Clone, Copy)]
struct HexDigits<'t> {
    /// The number that they write.
    value: u32,
    /// How many digits there are.
    count: usize,
    /// The text after them.
    rest: &'t str,
}

/// Reads leading hexadecimal digits, at most `most` of them, which must be at most 8.
fn hex_digits(most: usize, text: &str) -> HexDigits<'_>
    requires { most ≤ 8 }
    ensures value { result.value ≡ value 16 (span_at_most is_hexadecimal most (chars text.now)).0 }
    ensures count { result.count ≡ length (span_at_most is_hexadecimal most (chars text.now)).0 }
    ensures small { result.value < 16 ^ result.count }
    ensures shorter { length (chars result.rest.now) ≤ length (chars text.now) }
    ensures rest { chars result.rest.now ≡ (span_at_most is_hexadecimal most (chars text.now)).1 }
{
    let mut found = HexDigits {
        value: 0,
        count: 0,
        rest: text,
    };
    while found.count < most {
        let Some((digit, after)) = strip_hex_digit(found.rest) else {
            return found;
        };
        found = HexDigits {
            value: found.value * 16 + digit,
            count: found.count + 1,
            rest: after,
        };
    }
    found
}

/// The number, if the whole text is one to eight hexadecimal digits.
#[tactic(auto, unfolding(crate::specs::Escapes::braced_digits))]
fn braced_digits(text: &str) -> Option<u32>
    ensures { result ≡ braced_digits (chars text.now) }
{
    let found = hex_digits(8, text);
    if found.count > 0 && is_empty(found.rest) {
        Some(found.value)
    } else {
        None
    }
}

/// Parses a code point in braces from after the `{`. Fails with `InvalidHex` or `InvalidCodepointValue`.
#[tactic(auto, unfolding(crate::specs::Escapes::braced_hex))]
fn braced_hex<'t>(here: &str, text: &'t str) -> Result<(Escape<'t>, &'t str), ReadError>
    ensures value { Gives (λ x. (escape_of x.0, chars x.1.now)) result (braced_hex (chars here.now) (chars text.now)) }
    ensures shorter { IfOk result (λ x. length (chars x.1.now) ≤ length (chars text.now)) }
{
    let Some((digits, rest)) = split_once(text, '}') else {
        return fail_at(ParseError::InvalidHex, here);
    };
    let Some(code) = braced_digits(digits) else {
        return fail_at(ParseError::InvalidHex, here);
    };
    code_point(here, code, rest)
}

/// The number of exactly `count` leading hexadecimal digits, and the rest. `count` must be at most 8.
#[tactic(auto, unfolding(crate::specs::Escapes::plain_digits))]
fn plain_digits(count: usize, text: &str) -> Option<(u32, &str)>
    requires { count ≤ 8 }
    ensures value { option_map (λ x. (x.0, chars x.1.now)) result ≡ plain_digits count (chars text.now) }
    ensures shorter { IfSome result (λ x. length (chars x.1.now) ≤ length (chars text.now)) }
    ensures small { count ≡ 2 → IfSome result (λ x. x.0 < 256) }
{
    let found = hex_digits(count, text);
    if found.count == count {
        Some((found.value, found.rest))
    } else {
        None
    }
}

/// Parses a code point of exactly `count` digits. Two digits above 7F are a byte instead. Fails with `InvalidHex` or
/// `InvalidCodepointValue`.
#[tactic(auto, unfolding(crate::specs::Escapes::plain_hex))]
fn plain_hex<'t>(
    count: usize,
    here: &str,
    text: &'t str,
) -> Result<(Escape<'t>, &'t str), ReadError>
    requires { count ≤ 8 }
    ensures value { Gives (λ x. (escape_of x.0, chars x.1.now)) result (plain_hex count (chars here.now) (chars text.now)) }
    ensures shorter { IfOk result (λ x. length (chars x.1.now) ≤ length (chars text.now)) }
{
    let Some((code, rest)) = plain_digits(count, text) else {
        return fail_at(ParseError::InvalidHex, here);
    };
    if count == 2 && code > 0x7F {
        return Ok((Escape::Byte(code as u8), rest));
    }
    code_point(here, code, rest)
}

/// Parses a code point in braces, or of exactly `count` digits. Fails with `InvalidHex` or `InvalidCodepointValue`.
#[tactic(auto, unfolding(crate::specs::Escapes::hex))]
fn hex<'t>(count: usize, here: &str, text: &'t str) -> Result<(Escape<'t>, &'t str), ReadError>
    requires { count ≤ 8 }
    ensures value { Gives (λ x. (escape_of x.0, chars x.1.now)) result (hex count (chars here.now) (chars text.now)) }
    ensures shorter { IfOk result (λ x. length (chars x.1.now) ≤ length (chars text.now)) }
{
    match strip_prefix(text, "{") {
        Some(inside) => braced_hex(here, inside),
        None => plain_hex(count, here, text),
    }
}

/// The class of a Unicode property by the text in its braces, where a leading `^` negates it. `None` without a name.
#[tactic(auto, unfolding(crate::specs::Escapes::property_class))]
fn property_class(negated: bool, text: &str) -> Option<EscapedClass<'_>>
    ensures { option_map class_of result ≡ property_class negated (chars text.now) }
{
    let (c, rest) = split_first(text)?;
    if c != '^' {
        return Some(EscapedClass::Named {
            negated,
            name: text,
        });
    }
    if is_empty(rest) {
        return None;
    }
    Some(EscapedClass::Named {
        negated: !negated,
        name: rest,
    })
}

/// Parses a Unicode property after `\p` or `\P`: one character, or a name in braces. Fails with `UnclosedUnicodeName`.
#[tactic(auto, unfolding(crate::specs::Escapes::property))]
fn property<'t>(
    negated: bool,
    here: &str,
    text: &'t str,
) -> Result<(Escape<'t>, &'t str), ReadError>
    ensures value { Gives (λ x. (escape_of x.0, chars x.1.now)) result (property negated (chars here.now) (chars text.now)) }
    ensures shorter { IfOk result (λ x. length (chars x.1.now) ≤ length (chars text.now)) }
{
    let Some((letter, inside)) = split_first(text) else {
        return fail_at(ParseError::UnclosedUnicodeName, here);
    };
    if letter != '{' {
        return Ok((
            Escape::Class(EscapedClass::OneLetter { negated, letter }),
            inside,
        ));
    }
    let Some((name, rest)) = split_once(inside, '}') else {
        return fail_at(ParseError::UnclosedUnicodeName, here);
    };
    let Some(class) = property_class(negated, name) else {
        return fail_at(ParseError::UnclosedUnicodeName, here);
    };
    Ok((Escape::Class(class), rest))
}

/// Parses what follows `\b`: the name of a half boundary in braces, or nothing.
#[tactic(auto, unfolding(crate::specs::Escapes::half_boundary))]
fn half_boundary(text: &str) -> (AssertionEscape, &str)
    ensures value { (result.0, chars result.1.now) ≡ half_boundary (chars text.now) }
    ensures shorter { length (chars result.1.now) ≤ length (chars text.now) }
{
    if let Some(rest) = strip_prefix(text, "{start-half}") {
        return (AssertionEscape::LeftWordHalfBoundary, rest);
    }
    if let Some(rest) = strip_prefix(text, "{end-half}") {
        return (AssertionEscape::RightWordHalfBoundary, rest);
    }
    (AssertionEscape::WordBoundary, text)
}

/// Parses what follows `\b`: one of four names of boundaries in braces, or nothing.
#[tactic(auto, unfolding(crate::specs::Escapes::boundary))]
fn boundary(text: &str) -> (AssertionEscape, &str)
    ensures value { (result.0, chars result.1.now) ≡ boundary (chars text.now) }
    ensures shorter { length (chars result.1.now) ≤ length (chars text.now) }
{
    if let Some(rest) = strip_prefix(text, "{start}") {
        return (AssertionEscape::LeftWordBoundary, rest);
    }
    if let Some(rest) = strip_prefix(text, "{end}") {
        return (AssertionEscape::RightWordBoundary, rest);
    }
    half_boundary(text)
}

/// Parses a reference up to and with `close`, and the rest. With `allow_level`, it may have a recursion level. `here` is the text
/// from the start of the construct on: fails there with `InvalidGroupName` if `close` is missing, or the text before it is
/// not a reference. Allocates nothing.
#[tactic(auto, unfolding(crate::specs::Escapes::delimited_reference))]
pub fn delimited_reference<'t>(
    allow_level: bool,
    close: char,
    here: &str,
    text: &'t str,
) -> Result<(Reference<'t>, &'t str), ReadError>
    ensures value { Gives (λ x. (referred_of x.0, chars x.1.now)) result
        (delimited_reference allow_level close (chars here.now) (chars text.now)) }
    ensures shorter { IfOk result (λ x. length (chars x.1.now) ≤ length (chars text.now)) }
    ensures fault_only { IfErr result IsFault }
{
    let Some((inside, rest)) = split_once(text, close) else {
        return fail_at(ParseError::InvalidGroupName, here);
    };
    let Some(reference) = reference(allow_level, inside) else {
        return fail_at(ParseError::InvalidGroupName, here);
    };
    Ok((reference, rest))
}

/// Parses a reference in `<..>` or `'..'`. Fails with `InvalidGroupName`.
#[tactic(auto, unfolding(crate::specs::Escapes::bracketed_reference))]
fn bracketed_reference<'t>(
    allow_level: bool,
    here: &str,
    text: &'t str,
) -> Result<(Reference<'t>, &'t str), ReadError>
    ensures value { Gives (λ x. (referred_of x.0, chars x.1.now)) result
        (bracketed_reference allow_level (chars here.now) (chars text.now)) }
    ensures shorter { IfOk result (λ x. length (chars x.1.now) ≤ length (chars text.now)) }
{
    let Some((bracket, rest)) = split_first(text) else {
        return fail_at(ParseError::InvalidGroupName, here);
    };
    if bracket == '<' {
        return delimited_reference(allow_level, '>', here, rest);
    }
    if bracket == '\'' {
        return delimited_reference(allow_level, '\'', here, rest);
    }
    fail_at(ParseError::InvalidGroupName, here)
}

/// The back reference by leading decimal digits, and the rest. `None` without a digit.
#[tactic(auto, unfolding(crate::specs::Escapes::numbered_reference))]
fn numbered_reference(text: &str) -> Option<(Escape<'_>, &str)>
    ensures value { option_map (λ x. (escape_of x.0, chars x.1.now)) result ≡ numbered_reference (chars text.now) }
    ensures shorter { IfSome result (λ x. length (chars x.1.now) ≤ length (chars text.now)) }
{
    let (number, rest) = digits(text);
    let reference = Reference {
        target: Target::ByNumber(number?),
        level: None,
    };
    Some((Escape::BackReference(reference), rest))
}

/// The escape of the character `c`, and the rest. Fails with `InvalidEscape`, or for want of memory.
#[tactic(auto, unfolding(crate::specs::Escapes::single))]
fn single<'t>(
    alloc: Global,
    oniguruma: bool,
    here: &str,
    c: char,
    rest: &'t str,
) -> Result<(Escape<'t>, &'t str), ReadError>
    ensures value { Gives (λ x. (escape_of x.0, chars x.1.now)) result (single oniguruma (chars here.now) c (chars rest.now)) }
    ensures shorter { IfOk result (λ x. length (chars x.1.now) ≤ length (chars rest.now)) }
{
    let Some(escape) = one_letter(oniguruma, c) else {
        return fail_at(ParseError::InvalidEscape(escaped(alloc, c)?), here);
    };
    Ok((escape, rest))
}

/// Parses an escape from after its backslash.
#[tactic(auto, unfolding(crate::specs::Escapes::after_backslash))]
fn after_backslash<'t>(
    alloc: Global,
    oniguruma: bool,
    here: &str,
    text: &'t str,
) -> Result<(Escape<'t>, &'t str), ReadError>
    ensures value { Gives (λ x. (escape_of x.0, chars x.1.now)) result (after_backslash oniguruma (chars here.now) (chars text.now)) }
    ensures shorter { IfOk result (λ x. length (chars x.1.now) ≤ length (chars text.now)) }
{
    let Some((c, rest)) = split_first(text) else {
        return fail_at(ParseError::TrailingBackslash, here);
    };
    match c {
        'x' => hex(2, here, rest),
        'u' => hex(4, here, rest),
        'U' => hex(8, here, rest),
        'p' => property(false, here, rest),
        'P' => property(true, here, rest),
        'b' => {
            let (place, rest) = boundary(rest);
            Ok((Escape::Assertion(place), rest))
        }
        'k' => {
            let (reference, rest) = bracketed_reference(true, here, rest)?;
            Ok((Escape::BackReference(reference), rest))
        }
        'g' => {
            let (reference, rest) = bracketed_reference(false, here, rest)?;
            Ok((Escape::Call(reference.target), rest))
        }
        _ => match numbered_reference(text) {
            Some(found) => Ok(found),
            None => single(alloc, oniguruma, here, c, rest),
        },
    }
}

/// Parses the escape that the text starts with: its token, and the rest after it. The first character is taken to be a
/// backslash. Fails at it with `TrailingBackslash`, `InvalidEscape`, `InvalidHex`, `InvalidCodepointValue`,
/// `UnclosedUnicodeName` or `InvalidGroupName`; or for want of memory, which only the payload of `InvalidEscape` asks for.
#[tactic(auto, unfolding(crate::specs::Escapes::escape))]
pub fn escape(alloc: Global, oniguruma: bool, text: &str) -> Result<(Escape<'_>, &str), ReadError>
    ensures value { Gives (λ x. (escape_of x.0, chars x.1.now)) result (escape oniguruma (chars text.now)) }
    ensures shorter { IfOk result (λ x. length (chars x.1.now) < length (chars text.now)) }
{
    let Some((_, rest)) = split_first(text) else {
        return fail_at(ParseError::TrailingBackslash, text);
    };
    after_backslash(alloc, oniguruma, text, rest)
}
