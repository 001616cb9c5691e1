//! Group names, numbers, and the text of references. Numbers saturate: none is refused for its size.

ghost use Rattle.std.specs.Prelude.{◌≡◌, ◌<◌, ◌≤◌, length, chars, option_map, IfSome, min, pos, neg_ℤ, ◌^◌, ◌-◌};
ghost use Rattle.fancy_regex_text.specs.Text.{split_if, span, split_digit};
ghost use Rattle.fancy_regex_text.specs.Names.{is_number_category, is_name_char, is_name, digits, append_digit, whole_number, signed, named_target, reference, named_of, referred_of};

use crate::text::{is_empty, prefix_before, split_first};
use crate::token::{Reference, Target};
use ucd_category::GeneralCategory;
use ucd_derived::is_alphabetic;

/// Whether the general category is one of the three of numbers.
fn is_number_category(category: GeneralCategory) -> bool
    ensures { result ≡ is_number_category category }
{
    matches!(
        category,
        GeneralCategory::DecimalNumber
            | GeneralCategory::LetterNumber
            | GeneralCategory::OtherNumber
    )
}

/// Whether the character is allowed in a group name: `_`, alphabetic, or of a number category.
#[tactic(auto, unfolding(crate::specs::Names::is_name_char))]
fn is_name_char(c: char) -> bool
    ensures { result ≡ is_name_char c }
{
    c == '_' || is_alphabetic(c) || is_number_category(GeneralCategory::for_char(c))
}

/// The text after its first character, if that is allowed in a name.
fn strip_name_char(text: &str) -> Option<&str>
    ensures value { option_map (λ rest. chars rest.now) result ≡ option_map (λ x. x.1) (split_if is_name_char (chars text.now)) }
    ensures shorter { IfSome result (λ rest. length (chars rest.now) < length (chars text.now)) }
{
    let (c, rest) = split_first(text)?;
    if is_name_char(c) { Some(rest) } else { None }
}

/// Splits off the longest prefix whose characters are all allowed in names, which may be empty, and the rest.
pub fn split_name(text: &str) -> (&str, &str)
    ensures { (chars result.0.now, chars result.1.now) ≡ span is_name_char (chars text.now) }
{
    let mut rest = text;
    while let Some(after) = strip_name_char(rest) {
        rest = after;
    }
    (prefix_before(text, rest), rest)
}

/// Whether the whole text is a group name: one or more characters, each allowed in names.
#[tactic(auto, unfolding(crate::specs::Names::is_name))]
pub fn is_name(text: &str) -> bool
    ensures { result ≡ is_name (chars text.now) }
{
    let (name, rest) = split_name(text);
    !is_empty(name) && is_empty(rest)
}

/// The value of the first character as a decimal digit, and the rest.
fn strip_digit(text: &str) -> Option<(usize, &str)>
    ensures value { option_map (λ x. (x.0, chars x.1.now)) result ≡ split_digit 10 (chars text.now) }
    ensures shorter { IfSome result (λ x. length (chars x.1.now) < length (chars text.now)) }
    ensures digit { IfSome result (λ x. x.0 < 10) }
{
    let (c, rest) = split_first(text)?;
    let digit = c.to_digit(10)?;
    Some((digit as usize, rest))
}

/// The number with one more decimal digit at its end. It saturates at `usize::MAX`.
fn append_digit(number: Option<usize>, digit: usize) -> usize
    ensures { result ≡ append_digit number digit }
{
    match number {
        None => digit,
        Some(number) => number.saturating_mul(10).saturating_add(digit),
    }
}

/// The number of the leading decimal digits, `None` if there are none, and the rest. It saturates at `usize::MAX`.
pub fn digits(text: &str) -> (Option<usize>, &str)
    ensures value { (result.0, chars result.1.now) ≡ digits (chars text.now) }
    ensures shorter { length (chars result.1.now) ≤ length (chars text.now) }
{
    let mut number = None;
    let mut rest = text;
    while let Some((digit, after)) = strip_digit(rest) {
        number = Some(append_digit(number, digit));
        rest = after;
    }
    (number, rest)
}

/// The number, if the whole text is one or more decimal digits. It saturates at `usize::MAX`.
#[tactic(auto, unfolding(crate::specs::Names::whole_number))]
pub fn whole_number(text: &str) -> Option<usize>
    ensures { result ≡ whole_number (chars text.now) }
{
    let (number, rest) = digits(text);
    if is_empty(rest) { number } else { None }
}

/// The number as an `isize`, at most `isize::MAX`.
fn positive(number: usize) -> isize
    ensures { result ≡ pos (min number (2 ^ 63 - 1)) }
{
    number.min(isize::MAX as usize) as isize
}

/// The negated number as an `isize`, at least `isize::MIN`.
fn negative(number: usize) -> isize
    ensures { result ≡ neg_ℤ (pos (min number (2 ^ 63))) }
{
    if number > isize::MAX as usize {
        isize::MIN
    } else {
        -(number as isize)
    }
}

/// The number, if the whole text is `+` or `-` and one or more decimal digits. It saturates at both ends of `isize`.
#[tactic(auto, unfolding(crate::specs::Names::signed))]
pub fn signed(text: &str) -> Option<isize>
    ensures { result ≡ signed (chars text.now) }
{
    let (sign, rest) = split_first(text)?;
    match sign {
        '+' => Some(positive(whole_number(rest)?)),
        '-' => Some(negative(whole_number(rest)?)),
        _ => None,
    }
}

/// The target of a text: a group number if it is all decimal digits, else a group name.
#[tactic(auto, unfolding(crate::specs::Names::named_target))]
fn named_target(text: &str) -> Target<'_>
    ensures { named_of result ≡ named_target (chars text.now) }
{
    match whole_number(text) {
        Some(number) => Target::ByNumber(number),
        None => Target::ByName(text),
    }
}

/// Parses the text of a reference, without its brackets: a group number or name, or a signed number, which is relative.
/// With `allow_level`, a signed recursion level may follow a number or a name. `None` if the text is none of these.
#[tactic(auto, unfolding(crate::specs::Names::reference))]
pub fn reference(allow_level: bool, text: &str) -> Option<Reference<'_>>
    ensures { option_map referred_of result ≡ reference allow_level (chars text.now) }
{
    let (name, rest) = split_name(text);
    if is_empty(name) {
        return Some(Reference {
            target: Target::Relative(signed(rest)?),
            level: None,
        });
    }
    let target = named_target(name);
    if is_empty(rest) {
        return Some(Reference {
            target,
            level: None,
        });
    }
    if !allow_level {
        return None;
    }
    let level = signed(rest)?;
    Some(Reference {
        target,
        level: Some(level),
    })
}
