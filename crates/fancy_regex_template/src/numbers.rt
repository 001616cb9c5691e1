//! Numbers in templates. A number that does not fit a `usize` is none.

ghost use Rattle.std.specs.Prelude.{◌≡◌, ◌<◌, length, chars, option_map, IfSome};
ghost use Rattle.fancy_regex_template.specs.Numbers.{append_digit, leading_number, number_of};

use fancy_regex_text::{is_empty, split_first};

/// The number with the first character as one more decimal digit at its end, and the rest of the text. `None` if that
/// character is no digit, or the number does not fit.
#[tactic(auto, unfolding(crate::specs::Numbers::append_digit))]
fn append_digit(number: usize, text: &str) -> Option<(usize, &str)>
    ensures value { option_map (λ x. (x.0, chars x.1.now)) result ≡ append_digit number (chars text.now) }
    ensures shorter { IfSome result (λ x. length (chars x.1.now) < length (chars text.now)) }
{
    let (first, rest) = split_first(text)?;
    let digit = first.to_digit(10)?;
    let longer = number.checked_mul(10)?.checked_add(digit as usize)?;
    Some((longer, rest))
}

/// The number that the leading decimal digits write, as many of them as fit, and the rest of the text. `None` if the text
/// does not begin with a digit.
pub(crate) fn leading_number(text: &str) -> Option<(usize, &str)>
    ensures value { option_map (λ x. (x.0, chars x.1.now)) result ≡ leading_number (chars text.now) }
    ensures shorter { IfSome result (λ x. length (chars x.1.now) < length (chars text.now)) }
{
    let (mut number, mut rest) = append_digit(0, text)?;
    while let Some((longer, after)) = append_digit(number, rest) {
        number = longer;
        rest = after;
    }
    Some((number, rest))
}

/// The group number that a name in a template writes: `None` unless it is one or more decimal digits, and fits.
#[tactic(auto, unfolding(crate::specs::Numbers::number_of))]
pub fn number_of(name: &str) -> Option<usize>
    ensures { result ≡ number_of (chars name.now) }
{
    let (number, rest) = leading_number(name)?;
    if is_empty(rest) { Some(number) } else { None }
}
