//! Quantifiers: `?`, `*`, `+` and bounds in braces, and their suffixes `?` and `+`.

ghost use Rattle.std.specs.Prelude.{◌≡◌, ◌<◌, ◌≤◌, length, chars, option_map, IfOk, IfErr, IfSome};
ghost use Rattle.fancy_regex_text.specs.ParseFault.{Gives};
ghost use Rattle.fancy_regex_text.specs.FaultOnly.{IsFault};
ghost use Rattle.fancy_regex_lex.specs.Quantifiers.{spaced_digits, bounds, no_upper_bound, exactly, range, after_comma, after_number, counted, sign, leading_quantifier, lazy_suffix, possessive_suffix, quantifier_suffix};

use crate::token::{Quantifier, QuantifierSuffix};
use fancy_regex_text::{ReadError, digits, next_token, skip, split_first, strip_prefix};

/// Skips layout, decimal digits and layout again: the number of the digits, `None` if there are none, and the rest.
/// `None` if the text ends inside a comment.
#[tactic(auto, unfolding(crate::specs::Quantifiers::spaced_digits))]
fn spaced_digits(verbose: bool, text: &str) -> Option<(Option<usize>, &str)>
    ensures value { option_map (λ x. (x.0, chars x.1.now)) result ≡ spaced_digits verbose (chars text.now) }
    ensures shorter { IfSome result (λ x. length (chars x.1.now) ≤ length (chars text.now)) }
{
    let (number, rest) = digits(next_token(verbose, text)?);
    Some((number, next_token(verbose, rest)?))
}

/// The quantifier `{lo,hi}`. `None` if a bound is too large: at least `usize::MAX`.
#[tactic(auto, unfolding(crate::specs::Quantifiers::bounds))]
fn bounds(lo: usize, hi: usize) -> Option<Quantifier>
    ensures { result ≡ bounds lo hi }
{
    if lo < usize::MAX && hi < usize::MAX {
        Some(Quantifier {
            lo,
            hi,
            braces: true,
        })
    } else {
        None
    }
}

/// The quantifier `{lo,}`. `None` if the bound is too large: at least `usize::MAX`.
#[tactic(auto, unfolding(crate::specs::Quantifiers::no_upper_bound))]
fn no_upper_bound(lo: usize) -> Option<Quantifier>
    ensures { result ≡ no_upper_bound lo }
{
    if lo < usize::MAX {
        Some(Quantifier {
            lo,
            hi: usize::MAX,
            braces: true,
        })
    } else {
        None
    }
}

/// The quantifier `{n,}`, `{,m}` or `{n,m}`, by the numbers before and after the comma. `None` for `{,}`.
#[tactic(auto, unfolding(crate::specs::Quantifiers::range))]
fn range(first: Option<usize>, second: Option<usize>) -> Option<Quantifier>
    ensures { result ≡ range first second }
{
    match (first, second) {
        (None, None) => None,
        (Some(lo), None) => no_upper_bound(lo),
        (None, Some(hi)) => bounds(0, hi),
        (Some(lo), Some(hi)) => bounds(lo, hi),
    }
}

/// Parses bounds in braces from after the comma; `first` is the number before it.
#[tactic(auto, unfolding(crate::specs::Quantifiers::after_comma))]
fn after_comma(verbose: bool, first: Option<usize>, text: &str) -> Option<(Quantifier, &str)>
    ensures value { option_map (λ x. (x.0, chars x.1.now)) result ≡ after_comma verbose first (chars text.now) }
    ensures shorter { IfSome result (λ x. length (chars x.1.now) ≤ length (chars text.now)) }
{
    let (second, close) = spaced_digits(verbose, text)?;
    let rest = strip_prefix(close, "}")?;
    Some((range(first, second)?, rest))
}

/// Parses bounds in braces from after the first number, `first`, which may be missing.
#[tactic(auto, unfolding(crate::specs::Quantifiers::after_number, crate::specs::Quantifiers::exactly))]
fn after_number(verbose: bool, first: Option<usize>, text: &str) -> Option<(Quantifier, &str)>
    ensures value { option_map (λ x. (x.0, chars x.1.now)) result ≡ after_number verbose first (chars text.now) }
    ensures shorter { IfSome result (λ x. length (chars x.1.now) ≤ length (chars text.now)) }
{
    let (c, rest) = split_first(text)?;
    match c {
        '}' => {
            let number = first?;
            Some((bounds(number, number)?, rest))
        }
        ',' => after_comma(verbose, first, rest),
        _ => None,
    }
}

/// Parses bounds in braces, from after the `{`. `None` if this is not a quantifier.
#[tactic(auto, unfolding(crate::specs::Quantifiers::counted))]
fn counted(verbose: bool, text: &str) -> Option<(Quantifier, &str)>
    ensures value { option_map (λ x. (x.0, chars x.1.now)) result ≡ counted verbose (chars text.now) }
    ensures shorter { IfSome result (λ x. length (chars x.1.now) ≤ length (chars text.now)) }
{
    let (first, rest) = spaced_digits(verbose, text)?;
    after_number(verbose, first, rest)
}

/// A quantifier of one character.
fn sign(lo: usize, hi: usize) -> Quantifier
    ensures { result ≡ sign lo hi }
{
    Quantifier {
        lo,
        hi,
        braces: false,
    }
}

/// The quantifier that the text starts with, and the rest, which may start with its suffix. `None` if the text does not
/// start with a quantifier: a `{` without well-formed bounds is a literal. `verbose` is the flag `x`.
#[tactic(auto, unfolding(crate::specs::Quantifiers::leading_quantifier))]
pub fn leading_quantifier(verbose: bool, text: &str) -> Option<(Quantifier, &str)>
    ensures value { option_map (λ x. (x.0, chars x.1.now)) result ≡ leading_quantifier verbose (chars text.now) }
    ensures shorter { IfSome result (λ x. length (chars x.1.now) < length (chars text.now)) }
{
    let (c, rest) = split_first(text)?;
    match c {
        '?' => Some((sign(0, 1), rest)),
        '*' => Some((sign(0, usize::MAX), rest)),
        '+' => Some((sign(1, usize::MAX), rest)),
        '{' => counted(verbose, rest),
        _ => None,
    }
}

/// Whether the text starts with `?`, and the rest after it.
#[tactic(auto, unfolding(crate::specs::Quantifiers::lazy_suffix))]
fn lazy_suffix(text: &str) -> (bool, &str)
    ensures value { (result.0, chars result.1.now) ≡ lazy_suffix (chars text.now) }
    ensures shorter { length (chars result.1.now) ≤ length (chars text.now) }
{
    match strip_prefix(text, "?") {
        Some(rest) => (true, rest),
        None => (false, text),
    }
}

/// Whether the text starts with `+`, and the rest after it. If `may` is false, a `+` is left in the text.
#[tactic(auto, unfolding(crate::specs::Quantifiers::possessive_suffix))]
fn possessive_suffix(may: bool, text: &str) -> (bool, &str)
    ensures value { (result.0, chars result.1.now) ≡ possessive_suffix may (chars text.now) }
    ensures shorter { length (chars result.1.now) ≤ length (chars text.now) }
{
    match strip_prefix(text, "+") {
        Some(rest) if may => (true, rest),
        _ => (false, text),
    }
}

/// The suffix of a quantifier, after layout, and the rest. `braces` tells whether the quantifier is written in braces: in
/// Oniguruma mode a `+` after braces is a quantifier of its own. Fails with `UnclosedOpenParen` at the end of the text if it
/// ends inside a comment before the suffix. Allocates nothing.
#[tactic(auto, unfolding(crate::specs::Quantifiers::quantifier_suffix))]
pub fn quantifier_suffix(
    oniguruma: bool,
    verbose: bool,
    braces: bool,
    text: &str,
) -> Result<(QuantifierSuffix, &str), ReadError>
    ensures value { Gives (λ x. (x.0, chars x.1.now)) result (quantifier_suffix oniguruma verbose braces (chars text.now)) }
    ensures shorter { IfOk result (λ x. length (chars x.1.now) ≤ length (chars text.now)) }
    ensures fault_only { IfErr result IsFault }
{
    let here = skip(verbose, text)?;
    let (lazy, after) = lazy_suffix(here);
    let (possessive, rest) = possessive_suffix(!(oniguruma && braces), after);
    Ok((QuantifierSuffix { lazy, possessive }, rest))
}
