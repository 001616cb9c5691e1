//! What an open parenthesis starts. In these functions `here` is the text from that parenthesis on, where errors are
//! reported, and `text` the rest that is still to be read.

ghost use Rattle.std.specs.Prelude.{◌≡◌, ◌-◌, ◌<◌, ◌≤◌, length, chars, option_map, IfOk, IfSome};
ghost use Rattle.fancy_regex_text.specs.Text.{IsSuffix};
ghost use Rattle.fancy_regex_text.specs.ParseFault.{Gives};
ghost use Rattle.fancy_regex_text.specs.Names.{referred_of};
ghost use Rattle.fancy_regex_lex.specs.Openings.{later_verb, control_verb, named, numbered, bracketed, reference_condition, tested, condition, after_angle, after_tilde, flags, python, after_question, opening, opening_of};

use crate::escapes::delimited_reference;
use crate::flags::flag_letters;
use crate::token::{Flags, Look, Opening, Verb};
use fancy_regex_text::{
    ParseError, ReadError, Reference, Target, digits, fail_at, is_empty, is_name, reference,
    rest_after_first, signed, split_first, split_once, strip_prefix,
};
use std::alloc::Global;

/// `(*COMMIT)`, `(*SKIP)` or `(*PRUNE)`, and the rest.
#[tactic(auto, unfolding(crate::specs::Openings::later_verb))]
fn later_verb(text: &str) -> Option<(Verb, &str)>
    ensures value { option_map (λ x. (x.0, chars x.1.now)) result ≡ later_verb (chars text.now) }
    ensures shorter { IfSome result (λ x. length (chars x.1.now) < length (chars text.now)) }
{
    if let Some(rest) = strip_prefix(text, "(*COMMIT)") {
        return Some((Verb::Commit, rest));
    }
    if let Some(rest) = strip_prefix(text, "(*SKIP)") {
        return Some((Verb::Skip, rest));
    }
    let rest = strip_prefix(text, "(*PRUNE)")?;
    Some((Verb::Prune, rest))
}

/// The backtracking control verb that the text starts with, and the rest.
#[tactic(auto, unfolding(crate::specs::Openings::control_verb))]
fn control_verb(text: &str) -> Option<(Verb, &str)>
    ensures value { option_map (λ x. (x.0, chars x.1.now)) result ≡ control_verb (chars text.now) }
    ensures shorter { IfSome result (λ x. length (chars x.1.now) < length (chars text.now)) }
{
    if let Some(rest) = strip_prefix(text, "(*FAIL)") {
        return Some((Verb::Fail, rest));
    }
    if let Some(rest) = strip_prefix(text, "(*ACCEPT)") {
        return Some((Verb::Accept, rest));
    }
    later_verb(text)
}

/// Parses a named capture group from its name on, up to `>`. Fails with `InvalidGroupName`.
#[tactic(auto, unfolding(crate::specs::Openings::named))]
fn named<'t>(here: &str, text: &'t str) -> Result<(Opening<'t>, &'t str), ReadError>
    ensures value { Gives (λ x. (opening_of x.0, chars x.1.now)) result (named (chars here.now) (chars text.now)) }
    ensures shorter { IfOk result (λ x. length (chars x.1.now) ≤ length (chars text.now)) }
{
    let Some((name, rest)) = split_once(text, '>') else {
        return fail_at(ParseError::InvalidGroupName, here);
    };
    if is_name(name) {
        return Ok((Opening::Capturing(Some(name)), rest));
    }
    fail_at(ParseError::InvalidGroupName, here)
}

/// The reference of a condition of decimal digits, with or without a recursion level.
#[tactic(auto, unfolding(crate::specs::Openings::numbered))]
fn numbered(text: &str) -> Option<Reference<'_>>
    ensures { option_map referred_of result ≡ numbered (chars text.now) }
{
    let (number, rest) = digits(text);
    let target = Target::ByNumber(number?);
    if is_empty(rest) {
        return Some(Reference {
            target,
            level: None,
        });
    }
    let level = signed(rest)?;
    Some(Reference {
        target,
        level: Some(level),
    })
}

/// The reference of a condition in angle brackets or quotes, from after the first of them. The text must end with `close`.
#[tactic(auto, unfolding(crate::specs::Openings::bracketed))]
fn bracketed(close: char, text: &str) -> Option<Reference<'_>>
    ensures { option_map referred_of result ≡ bracketed close (chars text.now) }
{
    let (inside, rest) = split_once(text, close)?;
    if is_empty(rest) {
        reference(true, inside)
    } else {
        None
    }
}

/// The reference that the whole text of a condition is. `None` if it is not one.
#[tactic(auto, unfolding(crate::specs::Openings::reference_condition))]
fn reference_condition(text: &str) -> Option<Reference<'_>>
    ensures { option_map referred_of result ≡ reference_condition (chars text.now) }
{
    let (c, rest) = split_first(text)?;
    match c {
        '<' => bracketed('>', rest),
        '\'' => bracketed('\'', rest),
        _ => numbered(text),
    }
}

/// Parses a condition that is not `DEFINE`: a reference up to `)`, or else an expression, of which nothing is read.
#[tactic(auto, unfolding(crate::specs::Openings::tested))]
fn tested(text: &str) -> (Opening<'_>, &str)
    ensures value { (opening_of result.0, chars result.1.now) ≡ tested (chars text.now) }
    ensures shorter { length (chars result.1.now) ≤ length (chars text.now) }
{
    let Some((inside, rest)) = split_once(text, ')') else {
        return (Opening::IfMatches, text);
    };
    match reference_condition(inside) {
        Some(reference) => (Opening::IfSet(reference), rest),
        None => (Opening::IfMatches, text),
    }
}

/// Parses what follows `(?(`.
#[tactic(auto, unfolding(crate::specs::Openings::condition))]
fn condition(text: &str) -> (Opening<'_>, &str)
    ensures value { (opening_of result.0, chars result.1.now) ≡ condition (chars text.now) }
    ensures shorter { length (chars result.1.now) ≤ length (chars text.now) }
{
    match strip_prefix(text, "DEFINE)") {
        Some(rest) => (Opening::Define, rest),
        None => tested(text),
    }
}

/// Parses what follows `(?<`: a look-behind or a named group. Fails with `InvalidGroupName`.
#[tactic(auto, unfolding(crate::specs::Openings::after_angle))]
fn after_angle<'t>(here: &str, text: &'t str) -> Result<(Opening<'t>, &'t str), ReadError>
    ensures value { Gives (λ x. (opening_of x.0, chars x.1.now)) result (after_angle (chars here.now) (chars text.now)) }
    ensures shorter { IfOk result (λ x. length (chars x.1.now) ≤ length (chars text.now)) }
{
    if let Some(rest) = strip_prefix(text, "=") {
        return Ok((Opening::LookAround(Look::Behind), rest));
    }
    if let Some(rest) = strip_prefix(text, "!") {
        return Ok((Opening::LookAround(Look::BehindNeg), rest));
    }
    named(here, text)
}

/// Parses what follows `(?~`: an absent operator.
#[tactic(auto, unfolding(crate::specs::Openings::after_tilde))]
fn after_tilde(text: &str) -> (Opening<'_>, &str)
    ensures value { (opening_of result.0, chars result.1.now) ≡ after_tilde (chars text.now) }
    ensures shorter { length (chars result.1.now) ≤ length (chars text.now) }
{
    match strip_prefix(text, "|") {
        Some(rest) => (Opening::AbsentBar, rest),
        None => (Opening::Absent, text),
    }
}

/// Parses flags, and `:` or `)` after them. Fails as `flag_letters` does.
#[tactic(auto, unfolding(crate::specs::Openings::flags))]
fn flags<'t>(
    alloc: Global,
    unicode: bool,
    before: Flags,
    here: &str,
    text: &'t str,
) -> Result<(Opening<'t>, &'t str), ReadError>
    requires { IsSuffix (chars text.now) (chars here.now) }
    ensures value { Gives (λ x. (opening_of x.0, chars x.1.now)) result (flags unicode before (chars here.now) (chars text.now)) }
    ensures shorter { IfOk result (λ x. length (chars x.1.now) ≤ length (chars text.now)) }
{
    let (changed, has_body, rest) = flag_letters(alloc, unicode, before, here, text)?;
    if has_body {
        return Ok((Opening::NonCapturing(changed), rest));
    }
    Ok((Opening::SetFlags(changed), rest))
}

/// Parses what follows `(?` and starts with `P`: a named group, a back reference, a call, or flags. Fails with
/// `InvalidGroupName`, or as `flag_letters` does.
#[tactic(auto, unfolding(crate::specs::Openings::python))]
fn python<'t>(
    alloc: Global,
    unicode: bool,
    before: Flags,
    here: &str,
    text: &'t str,
) -> Result<(Opening<'t>, &'t str), ReadError>
    requires { IsSuffix (chars text.now) (chars here.now) }
    ensures value { Gives (λ x. (opening_of x.0, chars x.1.now)) result (python unicode before (chars here.now) (chars text.now)) }
    ensures shorter { IfOk result (λ x. length (chars x.1.now) ≤ length (chars text.now)) }
{
    if let Some(rest) = strip_prefix(text, "P<") {
        return named(here, rest);
    }
    if let Some(inside) = strip_prefix(text, "P=") {
        let (reference, rest) = delimited_reference(true, ')', here, inside)?;
        return Ok((Opening::BackReference(reference), rest));
    }
    if let Some(inside) = strip_prefix(text, "P>") {
        let (reference, rest) = delimited_reference(false, ')', here, inside)?;
        return Ok((Opening::Call(reference.target), rest));
    }
    flags(alloc, unicode, before, here, text)
}

/// Parses what follows `(?`. Fails with `InvalidGroupName`, or as `flag_letters` does.
#[tactic(auto, unfolding(crate::specs::Openings::after_question))]
fn after_question<'t>(
    alloc: Global,
    unicode: bool,
    before: Flags,
    here: &str,
    text: &'t str,
) -> Result<(Opening<'t>, &'t str), ReadError>
    requires { IsSuffix (chars text.now) (chars here.now) }
    ensures value { Gives (λ x. (opening_of x.0, chars x.1.now)) result (after_question unicode before (chars here.now) (chars text.now)) }
    ensures shorter { IfOk result (λ x. length (chars x.1.now) ≤ length (chars text.now)) }
{
    let Some((c, rest)) = split_first(text) else {
        return flags(alloc, unicode, before, here, text);
    };
    match c {
        '=' => Ok((Opening::LookAround(Look::Ahead), rest)),
        '!' => Ok((Opening::LookAround(Look::AheadNeg), rest)),
        '<' => after_angle(here, rest),
        'P' => python(alloc, unicode, before, here, text),
        '>' => Ok((Opening::Atomic, rest)),
        '(' => Ok(condition(rest)),
        '~' => Ok(after_tilde(rest)),
        _ => flags(alloc, unicode, before, here, text),
    }
}

/// Parses what the open parenthesis that the text starts with starts: the token, and the rest after it. `unicode` is whether
/// the pattern is in Unicode mode, and `before` are the flags that hold before the parenthesis. Fails at the parenthesis
/// with `InvalidGroupName`, `UnknownFlag` or `ChangingUnicodeModeUnsupported`; at the end of the pattern with
/// `UnclosedOpenParen`; or for want of memory, which only the payload of `UnknownFlag` asks for.
#[tactic(auto, unfolding(crate::specs::Openings::opening))]
pub fn opening(
    alloc: Global,
    unicode: bool,
    before: Flags,
    text: &str,
) -> Result<(Opening<'_>, &str), ReadError>
    ensures value { Gives (λ x. (opening_of x.0, chars x.1.now)) result (opening unicode before (chars text.now)) }
    ensures shorter { IfOk result (λ x. length (chars x.1.now) ≤ length (chars text.now) - 1) }
{
    if let Some(rest) = strip_prefix(text, "(?") {
        return after_question(alloc, unicode, before, text, rest);
    }
    match control_verb(text) {
        Some((verb, rest)) => Ok((Opening::Verb(verb), rest)),
        None => Ok((Opening::Capturing(None), rest_after_first(text))),
    }
}
