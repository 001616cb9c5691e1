//! The flags after `(?`.

ghost use Rattle.std.specs.Prelude.{◌≡◌, ◌<◌, ◌≤◌, length, chars, option_map, IfOk, IfSome, true, ◌∷◌};
ghost use Rattle.fancy_regex_text.specs.Text.{IsSuffix, prefix_before};
ghost use Rattle.fancy_regex_text.specs.ParseFault.{Gives, Stops, unknown_flag};
ghost use Rattle.fancy_regex_lex.specs.FlagLetters.{next_letter, closed, flag_letter, flag_letters};

use crate::token::Flags;
use fancy_regex_text::{ParseError, ReadError, fail_at, prefix_before, split_first};
use std::alloc::Global;

/// Fails with `UnknownFlag` at the start of `here`. The payload is the text of `here` before `rest`: up to and with the
/// character that is not a flag.
fn unknown<T>(alloc: Global, here: &str, rest: &str) -> Result<T, ReadError>
    requires { IsSuffix (chars rest.now) (chars here.now) }
    ensures { Stops result (unknown_flag (prefix_before (chars here.now) (chars rest.now))) (chars here.now) }
{
    let text = String::from_str(alloc, prefix_before(here, rest))?;
    fail_at(ParseError::UnknownFlag(text), here)
}

/// The flags after the letter `c`, which sets its flag if `on`, else clears it; and whether later letters set their flags,
/// which they do up to the first `-`. `rest` is the text after `c`. Fails with `UnknownFlag`, or with
/// `ChangingUnicodeModeUnsupported` for a `u` that changes `unicode`, at the start of `here`; or for want of memory.
#[tactic(auto, unfolding(crate::specs::FlagLetters::flag_letter))]
fn flag_letter(
    alloc: Global,
    unicode: bool,
    on: bool,
    flags: Flags,
    c: char,
    rest: &str,
    here: &str,
) -> Result<(Flags, bool), ReadError>
    requires { IsSuffix (chars rest.now) (chars here.now) }
    ensures { Gives (λ x. x) result (flag_letter unicode (chars here.now) on flags c (chars rest.now)) }
{
    let changed = match c {
        'i' => Flags { casei: on, ..flags },
        'm' => Flags { multi: on, ..flags },
        's' => Flags {
            dot_newline: on,
            ..flags
        },
        'x' => Flags {
            verbose: on,
            ..flags
        },
        'U' => Flags {
            swap_greed: on,
            ..flags
        },
        'R' => Flags { crlf: on, ..flags },
        'u' if on == unicode => flags,
        'u' => return fail_at(ParseError::ChangingUnicodeModeUnsupported, here),
        '-' if on => return Ok((flags, false)),
        _ => return unknown(alloc, here, rest),
    };
    Ok((changed, on))
}

/// Parses flags up to and with `:` or `)`. Returns `flags` as changed by them, whether a group body follows (after `:`), and
/// the rest. `unicode` is whether the pattern is in Unicode mode. `here` is the text from the open parenthesis on, of which
/// `text` must be a suffix. Fails with `UnknownFlag` or `ChangingUnicodeModeUnsupported` at the open parenthesis, with
/// `UnclosedOpenParen` at the end of the pattern, or for want of memory.
pub fn flag_letters<'t>(
    alloc: Global,
    unicode: bool,
    flags: Flags,
    here: &str,
    text: &'t str,
) -> Result<(Flags, bool, &'t str), ReadError>
    requires { IsSuffix (chars text.now) (chars here.now) }
    ensures value { Gives (λ x. (x.0, x.1, chars x.2.now)) result (flag_letters unicode (chars here.now) true flags (chars text.now)) }
    ensures shorter { IfOk result (λ x. length (chars x.2.now) ≤ length (chars text.now)) }
{
    let mut on = true;
    let mut changed = flags;
    let mut rest = text;
    while let Some((c, after)) = next_letter(rest) {
        let (flags, still_on) = flag_letter(alloc, unicode, on, changed, c, after, here)?;
        changed = flags;
        on = still_on;
        rest = after;
    }
    closed(changed, rest)
}

/// The first character and the rest. `None` if it is `:` or `)`, or the text is empty.
#[tactic(auto, unfolding(crate::specs::FlagLetters::next_letter))]
fn next_letter(text: &str) -> Option<(char, &str)>
    ensures value { option_map (λ x. (x.0, chars x.1.now)) result ≡ next_letter (chars text.now) }
    ensures whole { IfSome result (λ x. chars text.now ≡ x.0 ∷ chars x.1.now) }
{
    let (c, rest) = split_first(text)?;
    if c == ':' || c == ')' {
        return None;
    }
    Some((c, rest))
}

/// Parses the `:` or `)` that ends the flags: the flags, whether it is `:`, and the rest. Fails with `UnclosedOpenParen` at
/// any other text, which is then empty.
#[tactic(auto, unfolding(crate::specs::FlagLetters::closed))]
fn closed(flags: Flags, text: &str) -> Result<(Flags, bool, &str), ReadError>
    ensures value { Gives (λ x. (x.0, x.1, chars x.2.now)) result (closed flags (chars text.now)) }
    ensures shorter { IfOk result (λ x. length (chars x.2.now) ≤ length (chars text.now)) }
{
    match split_first(text) {
        Some((':', rest)) => Ok((flags, true, rest)),
        Some((')', rest)) => Ok((flags, false, rest)),
        _ => fail_at(ParseError::UnclosedOpenParen, text),
    }
}
