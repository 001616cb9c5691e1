//! Layout: what is skipped between tokens. That is comments `(?#..)`, and under the flag `x` blanks and comments from `#`
//! to the end of the line.

ghost use Rattle.std.specs.Prelude.{◌≡◌, ◌≤◌, ◌<◌, length, chars, option_map, IfOk, IfErr, IfSome, ◌∷◌};
ghost use Rattle.fancy_regex_text.specs.Layout.{state_after_blank, begins_comment, state_after, layout_step, ended, next_token, skip};
ghost use Rattle.fancy_regex_text.specs.ParseFault.{Gives};
ghost use Rattle.fancy_regex_text.specs.LayoutStates.{layout_state_of};
ghost use Rattle.fancy_regex_text.specs.FaultOnly.{IsFault};

use crate::fault::{ParseError, ParseFault, ReadError};
use crate::text::{has_prefix, split_first};

/// The state of the scanner of layout at a position.
#[derive(Clone, Copy)]
pub enum LayoutState {
    /// Between tokens.
    Nothing,
    /// In a comment after `#`, which ends with the next newline.
    Line,
    /// In a comment `(?#..)`.
    Comment,
    /// In a comment `(?#..)`, directly after a backslash: the next character does not close it.
    CommentEscape,
}

/// Under the flag `x`, the state after a blank or a `#` between tokens. `None` for any other character.
#[tactic(auto, unfolding(crate::specs::Layout::state_after_blank))]
fn state_after_blank(c: char) -> Option<LayoutState>
    ensures { option_map layout_state_of result ≡ state_after_blank c }
{
    match c {
        ' ' | '\t' | '\r' | '\n' => Some(LayoutState::Nothing),
        '#' => Some(LayoutState::Line),
        _ => None,
    }
}

/// Whether the text begins with `(?#`.
#[tactic(auto, unfolding(crate::specs::Layout::begins_comment))]
fn begins_comment(text: &str) -> bool
    ensures { result ≡ begins_comment (chars text.now) }
{
    has_prefix(text, "(?#")
}

/// The state after the first character `c` of the text. `None` if that character is not layout.
#[tactic(auto, unfolding(crate::specs::Layout::state_after))]
fn state_after(verbose: bool, inside: LayoutState, c: char, text: &str) -> Option<LayoutState>
    ensures { option_map layout_state_of result ≡ state_after verbose (layout_state_of inside) c (chars text.now) }
{
    match inside {
        LayoutState::Nothing => {
            if begins_comment(text) {
                Some(LayoutState::Comment)
            } else if verbose {
                state_after_blank(c)
            } else {
                None
            }
        }
        LayoutState::Line => {
            if c == '\n' {
                Some(LayoutState::Nothing)
            } else {
                Some(LayoutState::Line)
            }
        }
        LayoutState::Comment => match c {
            ')' => Some(LayoutState::Nothing),
            '\\' => Some(LayoutState::CommentEscape),
            _ => Some(LayoutState::Comment),
        },
        LayoutState::CommentEscape => Some(LayoutState::Comment),
    }
}

/// Skips one character of layout: the state after it, and the rest of the text. `None` if the first character is not
/// layout, or the text is empty.
#[tactic(auto, unfolding(crate::specs::Layout::layout_step))]
fn layout_step(verbose: bool, inside: LayoutState, text: &str) -> Option<(LayoutState, &str)>
    ensures value { option_map (λ x. (layout_state_of x.0, chars x.1.now)) result
        ≡ layout_step verbose (layout_state_of inside) (chars text.now) }
    ensures shorter { IfSome result (λ x. length (chars x.1.now) < length (chars text.now)) }
{
    let (c, rest) = split_first(text)?;
    let next = state_after(verbose, inside, c, text)?;
    Some((next, rest))
}

/// The text, if layout may end in this state. `None` inside a comment `(?#..)`.
#[tactic(auto, unfolding(crate::specs::Layout::ended))]
fn ended(inside: LayoutState, text: &str) -> Option<&str>
    ensures value { option_map (λ rest. chars rest.now) result ≡ ended (layout_state_of inside) (chars text.now) }
    ensures same { IfSome result (λ rest. chars rest.now ≡ chars text.now) }
{
    match inside {
        LayoutState::Nothing | LayoutState::Line => Some(text),
        LayoutState::Comment | LayoutState::CommentEscape => None,
    }
}

/// The text after its leading layout, from the first token on. `None` if the text ends inside a comment `(?#..)`. `verbose`
/// is the flag `x`.
pub fn next_token(verbose: bool, text: &str) -> Option<&str>
    ensures value { option_map (λ rest. chars rest.now) result ≡ next_token verbose (chars text.now) }
    ensures shorter { IfSome result (λ rest. length (chars rest.now) ≤ length (chars text.now)) }
{
    let mut inside = LayoutState::Nothing;
    let mut rest = text;
    while let Some((next, after)) = layout_step(verbose, inside, rest) {
        inside = next;
        rest = after;
    }
    ended(inside, rest)
}

/// The text after its leading layout, from the first token on. `verbose` is the flag `x`. Fails with
/// [`ParseError::UnclosedOpenParen`] at the end of the text if it ends inside a comment `(?#..)`. Allocates nothing.
#[tactic(auto, unfolding(crate::specs::Layout::skip, crate::specs::Text::bytes))]
pub fn skip(verbose: bool, text: &str) -> Result<&str, ReadError>
    ensures value { Gives (λ rest. chars rest.now) result (skip verbose (chars text.now)) }
    ensures shorter { IfOk result (λ rest. length (chars rest.now) ≤ length (chars text.now)) }
    ensures fault_only { IfErr result IsFault }
{
    let Some(rest) = next_token(verbose, text) else {
        return Err(ReadError::ParseFault(ParseFault {
            left: 0,
            kind: ParseError::UnclosedOpenParen,
        }));
    };
    Ok(rest)
}
