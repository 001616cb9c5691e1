//! Prints dots, assertions and quantifiers.

ghost use Rattle.std.specs.Prelude.{◌≡◌, ◌++◌, OnOk, chars, string_bytes};
ghost use Rattle.fancy_regex_tree.specs.Printed.{dot_text, start_line_text, end_line_text, assertion_text, braces_text, bounds_text, quantifier_text};

use crate::expr::Assertion;
use crate::print_text::{print_ascii, print_char, print_number};
use std::alloc::AllocError;

/// Appends a dot, in a group with the flags that it needs.
#[tactic(auto, unfolding(crate::specs::Printed::dot_text))]
pub fn print_dot(out: &mut String, newline: bool, crlf: bool) -> Result<(), AllocError>
    ensures { OnOk result (chars (string_bytes out.new) ≡ chars (string_bytes out.old) ++ dot_text newline crlf) }
{
    match (newline, crlf) {
        (true, _) => print_ascii(out, "(?s:.)"),
        (false, true) => print_ascii(out, "(?R-s:.)"),
        (false, false) => print_ascii(out, "."),
    }
}

/// Appends `^` in a group with the flag `m`, and `R` if `crlf` is set.
#[tactic(auto, unfolding(crate::specs::Printed::start_line_text))]
fn print_start_line(out: &mut String, crlf: bool) -> Result<(), AllocError>
    ensures { OnOk result (chars (string_bytes out.new) ≡ chars (string_bytes out.old) ++ start_line_text crlf) }
{
    if crlf {
        print_ascii(out, "(?Rm:^)")
    } else {
        print_ascii(out, "(?m:^)")
    }
}

/// Appends `$` in a group with the flag `m`, and `R` if `crlf` is set.
#[tactic(auto, unfolding(crate::specs::Printed::end_line_text))]
fn print_end_line(out: &mut String, crlf: bool) -> Result<(), AllocError>
    ensures { OnOk result (chars (string_bytes out.new) ≡ chars (string_bytes out.old) ++ end_line_text crlf) }
{
    if crlf {
        print_ascii(out, "(?Rm:$)")
    } else {
        print_ascii(out, "(?m:$)")
    }
}

/// Appends an assertion; one that is not printable has no text.
#[tactic(auto, unfolding(crate::specs::Printed::assertion_text))]
pub fn print_assertion(out: &mut String, assertion: Assertion) -> Result<(), AllocError>
    ensures { OnOk result (chars (string_bytes out.new) ≡ chars (string_bytes out.old) ++ assertion_text assertion) }
{
    match assertion {
        Assertion::StartText => print_ascii(out, "^"),
        Assertion::EndText => print_ascii(out, "$"),
        Assertion::StartLine { crlf } => print_start_line(out, crlf),
        Assertion::EndLine { crlf } => print_end_line(out, crlf),
        Assertion::LeftWordBoundary => print_ascii(out, "\\<"),
        Assertion::RightWordBoundary => print_ascii(out, "\\>"),
        Assertion::LeftWordHalfBoundary => print_ascii(out, "\\b{start-half}"),
        Assertion::RightWordHalfBoundary => print_ascii(out, "\\b{end-half}"),
        Assertion::WordBoundary => print_ascii(out, "\\b"),
        Assertion::NotWordBoundary => print_ascii(out, "\\B"),
        Assertion::EndTextIgnoreTrailingNewlines { .. } | Assertion::StartLineOniguruma { .. } => {
            Ok(())
        }
    }
}

/// Appends `{lo}`, `{lo,}` or `{lo,hi}`; `hi` of `usize::MAX` is no limit.
#[tactic(auto, unfolding(crate::specs::Printed::braces_text))]
fn print_braces(out: &mut String, lo: usize, hi: usize) -> Result<(), AllocError>
    ensures { OnOk result (chars (string_bytes out.new) ≡ chars (string_bytes out.old) ++ braces_text lo hi) }
{
    print_char(out, '{')?;
    print_number(out, lo)?;
    if lo != hi {
        print_char(out, ',')?;
        if hi != usize::MAX {
            print_number(out, hi)?;
        }
    }
    print_char(out, '}')
}

/// Appends `?`, `*`, `+` or bounds in braces; `hi` of `usize::MAX` is no limit.
#[tactic(auto, unfolding(crate::specs::Printed::bounds_text))]
fn print_bounds(out: &mut String, lo: usize, hi: usize) -> Result<(), AllocError>
    ensures { OnOk result (chars (string_bytes out.new) ≡ chars (string_bytes out.old) ++ bounds_text lo hi) }
{
    match (lo, hi) {
        (0, 1) => print_char(out, '?'),
        (0, usize::MAX) => print_char(out, '*'),
        (1, usize::MAX) => print_char(out, '+'),
        _ => print_braces(out, lo, hi),
    }
}

/// Appends a quantifier, with `?` after it if it is lazy; `hi` of `usize::MAX` is no limit.
#[tactic(auto, unfolding(crate::specs::Printed::quantifier_text))]
pub fn print_quantifier(
    out: &mut String,
    lo: usize,
    hi: usize,
    greedy: bool,
) -> Result<(), AllocError>
    ensures { OnOk result (chars (string_bytes out.new) ≡ chars (string_bytes out.old) ++ quantifier_text lo hi greedy) }
{
    print_bounds(out, lo, hi)?;
    if !greedy {
        print_char(out, '?')?;
    }
    Ok(())
}
