//! The general newline, `\R`.

ghost use Rattle.std.specs.Prelude.{◌≡◌};
ghost use Rattle.fancy_regex_meaning.specs.Ways as ways;
ghost use Rattle.fancy_regex_program.specs.Machine as machine;
ghost use Rattle.fancy_regex_prefilter.specs.RunContexts.{setting_of_run};

use crate::assertion::is_before_byte;
use crate::matching::char_at;
use crate::run_context::RunContext;

/// The byte offset after the newline at `position`, if there is one.
pub fn match_newline(run: &RunContext<'_>, unicode: bool, position: usize) -> Option<usize>
    ensures { result ≡ machine.match_newline (setting_of_run run.now) unicode position }
{
    let text = run.text.as_bytes();
    if is_before_byte(text, b'\r', position) && is_before_byte(text, b'\n', position + 1) {
        return Some(position + 2);
    }
    let c = char_at(run.text, position)?;
    if is_newline(run, unicode, c) {
        Some(position + c.len_utf8())
    } else {
        None
    }
}

/// Whether the character is a newline; with `unicode` also U+0085, U+2028 and U+2029.
fn is_newline(run: &RunContext<'_>, unicode: bool, c: char) -> bool
    ensures { result ≡ ways.is_newline (setting_of_run run.now) unicode c }
{
    ('\n' <= c && c <= '\r') || (unicode && (c == '\u{85}' || c == '\u{2028}' || c == '\u{2029}'))
}
