//! The pieces of a text between the matches of a regex, as lines.

ghost use Rattle.std.specs.Prelude.{◌≡◌, ◌≢◌, ◌++◌, IfOk, IfErr, OnOk, string_bytes};
ghost use Rattle.fancy_regex.specs.Error.TheVariants.{Memory};
ghost use Rattle.fancy_regex.specs.IterationErrors.{IsErrorOfIteration};
ghost use Rattle.fancy_regex.specs.IterationLimits.{IterationStays};
ghost use Rattle.fancy_regex.specs.Searches.{pieces};
ghost use Rattle.fancy_search_text.specs.Lines.{piece_line, piece_lines};
ghost use Rattle.fancy_regex.specs.TextMatches.{matches_of, IsErrorOfSearch};

use fancy_regex::{Regex, Result};
use std::alloc::{AllocError, Global};

/// A line for each piece of the text between the matches: its length in bytes, `:` and the piece. `RuntimeError` if a search
/// exceeds a limit, or `Memory`.
pub fn piece_lines(alloc: Global, regex: &Regex, text: &str) -> Result<String>
    ensures lines { IfOk result (λ lines. string_bytes lines ≡ piece_lines (pieces text.now (matches_of regex.now text.now))) }
    ensures fails { IfErr result (IsErrorOfSearch regex.now.meta.options (string_bytes regex.now.meta.pattern) text.now) }
    ensures stays { OnOk result (IterationStays regex.now.meta text.now) }
    ensures passes { IfErr result (λ e. e ≢ Memory → IsErrorOfIteration regex.now.meta text.now e) }
{
    let mut lines = String::new(alloc);
    let mut pieces = regex.split(alloc, text);
    while let Some(piece) = pieces.next() {
        write_piece(&mut lines, piece?)?;
    }
    Ok(lines)
}

/// Appends the line of a piece.
fn write_piece(lines: &mut String, piece: &str) -> std::result::Result<(), AllocError>
    ensures { OnOk result (string_bytes lines.new ≡ string_bytes lines.old ++ piece_line piece.now) }
{
    writeln!(lines, "{}:{}", piece.len(), piece)
}
