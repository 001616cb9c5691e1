//! A pattern as the line of its printed text.

ghost use Rattle.std.specs.Prelude.{IfOk, IfErr, option_map, string_bytes};
ghost use Rattle.fancy_regex.specs.Reading.{IsReadingError};
ghost use Rattle.fancy_search_text.specs.Printed.{IsPrinted};

use fancy_regex::{RegexOptionsBuilder, Result};
use std::alloc::Global;

/// The printed text of a pattern that is parsed with these options, and a newline; `None` if the pattern does not reprint.
/// `ParseError` if the text is no pattern, or `Memory`.
pub fn printed_line(
    alloc: Global,
    options: &RegexOptionsBuilder,
    pattern: &str,
) -> Result<Option<String>>
    ensures line { IfOk result (λ line. IsPrinted options.now.options pattern.now (option_map string_bytes line)) }
    ensures fails { IfErr result (IsReadingError options.now.options pattern.now) }
{
    match options.reprint(alloc, pattern)? {
        Some(mut line) => {
            line.push('\n')?;
            Ok(Some(line))
        }
        None => Ok(None),
    }
}
