//! The parser's options for a pattern's options.

ghost use Rattle.std.specs.Prelude.{◌≡◌, false};
ghost use Rattle.fancy_regex_meta.specs.Patterns.{reading_of};

use crate::options::RegexOptions;
use fancy_regex_tree::{Flags, ParseOptions};

/// The parser's options for these options.
pub fn parse_options_of(options: &RegexOptions) -> ParseOptions
    ensures { result ≡ reading_of options.now }
{
    ParseOptions {
        flags: Flags {
            casei: options.case_insensitive,
            multi: options.multi_line,
            dot_newline: options.dot_matches_new_line,
            verbose: options.ignore_whitespace,
            swap_greed: false,
            crlf: options.crlf,
        },
        unicode: options.unicode_mode,
        oniguruma: options.oniguruma_mode,
        ignore_numbered: options.ignore_numbered_groups_when_named_groups_exist,
    }
}
