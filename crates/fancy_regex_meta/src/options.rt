//! `RegexOptions`: how a pattern is parsed, compiled and searched.

ghost use Rattle.std.specs.Prelude.{◌≡◌};

use fancy_regex_info::BytesMode;

/// How a pattern is parsed, compiled and searched.
#[derive(Clone, Copy, Debug, PartialEq, Eq)]
pub struct RegexOptions {
    /// Letters match case-insensitively, as after `(?i)`.
    pub case_insensitive: bool,
    /// `^` and `$` match at the start and the end of each line, as after `(?m)`.
    pub multi_line: bool,
    /// Whitespace and `#` comments in the pattern are ignored, as after `(?x)`.
    pub ignore_whitespace: bool,
    /// `.` also matches a newline, as after `(?s)`.
    pub dot_matches_new_line: bool,
    /// A carriage return with a newline ends a line, as after `(?R)`.
    pub crlf: bool,
    /// Character classes, case folding and word characters are those of Unicode if true, of ASCII if false.
    pub unicode_mode: bool,
    /// How often one search by a program may backtrack.
    pub backtrack_limit: usize,
    /// The most instructions a program may have; no cap if `None`.
    pub max_prog_size: Option<usize>,
    /// Empty matches are skipped.
    pub find_not_empty: bool,
    /// Unnamed groups do not capture if the pattern has a named group.
    pub ignore_numbered_groups_when_named_groups_exist: bool,
    /// A search by a program skips the start offsets whose byte no match starts with, if those bytes are known. It finds the
    /// same. It has no effect on the linear-time matcher.
    pub seek: bool,
    /// Oniguruma mode: the pattern is parsed in a dialect that is close to Oniguruma's.
    pub oniguruma_mode: bool,
    /// How the bytes of a haystack are interpreted; only `Unicode` can be compiled.
    pub bytes_mode: BytesMode,
    /// The match is the longest at the leftmost start that has one, not the first in priority order.
    pub leftmost_longest: bool,
}

impl Default for RegexOptions {
    ghost use Rattle.fancy_regex_meta.specs.Defaults.{default_options};

    ghost is_default = { λ options. options ≡ default_options };

    /// Unicode mode, a backtrack limit of 1,000,000, no cap on the program's size, and every other option false.
    fn default() -> RegexOptions {
        RegexOptions {
            case_insensitive: false,
            multi_line: false,
            ignore_whitespace: false,
            dot_matches_new_line: false,
            crlf: false,
            unicode_mode: true,
            backtrack_limit: 1_000_000,
            max_prog_size: None,
            find_not_empty: false,
            ignore_numbered_groups_when_named_groups_exist: false,
            seek: false,
            oniguruma_mode: false,
            bytes_mode: BytesMode::Unicode,
            leftmost_longest: false,
        }
    }
}
