//! The parsed command-line words.

/// The subcommand, with its own arguments.
#[derive(Debug, Drop, PartialEq, Eq)]
pub enum Subcommand<'a> {
    /// `find`: the spans of the matches of this pattern.
    Find(&'a str),
    /// `captures`: the spans of all groups of the matches of this pattern.
    Captures(&'a str),
    /// `split`: the pieces of the input between the matches of this pattern.
    Split(&'a str),
    /// `replace`: the input with each match replaced.
    Replace {
        /// The text of the pattern.
        pattern: &'a str,
        /// The template that each match is replaced by.
        template: &'a str,
    },
    /// `print`: this pattern, printed; no input is read.
    Print(&'a str),
    /// `set`: the members of the set of these patterns that match at the earliest place.
    Set(Vec<&'a str>),
}

/// The options of a subcommand.
#[derive(Clone, Copy, Debug, PartialEq, Eq)]
pub struct Options {
    /// `-i`: letters match case-insensitively.
    pub case_insensitive: bool,
    /// `-m`: `^` and `$` match at the start and the end of each line.
    pub multi_line: bool,
    /// `-s`: `.` also matches a newline.
    pub dot_matches_new_line: bool,
    /// `-x`: whitespace and comments in the pattern are ignored.
    pub ignore_whitespace: bool,
    /// `--ascii`: character classes and case folding are those of ASCII.
    pub ascii: bool,
    /// `--oniguruma`: Oniguruma mode, a dialect that is close to Oniguruma's.
    pub oniguruma: bool,
    /// `--not-empty`: empty matches are skipped.
    pub not_empty: bool,
    /// `--longest`: the match is the longest at its start, not the first in priority order.
    pub longest: bool,
    /// `--limit`: how often one search may backtrack; `None` if the words do not say.
    pub limit: Option<u64>,
}

/// The parsed words: a subcommand and its options.
#[derive(Debug, Drop)]
pub struct Arguments<'a> {
    /// What to do, with the patterns to do it with.
    pub subcommand: Subcommand<'a>,
    /// The options given, with defaults for the others.
    pub options: Options,
}
