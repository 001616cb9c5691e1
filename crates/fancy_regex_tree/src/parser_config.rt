//! The configuration of the parser, which is fixed for a whole pattern.

/// What is fixed for a whole pattern while it is parsed.
#[derive(Clone, Copy, Debug, PartialEq, Eq)]
pub struct ParserConfig {
    /// The length of the pattern in bytes.
    pub size: usize,
    /// Whether the pattern is parsed in Oniguruma mode.
    pub oniguruma: bool,
    /// The flag `u`, which no part of a pattern can change.
    pub unicode: bool,
}
