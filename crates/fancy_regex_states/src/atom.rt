//! What a state tests: one character, or a place between two.

/// A test of one character.
#[derive(Clone, Copy, PartialEq, Eq, Debug)]
pub enum Leaf {
    /// Any character, but `\n` only with `newline`, and with `crlf` and without `newline` not `\r` either.
    Any { newline: bool, crlf: bool },
    /// This character.
    Char(char),
    /// A character whose case folding is this one.
    Folded(char),
    /// A member of the class of this number, by its index in the table of matchers.
    Class(usize),
}

/// A zero-width assertion.
#[derive(Clone, Copy, PartialEq, Eq, Debug)]
pub enum Test {
    /// The start of the text.
    StartText,
    /// The end of the text.
    EndText,
    /// The start of a line; with `crlf` also `\r` and `\r\n` end a line.
    StartLine { crlf: bool },
    /// The end of a line; with `crlf` also `\r` and `\r\n` end a line.
    EndLine { crlf: bool },
    /// The start or the end of a word.
    WordBoundary,
    /// Neither the start nor the end of a word.
    NotWordBoundary,
    /// The start of a word.
    LeftWordBoundary,
    /// The end of a word.
    RightWordBoundary,
    /// No word character stands before.
    LeftWordHalfBoundary,
    /// No word character follows.
    RightWordHalfBoundary,
    /// The start of a line, but not the end of the text after `\n`; with `crlf` also `\r` and `\r\n` end a line.
    StartLineOniguruma { crlf: bool },
    /// It holds nowhere.
    Never,
    /// The place where the search continues (`Rules::continue_at`), for `\G`.
    Continue,
    /// A character follows that the leaf matches.
    LookAhead(Leaf),
    /// No character follows that the leaf matches.
    LookAheadNeg(Leaf),
    /// A character that the leaf matches stands before.
    LookBehind(Leaf),
    /// No character that the leaf matches stands before.
    LookBehindNeg(Leaf),
}
