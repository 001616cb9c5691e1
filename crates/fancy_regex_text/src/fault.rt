//! Why a text is not a valid pattern: the kind of the error and its position. Want of memory is told apart from a parse error.

ghost use Rattle.std.specs.Prelude.{◌≡◌};
ghost use Rattle.fancy_regex_text.specs.declared.fault.ReadError.TheVariants.{Memory};

use std::alloc::{AllocError, AllocFailed};
use thiserror::Error;

/// The kind of a parse error.
///
/// ```
/// let fault = Regex::new(alloc, "(a");
/// let cause = ParseError::UnclosedOpenParen;
/// assert!(rt; matches!(&fault, Err(Error::ParseError(2, found)) if *found == cause));
/// ```
#[derive(Debug, PartialEq, Eq, Drop, Error)]
pub enum ParseError {
    /// An error that has no variant of its own; the payload is its message.
    #[error("General parsing error: {0}")]
    GeneralParseError(String),
    /// The pattern ends inside a group, inside its flags, or inside a comment.
    #[error("Opening parenthesis without closing parenthesis")]
    UnclosedOpenParen,
    /// Never returned. Kept because the source crate has it.
    #[error("Invalid repeat syntax")]
    InvalidRepeat,
    /// The 64th level of nested groups, or the sixth quantifier on one atom.
    #[error("Pattern too deeply nested")]
    RecursionExceeded,
    /// A backslash at the end of the pattern.
    #[error("Backslash without following character")]
    TrailingBackslash,
    /// A backslash and a letter that are not an escape; the payload is both.
    #[error("Invalid escape: {0}")]
    InvalidEscape(String),
    /// A `\p` or `\P` without a name, or without the `}` after the name.
    #[error("Unicode escape not closed")]
    UnclosedUnicodeName,
    /// Hexadecimal digits that are wrong, missing or too many.
    #[error("Invalid hex escape")]
    InvalidHex,
    /// A code point that is a surrogate, or above 10FFFF.
    #[error("Invalid codepoint for hex or unicode escape")]
    InvalidCodepointValue,
    /// The pattern ends inside a bracketed class, or the class holds an escape that is not allowed in classes.
    #[error("Invalid character class")]
    InvalidClass,
    /// A character that is not a flag; the payload is the text from `(?` to that character, inclusive.
    #[error("Unknown group flag: {0}")]
    UnknownFlag(String),
    /// The flag `u` is set in a pattern without Unicode mode, or cleared in one with it.
    #[error("Changing Unicode mode is not supported")]
    ChangingUnicodeModeUnsupported,
    /// A relative reference to a group before the first one.
    #[error("Invalid back reference")]
    InvalidBackref,
    /// A quantifier without an atom, or after an atom that cannot be repeated.
    #[error("Target of repeat operator is invalid")]
    TargetNotRepeatable,
    /// A group name or a reference that is empty, not well-formed, or not closed.
    #[error("Could not parse group name")]
    InvalidGroupName,
    /// A reference to a name that no group has; the payload is the name.
    #[error("Invalid group name in back reference: {0}")]
    InvalidGroupNameBackref(String),
}

/// The first parse error from left to right, with its position.
#[derive(Debug, PartialEq, Eq, Drop)]
pub struct ParseFault {
    /// The number of bytes from the position of the error to the end of the pattern. The byte offset of the error is the
    /// length of the pattern less this.
    pub left: usize,
    /// What is wrong there.
    pub kind: ParseError,
}

/// Why parsing failed.
#[derive(Debug, PartialEq, Eq, Drop)]
pub enum ReadError {
    /// The text is not a valid pattern.
    ParseFault(ParseFault),
    /// An allocation was refused. Nothing is said about the text.
    Memory,
}

impl From<AllocError> for ReadError {
    ghost from_gives = { λ _ e. e ≡ Memory };

    fn from(_e: AllocError) -> ReadError {
        ReadError::Memory
    }
}

impl<T: Drop> From<AllocFailed<T>> for ReadError {
    ghost from_gives = { λ _ e. e ≡ Memory };

    fn from(_e: AllocFailed<T>) -> ReadError {
        ReadError::Memory
    }
}
