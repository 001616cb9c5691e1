//! The errors of the parser.

ghost use Rattle.std.specs.Prelude.{◌≡◌};
ghost use Rattle.fancy_regex_tree.specs.declared.error.Error.TheVariants as errors;

use fancy_regex_lex::ParseError;
use std::alloc::{AllocError, AllocFailed};
use thiserror::Error;

/// A byte offset from the start of the pattern.
///
/// ```
/// let place: ParseErrorPosition = match Expr::parse_tree(alloc, "ab)") {
///     Err(ExprError::ParseError(place, _)) => place,
///     _ => 0,
/// };
/// assert!(rt; place == 2);
/// ```
pub type ParseErrorPosition = usize;

/// The result of parsing.
///
/// ```
/// let parsed: fancy_regex_tree::Result<ExprTree> = Expr::parse_tree(alloc, "a");
/// assert!(rt; parsed.is_ok());
/// ```
pub type Result<T> = std::result::Result<T, Error>;

/// The reason why a pattern could not be parsed.
///
/// ```
/// let fault = Expr::parse_tree(alloc, r"a\");
/// let cause = ParseError::TrailingBackslash;
/// assert!(rt; matches!(&fault, Err(ExprError::ParseError(1, found)) if *found == cause));
/// ```
#[derive(Debug, PartialEq, Eq, Drop, Error)]
pub enum Error {
    /// The first error in the text, with its byte offset, which is at most the length of the text.
    #[error("Parsing error at position {0}: {1}")]
    ParseError(ParseErrorPosition, ParseError),
    /// An allocation failed.
    #[error("Out of memory")]
    Memory,
}

impl From<AllocError> for Error {
    ghost from_gives = { λ _ e. e ≡ errors.Memory };

    fn from(_e: AllocError) -> Error {
        Error::Memory
    }
}

impl<T: Drop> From<AllocFailed<T>> for Error {
    ghost from_gives = { λ _ e. e ≡ errors.Memory };

    fn from(_e: AllocFailed<T>) -> Error {
        Error::Memory
    }
}
