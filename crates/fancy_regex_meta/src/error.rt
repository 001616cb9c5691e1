//! `Error`: why a call of the library fails, with the conversions from the errors of parsing, compiling and running.

ghost use Rattle.std.specs.Prelude.{◌≡◌};
ghost use Rattle.fancy_regex_meta.specs.ErrorConversions.{from_tree_error, from_compile_error, from_runtime_error};
ghost use Rattle.fancy_regex_meta.specs.declared.error.Error.TheVariants.{Memory};

use fancy_regex_info::CompileError;
use fancy_regex_machine::RuntimeError;
use fancy_regex_tree::{Error as TreeError, ParseError};
use std::alloc::{AllocError, AllocFailed};
use thiserror::Error;

/// The result of a call of the library that can fail.
///
/// ```
/// let built: fancy_regex::Result<Regex> = Regex::new(alloc, "a");
/// assert!(rt; built.is_ok());
/// ```
pub type Result<T> = std::result::Result<T, Error>;

/// Why a call of the library failed. The value that it was called on is unchanged.
///
/// ```
/// match Regex::new(alloc, "a)") {
///     Err(Error::ParseError(place, _)) => assert!(rt; place == 1),
///     _ => assert!(rt; false),
/// }
/// ```
#[derive(Debug, PartialEq, Eq, Drop, Error)]
pub enum Error {
    /// The text is no pattern: the byte offset of its first error, at most the length of the text, and that error.
    #[error("Parsing error at position {0}: {1}")]
    ParseError(usize, ParseError),
    /// The pattern cannot be compiled, for this reason.
    #[error("Error compiling regex: {0}")]
    CompileError(CompileError),
    /// The search exceeded a limit.
    #[error("Error executing regex: {0}")]
    RuntimeError(RuntimeError),
    /// Memory ran out.
    #[error("Out of memory")]
    Memory,
}

impl From<TreeError> for Error {
    ghost from_gives = { λ cause e. e ≡ from_tree_error cause };

    /// The same position and error, or `Memory`.
    fn from(cause: TreeError) -> Error {
        match cause {
            TreeError::ParseError(position, kind) => Error::ParseError(position, kind),
            TreeError::Memory => Error::Memory,
        }
    }
}

impl From<CompileError> for Error {
    ghost from_gives = { λ cause e. e ≡ from_compile_error cause };

    /// The same reason, or `Memory`.
    fn from(cause: CompileError) -> Error {
        match cause {
            CompileError::Memory => Error::Memory,
            other => Error::CompileError(other),
        }
    }
}

impl From<RuntimeError> for Error {
    ghost from_gives = { λ cause e. e ≡ from_runtime_error cause };

    /// The same limit, or `Memory`.
    fn from(cause: RuntimeError) -> Error {
        match cause {
            RuntimeError::Memory => Error::Memory,
            other => Error::RuntimeError(other),
        }
    }
}

impl From<AllocError> for Error {
    ghost from_gives = { λ _ e. e ≡ Memory };

    /// `Memory`.
    fn from(_cause: AllocError) -> Error {
        Error::Memory
    }
}

impl<T: Drop> From<AllocFailed<T>> for Error {
    ghost from_gives = { λ _ e. e ≡ Memory };

    /// `Memory`. What could not be kept is dropped.
    fn from(_cause: AllocFailed<T>) -> Error {
        Error::Memory
    }
}
