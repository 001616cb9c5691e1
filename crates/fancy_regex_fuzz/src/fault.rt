//! Why the fuzzer cannot go on.

use std::alloc::{AllocError, AllocFailed};
use std::io;
use std::num::ParseIntError;

/// Why the fuzzer cannot go on.
#[derive(Debug, Drop)]
pub enum FuzzError {
    /// A word is no number.
    Words,
    /// Reading the words or writing failed.
    System,
    /// Memory ran out.
    Memory,
}

impl From<AllocError> for FuzzError {
    fn from(_: AllocError) -> FuzzError {
        FuzzError::Memory
    }
}

impl<T: Drop> From<AllocFailed<T>> for FuzzError {
    fn from(_: AllocFailed<T>) -> FuzzError {
        FuzzError::Memory
    }
}

impl From<io::Error> for FuzzError {
    fn from(_: io::Error) -> FuzzError {
        FuzzError::System
    }
}

impl From<ParseIntError> for FuzzError {
    fn from(_: ParseIntError) -> FuzzError {
        FuzzError::Words
    }
}
