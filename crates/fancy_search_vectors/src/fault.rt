//! Why the cases could not be compared.

use std::alloc::{AllocError, AllocFailed};
use std::io;

/// Why the cases could not be compared.
#[derive(Debug, Drop)]
pub enum SearchVectorsError {
    /// A line of the table is not a case.
    Table,
    /// Standard input or output failed.
    System,
    /// An allocation was refused.
    Memory,
}

impl From<AllocError> for SearchVectorsError {
    fn from(_: AllocError) -> SearchVectorsError {
        SearchVectorsError::Memory
    }
}

impl<T: Drop> From<AllocFailed<T>> for SearchVectorsError {
    fn from(_: AllocFailed<T>) -> SearchVectorsError {
        SearchVectorsError::Memory
    }
}

impl From<io::Error> for SearchVectorsError {
    fn from(_: io::Error) -> SearchVectorsError {
        SearchVectorsError::System
    }
}
