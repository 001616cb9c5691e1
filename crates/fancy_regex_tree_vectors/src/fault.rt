//! Why the cases could not be compared.

use std::alloc::AllocError;
use std::io;

/// Why the cases could not be compared.
#[derive(Debug, Drop)]
pub enum TreeVectorsError {
    /// A line of the table is not a case.
    Table,
    /// Standard input or output failed.
    System,
    /// An allocation was refused.
    Memory,
}

impl From<AllocError> for TreeVectorsError {
    fn from(_: AllocError) -> TreeVectorsError {
        TreeVectorsError::Memory
    }
}

impl From<io::Error> for TreeVectorsError {
    fn from(_: io::Error) -> TreeVectorsError {
        TreeVectorsError::System
    }
}
