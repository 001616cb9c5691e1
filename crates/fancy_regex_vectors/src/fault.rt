//! Why the answers cannot be compared.

use std::alloc::AllocError;
use std::io;

/// Why the answers cannot be compared.
#[derive(Clone, Copy, Debug)]
pub enum VectorsError {
    /// A line of the table is not a case.
    Table,
    /// Standard input or output failed.
    System,
    /// An allocation was refused.
    Memory,
}

impl From<AllocError> for VectorsError {
    fn from(_: AllocError) -> VectorsError {
        VectorsError::Memory
    }
}

impl From<io::Error> for VectorsError {
    fn from(_: io::Error) -> VectorsError {
        VectorsError::System
    }
}
