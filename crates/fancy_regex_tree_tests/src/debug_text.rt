//! The text that `Debug` writes.

use std::alloc::{AllocError, Global};
use std::fmt::Debug;

/// What `Debug` writes of the value.
pub fn debug_text<T: Debug + Drop>(alloc: Global, value: T) -> Result<String, AllocError> {
    format!(in alloc; "{value:?}")
}
