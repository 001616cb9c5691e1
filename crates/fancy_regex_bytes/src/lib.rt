//! Sets of bytes that narrow a search, found in the syntax tree of a pattern: the bytes that its matches start with, and the
//! bytes that every haystack has in which it matches.
#![tactic(auto)]

mod byte_set;
mod class_bytes;
mod required;
mod start;

pub use byte_set::{ByteSet, ByteSetIter};
pub use required::required_bytes;
pub use start::start_bytes;
