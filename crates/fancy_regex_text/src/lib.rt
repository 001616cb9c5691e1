//! The text of a pattern: prefixes of it, layout (blanks and comments), names, numbers and references, and parse errors.
//! Each function takes the rest of the pattern that is still to be read, and returns what it read and the rest after it,
//! as its definition in `specs` does on the characters of that text. An error says its kind and its position.
#![tactic(auto)]

mod examples;
mod fault;
mod layout;
mod names;
mod text;
mod token;
pub mod writing;

pub use examples::{layout_examples, name_examples};
pub use fault::{ParseError, ParseFault, ReadError};
pub use layout::{next_token, skip};
pub use names::{digits, is_name, reference, signed, split_name, whole_number};
pub use text::{
    fail_at, fault_at, has_prefix, is_empty, prefix_before, rest_after_first, split_first,
    split_once, strip_prefix,
};
pub use token::{Reference, Target};
