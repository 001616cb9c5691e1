//! The input of a search (a haystack with start, range and anchoring), character boundaries of UTF-8 text, and matches. Every
//! offset is in bytes from the start of the haystack.
#![tactic(auto)]

mod boundaries;
mod config;
mod input;
mod matched;
mod regex_input;

pub use boundaries::{next_boundary, previous_boundary};
pub use config::SearchConfig;
pub use input::Input;
pub use matched::Match;
pub use regex_input::RegexInput;
