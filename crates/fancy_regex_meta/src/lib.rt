//! The meta layer: it parses, analyzes and compiles a pattern, chooses the linear-time matcher (for patterns without
//! backreferences and the like, whose look-arounds are for one character) or a backtracking program, and searches with it. Both
//! give the match of the definitions. It also has the options and the errors of the library.
#![tactic(auto)]

mod error;
mod found;
mod memory;
mod meta_regex;
mod options;
mod parse;
mod parse_options;
mod run_work;
mod seek;
mod start_skips;
mod strategy;

pub use error::{Error, Result};
pub use fancy_regex_machine::RuntimeError;
pub use found::{FoundMatch, MatchDetail};
pub use memory::MetaMemory;
pub use meta_regex::MetaRegex;
pub use options::RegexOptions;
