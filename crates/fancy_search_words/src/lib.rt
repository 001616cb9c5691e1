//! Parses the command-line words of the program `fancy_search` with `clap`: a subcommand, a pattern and options, or why there
//! are none.
#![tactic(auto)]

mod arguments;
mod command;
mod refusal;
mod words;

pub use arguments::{Arguments, Options, Subcommand};
pub use refusal::Refusal;
pub use words::read_words;
