//! What the program `fancy_search` does, over words, a reader and a writer: `run` parses the words, reads the whole input and
//! writes what the subcommand answers for it. It promises the text of the definitions, or the first fault of a stated order;
//! nothing is written on a fault other than one of writing.
#![tactic(auto)]

mod answer;
mod fault;
mod input;
mod message;
mod output;
mod pattern;
mod program;
mod sink;
mod source;
mod status;

pub use fault::Fault;
pub use message::tell;
pub use program::{run, run_from};
pub use sink::Sink;
pub use source::{LastRead, Source};
pub use status::{Status, exit_status};
