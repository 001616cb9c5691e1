//! Searches of patterns that refer to no matched text and have look-aheads, atomic groups or `\K`, by states with parts.
//! `fancy_regex_parts` bounds how often a search for the span of the first match looks at the text: by the weight of its states times the
//! length of the text. A search fails for want of memory alone.
#![tactic(auto)]

mod continues;
mod longest;
mod memory;
mod regular;
mod walks;

pub use memory::RegularMemory;
pub use regular::Regular;
