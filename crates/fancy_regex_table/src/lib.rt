//! A table that finds where a match starts and ends in one pass over a text. It is made once, with the pattern, and never changes.
#![tactic(auto)]

mod alphabet;
mod begun;
mod blocks;
mod close;
mod columns;
mod flat;
mod leaf_set;
mod maker;
mod needed;
mod needed_choice;
mod needed_maker;
mod pattern;
mod question;
mod row;
mod rows;
mod sign;
mod sort;
mod step;
mod table;
mod target;
mod wide;
mod wide_maker;

pub use needed::Onset;
pub use needed_choice::weight;
pub use pattern::Starts;
pub use sign::Sign;
pub use table::{Passed, Table};
