//! Tests of the library under hostile use: allocations that are refused, and patterns that are deep or explode. They are a crate
//! of their own so that the tested crates are proved once. There is no other code here.
//!
//! The tests in the modules `refused_*` hold with and without a refusal: each makes its calls twice, and at most one of the two may
//! want memory. `tests/refused_memory/sweep` refuses each request for memory of each of them in turn. The rows of their tables are of
//! as few types as there are things to make calls on, since each type is proved.
#![tactic(auto)]

#[cfg(test)]
mod ample;
#[cfg(test)]
mod appending;
#[cfg(test)]
mod exploding;
#[cfg(test)]
mod iterating;
#[cfg(test)]
mod outcome;
#[cfg(test)]
mod refused_buffers;
#[cfg(test)]
mod refused_building;
#[cfg(test)]
mod refused_items;
#[cfg(test)]
mod refused_runs;
#[cfg(test)]
mod refused_searches;
#[cfg(test)]
mod refused_trees;
#[cfg(test)]
mod regex_row;
#[cfg(test)]
mod replacing;
#[cfg(test)]
mod searching;

fn main() {}
