//! The linear-time engine for easy patterns: those without back references, look-around, atomic groups and the like. A
//! pattern is compiled to states, and a search is a depth-first search over pairs of a state and a byte offset. A visited set
//! that all starts of the search share lets it try each pair at most once, so the number of looks is bounded
//! by the pattern's weight times the length of the range plus one. Where the first match is wanted, a table of the states goes
//! through the text first, and only what it does not know is searched so. The set's memory goes by the span of an attempt: where
//! all of it lies before a start, it begins anew there. A search fails for want of memory alone. What a search allocates is
//! kept in a `SearchMemory`, which later searches use again.
#![tactic(auto)]

mod alone;
mod backtrack;
mod before;
mod build;
mod by_table;
mod callee;
mod calls;
mod copy;
mod easy;
mod emit;
mod emit_both;
mod facts;
mod first;
mod frame;
mod memory;
mod needed;
mod node;
mod open_pairs;
mod passing;
mod quick;
mod regular;
mod search;
mod settle;
mod skip;
mod starts;
mod state;
mod verdict;
mod visited;

pub use easy::Easy;
pub use memory::SearchMemory;
pub use quick::Quick;
pub use regular::RegularStates;
