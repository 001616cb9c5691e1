//! Starts at which a program fails, as far as that is seen without a run of it: by the characters there, by how the program begins, or
//! by a walk along its first instructions. Also what such tests and a run share: what a run reads, and the matching of characters,
//! assertions and back references.
#![tactic(auto)]

pub mod ahead;
pub mod assertion;
pub mod backref;
pub mod budget;
pub mod char_loops;
pub mod cursor;
pub mod even_runs;
pub mod failing_starts;
mod leading_loops;
pub mod look_behind_starts;
pub mod matching;
pub mod newline;
pub mod readers;
pub mod refusals;
mod repeated_characters;
pub mod run_context;
pub mod start;
mod walk_choices;
mod walks;
