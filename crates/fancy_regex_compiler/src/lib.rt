//! The compiler from an analyzed pattern to a program of the backtracking machine. Subroutine calls are inlined in programs of up to
//! 1,000 instructions, and where a cap on the length is set, which is kept. The length of such a program is bounded by sixteen instructions
//! for each node with calls inlined, and sixteen more. In longer programs only calls of small groups are inlined; the body of each other
//! called group stands once, and its calls enter it.
#![tactic(auto)]

mod call_order;
mod called_texts;
mod calls;
mod class_table;
mod closing;
mod compiler;
mod emit;
mod emitter;
mod groups;
mod inlined_groups;
mod lazy;
mod leaf;
mod literal_table;
mod main_program;
mod needs;
mod open_calls;
mod part_table;
mod parts;
mod program_builder;
mod tail;
mod task;
mod writing;

pub use compiler::{compile, compile_within};
pub use fancy_regex_compiled::Prog;
