//! The backtracking machine. It runs the program of a pattern on a text: it follows one thread at a time, pushes the
//! alternatives as branches, and backtracks to the last branch where a thread fails. A run answers the match that the
//! definitions give, or an error: a limit that was exceeded, or want of memory. Where its work is bounded by an allowance, it may end
//! without either.
#![tactic(auto)]

mod absent;
mod advance;
mod calls;
mod memory;
mod run_loop;
mod search;
mod step;
mod work;

pub use fancy_regex_ahead::RuntimeError;
pub use memory::RunMemory;
pub use search::{
    ProgramRun, RunOptions, run, run_default, run_in, run_spans, run_spans_in, run_spans_within,
    run_within,
};
pub use work::{Allowance, Exhausted};
