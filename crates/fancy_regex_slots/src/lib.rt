//! The slots of a backtracking VM: the current slots, and a stack of branches that each save all slots as they were when
//! the branch was pushed. Each write logs the value before it, and a branch keeps the length of the log, so pushing a branch
//! copies no slot. After an error nothing has changed.
#![tactic(auto)]

pub mod branch;
mod branch_runs;
pub mod slots;
mod undo_log;
