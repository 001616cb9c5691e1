//! The instructions of the backtracking machine, the programs that they make up, and what a run of them is. A part of a pattern that
//! is searched in linear time is an operand of an instruction, with its states. A program has two tables that are made of its
//! instructions: of the ASCII characters that a match may start with, and the instructions of runs that answer only the span of
//! a match.
#![tactic(auto)]

mod body_starts;
mod delegate;
mod delegate_builder;
mod insn;
mod range;
mod reading;
mod spans;
mod starts;
mod validity;

pub use delegate::Delegate;
pub use insn::{AbsentRepeater, Callee, Insn, Repeat, RepeatEpsilon};
pub use range::CaptureGroupRange;
pub use reading::is_uncounted;
pub use spans::{SpanCode, span_code};
pub use starts::ascii_starts;
pub use validity::is_valid_program;
