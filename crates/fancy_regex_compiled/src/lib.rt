//! Compiled programs: the instructions of a pattern, the table of the ASCII characters that a match may start with, the plan, and the
//! program for runs that answer only the span of a match.
#![tactic(auto)]

mod prog;
mod span_prog;

pub use prog::Prog;
pub use span_prog::SpanProg;
