//! The analysis of whole patterns: sizes and weights of all nodes, or the error for which a pattern is refused; whether a
//! tree is one that the parser could have made; and whether a pattern matches at one position only. Re-exports the public
//! types of `fancy_regex_info`.
#![tactic(auto)]

mod analysis;
mod anchored;
mod emitted;
mod flow;
mod left_recursion;
mod nodes;
mod termination;
mod unsupported;
mod well_formed;

pub use analysis::analyze;
pub use anchored::can_compile_as_anchored;
pub use fancy_regex_info::{AnalyzeContext, BytesMode, CompileError, CompileOptions, Info};
pub use well_formed::is_well_formed;
