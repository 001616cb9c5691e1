//! Analysis of each node of a pattern's tree: its size in characters, its weight in states, whether it is easy or hard, and
//! its capture groups. Every result equals the definition of the same name in the specs. Fails only if memory runs out.
#![tactic(auto)]

mod analyze_node;
mod bodies;
mod body_sizes;
mod error;
mod info;
mod options;
mod properties;
mod reachability;
mod references;
mod size;
mod tables;
mod tree_analysis;

pub use bodies::{add_calls, groups_of};
pub use error::CompileError;
pub use info::Info;
pub use options::{AnalyzeContext, BytesMode, CompileOptions};
pub use size::{Size, size_in};
pub use tables::recursive_groups;
pub use tree_analysis::{analyze_tree, group_call_sizes};
