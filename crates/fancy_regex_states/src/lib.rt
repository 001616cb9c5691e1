//! The states that an easy pattern is compiled to: what each tests, and which characters a match can begin with.
#![tactic(auto)]

mod atom;
mod before;
mod char_tests;
mod first;
mod rules;
mod second;
mod state;

pub use atom::{Leaf, Test};
pub use before::refused_after;
pub use char_tests::{is_ascii_leaf, is_matched, leaf_matches, test_holds};
pub use first::FirstChars;
pub use rules::Rules;
pub use state::State;
