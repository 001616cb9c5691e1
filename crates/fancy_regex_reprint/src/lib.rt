//! Reprinting: the text of a pattern's tree, where that text is a pattern of the same meaning.
#![tactic(auto)]

mod classes;
mod in_place;
mod levels;
mod printing;

pub use in_place::print_in_place;
pub use printing::reprint;
