//! Plain patterns that match wherever another pattern does: a search of that pattern may skip all starts before their matches.
#![tactic(auto)]

mod copy;
mod relaxed;

pub use relaxed::Relaxed;
