//! Bytes that a search passes over, sixteen at a time: those of ASCII characters that are in none of three ranges.
#![tactic(auto)]

mod byte_range;
mod lanes;
mod stop_lanes;
mod stops;

pub use stops::Stops;
