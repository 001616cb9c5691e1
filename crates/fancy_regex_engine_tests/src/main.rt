//! Tests of character classes, the analysis of patterns, the linear engine, states with parts, the compiler and the machine, of what
//! the cases of `fancy_regex_vectors` cannot state. They are a crate of their own so that the crates that they test are proved once.
//! There is no code here.
//!
//! Most cases are rows of tables. A test that fails tells the number of the first wrong row, from 0.
#![tactic(auto)]

#[cfg(test)]
mod allowances;
#[cfg(test)]
mod analysis;
#[cfg(test)]
mod calls;
#[cfg(test)]
mod class;
#[cfg(test)]
mod compiled;
#[cfg(test)]
mod groups;
#[cfg(test)]
mod linear;
#[cfg(test)]
mod program;
#[cfg(test)]
mod regular;
#[cfg(test)]
mod spans;

fn main() {}
