//! Tests of `fancy_regex_input` and `fancy_regex`, of what the cases of `fancy_regex_vectors` cannot state. They are a crate of their
//! own so that the tested crates are proved once. There is no other code here.
#![tactic(auto)]

#[cfg(test)]
mod answers;
#[cfg(test)]
mod byte_sets;
#[cfg(test)]
mod calls;
#[cfg(test)]
mod input;
#[cfg(test)]
mod linear;
#[cfg(test)]
mod pieces;
#[cfg(test)]
mod replacement;
#[cfg(test)]
mod sets;
#[cfg(test)]
mod templates;
#[cfg(test)]
mod texts;

fn main() {}
