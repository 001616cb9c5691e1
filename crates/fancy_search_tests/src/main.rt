//! Tests of `fancy_search_run` and `fancy_search_words` over their public calls. They are a crate of their own so that the
//! tested crates are proved once.
//! There is no other code here.
#![tactic(auto)]

#[cfg(test)]
mod program;
#[cfg(test)]
mod refused_memory;
#[cfg(test)]
mod strangers;
#[cfg(test)]
mod words;

fn main() {}
