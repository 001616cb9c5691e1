//! Tests of the lexer, the parser and the printer of patterns, by their public functions. They are a crate of their own so
//! that the crates that they test are proved once. There is no other code here.
#![tactic(auto)]

#[cfg(test)]
mod debug_text;
#[cfg(test)]
mod parse_tests;
#[cfg(test)]
mod print_tests;
#[cfg(test)]
mod token_tests;
