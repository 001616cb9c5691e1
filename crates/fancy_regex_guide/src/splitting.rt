//! Splits a text at its matches.
#![tactic(auto)]

use anyhow::Result;
use fancy_regex::Regex;

pub fn main(rt: HostRuntime) -> Result<()> {
    let text = "a, b,c ,d";
    let comma = Regex::new(rt.alloc(), r"\s*,\s*")?;
    print_pieces(&rt, &comma, text)?;
    print_two(&rt, &comma, text)
}

/// Prints the pieces between the matches, and the rest.
fn print_pieces(rt: &HostRuntime, comma: &Regex, text: &str) -> Result<()> {
    for piece in comma.split(rt.alloc(), text) {
        println!(rt; "[{}]", piece?)?;
    }
    Ok(())
}

/// Prints the first piece and the rest.
fn print_two(rt: &HostRuntime, comma: &Regex, text: &str) -> Result<()> {
    for piece in comma.splitn(rt.alloc(), text, 2) {
        println!(rt; "<{}>", piece?)?;
    }
    Ok(())
}
