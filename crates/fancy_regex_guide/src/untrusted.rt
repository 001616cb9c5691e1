//! Builds patterns that strangers write, and searches for a text that one of them typed.
#![tactic(auto)]

use anyhow::Result;
use fancy_regex::{Expr, Regex, RegexBuilder, escape};
use std::alloc::Global;

pub fn main(rt: HostRuntime) -> Result<()> {
    for pattern in [r"(\w)\1", r"(a\g<1>?\g<1>?b)", r"(a|b"] {
        match regex_of_stranger(rt.alloc(), pattern)? {
            Some(regex) => println!(rt; "{pattern}: {}", regex.is_match(rt.alloc(), "aa")?)?,
            None => println!(rt; "{pattern}: refused")?,
        }
    }
    let typed = escape(rt.alloc(), "1+1 (a sum)")?;
    println!(rt; "{typed}")?;
    let regex = Regex::new(rt.alloc(), typed.as_str())?;
    println!(rt; "{}", regex.is_match(rt.alloc(), "so 1+1 (a sum) is 2")?)?;
    Ok(())
}

/// The regex of a pattern, with limits. `None` if it is too long, has a subroutine call, or is not built.
fn regex_of_stranger(alloc: Global, pattern: &str) -> fancy_regex::Result<Option<Regex>> {
    if pattern.len() > 1000 {
        return Ok(None);
    }
    match Expr::parse_tree(alloc, pattern) {
        Ok(tree) if !tree.contains_subroutines => {}
        _ => return Ok(None),
    }
    let mut builder = RegexBuilder::new(alloc, pattern)?;
    builder.max_prog_size(10_000).backtrack_limit(100_000);
    match builder.build(alloc) {
        Ok(regex) => Ok(Some(regex)),
        Err(_) => Ok(None),
    }
}
