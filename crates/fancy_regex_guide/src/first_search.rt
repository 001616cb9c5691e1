//! Finds the first year of a text that no comma follows.
#![tactic(auto)]

use anyhow::Result;
use fancy_regex::Regex;

pub fn main(rt: HostRuntime) -> Result<()> {
    let text = "founded in 1897, closed in 1953";
    let year = Regex::new(rt.alloc(), r"\b\d{4}\b(?!,)")?;
    match year.find(rt.alloc(), text)? {
        Some(found) => {
            println!(rt; "{} at {}..{}", found.as_str(), found.start(), found.end())?;
        }
        None => println!(rt; "no year")?,
    }
    Ok(())
}
