//! Replaces matches by what a function makes of their groups.
#![tactic(auto)]

use anyhow::Result;
use fancy_regex::{Captures, FnReplacer, Regex};
use std::alloc::Global;

pub fn main(rt: HostRuntime) -> Result<()> {
    let alloc = rt.alloc();
    let price = Regex::new(alloc, r"(?<=\$)\d{1,6}\b")?;
    let doubled = FnReplacer::new(|groups: &Captures<'_, &str>| doubled(alloc, groups));
    let text = price.replace_all(alloc, "tea $4, cake $12", doubled)?;
    println!(rt; "{text}")?;
    Ok(())
}

/// Twice the number that matched.
fn doubled(alloc: Global, groups: &Captures<'_, &str>) -> fancy_regex::Result<String> {
    let number = groups.get(0).map_or("0", |found| found.as_str());
    match number.parse::<u32>() {
        Ok(number) => Ok(format!(in alloc; "{}", number.saturating_mul(2))?),
        Err(_) => Ok(String::from_str(alloc, number)?),
    }
}
