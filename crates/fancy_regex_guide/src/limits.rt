//! Ends a search that goes back too often, and counts the looks of one that cannot.
#![tactic(auto)]

use anyhow::Result;
use fancy_regex::{Error, Regex, RegexBuilder, RegexInput, RuntimeError, Steps};

pub fn main(rt: HostRuntime) -> Result<()> {
    let text = "aaaaaaaaaaaaaaaaaaaaaaaaaaaa";
    let mut slow = RegexBuilder::new(rt.alloc(), r"(a+)+\1b")?;
    let slow = slow.backtrack_limit(10_000).build(rt.alloc())?;
    match slow.is_match(rt.alloc(), text) {
        Ok(yes) => println!(rt; "{yes}")?,
        Err(Error::RuntimeError(RuntimeError::BacktrackLimitExceeded)) => {
            println!(rt; "gave up")?;
        }
        Err(error) => return Err(error.into()),
    }
    let plain = Regex::new(rt.alloc(), "(a+)+b")?;
    let mut steps = Steps::new();
    let found = plain.find_input_counted(rt.alloc(), RegexInput::new(text), &mut steps)?;
    println!(rt; "match: {}", found.is_some())?;
    println!(rt; "fewer than 1,000 looks: {}", steps.count() < 1000)?;
    Ok(())
}
