//! Tells apart what is wrong with a pattern.
#![tactic(auto)]

use anyhow::Result;
use fancy_regex::{CompileError, Error, Regex};

pub fn main(rt: HostRuntime) -> Result<()> {
    for pattern in [r"a(b|c", r"(?<=a+)b", r"\g<2>(a)", r"(\w)\1"] {
        match Regex::new(rt.alloc(), pattern) {
            Ok(_) => println!(rt; "{pattern}: no error")?,
            Err(Error::ParseError(place, cause)) => {
                println!(rt; "{pattern}: at byte {place}: {cause}")?;
            }
            Err(Error::CompileError(CompileError::LookBehindNotConst)) => {
                println!(rt; "{pattern}: a look-behind needs a fixed length")?;
            }
            Err(error) => println!(rt; "{pattern}: {error}")?,
        }
    }
    Ok(())
}
