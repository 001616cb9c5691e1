//! Replaces matches by templates, and by a text as it stands.
#![tactic(auto)]

use anyhow::Result;
use fancy_regex::{NoExpand, Regex};

pub fn main(rt: HostRuntime) -> Result<()> {
    let text = "Springsteen, Bruce; Mitchell, Joni";
    let name = Regex::new(rt.alloc(), r"(?<last>\w+), (\w+)")?;
    let first = name.replace(rt.alloc(), text, "$2 $last")?;
    println!(rt; "{first}")?;
    let all = name.replace_all(rt.alloc(), text, "${last}s")?;
    println!(rt; "{all}")?;
    let once = name.replacen(rt.alloc(), text, 1, NoExpand("$2"))?;
    println!(rt; "{once}")?;
    Ok(())
}
