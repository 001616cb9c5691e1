//! Goes through all matches of a text, first for their spans and then for their groups.
#![tactic(auto)]

use anyhow::Result;
use fancy_regex::Regex;

pub fn main(rt: HostRuntime) -> Result<()> {
    let text = "width=80 height=24 title=";
    let setting = Regex::new(rt.alloc(), r"(\w+)=(\w+)?")?;
    let mut matches = setting.find_iter(rt.alloc(), text);
    while let Some(found) = matches.next() {
        let found = found?;
        println!(rt; "{}..{}", found.start(), found.end())?;
    }
    let mut all = setting.captures_iter(rt.alloc(), text);
    while let Some(groups) = all.next() {
        let groups = groups?;
        let key = groups.get(1).map_or("", |key| key.as_str());
        let value = groups.get(2).map_or("nothing", |value| value.as_str());
        println!(rt; "{key} is {value}")?;
    }
    Ok(())
}
