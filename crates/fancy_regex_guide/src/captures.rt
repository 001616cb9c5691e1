//! Takes a date apart, by the numbers of its groups and by their names.
#![tactic(auto)]

use anyhow::Result;
use fancy_regex::Regex;

pub fn main(rt: HostRuntime) -> Result<()> {
    let pattern = r"(?<year>\d{4})-(?<month>\d{2})(?:-(?<day>\d{2}))?";
    let date = Regex::new(rt.alloc(), pattern)?;
    let Some(groups) = date.captures(rt.alloc(), "due 2020-01.")? else {
        return Ok(println!(rt; "no date")?);
    };
    if let Some(year) = groups.get(1) {
        println!(rt; "group 1: {} at {}", year.as_str(), year.start())?;
    }
    if let Some(month) = groups.name("month") {
        println!(rt; "month: {}", month.as_str())?;
    }
    match groups.name("day") {
        Some(day) => println!(rt; "day: {}", day.as_str())?,
        None => println!(rt; "no day")?,
    }
    Ok(())
}
