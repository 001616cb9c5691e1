//! Searches with options, for one pattern and for several.
#![tactic(auto)]

use anyhow::Result;
use fancy_regex::{RegexBuilder, RegexOptionsBuilder, RegexSet};

pub fn main(rt: HostRuntime) -> Result<()> {
    let mut comment = RegexBuilder::new(rt.alloc(), "^ \\# .* $  # a line")?;
    comment.multi_line(true).ignore_whitespace(true);
    let comment = comment.build(rt.alloc())?;
    let mut comments = comment.find_iter(rt.alloc(), "x = 1\n#one\n#two");
    while let Some(found) = comments.next() {
        println!(rt; "{}", found?.as_str())?;
    }
    let mut options = RegexOptionsBuilder::new();
    options.case_insensitive(true);
    let word = options.build(rt.alloc(), String::from_str(rt.alloc(), "straße")?)?;
    println!(rt; "{}", word.is_match(rt.alloc(), "STRAẞE")?)?;
    let set = RegexSet::new_with_options(rt.alloc(), &["yes", "no"], &options)?;
    println!(rt; "{} members", set.len())?;
    Ok(())
}
