//! Checks nested lists of numbers, by a grammar of named groups that call each other.
#![tactic(auto)]

use anyhow::Result;
use fancy_regex::Regex;

/// A value is a number, or a list of values with commas between them.
const VALUE: &str = r"(?x)
    (?(DEFINE)
        (?<number> -? \d+ )
        (?<value> \g<number> | \[ (?: \g<value> (?: , \g<value> )* )? \] )
    )
    ^ \g<value> $
";

pub fn main(rt: HostRuntime) -> Result<()> {
    let value = Regex::new(rt.alloc(), VALUE)?;
    for text in ["[1,[2,-3],[]]", "[1,[2,-3]", "[1,,2]", "7"] {
        println!(rt; "{text}: {}", value.is_match(rt.alloc(), text)?)?;
    }
    Ok(())
}
