//! Takes a line of source apart into tokens, by one set of patterns.
#![tactic(auto)]

use anyhow::Result;
use fancy_regex::{RegexInput, RegexSet};
use std::alloc::Global;

/// A pattern for each kind of token. Where several match, the first counts.
const PATTERNS: [&str; 5] = [
    r"\s+",
    r"(?:if|else)\b",
    r"\d+(?!\w)",
    r"[a-z_]\w*",
    r"[-+*/=<>]=?",
];
/// The names of the kinds.
const KINDS: [&str; 5] = ["blank", "keyword", "number", "name", "operator"];

pub fn main(rt: HostRuntime) -> Result<()> {
    let text = "if width >= 80 12em";
    let set = RegexSet::new(rt.alloc(), &PATTERNS)?;
    let mut place = 0;
    for _ in 0..text.len() {
        let Some((kind, end)) = next_token(rt.alloc(), &set, text, place)? else {
            break;
        };
        match KINDS.get(kind) {
            Some(name) if kind > 0 => println!(rt; "{name} at {place}..{end}")?,
            _ => {}
        }
        place = end;
    }
    if place < text.len() {
        println!(rt; "no token at {place}")?;
    }
    Ok(())
}

/// The number of the kind of the token that starts at a place, and where it ends; `None` if no token starts there.
fn next_token(
    alloc: Global,
    set: &RegexSet,
    text: &str,
    place: usize,
) -> fancy_regex::Result<Option<(usize, usize)>> {
    if !text.is_char_boundary(place) {
        return Ok(None);
    }
    let input = RegexInput::new(text).from_pos(place).anchored(true);
    let Some(mut members) = set.find_input(alloc, input)? else {
        return Ok(None);
    };
    let Some(member) = members.next() else {
        return Ok(None);
    };
    let member = member?;
    Ok(Some((member.pattern(), member.end())))
}
