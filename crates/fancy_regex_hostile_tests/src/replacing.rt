//! Replacements by a regex.

use crate::outcome::{Ending, ending_of};
use fancy_regex::{Captures, Error, FnReplacer, NoExpand, Regex, Replacer, Result};
use std::alloc::Global;

/// Whether this text comes of a replacement by a template.
pub fn replaces(
    alloc: Global,
    regex: &Regex,
    text: &str,
    limit: usize,
    template: &str,
    wanted: &str,
) -> Result<bool> {
    let made = regex.try_replacen(alloc, text, limit, template)?;
    Ok(made.as_str() == wanted)
}

/// Whether this text comes of a replacement by a fixed text.
pub fn replaces_plainly(
    alloc: Global,
    regex: &Regex,
    text: &str,
    limit: usize,
    fixed: &str,
    wanted: &str,
) -> Result<bool> {
    let made = regex.replacen(alloc, text, limit, NoExpand(fixed))?;
    Ok(made.as_str() == wanted)
}

/// Whether a replacement of all `a` in `banana` by what a function answers makes `bonono`.
fn makes_bonono<R: Replacer>(alloc: Global, regex: &Regex, replacer: &mut R) -> Result<bool>
    requires { R.is_ready replacer.old }
    ensures { R.is_ready replacer.new }
{
    let made = regex.replacen_by(alloc, "banana", 0, replacer)?;
    Ok(made.as_str() == "bonono")
}

/// The outcome of such a replacement, and of the same with the same function again if it wanted memory.
fn both_make_bonono<R: Replacer>(alloc: Global, regex: &Regex, replacer: &mut R) -> (Ending, Ending)
    requires { R.is_ready replacer.old }
{
    let first = ending_of(&makes_bonono(alloc, regex, replacer));
    let second = match first {
        Ending::WantedMemory => ending_of(&makes_bonono(alloc, regex, replacer)),
        _ => first,
    };
    (first, second)
}

/// Whether a function is called for each of the three `a` in `banana`. A refused replacement has called it for none, some or all of
/// them; the other one calls it for each.
pub fn calls_for_each(alloc: Global, regex: &Regex) -> Result<bool> {
    let mut calls = 0u8;
    let mut count = FnReplacer::new(|_: &Captures<'_, &str>| -> Result<String> {
        calls = calls.wrapping_add(1);
        Ok(String::from_str(alloc, "o")?)
    });
    match both_make_bonono(alloc, regex, &mut count) {
        (Ending::Right, _) => Ok(calls == 3),
        (Ending::WantedMemory, Ending::Right) if calls >= 3 && calls <= 6 => Err(Error::Memory),
        _ => Ok(false),
    }
}
