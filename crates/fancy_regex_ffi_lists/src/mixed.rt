//! Sets whose members have options of their own.

ghost use Rattle.std.specs.Prelude.{◌≡◌, map, length, IfOk, IfErr};
ghost use Rattle.fancy_regex_ffi_lists.specs.Mixed.{AreBuiltEach, RefusesEach};

use crate::options::Options;
use fancy_regex::{Regex, RegexSet, Result};
use std::alloc::Global;

/// The set of a regex of each pattern, each with its own options: as many options as patterns, in the same order.
///
/// # Errors
///
/// That of the first pattern that is refused, as the builder of its options tells it; `Memory` if memory runs out.
pub fn mixed_set(alloc: Global, patterns: &[&str], options: &[Options]) -> Result<RegexSet>
    requires { length options.now ≡ length patterns.now }
    ensures members { IfOk result (λ set. AreBuiltEach options.now (map (λ p. p.now) patterns.now) set.regexes.items) }
    ensures refused { IfErr result (λ e. RefusesEach options.now (map (λ p. p.now) patterns.now) e) }
{
    Ok(RegexSet::from_regexes(build_each(alloc, patterns, options)?))
}

/// A regex of each pattern, each with its own options.
fn build_each(alloc: Global, patterns: &[&str], options: &[Options]) -> Result<Vec<Regex>>
    requires { length options.now ≡ length patterns.now }
    ensures members { IfOk result (λ regexes. AreBuiltEach options.now (map (λ p. p.now) patterns.now) regexes.items) }
    ensures refused { IfErr result (λ e. RefusesEach options.now (map (λ p. p.now) patterns.now) e) }
{
    let mut regexes = Vec::new(alloc);
    for (number, pattern) in patterns.iter().enumerate() {
        let text = String::from_str(alloc, pattern)?;
        match options[number].builder().build(alloc, text) {
            Ok(regex) => regexes.push(regex)?,
            Err(error) => return Err(error),
        }
    }
    Ok(regexes)
}
