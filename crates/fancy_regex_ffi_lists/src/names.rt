//! The names of the groups of a regex.

ghost use Rattle.std.specs.Prelude.{◌≡◌, ◌++◌, [], ◌∷◌, length, chars, string_bytes, option_map, IfOk, IfErr, OnOk};
ghost use Rattle.fancy_regex.specs.MetaMatches.{meta_pattern};
ghost use Rattle.fancy_regex.specs.Error.TheVariants.{Memory};
ghost use Rattle.fancy_regex.specs.GroupLookup.{meta_group_names};
ghost use Rattle.fancy_regex_ffi_lists.specs.Names.{name_line, name_lines};

use fancy_regex::{Regex, Result};
use std::alloc::{AllocError, Global};

/// The names of the groups of a regex in UTF-8, a line for each group in order of their numbers, from group 0 on; the line of a group
/// without a name is empty.
///
/// # Errors
///
/// `Memory` if memory runs out.
pub fn group_names(alloc: Global, regex: &Regex) -> Result<String>
    ensures lines { IfOk result (λ text. string_bytes text
        ≡ name_lines (meta_group_names regex.now.meta) (length (meta_pattern regex.now.meta).groups) 0) }
    ensures fails { IfErr result (λ e. e ≡ Memory) }
{
    let mut text = String::new(alloc);
    let mut names = regex.capture_names();
    while let Some(name) = names.next() {
        push_line(&mut text, name_text(name))?;
    }
    Ok(text)
}

/// The name; no text without one.
#[tactic(auto, using(crate::proofs::NameLemmas::line_of_name))]
fn name_text(name: Option<&str>) -> &str
    ensures { name_line (option_map (λ name. chars name.now) name.entry) ≡ result.now ++ (10 ∷ []) }
{
    match name {
        Some(name) => name,
        None => "",
    }
}

/// Appends a name and a newline.
#[tactic(auto, using(crate::proofs::NameLemmas::line_written))]
fn push_line(text: &mut String, name: &str) -> std::result::Result<(), AllocError>
    ensures { OnOk result (string_bytes text.new ≡ string_bytes text.old ++ (name.now ++ (10 ∷ []))) }
{
    text.push_str(name)?;
    text.push_str("\n")
}
