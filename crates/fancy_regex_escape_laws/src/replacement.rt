//! Plain replacement by the public calls: a text is escaped, compiled and replaced.

ghost use Rattle.std.specs.Prelude.{◌≡◌, ◌≢◌, [], IfOk};
ghost use Rattle.std.specs.Cow.{cow_str_bytes};
ghost use Rattle.fancy_regex_escape_laws.specs.Occurrences.{plain_replaced};

use crate::{escaped_texts_match_themselves, matches_are_replaced_plainly};
use fancy_regex::{NoExpand, Regex, Result, escape};
use std::alloc::Global;
use std::borrow::CowStr;

/// The text with all matches of the escaped `needle` replaced by `replacement`, under the default options. Where the needle is
/// not empty, this is plain replacement: each occurrence of the needle is replaced by the replacement as it stands, from the
/// left and without overlap. Errors are those of `escape`, `Regex::new` and `replace_all`.
pub fn replace_plainly<'t>(
    alloc: Global,
    text: &'t str,
    needle: &str,
    replacement: &str,
) -> Result<CowStr<'t>>
    ensures { needle.now ≢ [] → IfOk result (λ v. cow_str_bytes v ≡ plain_replaced needle.now replacement.now text.entry.now) }
{
    escaped_texts_match_themselves();
    matches_are_replaced_plainly();
    let pattern = escape(alloc, needle)?;
    let regex = Regex::new(alloc, pattern.as_str())?;
    regex.replace_all(alloc, text, NoExpand(replacement))
}
