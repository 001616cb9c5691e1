//! A text with the matches of a regex replaced.

ghost use Rattle.std.specs.Prelude.{◌≡◌, ◌≢◌, IfOk, IfErr, OnOk, string_bytes};
ghost use Rattle.std.specs.Cow.{cow_str_bytes};
ghost use Rattle.fancy_regex.specs.Error.TheVariants.{Memory};
ghost use Rattle.fancy_regex.specs.IterationErrors.{IsErrorOfIteration};
ghost use Rattle.fancy_regex.specs.IterationLimits.{IterationStays};
ghost use Rattle.fancy_regex.specs.TextMatches.{IsErrorOfSearch};
ghost use Rattle.fancy_regex.specs.ReplacedTexts.{replaced_in};

use fancy_regex::{Regex, Result};
use std::alloc::Global;
use std::borrow::CowStr;

/// The text with each match replaced by what the template stands for there; the text itself if there is no match.
/// `RuntimeError` if a search exceeds a limit, or `Memory`.
pub fn replaced_text<'t>(
    alloc: Global,
    regex: &Regex,
    text: &'t str,
    template: &str,
) -> Result<CowStr<'t>>
    ensures text { IfOk result (λ v. cow_str_bytes v
        ≡ replaced_in regex.now.meta.options (string_bytes regex.now.meta.pattern) template.now text.entry.now) }
    ensures fails { IfErr result (IsErrorOfSearch regex.now.meta.options (string_bytes regex.now.meta.pattern) text.entry.now) }
    ensures stays { OnOk result (IterationStays regex.now.meta text.entry.now) }
    ensures passes { IfErr result (λ e. e ≢ Memory → IsErrorOfIteration regex.now.meta text.entry.now e) }
{
    regex.replace_all(alloc, text, template)
}
