//! Templates and names: the check of a template, texts as patterns, and the names of groups.

ghost use Rattle.std.specs.Prelude.{◌≡◌, string_bytes};
ghost use Rattle.std.specs.Cow.{cow_str_bytes};
ghost use Rattle.fancy_regex_ffi.specs.Lists.{listed};
ghost use Rattle.fancy_regex_ffi.specs.Templates.{AreNames, IsChecked, IsEscaped};

use crate::contents::Subject;
use crate::fault::CallError;
use crate::query::text_of;
use fancy_regex::{Expander, escape};
use fancy_regex_ffi_lists::group_names;
use std::alloc::Global;
use std::borrow::CowStr;

/// The names of the groups, a line for each group.
pub fn names_of<'t>(alloc: Global, subject: &Subject) -> Result<CowStr<'t>, CallError>
    ensures { AreNames subject.now (listed (λ text. cow_str_bytes text) result) }
{
    match subject {
        Subject::Regex(regex) => Ok(CowStr::Owned(group_names(alloc, regex)?)),
        Subject::Set(_) | Subject::Nothing => Err(CallError::NoRegex),
    }
}

/// The first fault of a template from the left, for the groups of a regex.
pub fn checked(
    alloc: Global,
    subject: &Subject,
    template: &[u8],
    is_python: bool,
) -> Result<(), CallError>
    ensures { IsChecked template.now is_python subject.now result }
{
    match subject {
        Subject::Regex(regex) => {
            let template = text_of(template, false)?;
            let expander = if is_python {
                Expander::python()
            } else {
                Expander::default()
            };
            Ok(expander.check(alloc, template, regex)?)
        }
        Subject::Set(_) | Subject::Nothing => Err(CallError::NoRegex),
    }
}

/// The text as a pattern that matches exactly it.
pub fn escaped(alloc: Global, text: &[u8]) -> Result<CowStr<'_>, CallError>
    ensures { IsEscaped text.entry.now (listed (λ text. cow_str_bytes text) result) }
{
    let text = text_of(text, false)?;
    Ok(escape(alloc, text)?)
}
