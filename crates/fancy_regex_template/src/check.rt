//! The check of a template against the groups of a pattern.

ghost use Rattle.std.specs.Prelude.{◌≡◌, chars, option_map};
ghost use Rattle.std.specs.Result.{result_err};
ghost use Rattle.fancy_regex_template.specs.Parts.{part_of, parts};
ghost use Rattle.fancy_regex_template.specs.Faults.{number_fault, digits_fault, part_fault, first_fault};
ghost use Rattle.fancy_regex_template.specs.FaultView.{fault_of};

use crate::groups::GroupNames;
use crate::numbers::number_of;
use crate::parts::{TemplatePart, template_parts};
use crate::syntax::TemplateSyntax;

/// What is wrong with a template.
#[derive(Clone, Copy, Debug, PartialEq, Eq)]
pub enum TemplateFault<'t> {
    /// A sign that begins nothing.
    LooseSign,
    /// A reference to a number above 0, for a pattern that has names.
    NamedBackrefOnly,
    /// A reference to a number that no group has; the payload is the number.
    InvalidBackref(usize),
    /// A reference to a name that no group has and that writes no number; the payload is the name. Digits that do not fit a
    /// `usize` write no number.
    InvalidGroupNameBackref(&'t str),
}

/// What is wrong with a reference to a number.
fn number_fault<'t, G: GroupNames>(groups: &G, number: usize) -> Option<TemplateFault<'t>>
    ensures { option_map fault_of result ≡ number_fault (G.groups groups.now) number }
{
    if number == 0 {
        None
    } else if groups.has_names() {
        Some(TemplateFault::NamedBackrefOnly)
    } else if number < groups.group_count() {
        None
    } else {
        Some(TemplateFault::InvalidBackref(number))
    }
}

/// What is wrong with a reference to a name that no group has.
fn digits_fault<'t, G: GroupNames>(groups: &G, name: &'t str) -> Option<TemplateFault<'t>>
    ensures { option_map fault_of result ≡ digits_fault (G.groups groups.now) (chars name.now) }
{
    match number_of(name) {
        Some(number) => number_fault(groups, number),
        None => Some(TemplateFault::InvalidGroupNameBackref(name)),
    }
}

/// What is wrong with a part.
fn part_fault<'t, G: GroupNames>(groups: &G, part: TemplatePart<'t>) -> Option<TemplateFault<'t>>
    ensures { option_map fault_of result ≡ part_fault (G.groups groups.now) (part_of part.entry) }
{
    match part {
        TemplatePart::Literal(_) | TemplatePart::DoubledSign => None,
        TemplatePart::Named(name) => {
            if groups.contains_name(name) {
                None
            } else {
                digits_fault(groups, name)
            }
        }
        TemplatePart::Numbered(number) => number_fault(groups, number),
        TemplatePart::LooseSign => Some(TemplateFault::LooseSign),
    }
}

/// The first fault of a template from the left, for a pattern with these groups. `Ok` if each reference exists and each sign
/// begins something.
pub fn check_template<'t, G: GroupNames>(
    syntax: TemplateSyntax,
    template: &'t str,
    groups: &G,
) -> Result<(), TemplateFault<'t>>
    ensures { option_map fault_of (result_err result) ≡ first_fault (G.groups groups.now) (parts syntax (chars template.now)) }
{
    for part in template_parts(syntax, template) {
        if let Some(fault) = part_fault(groups, part) {
            return Err(fault);
        }
    }
    Ok(())
}
