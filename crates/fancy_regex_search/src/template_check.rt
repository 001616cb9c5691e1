//! What the check of a template asks of a regex, and the errors that it returns.

ghost use Rattle.std.specs.Prelude.{◌≡◌, length, chars, IfOk, IfErr};
ghost use Rattle.fancy_regex_template.specs.Faults.{begins_nothing, invalid_group_name_backref};
ghost use Rattle.fancy_regex_template.specs.FaultView.{fault_of};
ghost use Rattle.fancy_regex_meta.specs.MetaMatches.{meta_pattern};
ghost use Rattle.fancy_regex_meta.specs.declared.error.Error.TheVariants.{Memory};
ghost use Rattle.fancy_regex_search.specs.GroupLookup.{meta_group_names};
ghost use Rattle.fancy_regex_search.specs.TemplateChecks.{groups_of, has_names_from, IsErrorOfFault};

use crate::names::last_group_named;
use crate::regex::Regex;
use fancy_regex_info::CompileError;
use fancy_regex_meta::{Error, Result};
use fancy_regex_template::{GroupNames, TemplateFault};
use fancy_regex_tree::ParseError;
use std::alloc::Global;

/// The groups of a regex.
#[derive(Clone, Copy)]
pub struct RegexGroups<'r> {
    /// The regex.
    pub regex: &'r Regex,
}

/// Whether a group of the regex has a name.
fn has_names(regex: &Regex) -> bool
    ensures { result ≡ has_names_from (meta_group_names regex.now.meta) (length (meta_pattern regex.now.meta).groups) 0 }
{
    let mut names = regex.capture_names();
    while let Some(name) = names.next() {
        if name.is_some() {
            return true;
        }
    }
    false
}

impl GroupNames for RegexGroups<'_> {
    ghost groups = { λ s. groups_of s.regex.now.meta };

    fn contains_name(&self, name: &str) -> bool {
        last_group_named(self.regex.meta.named_groups(), name).is_some()
    }

    fn has_names(&self) -> bool {
        has_names(self.regex)
    }

    fn group_count(&self) -> usize {
        self.regex.captures_len()
    }
}

/// The error for a sign that begins nothing. `Memory` if memory runs out.
fn loose_sign_error(alloc: Global) -> Result<Error>
    ensures tells { IfOk result (λ e. IsErrorOfFault begins_nothing e) }
    ensures fails { IfErr result (λ e. e ≡ Memory) }
{
    let text = String::from_str(alloc, "parse error in template while expanding")?;
    Ok(Error::ParseError(0, ParseError::GeneralParseError(text)))
}

/// The error for a reference to a name that no group has. `Memory` if memory runs out.
fn name_error(alloc: Global, name: &str) -> Result<Error>
    ensures tells { IfOk result (λ e. IsErrorOfFault (invalid_group_name_backref (chars name.now)) e) }
    ensures fails { IfErr result (λ e. e ≡ Memory) }
{
    let text = String::from_str(alloc, name)?;
    Ok(Error::CompileError(CompileError::InvalidGroupNameBackref(text)))
}

/// The error that tells a fault of a template. `Memory` if memory runs out.
pub fn fault_error(alloc: Global, fault: TemplateFault<'_>) -> Result<Error>
    ensures tells { IfOk result (λ e. IsErrorOfFault (fault_of fault.entry) e) }
    ensures fails { IfErr result (λ e. e ≡ Memory) }
{
    match fault {
        TemplateFault::LooseSign => loose_sign_error(alloc),
        TemplateFault::NamedBackrefOnly => {
            Ok(Error::CompileError(CompileError::NamedBackrefOnly))
        }
        TemplateFault::InvalidBackref(number) => {
            Ok(Error::CompileError(CompileError::InvalidBackref(number)))
        }
        TemplateFault::InvalidGroupNameBackref(name) => name_error(alloc, name),
    }
}
