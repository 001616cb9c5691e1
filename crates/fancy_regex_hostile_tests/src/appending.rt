//! Templates that are expanded, and texts that are made for a regex.

use crate::outcome::{BEFORE, appended};
use fancy_regex::{
    Captures, CompileError, Error, Expander, NoExpand, Regex, Replacer, Result, escape,
};
use std::alloc::Global;

/// A call that expands a template for the groups of a match.
pub enum Expanding {
    /// `Expander::append_expansion`.
    AppendExpansion,
    /// `Captures::expand`.
    Expand,
    /// `Replacer::replace_append` of a template.
    ReplaceAppend,
    /// `Replacer::replace_append` of a text that is no template, by a lent replacer.
    ReplaceAppendPlain,
    /// `Expander::write_expansion_vec` of a template with backslashes.
    WriteExpansion,
    /// `Expander::expansion`, which makes a text of its own.
    Expansion,
}

/// Appends the expansion of a template to the text of a buffer.
fn append(
    alloc: Global,
    groups: &Captures<'_, &str>,
    call: &Expanding,
    template: &str,
    buffer: &mut String,
) -> Result<()> {
    match call {
        Expanding::Expand => groups.expand(alloc, template, buffer),
        Expanding::ReplaceAppend => {
            let mut replacer = template;
            replacer.replace_append(alloc, groups, buffer)
        }
        Expanding::ReplaceAppendPlain => {
            let mut plain = NoExpand(template);
            plain.by_ref().replace_append(alloc, groups, buffer)
        }
        _ => Expander::default().append_expansion(alloc, buffer, template, groups),
    }
}

/// Whether a call appends this text to the text of a buffer.
fn appends(
    alloc: Global,
    groups: &Captures<'_, &str>,
    call: &Expanding,
    template: &str,
    wanted: &str,
) -> Result<bool> {
    let mut buffer = String::from_str(alloc, BEFORE)?;
    let outcome = append(alloc, groups, call, template, &mut buffer);
    appended(&outcome, buffer.as_bytes(), wanted)
}

/// Whether this text is appended to the bytes of a buffer.
fn writes(
    alloc: Global,
    groups: &Captures<'_, &str>,
    template: &str,
    wanted: &str,
) -> Result<bool> {
    let mut bytes = BEFORE.as_bytes().to_vec(alloc)?;
    let outcome = Expander::python().write_expansion_vec(alloc, &mut bytes, template, groups);
    appended(&outcome, bytes.as_slice(), wanted)
}

/// Whether a call makes this text of a template.
fn makes(
    alloc: Global,
    groups: &Captures<'_, &str>,
    call: &Expanding,
    template: &str,
    wanted: &str,
) -> Result<bool> {
    match call {
        Expanding::WriteExpansion => writes(alloc, groups, template, wanted),
        Expanding::Expansion => {
            let made = Expander::default().expansion(alloc, template, groups)?;
            Ok(made.as_str() == wanted)
        }
        _ => appends(alloc, groups, call, template, wanted),
    }
}

/// Whether a call makes this text of a template and the groups of the first match.
pub fn expands(
    alloc: Global,
    regex: &Regex,
    text: &str,
    call: &Expanding,
    template: &str,
    wanted: &str,
) -> Result<bool> {
    match regex.captures(alloc, text)? {
        Some(groups) => makes(alloc, &groups, call, template, wanted),
        None => Ok(false),
    }
}

/// Whether `escape` makes this text.
pub fn escapes(alloc: Global, text: &str, wanted: &str) -> Result<bool> {
    Ok(escape(alloc, text)?.as_str() == wanted)
}

/// Whether `Expander::escape` makes this text.
pub fn escapes_template(alloc: Global, text: &str, wanted: &str) -> Result<bool> {
    Ok(Expander::default().escape(alloc, text)?.as_str() == wanted)
}

/// Whether `Expander::check` refuses a template for this name, which no group has.
pub fn is_refused(alloc: Global, regex: &Regex, template: &str, name: &str) -> Result<bool> {
    let outcome = Expander::default().check(alloc, template, regex);
    match &outcome {
        Err(Error::CompileError(CompileError::InvalidGroupNameBackref(refused))) => {
            Ok(refused.as_str() == name)
        }
        Err(Error::Memory) => Err(Error::Memory),
        _ => Ok(false),
    }
}
