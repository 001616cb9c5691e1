//! Checks of replacements and of templates.

use crate::case::Case;
use fancy_regex::{CaptureMatches, Captures, Expander, NoExpand, Regex, Result};
use std::alloc::Global;

/// Whether a replacement by the template has its expansion for each match.
pub fn template_is_expanded(alloc: Global, case: Case<'_>, regex: &Regex) -> Result<bool> {
    let wanted = expanded(alloc, case, regex.captures_iter(alloc, case.text))?;
    let made = regex.replace_all(alloc, case.text, case.template)?;
    Ok(made.as_str() == wanted.as_str())
}

/// The text with the expansion of the template in the place of each match.
fn expanded(
    alloc: Global,
    case: Case<'_>,
    mut matches: CaptureMatches<'_, &str>,
) -> Result<String> {
    let mut joined = String::new(alloc);
    let mut last = 0;
    while let Some(groups) = matches.next() {
        last = push_replaced(alloc, &mut joined, case, &groups?, last)?;
    }
    push_gap(&mut joined, case.text.get(last..))?;
    Ok(joined)
}

/// Appends the text from `last` to a match and the match's expansion; the end of the match.
fn push_replaced(
    alloc: Global,
    joined: &mut String,
    case: Case<'_>,
    groups: &Captures<'_, &str>,
    last: usize,
) -> Result<usize> {
    let Some(found) = groups.get(0) else {
        return Ok(last);
    };
    push_gap(joined, case.text.get(last..found.start()))?;
    Expander::default().append_expansion(alloc, joined, case.template, groups)?;
    Ok(found.end())
}

/// Appends a part of the text, if there is one.
fn push_gap(joined: &mut String, gap: Option<&str>) -> Result<()> {
    if let Some(gap) = gap {
        joined.push_str(gap)?;
    }
    Ok(())
}

/// Whether a replacement of the first matches, or of all, by the template as it stands has it between one piece more.
pub fn fixed_between_pieces(alloc: Global, case: Case<'_>, regex: &Regex) -> Result<bool> {
    for limit in 0..4 {
        if !limited_between_pieces(alloc, case, regex, limit)? {
            return Ok(false);
        }
    }
    Ok(true)
}

/// Whether a replacement of the first matches, of which there are so many at most, has the template between one piece more; 0 is for
/// all matches.
fn limited_between_pieces(
    alloc: Global,
    case: Case<'_>,
    regex: &Regex,
    limit: usize,
) -> Result<bool> {
    let fixed = NoExpand(case.template);
    let made = match limit {
        0 => regex.replace_all(alloc, case.text, fixed)?,
        1 => regex.replace(alloc, case.text, fixed)?,
        2 => regex.replacen(alloc, case.text, limit, fixed)?,
        _ => regex.try_replacen(alloc, case.text, limit, fixed)?,
    };
    let wanted = joined(alloc, case, regex, limit)?;
    Ok(made.as_str() == wanted.as_str())
}

/// The pieces of the text with the template between them: one more than the limit at most, all if that is 0.
fn joined(alloc: Global, case: Case<'_>, regex: &Regex, limit: usize) -> Result<String> {
    let pieces = match limit {
        0 => usize::MAX,
        _ => limit.saturating_add(1),
    };
    let mut joined = String::new(alloc);
    let mut is_first = true;
    for piece in regex.splitn(alloc, case.text, pieces) {
        if !is_first {
            joined.push_str(case.template)?;
        }
        joined.push_str(piece?)?;
        is_first = false;
    }
    Ok(joined)
}

/// Whether all calls that expand the template for the first match make the same of it, and it comes back where it is escaped, in
/// both syntaxes.
pub fn expansions_agree(alloc: Global, case: Case<'_>, regex: &Regex) -> Result<bool> {
    match regex.captures(alloc, case.text)? {
        Some(groups) => Ok(
            expand_alike(alloc, case, &groups)?
                && comes_back(alloc, case, regex, &groups, &Expander::default())?
                && comes_back(alloc, case, regex, &groups, &Expander::python())?,
        ),
        None => Ok(true),
    }
}

/// Whether `expansion`, `expand` and `write_expansion_vec` make the same of the template.
fn expand_alike(alloc: Global, case: Case<'_>, groups: &Captures<'_, &str>) -> Result<bool> {
    let wanted = Expander::default().expansion(alloc, case.template, groups)?;
    let mut text = String::new(alloc);
    groups.expand(alloc, case.template, &mut text)?;
    Ok(text == wanted && bytes_expand_to(alloc, case, groups, wanted.as_str())?)
}

/// Whether `write_expansion_vec` makes the bytes of this text of the template.
fn bytes_expand_to(
    alloc: Global,
    case: Case<'_>,
    groups: &Captures<'_, &str>,
    wanted: &str,
) -> Result<bool> {
    let mut bytes = Vec::new(alloc);
    Expander::default().write_expansion_vec(alloc, &mut bytes, case.template, groups)?;
    Ok(bytes.as_slice() == wanted.as_bytes())
}

/// Whether the template escaped in a syntax has no fault and expands to itself for these groups.
fn comes_back(
    alloc: Global,
    case: Case<'_>,
    regex: &Regex,
    groups: &Captures<'_, &str>,
    expander: &Expander,
) -> Result<bool> {
    let escaped = expander.escape(alloc, case.template)?;
    expander.check(alloc, escaped.as_str(), regex)?;
    let made = expander.expansion(alloc, escaped.as_str(), groups)?;
    Ok(made.as_str() == case.template)
}
