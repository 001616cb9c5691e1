//! The check of the states with parts.

use crate::case::Case;
use crate::continuing::{continue_alike, longest_alike};
use crate::engines::{has_places, run_input};
use crate::part::input_of;
use fancy_regex::{Expr, Regex, Result};
use fancy_regex_analysis::analyze;
use fancy_regex_info::{AnalyzeContext, CompileOptions};
use fancy_regex_regular::{Regular, RegularMemory};
use std::alloc::Global;

/// Whether the states with parts find the regex's groups in the case's part, where the pattern has such states, and what the program
/// finds, wherever `\G` holds, and for the longest match.
pub fn states_agree(alloc: Global, case: Case<'_>, regex: &Regex) -> Result<bool> {
    let longest = states_of(alloc, case, true)?;
    if let Some(regular) = &longest {
        if !longest_alike(alloc, case, regular)? {
            return Ok(false);
        }
    }
    let found = states_of(alloc, case, false)?;
    match &found {
        Some(regular) => Ok(
            has_places_of(alloc, case, regex, regular)? && continue_alike(alloc, case, regular)?,
        ),
        None => Ok(true),
    }
}

/// The states of the case's pattern, for its first match or its longest, if it has some and may match the empty string.
fn states_of(alloc: Global, case: Case<'_>, longest: bool) -> Result<Option<Regular>> {
    if case.setting.not_empty {
        return Ok(None);
    }
    let tree = Expr::parse_tree_with_flags(alloc, case.pattern, case.setting.flags())?;
    let options = CompileOptions {
        contains_subroutines: tree.contains_subroutines,
        leftmost_longest: longest,
        ..case.setting.compile_options()
    };
    let info = analyze(alloc, &tree, AnalyzeContext::default())?;
    Ok(Regular::if_supported(alloc, &info, &options)?)
}

/// Whether these states find the regex's groups in the case's part.
fn has_places_of(alloc: Global, case: Case<'_>, regex: &Regex, regular: &Regular) -> Result<bool> {
    let text = case.text;
    match run_input(input_of(text, case.part)) {
        Some(input) if input.range.end <= text.len() && text.is_char_boundary(input.first) => {
            let mut memory = RegularMemory::new(alloc);
            let places = regular.search_in(alloc, text, &input, &mut memory)?;
            has_places(alloc, case, regex, &places)
        }
        _ => Ok(true),
    }
}
