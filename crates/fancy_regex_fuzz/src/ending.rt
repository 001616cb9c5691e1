//! How a case ends.

use crate::bytes::has_its_bytes;
use crate::case::Case;
use crate::check::{CHECKS, Check};
use crate::engines::{engine_agrees, machine_agrees};
use crate::groups::groups_agree;
use crate::iteration::{ends_increase, items_alike, next_is_found, pieces_are_the_text};
use crate::layouts::layouts_alike;
use crate::refused::refused_alike;
use crate::replacing::{expansions_agree, fixed_between_pieces, template_is_expanded};
use crate::searches::{begins_alike, keeps_its_bound, part_alike, whole_alike};
use crate::sets::twice_in_a_set;
use crate::states::states_agree;
use crate::tables::tables_alike;
use crate::variants::{finds_itself, longest_ends_after, reprints_alike, seeks_alike};
use fancy_regex::{Error, Regex, Result};
use std::alloc::Global;

/// How a case ends.
#[derive(Clone, Copy, PartialEq, Eq)]
pub enum Ending {
    /// No regex is built of the pattern.
    Refused,
    /// A search met a limit.
    Limited,
    /// Memory ran out.
    Memory,
    /// All checks hold.
    Agrees,
    /// A check does not hold.
    Contradicts(Check),
}

/// Builds the regex of a case and runs all checks.
pub fn ending_of(alloc: Global, case: Case<'_>) -> Ending {
    match built(alloc, case) {
        Ok(regex) => ending_of_built(alloc, case, &regex),
        Err(error) => ending_of_refused(alloc, case, &error),
    }
}

/// The regex of a case, by a builder that keeps its pattern.
fn built(alloc: Global, case: Case<'_>) -> Result<Regex> {
    case.setting.kept_builder(alloc, case.pattern)?.build(alloc)
}

/// Runs the check of a pattern that is refused.
fn ending_of_refused(alloc: Global, case: Case<'_>, error: &Error) -> Ending {
    if *error == Error::Memory {
        return Ending::Memory;
    }
    // Where Unicode is off, a class with a character beyond ASCII is refused.
    if case.setting.is_plain && case.setting.unicode {
        return Ending::Contradicts(Check::Plain);
    }
    match refused_alike(alloc, case, error) {
        Ok(true) => Ending::Refused,
        Err(Error::Memory) => Ending::Memory,
        _ => Ending::Contradicts(Check::Refused),
    }
}

/// Runs the checks of a pattern that is built, up to the first that does not hold or cannot be run.
fn ending_of_built(alloc: Global, case: Case<'_>, regex: &Regex) -> Ending {
    for check in CHECKS.iter() {
        match holds(alloc, case, regex, *check) {
            Ok(true) => {}
            Ok(false) => return Ending::Contradicts(*check),
            Err(error) => return ending_of_error(case, *check, &error),
        }
    }
    Ending::Agrees
}

/// How a case ends where a call of a check fails.
fn ending_of_error(case: Case<'_>, check: Check, error: &Error) -> Ending {
    match error {
        Error::Memory => Ending::Memory,
        Error::RuntimeError(_) if case.setting.is_plain => Ending::Contradicts(Check::Plain),
        Error::RuntimeError(_) => Ending::Limited,
        _ => Ending::Contradicts(check),
    }
}

/// Whether a check holds.
fn holds(alloc: Global, case: Case<'_>, regex: &Regex, check: Check) -> Result<bool> {
    match check {
        Check::Plain => keeps_its_bound(alloc, case, regex),
        Check::Whole => whole_alike(alloc, case, regex),
        Check::Part => part_alike(alloc, case, regex),
        Check::From => begins_alike(alloc, case, regex),
        Check::Groups => groups_agree(alloc, case, regex),
        Check::Engine => engine_agrees(alloc, case, regex),
        Check::Machine => machine_agrees(alloc, case, regex),
        Check::Layouts => layouts_alike(alloc, case),
        Check::States => states_agree(alloc, case, regex),
        Check::Table => tables_alike(alloc, case),
        Check::Ends => ends_increase(alloc, case, regex),
        Check::Next => next_is_found(alloc, case, regex),
        Check::Items => items_alike(alloc, case, regex),
        _ => holds_of_others(alloc, case, regex, check),
    }
}

/// Whether a check holds of pieces, replacements, sets, bytes or other regexes.
fn holds_of_others(alloc: Global, case: Case<'_>, regex: &Regex, check: Check) -> Result<bool> {
    match check {
        Check::Pieces => pieces_are_the_text(alloc, case, regex),
        Check::Template => template_is_expanded(alloc, case, regex),
        Check::Fixed => fixed_between_pieces(alloc, case, regex),
        Check::Expansion => expansions_agree(alloc, case, regex),
        Check::Set => twice_in_a_set(alloc, case, regex),
        Check::Seek => seeks_alike(alloc, case, regex),
        Check::Reprint => reprints_alike(alloc, case, regex),
        Check::Longest => longest_ends_after(alloc, case, regex),
        Check::Bytes => has_its_bytes(alloc, case, regex),
        Check::Escape => finds_itself(alloc, case.text),
        _ => Ok(true),
    }
}
