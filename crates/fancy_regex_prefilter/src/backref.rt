//! Back references: whether the text of a group occurs again at a position.

ghost use Rattle.std.specs.Prelude.{◌≡◌, ◌+◌, ◌-◌, ◌≤◌, ◌<◌, chars, false, IsCharBoundary, IsTrue, Some, None, if◌then◌else◌, ◌==◌};
ghost use lib.Pointwise.{pointwise};
ghost use Rattle.fancy_regex_class.specs.Classes.{folded};
ghost use Rattle.fancy_regex_meaning.specs.Ways as ways;
ghost use Rattle.fancy_regex_program.specs.Machine as machine;
ghost use Rattle.fancy_regex_prefilter.specs.Backrefs.{Differ};
ghost use Rattle.fancy_regex_prefilter.specs.RunContexts.{setting_of_run};

use crate::run_context::RunContext;
use fancy_regex_class::fold;

/// Whether the bytes in `start..end` equal those in `position..next`, which has the same length.
pub fn same_bytes(
    run: &RunContext<'_>,
    start: usize,
    end: usize,
    position: usize,
    next: usize,
) -> bool
    requires { next ≡ position + (end - start) }
    ensures { result ≡ ways.same_bytes (setting_of_run run.now) start end position next }
{
    are_same_bytes(run, start, end, position, next)
}

/// Like `same_bytes`, where a call would take longer than the comparison.
#[inline(always)]
pub(crate) fn are_same_bytes(
    run: &RunContext<'_>,
    start: usize,
    end: usize,
    position: usize,
    next: usize,
) -> bool
    requires { next ≡ position + (end - start) }
    ensures { result ≡ ways.same_bytes (setting_of_run run.now) start end position next }
{
    let text = run.text.as_bytes();
    if next > text.len() {
        return false;
    }
    if start >= end {
        return true;
    }
    if begins_otherwise(run, start, end, position, next) {
        return false;
    }
    match text.get(start..end) {
        Some(taken) => taken == &text[position..next],
        None => false,
    }
}

/// Whether another byte stands at `position` than at `start`, so that the bytes in `start..end`, of which there are some, are not those in
/// `position..next`, which has the same length.
#[inline(always)]
pub fn begins_otherwise(
    run: &RunContext<'_>,
    start: usize,
    end: usize,
    position: usize,
    next: usize,
) -> bool
    requires { next ≡ position + (end - start) }
    ensures { IsTrue result → ways.same_bytes (setting_of_run run.now) start end position next ≡ false }
{
    // Only the proof asks where the second range ends.
    let _ = next;
    if start >= end {
        return false;
    }
    differ(run.text.as_bytes(), start, position)
}

/// Whether other bytes stand at these two offsets.
#[inline(always)]
fn differ(text: &[u8], one: usize, other: usize) -> bool
    ensures { IsTrue result → Differ text.now one other }
{
    match (text.get(one), text.get(other)) {
        (Some(a), Some(b)) => *a != *b,
        _ => false,
    }
}

/// Whether the characters in `start..end` equal those in `position..next` under case folding.
fn spells_alike(
    run: &RunContext<'_>,
    start: usize,
    end: usize,
    position: usize,
    next: usize,
) -> bool
    requires start { IsCharBoundary run.now.text.now start }
    requires end { IsCharBoundary run.now.text.now end }
    requires position { IsCharBoundary run.now.text.now position }
    requires order { start ≤ end }
    requires next { next ≡ position + (end - start) }
    ensures { result ≡ ways.spells_alike (setting_of_run run.now) start end position next }
{
    let text = run.text;
    if !text.is_char_boundary(next) {
        return false;
    }
    folds_alike(&text[start..end], &text[position..next], run.unicode)
}

/// Whether two texts are equal under case folding, character by character.
fn folds_alike(taken: &str, found: &str, unicode: bool) -> bool
    ensures { result ≡ pointwise (λ c d. folded unicode c == folded unicode d) (chars taken.now) (chars found.now) }
{
    let mut left = taken.chars();
    let mut right = found.chars();
    'chars: loop {
        match (left.next(), right.next()) {
            (Some(c), Some(d)) => {
                if fold(c, unicode) != fold(d, unicode) {
                    return false;
                }
            }
            (None, None) => return true,
            _ => return false,
        }
    }
}

/// The byte offset after the back reference if the text in `start..end` occurs again at `position`.
pub fn match_backref(
    run: &RunContext<'_>,
    casei: bool,
    start: usize,
    end: usize,
    position: usize,
) -> Option<usize>
    requires ends { IsTrue (machine.is_valid_span (setting_of_run run.now) start end) }
    requires cursor { IsTrue (machine.is_valid_offset run.now.text.now position) }
    ensures { result
        ≡ (if machine.match_backref (setting_of_run run.now) casei start end position then Some (position + (end - start)) else None) }
{
    let next = position.checked_add(end - start)?;
    let same = if casei {
        spells_alike(run, start, end, position, next)
    } else {
        same_bytes(run, start, end, position, next)
    };
    if same { Some(next) } else { None }
}
