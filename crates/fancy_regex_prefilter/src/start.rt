//! The byte offsets at which a match may start.

ghost use Rattle.std.specs.Prelude.{◌≡◌, ◌+◌, ◌<◌, ◌≤◌, IfSome};
ghost use Rattle.std.specs.List.{filter};
ghost use Rattle.fancy_regex_meaning.specs.Positions.{boundaries};
ghost use Rattle.fancy_regex_meaning.specs.Searches.{first_item};
ghost use Rattle.fancy_regex_program.specs.Machine as machine;
ghost use Rattle.fancy_regex_prefilter.specs.RunContexts.{seek_of, may_start, run_parameters_of, IsValidContext};

use crate::run_context::RunContext;

/// Whether the prefilter lets a match start at this byte offset. With a prefilter no match starts at the end of the text.
pub(crate) fn is_sought(run: &RunContext<'_>, cursor: usize) -> bool
    ensures { result ≡ may_start run.now.text.now (seek_of run.now) cursor }
{
    match &run.seek {
        None => true,
        Some(table) => match run.text.as_bytes().get(cursor) {
            Some(byte) => table[*byte as usize],
            None => false,
        },
    }
}

/// The first byte offset from `from` on at which a match may start, up to the end of the range.
pub(crate) fn start_from(run: &RunContext<'_>, from: usize) -> Option<usize>
    requires { IsValidContext run.now }
    ensures first { result
        ≡ first_item (filter (may_start run.now.text.now (seek_of run.now))
        (boundaries run.now.text.now from run.now.input.now.range.end)) }
    ensures later { IfSome result (λ start. (from ≤ start) × (start ≤ run.now.input.now.range.end)) }
{
    let mut cursor = from;
    while cursor <= run.input.range.end {
        if run.text.is_char_boundary(cursor) && is_sought(run, cursor) {
            return Some(cursor);
        }
        cursor += 1;
    }
    None
}

/// The next start after this byte offset; none for an anchored search.
pub fn next_start(run: &RunContext<'_>, cursor: usize) -> Option<usize>
    requires { IsValidContext run.now }
    ensures next { result ≡ machine.next_start (run_parameters_of run.now) cursor }
    ensures later { IfSome result (λ start. (cursor < start) × (start ≤ run.now.input.now.range.end)) }
{
    if run.anchored || cursor >= run.input.range.end {
        None
    } else {
        start_from(run, cursor + 1)
    }
}

/// The first start of a search, or `None` if there is none in the range.
pub fn first_start(run: &RunContext<'_>) -> Option<usize>
    requires { IsValidContext run.now }
    ensures { result ≡ first_item (machine.tried (run_parameters_of run.now)) }
{
    if run.input.first > run.input.range.end {
        return None;
    }
    if !run.anchored {
        return start_from(run, run.input.first);
    }
    if is_sought(run, run.input.first) {
        Some(run.input.first)
    } else {
        None
    }
}
