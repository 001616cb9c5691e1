//! A search for the span alone, by the table of a pattern, that goes on to characters that each match needs.

ghost use Rattle.std.specs.Prelude.{◌≡◌, ◌≤◌, length, IsCharBoundary, IsUtf8};
ghost use Rattle.fancy_regex_class.specs.Looks.{looked_text};
ghost use Rattle.fancy_regex_linear.specs.Alone.{AloneSays, IsLookedAt};
ghost use Rattle.fancy_regex_linear.specs.Layers.{IsSearchContext};
ghost use Rattle.fancy_regex_linear.specs.Settled.{IsTableSearch};

use crate::alone::{Alone, unknown};
use crate::by_table::{TableSearch, pass_counted};
use crate::search::SearchContext;
use fancy_regex_class::{Counted, count_places};
use fancy_regex_table::Passed;

/// The place at which the search goes on that stands at `at`, and the character there. Each place up to that one costs a look. Up to
/// `clear` the characters have been looked at; from there on the next one that is not passed over is looked for.
#[inline(always)]
fn pass_to_needed(
    context: &SearchContext,
    text: &mut Counted,
    it: TableSearch,
    at: usize,
    clear: &mut usize,
) -> (usize, Option<char>)
    requires table { IsTableSearch context.now (looked_text text.old) it }
    requires range { (at ≤ context.now.stop) × (context.now.stop ≤ length (looked_text text.old)) }
    requires text { IsUtf8 (looked_text text.old) }
    requires boundary { IsCharBoundary (looked_text text.old) at }
    ensures { IsLookedAt context.now text.old text.new at result }
{
    if at < *clear {
        return (at, text.look(at).1);
    }
    let next = it.table.onset(it.text, at);
    *clear = next.clear;
    count_places(text, at, next.place);
    let (_, after) = text.look(next.place);
    (next.place, after)
}

/// Goes through the text as `by_starts_alone` does, by the characters that each match needs.
// Not inlined: so the other loop keeps its values in registers.
#[inline(never)]
pub fn by_needed_alone(
    context: &SearchContext,
    text: &mut Counted,
    it: TableSearch,
    from: usize,
) -> Alone
    requires context { IsSearchContext context.now }
    requires table { IsTableSearch context.now (looked_text text.old) it }
    requires range { (from ≤ context.now.stop) × (context.now.stop ≤ length (looked_text text.old)) }
    requires text { IsUtf8 (looked_text text.old) }
    requires boundary { IsCharBoundary (looked_text text.old) from }
    ensures { AloneSays context.now text.old text.new from result }
{
    let mut at = from;
    let mut clear = from;
    'starts: loop {
        let (start, after) = pass_to_needed(context, text, it, at, &mut clear);
        match pass_counted(context, text, it, start, false) {
            Passed::Match {
                start: first,
                end,
                ..
            } => return Alone::Found { start: first, end },
            Passed::Ended => return Alone::NoMatch,
            Passed::Idle { at: next } => at = next,
            Passed::Unknown { from, read } => return unknown(context, (start, after), from, read),
        }
    }
}
