//! A search for the span alone, by the table of a pattern, that passes over starts by the characters before them.

ghost use Rattle.std.specs.Prelude.{◌≡◌, ◌≤◌, length, IsCharBoundary, IsUtf8};
ghost use Rattle.fancy_regex_class.specs.Looks.{looked_text};
ghost use Rattle.fancy_regex_linear.specs.Alone.{AloneSays, IsLookedAt};
ghost use Rattle.fancy_regex_linear.specs.Layers.{IsSearchContext};
ghost use Rattle.fancy_regex_linear.specs.Before.{IsBeforeOf};
ghost use Rattle.fancy_regex_linear.specs.Settled.{IsTableSearch};

use crate::alone::{Alone, unknown};
use crate::by_table::{TableSearch, pass_counted};
use crate::passing::Passing;
use crate::search::SearchContext;
use crate::skip::skip_before;
use fancy_regex_class::Counted;
use fancy_regex_table::Passed;

/// The first start from `at` on that the character before it and the one there do not show to begin no match, and the character there.
/// Each place up to that one costs a look.
#[inline(always)]
fn pass_before(
    context: &SearchContext,
    text: &mut Counted,
    it: TableSearch,
    before: &Passing,
    at: usize,
) -> (usize, Option<char>)
    requires context { IsSearchContext context.now }
    requires table { IsTableSearch context.now (looked_text text.old) it }
    requires before { IsBeforeOf context.now.rules.unicode context.now.matchers.now context.now.states.now context.now.entry
        context.now.refused.now before.now }
    requires range { (at ≤ context.now.stop) × (context.now.stop ≤ length (looked_text text.old)) }
    requires text { IsUtf8 (looked_text text.old) }
    requires boundary { IsCharBoundary (looked_text text.old) at }
    ensures { IsLookedAt context.now text.old text.new at result }
{
    if at == 0 {
        return (at, text.look(at).1);
    }
    skip_before(context, text, it, before, at)
}

/// Goes through the text as `by_starts_alone` does, by what stands before starts.
// Not inlined: so the other loop keeps its values in registers.
#[inline(never)]
pub fn by_before_alone(
    context: &SearchContext,
    text: &mut Counted,
    it: TableSearch,
    before: &Passing,
    from: usize,
) -> Alone
    requires context { IsSearchContext context.now }
    requires table { IsTableSearch context.now (looked_text text.old) it }
    requires before { IsBeforeOf context.now.rules.unicode context.now.matchers.now context.now.states.now context.now.entry
        context.now.refused.now before.now }
    requires range { (from ≤ context.now.stop) × (context.now.stop ≤ length (looked_text text.old)) }
    requires text { IsUtf8 (looked_text text.old) }
    requires boundary { IsCharBoundary (looked_text text.old) from }
    ensures { AloneSays context.now text.old text.new from result }
{
    let mut at = from;
    'starts: loop {
        let (start, after) = pass_before(context, text, it, before, at);
        match pass_counted(context, text, it, start, true) {
            Passed::Match {
                start: first,
                end,
                ..
            } => return Alone::Found { start: first, end },
            Passed::Ended => return Alone::NoMatch,
            Passed::Idle { at: next } => at = next,
            Passed::Unknown { from, read } => return unknown(context, (start, after), from, read),
        }
    }
}
