//! A search over starts.

ghost use Rattle.std.specs.Prelude.{◌≡◌, ◌+◌, ◌-◌, ◌*◌, ◌^◌, ◌<◌, ◌≤◌, length, min, IfOk, IfSome, OnOk, IsCharBoundary, IsUtf8};
ghost use Rattle.fancy_regex_class.specs.Looks.{looked_text, look_count};
ghost use Rattle.fancy_regex_meaning.specs.Positions.{boundaries};
ghost use Rattle.fancy_regex_parts.specs.Tables.{due, cost_from, lowest_of};
ghost use Rattle.fancy_regex_parts.specs.Frames.{IsInReach};
ghost use Rattle.fancy_regex_parts.specs.Layers.{CanAsk, ForTrueWays, IsLookedAtOnce, IsWithinLooks, LeavesMemory};
ghost use Rattle.fancy_regex_parts.specs.Find.{earliest, attempted, failed_starts, tried, AreStarts, IsAfter};

use crate::memory::PartMemory;
use crate::question::ask;
use crate::step::PartContext;
use fancy_regex_class::Counted;
use std::alloc::AllocError;

/// The first place from the byte offset `from` on, up to `last`, where the context's entry has a way, and where its first way from there
/// ends; `None` if it has none. All questions together look at each place at most as often as the parts weigh, and for each start that
/// is asked once more than what is due for the entry, also where memory ran out; and there is at least one look for each start that has
/// no way. What earlier questions have found out is not looked for again: where memory suffices, the looks are those for the starts and
/// those of the pairs that are known now and were not before. The error is want of memory, and what the memory remembers then is still
/// true.
pub fn find(
    context: &PartContext,
    text: &mut Counted,
    memory: &mut PartMemory,
    from: usize,
    last: usize,
) -> Result<Option<(usize, usize)>, AllocError>
    requires ready { CanAsk context.now text.old memory.old }
    requires entry { context.now.entry < length context.now.table.now.states.items }
    requires starts { AreStarts (looked_text text.old) memory.old.recall.base from
        (lowest_of context.now.table.now context.now.entry from) last }
    ensures found { IfOk result (λ found. ForTrueWays context.now text.old memory.old
        (λ ways. found ≡ earliest (ways.end context.now.entry) (boundaries (looked_text text.old) from last))) }
    ensures place { IfOk result (λ found. IfSome found (λ span.
        IsInReach context.now.table.now (looked_text text.old) memory.old.recall.base context.now.entry span.0)) }
    ensures leaves { LeavesMemory context.now text.old text.new memory.old memory.new }
    ensures at_most { OnOk result (ForTrueWays context.now text.old memory.old (λ ways. look_count text.new ≤ look_count text.old
        + attempted (ways.end context.now.entry) (boundaries (looked_text text.old) from last)
        * (due context.now.table.now context.now.entry + 1)
        + cost_from context.now.table.now (looked_text text.old) memory.old.recall.base)) }
    ensures bound { look_count text.new ≤ look_count text.old + (last - from + 1) * (due context.now.table.now context.now.entry + 1)
        + cost_from context.now.table.now (looked_text text.old) memory.old.recall.base }
    ensures counted { IfOk result (λ found. IsWithinLooks context.now text.old text.new memory.old memory.new
        (tried from last found * (due context.now.table.now context.now.entry + 1))) }
    ensures at_least { IfOk result (λ found. min (look_count text.old + failed_starts (looked_text text.old) from last found) (2 ^ 64 - 1)
        ≤ look_count text.new) }
{
    let mut at = from;
    'starts: loop {
        if let Some(end) = ask(context, text, memory, context.entry, at)? {
            return Ok(Some((at, end)));
        }
        match place_after(text, at, last) {
            Some(next) => at = next,
            None => return Ok(None),
        }
    }
}

/// The place after the byte offset `at`; `None` where `last` comes first. It costs one look.
#[inline(always)]
fn place_after(text: &mut Counted, at: usize, last: usize) -> Option<usize>
    requires text { IsUtf8 (looked_text text.old) }
    requires range { (at ≤ last) × (last ≤ length (looked_text text.old)) }
    requires boundary { IsCharBoundary (looked_text text.old) at }
    ensures after { IsAfter (looked_text text.old) last at result }
    ensures looked { IsLookedAtOnce text.old text.new }
{
    let (_, after) = text.look(at);
    let width = after?.len_utf8();
    if width <= last - at {
        Some(at + width)
    } else {
        None
    }
}
