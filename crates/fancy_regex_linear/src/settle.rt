//! The starts of a search, which are settled one after another: by the table of the pattern, or by an attempt.

ghost use Rattle.std.specs.Prelude.{Bool, IfOk, IfSome};
ghost use Rattle.fancy_regex_class.specs.Looks.{looked_text, look_count};
ghost use Rattle.fancy_regex_linear.specs.Layers.{IsSearchContext};
ghost use Rattle.fancy_regex_linear.specs.Settled.{IsAtStart, IsSettled, IsSettling, IsTableSearch};

use crate::by_table::by_table;
use crate::memory::SearchMemory;
use crate::search::{SearchContext, SearchMode, attempt_start};
use crate::starts::Start;
use fancy_regex_class::Counted;
use std::alloc::AllocError;

/// What is known of the starts from a place on.
#[derive(Clone, Copy)]
pub enum Settled {
    /// The first match.
    Found { start: usize, end: usize },
    /// No match starts before `next`, where the search goes on; `None` where it has no more starts.
    On { next: Option<usize> },
}

/// Settles this start, and perhaps some after it. The error is want of memory.
#[inline(always)]
pub fn settle(
    context: &SearchContext,
    text: &mut Counted,
    place: Start,
    mode: &SearchMode,
    memory: &mut SearchMemory,
) -> Result<Settled, AllocError>
    requires context { IsSearchContext context.now }
    requires start { IsAtStart context.now (looked_text text.old) mode.now.anchored place memory.old }
    requires table { IfSome mode.now.table (IsTableSearch context.now (looked_text text.old)) }
    ensures settled { IfOk result (IsSettled context.now (looked_text text.old) (look_count text.old) (look_count text.new)
        mode.now.anchored mode.now.span_only place memory.old memory.new) }
    ensures settling { IsSettling context.now text.old text.new place memory.old memory.new }
{
    if let Some(settled) = by_table(context, text, place, mode, memory)? {
        return Ok(settled);
    }
    let settled = by_attempt(context, text, place, mode.anchored, memory)?;
    Ok(settled)
}

/// Settles this start by an attempt. The error is want of memory.
pub fn by_attempt(
    context: &SearchContext,
    text: &mut Counted,
    place: Start,
    anchored: bool,
    memory: &mut SearchMemory,
) -> Result<Settled, AllocError>
    requires context { IsSearchContext context.now }
    requires start { IsAtStart context.now (looked_text text.old) anchored place memory.old }
    ensures settled { IfOk result (λ settled. (span_only : Bool) → IsSettled context.now (looked_text text.old)
        (look_count text.old) (look_count text.new)
        anchored span_only place memory.old memory.new settled) }
    ensures settling { IsSettling context.now text.old text.new place memory.old memory.new }
{
    if let Some(end) = attempt_start(context, text, place.at, memory)? {
        return Ok(Settled::Found {
            start: place.at,
            end,
        });
    }
    Ok(Settled::On { next: place.next })
}
