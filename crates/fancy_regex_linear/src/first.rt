//! The first match of a search: what the table alone tells, and then with memory.

ghost use Rattle.std.specs.Prelude.{◌≡◌, ◌+◌, ◌-◌, ◌*◌, ◌^◌, ◌≤◌, ℕ, false, true, length, min, IfOk, IfSome, IsCharBoundary, IsUtf8};
ghost use Rattle.fancy_regex_class.specs.Looks.{looked_text, look_count, SameCounter};
ghost use Rattle.fancy_regex_class.specs.declared.counted.Counted.{Counted};
ghost use Rattle.fancy_regex_states.specs.Attempts.{View, Continuation};
ghost use Rattle.fancy_regex_linear.specs.Alone.{IsAloneIn, IsAskedFrom, IsUnknownAt, unset_slots};
ghost use Rattle.fancy_regex_linear.specs.Find.{earliest, attempted, places};
ghost use Rattle.fancy_regex_linear.specs.Layers.{IsSearchContext};
ghost use Rattle.fancy_regex_linear.specs.Search.{Explains};
ghost use Rattle.fancy_regex_linear.specs.Settled.{IsAnswer, IsAtStart, IsSettledAfter, IsSettling, IsTableSearch};
ghost use Rattle.fancy_regex_linear.specs.Starts.{spot_from};

use crate::alone::{Alone, UnknownStart};
use crate::by_table::{TableSearch, by_attempts};
use crate::memory::SearchMemory;
use crate::search::{SearchContext, SearchMode, earliest_match};
use crate::settle::{Settled, by_attempt};
use fancy_regex_class::Counted;
use std::alloc::AllocError;

/// The start and the end of the first match, as byte offsets, of a pattern with so many groups, where the table alone has told this:
/// what it told, or from the start of which it did not tell on, the match that is found with memory. Its clauses are about each start
/// from which the table may have been asked. The error is want of memory.
#[inline(always)]
pub fn from_alone(
    context: &SearchContext,
    text: &mut Counted,
    it: TableSearch,
    alone: Alone,
    groups: usize,
    memory: &mut SearchMemory,
) -> Result<Option<(usize, usize)>, AllocError>
    requires context { IsSearchContext context.now }
    requires range { context.now.stop ≤ length (looked_text text.old) }
    requires text { IsUtf8 (looked_text text.old) }
    requires unknown { IsAloneIn context.now (looked_text text.old) alone }
    requires table { IsTableSearch context.now (looked_text text.old) it }
    ensures answer { IfOk result (λ span. (old : Counted) (start : ℕ) → IsAskedFrom context.now old text.old start alone
        → (view : View) (go : ℕ → Continuation) → Explains context.now (looked_text old) view go
        → IsAnswer true span memory.new.backtrack.slots.items
        (earliest (spot_from go context.now.entry (unset_slots groups)) (places (looked_text old) false start context.now.stop))) }
    ensures at_most { (old : Counted) (start : ℕ) → IsAskedFrom context.now old text.old start alone → look_count text.new
        ≤ look_count old + (context.now.stop - start + 1) * length context.now.states.now + (context.now.stop - start + 1) }
    ensures at_least { IfOk result (λ _. (old : Counted) (start : ℕ) → IsAskedFrom context.now old text.old start alone
        → (view : View) (go : ℕ → Continuation) → Explains context.now (looked_text old) view go
        → min (look_count old + attempted (spot_from go context.now.entry (unset_slots groups))
        (places (looked_text old) false start context.now.stop)) (2 ^ 64 - 1) ≤ look_count text.new) }
    ensures more { min (look_count text.old) (2 ^ 64 - 1) ≤ look_count text.new }
    ensures same_counter { SameCounter text.old text.new }
{
    match alone {
        Alone::Found { start, end } => Ok(Some((start, end))),
        Alone::NoMatch => Ok(None),
        Alone::Unknown(unknown) => {
            // A context of its own, so that the values of the other one stay in registers.
            let own = *context;
            let span = from_unknown(&own, text, it, &unknown, groups, memory)?;
            Ok(span)
        }
    }
}

/// What a search with memory asks for.
#[derive(Clone, Copy)]
pub struct Request<'t> {
    /// The first byte offset at which a match may start.
    pub start: usize,
    /// How many groups the pattern has.
    pub groups: usize,
    pub mode: SearchMode<'t>,
}

/// The start and the end of the first match, as byte offsets, with its slots in the memory, unless the span alone is wanted. The error
/// is want of memory.
pub fn with_memory(
    context: &SearchContext,
    text: &mut Counted,
    request: &Request,
    memory: &mut SearchMemory,
) -> Result<Option<(usize, usize)>, AllocError>
    requires context { IsSearchContext context.now }
    requires range { (request.now.start ≤ context.now.stop) × (context.now.stop ≤ length (looked_text text.old)) }
    requires text { IsUtf8 (looked_text text.old) }
    requires start { IsCharBoundary (looked_text text.old) request.now.start }
    requires table { IfSome request.now.mode.table (IsTableSearch context.now (looked_text text.old)) }
    ensures answer { IfOk result (λ span. (view : View) (go : ℕ → Continuation) → Explains context.now (looked_text text.old) view go
        → IsAnswer request.now.mode.span_only span memory.new.backtrack.slots.items
        (earliest (spot_from go context.now.entry (unset_slots request.now.groups))
        (places (looked_text text.old) request.now.mode.anchored request.now.start context.now.stop))) }
    ensures at_most { look_count text.new ≤ look_count text.old
        + (context.now.stop - request.now.start + 1) * length context.now.states.now + (context.now.stop - request.now.start + 1) }
    ensures at_least { IfOk result (λ _. (view : View) (go : ℕ → Continuation) → Explains context.now (looked_text text.old) view go
        → min (look_count text.old + attempted (spot_from go context.now.entry (unset_slots request.now.groups))
        (places (looked_text text.old) request.now.mode.anchored request.now.start context.now.stop)) (2 ^ 64 - 1) ≤ look_count text.new) }
    ensures more { min (look_count text.old) (2 ^ 64 - 1) ≤ look_count text.new }
    ensures same_counter { SameCounter text.old text.new }
{
    memory.restart(context.states.len(), request.start, request.groups)?;
    let span = earliest_match(context, text, request.start, &request.mode, memory)?;
    Ok(span)
}

/// The start and the end of the first match from the start on of which the table does not tell. The error is want of memory.
#[inline(never)]
fn from_unknown(
    context: &SearchContext,
    text: &mut Counted,
    it: TableSearch,
    unknown: &UnknownStart,
    groups: usize,
    memory: &mut SearchMemory,
) -> Result<Option<(usize, usize)>, AllocError>
    requires context { IsSearchContext context.now }
    requires range { context.now.stop ≤ length (looked_text text.old) }
    requires text { IsUtf8 (looked_text text.old) }
    requires unknown { IsUnknownAt context.now (looked_text text.old) unknown.now.place unknown.now.from unknown.now.read }
    requires table { IsTableSearch context.now (looked_text text.old) it }
    ensures answer { IfOk result (λ span. (view : View) (go : ℕ → Continuation) → Explains context.now (looked_text text.old) view go
        → IsAnswer true span memory.new.backtrack.slots.items
        (earliest (spot_from go context.now.entry (unset_slots groups))
        (places (looked_text text.old) false unknown.now.place.at context.now.stop))) }
    ensures at_most { look_count text.new ≤ look_count text.old
        + (context.now.stop - unknown.now.place.at + 1) * length context.now.states.now + (context.now.stop - unknown.now.place.at) }
    ensures at_least { IfOk result (λ _. (view : View) (go : ℕ → Continuation) → Explains context.now (looked_text text.old) view go
        → min (look_count text.old + (attempted (spot_from go context.now.entry (unset_slots groups))
        (places (looked_text text.old) false unknown.now.place.at context.now.stop) - 1)) (2 ^ 64 - 1) ≤ look_count text.new) }
    ensures more { min (look_count text.old) (2 ^ 64 - 1) ≤ look_count text.new }
    ensures same_counter { SameCounter text.old text.new }
{
    memory.restart(context.states.len(), unknown.place.at, groups)?;
    match settle_unknown(context, text, it.text, unknown, memory)? {
        Settled::Found { start, end } => Ok(Some((start, end))),
        Settled::On { next: None } => Ok(None),
        Settled::On { next: Some(next) } => {
            let mode = SearchMode {
                anchored: false,
                table: Some(it),
                span_only: true,
            };
            let span = earliest_match(context, text, next, &mode, memory)?;
            Ok(span)
        }
    }
}

/// Settles the starts from this one on of which the table did not tell, by attempts. The error is want of memory.
fn settle_unknown(
    context: &SearchContext,
    text: &mut Counted,
    shown: &str,
    unknown: &UnknownStart,
    memory: &mut SearchMemory,
) -> Result<Settled, AllocError>
    requires context { IsSearchContext context.now }
    requires start { IsAtStart context.now (looked_text text.old) false unknown.now.place memory.old }
    requires shown { shown.now ≡ looked_text text.old }
    requires unknown { IsUnknownAt context.now (looked_text text.old) unknown.now.place unknown.now.from unknown.now.read }
    ensures settled { IfOk result (IsSettledAfter context.now (looked_text text.old) (look_count text.old) (look_count text.new)
        true unknown.now.place unknown.now.from memory.old memory.new) }
    ensures settling { IsSettling context.now text.old text.new unknown.now.place memory.old memory.new }
{
    let place = unknown.place;
    if unknown.read == place.at {
        let settled = by_attempt(context, text, place, false, memory)?;
        return Ok(settled);
    }
    let settled = by_attempts(
        context,
        text,
        shown,
        place,
        unknown.from,
        unknown.read,
        memory,
    )?;
    Ok(settled)
}
