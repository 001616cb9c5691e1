//! The end of the first match from one place, where a few steps find it. So few visit no pair of a state and a place often, and no set of
//! visited pairs is kept.

ghost use Rattle.std.specs.Prelude.{◌≡◌, ℕ, ◌+◌, ◌-◌, ◌^◌, ◌≤◌, false, length, min, IsCharBoundary};
ghost use Rattle.regex_hir.specs.Text.{char_at, char_before};
ghost use Rattle.fancy_regex_class.specs.Looks.{looked_text, look_count, SameCounter};
ghost use Rattle.fancy_regex_states.specs.Attempts.{View, Continuation, MayAsk, NamesBelow, visit as state_visit, Shows};
ghost use Rattle.fancy_regex_linear.specs.Search.{IsPair, Explains};
ghost use Rattle.fancy_regex_linear.specs.Layers.{IsSearchContext, IsOnlyLookedAt};
ghost use Rattle.fancy_regex_linear.specs.Quick.{IsQuickEnd, IsLead, IsLeadWithin, lead_of_step};

use crate::frame::SearchStep;
use crate::open_pairs::OpenPairs;
use crate::search::{SearchContext, read};
use fancy_regex_class::Counted;
use fancy_regex_states::{State, test_holds};

/// What a search tells that takes few steps.
#[derive(Clone, Copy)]
pub enum Quick {
    /// The match ends at this byte offset.
    Ends(usize),
    /// There is no match.
    Fails,
    /// Nothing: it took too many steps.
    GivenUp,
}

/// Where a state leads at a place.
#[derive(Clone, Copy)]
pub enum Lead {
    /// To this state, at this byte offset.
    On(usize, usize),
    /// To the first of these states at this place, and where that fails to the second.
    Branches(usize, usize),
    /// Nowhere.
    Fails,
    /// The pattern has matched.
    Ends,
}

/// Where the first match ends from the state `entry` at the byte offset `from` on, if it takes visits of `most` states at most, and few
/// ways are left open at a time. Each visit costs a look.
#[inline(always)]
pub fn quick_end(
    context: &SearchContext,
    text: &mut Counted,
    entry: usize,
    from: usize,
    most: usize,
) -> Quick
    requires context { IsSearchContext context.now }
    requires first { context.now.rules.longest ≡ false }
    requires pair { IsPair (looked_text text.old) (length context.now.states.now) context.now.stop 0 entry from }
    ensures end { (view : View) (go : ℕ → Continuation) → Explains context.now (looked_text text.old) view go
        → IsQuickEnd go entry from result }
    ensures at_most { look_count text.new ≤ look_count text.old + most }
    ensures looks { IsOnlyLookedAt text.old text.new }
{
    let mut open = OpenPairs::new();
    let mut id = entry;
    let mut at = from;
    for _visit in 0..most {
        match lead_from(context, text, context.states[id], at) {
            Lead::On(next, place) => {
                id = next;
                at = place;
            }
            Lead::Branches(first, second) => {
                if !open.push(second, at) {
                    return Quick::GivenUp;
                }
                id = first;
            }
            Lead::Fails => {
                let Some(pair) = open.pop() else {
                    return Quick::Fails;
                };
                id = pair.state;
                at = pair.at;
            }
            Lead::Ends => return Quick::Ends(at),
        }
    }
    Quick::GivenUp
}

/// Where the state leads at the byte offset `at`. It costs a look.
#[inline(always)]
fn lead_from(context: &SearchContext, text: &mut Counted, state: State, at: usize) -> Lead
    requires first { context.now.rules.longest ≡ false }
    requires place { (at ≤ context.now.stop) × IsCharBoundary (looked_text text.old) at }
    requires names { NamesBelow (length context.now.states.now) state }
    ensures leads { (view : View) (go : ℕ → Continuation) (id : ℕ)
        → view.longest ≡ false
        → Shows context.now.matchers.now context.now.rules view at
        (char_before (looked_text text.old) at) (char_at (looked_text text.old) at)
        → MayAsk view.has_parts state
        → go id at ≡ state_visit view context.now.stop go state at
        → IsLead go id at result }
    ensures within { IsLeadWithin (looked_text text.old) (length context.now.states.now) context.now.stop result }
    ensures looked { look_count text.new ≡ min (look_count text.old + 1) (2 ^ 64 - 1) }
    ensures text { looked_text text.new ≡ looked_text text.old }
    ensures same_counter { SameCounter text.old text.new }
{
    match state {
        State::Read { leaf, next } => {
            let (_, after) = text.look(at);
            lead_of(read(context, leaf, next, at, after))
        }
        State::Look { test, next } => {
            let (before, after) = text.look(at);
            if test_holds(context.matchers, context.rules, test, at, before, after) {
                Lead::On(next, at)
            } else {
                Lead::Fails
            }
        }
        State::Split { first, second } => {
            let _ = text.look(at);
            Lead::Branches(first, second)
        }
        State::Enter { next, .. } => {
            let _ = text.look(at);
            Lead::On(next, at)
        }
        State::Leave { next, .. } => {
            let _ = text.look(at);
            Lead::On(next, at)
        }
        State::Match => {
            let _ = text.look(at);
            Lead::Ends
        }
        // No state of an easy pattern asks a part or steps back.
        State::Ask { .. } | State::Atomic { .. } | State::Back { .. } => {
            let _ = text.look(at);
            Lead::Fails
        }
    }
}

/// Where a state leads that reads.
#[inline(always)]
fn lead_of(step: SearchStep) -> Lead
    ensures { result ≡ lead_of_step step }
{
    match step {
        SearchStep::Pair(next, place) => Lead::On(next, place),
        SearchStep::Backtrack | SearchStep::Matched => Lead::Fails,
    }
}
