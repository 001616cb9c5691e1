//! One step of a search in parts.

ghost use Rattle.std.specs.Prelude.{◌≡◌, ◌+◌, ◌^◌, ◌<◌, ◌≤◌, ◌∷◌, Some, length, IfOk, IfSome, OnOk, IsCharBoundary};
ghost use Rattle.std.specs.Char.{len_utf8};
ghost use Rattle.regex_hir.specs.Text.{char_at, char_before};
ghost use Rattle.fancy_regex_class.specs.Looks.{looked_text};
ghost use Rattle.fancy_regex_parts.specs.Ways.{match_end};
ghost use Rattle.fancy_regex_parts.specs.Tables.{mark_of, due};
ghost use Rattle.fancy_regex_parts.specs.Frames.{pending, task_due, step_frames, step_task, back_task, read_task, top_first};
ghost use Rattle.fancy_regex_parts.specs.Layers.{IsLookedAtOnce, CanVisit, IsPaid, IsVisit};

use crate::frame::{Frame, Task};
use crate::memory::PartMemory;
use crate::recall::Known;
use crate::table::PartTable;
use fancy_regex_class::{CharClassMatcher, Counted};
use fancy_regex_states::{Leaf, Rules, State, leaf_matches, test_holds};
use std::alloc::AllocError;

/// The byte offsets at which the pattern's own final state, state 0, matches. The text outside of them is seen all the same.
#[derive(Clone, Copy)]
pub struct EndRange {
    /// The first of them.
    pub least: usize,
    /// The last of them.
    pub most: usize,
}

impl EndRange {
    ghost use Rattle.fancy_regex_parts.specs.Ways.{admits as admits_is};

    /// Whether the final state matches at this byte offset.
    #[inline(always)]
    fn admits(self, at: usize) -> bool
        ensures { result ≡ admits_is self at }
    {
        self.least <= at && at <= self.most
    }
}

/// What a search in parts reads and does not change.
#[derive(Clone, Copy)]
pub struct PartContext<'p> {
    /// The states of the parts.
    pub table: &'p PartTable,
    /// The matchers of their classes.
    pub matchers: &'p [CharClassMatcher],
    /// The flags of the search.
    pub rules: Rules,
    /// The state at which an attempt begins.
    pub entry: usize,
    /// Where the pattern's own final state, state 0, matches.
    pub range: EndRange,
}

/// A byte offset in the text, and the characters around it.
#[derive(Clone, Copy)]
struct Place {
    at: usize,
    before: Option<char>,
    after: Option<char>,
}

/// Executes the state of the number `q` at the byte offset `at`, which costs one look. The error is want of memory.
#[inline(always)]
fn step(
    context: &PartContext,
    text: &mut Counted,
    q: usize,
    state: State,
    at: usize,
    stack: &mut Vec<Frame>,
) -> Result<Task, AllocError>
    requires boundary { IsCharBoundary (looked_text text.old) at }
    requires small { length (looked_text text.old) < 2 ^ 63 }
    ensures task { IfOk result (λ task. task ≡ step_task context.now.matchers.now context.now.rules context.now.range q state at
        (char_before (looked_text text.old) at) (char_at (looked_text text.old) at)) }
    ensures frames { OnOk result (top_first stack.new.items ≡ step_frames state at (top_first stack.old.items)) }
    ensures next { IfSome (char_at (looked_text text.old) at) (λ c. IsCharBoundary (looked_text text.old) (at + len_utf8 c)) }
    ensures looked { IsLookedAtOnce text.old text.new }
{
    let (before, after) = text.look(at);
    let place = Place { at, before, after };
    let task = advance(context, q, state, place, stack)?;
    Ok(task)
}

/// Executes the state of the number `q` at this place. The error is want of memory.
#[inline(always)]
fn advance(
    context: &PartContext,
    q: usize,
    state: State,
    place: Place,
    stack: &mut Vec<Frame>,
) -> Result<Task, AllocError>
    requires after { IfSome place.after (λ c. place.at + len_utf8 c < 2 ^ 64) }
    requires before { IfSome place.before (λ c. len_utf8 c ≤ place.at) }
    ensures task { IfOk result (λ task. task ≡
        step_task context.now.matchers.now context.now.rules context.now.range q state place.at place.before place.after) }
    ensures frames { OnOk result (top_first stack.new.items ≡ step_frames state place.at (top_first stack.old.items)) }
{
    let at = place.at;
    match state {
        State::Read { leaf, next } => Ok(read(context, leaf, next, at, place.after)),
        State::Look { test, next } => {
            if test_holds(
                context.matchers,
                context.rules,
                test,
                at,
                place.before,
                place.after,
            ) {
                Ok(Task::Visit { state: next, at })
            } else {
                Ok(Task::Answer(None))
            }
        }
        State::Back { next } => Ok(step_back(next, at, place.before)),
        State::Split { first, second } => {
            push(stack, Frame::Branch { state: second, at })?;
            Ok(Task::Visit { state: first, at })
        }
        State::Ask {
            part,
            negated,
            next,
        } => {
            push(stack, Frame::Ask { negated, next, at })?;
            Ok(Task::Visit { state: part, at })
        }
        State::Enter { next, .. } | State::Leave { next, .. } => {
            Ok(Task::Visit { state: next, at })
        }
        State::Atomic { part, same, moved } => {
            push(stack, Frame::Atomic { at, same, moved })?;
            Ok(Task::Visit { state: part, at })
        }
        State::Match => Ok(Task::Answer(final_end(context.range, q, at))),
    }
}

/// Where the final state of the number `q` ends at `at`: there, but for the pattern's own where the range does not admit it.
#[inline(always)]
fn final_end(range: EndRange, q: usize, at: usize) -> Option<usize>
    ensures { result ≡ match_end range q at }
{
    if q == 0 && !range.admits(at) {
        None
    } else {
        Some(at)
    }
}

/// Pushes a frame. The error is want of memory.
#[inline(always)]
fn push(stack: &mut Vec<Frame>, frame: Frame) -> Result<(), AllocError>
    ensures { OnOk result (top_first stack.new.items ≡ frame ∷ top_first stack.old.items) }
{
    stack.push(frame)?;
    Ok(())
}

/// Consumes the character at `at` if the leaf matches it.
#[inline(always)]
fn read(context: &PartContext, leaf: Leaf, next: usize, at: usize, after: Option<char>) -> Task
    requires { IfSome after (λ c. at + len_utf8 c < 2 ^ 64) }
    ensures { result ≡ read_task context.now.matchers.now context.now.rules leaf next at after }
{
    match after {
        Some(c) if leaf_matches(context.matchers, context.rules.unicode, leaf, c) => Task::Visit {
            state: next,
            at: at + c.len_utf8(),
        },
        _ => Task::Answer(None),
    }
}

/// Steps back over the character before `at`, if there is one.
#[inline(always)]
fn step_back(next: usize, at: usize, before: Option<char>) -> Task
    requires { IfSome before (λ c. len_utf8 c ≤ at) }
    ensures { result ≡ back_task next at before }
{
    match before {
        Some(c) => Task::Visit {
            state: next,
            at: at - c.len_utf8(),
        },
        None => Task::Answer(None),
    }
}

/// Tries the state `q` at the byte offset `at`, or tells what is known of the pair. The error is want of memory.
#[inline(always)]
pub fn visit(
    context: &PartContext,
    text: &mut Counted,
    memory: &mut PartMemory,
    q: usize,
    at: usize,
) -> Result<Task, AllocError>
    requires { CanVisit context.now text.old memory.old q at }
    ensures visit { IfOk result (IsVisit context.now (looked_text text.old) memory.old.recall memory.new.recall
        (top_first memory.old.stack.items) (top_first memory.new.stack.items) q at) }
    ensures paid { IfOk result (λ task. IsPaid context.now text.old text.new memory.old.recall memory.new.recall
        (due context.now.table.now q + pending context.now.table.now (top_first memory.old.stack.items))
        (task_due context.now.table.now task + pending context.now.table.now (top_first memory.new.stack.items))) }
    ensures looked { IsPaid context.now text.old text.new memory.old.recall memory.new.recall (due context.now.table.now q) 0 }
{
    match context.table.mark(q) {
        Some(mark) => visit_marked(context, text, memory, mark, q, at),
        None => {
            let state = context.table.states[q];
            let task = step(context, text, q, state, at, &mut memory.stack)?;
            Ok(task)
        }
    }
}

/// Tries a state with this mark, or tells what is known of the pair, as `visit`.
#[inline(always)]
fn visit_marked(
    context: &PartContext,
    text: &mut Counted,
    memory: &mut PartMemory,
    mark: usize,
    q: usize,
    at: usize,
) -> Result<Task, AllocError>
    requires ready { CanVisit context.now text.old memory.old q at }
    requires mark { mark_of context.now.table.now q ≡ Some mark }
    ensures visit { IfOk result (IsVisit context.now (looked_text text.old) memory.old.recall memory.new.recall
        (top_first memory.old.stack.items) (top_first memory.new.stack.items) q at) }
    ensures paid { IfOk result (λ task. IsPaid context.now text.old text.new memory.old.recall memory.new.recall
        (due context.now.table.now q + pending context.now.table.now (top_first memory.old.stack.items))
        (task_due context.now.table.now task + pending context.now.table.now (top_first memory.new.stack.items))) }
    ensures looked { IsPaid context.now text.old text.new memory.old.recall memory.new.recall (due context.now.table.now q) 0 }
{
    let known = memory.recall.open(mark, at)?;
    match known {
        Known::New(cell) => {
            push(&mut memory.stack, Frame::Open { cell })?;
            let state = context.table.states[q];
            let task = step(context, text, q, state, at, &mut memory.stack)?;
            Ok(task)
        }
        Known::Fails => Ok(Task::Answer(None)),
        Known::Ends(end) => Ok(Task::Answer(Some(end))),
    }
}
