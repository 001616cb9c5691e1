//! Starts that are settled by the table of the pattern, which goes through the text once.

ghost use Rattle.std.specs.Prelude.{◌≡◌, ◌-◌, ◌+◌, ◌<◌, ◌≤◌, ◌^◌, ℕ, Bool, false, true, Option, Some, None, length, min, IfOk, OnOk, IfSome, IsCharBoundary};
ghost use Rattle.std.specs.Char.{len_utf8};
ghost use Rattle.regex_hir.specs.Text.{char_at, char_before as char_before_of};
ghost use Rattle.fancy_regex_class.specs.Looks.{looked_text, look_count, SameCounter};
ghost use Rattle.fancy_regex_states.specs.Attempts.{View, Continuation};
ghost use Rattle.fancy_regex_states.specs.declared.rules.Rules.{Rules};
ghost use Rattle.fancy_regex_table.specs.Cells.{Parts, Search};
ghost use Rattle.fancy_regex_table.specs.Tables.{IsInRange, IsPassed, IsSearchOf, IsTable};
ghost use Rattle.fancy_regex_linear.specs.Layers.{IsSearchContext, IsBetweenAttempts, IsAttempt};
ghost use Rattle.fancy_regex_linear.specs.Search.{Explains};
ghost use Rattle.fancy_regex_linear.specs.Settled.{IsAtStart, IsBoundaryAfter, IsLoaded, IsSettled, IsSettledAfter, IsSettling, IsTableSearch, IsTried, CountsPass, FailBetween};

use crate::memory::SearchMemory;
use crate::passing::Passing;
use crate::search::{SearchContext, SearchMode, attempt_start};
use crate::settle::Settled;
use crate::starts::{Start, start_after};
use fancy_regex_class::{Counted, count_places};
use fancy_regex_table::{Passed, Table};
use std::alloc::AllocError;

/// The table of a pattern, and the text that it goes through.
#[derive(Clone, Copy)]
pub struct TableSearch<'p> {
    pub table: &'p Table,
    pub text: &'p str,
    /// The characters at which starts are passed over.
    pub passing: &'p Passing,
    /// The characters before starts by which they are passed over, if it is done by these.
    pub before: &'p Option<Passing>,
}

/// What the table tells of the starts from `start` on, at which a search has looked. The table reads the text by itself. Each place at
/// which it tests a row costs one look, but for the first, for which the look by which the search found it stands. Where the table tells
/// nothing more, none is counted: who goes on there counts what was read. With `past_idle` it goes on where attempts end before a character
/// that may begin another one.
#[inline(always)]
pub fn pass_counted(
    context: &SearchContext,
    text: &mut Counted,
    it: TableSearch,
    start: usize,
    past_idle: bool,
) -> Passed
    requires table { IsTableSearch context.now (looked_text text.old) it }
    requires range { (start ≤ context.now.stop) × (context.now.stop ≤ length (looked_text text.old)) }
    requires boundary { IsCharBoundary (looked_text text.old) start }
    ensures passed { (parts : Parts) (rules : Rules) (s : Search) → IsTable parts it.entry.table.now → IsSearchOf parts rules s
        → parts.matchers ≡ context.now.matchers.now → s.text ≡ it.entry.text.now → s.from ≡ start → s.stop ≡ context.now.stop
        → IsPassed s result }
    ensures range { IsInRange it.entry.text.now start context.now.stop result }
    ensures looks { CountsPass text.old text.new start context.now.stop result }
    ensures text { looked_text text.new ≡ looked_text text.old }
    ensures same_counter { SameCounter text.old text.new }
{
    let before = char_before(it.text, start);
    let passed = it.table.pass(
        context.matchers,
        it.text,
        start,
        before,
        context.stop,
        true,
        past_idle,
    );
    match passed {
        Passed::Match { read, .. } => count_places(text, start, read),
        Passed::Ended => count_places(text, start, context.stop),
        Passed::Idle { at } => count_places(text, start + 1, at),
        Passed::Unknown { .. } => {}
    }
    passed
}

/// Settles the starts from this one on as far as the table tells something of them. `None` says nothing, and costs no look. What the
/// table reads costs looks as at `pass_counted`. The error is want of memory.
#[inline(always)]
pub fn by_table(
    context: &SearchContext,
    text: &mut Counted,
    place: Start,
    mode: &SearchMode,
    memory: &mut SearchMemory,
) -> Result<Option<Settled>, AllocError>
    requires context { IsSearchContext context.now }
    requires start { IsAtStart context.now (looked_text text.old) mode.now.anchored place memory.old }
    requires table { IfSome mode.now.table (IsTableSearch context.now (looked_text text.old)) }
    ensures settled { IfOk result (λ found. IfSome found (IsSettled context.now (looked_text text.old)
        (look_count text.old) (look_count text.new)
        mode.now.anchored mode.now.span_only place memory.old memory.new)) }
    ensures same { IfOk result (λ found. found ≡ None → (look_count text.new ≡ look_count text.old) × (memory.new ≡ memory.old)) }
    ensures settling { IsSettling context.now text.old text.new place memory.old memory.new }
{
    let Some(it) = mode.table else {
        return Ok(None);
    };
    if mode.anchored {
        return Ok(None);
    }
    match pass_counted(context, text, it, place.at, true) {
        Passed::Match { start, end, .. } => {
            load_match(context, text, start, memory, mode.span_only)?;
            Ok(Some(Settled::Found { start, end }))
        }
        Passed::Ended => Ok(Some(Settled::On { next: None })),
        Passed::Idle { at } => Ok(Some(Settled::On { next: Some(at) })),
        Passed::Unknown { from, read } => {
            if read == place.at {
                return Ok(None);
            }
            let settled = by_attempts(context, text, it.text, place, from, read, memory)?;
            Ok(Some(settled))
        }
    }
}

/// Leaves the slots of the match that starts here in the memory, unless the span alone is wanted. The error is want of memory.
fn load_match(
    context: &SearchContext,
    text: &mut Counted,
    start: usize,
    memory: &mut SearchMemory,
    span_only: bool,
) -> Result<(), AllocError>
    requires context { IsSearchContext context.now }
    requires range { (memory.old.visited.base ≤ start) × (start ≤ context.now.stop) }
    requires boundary { IsCharBoundary (looked_text text.old) start }
    requires between { IsBetweenAttempts context.now memory.old }
    ensures loaded { OnOk result (IsLoaded context.now (looked_text text.old) span_only start memory.old memory.new) }
    ensures attempt { IsAttempt context.now text.old text.new memory.old memory.new start }
{
    if span_only {
        return Ok(());
    }
    let _ = attempt_start(context, text, start, memory)?;
    Ok(())
}

/// Settles the starts up to `read` and that one, where the table has read the text up to there and no match starts before `from`, by
/// attempts. Each place after the first at which the table has tested a row costs one look: the last is looked at here. The error is
/// want of memory.
pub fn by_attempts(
    context: &SearchContext,
    text: &mut Counted,
    shown: &str,
    place: Start,
    from: usize,
    read: usize,
    memory: &mut SearchMemory,
) -> Result<Settled, AllocError>
    requires context { IsSearchContext context.now }
    requires start { IsAtStart context.now (looked_text text.old) false place memory.old }
    requires range { (place.at ≤ from) × (from ≤ read) × (place.at < read) × (read ≤ context.now.stop) }
    requires shown { shown.now ≡ looked_text text.old }
    requires boundaries { IsCharBoundary shown.now from × IsCharBoundary shown.now read }
    ensures settled { IfOk result (λ settled. (span_only : Bool) → IsSettledAfter context.now (looked_text text.old) (look_count text.old)
        (look_count text.new) span_only place from memory.old memory.new settled) }
    ensures settling { IsSettling context.now text.old text.new place memory.old memory.new }
{
    let after = end_pass(text, place.at, read);
    let next = start_after(read, after, false, context.stop);
    match first_tried(context, text, shown, from, read, memory)? {
        Some((start, end)) => Ok(Settled::Found { start, end }),
        None => Ok(Settled::On { next }),
    }
}

/// Ends a pass of the table from `start` that told no more than where it stopped, at `read`. Answers the character there. Each place after
/// `start`, up to `read`, costs one look: the last is looked at here.
#[inline(always)]
fn end_pass(text: &mut Counted, start: usize, read: usize) -> Option<char>
    requires range { (start < read) × (read ≤ length (looked_text text.old)) }
    requires boundary { IsCharBoundary (looked_text text.old) read }
    ensures after { result ≡ char_at (looked_text text.old) read }
    ensures next { IfSome result (λ c. IsCharBoundary (looked_text text.old) (read + len_utf8 c)) }
    ensures looks { look_count text.new ≡ min (look_count text.old + (read - start)) (2 ^ 64 - 1) }
    ensures text { looked_text text.new ≡ looked_text text.old }
    ensures same_counter { SameCounter text.old text.new }
{
    count_places(text, start + 1, read);
    let (_, after) = text.look(read);
    after
}

/// The first start from `from` up to `last` that matches, and where the match ends, with its slots in the memory. The error is want of
/// memory.
fn first_tried(
    context: &SearchContext,
    text: &mut Counted,
    shown: &str,
    from: usize,
    last: usize,
    memory: &mut SearchMemory,
) -> Result<Option<(usize, usize)>, AllocError>
    requires context { IsSearchContext context.now }
    requires range { (memory.old.visited.base ≤ from) × (from ≤ last) × (last ≤ context.now.stop) }
    requires shown { shown.now ≡ looked_text text.old }
    requires boundaries { IsCharBoundary shown.now from × IsCharBoundary shown.now last }
    requires between { IsBetweenAttempts context.now memory.old }
    ensures tried { IfOk result (IsTried context.now (looked_text text.old) memory.old memory.new from last) }
    ensures attempt { IsAttempt context.now text.old text.new memory.old memory.new last }
{
    let mut start = from;
    'starts: loop {
        if let Some(end) = attempt_start(context, text, start, memory)? {
            return Ok(Some((start, end)));
        }
        if start >= last {
            return Ok(None);
        }
        start = boundary_after(shown, start);
    }
}

/// The first byte offset after `at` at which a character begins, or the end of the text.
fn boundary_after(text: &str, at: usize) -> usize
    requires { at < length text.now }
    ensures { IsBoundaryAfter text.now at result }
{
    let bytes = text.as_bytes();
    let mut next = at + 1;
    'bytes: while next < bytes.len() && is_continuation(bytes[next]) {
        next += 1;
    }
    next
}

/// Whether no character begins with the byte.
#[inline(always)]
fn is_continuation(byte: u8) -> bool
    ensures yes { result ≡ true → (128 ≤ byte) × (byte < 192) }
    ensures no { result ≡ false → 128 ≤ byte → 192 ≤ byte }
{
    byte >= 128 && byte < 192
}

/// The character that ends at the byte offset `position`. An ASCII character is read as one byte.
#[inline(always)]
pub fn char_before(text: &str, position: usize) -> Option<char>
    requires { IsCharBoundary text.now position }
    ensures { result ≡ char_before_of text.now position }
{
    if position == 0 {
        return None;
    }
    let byte = text.as_bytes()[position - 1];
    if byte < 128 {
        return Some(byte as char);
    }
    decode_before(text, position)
}

/// The character that ends at the byte offset `position`, of any length.
fn decode_before(text: &str, position: usize) -> Option<char>
    requires { IsCharBoundary text.now position }
    ensures { result ≡ char_before_of text.now position }
{
    let (front, _) = text.split_at(position);
    front.chars().next_back()
}
