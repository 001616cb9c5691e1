//! The searches over texts of bytes: each test that a Rust caller's types would make is made here.

ghost use Rattle.std.specs.Prelude.{◌≡◌, true, IfOk, IsUtf8};
ghost use Rattle.fancy_regex_ffi.specs.Rows.{IsRowIn, query_after};
ghost use Rattle.fancy_regex_ffi.specs.Searches.{IsTextOrFault, IsPlaceOrFault, IsFoundIn, IsMatchFlagIn, CountsLooks, CountsStarts};

use crate::fault::CallError;
use fancy_regex::{Regex, RegexInput, SearchMemory, Steps};
use fancy_regex_ffi_lists::Span;
use std::alloc::Global;
use std::str;

/// How a text is searched, as C gives it.
#[repr(C)]
#[derive(Clone, Copy)]
pub struct Query {
    /// The byte offset at which the search begins.
    pub position: usize,
    /// Whether the text is known to be UTF-8; else it is tested.
    pub is_utf8: bool,
    /// Whether `\G` matches at `position`; else it never matches.
    pub continues: bool,
}

impl Query {
    /// The query for the search that begins where a match ended.
    fn after(&self, end: usize) -> Query
        ensures { result ≡ query_after self.now end }
    {
        Query {
            position: end,
            is_utf8: self.is_utf8,
            continues: self.continues,
        }
    }
}

/// The text, which is tested unless it is known to be UTF-8.
pub fn text_of(bytes: &[u8], is_utf8: bool) -> Result<&str, CallError>
    requires { is_utf8 ≡ true → IsUtf8 bytes.now }
    ensures { IsTextOrFault bytes.now result }
{
    if is_utf8 {
        return Ok(unsafe { str::from_utf8_unchecked(bytes) });
    }
    match str::from_utf8(bytes) {
        Ok(text) => Ok(text),
        Err(_) => Err(CallError::NotUtf8),
    }
}

/// A fault if a search of the text cannot begin at this byte offset.
pub fn check_place(text: &str, position: usize) -> Result<(), CallError>
    ensures { IsPlaceOrFault text.now position result }
{
    if position > text.len() {
        Err(CallError::PastEnd)
    } else if text.is_char_boundary(position) {
        Ok(())
    } else {
        Err(CallError::OffBoundary)
    }
}

/// The start and end of the first match of a search. The counter is raised by the looks of the linear-time matcher.
#[inline(always)]
pub fn find_in(
    alloc: Global,
    regex: &Regex,
    text: &str,
    query: &Query,
    steps: &mut Steps,
    memory: &mut SearchMemory,
) -> Result<Option<(usize, usize)>, CallError>
    ensures answer { IsFoundIn regex.now.meta text.now query.now result }
    ensures looks { CountsLooks regex.now.meta text.now query.now steps.old steps.new }
    ensures starts { IfOk result (λ _. CountsStarts regex.now.meta text.now query.now steps.old steps.new) }
{
    check_place(text, query.position)?;
    let input = RegexInput::new(text)
        .from_pos(query.position)
        .continue_from_previous_match_end(query.continues);
    match regex.find_counted_in(alloc, input, steps, memory)? {
        Some(found) => Ok(Some((found.start(), found.end()))),
        None => Ok(None),
    }
}

/// Writes a row of matches, and returns how many: the first match of a search, and those of searches that begin where the match before
/// them ended, as many as there is room for. An empty match ends a row, and so does a search that has no match or a fault; the row is
/// none, and the fault is answered, only if that is the first search.
pub fn write_row_in(
    alloc: Global,
    regex: &Regex,
    text: &str,
    query: &Query,
    spans: &mut [Span],
    memory: &mut SearchMemory,
) -> Result<usize, CallError>
    ensures { IsRowIn regex.now.meta text.now query.now result spans.old spans.new }
{
    let mut next = *query;
    let mut count = 0;
    'row: while count < spans.len() {
        match find_in(alloc, regex, text, &next, &mut Steps::new(), memory) {
            Ok(Some((start, end))) => {
                spans[count] = Span { start, end };
                count += 1;
                if start >= end {
                    return Ok(count);
                }
                next = query.after(end);
            }
            Ok(None) => return Ok(count),
            Err(fault) => {
                if count == 0 {
                    return Err(fault);
                }
                return Ok(count);
            }
        }
    }
    Ok(count)
}

/// Whether a search has a match.
pub fn is_match_in(
    alloc: Global,
    regex: &Regex,
    text: &str,
    query: &Query,
    memory: &mut SearchMemory,
) -> Result<bool, CallError>
    ensures { IsMatchFlagIn regex.now.meta text.now query.now result }
{
    check_place(text, query.position)?;
    let input = RegexInput::new(text)
        .from_pos(query.position)
        .continue_from_previous_match_end(query.continues);
    Ok(regex.is_match_in(alloc, input, memory)?)
}
