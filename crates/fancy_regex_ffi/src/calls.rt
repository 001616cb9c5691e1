//! What the exported calls do with the contents of a handle.

ghost use Rattle.std.specs.Prelude.{◌≡◌, Some, true, IfOk, IfErr, option_map, chars, string_bytes, IsUtf8};
ghost use Rattle.fancy_regex_meta.specs.Caps.{MetaKeepsCap};
ghost use Rattle.fancy_regex_meta.specs.Refusals.{Accepts};
ghost use Rattle.fancy_regex_ffi_lists.specs.Choices.{chosen};
ghost use Rattle.fancy_regex_ffi.specs.Codes.{fault_status};
ghost use Rattle.fancy_regex_ffi.specs.Ends.{IsAnswer, IsBuildFault, IsBuilt, FindEnds, MatchEnds, CapturesEnd, groups_for, place_or_max, IsGroupName, IsNameOf, IsNameWritten};
ghost use Rattle.fancy_regex_ffi.specs.Rows.{IsRowBy, RowEnds};
ghost use Rattle.fancy_regex_ffi.specs.Searches.{IsFoundBy, IsMatchFlagBy, CountsLooksBy, CountsStartsBy, IsCapturedBy, IsCapturedIn, AreGroupSpans};
ghost use Rattle.fancy_regex_ffi.specs.Texts.{IsFaultWritten, IsTextWritten};
ghost use Rattle.fancy_regex_ffi.specs.declared.contents.Subject.TheVariants as subjects;

use crate::contents::{Contents, Subject};
use crate::fault::CallError;
use crate::kept_memory::KeptMemory;
use crate::query::{Query, check_place, find_in, is_match_in, text_of, write_row_in};
use crate::status::Status;
use fancy_regex::{Captures, Error, Regex, RegexInput, SearchMemory, Steps};
use fancy_regex_ffi_lists::{Options, Span, group_span, write_error, write_front};
use std::alloc::Global;
use std::{fmt, str};

/// Builds a regex, and tells how that ends.
#[tactic(auto, using(crate::proofs::EndLemmas::built_ends, crate::proofs::EndLemmas::refused_ends))]
pub fn built(alloc: Global, pattern: &[u8], options: &Options) -> (Contents, Status)
    ensures { IsBuilt (chosen options.now) pattern.now result.0.subject result.0.fault result.1 }
{
    match build(alloc, pattern, options) {
        Ok(regex) => (Contents::of_regex(alloc, regex), Status::Done),
        Err(fault) => {
            let status = Status::of_fault(&fault);
            (Contents::of_fault(alloc, fault), status)
        }
    }
}

/// Builds a regex.
fn build(alloc: Global, pattern: &[u8], options: &Options) -> Result<Regex, CallError>
    ensures pattern { IfOk result (λ regex. string_bytes regex.meta.pattern ≡ pattern.now) }
    ensures options { IfOk result (λ regex. regex.meta.options ≡ chosen options.now) }
    ensures cap { IfOk result (λ regex. MetaKeepsCap regex.meta) }
    ensures accepted { IfOk result (λ _. Accepts (chosen options.now) pattern.now) }
    ensures refused { IfErr result (IsBuildFault (chosen options.now) pattern.now) }
{
    match str::from_utf8(pattern) {
        Ok(text) => match String::from_str(alloc, text) {
            Ok(text) => Ok(options.builder().build(alloc, text)?),
            Err(_) => Err(CallError::Regex(Error::Memory)),
        },
        Err(_) => Err(CallError::NotUtf8),
    }
}

/// How a search ends, and the span of the first match; a fault is recorded. The counter is raised by the looks of the linear-time
/// matcher.
#[tactic(auto, using(crate::proofs::EndLemmas::ends_of_find))]
pub fn find_span(
    alloc: Global,
    contents: &mut Contents,
    text: &[u8],
    query: &Query,
    steps: &mut Steps,
) -> (Status, Span)
    requires { query.now.is_utf8 ≡ true → IsUtf8 text.now }
    ensures subject { contents.new.subject ≡ contents.old.subject }
    ensures answer { FindEnds contents.old.subject text.now query.now result.0 result.1 contents.old.fault contents.new.fault }
    ensures looks { CountsLooksBy contents.old.subject text.now query.now steps.old steps.new }
    ensures starts { IsAnswer result.0 → CountsStartsBy contents.old.subject text.now query.now steps.old steps.new }
{
    let memory = &mut contents.memory;
    match find(alloc, &contents.subject, text, query, steps, memory) {
        Ok(Some(found)) => (Status::Done, Span::of(Some(found))),
        Ok(None) => (Status::NoMatch, Span::of(None)),
        Err(fault) => (record_fault(contents, fault), Span::of(None)),
    }
}

/// The start and end of the first match.
fn find(
    alloc: Global,
    subject: &Subject,
    text: &[u8],
    query: &Query,
    steps: &mut Steps,
    memory: &mut KeptMemory,
) -> Result<Option<(usize, usize)>, CallError>
    requires { query.now.is_utf8 ≡ true → IsUtf8 text.now }
    ensures answer { IsFoundBy subject.now text.now query.now result }
    ensures looks { CountsLooksBy subject.now text.now query.now steps.old steps.new }
    ensures starts { IfOk result (λ _. CountsStartsBy subject.now text.now query.now steps.old steps.new) }
{
    match subject {
        Subject::Regex(regex) => match text_of(text, query.is_utf8) {
            Ok(text) => find_in(alloc, regex, text, query, steps, &mut memory.memory),
            Err(fault) => Err(fault),
        },
        Subject::Set(_) | Subject::Nothing => Err(CallError::NoRegex),
    }
}

/// Writes a row of matches, as `write_row_in` does; and tells how the first search of it ends, and how many there are. A fault is
/// recorded.
#[tactic(auto, using(crate::proofs::RowLemmas::ends_of_row))]
pub fn write_row(
    alloc: Global,
    contents: &mut Contents,
    text: &[u8],
    query: &Query,
    spans: &mut [Span],
) -> (Status, usize)
    requires { query.now.is_utf8 ≡ true → IsUtf8 text.now }
    ensures subject { contents.new.subject ≡ contents.old.subject }
    ensures answer { RowEnds contents.old.subject text.now query.now result.0 result.1 spans.old spans.new
        contents.old.fault contents.new.fault }
{
    let memory = &mut contents.memory;
    match row(alloc, &contents.subject, text, query, spans, memory) {
        Ok(0) => (Status::NoMatch, 0),
        Ok(count) => (Status::Done, count),
        Err(fault) => (record_fault(contents, fault), 0),
    }
}

/// Writes a row of matches, and returns how many.
fn row(
    alloc: Global,
    subject: &Subject,
    text: &[u8],
    query: &Query,
    spans: &mut [Span],
    memory: &mut KeptMemory,
) -> Result<usize, CallError>
    requires { query.now.is_utf8 ≡ true → IsUtf8 text.now }
    ensures { IsRowBy subject.now text.now query.now result spans.old spans.new }
{
    match subject {
        Subject::Regex(regex) => match text_of(text, query.is_utf8) {
            Ok(text) => write_row_in(alloc, regex, text, query, spans, &mut memory.memory),
            Err(fault) => Err(fault),
        },
        Subject::Set(_) | Subject::Nothing => Err(CallError::NoRegex),
    }
}

/// How a search ends that asks whether there is a match; a fault is recorded.
#[tactic(auto, using(crate::proofs::EndLemmas::ends_of_match))]
pub fn tell_match(alloc: Global, contents: &mut Contents, text: &[u8], query: &Query) -> Status
    requires { query.now.is_utf8 ≡ true → IsUtf8 text.now }
    ensures subject { contents.new.subject ≡ contents.old.subject }
    ensures answer { MatchEnds contents.old.subject text.now query.now result contents.old.fault contents.new.fault }
{
    let memory = &mut contents.memory;
    match is_match(alloc, &contents.subject, text, query, memory) {
        Ok(true) => Status::Done,
        Ok(false) => Status::NoMatch,
        Err(fault) => record_fault(contents, fault),
    }
}

/// Whether there is a match.
fn is_match(
    alloc: Global,
    subject: &Subject,
    text: &[u8],
    query: &Query,
    memory: &mut KeptMemory,
) -> Result<bool, CallError>
    requires { query.now.is_utf8 ≡ true → IsUtf8 text.now }
    ensures { IsMatchFlagBy subject.now text.now query.now result }
{
    match subject {
        Subject::Regex(regex) => match text_of(text, query.is_utf8) {
            Ok(text) => is_match_in(alloc, regex, text, query, &mut memory.memory),
            Err(fault) => Err(fault),
        },
        Subject::Set(_) | Subject::Nothing => Err(CallError::NoRegex),
    }
}

/// Writes the groups of the first match, as many as there is room for, and tells how the search ends; a fault is recorded.
#[tactic(auto, using(crate::proofs::EndLemmas::ends_of_captures))]
pub fn write_captures(
    alloc: Global,
    contents: &mut Contents,
    text: &[u8],
    query: &Query,
    spans: &mut [Span],
) -> Status
    requires { query.now.is_utf8 ≡ true → IsUtf8 text.now }
    ensures subject { contents.new.subject ≡ contents.old.subject }
    ensures answer { CapturesEnd contents.old.subject text.now query.now result spans.old spans.new contents.old.fault contents.new.fault }
{
    let memory = &mut contents.memory;
    match captures(alloc, &contents.subject, text, query, spans, memory) {
        Ok(true) => Status::Done,
        Ok(false) => Status::NoMatch,
        Err(fault) => record_fault(contents, fault),
    }
}

/// Writes the groups of the first match, and tells whether there is one.
fn captures(
    alloc: Global,
    subject: &Subject,
    text: &[u8],
    query: &Query,
    spans: &mut [Span],
    memory: &mut KeptMemory,
) -> Result<bool, CallError>
    requires { query.now.is_utf8 ≡ true → IsUtf8 text.now }
    ensures { IsCapturedBy subject.now text.now query.now result spans.old spans.new }
{
    match subject {
        Subject::Regex(regex) => match text_of(text, query.is_utf8) {
            Ok(text) => captures_in(alloc, regex, text, query, spans, &mut memory.memory),
            Err(fault) => Err(fault),
        },
        Subject::Set(_) | Subject::Nothing => Err(CallError::NoRegex),
    }
}

/// Writes the groups of the first match of a search, and tells whether there is one.
fn captures_in(
    alloc: Global,
    regex: &Regex,
    text: &str,
    query: &Query,
    spans: &mut [Span],
    memory: &mut SearchMemory,
) -> Result<bool, CallError>
    ensures { IsCapturedIn regex.now.meta text.now query.now result spans.old spans.new }
{
    check_place(text, query.position)?;
    let input = RegexInput::new(text)
        .from_pos(query.position)
        .continue_from_previous_match_end(query.continues);
    match regex.captures_in(alloc, input, memory)? {
        Some(found) => {
            write_groups(&found, spans);
            Ok(true)
        }
        None => Ok(false),
    }
}

/// Writes the span of each group that there is room for.
fn write_groups(captures: &Captures<'_, &str>, spans: &mut [Span])
    ensures { AreGroupSpans captures.now.haystack.now captures.now.slots.items spans.new }
{
    for (group, span) in spans.iter_mut().enumerate() {
        *span = group_span(captures, group);
    }
}

/// Records the fault, and tells how the call ends that has it.
pub fn record_fault(contents: &mut Contents, fault: CallError) -> Status
    ensures status { result ≡ fault_status fault }
    ensures fault { contents.new.fault ≡ Some fault }
    ensures subject { contents.new.subject ≡ contents.old.subject }
{
    let status = Status::of_fault(&fault);
    contents.fault = Some(fault);
    status
}

/// The number of groups.
pub fn groups_of(contents: &Contents) -> usize
    ensures { result ≡ groups_for contents.now.subject }
{
    match &contents.subject {
        Subject::Regex(regex) => regex.captures_len(),
        Subject::Set(_) | Subject::Nothing => 0,
    }
}

/// Writes the name of a group, as much as there is room for, and returns how long it is; 0 if it has none.
pub fn write_name(contents: &Contents, group: usize, out: &mut [u8]) -> usize
    ensures { IsNameWritten contents.now.subject group out.old out.new result }
{
    write_front(out, name_of(&contents.subject, group))
}

/// The name of a group in UTF-8; no bytes if it has none.
fn name_of(subject: &Subject, group: usize) -> &[u8]
    ensures { IsNameOf subject.now group result.now }
{
    match subject {
        Subject::Regex(regex) => match group_name(regex, group) {
            Some(name) => name.as_bytes(),
            None => &[],
        },
        Subject::Set(_) | Subject::Nothing => &[],
    }
}

/// The name of a group of a regex; `None` if it has none, or if there is no such group.
fn group_name(regex: &Regex, group: usize) -> Option<&str>
    ensures { IsGroupName (subjects.Regex regex.now) group (option_map (λ name. chars name.now) result) }
{
    let mut names = regex.capture_names();
    let mut number = 0;
    while let Some(name) = names.next() {
        if number == group {
            return name;
        }
        number += 1;
    }
    None
}

/// The byte of the pattern at which the last fault stands; `usize::MAX` if there is none.
pub fn place_of_fault(contents: &Contents) -> usize
    ensures { result ≡ place_or_max contents.now.fault }
{
    match &contents.fault {
        Some(fault) => fault.place().unwrap_or(usize::MAX),
        None => usize::MAX,
    }
}

/// Writes the text of the last fault, as much as there is room for, and returns how long it is; 0 only if there is none.
pub fn write_fault(contents: &Contents, out: &mut [u8]) -> usize
    ensures { IsTextWritten ⟦<Error as fmt::Display>⟧.output contents.now.fault out.old out.new result }
{
    match &contents.fault {
        Some(fault) => write_call_error(fault, out),
        None => 0,
    }
}

/// Writes the text of a fault, as much as there is room for, and returns how long it is.
fn write_call_error(fault: &CallError, out: &mut [u8]) -> usize
    ensures { IsFaultWritten ⟦<Error as fmt::Display>⟧.output fault.now out.old out.new result }
{
    match fault {
        CallError::NoRegex => write_front(out, b"the handle holds no regex"),
        CallError::NoSet => write_front(out, b"the handle holds no set"),
        CallError::WrongEnds => write_front(
            out,
            b"the ends of the patterns fall, or lie past their bytes",
        ),
        CallError::NotUtf8 => write_front(out, b"the text is not UTF-8"),
        CallError::PastEnd => write_front(out, b"the search begins past the end of the text"),
        CallError::OffBoundary => write_front(out, b"the search begins inside a character"),
        CallError::Regex(error) => write_error(error, out),
    }
}
