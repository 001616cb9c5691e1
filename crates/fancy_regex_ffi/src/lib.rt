//! `fancy_regex` for C and for whoever calls as C does. A handle holds a regex or a set, and each call on it takes it alone: no two
//! calls on one handle overlap, and handles share nothing. A call that can fail ends with a number that says how, and none panics.
#![tactic(auto)]

ghost use Rattle.std.specs.Prelude.{◌≡◌, true, None, IsUtf8, length};
ghost use Rattle.fancy_regex_ffi_lists.specs.Choices.{chosen};
ghost use Rattle.fancy_regex_ffi.specs.Ends.{BuildEnds, FindReports, MatchReports, CapturesReport, LooksCounted, NameReports, groups_in, place_in};
ghost use Rattle.fancy_regex_ffi.specs.Lists.{ListReports, OfRegex, AreMatchSpans, ArePieceSpans, IsReplacedText, AreMembers, AreMemberGroups};
ghost use Rattle.fancy_regex_ffi.specs.Rows.{RowReports};
ghost use Rattle.fancy_regex_ffi.specs.Sets.{SetBuildEnds, MixedBuildEnds};
ghost use Rattle.fancy_regex_ffi.specs.Templates.{CheckReports, EscapeEnds, NamesReport};
ghost use Rattle.fancy_regex_ffi.specs.Texts.{TextReports};
ghost use Rattle.fancy_regex_ffi.specs.Bytes.{StartBytesEnd, RequiredBytesEnd};

mod answers;
mod box_parts;
mod bytes;
mod calls;
mod contents;
mod fault;
mod handle;
mod items;
mod kept_memory;
mod query;
mod sets;
mod status;
mod templates;

use answers::{answer_done, answer_items, answer_text, end_text, store};
use bytes::{end_asked, required_of, starts_of};
use calls::{
    built, find_span, groups_of, place_of_fault, tell_match, write_captures, write_fault,
    write_name, write_row,
};
use fancy_regex::{Error, Steps};
use fancy_regex_ffi_lists::{Member, Options, Span};
use handle::Handle;
use items::{pieces_of, replaced_of, spans_of};
use query::Query;
use sets::{build_mixed, build_set, member_groups_of, members_of, stored_set};
use status::Status;
use std::alloc::Global;
use std::fmt;
use templates::{checked, escaped, names_of};

/// Builds a regex into the handle, which is emptied first.
#[tactic(auto, using(crate::proofs::EndLemmas::build_reports))]
#[unsafe(no_mangle)]
pub extern "C" fn fancy_regex_raw_build(
    alloc: Global,
    handle: &mut Handle,
    pattern: &[u8],
    options: &Options,
) -> i32
    ensures { BuildEnds (chosen options.now) pattern.now handle.new.contents result }
{
    fancy_regex_raw_free(alloc, handle);
    let (contents, status) = built(alloc, pattern, options);
    store(alloc, handle, contents, status)
}

/// Empties the handle.
#[unsafe(no_mangle)]
pub extern "C" fn fancy_regex_raw_free(alloc: Global, handle: &mut Handle)
    ensures { handle.new.contents ≡ None }
{
    drop(handle.take(alloc));
}

/// The first match of a search.
#[unsafe(no_mangle)]
pub extern "C" fn fancy_regex_raw_find(
    alloc: Global,
    handle: &mut Handle,
    text: &[u8],
    query: &Query,
    span: &mut Span,
) -> i32
    requires { query.now.is_utf8 ≡ true → IsUtf8 text.now }
    ensures { FindReports handle.old.contents handle.new.contents text.now query.now result span.new }
{
    find_counted(alloc, handle, text, query, span, &mut Steps::new())
}

/// The first match of a search, and how many looks at the text are counted: none where the handle holds no regex, or that of a pattern
/// that is not plain, and else at most as many as the linear-time matcher may make; where the search answers, at least one for each start
/// that it tries.
#[unsafe(no_mangle)]
pub extern "C" fn fancy_regex_raw_find_counted(
    alloc: Global,
    handle: &mut Handle,
    text: &[u8],
    query: &Query,
    span: &mut Span,
    looks: &mut u64,
) -> i32
    requires { query.now.is_utf8 ≡ true → IsUtf8 text.now }
    ensures answer { FindReports handle.old.contents handle.new.contents text.now query.now result span.new }
    ensures looks { LooksCounted handle.old.contents text.now query.now result looks.new }
{
    let mut steps = Steps::new();
    let code = find_counted(alloc, handle, text, query, span, &mut steps);
    *looks = steps.count();
    code
}

/// The first match of a search, with a counter.
#[inline(always)]
#[tactic(auto, using(crate::proofs::EndLemmas::find_reports, crate::proofs::EndLemmas::looks_reported))]
fn find_counted(
    alloc: Global,
    handle: &mut Handle,
    text: &[u8],
    query: &Query,
    span: &mut Span,
    steps: &mut Steps,
) -> i32
    requires utf8 { query.now.is_utf8 ≡ true → IsUtf8 text.now }
    requires fresh { steps.old ≡ 0 }
    ensures answer { FindReports handle.old.contents handle.new.contents text.now query.now result span.new }
    ensures looks { LooksCounted handle.old.contents text.now query.now result steps.new }
{
    let Some(mut contents) = handle.take(alloc) else {
        *span = Span::of(None);
        return Status::EmptyHandle.code();
    };
    let (status, found) = find_span(alloc, &mut contents, text, query, steps);
    contents.bound_memory(alloc, text, query.position, found.end);
    *span = found;
    handle.put(alloc, contents);
    status.code()
}

/// A row of matches, as many as there is room for, and how many there are: the first match of a search, and those of searches that begin
/// where the match before them ended. An empty match is the last of its row, and a row may end before the matches do: the number tells of
/// the first search alone, and 0 says that it has no match if there is room for one.
#[tactic(auto, using(crate::proofs::RowLemmas::row_reports))]
#[unsafe(no_mangle)]
pub extern "C" fn fancy_regex_raw_find_row(
    alloc: Global,
    handle: &mut Handle,
    text: &[u8],
    query: &Query,
    spans: &mut [Span],
    count: &mut usize,
) -> i32
    requires { query.now.is_utf8 ≡ true → IsUtf8 text.now }
    ensures { RowReports handle.old.contents handle.new.contents text.now query.now result spans.old spans.new count.new }
{
    let Some(mut contents) = handle.take(alloc) else {
        *count = 0;
        return Status::EmptyHandle.code();
    };
    let (status, written) = write_row(alloc, &mut contents, text, query, spans);
    let end = end_of_row(spans, written);
    contents.bound_memory(alloc, text, query.position, end);
    *count = written;
    handle.put(alloc, contents);
    status.code()
}

/// Where the last search of a row ends: where its match does; the largest number if it has none.
fn end_of_row(spans: &[Span], count: usize) -> usize {
    match spans.get(count.wrapping_sub(1)) {
        Some(span) if count == spans.len() || span.start >= span.end => span.end,
        _ => usize::MAX,
    }
}

/// Whether a search has a match: 1 if it has one, and 0 if not.
#[tactic(auto, using(crate::proofs::EndLemmas::match_reports))]
#[unsafe(no_mangle)]
pub extern "C" fn fancy_regex_raw_is_match(
    alloc: Global,
    handle: &mut Handle,
    text: &[u8],
    query: &Query,
) -> i32
    requires { query.now.is_utf8 ≡ true → IsUtf8 text.now }
    ensures { MatchReports handle.old.contents handle.new.contents text.now query.now result }
{
    let Some(mut contents) = handle.take(alloc) else {
        return Status::EmptyHandle.code();
    };
    let status = tell_match(alloc, &mut contents, text, query);
    contents.bound_memory(alloc, text, query.position, text.len());
    handle.put(alloc, contents);
    status.code()
}

/// The groups of the first match of a search, as many as there is room for. Without a match the spans stay as they were.
#[tactic(auto, using(crate::proofs::EndLemmas::captures_report))]
#[unsafe(no_mangle)]
pub extern "C" fn fancy_regex_raw_captures(
    alloc: Global,
    handle: &mut Handle,
    text: &[u8],
    query: &Query,
    spans: &mut [Span],
) -> i32
    requires { query.now.is_utf8 ≡ true → IsUtf8 text.now }
    ensures { CapturesReport handle.old.contents handle.new.contents text.now query.now result spans.old spans.new }
{
    let Some(mut contents) = handle.take(alloc) else {
        return Status::EmptyHandle.code();
    };
    let status = write_captures(alloc, &mut contents, text, query, spans);
    let end = end_of_match(status, spans);
    contents.bound_memory(alloc, text, query.position, end);
    handle.put(alloc, contents);
    status.code()
}

/// Where the first of the spans ends that a search for groups has written; without a match, or without room, the largest number.
fn end_of_match(status: Status, spans: &[Span]) -> usize {
    match (status, spans.first()) {
        (Status::Done, Some(span)) => span.end,
        _ => usize::MAX,
    }
}

/// The number of groups, the whole match included; 0 where the handle holds no regex.
#[unsafe(no_mangle)]
pub extern "C" fn fancy_regex_raw_groups(alloc: Global, handle: &mut Handle) -> usize
    ensures groups { result ≡ groups_in handle.old.contents }
    ensures same { handle.new.contents ≡ handle.old.contents }
{
    let Some(contents) = handle.take(alloc) else {
        return 0;
    };
    let groups = groups_of(&contents);
    handle.put(alloc, contents);
    groups
}

/// Writes the name of a group in UTF-8, as much as there is room for, and returns how long it is; 0 if it has none.
#[tactic(auto, using(crate::proofs::EndLemmas::name_reported))]
#[unsafe(no_mangle)]
pub extern "C" fn fancy_regex_raw_group_name(
    alloc: Global,
    handle: &mut Handle,
    group: usize,
    out: &mut [u8],
) -> usize
    ensures name { NameReports handle.old.contents group out.old out.new result }
    ensures same { handle.new.contents ≡ handle.old.contents }
{
    let Some(contents) = handle.take(alloc) else {
        return 0;
    };
    let length = write_name(&contents, group, out);
    handle.put(alloc, contents);
    length
}

/// The byte of the pattern at which the last fault stands; `usize::MAX` if it has no place.
#[unsafe(no_mangle)]
pub extern "C" fn fancy_regex_raw_fault_place(alloc: Global, handle: &mut Handle) -> usize
    ensures place { result ≡ place_in handle.old.contents }
    ensures same { handle.new.contents ≡ handle.old.contents }
{
    let Some(contents) = handle.take(alloc) else {
        return usize::MAX;
    };
    let place = place_of_fault(&contents);
    handle.put(alloc, contents);
    place
}

/// Writes the text of the last fault, as much as there is room for, and returns how long it is; 0 only if there is none. It takes no
/// memory.
#[unsafe(no_mangle)]
pub extern "C" fn fancy_regex_raw_fault_text(
    alloc: Global,
    handle: &mut Handle,
    out: &mut [u8],
) -> usize
    ensures text { TextReports ⟦<Error as fmt::Display>⟧.output handle.old.contents out.old out.new result }
    ensures same { handle.new.contents ≡ handle.old.contents }
{
    let Some(contents) = handle.take(alloc) else {
        return 0;
    };
    let length = write_fault(&contents, out);
    handle.put(alloc, contents);
    length
}

/// The spans of all matches of a text, from left to right, as many as there is room for; and how many there are.
#[tactic(auto, using(crate::proofs::ListLemmas::spans_report))]
#[unsafe(no_mangle)]
pub extern "C" fn fancy_regex_raw_find_all(
    alloc: Global,
    handle: &mut Handle,
    text: &[u8],
    is_utf8: bool,
    spans: &mut [Span],
    count: &mut usize,
) -> i32
    requires { is_utf8 ≡ true → IsUtf8 text.now }
    ensures { ListReports (OfRegex (AreMatchSpans text.now)) handle.old.contents handle.new.contents result spans.old spans.new count.new }
{
    let Some(mut contents) = handle.take(alloc) else {
        *count = 0;
        return Status::EmptyHandle.code();
    };
    let answer = spans_of(alloc, &contents.subject, text, is_utf8);
    let status = answer_items(&mut contents, answer, spans, count);
    handle.put(alloc, contents);
    status.code()
}

/// The spans of the pieces of a text between its matches, and of the rest after the last one, as many as there is room for; and how
/// many there are.
#[tactic(auto, using(crate::proofs::ListLemmas::pieces_report))]
#[unsafe(no_mangle)]
pub extern "C" fn fancy_regex_raw_split(
    alloc: Global,
    handle: &mut Handle,
    text: &[u8],
    is_utf8: bool,
    spans: &mut [Span],
    count: &mut usize,
) -> i32
    requires { is_utf8 ≡ true → IsUtf8 text.now }
    ensures { ListReports (OfRegex (ArePieceSpans text.now)) handle.old.contents handle.new.contents result spans.old spans.new count.new }
{
    let Some(mut contents) = handle.take(alloc) else {
        *count = 0;
        return Status::EmptyHandle.code();
    };
    let answer = pieces_of(alloc, &contents.subject, text, is_utf8);
    let status = answer_items(&mut contents, answer, spans, count);
    handle.put(alloc, contents);
    status.code()
}

/// The text with each match replaced by what the template stands for there, as much of it as there is room for; and its length.
#[tactic(auto, using(crate::proofs::ListLemmas::replaced_report))]
#[unsafe(no_mangle)]
pub extern "C" fn fancy_regex_raw_replace_all(
    alloc: Global,
    handle: &mut Handle,
    text: &[u8],
    is_utf8: bool,
    template: &[u8],
    out: &mut [u8],
    length: &mut usize,
) -> i32
    requires { is_utf8 ≡ true → IsUtf8 text.now }
    ensures { ListReports (OfRegex (IsReplacedText text.now template.now)) handle.old.contents handle.new.contents result
        out.old out.new length.new }
{
    let Some(mut contents) = handle.take(alloc) else {
        *length = 0;
        return Status::EmptyHandle.code();
    };
    let answer = replaced_of(alloc, &contents.subject, text, is_utf8, template);
    let status = answer_text(&mut contents, answer, out, length);
    handle.put(alloc, contents);
    status.code()
}

/// Builds a set of patterns into the handle, which is emptied first. The patterns stand one after another; `ends` are the offsets at
/// which each of them ends.
#[tactic(auto, using(crate::proofs::SetLemmas::set_build_reports))]
#[unsafe(no_mangle)]
pub extern "C" fn fancy_regex_raw_set_build(
    alloc: Global,
    handle: &mut Handle,
    patterns: &[u8],
    ends: &[usize],
    options: &Options,
) -> i32
    ensures { SetBuildEnds (chosen options.now) patterns.now ends.now handle.new.contents result }
{
    fancy_regex_raw_free(alloc, handle);
    let (contents, status) = stored_set(alloc, build_set(alloc, patterns, ends, options));
    store(alloc, handle, contents, status)
}

/// The members of a set that match at the earliest place at which one of them does, in order of their numbers, as many as there is
/// room for; and how many there are.
#[tactic(auto, using(crate::proofs::ListLemmas::members_report))]
#[unsafe(no_mangle)]
pub extern "C" fn fancy_regex_raw_set_find(
    alloc: Global,
    handle: &mut Handle,
    text: &[u8],
    query: &Query,
    members: &mut [Member],
    count: &mut usize,
) -> i32
    requires { query.now.is_utf8 ≡ true → IsUtf8 text.now }
    ensures { ListReports (AreMembers text.now query.now) handle.old.contents handle.new.contents result members.old members.new count.new }
{
    let Some(mut contents) = handle.take(alloc) else {
        *count = 0;
        return Status::EmptyHandle.code();
    };
    let answer = members_of(alloc, &contents.subject, text, query);
    let status = answer_items(&mut contents, answer, members, count);
    handle.put(alloc, contents);
    status.code()
}

/// The groups of those members: the members in order of their numbers, and of each all its groups in order of theirs, from group 0, the
/// whole match, on, as many as there is room for; and how many there are.
#[tactic(auto, using(crate::proofs::ListLemmas::member_groups_report))]
#[unsafe(no_mangle)]
pub extern "C" fn fancy_regex_raw_set_captures(
    alloc: Global,
    handle: &mut Handle,
    text: &[u8],
    query: &Query,
    groups: &mut [Member],
    count: &mut usize,
) -> i32
    requires { query.now.is_utf8 ≡ true → IsUtf8 text.now }
    ensures { ListReports (AreMemberGroups text.now query.now) handle.old.contents handle.new.contents result
        groups.old groups.new count.new }
{
    let Some(mut contents) = handle.take(alloc) else {
        *count = 0;
        return Status::EmptyHandle.code();
    };
    let answer = member_groups_of(alloc, &contents.subject, text, query);
    let status = answer_items(&mut contents, answer, groups, count);
    handle.put(alloc, contents);
    status.code()
}

/// Builds a set of patterns, each with its own options, into the handle, which is emptied first. The patterns stand one after another;
/// `ends` are the offsets at which each of them ends.
#[tactic(auto, using(crate::proofs::SetLemmas::mixed_build_reports))]
#[unsafe(no_mangle)]
pub extern "C" fn fancy_regex_raw_set_build_mixed(
    alloc: Global,
    handle: &mut Handle,
    patterns: &[u8],
    ends: &[usize],
    options: &[Options],
) -> i32
    requires { length options.now ≡ length ends.now }
    ensures { MixedBuildEnds options.now patterns.now ends.now handle.new.contents result }
{
    fancy_regex_raw_free(alloc, handle);
    let (contents, status) = stored_set(alloc, build_mixed(alloc, patterns, ends, options));
    store(alloc, handle, contents, status)
}

/// The names of the groups in UTF-8, a line for each group in order of their numbers, as much as there is room for; and the length of
/// all lines. The line of a group without a name is empty.
#[tactic(auto, using(crate::proofs::ListLemmas::names_report))]
#[unsafe(no_mangle)]
pub extern "C" fn fancy_regex_raw_group_names(
    alloc: Global,
    handle: &mut Handle,
    out: &mut [u8],
    length: &mut usize,
) -> i32
    ensures { NamesReport handle.old.contents handle.new.contents result out.old out.new length.new }
{
    let Some(mut contents) = handle.take(alloc) else {
        *length = 0;
        return Status::EmptyHandle.code();
    };
    let answer = names_of(alloc, &contents.subject);
    let status = answer_text(&mut contents, answer, out, length);
    handle.put(alloc, contents);
    status.code()
}

/// Whether each reference of a template is to a group of the regex, and each sign begins something; else the first fault from the left.
#[tactic(auto, using(crate::proofs::ListLemmas::check_reports))]
#[unsafe(no_mangle)]
pub extern "C" fn fancy_regex_raw_template_check(
    alloc: Global,
    handle: &mut Handle,
    template: &[u8],
    is_python: bool,
) -> i32
    ensures { CheckReports handle.old.contents handle.new.contents template.now is_python result }
{
    let Some(mut contents) = handle.take(alloc) else {
        return Status::EmptyHandle.code();
    };
    let answer = checked(alloc, &contents.subject, template, is_python);
    let status = answer_done(&mut contents, answer);
    handle.put(alloc, contents);
    status.code()
}

/// The text as a pattern that matches exactly it, as much as there is room for; and the length of the pattern.
#[unsafe(no_mangle)]
pub extern "C" fn fancy_regex_raw_escape(
    alloc: Global,
    text: &[u8],
    out: &mut [u8],
    length: &mut usize,
) -> i32
    ensures { EscapeEnds text.now result out.old out.new length.new }
{
    end_text(escaped(alloc, text), out, length).code()
}

/// Marks the bytes that the matches of a pattern start with: 1 if they are known, and 0 if not. The pattern is not built. The handle is
/// emptied first, and holds the fault, if there is one.
#[tactic(auto, using(crate::proofs::EndLemmas::start_bytes_end))]
#[unsafe(no_mangle)]
pub extern "C" fn fancy_regex_raw_start_bytes(
    alloc: Global,
    handle: &mut Handle,
    pattern: &[u8],
    options: &Options,
    table: &mut [bool],
) -> i32
    ensures { StartBytesEnd (chosen options.now) pattern.now handle.new.contents result table.old table.new }
{
    fancy_regex_raw_free(alloc, handle);
    let answer = starts_of(alloc, pattern, options, table);
    end_asked(alloc, handle, answer)
}

/// Marks bytes that each text has in which the pattern matches; the handle is as after `fancy_regex_raw_start_bytes`.
#[tactic(auto, using(crate::proofs::EndLemmas::required_bytes_end))]
#[unsafe(no_mangle)]
pub extern "C" fn fancy_regex_raw_required_bytes(
    alloc: Global,
    handle: &mut Handle,
    pattern: &[u8],
    options: &Options,
    table: &mut [bool],
) -> i32
    ensures { RequiredBytesEnd (chosen options.now) pattern.now handle.new.contents result table.old table.new }
{
    fancy_regex_raw_free(alloc, handle);
    let answer = required_of(alloc, pattern, options, table);
    end_asked(alloc, handle, answer)
}
