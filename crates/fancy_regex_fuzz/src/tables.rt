//! The check of the table of the linear engine: searches that go through the text by it find what searches without it find.

use crate::case::Case;
use crate::searches::Place;
use fancy_regex::{Expr, Result, Steps};
use fancy_regex_analysis::analyze;
use fancy_regex_class::{RunInput, Span};
use fancy_regex_info::AnalyzeContext;
use fancy_regex_linear::{Easy, SearchMemory};
use std::alloc::Global;

/// A compiled pattern, and the memory that its searches share.
#[derive(Drop)]
struct Searcher {
    easy: Easy,
    memory: SearchMemory,
}

impl Searcher {
    fn new(alloc: Global, easy: Easy) -> Searcher {
        Searcher {
            easy,
            memory: SearchMemory::new(alloc),
        }
    }
}

/// What a search finds: the byte offsets of the groups, and the span where it alone is wanted.
#[derive(Drop, PartialEq, Eq)]
struct Found {
    groups: Option<Vec<usize>>,
    span: Option<Place>,
}

/// Whether an easy pattern finds the same with a table as without: all matches in turn, from the beginning of a text on and from two
/// places inside it.
pub fn tables_alike(alloc: Global, case: Case<'_>) -> Result<bool> {
    let text = longer_text(alloc, case)?;
    match searchers(alloc, case)? {
        Some((by_table, plainly)) => alike_from_places(alloc, by_table, plainly, case, &text),
        None => Ok(true),
    }
}

/// The text of a case, its template and its text again.
fn longer_text(alloc: Global, case: Case<'_>) -> Result<String> {
    let mut text = String::from_str(alloc, case.text)?;
    text.push_str(case.template)?;
    text.push_str(case.text)?;
    Ok(text)
}

/// Whether both find the same in the longer text of a case from its beginning on, and from where the template and the second text begin.
fn alike_from_places(
    alloc: Global,
    mut by_table: Searcher,
    mut plainly: Searcher,
    case: Case<'_>,
    text: &str,
) -> Result<bool> {
    let inside = case.text.len();
    for first in [0, inside, inside.saturating_add(case.template.len())] {
        if !all_alike(alloc, &mut by_table, &mut plainly, text, first)? {
            return Ok(false);
        }
    }
    Ok(true)
}

/// The pattern of the case with a table and without; `None` if it is not easy.
fn searchers(alloc: Global, case: Case<'_>) -> Result<Option<(Searcher, Searcher)>> {
    let tree = Expr::parse_tree_with_flags(alloc, case.pattern, case.setting.flags())?;
    let context = AnalyzeContext {
        explicit_capture_group_0: false,
        find_not_empty: false,
    };
    let info = analyze(alloc, &tree, context)?;
    if info.hard {
        return Ok(None);
    }
    let options = case.setting.compile_options();
    let by_table = Easy::new(alloc, &info, &options)?;
    let plainly = Easy::without_table(alloc, &info, &options)?;
    Ok(Some((
        Searcher::new(alloc, by_table),
        Searcher::new(alloc, plainly),
    )))
}

/// Whether both find the same matches in turn, from this byte offset on, and the same from each of these places where the match may start
/// there alone.
fn all_alike(
    alloc: Global,
    by_table: &mut Searcher,
    plainly: &mut Searcher,
    text: &str,
    first: usize,
) -> Result<bool> {
    let mut from = Some(first);
    for _ in 0..=text.len() {
        let Some(place) = from else {
            return Ok(true);
        };
        let anchored = found_from(alloc, by_table, text, place, true)?;
        if anchored != found_from(alloc, plainly, text, place, true)? {
            return Ok(false);
        }
        let found = found_from(alloc, by_table, text, place, false)?;
        if found != found_from(alloc, plainly, text, place, false)? {
            return Ok(false);
        }
        from = next_place(text, found.span);
    }
    Ok(true)
}

/// What the search from a byte offset on finds; nothing if that is no character boundary.
fn found_from(
    alloc: Global,
    searcher: &mut Searcher,
    text: &str,
    first: usize,
    anchored: bool,
) -> Result<Found> {
    let input = whole_input(text, first, anchored);
    if input.range.end > text.len() || !text.is_char_boundary(input.first) {
        return Ok(Found {
            groups: None,
            span: None,
        });
    }
    let mut steps = Steps::new();
    let memory = &mut searcher.memory;
    Ok(Found {
        groups: searcher
            .easy
            .search_in(alloc, text, &input, &mut steps, memory)?,
        span: searcher
            .easy
            .find_span_in(text, &input, &mut steps, memory)?,
    })
}

/// The input of a search from a byte offset to the end of the text.
fn whole_input(text: &str, first: usize, anchored: bool) -> RunInput {
    RunInput {
        first,
        continue_at: None,
        range: Span {
            start: 0,
            end: text.len(),
        },
        anchored,
        no_start_text: false,
        no_end_text: false,
    }
}

/// Where the search after this match begins: at its end, or after the next character where it is empty.
fn next_place(text: &str, found: Option<Place>) -> Option<usize> {
    let (start, end) = found?;
    if start < end {
        return Some(end);
    }
    let (_, rest) = text.split_at_checked(end)?;
    let next = rest.chars().next()?;
    Some(end.saturating_add(next.len_utf8()))
}
