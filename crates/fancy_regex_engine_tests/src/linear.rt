//! Searches of the linear engine in one memory, in turn, and the modes that it refuses.

use crate::compiled::Text;
use fancy_regex_analysis::analyze;
use fancy_regex_class::{RunInput, Span, Steps};
use fancy_regex_info::{AnalyzeContext, BytesMode, CompileError, CompileOptions};
use fancy_regex_linear::{Easy, SearchMemory};
use fancy_regex_tree::Expr;
use std::alloc::Global;

/// A pattern, how bytes are read, a text, and the byte offsets of the groups, none where nothing is to be found. `None` where the
/// linear engine refuses the mode, as a feature that is not supported.
struct Search(Text, BytesMode, Text, Option<&'static [usize]>);

static SEARCHES: [Search; 6] = [
    Search(
        "(a|ab)(bc)?b",
        BytesMode::Unicode,
        "xaabcb",
        Some(&[2, 6, 2, 3, 3, 5]),
    ),
    Search(
        "(?:(a)|(b)|ab)*c",
        BytesMode::Unicode,
        "ababababab",
        Some(&[]),
    ),
    Search(
        "(x)|(y)",
        BytesMode::Unicode,
        "ax",
        Some(&[1, 2, 1, 2, usize::MAX, usize::MAX]),
    ),
    Search(
        "(\\w+?)(\\d+)",
        BytesMode::Unicode,
        "ab12",
        Some(&[0, 4, 0, 2, 2, 4]),
    ),
    Search("a", BytesMode::Ascii, "a", None),
    Search("a", BytesMode::Unicode, "a", Some(&[0, 1])),
];

/// Compiles a pattern for the linear engine. `None` for a pattern that is not easy.
fn compiled_easy(
    alloc: Global,
    pattern: &str,
    bytes_mode: BytesMode,
) -> Option<Result<Easy, CompileError>> {
    let options = CompileOptions {
        bytes_mode,
        ..CompileOptions::default()
    };
    let tree = Expr::parse_tree(alloc, pattern).ok()?;
    let info = analyze(alloc, &tree, AnalyzeContext::default()).ok()?;
    if info.hard {
        return None;
    }
    Some(Easy::new(alloc, &info, &options))
}

/// Whether a search in memory that other searches used has this answer.
fn answers(
    alloc: Global,
    easy: &Easy,
    text: &str,
    memory: &mut SearchMemory,
    wanted: &[usize],
) -> bool {
    let input = RunInput {
        first: 0,
        continue_at: None,
        range: Span {
            start: 0,
            end: text.len(),
        },
        anchored: false,
        no_start_text: false,
        no_end_text: false,
    };
    match easy.search_in(alloc, text, &input, &mut Steps::new(), memory) {
        Ok(Some(places)) => places.as_slice() == wanted,
        Ok(None) => wanted.is_empty(),
        Err(_) => false,
    }
}

/// Whether the linear engine answers or refuses as wanted.
fn holds(alloc: Global, row: &Search, memory: &mut SearchMemory) -> bool {
    match (compiled_easy(alloc, row.0, row.1), row.3) {
        (Some(Ok(easy)), Some(wanted)) => answers(alloc, &easy, row.2, memory, wanted),
        (Some(Err(CompileError::FeatureNotYetSupported(_))), None) => true,
        _ => false,
    }
}

#[test]
fn one_memory_serves_many_searches(rt: HostRuntime) {
    let mut memory = SearchMemory::new(rt.alloc());
    for (number, row) in SEARCHES.iter().enumerate() {
        assert!(rt; holds(rt.alloc(), row, &mut memory), "row {number}");
    }
}
