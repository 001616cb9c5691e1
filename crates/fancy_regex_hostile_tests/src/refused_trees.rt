//! Memory is refused while a tree is printed, copied, analyzed or compiled by the calls of the inner crates: the tree is as before,
//! and the same call then answers.

use crate::outcome::{Attempt, BEFORE, Ending, Text, appended, ending_of, first_wrong};
use fancy_regex::{Error, Result};
use fancy_regex_analysis::analyze;
use fancy_regex_compiler::compile;
use fancy_regex_info::{AnalyzeContext, CompileError, CompileOptions, Info};
use fancy_regex_tree::{Expr, ExprTree};
use std::alloc::Global;

/// Calls with a tree, and the right answer.
enum TreeCall {
    /// `is_printable`, `try_clone` and `to_str`: what the buffer holds when the tree is printed.
    Print(Text),
    /// `analyze`, and `compile` with this cap on the program: the weight, the least size, and how many instructions the program has;
    /// `None` where it is too long.
    Compile(usize, u64, usize, Option<usize>),
}

/// A pattern, and calls with its tree.
struct Tree(Text, TreeCall);

static PRINTED: [Tree; 3] = [
    Tree("(a|b|ab)*bc", TreeCall::Print("before (a|b|ab)*bc")),
    Tree(
        "(?i)a|[b-d]{2}",
        TreeCall::Print("before (?i:a)|(?i:[b-d]){2}"),
    ),
    Tree("(?<a>x)[^\\d]", TreeCall::Print("before (x)[^\\d]")),
];

#[test]
fn a_refused_print_leaves_the_buffer(rt: HostRuntime) {
    assert_eq!(rt; first_wrong(&rt, &PRINTED), None);
}

static COMPILED: [Tree; 2] = [
    Tree("abc", TreeCall::Compile(5, 3, 3, Some(5))),
    Tree("abc", TreeCall::Compile(3, 3, 3, None)),
];

#[test]
fn a_cap_is_kept_after_want_of_memory(rt: HostRuntime) {
    assert_eq!(rt; first_wrong(&rt, &COMPILED), None);
}

/// Whether a copy of a tree is the same tree.
fn can_be_copied(alloc: Global, expr: &Expr) -> Result<bool> {
    let copy = expr.try_clone(alloc)?;
    Ok(copy == *expr)
}

/// Whether a tree is printable, and is printed as this text, after what the buffer holds at first.
fn is_printed(alloc: Global, expr: &Expr, wanted: &str) -> Result<bool> {
    if !expr.is_printable(alloc)? {
        return Ok(false);
    }
    let mut buffer = String::from_str(alloc, BEFORE)?;
    let outcome = match expr.to_str(&mut buffer, 0) {
        Ok(()) => Ok(()),
        Err(_) => Err(Error::Memory),
    };
    appended(&outcome, buffer.as_bytes(), wanted)
}

/// Whether the program has so many instructions under a cap, or is too long for it.
fn has_length(alloc: Global, info: &Info<'_>, cap: usize, length: Option<usize>) -> Result<bool> {
    let options = CompileOptions {
        max_prog_size: Some(cap),
        ..CompileOptions::default()
    };
    let made = compile(alloc, info, &options);
    match &made {
        Ok(prog) => Ok(length == Some(prog.body().len())),
        Err(CompileError::PatternTooComplex) => Ok(length.is_none()),
        Err(CompileError::Memory) => Err(Error::Memory),
        Err(_) => Ok(false),
    }
}

/// The outcome of compiling an analysis. Where it wants memory, the same call with the same analysis answers then.
fn compiles(alloc: Global, info: &Info<'_>, cap: usize, length: Option<usize>) -> Result<bool> {
    match ending_of(&has_length(alloc, info, cap, length)) {
        Ending::Right => Ok(true),
        Ending::Wrong => Ok(false),
        Ending::WantedMemory => match ending_of(&has_length(alloc, info, cap, length)) {
            Ending::Right => Err(Error::Memory),
            _ => Ok(false),
        },
    }
}

/// The outcome of analyzing and compiling a tree: whether it has this weight and least size, and its program this length.
fn is_analyzed(
    alloc: Global,
    tree: &ExprTree,
    cap: usize,
    sizes: (u64, usize),
    length: Option<usize>,
) -> Result<bool> {
    let info = analyze(alloc, tree, AnalyzeContext::default())?;
    if (info.weight, info.min_size) != sizes {
        return Ok(false);
    }
    compiles(alloc, &info, cap, length)
}

impl Attempt for Tree {
    type Made = ExprTree;

    fn make(&self, alloc: Global) -> Result<ExprTree> {
        Ok(Expr::parse_tree(alloc, self.0)?)
    }

    fn is_right(&self, alloc: Global, tree: &ExprTree) -> Result<bool> {
        match &self.1 {
            TreeCall::Print(wanted) => {
                Ok(can_be_copied(alloc, &tree.expr)? && is_printed(alloc, &tree.expr, wanted)?)
            }
            TreeCall::Compile(cap, weight, least, length) => {
                is_analyzed(alloc, tree, *cap, (*weight, *least), *length)
            }
        }
    }
}
