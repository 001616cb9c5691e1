//! Tests of the analysis on trees that no parser makes, and of the trees that are well-formed. Such a tree is a parsed one that is
//! changed.

use fancy_regex_analysis::{analyze, can_compile_as_anchored, is_well_formed};
use fancy_regex_info::{AnalyzeContext, CompileError};
use fancy_regex_tree::{Assertion, Expr, ExprTree};
use std::alloc::Global;
use std::collections::BTreeSet;

/// A change of a parsed tree.
#[derive(Clone, Copy)]
enum Change {
    /// The summary says that there is no group.
    NoGroup,
    /// The summary says that no group is referred to.
    NoReference,
    /// The summary says that there are calls.
    Calls,
    /// The bounds of the repeat are 3 and 0.
    ReversedBounds,
    /// There is an optional start of the text in place of the pattern.
    OptionalStart,
    /// There is an alternation of no branches in place of the pattern.
    NoBranch,
    /// There is a call of group 3 in place of the pattern.
    CallOfThird,
}

/// What is asked of a tree.
#[derive(Clone, Copy)]
enum Question {
    /// `is_well_formed`.
    IsWellFormed,
    /// `can_compile_as_anchored`.
    IsAnchored,
    /// Whether the analysis refuses a call of group 3, as there is none.
    LacksThird,
}

/// A pattern, what is changed in its tree, a question, and the answer. All trees have no group 3.
struct Asked(&'static str, &'static [Change], Question, bool);

static TREES: [Asked; 12] = [
    // the summary of a well-formed tree agrees with its nodes
    Asked(
        "(a)\\1",
        &[Change::NoGroup, Change::NoReference],
        Question::IsWellFormed,
        false,
    ),
    Asked(
        "(a)\\1",
        &[Change::NoReference],
        Question::IsWellFormed,
        false,
    ),
    Asked("(a)\\1", &[], Question::IsWellFormed, true),
    Asked("(a)\\1", &[Change::Calls], Question::IsWellFormed, false),
    Asked("a", &[], Question::IsWellFormed, true),
    // its repeats have their bounds in order, and its alternations have branches
    Asked(
        "a{3}",
        &[Change::ReversedBounds],
        Question::IsWellFormed,
        false,
    ),
    Asked("a", &[Change::NoBranch], Question::IsWellFormed, false),
    // an anchored pattern begins with the start of the text, and cannot leave it out
    Asked("\\Aa", &[], Question::IsAnchored, true),
    Asked("^a", &[], Question::IsAnchored, true),
    Asked("a", &[], Question::IsAnchored, false),
    Asked("\\A", &[Change::OptionalStart], Question::IsAnchored, false),
    // a call without a target is refused
    Asked("a", &[Change::CallOfThird], Question::LacksThird, true),
];

/// Makes the change.
fn make(alloc: Global, tree: &mut ExprTree, change: Change) {
    match change {
        Change::NoGroup => tree.total_groups = 0,
        Change::NoReference => tree.backrefs = BTreeSet::new(alloc),
        Change::Calls => tree.contains_subroutines = true,
        Change::ReversedBounds => if let Expr::Repeat { lo, hi, .. } = &mut tree.expr {
            *lo = 3;
            *hi = 0;
        },
        Change::OptionalStart => {
            let start = Expr::Assertion(Assertion::StartText);
            if let Ok(child) = Box::new(alloc, start) {
                tree.expr = Expr::Repeat {
                    child,
                    lo: 0,
                    hi: 1,
                    greedy: true,
                };
            }
        }
        Change::NoBranch => tree.expr = Expr::Alt(Vec::new(alloc)),
        Change::CallOfThird => tree.expr = Expr::SubroutineCall(3),
    }
}

/// The answer to the question.
fn answer(alloc: Global, tree: &ExprTree, question: Question) -> bool {
    match question {
        Question::IsWellFormed => is_well_formed(tree),
        Question::IsAnchored => can_compile_as_anchored(&tree.expr),
        Question::LacksThird => match analyze(alloc, tree, AnalyzeContext::default()) {
            Err(CompileError::SubroutineCallTargetNotFound(target)) => target.as_str() == "3",
            _ => false,
        },
    }
}

/// Whether the answer is the wanted one.
fn holds(alloc: Global, row: &Asked) -> bool {
    let Ok(mut tree) = Expr::parse_tree(alloc, row.0) else {
        return false;
    };
    for change in row.1 {
        make(alloc, &mut tree, *change);
    }
    answer(alloc, &tree, row.2) == row.3
}

#[test]
fn trees(rt: HostRuntime) {
    let wrong = TREES.iter().position(|row| !holds(rt.alloc(), row));
    assert_eq!(rt; wrong, None);
}
