//! Tests of the texts of errors, of options, and of the functions that visit, change and copy trees.

use crate::debug_text::debug_text;
use fancy_regex_tree::{
    AstNode, Error, Expr, FLAG_CASEI, FLAG_IGNORE_NUMBERED_GROUPS_WHEN_NAMED_GROUPS_EXIST,
    FLAG_UNICODE, Flags, ParseOptions,
};
use std::alloc::{AllocError, Global};
use std::test::Fail;

/// A pattern, and the text of its error.
static FAULTS: [(&str, &str); 3] = [
    (
        "(?<a>x)\\k<a>(?<a>y)",
        "Parsing error at position 7: Invalid group name in back reference: a",
    ),
    ("\\q", "Parsing error at position 0: Invalid escape: \\q"),
    (
        "\\k<n>)",
        "Parsing error at position 5: General parsing error: end of string not reached",
    ),
];

/// The text of the error of the pattern; empty if it has none.
fn fault_text(alloc: Global, pattern: &str) -> Result<String, AllocError> {
    match Expr::parse_tree(alloc, pattern) {
        Ok(_) => Ok(String::new(alloc)),
        Err(error) => format!(in alloc; "{error}"),
    }
}

#[test]
fn writes_errors(rt: HostRuntime) -> Result<(), Fail> {
    for (pattern, wanted) in FAULTS.iter() {
        let found = fault_text(rt.alloc(), pattern)?;
        assert_eq!(rt; found.as_str(), *wanted);
    }
    Ok(())
}

/// Case-insensitive, in Unicode mode, with named groups alone numbered.
const NAMED_GROUPS_ALONE: ParseOptions = ParseOptions {
    flags: Flags {
        casei: true,
        multi: false,
        dot_newline: false,
        verbose: false,
        swap_greed: false,
        crlf: false,
    },
    unicode: true,
    oniguruma: false,
    ignore_numbered: true,
};

/// Whether the options give one group, and the flags the same tree.
fn is_parsed_alike(alloc: Global, flags: u32) -> bool {
    let found = Expr::parse_tree_with_options(alloc, "(a)(?<n>b)", NAMED_GROUPS_ALONE);
    let groups = match &found {
        Ok(tree) => tree.total_groups,
        Err(_) => 0,
    };
    groups == 1 && found == Expr::parse_tree_with_flags(alloc, "(a)(?<n>b)", flags)
}

#[test]
fn parses_with_options(rt: HostRuntime) {
    let flags = FLAG_UNICODE | FLAG_CASEI | FLAG_IGNORE_NUMBERED_GROUPS_WHEN_NAMED_GROUPS_EXIST;
    let same_options = ParseOptions::from_flags(flags) == NAMED_GROUPS_ALONE;
    assert!(rt; same_options && is_parsed_alike(rt.alloc(), flags));
}

/// The tree of the pattern; without one a group that is not resolved, around what keeps the start of the match.
fn tree_of(alloc: Global, pattern: Option<&str>) -> Result<Expr, Error> {
    match pattern {
        Some(pattern) => Ok(Expr::parse_tree(alloc, pattern)?.expr),
        None => {
            let inner = Box::new(alloc, Expr::KeepOut)?;
            Ok(Expr::AstNode(AstNode::AstGroup { name: None, inner }, 0))
        }
    }
}

/// Whether it is a leaf; the numbers of its children and of its nodes; whether a repeat, an alternation and `KeepOut` are below
/// it; and whether `KeepOut` is in it.
type Walk = (bool, usize, usize, bool, bool, bool, bool);

/// What a walk over the tree tells.
fn walk(alloc: Global, pattern: Option<&str>) -> Result<Walk, Error> {
    let expr = tree_of(alloc, pattern)?;
    let nodes = expr.preorder(alloc)?.len();
    Ok((
        expr.is_leaf_node(),
        expr.children_iter().count(),
        nodes,
        expr.has_descendant(|node| matches!(node, Expr::Repeat { .. })),
        expr.has_descendant(|node| matches!(node, Expr::Alt(_))),
        expr.has_descendant(|node| matches!(node, Expr::KeepOut)),
        expr.any_node(|node| matches!(node, Expr::KeepOut)),
    ))
}

/// A pattern, and the walk over its tree.
static WALKS: [(Option<&str>, Walk); 2] = [
    (
        Some("(?(a)(?<n>b)|c*)"),
        (false, 3, 6, true, false, false, false),
    ),
    (None, (true, 0, 2, false, false, false, true)),
];

#[test]
fn walks(rt: HostRuntime) -> Result<(), Fail> {
    for (pattern, wanted) in WALKS.iter() {
        let found = walk(rt.alloc(), *pattern)?;
        assert!(rt; found == *wanted);
    }
    Ok(())
}

/// Writes `KeepOut` in the place of a child through a reference, and then in the place of another by value. Gives whether the
/// first was there, and what the second call answers.
fn edited(
    alloc: Global,
    mut expr: Expr,
    written: usize,
    replaced: usize,
) -> Result<String, AllocError> {
    let is_lent = match expr.child_mut(written) {
        Some(child) => {
            *child = Expr::KeepOut;
            true
        }
        None => false,
    };
    debug_text(
        alloc,
        (is_lent, expr.replace_child(replaced, Expr::KeepOut)),
    )
}

fn edited_pattern(
    alloc: Global,
    pattern: Option<&str>,
    written: usize,
    replaced: usize,
) -> Result<String, Error> {
    Ok(edited(alloc, tree_of(alloc, pattern)?, written, replaced)?)
}

/// A pattern, the two children, and what the edits give.
static EDITS: [(Option<&str>, usize, usize, &str); 3] = [
    (
        Some("(?(a)b|c)"),
        1,
        3,
        "(true, (Conditional { condition: Literal { val: \"a\", casei: false }, true_branch: KeepOut, \
        false_branch: Literal { val: \"c\", casei: false } }, Err(KeepOut)))",
    ),
    (
        Some("(?(a)b|c)"),
        3,
        2,
        "(false, (Conditional { condition: Literal { val: \"a\", casei: false }, true_branch: Literal { val: \"b\", casei: false }, \
        false_branch: KeepOut }, Ok(Literal { val: \"c\", casei: false })))",
    ),
    (
        None,
        0,
        0,
        "(false, (AstNode(AstGroup { name: None, inner: KeepOut }, 0), Err(KeepOut)))",
    ),
];

#[test]
fn edits_children(rt: HostRuntime) -> Result<(), Fail> {
    for (pattern, written, replaced, wanted) in EDITS.iter() {
        let found = edited_pattern(rt.alloc(), *pattern, *written, *replaced)?;
        assert_eq!(rt; found.as_str(), *wanted);
    }
    Ok(())
}

/// Whether the copies of the node, and of the group that it calls, equal what they copy.
fn copies_node(alloc: Global, node: &AstNode) -> Result<bool, AllocError> {
    if let AstNode::SubroutineCall(target) = node {
        if target.try_clone(alloc)? != *target {
            return Ok(false);
        }
    }
    Ok(node.try_clone(alloc)? == *node)
}

/// Whether the copies of the tree, and of the operator or node that it consists of, equal what they copy.
fn copies_tree(alloc: Global, expr: &Expr) -> Result<bool, AllocError> {
    match expr {
        Expr::Absent(absent) => Ok(absent.try_clone(alloc)? == *absent),
        Expr::AstNode(node, _) => copies_node(alloc, node),
        _ => Ok(expr.try_clone(alloc)? == *expr),
    }
}

fn copies(alloc: Global, pattern: &str) -> Result<bool, Error> {
    let expr = tree_of(alloc, Some(pattern))?;
    Ok(copies_tree(alloc, &expr)?)
}

/// A tree of many kinds of nodes, the same in an absent operator, and a call of a group that does not exist.
static COPIED: [&str; 3] = [
    "(?<n>a|[b-d]{2,}?)(?~x)\\k<n>(?(1)y|\\g<1>)",
    "(?~(?<n>a|[b-d]{2,}?)(?~x)\\k<n>(?(1)y|\\g<1>))",
    "\\g<n>",
];

#[test]
fn copies_equal_what_they_copy(rt: HostRuntime) -> Result<(), Fail> {
    for pattern in COPIED.iter() {
        assert!(rt; copies(rt.alloc(), pattern)?);
    }
    Ok(())
}
