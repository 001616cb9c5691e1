//! Errors that a single node shows, without regard to the rest of the pattern.

ghost use Rattle.std.specs.Prelude.{◌≡◌, ℕ, true, false, not, ◌&&◌, ◌||◌, nat_lt, string_bytes, IfOk, IfErr};
ghost use Rattle.fancy_regex_tree.specs.Tree.{tree_of, ast_tree_of, by_number, target_of};
ghost use Rattle.fancy_regex_analysis.specs.NodeErrors.{some_node, is_memory, is_reversed_repeat, has_reversed_repeat, is_no_group, is_invalid_reference};
ghost use Rattle.fancy_regex_analysis.specs.NodeErrors.{shows, is_invalid, is_not_found, names, signed};

use fancy_regex_info::CompileError;
use fancy_regex_tree::{AstNode, CaptureGroupTarget, Expr};
use std::alloc::{AllocError, Global};

/// Whether some quantifier's lower bound is above its upper bound. Allocates nothing; recursion is as deep as the tree.
pub(crate) fn has_reversed_bounds(expr: &Expr) -> bool
    ensures { result ≡ has_reversed_repeat (tree_of expr.now) }
{
    expr.any_node(|node| is_reversed_repeat(node))
}

fn is_reversed_repeat(node: &Expr) -> bool
    ensures { result ≡ is_reversed_repeat (tree_of node.now) }
{
    match node {
        Expr::Repeat { lo, hi, .. } => lo > hi,
        _ => false,
    }
}

/// Refuses a tree with a reference or condition on a missing group or group 0 (`InvalidBackref`), a call of a missing group
/// (`SubroutineCallTargetNotFound`), or an unresolved node (`UnresolvedAstNode`). The groups are those with numbers below
/// `groups`. The other error is `Memory`.
pub(crate) fn check_references(
    alloc: Global,
    expr: &Expr,
    groups: usize,
) -> Result<(), CompileError>
    ensures refused { IfErr result (λ e. (is_memory e || some_node (shows groups e) (tree_of expr.now)) ≡ true) }
    ensures complete { IfOk result (λ _. some_node (is_invalid_reference groups) (tree_of expr.now) ≡ false) }
{
    let nodes = expr.preorder(alloc)?;
    for node in &nodes {
        check_node(alloc, *node, groups)?;
    }
    Ok(())
}

/// Refuses a node that is an invalid reference or unresolved, without regard to its descendants.
fn check_node(alloc: Global, node: &Expr, groups: usize) -> Result<(), CompileError>
    ensures refused { IfErr result (λ e. (is_memory e || shows groups e (tree_of node.now)) ≡ true) }
    ensures complete { IfOk result (λ _. is_invalid_reference groups (tree_of node.now) ≡ false) }
{
    match node {
        Expr::Backref { group, .. }
        | Expr::BackrefWithRelativeRecursionLevel { group, .. }
        | Expr::BackrefExistsCondition { group, .. } => check_reference(*group, groups),
        Expr::SubroutineCall(group) => check_call(alloc, *group, groups),
        Expr::AstNode(node, _) => {
            let cause = unresolved(alloc, node)?;
            Err(cause)
        }
        _ => Ok(()),
    }
}

/// Refuses a reference to a group that does not exist. Back references and conditions cannot name group 0.
fn check_reference(group: usize, groups: usize) -> Result<(), CompileError>
    ensures refused { IfErr result (λ e. (is_no_group groups group && is_invalid group e) ≡ true) }
    ensures complete { IfOk result (λ _. is_no_group groups group ≡ false) }
{
    if group > 0 && group < groups {
        Ok(())
    } else {
        Err(CompileError::InvalidBackref(group))
    }
}

/// Refuses a subroutine call of a group that does not exist.
fn check_call(alloc: Global, group: usize, groups: usize) -> Result<(), CompileError>
    ensures refused { IfErr result (λ e. (is_memory e || (not (nat_lt group groups) && is_not_found (by_number group) e)) ≡ true) }
    ensures complete { IfOk result (λ _. not (nat_lt group groups) ≡ false) }
{
    if group < groups {
        return Ok(());
    }
    let target = format!(in alloc; "{group}")?;
    Err(CompileError::SubroutineCallTargetNotFound(target))
}

/// The error for an unresolved node; an unresolved call counts as a call of a missing group.
fn unresolved(alloc: Global, node: &AstNode) -> Result<CompileError, AllocError>
    ensures { IfOk result (λ e. (groups position : ℕ) → shows groups e (ast_tree_of node.now position) ≡ true) }
{
    match node {
        AstNode::SubroutineCall(target) => {
            let target = target_text(alloc, target)?;
            Ok(CompileError::SubroutineCallTargetNotFound(target))
        }
        AstNode::AstGroup { .. }
        | AstNode::Backref { .. }
        | AstNode::BackrefExistsCondition { .. } => Ok(CompileError::UnresolvedAstNode),
    }
}

/// The text of a call's target: the name, the number, or the signed relative number.
fn target_text(alloc: Global, target: &CaptureGroupTarget) -> Result<String, AllocError>
    ensures { IfOk result (λ text. names (target_of target.now) (string_bytes text) ≡ true) }
{
    match target {
        CaptureGroupTarget::ByNumber(number) => format!(in alloc; "{number}"),
        CaptureGroupTarget::ByName(name) => String::from_str(alloc, name),
        CaptureGroupTarget::Relative(distance) => distance_text(alloc, *distance),
    }
}

/// A relative group number with its sign.
fn distance_text(alloc: Global, distance: isize) -> Result<String, AllocError>
    ensures { IfOk result (λ text. string_bytes text ≡ signed distance) }
{
    if distance < 0 {
        format!(in alloc; "{distance}")
    } else {
        format!(in alloc; "+{distance}")
    }
}
