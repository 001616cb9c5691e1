//! A summary of the references in a pattern: which groups they name, and whether there are calls.

ghost use Rattle.std.specs.Prelude.{◌≡◌, ℕ, ◌&&◌, map, IfOk, nat_le};
ghost use Rattle.std.specs.List.{list_any};
ghost use Rattle.std.specs.BTreeSet.{contains};
ghost use Rattle.std.specs.Ordering.{nat_cmp};
ghost use Rattle.fancy_regex_tree.specs.Tree.{tree_of, ast_tree_of, target_of};
ghost use Rattle.fancy_regex_tree.specs.Traversal.{tree_at};
ghost use Rattle.fancy_regex_tree.specs.ReferenceSummary.{refers_to, is_call, is_call_of_whole, is_reference_above, is_not_by_name, is_group_by_number, is_numbered, is_named, back_group, up_to_total};

use crate::expr::{AstNode, CaptureGroupTarget, Expr};
use std::alloc::{AllocError, Global};
use std::collections::BTreeSet;

/// The group number of a resolved back reference or condition.
fn back_group(node: &Expr) -> Option<usize>
    ensures { result ≡ back_group (tree_of node.now) }
{
    match node {
        Expr::Backref { group, .. }
        | Expr::BackrefWithRelativeRecursionLevel { group, .. }
        | Expr::BackrefExistsCondition { group, .. } => Some(*group),
        _ => None,
    }
}

/// Whether the node is a named capture group.
fn is_named(node: &Expr) -> bool
    ensures { result ≡ is_named (tree_of node.now) }
{
    match node {
        Expr::AstNode(AstNode::AstGroup { name, .. }, _) => name.is_some(),
        _ => false,
    }
}

/// Whether the node is a subroutine call.
fn is_unresolved_call(node: &AstNode) -> bool
    ensures { (position : ℕ) → result ≡ is_call (ast_tree_of node.now position) }
{
    match node {
        AstNode::SubroutineCall(_) => true,
        AstNode::AstGroup { .. }
        | AstNode::Backref { .. }
        | AstNode::BackrefExistsCondition { .. } => false,
    }
}

/// Whether the node is a subroutine call, resolved or not.
fn is_call(node: &Expr) -> bool
    ensures { result ≡ is_call (tree_of node.now) }
{
    match node {
        Expr::SubroutineCall(_) => true,
        Expr::AstNode(node, _) => is_unresolved_call(node),
        _ => false,
    }
}

/// Whether the node is a call of group 0, the whole pattern.
fn is_call_of_whole(node: &Expr) -> bool
    ensures { result ≡ is_call_of_whole (tree_of node.now) }
{
    match node {
        Expr::SubroutineCall(group) => *group == 0,
        _ => false,
    }
}

/// Whether the node is a back reference, a condition or a call of a group number above `total`.
fn is_reference_above(total: usize, node: &Expr) -> bool
    ensures { result ≡ is_reference_above total (tree_of node.now) }
{
    match node {
        Expr::SubroutineCall(group)
        | Expr::Backref { group, .. }
        | Expr::BackrefWithRelativeRecursionLevel { group, .. }
        | Expr::BackrefExistsCondition { group, .. } => total < *group,
        _ => false,
    }
}

/// Whether the target is by number or relative.
fn is_not_by_name(target: &CaptureGroupTarget) -> bool
    ensures { result ≡ is_not_by_name (target_of target.now) }
{
    !matches!(target, CaptureGroupTarget::ByName(_))
}

/// Whether the target is by number or relative, and not group 0.
fn is_group_by_number(target: &CaptureGroupTarget) -> bool
    ensures { result ≡ is_group_by_number (target_of target.now) }
{
    match target {
        CaptureGroupTarget::ByNumber(number) => *number > 0,
        CaptureGroupTarget::ByName(_) => false,
        CaptureGroupTarget::Relative(_) => true,
    }
}

/// Whether the node is an unresolved reference by number or relative, other than a call of group 0.
fn is_numbered(node: &Expr) -> bool
    ensures { result ≡ is_numbered (tree_of node.now) }
{
    match node {
        Expr::AstNode(
            AstNode::Backref { target, .. } | AstNode::BackrefExistsCondition { target, .. },
            _,
        ) => is_not_by_name(target),
        Expr::AstNode(AstNode::SubroutineCall(target), _) => is_group_by_number(target),
        _ => false,
    }
}

/// Whether one of the nodes is a named capture group.
pub fn any_named(nodes: &[&Expr]) -> bool
    ensures { result ≡ list_any (λ node. is_named (tree_at node)) nodes.now }
{
    nodes.iter().any(|node| is_named(node))
}

/// Whether one of the nodes is an unresolved reference by number or relative, other than a call of group 0.
pub fn any_numbered(nodes: &[&Expr]) -> bool
    ensures { result ≡ list_any (λ node. is_numbered (tree_at node)) nodes.now }
{
    nodes.iter().any(|node| is_numbered(node))
}

/// Whether one of the nodes is a subroutine call, resolved or not.
pub fn any_call(nodes: &[&Expr]) -> bool
    ensures { result ≡ list_any (λ node. is_call (tree_at node)) nodes.now }
{
    nodes.iter().any(|node| is_call(node))
}

/// Whether one of the nodes is a reference to a group number above `total`.
pub fn any_reference_above(total: usize, nodes: &[&Expr]) -> bool
    ensures { result ≡ list_any (λ node. is_reference_above total (tree_at node)) nodes.now }
{
    nodes.iter().any(|node| is_reference_above(total, node))
}

/// Whether one of the nodes is a call of group 0, the whole pattern.
pub fn any_call_of_whole(nodes: &[&Expr]) -> bool
    ensures { result ≡ list_any (λ node. is_call_of_whole (tree_at node)) nodes.now }
{
    nodes.iter().any(|node| is_call_of_whole(node))
}

/// The group number of a back reference or a condition, if it is at most `total`.
fn counted_backref(node: &Expr, total: usize) -> Option<usize>
    ensures { result ≡ up_to_total total (back_group (tree_of node.now)) }
{
    match back_group(node) {
        Some(group) if group <= total => Some(group),
        _ => None,
    }
}

/// The group numbers, at most `total`, that back references and conditions among the nodes name.
pub fn backrefs(alloc: Global, nodes: &[&Expr], total: usize) -> Result<BTreeSet<usize>, AllocError>
    ensures { IfOk result (λ groups. (k : ℕ)
        → contains nat_cmp groups k ≡ (nat_le k total && list_any (refers_to k) (map tree_at nodes.now))) }
{
    let mut groups = BTreeSet::new(alloc);
    for i in 0..nodes.len() {
        if let Some(group) = counted_backref(nodes[i], total) {
            groups.insert(group)?;
        }
    }
    Ok(groups)
}
