//! Termination: which nodes have a path that does not recurse forever, found by fixpoint iteration over the groups.

ghost use Rattle.std.specs.Prelude.{◌≡◌, ℕ, map, length, IfOk, IsTrue};
ghost use Rattle.std.specs.List.{list_all};
ghost use Rattle.fancy_regex_tree.specs.Tree.{tree_of, trees};
ghost use Rattle.fancy_regex_tree.specs.Traversal.{subtrees};
ghost use Rattle.fancy_regex_meaning.specs.Termination.{can_end_with, some_can_end};
ghost use Rattle.fancy_regex_analysis.specs.TerminationFixpoint.{ends_in, next_end, iterated_end};
ghost use Rattle.fancy_regex_info.specs.Views.{body_tree};

use crate::flow::{Flow, flow_of};
use fancy_regex_tree::Expr;
use std::alloc::{AllocError, Global};

/// Whether the tree has a terminating path, given which groups have one. A call of a missing group terminates.
#[tactic(auto, unfolding(fancy_regex_meaning::specs::Termination::can_end_with))]
#[cycle(ends)]
pub(crate) fn can_end_in(expr: &Expr, ends: &[bool]) -> bool
    ensures { result ≡ can_end_with (ends_in ends.now) (tree_of expr.now) }
{
    match flow_of(expr) {
        Flow::Call(group) => call_ends(ends, group),
        Flow::Branches(branches) => some_can_end_in(branches, ends),
        Flow::Repeat { child, lo, .. } => lo == 0 || can_end_in(child, ends),
        Flow::Conditional {
            condition,
            true_branch,
            false_branch,
        } => {
            can_end_in(condition, ends)
                && (can_end_in(true_branch, ends) || can_end_in(false_branch, ends))
        }
        Flow::Row(_) | Flow::Definitions | Flow::Children => all_children_can_end(expr, ends),
    }
}

/// Whether a call of the group terminates; true if there is no such group.
fn call_ends(ends: &[bool], group: usize) -> bool
    ensures { result ≡ ends_in ends.now group }
{
    match ends.get(group) {
        Some(can_end) => *can_end,
        None => true,
    }
}

/// Whether each child of the node has a terminating path.
#[cycle(ends)]
fn all_children_can_end(node: &Expr, ends: &[bool]) -> bool
    ensures { result ≡ list_all (can_end_with (ends_in ends.now)) (subtrees (tree_of node.now)) }
{
    for child in node.subtrees_iter() {
        if !can_end_in(child, ends) {
            return false;
        }
    }
    true
}

/// Whether one of the branches has a terminating path.
#[cycle(ends)]
fn some_can_end_in(branches: &[Expr], ends: &[bool]) -> bool
    ensures { result ≡ some_can_end (ends_in ends.now) (trees (map tree_of branches.now)) }
{
    for branch in branches {
        if can_end_in(branch, ends) {
            return true;
        }
    }
    false
}

/// For each group, whether its body has a terminating path. Each iteration follows calls one level deeper; at most as many
/// iterations as there are groups. Fails only if memory runs out.
pub(crate) fn ending_groups(alloc: Global, groups: &[&Expr]) -> Result<Vec<bool>, AllocError>
    ensures { IfOk result (λ ends. (k : ℕ) → ends_in ends.items k ≡ iterated_end (map body_tree groups.now) (length groups.now) k) }
{
    let mut ends = vec![in alloc; false; groups.len()]?;
    for _iteration in 0..groups.len() {
        let next = next_ends(alloc, groups, &ends)?;
        if are_same_marks(&next, &ends) {
            return Ok(ends);
        }
        ends = next;
    }
    Ok(ends)
}

/// One iteration: termination with calls followed one level deeper.
fn next_ends(alloc: Global, groups: &[&Expr], ends: &[bool]) -> Result<Vec<bool>, AllocError>
    ensures { IfOk result (λ next. (k : ℕ) → ends_in next.items k ≡ next_end (map body_tree groups.now) (ends_in ends.now) k) }
{
    let mut next = Vec::new(alloc);
    for group in 0..groups.len() {
        next.push(can_end_in(groups[group], ends))?;
    }
    Ok(next)
}

/// Whether the two tables are equal.
fn are_same_marks(a: &[bool], b: &[bool]) -> bool
    ensures { IsTrue result → a.now ≡ b.now }
{
    if a.len() != b.len() {
        return false;
    }
    for i in 0..a.len() {
        if a[i] != b[i] {
            return false;
        }
    }
    true
}
