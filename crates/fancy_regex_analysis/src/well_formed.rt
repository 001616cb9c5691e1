//! Well-formed trees: those whose nodes and summary fields are as the parser makes them.

ghost use Rattle.std.specs.Prelude.{◌≡◌, ◌↔◌, ℕ, ◌+◌, ◌<◌, not, chars, map, false, IsTrue, MatchOption};
ghost use Rattle.std.specs.BTreeSet.{contains};
ghost use Rattle.std.specs.List.{list_any};
ghost use Rattle.std.specs.Ordering.{nat_cmp};
ghost use Rattle.fancy_regex_tree.specs.ReferenceSummary.{refers_to, is_call, back_group};
ghost use Rattle.fancy_regex_tree.specs.Printable.{is_one_character};
ghost use Rattle.fancy_regex_tree.specs.Tree.{tree_of, ast_tree_of};
ghost use Rattle.fancy_regex_tree.specs.Traversal.{nodes};
ghost use Rattle.fancy_regex_meaning.specs.Groups.{group_count};
ghost use Rattle.fancy_regex_analysis.specs.WellFormed.{own_groups, is_ill_formed, is_unlisted_reference, is_named_in, IsWellFormed};

use fancy_regex_text::{is_empty, split_first};
use fancy_regex_tree::{AstNode, Expr, ExprTree};

/// Whether the tree is well-formed: each alternation has a branch, each literal is one character, no quantifier's lower
/// bound is above its upper bound, and the fields `backrefs`, `contains_subroutines` and `total_groups` agree with the
/// nodes. Allocates nothing; recursion is as deep as the tree.
pub fn is_well_formed(tree: &ExprTree) -> bool
    ensures { IsTrue result
        ↔ IsWellFormed (tree_of tree.now.expr) tree.now.total_groups tree.now.contains_subroutines (contains nat_cmp tree.now.backrefs) }
{
    nodes_agree(tree) && groups_agree(tree) && calls_agree(tree) && references_agree(tree)
}

fn nodes_agree(tree: &ExprTree) -> bool
    ensures { IsTrue result ↔ (list_any is_ill_formed (nodes (tree_of tree.now.expr)) ≡ false) }
{
    !has_ill_formed(&tree.expr)
}

fn groups_agree(tree: &ExprTree) -> bool
    ensures { IsTrue result ↔ (tree.now.total_groups ≡ group_count (tree_of tree.now.expr)) }
{
    match remaining_groups(&tree.expr, tree.total_groups) {
        Some(left) => left == 0,
        None => false,
    }
}

fn calls_agree(tree: &ExprTree) -> bool
    ensures { IsTrue result ↔ (tree.now.contains_subroutines ≡ list_any is_call (nodes (tree_of tree.now.expr))) }
{
    has_calls(&tree.expr) == tree.contains_subroutines
}

fn references_agree(tree: &ExprTree) -> bool
    ensures { IsTrue result
        ↔ ((k : ℕ) → contains nat_cmp tree.now.backrefs k ≡ is_named_in tree.now.total_groups (tree_of tree.now.expr) k) }
{
    !has_unlisted_reference(tree) && !has_unknown_reference(tree)
}

/// Whether some node of the tree is ill-formed.
fn has_ill_formed(expr: &Expr) -> bool
    ensures { result ≡ list_any is_ill_formed (nodes (tree_of expr.now)) }
{
    expr.any_node(|node| is_ill_formed(node))
}

fn is_ill_formed(node: &Expr) -> bool
    ensures { result ≡ is_ill_formed (tree_of node.now) }
{
    match node {
        Expr::Literal { val, .. } => !is_one_character(val),
        Expr::Alt(branches) => branches.is_empty(),
        Expr::Repeat { lo, hi, .. } => lo > hi,
        _ => false,
    }
}

#[tactic(auto, unfolding(fancy_regex_tree::specs::Printable::is_one_character))]
fn is_one_character(text: &str) -> bool
    ensures { result ≡ is_one_character (chars text.now) }
{
    match split_first(text) {
        Some((_, rest)) => is_empty(rest),
        None => false,
    }
}

/// Whether the tree has a subroutine call, resolved or not.
fn has_calls(expr: &Expr) -> bool
    ensures { result ≡ list_any is_call (nodes (tree_of expr.now)) }
{
    expr.any_node(|node| is_call(node))
}

fn is_call(node: &Expr) -> bool
    ensures { result ≡ is_call (tree_of node.now) }
{
    match node {
        Expr::SubroutineCall(_) => true,
        Expr::AstNode(node, _) => is_unresolved_call(node),
        _ => false,
    }
}

fn is_unresolved_call(node: &AstNode) -> bool
    ensures { (position : ℕ) → result ≡ is_call (ast_tree_of node.now position) }
{
    match node {
        AstNode::SubroutineCall(_) => true,
        AstNode::AstGroup { .. }
        | AstNode::Backref { .. }
        | AstNode::BackrefExistsCondition { .. } => false,
    }
}

/// The group number that a back reference or condition names.
fn back_group(node: &Expr) -> Option<usize>
    ensures { result ≡ back_group (tree_of node.now) }
{
    match node {
        Expr::Backref { group, .. }
        | Expr::BackrefWithRelativeRecursionLevel { group, .. }
        | Expr::BackrefExistsCondition { group, .. } => Some(*group),
        _ => None,
    }
}

/// Whether a back reference or condition names a group within the total that is missing in the field `backrefs`.
fn has_unlisted_reference(tree: &ExprTree) -> bool
    ensures { result ≡ list_any
        (λ u. is_unlisted_reference tree.now.total_groups (contains nat_cmp tree.now.backrefs) (back_group u))
        (nodes (tree_of tree.now.expr)) }
{
    tree.expr.any_node(|node| is_unlisted_reference(tree, node))
}

fn is_unlisted_reference(tree: &ExprTree, node: &Expr) -> bool
    ensures { result ≡ is_unlisted_reference tree.now.total_groups (contains nat_cmp tree.now.backrefs) (back_group (tree_of node.now)) }
{
    match back_group(node) {
        Some(group) => group <= tree.total_groups && !tree.backrefs.contains(&group),
        None => false,
    }
}

/// Whether `backrefs` holds a number above the total, or one that no back reference or condition names.
fn has_unknown_reference(tree: &ExprTree) -> bool
    ensures { result ≡ list_any (λ k. not (is_named_in tree.now.total_groups (tree_of tree.now.expr) k)) tree.now.backrefs.keys }
{
    tree.backrefs.iter().any(|group| *group > tree.total_groups || !names(&tree.expr, *group))
}

/// Whether a back reference or condition of the tree names the group.
fn names(expr: &Expr, group: usize) -> bool
    ensures { result ≡ list_any (refers_to group) (nodes (tree_of expr.now)) }
{
    expr.any_node(|node| refers_to(node, group))
}

fn refers_to(node: &Expr, wanted: usize) -> bool
    ensures { result ≡ refers_to wanted (tree_of node.now) }
{
    match node {
        Expr::Backref { group, .. }
        | Expr::BackrefWithRelativeRecursionLevel { group, .. }
        | Expr::BackrefExistsCondition { group, .. } => *group == wanted,
        _ => false,
    }
}

/// `left` minus the number of capture groups of the tree; `None` if the tree has more.
fn remaining_groups(expr: &Expr, left: usize) -> Option<usize>
    ensures { MatchOption result (left < group_count (tree_of expr.now)) (λ rest. rest + group_count (tree_of expr.now) ≡ left) }
{
    let mut left = without_own_group(expr, left)?;
    for child in expr.subtrees_iter() {
        left = remaining_groups(child, left)?;
    }
    Some(left)
}

/// `left` minus one if the node itself is a capture group; `None` if that leaves less than none.
fn without_own_group(node: &Expr, left: usize) -> Option<usize>
    ensures { MatchOption result (left < own_groups (tree_of node.now)) (λ rest. rest + own_groups (tree_of node.now) ≡ left) }
{
    match node {
        Expr::Group(_) => left.checked_sub(1),
        _ => Some(left),
    }
}
