//! Anchored patterns: those that can match at one position only.

ghost use Rattle.std.specs.Prelude.{◌≡◌, true, map};
ghost use Rattle.fancy_regex_tree.specs.Tree.{Tree, tree_of, trees};
ghost use Rattle.fancy_regex_analysis.specs.Anchored.{begins_anchored, all_begin_anchored, IsAnchored};

use fancy_regex_tree::{Assertion, Expr, LookAround};

/// Whether every match of the tree starts with `\A`, at the start of the haystack, or with `\G`, where the search
/// continues. False says nothing. Allocates nothing; recursion is as deep as the tree.
pub fn can_compile_as_anchored(expr: &Expr) -> bool
    ensures answer { result ≡ begins_anchored (tree_of expr.now) }
    ensures law { result ≡ true → IsAnchored (tree_of expr.now) }
{
    is_anchored(expr)
}

#[tactic(auto, unfolding(crate::specs::Anchored::begins_anchored))]
#[cycle(anchored)]
fn is_anchored(expr: &Expr) -> bool
    ensures { result ≡ begins_anchored (tree_of expr.now) }
{
    match expr {
        Expr::Assertion(Assertion::StartText) | Expr::ContinueFromPreviousMatchEnd => true,
        Expr::Concat(parts) => first_is_anchored(parts),
        Expr::Alt(branches) => branches_are_anchored(branches),
        Expr::Group(child) | Expr::AtomicGroup(child) => is_anchored(child),
        Expr::LookAround(child, LookAround::LookAhead) => is_anchored(child),
        Expr::Repeat { child, lo, .. } => *lo > 0 && is_anchored(child),
        _ => false,
    }
}

#[tactic(auto, unfolding(crate::specs::Anchored::begins_anchored))]
#[cycle(anchored)]
fn first_is_anchored(parts: &[Expr]) -> bool
    ensures { result ≡ begins_anchored (Tree.concat (trees (map tree_of parts.now))) }
{
    match parts.first() {
        Some(first) => is_anchored(first),
        None => false,
    }
}

#[cycle(anchored)]
fn branches_are_anchored(branches: &[Expr]) -> bool
    ensures { result ≡ begins_anchored (Tree.alt (trees (map tree_of branches.now))) }
{
    !branches.is_empty() && are_anchored(branches)
}

#[cycle(anchored)]
fn are_anchored(branches: &[Expr]) -> bool
    ensures { result ≡ all_begin_anchored (trees (map tree_of branches.now)) }
{
    for branch in branches {
        if !is_anchored(branch) {
            return false;
        }
    }
    true
}
