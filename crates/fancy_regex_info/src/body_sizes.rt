//! The sizes of the bodies of all capture groups of a tree, found in one walk over it.

ghost use Rattle.std.specs.Prelude.{◌≡◌, ℕ, map, IfOk};
ghost use Rattle.fancy_regex_tree.specs.Tree.{tree_of, trees, absent_tree_of, ast_tree_of};
ghost use Rattle.fancy_regex_meaning.specs.Sizes.{size_with, concat_size, alternation_size};
ghost use Rattle.fancy_regex_info.specs.BodySizes.{body_sizes, row_body_sizes, from_last};
ghost use Rattle.fancy_regex_info.specs.Views.{size_of as meant, size_at};

use crate::size::{Size, always, any_size, both, either, one_or_two, repeated, size_of_call};
use fancy_regex_tree::{Absent, AstNode, Expr};
use std::alloc::AllocError;

/// The size of the tree, given the size of a call of each group, by group number. The size of the body of each capture group in the tree is
/// appended, in the reverse of the order of their opening parentheses: the tree is walked from its end, and a group's size is known after
/// those of the groups in it. The error is want of memory.
#[tactic(auto, unfolding(fancy_regex_meaning::specs::Sizes::size_with, crate::specs::BodySizes::body_sizes))]
#[cycle(add)]
pub(crate) fn add_body_sizes(
    expr: &Expr,
    calls: &[Size],
    sizes: &mut Vec<Size>,
) -> Result<Size, AllocError>
    ensures size { IfOk result (λ size. meant size ≡ size_with (size_at calls.now) (tree_of expr.now)) }
    ensures adds { IfOk result (λ _. from_last sizes.new.items
        ≡ body_sizes (size_at calls.now) (tree_of expr.now) (from_last sizes.old.items)) }
{
    match expr {
        Expr::Concat(parts) => add_sizes_in_row(parts, calls, sizes),
        Expr::Alt(branches) => add_sizes_in_branches(branches, calls, sizes),
        Expr::Group(body) => {
            let size = add_body_sizes(body, calls, sizes)?;
            sizes.push(size)?;
            Ok(size)
        }
        Expr::AtomicGroup(child) => add_body_sizes(child, calls, sizes),
        Expr::Repeat { child, lo, hi, .. } => {
            let size = add_body_sizes(child, calls, sizes)?;
            Ok(repeated(size, *lo, *hi))
        }
        Expr::LookAround(child, _) | Expr::DefineGroup { definitions: child } => {
            let _ = add_body_sizes(child, calls, sizes)?;
            Ok(always(0))
        }
        Expr::Conditional {
            condition,
            true_branch,
            false_branch,
        } => {
            let no = add_body_sizes(false_branch, calls, sizes)?;
            let yes = add_body_sizes(true_branch, calls, sizes)?;
            let condition = add_body_sizes(condition, calls, sizes)?;
            Ok(either(both(condition, yes), no))
        }
        Expr::Absent(absent) => add_sizes_in_absent(absent, calls, sizes),
        Expr::AstNode(node, _) => add_sizes_in_unresolved(node, calls, sizes),
        Expr::Any { .. } | Expr::Literal { .. } | Expr::LiteralBytes { .. } => Ok(always(1)),
        Expr::Delegate { .. } => Ok(always(1)),
        Expr::SubroutineCall(group) => Ok(size_of_call(calls, *group)),
        Expr::GeneralNewline { .. } => Ok(one_or_two()),
        Expr::Backref { .. } | Expr::BackrefWithRelativeRecursionLevel { .. } => Ok(any_size()),
        Expr::Empty | Expr::Assertion(_) | Expr::KeepOut => Ok(always(0)),
        Expr::ContinueFromPreviousMatchEnd => Ok(always(0)),
        Expr::BackrefExistsCondition { .. } | Expr::BacktrackingControlVerb(_) => Ok(always(0)),
    }
}

/// The size of an absent operator. The sizes of the bodies in it are appended.
#[tactic(auto, unfolding(fancy_regex_meaning::specs::Sizes::size_with, crate::specs::BodySizes::body_sizes))]
#[cycle(add)]
fn add_sizes_in_absent(
    absent: &Absent,
    calls: &[Size],
    sizes: &mut Vec<Size>,
) -> Result<Size, AllocError>
    ensures size { IfOk result (λ size. meant size ≡ size_with (size_at calls.now) (absent_tree_of absent.now)) }
    ensures adds { IfOk result (λ _. from_last sizes.new.items
        ≡ body_sizes (size_at calls.now) (absent_tree_of absent.now) (from_last sizes.old.items)) }
{
    match absent {
        Absent::Repeater(child) | Absent::Stopper(child) => {
            let _ = add_body_sizes(child, calls, sizes)?;
        }
        Absent::Expression { absent, exp } => {
            let _ = add_body_sizes(exp, calls, sizes)?;
            let _ = add_body_sizes(absent, calls, sizes)?;
        }
        Absent::Clear => {}
    }
    Ok(any_size())
}

/// The size of a node whose group has no number yet. The sizes of the bodies in it are appended.
#[tactic(auto, unfolding(fancy_regex_meaning::specs::Sizes::size_with, crate::specs::BodySizes::body_sizes))]
#[cycle(add)]
fn add_sizes_in_unresolved(
    node: &AstNode,
    calls: &[Size],
    sizes: &mut Vec<Size>,
) -> Result<Size, AllocError>
    ensures size { IfOk result (λ size. (position : ℕ)
        → meant size ≡ size_with (size_at calls.now) (ast_tree_of node.now position)) }
    ensures adds { IfOk result (λ _. (position : ℕ) → from_last sizes.new.items
        ≡ body_sizes (size_at calls.now) (ast_tree_of node.now position) (from_last sizes.old.items)) }
{
    match node {
        AstNode::AstGroup { inner, .. } => {
            let _ = add_body_sizes(inner, calls, sizes)?;
            Ok(always(0))
        }
        AstNode::Backref { .. } | AstNode::SubroutineCall(_) => Ok(any_size()),
        AstNode::BackrefExistsCondition { .. } => Ok(always(0)),
    }
}

/// The size of a concatenation. The sizes of the bodies in its parts are appended.
#[cycle(add)]
fn add_sizes_in_row(
    parts: &[Expr],
    calls: &[Size],
    sizes: &mut Vec<Size>,
) -> Result<Size, AllocError>
    ensures size { IfOk result (λ size. meant size ≡ concat_size (size_at calls.now) (trees (map tree_of parts.now))) }
    ensures adds { IfOk result (λ _. from_last sizes.new.items
        ≡ row_body_sizes (size_at calls.now) (trees (map tree_of parts.now)) (from_last sizes.old.items)) }
{
    let mut size = always(0);
    for i in (0..parts.len()).rev() {
        let part = add_body_sizes(&parts[i], calls, sizes)?;
        size = both(part, size);
    }
    Ok(size)
}

/// The size of an alternation; without a branch it is 0. The sizes of the bodies in its branches are appended.
#[cycle(add)]
fn add_sizes_in_branches(
    branches: &[Expr],
    calls: &[Size],
    sizes: &mut Vec<Size>,
) -> Result<Size, AllocError>
    ensures size { IfOk result (λ size. meant size ≡ alternation_size (size_at calls.now) (trees (map tree_of branches.now))) }
    ensures adds { IfOk result (λ _. from_last sizes.new.items
        ≡ row_body_sizes (size_at calls.now) (trees (map tree_of branches.now)) (from_last sizes.old.items)) }
{
    if branches.is_empty() {
        return Ok(always(0));
    }
    let last = branches.len() - 1;
    let mut size = add_body_sizes(&branches[last], calls, sizes)?;
    for i in (0..last).rev() {
        let branch = add_body_sizes(&branches[i], calls, sizes)?;
        size = either(branch, size);
    }
    Ok(size)
}
