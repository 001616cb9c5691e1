//! Makes nodes of parsed pieces and branches.

ghost use Rattle.std.specs.Prelude.{◌≡◌, ◌∷◌, [], IfOk, MatchOption, map, not};
ghost use Rattle.fancy_regex_tree.specs.Tree.{repeat, tree_of, absent_tree_of, concat, alt, conditional};
ghost use Rattle.fancy_regex_tree.specs.TreeBuilders.{is_empty_tree, is_repeatable, joined, branch_of, all_branches, pattern_of};
ghost use Rattle.fancy_regex_tree.specs.Parser.{is_empty_body, conditional_of_branches, make_conditional, absent_of_branches, absent_bar_of};

use crate::expr::{Absent, Expr};
use std::alloc::{AllocError, Global};

/// Whether the node is `Empty`.
pub fn is_empty_tree(tree: &Expr) -> bool
    ensures { result ≡ is_empty_tree (tree_of tree.now) }
{
    matches!(tree, Expr::Empty)
}

/// Whether a quantifier may follow the node.
pub fn is_repeatable(tree: &Expr) -> bool
    ensures { result ≡ is_repeatable (tree_of tree.now) }
{
    !matches!(
        tree,
        Expr::Empty | Expr::Assertion(_) | Expr::LookAround(_, _)
    )
}

/// The concatenation of the pieces: `Empty` for none, the piece itself for one.
fn concat(mut pieces: Vec<Expr>) -> Expr
    ensures { tree_of result ≡ joined concat (map tree_of pieces.items) }
{
    if pieces.len() == 1 {
        if let Some(only) = pieces.pop() {
            return only;
        }
    }
    if pieces.is_empty() {
        Expr::Empty
    } else {
        Expr::Concat(pieces)
    }
}

/// The alternation of the branches: `Empty` for none, the branch itself for one.
fn alternation(mut branches: Vec<Expr>) -> Expr
    ensures { tree_of result ≡ joined alt (map tree_of branches.items) }
{
    if branches.len() == 1 {
        if let Some(only) = branches.pop() {
            return only;
        }
    }
    if branches.is_empty() {
        Expr::Empty
    } else {
        Expr::Alt(branches)
    }
}

/// The node of a branch: the concatenation of its pieces that are not `Empty`.
fn branch_of(mut pieces: Vec<Expr>) -> Expr
    ensures { tree_of result ≡ branch_of (map tree_of pieces.items) }
{
    pieces.retain(
        |piece: &Expr| -> bool
            ensures { result ≡ not (is_empty_tree (tree_of piece.now)) }
        { !is_empty_tree(piece) },
    );
    concat(pieces)
}

/// The node of each branch, given the pieces of each.
fn all_branches(alloc: Global, branches: Vec<Vec<Expr>>) -> Result<Vec<Expr>, AllocError>
    ensures { IfOk result (λ v. map tree_of v.items ≡ all_branches (map (λ b. map tree_of b.items) branches.items)) }
{
    let mut all = Vec::with_capacity(alloc, branches.len())?;
    for branch in branches {
        all.push(branch_of(branch))?;
    }
    Ok(all)
}

/// The alternation of branches, given the pieces of each.
pub fn pattern_of(alloc: Global, branches: Vec<Vec<Expr>>) -> Result<Expr, AllocError>
    ensures { IfOk result (λ e. tree_of e ≡ pattern_of (map (λ b. map tree_of b.items) branches.items)) }
{
    Ok(alternation(all_branches(alloc, branches)?))
}

/// Whether there is one branch, without a piece.
pub fn is_empty_body(branches: &[Vec<Expr>]) -> bool
    ensures { result ≡ is_empty_body (map (λ b. map tree_of b.items) branches.now) }
{
    branches.len() == 1 && branches[0].is_empty()
}

/// Removes and returns the first branch.
fn take_first(branches: &mut Vec<Vec<Expr>>) -> Option<Vec<Expr>>
    ensures { MatchOption result (branches.old.items ≡ []) (λ first. branches.old.items ≡ first ∷ branches.new.items) }
{
    if branches.is_empty() {
        return None;
    }
    Some(branches.remove(0))
}

/// A conditional node.
fn conditional(
    alloc: Global,
    condition: Expr,
    true_branch: Expr,
    false_branch: Expr,
) -> Result<Expr, AllocError>
    ensures { IfOk result (λ e. tree_of e ≡ conditional (tree_of condition) (tree_of true_branch) (tree_of false_branch)) }
{
    Ok(Expr::Conditional {
        condition: Box::new(alloc, condition)?,
        true_branch: Box::new(alloc, true_branch)?,
        false_branch: Box::new(alloc, false_branch)?,
    })
}

/// A conditional whose true branch is the first branch, and whose false branch is the alternation of the others.
pub fn conditional_of_branches(
    alloc: Global,
    condition: Expr,
    mut body: Vec<Vec<Expr>>,
) -> Result<Expr, AllocError>
    ensures { IfOk result (λ e. tree_of e ≡ conditional_of_branches (tree_of condition) (map (λ b. map tree_of b.items) body.items)) }
{
    let Some(first) = take_first(&mut body) else {
        return conditional(alloc, condition, Expr::Empty, Expr::Empty);
    };
    let others = pattern_of(alloc, body)?;
    conditional(alloc, condition, branch_of(first), others)
}

/// A conditional on a capture group; the condition alone, if the body is empty.
pub fn make_conditional(
    alloc: Global,
    condition: Expr,
    body: Vec<Vec<Expr>>,
) -> Result<Expr, AllocError>
    ensures { IfOk result (λ e. tree_of e ≡ make_conditional (tree_of condition) (map (λ b. map tree_of b.items) body.items)) }
{
    if is_empty_body(&body) {
        return Ok(condition);
    }
    conditional_of_branches(alloc, condition, body)
}

/// An absent stopper for one branch; an absent expression for more, with the others as its expression.
fn absent_of_branches(alloc: Global, mut body: Vec<Vec<Expr>>) -> Result<Absent, AllocError>
    ensures { IfOk result (λ a. absent_tree_of a ≡ absent_of_branches (map (λ b. map tree_of b.items) body.items)) }
{
    let Some(first) = take_first(&mut body) else {
        return Ok(Absent::Clear);
    };
    let absent = Box::new(alloc, branch_of(first))?;
    if body.is_empty() {
        return Ok(Absent::Stopper(absent));
    }
    let exp = Box::new(alloc, pattern_of(alloc, body)?)?;
    Ok(Absent::Expression { absent, exp })
}

/// The node of `(?~|..)`: a clear for an empty body, a stopper for one branch, an absent expression for more.
pub fn absent_bar_of(alloc: Global, body: Vec<Vec<Expr>>) -> Result<Expr, AllocError>
    ensures { IfOk result (λ e. tree_of e ≡ absent_bar_of (map (λ b. map tree_of b.items) body.items)) }
{
    if is_empty_body(&body) {
        return Ok(Expr::Absent(Absent::Clear));
    }
    Ok(Expr::Absent(absent_of_branches(alloc, body)?))
}

/// A repetition of this child.
pub fn repeat_of(child: Box<Expr>, lo: usize, hi: usize, greedy: bool) -> Expr
    ensures { tree_of result ≡ repeat (tree_of child.value) lo hi greedy }
{
    Expr::Repeat {
        child,
        lo,
        hi,
        greedy,
    }
}
