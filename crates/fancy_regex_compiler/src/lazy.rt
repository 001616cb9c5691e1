//! Lazy copies of trees. They match where the trees do, and prefer the fewest iterations.

ghost use Rattle.std.specs.Prelude.{◌≡◌, IfOk, map};
ghost use Rattle.fancy_regex_tree.specs.Tree.{tree_of, trees};
ghost use Rattle.fancy_regex_desugar.specs.Delegates.{lazily, all_lazily};

use fancy_regex_tree::Expr;
use std::alloc::{AllocError, Global};

/// A copy of the tree with each quantifier lazy. The error is want of memory.
#[tactic(auto, unfolding(fancy_regex_desugar::specs::Delegates::lazily))]
#[cycle(lazy)]
pub(crate) fn lazy_copy(alloc: Global, tree: &Expr) -> Result<Expr, AllocError>
    ensures { IfOk result (λ copy. tree_of copy ≡ lazily (tree_of tree.now)) }
{
    match tree {
        Expr::Concat(children) => Ok(Expr::Concat(lazy_copies(alloc, children)?)),
        Expr::Alt(children) => Ok(Expr::Alt(lazy_copies(alloc, children)?)),
        Expr::Group(child) => Ok(Expr::Group(lazy_child(alloc, child)?)),
        Expr::Repeat { child, lo, hi, .. } => Ok(Expr::Repeat {
            child: lazy_child(alloc, child)?,
            lo: *lo,
            hi: *hi,
            greedy: false,
        }),
        other => {
            let copy = other.try_clone(alloc)?;
            Ok(copy)
        }
    }
}

/// A lazy copy of a boxed child.
#[cycle(lazy)]
fn lazy_child(alloc: Global, child: &Box<Expr>) -> Result<Box<Expr>, AllocError>
    ensures { IfOk result (λ copy. tree_of copy.value ≡ lazily (tree_of child.now.value)) }
{
    Ok(Box::new(alloc, lazy_copy(alloc, child)?)?)
}

/// Lazy copies of all children.
#[cycle(lazy)]
fn lazy_copies(alloc: Global, children: &[Expr]) -> Result<Vec<Expr>, AllocError>
    ensures { IfOk result (λ copy. trees (map tree_of copy.items) ≡ all_lazily (trees (map tree_of children.now))) }
{
    let mut all = Vec::new(alloc);
    for child in children {
        all.push(lazy_copy(alloc, child)?)?;
    }
    Ok(all)
}
