//! The bytes that the matches of a delegated part begin with.

ghost use Rattle.std.specs.Prelude.{◌≡◌, Some, IfOk};
ghost use Rattle.std.specs.Option.{ForSome};
ghost use Rattle.fancy_regex_tree.specs.Tree.{tree_of};
ghost use Rattle.fancy_regex_bytes.specs.ByteSets.{has};
ghost use Rattle.fancy_regex_program.specs.BodyStarts.{is_reversed as is_reversed_tree, has_reversed_repeat as has_reversed, body_starts_in};

use fancy_regex_bytes::{ByteSet, start_bytes};
use fancy_regex_class::ClassError;
use fancy_regex_tree::Expr;
use std::alloc::{AllocError, Global};

/// The bytes that a match of the tree begins with. `None` if they are not known, or a repeat of the tree is reversed; so it is
/// where `regex` rejects a class of the tree, as a class of a part that is repeated no times is of no concern to a search. The
/// error is want of memory.
pub(crate) fn body_starts(
    alloc: Global,
    tree: &Expr,
    unicode: bool,
) -> Result<Option<ByteSet>, AllocError>
    ensures { IfOk result (λ starts. ForSome starts (λ set. body_starts_in unicode (tree_of tree.now) ≡ Some (has set))) }
{
    if has_reversed_repeat(alloc, tree)? {
        return Ok(None);
    }
    match start_bytes(alloc, tree, unicode) {
        Ok(starts) => Ok(starts),
        Err(ClassError::InnerError(_)) => Ok(None),
        Err(ClassError::Memory) => Err(AllocError),
    }
}

/// Whether the least count of some repeat of the tree is above its greatest. The error is want of memory.
fn has_reversed_repeat(alloc: Global, tree: &Expr) -> Result<bool, AllocError>
    ensures { IfOk result (λ answer. answer ≡ has_reversed (tree_of tree.now)) }
{
    let nodes = tree.preorder(alloc)?;
    for node in &nodes {
        if is_reversed(*node) {
            return Ok(true);
        }
    }
    Ok(false)
}

/// Whether the node is a repeat whose least count is above its greatest.
fn is_reversed(node: &Expr) -> bool
    ensures { result ≡ is_reversed_tree (tree_of node.now) }
{
    match node {
        Expr::Repeat { lo, hi, .. } => hi < lo,
        _ => false,
    }
}
