//! The end of a whole pattern: the parts of its concatenation that a search in linear time may take over.

ghost use Rattle.std.specs.Prelude.{◌≡◌, IfOk};
ghost use Rattle.fancy_regex_tree.specs.Tree.{tree_of, concat};
ghost use Rattle.fancy_regex_info.specs.Infos.{info_of};
ghost use Rattle.fancy_regex_desugar.specs.Delegates as delegates;
ghost use Rattle.fancy_regex_compiler.specs.Known.{is_plain_info};
ghost use Rattle.fancy_regex_compiler.specs.Tails.{IsPlainFrom, SplitsRow, row_trees};

use crate::parts::choice_nodes;
use fancy_regex_info::Info;
use fancy_regex_tree::Expr;
use std::alloc::{AllocError, Global};

/// Where the tail of the row may begin: of the last parts, which are all plain, at the first whose matches may be many. The error is
/// want of memory.
pub(crate) fn tail_from(alloc: Global, parts: &[Info<'_>]) -> Result<usize, AllocError>
    ensures { IfOk result (λ first. SplitsRow parts.now first) }
{
    let mut first = plain_from(parts);
    while first < parts.len() {
        if may_explode(alloc, parts[first].expr)? {
            return Ok(first);
        }
        first += 1;
    }
    Ok(first)
}

/// Where the longest end of the row begins whose parts are all plain.
fn plain_from(parts: &[Info<'_>]) -> usize
    ensures { IsPlainFrom parts.now result }
{
    let mut first = parts.len();
    while first > 0 && is_plain(&parts[first - 1]) {
        first -= 1;
    }
    first
}

/// Whether the analysis says that the part is easy and has no capture group.
fn is_plain(info: &Info<'_>) -> bool
    ensures { result ≡ is_plain_info (info_of info.now) }
{
    !info.hard && info.start_group() == info.end_group()
}

/// The concatenation of these parts. The error is want of memory.
pub(crate) fn row_tree(alloc: Global, parts: &[Info<'_>]) -> Result<Expr, AllocError>
    ensures { IfOk result (λ row. tree_of row ≡ concat (row_trees parts.now)) }
{
    let mut children = Vec::new(alloc);
    for part in parts {
        children.push(part.expr.try_clone(alloc)?)?;
    }
    Ok(Expr::Concat(children))
}

/// Whether a repetition in the tree has choices in it, so that there may be many more ways than the text is long. The error is want of
/// memory.
#[tactic(auto, unfolding(fancy_regex_desugar::specs::Delegates::may_explode))]
fn may_explode(alloc: Global, tree: &Expr) -> Result<bool, AllocError>
    ensures { IfOk result (λ answer. answer ≡ delegates.may_explode (tree_of tree.now)) }
{
    let nodes = tree.preorder(alloc)?;
    for node in &nodes {
        if repeats_choices(alloc, *node)? {
            return Ok(true);
        }
    }
    Ok(false)
}

/// Whether the node is a repetition of a body that offers a choice each time. The error is want of memory.
fn repeats_choices(alloc: Global, node: &Expr) -> Result<bool, AllocError>
    ensures { IfOk result (λ answer. answer ≡ delegates.repeats_choices (tree_of node.now)) }
{
    match node {
        Expr::Repeat { child, hi, .. } if *hi >= 2 => {
            let nodes = child.preorder(alloc)?;
            Ok(choice_nodes(&nodes) >= 1)
        }
        _ => Ok(false),
    }
}
