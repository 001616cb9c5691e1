//! The capture groups that back references and conditions name.

ghost use Rattle.std.specs.Prelude.{◌≡◌, ℕ, ◌++◌, IfOk};
ghost use Rattle.fancy_regex_tree.specs.Tree.{tree_of};
ghost use Rattle.fancy_regex_tree.specs.ReferenceSummary.{back_group};
ghost use Rattle.fancy_regex_info.specs.References.{references_in, is_read};
ghost use Rattle.fancy_regex_info.specs.AnalysisRelations.{mark_at};

use fancy_regex_tree::Expr;
use std::alloc::{AllocError, Global};

/// Marks, for each of `groups` groups, whether a back reference or condition of the tree names it. Fails only if memory
/// runs out.
pub(crate) fn referenced_groups(
    alloc: Global,
    expr: &Expr,
    groups: usize,
) -> Result<Vec<bool>, AllocError>
    ensures { IfOk result (λ read. (k : ℕ) → mark_at read.items k ≡ is_read groups (tree_of expr.now) k) }
{
    let mut named = Vec::new(alloc);
    add_references(expr, &mut named)?;
    let mut read = vec![in alloc; false; groups]?;
    for group in &named {
        if *group < read.len() {
            read[*group] = true;
        }
    }
    Ok(read)
}

/// Appends the group number of each back reference and condition of the tree, in pattern order.
pub(crate) fn add_references(expr: &Expr, references: &mut Vec<usize>) -> Result<(), AllocError>
    ensures { IfOk result (λ _. references.new.items ≡ references.old.items ++ references_in (tree_of expr.now)) }
{
    let nodes = expr.preorder(*references.allocator())?;
    for node in &nodes {
        if let Some(group) = back_group(*node) {
            references.push(group)?;
        }
    }
    Ok(())
}

/// The group number that the node names, if it is a back reference or condition.
fn back_group(node: &Expr) -> Option<usize>
    ensures { result ≡ back_group (tree_of node.now) }
{
    match node {
        Expr::Backref { group, .. }
        | Expr::BackrefWithRelativeRecursionLevel { group, .. }
        | Expr::BackrefExistsCondition { group, .. } => Some(*group),
        _ => None,
    }
}
