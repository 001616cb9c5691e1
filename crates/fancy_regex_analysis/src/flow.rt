//! How a match goes through a node: through all of its children, through one of them, or otherwise.

ghost use Rattle.fancy_regex_tree.specs.Tree.{tree_of};
ghost use Rattle.fancy_regex_analysis.specs.Flows.{IsFlowOf};

use fancy_regex_tree::Expr;

/// How a match goes through a node, as far as the calls in it matter.
#[derive(Clone, Copy, Debug)]
pub(crate) enum Flow<'t> {
    /// A subroutine call: through the body of the group with this number.
    Call(usize),
    /// A concatenation: through all items, in order.
    Row(&'t [Expr]),
    /// An alternation: through one of the branches.
    Branches(&'t [Expr]),
    /// A quantified node: through the child, from `lo` to `hi` times.
    Repeat {
        /// The node that is quantified.
        child: &'t Expr,
        /// How often it is matched at least.
        lo: usize,
        /// How often it is matched at most; `usize::MAX` means unbounded.
        hi: usize,
    },
    /// A conditional: through the condition and the true branch, or through the false branch.
    Conditional {
        /// What is tried first.
        condition: &'t Expr,
        /// What follows a match of the condition.
        true_branch: &'t Expr,
        /// What is matched where the condition has no match.
        false_branch: &'t Expr,
    },
    /// Definitions: through nothing, where they stand.
    Definitions,
    /// Any other node: through each child, from the position of the node on. A leaf has none.
    Children,
}

/// How a match goes through the node.
pub(crate) fn flow_of(node: &Expr) -> Flow<'_>
    ensures { IsFlowOf result (tree_of node.now) }
{
    match node {
        Expr::SubroutineCall(group) => Flow::Call(*group),
        Expr::Concat(parts) => Flow::Row(parts),
        Expr::Alt(branches) => Flow::Branches(branches),
        Expr::Repeat { child, lo, hi, .. } => Flow::Repeat {
            child,
            lo: *lo,
            hi: *hi,
        },
        Expr::Conditional {
            condition,
            true_branch,
            false_branch,
        } => Flow::Conditional {
            condition,
            true_branch,
            false_branch,
        },
        Expr::DefineGroup { .. } => Flow::Definitions,
        _ => Flow::Children,
    }
}
