//! The analysis of a whole tree.

ghost use Rattle.std.specs.Prelude.{◌≡◌, map, IfOk};
ghost use Rattle.fancy_regex_tree.specs.Tree.{Tree, tree_of};
ghost use Rattle.fancy_regex_info.specs.Analysis.{analysis};
ghost use Rattle.fancy_regex_info.specs.Infos.{info_of};
ghost use Rattle.fancy_regex_info.specs.AnalysisRelations.{AreCallSizes};
ghost use Rattle.fancy_regex_info.specs.Views.{body_tree, pattern_in};

use crate::analyze_node::analyze_node;
use crate::bodies::groups_of;
use crate::info::Info;
use crate::options::AnalyzeContext;
use crate::references::referenced_groups;
use crate::size::Size;
use crate::tables::{call_sizes, calls_by_group, recursive_groups};
use fancy_regex_tree::Expr;
use std::alloc::{AllocError, Global};

/// The size of a call of each group of the tree, by group number. With `explicit` group 0 is the first group of the tree; without, group 0
/// is the whole tree. Fails only if memory runs out.
pub fn group_call_sizes(alloc: Global, expr: &Expr, explicit: bool) -> Result<Vec<Size>, AllocError>
    ensures { IfOk result (λ sizes. AreCallSizes (pattern_in explicit (tree_of expr.now)).groups sizes.items) }
{
    let groups = groups_of(alloc, expr, explicit)?;
    let calls = calls_by_group(alloc, &groups)?;
    let recursive = recursive_groups(alloc, &calls)?;
    call_sizes(alloc, expr, explicit, &recursive)
}

/// Analyzes the whole tree. `groups` holds the bodies of its groups and `sizes` the sizes of calls of them, both indexed by
/// group number. Fails only if memory runs out.
pub fn analyze_tree<'a>(
    alloc: Global,
    expr: &'a Expr,
    groups: &[&Expr],
    sizes: &[Size],
    context: AnalyzeContext,
) -> Result<Info<'a>, AllocError>
    requires bodies { map body_tree groups.now ≡ (pattern_in context.explicit_capture_group_0 (tree_of expr.now)).groups }
    requires known { AreCallSizes (map body_tree groups.now) sizes.now }
    ensures { IfOk result (λ info. info_of info ≡ analysis context.explicit_capture_group_0 (tree_of expr.now)) }
{
    let read = referenced_groups(alloc, expr, groups.len())?;
    let first = first_group(context.explicit_capture_group_0);
    analyze_node(alloc, expr, first, sizes, &read)
}

/// The number of the first capture group of the tree.
fn first_group(explicit: bool) -> usize
    ensures { (t : Tree) → result ≡ (pattern_in explicit t).first_group }
{
    if explicit { 0 } else { 1 }
}
