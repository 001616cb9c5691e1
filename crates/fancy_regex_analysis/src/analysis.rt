//! The analysis of a whole pattern: all checks, then the analysis of each node.

ghost use Rattle.std.specs.Prelude.{◌≡◌, ◌⊎◌, true, false, ◌||◌, ◌&&◌, map, Err, IfOk, IfErr};
ghost use Rattle.fancy_regex_tree.specs.Tree.{tree_of};
ghost use Rattle.fancy_regex_info.specs.Analysis.{analysis};
ghost use Rattle.fancy_regex_analysis.specs.AnalysisErrors.{ErrorHolds, is_root_refused, is_root_error, has_invalid_node, HasUnsupportedPart};
ghost use Rattle.fancy_regex_analysis.specs.TerminationFixpoint.{never_ends, is_never_ending};
ghost use Rattle.fancy_regex_info.specs.Infos.{info_of, properties_in};
ghost use Rattle.fancy_regex_analysis.specs.NodeErrors.{is_memory, has_reversed_repeat};
ghost use Rattle.fancy_regex_info.specs.declared.error.CompileError.{CompileError};
ghost use Rattle.fancy_regex_info.specs.declared.error.CompileError.TheVariants.{RepeatBoundsReversed};
ghost use Rattle.fancy_regex_info.specs.Views.{body_tree};

use crate::left_recursion::check_left_recursion;
use crate::nodes::{check_references, has_reversed_bounds};
use crate::termination::{can_end_in, ending_groups};
use crate::unsupported::check_emitted_parts;
use fancy_regex_info::{
    AnalyzeContext, CompileError, Info, add_calls, analyze_tree, group_call_sizes, groups_of,
};
use fancy_regex_tree::{Expr, ExprTree};
use std::alloc::Global;

/// The greatest weight of a whole pattern, in states.
const GREATEST_WEIGHT: u64 = 4_294_967_295;

/// Analyzes each node of the tree. Refused are patterns with reversed quantifier bounds, numbered references among named
/// groups, references to missing groups, unresolved nodes, never ending or left recursion, too great a weight, only empty
/// matches where these are excluded, variable look-behind, and unsupported features; every such pattern is refused, with
/// `RepeatBoundsReversed` if a quantifier's bounds are reversed, otherwise with any one of the errors that apply to it. The
/// other error is `Memory`. Recursion is as deep as the tree, which is at most 832 for a parsed one.
///
/// Where group 0 is an explicit group of the pattern, no span of the whole match is kept, so none can be compared with the
/// empty one: the caller must not ask for `find_not_empty` together with `explicit_capture_group_0`.
pub fn analyze<'a>(
    alloc: Global,
    tree: &'a ExprTree,
    context: AnalyzeContext,
) -> Result<Info<'a>, CompileError>
    requires { context.find_not_empty ≡ true → context.explicit_capture_group_0 ≡ false }
    ensures answer { IfOk result (λ info. info_of info ≡ analysis context.explicit_capture_group_0 (tree_of tree.now.expr)) }
    ensures refused { IfErr result (λ e. (is_memory e ≡ true) ⊎ ErrorHolds context tree.now.named_backref_only (tree_of tree.now.expr) e) }
    ensures reversed { has_reversed_repeat (tree_of tree.now.expr) ≡ true → result ≡ Err RepeatBoundsReversed }
    ensures complete { IfOk result (λ _. (e : CompileError)
        → ErrorHolds context tree.now.named_backref_only (tree_of tree.now.expr) e → ⊥) }
    ensures nodes { IfOk result (λ _. has_invalid_node context.explicit_capture_group_0 (tree_of tree.now.expr) ≡ false) }
    ensures parts { IfOk result (λ _. HasUnsupportedPart context.explicit_capture_group_0 (tree_of tree.now.expr) → ⊥) }
{
    if has_reversed_bounds(&tree.expr) {
        return Err(CompileError::RepeatBoundsReversed);
    }
    if tree.named_backref_only {
        return Err(CompileError::NamedBackrefOnly);
    }
    let groups = groups_of(alloc, &tree.expr, context.explicit_capture_group_0)?;
    check_references(alloc, &tree.expr, groups.len())?;
    check_termination(alloc, &tree.expr, &groups)?;
    let sizes = group_call_sizes(alloc, &tree.expr, context.explicit_capture_group_0)?;
    let info = analyze_tree(alloc, &tree.expr, &groups, &sizes, context)?;
    check_root(&info, context)?;
    check_left_recursion(alloc, &groups, &sizes)?;
    check_emitted_parts(alloc, &tree.expr, &groups, &sizes)?;
    Ok(info)
}

/// Refuses a pattern with subroutine calls in which every path calls again, with `NeverEndingRecursion`.
fn check_termination(alloc: Global, expr: &Expr, groups: &[&Expr]) -> Result<(), CompileError>
    ensures refused { IfErr result
        (λ e. (is_memory e || (never_ends (map body_tree groups.now) (tree_of expr.now) && is_never_ending e)) ≡ true) }
    ensures complete { IfOk result (λ _. never_ends (map body_tree groups.now) (tree_of expr.now) ≡ false) }
{
    let mut calls = Vec::new(alloc);
    add_calls(expr, &mut calls)?;
    if calls.is_empty() {
        return Ok(());
    }
    let ends = ending_groups(alloc, groups)?;
    if can_end_in(expr, &ends) {
        Ok(())
    } else {
        Err(CompileError::NeverEndingRecursion)
    }
}

/// Refuses a pattern above the weight limit (`PatternTooComplex`), and one with only empty matches where these are excluded
/// (`PatternCanNeverMatch`).
fn check_root(info: &Info, context: AnalyzeContext) -> Result<(), CompileError>
    ensures refused { IfErr result (λ e. is_root_error context.find_not_empty (properties_in (info_of info.now)) e ≡ true) }
    ensures complete { IfOk result (λ _. is_root_refused context.find_not_empty (properties_in (info_of info.now)) ≡ false) }
{
    if info.weight > GREATEST_WEIGHT - 2 {
        return Err(CompileError::PatternTooComplex);
    }
    if context.find_not_empty && info.const_size && info.min_size == 0 {
        return Err(CompileError::PatternCanNeverMatch);
    }
    Ok(())
}
