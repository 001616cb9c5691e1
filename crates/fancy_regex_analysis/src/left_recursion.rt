//! Left recursion: groups that can call themselves before any character is matched.

ghost use Rattle.std.specs.Prelude.{◌≡◌, ℕ, ◌<◌, ◌⊎◌, ◌++◌, length, map, IfOk, IfErr, IfSome, IfNone, true, false};
ghost use Rattle.std.specs.List.{flat_map};
ghost use Rattle.fancy_regex_tree.specs.Tree.{tree_of, trees};
ghost use Rattle.fancy_regex_tree.specs.Traversal.{subtrees};
ghost use Rattle.fancy_regex_meaning.specs.Sizes.{size_with};
ghost use Rattle.fancy_regex_analysis.specs.NodeErrors.{is_memory};
ghost use Rattle.fancy_regex_info.specs.Reachability.{rows};
ghost use Rattle.fancy_regex_info.specs.SizeFixpoint.{is_on_cycle};
ghost use Rattle.fancy_regex_analysis.specs.LeftRecursion.{first_calls, first_calls_in_row};
ghost use Rattle.fancy_regex_info.specs.AnalysisRelations.{mark_at};
ghost use Rattle.fancy_regex_info.specs.Views.{size_at, body_tree};

use crate::flow::{Flow, flow_of};
use fancy_regex_info::{CompileError, Size, recursive_groups, size_in};
use fancy_regex_tree::Expr;
use std::alloc::{AllocError, Global};

/// Refuses a pattern with a group that can call itself before any character is matched, with
/// `LeftRecursiveSubroutineCall`. `groups` holds the bodies of the groups and `sizes` the sizes of calls, by group
/// number. The other error is `Memory`.
pub(crate) fn check_left_recursion(
    alloc: Global,
    groups: &[&Expr],
    sizes: &[Size],
) -> Result<(), CompileError>
    ensures refused { IfErr result (λ e. (is_memory e ≡ true) ⊎ ((k : ℕ) × (e ≡ CompileError.LeftRecursiveSubroutineCall k)
        × (is_on_cycle (map (first_calls (size_with (size_at sizes.now))) (map body_tree groups.now)) k ≡ true))) }
    ensures complete { IfOk result (λ _. (k : ℕ) → k < length groups.now →
        is_on_cycle (map (first_calls (size_with (size_at sizes.now))) (map body_tree groups.now)) k ≡ false) }
{
    let calls = first_calls_by_group(alloc, groups, sizes)?;
    let recursive = recursive_groups(alloc, &calls)?;
    match first_marked(&recursive) {
        Some(group) => Err(CompileError::LeftRecursiveSubroutineCall(group)),
        None => Ok(()),
    }
}

/// The least group number that is marked, if any is.
fn first_marked(marks: &[bool]) -> Option<usize>
    ensures found { IfSome result (λ k. mark_at marks.now k ≡ true) }
    ensures none { IfNone result ((k : ℕ) → mark_at marks.now k ≡ false) }
{
    for (group, is_marked) in marks.iter().enumerate() {
        if *is_marked {
            return Some(group);
        }
    }
    None
}

/// For each group, the groups that its body can call before any character is matched.
fn first_calls_by_group(
    alloc: Global,
    groups: &[&Expr],
    sizes: &[Size],
) -> Result<Vec<Vec<usize>>, AllocError>
    ensures { IfOk result (λ all. rows all.items ≡ map (first_calls (size_with (size_at sizes.now))) (map body_tree groups.now)) }
{
    let mut all = Vec::new(alloc);
    for body in groups {
        let mut calls = Vec::new(alloc);
        add_first_calls(body, sizes, &mut calls)?;
        all.push(calls)?;
    }
    Ok(all)
}

/// Appends the groups of the calls that the node can reach before any character is matched, in pattern order: only nodes of
/// least size 0 come before such a call. A body quantified `{0}` and definitions are not matched where they stand, so none of
/// their calls is reached.
#[tactic(auto, unfolding(crate::specs::LeftRecursion::first_calls))]
#[cycle(starts)]
fn add_first_calls(expr: &Expr, sizes: &[Size], calls: &mut Vec<usize>) -> Result<(), AllocError>
    ensures { IfOk result (λ _. calls.new.items ≡ calls.old.items ++ first_calls (size_with (size_at sizes.now)) (tree_of expr.now)) }
{
    match flow_of(expr) {
        Flow::Call(group) => {
            calls.push(group)?;
            Ok(())
        }
        Flow::Row(parts) => add_row_starts(parts, sizes, calls),
        Flow::Repeat { hi: 0, .. } | Flow::Definitions => Ok(()),
        Flow::Repeat { child, .. } => add_first_calls(child, sizes, calls),
        Flow::Conditional {
            condition,
            true_branch,
            false_branch,
        } => {
            add_first_calls(condition, sizes, calls)?;
            if size_in(condition, sizes).least == 0 {
                add_first_calls(true_branch, sizes, calls)?;
            }
            add_first_calls(false_branch, sizes, calls)
        }
        Flow::Branches(_) | Flow::Children => add_child_starts(expr, sizes, calls),
    }
}

/// The calls of a concatenation, up to the first item of least size above 0.
#[cycle(starts)]
fn add_row_starts(parts: &[Expr], sizes: &[Size], calls: &mut Vec<usize>) -> Result<(), AllocError>
    ensures { IfOk result (λ _. calls.new.items ≡ calls.old.items
        ++ first_calls_in_row (size_with (size_at sizes.now)) (trees (map tree_of parts.now))) }
{
    for part in parts {
        add_first_calls(part, sizes, calls)?;
        if size_in(part, sizes).least > 0 {
            return Ok(());
        }
    }
    Ok(())
}

/// The calls of each child, where each stands at the start of the node.
#[cycle(starts)]
fn add_child_starts(node: &Expr, sizes: &[Size], calls: &mut Vec<usize>) -> Result<(), AllocError>
    ensures { IfOk result (λ _. calls.new.items ≡ calls.old.items
        ++ flat_map (first_calls (size_with (size_at sizes.now))) (subtrees (tree_of node.now))) }
{
    for child in node.subtrees_iter() {
        add_first_calls(child, sizes, calls)?;
    }
    Ok(())
}
