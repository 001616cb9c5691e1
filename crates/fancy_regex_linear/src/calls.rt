//! Calls of groups that are written out in place: how deep they may nest, and which groups are called at which depth.

ghost use Rattle.std.specs.Prelude.{◌≡◌, ◌<◌, ◌⊎◌, ℕ, true, map, length, IfOk};
ghost use Rattle.fancy_regex_tree.specs.Tree.{tree_of};
ghost use Rattle.fancy_regex_info.specs.AnalysisRelations.{mark_at};
ghost use Rattle.fancy_regex_info.specs.Views.{body_tree};
ghost use Rattle.fancy_regex_linear.specs.Calls.{greatest_nesting as greatest_nesting_is};
ghost use Rattle.fancy_regex_linear.specs.CallMarks.{KeepsMarks, AllMarked, RowMarked, FollowsMarks, IsCalledFrom, AreLevels};
ghost use Rattle.fancy_regex_linear.specs.CalledClasses.{HasCall, RowHasCall};
ghost use Rattle.fancy_regex_linear.specs.Translation.{all_trees};

use crate::build::is_never_repeated;
use fancy_regex_tree::Expr;
use std::alloc::{AllocError, Global};

/// Calls nest at most so deep.
const GREATEST_NESTING: usize = 18;

/// How deep calls may nest where there are so many groups.
pub fn greatest_nesting(groups: usize) -> usize
    ensures { result ≡ greatest_nesting_is groups }
{
    groups.min(GREATEST_NESTING)
}

/// Whether the group is marked; a group past the table is not.
pub fn is_set(marks: &[bool], group: usize) -> bool
    ensures { result ≡ mark_at marks.now group }
{
    match marks.get(group) {
        Some(is_marked) => *is_marked,
        None => false,
    }
}

/// Marks the groups that are called from a tree, but not those that are called from definitions and from what is repeated no times.
#[cycle(mark)]
pub fn mark_calls(expr: &Expr, marks: &mut [bool])
    ensures kept { KeepsMarks marks.old marks.new }
    ensures all { AllMarked marks.new (tree_of expr.now) }
    ensures only { (j : ℕ) → mark_at marks.new j ≡ true → (mark_at marks.old j ≡ true) ⊎ HasCall j (tree_of expr.now) }
{
    match expr {
        Expr::Concat(children) => mark_calls_of(children, marks),
        Expr::Alt(children) => mark_calls_of(children, marks),
        Expr::Group(child) => mark_calls(child, marks),
        Expr::LookAround(child, _) => mark_calls(child, marks),
        Expr::AtomicGroup(child) => mark_calls(child, marks),
        Expr::Repeat { child, lo, hi, .. } => {
            if !is_never_repeated(*lo, *hi) {
                mark_calls(child, marks);
            }
        }
        Expr::Conditional {
            condition,
            true_branch,
            false_branch,
        } => {
            mark_calls(condition, marks);
            mark_calls(true_branch, marks);
            mark_calls(false_branch, marks);
        }
        Expr::SubroutineCall(group) => set_mark(*group, marks),
        _ => {}
    }
}

/// Marks the group, if it has a mark.
fn set_mark(group: usize, marks: &mut [bool])
    ensures kept { KeepsMarks marks.old marks.new }
    ensures all { group < length marks.new → mark_at marks.new group ≡ true }
    ensures only { (j : ℕ) → mark_at marks.new j ≡ true → (mark_at marks.old j ≡ true) ⊎ (group ≡ j) }
{
    if group < marks.len() {
        marks[group] = true;
    }
}

/// Marks the groups that are called from these trees.
#[cycle(mark)]
fn mark_calls_of(children: &[Expr], marks: &mut [bool])
    ensures kept { KeepsMarks marks.old marks.new }
    ensures all { RowMarked marks.new (all_trees children.now) }
    ensures only { (j : ℕ) → mark_at marks.new j ≡ true → (mark_at marks.old j ≡ true) ⊎ RowHasCall j (all_trees children.now) }
{
    for i in 0..children.len() {
        mark_calls(&children[i], marks);
    }
}

/// The groups that are called from the tree, those that are called from their bodies, and so on, as deep as calls may nest. The error is
/// want of memory.
pub fn called_by_depth(
    alloc: Global,
    expr: &Expr,
    bodies: &[&Expr],
) -> Result<Vec<Vec<bool>>, AllocError>
    ensures { IfOk result (λ tables.
        AreLevels (map body_tree bodies.now) (greatest_nesting_is (length bodies.now)) (tree_of expr.now) tables.items) }
{
    let mut first = vec![in alloc; false; bodies.len()]?;
    mark_calls(expr, &mut first);
    let mut all = Vec::new(alloc);
    all.push(first)?;
    for depth in 0..greatest_nesting(bodies.len()) {
        let next = called_from(alloc, bodies, &all[depth])?;
        all.push(next)?;
    }
    Ok(all)
}

/// The groups that are called from the bodies of the marked ones.
fn called_from(alloc: Global, bodies: &[&Expr], marks: &[bool]) -> Result<Vec<bool>, AllocError>
    ensures follows { IfOk result (λ next. FollowsMarks (map body_tree bodies.now) marks.now next.items) }
    ensures only { IfOk result (λ next. (j : ℕ) → mark_at next.items j ≡ true → IsCalledFrom (map body_tree bodies.now) marks.now j) }
{
    let mut next = vec![in alloc; false; bodies.len()]?;
    for group in 0..bodies.len() {
        let is_called = is_set(marks, group);
        mark_if(is_called, bodies[group], &mut next);
    }
    Ok(next)
}

/// Marks the groups that are called from the body of a group, if that is called itself.
fn mark_if(is_called: bool, body: &Expr, marks: &mut [bool])
    ensures kept { KeepsMarks marks.old marks.new }
    ensures all { is_called ≡ true → AllMarked marks.new (tree_of body.now) }
    ensures only { (j : ℕ) → mark_at marks.new j ≡ true
        → (mark_at marks.old j ≡ true) ⊎ ((is_called ≡ true) × HasCall j (tree_of body.now)) }
{
    if is_called {
        mark_calls(body, marks);
    }
}
