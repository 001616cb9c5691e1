//! Tables indexed by group number: which groups each body calls, which groups are recursive, and the sizes of calls, which
//! are found by fixpoint iteration.

ghost use Rattle.std.specs.Prelude.{◌≡◌, ℕ, ◌<◌, false, map, length, IfOk, IsTrue, slice_get, slice_index_or};
ghost use Rattle.fancy_regex_tree.specs.Tree.{tree_of};
ghost use Rattle.fancy_regex_meaning.specs.Sizes.{calls_in};
ghost use Rattle.fancy_regex_info.specs.Reachability.{rows};
ghost use Rattle.fancy_regex_info.specs.SizeFixpoint.{is_on_cycle, size_when, next_size, iterated_size};
ghost use Rattle.fancy_regex_info.specs.BodySizes.{called, from_last};
ghost use Rattle.fancy_regex_info.specs.AnalysisRelations.{mark_at};
ghost use Rattle.fancy_regex_info.specs.Views.{size_of as meant, size_at, body_tree, pattern_in};

use crate::bodies::add_calls;
use crate::body_sizes::add_body_sizes;
use crate::reachability::reachable;
use crate::size::{Size, endless, size_at_place};
use fancy_regex_tree::Expr;
use std::alloc::{AllocError, Global};

/// For each group, the groups that its body calls. Fails only if memory runs out.
pub(crate) fn calls_by_group(alloc: Global, groups: &[&Expr]) -> Result<Vec<Vec<usize>>, AllocError>
    ensures { IfOk result (λ all. rows all.items ≡ map calls_in (map body_tree groups.now)) }
{
    let mut all = Vec::new(alloc);
    for body in groups {
        let mut calls = Vec::new(alloc);
        add_calls(body, &mut calls)?;
        all.push(calls)?;
    }
    Ok(all)
}

/// For each group, whether it can call itself, directly or through others, where `calls[k]` are the groups that group `k`
/// calls. Fails only if memory runs out.
pub fn recursive_groups(alloc: Global, calls: &[Vec<usize>]) -> Result<Vec<bool>, AllocError>
    ensures length { IfOk result (λ all. length all.items ≡ length calls.now) }
    ensures marks { IfOk result (λ all. (k : ℕ) → k < length calls.now
        → slice_index_or all.items k false ≡ is_on_cycle (rows calls.now) k) }
{
    let mut all = Vec::new(alloc);
    for group in 0..calls.len() {
        all.push(is_recursive(alloc, calls, group)?)?;
    }
    Ok(all)
}

/// Whether the group can call itself, directly or through others.
fn is_recursive(alloc: Global, calls: &[Vec<usize>], group: usize) -> Result<bool, AllocError>
    requires { group < length calls.now }
    ensures { IfOk result (λ is. is ≡ is_on_cycle (rows calls.now) group) }
{
    let starts = calls[group].as_slice();
    if starts.is_empty() {
        return Ok(false);
    }
    let seen = reachable(alloc, calls, starts)?;
    Ok(is_marked(&seen, group))
}

/// Whether the group is marked; false for numbers past the table.
pub(crate) fn is_marked(marks: &[bool], group: usize) -> bool
    ensures { result ≡ mark_at marks.now group }
{
    match marks.get(group) {
        Some(is_marked) => *is_marked,
        None => false,
    }
}

/// The size of a call of each group of the tree, by group number, where `recursive` tells of each whether it can call itself. With
/// `explicit` group 0 is the first group of the tree; without, group 0 is the whole tree. Each iteration follows calls one level deeper;
/// it stops as soon as an iteration changes nothing, after as many iterations as there are groups at most. The error is want of memory.
pub(crate) fn call_sizes(
    alloc: Global,
    expr: &Expr,
    explicit: bool,
    recursive: &[bool],
) -> Result<Vec<Size>, AllocError>
    requires { length recursive.now ≡ length (pattern_in explicit (tree_of expr.now)).groups }
    ensures { IfOk result (λ sizes. (k : ℕ) → size_at sizes.items k
        ≡ iterated_size (pattern_in explicit (tree_of expr.now)).groups recursive.now (length recursive.now) k) }
{
    let mut sizes = vec![in alloc; endless(); recursive.len()]?;
    for _iteration in 0..recursive.len() {
        let next = next_sizes(alloc, expr, explicit, recursive, &sizes)?;
        if are_same(&next, &sizes) {
            return Ok(sizes);
        }
        sizes = next;
    }
    Ok(sizes)
}

/// One iteration: the sizes with calls followed one level deeper, found in one walk over the tree. The error is want of memory.
fn next_sizes(
    alloc: Global,
    expr: &Expr,
    explicit: bool,
    recursive: &[bool],
    sizes: &[Size],
) -> Result<Vec<Size>, AllocError>
    ensures { IfOk result (λ next. (k : ℕ) → size_at next.items k
        ≡ next_size (pattern_in explicit (tree_of expr.now)).groups recursive.now (size_at sizes.now) k) }
{
    let mut bodies = Vec::new(alloc);
    let whole = add_body_sizes(expr, sizes, &mut bodies)?;
    if !explicit {
        bodies.push(whole)?;
    }
    called_sizes(alloc, &bodies, recursive)
}

/// The size of a call of each group, from the sizes of the bodies, that of the last group first. The error is want of memory.
fn called_sizes(alloc: Global, bodies: &[Size], recursive: &[bool]) -> Result<Vec<Size>, AllocError>
    ensures { IfOk result (λ sizes. (k : ℕ) → size_at sizes.items k
        ≡ called (mark_at recursive.now k) (slice_get (from_last bodies.now) k)) }
{
    let mut sizes = Vec::new(alloc);
    for group in 0..bodies.len() {
        let body = size_at_place(bodies, bodies.len() - 1 - group);
        let size = called_size(body, is_marked(recursive, group));
        sizes.push(size)?;
    }
    Ok(sizes)
}

/// The size of a call, from the size of the body: a recursive group has no upper bound.
fn called_size(body: Size, is_recursive: bool) -> Size
    ensures { meant result ≡ size_when is_recursive (meant body) }
{
    if is_recursive {
        Size {
            least: body.least,
            greatest: usize::MAX,
            always: false,
        }
    } else {
        body
    }
}

/// Whether the two tables are equal.
fn are_same(a: &[Size], b: &[Size]) -> bool
    ensures { IsTrue result → a.now ≡ b.now }
{
    if a.len() != b.len() {
        return false;
    }
    for i in 0..a.len() {
        if a[i] != b[i] {
            return false;
        }
    }
    true
}
