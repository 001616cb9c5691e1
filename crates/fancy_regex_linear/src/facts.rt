//! What is known of the nodes of an analyzed tree where calls of its groups are written out in place: whether they are regular then, and
//! how heavy. One walk over the tree finds it for all groups too, by what is known of calls that nest one level less deep.

ghost use Rattle.std.specs.Prelude.{◌≡◌, ◌++◌, ◌∷◌, [], List, ◌*◌, ◌-◌, map, min, length, IfOk, OnOk, IsTrue, ◌==◌, if◌then◌else◌};
ghost use Rattle.fancy_regex_tree.specs.Tree.{tree_of};
ghost use Rattle.fancy_regex_meaning.specs.Sizes.{unbounded};
ghost use Rattle.fancy_regex_info.specs.Infos.{infos, info_of, properties_in};
ghost use Rattle.fancy_regex_info.specs.PropertyRules.{finite_weight, loop_weight as loop_weight_is};
ghost use Rattle.fancy_regex_linear.specs.Calls.{greatest_nesting as greatest_nesting_is};
ghost use Rattle.fancy_regex_linear.specs.Facts.{callable_in, weight_in, nothing_known, no_parts as no_parts_is, with_part as with_part_is, is_group as is_group_is, regular_by, weight_by, facts_by, facts_in, row_facts, call_of, found_in, row_found, next_calls, calls_after};

use crate::build::is_never_repeated;
use crate::calls::greatest_nesting;
use fancy_regex_info::Info;
use fancy_regex_tree::{BacktrackingControlVerb, Expr};
use std::alloc::{AllocError, Global};

/// What is known of the calls of a group.
#[derive(Clone, Copy, PartialEq, Eq)]
pub struct CallFacts {
    /// Whether they can be written out.
    pub is_callable: bool,
    /// What each of them weighs; it stops at the greatest number of 64 bits.
    pub weight: u64,
}

/// What is known of a tree, or of trees in a row.
#[derive(Clone, Copy)]
pub struct TreeFacts {
    /// Whether each is regular, with its calls written out. `\K` may be in it, but not in a look-around.
    pub is_regular: bool,
    /// Whether each is regular and without `\K`, so that a match of it begins where its attempt does.
    pub keeps_start: bool,
    /// How much they weigh together, each call counted as is known of its group; it stops at the greatest number of 64 bits.
    pub weight: u64,
    /// The number of nodes on their longest path from a root.
    pub depth: u64,
    /// Whether each has a match without a character.
    pub may_be_empty: bool,
}

/// What is known of no trees.
fn no_parts() -> TreeFacts
    ensures { result ≡ no_parts_is }
{
    TreeFacts {
        is_regular: true,
        keeps_start: true,
        weight: 0,
        depth: 0,
        may_be_empty: true,
    }
}

/// What is known of trees in a row, with one more at the end.
fn with_part(parts: TreeFacts, part: TreeFacts) -> TreeFacts
    ensures { result ≡ with_part_is parts part }
{
    TreeFacts {
        is_regular: parts.is_regular && part.is_regular,
        keeps_start: parts.keeps_start && part.keeps_start,
        weight: parts.weight.saturating_add(part.weight),
        depth: parts.depth.max(part.depth),
        may_be_empty: parts.may_be_empty && part.may_be_empty,
    }
}

/// Whether calls of the group can be written out; not those of a group past the table.
fn is_callable(calls: &[CallFacts], group: usize) -> bool
    ensures { result ≡ callable_in calls.now group }
{
    match calls.get(group) {
        Some(facts) => facts.is_callable,
        None => false,
    }
}

/// The weight of a call of the group, by this table; 1 for a group past it.
fn weight_at(calls: &[CallFacts], group: usize) -> u64
    ensures { result ≡ weight_in calls.now group }
{
    match calls.get(group) {
        Some(facts) => facts.weight,
        None => 1,
    }
}

/// Whether the node is regular, where `\K` may reset the start or not, and where its children are so or not; those of a look-around have
/// to keep the start.
fn is_regular_by(
    expr: &Expr,
    resets: bool,
    parts: bool,
    keep_start: bool,
    calls: &[CallFacts],
) -> bool
    ensures { result ≡ regular_by calls.now resets (tree_of expr.now) parts keep_start }
{
    match expr {
        Expr::Empty | Expr::Any { .. } | Expr::Literal { .. } | Expr::Delegate { .. } => true,
        Expr::Assertion(_) | Expr::GeneralNewline { .. } | Expr::ContinueFromPreviousMatchEnd =>
            true,
        Expr::Concat(_) | Expr::Group(_) | Expr::AtomicGroup(_) => parts,
        Expr::Conditional { .. } => parts,
        Expr::LookAround(_, _) => keep_start,
        Expr::KeepOut => resets,
        Expr::Alt(children) => !children.is_empty() && parts,
        Expr::Repeat { lo, hi, .. } => is_never_repeated(*lo, *hi) || parts,
        Expr::DefineGroup { .. } => true,
        Expr::BacktrackingControlVerb(BacktrackingControlVerb::Fail) => true,
        Expr::SubroutineCall(group) => is_callable(calls, *group),
        _ => false,
    }
}

/// The weight of the node, by what is known of its children.
fn weight_of_node(expr: &Expr, parts: TreeFacts, calls: &[CallFacts]) -> u64
    ensures { result ≡ weight_by calls.now (tree_of expr.now) parts }
{
    match expr {
        Expr::Concat(_) => parts.weight.max(1),
        Expr::Alt(children) => parts.weight.saturating_add(gap_weight(children.len())),
        Expr::Group(_) => parts.weight.saturating_add(2),
        Expr::Repeat { lo, hi, .. } => {
            repeated_weight(*lo, *hi, parts.weight, parts.may_be_empty)
        }
        Expr::LookAround(_, _) | Expr::AtomicGroup(_) | Expr::Conditional { .. } => {
            parts.weight.saturating_add(1)
        }
        Expr::SubroutineCall(group) => weight_at(calls, *group),
        Expr::KeepOut => 3,
        _ => 1,
    }
}

/// What so many branches weigh beside their trees.
fn gap_weight(branches: usize) -> u64
    ensures { result ≡ min unbounded (3 * (branches - 1)) }
{
    3u64.saturating_mul(branches.saturating_sub(1) as u64)
}

/// The weight of a repeat of a body that weighs so much and may be empty, or not.
fn repeated_weight(lo: usize, hi: usize, body: u64, may_be_empty: bool) -> u64
    ensures { result ≡ (if hi == unbounded then loop_weight_is lo body may_be_empty else finite_weight lo hi body) }
{
    if hi == usize::MAX {
        return loop_weight(lo as u64, body, may_be_empty);
    }
    let optional = hi.saturating_sub(lo) as u64;
    let due = (lo as u64).saturating_mul(body);
    let rest = optional.saturating_mul(body.saturating_add(3));
    due.saturating_add(rest).max(1)
}

/// The weight of a repeat with no limit of such a body.
fn loop_weight(lo: u64, body: u64, may_be_empty: bool) -> u64
    ensures { result ≡ loop_weight_is lo body may_be_empty }
{
    if may_be_empty {
        lo.saturating_add(2).saturating_mul(body).saturating_add(4)
    } else {
        lo.max(1).saturating_mul(body).saturating_add(3)
    }
}

/// What is known of the node, by what is known of its children.
fn facts_of_node(
    expr: &Expr,
    may_be_empty: bool,
    parts: TreeFacts,
    calls: &[CallFacts],
) -> TreeFacts
    ensures { result ≡ facts_by calls.now (tree_of expr.now) may_be_empty parts }
{
    TreeFacts {
        is_regular: is_regular_by(expr, true, parts.is_regular, parts.keeps_start, calls),
        keeps_start: is_regular_by(expr, false, parts.keeps_start, parts.keeps_start, calls),
        weight: weight_of_node(expr, parts, calls),
        depth: parts.depth.saturating_add(1),
        may_be_empty,
    }
}

/// What is known of an analyzed tree, where this is known of the calls of each group.
#[cycle(facts)]
pub fn facts_of(info: &Info<'_>, calls: &[CallFacts]) -> TreeFacts
    ensures { result ≡ facts_in calls.now (info_of info.now) }
{
    let parts = facts_of_row(&info.children, calls);
    facts_of_node(info.expr, info.min_size == 0, parts, calls)
}

/// What is known of analyzed trees in a row.
#[cycle(facts)]
fn facts_of_row(children: &[Info<'_>], calls: &[CallFacts]) -> TreeFacts
    ensures { result ≡ row_facts calls.now no_parts_is (infos (map info_of children.now)) }
{
    let mut parts = no_parts();
    for child in children {
        let part = facts_of(child, calls);
        parts = with_part(parts, part);
    }
    parts
}

/// What is known of the calls of a group with this body: each weighs as much as the body, and twice its depth. They can be written out
/// where the body keeps the start.
///
/// A call nests the nodes of the body in those around it. Since the depth counts, what is written out is no deeper than the tree that is
/// read and half of what it weighs, however light the bodies are: functions that recur over its nodes need no more of the stack.
fn call_of_body(body: TreeFacts) -> CallFacts
    ensures { result ≡ call_of body }
{
    CallFacts {
        is_callable: body.keeps_start,
        weight: body.weight.saturating_add(body.depth.saturating_mul(2)),
    }
}

/// Whether the node is a capture group.
fn is_group(expr: &Expr) -> bool
    ensures { result ≡ is_group_is (tree_of expr.now) }
{
    matches!(expr, Expr::Group(_))
}

/// Makes room for what is known of a group's calls, if there is a group. The error is want of memory.
fn open(is_group: bool, found: &mut Vec<CallFacts>) -> Result<(), AllocError>
    ensures { OnOk result (found.new.items ≡ found.old.items ++ (if is_group then nothing_known ∷ [] else [])) }
{
    if is_group {
        found.push(CallFacts {
            is_callable: false,
            weight: 1,
        })?;
    }
    Ok(())
}

/// Writes what is known of a group's calls in the room that was made for it, if there is a group.
fn close(is_group: bool, place: usize, call: CallFacts, found: &mut Vec<CallFacts>)
    ensures { (before after : List CallFacts) → place ≡ length before
        → found.old.items ≡ before ++ (if is_group then nothing_known ∷ [] else []) ++ after
        → found.new.items ≡ before ++ (if is_group then call ∷ [] else []) ++ after }
{
    if is_group && place < found.len() {
        found[place] = call;
    }
}

/// What is known of an analyzed tree; what is then known of the calls of its groups is appended, in the order of their opening parentheses.
/// The error is want of memory.
#[cycle(add)]
fn add_calls(
    info: &Info<'_>,
    calls: &[CallFacts],
    found: &mut Vec<CallFacts>,
) -> Result<TreeFacts, AllocError>
    ensures facts { IfOk result (λ facts. facts ≡ facts_in calls.now (info_of info.now)) }
    ensures found { IfOk result (λ _. found.new.items ≡ found.old.items ++ found_in calls.now (info_of info.now)) }
{
    let place = found.len();
    let opens = is_group(info.expr);
    open(opens, found)?;
    let parts = add_row_calls(&info.children, calls, found)?;
    close(opens, place, call_of_body(parts), found);
    Ok(facts_of_node(info.expr, info.min_size == 0, parts, calls))
}

/// The same of analyzed trees in a row.
#[cycle(add)]
fn add_row_calls(
    children: &[Info<'_>],
    calls: &[CallFacts],
    found: &mut Vec<CallFacts>,
) -> Result<TreeFacts, AllocError>
    ensures facts { IfOk result (λ facts. facts ≡ row_facts calls.now no_parts_is (infos (map info_of children.now))) }
    ensures found { IfOk result (λ _. found.new.items ≡ found.old.items ++ row_found calls.now (infos (map info_of children.now))) }
{
    let mut parts = no_parts();
    for child in children {
        let part = add_calls(child, calls, found)?;
        parts = with_part(parts, part);
    }
    Ok(parts)
}

/// What is known of the calls of all groups, by what is known of the calls in their bodies. Group 0 is the whole tree, unless the groups
/// of the tree count from 0. The error is want of memory.
fn calls_by(
    alloc: Global,
    info: &Info<'_>,
    calls: &[CallFacts],
) -> Result<Vec<CallFacts>, AllocError>
    ensures { IfOk result (λ next. next.items ≡ next_calls (info_of info.now) calls.now) }
{
    let mut next = Vec::new(alloc);
    let whole = info.start_group() != 0;
    open(whole, &mut next)?;
    let facts = add_calls(info, calls, &mut next)?;
    close(whole, 0, call_of_body(facts), &mut next);
    Ok(next)
}

/// Whether the two tables are equal.
fn are_same(a: &[CallFacts], b: &[CallFacts]) -> bool
    ensures { IsTrue result → a.now ≡ b.now }
{
    if a.len() != b.len() {
        return false;
    }
    for i in 0..a.len() {
        if a[i] != b[i] {
            return false;
        }
    }
    true
}

/// What is known of the calls of all groups, where calls nest at most as deep as they may. It is found level by level, where calls nest one
/// deeper each; a level that changes nothing is the last. The error is want of memory.
pub fn known_calls(alloc: Global, info: &Info<'_>) -> Result<Vec<CallFacts>, AllocError>
    ensures { IfOk result (λ calls. calls.items
        ≡ calls_after (info_of info.now) (greatest_nesting_is (properties_in (info_of info.now)).end)) }
{
    let mut calls = Vec::new(alloc);
    for _depth in 0..greatest_nesting(info.end_group()) {
        let next = calls_by(alloc, info, &calls)?;
        if are_same(&next, &calls) {
            return Ok(calls);
        }
        calls = next;
    }
    Ok(calls)
}
