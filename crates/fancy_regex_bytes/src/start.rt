//! The bytes that the matches of a pattern start with.

ghost use Rattle.std.specs.Prelude.{◌≡◌, ℕ, Bool, Some, map, option_map, IfOk, IfErr, IfSome};
ghost use Rattle.fancy_regex_tree.specs.Tree.{Tree, Text, tree_of, trees, ast_tree_of};
ghost use Rattle.fancy_regex_bytes.specs.ByteSets.{has, no_bytes};
ghost use Rattle.fancy_regex_bytes.specs.StartBytes as bytes;
ghost use Rattle.fancy_regex_bytes.specs.StartBytes.{start_set, either_set, if_known, StartBytesHold, is_keep_out as is_reset, has_keep_out as has_reset};
ghost use Rattle.fancy_regex_bytes.specs.StartErrors.{IsStartError, AreStartErrors};
ghost use Rattle.fancy_regex_bytes.specs.SkippableTrees.{is_skippable as is_skippable_tree, start_set_in, row_set_in, branches_set_in};

use crate::byte_set::ByteSet;
use crate::class_bytes::{
    add_class_starts, add_literal_starts, add_newline_starts, first_character,
};
use fancy_regex_class::ClassError;
use fancy_regex_info::{Size, group_call_sizes, size_in};
use fancy_regex_tree::{AstNode, Expr};
use std::alloc::{AllocError, Global};

/// The bytes that the matches of a pattern start with, from its tree. `None` if a match may be empty or may have its start
/// moved by `\K`, or if the bytes are not known; what is known is told node by node. Without `unicode` classes and case are
/// those of ASCII. The error is `InnerError` with the text of a class that `regex` rejects, or `Memory`.
pub fn start_bytes(alloc: Global, expr: &Expr, unicode: bool) -> Result<Option<ByteSet>, ClassError>
    ensures answer { IfOk result (λ set. option_map has set ≡ bytes.start_bytes unicode (tree_of expr.now)) }
    ensures law { IfOk result (λ found. IfSome found (λ set. StartBytesHold unicode (tree_of expr.now) (has set))) }
    ensures refused { IfErr result (IsStartError unicode (tree_of expr.now)) }
{
    let sizes = group_call_sizes(alloc, expr, false)?;
    if is_skippable(expr, &sizes) {
        return Ok(None);
    }
    if has_keep_out(alloc, expr)? {
        return Ok(None);
    }
    let walk = StartWalk {
        alloc,
        sizes: &sizes,
        unicode,
    };
    let mut set = ByteSet::empty();
    if add_start_set(walk, expr, &mut set)? {
        Ok(Some(set))
    } else {
        Ok(None)
    }
}

/// Whether the node may match the empty string: its size may be 0. `sizes` holds the sizes of subroutine calls.
fn is_skippable(expr: &Expr, sizes: &[Size]) -> bool
    ensures { result ≡ is_skippable_tree sizes.now (tree_of expr.now) }
{
    size_in(expr, sizes).least == 0
}

/// Whether the node is `\K`.
fn is_keep_out(node: &Expr) -> bool
    ensures { result ≡ is_reset (tree_of node.now) }
{
    matches!(node, Expr::KeepOut)
}

/// Whether some node of the tree is `\K`. Fails only if memory runs out.
fn has_keep_out(alloc: Global, expr: &Expr) -> Result<bool, AllocError>
    ensures { IfOk result (λ answer. answer ≡ has_reset (tree_of expr.now)) }
{
    let nodes = expr.preorder(alloc)?;
    for node in &nodes {
        if is_keep_out(*node) {
            return Ok(true);
        }
    }
    Ok(false)
}

/// What is the same at each node of a walk.
#[derive(Clone, Copy)]
struct StartWalk<'w> {
    alloc: Global,
    /// The sizes of subroutine calls, by group number.
    sizes: &'w [Size],
    /// Whether classes and case are those of Unicode.
    unicode: bool,
}

/// Adds the bytes that a match of the node may read first; a node that takes nothing reads none. False if they are not
/// known, as those of a node that is not named here; then some of them may have been added.
#[tactic(auto, unfolding(crate::specs::StartBytes::start_set))]
#[cycle(start)]
fn add_start_set(walk: StartWalk<'_>, expr: &Expr, set: &mut ByteSet) -> Result<bool, ClassError>
    ensures bytes { IfOk result (λ known. if_known known (has set.new)
        ≡ either_set (start_set_in walk.entry.unicode walk.entry.sizes.now (tree_of expr.now)) (Some (has set.old))) }
    ensures refused { IfErr result (IsStartError walk.entry.unicode (tree_of expr.now)) }
{
    match expr {
        Expr::Literal { val, casei } => {
            let first = first_character(val);
            add_literal_starts(first, *casei, walk.unicode, set);
            Ok(true)
        }
        Expr::Delegate { inner, casei } => {
            add_class_starts(walk.alloc, inner, *casei, walk.unicode, set)?;
            Ok(true)
        }
        Expr::GeneralNewline { unicode } => {
            add_newline_starts(*unicode, set);
            Ok(true)
        }
        Expr::Concat(parts) => add_start_set_of_row(walk, parts, set),
        Expr::Alt(branches) => add_start_set_of_branches(walk, branches, set),
        Expr::Group(child) | Expr::AtomicGroup(child) => add_start_set(walk, child, set),
        Expr::Repeat { hi: 0, .. } => Ok(true),
        Expr::Repeat { child, .. } => add_start_set(walk, child, set),
        Expr::Empty | Expr::Assertion(_) | Expr::LookAround(_, _) | Expr::KeepOut => Ok(true),
        Expr::ContinueFromPreviousMatchEnd | Expr::BackrefExistsCondition { .. } => Ok(true),
        Expr::BacktrackingControlVerb(_) | Expr::DefineGroup { .. } => Ok(true),
        Expr::AstNode(node, _) => Ok(is_unresolved_and_empty(node)),
        _ => Ok(false),
    }
}

/// Whether the unresolved node takes nothing: it is a group or a condition. The start bytes of a reference are not known.
#[tactic(auto, unfolding(crate::specs::StartBytes::start_set))]
fn is_unresolved_and_empty(node: &AstNode) -> bool
    ensures { (has_member : Text → Bool → ℕ → Bool) (fold : ℕ → ℕ) (is_skippable : Tree → Bool) (position : ℕ) →
        if_known result no_bytes ≡ start_set has_member fold is_skippable (ast_tree_of node.now position) }
{
    match node {
        AstNode::AstGroup { .. } | AstNode::BackrefExistsCondition { .. } => true,
        AstNode::Backref { .. } | AstNode::SubroutineCall(_) => false,
    }
}

/// Adds the bytes that a concatenation may read first: those of its parts, up to the first that is not skippable. False if
/// they are not known.
#[cycle(start)]
fn add_start_set_of_row(
    walk: StartWalk<'_>,
    parts: &[Expr],
    set: &mut ByteSet,
) -> Result<bool, ClassError>
    ensures bytes { IfOk result (λ known. if_known known (has set.new)
        ≡ either_set (row_set_in walk.entry.unicode walk.entry.sizes.now (trees (map tree_of parts.now))) (Some (has set.old))) }
    ensures refused { IfErr result (AreStartErrors walk.entry.unicode (trees (map tree_of parts.now))) }
{
    for part in parts {
        if !add_start_set(walk, part, set)? {
            return Ok(false);
        }
        if !is_skippable(part, walk.sizes) {
            return Ok(true);
        }
    }
    Ok(true)
}

/// Adds the bytes that an alternation may read first: those of all its branches. False if they are not known.
#[cycle(start)]
fn add_start_set_of_branches(
    walk: StartWalk<'_>,
    branches: &[Expr],
    set: &mut ByteSet,
) -> Result<bool, ClassError>
    ensures bytes { IfOk result (λ known. if_known known (has set.new)
        ≡ either_set (branches_set_in walk.entry.unicode walk.entry.sizes.now (trees (map tree_of branches.now))) (Some (has set.old))) }
    ensures refused { IfErr result (AreStartErrors walk.entry.unicode (trees (map tree_of branches.now))) }
{
    for branch in branches {
        if !add_start_set(walk, branch, set)? {
            return Ok(false);
        }
    }
    Ok(true)
}
