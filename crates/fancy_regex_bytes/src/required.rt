//! The bytes that every haystack has in which a pattern matches.

ghost use Rattle.std.specs.Prelude.{◌≡◌, ◌||◌, ℕ, map};
ghost use Rattle.fancy_regex_tree.specs.Tree.{tree_of, trees};
ghost use Rattle.fancy_regex_bytes.specs.ByteSets.{has};
ghost use Rattle.fancy_regex_bytes.specs.RequiredBytes as bytes;
ghost use Rattle.fancy_regex_bytes.specs.RequiredBytes.{required_in_row, required_in_branches, RequiredBytesHold};

use crate::byte_set::ByteSet;
use crate::class_bytes::{add_character, first_character};
use fancy_regex_tree::Expr;

/// Bytes that every haystack has in which the pattern matches, from its tree. Allocates nothing; recursion is as deep as the
/// tree.
pub fn required_bytes(expr: &Expr) -> ByteSet
    ensures answer { has result ≡ bytes.required_bytes (tree_of expr.now) }
    ensures law { RequiredBytesHold (tree_of expr.now) (has result) }
{
    let mut set = ByteSet::empty();
    add_required(expr, &mut set);
    set
}

/// Adds the bytes that every match of the node reads, as far as they are known.
#[tactic(auto, unfolding(crate::specs::RequiredBytes::required_bytes))]
#[cycle(required)]
fn add_required(expr: &Expr, set: &mut ByteSet)
    ensures { (b : ℕ) → has set.new b ≡ (bytes.required_bytes (tree_of expr.now) b || has set.old b) }
{
    match expr {
        Expr::Literal { val, casei: false } => add_character(first_character(val), set),
        Expr::Concat(parts) => add_required_in_row(parts, set),
        Expr::Alt(branches) => set.add_all(&required_in_branches(branches)),
        Expr::Group(child) | Expr::AtomicGroup(child) => add_required(child, set),
        Expr::Repeat { lo: 0, .. } => {}
        Expr::Repeat { child, .. } => add_required(child, set),
        _ => {}
    }
}

/// Adds the bytes of all parts.
#[cycle(required)]
fn add_required_in_row(parts: &[Expr], set: &mut ByteSet)
    ensures { (b : ℕ) → has set.new b ≡ (required_in_row (trees (map tree_of parts.now)) b || has set.old b) }
{
    for part in parts {
        add_required(part, set);
    }
}

/// The bytes that all branches have in common; none without a branch.
#[cycle(required)]
fn required_in_branches(branches: &[Expr]) -> ByteSet
    ensures { (b : ℕ) → has result b ≡ required_in_branches (trees (map tree_of branches.now)) b }
{
    let mut common = ByteSet::empty();
    if branches.is_empty() {
        return common;
    }
    let last = branches.len() - 1;
    add_required(&branches[last], &mut common);
    for i in (0..last).rev() {
        let mut branch = ByteSet::empty();
        add_required(&branches[i], &mut branch);
        common = branch.intersection(&common);
    }
    common
}
