//! Sizes: how many characters the matches of a node have.

ghost use Rattle.std.specs.Prelude.{◌≡◌, ℕ, map};
ghost use Rattle.fancy_regex_tree.specs.Tree.{tree_of, trees, absent_tree_of, ast_tree_of};
ghost use Rattle.fancy_regex_meaning.specs.Sizes as sizes;
ghost use Rattle.fancy_regex_meaning.specs.Sizes.{size_with, concat_size, alternation_size};
ghost use Rattle.fancy_regex_info.specs.Views.{size_of as meant, size_at, newline_size};

use fancy_regex_tree::{Absent, AstNode, Expr};

/// Bounds on the number of characters that a match of a node has.
#[derive(Clone, Copy, Debug, PartialEq, Eq)]
pub struct Size {
    /// The lower bound; saturates at `usize::MAX`.
    pub least: usize,
    /// The upper bound; `usize::MAX` means unbounded.
    pub greatest: usize,
    /// All matches have the same number of characters.
    pub always: bool,
}

/// Exactly `count` characters.
pub(crate) fn always(count: usize) -> Size
    ensures { meant result ≡ sizes.always_size count }
{
    Size {
        least: count,
        greatest: count,
        always: true,
    }
}

/// Any number of characters.
pub(crate) fn any_size() -> Size
    ensures { meant result ≡ sizes.any_size }
{
    Size {
        least: 0,
        greatest: usize::MAX,
        always: false,
    }
}

/// The size of a recursion that never ends: no match, so the lower bound is the greatest number.
pub(crate) fn endless() -> Size
    ensures { meant result ≡ sizes.endless_size }
{
    Size {
        least: usize::MAX,
        greatest: usize::MAX,
        always: false,
    }
}

/// The size of `\R`: one character, or two for CRLF.
pub(crate) fn one_or_two() -> Size
    ensures { meant result ≡ newline_size }
{
    Size {
        least: 1,
        greatest: 2,
        always: false,
    }
}

/// The size of a concatenation of two nodes.
pub(crate) fn both(a: Size, b: Size) -> Size
    ensures { meant result ≡ sizes.both_sizes (meant a) (meant b) }
{
    Size {
        least: a.least.saturating_add(b.least),
        greatest: a.greatest.saturating_add(b.greatest),
        always: a.always && b.always,
    }
}

/// The size of an alternation of two nodes.
pub(crate) fn either(a: Size, b: Size) -> Size
    ensures { meant result ≡ sizes.either_size (meant a) (meant b) }
{
    Size {
        least: a.least.min(b.least),
        greatest: a.greatest.max(b.greatest),
        always: a.always && b.always && a.least == b.least,
    }
}

/// The size of a node that is quantified from `lo` to `hi` times.
pub(crate) fn repeated(a: Size, lo: usize, hi: usize) -> Size
    ensures { meant result ≡ sizes.repeated_size (meant a) lo hi }
{
    Size {
        least: lo.saturating_mul(a.least),
        greatest: hi.saturating_mul(a.greatest),
        always: a.always && (lo == hi || a.least == 0),
    }
}

/// The size of a subroutine call of the group; any number of characters if there is no such group.
pub(crate) fn size_of_call(calls: &[Size], group: usize) -> Size
    ensures { meant result ≡ size_at calls.now group }
{
    size_at_place(calls, group)
}

/// The size at this place of the table; any number of characters past its end.
pub(crate) fn size_at_place(sizes: &[Size], place: usize) -> Size
    ensures { meant result ≡ size_at sizes.now place }
{
    match sizes.get(place) {
        Some(size) => *size,
        None => any_size(),
    }
}

/// The size of the tree, given the size of a call of each group, by group number.
#[tactic(auto, unfolding(fancy_regex_meaning::specs::Sizes::size_with))]
#[cycle(size)]
pub fn size_in(expr: &Expr, calls: &[Size]) -> Size
    ensures { meant result ≡ size_with (size_at calls.now) (tree_of expr.now) }
{
    match expr {
        Expr::Any { .. } | Expr::Literal { .. } | Expr::LiteralBytes { .. } => always(1),
        Expr::Delegate { .. } => always(1),
        Expr::GeneralNewline { .. } => one_or_two(),
        Expr::Concat(parts) => size_in_row(parts, calls),
        Expr::Alt(branches) => size_in_branches(branches, calls),
        Expr::Group(child) | Expr::AtomicGroup(child) => size_in(child, calls),
        Expr::Repeat { child, lo, hi, .. } => repeated(size_in(child, calls), *lo, *hi),
        Expr::Conditional {
            condition,
            true_branch,
            false_branch,
        } => either(
            both(size_in(condition, calls), size_in(true_branch, calls)),
            size_in(false_branch, calls),
        ),
        Expr::SubroutineCall(group) => size_of_call(calls, *group),
        Expr::Backref { .. } | Expr::BackrefWithRelativeRecursionLevel { .. } => any_size(),
        Expr::Absent(absent) => size_of_absent(absent),
        Expr::AstNode(node, _) => size_of_unresolved(node),
        Expr::Empty | Expr::Assertion(_) | Expr::LookAround(_, _) | Expr::KeepOut => always(0),
        Expr::ContinueFromPreviousMatchEnd | Expr::BackrefExistsCondition { .. } => always(0),
        Expr::BacktrackingControlVerb(_) | Expr::DefineGroup { .. } => always(0),
    }
}

/// The size of an absent operator: any number of characters.
#[tactic(auto, unfolding(fancy_regex_meaning::specs::Sizes::size_with))]
pub(crate) fn size_of_absent(absent: &Absent) -> Size
    ensures { (call : ℕ → sizes.Size) → meant result ≡ size_with call (absent_tree_of absent.now) }
{
    match absent {
        Absent::Repeater(_) | Absent::Expression { .. } | Absent::Stopper(_) | Absent::Clear => {
            any_size()
        }
    }
}

#[tactic(auto, unfolding(fancy_regex_meaning::specs::Sizes::size_with))]
pub(crate) fn size_of_unresolved(node: &AstNode) -> Size
    ensures { (call : ℕ → sizes.Size) (position : ℕ) → meant result ≡ size_with call (ast_tree_of node.now position) }
{
    match node {
        AstNode::Backref { .. } | AstNode::SubroutineCall(_) => any_size(),
        AstNode::AstGroup { .. } | AstNode::BackrefExistsCondition { .. } => always(0),
    }
}

#[cycle(size)]
fn size_in_row(parts: &[Expr], calls: &[Size]) -> Size
    ensures { meant result ≡ concat_size (size_at calls.now) (trees (map tree_of parts.now)) }
{
    let mut size = always(0);
    for i in (0..parts.len()).rev() {
        size = both(size_in(&parts[i], calls), size);
    }
    size
}

/// The size of an alternation; without a branch it is 0.
#[cycle(size)]
fn size_in_branches(branches: &[Expr], calls: &[Size]) -> Size
    ensures { meant result ≡ alternation_size (size_at calls.now) (trees (map tree_of branches.now)) }
{
    if branches.is_empty() {
        return always(0);
    }
    let last = branches.len() - 1;
    let mut size = size_in(&branches[last], calls);
    for i in (0..last).rev() {
        size = either(size_in(&branches[i], calls), size);
    }
    size
}
