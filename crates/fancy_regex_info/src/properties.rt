//! The properties of each kind of node, computed from those of its children.

ghost use Rattle.std.specs.Prelude.{◌≡◌, map};
ghost use Rattle.fancy_regex_info.specs.PropertyRules as combined;
ghost use Rattle.fancy_regex_info.specs.Infos.{properties_of as meant, properties_in, info_of};
ghost use Rattle.fancy_regex_info.specs.Views.{size_of};

use crate::info::Info;
use crate::size::{Size, always, both, either, repeated};

/// The properties of a node that do not depend on where it is stored: size, weight, hardness, groups.
#[derive(Clone, Copy, Debug, PartialEq, Eq)]
pub(crate) struct NodeProperties {
    /// In characters.
    pub size: Size,
    /// In states of the state table; saturates at `u64::MAX`.
    pub weight: u64,
    /// Needs the backtracking VM; an easy node runs on the state table.
    pub hard: bool,
    /// The number of the next capture group before the node.
    pub start: usize,
    /// The number of the next capture group after the node.
    pub end: usize,
}

/// A node without children.
pub(crate) fn leaf(start: usize, size: Size, hard: bool) -> NodeProperties
    ensures { meant result ≡ combined.leaf start (size_of size) hard }
{
    NodeProperties {
        size,
        weight: 1,
        hard,
        start,
        end: start,
    }
}

/// The capture group number `start` with this body; `is_read` if a back reference or condition names it.
pub(crate) fn group_properties(start: usize, is_read: bool, child: NodeProperties) -> NodeProperties
    ensures { meant result ≡ combined.group_properties start is_read (meant child) }
{
    NodeProperties {
        size: child.size,
        weight: child.weight.saturating_add(2),
        hard: child.hard || is_read,
        start,
        end: child.end,
    }
}

/// Another node with one child: look-around, atomic group, absent operator, definitions. It is hard.
pub(crate) fn wrapper_properties(size: Size, child: NodeProperties) -> NodeProperties
    ensures { meant result ≡ combined.wrapper_properties (size_of size) (meant child) }
{
    NodeProperties {
        size,
        weight: child.weight.saturating_add(1),
        hard: true,
        start: child.start,
        end: child.end,
    }
}

/// A quantified child, from `lo` to `hi` times; `usize::MAX` for `hi` means unbounded.
pub(crate) fn repeat_properties(lo: usize, hi: usize, child: NodeProperties) -> NodeProperties
    ensures { meant result ≡ combined.repeat_properties lo hi (meant child) }
{
    NodeProperties {
        size: repeated(child.size, lo, hi),
        weight: repeat_weight(lo, hi, child),
        hard: child.hard,
        start: child.start,
        end: child.end,
    }
}

/// The weight of a quantified child, at least 1.
fn repeat_weight(lo: usize, hi: usize, child: NodeProperties) -> u64
    ensures { result ≡ combined.repeat_weight_of lo hi (meant child) }
{
    if hi == usize::MAX {
        loop_weight(lo as u64, child.weight, child.size.least == 0)
    } else {
        let optional = hi.saturating_sub(lo) as u64;
        let due = (lo as u64).saturating_mul(child.weight);
        let rest = optional.saturating_mul(child.weight.saturating_add(3));
        due.saturating_add(rest).max(1)
    }
}

/// The weight of an unbounded quantifier, for a body of weight `body`.
fn loop_weight(lo: u64, body: u64, may_be_empty: bool) -> u64
    ensures { result ≡ combined.loop_weight lo body may_be_empty }
{
    if may_be_empty {
        lo.saturating_add(2).saturating_mul(body).saturating_add(4)
    } else {
        lo.max(1).saturating_mul(body).saturating_add(3)
    }
}

/// A conditional: its condition, and its two branches.
pub(crate) fn conditional_properties(
    condition: NodeProperties,
    yes: NodeProperties,
    no: NodeProperties,
) -> NodeProperties
    ensures { meant result ≡ combined.conditional_properties (meant condition) (meant yes) (meant no) }
{
    let branches = yes.weight.saturating_add(no.weight);
    NodeProperties {
        size: either(both(condition.size, yes.size), no.size),
        weight: 1u64.saturating_add(condition.weight.saturating_add(branches)),
        hard: true,
        start: condition.start,
        end: no.end,
    }
}

/// A node of this size with two children: an absent expression.
pub(crate) fn absent_expression_properties(
    size: Size,
    first: NodeProperties,
    second: NodeProperties,
) -> NodeProperties
    ensures { meant result ≡ combined.absent_expression_properties (size_of size) (meant first) (meant second) }
{
    NodeProperties {
        size,
        weight: 1u64.saturating_add(first.weight.saturating_add(second.weight)),
        hard: true,
        start: first.start,
        end: second.end,
    }
}

/// A concatenation of these items; `start` and `end` are the next group numbers before and after it.
pub(crate) fn concat_properties(start: usize, end: usize, parts: &[Info]) -> NodeProperties
    ensures { meant result
        ≡ combined.concat_properties (combined.sum_properties start end (map (λ i. properties_in (info_of i)) parts.now)) }
{
    let mut row = NodeProperties {
        size: always(0),
        weight: 0,
        hard: false,
        start,
        end,
    };
    for i in (0..parts.len()).rev() {
        row = before(parts[i].properties(), row);
    }
    row.weight = row.weight.max(1);
    row
}

/// An item in front of a concatenation.
fn before(part: NodeProperties, row: NodeProperties) -> NodeProperties
    ensures { meant result ≡ combined.prepend_part (meant part) (meant row) }
{
    NodeProperties {
        size: both(part.size, row.size),
        weight: part.weight.saturating_add(row.weight),
        hard: part.hard || row.hard,
        start: row.start,
        end: row.end,
    }
}

/// An alternation of these branches; `start` and `end` are the next group numbers before and after it. Without a branch it
/// is hard.
pub(crate) fn alternation_properties(start: usize, end: usize, branches: &[Info]) -> NodeProperties
    ensures { meant result ≡ combined.alternation_properties start end (map (λ i. properties_in (info_of i)) branches.now) }
{
    if branches.is_empty() {
        return NodeProperties {
            size: always(0),
            weight: 0,
            hard: true,
            start,
            end,
        };
    }
    let last = branches.len() - 1;
    let mut all = branches[last].properties();
    all.start = start;
    all.end = end;
    for i in (0..last).rev() {
        all = or_else(branches[i].properties(), all);
    }
    all
}

/// A branch in front of an alternation.
fn or_else(branch: NodeProperties, others: NodeProperties) -> NodeProperties
    ensures { meant result ≡ combined.prepend_branch (meant branch) (meant others) }
{
    NodeProperties {
        size: either(branch.size, others.size),
        weight: branch
            .weight
            .saturating_add(others.weight.saturating_add(3)),
        hard: branch.hard || others.hard,
        start: others.start,
        end: others.end,
    }
}
