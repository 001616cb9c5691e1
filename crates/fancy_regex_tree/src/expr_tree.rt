//! The result of parsing a pattern.

use crate::expr::Expr;
use std::collections::{BTreeMap, BTreeSet};

/// For each group name, the numbers of the groups with that name in ascending order.
///
/// ```
/// let groups: NamedGroups = Expr::parse_tree(alloc, "(?<a>x)(?<a>y)")?.named_groups;
/// assert!(rt; groups.get("a").map_or(0, |numbers| numbers.len()) == 2);
/// ```
pub type NamedGroups = BTreeMap<String, Vec<usize>>;

/// A parsed pattern: its syntax tree, and a summary of its groups and references.
///
/// ```
/// let tree = Expr::parse_tree(alloc, r"(a)(?<b>b)\g<0>?\k<b>")?;
/// assert!(rt; tree.total_groups == 2 && tree.contains_subroutines && tree.calls_whole);
/// assert!(rt; tree.backrefs.contains(&2));
/// ```
#[derive(Debug, PartialEq, Eq, Drop)]
pub struct ExprTree {
    /// The syntax tree, with all references resolved but calls of groups that do not exist.
    pub expr: Expr,
    /// The numbers, at most `total_groups`, of all groups that a back reference or a condition names.
    pub backrefs: BTreeSet<usize>,
    /// The names of groups, with the numbers of their groups.
    pub named_groups: NamedGroups,
    /// Whether there is a subroutine call, resolved or not, of a group or of the whole pattern.
    pub contains_subroutines: bool,
    /// The number of capture groups, without group 0, the whole pattern.
    pub total_groups: usize,
    /// Whether a back reference, a condition or a call names a group number above `total_groups`.
    pub reference_above_total: bool,
    /// Whether unnamed groups are ignored and a reference other than a call of group 0 is by number or relative.
    pub named_backref_only: bool,
    /// Whether a subroutine call names group 0, the whole pattern.
    pub calls_whole: bool,
}
