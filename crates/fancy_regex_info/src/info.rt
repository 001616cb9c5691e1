//! The result of the analysis: a tree of `Info`, in the shape of the pattern's tree.

ghost use Rattle.std.specs.Prelude.{◌≡◌, map};
ghost use Rattle.fancy_regex_tree.specs.Tree.{tree_of};

use crate::properties::NodeProperties;
use crate::size::Size;
use fancy_regex_tree::Expr;

/// A node of the pattern, with its properties and the analysis of its children.
#[derive(Debug, Drop)]
pub struct Info<'a> {
    /// The least number of characters that a match of the node has; saturates at `usize::MAX`.
    pub min_size: usize,
    /// The greatest number of characters; `usize::MAX` means unbounded.
    pub max_size: usize,
    /// All matches of the node have the same number of characters.
    pub const_size: bool,
    /// The node needs the backtracking VM; if not, it is easy and runs on the state table.
    pub hard: bool,
    /// The node itself.
    pub expr: &'a Expr,
    /// The children in pattern order; empty for a leaf.
    pub children: Vec<Info<'a>>,
    /// An upper bound of the node's states in the state table; saturates at `u64::MAX`. The whole pattern has two more.
    pub weight: u64,
    start_group: usize,
    end_group: usize,
}

impl<'a> Info<'a> {
    ghost use Rattle.fancy_regex_info.specs.Infos.{known, infos, info_of, properties_of, properties_in};

    /// Puts a node together from its properties and its children.
    pub(crate) fn new(
        expr: &'a Expr,
        properties: NodeProperties,
        children: Vec<Info<'a>>,
    ) -> Info<'a>
        ensures { info_of result ≡ known (properties_of properties) (tree_of expr.entry.now) (infos (map info_of children.entry.items)) }
    {
        Info {
            min_size: properties.size.least,
            max_size: properties.size.greatest,
            const_size: properties.size.always,
            hard: properties.hard,
            expr,
            children,
            weight: properties.weight,
            start_group: properties.start,
            end_group: properties.end,
        }
    }

    /// The properties of the node, without its children.
    pub(crate) fn properties(&self) -> NodeProperties
        ensures { properties_of result ≡ properties_in (info_of self.now) }
    {
        NodeProperties {
            size: Size {
                least: self.min_size,
                greatest: self.max_size,
                always: self.const_size,
            },
            weight: self.weight,
            hard: self.hard,
            start: self.start_group,
            end: self.end_group,
        }
    }

    /// The number that the first capture group of the node has, if it has one.
    pub fn start_group(&self) -> usize
        ensures { result ≡ (properties_in (info_of self.now)).start }
    {
        self.start_group
    }

    /// The number of the next capture group after the node.
    pub fn end_group(&self) -> usize
        ensures { result ≡ (properties_in (info_of self.now)).end }
    {
        self.end_group
    }
}
