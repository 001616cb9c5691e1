//! Traversal of trees: children, all nodes in preorder, and searches among descendants.

ghost use Rattle.std.specs.Prelude.{◌≡◌, ◌++◌, IfOk, map, drop};
ghost use Rattle.std.specs.Fn.{FnReturnsAt};
ghost use Rattle.std.specs.Iterator.{YieldsFirstRef, item_count};
ghost use Rattle.fancy_regex_tree.specs.Tree.{tree_of, absent_tree_of};
ghost use Rattle.fancy_regex_tree.specs.Traversal.{is_leaf, below, children, subtrees, nodes_in, nodes, descendants, IsFound, rest, tree_at};

use crate::expr::{Absent, AstNode, Expr};
use std::alloc::{AllocError, Global};

/// An iterator over the children of a node, in the order of the pattern.
///
/// ```
/// let tree = Expr::parse_tree(alloc, "abc")?;
/// let children: ExprChildrenIter<'_> = tree.expr.children_iter();
/// assert!(rt; children.count() == 3);
/// ```
#[derive(Clone, Copy, Debug)]
pub enum ExprChildrenIter<'t> {
    /// No child is left.
    Empty,
    /// One child is left.
    Single(&'t Expr),
    /// The children that are left in a list.
    Vec(&'t [Expr]),
    /// Three children are left; two, if `third` is `None`.
    Triple {
        /// The next child.
        first: &'t Expr,
        /// The child after it.
        second: &'t Expr,
        /// The last child, if there are three.
        third: Option<&'t Expr>,
    },
}

impl<'t> Iterator for ExprChildrenIter<'t> {
    type Item = &'t Expr;

    ghost next_gives = { YieldsFirstRef rest };

    ghost remaining = { item_count rest };

    /// The next child; `None` if no child is left.
    fn next(&mut self) -> Option<&'t Expr> {
        match *self {
            ExprChildrenIter::Empty => None,
            ExprChildrenIter::Single(child) => {
                *self = ExprChildrenIter::Empty;
                Some(child)
            }
            ExprChildrenIter::Vec(children) => {
                let (first, others) = children.split_first()?;
                *self = ExprChildrenIter::Vec(others);
                Some(first)
            }
            ExprChildrenIter::Triple {
                first,
                second,
                third,
            } => {
                *self = match third {
                    Some(third) => ExprChildrenIter::Triple {
                        first: second,
                        second: third,
                        third: None,
                    },
                    None => ExprChildrenIter::Single(second),
                };
                Some(first)
            }
        }
    }
}

impl Absent {
    /// The children of the operator, in the order of the pattern.
    fn children(&self) -> ExprChildrenIter<'_>
        ensures { map tree_of (rest result) ≡ children (absent_tree_of self.now) }
    {
        match self {
            Absent::Repeater(child) | Absent::Stopper(child) => ExprChildrenIter::Single(child),
            Absent::Expression { absent, exp } => ExprChildrenIter::Triple {
                first: absent,
                second: exp,
                third: None,
            },
            Absent::Clear => ExprChildrenIter::Empty,
        }
    }
}

impl Expr {
    /// Whether the node is of a kind that has no children. An `AstNode` counts as a leaf, also a capture group that has no number yet.
    pub fn is_leaf_node(&self) -> bool
        ensures { result ≡ is_leaf (tree_of self.now) }
    {
        match self {
            Expr::Concat(_)
            | Expr::Alt(_)
            | Expr::Group(_)
            | Expr::LookAround(_, _)
            | Expr::Repeat { .. }
            | Expr::AtomicGroup(_)
            | Expr::Conditional { .. }
            | Expr::DefineGroup { .. } => false,
            Expr::Absent(absent) => matches!(absent, Absent::Clear),
            _ => true,
        }
    }

    /// The children of the node, in the order of the pattern. A leaf has none.
    ///
    /// ```
    /// let tree = Expr::parse_tree(alloc, "a|b")?;
    /// assert!(rt; tree.expr.children_iter().count() == 2);
    /// assert!(rt; Expr::Empty.children_iter().next().is_none());
    /// ```
    pub fn children_iter(&self) -> ExprChildrenIter<'_>
        ensures { map tree_of (rest result) ≡ children (tree_of self.now) }
    {
        match self {
            Expr::Concat(children) | Expr::Alt(children) => ExprChildrenIter::Vec(children),
            Expr::Group(child)
            | Expr::LookAround(child, _)
            | Expr::Repeat { child, .. }
            | Expr::AtomicGroup(child)
            | Expr::DefineGroup { definitions: child } => ExprChildrenIter::Single(child),
            Expr::Conditional {
                condition,
                true_branch,
                false_branch,
            } => ExprChildrenIter::Triple {
                first: condition,
                second: true_branch,
                third: Some(false_branch),
            },
            Expr::Absent(absent) => absent.children(),
            _ => ExprChildrenIter::Empty,
        }
    }

    /// The children of the node, or the body of a capture group that has no number yet.
    ///
    /// ```
    /// let tree = Expr::parse_tree(alloc, "(a)")?;
    /// assert!(rt; tree.expr.subtrees_iter().count() == 1);
    /// ```
    pub fn subtrees_iter(&self) -> ExprChildrenIter<'_>
        ensures { map tree_of (rest result) ≡ subtrees (tree_of self.now) }
    {
        match self {
            Expr::AstNode(AstNode::AstGroup { inner, .. }, _) => ExprChildrenIter::Single(inner),
            _ => self.children_iter(),
        }
    }

    /// The trees directly below the node. The body of a capture group that has no number yet counts only with `in_groups` set.
    fn below(&self, in_groups: bool) -> ExprChildrenIter<'_>
        ensures { map tree_of (rest result) ≡ below in_groups (tree_of self.now) }
    {
        if in_groups {
            self.subtrees_iter()
        } else {
            self.children_iter()
        }
    }

    /// All nodes of the tree, those in capture groups that have no number yet included: each before those below it, from left to
    /// right.
    ///
    /// # Errors
    ///
    /// `AllocError` if an allocation fails.
    ///
    /// ```
    /// let tree = Expr::parse_tree(alloc, "(ab)+")?;
    /// assert!(rt; tree.expr.preorder(alloc)?.len() == 5);
    /// ```
    pub fn preorder(&self, alloc: Global) -> Result<Vec<&Expr>, AllocError>
        ensures { IfOk result (λ all. map tree_at all.items ≡ nodes (tree_of self.now)) }
    {
        with_nodes(self, Vec::new(alloc))
    }

    /// Whether the predicate holds for a node of the tree, one in a capture group that has no number yet included. It is asked in
    /// preorder, up to the first node for which it holds.
    ///
    /// ```
    /// let tree = Expr::parse_tree(alloc, "a+")?;
    /// assert!(rt;
    ///     tree.expr
    ///         .any_node(|node| matches!(node, Expr::Repeat { .. }))
    /// );
    /// ```
    pub fn any_node<F: Fn(&Expr) -> bool>(&self, predicate: F) -> bool
        requires { F.IsAlwaysCallable predicate }
        ensures { IsFound F.Fn predicate result (nodes (tree_of self.now)) }
    {
        is_accepted(&predicate, self) || any_node_below(self, true, &predicate)
    }

    /// Whether the predicate holds for a node below this one: a child, a child of that, and so on. It is asked in preorder, up to
    /// the first node for which it holds.
    ///
    /// ```
    /// let tree = Expr::parse_tree(alloc, "a+")?;
    /// assert!(rt;
    ///     !tree
    ///         .expr
    ///         .has_descendant(|node| matches!(node, Expr::Repeat { .. }))
    /// );
    /// ```
    pub fn has_descendant<F: Fn(&Expr) -> bool>(&self, predicate: F) -> bool
        requires { F.IsAlwaysCallable predicate }
        ensures { IsFound F.Fn predicate result (descendants (tree_of self.now)) }
    {
        any_node_below(self, false, &predicate)
    }
}

/// Appends all nodes of a tree in preorder.
fn with_nodes<'t>(node: &'t Expr, mut found: Vec<&'t Expr>) -> Result<Vec<&'t Expr>, AllocError>
    ensures { IfOk result (λ all. map tree_at all.items ≡ map tree_at found.entry.items ++ nodes (tree_of node.now)) }
{
    found.push(node)?;
    for tree in node.subtrees_iter() {
        found = with_nodes(tree, found)?;
    }
    Ok(found)
}

/// Whether the predicate holds for this node.
fn is_accepted<F: Fn(&Expr) -> bool>(predicate: &F, node: &Expr) -> bool
    requires { F.IsAlwaysCallable predicate.now }
    ensures { FnReturnsAt F.Fn predicate.now node.now result }
{
    predicate(node)
}

/// Whether the predicate holds for a node below this one. Those in capture groups that have no number yet count only with
/// `in_groups` set.
fn any_node_below<F: Fn(&Expr) -> bool>(node: &Expr, in_groups: bool, predicate: &F) -> bool
    requires { F.IsAlwaysCallable predicate.now }
    ensures { IsFound F.Fn predicate.now result (drop 1 (nodes_in in_groups (tree_of node.now))) }
{
    for tree in node.below(in_groups) {
        if is_accepted(predicate, tree) || any_node_below(tree, in_groups, predicate) {
            return true;
        }
    }
    false
}
