//! The child of a node at an index: lent for writing, or replaced.

ghost use Rattle.std.specs.Prelude.{◌≡◌, ◌∷◌, [], map, option_map, slice_get};
ghost use Rattle.fancy_regex_tree.specs.Tree.{conditional, tree_of, absent_tree_of};
ghost use Rattle.fancy_regex_tree.specs.Traversal.{children};
ghost use Rattle.fancy_regex_tree.specs.BorrowedChild.{borrowed_tree};
ghost use Rattle.fancy_regex_tree.specs.ReplacedChild.{IsItemReplaced, IsChildReplaced};

use crate::expr::{Absent, Expr};
use std::mem;

/// The only child for index 0, `None` for any other.
fn only(child: &mut Expr, i: usize) -> Option<&mut Expr>
    ensures { option_map borrowed_tree result ≡ slice_get (tree_of child.old ∷ []) i }
{
    match i {
        0 => Some(child),
        _ => None,
    }
}

/// The first of two children for index 0, the second for 1, `None` for any other.
fn either<'t>(first: &'t mut Expr, second: &'t mut Expr, i: usize) -> Option<&'t mut Expr>
    ensures { option_map borrowed_tree result ≡ slice_get (tree_of first.old ∷ tree_of second.old ∷ []) i }
{
    match i {
        0 => Some(first),
        1 => Some(second),
        _ => None,
    }
}

/// The child at an index, `None` past the end.
fn item(children: &mut Vec<Expr>, i: usize) -> Option<&mut Expr>
    ensures { option_map borrowed_tree result ≡ slice_get (map tree_of children.old.items) i }
{
    children.get_mut(i)
}

/// Replaces the only child at index 0 and answers the old one. For any other index it gives the new child back as the error.
fn replace_only(only: &mut Expr, i: usize, child: Expr) -> Result<Expr, Expr>
    ensures { IsItemReplaced (only.old ∷ []) (only.new ∷ []) i child result }
{
    match i {
        0 => Ok(mem::replace(only, child)),
        _ => Err(child),
    }
}

/// Replaces one of two children and answers the old one. For an index above 1 it gives the new child back as the error.
fn replace_either(first: &mut Expr, second: &mut Expr, i: usize, child: Expr) -> Result<Expr, Expr>
    ensures { IsItemReplaced (first.old ∷ second.old ∷ []) (first.new ∷ second.new ∷ []) i child result }
{
    match i {
        0 => Ok(mem::replace(first, child)),
        1 => Ok(mem::replace(second, child)),
        _ => Err(child),
    }
}

/// Replaces the child at index `i` and answers the old one. Past the end it gives the new child back as the error.
fn replace_item(row: &mut [Expr], i: usize, child: Expr) -> Result<Expr, Expr>
    ensures { IsItemReplaced row.old row.new i child result }
{
    if i >= row.len() {
        return Err(child);
    }
    Ok(mem::replace(&mut row[i], child))
}

impl Absent {
    /// The child at an index, in the order of the pattern, as a mutable reference.
    fn child_mut(&mut self, i: usize) -> Option<&mut Expr>
        ensures { option_map borrowed_tree result ≡ slice_get (children (absent_tree_of self.old)) i }
    {
        match self {
            Absent::Repeater(child) => only(child, i),
            Absent::Expression { absent, exp } => either(absent, exp, i),
            Absent::Stopper(child) => only(child, i),
            Absent::Clear => None,
        }
    }

    /// Replaces the child at index `i` of an absent operator; see `Expr::replace_child`.
    fn replace_child(self, i: usize, child: Expr) -> (Absent, Result<Expr, Expr>)
        ensures { IsChildReplaced (absent_tree_of self) (absent_tree_of result.0) i child result.1 }
    {
        match self {
            Absent::Repeater(mut only) => {
                let replaced = replace_only(&mut only, i, child);
                (Absent::Repeater(only), replaced)
            }
            Absent::Expression {
                mut absent,
                mut exp,
            } => {
                let replaced = replace_either(&mut absent, &mut exp, i, child);
                (Absent::Expression { absent, exp }, replaced)
            }
            Absent::Stopper(mut only) => {
                let replaced = replace_only(&mut only, i, child);
                (Absent::Stopper(only), replaced)
            }
            Absent::Clear => (Absent::Clear, Err(child)),
        }
    }
}

/// Replaces the condition of a conditional (index 0) or a branch (1, 2); see `Expr::replace_child`.
fn replace_in_conditional(
    mut condition: Box<Expr>,
    mut true_branch: Box<Expr>,
    mut false_branch: Box<Expr>,
    i: usize,
    child: Expr,
) -> (Expr, Result<Expr, Expr>)
    ensures { IsChildReplaced (conditional (tree_of condition.value) (tree_of true_branch.value) (tree_of false_branch.value))
        (tree_of result.0) i child result.1 }
{
    let replaced = match i {
        0 => Ok(mem::replace(&mut *condition, child)),
        1 => Ok(mem::replace(&mut *true_branch, child)),
        2 => Ok(mem::replace(&mut *false_branch, child)),
        _ => Err(child),
    };
    let conditional = Expr::Conditional {
        condition,
        true_branch,
        false_branch,
    };
    (conditional, replaced)
}

impl Expr {
    /// The child at index `i`, in the order of `children_iter`, as a mutable reference; `None` where there is no such child, as at
    /// any index of a leaf.
    ///
    /// The contract says which tree is lent. It does not say what this node is after a write through the reference; that of
    /// `replace_child` does.
    ///
    /// ```
    /// let mut expr = Expr::parse_tree(alloc, "ab")?.expr;
    /// assert!(rt; expr.child_mut(1).is_some() && expr.child_mut(2).is_none());
    /// ```
    pub fn child_mut(&mut self, i: usize) -> Option<&mut Expr>
        ensures { option_map borrowed_tree result ≡ slice_get (children (tree_of self.old)) i }
    {
        match self {
            Expr::Concat(children) => item(children, i),
            Expr::Alt(children) => item(children, i),
            Expr::Group(child) => only(child, i),
            Expr::LookAround(child, _) => only(child, i),
            Expr::Repeat { child, .. } => only(child, i),
            Expr::AtomicGroup(child) => only(child, i),
            Expr::DefineGroup { definitions } => only(definitions, i),
            Expr::Conditional {
                condition,
                true_branch,
                false_branch,
            } => match i {
                0 => Some(condition),
                1 => Some(true_branch),
                2 => Some(false_branch),
                _ => None,
            },
            Expr::Absent(absent) => absent.child_mut(i),
            _ => None,
        }
    }

    /// Replaces the child at index `i`, in the order of `children_iter`. Answers the node with the new child, and `Ok` with the old
    /// child.
    ///
    /// # Errors
    ///
    /// `Err` with the child that was given where there is no child at that index, as at any index of a leaf; the node is unchanged.
    ///
    /// ```
    /// let expr = Expr::parse_tree(alloc, "a+")?.expr;
    /// let (expr, replaced) = expr.replace_child(0, Expr::KeepOut);
    /// assert!(rt; replaced.is_ok());
    /// assert!(rt; expr.has_descendant(|node| matches!(node, Expr::KeepOut)));
    /// ```
    pub fn replace_child(self, i: usize, child: Expr) -> (Expr, Result<Expr, Expr>)
        ensures { IsChildReplaced (tree_of self) (tree_of result.0) i child result.1 }
    {
        match self {
            Expr::Concat(mut row) => {
                let replaced = replace_item(&mut row, i, child);
                (Expr::Concat(row), replaced)
            }
            Expr::Alt(mut row) => {
                let replaced = replace_item(&mut row, i, child);
                (Expr::Alt(row), replaced)
            }
            Expr::Group(mut only) => {
                let replaced = replace_only(&mut only, i, child);
                (Expr::Group(only), replaced)
            }
            Expr::LookAround(mut only, look) => {
                let replaced = replace_only(&mut only, i, child);
                (Expr::LookAround(only, look), replaced)
            }
            Expr::Repeat {
                child: mut only,
                lo,
                hi,
                greedy,
            } => {
                let replaced = replace_only(&mut only, i, child);
                let repeat = Expr::Repeat {
                    child: only,
                    lo,
                    hi,
                    greedy,
                };
                (repeat, replaced)
            }
            Expr::AtomicGroup(mut only) => {
                let replaced = replace_only(&mut only, i, child);
                (Expr::AtomicGroup(only), replaced)
            }
            Expr::Conditional {
                condition,
                true_branch,
                false_branch,
            } => replace_in_conditional(condition, true_branch, false_branch, i, child),
            Expr::Absent(absent) => {
                let (absent, replaced) = absent.replace_child(i, child);
                (Expr::Absent(absent), replaced)
            }
            Expr::DefineGroup { mut definitions } => {
                let replaced = replace_only(&mut definitions, i, child);
                (Expr::DefineGroup { definitions }, replaced)
            }
            leaf => (leaf, Err(child)),
        }
    }
}
