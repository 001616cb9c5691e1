//! The capture groups of a tree, and the groups that its subroutine calls name.

ghost use Rattle.std.specs.Prelude.{◌≡◌, ◌++◌, map, option_map, IfOk};
ghost use Rattle.fancy_regex_tree.specs.Tree.{tree_of};
ghost use Rattle.fancy_regex_meaning.specs.Groups.{bodies};
ghost use Rattle.fancy_regex_meaning.specs.Sizes.{calls_in};
ghost use Rattle.fancy_regex_info.specs.GroupNodes.{group_body, called_group};
ghost use Rattle.fancy_regex_info.specs.Views.{body_tree, pattern_in};

use fancy_regex_tree::Expr;
use std::alloc::{AllocError, Global};

/// The bodies of the capture groups, indexed by group number. With `explicit` group 0 is the first group of the tree;
/// without, group 0 is the whole tree. Fails only if memory runs out.
pub fn groups_of<'a>(
    alloc: Global,
    expr: &'a Expr,
    explicit: bool,
) -> Result<Vec<&'a Expr>, AllocError>
    ensures { IfOk result (λ v. map body_tree v.items ≡ (pattern_in explicit (tree_of expr.now)).groups) }
{
    let mut groups = Vec::new(alloc);
    if !explicit {
        groups.push(expr)?;
    }
    add_bodies(expr, &mut groups)?;
    Ok(groups)
}

/// Appends the body of each capture group of the tree, in the order of their opening parentheses.
fn add_bodies<'a>(expr: &'a Expr, groups: &mut Vec<&'a Expr>) -> Result<(), AllocError>
    ensures { IfOk result (λ _. map body_tree groups.new.items ≡ map body_tree groups.old.items ++ bodies (tree_of expr.now)) }
{
    let nodes = expr.preorder(*groups.allocator())?;
    for node in &nodes {
        if let Some(body) = group_body(*node) {
            groups.push(body)?;
        }
    }
    Ok(())
}

/// The body of the node, if it is a capture group.
fn group_body(node: &Expr) -> Option<&Expr>
    ensures { option_map body_tree result ≡ group_body (tree_of node.now) }
{
    match node {
        Expr::Group(body) => Some(body),
        _ => None,
    }
}

/// Appends the group number of each subroutine call in the tree, in pattern order, also of calls in definitions. Fails only
/// if memory runs out; then some numbers may have been appended.
pub fn add_calls(expr: &Expr, calls: &mut Vec<usize>) -> Result<(), AllocError>
    ensures { IfOk result (λ _. calls.new.items ≡ calls.old.items ++ calls_in (tree_of expr.now)) }
{
    let nodes = expr.preorder(*calls.allocator())?;
    for node in &nodes {
        if let Some(group) = called_group(*node) {
            calls.push(group)?;
        }
    }
    Ok(())
}

/// The group number that the node calls, if it is a subroutine call.
fn called_group(node: &Expr) -> Option<usize>
    ensures { result ≡ called_group (tree_of node.now) }
{
    match node {
        Expr::SubroutineCall(group) => Some(*group),
        _ => None,
    }
}
