//! Capture group names and numbers.

ghost use Rattle.std.specs.Prelude.{◌≡◌, ℕ, List, ◌++◌, [], ◌∷◌, ◌||◌, IfOk, map, option_map, chars, if◌then◌else◌};
ghost use Rattle.std.specs.List.{filter_map, list_any};
ghost use Rattle.std.specs.Str.{IsUtf8, bytes_eq};
ghost use Rattle.fancy_regex_tree.specs.Tree.{tree_of};
ghost use Rattle.fancy_regex_tree.specs.Traversal.{tree_at};
ghost use Rattle.fancy_regex_tree.specs.Numbering.{opening_of, name_view, if_counted, numbers_of, numbers_under};
ghost use Rattle.fancy_regex_tree.specs.ParseResult.{carries, has_key};

use crate::expr::{AstNode, Expr};
use crate::expr_tree::NamedGroups;
use std::alloc::{AllocError, Global};
use std::collections::BTreeMap;

/// If the node is a capture group, its name, if it has one.
fn opening(node: &Expr) -> Option<Option<&str>>
    ensures { option_map name_view result ≡ opening_of (tree_of node.now) }
{
    match node {
        Expr::Group(_) => Some(None),
        Expr::AstNode(AstNode::AstGroup { name, .. }, _) => match name {
            Some(name) => Some(Some(name)),
            None => Some(None),
        },
        _ => None,
    }
}

/// If the node is a capture group that gets a number, its name, if it has one. With `ignored` set, unnamed groups get none.
fn counted_opening(node: &Expr, ignored: bool) -> Option<Option<&str>>
    ensures { option_map name_view result ≡ if_counted ignored (opening_of (tree_of node.now)) }
{
    match opening(node) {
        Some(None) if ignored => None,
        other => other,
    }
}

/// The name of each numbered capture group among the nodes, in their order. With `ignored` set, unnamed groups get no number.
pub fn group_names<'t>(
    alloc: Global,
    nodes: &[&'t Expr],
    ignored: bool,
) -> Result<Vec<Option<&'t str>>, AllocError>
    ensures { IfOk result (λ names.
        map name_view names.items ≡ filter_map (λ t. if_counted ignored (opening_of t)) (map tree_at nodes.now)) }
{
    let mut names = Vec::new(alloc);
    for i in 0..nodes.len() {
        if let Some(name) = counted_opening(nodes[i], ignored) {
            names.push(name)?;
        }
    }
    Ok(names)
}

/// Adds the number of a group to those of its name.
fn add_number(
    alloc: Global,
    named: &mut NamedGroups,
    name: &str,
    group: usize,
) -> Result<(), AllocError>
    ensures text { IfOk result (λ _. IsUtf8 name.now) }
    ensures value { IfOk result (λ _. (q : List ℕ)
        → numbers_under named.new q
        ≡ (if bytes_eq q name.now then numbers_under named.old q ++ group ∷ [] else numbers_under named.old q)) }
    ensures keys { IfOk result (λ _. (q : List ℕ) → has_key named.new q ≡ (has_key named.old q || bytes_eq q name.now)) }
{
    named
        .entry(String::from_str(alloc, name)?)?
        .or_default()
        .push(group)?;
    Ok(())
}

/// For each name, the numbers of its groups in ascending order. The first item of `names` is group 1.
pub fn named_groups(alloc: Global, names: &[Option<&str>]) -> Result<NamedGroups, AllocError>
    ensures value { IfOk result (λ named. (q : List ℕ) → IsUtf8 q
        → numbers_under named q ≡ numbers_of (chars q) 0 (map name_view names.now)) }
    ensures keys { IfOk result (λ named. (q : List ℕ) → IsUtf8 q
        → has_key named q ≡ list_any (carries (chars q)) (map name_view names.now)) }
{
    let mut named = BTreeMap::new(alloc);
    for i in 0..names.len() {
        if let Some(name) = names[i] {
            add_number(alloc, &mut named, name, i + 1)?;
        }
    }
    Ok(named)
}
