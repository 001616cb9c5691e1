//! Prints the nodes of a pattern's tree, each with the number of its children.
#![tactic(auto)]

use anyhow::Result;
use fancy_regex::Expr;

pub fn main(rt: HostRuntime) -> Result<()> {
    let tree = Expr::parse_tree(rt.alloc(), r"(\w+|-)+(?=!)")?;
    for node in tree.expr.preorder(rt.alloc())?.iter() {
        println!(rt; "{} {}", name_of(node), node.children_iter().count())?;
    }
    println!(rt; "groups: {}", tree.total_groups)?;
    Ok(())
}

/// What a node is.
fn name_of<'n>(node: &'n Expr) -> &'n str {
    match node {
        Expr::Literal { val, .. } => val.as_str(),
        Expr::Delegate { inner, .. } => inner.as_str(),
        Expr::Concat(_) => "concatenation",
        Expr::Alt(_) => "alternation",
        Expr::Group(_) => "group",
        Expr::Repeat { .. } => "repeat",
        Expr::LookAround(..) => "look-around",
        _ => "other",
    }
}
