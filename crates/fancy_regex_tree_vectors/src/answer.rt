//! The result of parsing and printing a pattern, as fields separated by tabs.

use fancy_regex_tree::{Error, Expr, ExprTree};
use std::alloc::{AllocError, Global};

/// The fields of the result for a pattern, separated by tabs. Fails for want of memory.
pub fn answer(alloc: Global, flags: u32, pattern: &str) -> Result<String, AllocError> {
    match Expr::parse_tree_with_flags(alloc, pattern, flags) {
        Ok(tree) => tree_fields(alloc, &tree),
        Err(Error::Memory) => Err(AllocError),
        Err(fault) => format!(in alloc; "fault={fault:?}"),
    }
}

/// The fields of a tree that was parsed.
fn tree_fields(alloc: Global, tree: &ExprTree) -> Result<String, AllocError> {
    let printing = printing(alloc, &tree.expr)?;
    format!(in alloc;
        "tree={:?}\tgroups={}\tnames={:?}\tbackrefs={:?}\t{printing}",
        tree.expr, tree.total_groups, tree.named_groups, tree.backrefs
    )
}

/// Whether the tree can be printed as a pattern, and if so the printed text.
fn printing(alloc: Global, expr: &Expr) -> Result<String, AllocError> {
    if !expr.is_printable(alloc)? {
        return String::from_str(alloc, "printable=false");
    }
    let mut text = String::new(alloc);
    expr.to_str(&mut text, 0)?;
    format!(in alloc; "printable=true\tprinted={text:?}")
}
