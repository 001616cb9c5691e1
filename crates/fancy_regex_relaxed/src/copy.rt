//! Copies of trees that are plain, and have a way wherever the tree has one.

ghost use Rattle.std.specs.Prelude.{◌≡◌, true, map, IfOk};
ghost use Rattle.fancy_regex_tree.specs.Tree.{tree_of, trees};
ghost use Rattle.fancy_regex_linear.specs.Plain.{test_of};
ghost use Rattle.fancy_regex_relaxed.specs.Relaxed.{IsRelaxable, AreRelaxable};
ghost use Rattle.fancy_regex_relaxed.specs.Relaxed as relaxed_is;

use fancy_regex_tree::{Assertion, Expr, LookAround};
use std::alloc::{AllocError, Global};

/// Whether the tree can be relaxed: it refers to no matched text, calls nothing, and has no conditionals, `\R` or verbs.
#[cycle(relaxable)]
pub(crate) fn is_relaxable(expr: &Expr) -> bool
    ensures { result ≡ true → IsRelaxable (tree_of expr.now) }
{
    match expr {
        Expr::Empty
        | Expr::Any { .. }
        | Expr::Literal { .. }
        | Expr::Delegate { .. }
        | Expr::Assertion(_)
        | Expr::KeepOut
        | Expr::ContinueFromPreviousMatchEnd
        | Expr::DefineGroup { .. } => true,
        Expr::Concat(children) | Expr::Alt(children) => are_relaxable(children),
        Expr::Group(child) | Expr::AtomicGroup(child) | Expr::LookAround(child, _) => {
            is_relaxable(child)
        }
        Expr::Repeat { child, .. } => is_relaxable(child),
        _ => false,
    }
}

/// Whether a match may begin only after what a look-behind for several characters asks for. The plain pattern lacks that, and would
/// match at many places where the program sees at once that it fails.
pub(crate) fn begins_after_text(expr: &Expr) -> bool {
    match expr {
        Expr::LookAround(child, LookAround::LookBehind) => !reads_one(child),
        Expr::Concat(children) => match children.get(0) {
            Some(Expr::LookAround(child, LookAround::LookBehind)) => !reads_one(child),
            _ => false,
        },
        _ => false,
    }
}

/// Whether all of the trees can be relaxed.
#[cycle(relaxable)]
fn are_relaxable(children: &[Expr]) -> bool
    ensures { result ≡ true → AreRelaxable (trees (map tree_of children.now)) }
{
    for child in children {
        if !is_relaxable(child) {
            return false;
        }
    }
    true
}

/// A plain copy with a way to each place to which the tree has one: without groups, look-arounds for more than one character and what
/// asks more than the text. The error is want of memory.
#[cycle(relaxed)]
#[tactic(auto, unfolding(crate::specs::Relaxed::relaxed))]
fn relaxed(alloc: Global, expr: &Expr) -> Result<Expr, AllocError>
    ensures { IfOk result (λ copy. tree_of copy ≡ relaxed_is.relaxed (tree_of expr.now)) }
{
    match expr {
        Expr::Any { newline, crlf } => Ok(Expr::Any {
            newline: *newline,
            crlf: *crlf,
        }),
        Expr::Literal { .. } | Expr::Delegate { .. } => expr.try_clone(alloc),
        Expr::Assertion(assertion) => Ok(if_tested(*assertion)),
        Expr::Concat(children) => Ok(Expr::Concat(relaxed_row(alloc, children)?)),
        Expr::Alt(children) => Ok(Expr::Alt(relaxed_row(alloc, children)?)),
        Expr::Group(child) | Expr::AtomicGroup(child) => relaxed(alloc, child),
        Expr::LookAround(child, _) => {
            if reads_one(child) {
                expr.try_clone(alloc)
            } else {
                Ok(Expr::Empty)
            }
        }
        Expr::Repeat {
            child,
            lo,
            hi,
            greedy,
        } => Ok(Expr::Repeat {
            child: Box::new(alloc, relaxed(alloc, child)?)?,
            lo: *lo,
            hi: *hi,
            greedy: *greedy,
        }),
        _ => Ok(Expr::Empty),
    }
}

/// Whether the tree reads one character.
fn reads_one(expr: &Expr) -> bool
    ensures { result ≡ relaxed_is.reads_one (tree_of expr.now) }
{
    match expr {
        Expr::Any { .. } | Expr::Literal { .. } | Expr::Delegate { .. } => true,
        _ => false,
    }
}

/// The assertion, unless it is `\Z`.
fn if_tested(assertion: Assertion) -> Expr
    ensures { tree_of result ≡ relaxed_is.if_tested assertion (test_of assertion) }
{
    match assertion {
        Assertion::EndTextIgnoreTrailingNewlines { .. } => Expr::Empty,
        _ => Expr::Assertion(assertion),
    }
}

/// Such copies of trees in a row. The error is want of memory.
#[cycle(relaxed)]
fn relaxed_row(alloc: Global, children: &[Expr]) -> Result<Vec<Expr>, AllocError>
    ensures { IfOk result (λ row. trees (map tree_of row.items) ≡ relaxed_is.relaxed_row (trees (map tree_of children.now))) }
{
    let mut row = Vec::new(alloc);
    for child in children {
        row.push(relaxed(alloc, child)?)?;
    }
    Ok(row)
}

/// A plain copy with a way where the tree has one: what a look-ahead at the end asks for is read. The error is want of memory.
#[cycle(extended)]
#[tactic(auto, unfolding(crate::specs::Relaxed::extended, crate::specs::Relaxed::relaxed))]
pub(crate) fn extended(alloc: Global, expr: &Expr) -> Result<Expr, AllocError>
    ensures { IfOk result (λ copy. tree_of copy ≡ relaxed_is.extended (tree_of expr.now)) }
{
    match expr {
        Expr::Concat(children) => Ok(Expr::Concat(extended_row(alloc, children)?)),
        Expr::Alt(children) => Ok(Expr::Alt(extended_branches(alloc, children)?)),
        Expr::Group(child) | Expr::AtomicGroup(child) => extended(alloc, child),
        Expr::LookAround(child, look) => match look {
            LookAround::LookAhead => extended(alloc, child),
            _ => relaxed(alloc, expr),
        },
        _ => relaxed(alloc, expr),
    }
}

/// Copies of trees in a row, of which only the last is read to its end. The error is want of memory.
#[cycle(extended)]
fn extended_row(alloc: Global, children: &[Expr]) -> Result<Vec<Expr>, AllocError>
    ensures { IfOk result (λ row. trees (map tree_of row.items) ≡ relaxed_is.extended_row (trees (map tree_of children.now))) }
{
    let mut row = Vec::new(alloc);
    for i in 0..children.len() {
        let child = &children[i];
        let copy = if i + 1 < children.len() {
            relaxed(alloc, child)?
        } else {
            extended(alloc, child)?
        };
        row.push(copy)?;
    }
    Ok(row)
}

/// Copies of branches. The error is want of memory.
#[cycle(extended)]
fn extended_branches(alloc: Global, children: &[Expr]) -> Result<Vec<Expr>, AllocError>
    ensures { IfOk result (λ row. trees (map tree_of row.items) ≡ relaxed_is.extended_branches (trees (map tree_of children.now))) }
{
    let mut row = Vec::new(alloc);
    for child in children {
        row.push(extended(alloc, child)?)?;
    }
    Ok(row)
}
