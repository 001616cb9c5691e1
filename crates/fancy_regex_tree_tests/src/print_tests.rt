//! Tests of `Expr::to_str` after other text, and of trees that no parser makes and that have no text.

use fancy_regex_tree::{Assertion, Expr};
use std::alloc::{AllocError, Global};
use std::test::Fail;

/// A tree to print.
#[derive(Clone, Copy)]
enum Shape {
    /// A case-sensitive literal of these characters.
    Literal(&'static str),
    /// A class of this text.
    Class(&'static str),
    /// The boundary of a word.
    Boundary,
}

/// The tree of a shape.
fn tree_of(alloc: Global, shape: Shape) -> Result<Expr, AllocError> {
    match shape {
        Shape::Literal(text) => Ok(Expr::Literal {
            val: String::from_str(alloc, text)?,
            casei: false,
        }),
        Shape::Class(text) => Ok(Expr::Delegate {
            inner: String::from_str(alloc, text)?,
            casei: false,
        }),
        Shape::Boundary => Ok(Expr::Assertion(Assertion::WordBoundary)),
    }
}

/// The tree of a shape; with `repeated` set it is repeated lazily two or three times.
fn tree_or_repeat(alloc: Global, shape: Shape, repeated: bool) -> Result<Expr, AllocError> {
    let tree = tree_of(alloc, shape)?;
    if !repeated {
        return Ok(tree);
    }
    Ok(Expr::Repeat {
        child: Box::new(alloc, tree)?,
        lo: 2,
        hi: 3,
        greedy: false,
    })
}

/// The text `x` with that of the tree after it, as a part that may be repeated; empty where the tree is not printable.
fn printed(alloc: Global, shape: Shape, repeated: bool) -> Result<String, AllocError> {
    let expr = tree_or_repeat(alloc, shape, repeated)?;
    let mut text = String::new(alloc);
    if expr.is_printable(alloc)? {
        text.push('x')?;
        expr.to_str(&mut text, 3)?;
    }
    Ok(text)
}

/// Shapes, whether they are repeated, and their texts after `x`.
static PRINTED: [(Shape, bool, &str); 4] = [
    (Shape::Literal("é"), true, "x(?:é{2,3}?)"),
    (Shape::Boundary, true, ""),
    (Shape::Class("\\p{L}a"), false, ""),
    (Shape::Literal("ab"), false, ""),
];

#[test]
fn prints_after_what_the_buffer_holds(rt: HostRuntime) -> Result<(), Fail> {
    for (shape, repeated, wanted) in PRINTED.iter() {
        let found = printed(rt.alloc(), *shape, *repeated)?;
        assert_eq!(rt; found.as_str(), *wanted);
    }
    Ok(())
}
