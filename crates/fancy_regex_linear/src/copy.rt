//! Copies of nodes.

ghost use Rattle.std.specs.Prelude.{◌≡◌, IfOk};
ghost use Rattle.fancy_regex_linear.specs.Re.{shape, shapes};

use crate::node::Node;
use std::alloc::{AllocError, Global};

/// The same node once more. The error is want of memory.
#[cycle(copy)]
pub fn copied(alloc: Global, node: &Node) -> Result<Node, AllocError>
    ensures { IfOk result (λ made. shape made ≡ shape node.now) }
{
    match node {
        Node::Empty => Ok(Node::Empty),
        Node::Read(leaf) => Ok(Node::Read(*leaf)),
        Node::Look(test) => Ok(Node::Look(*test)),
        Node::Concat(parts) => {
            let made = all_copied(alloc, parts)?;
            Ok(Node::Concat(made))
        }
        Node::Alt(parts) => {
            let made = all_copied(alloc, parts)?;
            Ok(Node::Alt(made))
        }
        Node::Group { number, body } => {
            let body = boxed_copy(alloc, body)?;
            Ok(Node::Group {
                number: *number,
                body,
            })
        }
        Node::Repeat { body, quantifier } => {
            let body = boxed_copy(alloc, body)?;
            Ok(Node::Repeat {
                body,
                quantifier: *quantifier,
            })
        }
        Node::Ask {
            negated,
            back,
            body,
        } => {
            let body = boxed_copy(alloc, body)?;
            Ok(Node::Ask {
                negated: *negated,
                back: *back,
                body,
            })
        }
        Node::Atomic(body) => {
            let body = boxed_copy(alloc, body)?;
            Ok(Node::Atomic(body))
        }
        Node::Conditional {
            condition,
            true_branch,
            false_branch,
        } => {
            let condition = boxed_copy(alloc, condition)?;
            let true_branch = boxed_copy(alloc, true_branch)?;
            let false_branch = boxed_copy(alloc, false_branch)?;
            Ok(Node::Conditional {
                condition,
                true_branch,
                false_branch,
            })
        }
    }
}

/// A copy of the node, in a box. The error is want of memory.
#[cycle(copy)]
fn boxed_copy(alloc: Global, node: &Node) -> Result<Box<Node>, AllocError>
    ensures { IfOk result (λ made. shape made.value ≡ shape node.now) }
{
    let made = copied(alloc, node)?;
    Ok(Box::new(alloc, made)?)
}

/// Copies of all these nodes. The error is want of memory.
#[cycle(copy)]
fn all_copied(alloc: Global, nodes: &[Node]) -> Result<Vec<Node>, AllocError>
    ensures { IfOk result (λ made. shapes made.items ≡ shapes nodes.now) }
{
    let mut all = Vec::new(alloc);
    for i in 0..nodes.len() {
        let made = copied(alloc, &nodes[i])?;
        all.push(made)?;
    }
    Ok(all)
}
