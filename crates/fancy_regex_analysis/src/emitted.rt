//! Which parts of a pattern the compiler emits code for: subroutine calls are expanded in place, so the body of a called
//! group is emitted in the context of the call.

ghost use Rattle.std.specs.Prelude.{◌≡◌, ◌++◌, map, filter_map, IfOk};
ghost use Rattle.fancy_regex_tree.specs.Tree.{tree_of, absent_tree_of};
ghost use Rattle.fancy_regex_analysis.specs.EmittedParts.{in_look_around as inside_look_around, emitted_parts, part_at, call_in, call_of};
ghost use Rattle.fancy_regex_analysis.specs.EmittedParts.{skips_children, inside_of_children, was_visited_in, with_visited_in};
ghost use Rattle.fancy_regex_analysis.specs.declared.emitted.Inside.TheVariants as inside;

use fancy_regex_tree::{Absent, Expr};
use std::alloc::{AllocError, Global};

/// The innermost enclosing construct that matters, also across subroutine calls.
#[derive(Clone, Copy, Debug, PartialEq, Eq)]
pub(crate) enum Inside {
    /// Neither a look-around nor an absent operator.
    Nothing,
    /// A look-around, but no absent operator.
    LookAround,
    /// An absent operator.
    Absent,
}

impl Inside {
    /// The context of the body of a look-around that is in this context.
    pub(crate) fn in_look_around(self) -> Inside
        ensures { result ≡ inside_look_around self }
    {
        match self {
            Inside::Nothing | Inside::LookAround => Inside::LookAround,
            Inside::Absent => Inside::Absent,
        }
    }
}

/// A subroutine call of a group, and its context.
#[derive(Clone, Copy, Debug, PartialEq, Eq)]
pub(crate) struct EmittedCall {
    /// The number of the called group.
    pub group: usize,
    /// The context of the call.
    pub inside: Inside,
}

/// The contexts in which the body of a group was already visited.
#[derive(Clone, Copy, Debug, PartialEq, Eq)]
pub(crate) struct Visited {
    /// In `Inside::Nothing`.
    pub nothing: bool,
    /// In `Inside::LookAround`.
    pub look_around: bool,
    /// In `Inside::Absent`.
    pub absent: bool,
}

impl Visited {
    /// Whether the body was visited in this context.
    pub(crate) fn was_visited_in(self, inside: Inside) -> bool
        ensures { result ≡ was_visited_in self inside }
    {
        match inside {
            Inside::Nothing => self.nothing,
            Inside::LookAround => self.look_around,
            Inside::Absent => self.absent,
        }
    }

    /// Adds this context.
    pub(crate) fn with(self, inside: Inside) -> Visited
        ensures { result ≡ with_visited_in self inside }
    {
        match inside {
            Inside::Nothing => Visited {
                nothing: true,
                ..self
            },
            Inside::LookAround => Visited {
                look_around: true,
                ..self
            },
            Inside::Absent => Visited {
                absent: true,
                ..self
            },
        }
    }
}

/// A part of a pattern that code is emitted for.
#[derive(Clone, Copy, Debug)]
pub(crate) struct EmittedPart<'t> {
    /// The node.
    pub expr: &'t Expr,
    /// The context of the node.
    pub inside: Inside,
}

/// The parts of the tree that code is emitted for, in preorder, each with its context. Definitions and bodies quantified
/// `{0}` emit no code. Fails only if memory runs out.
pub(crate) fn emitted_parts<'t>(
    alloc: Global,
    expr: &'t Expr,
    inside: Inside,
) -> Result<Vec<EmittedPart<'t>>, AllocError>
    ensures { IfOk result (λ parts. map part_at parts.items ≡ emitted_parts inside (tree_of expr.now)) }
{
    let mut parts = Vec::new(alloc);
    add_emitted_parts(expr, inside, &mut parts)?;
    Ok(parts)
}

/// Appends the parts of the tree that code is emitted for.
fn add_emitted_parts<'t>(
    expr: &'t Expr,
    inside: Inside,
    parts: &mut Vec<EmittedPart<'t>>,
) -> Result<(), AllocError>
    ensures { IfOk result (λ _. map part_at parts.new.items ≡ map part_at parts.old.items ++ emitted_parts inside (tree_of expr.now)) }
{
    parts.push(EmittedPart { expr, inside })?;
    if skips_children(expr) {
        return Ok(());
    }
    let inside_children = inside_of_children(expr, inside);
    for child in expr.subtrees_iter() {
        add_emitted_parts(child, inside_children, parts)?;
    }
    Ok(())
}

/// Whether no code is emitted for the children of the node, as for definitions and a body quantified `{0}`.
fn skips_children(node: &Expr) -> bool
    ensures { result ≡ skips_children (tree_of node.now) }
{
    match node {
        Expr::Repeat { hi, .. } => *hi == 0,
        Expr::DefineGroup { .. } => true,
        _ => false,
    }
}

/// The context of the children of a node that is in this context.
fn inside_of_children(node: &Expr, inside: Inside) -> Inside
    ensures { result ≡ inside_of_children inside (tree_of node.now) }
{
    match node {
        Expr::LookAround(_, _) => inside.in_look_around(),
        Expr::Absent(absent) => inside_of_absent(absent, inside),
        _ => inside,
    }
}

/// The context of the children of an absent operator: the operator, whatever encloses it.
fn inside_of_absent(absent: &Absent, inside: Inside) -> Inside
    ensures { result ≡ inside_of_children inside (absent_tree_of absent.now) }
{
    match absent {
        Absent::Repeater(_) | Absent::Stopper(_) | Absent::Expression { .. } => Inside::Absent,
        Absent::Clear => inside,
    }
}

/// Appends the subroutine calls among the parts, in their order, each with its context. Fails only if memory runs out.
pub(crate) fn add_emitted_calls(
    parts: &[EmittedPart<'_>],
    calls: &mut Vec<EmittedCall>,
) -> Result<(), AllocError>
    ensures { IfOk result (λ _. calls.new.items ≡ calls.old.items ++ filter_map call_of (map part_at parts.now)) }
{
    for part in parts {
        if let Some(call) = call_of(part.expr, part.inside) {
            calls.push(call)?;
        }
    }
    Ok(())
}

/// The call that the node is, if it is a subroutine call.
fn call_of(node: &Expr, inside: Inside) -> Option<EmittedCall>
    ensures { result ≡ call_in inside (tree_of node.now) }
{
    match node {
        Expr::SubroutineCall(group) => Some(EmittedCall {
            group: *group,
            inside,
        }),
        _ => None,
    }
}
