//! Copies of trees. Each copy may run out of memory; there is no `Clone`.

ghost use Rattle.std.specs.Prelude.{◌≡◌, IfOk, option_map, map, string_bytes, chars};
ghost use Rattle.fancy_regex_tree.specs.Tree.{literal, delegate, tree_of, absent_tree_of, ast_tree_of, target_of};

use crate::expr::{Absent, AstNode, CaptureGroupTarget, Expr};
use crate::tree_builders::repeat_of;
use std::alloc::{AllocError, Global};

impl CaptureGroupTarget {
    /// A copy of the target.
    ///
    /// # Errors
    ///
    /// `AllocError` if an allocation fails.
    pub fn try_clone(&self, alloc: Global) -> Result<CaptureGroupTarget, AllocError>
        ensures { IfOk result (λ copy. target_of copy ≡ target_of self.now) }
    {
        match self {
            CaptureGroupTarget::ByNumber(number) => Ok(CaptureGroupTarget::ByNumber(*number)),
            CaptureGroupTarget::ByName(name) => {
                Ok(CaptureGroupTarget::ByName(String::from_str(alloc, name)?))
            }
            CaptureGroupTarget::Relative(distance) => Ok(CaptureGroupTarget::Relative(*distance)),
        }
    }
}

/// A copy of a group name, if there is one.
fn copy_name(alloc: Global, name: &Option<String>) -> Result<Option<String>, AllocError>
    ensures { IfOk result (λ copy. option_map (λ s. chars (string_bytes s)) copy ≡ option_map (λ s. chars (string_bytes s)) name.now) }
{
    match name {
        Some(name) => Ok(Some(String::from_str(alloc, name)?)),
        None => Ok(None),
    }
}

impl Absent {
    /// A deep copy of the operator.
    ///
    /// # Errors
    ///
    /// `AllocError` if an allocation fails.
    #[cycle(copy)]
    pub fn try_clone(&self, alloc: Global) -> Result<Absent, AllocError>
        ensures { IfOk result (λ copy. absent_tree_of copy ≡ absent_tree_of self.now) }
    {
        match self {
            Absent::Repeater(child) => Ok(Absent::Repeater(copy_child(alloc, child)?)),
            Absent::Expression { absent, exp } => Ok(Absent::Expression {
                absent: copy_child(alloc, absent)?,
                exp: copy_child(alloc, exp)?,
            }),
            Absent::Stopper(child) => Ok(Absent::Stopper(copy_child(alloc, child)?)),
            Absent::Clear => Ok(Absent::Clear),
        }
    }
}

impl AstNode {
    /// A deep copy of the node.
    ///
    /// # Errors
    ///
    /// `AllocError` if an allocation fails.
    #[cycle(copy)]
    pub fn try_clone(&self, alloc: Global) -> Result<AstNode, AllocError>
        ensures { IfOk result (λ copy. ast_tree_of copy ≡ ast_tree_of self.now) }
    {
        match self {
            AstNode::AstGroup { name, inner } => Ok(AstNode::AstGroup {
                name: copy_name(alloc, name)?,
                inner: copy_child(alloc, inner)?,
            }),
            AstNode::Backref {
                target,
                casei,
                relative_recursion_level,
            } => Ok(AstNode::Backref {
                target: target.try_clone(alloc)?,
                casei: *casei,
                relative_recursion_level: *relative_recursion_level,
            }),
            AstNode::SubroutineCall(target) => {
                Ok(AstNode::SubroutineCall(target.try_clone(alloc)?))
            }
            AstNode::BackrefExistsCondition {
                target,
                relative_recursion_level,
            } => Ok(AstNode::BackrefExistsCondition {
                target: target.try_clone(alloc)?,
                relative_recursion_level: *relative_recursion_level,
            }),
        }
    }
}

/// A literal with a copy of this text.
fn copy_literal(alloc: Global, val: &String, casei: bool) -> Result<Expr, AllocError>
    ensures { IfOk result (λ copy. tree_of copy ≡ literal (chars (string_bytes val.now)) casei) }
{
    let val = String::from_str(alloc, val)?;
    Ok(Expr::Literal { val, casei })
}

/// A character class with a copy of this text.
fn copy_class(alloc: Global, inner: &String, casei: bool) -> Result<Expr, AllocError>
    ensures { IfOk result (λ copy. tree_of copy ≡ delegate (chars (string_bytes inner.now)) casei) }
{
    let inner = String::from_str(alloc, inner)?;
    Ok(Expr::Delegate { inner, casei })
}

impl Expr {
    /// A deep copy of the tree.
    ///
    /// # Errors
    ///
    /// `AllocError` if an allocation fails.
    #[cycle(copy)]
    pub fn try_clone(&self, alloc: Global) -> Result<Expr, AllocError>
        ensures { IfOk result (λ copy. tree_of copy ≡ tree_of self.now) }
    {
        match self {
            Expr::Empty => Ok(Expr::Empty),
            &Expr::Any { newline, crlf } => Ok(Expr::Any { newline, crlf }),
            Expr::Assertion(assertion) => Ok(Expr::Assertion(*assertion)),
            Expr::GeneralNewline { unicode } => Ok(Expr::GeneralNewline { unicode: *unicode }),
            Expr::Literal { val, casei } => copy_literal(alloc, val, *casei),
            Expr::LiteralBytes { bytes } => Ok(Expr::LiteralBytes {
                bytes: Vec::from_slice(alloc, bytes)?,
            }),
            Expr::Concat(children) => Ok(Expr::Concat(copy_all(alloc, children)?)),
            Expr::Alt(children) => Ok(Expr::Alt(copy_all(alloc, children)?)),
            Expr::Group(child) => Ok(Expr::Group(copy_child(alloc, child)?)),
            Expr::LookAround(child, look) => {
                Ok(Expr::LookAround(copy_child(alloc, child)?, *look))
            }
            Expr::Repeat {
                child,
                lo,
                hi,
                greedy,
            } => Ok(repeat_of(copy_child(alloc, child)?, *lo, *hi, *greedy)),
            Expr::Delegate { inner, casei } => copy_class(alloc, inner, *casei),
            &Expr::Backref { group, casei } => Ok(Expr::Backref { group, casei }),
            Expr::BackrefWithRelativeRecursionLevel {
                group,
                relative_level,
                casei,
            } => Ok(Expr::BackrefWithRelativeRecursionLevel {
                group: *group,
                relative_level: *relative_level,
                casei: *casei,
            }),
            Expr::AtomicGroup(child) => Ok(Expr::AtomicGroup(copy_child(alloc, child)?)),
            Expr::KeepOut => Ok(Expr::KeepOut),
            Expr::ContinueFromPreviousMatchEnd => Ok(Expr::ContinueFromPreviousMatchEnd),
            Expr::BackrefExistsCondition {
                group,
                relative_recursion_level,
            } => Ok(Expr::BackrefExistsCondition {
                group: *group,
                relative_recursion_level: *relative_recursion_level,
            }),
            Expr::Conditional {
                condition,
                true_branch,
                false_branch,
            } => Ok(Expr::Conditional {
                condition: copy_child(alloc, condition)?,
                true_branch: copy_child(alloc, true_branch)?,
                false_branch: copy_child(alloc, false_branch)?,
            }),
            Expr::SubroutineCall(group) => Ok(Expr::SubroutineCall(*group)),
            Expr::BacktrackingControlVerb(verb) => Ok(Expr::BacktrackingControlVerb(*verb)),
            Expr::Absent(absent) => Ok(Expr::Absent(absent.try_clone(alloc)?)),
            Expr::DefineGroup { definitions } => Ok(Expr::DefineGroup {
                definitions: copy_child(alloc, definitions)?,
            }),
            Expr::AstNode(node, position) => Ok(Expr::AstNode(node.try_clone(alloc)?, *position)),
        }
    }
}

/// A deep copy of a boxed child.
#[cycle(copy)]
fn copy_child(alloc: Global, child: &Box<Expr>) -> Result<Box<Expr>, AllocError>
    ensures { IfOk result (λ copy. tree_of copy.value ≡ tree_of child.now.value) }
{
    Ok(Box::new(alloc, child.try_clone(alloc)?)?)
}

/// Deep copies of all children.
#[cycle(copy)]
fn copy_all(alloc: Global, children: &[Expr]) -> Result<Vec<Expr>, AllocError>
    ensures { IfOk result (λ copy. map tree_of copy.items ≡ map tree_of children.now) }
{
    let mut all = Vec::new(alloc);
    for i in 0..children.len() {
        all.push(children[i].try_clone(alloc)?)?;
    }
    Ok(all)
}
