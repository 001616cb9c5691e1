//! Numbers capture groups and resolves references to them.

ghost use Rattle.std.specs.Prelude.{◌≡◌, suc, IfOk, IfErr, map, option_map, chars, string_bytes};
ghost use Rattle.fancy_regex_tree.specs.Tree.{tree_of, absent_tree_of, ast_tree_of, target_of, trees};
ghost use Rattle.fancy_regex_tree.specs.Numbering.{AgreesWith, lookup_in, relative_number, relative_target, is_within, named_target, group_target, call_target, counts, backref_of, resolved};
ghost use Rattle.fancy_regex_tree.specs.Numbering.{all_resolved};
ghost use Rattle.fancy_regex_tree.specs.declared.error.Error.TheVariants as errors;

use crate::error::{Error, Result};
use crate::expr::{Absent, AstNode, CaptureGroupTarget, Expr};
use crate::expr_tree::NamedGroups;
use crate::tree_builders::repeat_of;
use fancy_regex_lex::ParseError;
use std::mem;

/// The capture groups that references are resolved against.
#[derive(Drop)]
pub struct Resolver<'g> {
    /// The numbers of the groups of each name.
    pub named: &'g NamedGroups,
    /// Whether unnamed groups get no number.
    pub ignored: bool,
}

/// The group number of a relative reference with `openings` groups opened before it: -1 is the last of these, 1 the next one.
/// `None` if there is no such group.
fn relative_number(openings: usize, distance: isize) -> Option<usize>
    ensures { result ≡ relative_number openings distance }
{
    if distance > 0 {
        return Some(openings.saturating_add(distance.unsigned_abs()));
    }
    let back = distance.unsigned_abs();
    if back == 0 || back > openings {
        return None;
    }
    Some(openings - back + 1)
}

/// One more than `openings`. A tree in which this overflows does not fit in memory.
fn next(openings: usize) -> Result<usize>
    ensures ok { IfOk result (λ n. n ≡ suc openings) }
    ensures memory { IfErr result (λ e. e ≡ errors.Memory) }
{
    openings.checked_add(1).ok_or(Error::Memory)
}

/// The group number of a relative back reference or condition at the byte offset `position`; without a group it is the error
/// `InvalidBackref` there.
fn relative_target(openings: usize, position: usize, distance: isize) -> Result<usize>
    ensures { AgreesWith (λ g. g) result (relative_target openings position distance) }
{
    match relative_number(openings, distance) {
        Some(group) => Ok(group),
        None => Err(Error::ParseError(position, ParseError::InvalidBackref)),
    }
}

/// Whether the group number is at most the limit, if there is one.
fn is_within(limit: Option<usize>, group: usize) -> bool
    ensures { result ≡ is_within limit group }
{
    match limit {
        Some(limit) => group <= limit,
        None => true,
    }
}

/// The group number of a back reference or condition by name at the byte offset `position`. Without a group, or with one above
/// the limit, it is the error `InvalidGroupNameBackref` there.
fn named_target(
    limit: Option<usize>,
    group: Option<usize>,
    position: usize,
    name: String,
) -> Result<usize>
    ensures { AgreesWith (λ g. g) result (named_target limit group position (chars (string_bytes name))) }
{
    match group {
        Some(group) if is_within(limit, group) => Ok(group),
        _ => Err(Error::ParseError(position, ParseError::InvalidGroupNameBackref(name))),
    }
}

impl Resolver<'_> {
    /// The number of the last group with this name.
    fn last_named(&self, name: &str) -> Option<usize>
        ensures { result ≡ lookup_in self.now.named.now (chars name.now) }
    {
        let numbers = self.named.get(name)?;
        numbers.last().copied()
    }

    /// The group number of a back reference or condition at the byte offset `position`, with `openings` groups opened before it.
    /// A group by name must be at most `limit`.
    fn group_target(
        &self,
        limit: Option<usize>,
        openings: usize,
        position: usize,
        target: CaptureGroupTarget,
    ) -> Result<usize>
        ensures { AgreesWith (λ g. g) result (group_target (lookup_in self.now.named.now) limit openings position (target_of target)) }
    {
        match target {
            CaptureGroupTarget::ByNumber(number) => Ok(number),
            CaptureGroupTarget::Relative(distance) => relative_target(openings, position, distance),
            CaptureGroupTarget::ByName(name) => {
                let group = self.last_named(&name);
                named_target(limit, group, position, name)
            }
        }
    }

    /// The group number of a call with `openings` groups opened before it; `None` if there is no such group.
    fn call_target(&self, openings: usize, target: &CaptureGroupTarget) -> Option<usize>
        ensures { result ≡ call_target (lookup_in self.now.named.now) openings (target_of target.now) }
    {
        match target {
            CaptureGroupTarget::ByNumber(number) => Some(*number),
            CaptureGroupTarget::Relative(distance) => relative_number(openings, *distance),
            CaptureGroupTarget::ByName(name) => self.last_named(name),
        }
    }

    /// Whether a capture group with this name, or none, gets a number.
    fn counts(&self, name: &Option<String>) -> bool
        ensures { result ≡ counts self.now.ignored (option_map (λ s. chars (string_bytes s)) name.now) }
    {
        name.is_some() || !self.ignored
    }

    /// Resolves the references in a tree with `openings` groups opened before it; answers how many groups have opened before its
    /// end. Fails at the first reference without a group, with its byte offset, or if memory runs out; the tree is then empty.
    #[cycle(resolve)]
    pub fn resolve(&self, expr: &mut Expr, openings: usize) -> Result<usize>
        ensures { AgreesWith (λ n. (tree_of expr.new, n)) result
            (resolved self.now.ignored (lookup_in self.now.named.now) openings (tree_of expr.old)) }
    {
        let node = mem::replace(expr, Expr::Empty);
        let (node, openings) = self.resolved(node, openings)?;
        *expr = node;
        Ok(openings)
    }

    /// Resolves a tree by value; answers the tree, and how many groups have opened before its end.
    #[cycle(resolve)]
    fn resolved(&self, expr: Expr, openings: usize) -> Result<(Expr, usize)>
        ensures { AgreesWith (λ r. (tree_of r.0, r.1)) result
            (resolved self.now.ignored (lookup_in self.now.named.now) openings (tree_of expr)) }
    {
        match expr {
            Expr::Concat(mut children) => {
                let openings = self.resolve_all(&mut children, openings)?;
                Ok((Expr::Concat(children), openings))
            }
            Expr::Alt(mut children) => {
                let openings = self.resolve_all(&mut children, openings)?;
                Ok((Expr::Alt(children), openings))
            }
            Expr::Group(mut child) => {
                let openings = self.resolve(&mut child, next(openings)?)?;
                Ok((Expr::Group(child), openings))
            }
            Expr::LookAround(mut child, look) => {
                let openings = self.resolve(&mut child, openings)?;
                Ok((Expr::LookAround(child, look), openings))
            }
            Expr::Repeat {
                mut child,
                lo,
                hi,
                greedy,
            } => {
                let openings = self.resolve(&mut child, openings)?;
                Ok((repeat_of(child, lo, hi, greedy), openings))
            }
            Expr::AtomicGroup(mut child) => {
                let openings = self.resolve(&mut child, openings)?;
                Ok((Expr::AtomicGroup(child), openings))
            }
            Expr::Conditional {
                mut condition,
                mut true_branch,
                mut false_branch,
            } => {
                let openings = self.resolve(&mut condition, openings)?;
                let openings = self.resolve(&mut true_branch, openings)?;
                let openings = self.resolve(&mut false_branch, openings)?;
                let conditional = Expr::Conditional {
                    condition,
                    true_branch,
                    false_branch,
                };
                Ok((conditional, openings))
            }
            Expr::Absent(absent) => {
                let (absent, openings) = self.resolved_absent(absent, openings)?;
                Ok((Expr::Absent(absent), openings))
            }
            Expr::DefineGroup { mut definitions } => {
                let openings = self.resolve(&mut definitions, openings)?;
                Ok((Expr::DefineGroup { definitions }, openings))
            }
            Expr::AstNode(node, position) => self.resolved_node(node, position, openings),
            leaf => Ok((leaf, openings)),
        }
    }

    /// Resolves several trees in order; answers how many groups have opened before their end.
    #[cycle(resolve)]
    fn resolve_all(&self, children: &mut [Expr], openings: usize) -> Result<usize>
        ensures { AgreesWith (λ n. (trees (map tree_of children.new), n)) result
            (all_resolved self.now.ignored (lookup_in self.now.named.now) openings (trees (map tree_of children.old))) }
    {
        let mut reached = openings;
        for i in 0..children.len() {
            reached = self.resolve(&mut children[i], reached)?;
        }
        Ok(reached)
    }

    /// Resolves an absent operator; answers it, and how many groups have opened before its end.
    #[cycle(resolve)]
    fn resolved_absent(&self, absent: Absent, openings: usize) -> Result<(Absent, usize)>
        ensures { AgreesWith (λ r. (absent_tree_of r.0, r.1)) result
            (resolved self.now.ignored (lookup_in self.now.named.now) openings (absent_tree_of absent)) }
    {
        match absent {
            Absent::Repeater(mut child) => {
                let openings = self.resolve(&mut child, openings)?;
                Ok((Absent::Repeater(child), openings))
            }
            Absent::Expression {
                mut absent,
                mut exp,
            } => {
                let openings = self.resolve(&mut absent, openings)?;
                let openings = self.resolve(&mut exp, openings)?;
                Ok((Absent::Expression { absent, exp }, openings))
            }
            Absent::Stopper(mut child) => {
                let openings = self.resolve(&mut child, openings)?;
                Ok((Absent::Stopper(child), openings))
            }
            Absent::Clear => Ok((Absent::Clear, openings)),
        }
    }

    /// Resolves a node at the byte offset `position`; answers its new node, and how many groups have opened before its end. A call
    /// without a group stays unresolved.
    #[cycle(resolve)]
    fn resolved_node(
        &self,
        node: AstNode,
        position: usize,
        openings: usize,
    ) -> Result<(Expr, usize)>
        ensures { AgreesWith (λ r. (tree_of r.0, r.1)) result
            (resolved self.now.ignored (lookup_in self.now.named.now) openings (ast_tree_of node position)) }
    {
        match node {
            AstNode::AstGroup { name, mut inner } => {
                if !self.counts(&name) {
                    let openings = self.resolve(&mut inner, openings)?;
                    return Ok((Box::into_inner(inner), openings));
                }
                let openings = self.resolve(&mut inner, next(openings)?)?;
                Ok((Expr::Group(inner), openings))
            }
            AstNode::Backref {
                target,
                casei,
                relative_recursion_level,
            } => {
                let group = self.group_target(Some(openings), openings, position, target)?;
                Ok((backref(group, relative_recursion_level, casei), openings))
            }
            AstNode::BackrefExistsCondition {
                target,
                relative_recursion_level,
            } => {
                let group = self.group_target(None, openings, position, target)?;
                Ok((
                    Expr::BackrefExistsCondition {
                        group,
                        relative_recursion_level,
                    },
                    openings,
                ))
            }
            AstNode::SubroutineCall(target) => {
                let node = match self.call_target(openings, &target) {
                    Some(group) => Expr::SubroutineCall(group),
                    None => Expr::AstNode(AstNode::SubroutineCall(target), position),
                };
                Ok((node, openings))
            }
        }
    }
}

/// A resolved back reference, with its recursion level if it has one.
fn backref(group: usize, level: Option<isize>, casei: bool) -> Expr
    ensures { tree_of result ≡ backref_of level casei group }
{
    match level {
        Some(relative_level) => Expr::BackrefWithRelativeRecursionLevel {
            group,
            relative_level,
            casei,
        },
        None => Expr::Backref { group, casei },
    }
}
