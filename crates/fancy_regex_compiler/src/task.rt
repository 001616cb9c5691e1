//! What is left to emit.

use crate::closing::Closing;
use crate::emitter::Scope;
use fancy_regex_info::Info;
use fancy_regex_tree::Expr;

/// A part of a program that is still to be emitted.
#[derive(Clone, Copy)]
pub(crate) enum Task<'i, 'e> {
    /// A node; with `steps_back` it first goes back by its own length.
    Node {
        /// The node.
        info: &'i Info<'e>,
        /// Whether it goes back first.
        steps_back: bool,
        /// Its context.
        scope: Scope,
    },
    /// A body of which only the first way matters, or only whether there is one.
    Body {
        /// The body.
        body: &'e Expr,
        /// Whether it only matters that there is a way.
        for_any: bool,
        /// What the analysis says of it.
        info: &'i Info<'e>,
        /// Its context.
        scope: Scope,
    },
    /// The whole pattern.
    Whole {
        /// Its root.
        info: &'i Info<'e>,
        /// Its context.
        scope: Scope,
    },
    /// The last parts of a concatenation that is the whole pattern, all of them plain.
    Tail {
        /// The parts.
        parts: &'i [Info<'e>],
        /// Their context.
        scope: Scope,
    },
    /// The parts of a concatenation.
    Row {
        /// The parts.
        parts: &'i [Info<'e>],
        /// Their context.
        scope: Scope,
    },
    /// The branches of an alternation; with `steps_back` each first goes back by its own length.
    Branches {
        /// The branches.
        branches: &'i [Info<'e>],
        /// Whether each goes back first.
        steps_back: bool,
        /// Their context.
        scope: Scope,
    },
    /// Branches that are tried where the one that was just emitted does not match: its end, and then they.
    Otherwise {
        /// The index of the split in front of the branch that was emitted.
        split: usize,
        /// The index of that branch.
        first: usize,
        /// The other branches.
        branches: &'i [Info<'e>],
        /// Whether each goes back first.
        steps_back: bool,
        /// Their context.
        scope: Scope,
    },
    /// The branches of a conditional, whose condition was just emitted.
    Tested {
        /// The slot of the height of the backtrack stack.
        slot: usize,
        /// The index of the split in front of the condition.
        split: usize,
        /// The index of the condition.
        first: usize,
        /// What is matched where the condition matches.
        yes: &'i Info<'e>,
        /// What is matched where it does not.
        no: &'i Info<'e>,
        /// Their context.
        scope: Scope,
    },
    /// The end of a construct.
    Close(Closing),
    /// The end of a call that was inlined.
    EndCall,
}

/// The tasks that a task leads to, at most two.
#[derive(Clone, Copy)]
pub(crate) enum Tasks<'i, 'e> {
    /// None.
    Nothing,
    /// One task.
    One(Task<'i, 'e>),
    /// One task, and then another one.
    Two {
        /// The task that comes next.
        first: Task<'i, 'e>,
        /// The task that comes after it.
        then: Task<'i, 'e>,
    },
}

/// What a task left: the first free slot, and the tasks that come next.
#[derive(Clone, Copy)]
pub(crate) struct Step<'i, 'e> {
    /// The first free slot.
    pub slot: usize,
    /// The tasks.
    pub tasks: Tasks<'i, 'e>,
}
