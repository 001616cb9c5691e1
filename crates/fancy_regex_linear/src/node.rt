//! The simplified syntax tree of an easy pattern, from which states are made.

use fancy_regex_states::{Leaf, Test};

/// How often a body is repeated.
#[derive(Clone, Copy)]
pub struct Quantifier {
    /// The least count of iterations.
    pub lo: usize,
    /// The greatest count of iterations; `usize::MAX` for no bound.
    pub hi: usize,
    /// Whether another iteration is preferred to the exit.
    pub greedy: bool,
    /// Whether each match of the body consumes a character.
    pub moves: bool,
}

/// A node of the simplified tree. Character classes are numbers into a table of matchers.
#[derive(Drop)]
pub enum Node {
    /// The empty string.
    Empty,
    /// One character.
    Read(Leaf),
    /// A zero-width assertion.
    Look(Test),
    /// A concatenation.
    Concat(Vec<Node>),
    /// An alternation; earlier branches are preferred.
    Alt(Vec<Node>),
    /// A capture group.
    Group {
        /// The number of the group.
        number: usize,
        body: Box<Node>,
    },
    /// A repeated body.
    Repeat {
        body: Box<Node>,
        quantifier: Quantifier,
    },
    /// A look-around: whether the body matches from so many characters before or, where `negated`, does not. A look-ahead steps back over
    /// none.
    Ask {
        negated: bool,
        back: usize,
        body: Box<Node>,
    },
    /// The first match of the body alone.
    Atomic(Box<Node>),
    /// A conditional: where the condition matches here, its first match and then the one branch, else the other.
    Conditional {
        condition: Box<Node>,
        true_branch: Box<Node>,
        false_branch: Box<Node>,
    },
}
