//! States of a pattern, from its nodes.

ghost use Rattle.std.specs.Prelude.{◌≡◌, ◌≤◌, IfOk, length, vec_len};
ghost use Rattle.fancy_regex_linear.specs.Re.{shape, shapes, cats, alts};
ghost use Rattle.fancy_regex_linear.specs.Program.{emitted, emitted_back, emitted_part, emitted_both, emitted_repeat, emitted_times, emitted_upto, emitted_star, emitted_many};
ghost use Rattle.fancy_regex_linear.specs.Meaning.{is_unbounded};

use crate::emit_both::emit_both;
use crate::node::{Node, Quantifier};
use crate::state::{add, add_choice, make_head};
use fancy_regex_states::State;
use std::alloc::AllocError;

/// Adds the states of a node that continues at state `next`, and returns its entry state. The error is want of memory.
#[tactic(auto, unfolding(crate::specs::Program::emitted))]
#[cycle(emit)]
pub fn emit(node: &Node, states: &mut Vec<State>, next: usize) -> Result<usize, AllocError>
    ensures longer { IfOk result (λ _. vec_len states.old ≤ vec_len states.new) }
    ensures made { IfOk result (λ n. emitted (shape node.now) states.old.items next ≡ (states.new.items, n)) }
{
    match node {
        Node::Empty => Ok(next),
        Node::Read(leaf) => add(states, State::Read { leaf: *leaf, next }),
        Node::Look(test) => add(states, State::Look { test: *test, next }),
        Node::Concat(parts) => emit_row(parts, states, next),
        Node::Alt(parts) => emit_branches(parts, states, next),
        Node::Group { number, body } => {
            let close = add(
                states,
                State::Leave {
                    group: *number,
                    next,
                },
            )?;
            let entry = emit(body, states, close)?;
            add(
                states,
                State::Enter {
                    group: *number,
                    next: entry,
                },
            )
        }
        Node::Repeat { body, quantifier } => emit_repeat(body, *quantifier, states, next),
        Node::Ask {
            negated,
            back,
            body,
        } => {
            let entry = emit_part(body, states)?;
            let part = emit_back(*back, states, entry)?;
            add(
                states,
                State::Ask {
                    part,
                    negated: *negated,
                    next,
                },
            )
        }
        Node::Atomic(body) => {
            let part = emit_part(body, states)?;
            add(
                states,
                State::Atomic {
                    part,
                    same: next,
                    moved: next,
                },
            )
        }
        Node::Conditional {
            condition,
            true_branch,
            false_branch,
        } => {
            let second = emit(false_branch, states, next)?;
            let first = emit(true_branch, states, next)?;
            let part = emit_part(condition, states)?;
            add_choice(
                states,
                State::Atomic {
                    part,
                    same: first,
                    moved: first,
                },
                State::Ask {
                    part,
                    negated: true,
                    next: second,
                },
            )
        }
    }
}

/// Adds a part: a final state, and the states of the node, which continues there. Returns the part's entry.
#[cycle(emit)]
fn emit_part(node: &Node, states: &mut Vec<State>) -> Result<usize, AllocError>
    ensures longer { IfOk result (λ _. vec_len states.old ≤ vec_len states.new) }
    ensures made { IfOk result (λ n. emitted_part (emitted (shape node.now)) states.old.items ≡ (states.new.items, n)) }
{
    let end = add(states, State::Match)?;
    emit(node, states, end)
}

/// Adds `count` states that step back over a character each and then continue at `next`; returns the first of them.
#[tactic(auto, unfolding(crate::specs::Program::emitted_back))]
pub fn emit_back(count: usize, states: &mut Vec<State>, next: usize) -> Result<usize, AllocError>
    ensures longer { IfOk result (λ _. vec_len states.old ≤ vec_len states.new) }
    ensures made { IfOk result (λ n. emitted_back count states.old.items next ≡ (states.new.items, n)) }
{
    let mut entry = next;
    'steps: for _step in 0..count {
        entry = add(states, State::Back { next: entry })?;
    }
    Ok(entry)
}

/// Adds the states of a concatenation, the last child first.
#[cycle(emit)]
fn emit_row(parts: &[Node], states: &mut Vec<State>, next: usize) -> Result<usize, AllocError>
    ensures longer { IfOk result (λ _. vec_len states.old ≤ vec_len states.new) }
    ensures made { IfOk result (λ n. emitted (cats (shapes parts.now)) states.old.items next ≡ (states.new.items, n)) }
{
    let mut entry = next;
    let mut left = parts.len();
    'parts: while left > 0 {
        left -= 1;
        entry = emit(&parts[left], states, entry)?;
    }
    Ok(entry)
}

/// Adds the states of an alternation, the last branch first.
#[cycle(emit)]
fn emit_branches(parts: &[Node], states: &mut Vec<State>, next: usize) -> Result<usize, AllocError>
    ensures longer { IfOk result (λ _. vec_len states.old ≤ vec_len states.new) }
    ensures made { IfOk result (λ n. emitted (alts (shapes parts.now)) states.old.items next ≡ (states.new.items, n)) }
{
    if parts.is_empty() {
        return Ok(next);
    }
    let mut left = parts.len() - 1;
    let mut entry = emit(&parts[left], states, next)?;
    'branches: while left > 0 {
        left -= 1;
        let first = emit(&parts[left], states, next)?;
        entry = add(
            states,
            State::Split {
                first,
                second: entry,
            },
        )?;
    }
    Ok(entry)
}

/// Adds the states of a quantifier.
#[cycle(emit)]
#[tactic(auto, unfolding(crate::specs::Program::emitted_repeat))]
fn emit_repeat(
    node: &Node,
    quantifier: Quantifier,
    states: &mut Vec<State>,
    next: usize,
) -> Result<usize, AllocError>
    ensures longer { IfOk result (λ _. vec_len states.old ≤ vec_len states.new) }
    ensures made { IfOk result (λ n.
        emitted_repeat (is_unbounded quantifier.hi) quantifier.moves quantifier.lo quantifier.hi quantifier.greedy
        (emitted (shape node.now)) (emitted_both (shape node.now)) states.old.items next ≡ (states.new.items, n)) }
{
    let Quantifier {
        lo,
        hi,
        greedy,
        moves,
    } = quantifier;
    if hi < usize::MAX {
        let rest = emit_upto(node, hi.saturating_sub(lo), greedy, states, next)?;
        emit_times(node, lo, states, rest)
    } else if moves {
        emit_many(node, lo, greedy, states, next)
    } else {
        let rest = emit_star(node, greedy, states, next)?;
        emit_times(node, lo, states, rest)
    }
}

/// Adds `count` consecutive copies of the node.
#[cycle(emit)]
#[tactic(auto, unfolding(crate::specs::Program::emitted_times))]
fn emit_times(
    node: &Node,
    count: usize,
    states: &mut Vec<State>,
    next: usize,
) -> Result<usize, AllocError>
    ensures longer { IfOk result (λ _. vec_len states.old ≤ vec_len states.new) }
    ensures made { IfOk result (λ n. emitted_times (emitted (shape node.now)) count states.old.items next
        ≡ (states.new.items, n)) }
{
    let mut entry = next;
    'copies: for _copy in 0..count {
        entry = emit(node, states, entry)?;
    }
    Ok(entry)
}

/// Adds `count` nested optional copies of the node.
#[cycle(emit)]
#[tactic(auto, unfolding(crate::specs::Program::emitted_upto))]
fn emit_upto(
    node: &Node,
    count: usize,
    greedy: bool,
    states: &mut Vec<State>,
    next: usize,
) -> Result<usize, AllocError>
    ensures longer { IfOk result (λ _. vec_len states.old ≤ vec_len states.new) }
    ensures made { IfOk result (λ n. emitted_upto greedy (emitted (shape node.now)) count states.old.items next
        ≡ (states.new.items, n)) }
{
    let mut entry = next;
    'copies: for _copy in 0..count {
        let body = emit(node, states, entry)?;
        entry = add(states, make_head(greedy, body, next))?;
    }
    Ok(entry)
}

/// Adds a loop whose body may match the empty string.
#[tactic(auto, unfolding(crate::specs::Program::emitted_star))]
fn emit_star(
    node: &Node,
    greedy: bool,
    states: &mut Vec<State>,
    next: usize,
) -> Result<usize, AllocError>
    ensures longer { IfOk result (λ _. vec_len states.old ≤ vec_len states.new) }
    ensures made { IfOk result (λ n. emitted_star greedy (emitted_both (shape node.now)) states.old.items next
        ≡ (states.new.items, n)) }
{
    let head = add(states, State::Match)?;
    let (iteration, _) = emit_both(node, states, next, head)?;
    states[head] = make_head(greedy, iteration, next);
    Ok(head)
}

/// Adds an unbounded loop whose body always consumes a character.
#[cycle(emit)]
#[tactic(auto, unfolding(crate::specs::Program::emitted_many, crate::specs::Program::emitted_plus))]
fn emit_many(
    node: &Node,
    lo: usize,
    greedy: bool,
    states: &mut Vec<State>,
    next: usize,
) -> Result<usize, AllocError>
    ensures longer { IfOk result (λ _. vec_len states.old ≤ vec_len states.new) }
    ensures made { IfOk result (λ n. emitted_many lo greedy (emitted (shape node.now)) states.old.items next
        ≡ (states.new.items, n)) }
{
    let head = add(states, State::Match)?;
    let body = emit(node, states, head)?;
    states[head] = make_head(greedy, body, next);
    if lo == 0 {
        Ok(head)
    } else {
        emit_times(node, lo - 1, states, body)
    }
}
