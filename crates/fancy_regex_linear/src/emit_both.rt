//! States of the body of a loop that may match the empty string. Each node is emitted twice: once for an iteration that has
//! consumed nothing so far, and once for one that has.

ghost use Rattle.std.specs.Prelude.{◌≡◌, ◌≤◌, IfOk, length, vec_len};
ghost use Rattle.fancy_regex_linear.specs.Re.{shape, shapes, cats, alts};
ghost use Rattle.fancy_regex_linear.specs.Program.{emitted_both, emitted_both_part, emitted_both_asking, emitted_both_repeat, emitted_both_times, emitted_both_upto, emitted_both_star, emitted_both_many, emitted_both_group};
ghost use Rattle.fancy_regex_linear.specs.Meaning.{is_unbounded};

use crate::emit::emit_back;
use crate::node::{Node, Quantifier};
use crate::state::{add, add_both, add_choice, make_head};
use fancy_regex_states::State;
use std::alloc::AllocError;

/// Adds the states of a node that continues at state `same` where the iteration has consumed nothing, and at `moved` where it
/// has. Returns the two entry states, for nothing consumed so far and for something. The error is want of memory.
#[tactic(auto, unfolding(crate::specs::Program::emitted_both, crate::specs::Program::emitted_both_asking))]
#[cycle(both)]
pub fn emit_both(
    node: &Node,
    states: &mut Vec<State>,
    same: usize,
    moved: usize,
) -> Result<(usize, usize), AllocError>
    ensures longer { IfOk result (λ _. vec_len states.old ≤ vec_len states.new) }
    ensures made { IfOk result (λ n. emitted_both (shape node.now) states.old.items same moved ≡ (states.new.items, n.0, n.1)) }
{
    match node {
        Node::Empty => Ok((same, moved)),
        Node::Read(leaf) => {
            let only = add(
                states,
                State::Read {
                    leaf: *leaf,
                    next: moved,
                },
            )?;
            Ok((only, only))
        }
        Node::Look(test) => add_both(
            states,
            State::Look {
                test: *test,
                next: same,
            },
            State::Look {
                test: *test,
                next: moved,
            },
        ),
        Node::Concat(parts) => emit_row_both(parts, states, same, moved),
        Node::Alt(parts) => emit_branches_both(parts, states, same, moved),
        Node::Group { number, body } => emit_group_both(*number, body, states, same, moved),
        Node::Repeat { body, quantifier } => emit_repeat_both(
            body,
            *quantifier,
            states,
            same,
            moved,
        ),
        Node::Ask {
            negated,
            back,
            body,
        } => {
            let entry = emit_part_both(body, states)?;
            let part = emit_back(*back, states, entry)?;
            add_both(
                states,
                State::Ask {
                    part,
                    negated: *negated,
                    next: same,
                },
                State::Ask {
                    part,
                    negated: *negated,
                    next: moved,
                },
            )
        }
        Node::Atomic(body) => {
            let part = emit_part_both(body, states)?;
            add_both(
                states,
                State::Atomic { part, same, moved },
                State::Atomic {
                    part,
                    same: moved,
                    moved,
                },
            )
        }
        Node::Conditional {
            condition,
            true_branch,
            false_branch,
        } => {
            let second = emit_both(false_branch, states, same, moved)?;
            let first = emit_both(true_branch, states, same, moved)?;
            let part = emit_part_both(condition, states)?;
            let head = add_choice(
                states,
                State::Atomic {
                    part,
                    same: first.0,
                    moved: first.1,
                },
                State::Ask {
                    part,
                    negated: true,
                    next: second.0,
                },
            )?;
            let moved_head = add_choice(
                states,
                State::Atomic {
                    part,
                    same: first.1,
                    moved: first.1,
                },
                State::Ask {
                    part,
                    negated: true,
                    next: second.1,
                },
            )?;
            Ok((head, moved_head))
        }
    }
}

/// Adds a part: a final state, and the states of the node, which continues there. Returns the part's entry.
#[cycle(both)]
fn emit_part_both(node: &Node, states: &mut Vec<State>) -> Result<usize, AllocError>
    ensures longer { IfOk result (λ _. vec_len states.old ≤ vec_len states.new) }
    ensures made { IfOk result (λ n. emitted_both_part (emitted_both (shape node.now)) states.old.items ≡ (states.new.items, n)) }
{
    let end = add(states, State::Match)?;
    let (entry, _) = emit_both(node, states, end, end)?;
    Ok(entry)
}

/// Adds the states of a capture group.
#[cycle(both)]
#[tactic(auto, unfolding(crate::specs::Program::emitted_both_group))]
fn emit_group_both(
    number: usize,
    node: &Node,
    states: &mut Vec<State>,
    same: usize,
    moved: usize,
) -> Result<(usize, usize), AllocError>
    ensures longer { IfOk result (λ _. vec_len states.old ≤ vec_len states.new) }
    ensures made { IfOk result (λ n. emitted_both_group number (emitted_both (shape node.now)) states.old.items same moved
        ≡ (states.new.items, n.0, n.1)) }
{
    let (one, two) = add_both(
        states,
        State::Leave {
            group: number,
            next: same,
        },
        State::Leave {
            group: number,
            next: moved,
        },
    )?;
    let (first, second) = emit_both(node, states, one, two)?;
    add_both(
        states,
        State::Enter {
            group: number,
            next: first,
        },
        State::Enter {
            group: number,
            next: second,
        },
    )
}

/// Adds the states of a concatenation, the last child first.
#[cycle(both)]
fn emit_row_both(
    parts: &[Node],
    states: &mut Vec<State>,
    same: usize,
    moved: usize,
) -> Result<(usize, usize), AllocError>
    ensures longer { IfOk result (λ _. vec_len states.old ≤ vec_len states.new) }
    ensures made { IfOk result (λ n. emitted_both (cats (shapes parts.now)) states.old.items same moved
        ≡ (states.new.items, n.0, n.1)) }
{
    let mut first = same;
    let mut second = moved;
    let mut left = parts.len();
    'parts: while left > 0 {
        left -= 1;
        let entries = emit_both(&parts[left], states, first, second)?;
        first = entries.0;
        second = entries.1;
    }
    Ok((first, second))
}

/// Adds the states of an alternation, the last branch first.
#[cycle(both)]
fn emit_branches_both(
    parts: &[Node],
    states: &mut Vec<State>,
    same: usize,
    moved: usize,
) -> Result<(usize, usize), AllocError>
    ensures longer { IfOk result (λ _. vec_len states.old ≤ vec_len states.new) }
    ensures made { IfOk result (λ n. emitted_both (alts (shapes parts.now)) states.old.items same moved
        ≡ (states.new.items, n.0, n.1)) }
{
    if parts.is_empty() {
        return Ok((same, moved));
    }
    let mut left = parts.len() - 1;
    let (mut first, mut second) = emit_both(&parts[left], states, same, moved)?;
    'branches: while left > 0 {
        left -= 1;
        let entries = emit_both(&parts[left], states, same, moved)?;
        let heads = add_both(
            states,
            State::Split {
                first: entries.0,
                second: first,
            },
            State::Split {
                first: entries.1,
                second,
            },
        )?;
        first = heads.0;
        second = heads.1;
    }
    Ok((first, second))
}

/// Adds the states of a quantifier.
#[cycle(both)]
#[tactic(auto, unfolding(crate::specs::Program::emitted_both_repeat))]
fn emit_repeat_both(
    node: &Node,
    quantifier: Quantifier,
    states: &mut Vec<State>,
    same: usize,
    moved: usize,
) -> Result<(usize, usize), AllocError>
    ensures longer { IfOk result (λ _. vec_len states.old ≤ vec_len states.new) }
    ensures made { IfOk result (λ n.
        emitted_both_repeat (is_unbounded quantifier.hi) quantifier.moves quantifier.lo quantifier.hi quantifier.greedy
        (emitted_both (shape node.now)) states.old.items same moved ≡ (states.new.items, n.0, n.1)) }
{
    let Quantifier {
        lo,
        hi,
        greedy,
        moves,
    } = quantifier;
    if hi < usize::MAX {
        let rest = emit_upto_both(node, hi.saturating_sub(lo), greedy, states, same, moved)?;
        emit_times_both(node, lo, states, rest.0, rest.1)
    } else if moves {
        emit_many_both(node, lo, greedy, states, same, moved)
    } else {
        let rest = emit_star_both(node, greedy, states, same, moved)?;
        emit_times_both(node, lo, states, rest.0, rest.1)
    }
}

/// Adds `count` consecutive copies of the node.
#[cycle(both)]
#[tactic(auto, unfolding(crate::specs::Program::emitted_both_times))]
fn emit_times_both(
    node: &Node,
    count: usize,
    states: &mut Vec<State>,
    same: usize,
    moved: usize,
) -> Result<(usize, usize), AllocError>
    ensures longer { IfOk result (λ _. vec_len states.old ≤ vec_len states.new) }
    ensures made { IfOk result (λ n. emitted_both_times (emitted_both (shape node.now)) count states.old.items same moved
        ≡ (states.new.items, n.0, n.1)) }
{
    let mut first = same;
    let mut second = moved;
    'copies: for _copy in 0..count {
        let body = emit_both(node, states, first, second)?;
        first = body.0;
        second = body.1;
    }
    Ok((first, second))
}

/// Adds `count` nested optional copies of the node.
#[cycle(both)]
#[tactic(auto, unfolding(crate::specs::Program::emitted_both_upto))]
fn emit_upto_both(
    node: &Node,
    count: usize,
    greedy: bool,
    states: &mut Vec<State>,
    same: usize,
    moved: usize,
) -> Result<(usize, usize), AllocError>
    ensures longer { IfOk result (λ _. vec_len states.old ≤ vec_len states.new) }
    ensures made { IfOk result (λ n. emitted_both_upto greedy (emitted_both (shape node.now)) count states.old.items same moved
        ≡ (states.new.items, n.0, n.1)) }
{
    let mut first = same;
    let mut second = moved;
    'copies: for _copy in 0..count {
        let body = emit_both(node, states, first, second)?;
        let heads = add_both(
            states,
            make_head(greedy, body.0, same),
            make_head(greedy, body.1, moved),
        )?;
        first = heads.0;
        second = heads.1;
    }
    Ok((first, second))
}

/// Adds a loop whose body may match the empty string.
#[cycle(both)]
#[tactic(auto, unfolding(crate::specs::Program::emitted_both_star, crate::specs::Program::emitted_star))]
fn emit_star_both(
    node: &Node,
    greedy: bool,
    states: &mut Vec<State>,
    same: usize,
    moved: usize,
) -> Result<(usize, usize), AllocError>
    ensures longer { IfOk result (λ _. vec_len states.old ≤ vec_len states.new) }
    ensures made { IfOk result (λ n. emitted_both_star greedy (emitted_both (shape node.now)) states.old.items same moved
        ≡ (states.new.items, n.0, n.1)) }
{
    let head = add(states, State::Match)?;
    let (iteration, _) = emit_both(node, states, moved, head)?;
    states[head] = make_head(greedy, iteration, moved);
    let (first, _) = emit_both(node, states, same, head)?;
    let one = add(states, make_head(greedy, first, same))?;
    Ok((one, head))
}

/// Adds an unbounded loop whose body always consumes a character.
#[cycle(both)]
#[tactic(auto, unfolding(crate::specs::Program::emitted_both_many, crate::specs::Program::emitted_both_plus))]
fn emit_many_both(
    node: &Node,
    lo: usize,
    greedy: bool,
    states: &mut Vec<State>,
    same: usize,
    moved: usize,
) -> Result<(usize, usize), AllocError>
    ensures longer { IfOk result (λ _. vec_len states.old ≤ vec_len states.new) }
    ensures made { IfOk result (λ n. emitted_both_many lo greedy (emitted_both (shape node.now)) states.old.items same moved
        ≡ (states.new.items, n.0, n.1)) }
{
    let head = add(states, State::Match)?;
    let (first, second) = emit_both(node, states, same, head)?;
    states[head] = make_head(greedy, second, moved);
    if lo == 0 {
        let one = add(states, make_head(greedy, first, same))?;
        Ok((one, head))
    } else {
        emit_times_both(node, lo - 1, states, first, second)
    }
}
