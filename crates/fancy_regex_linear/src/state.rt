//! Adding states to those of a pattern.

ghost use Rattle.std.specs.Prelude.{◌≡◌, ◌≤◌, IfOk, length, vec_len};
ghost use Rattle.fancy_regex_linear.specs.Program.{loop_head, push, emitted_choice};

use fancy_regex_states::State;
use std::alloc::AllocError;

/// The head of a loop: another iteration, or the exit, in the order of preference.
pub fn make_head(greedy: bool, iteration: usize, exit: usize) -> State
    ensures { result ≡ loop_head greedy iteration exit }
{
    if greedy {
        State::Split {
            first: iteration,
            second: exit,
        }
    } else {
        State::Split {
            first: exit,
            second: iteration,
        }
    }
}

/// Adds a state and returns its number. The error is want of memory.
pub fn add(states: &mut Vec<State>, state: State) -> Result<usize, AllocError>
    ensures longer { IfOk result (λ _. vec_len states.old ≤ vec_len states.new) }
    ensures states { IfOk result (λ _. states.new.items ≡ push states.old.items state) }
    ensures number { IfOk result (λ n. n ≡ length states.old.items) }
{
    let number = states.len();
    states.push(state)?;
    Ok(number)
}

/// Adds two states and returns their numbers. The error is want of memory.
pub fn add_both(
    states: &mut Vec<State>,
    one: State,
    two: State,
) -> Result<(usize, usize), AllocError>
    ensures longer { IfOk result (λ _. vec_len states.old ≤ vec_len states.new) }
    ensures states { IfOk result (λ _. states.new.items ≡ push (push states.old.items one) two) }
    ensures numbers { IfOk result (λ n. (n.0 ≡ length states.old.items) × (n.1 ≡ length (push states.old.items one))) }
{
    let first = add(states, one)?;
    let second = add(states, two)?;
    Ok((first, second))
}

/// Adds two states and a choice between them, which prefers the first; returns its number. The error is want of memory.
#[tactic(auto, unfolding(crate::specs::Program::emitted_choice))]
pub fn add_choice(states: &mut Vec<State>, first: State, second: State) -> Result<usize, AllocError>
    ensures longer { IfOk result (λ _. vec_len states.old ≤ vec_len states.new) }
    ensures made { IfOk result (λ n. emitted_choice first second states.old.items ≡ (states.new.items, n)) }
{
    let (one, two) = add_both(states, first, second)?;
    add(
        states,
        State::Split {
            first: one,
            second: two,
        },
    )
}
