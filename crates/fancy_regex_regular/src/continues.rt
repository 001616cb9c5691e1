//! Whether searches ask for the place of `\G`.

ghost use Rattle.std.specs.Prelude.{◌≡◌, ◌↔◌, ◌<◌, false, length};
ghost use Rattle.fancy_regex_states.specs.First.{state_at};
ghost use Rattle.fancy_regex_regular.specs.Continues.{asks_place as asks_place_is, is_continue as is_continue_is, AskNoPlace};

use fancy_regex_states::{State, Test};

/// Whether one of the states is `\G`.
pub(crate) fn ask_for_place(states: &[State]) -> bool
    ensures { result ≡ false ↔ AskNoPlace states.now }
{
    for q in 0..states.len() {
        if asks_for_place(states, q) {
            return true;
        }
    }
    false
}

/// Whether the state of this number is `\G`.
fn asks_for_place(states: &[State], q: usize) -> bool
    requires { q < length states.now }
    ensures { result ≡ asks_place_is (state_at states.now q) }
{
    match states[q] {
        State::Look { test, .. } => is_continue(test),
        _ => false,
    }
}

/// Whether the assertion is `\G`.
fn is_continue(test: Test) -> bool
    ensures { result ≡ is_continue_is test }
{
    match test {
        Test::Continue => true,
        _ => false,
    }
}
