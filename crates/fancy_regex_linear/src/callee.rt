//! What calls become.

ghost use Rattle.std.specs.Prelude.{◌≡◌};
ghost use Rattle.fancy_regex_linear.specs.Re.{shape};
ghost use Rattle.fancy_regex_linear.specs.Program.{IsSound, never_empty};
ghost use Rattle.fancy_regex_linear.specs.SoundProps.{sound_prop};

use crate::node::Node;

/// What a call of a group becomes: its translated body.
#[derive(Drop)]
pub struct Callee {
    /// The node of the body.
    pub node: Node,
    /// Whether each match of it consumes a character.
    pub moves: bool,
    ghost moves_is: { moves ≡ never_empty (shape node) },
    ghost sound: { IsSound (shape node) } by { sound_prop (shape node) },
}
