//! What the library for C is given and returns: the options of a pattern, sets of patterns with options of their own, the spans of
//! matches and of the pieces between them, the members of a set that match and their groups, the names of groups, the bytes that matches
//! start with, and the room that lists and texts are written into.
#![tactic(auto)]

mod front;
mod groups;
mod matches;
mod member;
mod members;
mod mixed;
mod names;
mod options;
mod spans;
mod tables;

pub use front::{write_error, write_front};
pub use groups::{group_span, set_groups};
pub use matches::{match_spans, piece_spans};
pub use member::Member;
pub use members::set_members;
pub use mixed::mixed_set;
pub use names::group_names;
pub use options::Options;
pub use spans::Span;
pub use tables::{mark_required_bytes, mark_start_bytes};
