//! Lists and texts in the room that C gives for them.

ghost use Rattle.std.specs.Prelude.{◌≡◌, length, IfSome};
ghost use Rattle.fancy_regex_ffi_lists.specs.Fronts.{Appends, HoldsShown, IsErrorWritten, IsFrontOf};

use fancy_regex::Error;
use std::fmt;
use std::fmt::{Display, Write};

/// Writes as many of the items as there is room for, and returns how many there are.
pub fn write_front<T: Copy>(out: &mut [T], items: &[T]) -> usize
    ensures front { IsFrontOf items.now out.old out.new }
    ensures count { result ≡ length items.now }
{
    for i in 0..items.len().min(out.len()) {
        out[i] = items[i];
    }
    items.len()
}

/// Room for a text, which is written from the front on. What has no room is counted, and not written.
#[derive(Drop)]
struct Front<'a> {
    /// The room.
    room: &'a mut [u8],
    /// The length of the text so far.
    length: usize,
}

impl Write for Front<'_> {
    ghost write_str_gives = { λ s bytes t. Appends s.room.now s.length bytes t.room.now t.length
        × (t.room.ghost_name ≡ s.room.ghost_name) };

    fn write_str(&mut self, s: &str) -> fmt::Result {
        let bytes = s.as_bytes();
        let Some(end) = self.length.checked_add(bytes.len()) else {
            return Err(fmt::Error);
        };
        for i in self.length..end.min(self.room.len()) {
            self.room[i] = bytes[i - self.length];
        }
        self.length = end;
        Ok(())
    }
}

/// Writes what a value shows itself as, as much as there is room for, and returns how long it is; no memory is taken. `None` if the
/// value cannot be shown.
fn write_shown<T: Display>(shown: &T, out: &mut [u8]) -> Option<usize>
    ensures { IfSome result (HoldsShown (T.output shown.now) out.old out.new) }
{
    let mut front = Front {
        room: out,
        length: 0,
    };
    match write!(front, "{shown}") {
        Ok(()) => Some(front.length),
        Err(_) => None,
    }
}

/// Writes the text of an error, as much as there is room for, and returns how long it is; no memory is taken. It is never empty.
#[tactic(auto, using(crate::proofs::FrontLemmas::error_told, crate::proofs::FrontLemmas::error_named))]
pub fn write_error(error: &Error, out: &mut [u8]) -> usize
    ensures { IsErrorWritten (⟦<Error as Display>⟧.output error.now) out.old out.new result }
{
    match write_shown(error, out) {
        Some(length) if length > 0 => length,
        _ => write_front(out, b"an error of the library"),
    }
}
