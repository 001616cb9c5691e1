//! How calls that may want memory have to end, and how a refusal that they saw is told.

use fancy_regex::{Error, Result};
use std::alloc::Global;

/// A text of a table.
pub type Text = &'static str;

/// A row of a table: what is made once, and a call on it, which is made twice, since the first one may want memory.
pub trait Attempt {
    /// What the calls are made on. It is as before after a refusal.
    type Made: Drop;

    /// Makes it.
    fn make(&self, alloc: Global) -> Result<Self::Made>;

    /// Makes the call: whether its answer is the right one, or its error.
    fn is_right(&self, alloc: Global, made: &Self::Made) -> Result<bool>;
}

/// How a call ended.
#[derive(Clone, Copy)]
pub enum Ending {
    Right,
    Wrong,
    WantedMemory,
}

/// How a call ended that had this outcome.
pub fn ending_of(outcome: &Result<bool>) -> Ending {
    match outcome {
        Ok(true) => Ending::Right,
        Err(Error::Memory) => Ending::WantedMemory,
        _ => Ending::Wrong,
    }
}

/// Writes on standard output that a call wanted memory. `tests/refused_memory/sweep` asks for this line where it refuses a request.
fn tell(rt: &HostRuntime) {
    let _ = println!(rt; "a call wanted memory");
}

/// What a row's calls are made on, at the second attempt if the first wanted memory, which is told.
fn made_of<A: Attempt>(rt: &HostRuntime, row: &A) -> Option<A::Made> {
    let first = row.make(rt.alloc());
    if !matches!(&first, Err(Error::Memory)) {
        return first.ok();
    }
    tell(rt);
    row.make(rt.alloc()).ok()
}

/// Whether both of two equal calls end rightly, of which at most one met a refusal: that one with the right answer or with want of
/// memory, which is told, the other with the right answer.
fn are_right(rt: &HostRuntime, first: Ending, second: Ending) -> bool {
    match (first, second) {
        (Ending::Right, Ending::Right) => true,
        (Ending::Right, Ending::WantedMemory) | (Ending::WantedMemory, Ending::Right) => {
            tell(rt);
            true
        }
        _ => false,
    }
}

/// Whether both calls of a row end rightly.
fn holds<A: Attempt>(rt: &HostRuntime, row: &A) -> bool {
    let Some(made) = made_of(rt, row) else {
        return false;
    };
    let first = ending_of(&row.is_right(rt.alloc(), &made));
    let second = ending_of(&row.is_right(rt.alloc(), &made));
    are_right(rt, first, second)
}

/// The number of the first row that does not hold, from 0; `None` if all rows hold.
pub fn first_wrong<A: Attempt>(rt: &HostRuntime, rows: &[A]) -> Option<usize> {
    for (number, row) in rows.iter().enumerate() {
        if !holds(rt, row) {
            return Some(number);
        }
    }
    None
}

/// The outcome of a call that has left a text: right for the whole text, want of memory for another that is due where the call wants
/// memory.
pub fn shows(text: &str, whole: &str, cut: &[&str]) -> Result<bool> {
    if cut.contains(&text) {
        return Err(Error::Memory);
    }
    Ok(text == whole)
}

/// What a buffer holds at first to which a call appends.
pub const BEFORE: &str = "before ";

/// The outcome of a call that may have appended to a buffer: whether it holds the wanted text now. A refused call counts as such
/// only where the buffer is as before.
pub fn appended(outcome: &Result<()>, buffer: &[u8], wanted: &str) -> Result<bool> {
    match outcome {
        Ok(()) => Ok(buffer == wanted.as_bytes()),
        Err(Error::Memory) if buffer == BEFORE.as_bytes() => Err(Error::Memory),
        Err(_) => Ok(false),
    }
}
