//! The memory that searches share.

ghost use Rattle.std.specs.Prelude.{◌≡◌, ◌-◌, ◌≤◌, ◌↔◌, true, false, None};
ghost use Rattle.fancy_regex_regular.specs.Inputs.{IsOfInput, Serves};

use fancy_regex_class::RunInput;
use fancy_regex_parts::{PartMemory, WalkMemory};
use std::alloc::Global;

/// The memory of earlier searches, used again by later ones. What it holds changes no answer, also after a search that ran out of memory,
/// and it is as good for any pattern and any text. It keeps the most memory that a search has needed until it is dropped.
pub struct RegularMemory {
    /// What questions about parts have found out.
    pub(crate) parts: PartMemory,
    /// What questions for a longer match have found out.
    pub(crate) farther: PartMemory,
    /// What walks along first matches have found out, or the last one along a longest match, and what it has yet to do.
    pub(crate) walked: WalkMemory,
    /// What the memory of the parts and of the walks is of; `None` where no later search may use it.
    pub(crate) kept: Option<Kept>,
}

/// What the answers of parts depend on besides the pattern and the text, and where their memory begins.
#[derive(Clone, Copy)]
pub struct Kept {
    /// The least byte offset that parts are asked about.
    first: usize,
    /// The end of the range.
    stop: usize,
    /// Whether the start-of-text assertion fails at the start of the text.
    no_start_text: bool,
    /// Whether the end-of-text assertion fails at the end of the text.
    no_end_text: bool,
    /// Where `\G` holds; `None` also for a pattern that does not ask for it.
    continue_at: Option<usize>,
}

impl Kept {
    /// That of the parts that a search with this input asks, where `lowest` is the least byte offset that it asks about. `continue_at` is
    /// where `\G` holds, for a pattern that asks for it.
    pub(crate) fn of(input: &RunInput, continue_at: Option<usize>, lowest: usize) -> Kept
        ensures first { result.first ≡ lowest }
        ensures input { IsOfInput result input.now continue_at }
    {
        Kept {
            first: lowest,
            stop: input.range.end,
            no_start_text: input.no_start_text,
            no_end_text: input.no_end_text,
            continue_at,
        }
    }

    /// Whether a search with this input asks the same parts, with the same place of `\G`, at byte offsets that the memory may be asked
    /// about, from `lowest` on.
    fn serves(&self, input: &RunInput, continue_at: Option<usize>, lowest: usize) -> bool
        ensures exact { result ≡ true ↔ Serves self.now input.now continue_at lowest }
    {
        self.first <= lowest
            && self.stop == input.range.end
            && self.no_start_text == input.no_start_text
            && self.no_end_text == input.no_end_text
            && self.continue_at == continue_at
    }
}

// Written, not derived: so a crate in which such a value may be dropped uses this proof, and has none to make of each type inside.
impl Drop for RegularMemory {
    fn drop(self) {
        let RegularMemory {
            parts: _parts,
            farther: _farther,
            walked: _walked,
            kept: _kept,
        } = self;
    }
}

impl RegularMemory {
    ghost use Rattle.fancy_regex_regular.specs.Inputs.{MemoryServes};

    /// The memory of no search so far. It allocates nothing.
    pub fn new(alloc: Global) -> RegularMemory
        ensures { result.kept ≡ None }
    {
        RegularMemory {
            parts: PartMemory::new(alloc),
            farther: PartMemory::new(alloc),
            walked: WalkMemory::new(alloc),
            kept: None,
        }
    }

    /// Forgets what was found out about a text, so that the memory is as good for any other. The room is kept.
    pub fn forget(&mut self)
        ensures { self.new.kept ≡ None }
    {
        self.kept = None;
    }

    /// Whether a search with this input, which asks about no byte offset before `lowest`, may use what is kept. It may not where that is
    /// of places before `lowest` alone: then nothing is lost, and the memory begins there. `continue_at` is where `\G` holds, for a
    /// pattern that asks for it.
    pub(crate) fn serves(&self, input: &RunInput, continue_at: Option<usize>, lowest: usize) -> bool
        ensures serves { result ≡ true → MemoryServes self.now.kept input.now continue_at lowest }
        ensures past { result ≡ false → MemoryServes self.now.kept input.now continue_at lowest
            → self.now.parts.recall.rows ≤ lowest - self.now.parts.recall.base }
    {
        match &self.kept {
            Some(kept) => {
                kept.serves(input, continue_at, lowest) && !self.parts.ends_before(lowest)
            }
            None => false,
        }
    }
}
