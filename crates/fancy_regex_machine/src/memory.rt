//! The memory that runs share.

use fancy_regex_class::Steps;
use fancy_regex_linear::SearchMemory;
use fancy_regex_loops::thread::CurrentThread;
use fancy_regex_prefilter::cursor::Cursor;
use fancy_regex_slots::slots::Slots;
use std::alloc::Global;

/// The memory of earlier runs, used again by later ones. What it holds has no effect on any answer, also after a run that
/// ended in an error, and it is as good for any program and any text. It keeps the most memory that a run has needed until it
/// is dropped.
pub struct RunMemory {
    /// The thread that runs, and the backtrack stack.
    pub(crate) thread: CurrentThread,
    /// What the searches of delegated parts need.
    pub(crate) delegates: Delegates,
}

/// What the searches of delegated parts need, and how often a run has looked at the text where it does not count that itself.
#[derive(Drop)]
pub(crate) struct Delegates {
    /// The memory of these searches.
    pub memory: SearchMemory,
    /// Their looks.
    pub steps: Steps,
    /// The bytes of newlines that `\Z` has read.
    pub newlines: u64,
}

impl Delegates {
    /// Begins to count anew.
    pub fn count_anew(&mut self) {
        self.steps = Steps::new();
        self.newlines = 0;
    }

    /// The looks of delegated parts and of `\Z` since then.
    #[inline(always)]
    pub fn looks(&self) -> u64 {
        self.steps.count().saturating_add(self.newlines)
    }
}

// Written, not derived: so a crate in which such a value may be dropped uses this proof, and has none to make of each type inside.
impl Drop for RunMemory {
    fn drop(self) {
        let RunMemory {
            thread: _thread,
            delegates: _delegates,
        } = self;
    }
}

impl RunMemory {
    /// The memory of no run so far. It allocates nothing.
    pub fn new(alloc: Global) -> RunMemory {
        RunMemory {
            thread: CurrentThread {
                cursor: Cursor { pc: 0, position: 0 },
                slots: Slots::empty(alloc),
            },
            delegates: Delegates {
                memory: SearchMemory::new(alloc),
                steps: Steps::new(),
                newlines: 0,
            },
        }
    }

    /// How often the delegated parts of the last run have looked at the text, and how many newlines `\Z` has read. No clause says so.
    pub fn looks(&self) -> u64 {
        self.delegates.looks()
    }
}
