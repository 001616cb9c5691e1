//! The memory that searches share, as those of an iteration do.

ghost use Rattle.std.specs.Prelude.{◌≡◌, None};

use crate::run_work::RunWork;
use crate::start_skips::StartSkips;
use fancy_regex_linear::SearchMemory;
use fancy_regex_machine::RunMemory;
use fancy_regex_regular::RegularMemory;
use std::alloc::Global;

/// What earlier searches allocated, for later ones to use again: of the linear-time matcher, and of the backtracking machine.
/// What it holds changes no answer, and it serves any regex and any text, also after a search that ended in an error. It keeps the most
/// memory that a search has needed until it is dropped.
///
/// ```
/// let regex = Regex::new(alloc, r"\w+(?=!)")?;
/// let mut memory = SearchMemory::new(alloc);
/// for text in ["so fancy!", "even so!"] {
///     let found = regex.find_in(alloc, RegexInput::new(text), &mut memory)?;
///     assert!(rt; found.is_some());
/// }
/// ```
pub struct MetaMemory {
    /// For patterns that the linear-time matcher runs.
    pub easy: SearchMemory,
    /// For patterns that run a program.
    pub program: RunMemory,
    /// For patterns whose look-aheads and atomic groups are parts.
    pub parts: RegularMemory,
    /// The work that runs of the programs of such patterns may do.
    pub(crate) work: RunWork,
    /// Whether it pays to skip starts of such patterns.
    pub(crate) skips: StartSkips,
}

// Written, not derived: so a crate in which such a value may be dropped uses this proof, and has none to make of each type inside.
impl Drop for MetaMemory {
    fn drop(self) {
        let MetaMemory {
            easy: _easy,
            program: _program,
            parts: _parts,
            work: _work,
            skips: _skips,
        } = self;
    }
}

impl MetaMemory {
    /// Memory for the first search. It allocates nothing.
    pub fn new(alloc: Global) -> MetaMemory
        ensures { result.parts.kept ≡ None }
    {
        MetaMemory {
            easy: SearchMemory::new(alloc),
            program: RunMemory::new(alloc),
            parts: RegularMemory::new(alloc),
            work: RunWork::new(),
            skips: StartSkips::new(),
        }
    }

    /// Forgets what was found out about a text. The room is kept.
    pub(crate) fn forget(&mut self)
        ensures { self.new.parts.kept ≡ None }
    {
        self.parts.forget();
        self.work = RunWork::new();
        self.skips = StartSkips::new();
    }
}
