//! The memory that questions share.

ghost use Rattle.std.specs.Prelude.{◌≡◌, ◌-◌, ◌≤◌, true, List, ℕ, length, vec_len};
ghost use Rattle.fancy_regex_parts.specs.declared.step.PartContext.{PartContext as PartContextValue};

use crate::frame::Frame;
use crate::recall::Recall;
use crate::step::PartContext;
use std::alloc::Global;

/// What earlier questions have found out about the parts of one context in one text, and the stack that they use. It has to be started
/// anew for other parts, another text, other rules (the place of `\G` among them) or another range of ends.
#[derive(Drop)]
pub struct PartMemory {
    /// What is known of pairs of a marked state and a byte offset.
    pub(crate) recall: Recall,
    /// The frames of the search, the next one last.
    pub(crate) stack: Vec<Frame>,
}

impl PartMemory {
    ghost use Rattle.fancy_regex_parts.specs.Recall.{known_weight};
    ghost use Rattle.fancy_regex_parts.specs.Ways.{Ways};
    ghost use Rattle.fancy_regex_parts.specs.Layers.{IsOfText, IsTrueOf};

    /// The memory of no question so far. It allocates nothing.
    pub fn new(alloc: Global) -> PartMemory {
        PartMemory {
            recall: Recall::new(alloc),
            stack: Vec::new(alloc),
        }
    }

    /// Forgets everything: the memory is that of these parts and of any text, for byte offsets from `base` on.
    pub fn restart(&mut self, context: &PartContext, base: usize)
        ensures of_text { (text : List ℕ) → IsOfText context.now text self.new.recall }
        ensures base { self.new.recall.base ≡ base }
        ensures remembers { (ways : Ways) → IsTrueOf context.now ways self.new.recall }
        ensures weight { (w : ℕ → ℕ) → known_weight w self.new.recall ≡ 0 }
        ensures stack { vec_len self.new.stack ≡ 0 }
    {
        self.recall.restart(context.table.heads.len(), base);
        self.stack.clear();
    }

    /// The least byte offset that it may be asked about.
    pub(crate) fn base(&self) -> usize
        ensures { result ≡ self.now.recall.base }
    {
        self.recall.base()
    }

    /// Whether nothing is known of the byte offset `at`, nor of a later one: there is no row for it.
    pub fn ends_before(&self, at: usize) -> bool
        ensures { result ≡ true → self.now.recall.rows ≤ at - self.now.recall.base }
    {
        self.recall.ends_before(at)
    }

    /// Forgets everything of the same parts and text.
    pub(crate) fn forget(&mut self)
        ensures of_text { (context : PartContextValue) (text : List ℕ) → self.old.recall.width ≡ length context.table.now.heads.items
            → IsOfText context text self.new.recall }
        ensures base { self.new.recall.base ≡ self.old.recall.base }
        ensures remembers { (context : PartContextValue) (ways : Ways) → IsTrueOf context ways self.new.recall }
        ensures weight { (w : ℕ → ℕ) → known_weight w self.new.recall ≡ 0 }
        ensures stack { vec_len self.new.stack ≡ 0 }
    {
        self.recall.forget();
        self.stack.clear();
    }
}
