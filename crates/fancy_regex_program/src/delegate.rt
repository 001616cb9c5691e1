//! Parts of a pattern that the linear engine searches, in place of instructions of their own.

ghost use Rattle.std.specs.Prelude.{◌≡◌, ◌≤◌, ◌+◌, true, false, length, Some, None, option_map, chars, string_bytes, IfOk, IsTrue, IsCharBoundary};
ghost use Rattle.std.specs.Option.{ForSome};
ghost use Rattle.fancy_regex_tree.specs.Printed.{printed};
ghost use Rattle.fancy_regex_tree.specs.Tree.{tree_of};
ghost use Rattle.fancy_regex_meaning.specs.Groups.{pattern_of, group_count};
ghost use Rattle.fancy_regex_class.specs.Classes.{in_class, folded};
ghost use Rattle.fancy_regex_class.specs.RunInputs.{setting_for};
ghost use Rattle.fancy_regex_bytes.specs.ByteSets.{has};
ghost use Rattle.fancy_regex_desugar.specs.Delegates.{is_delegated, searched, first_end, first_end_until};
ghost use Rattle.fancy_regex_linear.specs.EasyPatterns.{IsEasyOf};
ghost use Rattle.fancy_regex_program.specs.BodyStarts.{body_starts_in, body_refuses};

use crate::range::CaptureGroupRange;
use fancy_regex_bytes::ByteSet;
use fancy_regex_class::{RunInput, Steps};
use fancy_regex_linear::{Easy, Quick, SearchMemory};
use fancy_regex_tree::Expr;
use std::alloc::AllocError;
use std::fmt;

/// How many states a quick search visits before the search with memory begins.
const QUICK_VISITS: usize = 32;

/// A part of a pattern of which only the first match matters, or only whether there is one, with the states that it is searched with.
/// The linear engine searches it. No clause of this type says in how many looks.
#[derive(Drop)]
pub struct Delegate {
    pub(crate) part: Expr,
    pub(crate) for_any: bool,
    pub(crate) pattern: String,
    pub(crate) easy: Easy,
    pub(crate) starts: Option<ByteSet>,
    ghost serves: { ∥ IsEasyOf easy (pattern_of (searched for_any (tree_of part))) ∥₁ },
    ghost first: { easy.longest ≡ false },
    ghost delegated: { is_delegated for_any (tree_of part) ≡ true },
    ghost begins: { ForSome starts (λ set. body_starts_in easy.unicode (searched for_any (tree_of part)) ≡ Some (has set)) },
    ghost shown: { chars (string_bytes pattern) ≡ printed 0 (tree_of part) },
}

impl Delegate {
    /// The part.
    pub fn part(&self) -> &Expr
        ensures { result.now ≡ self.now.part }
    {
        &self.part
    }

    /// Whether it only matters that the part matches, and not where the match ends. The part is searched with lazy quantifiers then,
    /// so that a search may end early; no clause says that it does.
    pub fn for_any(&self) -> bool
        ensures { result ≡ self.now.for_any }
    {
        self.for_any
    }

    /// The numbers of the capture groups in the part, which is searched as a pattern of its own, so that they count from 1. There are
    /// none, so the range is empty.
    pub fn capture_groups(&self) -> CaptureGroupRange
        ensures first { result.0 ≡ (pattern_of (tree_of self.now.part)).first_group }
        ensures count { result.0 + group_count (tree_of self.now.part) ≡ result.1 }
        ensures empty { result.0 ≡ result.1 }
    {
        CaptureGroupRange(1, 1)
    }

    /// The printed text of the part.
    pub fn pattern(&self) -> &str
        ensures { chars result.now ≡ printed 0 (tree_of self.now.part) }
    {
        self.pattern.as_str()
    }

    /// Whether it is known that no match of the part begins with this ASCII character.
    pub fn refuses(&self, c: char) -> bool
        ensures { IsTrue result → body_refuses (in_class self.now.easy.unicode) (folded self.now.easy.unicode)
            (searched self.now.for_any (tree_of self.now.part)) c ≡ true }
    {
        match &self.starts {
            Some(set) => c.is_ascii() && !set.contains(c as u8),
            None => false,
        }
    }

    /// The byte offset at which the first match of the part from `input.first` on ends, whatever ends it; `None` if it does not match
    /// there. Where `for_any` says that only a match matters, it is the first one with each quantifier lazy. The input is to be
    /// anchored, and to range over the whole text. What earlier searches left in the memory changes no answer. The linear
    /// engine counts its looks in `steps`; no clause says by how much it grows, nor what is allocated. The error is want of memory; the
    /// memory may be used again.
    pub fn end(
        &self,
        text: &str,
        input: &RunInput,
        steps: &mut Steps,
        memory: &mut SearchMemory,
    ) -> Result<Option<usize>, AllocError>
        requires first { IsCharBoundary text.now input.now.first }
        requires range { input.now.range.end ≡ length text.now }
        requires anchored { input.now.anchored ≡ true }
        ensures { IfOk result (λ found. found ≡ first_end (setting_for self.now.easy.unicode text.now input.now)
            (searched self.now.for_any (tree_of self.now.part)) input.now.first) }
    {
        self.end_until(text, input, steps, memory)
    }

    /// The byte offset at which the first match of the part from `input.first` on that ends in range ends; `None` if there is none. The
    /// input is to be anchored. `steps`, the memory and the error are as of `end`.
    pub fn end_until(
        &self,
        text: &str,
        input: &RunInput,
        steps: &mut Steps,
        memory: &mut SearchMemory,
    ) -> Result<Option<usize>, AllocError>
        requires first { IsCharBoundary text.now input.now.first }
        requires range { input.now.range.end ≤ length text.now }
        requires anchored { input.now.anchored ≡ true }
        ensures { IfOk result (λ found. found ≡ first_end_until (setting_for self.now.easy.unicode text.now input.now)
            (searched self.now.for_any (tree_of self.now.part)) input.now.range.end input.now.first) }
    {
        match self.easy.quick_end(text, input, QUICK_VISITS, steps) {
            Quick::Ends(end) => Ok(Some(end)),
            Quick::Fails => Ok(None),
            Quick::GivenUp => self.end_with_memory(text, input, steps, memory),
        }
    }

    /// The same as `end_until`, by the search with memory.
    fn end_with_memory(
        &self,
        text: &str,
        input: &RunInput,
        steps: &mut Steps,
        memory: &mut SearchMemory,
    ) -> Result<Option<usize>, AllocError>
        requires first { IsCharBoundary text.now input.now.first }
        requires range { input.now.range.end ≤ length text.now }
        requires anchored { input.now.anchored ≡ true }
        ensures { IfOk result (λ found. found ≡ first_end_until (setting_for self.now.easy.unicode text.now input.now)
            (searched self.now.for_any (tree_of self.now.part)) input.now.range.end input.now.first) }
    {
        let span = self.easy.find_span_in(text, input, steps, memory)?;
        Ok(end_of(span))
    }
}

impl fmt::Debug for Delegate {
    ghost debug_output = { λ _. None };

    fn fmt<W: fmt::Write>(&self, f: &mut fmt::Formatter<W>) -> fmt::Result {
        fmt::Debug::fmt(&self.part, f)
    }
}

/// Where a span ends, if there is one.
fn end_of(span: Option<(usize, usize)>) -> Option<usize>
    ensures { result ≡ option_map (λ ends. ends.1) span }
{
    match span {
        Some((_, end)) => Some(end),
        None => None,
    }
}
