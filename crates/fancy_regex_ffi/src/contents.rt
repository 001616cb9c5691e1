//! `Contents`: what a handle holds, that is what was built and the fault of the last call.

ghost use Rattle.std.specs.Prelude.{◌≡◌, Some, None};
ghost use Rattle.fancy_regex_ffi.specs.declared.contents.Subject.TheVariants as subjects;

use crate::fault::CallError;
use crate::kept_memory::KeptMemory;
use fancy_regex::{Regex, RegexSet};
use std::alloc::Global;

/// The most bytes that a search may go through so that the handle keeps its memory for the next one.
const MOST_BYTES_KEPT_FOR: usize = 65_536;

/// What was built.
#[derive(Drop)]
pub enum Subject {
    /// Nothing: the pattern was refused, or memory ran out.
    Nothing,
    /// A regex.
    Regex(Regex),
    /// A set of regexes.
    Set(RegexSet),
}

/// The contents of a handle.
#[derive(Drop)]
pub struct Contents {
    /// What was built.
    pub subject: Subject,
    /// The fault of the last call that had one.
    pub fault: Option<CallError>,
    /// The memory of earlier searches, which changes no answer.
    pub memory: KeptMemory,
}

impl Contents {
    /// The contents with this regex.
    pub fn of_regex(alloc: Global, regex: Regex) -> Contents
        ensures subject { result.subject ≡ subjects.Regex regex }
        ensures fault { result.fault ≡ None }
    {
        Contents {
            subject: Subject::Regex(regex),
            fault: None,
            memory: KeptMemory::new(alloc),
        }
    }

    /// The contents with this set.
    pub fn of_set(alloc: Global, set: RegexSet) -> Contents
        ensures subject { result.subject ≡ subjects.Set set }
        ensures fault { result.fault ≡ None }
    {
        Contents {
            subject: Subject::Set(set),
            fault: None,
            memory: KeptMemory::new(alloc),
        }
    }

    /// The contents with this fault of building, and nothing built.
    pub fn of_fault(alloc: Global, fault: CallError) -> Contents
        ensures subject { result.subject ≡ subjects.Nothing }
        ensures fault { result.fault ≡ Some fault }
    {
        Contents {
            subject: Subject::Nothing,
            fault: Some(fault),
            memory: KeptMemory::new(alloc),
        }
    }

    /// Drops the memory of a search from a place of the text to where the span of its match ends, or else to the end of the text, if
    /// that are many bytes: so a handle does not keep what one long text has needed.
    #[inline(always)]
    pub fn bound_memory(&mut self, alloc: Global, text: &[u8], from: usize, span_end: usize)
        ensures subject { self.new.subject ≡ self.old.subject }
        ensures fault { self.new.fault ≡ self.old.fault }
    {
        if text.len().min(span_end).saturating_sub(from) > MOST_BYTES_KEPT_FOR {
            self.memory = KeptMemory::new(alloc);
        }
    }
}
