//! Ranges of capture groups.

ghost use Rattle.std.specs.Prelude.{◌≡◌, ◌==◌, if◌then◌else◌, None, Some};

/// The numbers of the capture groups in a subexpression, from the first value up to but not including the second.
#[derive(Clone, Copy, Debug, PartialEq, Eq)]
pub struct CaptureGroupRange(pub usize, pub usize);

impl CaptureGroupRange {
    /// The number of the first group.
    pub fn start(&self) -> usize
        ensures { result ≡ self.now.0 }
    {
        self.0
    }

    /// The number after the last group.
    pub fn end(&self) -> usize
        ensures { result ≡ self.now.1 }
    {
        self.1
    }

    /// The range itself, or `None` if its start equals its end.
    pub fn to_option_if_non_empty(&self) -> Option<CaptureGroupRange>
        ensures { result ≡ (if self.now.0 == self.now.1 then None else Some self.now) }
    {
        if self.0 == self.1 { None } else { Some(*self) }
    }
}
