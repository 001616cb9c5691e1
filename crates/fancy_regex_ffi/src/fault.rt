//! `CallError`: why a call does not answer, with its text and its place in the pattern.

ghost use Rattle.std.specs.Prelude.{◌≡◌};
ghost use Rattle.fancy_regex_ffi.specs.declared.fault.CallError.TheVariants.{Regex};
ghost use Rattle.fancy_regex_ffi.specs.Places.{place_of};

use fancy_regex::Error as RegexError;

/// Why a call does not answer.
#[derive(Debug, Drop)]
pub enum CallError {
    /// The handle holds no regex.
    NoRegex,
    /// The handle holds no set.
    NoSet,
    /// The ends of a set's patterns fall, or lie past their bytes.
    WrongEnds,
    /// The pattern or the text is not UTF-8.
    NotUtf8,
    /// The search begins past the end of the text.
    PastEnd,
    /// The search begins inside a character.
    OffBoundary,
    /// An error of the library.
    Regex(RegexError),
}

impl From<RegexError> for CallError {
    ghost from_gives = { λ cause fault. fault ≡ Regex cause };

    fn from(cause: RegexError) -> CallError {
        CallError::Regex(cause)
    }
}

impl CallError {
    /// The byte of the pattern at which its first error stands; `None` if the fault is another.
    pub fn place(&self) -> Option<usize>
        ensures { result ≡ place_of self.now }
    {
        match self {
            CallError::Regex(RegexError::ParseError(position, _)) => Some(*position),
            _ => None,
        }
    }
}
