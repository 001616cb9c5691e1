//! The numbers that calls return to C.

ghost use Rattle.std.specs.Prelude.{◌≡◌};
ghost use Rattle.fancy_regex_ffi.specs.Codes.{code_of, fault_status};

use crate::fault::CallError;
use fancy_regex::Error;

/// How a call ended.
#[derive(Clone, Copy, Debug, PartialEq, Eq)]
pub enum Status {
    /// There is no match.
    NoMatch,
    /// There is a match, or the call did what was asked.
    Done,
    /// The handle is empty.
    EmptyHandle,
    /// The handle holds no regex.
    NoRegex,
    /// The text is not UTF-8.
    NotUtf8,
    /// The search begins past the end of the text.
    PastEnd,
    /// The search begins inside a character.
    OffBoundary,
    /// The text is no pattern.
    NoPattern,
    /// The pattern is refused.
    Refused,
    /// The search passed a limit.
    Limit,
    /// Memory ran out.
    Memory,
    /// The handle holds no set.
    NoSet,
    /// The ends of a set's patterns fall, or lie past their bytes.
    WrongEnds,
}

impl Status {
    /// The number that C sees.
    pub fn code(self) -> i32
        ensures { result ≡ code_of self }
    {
        match self {
            Status::NoMatch => 0,
            Status::Done => 1,
            Status::EmptyHandle => -1,
            Status::NoRegex => -2,
            Status::NotUtf8 => -3,
            Status::PastEnd => -4,
            Status::OffBoundary => -5,
            Status::NoPattern => -6,
            Status::Refused => -7,
            Status::Limit => -8,
            Status::Memory => -9,
            Status::NoSet => -12,
            Status::WrongEnds => -13,
        }
    }

    /// How a call ends that has this fault.
    pub fn of_fault(fault: &CallError) -> Status
        ensures { result ≡ fault_status fault.now }
    {
        match fault {
            CallError::NoRegex => Status::NoRegex,
            CallError::NoSet => Status::NoSet,
            CallError::WrongEnds => Status::WrongEnds,
            CallError::NotUtf8 => Status::NotUtf8,
            CallError::PastEnd => Status::PastEnd,
            CallError::OffBoundary => Status::OffBoundary,
            CallError::Regex(Error::ParseError(_, _)) => Status::NoPattern,
            CallError::Regex(Error::CompileError(_)) => Status::Refused,
            CallError::Regex(Error::RuntimeError(_)) => Status::Limit,
            CallError::Regex(Error::Memory) => Status::Memory,
        }
    }
}
