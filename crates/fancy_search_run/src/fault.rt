//! `Fault`: why `run` fails, with its text and the conversions from the errors of the libraries.

ghost use Rattle.std.specs.Prelude.{◌≡◌};
ghost use Rattle.fancy_search_run.specs.declared.fault.Fault.TheVariants.{Memory};
ghost use Rattle.fancy_search_run.specs.FaultConversions.{fault_of_error, fault_of_refusal};

use fancy_regex::Error as RegexError;
use fancy_search_words::Refusal;
use std::alloc::{AllocError, AllocFailed};
use std::error::Error;
use std::fmt;

/// Why `run` failed. Its `Display` is the text that the program prints.
#[derive(Debug, PartialEq, Eq, Drop)]
pub enum Fault {
    /// The words do not parse; the message of `clap`.
    Words(String),
    /// The words request help; the help text of `clap`.
    Help(String),
    /// The pattern does not parse or is refused, or a search exceeded a limit; never `RegexError::Memory`.
    Regex(RegexError),
    /// The pattern does not reprint: it has no printed text that means the same.
    NotReprinted,
    /// A read of the input failed.
    Input,
    /// The input is not UTF-8.
    NotUtf8,
    /// A write failed, or accepted no byte although some were left.
    Output,
    /// Memory ran out.
    Memory,
}

impl fmt::Display for Fault {
    ghost use Rattle.fancy_search_run.specs.FaultTexts.{fault_text};

    ghost output = { fault_text ⟦<RegexError as fmt::Display>⟧.output };

    fn fmt<W: fmt::Write>(&self, f: &mut fmt::Formatter<W>) -> fmt::Result {
        match self {
            Fault::Words(text) => f.write_str(text),
            Fault::Help(text) => f.write_str(text),
            Fault::Regex(error) => write!(f, "{error}"),
            Fault::NotReprinted => f.write_str("pattern does not reprint"),
            Fault::Input => f.write_str("cannot read input"),
            Fault::NotUtf8 => f.write_str("input is not UTF-8"),
            Fault::Output => f.write_str("cannot write output"),
            Fault::Memory => f.write_str("Out of memory"),
        }
    }
}

impl Error for Fault {}

impl From<AllocError> for Fault {
    ghost from_gives = { λ _ e. e ≡ Memory };

    fn from(_cause: AllocError) -> Fault {
        Fault::Memory
    }
}

impl<T: Drop> From<AllocFailed<T>> for Fault {
    ghost from_gives = { λ _ e. e ≡ Memory };

    fn from(_cause: AllocFailed<T>) -> Fault {
        Fault::Memory
    }
}

impl From<Refusal> for Fault {
    ghost from_gives = { λ cause f. f ≡ fault_of_refusal cause };

    fn from(cause: Refusal) -> Fault {
        match cause {
            Refusal::Words(text) => Fault::Words(text),
            Refusal::Help(text) => Fault::Help(text),
            Refusal::Memory => Fault::Memory,
        }
    }
}

impl From<RegexError> for Fault {
    ghost from_gives = { λ cause f. f ≡ fault_of_error cause };

    fn from(cause: RegexError) -> Fault {
        match cause {
            RegexError::Memory => Fault::Memory,
            other => Fault::Regex(other),
        }
    }
}
