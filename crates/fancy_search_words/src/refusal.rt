//! `Refusal`: why the words give no command to run.

ghost use Rattle.std.specs.Prelude.{◌≡◌};
ghost use Rattle.fancy_search_words.specs.declared.refusal.Refusal.TheVariants.{Memory};

use std::alloc::AllocError;
use thiserror::Error;

/// Why the words give no command to run. Its `Display` is the text of `clap`.
#[derive(Debug, PartialEq, Eq, Drop, Error)]
pub enum Refusal {
    /// The words do not parse; the message.
    #[error("{0}")]
    Words(String),
    /// The words request help; the help text.
    #[error("{0}")]
    Help(String),
    /// Memory ran out.
    #[error("Out of memory")]
    Memory,
}

impl From<AllocError> for Refusal {
    ghost from_gives = { λ _ refusal. refusal ≡ Memory };

    fn from(_cause: AllocError) -> Refusal {
        Refusal::Memory
    }
}
