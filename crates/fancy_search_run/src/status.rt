//! `Status`: how a call of `run` without a fault ended, and the exit status of the program.

ghost use Rattle.std.specs.Prelude.{◌≡◌};
ghost use Rattle.fancy_search_run.specs.ExitStatus.{exit_status_of};

use crate::fault::Fault;

/// How a call of `run` without a fault ended.
#[derive(Clone, Copy, Debug, PartialEq, Eq)]
pub enum Status {
    /// All is written.
    Done,
    /// `find`, `captures` or `set` found no match, and nothing was written.
    Nothing,
}

/// The exit status of the program for an answer of `run`: 0 if it is done or the words request help, 1 if `find`, `captures`
/// or `set` found nothing, 2 on every other fault.
pub fn exit_status(answer: &Result<Status, Fault>) -> u8
    ensures { result ≡ exit_status_of answer.now }
{
    match answer {
        Ok(Status::Done) => 0,
        Ok(Status::Nothing) => 1,
        Err(Fault::Help(_)) => 0,
        Err(_) => 2,
    }
}
