//! The program `fancy_search`: finds the matches of a pattern in the text on standard input. It calls
//! `fancy_search_run::run_from` on the words and streams of the process. Exit status: 0 with matches and for help, 1 without
//! matches, 2 on a fault.
#![tactic(auto)]

ghost use Rattle.std.specs.Prelude.{◌≡◌};
ghost use Rattle.std.specs.Process as process;
ghost use Rattle.fancy_search_run.specs.ExitStatus.{exit_status_of};

use fancy_search_run::{Fault, Sink, Source, Status, exit_status, run_from, tell};
use std::env;
use std::io::ErrorKind;
use std::process::ExitCode;

/// The message if a word is not UTF-8.
const NO_TEXT: &str = "error: invalid UTF-8 was detected in one or more arguments\n";

fn main(rt: HostRuntime) -> ExitCode {
    let answer = answer(&rt);
    if let Err(fault) = &answer {
        // If the write fails, there is no reader to tell, and the exit status still reports the fault.
        let _ = tell(fault, &mut rt.stdout(), &mut rt.stderr());
    }
    exit_code(&answer)
}

/// The exit code for an answer.
fn exit_code(answer: &Result<Status, Fault>) -> ExitCode
    ensures { process.exit_status result ≡ exit_status_of answer.now }
{
    ExitCode::from(exit_status(answer))
}

/// Runs on the words, standard input and standard output of the process.
fn answer(rt: &HostRuntime) -> Result<Status, Fault> {
    let words = words(rt)?;
    let mut stdin = rt.stdin();
    let mut stdout = rt.stdout();
    run_from(
        rt.alloc(),
        &words,
        &mut Source::new(&mut stdin),
        &mut Sink::new(&mut stdout),
    )
}

/// The words after the program's name. `Fault::Words` if one is not UTF-8, `Fault::Memory` if memory runs out.
fn words(rt: &HostRuntime) -> Result<Vec<String>, Fault> {
    let mut words = Vec::new(rt.alloc());
    match env::args(rt) {
        Ok(args) => {
            for word in args.skip(1) {
                words.push(word)?;
            }
            Ok(words)
        }
        Err(error) if error.kind() == ErrorKind::OutOfMemory => Err(Fault::Memory),
        Err(_) => Err(Fault::Words(String::from_str(rt.alloc(), NO_TEXT)?)),
    }
}
