//! Tells a fault to the caller of the program.

ghost use Rattle.std.specs.Prelude.{◌≡◌, true, false, IfSome, OnOk};
ghost use Rattle.std.specs.Io.KnownBytes.{Appends};
ghost use Rattle.fancy_search_run.specs.Messages.{fault_line, is_help};

use crate::fault::Fault;
use std::io::Write;
use std::{fmt, io};

/// Writes help to the output, and every other fault to the errors, as a line of `fancy_search: ` and its text. The other writer is
/// left as it is. Errors: those of the writer.
pub fn tell<O: Write, E: Write>(fault: &Fault, output: &mut O, errors: &mut E) -> io::Result<()>
    ensures help { is_help fault.now ≡ true → OnOk result
        (IfSome (⟦<Fault as fmt::Display>⟧.output fault.now) (Appends (O.contents output.old) (O.contents output.new))) }
    ensures line { is_help fault.now ≡ false → OnOk result
        (IfSome (fault_line (⟦<Fault as fmt::Display>⟧.output fault.now)) (Appends (E.contents errors.old) (E.contents errors.new))) }
    ensures errors { is_help fault.now ≡ true → errors.new ≡ errors.old }
    ensures output { is_help fault.now ≡ false → output.new ≡ output.old }
{
    match fault {
        Fault::Help(text) => write!(output, "{text}"),
        _ => writeln!(errors, "fancy_search: {fault}"),
    }
}
