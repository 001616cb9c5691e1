//! Writes the whole output.

ghost use Rattle.std.specs.Prelude.{◌≡◌, [], true, OnOk, OnErr, IfErr};
ghost use Rattle.std.specs.Io.KnownBytes.{Appends};
ghost use Rattle.fancy_search_run.specs.RunOutcome.{AppendsPrefix};
ghost use Rattle.fancy_search_run.specs.declared.fault.Fault.TheVariants.{Output};

use crate::fault::Fault;
use crate::sink::Sink;
use std::io::Write;

/// Writes all bytes. `Fault::Output` if a write fails or accepts no byte, or one did before; a proper prefix of the bytes is written then.
pub fn write_all<W: Write>(sink: &mut Sink<'_, W>, bytes: &[u8]) -> Result<(), Fault>
    ensures same_writer { sink.new.writer.ghost_name ≡ sink.old.writer.ghost_name }
    ensures ok { OnOk result (Appends (W.contents sink.old.writer.now) (W.contents sink.new.writer.now) bytes.now) }
    ensures err { OnErr result (AppendsPrefix (W.contents sink.old.writer.now) (W.contents sink.new.writer.now) bytes.now) }
    ensures fault { IfErr result (λ f. f ≡ Output) }
    ensures failed { OnErr result (sink.new.has_failed ≡ true) }
    ensures unfailed { OnOk result (sink.new.has_failed ≡ sink.old.has_failed) }
    ensures refused { sink.old.has_failed ≡ true → sink.new.writer.now ≡ sink.old.writer.now }
    ensures noted { sink.old.has_failed ≡ true → sink.new.has_failed ≡ true }
    ensures silent { sink.old.has_failed ≡ true → OnOk result (bytes.now ≡ []) }
{
    let mut done = 0;
    while done < bytes.len() {
        match sink.write(&bytes[done..]) {
            Ok(0) => return Err(Fault::Output),
            Ok(n) => done += n,
            Err(_) => return Err(Fault::Output),
        }
    }
    Ok(())
}
