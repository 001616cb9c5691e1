//! Reads the whole input.

ghost use Rattle.std.specs.Prelude.{◌≡◌, IfOk, IfSome, IfErr, OnOk};
ghost use Rattle.std.specs.Io.KnownBytes.{IsAtEnd};
ghost use Rattle.fancy_search_run.specs.Reading.{IsReadFault};
ghost use Rattle.fancy_search_run.specs.declared.source.LastRead.TheVariants.{End, Failure};

use crate::fault::Fault;
use crate::source::{CHUNK, Source};
use std::alloc::Global;
use std::io::Read;

/// All bytes up to the end of the reader. `Fault::Input` if a read fails, or failed before; `Fault::Memory` if memory runs out.
pub fn read_to_end<R: Read>(alloc: Global, source: &mut Source<'_, R>) -> Result<Vec<u8>, Fault>
    ensures same_reader { source.new.reader.ghost_name ≡ source.old.reader.ghost_name }
    ensures value { IfOk result (λ v. IfSome (R.remaining source.old.reader.now) (λ xs. v.items ≡ xs)) }
    ensures end { OnOk result (IsAtEnd (R.remaining source.new.reader.now)) }
    ensures told { OnOk result (source.new.last ≡ End) }
    ensures fault { IfErr result (IsReadFault source.new.last) }
    ensures failed { source.old.last ≡ Failure → source.new.reader.now ≡ source.old.reader.now }
    ensures stays { source.old.last ≡ Failure → source.new.last ≡ Failure }
{
    let mut bytes = Vec::new(alloc);
    let mut chunk = [0; CHUNK];
    loop {
        match source.read(&mut chunk) {
            Ok(0) => return Ok(bytes),
            Ok(n) => bytes.extend_from_slice(&chunk[..n])?,
            Err(_) => return Err(Fault::Input),
        }
    }
}
