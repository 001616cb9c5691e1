//! `Sink`: a writer that notes whether a write failed.

ghost use Rattle.std.specs.Prelude.{◌≡◌, ◌||◌, true, false, OnOk};
ghost use Rattle.std.specs.Io.{WritesAtMost};
ghost use Rattle.std.specs.Io.KnownBytes.{WriteAppends};
ghost use Rattle.fancy_search_run.specs.Writing.{fails_to_write};

use std::io;
use std::io::{ErrorKind, Write};

/// A writer, and whether one of its writes failed: it returned an error, or took no byte although there were some. Nothing is written
/// after that.
#[derive(Drop)]
pub struct Sink<'w, W> {
    writer: &'w mut W,
    has_failed: bool,
}

impl<'w, W: Write> Sink<'w, W> {
    /// The sink of a writer, before its first write.
    pub fn new(writer: &'w mut W) -> Sink<'w, W>
        ensures same_writer { result.writer.ghost_name ≡ writer.entry.ghost_name }
        ensures bytes { result.writer.now ≡ writer.old }
        ensures failed { result.has_failed ≡ false }
    {
        Sink {
            writer,
            has_failed: false,
        }
    }

    /// Whether a write failed, or took no byte although there were some.
    pub fn has_failed(&self) -> bool
        ensures { result ≡ self.now.has_failed }
    {
        self.has_failed
    }

    /// One write of these bytes, which takes some of them. After a write that failed nothing more is written: the call fails.
    #[tactic(auto, using(crate::proofs::Bytes::keeps_same))]
    pub(crate) fn write(&mut self, bytes: &[u8]) -> io::Result<usize>
        ensures same_writer { self.new.writer.ghost_name ≡ self.old.writer.ghost_name }
        ensures bound { WritesAtMost result bytes.now }
        ensures bytes { WriteAppends (W.contents self.old.writer.now) (W.contents self.new.writer.now) result bytes.now }
        ensures failed { self.new.has_failed ≡ (self.old.has_failed || fails_to_write result bytes.now) }
        ensures refused { self.old.has_failed ≡ true → OnOk result ⊥ × (self.new.writer.now ≡ self.old.writer.now) }
    {
        if self.has_failed {
            return Err(ErrorKind::Other.into());
        }
        let result = self.writer.write(bytes);
        let fails = match &result {
            Ok(count) => *count == 0 && !bytes.is_empty(),
            Err(_) => true,
        };
        self.has_failed = fails;
        result
    }
}
