//! `Source`: a reader that notes what its last read gave, and is not read after a failure.

ghost use Rattle.std.specs.Prelude.{◌≡◌};
ghost use Rattle.std.specs.Io.{ReadsAtMost};
ghost use Rattle.std.specs.Io.KnownBytes.{ReadConsumes};
ghost use Rattle.fancy_search_run.specs.Reading.{last_read};
ghost use Rattle.fancy_search_run.specs.declared.source.LastRead.TheVariants.{NotYet, Failure};

use std::io;
use std::io::{ErrorKind, Read};

/// The number of bytes that one read may return.
pub(crate) const CHUNK: usize = 8192;

/// What the last read of a source gave, or that a read failed.
#[derive(Clone, Copy, Debug, PartialEq, Eq)]
pub enum LastRead {
    /// There was no read so far.
    NotYet,
    /// Some bytes.
    Bytes,
    /// No byte, although there was room for some: the end.
    End,
    /// An error, of the last read or of one before it.
    Failure,
}

/// A reader, and what its last read gave. After a read that failed the reader is not read again.
#[derive(Drop)]
pub struct Source<'r, R> {
    reader: &'r mut R,
    last: LastRead,
}

impl<'r, R: Read> Source<'r, R> {
    /// The source of a reader, before its first read.
    pub fn new(reader: &'r mut R) -> Source<'r, R>
        ensures same_reader { result.reader.ghost_name ≡ reader.entry.ghost_name }
        ensures bytes { result.reader.now ≡ reader.old }
        ensures unread { result.last ≡ NotYet }
    {
        Source {
            reader,
            last: LastRead::NotYet,
        }
    }

    /// What the last read gave, or that a read failed.
    pub fn last_read(&self) -> LastRead
        ensures { result ≡ self.now.last }
    {
        self.last
    }

    /// One read of at most as many bytes as the chunk has room for. After a read that failed nothing more is read: the call fails.
    #[tactic(auto, using(crate::proofs::Bytes::keeps_same))]
    pub(crate) fn read(&mut self, chunk: &mut [u8; CHUNK]) -> io::Result<usize>
        ensures same_reader { self.new.reader.ghost_name ≡ self.old.reader.ghost_name }
        ensures bound { ReadsAtMost result chunk.new }
        ensures bytes { ReadConsumes (R.remaining self.old.reader.now) (R.remaining self.new.reader.now) result chunk.new }
        ensures last { self.new.last ≡ last_read result }
        ensures failed { self.old.last ≡ Failure → self.new.reader.now ≡ self.old.reader.now }
        ensures stays { self.old.last ≡ Failure → self.new.last ≡ Failure }
    {
        match self.last {
            LastRead::Failure => Err(ErrorKind::Other.into()),
            LastRead::NotYet | LastRead::Bytes | LastRead::End => self.read_on(chunk),
        }
    }

    /// One read of the reader, none of whose reads has failed.
    fn read_on(&mut self, chunk: &mut [u8; CHUNK]) -> io::Result<usize>
        ensures same_reader { self.new.reader.ghost_name ≡ self.old.reader.ghost_name }
        ensures bound { ReadsAtMost result chunk.new }
        ensures bytes { ReadConsumes (R.remaining self.old.reader.now) (R.remaining self.new.reader.now) result chunk.new }
        ensures last { self.new.last ≡ last_read result }
    {
        let result = self.reader.read(chunk);
        self.last = match &result {
            Ok(0) => LastRead::End,
            Ok(_) => LastRead::Bytes,
            Err(_) => LastRead::Failure,
        };
        result
    }
}
