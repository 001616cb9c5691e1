//! Calls of the program, with readers and writers that fail, and the texts and statuses of faults.

ghost use Rattle.std.specs.Prelude.{◌≡◌, IfOk};

use fancy_regex::{CompileError, Error, ParseError, RuntimeError};
use fancy_search_run::{Fault, LastRead, Sink, Source, Status, exit_status, run, run_from, tell};
use std::alloc::{AllocError, Global};
use std::io;
use std::io::{ErrorKind, Read, Write};
use std::test::Fail;

/// What a call can read.
#[derive(Clone, Copy)]
pub enum Input {
    /// These bytes, read up to their end.
    Whole(&'static [u8]),
    /// These bytes, and then reading fails.
    Broken(&'static [u8]),
    /// Nothing, and the call does not ask for any.
    Unread,
}

/// A call of the program: its words, what it can read, its exit status, how it ends, and what it writes if there is room.
#[derive(Clone, Copy)]
pub struct ProgramCall(
    pub &'static [&'static str],
    pub Input,
    pub u8,
    pub &'static str,
    pub &'static str,
);

/// A reader that gives its bytes at one call, and then tells its end or fails. It counts its calls.
#[derive(Drop)]
struct Given {
    left: &'static [u8],
    fails: bool,
    calls: usize,
}

impl Given {
    /// The reader of an input.
    fn new(input: Input) -> Given {
        let (left, fails) = match input {
            Input::Whole(bytes) => (bytes, false),
            Input::Broken(bytes) => (bytes, true),
            Input::Unread => (b"".as_slice(), true),
        };
        Given {
            left,
            fails,
            calls: 0,
        }
    }
}

impl Read for Given {
    fn read(&mut self, buf: &mut [u8]) -> io::Result<usize> {
        self.calls = self.calls.saturating_add(1);
        if self.fails && self.left.is_empty() {
            return Err(io::Error::from(ErrorKind::BrokenPipe));
        }
        self.left.read(buf)
    }
}

/// A writer over memory that takes one byte a call, and fails or takes nothing where it has so many. It counts its calls.
#[derive(Drop)]
struct Narrow {
    taken: Vec<u8>,
    room: usize,
    fails: bool,
    calls: usize,
}

impl Write for Narrow {
    fn write(&mut self, buf: &[u8]) -> io::Result<usize> {
        self.calls = self.calls.saturating_add(1);
        if self.taken.len() >= self.room {
            return if self.fails {
                Err(io::Error::from(ErrorKind::BrokenPipe))
            } else {
                Ok(0)
            };
        }
        match buf.first() {
            Some(byte) => {
                self.taken.push(*byte)?;
                Ok(1)
            }
            None => Ok(0),
        }
    }

    fn flush(&mut self) -> io::Result<()> {
        Ok(())
    }
}

/// A reader that gives `a` at each of its first four calls, and a writer that takes a byte at each call, but for the second call. That
/// one fails, or gives or takes nothing.
#[derive(Drop)]
struct Resuming {
    calls: usize,
    fails: bool,
}

impl Resuming {
    /// The reader or writer before its first call.
    fn new(fails: bool) -> Resuming {
        Resuming { calls: 0, fails }
    }
}

/// What the second call of such a reader or writer returns.
fn second_answer(fails: bool) -> io::Result<usize>
    ensures { IfOk result (λ n. n ≡ 0) }
{
    if fails {
        Err(io::Error::from(ErrorKind::BrokenPipe))
    } else {
        Ok(0)
    }
}

impl Read for Resuming {
    fn read(&mut self, buf: &mut [u8]) -> io::Result<usize> {
        self.calls = self.calls.saturating_add(1);
        if self.calls == 2 {
            return second_answer(self.fails);
        }
        match buf.first_mut() {
            Some(byte) if self.calls < 5 => {
                *byte = b'a';
                Ok(1)
            }
            _ => Ok(0),
        }
    }
}

impl Write for Resuming {
    fn write(&mut self, buf: &[u8]) -> io::Result<usize> {
        self.calls = self.calls.saturating_add(1);
        if self.calls == 2 {
            return second_answer(self.fails);
        }
        Ok(buf.len().min(1))
    }

    fn flush(&mut self) -> io::Result<()> {
        Ok(())
    }
}

/// Whether the program tells this: the text of a fault, or a word for another end.
fn is_told(alloc: Global, ended: &Result<Status, Fault>, wanted: &str) -> bool {
    match ended {
        Ok(Status::Done) => wanted == "done",
        Ok(Status::Nothing) => wanted == "nothing",
        Err(Fault::Words(text)) => wanted == "words" && !text.is_empty(),
        Err(Fault::Help(_)) => wanted == "help",
        Err(fault) => is_text(alloc, fault, wanted),
    }
}

/// Whether a fault has this text.
fn is_text(alloc: Global, fault: &Fault, wanted: &str) -> bool {
    match fault.to_string(alloc) {
        Ok(text) => text.as_str() == wanted,
        Err(_) => false,
    }
}

/// Whether a writer is full of the beginning of a text.
fn is_full_of(writer: &Narrow, text: &str) -> bool {
    writer.taken.len() == writer.room && text.as_bytes().starts_with(writer.taken.as_slice())
}

/// A writer with room for so many bytes.
fn writer_with_room(alloc: Global, room: usize, fails: bool) -> Narrow {
    Narrow {
        taken: Vec::new(alloc),
        room,
        fails,
        calls: 0,
    }
}

/// How often an input is read: once for its bytes, if there are some, and once for its end or for the failure.
fn reads_of(input: Input) -> usize {
    match input {
        Input::Whole(bytes) | Input::Broken(bytes) => { if bytes.is_empty() { 1 } else { 2 } }
        Input::Unread => 0,
    }
}

/// What the last read of an input gives to a call that is through with it.
fn last_read_of(input: Input) -> LastRead {
    match input {
        Input::Whole(_) => LastRead::End,
        Input::Broken(_) => LastRead::Failure,
        Input::Unread => LastRead::NotYet,
    }
}

/// Whether a call ends as it has to where its writer has room for so many bytes.
fn ends_rightly(alloc: Global, call: &ProgramCall, room: usize, fails: bool) -> bool {
    let ProgramCall(words, input, status, told, written) = *call;
    let mut reader = Given::new(input);
    let mut writer = writer_with_room(alloc, room, fails);
    let mut source = Source::new(&mut reader);
    let mut sink = Sink::new(&mut writer);
    let was_new = source.last_read() == LastRead::NotYet && !sink.has_failed();
    let ended = run_from(alloc, words, &mut source, &mut sink);
    let is_read = source.last_read() == last_read_of(input);
    let is_full = room < written.len();
    let is_noted = sink.has_failed() == is_full;
    let writes = if is_full { room + 1 } else { written.len() };
    let is_counted = reader.calls == reads_of(input) && writer.calls == writes;
    let (status, told) = if is_full {
        (2, "cannot write output")
    } else {
        (status, told)
    };
    was_new
        && is_read
        && is_noted
        && is_counted
        && is_full_of(&writer, written)
        && exit_status(&ended) == status
        && is_told(alloc, &ended, told)
}

/// Whether a call ends the same without notes of its reads and writes.
fn runs_rightly(alloc: Global, call: &ProgramCall) -> bool {
    let ProgramCall(words, input, _, told, written) = *call;
    let mut writer = writer_with_room(alloc, written.len(), true);
    let ended = run(alloc, words, &mut Given::new(input), &mut writer);
    is_full_of(&writer, written) && is_told(alloc, &ended, told)
}

/// Whether a call ends as it has to with room for its output, and with less.
pub fn is_right(alloc: Global, call: &ProgramCall) -> bool {
    let ProgramCall(_, _, _, _, written) = *call;
    for room in 0..=written.len() {
        if !ends_rightly(alloc, call, room, true) || !ends_rightly(alloc, call, room, false) {
            return false;
        }
    }
    runs_rightly(alloc, call)
}

/// Faults, with their texts and the exit statuses.
const FAULTS: [(Result<Status, Fault>, &str, u8); 8] = [
    (
        Err(Fault::Regex(Error::ParseError(4, ParseError::UnclosedOpenParen))),
        "Parsing error at position 4: Opening parenthesis without closing parenthesis",
        2,
    ),
    (
        Err(Fault::Regex(Error::CompileError(CompileError::NeverEndingRecursion))),
        "Error compiling regex: never ending recursion",
        2,
    ),
    (
        Err(Fault::Regex(Error::RuntimeError(RuntimeError::BacktrackLimitExceeded))),
        "Error executing regex: backtrack limit exceeded",
        2,
    ),
    (Err(Fault::NotReprinted), "pattern does not reprint", 2),
    (Err(Fault::Input), "cannot read input", 2),
    (Err(Fault::NotUtf8), "input is not UTF-8", 2),
    (Err(Fault::Output), "cannot write output", 2),
    (Err(Fault::Memory), "Out of memory", 2),
];

/// Whether a fault has this text, and is told by these bytes on the output and on the errors.
fn is_told_by(alloc: Global, fault: &Fault, text: &str, output: &[u8], errors: &[u8]) -> bool {
    let mut written: Vec<u8> = Vec::new(alloc);
    let mut told: Vec<u8> = Vec::new(alloc);
    let is_done = tell(fault, &mut written, &mut told).is_ok();
    is_done
        && written.as_slice() == output
        && told.as_slice() == errors
        && is_text(alloc, fault, text)
}

/// Whether an outcome is a fault that is told by the line of this text on the errors.
fn is_told_as_line(
    alloc: Global,
    ended: &Result<Status, Fault>,
    text: &str,
) -> Result<bool, AllocError> {
    let mut line = String::from_str(alloc, "fancy_search: ")?;
    line.push_str(text)?;
    line.push('\n')?;
    match ended {
        Ok(_) => Ok(false),
        Err(fault) => Ok(is_told_by(alloc, fault, text, b"", line.as_bytes())),
    }
}

/// Whether the faults of words show the texts that they hold, help on the output and others on the errors.
fn shows_texts_of_words(alloc: Global) -> Result<bool, AllocError> {
    let words = Fault::Words(String::from_str(alloc, "w")?);
    let help = Fault::Help(String::from_str(alloc, "h")?);
    let is_shown = is_told_by(alloc, &words, "w", b"", b"fancy_search: w\n");
    Ok(is_shown && is_told_by(alloc, &help, "h", b"h", b""))
}

/// Whether an input above so many bytes is read whole and written whole.
fn carries(alloc: Global, count: usize) -> Result<bool, AllocError> {
    let input = vec![in alloc; b'a'; count]?;
    let mut output: Vec<u8> = Vec::new(alloc);
    let mut reader = input.as_slice();
    let ended = run(alloc, &["replace", "b", "c"], &mut reader, &mut output);
    Ok(matches!(ended, Ok(Status::Done)) && output.as_slice() == input.as_slice())
}

#[test]
fn large_inputs_are_carried(rt: HostRuntime) -> Result<(), Fail> {
    assert!(rt; carries(rt.alloc(), 200_000)?);
    Ok(())
}

#[test]
fn shows_faults(rt: HostRuntime) -> Result<(), Fail> {
    for (fault, text, status) in FAULTS.iter() {
        assert!(rt; is_told_as_line(rt.alloc(), fault, text)?, "{text}");
        assert!(rt; exit_status(fault) == *status, "{text}");
    }
    assert!(rt; shows_texts_of_words(rt.alloc())?);
    Ok(())
}

/// Whether the line of a fault is told as far as its writer has room, and telling it fails where some of the line is left.
fn is_told_in_room(alloc: Global, fault: &Fault, line: &str, room: usize, fails: bool) -> bool {
    let mut written: Vec<u8> = Vec::new(alloc);
    let mut told = writer_with_room(alloc, room, fails);
    let is_done = tell(fault, &mut written, &mut told).is_ok();
    is_done == (room == line.len()) && written.is_empty() && is_full_of(&told, line)
}

#[test]
fn faults_are_told_as_far_as_there_is_room(rt: HostRuntime) {
    let line = "fancy_search: cannot read input\n";
    for room in 0..=line.len() {
        assert!(rt;
            is_told_in_room(rt.alloc(), &Fault::Input, line, room, true),
            "{room}"
        );
        assert!(rt;
            is_told_in_room(rt.alloc(), &Fault::Input, line, room, false),
            "{room}"
        );
    }
}

#[test]
fn a_source_that_failed_is_not_read_again(rt: HostRuntime) {
    let mut reader = Resuming::new(true);
    let mut writer: Vec<u8> = Vec::new(rt.alloc());
    let mut source = Source::new(&mut reader);
    let mut sink = Sink::new(&mut writer);
    for _ in 0..2 {
        let ended = run_from(rt.alloc(), &["find", "a"], &mut source, &mut sink);
        assert!(rt; matches!(ended, Err(Fault::Input)) && source.last_read() == LastRead::Failure);
    }
    assert!(rt; reader.calls == 2 && writer.is_empty());
}

#[test]
fn a_source_is_not_read_past_its_end(rt: HostRuntime) {
    let mut reader = Resuming::new(false);
    let mut writer: Vec<u8> = Vec::new(rt.alloc());
    let mut source = Source::new(&mut reader);
    let mut sink = Sink::new(&mut writer);
    let ended = run_from(rt.alloc(), &["find", "a"], &mut source, &mut sink);
    assert!(rt; matches!(ended, Ok(Status::Done)) && source.last_read() == LastRead::End);
    assert!(rt; reader.calls == 2 && writer.as_slice() == b"0..1\n".as_slice());
}

/// Whether a sink that failed at its second byte is not written to again, neither by that call nor by a later one.
fn is_left_alone(alloc: Global, fails: bool) -> bool {
    let mut reader = b"".as_slice();
    let mut writer = Resuming::new(fails);
    let mut source = Source::new(&mut reader);
    let mut sink = Sink::new(&mut writer);
    let first = run_from(alloc, &["print", "a"], &mut source, &mut sink);
    let second = run_from(alloc, &["print", "a"], &mut source, &mut sink);
    let is_noted = sink.has_failed();
    is_noted
        && writer.calls == 2
        && matches!(first, Err(Fault::Output))
        && matches!(second, Err(Fault::Output))
}

#[test]
fn a_sink_that_failed_is_not_written_again(rt: HostRuntime) {
    assert!(rt; is_left_alone(rt.alloc(), true) && is_left_alone(rt.alloc(), false));
}

/// Whether `run` ends at the failure of such a reader, and at that of such a writer, and calls neither again.
fn ends_at_second_call(alloc: Global) -> bool {
    let mut reader = Resuming::new(true);
    let mut writer = Resuming::new(true);
    let mut taken: Vec<u8> = Vec::new(alloc);
    let unread = run(alloc, &["find", "a"], &mut reader, &mut taken);
    let unwritten = run(alloc, &["print", "a"], &mut b"".as_slice(), &mut writer);
    reader.calls == 2
        && writer.calls == 2
        && taken.is_empty()
        && matches!(unread, Err(Fault::Input))
        && matches!(unwritten, Err(Fault::Output))
}

#[test]
fn run_ends_at_the_first_failure(rt: HostRuntime) {
    assert!(rt; ends_at_second_call(rt.alloc()));
}
