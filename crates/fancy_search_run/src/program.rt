//! `run`: the program as a function of its words, a reader and a writer.

ghost use Rattle.std.specs.Prelude.{◌≡◌, ◌≢◌, ℕ, List, [], true, false, map, None, Some, IfOk, IfErr, IfSome, OnOk};
ghost use Rattle.std.specs.Io.KnownBytes.{IsAtEnd};
ghost use Rattle.fancy_search_run.specs.Reading.{AfterReading, IsReadFault};
ghost use Rattle.fancy_search_run.specs.RunOutcome.{IsDueFor, Outcome, RefusesWords};
ghost use Rattle.fancy_search_run.specs.Requests.{reads_input};
ghost use Rattle.fancy_search_run.specs.declared.fault.Fault.TheVariants.{Input, Output};
ghost use Rattle.fancy_search_run.specs.declared.source.LastRead.TheVariants.{End, Failure};
ghost use Rattle.fancy_search_words.specs.Requests.{Request, requested, command_of, request_of_arguments};

use crate::answer::answer_for;
use crate::fault::Fault;
use crate::input::read_to_end;
use crate::output::write_all;
use crate::sink::Sink;
use crate::source::Source;
use crate::status::Status;
use fancy_search_words::{Arguments, Subcommand, read_words};
use std::alloc::Global;
use std::convert::AsStr;
use std::io::{Read, Write};

/// Runs the command that the words after the program's name give:
///
/// - `find P` writes a line `START..END`, in byte offsets, for each match of the pattern P in the whole input;
/// - `captures P` writes a line with the spans of all groups of each match, with `-` for a group that did not participate;
/// - `split P` writes a line for each piece between the matches: its length in bytes, `:` and the piece;
/// - `replace P T` writes the input with each match replaced by the template T;
/// - `print P` writes the printed pattern and a newline, and reads no input;
/// - `set P..` writes a line `INDEX START..END` for each of the patterns that matches at the earliest position at which one of
///   them does, with its number from 0.
///
/// The fault is the first of these that holds: the words, reading, UTF-8, the pattern, a search, writing; `Memory` can come
/// at any time. On a fault nothing is written, except on `Fault::Output`, when a proper prefix of the output is written.
pub fn run<S: AsStr, R: Read, W: Write>(
    alloc: Global,
    words: &[S],
    reader: &mut R,
    writer: &mut W,
) -> Result<Status, Fault>
    ensures words { requested (map S.text words.now) ≡ None → RefusesWords (map S.text words.now) result × (reader.new ≡ reader.old) }
    ensures outcome { (request : Request) → requested (map S.text words.now) ≡ Some request →
        (input : List ℕ) × IfSome (R.remaining reader.old) (λ xs. input ≡ xs)
        × Outcome request (W.contents writer.old) (W.contents writer.new) input result }
    ensures end { (request : Request) → requested (map S.text words.now) ≡ Some request → reads_input request.command ≡ true
        → AfterReading (Unit {0}) (IsAtEnd (R.remaining reader.new)) result }
    ensures unread { (request : Request) → requested (map S.text words.now) ≡ Some request → reads_input request.command ≡ false
        → reader.new ≡ reader.old }
    ensures untouched { IfErr result (λ f. f ≢ Output → writer.new ≡ writer.old) }
{
    run_from(
        alloc,
        words,
        &mut Source::new(reader),
        &mut Sink::new(writer),
    )
}

/// `run` on a source and a sink, which note what reads and writes gave. `Fault::Input` is the fault only if a read failed, and
/// `Fault::Output` only if a write failed or took no byte although some were left. An answer, and a fault of what comes after
/// reading, come only if the last read told the end and none failed. A source of which a read failed before is not read again, and
/// a sink of which a write failed before is not written to again: an answer comes then only if it is empty.
pub fn run_from<S: AsStr, R: Read, W: Write>(
    alloc: Global,
    words: &[S],
    source: &mut Source<'_, R>,
    sink: &mut Sink<'_, W>,
) -> Result<Status, Fault>
    ensures same_reader { source.new.reader.ghost_name ≡ source.old.reader.ghost_name }
    ensures same_writer { sink.new.writer.ghost_name ≡ sink.old.writer.ghost_name }
    ensures words { requested (map S.text words.now) ≡ None →
        RefusesWords (map S.text words.now) result
        × (source.new.reader.now ≡ source.old.reader.now) × (source.new.last ≡ source.old.last) }
    ensures outcome { (request : Request) → requested (map S.text words.now) ≡ Some request →
        (input : List ℕ) × IfSome (R.remaining source.old.reader.now) (λ xs. input ≡ xs)
        × Outcome request (W.contents sink.old.writer.now) (W.contents sink.new.writer.now) input result }
    ensures end { (request : Request) → requested (map S.text words.now) ≡ Some request → reads_input request.command ≡ true
        → AfterReading (source.new.last ≡ Failure) (IsAtEnd (R.remaining source.new.reader.now)
        × (source.new.last ≡ End)) result }
    ensures unread { (request : Request) → requested (map S.text words.now) ≡ Some request → reads_input request.command ≡ false
        → (source.new.reader.now ≡ source.old.reader.now) × (source.new.last ≡ source.old.last) }
    ensures failed { source.old.last ≡ Failure → source.new.reader.now ≡ source.old.reader.now }
    ensures stays { source.old.last ≡ Failure → source.new.last ≡ Failure }
    ensures refused { sink.old.has_failed ≡ true → sink.new.writer.now ≡ sink.old.writer.now }
    ensures noted { sink.old.has_failed ≡ true → sink.new.has_failed ≡ true }
    ensures silent { (request : Request) → requested (map S.text words.now) ≡ Some request → sink.old.has_failed ≡ true →
        IfOk result (λ status. (input : List ℕ) × IfSome (R.remaining source.old.reader.now) (λ xs. input ≡ xs)
        × IsDueFor request input [] status) }
    ensures output { IfErr result (λ f. f ≡ Output → sink.new.has_failed ≡ true) }
    ensures unfailed { OnOk result (sink.new.has_failed ≡ sink.old.has_failed) }
    ensures untouched { IfErr result (λ f. f ≢ Output →
        (sink.new.writer.now ≡ sink.old.writer.now) × (sink.new.has_failed ≡ sink.old.has_failed)) }
{
    let arguments = read_words(alloc, words)?;
    let input = input_for(alloc, &arguments.subcommand, source)?;
    respond(alloc, arguments, &input, sink)
}

/// The input of a subcommand: all bytes up to the end of the source; none for `print`, which leaves the source as it is.
/// `Fault::Input` if a read fails or failed before, or `Fault::Memory`.
fn input_for<R: Read>(
    alloc: Global,
    subcommand: &Subcommand<'_>,
    source: &mut Source<'_, R>,
) -> Result<Vec<u8>, Fault>
    ensures same_reader { source.new.reader.ghost_name ≡ source.old.reader.ghost_name }
    ensures read { reads_input (command_of subcommand.now) ≡ true →
        IfOk result (λ v. IfSome (R.remaining source.old.reader.now) (λ xs. v.items ≡ xs)) }
    ensures end { reads_input (command_of subcommand.now) ≡ true →
        OnOk result (IsAtEnd (R.remaining source.new.reader.now) × (source.new.last ≡ End)) }
    ensures unread { reads_input (command_of subcommand.now) ≡ false →
        (source.new.reader.now ≡ source.old.reader.now) × (source.new.last ≡ source.old.last) × IfOk result (λ v. v.items ≡ []) }
    ensures failed { source.old.last ≡ Failure → source.new.reader.now ≡ source.old.reader.now }
    ensures stays { source.old.last ≡ Failure → source.new.last ≡ Failure }
    ensures fault { IfErr result (λ f. IsReadFault source.new.last f × (f ≡ Input → reads_input (command_of subcommand.now) ≡ true)) }
{
    match subcommand {
        Subcommand::Print(_) => Ok(Vec::new(alloc)),
        _ => read_to_end(alloc, source),
    }
}

/// Writes what the subcommand answers for the input. Faults: UTF-8, the pattern, a search, writing, in this order; or `Memory`.
fn respond<W: Write>(
    alloc: Global,
    arguments: Arguments<'_>,
    input: &[u8],
    sink: &mut Sink<'_, W>,
) -> Result<Status, Fault>
    requires { reads_input (command_of arguments.subcommand) ≡ false → input.now ≡ [] }
    ensures same_writer { sink.new.writer.ghost_name ≡ sink.old.writer.ghost_name }
    ensures outcome { Outcome (request_of_arguments arguments.entry) (W.contents sink.old.writer.now) (W.contents sink.new.writer.now)
        input.now result }
    ensures input { IfErr result (λ f. f ≢ Input) }
    ensures refused { sink.old.has_failed ≡ true → sink.new.writer.now ≡ sink.old.writer.now }
    ensures noted { sink.old.has_failed ≡ true → sink.new.has_failed ≡ true }
    ensures silent { sink.old.has_failed ≡ true →
        IfOk result (λ status. IsDueFor (request_of_arguments arguments.entry) input.now [] status) }
    ensures output { IfErr result (λ f. f ≡ Output → sink.new.has_failed ≡ true) }
    ensures unfailed { OnOk result (sink.new.has_failed ≡ sink.old.has_failed) }
    ensures untouched { IfErr result (λ f. f ≢ Output →
        (sink.new.writer.now ≡ sink.old.writer.now) × (sink.new.has_failed ≡ sink.old.has_failed)) }
{
    let Ok(text) = str::from_utf8(input) else {
        return Err(Fault::NotUtf8);
    };
    let answer = answer_for(alloc, arguments, text)?;
    write_all(sink, answer.output.as_str().as_bytes())?;
    Ok(answer.status)
}
