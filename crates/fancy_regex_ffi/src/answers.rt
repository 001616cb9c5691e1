//! How calls end: what they write, what is stored in the handle, and the number.

ghost use Rattle.std.specs.Prelude.{◌≡◌, None};
ghost use Rattle.std.specs.Cow.{cow_str_bytes};
ghost use Rattle.fancy_regex_ffi.specs.Codes.{code_of};
ghost use Rattle.fancy_regex_ffi.specs.Ends.{FaultAfter, IsStored};
ghost use Rattle.fancy_regex_ffi.specs.Lists.{IsListWritten, listed};
ghost use Rattle.fancy_regex_ffi.specs.Templates.{done_code};

use crate::calls::record_fault;
use crate::contents::Contents;
use crate::fault::CallError;
use crate::handle::Handle;
use crate::status::Status;
use fancy_regex_ffi_lists::write_front;
use std::alloc::Global;
use std::borrow::CowStr;

/// Writes a list, as much of it as there is room for, and counts it, or records the fault; and tells how the call ends.
pub fn answer_items<T: Copy>(
    contents: &mut Contents,
    answer: Result<Vec<T>, CallError>,
    out: &mut [T],
    count: &mut usize,
) -> Status
    ensures subject { contents.new.subject ≡ contents.old.subject }
    ensures fault { FaultAfter (listed (λ items. items.items) answer) contents.old.fault contents.new.fault }
    ensures written { IsListWritten (listed (λ items. items.items) answer) (code_of result) out.old out.new count.new }
{
    match answer {
        Ok(items) => {
            *count = write_front(out, &items);
            Status::Done
        }
        Err(fault) => {
            *count = 0;
            record_fault(contents, fault)
        }
    }
}

/// Writes a text, as much of it as there is room for, and its length, or records the fault; and tells how the call ends.
pub fn answer_text(
    contents: &mut Contents,
    answer: Result<CowStr<'_>, CallError>,
    out: &mut [u8],
    length: &mut usize,
) -> Status
    ensures subject { contents.new.subject ≡ contents.old.subject }
    ensures fault { FaultAfter (listed (λ text. cow_str_bytes text) answer.entry) contents.old.fault contents.new.fault }
    ensures written { IsListWritten (listed (λ text. cow_str_bytes text) answer.entry) (code_of result) out.old out.new length.new }
{
    match answer {
        Ok(text) => {
            *length = write_front(out, text.as_str().as_bytes());
            Status::Done
        }
        Err(fault) => {
            *length = 0;
            record_fault(contents, fault)
        }
    }
}

/// Writes a text, as much of it as there is room for, and its length; and tells how the call ends, which records no fault.
pub fn end_text(answer: Result<CowStr<'_>, CallError>, out: &mut [u8], length: &mut usize) -> Status
    ensures { IsListWritten (listed (λ text. cow_str_bytes text) answer.entry) (code_of result) out.old out.new length.new }
{
    match answer {
        Ok(text) => {
            *length = write_front(out, text.as_str().as_bytes());
            Status::Done
        }
        Err(fault) => {
            *length = 0;
            Status::of_fault(&fault)
        }
    }
}

/// Tells how a call ends that answers nothing, or records the fault.
pub fn answer_done(contents: &mut Contents, answer: Result<(), CallError>) -> Status
    ensures subject { contents.new.subject ≡ contents.old.subject }
    ensures fault { FaultAfter answer contents.old.fault contents.new.fault }
    ensures code { code_of result ≡ done_code answer }
{
    match answer {
        Ok(()) => Status::Done,
        Err(fault) => record_fault(contents, fault),
    }
}

/// Stores what was built in the handle, and tells how that ended; the handle stays empty if memory runs out.
pub fn store(alloc: Global, handle: &mut Handle, contents: Contents, status: Status) -> i32
    requires { handle.old.contents ≡ None }
    ensures { IsStored contents status handle.new.contents result }
{
    match Box::new(alloc, contents) {
        Ok(contents) => {
            handle.put(alloc, contents);
            status.code()
        }
        Err(_) => Status::Memory.code(),
    }
}
