//! The bytes that the matches of a pattern start with, and those that each text with a match has.

ghost use Rattle.std.specs.Prelude.{◌≡◌, None};
ghost use Rattle.fancy_regex_ffi_lists.specs.Choices.{chosen};
ghost use Rattle.fancy_regex_ffi.specs.Bytes.{AreStartsOrFault, AreRequiredOrFault, IsAskedEnd};

use crate::answers::store;
use crate::contents::Contents;
use crate::fault::CallError;
use crate::handle::Handle;
use crate::query::text_of;
use crate::status::Status;
use fancy_regex_ffi_lists::{Options, mark_required_bytes, mark_start_bytes};
use std::alloc::Global;

/// Marks the bytes that the matches of a pattern start with, and tells whether they are known.
pub fn starts_of(
    alloc: Global,
    pattern: &[u8],
    options: &Options,
    table: &mut [bool],
) -> Result<bool, CallError>
    ensures { AreStartsOrFault (chosen options.now) pattern.now result table.old table.new }
{
    let pattern = text_of(pattern, false)?;
    Ok(mark_start_bytes(alloc, pattern, options, table)?)
}

/// Marks bytes that each text has in which the pattern matches. They are always known.
pub fn required_of(
    alloc: Global,
    pattern: &[u8],
    options: &Options,
    table: &mut [bool],
) -> Result<bool, CallError>
    ensures { AreRequiredOrFault (chosen options.now) pattern.now result table.old table.new }
{
    let pattern = text_of(pattern, false)?;
    mark_required_bytes(alloc, pattern, options, table)?;
    Ok(true)
}

/// Tells how a question about a pattern ends. The handle holds the fault, if there is one.
#[tactic(auto, using(crate::proofs::EndLemmas::fault_stored))]
pub fn end_asked(alloc: Global, handle: &mut Handle, answer: Result<bool, CallError>) -> i32
    requires { handle.old.contents ≡ None }
    ensures { IsAskedEnd answer handle.new.contents result }
{
    match answer {
        Ok(true) => Status::Done.code(),
        Ok(false) => Status::NoMatch.code(),
        Err(fault) => {
            let status = Status::of_fault(&fault);
            store(alloc, handle, Contents::of_fault(alloc, fault), status)
        }
    }
}
