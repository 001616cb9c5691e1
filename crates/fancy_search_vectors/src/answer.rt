//! What the program does for a case, as a text.

use crate::case::Case;
use crate::fault::SearchVectorsError;
use crate::quoted::{append_quoted, plain, plain_bytes};
use fancy_search_run::{Fault as ProgramFault, Status, exit_status, run};
use std::alloc::{AllocError, Global};
use std::fmt::Write;

/// The answer of the program for a case: its exit status, and the bytes that it writes or the text of its fault, percent-encoded, with
/// a blank between.
pub fn answer(alloc: Global, case: &Case<'_>) -> Result<String, SearchVectorsError> {
    let words = words_of(alloc, case.words)?;
    let input = plain_bytes(alloc, case.input)?;
    let mut written = Vec::new(alloc);
    let outcome = run(alloc, &words, &mut input.as_slice(), &mut written);
    answer_text(alloc, &outcome, &written)
}

/// Decodes words that are percent-encoded, with a blank between.
fn words_of(alloc: Global, quoted: &str) -> Result<Vec<String>, SearchVectorsError> {
    let mut words = Vec::new(alloc);
    for word in quoted.split(' ') {
        words.push(plain(alloc, word)?)?;
    }
    Ok(words)
}

/// The exit status, and what is written or the fault.
fn answer_text(
    alloc: Global,
    outcome: &Result<Status, ProgramFault>,
    written: &[u8],
) -> Result<String, SearchVectorsError> {
    let mut text = String::new(alloc);
    write!(text, "{} ", exit_status(outcome))?;
    match outcome {
        Ok(_) => append_written(&mut text, written)?,
        Err(fault) => append_fault(alloc, &mut text, fault, written)?,
    }
    Ok(text)
}

/// Appends what was written.
fn append_written(out: &mut String, written: &[u8]) -> Result<(), AllocError> {
    match str::from_utf8(written) {
        Ok(text) => append_quoted(out, text),
        Err(_) => {
            out.push_str("not UTF-8")?;
            Ok(())
        }
    }
}

/// Appends the text of a fault, and what was written in spite of it.
fn append_fault(
    alloc: Global,
    out: &mut String,
    fault: &ProgramFault,
    written: &[u8],
) -> Result<(), AllocError> {
    let text = format!(in alloc; "fancy_search: {fault}\n")?;
    append_quoted(out, &text)?;
    append_written(out, written)
}
