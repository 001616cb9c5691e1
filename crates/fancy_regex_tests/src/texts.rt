//! The texts of errors that no pattern leads to, and of a regex, and those that the library for C writes.

use fancy_regex::{CompileError, Error, ParseError, Regex, RuntimeError};
use fancy_regex_ffi_lists::write_error;
use std::alloc::{AllocError, Global};
use std::fmt::Display;
use std::test::Fail;

/// Errors, and their texts.
const TEXTS: [(CompileError, &str); 4] = [
    (
        CompileError::VariableLookBehindRequiresFeature,
        "variable look behind requires feature",
    ),
    (CompileError::InvalidGroupName, "invalid group name"),
    (CompileError::UnresolvedAstNode, "unresolved ast node"),
    (CompileError::Memory, "Out of memory"),
];

/// Whether an error has this text.
fn is_text<E: Display>(alloc: Global, error: &E, wanted: &str) -> bool {
    match error.to_string(alloc) {
        Ok(text) => text.as_str() == wanted,
        Err(_) => false,
    }
}

/// Whether errors of the other types have their texts.
fn others_have_texts(alloc: Global) -> bool {
    is_text(alloc, &ParseError::InvalidRepeat, "Invalid repeat syntax")
        && is_text(alloc, &RuntimeError::StackOverflow, "stack overflow")
        && is_text(alloc, &RuntimeError::Memory, "Out of memory")
        && is_text(alloc, &Error::Memory, "Out of memory")
}

/// Whether errors show their payload.
fn show_payloads(alloc: Global) -> Result<bool, AllocError> {
    let dfa = CompileError::DfaBuildError(String::from_str(alloc, "[z-a]")?);
    let general = CompileError::UnexpectedGeneralError(String::from_str(alloc, "[z-a]")?);
    let is_shown = is_text(alloc, &dfa, "dfa build error: [z-a]");
    Ok(is_text(alloc, &general, "unexpected general error: [z-a]") && is_shown)
}

#[test]
fn errors_have_their_texts(rt: HostRuntime) -> Result<(), Fail> {
    for (error, text) in TEXTS.iter() {
        assert!(rt; is_text(rt.alloc(), error, text), "{text}");
    }
    let is_shown = show_payloads(rt.alloc())?;
    assert!(rt; is_shown && others_have_texts(rt.alloc()));
    Ok(())
}

#[test]
fn a_regex_shows_its_pattern(rt: HostRuntime) -> Result<(), Fail> {
    let regex = Regex::new(rt.alloc(), "(a)\\1")?;
    assert!(rt; is_text(rt.alloc(), &regex, "(a)\\1"));
    Ok(())
}

/// Errors of the library for C, and their texts.
const WRITTEN: [(Error, &str); 4] = [
    (
        Error::ParseError(4, ParseError::UnclosedOpenParen),
        "Parsing error at position 4: Opening parenthesis without closing parenthesis",
    ),
    (
        Error::CompileError(CompileError::NeverEndingRecursion),
        "Error compiling regex: never ending recursion",
    ),
    (
        Error::RuntimeError(RuntimeError::BacktrackLimitExceeded),
        "Error executing regex: backtrack limit exceeded",
    ),
    (Error::Memory, "Out of memory"),
];

/// Whether an error is written as this text.
fn is_written(error: &Error, wanted: &str) -> bool {
    let mut room = [0u8; 128];
    let length = write_error(error, &mut room);
    match room.get(..length) {
        Some(text) => text == wanted.as_bytes(),
        None => false,
    }
}

#[test]
fn errors_are_written_for_c(rt: HostRuntime) {
    for (error, text) in WRITTEN.iter() {
        assert!(rt; is_written(error, text), "{text}");
    }
}
