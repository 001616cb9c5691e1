//! The check of what is known of the bytes of matches.

use crate::case::Case;
use crate::searches::found_span;
use fancy_regex::{ByteSet, CompileError, Error, Regex, Result};
use std::alloc::Global;

/// Whether a match that takes bytes starts with a start byte, and a text with a match has all required bytes.
pub fn has_its_bytes(alloc: Global, case: Case<'_>, regex: &Regex) -> Result<bool> {
    let Some((start, end)) = found_span(alloc, regex, case.text)? else {
        return Ok(true);
    };
    let required = case.setting.builder().required_bytes(alloc, case.pattern)?;
    if !has_bytes(case.text, &required) {
        return Ok(false);
    }
    if start == end || case.pattern.contains("\\K") {
        return Ok(true);
    }
    starts_rightly(alloc, case, start)
}

/// Whether the text has all bytes of a set.
fn has_bytes(text: &str, bytes: &ByteSet) -> bool {
    for byte in bytes.iter() {
        if !text.as_bytes().contains(&byte) {
            return false;
        }
    }
    true
}

/// Whether the byte at the start of a match is a start byte, where these are known. A pattern with `\K` reports another start.
fn starts_rightly(alloc: Global, case: Case<'_>, start: usize) -> Result<bool> {
    match case.setting.builder().start_bytes(alloc, case.pattern) {
        Ok(Some(bytes)) => match case.text.as_bytes().get(start) {
            Some(byte) => Ok(bytes.contains(*byte)),
            None => Ok(false),
        },
        Ok(None) => Ok(true),
        Err(Error::CompileError(CompileError::InnerError(_))) => Ok(true),
        Err(error) => Err(error),
    }
}
