//! Percent-encoded texts: `%`, and each byte that is not a visible ASCII character, is `%` and two hexadecimal digits.

use crate::fault::VectorsError;
use fancy_regex::Error;
use percent_encoding::{AsciiSet, CONTROLS, percent_decode_str, utf8_percent_encode};
use std::alloc::{AllocError, Global};

/// Appends a text in brackets, percent-encoded.
pub fn append_quoted(out: &mut String, text: &str) -> Result<(), AllocError> {
    let set: AsciiSet = CONTROLS.add(b' ').add(b'%');
    out.push('[')?;
    utf8_percent_encode(text, set).append_to(out)?;
    out.push(']')
}

/// Appends the text of an error.
pub fn append_error(alloc: Global, out: &mut String, error: &Error) -> Result<(), AllocError> {
    let text = format!(in alloc; "{error}")?;
    append_quoted(out, &text)
}

/// Puts the text of an error in the place of an answer.
pub fn put_error(alloc: Global, out: &mut String, error: &Error) -> Result<(), AllocError> {
    out.clear();
    append_error(alloc, out, error)
}

/// Decodes a percent-encoded text. Fails with `VectorsError::Table` if the bytes are not UTF-8, or with `VectorsError::Memory`.
pub fn plain(alloc: Global, quoted: &str) -> Result<String, VectorsError> {
    let mut bytes = Vec::new(alloc);
    percent_decode_str(quoted).append_to(&mut bytes)?;
    match str::from_utf8(&bytes) {
        Ok(text) => Ok(String::from_str(alloc, text)?),
        Err(_) => Err(VectorsError::Table),
    }
}
