//! Percent-encoded texts: `%`, and each byte that is not a visible ASCII character, is `%` and two hexadecimal digits.

use crate::fault::SearchVectorsError;
use percent_encoding::{AsciiSet, CONTROLS, percent_decode_str, utf8_percent_encode};
use std::alloc::{AllocError, Global};

/// Appends a text, percent-encoded.
pub fn append_quoted(out: &mut String, text: &str) -> Result<(), AllocError> {
    let set: AsciiSet = CONTROLS.add(b' ').add(b'%');
    utf8_percent_encode(text, set).append_to(out)?;
    Ok(())
}

/// Decodes percent-encoded bytes.
pub fn plain_bytes(alloc: Global, quoted: &str) -> Result<Vec<u8>, AllocError> {
    let mut bytes = Vec::new(alloc);
    percent_decode_str(quoted).append_to(&mut bytes)?;
    Ok(bytes)
}

/// Decodes a percent-encoded text. Fails with `SearchVectorsError::Table` if the bytes are not UTF-8, or with `SearchVectorsError::Memory`.
pub fn plain(alloc: Global, quoted: &str) -> Result<String, SearchVectorsError> {
    let bytes = plain_bytes(alloc, quoted)?;
    match str::from_utf8(&bytes) {
        Ok(text) => Ok(String::from_str(alloc, text)?),
        Err(_) => Err(SearchVectorsError::Table),
    }
}
