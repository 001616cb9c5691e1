//! Sets of bytes as text.

use fancy_regex::ByteSet;
use std::alloc::AllocError;
use std::fmt::Write;

/// Appends a set of bytes: each run of neighbours by its first and its last, or by the only one, in brackets.
pub fn append_bytes(out: &mut String, set: &ByteSet) -> Result<(), AllocError> {
    let mut run: Option<(u8, u8)> = None;
    for byte in set.iter() {
        run = match run {
            Some((first, last)) if last.checked_add(1) == Some(byte) => Some((first, byte)),
            Some((first, last)) => {
                append_run(out, first, last)?;
                Some((byte, byte))
            }
            None => Some((byte, byte)),
        };
    }
    if let Some((first, last)) = run {
        append_run(out, first, last)?;
    }
    Ok(())
}

/// Appends a run of bytes.
fn append_run(out: &mut String, first: u8, last: u8) -> Result<(), AllocError> {
    if first == last {
        write!(out, "[{first}]")
    } else {
        write!(out, "[{first}-{last}]")
    }
}
