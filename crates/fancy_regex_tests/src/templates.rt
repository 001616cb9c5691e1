//! Templates of other types than texts, and expansion into a writer.

use crate::replacement::is_made;
use fancy_regex::{Captures, Expander, Regex};
use std::alloc::Global;
use std::borrow::CowStr;
use std::io;
use std::io::{ErrorKind, Write};

/// Whether strings, borrowed and owned, replace a match of `(b)`.
pub fn takes_strings(alloc: Global, regex: &Regex) -> bool {
    let Ok(template) = String::from_str(alloc, "<$1>") else {
        return false;
    };
    let by_reference = is_made(regex.replace_all(alloc, "abc", &template), "a<b>c");
    let by_value = is_made(regex.replace_all(alloc, "abc", template), "a<b>c");
    by_reference && by_value
}

/// Whether texts that are borrowed or owned, themselves borrowed and owned, replace a match of `(b)`.
pub fn takes_cows(alloc: Global, regex: &Regex) -> bool {
    let template = CowStr::Borrowed("[$1]");
    let by_reference = is_made(regex.replace_all(alloc, "abc", &template), "a[b]c");
    let by_value = is_made(regex.replace_all(alloc, "abc", template), "a[b]c");
    by_reference && by_value
}

/// Whether a writer gets the expansion of a template for a match of `(a)()|(b)`, in which a group is empty, one took no part and one
/// does not exist.
pub fn writes(alloc: Global, regex: &Regex) -> bool {
    let Ok(Some(captures)) = regex.captures(alloc, "a") else {
        return false;
    };
    let mut bytes: Vec<u8> = Vec::new(alloc);
    let written = Expander::default().write_expansion(&mut bytes, "$2$3${1}!$9", &captures);
    written.is_ok() && bytes.as_slice() == b"a!".as_slice()
}

/// A writer that has room for so many bytes, takes one of them a call, and then fails or takes none.
#[derive(Drop)]
struct Narrow {
    room: usize,
    fails: bool,
}

impl Write for Narrow {
    fn write(&mut self, buf: &[u8]) -> io::Result<usize> {
        if self.room == 0 {
            return if self.fails {
                Err(io::Error::from(ErrorKind::BrokenPipe))
            } else {
                Ok(0)
            };
        }
        if buf.is_empty() {
            return Ok(0);
        }
        self.room -= 1;
        Ok(1)
    }

    fn flush(&mut self) -> io::Result<()> {
        Ok(())
    }
}

/// Whether a writer with room for so many bytes gets this expansion of two bytes, or as many of them as it has room for and then
/// the error of this kind.
fn fills(captures: &Captures<'_, &str>, room: usize, fails: bool, kind: ErrorKind) -> bool {
    let mut writer = Narrow { room, fails };
    let written = Expander::default().write_expansion(&mut writer, "$2$3${1}!$9", captures);
    match written {
        Ok(()) => room >= 2 && writer.room == room - 2,
        Err(error) => room < 2 && writer.room == 0 && error.kind() == kind,
    }
}

/// Whether the error of a writer is passed on, and one that takes no byte is `WriteZero`, at each byte of an expansion for a match of
/// `(a)()|(b)`.
pub fn tells_what_failed(alloc: Global, regex: &Regex) -> bool {
    let Ok(Some(captures)) = regex.captures(alloc, "a") else {
        return false;
    };
    for room in 0..4 {
        if !fills(&captures, room, true, ErrorKind::BrokenPipe)
            || !fills(&captures, room, false, ErrorKind::WriteZero)
        {
            return false;
        }
    }
    true
}
