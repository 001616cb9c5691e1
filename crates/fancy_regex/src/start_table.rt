//! `StartTable`: from a byte to the members of a set that may start with it.

ghost use Rattle.std.specs.Prelude.{◌≡◌, IfOk};
ghost use Rattle.fancy_regex.specs.MemberStarts.{may_start_with, IsRow};
ghost use Rattle.fancy_regex.specs.StartTables.{next_of, row_of, Serves};

use std::alloc::{AllocError, Global};

/// The bytes that a member may start with: for each byte, whether it may.
pub(crate) type StartBytes = [bool; 256];

/// For each byte, the members that may start with it. A row has for each number the next member from that number on; the number
/// of members where none is left.
#[derive(Drop)]
pub(crate) struct StartTable {
    /// The row of each byte.
    rows: Vec<Vec<usize>>,
    /// The row of the end of a text, where there is no byte.
    row_at_end: Vec<usize>,
}

/// Whether a member may match at a place with this byte; at the end of a text there is none. Where its bytes are not known, it may.
fn may_start(starts: &Option<StartBytes>, byte: Option<u8>) -> bool
    ensures { result ≡ may_start_with starts.now byte }
{
    match (starts, byte) {
        (None, _) => true,
        (Some(_), None) => false,
        (Some(starts), Some(byte)) => starts[byte as usize],
    }
}

/// The row of a byte, or of the end of a text: for each number the next member from it on that may match there.
fn row(
    alloc: Global,
    members: &[Option<StartBytes>],
    byte: Option<u8>,
) -> Result<Vec<usize>, AllocError>
    ensures { IfOk result (λ row. IsRow members.now byte row.items) }
{
    let mut row = vec![in alloc; members.len(); members.len() + 1]?;
    let mut number = members.len();
    while number > 0 {
        number -= 1;
        let next = row[number + 1];
        row[number] = if may_start(&members[number], byte) {
            number
        } else {
            next
        };
    }
    Ok(row)
}

impl StartTable {
    /// The table of these members, by their numbers: of each the bytes that it may start with, if they are known.
    pub fn new(alloc: Global, members: &[Option<StartBytes>]) -> Result<StartTable, AllocError>
        ensures { IfOk result (λ table. Serves table members.now) }
    {
        let mut rows = Vec::new(alloc);
        for byte in 0..256_usize {
            let row = row(alloc, members, Some(byte as u8))?;
            rows.push(row)?;
        }
        Ok(StartTable {
            rows,
            row_at_end: row(alloc, members, None)?,
        })
    }

    /// The first member from this number on that may match at a place with this byte, or at the end of a text; the number of
    /// members if there is none.
    pub fn next(&self, byte: Option<u8>, from: usize) -> usize
        ensures { result ≡ next_of self.now byte from }
    {
        let row = match byte {
            Some(byte) => self.rows.get(byte as usize),
            None => Some(&self.row_at_end),
        };
        match row {
            Some(row) => row.get(from).copied().unwrap_or(from),
            None => from,
        }
    }
}
