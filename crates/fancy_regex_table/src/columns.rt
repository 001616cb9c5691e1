//! The columns of a table: one class of characters each.

ghost use Rattle.std.specs.Prelude.{ℕ, IfOk};
ghost use Rattle.fancy_regex_table.specs.Making.{AreColumnsOf};

use crate::alphabet::Alphabet;
use crate::sort::{Sort, sort_of};
use crate::step::Reader;
use std::alloc::{AllocError, Global};

/// One class of characters.
#[derive(Clone, Copy)]
pub struct Column {
    /// A character of the class; `None` is the end of the text.
    pub sample: Option<char>,
    /// Its sort.
    pub sort: Sort,
}

/// A column for each class. The error is want of memory.
pub fn columns_of(
    alloc: Global,
    alphabet: &Alphabet,
    reader: &Reader,
) -> Result<Vec<Column>, AllocError>
    ensures { IfOk result (λ columns. AreColumnsOf reader.now.matchers.now alphabet.now.asked reader.now.unicode
        alphabet.now.samples.items columns.items) }
{
    let mut columns = Vec::new(alloc);
    for i in 0..alphabet.samples.len() {
        let sample = alphabet.samples[i];
        columns.push(Column {
            sample,
            sort: sort_of(alphabet.asked, reader, sample),
        })?;
    }
    Ok(columns)
}
