//! The bytes that a pattern's matches start with, and those that each text with a match has, as tables.

ghost use Rattle.std.specs.Prelude.{◌≡◌, IfOk, IfErr};
ghost use Rattle.fancy_regex_bytes.specs.ByteSets.{has};
ghost use Rattle.fancy_regex.specs.Reading.{IsReadingError};
ghost use Rattle.fancy_regex.specs.ByteSetLaws.{IsStartBytesError};
ghost use Rattle.fancy_regex_ffi_lists.specs.Choices.{chosen};
ghost use Rattle.fancy_regex_ffi_lists.specs.Tables.{IsMarked, AreStartsMarked, AreRequiredMarked};

use crate::front::write_front;
use crate::options::Options;
use fancy_regex::{ByteSet, Result};
use std::alloc::Global;

/// Marks the bytes that the matches of a pattern start with, and tells whether they are known; else the table stays as it was. The
/// place of a byte in the table is its value.
///
/// # Errors
///
/// Those of the builder's `start_bytes`. The table stays as it was.
pub fn mark_start_bytes(
    alloc: Global,
    pattern: &str,
    options: &Options,
    table: &mut [bool],
) -> Result<bool>
    ensures marked { IfOk result (λ known. AreStartsMarked (chosen options.now) pattern.now known table.old table.new) }
    ensures refused { IfErr result (λ e. IsStartBytesError (chosen options.now) pattern.now e × (table.new ≡ table.old)) }
{
    match options.builder().start_bytes(alloc, pattern)? {
        Some(set) => {
            mark(&set, table);
            Ok(true)
        }
        None => Ok(false),
    }
}

/// Marks bytes that each text has in which the pattern matches. The place of a byte in the table is its value.
///
/// # Errors
///
/// Those of the builder's `required_bytes`. The table stays as it was.
pub fn mark_required_bytes(
    alloc: Global,
    pattern: &str,
    options: &Options,
    table: &mut [bool],
) -> Result<()>
    ensures marked { IfOk result (λ _. AreRequiredMarked (chosen options.now) pattern.now table.old table.new) }
    ensures refused { IfErr result (λ e. IsReadingError (chosen options.now) pattern.now e × (table.new ≡ table.old)) }
{
    let set = options.builder().required_bytes(alloc, pattern)?;
    mark(&set, table);
    Ok(())
}

/// Writes for each byte whether it is in the set.
fn mark(set: &ByteSet, table: &mut [bool])
    ensures { IsMarked (has set.now) table.old table.new }
{
    write_front(table, set.table());
}
