//! The log of the values that were written over: undoing a part of it, and keeping it short.

ghost use Rattle.std.specs.Prelude.{◌≡◌, ◌+◌, ◌<◌, ◌≤◌, length, take, reverse, true, OnOk};
ghost use Rattle.fancy_regex_slots.specs.UndoLog.{memory_of, restored, IsWriteOnTop, AreLogged, IsLogBelow, IsSound, IsShortened, AreMarks, segment_limit, top_mark, undone};

use crate::branch::{Branch, OldValue};
use std::alloc::AllocError;

/// The fewest entries above the topmost branch that may be too many, as two more may be logged.
pub(crate) const MANY: usize = 63;

/// Undoes logged writes, the newest first.
fn undo(values: &mut [usize], log: &[OldValue])
    requires { AreLogged (length values.old) log.now }
    ensures { values.new ≡ undone values.old log.now }
{
    for old in log.iter().rev() {
        values[old.slot] = old.value;
    }
}

/// Undoes what was logged since the row was pushed, and then writes the value of its counter in the topmost branch, if it has one.
#[inline(always)]
pub(crate) fn restore(values: &mut [usize], log: &[OldValue], row: Branch)
    requires logged { AreLogged (length values.old) log.now }
    requires mark { row.logged ≤ length log.now }
    requires counter { row.counts ≡ true → 0 < row.logged }
    ensures { values.new ≡ restored values.old log.now row }
{
    undo(values, &log[row.logged..]);
    if row.counts {
        let lowest = log[row.logged - 1];
        values[lowest.slot] = lowest.value.saturating_add(row.more);
    }
}

/// Makes `room` as long as `slots` where the log may become long enough to be shortened: it has `entries`, and one or two more are
/// to be logged. If memory runs out, nothing changes.
#[inline(always)]
pub(crate) fn make_room(
    room: &mut Vec<usize>,
    slots: usize,
    entries: usize,
) -> Result<(), AllocError>
    ensures longer { length room.old.items ≤ length room.new.items }
    ensures ok { OnOk result (MANY ≤ entries + 2 → slots ≤ length room.new.items) }
{
    if entries < MANY - 2 || slots <= room.len() {
        return Ok(());
    }
    lengthen(room, slots)
}

/// Makes `room` as long as `slots`, which is longer than it.
#[cold]
fn lengthen(room: &mut Vec<usize>, slots: usize) -> Result<(), AllocError>
    requires { length room.old.items ≤ slots }
    ensures longer { length room.old.items ≤ length room.new.items }
    ensures ok { OnOk result (slots ≤ length room.new.items) }
{
    room.resize(slots, 0)?;
    Ok(())
}

/// Logs the value of the slot, which is about to be written, and then `lowest` for the same slot. What the branches save stays. If
/// memory runs out, that stays too.
pub(crate) fn log_counter(
    values: &[usize],
    room: &mut Vec<usize>,
    log: &mut Vec<OldValue>,
    branches: &[Branch],
    slot: usize,
    lowest: usize,
) -> Result<(), AllocError>
    requires room { MANY ≤ length log.old.items → length values.now ≤ length room.old.items }
    requires sound { IsSound values.now log.old.items branches.now }
    requires slot { slot < length values.now }
    ensures room { MANY ≤ length log.new.items → length values.now ≤ length room.new.items }
    ensures memory { memory_of values.now log.new.items branches.now ≡ memory_of values.now log.old.items branches.now }
    ensures sound { IsSound values.now log.new.items branches.now }
    ensures on_top { OnOk result (IsWriteOnTop (record { slot = slot; value = lowest }) (top_mark (reverse branches.now)) log.new.items) }
{
    let value = values[slot];
    make_room(room, values.len(), log.len())?;
    bound_log(values, room, log, branches);
    log.push(OldValue { slot, value })?;
    log.push(OldValue {
        slot,
        value: lowest,
    })?;
    Ok(())
}

/// Makes the log shorter where too much was logged since the topmost branch was pushed. What the branches save stays, and two
/// more entries may be logged. `room` is as long as the slots where the log is long, and what it holds is lost.
#[inline(always)]
pub(crate) fn bound_log(
    values: &[usize],
    room: &mut [usize],
    log: &mut Vec<OldValue>,
    branches: &[Branch],
)
    requires room { MANY ≤ length log.old.items → length values.now ≤ length room.old }
    requires log { IsLogBelow values.now log.old.items branches.now }
    ensures memory { memory_of values.now log.new.items branches.now ≡ memory_of values.now log.old.items branches.now }
    ensures sound { IsSound values.now log.new.items branches.now }
    ensures two_more { AreMarks (segment_limit (length values.now)) (length log.new.items + 2) (reverse branches.now) }
    ensures less { length log.new.items ≤ length log.old.items }
{
    if log.len() >= MANY {
        bound_top(values, room, log, branches);
    }
}

/// The same for a log that is long.
#[inline(always)]
fn bound_top(values: &[usize], room: &mut [usize], log: &mut Vec<OldValue>, branches: &[Branch])
    requires room { MANY ≤ length log.old.items → length values.now ≤ length room.old }
    requires log { IsLogBelow values.now log.old.items branches.now }
    ensures memory { memory_of values.now log.new.items branches.now ≡ memory_of values.now log.old.items branches.now }
    ensures sound { IsSound values.now log.new.items branches.now }
    ensures two_more { AreMarks (segment_limit (length values.now)) (length log.new.items + 2) (reverse branches.now) }
    ensures less { length log.new.items ≤ length log.old.items }
{
    let start = segment_start(branches);
    if log.len() - start >= MANY {
        bound_segment(values, room, log, start);
    }
}

/// Where the entries begin that were logged since the topmost branch was pushed.
#[inline(always)]
fn segment_start(branches: &[Branch]) -> usize
    ensures { result ≡ top_mark (reverse branches.now) }
{
    match branches.last() {
        Some(branch) => branch.logged,
        None => 0,
    }
}

/// Replaces the entries from `start` on where they are too many.
#[cold]
fn bound_segment(values: &[usize], room: &mut [usize], log: &mut Vec<OldValue>, start: usize)
    requires room { length values.now ≤ length room.old }
    requires many { start + MANY ≤ length log.old.items }
    requires logged { AreLogged (length values.now) log.old.items }
    ensures { IsShortened values.now start log.old.items log.new.items }
{
    if (log.len() - start - MANY) / 2 >= values.len() {
        shorten(values, room, log, start);
    }
}

/// Replaces the entries from `start` on by one for each slot that they change, which has its value before them.
fn shorten(values: &[usize], room: &mut [usize], log: &mut Vec<OldValue>, start: usize)
    requires room { length values.now ≤ length room.old }
    requires long { start + length values.now ≤ length log.old.items }
    requires logged { AreLogged (length values.now) log.old.items }
    ensures { IsShortened values.now start log.old.items log.new.items }
{
    let saved = &mut room[..values.len()];
    saved.copy_from_slice(values);
    undo(saved, &log[start..]);
    let written = log_changes(values, saved, &mut log[start..]);
    log.truncate(start + written);
}

/// Writes to the front of `log` an entry for each slot that has another value in `saved` than in `values`, and returns how
/// many those are. Undoing them gives `saved`.
fn log_changes(values: &[usize], saved: &[usize], log: &mut [OldValue]) -> usize
    requires slots { length saved.now ≡ length values.now }
    requires room { length values.now ≤ length log.old }
    ensures count { result ≤ length values.now }
    ensures undone { undone values.now (take result log.new) ≡ saved.now }
    ensures logged { AreLogged (length values.now) (take result log.new) }
{
    let mut written = 0;
    for (slot, value) in saved.iter().enumerate() {
        if values[slot] != *value {
            log[written] = OldValue {
                slot,
                value: *value,
            };
            written += 1;
        }
    }
    written
}
