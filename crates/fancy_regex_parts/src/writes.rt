//! What ways write, as lists that share their ends.

ghost use Rattle.std.specs.Prelude.{◌≡◌, ◌+◌, ◌<◌, ◌≤◌, ◌∷◌, ◌++◌, ℕ, true, length, max, IfOk, OnOk};
ghost use Rattle.fancy_regex_parts.specs.Writes.{apply, list_of, pairs_of, IsExtended, IsFirst, IsWritten, SameWrites};

use std::alloc::{AllocError, Global};

/// A write of a slot, and the number of the list of those after it.
#[derive(Clone, Copy)]
pub struct Write {
    /// The slot.
    slot: usize,
    /// The byte offset that is written to it.
    at: usize,
    /// The list of the writes after this one.
    rest: usize,
}

/// Lists of writes, which have numbers: that of no write has the number 0, and each write begins one, of its number and 1. Of two writes
/// of a slot in a list the later one counts.
#[derive(Drop)]
pub struct WriteLists {
    writes: Vec<Write>,
    /// No list that is kept has a higher number.
    held: usize,
    /// The writes of a list that are yet to be put before another one.
    moved: Vec<Write>,
}

impl WriteLists {
    /// The list of no write alone. It allocates nothing.
    pub fn new(alloc: Global) -> WriteLists {
        WriteLists {
            writes: Vec::new(alloc),
            held: 0,
            moved: Vec::new(alloc),
        }
    }

    /// Drops all lists. The room is kept.
    pub fn clear(&mut self)
        ensures held { self.new.held ≡ 0 }
    {
        self.writes.clear();
        self.held = 0;
    }

    /// The first write of a list, with that of the writes after it; `None` if there is none.
    #[inline(always)]
    fn first(&self, list: usize) -> Option<Write>
        ensures { IsFirst self.now.writes.items list result }
    {
        if list == 0 {
            return None;
        }
        if list > self.writes.len() {
            return None;
        }
        let write = self.writes[list - 1];
        Some(Write {
            slot: write.slot,
            at: write.at,
            rest: below(write.rest, list),
        })
    }

    /// Whether a list writes this slot.
    fn has_slot(&self, list: usize, slot: usize) -> bool
        ensures { result ≡ true → IsWritten slot (list_of self.now.writes.items list) }
    {
        let mut number = list;
        'writes: loop {
            let Some(write) = self.first(number) else {
                return false;
            };
            if write.slot == slot {
                return true;
            }
            number = write.rest;
        }
    }

    /// The list of a write and of those after it, or of these alone where they write its slot anyway. The error is want of memory.
    pub fn add(&mut self, slot: usize, at: usize, rest: usize) -> Result<usize, AllocError>
        requires rest { rest ≤ length self.old.writes.items }
        ensures list { IfOk result (λ list. (list ≤ length self.new.writes.items)
            × SameWrites (list_of self.new.writes.items list) ((slot, at) ∷ list_of self.old.writes.items rest)) }
        ensures extended { IsExtended self.old.writes.items self.new.writes.items }
        ensures held { self.new.held ≡ self.old.held }
        ensures moved { self.new.moved ≡ self.old.moved }
    {
        if self.has_slot(rest, slot) {
            return Ok(rest);
        }
        self.writes.push(Write { slot, at, rest })?;
        Ok(self.writes.len())
    }

    /// The list of the writes of a list and of those after them. The error is want of memory.
    pub fn join(&mut self, list: usize, rest: usize) -> Result<usize, AllocError>
        ensures list { IfOk result (λ all. (all ≤ length self.new.writes.items)
            × SameWrites (list_of self.new.writes.items all)
            (list_of self.old.writes.items list ++ list_of self.old.writes.items rest)) }
        ensures extended { IsExtended self.old.writes.items self.new.writes.items }
        ensures held { self.new.held ≡ self.old.held }
    {
        self.take_out(list)?;
        let mut all = self.known(rest);
        'writes: loop {
            let Some(write) = self.moved.pop() else {
                return Ok(all);
            };
            all = self.add(write.slot, write.at, all)?;
        }
    }

    /// This number, if a list has it, or else that of no write.
    #[inline(always)]
    fn known(&self, list: usize) -> usize
        ensures low { list ≤ length self.now.writes.items → result ≡ list }
        ensures high { length self.now.writes.items < list → result ≡ 0 }
    {
        if list <= self.writes.len() { list } else { 0 }
    }

    /// Notes the writes of a list, its last one last. The error is want of memory.
    fn take_out(&mut self, list: usize) -> Result<(), AllocError>
        ensures moved { OnOk result (pairs_of self.new.moved.items ≡ list_of self.old.writes.items list) }
        ensures writes { self.new.writes.items ≡ self.old.writes.items }
        ensures held { self.new.held ≡ self.old.held }
    {
        self.moved.clear();
        let mut number = list;
        'writes: loop {
            let Some(write) = self.first(number) else {
                return Ok(());
            };
            self.moved.push(write)?;
            number = write.rest;
        }
    }

    /// Keeps this list.
    #[inline(always)]
    pub fn hold(&mut self, list: usize)
        ensures held { self.new.held ≡ max self.old.held list }
        ensures writes { self.new.writes ≡ self.old.writes }
    {
        if list > self.held {
            self.held = list;
        }
    }

    /// Drops the lists that are not kept. The room is kept.
    pub fn drop_others(&mut self)
        ensures lists { (k : ℕ) → k ≤ self.old.held → list_of self.new.writes.items k ≡ list_of self.old.writes.items k }
        ensures held { self.new.held ≡ self.old.held }
        ensures writes { self.old.held ≤ length self.old.writes.items → self.new.held ≤ length self.new.writes.items }
    {
        self.writes.truncate(self.held);
    }

    /// Writes the slots of a list. A slot that is not there is passed over.
    pub fn write(&self, list: usize, slots: &mut [usize])
        ensures { slots.new ≡ apply (list_of self.now.writes.items list) slots.old }
    {
        let mut number = list;
        'writes: loop {
            let Some(write) = self.first(number) else {
                return;
            };
            if write.slot < slots.len() {
                slots[write.slot] = write.at;
            }
            number = write.rest;
        }
    }
}

/// This number, if it is below that one, or else 0.
#[inline(always)]
fn below(number: usize, list: usize) -> usize
    ensures low { number < list → result ≡ number }
    ensures high { list ≤ number → result ≡ 0 }
{
    if number < list { number } else { 0 }
}
