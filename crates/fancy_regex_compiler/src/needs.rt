//! The bodies of groups that are needed, since calls of these stay calls.

ghost use Rattle.std.specs.Prelude.{◌≡◌, [], true, IfOk};
ghost use Rattle.std.specs.List.{Contains};
ghost use Rattle.fancy_regex_compiler.specs.Needs.{IsNoted};

use crate::emitter::Need;
use std::alloc::{AllocError, Global};

/// The bodies that are needed.
#[derive(Drop)]
pub(crate) struct Needs {
    /// Each once, in the order in which they were met.
    pub list: Vec<Need>,
    /// Where each is in the list, by its number (`number_of`). One that is not there has no place.
    places: Vec<Option<usize>>,
}

impl Needs {
    /// No bodies.
    pub fn new(alloc: Global) -> Needs
        ensures { result.list.items ≡ [] }
    {
        Needs {
            list: Vec::new(alloc),
            places: Vec::new(alloc),
        }
    }

    /// Adds a body, unless it is there. The error is want of memory.
    pub fn note(&mut self, need: Need) -> Result<(), AllocError>
        ensures { IfOk result (λ _. IsNoted self.old.list.items self.new.list.items need) }
    {
        if self.has(need) {
            return Ok(());
        }
        let place = self.list.len();
        self.list.push(need)?;
        set_place(&mut self.places, number_of(need), place)?;
        Ok(())
    }

    /// Whether the body is there.
    fn has(&self, need: Need) -> bool
        ensures { result ≡ true → Contains self.now.list.items need }
    {
        match place_in(&self.places, number_of(need)) {
            Some(place) if place < self.list.len() => is_same(self.list[place], need),
            _ => false,
        }
    }
}

/// Where the body with this number is, if it is in the list.
fn place_in(places: &[Option<usize>], number: usize) -> Option<usize> {
    if number < places.len() {
        places[number]
    } else {
        None
    }
}

/// Keeps where the body with this number is. The error is want of memory.
fn set_place(
    places: &mut Vec<Option<usize>>,
    number: usize,
    place: usize,
) -> Result<(), AllocError> {
    if number >= places.len() {
        places.resize(number.saturating_add(1), None)?;
    }
    if number < places.len() {
        places[number] = Some(place);
    }
    Ok(())
}

/// The number of a body: each group has four.
fn number_of(need: Need) -> usize {
    need.group
        .saturating_mul(4)
        .saturating_add(2 * need.may_keep as usize + need.may_be_absent as usize)
}

/// Whether the bodies are the same.
fn is_same(one: Need, other: Need) -> bool
    ensures { result ≡ true → one ≡ other }
{
    one.group == other.group
        && one.may_keep == other.may_keep
        && one.may_be_absent == other.may_be_absent
}
