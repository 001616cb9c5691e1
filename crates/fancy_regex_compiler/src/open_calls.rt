//! The calls that are being inlined, and how many of them are calls of each group.

ghost use Rattle.std.specs.Prelude.{◌≡◌, ◌+◌, ◌-◌, ◌<◌, ℕ, List, [], ◌∷◌, ◌++◌, length, take, true, OnOk, OnErr};
ghost use Rattle.fancy_regex_meaning.specs.Ways.{is_at_call_limit};
ghost use Rattle.fancy_regex_compiler.specs.Opened.{OpenGroups, AreCounts, if_full, full_groups as groups_at_limit};

use std::alloc::{AllocError, Global};
use std::marker::Model;

/// How many calls of one group may be open: so often it is inlined inside of itself, and so many frames it has.
pub(crate) const MAX_OPEN_CALLS_PER_GROUP: usize = 19;

/// The open calls. Each step takes constant time on average, besides the time for a count of each group, which is made once.
#[derive(Drop)]
pub(crate) struct OpenCalls {
    /// The targets of the open calls, the innermost last.
    targets: Vec<usize>,
    /// How many of them are calls of each group, by its number; of groups after these there are none.
    counts: Vec<usize>,
    /// The groups of which as many calls are open as may be, the last to reach that number last.
    full: Vec<usize>,
}

impl Model for OpenCalls {
    ghost Value = { OpenGroups };

    ghost view = { λ calls. record { items = calls.targets.items } };

    ghost invariant = { λ calls. record {
      counted : AreCounts calls.counts.items calls.targets.items;
      full : calls.full.items ≡ groups_at_limit calls.targets.items;
    } };
}

impl OpenCalls {
    /// No open calls. It allocates nothing.
    pub fn new(alloc: Global) -> OpenCalls
        ensures { result.items ≡ [] }
    {
        OpenCalls {
            targets: Vec::new(alloc),
            counts: Vec::new(alloc),
            full: Vec::new(alloc),
        }
    }

    /// Whether as many calls of the group are open as may be.
    pub fn is_full(&self, group: usize) -> bool
        ensures { result ≡ is_at_call_limit self.now.items group }
    {
        match self.counts.get(group) {
            Some(count) => *count >= MAX_OPEN_CALLS_PER_GROUP,
            None => false,
        }
    }

    /// The groups of which as many calls are open as may be, in the order in which they reached that number.
    pub fn full_groups(&self) -> &[usize]
        ensures { result.now ≡ groups_at_limit self.now.items }
    {
        &self.full
    }

    /// Opens a call of the group. If memory runs out, nothing changes.
    pub fn push(&mut self, group: usize) -> Result<(), AllocError>
        ensures ok { OnOk result (self.new.items ≡ self.old.items ++ group ∷ []) }
        ensures err { OnErr result (self.new.items ≡ self.old.items) }
    {
        count_to(&mut self.counts, group)?;
        let count = self.counts[group] + 1;
        add_call(&mut self.targets, &mut self.full, group, count)?;
        self.counts[group] = count;
        Ok(())
    }

    /// Closes the innermost open call, if there is one.
    pub fn pop(&mut self)
        ensures { self.new.items ≡ take (length self.old.items - 1) self.old.items }
    {
        let Some(group) = self.targets.pop() else {
            return;
        };
        let count = self.counts[group];
        self.counts[group] = count - 1;
        if count == MAX_OPEN_CALLS_PER_GROUP {
            self.full.pop();
        }
    }
}

/// Makes the counts reach up to this group; each new one is 0.
fn count_to(counts: &mut Vec<usize>, group: usize) -> Result<(), AllocError>
    ensures counts { (targets : List ℕ) → AreCounts counts.old.items targets → AreCounts counts.new.items targets }
    ensures there { OnOk result (group < length counts.new.items) }
{
    'zeros: while counts.len() <= group {
        counts.push(0)?;
    }
    Ok(())
}

/// Adds a call of the group, with which so many of it are open; where these are as many as may be, the group joins the full ones. If
/// memory runs out, nothing changes.
fn add_call(
    targets: &mut Vec<usize>,
    full: &mut Vec<usize>,
    group: usize,
    count: usize,
) -> Result<(), AllocError>
    ensures targets { OnOk result (targets.new.items ≡ targets.old.items ++ group ∷ []) }
    ensures full { OnOk result (full.new.items ≡ full.old.items ++ if_full group count) }
    ensures same_targets { OnErr result (targets.new.items ≡ targets.old.items) }
    ensures same_full { OnErr result (full.new.items ≡ full.old.items) }
{
    if count != MAX_OPEN_CALLS_PER_GROUP {
        targets.push(group)?;
        return Ok(());
    }
    full.push(group)?;
    if let Err(error) = targets.push(group) {
        full.pop();
        return Err(error.into());
    }
    Ok(())
}
