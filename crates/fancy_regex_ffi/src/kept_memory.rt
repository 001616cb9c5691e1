//! `KeptMemory`: the memory of searches that a handle keeps. Contracts see nothing of it, since what it holds changes no answer.

use fancy_regex::SearchMemory;
use std::alloc::Global;
use std::marker::Model;

/// The memory of earlier searches, for later ones to use again.
#[derive(Drop)]
pub struct KeptMemory {
    /// The memory itself.
    pub memory: SearchMemory,
}

impl Model for KeptMemory {
    ghost Value = { Unit {0} };

    ghost view = { λ _. tt };
}

impl KeptMemory {
    /// Memory for the first search. It allocates nothing.
    pub fn new(alloc: Global) -> KeptMemory {
        KeptMemory {
            memory: SearchMemory::new(alloc),
        }
    }
}
