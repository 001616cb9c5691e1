//! The classes of characters that the states of a pattern do not tell apart.

ghost use Rattle.std.specs.Prelude.{◌≡◌, ◌≤◌, ◌+◌, ℕ, true, Some, IfOk, IfSome, OnOk, length, Contains};
ghost use Rattle.fancy_regex_states.specs.declared.atom.Leaf.{Leaf as LeafValue};
ghost use Rattle.fancy_regex_table.specs.Alphabets.{HasLeaf, HaveLeaves, MatchesAlike, Agree, HasClass, KeepsSamples};

use crate::sort::{Asked, sort_of};
use crate::step::{Reader, matches};
use crate::wide::Wide;
use crate::wide_maker::wide_of;
use fancy_regex_states::{Leaf, State};
use std::alloc::{AllocError, Global};

/// The classes of characters that the states do not tell apart, and the end of the text as a class of its own, the first.
#[derive(Drop)]
pub struct Alphabet {
    /// What the assertions ask about a character.
    pub asked: Asked,
    /// One character of each class; `None` is the end of the text.
    pub samples: Vec<Option<char>>,
    /// The number of each ASCII character's class.
    pub ascii: [u8; 128],
    /// The classes of the other characters.
    pub wide: Wide,
}

/// What tells characters apart.
#[derive(Clone, Copy)]
pub struct CharTests<'t> {
    pub reader: &'t Reader<'t>,
    /// The leaves of the states.
    pub leaves: &'t [Leaf],
    /// What the assertions ask about a character.
    pub asked: Asked,
}

impl Alphabet {
    ghost use Rattle.fancy_regex_table.specs.Alphabets.{IsAlphabetOf};
    ghost use Rattle.fancy_regex_table.specs.Sorts.{AreAsked};

    /// The classes of these states, whose assertions ask this. The error is want of memory.
    pub fn new(alloc: Global, reader: &Reader, asked: Asked) -> Result<Alphabet, AllocError>
        requires { AreAsked asked reader.now.states.now }
        ensures { IfOk result (IsAlphabetOf reader.now.unicode reader.now.matchers.now reader.now.states.now) }
    {
        let leaves = leaves_of(alloc, reader.states)?;
        let tests = CharTests {
            reader,
            leaves: &leaves,
            asked,
        };
        let mut samples = Vec::new(alloc);
        samples.push(None)?;
        let mut hashes = Vec::new(alloc);
        let mut ascii = [0; 128];
        for code in 0..128u8 {
            let c = Some(code as char);
            let class = class_for(&tests, &mut samples, &mut hashes, c)?;
            ascii[code as usize] = class as u8;
        }
        let wide = wide_of(alloc, &tests, &mut samples, &mut hashes)?;
        Ok(Alphabet {
            asked,
            samples,
            ascii,
            wide,
        })
    }
}

/// The leaves of the states, each once. The error is want of memory.
fn leaves_of(alloc: Global, states: &[State]) -> Result<Vec<Leaf>, AllocError>
    ensures { IfOk result (λ leaves. HaveLeaves leaves.items states.now) }
{
    let mut leaves = Vec::new(alloc);
    for i in 0..states.len() {
        add_leaf(&mut leaves, states[i])?;
    }
    Ok(leaves)
}

/// Adds the leaf of a state, if it reads and the leaf is not there. The error is want of memory.
fn add_leaf(leaves: &mut Vec<Leaf>, state: State) -> Result<(), AllocError>
    ensures kept { OnOk result ((leaf : LeafValue) → Contains leaves.old.items leaf → Contains leaves.new.items leaf) }
    ensures leaf { OnOk result (HasLeaf leaves.new.items state) }
{
    match state {
        State::Read { leaf, .. } => {
            if leaves.contains(&leaf) {
                return Ok(());
            }
            leaves.push(leaf)?;
            Ok(())
        }
        _ => Ok(()),
    }
}

/// A number that tells most characters apart that the leaves do.
fn hash_of(reader: &Reader, leaves: &[Leaf], c: Option<char>) -> u64 {
    let mut hash = 1u64;
    for i in 0..leaves.len() {
        let bit = matches(reader, leaves[i], c) as u64;
        hash = hash.wrapping_mul(0x9E37_79B9_7F4A_7C15).wrapping_add(bit);
    }
    hash
}

/// The number of the character's class, which is added if it is new. `hashes` are those of the samples after the first. The error is
/// want of memory.
pub fn class_for(
    tests: &CharTests,
    samples: &mut Vec<Option<char>>,
    hashes: &mut Vec<u64>,
    c: Option<char>,
) -> Result<usize, AllocError>
    ensures kept { KeepsSamples samples.old.items samples.new.items }
    ensures long { length samples.new.items ≤ length samples.old.items + 1 }
    ensures class { IfOk result
        (HasClass tests.now.reader.now.unicode tests.now.reader.now.matchers.now tests.now.leaves.now tests.now.asked samples.new.items c) }
{
    let hash = hash_of(tests.reader, tests.leaves, c);
    if let Some(class) = class_of(tests, samples, hashes, hash, c) {
        return Ok(class);
    }
    let class = samples.len();
    hashes.push(hash)?;
    samples.push(c)?;
    Ok(class)
}

/// The number of a class whose sample has this hash, and is not told apart from the character.
fn class_of(
    tests: &CharTests,
    samples: &[Option<char>],
    hashes: &[u64],
    hash: u64,
    c: Option<char>,
) -> Option<usize>
    ensures { IfSome result (HasClass tests.now.reader.now.unicode tests.now.reader.now.matchers.now tests.now.leaves.now tests.now.asked
        samples.now c) }
{
    for k in 0..hashes.len() {
        if hashes[k] == hash && k + 1 < samples.len() {
            let sample = samples[k + 1];
            if agree(tests, c, sample) {
                return Some(k + 1);
            }
        }
    }
    None
}

/// Whether neither the leaves nor the assertions tell the characters apart.
fn agree(tests: &CharTests, one: Option<char>, other: Option<char>) -> bool
    ensures { result ≡ true
        → Agree tests.now.reader.now.unicode tests.now.reader.now.matchers.now tests.now.leaves.now tests.now.asked one other }
{
    let reader = tests.reader;
    let sort = sort_of(tests.asked, reader, one);
    sort.is_same(&sort_of(tests.asked, reader, other))
        && match_alike(reader, tests.leaves, one, other)
}

/// Whether the leaves do not tell the characters apart.
fn match_alike(reader: &Reader, leaves: &[Leaf], one: Option<char>, other: Option<char>) -> bool
    ensures { result ≡ true → (leaf : LeafValue) → Contains leaves.now leaf
        → MatchesAlike reader.now.unicode reader.now.matchers.now one other leaf }
{
    for i in 0..leaves.len() {
        if !matches_alike(reader, leaves[i], one, other) {
            return false;
        }
    }
    true
}

/// Whether the leaf does not tell the characters apart.
fn matches_alike(reader: &Reader, leaf: Leaf, one: Option<char>, other: Option<char>) -> bool
    ensures { result ≡ true → MatchesAlike reader.now.unicode reader.now.matchers.now one other leaf }
{
    matches(reader, leaf, one) == matches(reader, leaf, other)
}
