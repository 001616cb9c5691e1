//! Small sets of leaves: of those that look-arounds ask about, and of those that match a character.

ghost use Rattle.std.specs.Prelude.{◌≡◌, true, IfSome};
ghost use Rattle.fancy_regex_table.specs.LeafSets.{has_leaf, same_leaf, is_leaf, matching_set, no_leaves, HasLeaf, HasAll, if_matched};

use crate::step::{Reader, matches};
use fancy_regex_states::Leaf;

/// At most four leaves.
#[derive(Clone, Copy)]
pub struct LeafSet {
    pub first: Option<Leaf>,
    pub second: Option<Leaf>,
    pub third: Option<Leaf>,
    pub fourth: Option<Leaf>,
}

impl LeafSet {
    /// The empty set.
    pub fn new() -> LeafSet
        ensures { result ≡ no_leaves }
    {
        LeafSet {
            first: None,
            second: None,
            third: None,
            fourth: None,
        }
    }

    /// Whether the leaf is in the set.
    pub fn has(self, leaf: Leaf) -> bool
        ensures { result ≡ has_leaf self leaf }
    {
        is(self.first, leaf)
            || is(self.second, leaf)
            || is(self.third, leaf)
            || is(self.fourth, leaf)
    }

    /// The set with one more leaf; `None` where it is full.
    pub fn with(self, leaf: Leaf) -> Option<LeafSet>
        ensures kept { IfSome result (HasAll self) }
        ensures leaf { IfSome result (λ more. HasLeaf more leaf) }
    {
        let leaf = Some(leaf);
        if self.first.is_none() || self.first == leaf {
            return Some(LeafSet {
                first: leaf,
                ..self
            });
        }
        if self.second.is_none() || self.second == leaf {
            return Some(LeafSet {
                second: leaf,
                ..self
            });
        }
        if self.third.is_none() || self.third == leaf {
            return Some(LeafSet {
                third: leaf,
                ..self
            });
        }
        if self.fourth.is_none() || self.fourth == leaf {
            return Some(LeafSet {
                fourth: leaf,
                ..self
            });
        }
        None
    }

    /// Whether the set has no leaves.
    #[inline(always)]
    fn is_empty(&self) -> bool
        ensures { result ≡ true → self.now ≡ no_leaves }
    {
        self.first.is_none()
            && self.second.is_none()
            && self.third.is_none()
            && self.fourth.is_none()
    }

    /// Whether the sets have the same leaves, in the same places.
    #[inline(always)]
    pub fn is_same(&self, other: &LeafSet) -> bool
        ensures { result ≡ true → self.now ≡ other.now }
    {
        // Most sets are empty.
        if self.is_empty() && other.is_empty() {
            return true;
        }
        self.has_same(other)
    }

    /// Whether the sets have the same leaves, in the same places, leaf by leaf.
    // Not inlined: few sets have leaves.
    #[inline(never)]
    fn has_same(&self, other: &LeafSet) -> bool
        ensures { result ≡ true → self.now ≡ other.now }
    {
        are_same(&self.first, &other.first)
            && are_same(&self.second, &other.second)
            && are_same(&self.third, &other.third)
            && are_same(&self.fourth, &other.fourth)
    }

    /// Those that match the character; `None` is an end of the text.
    #[inline(always)]
    pub fn matching(self, reader: &Reader, c: Option<char>) -> LeafSet
        ensures { result ≡ matching_set reader.now.unicode reader.now.matchers.now self c }
    {
        LeafSet {
            first: if_matches(reader, self.first, c),
            second: if_matches(reader, self.second, c),
            third: if_matches(reader, self.third, c),
            fourth: if_matches(reader, self.fourth, c),
        }
    }
}

/// Whether both are the same leaf, or none.
#[tactic(auto, using(crate::proofs::LeafSetLemmas::leaves_are))]
#[inline(always)]
fn are_same(one: &Option<Leaf>, other: &Option<Leaf>) -> bool
    ensures { result ≡ true → one.now ≡ other.now }
{
    match (one, other) {
        (None, None) => true,
        (Some(one), Some(other)) => is_same(*one, *other),
        _ => false,
    }
}

/// Whether this is the leaf.
fn is(found: Option<Leaf>, leaf: Leaf) -> bool
    ensures { result ≡ is_leaf found leaf }
{
    match found {
        Some(found) => is_same(found, leaf),
        None => false,
    }
}

/// Whether the leaves are the same.
#[inline(always)]
fn is_same(one: Leaf, other: Leaf) -> bool
    ensures { result ≡ same_leaf one other }
{
    match (one, other) {
        (
            Leaf::Any { newline, crlf },
            Leaf::Any {
                newline: other_newline,
                crlf: other_crlf,
            },
        ) => newline == other_newline && crlf == other_crlf,
        (Leaf::Char(one), Leaf::Char(other)) => one == other,
        (Leaf::Folded(one), Leaf::Folded(other)) => one == other,
        (Leaf::Class(one), Leaf::Class(other)) => one == other,
        _ => false,
    }
}

/// The leaf, if it matches the character.
#[inline(always)]
fn if_matches(reader: &Reader, leaf: Option<Leaf>, c: Option<char>) -> Option<Leaf>
    ensures { result ≡ if_matched reader.now.unicode reader.now.matchers.now leaf c }
{
    match leaf {
        Some(found) if matches(reader, found, c) => leaf,
        _ => None,
    }
}
