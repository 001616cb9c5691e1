//! Sets of bytes as values.

ghost use Rattle.std.specs.Prelude.{◌≡◌, ◌||◌, ◌==◌, ℕ, false, slice_index_or};
ghost use Rattle.std.specs.Iterator.{YieldsFirst, item_count};
ghost use Rattle.fancy_regex_bytes.specs.ByteSets.{has, members, rest, no_bytes, either_bytes, both_bytes, bytes_in};
ghost use Rattle.fancy_regex_bytes.specs.StartBytes.{class_starts};

/// A set of bytes.
///
/// ```
/// let found = RegexOptionsBuilder::new().start_bytes(alloc, "bx|a")?;
/// if let Some(bytes) = found {
///     assert!(rt; bytes.contains(98) && !bytes.contains(120) && bytes.table()[97]);
///     assert!(rt; bytes.iter().next() == Some(97));
/// }
/// ```
#[derive(Clone, Copy, Debug, PartialEq, Eq)]
pub struct ByteSet {
    /// For each byte, whether it is in the set.
    table: [bool; 256],
}

impl ByteSet {
    /// Whether the byte is in the set.
    pub fn contains(&self, byte: u8) -> bool
        ensures { result ≡ has self.now byte }
    {
        self.table[byte as usize]
    }

    /// The bytes of the set, in ascending order.
    pub fn iter(&self) -> ByteSetIter<'_>
        ensures { rest result ≡ members self.now }
    {
        ByteSetIter { set: self, next: 0 }
    }

    /// For each byte, whether it is in the set.
    pub fn table(&self) -> &[bool; 256]
        ensures { (b : ℕ) → slice_index_or result.now b false ≡ has self.now b }
    {
        &self.table
    }

    /// The empty set.
    pub(crate) fn empty() -> ByteSet
        ensures { has result ≡ no_bytes }
    {
        ByteSet {
            table: [false; 256],
        }
    }

    /// Adds a byte.
    pub(crate) fn insert(&mut self, byte: u8)
        ensures { has self.new ≡ either_bytes (λ b. byte == b) (has self.old) }
    {
        let index = byte as usize;
        self.table[index] = true;
    }

    /// Adds the bytes of a slice.
    pub(crate) fn add(&mut self, bytes: &[u8])
        ensures { has self.new ≡ either_bytes (bytes_in bytes.now) (has self.old) }
    {
        for byte in bytes {
            self.insert(*byte);
        }
    }

    /// Adds the ASCII bytes that the table marks, and all bytes from 80 on.
    pub(crate) fn add_ascii(&mut self, ascii: &[bool; 128])
        ensures { has self.new ≡ either_bytes (class_starts (λ b. slice_index_or ascii.now b false)) (has self.old) }
    {
        for byte in 0..256 {
            let is_added = byte >= 128 || ascii[byte];
            self.table[byte] = is_added || self.table[byte];
        }
    }

    /// Adds the bytes of the other set.
    pub(crate) fn add_all(&mut self, other: &ByteSet)
        ensures { (b : ℕ) → has self.new b ≡ (has other.now b || has self.old b) }
    {
        for byte in 0..256 {
            self.table[byte] = other.table[byte] || self.table[byte];
        }
    }

    /// The bytes that are in both sets.
    pub(crate) fn intersection(&self, other: &ByteSet) -> ByteSet
        ensures { has result ≡ both_bytes (has self.now) (has other.now) }
    {
        let mut table = self.table;
        for byte in 0..256 {
            table[byte] = self.table[byte] && other.table[byte];
        }
        ByteSet { table }
    }
}

/// An iterator over the bytes of a set, in ascending order.
///
/// ```
/// let bytes = RegexOptionsBuilder::new().required_bytes(alloc, "b?a")?;
/// let mut each = bytes.iter();
/// assert!(rt; each.next() == Some(97));
/// assert!(rt; each.next().is_none());
/// ```
#[derive(Clone, Copy, Debug)]
pub struct ByteSetIter<'s> {
    /// The set.
    set: &'s ByteSet,
    /// The least byte that is still to be tested; 256 at the end.
    next: usize,
}

impl Iterator for ByteSetIter<'_> {
    type Item = u8;

    ghost next_gives = { YieldsFirst rest };

    ghost remaining = { item_count rest };

    /// The next byte of the set; `None` if there is none.
    fn next(&mut self) -> Option<u8> {
        while self.next < 256 {
            let byte = self.next as u8;
            self.next += 1;
            if self.set.contains(byte) {
                return Some(byte);
            }
        }
        None
    }
}
