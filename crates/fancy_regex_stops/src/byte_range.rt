//! A range of bytes.

ghost use Rattle.std.specs.Prelude.{◌≡◌};
ghost use Rattle.fancy_regex_stops.specs.Gaps.{gap_of, limit_gap};

/// The bytes from `low` on, up to `low + width`.
#[derive(Clone, Copy, PartialEq, Eq)]
pub struct ByteRange {
    pub low: u8,
    pub width: u8,
}

impl ByteRange {
    /// How far the byte is past the range: 0 for those in it.
    pub fn gap(&self, byte: u8) -> u8
        ensures { result ≡ gap_of self.now byte }
    {
        let past = byte.wrapping_sub(self.low);
        past.wrapping_sub(past.min(self.width))
    }
}

/// How far the byte is below the limit: 0 from there on.
pub fn gap_below(limit: u8, byte: u8) -> u8
    ensures { result ≡ limit_gap limit byte }
{
    limit.wrapping_sub(byte.min(limit))
}
