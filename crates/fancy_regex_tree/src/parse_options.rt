//! The options that a pattern is parsed with.

ghost use Rattle.std.specs.Prelude.{◌≡◌};
ghost use Rattle.fancy_regex_tree.specs.Parse.{options_of};

use crate::flag_bits::{
    FLAG_CASEI, FLAG_CRLF, FLAG_DOTNL, FLAG_IGNORE_NUMBERED_GROUPS_WHEN_NAMED_GROUPS_EXIST,
    FLAG_IGNORE_SPACE, FLAG_MULTI, FLAG_ONIGURUMA_MODE, FLAG_SWAP_GREED, FLAG_UNICODE,
};
use fancy_regex_lex::Flags;

/// The options of `Expr::parse_tree_with_options`.
///
/// ```
/// let options = ParseOptions::from_flags(FLAG_UNICODE | FLAG_ONIGURUMA_MODE);
/// assert!(rt; options.unicode && options.oniguruma && !options.ignore_numbered);
/// ```
#[derive(Clone, Copy, Debug, PartialEq, Eq)]
pub struct ParseOptions {
    /// The flags in force where the pattern begins; the pattern can change them.
    pub flags: Flags,
    /// Whether character classes are those of Unicode, as with the flag `u`; the pattern cannot change it.
    pub unicode: bool,
    /// Whether the pattern is parsed in Oniguruma mode, a dialect that is close to Oniguruma's.
    pub oniguruma: bool,
    /// Whether unnamed groups do not capture if the pattern has a named group.
    pub ignore_numbered: bool,
}

/// The flags in force where a pattern begins, from a union of the constants `FLAG_...`.
fn flags_at_start(flags: u32) -> Flags
    ensures { result ≡ (options_of flags).flags }
{
    Flags {
        casei: flags & FLAG_CASEI != 0,
        multi: flags & FLAG_MULTI != 0,
        dot_newline: flags & FLAG_DOTNL != 0,
        verbose: flags & FLAG_IGNORE_SPACE != 0,
        swap_greed: flags & FLAG_SWAP_GREED != 0,
        crlf: flags & FLAG_CRLF != 0,
    }
}

impl ParseOptions {
    /// The options that a union of the constants `FLAG_...` stands for; other bits are ignored.
    pub fn from_flags(flags: u32) -> ParseOptions
        ensures { result ≡ options_of flags }
    {
        ParseOptions {
            flags: flags_at_start(flags),
            unicode: flags & FLAG_UNICODE != 0,
            oniguruma: flags & FLAG_ONIGURUMA_MODE != 0,
            ignore_numbered: flags & FLAG_IGNORE_NUMBERED_GROUPS_WHEN_NAMED_GROUPS_EXIST != 0,
        }
    }
}
