//! Simple case folding, word characters, and literals that ignore case. Nothing here allocates.

ghost use Rattle.std.specs.Prelude.{◌≡◌, ℕ, ◌==◌, codes, false};
ghost use Rattle.fancy_regex_class.specs.Classes.{in_class, folded, folds_ascii};

use ucd_case::simple_fold;
use ucd_perl::is_word_character;

/// The case folding of the character: Unicode's simple folding, or without `unicode` the lower case of ASCII letters. Two
/// characters differ in case only if their foldings are equal.
pub fn fold(c: char, unicode: bool) -> char
    ensures { result ≡ folded unicode c }
{
    if unicode {
        simple_fold(c)
    } else {
        c.to_ascii_lowercase()
    }
}

/// Whether all characters that have this folding are ASCII characters.
pub fn is_ascii_folding(folding: char, unicode: bool) -> bool
    ensures { result ≡ folds_ascii unicode folding }
{
    match folding {
        // The long s and the Kelvin sign fold to these.
        's' | 'k' => !unicode,
        _ => (folding as u32) < 128,
    }
}

/// Whether `\w` matches the character; without `unicode` these are the ASCII letters, digits and `_`.
pub fn is_word(c: char, unicode: bool) -> bool
    ensures { result ≡ in_class unicode (codes "\\w") false c }
{
    if unicode {
        is_word_character(c)
    } else {
        c.is_ascii_alphanumeric() || c == '_'
    }
}

/// A literal character that is matched without regard to case.
#[derive(Clone, Copy, Debug)]
pub struct CaseiLiteral {
    folded: char,
    unicode: bool,
}

impl CaseiLiteral {
    ghost use Rattle.fancy_regex_class.specs.Matchers.{equals_ignoring_case};

    /// Folds the literal once; `unicode` chooses the folding, as for `fold`.
    pub fn new(c: char, unicode: bool) -> CaseiLiteral
        ensures { (d : ℕ) → equals_ignoring_case result d ≡ (folded unicode d == folded unicode c) }
    {
        CaseiLiteral {
            folded: fold(c, unicode),
            unicode,
        }
    }

    /// Whether the character equals the literal up to case.
    pub fn matches(self, c: char) -> bool
        ensures { result ≡ equals_ignoring_case self c }
    {
        fold(c, self.unicode) == self.folded
    }
}
