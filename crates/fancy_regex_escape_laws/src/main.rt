//! Laws of `escape_pattern`: how an escaped text is read, what it matches, and what replacing its matches is. The code is one
//! function over public calls, `replace_plainly`.
#![tactic(auto)]

ghost use Rattle.fancy_regex_escape_laws.specs.EscapeLaws.{EscapedTextsAreRead, EscapedTextsMatchThemselves};
ghost use Rattle.fancy_regex_escape_laws.specs.Occurrences.{PlainReplacementIsByCases};
ghost use Rattle.fancy_regex_escape_laws.specs.PlainReplacement.{MatchesAreReplacedPlainly};

mod replacement;

pub use replacement::replace_plainly;

/// Outside Oniguruma mode, with no flag but `i` set, an escaped text is read as the sequence of its characters, each a literal.
pub fn escaped_texts_are_read()
    ensures { EscapedTextsAreRead }
{}

/// Outside Oniguruma mode, with no flag set, the pattern of an escaped text that is not empty matches exactly the text: an
/// attempt at a byte offset matches, from there to the end of the text, where the haystack goes on with the text's bytes, and
/// nowhere else; a search finds the first such offset in its range, and an anchored one the first offset of the range or
/// nothing. The empty text is left out: its pattern matches between any two characters.
pub fn escaped_texts_match_themselves()
    ensures { EscapedTextsMatchThemselves }
{}

/// Where a pattern matches exactly a text that is not empty, and each match of an iteration over a haystack is replaced by the
/// same bytes, the replaced text is the plain replacement: each occurrence is replaced, from the left and without overlap.
pub fn matches_are_replaced_plainly()
    ensures { MatchesAreReplacedPlainly }
{}

/// Plain replacement of a needle that is not empty, case by case: the empty text stays, the needle at the front is replaced and
/// the rest goes on after it, and any other first byte stays.
pub fn plain_replacement_is_by_cases()
    ensures { PlainReplacementIsByCases }
{}

/// The laws are theorems, and `replace_plainly` is proved: there is nothing to run.
fn main() {}
