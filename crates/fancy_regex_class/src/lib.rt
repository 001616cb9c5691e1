//! What both engines share: members of character classes, case folding, word characters, a haystack whose looks are
//! counted, and the input of a search. The meaning of a class text is that of the crate `regex`. Of these functions only
//! `CharClassMatcher::new` and those that make words of bits allocate, so only they can run out of memory.
#![tactic(auto)]

ghost use Rattle.fancy_regex_class.specs.Classes.{RegexMatchesMembers};

mod bitmap;
mod class;
mod counted;
mod folding;
mod input;
mod matcher;
mod places;
mod range_bits;
mod skip;
mod wide_bits;

pub use class::{CharClassMatcher, ClassError};
pub use counted::{Counted, Steps};
pub use folding::{CaseiLiteral, fold, is_ascii_folding, is_word};
pub use input::{RunInput, Span};
pub use places::count_places;
pub use skip::skip_ascii;
pub use wide_bits::{char_bits, constant_bits, folding_bits, word_bits};

/// Law: a `regex::Regex` that is parsed from a class's text matches the text of a single character exactly if the class
/// contains that character.
pub fn law_of_membership()
    ensures { RegexMatchesMembers }
{}
