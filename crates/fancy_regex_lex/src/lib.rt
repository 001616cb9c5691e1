//! The lexer of patterns: escapes, bracketed classes, flags, quantifiers, and what an open parenthesis starts.
//! Each function takes the rest of the pattern that is still to be read, and returns one token and the rest after it, as
//! the token's definition in `specs` does on the characters of that text; or a parse error with its position. The items of
//! `fancy_regex_text` that a parser needs are exported again.
#![tactic(auto)]

mod classes;
mod escapes;
mod examples;
mod flags;
mod openings;
mod quantifiers;
mod token;

pub use classes::bracketed_class;
pub use escapes::{delimited_reference, escape};
pub use examples::{
    class_examples, escape_examples, flag_examples, opening_examples, quantifier_examples,
};
pub use fancy_regex_text::{
    ParseError, ParseFault, ReadError, Reference, Target, digits, fail_at, fault_at, has_prefix,
    is_empty, is_name, next_token, prefix_before, reference, rest_after_first, signed, skip,
    split_first, split_name, split_once, strip_prefix, whole_number,
};
pub use flags::flag_letters;
pub use openings::opening;
pub use quantifiers::{leading_quantifier, quantifier_suffix};
pub use token::{
    AssertionEscape, Escape, EscapedClass, Flags, Look, Opening, Quantifier, QuantifierSuffix, Verb,
};
