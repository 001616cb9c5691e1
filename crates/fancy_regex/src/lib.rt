//! Regular expressions with look-around, backreferences and more: `Regex` compiles a pattern, searches a haystack, returns
//! its capture groups and iterates over all matches. Every answer is the match that the definitions of the pattern's meaning
//! give. A call whose requirements hold never panics; one that fails returns an `Error`, and the regex can be used again.
//!
//! In the examples `alloc` is the allocator, `rt.alloc()`, and `rt` the runtime that `main` is given. docs/GUIDE.md has whole programs.
#![tactic(auto)]

mod builder;
mod byte_sets;
mod options_builder;
mod reprint;
mod set;
mod set_matches;
mod set_search;
mod set_starts;
mod start_table;

pub use builder::RegexBuilder;
pub use fancy_regex_bytes::{ByteSet, ByteSetIter};
pub use fancy_regex_class::Steps;
pub use fancy_regex_info::{BytesMode, CompileError};
pub use fancy_regex_input::{Input, Match, RegexInput, SearchConfig};
pub use fancy_regex_meaning::laws_of_items;
pub use fancy_regex_search::{
    CaptureMatches, CaptureNames, Captures, Error, Expander, FnReplacer, Matches, NoExpand, Regex,
    Replacer, ReplacerRef, Result, RuntimeError, SearchMemory, Split, SplitN, SubCaptureMatches,
    escape,
};
pub use fancy_regex_tree::{
    Absent, Assertion, AstNode, BacktrackingControlVerb, CaptureGroupTarget, Error as ExprError,
    Expr, ExprChildrenIter, ExprTree, FLAG_CASEI, FLAG_CRLF, FLAG_DOTNL,
    FLAG_IGNORE_NUMBERED_GROUPS_WHEN_NAMED_GROUPS_EXIST, FLAG_IGNORE_SPACE, FLAG_MULTI,
    FLAG_ONIGURUMA_MODE, FLAG_SWAP_GREED, FLAG_UNICODE, LookAround, NamedGroups, ParseError,
    ParseErrorPosition,
};
pub use options_builder::RegexOptionsBuilder;
pub use set::RegexSet;
pub use set_matches::{RegexSetMatch, RegexSetMatchesAt};
