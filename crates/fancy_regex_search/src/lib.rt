//! `Regex`: a compiled pattern with its searches, its capture groups and the iterations over its matches. Every answer is the
//! match that the definitions of the pattern's meaning give. `fancy_regex` is the public crate over it.
#![tactic(auto)]

mod anchored;
mod capture_matches;
mod captures;
mod expander;
mod gap_iter;
mod group_spans;
mod group_texts;
mod match_iter;
mod matches;
mod names;
mod regex;
mod replace;
mod replacer;
mod search;
mod search_in;
mod split;
mod template_check;
mod template_replacers;

pub use crate::regex::Regex;
pub use anchored::{AnchoredMatch, match_at};
pub use capture_matches::CaptureMatches;
pub use captures::{Captures, SubCaptureMatches};
pub use expander::{Expander, escape};
pub use fancy_regex_meta::{Error, MetaMemory as SearchMemory, RegexOptions, Result, RuntimeError};
pub use matches::Matches;
pub use names::CaptureNames;
pub use replacer::{FnReplacer, NoExpand, Replacer, ReplacerRef};
pub use split::{Split, SplitN};
