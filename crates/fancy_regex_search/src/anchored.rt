//! The match of a regex that starts at one byte offset, as the search of a pattern set asks its members for it.

ghost use Rattle.std.specs.Prelude.{◌≡◌, ◌≤◌, IfOk, IfErr, IfSome, slice_index, IsCharBoundary};
ghost use Rattle.fancy_regex_input.specs.SearchInputs.{FitsText};
ghost use Rattle.fancy_regex_meta.specs.MetaMatches.{meta_pattern};
ghost use Rattle.fancy_regex_meta.specs.MemberSearches.{meta_match_at, IsMemberError, MemberStaysInLimits};
ghost use Rattle.fancy_regex_meta.specs.MatchOffsets.{AreBoundaries};
ghost use Rattle.fancy_regex_search.specs.AnchoredSearches.{continues_at};
ghost use Rattle.fancy_regex_search.specs.CaptureSpans.{AreGroupsOf, IsResultFor, span_in};

use crate::captures::Captures;
use crate::regex::Regex;
use fancy_regex_class::{RunInput, Steps};
use fancy_regex_input::{Input, SearchConfig};
use fancy_regex_meta::{MatchDetail, MetaMemory, Result};
use std::alloc::Global;

/// A match that was asked for at one offset.
#[derive(Drop)]
pub struct AnchoredMatch<'r, S: Input> {
    /// The byte offset at which the match starts.
    pub start: usize,
    /// The byte offset at which it ends.
    pub end: usize,
    /// Its capture groups.
    pub captures: Captures<'r, S>,
}

/// The match that starts at `position`, a byte offset; `None` if no match starts there. `\G` matches at the effective start of the
/// configured search alone, and nowhere if it is disabled there. The memory is that of earlier searches, and changes no answer.
///
/// # Errors
///
/// `RuntimeError` if the search exceeds a limit, which only a search that runs a program does; `Memory` if memory runs out.
pub fn match_at<'r, S: Input>(
    alloc: Global,
    regex: &'r Regex,
    haystack: S,
    config: &SearchConfig,
    position: usize,
    memory: &mut MetaMemory,
) -> Result<Option<AnchoredMatch<'r, S>>>
    requires fits { FitsText (S.text haystack) config.now }
    requires boundary { IsCharBoundary (S.text haystack) position }
    requires inside { position ≤ config.now.range_end }
    ensures answer { IfOk result (λ found. IsResultFor (λ x m.
        (AreGroupsOf (meta_pattern regex.entry.now.meta) x.captures.slots.items m) × ((x.start, x.end) ≡ span_in m))
        found (meta_match_at regex.entry.now.meta (S.text haystack) config.now (continues_at config.now) position)) }
    ensures cuts { IfOk result (λ found. IfSome found (λ x. AreBoundaries (S.text haystack) x.start x.end)) }
    ensures of { IfOk result (λ found. IfSome found (λ x. (x.captures.haystack ≡ haystack) × (x.captures.regex.now ≡ regex.entry.now))) }
    ensures limits { IfErr result (λ e. IsMemberError regex.entry.now.meta (S.text haystack) config.now
        (continues_at config.now) position e) }
    ensures stays { IfOk result (λ _. MemberStaysInLimits regex.entry.now.meta (S.text haystack) config.now
        (continues_at config.now) position) }
{
    let input = RunInput {
        first: position,
        anchored: true,
        ..*config.run_input()
    };
    let found = regex.meta.search(
        alloc,
        haystack.as_str(),
        &input,
        MatchDetail::Groups,
        &mut Steps::new(),
        memory,
    )?;
    match found {
        Some(matched) => Ok(Some(AnchoredMatch {
            start: matched.start,
            end: matched.end,
            captures: Captures::new(regex, haystack, matched.groups),
        })),
        None => Ok(None),
    }
}
