//! Searches a haystack with a regex, and turns the start and end offsets of groups into matches of the haystack.

ghost use Rattle.std.specs.Prelude.{◌≡◌, ◌≤◌, ◌+◌, ◌-◌, ◌^◌, true, false, IfOk, IfErr, IfSome, is_some, option_map, min};
ghost use Rattle.fancy_regex_input.specs.SearchInputs.{effective_start, run_input_of};
ghost use Rattle.fancy_regex_meta.specs.SearchLimits.{IsMetaSearchError, MetaStaysInLimits, meta_uses_easy, meta_starts_tried, max_looks};
ghost use Rattle.fancy_regex_meta.specs.MetaMatches.{meta_pattern, meta_match, meta_match_from};
ghost use Rattle.fancy_regex_meta.specs.MatchOffsets.{AreBoundaries, IsMatchWithin};
ghost use Rattle.fancy_regex_meta.specs.FoundParts.{found_parts, wanted_parts};
ghost use Rattle.fancy_regex_meta.specs.Kept.{MetaKeeps};
ghost use Rattle.fancy_regex_search.specs.CaptureSpans.{IsSpanAt};

use crate::regex::Regex;
use fancy_regex_class::{RunInput, Steps};
use fancy_regex_input::{Input, RegexInput};
use fancy_regex_meta::{FoundMatch, MatchDetail, MetaMemory, Result};
use std::alloc::Global;

/// What a search is asked for.
#[derive(Drop)]
pub struct SearchRequest<'s, S: Input> {
    /// The regex that searches.
    pub regex: &'s Regex,
    /// The haystack, and the configuration of the search.
    pub input: &'s RegexInput<S>,
    /// `\G` never matches in this search.
    pub continue_disabled: bool,
    /// Which byte offsets the match is to have.
    pub wanted: MatchDetail,
}

/// The input that goes to the engine for a search. If the flag is set, `\G` never matches in it.
fn run_input_for<S: Input>(input: &RegexInput<S>, continue_disabled: bool) -> RunInput
    ensures { result ≡ run_input_of input.now.config (effective_start input.now.config) continue_disabled }
{
    if continue_disabled {
        return RunInput {
            continue_at: None,
            ..*input.run_input()
        };
    }
    *input.run_input()
}

/// The first match of the search, with the byte offsets that are wanted, or `None` if there is no match. The counter is raised as
/// `find_input_counted` says; what earlier searches left in the memory changes no answer. Errors: `RuntimeError` at a limit, or
/// `Memory`.
// Inlined where it is called: what is wanted is known there, and the records of the search and of the match are never made.
#[inline(always)]
pub fn find_match<S: Input>(
    alloc: Global,
    request: &SearchRequest<'_, S>,
    steps: &mut Steps,
    memory: &mut MetaMemory,
) -> Result<Option<FoundMatch>>
    ensures answer { IfOk result (λ found. option_map found_parts found
        ≡ option_map (wanted_parts request.now.wanted (meta_pattern request.now.regex.now.meta))
        (meta_match_from request.now.regex.now.meta (S.text request.now.input.now.haystack) request.now.input.now.config
        (effective_start request.now.input.now.config) request.now.continue_disabled)) }
    ensures within { IfOk result (λ found. IfSome found
        (IsMatchWithin request.now.wanted (S.text request.now.input.now.haystack)
        (effective_start request.now.input.now.config) request.now.input.now.config.range_end)) }
    ensures limits { IfErr result (λ e. IsMetaSearchError request.now.regex.now.meta
        (S.text request.now.input.now.haystack) request.now.input.now.config request.now.continue_disabled e) }
    ensures stays { IfOk result (λ _. MetaStaysInLimits request.now.regex.now.meta
        (S.text request.now.input.now.haystack) request.now.input.now.config request.now.continue_disabled) }
    ensures looks_most { meta_uses_easy request.now.regex.now.meta ≡ true
        → steps.new ≤ steps.old + max_looks request.now.regex.now.meta request.now.input.now.config }
    ensures looks_least { IfOk result (λ _. meta_uses_easy request.now.regex.now.meta ≡ true
        → min (steps.old + meta_starts_tried request.now.regex.now.meta (S.text request.now.input.now.haystack)
        request.now.input.now.config request.now.continue_disabled) (2 ^ 64 - 1) ≤ steps.new) }
    ensures looks_none { meta_uses_easy request.now.regex.now.meta ≡ false → steps.new ≡ steps.old }
    ensures counts { steps.old ≤ steps.new }
{
    let haystack = request.input.haystack();
    let run_input = run_input_for(request.input, request.continue_disabled);
    let wanted = request.wanted;
    request.regex.meta.search(alloc, haystack.as_str(), &run_input, wanted, steps, memory)
}

/// The first match, as `find_match`, where the memory keeps, if it keeps anything, what searches of this regex in this haystack have found
/// out: that is not looked for again, and what this search finds out is kept too.
#[inline(always)]
pub fn find_next<S: Input>(
    alloc: Global,
    request: &SearchRequest<'_, S>,
    memory: &mut MetaMemory,
) -> Result<Option<FoundMatch>>
    requires { MetaKeeps request.now.regex.now.meta (S.text request.now.input.now.haystack) memory.old }
    ensures answer { IfOk result (λ found. option_map found_parts found
        ≡ option_map (wanted_parts request.now.wanted (meta_pattern request.now.regex.now.meta))
        (meta_match_from request.now.regex.now.meta (S.text request.now.input.now.haystack) request.now.input.now.config
        (effective_start request.now.input.now.config) request.now.continue_disabled)) }
    ensures within { IfOk result (λ found. IfSome found
        (IsMatchWithin request.now.wanted (S.text request.now.input.now.haystack)
        (effective_start request.now.input.now.config) request.now.input.now.config.range_end)) }
    ensures limits { IfErr result (λ e. IsMetaSearchError request.now.regex.now.meta
        (S.text request.now.input.now.haystack) request.now.input.now.config request.now.continue_disabled e) }
    ensures stays { IfOk result (λ _. MetaStaysInLimits request.now.regex.now.meta
        (S.text request.now.input.now.haystack) request.now.input.now.config request.now.continue_disabled) }
    ensures kept { MetaKeeps request.now.regex.now.meta (S.text request.now.input.now.haystack) memory.new }
{
    let haystack = request.input.haystack();
    let run_input = run_input_for(request.input, request.continue_disabled);
    let wanted = request.wanted;
    let steps = &mut Steps::new();
    request.regex.meta.search_again(alloc, haystack.as_str(), &run_input, wanted, steps, memory)
}

/// Whether an input has a match. What earlier searches left in the memory changes no answer. Errors: `RuntimeError` at a limit, or
/// `Memory`.
#[inline(always)]
pub fn has_match<S: Input>(
    alloc: Global,
    regex: &Regex,
    input: &RegexInput<S>,
    memory: &mut MetaMemory,
) -> Result<bool>
    ensures answer { IfOk result (λ yes. yes ≡ is_some (meta_match regex.now.meta (S.text input.now.haystack) input.now.config)) }
    ensures limits { IfErr result (λ e.
        IsMetaSearchError regex.now.meta (S.text input.now.haystack) input.now.config false e) }
    ensures stays { IfOk result (λ _. MetaStaysInLimits regex.now.meta (S.text input.now.haystack) input.now.config false) }
{
    let haystack = input.haystack();
    let run_input = run_input_for(input, false);
    regex
        .meta
        .has_match(alloc, haystack.as_str(), &run_input, memory)
}

/// The start and end byte offsets of a group; `None` if it did not participate or there is no such group.
pub fn group_span<S: Input>(haystack: S, slots: &[usize], group: usize) -> Option<(usize, usize)>
    ensures { IsSpanAt (S.text haystack) slots.now group result }
{
    let slot = group.checked_mul(2)?;
    let start = *slots.get(slot)?;
    let end = *slots.get(slot + 1)?;
    if start <= end && haystack.is_char_boundary(start) && haystack.is_char_boundary(end) {
        Some((start, end))
    } else {
        None
    }
}

/// The match of a group; `None` if it did not participate or there is no such group.
pub fn group_match<S: Input>(haystack: S, slots: &[usize], group: usize) -> Option<S::Match>
    ensures span { IsSpanAt (S.text haystack) slots.now group (option_map S.span result) }
    ensures text { IfSome result (λ m. S.match_text m ≡ S.text haystack) }
{
    let (start, end) = group_span(haystack, slots, group)?;
    Some(haystack.make_match(start, end))
}

/// The match of the haystack with the span of a match that was found in it.
pub fn whole_match<S: Input>(haystack: S, found: &FoundMatch) -> S::Match
    requires { AreBoundaries (S.text haystack) found.now.start found.now.end }
    ensures span { S.span result ≡ (found.now.start, found.now.end) }
    ensures text { S.match_text result ≡ S.text haystack }
{
    haystack.make_match(found.start, found.end)
}
