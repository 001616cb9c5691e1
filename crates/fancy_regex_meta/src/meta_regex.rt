//! A compiled pattern: its text, its options, the names and the number of its groups, and what executes it.

ghost use Rattle.std.specs.Prelude.{◌≡◌, ◌≤◌, ◌+◌, ◌-◌, ◌^◌, ◌↔◌, true, false, min, is_some, length, IfOk, IfErr, IfSome, option_map, string_bytes, IsCharBoundary};
ghost use Rattle.fancy_regex_tree.specs.Tree.{tree_of};
ghost use Rattle.fancy_regex_meaning.specs.Groups.{pattern_of};
ghost use Rattle.fancy_regex_meta.specs.Strategies.{Executes, StrategyKeepsCap};
ghost use Rattle.fancy_regex_meta.specs.GroupNames.{AreGroupNumbersOf};
ghost use Rattle.fancy_regex_meta.specs.Refusals.{IsAccepted, RefusesTree, Refuses, Accepts};
ghost use Rattle.fancy_regex_meta.specs.PatternMatches.{IsCompiledFrom, names_in};
ghost use Rattle.fancy_regex_meta.specs.EasyPatterns.{uses_easy, pattern_uses_easy, is_easy_strategy};
ghost use Rattle.fancy_regex_meta.specs.LinearPatterns.{IsLinear, PatternIsLinear, is_linear_strategy};

use crate::error::Result;
use crate::found::{FoundMatch, MatchDetail};
use crate::memory::MetaMemory;
use crate::options::RegexOptions;
use crate::strategy::Strategy;
use fancy_regex_analysis::analyze;
use fancy_regex_class::{RunInput, Steps};
use fancy_regex_info::AnalyzeContext;
use fancy_regex_meaning::laws_of_groups;
use fancy_regex_tree::{ExprTree, NamedGroups};
use std::alloc::Global;

/// A compiled pattern. No search changes it.
pub struct MetaRegex {
    /// The text of the pattern.
    pattern: String,
    /// The options that it was compiled with.
    options: RegexOptions,
    /// The group numbers of each name.
    named_groups: NamedGroups,
    /// The number of groups, group 0 included.
    groups: usize,
    /// What executes it.
    strategy: Strategy,
    pub ghost made: { ∥ IsCompiledFrom (string_bytes pattern) options groups strategy ∥₁ },
    pub ghost served: { is_easy_strategy strategy ≡ pattern_uses_easy options (string_bytes pattern) },
    pub ghost linear: { is_linear_strategy strategy ≡ true ↔ ∥ PatternIsLinear options (string_bytes pattern) ∥₁ },
    pub ghost named: { AreGroupNumbersOf named_groups (names_in options (string_bytes pattern)) },
}

// Written, not derived: so a crate in which such a value may be dropped uses this proof, and has none to make of each type inside.
impl Drop for MetaRegex {
    fn drop(self) {
        let MetaRegex {
            pattern: _pattern,
            options: _options,
            named_groups: _named_groups,
            groups: _groups,
            strategy: _strategy,
        } = self;
    }
}

/// The number of groups of a tree, group 0 included, and what executes it. Errors: `CompileError` if the tree is refused, or
/// `Memory`.
fn choose_strategy(
    alloc: Global,
    tree: &ExprTree,
    options: &RegexOptions,
) -> Result<(usize, Strategy)>
    ensures groups { IfOk result (λ r. r.0 ≡ length (pattern_of (tree_of tree.now.expr)).groups) }
    ensures runs { IfOk result (λ r. Executes r.1 options.now (tree_of tree.now.expr)) }
    ensures served { IfOk result (λ r. is_easy_strategy r.1 ≡ uses_easy options.now (tree_of tree.now.expr)) }
    ensures linear { IfOk result (λ r. is_linear_strategy r.1 ≡ true ↔ IsLinear options.now (tree_of tree.now.expr)) }
    ensures cap { IfOk result (λ r. StrategyKeepsCap options.now.max_prog_size r.1) }
    ensures accepted { IfOk result (λ _. IsAccepted options.now tree.now.named_backref_only tree.now.contains_subroutines
        (tree_of tree.now.expr)) }
    ensures refused { IfErr result (λ e. RefusesTree options.now tree.now.named_backref_only tree.now.contains_subroutines
        (tree_of tree.now.expr) e) }
{
    laws_of_groups();
    let context = AnalyzeContext {
        explicit_capture_group_0: false,
        find_not_empty: options.find_not_empty,
    };
    let info = analyze(alloc, tree, context)?;
    let strategy = Strategy::new(alloc, &info, options, tree.contains_subroutines)?;
    Ok((info.end_group(), strategy))
}

impl MetaRegex {
    ghost use Rattle.fancy_regex_meta.specs.MatchOffsets.{IsMatchWithin};
    ghost use Rattle.fancy_regex_meta.specs.FoundParts.{found_parts, wanted_parts};
    ghost use Rattle.fancy_regex_meta.specs.SearchLimits.{IsRunError, RunStaysInLimits, MetaIsLinear, MeetsNoLimit, meta_tree, meta_uses_easy, run_tried, run_looks};
    ghost use Rattle.fancy_regex_meta.specs.MetaMatches.{meta_pattern, meta_match_for};
    ghost use Rattle.fancy_regex_meta.specs.Caps.{MetaKeepsCap};
    ghost use Rattle.fancy_regex_meta.specs.Kept.{MetaKeeps};

    /// Parses and compiles a pattern. If it needs a program, that has at most `max_prog_size` instructions. `ParseError` if the
    /// text is no pattern, with the first error and its byte offset; `CompileError` if the pattern is refused, with one of the
    /// reasons that hold, `RepeatBoundsReversed` before all others; `Memory` if memory runs out.
    pub fn new(alloc: Global, pattern: String, options: &RegexOptions) -> Result<MetaRegex>
        ensures pattern { IfOk result (λ s. s.pattern ≡ pattern) }
        ensures options { IfOk result (λ s. s.options ≡ options.now) }
        ensures cap { IfOk result MetaKeepsCap }
        ensures accepted { IfOk result (λ _. Accepts options.now (string_bytes pattern)) }
        ensures refused { IfErr result (λ e. Refuses options.now (string_bytes pattern) e) }
    {
        let tree = options.parse(alloc, pattern.as_str())?;
        let (groups, strategy) = choose_strategy(alloc, &tree, options)?;
        Ok(MetaRegex {
            pattern,
            options: *options,
            named_groups: tree.named_groups,
            groups,
            strategy,
        })
    }

    /// The text of the pattern.
    pub fn pattern(&self) -> &str
        ensures { result.now ≡ string_bytes self.now.pattern }
    {
        self.pattern.as_str()
    }

    /// The options that the pattern was compiled with.
    pub fn options(&self) -> RegexOptions
        ensures { result ≡ self.now.options }
    {
        self.options
    }

    /// The numbers of the groups of each name, in ascending order.
    pub fn named_groups(&self) -> &NamedGroups
        ensures { result.now ≡ self.now.named_groups }
    {
        &self.named_groups
    }

    /// The number of groups, group 0 (the whole match) included.
    pub fn groups(&self) -> usize
        ensures value { result ≡ self.now.groups }
        ensures groups { result ≡ length (meta_pattern self.now).groups }
    {
        self.groups
    }

    /// Whether no search meets a limit, so that want of memory is the only error. It is so of exactly these patterns, where empty matches
    /// are allowed: easy ones, and those that states with parts search for.
    pub fn is_linear(&self) -> bool
        ensures exact { result ≡ true ↔ MetaIsLinear self.now }
        ensures unlimited { result ≡ true → MeetsNoLimit self.now }
    {
        self.strategy.is_linear()
    }

    /// The first match of a search with this input, with the byte offsets that are wanted; `None` if there is no match. The counter
    /// is raised by one for each look of the linear-time matcher at the haystack, also if memory runs out. What is allocated for
    /// the search, but for its answer, stays in `memory`; what earlier searches left there changes no answer. Errors:
    /// `RuntimeError` if a program exceeds a limit, or `Memory`.
    #[inline(always)]
    pub fn search(
        &self,
        alloc: Global,
        text: &str,
        input: &RunInput,
        wanted: MatchDetail,
        steps: &mut Steps,
        memory: &mut MetaMemory,
    ) -> Result<Option<FoundMatch>>
        requires first { input.now.first ≤ input.now.range.end → IsCharBoundary text.now input.now.first }
        requires range { input.now.range.end ≤ length text.now }
        ensures answer { IfOk result (λ found. option_map found_parts found
            ≡ option_map (wanted_parts wanted (meta_pattern self.now)) (meta_match_for self.now text.now input.now)) }
        ensures within { IfOk result (λ found. IfSome found
            (IsMatchWithin wanted text.now input.now.first input.now.range.end)) }
        ensures limits { IfErr result (λ e. IsRunError self.now text.now input.now e) }
        ensures stays { IfOk result (λ _. RunStaysInLimits self.now text.now input.now) }
        ensures looks_most { meta_uses_easy self.now ≡ true → steps.new ≤ steps.old + run_looks self.now input.now }
        ensures looks_least { IfOk result (λ _. meta_uses_easy self.now ≡ true
            → min (steps.old + run_tried self.now.options text.now input.now (meta_tree self.now)) (2 ^ 64 - 1) ≤ steps.new) }
        ensures looks_none { meta_uses_easy self.now ≡ false → steps.new ≡ steps.old }
        ensures counts { steps.old ≤ steps.new }
    {
        memory.forget();
        self.search_again(alloc, text, input, wanted, steps, memory)
    }

    /// The first match, as `search`, where the memory keeps, if it keeps anything, what searches of this pattern in this text have found
    /// out: that is not looked for again, as far as the pattern has states for its look-aheads and atomic groups, and what this search
    /// finds out is kept too, also after an error.
    #[inline(always)]
    pub fn search_again(
        &self,
        alloc: Global,
        text: &str,
        input: &RunInput,
        wanted: MatchDetail,
        steps: &mut Steps,
        memory: &mut MetaMemory,
    ) -> Result<Option<FoundMatch>>
        requires first { input.now.first ≤ input.now.range.end → IsCharBoundary text.now input.now.first }
        requires range { input.now.range.end ≤ length text.now }
        requires kept { MetaKeeps self.now text.now memory.old }
        ensures answer { IfOk result (λ found. option_map found_parts found
            ≡ option_map (wanted_parts wanted (meta_pattern self.now)) (meta_match_for self.now text.now input.now)) }
        ensures within { IfOk result (λ found. IfSome found
            (IsMatchWithin wanted text.now input.now.first input.now.range.end)) }
        ensures limits { IfErr result (λ e. IsRunError self.now text.now input.now e) }
        ensures stays { IfOk result (λ _. RunStaysInLimits self.now text.now input.now) }
        ensures looks_most { meta_uses_easy self.now ≡ true → steps.new ≤ steps.old + run_looks self.now input.now }
        ensures looks_least { IfOk result (λ _. meta_uses_easy self.now ≡ true
            → min (steps.old + run_tried self.now.options text.now input.now (meta_tree self.now)) (2 ^ 64 - 1) ≤ steps.new) }
        ensures looks_none { meta_uses_easy self.now ≡ false → steps.new ≡ steps.old }
        ensures counts { steps.old ≤ steps.new }
        ensures kept { MetaKeeps self.now text.now memory.new }
    {
        if input.range.end < input.first {
            return Ok(None);
        }
        self.strategy
            .search(alloc, text, input, wanted, steps, memory)
    }

    /// Whether `search` finds a match, with its errors.
    pub fn has_match(
        &self,
        alloc: Global,
        text: &str,
        input: &RunInput,
        memory: &mut MetaMemory,
    ) -> Result<bool>
        requires first { input.now.first ≤ input.now.range.end → IsCharBoundary text.now input.now.first }
        requires range { input.now.range.end ≤ length text.now }
        ensures answer { IfOk result (λ yes. yes ≡ is_some (meta_match_for self.now text.now input.now)) }
        ensures limits { IfErr result (λ e. IsRunError self.now text.now input.now e) }
        ensures stays { IfOk result (λ _. RunStaysInLimits self.now text.now input.now) }
    {
        if input.range.end < input.first {
            return Ok(false);
        }
        self.strategy.has_match(alloc, text, input, memory)
    }
}
