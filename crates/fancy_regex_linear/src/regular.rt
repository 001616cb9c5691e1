//! The states of patterns with parts.

ghost use Rattle.std.specs.Prelude.{◌≡◌, ◌↔◌, ◌<◌, ◌≤◌, true, false, not, Bool, IfErr, IfOk, IfSome, IsSome, if◌then◌else◌};
ghost use Rattle.fancy_regex_tree.specs.Tree.{Tree, tree_of};

use crate::build::{Translator, is_regular};
use crate::emit::emit;
use crate::facts::{TreeFacts, facts_of, known_calls};
use crate::state::add;
use fancy_regex_class::CharClassMatcher;
use fancy_regex_info::{CompileError, CompileOptions, Info, groups_of};
use fancy_regex_states::State;
use std::alloc::{AllocError, Global};

/// The greatest weight of a pattern that becomes states with parts.
const GREATEST_WEIGHT: u64 = 4_000;

/// The states of a pattern that may ask parts: the bodies of its look-arounds and atomic groups, and the conditions of its
/// conditionals. The states of parts are among them.
#[derive(Drop)]
pub struct RegularStates {
    /// The states. State 0 is the pattern's final state; each part has one of its own.
    pub states: Vec<State>,
    /// The state at which an attempt begins.
    pub entry: usize,
    /// The matchers of the classes.
    pub matchers: Vec<CharClassMatcher>,
    /// Whether a match may begin elsewhere than the attempt that finds it, since `\K` stands in the pattern.
    pub resets_start: bool,
}

/// Whether a pattern may weigh so much.
fn is_light(weight: u64) -> bool
    ensures light { result ≡ true → weight ≤ 4000 }
    ensures heavy { result ≡ false → 4000 < weight }
{
    weight <= GREATEST_WEIGHT
}

/// Whether a tree of which this is known is regular, where `\K` may reset the start or not.
fn is_written_out(facts: TreeFacts, resets: bool) -> bool
    ensures { result ≡ (if resets then facts.is_regular else facts.keeps_start) }
{
    if resets {
        facts.is_regular
    } else {
        facts.keeps_start
    }
}

/// Of a regular tree of which this is known, whether `\K` stands in it; `None` where it weighs too much.
fn resets_if_light(facts: TreeFacts) -> Option<bool>
    ensures light { IsSome result ↔ (facts.weight ≤ 4000) }
    ensures resets { IfSome result (λ resets. resets ≡ not facts.keeps_start) }
{
    if is_light(facts.weight) {
        Some(!facts.keeps_start)
    } else {
        None
    }
}

impl RegularStates {
    ghost use Rattle.fancy_regex_linear.specs.Easy.{IsMade};
    ghost use Rattle.fancy_regex_linear.specs.Plain.{IsRegular};
    ghost use Rattle.fancy_regex_linear.specs.Calls.{has_own_span};
    ghost use Rattle.fancy_regex_linear.specs.CalledClasses.{IsWrittenCause};
    ghost use Rattle.fancy_regex_linear.specs.RegularStates.{AreRegularStates, IsMadeFor, KeepsStart, IsMadeOrShort};
    ghost use Rattle.fancy_regex_info.specs.Analysis.{analysis};
    ghost use Rattle.fancy_regex_info.specs.Infos.{info_of};
    ghost use Rattle.fancy_regex_info.specs.declared.info.Info.{out-Info};
    ghost use Rattle.fancy_regex_info.specs.Views.{pattern_in};

    /// Whether an analyzed pattern becomes such states: it weighs 4,000 at most, each call counted as the body of its group and twice its
    /// depth, and has no more than characters, `\R`, `\G`, `(*FAIL)`, assertions, definitions, look-arounds, groups, atomic groups,
    /// conditionals, alternations and repeats of these, calls of groups of these that do not recur and nest no deeper than 18, and `\K`,
    /// but not in a look-around nor in a group that is called, and only where the tree does not write group 0 itself. The error is want
    /// of memory, only where the tree is not regular by itself.
    pub fn are_made_for(alloc: Global, info: &Info<'_>) -> Result<bool, AllocError>
        ensures exact { IfOk result (λ made. (explicit : Bool) (t : Tree) → info_of info.now ≡ analysis explicit t
            → (made ≡ true ↔ IsMadeFor (pattern_in explicit t))) }
        ensures calls { IfErr result (λ _. (explicit : Bool) (t : Tree) → info_of info.now ≡ analysis explicit t
            → IsRegular (has_own_span (pattern_in explicit t)) (λ j. ⊥) t → ⊥) }
    {
        let found = RegularStates::resets_if_made(alloc, info)?;
        Ok(found.is_some())
    }

    /// Of an analyzed pattern that becomes such states (`are_made_for`), whether `\K` stands in it; `None` of any other. The error is want
    /// of memory, only where the tree is not regular by itself.
    fn resets_if_made(alloc: Global, info: &Info<'_>) -> Result<Option<bool>, AllocError>
        ensures exact { IfOk result (λ found. (explicit : Bool) (t : Tree) → info_of info.now ≡ analysis explicit t
            → (IsSome found ↔ IsMadeFor (pattern_in explicit t))) }
        ensures keeps { IfOk result (λ found. IfSome found (λ resets. (explicit : Bool) (t : Tree) → info_of info.now ≡ analysis explicit t
            → (resets ≡ false ↔ KeepsStart (pattern_in explicit t)))) }
        ensures calls { IfErr result (λ _. (explicit : Bool) (t : Tree) → info_of info.now ≡ analysis explicit t
            → IsRegular (has_own_span (pattern_in explicit t)) (λ j. ⊥) t → ⊥) }
    {
        let may_reset = info.start_group() != 0;
        if is_regular(info.expr, may_reset, &[]) {
            let alone = facts_of(info, &[]);
            return Ok(resets_if_light(alone));
        }
        let calls = known_calls(alloc, info)?;
        let written = facts_of(info, &calls);
        if !is_written_out(written, may_reset) {
            return Ok(None);
        }
        Ok(resets_if_light(written))
    }

    /// The states of an analyzed pattern; `None` where it becomes none (`are_made_for`): then there is no error but want of memory where
    /// it is not regular by itself. Where it is regular without `\K` too, each match begins where its attempt does. The error is
    /// `InnerError` with the text of a class that `regex` refuses, of the tree or of the body of a group that is called in it, or `Memory`.
    pub fn new(
        alloc: Global,
        info: &Info<'_>,
        options: &CompileOptions,
    ) -> Result<Option<RegularStates>, CompileError>
        ensures made { IfOk result (λ found. IfSome found (λ made. (explicit : Bool) (t : Tree) → info_of info.now ≡ analysis explicit t
            → AreRegularStates options.now.unicode made.resets_start made.states.items made.entry made.matchers.items
            (pattern_in explicit t))) }
        ensures keeps { IfOk result (λ found. IfSome found (λ made. (explicit : Bool) (t : Tree) → info_of info.now ≡ analysis explicit t
            → (made.resets_start ≡ false ↔ KeepsStart (pattern_in explicit t)))) }
        ensures program { IfOk result (λ found. IfSome found (λ made. IsMade made.states.items made.entry)) }
        ensures exact { IfOk result (λ found. (explicit : Bool) (t : Tree) → info_of info.now ≡ analysis explicit t
            → (IsSome found ↔ IsMadeFor (pattern_in explicit t))) }
        ensures refused { IfErr result (λ error. (explicit : Bool) (t : Tree) → info_of info.now ≡ analysis explicit t
            → IsWrittenCause options.now.unicode (pattern_in explicit t) error) }
        ensures only { IfErr result (λ error. (explicit : Bool) (t : Tree) → info_of info.now ≡ analysis explicit t
            → IsMadeOrShort (pattern_in explicit t) error) }
    {
        let found = RegularStates::resets_if_made(alloc, info)?;
        let Some(resets_start) = found else {
            return Ok(None);
        };
        let explicit = info.start_group() == 0;
        let bodies = groups_of(alloc, info.expr, explicit)?;
        let mut translator = Translator::new(alloc, options.unicode, explicit);
        translator.write_calls(info.expr, &bodies, explicit)?;
        let translated = translator.translated(info.expr)?;
        let mut states = Vec::new(alloc);
        add(&mut states, State::Match)?;
        let entry = emit(&translated.node, &mut states, 0)?;
        Ok(Some(RegularStates {
            states,
            entry,
            matchers: translator.matchers,
            resets_start,
        }))
    }
}
