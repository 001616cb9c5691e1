//! Compiled regular patterns, and their searches.

ghost use Rattle.std.specs.Prelude.{◌≡◌, ◌+◌, ◌-◌, ◌*◌, ◌^◌, ◌<◌, ◌≤◌, ◌↔◌, Bool, List, ℕ, None, true, false, length, min, replicate, IfErr, IfOk, IfSome, IsSome, OnOk, IsCharBoundary, option_map, slice_set};
ghost use Rattle.fancy_regex_tree.specs.Tree.{Tree};
ghost use Rattle.fancy_regex_parts.specs.Tables.{IsTable};
ghost use Rattle.fancy_regex_regular.specs.Continues.{AskNoPlace};
ghost use Rattle.fancy_regex_regular.specs.TableProps.{place_prop, table_prop};
ghost use Rattle.fancy_regex_regular.specs.Starts.{last_start as last_start_of};

use crate::continues::ask_for_place;
use crate::longest::longest_end;
use crate::memory::{Kept, RegularMemory};
use crate::walks::{told_start, walk_along};
use fancy_regex_class::{CharClassMatcher, Counted, RunInput, Steps};
use fancy_regex_info::{CompileError, CompileOptions, Info};
use fancy_regex_linear::RegularStates;
use fancy_regex_parts::{EndRange, PartContext, PartTable, find};
use fancy_regex_states::Rules;
use std::alloc::{AllocError, Global};

/// A compiled pattern whose look-arounds and atomic groups are parts: states that are asked at a place, whose answers are remembered.
pub struct Regular {
    /// The states of the pattern and of its parts.
    pub(crate) table: PartTable,
    /// The state at which an attempt begins.
    pub(crate) entry: usize,
    matchers: Vec<CharClassMatcher>,
    /// The number of capture groups in an answer.
    groups: usize,
    /// Whether group 0 is the whole match.
    whole: bool,
    unicode: bool,
    /// Whether the longest match is wanted, not the first.
    pub(crate) longest: bool,
    /// Whether a state is `\G`, so that what searches find out depends on where it holds.
    continues: bool,
    /// Whether a match may begin elsewhere than the attempt that finds it, since `\K` stands in the pattern.
    resets_start: bool,
    ghost right: { IsTable table } by { table_prop table },
    ghost inside: { entry < length table.states.items },
    ghost placeless: { continues ≡ false ↔ AskNoPlace table.states.items } by { place_prop continues table },
}

// Written, not derived: so a crate in which such a value may be dropped uses this proof, and has none to make of each type inside.
impl Drop for Regular {
    fn drop(self) {
        let Regular {
            table: _table,
            entry: _entry,
            matchers: _matchers,
            groups: _groups,
            whole: _whole,
            unicode: _unicode,
            longest: _longest,
            continues: _continues,
            resets_start: _resets_start,
        } = self;
    }
}

impl Regular {
    ghost use Rattle.fancy_regex_linear.specs.Plain.{IsRegular};
    ghost use Rattle.fancy_regex_linear.specs.Calls.{has_own_span};
    ghost use Rattle.fancy_regex_linear.specs.CalledClasses.{IsWrittenCause};
    ghost use Rattle.fancy_regex_regular.specs.Supported.{IsSupported, IsSupportedOrShort};
    ghost use Rattle.fancy_regex_regular.specs.Regulars.{IsRegularOf, IsContextOf, IsSpan, IsSlots, LooksFrom, LooksForGroupsFrom, LooksAtMost, LooksForGroupsAtMost, continue_place, lowest_asked, starts_without};
    ghost use Rattle.fancy_regex_regular.specs.Attempts.{IsAttempt, IsAttemptOf};
    ghost use Rattle.fancy_regex_regular.specs.Walks.{CanWalk, reset_start, told_slots};
    ghost use Rattle.fancy_regex_regular.specs.Kept.{IsKeptOf, IsReady};
    ghost use Rattle.fancy_regex_regular.specs.Inputs.{MemoryServes};
    ghost use Rattle.fancy_regex_regular.specs.Iterations.{LooksOn, MayServe, IsPaidWithin, paid_before, paid_by};
    ghost use Rattle.fancy_regex_info.specs.Analysis.{analysis};
    ghost use Rattle.fancy_regex_info.specs.Infos.{info_of};
    ghost use Rattle.fancy_regex_info.specs.Views.{pattern_in};

    /// Whether an analyzed pattern becomes states with parts. Its weight is at most 4,000 then, each call counted as the body of its group
    /// and twice the depth of that body, and it has no more than characters, `\R`, `\G`, `(*FAIL)`, assertions, definitions, look-arounds,
    /// groups, atomic groups, conditionals, alternations and repeats of these, calls of groups of these that do not recur and nest at most
    /// 18 deep, and `\K`, but not in a look-around nor in a group that is called, and only where the tree does not write group 0 itself.
    /// The error is want of memory, only where the tree is not regular by itself.
    pub fn supports(alloc: Global, info: &Info<'_>) -> Result<bool, AllocError>
        ensures exact { IfOk result (λ is. (explicit : Bool) (t : Tree) → info_of info.now ≡ analysis explicit t
            → (is ≡ true ↔ IsSupported (pattern_in explicit t))) }
        ensures calls { IfErr result (λ _. (explicit : Bool) (t : Tree) → info_of info.now ≡ analysis explicit t
            → IsRegular (has_own_span (pattern_in explicit t)) (λ j. ⊥) t → ⊥) }
    {
        RegularStates::are_made_for(alloc, info)
    }

    /// Compiles an analyzed pattern; `None` exactly where it becomes no such states (`supports`), if there is no error. The error is
    /// `InnerError` with the text of a class that `regex` refuses, of the tree or of the body of a group that is called in it, or `Memory`.
    pub fn if_supported(
        alloc: Global,
        info: &Info<'_>,
        options: &CompileOptions,
    ) -> Result<Option<Regular>, CompileError>
        ensures made { IfOk result (λ found. IfSome found (λ regular. (explicit : Bool) (t : Tree) → info_of info.now ≡ analysis explicit t
            → IsRegularOf regular (pattern_in explicit t))) }
        ensures options { IfOk result (λ found. IfSome found (λ regular. (regular.unicode ≡ options.now.unicode)
            × (regular.longest ≡ options.now.leftmost_longest))) }
        ensures exact { IfOk result (λ found. (explicit : Bool) (t : Tree) → info_of info.now ≡ analysis explicit t
            → (IsSome found ↔ IsSupported (pattern_in explicit t))) }
        ensures refused { IfErr result (λ error. (explicit : Bool) (t : Tree) → info_of info.now ≡ analysis explicit t
            → IsWrittenCause options.now.unicode (pattern_in explicit t) error) }
        ensures only { IfErr result (λ error. (explicit : Bool) (t : Tree) → info_of info.now ≡ analysis explicit t
            → IsSupportedOrShort (pattern_in explicit t) error) }
    {
        let found = RegularStates::new(alloc, info, options)?;
        let Some(made) = found else {
            return Ok(None);
        };
        let RegularStates {
            states,
            entry,
            matchers,
            resets_start,
        } = made;
        if entry >= states.len() {
            return Ok(None);
        }
        let continues = ask_for_place(&states);
        let built = PartTable::new(alloc, states)?;
        match built {
            Some(table) => Ok(Some(Regular {
                continues,
                table,
                entry,
                matchers,
                groups: info.end_group(),
                whole: info.start_group() != 0,
                unicode: options.unicode,
                longest: options.leftmost_longest,
                resets_start,
            })),
            None => Ok(None),
        }
    }

    /// Whether a match may begin elsewhere than the attempt that finds it, since `\K` stands in the pattern: then a search for its span
    /// walks along it too.
    pub fn resets_start(&self) -> bool
        ensures { result ≡ self.now.resets_start }
    {
        self.resets_start
    }

    /// Searches the text, and answers the capture groups of the match, the first or the longest: two byte offsets for each group, both
    /// `usize::MAX` if the group is unset; `None` if there is no match. The memory may have been used by other searches before, of this
    /// pattern or another: the answer is the same. No clause says how often the search looks at the text, nor what it allocates. The error
    /// is want of memory; the memory may be used again.
    pub fn search_in(
        &self,
        alloc: Global,
        text: &str,
        input: &RunInput,
        memory: &mut RegularMemory,
    ) -> Result<Option<Vec<usize>>, AllocError>
        requires first { IsCharBoundary text.now input.now.first }
        requires range { input.now.range.end ≤ length text.now }
        ensures { IfOk result (λ found. IsSlots self.now text.now input.now (option_map (λ v. v.items) found)) }
    {
        memory.forget();
        self.search_again(alloc, text, input, &mut Steps::new(), memory)
    }

    /// Searches a text as `search_in`, where the memory, if it keeps anything, keeps what searches of this pattern in this text have found
    /// out: that is not looked for again, and what this search finds out is kept too, also where memory runs out. `steps` counts the looks
    /// at the text: where memory suffices and the first match is wanted, at most twelve for the square of the pattern's weight for each
    /// place from the memory's first one to the end of the text.
    pub fn search_again(
        &self,
        alloc: Global,
        text: &str,
        input: &RunInput,
        steps: &mut Steps,
        memory: &mut RegularMemory,
    ) -> Result<Option<Vec<usize>>, AllocError>
        requires first { IsCharBoundary text.now input.now.first }
        requires range { input.now.range.end ≤ length text.now }
        requires kept { IsKeptOf self.now text.now memory.old }
        ensures answer { IfOk result (λ found. IsSlots self.now text.now input.now (option_map (λ v. v.items) found)) }
        ensures at_most { self.now.longest ≡ false → OnOk result (input.now.first ≤ input.now.range.end
            → LooksForGroupsFrom self.now text.now memory.new.parts.recall.base steps.old steps.new) }
        ensures anew { memory.old.kept ≡ None → input.now.first ≤ input.now.range.end
            → memory.new.parts.recall.base ≡ lowest_asked self.now input.now }
        ensures counts { steps.old ≤ steps.new }
        ensures kept { IsKeptOf self.now text.now memory.new }
    {
        let found = self.find_attempt(text, input, steps, memory)?;
        let Some((start, end)) = found else {
            return Ok(None);
        };
        let mut slots = unset_slots(alloc, self.groups)?;
        walk_along(self, text, input, steps, memory, start, end, &mut slots)?;
        Ok(Some(self.places(text, slots, start, end)))
    }

    /// Where the match of a search, the first or the longest, starts and ends, as byte offsets; `None` if there is none. `steps` counts the
    /// looks at the text. It never falls, and where the first match is wanted it grows by at most four times the pattern's weight for each
    /// place from the first start to the end of the text, and for four more before it for each character that look-behinds reach back,
    /// also where memory runs out; here `\R` weighs 16, `\Z` 7 and a look-behind more by the characters that it steps back over, since
    /// they are several states. Where there is an answer it grows by at least one for each start that has no match, up to the one that is
    /// found, unless it comes to the last `u64`. Where `\K` stands in the pattern it grows as in a search for groups instead, where memory
    /// suffices. The memory may have been used by other searches before, of this pattern or another. The error is want of memory; the
    /// memory may be used again.
    pub fn find_span_in(
        &self,
        text: &str,
        input: &RunInput,
        steps: &mut Steps,
        memory: &mut RegularMemory,
    ) -> Result<Option<(usize, usize)>, AllocError>
        requires first { IsCharBoundary text.now input.now.first }
        requires range { input.now.range.end ≤ length text.now }
        ensures answer { IfOk result (IsSpan self.now text.now input.now) }
        ensures at_most { self.now.longest ≡ false → self.now.resets_start ≡ false
            → LooksAtMost self.now text.now input.now steps.old steps.new }
        ensures walked { self.now.longest ≡ false → OnOk result (LooksForGroupsAtMost self.now text.now input.now steps.old steps.new) }
        ensures at_least { IfOk result (λ found. self.now.resets_start ≡ false → input.now.first ≤ input.now.range.end
            → min (steps.old + starts_without text.now input.now found) (2 ^ 64 - 1) ≤ steps.new) }
        ensures counts { steps.old ≤ steps.new }
    {
        if input.first > input.range.end {
            return Ok(None);
        }
        memory.forget();
        self.find_span_again(text, input, steps, memory)
    }

    /// Where the match starts and ends, as `find_span_in`, where the memory, if it keeps anything, keeps what searches of this pattern in
    /// this text have found out: that is not looked for again, and what this search finds out is kept too, also where memory runs out. Of a
    /// longest match only what the search for its start finds out is kept. So where memory suffices, the first match is wanted and each
    /// search of an iteration has the end and the flags of the one before and begins no earlier, and `\G` does not stand in the pattern or
    /// holds where it did, all of them together look at each place of the text at most as often as the states weigh, and once more than
    /// what is due for the first state for each start (`shared`, `paid`, `serves`). Where `\K` stands in the pattern each search walks
    /// along its match besides.
    pub fn find_span_again(
        &self,
        text: &str,
        input: &RunInput,
        steps: &mut Steps,
        memory: &mut RegularMemory,
    ) -> Result<Option<(usize, usize)>, AllocError>
        requires first { IsCharBoundary text.now input.now.first }
        requires range { input.now.range.end ≤ length text.now }
        requires kept { IsKeptOf self.now text.now memory.old }
        ensures answer { IfOk result (IsSpan self.now text.now input.now) }
        ensures kept { IsKeptOf self.now text.now memory.new }
        ensures at_most { self.now.longest ≡ false → self.now.resets_start ≡ false → input.now.first ≤ input.now.range.end
            → LooksFrom self.now text.now memory.new.parts.recall.base steps.old steps.new }
        ensures walked { self.now.longest ≡ false → OnOk result (input.now.first ≤ input.now.range.end
            → LooksForGroupsFrom self.now text.now memory.new.parts.recall.base steps.old steps.new) }
        ensures anew { memory.old.kept ≡ None → input.now.first ≤ input.now.range.end
            → memory.new.parts.recall.base ≡ lowest_asked self.now input.now }
        ensures shared { IfOk result (λ found. self.now.longest ≡ false → self.now.resets_start ≡ false
            → input.now.first ≤ input.now.range.end
            → LooksOn self.now input.now memory.old memory.new steps.old steps.new found) }
        ensures paid { input.now.first ≤ input.now.range.end → IsPaidWithin self.now text.now memory.new.parts }
        ensures serves { input.now.first ≤ input.now.range.end → MemoryServes memory.new.kept input.now
            (continue_place self.now input.now) (lowest_asked self.now input.now) }
        ensures at_least { IfOk result (λ found. self.now.resets_start ≡ false → input.now.first ≤ input.now.range.end
            → min (steps.old + starts_without text.now input.now found) (2 ^ 64 - 1) ≤ steps.new) }
        ensures counts { steps.old ≤ steps.new }
        ensures start { IfOk result (λ found. IfSome found (λ span. IsCharBoundary text.now span.0)) }
    {
        let found = self.find_attempt(text, input, steps, memory)?;
        if !self.resets_start {
            return Ok(found);
        }
        let Some((start, end)) = found else {
            return Ok(None);
        };
        let mut slots = [usize::MAX; 2];
        walk_along(self, text, input, steps, memory, start, end, &mut slots)?;
        Ok(Some((told_start(text, start, &slots), end)))
    }

    /// Where the attempt starts and ends that finds the match, as `find_span_again` of a pattern without `\K`.
    fn find_attempt(
        &self,
        text: &str,
        input: &RunInput,
        steps: &mut Steps,
        memory: &mut RegularMemory,
    ) -> Result<Option<(usize, usize)>, AllocError>
        requires first { IsCharBoundary text.now input.now.first }
        requires range { input.now.range.end ≤ length text.now }
        requires kept { IsKeptOf self.now text.now memory.old }
        ensures answer { IfOk result (IsAttempt self.now text.now input.now) }
        ensures kept { IsKeptOf self.now text.now memory.new }
        ensures at_most { self.now.longest ≡ false → input.now.first ≤ input.now.range.end
            → LooksFrom self.now text.now memory.new.parts.recall.base steps.old steps.new }
        ensures anew { memory.old.kept ≡ None → input.now.first ≤ input.now.range.end
            → memory.new.parts.recall.base ≡ lowest_asked self.now input.now }
        ensures shared { IfOk result (λ found. self.now.longest ≡ false → input.now.first ≤ input.now.range.end
            → LooksOn self.now input.now memory.old memory.new steps.old steps.new found) }
        ensures paid { input.now.first ≤ input.now.range.end → IsPaidWithin self.now text.now memory.new.parts }
        ensures serves { input.now.first ≤ input.now.range.end → MemoryServes memory.new.kept input.now
            (continue_place self.now input.now) (lowest_asked self.now input.now) }
        ensures at_least { IfOk result (λ found. input.now.first ≤ input.now.range.end
            → min (steps.old + starts_without text.now input.now found) (2 ^ 64 - 1) ≤ steps.new) }
        ensures counts { steps.old ≤ steps.new }
        ensures walks { IfOk result (λ found. IfSome found (λ span. CanWalk self.now text.now input.now memory.new span.0)) }
        ensures inside { IfOk result (λ found. IfSome found (λ _. input.now.first ≤ input.now.range.end)) }
    {
        let first = self.find_first(text, input, steps, memory)?;
        let Some((start, end)) = first else {
            return Ok(None);
        };
        if !self.longest {
            return Ok(Some((start, end)));
        }
        if end >= input.range.end {
            return Ok(Some((start, end)));
        }
        let farther = &mut memory.farther;
        let last = longest_end(self, text, input, steps, farther, start, end)?;
        Ok(Some((start, last)))
    }

    /// Where the attempt starts and ends that finds the first match, also where the longest is wanted, as `find_attempt`.
    fn find_first(
        &self,
        text: &str,
        input: &RunInput,
        steps: &mut Steps,
        memory: &mut RegularMemory,
    ) -> Result<Option<(usize, usize)>, AllocError>
        requires first { IsCharBoundary text.now input.now.first }
        requires range { input.now.range.end ≤ length text.now }
        requires kept { IsKeptOf self.now text.now memory.old }
        ensures answer { IfOk result (IsAttemptOf false self.now text.now input.now) }
        ensures kept { IsKeptOf self.now text.now memory.new }
        ensures at_most { input.now.first ≤ input.now.range.end
            → LooksFrom self.now text.now memory.new.parts.recall.base steps.old steps.new }
        ensures anew { memory.old.kept ≡ None → input.now.first ≤ input.now.range.end
            → memory.new.parts.recall.base ≡ lowest_asked self.now input.now }
        ensures shared { IfOk result (λ found. input.now.first ≤ input.now.range.end
            → LooksOn self.now input.now memory.old memory.new steps.old steps.new found) }
        ensures paid { input.now.first ≤ input.now.range.end → IsPaidWithin self.now text.now memory.new.parts }
        ensures serves { input.now.first ≤ input.now.range.end → MemoryServes memory.new.kept input.now
            (continue_place self.now input.now) (lowest_asked self.now input.now) }
        ensures at_least { IfOk result (λ found. input.now.first ≤ input.now.range.end
            → min (steps.old + starts_without text.now input.now found) (2 ^ 64 - 1) ≤ steps.new) }
        ensures counts { steps.old ≤ steps.new }
        ensures walks { IfOk result (λ found. IfSome found (λ span. CanWalk self.now text.now input.now memory.new span.0)) }
        ensures inside { IfOk result (λ found. IfSome found (λ _. input.now.first ≤ input.now.range.end)) }
    {
        if input.first > input.range.end {
            return Ok(None);
        }
        // Read so that the proof knows that the counter is a `u64`, which no look lowers.
        let _before = steps.count();
        let context = self.context(input, 0);
        self.begin(&context, input, memory);
        let mut counted = Counted::new(text, steps);
        let span = find(
            &context,
            &mut counted,
            &mut memory.parts,
            input.first,
            last_start(input),
        )?;
        Ok(span)
    }

    /// Makes the memory ready for a search with this input: it begins anew where what it keeps does not serve.
    fn begin(&self, context: &PartContext, input: &RunInput, memory: &mut RegularMemory)
        requires { IsContextOf self.now input.now 0 context.now }
        ensures ready { (text : List ℕ) → IsKeptOf self.now text memory.old → IsReady self.now context.now text input.now memory.new }
        ensures anew { memory.old.kept ≡ None → memory.new.parts.recall.base ≡ lowest_asked self.now input.now }
        ensures paid { (text : List ℕ) → IsKeptOf self.now text memory.old → MayServe self.now memory.old.kept input.now
            → paid_before self.now input.now memory.old ≤ paid_by self.now memory.new.parts }
        ensures serves { MemoryServes memory.new.kept input.now
            (continue_place self.now input.now) (lowest_asked self.now input.now) }
    {
        let lowest = self.table.lowest(self.entry, input.first);
        let continue_at = self.continue_place(input);
        if memory.serves(input, continue_at, lowest) {
            return;
        }
        memory.parts.restart(context, lowest);
        memory.walked.restart(context, lowest);
        memory.kept = Some(Kept::of(input, continue_at, lowest));
    }

    /// Where `\G` holds in a search with this input; `None` for a pattern that does not ask for it.
    fn continue_place(&self, input: &RunInput) -> Option<usize>
        ensures { result ≡ continue_place self.now input.now }
    {
        if self.continues {
            input.continue_at
        } else {
            None
        }
    }

    /// What a search of this pattern reads and does not change, where a match has to end at the byte offset `least` or later.
    pub(crate) fn context<'p>(&'p self, input: &RunInput, least: usize) -> PartContext<'p>
        ensures { IsContextOf self.now input.now least result }
    {
        PartContext {
            table: &self.table,
            matchers: &self.matchers,
            rules: Rules {
                unicode: self.unicode,
                no_start_text: input.no_start_text,
                no_end_text: input.no_end_text,
                longest: false,
                continue_at: self.continue_place(input),
            },
            entry: self.entry,
            range: EndRange {
                least,
                most: input.range.end,
            },
        }
    }

    /// The byte offsets of the groups of a match whose attempt is from `start` to `end`, where the walk along it left these slots.
    fn places(&self, text: &str, mut slots: Vec<usize>, start: usize, end: usize) -> Vec<usize>
        ensures { (self.now.whole ≡ true → IsCharBoundary text.now (reset_start start slots.items))
            → result.items ≡ told_slots self.now.whole start end slots.items }
    {
        if self.whole {
            let told = told_start(text, start, &slots);
            put(&mut slots, 0, told);
            put(&mut slots, 1, end);
        }
        slots
    }
}

/// The slots of so many groups that are all unset. The error is want of memory.
fn unset_slots(alloc: Global, groups: usize) -> Result<Vec<usize>, AllocError>
    ensures { IfOk result (λ slots. slots.items ≡ replicate (2 * groups) (2 ^ 64 - 1)) }
{
    let mut slots = Vec::new(alloc);
    slots.resize(groups.saturating_mul(2), usize::MAX)?;
    Ok(slots)
}

/// Writes to a slot, if it exists.
#[tactic(auto, using(std::proofs::lemmas::List::set_past))]
fn put(slots: &mut Vec<usize>, slot: usize, value: usize)
    ensures { slots.new.items ≡ slice_set slots.old.items slot value }
{
    if slot < slots.len() {
        slots[slot] = value;
    }
}

/// The last start of a search that begins within its range.
fn last_start(input: &RunInput) -> usize
    ensures { result ≡ last_start_of input.now }
{
    if input.anchored {
        input.first
    } else {
        input.range.end
    }
}
