//! Compiled easy patterns, and their searches.

ghost use Rattle.std.specs.Prelude.{◌≡◌, ◌+◌, ℕ, List, Bool, true, false, IfErr, ◌≤◌, length, IfOk, option_map, IsCharBoundary, slice_set, IfSome};
ghost use Rattle.fancy_regex_linear.specs.Easy.{IsMade, rules_for, found_slots, found_at};
ghost use Rattle.fancy_regex_linear.specs.Find.{found_of_span};
ghost use Rattle.fancy_regex_tree.specs.Tree.{Tree};
ghost use Rattle.fancy_regex_states.specs.First.{IsTableOf, RefusesSecond};
ghost use Rattle.fancy_regex_states.specs.declared.state.State.{State as StateValue};
ghost use Rattle.fancy_regex_linear.specs.Search.{RefusesAscii};
ghost use Rattle.std.specs.Option.{ForSome};
ghost use Rattle.fancy_regex_linear.specs.Before.{HasMarksBefore, IsBeforeOf};
ghost use Rattle.fancy_regex_linear.specs.Passing.{RefusesWideIf};
ghost use Rattle.fancy_regex_table.specs.Tables.{IsTable};

use crate::alone::{Alone, by_starts_alone};
use crate::before::by_before_alone;
use crate::build::{Translator, is_supported};
use crate::by_table::TableSearch;
use crate::emit::emit;
use crate::first::{Request, from_alone, with_memory};
use crate::memory::SearchMemory;
use crate::needed::by_needed_alone;
use crate::passing::{By, Passing};
use crate::quick::{Quick, quick_end};
use crate::search::{SearchContext, SearchMode};
use crate::starts::refused_ascii;
use crate::state::add;
use crate::verdict::{Verdict, table_verdict};
use fancy_regex_class::{CharClassMatcher, Counted, RunInput, Steps};
use fancy_regex_info::{BytesMode, CompileError, CompileOptions, Info};
use fancy_regex_states::{FirstChars, Rules, State, refused_after};
use fancy_regex_table::{Starts, Table};
use std::alloc::{AllocError, Global};

/// The greatest weight of a whole pattern.
const GREATEST_WEIGHT: u64 = 4_294_967_295;

/// The greatest weight of a pattern that is not easy: a heavier one has counters in its program, and no copies.
const GREATEST_SUPPORTED_WEIGHT: u64 = 4_000;

/// A compiled easy pattern.
pub struct Easy {
    states: Vec<State>,
    entry: usize,
    matchers: Vec<CharClassMatcher>,
    /// The number of capture groups in an answer.
    groups: usize,
    /// Whether group 0 is the whole match.
    whole: bool,
    unicode: bool,
    longest: bool,
    /// The characters that a match can begin with, if they are known.
    first: Option<FirstChars>,
    /// The characters at which starts are passed over.
    passing: Passing,
    /// The characters before starts by which they are passed over, if it is done by these.
    before: Option<Passing>,
    /// The table that goes through the text, where the first match is wanted.
    rows: Option<Table>,
    ghost made: { IsMade states.items entry },
    ghost table: { ∥ IfSome first (IsTableOf unicode matchers.items states.items entry) ∥₁ },
    ghost marks: { ∥ RefusesAscii unicode matchers.items states.items entry passing.first ∥₁ },
    ghost seconds: { ∥ RefusesSecond unicode matchers.items states.items entry passing.second ∥₁ },
    ghost wides: { ∥ RefusesWideIf passing.wide unicode matchers.items states.items entry ∥₁ },
    ghost befores: { ForSome before (IsBeforeOf unicode matchers.items states.items entry passing.first) },
    ghost cells: { ∥ IfSome rows (IsTable (record {
      states = states.items;
      entry = entry;
      matchers = matchers.items;
      unicode = unicode;
    })) ∥₁ },
}

// Written, not derived: so a crate in which such a value may be dropped uses this proof, and has none to make of each type inside.
impl Drop for Easy {
    fn drop(self) {
        let Easy {
            states: _states,
            entry: _entry,
            matchers: _matchers,
            groups: _groups,
            whole: _whole,
            unicode: _unicode,
            longest: _longest,
            first: _first,
            passing: _passing,
            before: _before,
            rows: _rows,
        } = self;
    }
}

impl Easy {
    ghost use Rattle.fancy_regex_linear.specs.EasyPatterns.{IsEasyOf, IsMatchSlots, IsMatchSpan, LooksAtMost, LooksAtLeast};
    ghost use Rattle.fancy_regex_linear.specs.EasyTables.{IsContextOf, IsTableFor};
    ghost use Rattle.fancy_regex_linear.specs.QuickSpans.{IsQuickSpan};
    ghost use Rattle.fancy_regex_linear.specs.Verdicts.{IsMatchFlag, IsVerdictFor, GoesOnIn};
    ghost use Rattle.fancy_regex_meaning.specs.Groups.{Pattern};
    ghost use Rattle.fancy_regex_linear.specs.Plain.{IsPlain};
    ghost use Rattle.fancy_regex_linear.specs.Refusals.{IsTaken, IsCause};
    ghost use Rattle.fancy_regex_info.specs.Analysis.{analysis};
    ghost use Rattle.fancy_regex_info.specs.Infos.{info_of};
    ghost use Rattle.fancy_regex_info.specs.declared.info.Info.{out-Info};
    ghost use Rattle.fancy_regex_info.specs.Views.{pattern_in};

    /// Compiles an analyzed pattern that is easy. The error is `InnerError` with the text of a class that `regex` refuses,
    /// `PatternTooComplex` where the weight of the pattern exceeds 4,294,967,295, `FeatureNotYetSupported` for a bytes mode
    /// other than Unicode, or `Memory`. Of several causes that hold any may be reported.
    pub fn new(
        alloc: Global,
        info: &Info<'_>,
        options: &CompileOptions,
    ) -> Result<Easy, CompileError>
        requires easy { (out-Info info.now).hard ≡ false }
        ensures made { IfOk result (λ easy. (explicit : Bool) (t : Tree) → info_of info.now ≡ analysis explicit t
            → IsEasyOf easy (pattern_in explicit t)) }
        ensures taken { IfOk result (λ _. (explicit : Bool) (t : Tree) → info_of info.now ≡ analysis explicit t
            → IsTaken options.now (pattern_in explicit t)) }
        ensures refused { IfErr result (λ error. (explicit : Bool) (t : Tree) → info_of info.now ≡ analysis explicit t
            → IsCause options.now (pattern_in explicit t) error) }
        ensures options { IfOk result (λ easy. (easy.unicode ≡ options.now.unicode) × (easy.longest ≡ options.now.leftmost_longest)) }
    {
        let easy = Easy::compiled(alloc, info, options, true)?;
        Ok(easy)
    }

    /// Compiles a pattern as `new` does, but makes no table to go through texts by: only a search that tries all starts uses it, and any
    /// search finds the same without it. The errors are those of `new`.
    pub fn without_table(
        alloc: Global,
        info: &Info<'_>,
        options: &CompileOptions,
    ) -> Result<Easy, CompileError>
        requires easy { (out-Info info.now).hard ≡ false }
        ensures made { IfOk result (λ easy. (explicit : Bool) (t : Tree) → info_of info.now ≡ analysis explicit t
            → IsEasyOf easy (pattern_in explicit t)) }
        ensures taken { IfOk result (λ _. (explicit : Bool) (t : Tree) → info_of info.now ≡ analysis explicit t
            → IsTaken options.now (pattern_in explicit t)) }
        ensures refused { IfErr result (λ error. (explicit : Bool) (t : Tree) → info_of info.now ≡ analysis explicit t
            → IsCause options.now (pattern_in explicit t) error) }
        ensures options { IfOk result (λ easy. (easy.unicode ≡ options.now.unicode) × (easy.longest ≡ options.now.leftmost_longest)) }
    {
        let easy = Easy::compiled(alloc, info, options, false)?;
        Ok(easy)
    }

    /// Compiles an analyzed pattern that the linear engine supports and serves best. It weighs 4,000 at most, and has what is easy, half
    /// word boundaries, starts of lines of Oniguruma mode and look-arounds for one character alone. All its matches read a character, and
    /// its table has all rows. `None` is any other pattern, and any where the longest match is wanted. No clause says which patterns are
    /// taken, nor what an error tells.
    pub fn if_supported(
        alloc: Global,
        info: &Info<'_>,
        options: &CompileOptions,
    ) -> Result<Option<Easy>, CompileError>
        ensures made { IfOk result (λ found. IfSome found (λ easy. (explicit : Bool) (t : Tree) → info_of info.now ≡ analysis explicit t
            → IsEasyOf easy (pattern_in explicit t))) }
        ensures options { IfOk result (λ found. IfSome found (λ easy. (easy.unicode ≡ options.now.unicode)
            × (easy.longest ≡ options.now.leftmost_longest))) }
    {
        if options.leftmost_longest || info.weight > GREATEST_SUPPORTED_WEIGHT {
            return Ok(None);
        }
        if !is_supported(info.expr) {
            return Ok(None);
        }
        let easy = Easy::compiled(alloc, info, options, true)?;
        if easy.first.is_some() && easy.has_whole_table() {
            return Ok(Some(easy));
        }
        Ok(None)
    }

    /// Whether there is a table, with all rows that a search can come to.
    fn has_whole_table(&self) -> bool {
        match &self.rows {
            Some(table) => table.is_whole(),
            None => false,
        }
    }

    /// Compiles a pattern as `new` does, with a table if it is wanted.
    fn compiled(
        alloc: Global,
        info: &Info<'_>,
        options: &CompileOptions,
        has_table: bool,
    ) -> Result<Easy, CompileError>
        requires supported { (explicit : Bool) (t : Tree) → info_of info.now ≡ analysis explicit t → IsPlain t }
        ensures made { IfOk result (λ easy. (explicit : Bool) (t : Tree) → info_of info.now ≡ analysis explicit t
            → IsEasyOf easy (pattern_in explicit t)) }
        ensures taken { IfOk result (λ _. (explicit : Bool) (t : Tree) → info_of info.now ≡ analysis explicit t
            → IsTaken options.now (pattern_in explicit t)) }
        ensures refused { IfErr result (λ error. (explicit : Bool) (t : Tree) → info_of info.now ≡ analysis explicit t
            → IsCause options.now (pattern_in explicit t) error) }
        ensures options { IfOk result (λ easy. (easy.unicode ≡ options.now.unicode) × (easy.longest ≡ options.now.leftmost_longest)) }
    {
        if options.bytes_mode != BytesMode::Unicode {
            let feature = String::from_str(alloc, "bytes mode")?;
            return Err(CompileError::FeatureNotYetSupported(feature));
        }
        if info.weight.saturating_add(2) > GREATEST_WEIGHT {
            return Err(CompileError::PatternTooComplex);
        }
        let explicit = info.start_group() == 0;
        let mut translator = Translator::new(alloc, options.unicode, explicit);
        let translated = translator.translated(info.expr)?;
        let mut states = Vec::new(alloc);
        add(&mut states, State::Match)?;
        let entry = emit(&translated.node, &mut states, 0)?;
        let first = FirstChars::new(alloc, &states, entry, &translator.matchers, options.unicode)?;
        let refused = refused_ascii(&first, &translator.matchers, options.unicode);
        let refused_before = refused_after(
            alloc,
            &states,
            entry,
            &translator.matchers,
            options.unicode,
        )?;
        let before = before_for(&first, &refused_before, &refused);
        let passing = passing_of(
            &first,
            &refused,
            &translator.matchers,
            options.unicode,
            before.is_some(),
        );
        let rows = table_of(
            alloc,
            &states,
            entry,
            &translator.matchers,
            options,
            wanted_table(has_table, &before, &passing),
        )?;
        Ok(Easy {
            states,
            entry,
            matchers: translator.matchers,
            groups: translator.next_group,
            whole: !explicit,
            unicode: options.unicode,
            longest: options.leftmost_longest,
            first,
            passing,
            before,
            rows,
        })
    }

    /// Searches the text, and answers the capture groups of the match: two byte offsets for each group, both `usize::MAX` if
    /// the group is unset. `Ok(None)` means no match. Each look is meant to raise `steps` by one; what is proved is how much it rises at
    /// most, also after an error, and at least, after an answer. The error is want of memory.
    pub fn search(
        &self,
        alloc: Global,
        text: &str,
        input: &RunInput,
        steps: &mut Steps,
    ) -> Result<Option<Vec<usize>>, AllocError>
        requires first { IsCharBoundary text.now input.now.first }
        requires range { input.now.range.end ≤ length text.now }
        ensures answer { IfOk result (λ found. IsMatchSlots self.now text.now input.now (option_map (λ v. v.items) found)) }
        ensures at_most { LooksAtMost self.now input.now steps.old steps.new }
        ensures at_least { IfOk result (λ _. LooksAtLeast self.now text.now input.now steps.old steps.new) }
        ensures counts { steps.old ≤ steps.new }
    {
        let mut memory = SearchMemory::new(alloc);
        let found = self.search_in(alloc, text, input, steps, &mut memory)?;
        Ok(found)
    }

    /// Searches the text as `search` does, in memory that other searches may have used before: of this pattern or another,
    /// also one that ran out of memory. The answer is the same for every memory. After an error the memory may be used again. No clause
    /// says what is allocated: where the memory has the room, only the answer is meant to be, and not even that if an earlier one was
    /// given back.
    pub fn search_in(
        &self,
        alloc: Global,
        text: &str,
        input: &RunInput,
        steps: &mut Steps,
        memory: &mut SearchMemory,
    ) -> Result<Option<Vec<usize>>, AllocError>
        requires first { IsCharBoundary text.now input.now.first }
        requires range { input.now.range.end ≤ length text.now }
        ensures answer { IfOk result (λ found. IsMatchSlots self.now text.now input.now (option_map (λ v. v.items) found)) }
        ensures at_most { LooksAtMost self.now input.now steps.old steps.new }
        ensures at_least { IfOk result (λ _. LooksAtLeast self.now text.now input.now steps.old steps.new) }
        ensures counts { steps.old ≤ steps.new }
    {
        if input.first > input.range.end {
            return Ok(None);
        }
        match self.span_with_memory(text, input, steps, memory, false)? {
            Some((start, end)) => {
                let slots = memory.take_answer(alloc)?;
                Ok(Some(self.places(slots, start, end)))
            }
            None => Ok(None),
        }
    }

    /// Searches the text as `search_in` does, and answers only where the match starts and ends, as byte offsets. The error is want of
    /// memory; the memory may be used again. No clause says what is allocated: nothing is meant to be where the memory has the room.
    pub fn find_span_in(
        &self,
        text: &str,
        input: &RunInput,
        steps: &mut Steps,
        memory: &mut SearchMemory,
    ) -> Result<Option<(usize, usize)>, AllocError>
        requires first { IsCharBoundary text.now input.now.first }
        requires range { input.now.range.end ≤ length text.now }
        ensures answer { IfOk result (IsMatchSpan self.now text.now input.now) }
        ensures at_most { LooksAtMost self.now input.now steps.old steps.new }
        ensures at_least { IfOk result (λ _. LooksAtLeast self.now text.now input.now steps.old steps.new) }
        ensures counts { steps.old ≤ steps.new }
    {
        if input.first > input.range.end {
            return Ok(None);
        }
        if !input.anchored {
            if self.has_needed() {
                return self.find_by_needed(text, input, steps, memory);
            }
            if self.before.is_some() {
                return self.find_by_before(text, input, steps, memory);
            }
            if let Some(it) = self.table_search(text, input) {
                // Read so that the proof knows that the counter is a `u64`, which no look lowers.
                let _before = steps.count();
                let context = self.context(input);
                let mut counted = Counted::new(text, steps);
                let alone = by_starts_alone(&context, &mut counted, it, input.first);
                if let Alone::Unknown(_) = alone {
                    // Made anew, so that no value of it is kept while the table is asked.
                    let own = self.context(input);
                    let later = from_alone(&own, &mut counted, it, alone, self.groups, memory)?;
                    return Ok(later);
                }
                let span = from_alone(&context, &mut counted, it, alone, self.groups, memory)?;
                return Ok(span);
            }
        }
        let attempt = self.span_with_memory(text, input, steps, memory, true)?;
        Ok(attempt)
    }

    /// Where the match ends that an anchored search finds, if it takes visits of `most` states at most. It takes no memory. Where it gives
    /// up, that tells nothing; no clause says when it does.
    // Not inlined: so the caller keeps little around the call, and the search keeps what it reads in registers.
    #[inline(never)]
    pub fn quick_end(&self, text: &str, input: &RunInput, most: usize, steps: &mut Steps) -> Quick
        requires first { IsCharBoundary text.now input.now.first }
        requires range { input.now.range.end ≤ length text.now }
        requires anchored { input.now.anchored ≡ true }
        ensures answer { IsQuickSpan self.now text.now input.now result }
        ensures at_most { steps.new ≤ steps.old + most }
        ensures counts { steps.old ≤ steps.new }
    {
        // Read so that the proof knows that the counter is a `u64`, which no look lowers.
        let _before = steps.count();
        if self.longest || input.first > input.range.end {
            return Quick::GivenUp;
        }
        let context = self.context(input);
        let mut counted = Counted::new(text, steps);
        quick_end(&context, &mut counted, self.entry, input.first, most)
    }

    /// Searches for the span as `find_span_in` does, by the characters before starts as far as the table tells. The error is want of
    /// memory.
    // Not inlined: so the other search keeps its values in registers.
    #[inline(never)]
    fn find_by_before(
        &self,
        text: &str,
        input: &RunInput,
        steps: &mut Steps,
        memory: &mut SearchMemory,
    ) -> Result<Option<(usize, usize)>, AllocError>
        requires first { IsCharBoundary text.now input.now.first }
        requires range { (input.now.first ≤ input.now.range.end) × (input.now.range.end ≤ length text.now) }
        requires many { input.now.anchored ≡ false }
        ensures answer { IfOk result (IsMatchSpan self.now text.now input.now) }
        ensures at_most { LooksAtMost self.now input.now steps.old steps.new }
        ensures at_least { IfOk result (λ _. LooksAtLeast self.now text.now input.now steps.old steps.new) }
        ensures counts { steps.old ≤ steps.new }
    {
        if let Some(it) = self.table_search(text, input) {
            if let Some(before) = it.before.as_ref() {
                // Read so that the proof knows that the counter is a `u64`, which no look lowers.
                let _before = steps.count();
                let context = self.context(input);
                let mut counted = Counted::new(text, steps);
                let alone = by_before_alone(&context, &mut counted, it, before, input.first);
                let span = from_alone(&context, &mut counted, it, alone, self.groups, memory)?;
                return Ok(span);
            }
        }
        let found = self.span_with_memory(text, input, steps, memory, true)?;
        Ok(found)
    }

    /// Whether searches go on to characters that each match needs.
    #[inline(always)]
    fn has_needed(&self) -> bool {
        match &self.rows {
            Some(table) => table.has_needed(),
            None => false,
        }
    }

    /// Searches for the span as `find_span_in` does, by the characters that each match needs as far as the table tells. The error is want
    /// of memory.
    // Not inlined: so the other search keeps its values in registers.
    #[inline(never)]
    fn find_by_needed(
        &self,
        text: &str,
        input: &RunInput,
        steps: &mut Steps,
        memory: &mut SearchMemory,
    ) -> Result<Option<(usize, usize)>, AllocError>
        requires first { IsCharBoundary text.now input.now.first }
        requires range { (input.now.first ≤ input.now.range.end) × (input.now.range.end ≤ length text.now) }
        requires many { input.now.anchored ≡ false }
        ensures answer { IfOk result (IsMatchSpan self.now text.now input.now) }
        ensures at_most { LooksAtMost self.now input.now steps.old steps.new }
        ensures at_least { IfOk result (λ _. LooksAtLeast self.now text.now input.now steps.old steps.new) }
        ensures counts { steps.old ≤ steps.new }
    {
        if let Some(it) = self.table_search(text, input) {
            // Read so that the proof knows that the counter is a `u64`, which no look lowers.
            let _before = steps.count();
            let context = self.context(input);
            let mut counted = Counted::new(text, steps);
            let alone = by_needed_alone(&context, &mut counted, it, input.first);
            let span = from_alone(&context, &mut counted, it, alone, self.groups, memory)?;
            return Ok(span);
        }
        let found = self.span_with_memory(text, input, steps, memory, true)?;
        Ok(found)
    }

    /// Whether `search_in` finds a match. The error is want of memory; the memory may be used again. No clause says how far the text is
    /// read, or what is allocated: where the table tells it, the text is meant to be read up to the first sign of a match alone, or to the
    /// end of the first one where searches go on to characters that are needed, and nothing to be allocated where the memory has the room.
    pub fn has_match_in(
        &self,
        text: &str,
        input: &RunInput,
        memory: &mut SearchMemory,
    ) -> Result<bool, AllocError>
        requires first { IsCharBoundary text.now input.now.first }
        requires range { input.now.range.end ≤ length text.now }
        ensures { IfOk result (IsMatchFlag self.now text.now input.now) }
    {
        let first = match self.verdict(text, input) {
            Verdict::Match => return Ok(true),
            Verdict::NoMatch => return Ok(false),
            Verdict::NoneBefore { at } => at,
        };
        let rest = RunInput { first, ..*input };
        let span = self.find_span_in(text, &rest, &mut Steps::new(), memory)?;
        Ok(span.is_some())
    }

    /// What the table tells of the matches in the text; that none starts before the first start, where it does not serve, or where searches
    /// go on to characters that are needed.
    fn verdict(&self, text: &str, input: &RunInput) -> Verdict
        requires first { IsCharBoundary text.now input.now.first }
        requires range { input.now.range.end ≤ length text.now }
        ensures verdict { (pattern : Pattern) → IsEasyOf self.now pattern → IsVerdictFor self.now text.now input.now result pattern }
        ensures goes_on { GoesOnIn text.now result }
    {
        let at = input.first;
        let stop = input.range.end;
        if input.anchored {
            return Verdict::NoneBefore { at };
        }
        if at > stop {
            return Verdict::NoneBefore { at };
        }
        if self.has_needed() {
            return Verdict::NoneBefore { at };
        }
        let Some(it) = self.table_search(text, input) else {
            return Verdict::NoneBefore { at };
        };
        let context = SearchContext {
            states: &self.states,
            matchers: &self.matchers,
            rules: self.rules(input),
            entry: self.entry,
            first: &self.first,
            stop,
            refused: &self.passing.first,
        };
        let mut steps = Steps::new();
        let mut counted = Counted::new(text, &mut steps);
        table_verdict(&context, &mut counted, it, at)
    }

    /// Searches the text with memory, and answers where the match starts and ends. The slots of the match are in the memory, unless the
    /// span alone is wanted. The error is want of memory.
    // Not inlined: few searches for a span come to it.
    #[inline(never)]
    fn span_with_memory(
        &self,
        text: &str,
        input: &RunInput,
        steps: &mut Steps,
        memory: &mut SearchMemory,
        span_only: bool,
    ) -> Result<Option<(usize, usize)>, AllocError>
        requires first { IsCharBoundary text.now input.now.first }
        requires range { (input.now.first ≤ input.now.range.end) × (input.now.range.end ≤ length text.now) }
        ensures answer { IfOk result (IsMatchSpan self.now text.now input.now) }
        ensures slots { IfOk result (λ found. span_only ≡ false → IsMatchSlots self.now text.now input.now
            (option_map (found_slots self.now.whole) (found_of_span found memory.new.backtrack.slots.items))) }
        ensures at_most { LooksAtMost self.now input.now steps.old steps.new }
        ensures at_least { IfOk result (λ _. LooksAtLeast self.now text.now input.now steps.old steps.new) }
        ensures counts { steps.old ≤ steps.new }
    {
        // Read so that the proof knows that the counter is a `u64`, which no look lowers.
        let _before = steps.count();
        let context = self.context(input);
        let mut counted = Counted::new(text, steps);
        let request = Request {
            start: input.first,
            groups: self.groups,
            mode: SearchMode {
                anchored: input.anchored,
                table: self.table_search(text, input),
                span_only,
            },
        };
        let span = with_memory(&context, &mut counted, &request, memory)?;
        Ok(span)
    }

    /// What a search of this pattern reads and does not change.
    #[inline(always)]
    fn context<'p>(&'p self, input: &RunInput) -> SearchContext<'p>
        ensures { IsContextOf self.now input.now result }
    {
        SearchContext {
            states: &self.states,
            matchers: &self.matchers,
            rules: self.rules(input),
            entry: self.entry,
            first: &self.first,
            stop: input.range.end,
            refused: &self.passing.first,
        }
    }

    /// The table of the pattern and this text, if the search can be done by it: it wants the first match and tries all starts up to the
    /// end of the text, and no end of it is hidden.
    #[inline(always)]
    fn table_search<'t>(&'t self, text: &'t str, input: &RunInput) -> Option<TableSearch<'t>>
        requires { input.now.range.end ≤ length text.now }
        ensures { IfSome result (IsTableFor self.now text.now input.now) }
    {
        if self.longest || input.no_start_text || input.no_end_text {
            return None;
        }
        if input.range.end < text.len() {
            return None;
        }
        match &self.rows {
            Some(table) => Some(TableSearch {
                table,
                text,
                passing: &self.passing,
                before: &self.before,
            }),
            None => None,
        }
    }

    /// The flags of a search of this pattern.
    fn rules(&self, input: &RunInput) -> Rules
        ensures { result ≡ rules_for self.now.unicode self.now.longest input.now }
    {
        Rules {
            unicode: self.unicode,
            no_start_text: input.no_start_text,
            no_end_text: input.no_end_text,
            longest: self.longest,
            continue_at: input.continue_at,
        }
    }

    /// The byte offsets of the groups of a match with these slots.
    fn places(&self, mut slots: Vec<usize>, start: usize, end: usize) -> Vec<usize>
        ensures { result.items ≡ found_slots self.now.whole (found_at start end slots.items) }
    {
        if self.whole {
            put(&mut slots, 0, start);
            put(&mut slots, 1, end);
        }
        slots
    }
}

/// The characters before starts by which starts are passed over, as `Passing::before_of` has them.
fn before_for(
    first: &Option<FirstChars>,
    refused_before: &Option<[bool; 128]>,
    refused: &[bool; 128],
) -> Option<Passing>
    ensures { IfSome result (HasMarksBefore refused_before.now refused.now) }
{
    match first {
        Some(first) => Passing::before_of(refused_before, refused, first.refused_second()),
        None => Passing::before_of(refused_before, refused, &None),
    }
}

/// How starts are passed over fastest.
fn way_of(has_before: bool, wide: bool) -> By {
    if has_before {
        By::Before
    } else if wide {
        By::Bytes
    } else {
        By::Chars
    }
}

/// The characters at which starts are passed over, by these tables.
fn passing_of(
    first: &Option<FirstChars>,
    refused: &[bool; 128],
    matchers: &[CharClassMatcher],
    unicode: bool,
    has_before: bool,
) -> Passing
    ensures first { result.first ≡ refused.now }
    ensures wide { (states : List State) (entry : ℕ) → ∥ IfSome first.now (IsTableOf unicode matchers.now states entry) ∥₁
        → ∥ RefusesWideIf result.wide unicode matchers.now states entry ∥₁ }
    ensures second { (unicode : Bool) (matchers : List CharClassMatcher) (states : List StateValue) (entry : ℕ)
        → ∥ IfSome first.now (IsTableOf unicode matchers states entry) ∥₁ → ∥ RefusesSecond unicode matchers states entry result.second ∥₁ }
{
    match first {
        Some(first) => {
            let wide = first.refuses_wide(matchers, unicode);
            let by = way_of(has_before, wide);
            Passing::new(refused, wide, first.refused_second(), by)
        }
        None => Passing::new(refused, false, &None, way_of(has_before, false)),
    }
}

/// How common starts are for a table, if one is wanted: those that are passed over by the characters before them count as rare.
fn wanted_table(is_wanted: bool, before: &Option<Passing>, passing: &Passing) -> Option<Starts> {
    if !is_wanted {
        return None;
    }
    match before {
        Some(before) => Some(before.starts.or_rare()),
        None => Some(passing.starts),
    }
}

/// The table of the states, if it is wanted and the first match is. The error is want of memory.
fn table_of(
    alloc: Global,
    states: &[State],
    entry: usize,
    matchers: &[CharClassMatcher],
    options: &CompileOptions,
    wanted: Option<Starts>,
) -> Result<Option<Table>, AllocError>
    ensures { IfOk result (λ table. IfSome table (IsTable (record {
      states = states.now;
      entry = entry;
      matchers = matchers.now;
      unicode = options.now.unicode;
    }))) }
{
    let Some(starts) = wanted else {
        return Ok(None);
    };
    if options.leftmost_longest {
        return Ok(None);
    }
    let table = Table::new(alloc, states, entry, matchers, options.unicode, starts)?;
    Ok(table)
}

/// Writes to a slot, if it exists.
#[tactic(auto, using(std::proofs::lemmas::List::set_past))]
fn put(slots: &mut Vec<usize>, slot: usize, value: usize)
    ensures { slots.new.items ≡ slice_set slots.old.items slot value }
{
    if slot < slots.len() {
        slots[slot] = value;
    }
}
