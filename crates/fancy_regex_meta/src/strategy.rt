//! What executes a compiled pattern: the linear-time matcher in bounded steps, or a backtracking program. A pattern that is easy but for
//! look-arounds for one character, half word boundaries or starts of lines of Oniguruma mode keeps its program, and may be searched by the
//! matcher. One that refers to no matched text may keep states beside its program, and a relaxed pattern by which its searches skip starts.

ghost use Rattle.std.specs.Prelude.{◌≡◌, ◌≤◌, ◌+◌, ◌-◌, ◌*◌, ◌^◌, ◌<◌, ◌↔◌, ℕ, Option, min, true, false, is_some, length, IfOk, IfErr, IfSome, IsSome, option_map, IsCharBoundary};
ghost use Rattle.fancy_regex_tree.specs.Tree.{Tree};
ghost use Rattle.fancy_regex_meaning.specs.Choices.{program_nodes};
ghost use Rattle.fancy_regex_meaning.specs.Groups.{pattern_of};
ghost use Rattle.fancy_regex_meaning.specs.Searches.{first_match};
ghost use Rattle.fancy_regex_meaning.specs.SizeLaws.{IsInOrder};
ghost use Rattle.fancy_regex_program.specs.Caps.{IsPastCap};
ghost use Rattle.fancy_regex_compiler.specs.Programs.{KeepsCap};
ghost use Rattle.fancy_regex_compiler.specs.Refusals.{IsClear, ReadsClasses};
ghost use Rattle.fancy_regex_info.specs.Analysis.{analysis};
ghost use Rattle.fancy_regex_analysis.specs.AnalysisErrors.{is_too_complex};
ghost use Rattle.fancy_regex_info.specs.Infos.{info_of};
ghost use Rattle.fancy_regex_info.specs.declared.options.BytesMode.TheVariants.{Unicode};
ghost use Rattle.fancy_regex_class.specs.RunInputs.{setting_for};
ghost use Rattle.fancy_regex_linear.specs.Refusals.{IsTaken, IsCause};
ghost use Rattle.fancy_regex_linear.specs.CalledClasses.{IsWrittenCause};
ghost use Rattle.fancy_regex_machine.specs.Allowances.{IsBounded};
ghost use Rattle.fancy_regex_meta.specs.declared.options.RegexOptions.{RegexOptions};
ghost use Rattle.fancy_regex_meta.specs.Refusals.{compile_options_of, IsCompileRefusal};
ghost use Rattle.fancy_regex_info.specs.declared.error.CompileError.TheVariants as errors;
ghost use Rattle.fancy_regex_meta.specs.EasyPatterns.{is_easy_strategy};
ghost use Rattle.fancy_regex_meta.specs.LinearPatterns.{HasStates, is_linear_strategy};
ghost use Rattle.fancy_regex_meta.specs.FoundParts.{found_parts, wanted_parts};
ghost use Rattle.fancy_regex_meta.specs.Strategies.{IsMatcherFor, IsRegularFor, IsProgramFor, IsRelaxedFor, IsNextStart, Executes, RunsUnder, StrategyKeepsCap};
ghost use Rattle.fancy_regex_meta.specs.Strategies.{unlimited as unlimited_options, unlimited_run, search_of};
ghost use Rattle.fancy_regex_meta.specs.Kept.{StrategyKeeps};
ghost use Rattle.fancy_regex_regular.specs.Kept.{IsKeptOf};
ghost use Rattle.fancy_regex_meta.specs.declared.error.Error.TheVariants as told;
ghost use Rattle.fancy_regex_meta.specs.ErrorConversions.{from_runtime_error};
ghost use Rattle.fancy_regex_meta.specs.SearchLimits.{IsSearchError, IsStrategyError, StrategyStaysInLimits, run_choices};
ghost use Rattle.fancy_regex_meta.specs.declared.strategy.Strategy.TheVariants as strategies;

use crate::error::{Error, Result};
use crate::found::{FoundMatch, MatchDetail, found_groups, found_span};
use crate::memory::MetaMemory;
use crate::options::RegexOptions;
use crate::run_work::RunWork;
use crate::seek::seek_table;
use fancy_regex_class::{RunInput, Steps};
use fancy_regex_compiler::{Prog, compile};
use fancy_regex_info::{CompileError, CompileOptions, Info};
use fancy_regex_linear::{Easy, SearchMemory};
use fancy_regex_machine::{
    Allowance, Exhausted, ProgramRun, RunMemory, RunOptions, RuntimeError, run_spans_within,
    run_within,
};
use fancy_regex_regular::{Regular, RegularMemory};
use fancy_regex_relaxed::Relaxed;
use std::alloc::{AllocError, Global};

/// No search makes more runs of a program: each may do four times as much as the one before, or states answer.
const MOST_RUNS: usize = 32;

/// What executes a compiled pattern.
#[derive(Drop)]
pub enum Strategy {
    /// The linear-time matcher, for an easy pattern without `find_not_empty`.
    Easy(Easy),
    /// The linear-time matcher of a pattern that is not easy, and the program that it would have: no search runs that.
    Linear {
        /// The linear-time matcher.
        linear: Easy,
        /// The program.
        prog: Prog,
    },
    /// The backtracking program of any other pattern.
    Program {
        /// The program.
        prog: Prog,
        /// The options of its runs, with the seek table: for each byte, whether a match may start with it; `None` tries each start
        /// offset.
        run_options: RunOptions,
    },
    /// The backtracking program of a pattern that refers to no matched text, with the states that answer where a run of the program
    /// exhausts its allowance or meets a limit.
    Regular {
        /// The states.
        regular: Regular,
        /// The program.
        prog: Prog,
        /// The options of its runs, as for any other pattern, but without a limit on backtracks.
        run_options: RunOptions,
        /// A plain pattern that matches wherever this one does, if it has one: searches skip to its matches.
        relaxed: Option<Relaxed>,
    },
}

/// The options for compiling a tree; the flag says whether the tree has subroutine calls.
fn compile_options(options: &RegexOptions, calls: bool) -> CompileOptions
    ensures unicode { result.unicode ≡ options.now.unicode_mode }
    ensures longest { result.leftmost_longest ≡ options.now.leftmost_longest }
    ensures cap { result.max_prog_size ≡ options.now.max_prog_size }
    ensures anchored { result.anchored ≡ false }
    ensures all { result ≡ compile_options_of options.now calls }
{
    CompileOptions {
        anchored: false,
        contains_subroutines: calls,
        bytes_mode: options.bytes_mode,
        unicode: options.unicode_mode,
        max_prog_size: options.max_prog_size,
        leftmost_longest: options.leftmost_longest,
    }
}

/// Whether a tree that is not easy is searched by states with parts. The error is want of memory.
fn has_states(
    alloc: Global,
    info: &Info<'_>,
    options: &RegexOptions,
) -> std::result::Result<bool, AllocError>
    ensures { IfOk result (λ has. (t : Tree) → info_of info.now ≡ analysis false t → (has ≡ true ↔ HasStates options.now t)) }
{
    if options.find_not_empty {
        return Ok(false);
    }
    Regular::supports(alloc, info)
}

/// The linear-time matcher of a tree that is not easy, if it has one: it serves best those that states with parts would search for too. The
/// error is `Memory`.
fn linear_matcher(
    alloc: Global,
    info: &Info<'_>,
    options: &RegexOptions,
    calls: bool,
) -> std::result::Result<Option<Easy>, CompileError>
    ensures matcher { IfOk result (λ found. IfSome found (λ easy. (t : Tree) → info_of info.now ≡ analysis false t
        → IsMatcherFor easy options.now t)) }
    ensures memory { IfErr result (λ error. error ≡ errors.Memory) }
{
    if options.find_not_empty {
        return Ok(None);
    }
    let wanted = compile_options(options, calls);
    match Easy::if_supported(alloc, info, &wanted) {
        Ok(found) => Ok(found),
        Err(CompileError::Memory) => Err(CompileError::Memory),
        Err(_) => Ok(None),
    }
}

/// The states with parts of a tree that is not easy, where it is searched by such states. The error is `InnerError` with the text of a
/// class that `regex` refuses, or `Memory`.
fn regular_states(
    alloc: Global,
    info: &Info<'_>,
    options: &RegexOptions,
    calls: bool,
) -> std::result::Result<Option<Regular>, CompileError>
    ensures states { IfOk result (λ found. IfSome found (λ regular. (t : Tree) → info_of info.now ≡ analysis false t
        → IsRegularFor regular options.now t)) }
    ensures exact { IfOk result (λ found. (t : Tree) → info_of info.now ≡ analysis false t → (IsSome found ↔ HasStates options.now t)) }
    ensures refused { IfErr result (λ error. (t : Tree) → info_of info.now ≡ analysis false t
        → IsWrittenCause options.now.unicode_mode (pattern_of t) error) }
{
    if options.find_not_empty {
        return Ok(None);
    }
    Regular::if_supported(alloc, info, &compile_options(options, calls))
}

/// These options with the greatest limit on backtracks, for runs that are to end by their allowance. No clause says that they do.
fn unlimited(run_options: RunOptions) -> RunOptions
    ensures { result ≡ unlimited_run run_options }
{
    RunOptions {
        backtrack_limit: usize::MAX,
        ..run_options
    }
}

/// The strategy of a tree that is not easy: its matcher, if it has one, and else its program, with its states if it has them. The error is
/// `InnerError` with the text of a class that `regex` refuses, or `Memory`.
fn hard_strategy(
    alloc: Global,
    info: &Info<'_>,
    options: &RegexOptions,
    calls: bool,
    prog: Prog,
    run_options: RunOptions,
) -> std::result::Result<Strategy, CompileError>
    ensures runs { IfOk result (λ strategy. (t : Tree) → info_of info.now ≡ analysis false t → IsProgramFor prog run_options options.now t
        → Executes strategy options.now t) }
    ensures served { IfOk result (λ strategy. is_easy_strategy strategy ≡ false) }
    ensures cap { IfOk result (λ strategy. (most : Option ℕ) → KeepsCap most prog → StrategyKeepsCap most strategy) }
    ensures linear { IfOk result (λ strategy. (t : Tree) → info_of info.now ≡ analysis false t
        → (is_linear_strategy strategy ≡ true ↔ HasStates options.now t)) }
    ensures refused { IfErr result (λ error. (t : Tree) → info_of info.now ≡ analysis false t
        → IsWrittenCause options.now.unicode_mode (pattern_of t) error) }
{
    let supported = has_states(alloc, info, options)?;
    if !supported {
        return Ok(Strategy::Program { prog, run_options });
    }
    let matcher = linear_matcher(alloc, info, options, calls)?;
    if let Some(linear) = matcher {
        return Ok(Strategy::Linear { linear, prog });
    }
    let states = regular_states(alloc, info, options, calls)?;
    match states {
        Some(regular) => {
            let relaxed = Relaxed::new(alloc, info.expr, &compile_options(options, calls))?;
            Ok(Strategy::Regular {
                regular,
                prog,
                run_options: unlimited(run_options),
                relaxed,
            })
        }
        None => Ok(Strategy::Program { prog, run_options }),
    }
}

/// The first match by the program, as long as its work stays within the allowance. The errors inside are a limit, or `Memory`.
#[inline(always)]
fn run_program(
    alloc: Global,
    run: &ProgramRun<'_>,
    text: &str,
    input: &RunInput,
    wanted: MatchDetail,
    memory: &mut RunMemory,
) -> std::result::Result<std::result::Result<Option<FoundMatch>, RuntimeError>, Exhausted>
    requires first { IsCharBoundary text.now input.now.first }
    requires range { input.now.range.end ≤ length text.now }
    requires whole { run.now.prog.now.whole ≡ true }
    ensures answer { IfOk result (λ ended. IfOk ended (λ found. (o : RegexOptions) (t : Tree)
        → IsProgramFor run.now.prog.now run.now.options.now o t
        → option_map found_parts found ≡ option_map (wanted_parts wanted (pattern_of t))
        (first_match (setting_for o.unicode_mode text.now input.now) (pattern_of t) (search_of o input.now)))) }
    ensures limits { IfOk result (λ ended. IfErr ended (λ e. (o : RegexOptions) (t : Tree)
        → IsProgramFor run.now.prog.now run.now.options.now o t
        → IsSearchError false o.backtrack_limit (run_choices o text.now input.now t) (from_runtime_error e))) }
    ensures passed { IfOk result (λ ended. IfErr ended (λ e. (o : RegexOptions) (t : Tree)
        → IsProgramFor run.now.prog.now run.now.options.now o t
        → IsStrategyError (strategies.Program run.now.prog.now run.now.options.now) o text.now input.now (from_runtime_error e))) }
    ensures stays { IfOk result (λ ended. IfOk ended (λ _. (o : RegexOptions)
        → RunsUnder (strategies.Program run.now.prog.now run.now.options.now) o
        → StrategyStaysInLimits (strategies.Program run.now.prog.now run.now.options.now) o text.now input.now)) }
    ensures bounded { IfErr result (λ _. IsBounded run.now.allowance) }
{
    match wanted {
        MatchDetail::Span => {
            let ended = run_spans_within(alloc, run, text, input, memory)?;
            match ended {
                Ok(span) => Ok(Ok(found_span(alloc, span))),
                Err(error) => Ok(Err(error)),
            }
        }
        MatchDetail::Groups => {
            let ended = run_within(alloc, run, text, input, memory)?;
            match ended {
                Ok(slots) => Ok(Ok(found_groups(slots))),
                Err(error) => Ok(Err(error)),
            }
        }
    }
}

/// Where the match starts, or else the end of the text.
fn start_in(found: &Option<FoundMatch>, text: &str) -> usize {
    match found {
        Some(found) => found.start,
        None => text.len(),
    }
}

/// Where the match of a run starts, or else the end of the text.
fn start_of(ended: &std::result::Result<Option<FoundMatch>, RuntimeError>, text: &str) -> usize {
    match ended {
        Ok(found) => start_in(found, text),
        Err(_) => text.len(),
    }
}

/// The first match by the program, as `run_program`, where each run may do more work than the one before, as long as work is left. No
/// clause says how much that is. The errors inside are a limit, or `Memory`.
#[inline(always)]
fn run_in_shares(
    alloc: Global,
    prog: &Prog,
    run_options: &RunOptions,
    text: &str,
    input: &RunInput,
    wanted: MatchDetail,
    memory: &mut RunMemory,
    work: &mut RunWork,
) -> std::result::Result<std::result::Result<Option<FoundMatch>, RuntimeError>, Exhausted>
    requires first { IsCharBoundary text.now input.now.first }
    requires range { input.now.range.end ≤ length text.now }
    requires whole { prog.now.whole ≡ true }
    ensures { IfOk result (λ ended. IfOk ended (λ found. (o : RegexOptions) (t : Tree) → IsProgramFor prog.now run_options.now o t
        → option_map found_parts found ≡ option_map (wanted_parts wanted (pattern_of t))
        (first_match (setting_for o.unicode_mode text.now input.now) (pattern_of t) (search_of o input.now)))) }
{
    for _ in 0..MOST_RUNS {
        let run = ProgramRun {
            prog,
            options: run_options,
            allowance: work.allowance(),
            walks: work.walks(),
        };
        match run_program(alloc, &run, text, input, wanted, memory) {
            Ok(ended) => {
                work.answered(start_of(&ended, text), memory.looks());
                return Ok(ended);
            }
            Err(Exhausted) => {
                if !work.grow() {
                    return Err(Exhausted);
                }
            }
        }
    }
    Err(Exhausted)
}

/// The first match of a pattern with states: by its program, as long as that stays within the work that it may do and meets no limit, and
/// else by the states. The error is want of memory.
#[inline(always)]
fn search_by_either(
    alloc: Global,
    regular: &Regular,
    prog: &Prog,
    run_options: &RunOptions,
    text: &str,
    input: &RunInput,
    wanted: MatchDetail,
    memory: &mut MetaMemory,
) -> Result<Option<FoundMatch>>
    requires first { IsCharBoundary text.now input.now.first }
    requires range { input.now.range.end ≤ length text.now }
    requires whole { prog.now.whole ≡ true }
    requires kept { IsKeptOf regular.now text.now memory.old.parts }
    ensures answer { IfOk result (λ found. (o : RegexOptions) (t : Tree) → IsRegularFor regular.now o t
        → IsProgramFor prog.now run_options.now (unlimited_options o) t
        → option_map found_parts found ≡ option_map (wanted_parts wanted (pattern_of t))
        (first_match (setting_for o.unicode_mode text.now input.now) (pattern_of t) (search_of o input.now))) }
    ensures memory { IfErr result (λ e. e ≡ told.Memory) }
    ensures kept { IsKeptOf regular.now text.now memory.new.parts }
{
    memory.work.begin(text, input.first);
    if !memory.work.is_spent() {
        let runs = &mut memory.program;
        let work = &mut memory.work;
        match run_in_shares(alloc, prog, run_options, text, input, wanted, runs, work) {
            Ok(Ok(found)) => return Ok(found),
            Ok(Err(RuntimeError::Memory)) => return Err(Error::Memory),
            Ok(Err(_)) | Err(Exhausted) => work.stop(),
        }
    }
    let found = search_regular(alloc, regular, text, input, wanted, &mut memory.parts)?;
    Ok(found)
}

/// The start at which a search with this input may begin as well: where the relaxed pattern first matches, as long as it pays to look for
/// that. `None` if there is no match. The error is want of memory.
#[inline(always)]
fn next_start(
    relaxed: &Option<Relaxed>,
    text: &str,
    input: &RunInput,
    memory: &mut MetaMemory,
) -> std::result::Result<Option<usize>, AllocError>
    requires first { IsCharBoundary text.now input.now.first }
    requires range { input.now.range.end ≤ length text.now }
    ensures answer { IfOk result (λ found. (o : RegexOptions) (t : Tree) → IsRelaxedFor relaxed.now o t → o.find_not_empty ≡ false
        → IsNextStart o text.now input.now t found) }
    ensures boundary { IfOk result (λ found. IfSome found (IsCharBoundary text.now)) }
    ensures parts { memory.new.parts ≡ memory.old.parts }
{
    let Some(relaxed) = relaxed else {
        return Ok(Some(input.first));
    };
    let is_whole = !input.anchored && input.range.end == text.len();
    if !is_whole || input.first > input.range.end || !memory.skips.pay() {
        return Ok(Some(input.first));
    }
    let mut steps = Steps::new();
    let found = relaxed.first_start(text, input, &mut steps, &mut memory.easy)?;
    let start = found.unwrap_or(text.len());
    memory.skips.note(input.first, start, steps.count());
    if !text.is_char_boundary(start) {
        return Ok(Some(input.first));
    }
    Ok(found)
}

/// The first match of a pattern with states, as `search_by_either`: from the first start on at which the relaxed pattern matches. The
/// error is want of memory.
#[inline(always)]
fn search_skipping(
    alloc: Global,
    regular: &Regular,
    relaxed: &Option<Relaxed>,
    prog: &Prog,
    run_options: &RunOptions,
    text: &str,
    input: &RunInput,
    wanted: MatchDetail,
    memory: &mut MetaMemory,
) -> Result<Option<FoundMatch>>
    requires first { IsCharBoundary text.now input.now.first }
    requires range { input.now.range.end ≤ length text.now }
    requires whole { prog.now.whole ≡ true }
    requires kept { IsKeptOf regular.now text.now memory.old.parts }
    ensures answer { IfOk result (λ found. (o : RegexOptions) (t : Tree) → IsRegularFor regular.now o t
        → IsProgramFor prog.now run_options.now (unlimited_options o) t → IsRelaxedFor relaxed.now o t
        → option_map found_parts found ≡ option_map (wanted_parts wanted (pattern_of t))
        (first_match (setting_for o.unicode_mode text.now input.now) (pattern_of t) (search_of o input.now))) }
    ensures memory { IfErr result (λ e. e ≡ told.Memory) }
    ensures kept { IsKeptOf regular.now text.now memory.new.parts }
{
    let next = next_start(relaxed, text, input, memory)?;
    let Some(first) = next else {
        return Ok(None);
    };
    let later = RunInput { first, ..*input };
    let found = search_by_either(
        alloc,
        regular,
        prog,
        run_options,
        text,
        &later,
        wanted,
        memory,
    )?;
    memory.skips.came(input.first, start_in(&found, text));
    Ok(found)
}

/// The first match by the states with parts. The error is want of memory.
#[inline(never)]
fn search_regular(
    alloc: Global,
    regular: &Regular,
    text: &str,
    input: &RunInput,
    wanted: MatchDetail,
    memory: &mut RegularMemory,
) -> std::result::Result<Option<FoundMatch>, AllocError>
    requires first { IsCharBoundary text.now input.now.first }
    requires range { input.now.range.end ≤ length text.now }
    requires kept { IsKeptOf regular.now text.now memory.old }
    ensures answer { IfOk result (λ found. (o : RegexOptions) (t : Tree) → IsRegularFor regular.now o t
        → option_map found_parts found ≡ option_map (wanted_parts wanted (pattern_of t))
        (first_match (setting_for o.unicode_mode text.now input.now) (pattern_of t) (search_of o input.now))) }
    ensures kept { IsKeptOf regular.now text.now memory.new }
{
    let mut steps = Steps::new();
    match wanted {
        MatchDetail::Span => {
            let span = regular.find_span_again(text, input, &mut steps, memory)?;
            Ok(found_span(alloc, span))
        }
        MatchDetail::Groups => {
            let slots = regular.search_again(alloc, text, input, &mut steps, memory)?;
            Ok(found_groups(slots))
        }
    }
}

/// The first match by the linear-time matcher, without a counter of its looks. The error is want of memory.
fn search_uncounted(
    alloc: Global,
    linear: &Easy,
    text: &str,
    input: &RunInput,
    wanted: MatchDetail,
    memory: &mut SearchMemory,
) -> std::result::Result<Option<FoundMatch>, AllocError>
    requires first { IsCharBoundary text.now input.now.first }
    requires range { input.now.range.end ≤ length text.now }
    ensures { IfOk result (λ found. (o : RegexOptions) (t : Tree) → IsMatcherFor linear.now o t
        → option_map found_parts found ≡ option_map (wanted_parts wanted (pattern_of t))
        (first_match (setting_for o.unicode_mode text.now input.now) (pattern_of t) (search_of o input.now))) }
{
    let mut steps = Steps::new();
    match wanted {
        MatchDetail::Span => {
            let found = linear.find_span_in(text, input, &mut steps, memory)?;
            Ok(found_span(alloc, found))
        }
        MatchDetail::Groups => {
            let found = linear.search_in(alloc, text, input, &mut steps, memory)?;
            Ok(found_groups(found))
        }
    }
}

impl Strategy {
    ghost use Rattle.fancy_regex_compiler.specs.Programs.{RefersToGroups};
    ghost use Rattle.fancy_regex_meta.specs.Strategies.{is_whole};
    ghost use Rattle.fancy_regex_meta.specs.EasyPatterns.{uses_easy};
    ghost use Rattle.fancy_regex_meta.specs.LinearPatterns.{IsLinear};
    ghost use Rattle.fancy_regex_meta.specs.SearchLimits.{weight_of, run_tried};

    /// Compiles an analyzed tree, all of whose references must be to existing groups: for the linear-time matcher if the
    /// tree is easy and empty matches are allowed, otherwise to a program, with its seek table if the options ask for it. A
    /// linear-time matcher is kept beside the program where it can search in its place.
    ///
    /// # Errors
    ///
    /// Why the tree cannot be compiled, or `Memory` if memory runs out.
    pub fn new(
        alloc: Global,
        info: &Info<'_>,
        options: &RegexOptions,
        calls: bool,
    ) -> std::result::Result<Strategy, CompileError>
        ensures runs { IfOk result (λ strategy. (t : Tree) → info_of info.now ≡ analysis false t → RefersToGroups false t
            → IsInOrder t → Executes strategy options.now t) }
        ensures served { IfOk result (λ strategy. (t : Tree) → info_of info.now ≡ analysis false t → is_easy_strategy strategy
            ≡ uses_easy options.now t) }
        ensures linear { IfOk result (λ strategy. (t : Tree) → info_of info.now ≡ analysis false t
            → (is_linear_strategy strategy ≡ true ↔ IsLinear options.now t)) }
        ensures taken { IfOk result (λ _. (t : Tree) → info_of info.now ≡ analysis false t → uses_easy options.now t ≡ true
            → IsTaken (compile_options_of options.now calls) (pattern_of t)) }
        ensures refused { IfErr result (λ cause. (t : Tree) → info_of info.now ≡ analysis false t → uses_easy options.now t ≡ true
            → IsCause (compile_options_of options.now calls) (pattern_of t) cause) }
        ensures long { IfErr result (λ cause. (t : Tree) → info_of info.now ≡ analysis false t → uses_easy options.now t ≡ false
            → is_too_complex cause ≡ true → IsPastCap options.now.max_prog_size (16 * (program_nodes (pattern_of t) + 1))) }
        ensures cap { IfOk result (StrategyKeepsCap options.now.max_prog_size) }
        ensures mode { IfOk result (λ _. (t : Tree) → info_of info.now ≡ analysis false t → options.now.bytes_mode ≡ Unicode) }
        ensures classes { IfOk result (λ _. (t : Tree) → info_of info.now ≡ analysis false t → uses_easy options.now t ≡ false
            → IsClear (pattern_of t).groups t → ReadsClasses options.now.unicode_mode (pattern_of t).groups t) }
        ensures reason { IfErr result (λ cause. (t : Tree) → info_of info.now ≡ analysis false t → uses_easy options.now t ≡ false
            → IsClear (pattern_of t).groups t → IsCompileRefusal (compile_options_of options.now calls) t cause) }
    {
        if info.hard || options.find_not_empty {
            let prog = compile(alloc, info, &compile_options(options, calls))?;
            let seek = seek_table(alloc, info.expr, options)?;
            let run_options = RunOptions {
                backtrack_limit: options.backtrack_limit,
                find_not_empty: options.find_not_empty,
                seek,
            };
            return hard_strategy(alloc, info, options, calls, prog, run_options);
        }
        Ok(Strategy::Easy(Easy::new(alloc, info, &compile_options(options, calls))?))
    }

    /// Whether no search meets a limit: it is no program alone.
    pub fn is_linear(&self) -> bool
        ensures { result ≡ is_linear_strategy self.now }
    {
        !matches!(self, Strategy::Program { .. })
    }

    /// The first match, with the byte offsets that are wanted; `None` if there is no match. The counter is raised by one for each
    /// look of the linear-time matcher at the haystack. What is allocated for the search stays in the memory. Errors:
    /// `RuntimeError` at a limit of the program, or `Memory`.
    #[inline(always)]
    pub fn search(
        &self,
        alloc: Global,
        text: &str,
        input: &RunInput,
        wanted: MatchDetail,
        steps: &mut Steps,
        memory: &mut MetaMemory,
    ) -> Result<Option<FoundMatch>>
        requires first { IsCharBoundary text.now input.now.first }
        requires range { input.now.range.end ≤ length text.now }
        requires whole { is_whole self.now ≡ true }
        requires kept { StrategyKeeps self.now text.now memory.old.parts }
        ensures answer { IfOk result (λ found. (o : RegexOptions) (t : Tree) → Executes self.now o t
            → option_map found_parts found ≡ option_map (wanted_parts wanted (pattern_of t))
            (first_match (setting_for o.unicode_mode text.now input.now) (pattern_of t) (search_of o input.now))) }
        ensures limits { IfErr result (λ e. (o : RegexOptions) (t : Tree) → Executes self.now o t
            → IsSearchError (is_easy_strategy self.now) o.backtrack_limit (run_choices o text.now input.now t) e) }
        ensures passed { IfErr result (λ e. (o : RegexOptions) (t : Tree) → Executes self.now o t
            → IsStrategyError self.now o text.now input.now e) }
        ensures stays { IfOk result (λ _. (o : RegexOptions) → RunsUnder self.now o → StrategyStaysInLimits self.now o text.now input.now) }
        ensures looks_most { (o : RegexOptions) (t : Tree) → Executes self.now o t → is_easy_strategy self.now ≡ true
            → steps.new ≤ steps.old + weight_of t * (input.now.range.end - input.now.first + 1) }
        ensures looks_least { IfOk result (λ _. (o : RegexOptions) (t : Tree) → Executes self.now o t → is_easy_strategy self.now ≡ true
            → min (steps.old + run_tried o text.now input.now t) (2 ^ 64 - 1) ≤ steps.new) }
        ensures looks_none { is_easy_strategy self.now ≡ false → steps.new ≡ steps.old }
        ensures counts { steps.old ≤ steps.new }
        ensures kept { StrategyKeeps self.now text.now memory.new.parts }
    {
        match self {
            Strategy::Easy(easy) => match wanted {
                MatchDetail::Span => {
                    let found = easy.find_span_in(text, input, steps, &mut memory.easy)?;
                    Ok(found_span(alloc, found))
                }
                MatchDetail::Groups => {
                    let found = easy.search_in(alloc, text, input, steps, &mut memory.easy)?;
                    Ok(found_groups(found))
                }
            },
            Strategy::Linear { linear, .. } => {
                let easy = &mut memory.easy;
                let found = search_uncounted(alloc, linear, text, input, wanted, easy)?;
                Ok(found)
            }
            Strategy::Program { prog, run_options } => {
                memory.work.begin(text, input.first);
                let run = ProgramRun {
                    prog,
                    options: run_options,
                    allowance: Allowance::Unbounded,
                    walks: memory.work.walks(),
                };
                let runs = &mut memory.program;
                match run_program(alloc, &run, text, input, wanted, runs) {
                    Ok(Ok(found)) => {
                        memory.work.answered(start_in(&found, text), 0);
                        Ok(found)
                    }
                    Ok(Err(error)) => Err(Error::from(error)),
                    Err(Exhausted) => unreachable!(),
                }
            }
            Strategy::Regular {
                regular,
                prog,
                run_options,
                relaxed,
            } => search_skipping(
                alloc,
                regular,
                relaxed,
                prog,
                run_options,
                text,
                input,
                wanted,
                memory,
            ),
        }
    }

    /// Whether `search` finds a match, with its errors. The linear-time matcher reads the text up to the first sign of a match alone,
    /// where its table tells it.
    pub fn has_match(
        &self,
        alloc: Global,
        text: &str,
        input: &RunInput,
        memory: &mut MetaMemory,
    ) -> Result<bool>
        requires first { IsCharBoundary text.now input.now.first }
        requires range { input.now.range.end ≤ length text.now }
        requires whole { is_whole self.now ≡ true }
        ensures answer { IfOk result (λ yes. (o : RegexOptions) (t : Tree) → Executes self.now o t → yes
            ≡ is_some (first_match (setting_for o.unicode_mode text.now input.now) (pattern_of t) (search_of o input.now))) }
        ensures limits { IfErr result (λ e. (o : RegexOptions) (t : Tree) → Executes self.now o t
            → IsSearchError (is_easy_strategy self.now) o.backtrack_limit (run_choices o text.now input.now t) e) }
        ensures passed { IfErr result (λ e. (o : RegexOptions) (t : Tree) → Executes self.now o t
            → IsStrategyError self.now o text.now input.now e) }
        ensures stays { IfOk result (λ _. (o : RegexOptions) → RunsUnder self.now o → StrategyStaysInLimits self.now o text.now input.now) }
    {
        match self {
            Strategy::Easy(easy) => {
                let answer = easy.has_match_in(text, input, &mut memory.easy)?;
                Ok(answer)
            }
            Strategy::Linear { linear, .. } => {
                let answer = linear.has_match_in(text, input, &mut memory.easy)?;
                Ok(answer)
            }
            Strategy::Program { .. } | Strategy::Regular { .. } => {
                memory.forget();
                let steps = &mut Steps::new();
                let found = self.search(alloc, text, input, MatchDetail::Span, steps, memory)?;
                Ok(found.is_some())
            }
        }
    }
}
