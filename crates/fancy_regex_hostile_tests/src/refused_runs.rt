//! Memory is refused while a program is run or the linear engine searches by the calls of the inner crates: the program and the
//! compiled pattern are as before, and the same call then answers.

ghost use Rattle.std.specs.Prelude.{◌≡◌, length};

use crate::outcome::{Attempt, Text, first_wrong};
use fancy_regex::{Result, Steps};
use fancy_regex_analysis::analyze;
use fancy_regex_class::{RunInput, Span};
use fancy_regex_compiled::Prog;
use fancy_regex_compiler::compile;
use fancy_regex_info::{AnalyzeContext, CompileError, CompileOptions};
use fancy_regex_linear::Easy;
use fancy_regex_machine::{RunOptions, run, run_default, run_spans};
use fancy_regex_tree::Expr;
use std::alloc::Global;

/// The input of a search of the whole text.
fn run_input(text: &str) -> RunInput
    ensures { result.range.end ≡ length text.now }
{
    RunInput {
        first: 0,
        continue_at: None,
        range: Span {
            start: 0,
            end: text.len(),
        },
        anchored: false,
        no_start_text: false,
        no_end_text: false,
    }
}

/// The options of a run.
fn run_options() -> RunOptions {
    RunOptions {
        backtrack_limit: 1000,
        find_not_empty: false,
        seek: None,
    }
}

/// What the calls that run a program answer.
enum RunCall {
    /// All of them: the span of the match.
    Find((usize, usize)),
    /// `run`: so many groups after the whole match, and each letter of the text is in a group of its own.
    Groups(usize),
}

/// A pattern for the machine, a text, and calls that run the program.
struct Running(Text, Text, RunCall);

static RUNS: [Running; 8] = [
    Running("(?=(a|ab)(?!x))\\1c", "abc", RunCall::Find((0, 3))),
    Running(
        "(\\((?:[^()]|\\g<1>)*\\))",
        "x(a(b)c)y",
        RunCall::Find((1, 8)),
    ),
    Running("(a)?(?(1)b|c)", "ab", RunCall::Find((0, 2))),
    Running("(?<=a|bc)d", "bcd", RunCall::Find((2, 3))),
    Running("(?~abc)", "xabcx", RunCall::Find((0, 3))),
    Running("(?>a{2,3}+)\\Kb\\G?", "aab", RunCall::Find((2, 3))),
    Running("(?i)(ſ)\\1\\b", "ſſ", RunCall::Find((0, 4))),
    Running("((?:a|b){1,2}?)*(?!\\1)", "abab", RunCall::Find((0, 4))),
];

#[test]
fn a_run_that_wants_memory_can_be_repeated(rt: HostRuntime) {
    assert_eq!(rt; first_wrong(&rt, &RUNS), None);
}

// The groups after those of the letters are not set.
static GROUPED: [Running; 1] = [Running(
    "(a)?(a)?(a)?(a)?(a)?(a)?(a)?(a)?(a)?(a)?(a)?(a)?(a)?(a)?(a)?(a)?(a)?(a)?(a)?(a)?\
    (a)?(a)?(a)?(a)?(a)?(a)?(a)?(a)?(a)?(a)?(a)?(a)?(a)?(a)?(a)?(a)?(a)?(a)?(a)?(a)?(?!b)",
    "aaaaaaaaaaaaaaaaaaaa",
    RunCall::Groups(40),
)];

#[test]
fn each_letter_is_in_a_group_of_its_own(rt: HostRuntime) {
    assert_eq!(rt; first_wrong(&rt, &GROUPED), None);
}

/// The byte offsets of a group where each of so many letters is in a group of its own.
fn place_of(group: usize, letters: usize) -> [usize; 2] {
    match group.checked_sub(1) {
        None => [0, letters],
        Some(start) if start < letters => [start, group],
        Some(_) => [usize::MAX, usize::MAX],
    }
}

/// Whether each letter is in a group of its own.
fn are_in_turn(places: &[usize], groups: usize, letters: usize) -> bool {
    for (group, pair) in places.chunks_exact(2).enumerate() {
        if pair != place_of(group, letters).as_slice() {
            return false;
        }
    }
    places.len() / 2 == groups.saturating_add(1)
}

/// Whether each letter of the text is in a group of its own.
fn has_letters(alloc: Global, prog: &Prog, text: &str, groups: usize) -> Result<bool> {
    if !prog.has_whole() {
        return Ok(false);
    }
    match run(alloc, prog, text, &run_input(text), &run_options())? {
        Some(places) => Ok(are_in_turn(places.as_slice(), groups, text.len())),
        None => Ok(false),
    }
}

/// The first two byte offsets.
fn first_pair(places: Option<Vec<usize>>) -> Option<(usize, usize)> {
    match places?.as_slice() {
        [start, end, ..] => Some((*start, *end)),
        _ => None,
    }
}

/// Whether each call that runs a program finds this span. They go on up to the first that wants memory, and all of them are repeated.
fn all_find(alloc: Global, prog: &Prog, text: &str, wanted: (usize, usize)) -> Result<bool> {
    if !prog.has_whole() {
        return Ok(false);
    }
    let input = run_input(text);
    let options = run_options();
    let found = [
        first_pair(run(alloc, prog, text, &input, &options)?),
        first_pair(run_default(alloc, prog, text, 0)?),
        run_spans(alloc, prog, text, &input, &options)?,
    ];
    Ok(found == [Some(wanted); 3])
}

/// The program of a pattern.
fn program_of(alloc: Global, pattern: &str) -> Result<Prog> {
    let tree = Expr::parse_tree(alloc, pattern)?;
    let info = analyze(alloc, &tree, AnalyzeContext::default())?;
    Ok(compile(alloc, &info, &CompileOptions::default())?)
}

impl Attempt for Running {
    type Made = Prog;

    fn make(&self, alloc: Global) -> Result<Prog> {
        program_of(alloc, self.0)
    }

    fn is_right(&self, alloc: Global, prog: &Prog) -> Result<bool> {
        match &self.2 {
            RunCall::Find(wanted) => all_find(alloc, prog, self.1, *wanted),
            RunCall::Groups(groups) => has_letters(alloc, prog, self.1, *groups),
        }
    }
}

/// A pattern for the linear engine, its weight, a text, and the span of the match. A search looks at the text at most as often as the
/// weight says for each byte, and once more.
struct Looking(Text, u64, Text, Option<(usize, usize)>);

const A60: &str = "aaaaaaaaaaaaaaaaaaaaaaaaaaaaaaaaaaaaaaaaaaaaaaaaaaaaaaaaaaaa";

const A61: &str = "aaaaaaaaaaaaaaaaaaaaaaaaaaaaaaaaaaaaaaaaaaaaaaaaaaaaaaaaaaaaa";

const A62: &str = "aaaaaaaaaaaaaaaaaaaaaaaaaaaaaaaaaaaaaaaaaaaaaaaaaaaaaaaaaaaaaa";

const A63: &str = "aaaaaaaaaaaaaaaaaaaaaaaaaaaaaaaaaaaaaaaaaaaaaaaaaaaaaaaaaaaaaaa";

// The last three are letters on one letter less, at the border between one word of states and two.
static LOOKS: [Looking; 10] = [
    Looking("(a|b|ab)*bc", 19, "ababababac", None),
    Looking("(a|b?)*", 26, "ab", Some((0, 2))),
    Looking("((?s:.)).", 6, "\n\n", None),
    Looking("(?i)k[^\\d]+?$", 8, "\u{212a}ab", Some((0, 5))),
    Looking("\\bfoo\\b|(x){2}", 16, "food foo", Some((5, 8))),
    Looking("^(?:)$", 4, "", Some((0, 0))),
    Looking(
        "(?:a?){30}a{30}",
        152,
        "aaaaaaaaaaaaaaaaaaaaaaaaaaaaaa",
        Some((0, 30)),
    ),
    Looking(A61, 63, A60, None),
    Looking(A62, 64, A61, None),
    Looking(A63, 65, A62, None),
];

#[test]
fn a_search_of_the_linear_engine_that_wants_memory_can_be_repeated(rt: HostRuntime) {
    assert_eq!(rt; first_wrong(&rt, &LOOKS), None);
}

/// A pattern of this weight, compiled for the linear engine. A pattern of another weight, or for the machine, counts as too complex.
fn compiled_of_weight(alloc: Global, pattern: &str, weight: u64) -> Result<Easy> {
    let tree = Expr::parse_tree(alloc, pattern)?;
    let info = analyze(alloc, &tree, AnalyzeContext::default())?;
    if info.hard || info.weight.saturating_add(2) != weight {
        return Err(CompileError::PatternTooComplex.into());
    }
    Ok(Easy::new(alloc, &info, &CompileOptions::default())?)
}

/// Whether the linear engine finds this span with at most so many looks at the text, also where the search wants memory.
fn looks_little(
    alloc: Global,
    easy: &Easy,
    text: &str,
    looks: u64,
    wanted: Option<(usize, usize)>,
) -> Result<bool> {
    let input = run_input(text);
    if !text.is_char_boundary(input.first) {
        return Ok(false);
    }
    let mut steps = Steps::new();
    let found = easy.search(alloc, text, &input, &mut steps);
    if steps.count() > looks {
        return Ok(false);
    }
    Ok(first_pair(found?) == wanted)
}

impl Attempt for Looking {
    type Made = Easy;

    fn make(&self, alloc: Global) -> Result<Easy> {
        compiled_of_weight(alloc, self.0, self.1)
    }

    fn is_right(&self, alloc: Global, easy: &Easy) -> Result<bool> {
        let places = (self.2.len() as u64).saturating_add(1);
        looks_little(alloc, easy, self.2, self.1.saturating_mul(places), self.3)
    }
}
