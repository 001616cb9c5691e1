//! Memory is refused while a pattern is read, built or asked for its bytes: nothing was made, and the same call of the same
//! builder then answers.

use crate::outcome::{Attempt, Text, first_wrong};
use fancy_regex::{
    ByteSet, Error, Expr, Regex, RegexBuilder, RegexOptionsBuilder, RegexSet, Result,
};
use std::alloc::Global;

/// A call with a pattern, and the right answer. The builder is made once; where there are named groups, its regex has no others.
enum BuildCall {
    /// Reading: a tree with so many groups.
    Parse(usize),
    /// Building, by options: a regex with so many groups, the whole match included.
    Build(usize),
    /// Building, by the builder, which has the pattern and its option.
    BuildByBuilder(usize),
    /// Making a regex of a text.
    FromText(usize),
    /// Making a regex of a text that is handed over.
    FromString(usize),
    /// Building a set of the pattern and two more: so many members.
    BuildSet(usize),
    /// Building, by options, which fails: the text of the error.
    Fault(Text),
    /// The printed text.
    Reprint(Option<Text>),
    /// The bytes that matches start with, as characters.
    StartBytes(Option<Text>),
    /// The bytes that each text with a match has, as characters.
    RequiredBytes(Option<Text>),
}

/// A call and a pattern.
struct Building(BuildCall, Text);

static BUILT: [Building; 25] = [
    Building(BuildCall::Parse(1), "(a|b|ab)*bc"),
    Building(BuildCall::Parse(3), "(?<a>x)(?<b>y)(?<a>z)"),
    Building(BuildCall::Parse(1), "(?=(a|ab)(?!x))\\1c"),
    Building(BuildCall::Parse(1), "(\\((?:[^()]|\\g<1>)*\\))"),
    Building(BuildCall::Parse(0), "(?~a[b-d&&c]+)(?(a)y|\\R)"),
    Building(BuildCall::Build(2), "(a|b|ab)*bc"),
    Building(BuildCall::Build(4), "(?<a>x)(?<b>y)(?<a>z)"),
    Building(BuildCall::Build(2), "(?=(a|ab)(?!x))\\1c"),
    Building(BuildCall::Build(2), "(\\((?:[^()]|\\g<1>)*\\))"),
    Building(BuildCall::Build(2), "(a)?(?(1)b|c)"),
    Building(BuildCall::Build(1), "(?<=a|bc)d"),
    Building(BuildCall::Build(1), "(?~abc)"),
    Building(BuildCall::Build(1), "(?>a{2,3}+)\\Kb\\G?"),
    Building(BuildCall::Build(2), "(?i)(k)\\1\\b"),
    Building(BuildCall::Build(1), "[a-z[é]]\\w\\p{Lu}"),
    Building(BuildCall::Build(1), ""),
    Building(
        BuildCall::Build(2),
        "(?x) a # b\n (?(DEFINE)(?<d>[0-9]+))\\g<d>",
    ),
    Building(BuildCall::Build(1), "(?m)^a$|\\Ab\\z|\\<c\\>"),
    Building(BuildCall::Build(2), "((?:a|b)++)(?!\\1)"),
    Building(BuildCall::Build(1), "a(?:\\g<0>)?b"),
    Building(BuildCall::FromText(2), "(a|b)"),
    Building(BuildCall::FromText(2), "(a)(?=b)"),
    Building(BuildCall::FromString(2), "(a|b)"),
    Building(BuildCall::FromString(2), "(a)\\1"),
    Building(BuildCall::BuildSet(3), "\\d+"),
];

#[test]
fn a_call_that_wants_memory_makes_nothing(rt: HostRuntime) {
    assert_eq!(rt; first_wrong(&rt, &BUILT), None);
}

// The builder has its pattern and its option after a refusal too: without the option there would be one group more.
static BY_BUILDER: [Building; 2] = [
    Building(BuildCall::BuildByBuilder(2), "(?<n>a)(b)"),
    Building(BuildCall::BuildByBuilder(2), "(?<n>a)(b)(?!c)"),
];

#[test]
fn a_builder_that_is_kept_builds_again(rt: HostRuntime) {
    assert_eq!(rt; first_wrong(&rt, &BY_BUILDER), None);
}

static ASKED: [Building; 9] = [
    Building(BuildCall::Reprint(Some("(?i:a)|(?i:b){2}")), "(?i)a|b{2}"),
    Building(BuildCall::Reprint(Some("(x)[^\\d]")), "(?<a>x)[^\\d]"),
    Building(BuildCall::Reprint(None), "a\\Z"),
    Building(BuildCall::StartBytes(Some("fil")), "fn|let|impl"),
    Building(BuildCall::StartBytes(None), "a?"),
    Building(BuildCall::StartBytes(Some("b")), "(?<=foo)bar"),
    Building(BuildCall::StartBytes(Some("ab")), "a(?=d)|b"),
    Building(BuildCall::RequiredBytes(Some("b")), "a?b"),
    Building(BuildCall::RequiredBytes(Some("c")), "(?=(a|ab)(?!x))\\1c"),
];

#[test]
fn a_question_that_wants_memory_can_be_repeated(rt: HostRuntime) {
    assert_eq!(rt; first_wrong(&rt, &ASKED), None);
}

static FAULTS: [Building; 8] = [
    Building(
        BuildCall::Fault(
            "Parsing error at position 3: Opening parenthesis without closing parenthesis",
        ),
        "a(b",
    ),
    Building(
        BuildCall::Fault("Parsing error at position 0: Invalid escape: \\q"),
        "\\q",
    ),
    Building(
        BuildCall::Fault("Parsing error at position 7: Invalid group name in back reference: b"),
        "(?<a>x)\\k<b>",
    ),
    Building(
        BuildCall::Fault("Parsing error at position 7: Invalid group name in back reference: a"),
        "(?<a>x)\\k<a>(?<a>y)",
    ),
    Building(
        BuildCall::Fault("Error compiling regex: inner error: [z-a]"),
        "[z-a]",
    ),
    Building(
        BuildCall::Fault("Error compiling regex: never ending recursion"),
        "(a\\g<1>)",
    ),
    Building(
        BuildCall::Fault("Error compiling regex: feature not yet supported: absent operator"),
        "(?~(?~abc))",
    ),
    Building(
        BuildCall::Fault("Error compiling regex: pattern too complex"),
        "(?:a{65536}){65536}",
    ),
];

#[test]
fn a_fault_that_wants_memory_is_found_again(rt: HostRuntime) {
    assert_eq!(rt; first_wrong(&rt, &FAULTS), None);
}

/// The regex of a pattern, built by options.
fn built(alloc: Global, pattern: &str) -> Result<Regex> {
    RegexOptionsBuilder::new().build(alloc, String::from_str(alloc, pattern)?)
}

/// The regex of a text that is handed over.
fn from_string(alloc: Global, pattern: &str) -> Result<Regex> {
    Regex::try_from((String::from_str(alloc, pattern)?, alloc))
}

/// Whether a regex was made, which has so many groups.
fn has_groups(made: Result<Regex>, groups: usize) -> Result<bool> {
    Ok(made?.captures_len() == groups)
}

/// Whether a set of the pattern and two more has so many members.
fn has_members(alloc: Global, pattern: &str, members: usize) -> Result<bool> {
    let patterns = [pattern, "\\w+", "(?<=\\$)\\d+\\.\\d+"];
    let set = RegexSet::new_with_options(alloc, &patterns, &RegexOptionsBuilder::new())?;
    Ok(set.len() == members)
}

/// Whether no regex was made, and the error has this text. Want of memory has none.
fn has_fault(alloc: Global, made: &Result<Regex>, text: &str) -> Result<bool> {
    match made {
        Ok(_) => Ok(false),
        Err(Error::Memory) => Err(Error::Memory),
        Err(error) => has_text(alloc, error, text),
    }
}

/// Whether an error has this text.
fn has_text(alloc: Global, error: &Error, text: &str) -> Result<bool> {
    Ok(error.to_string(alloc)?.as_str() == text)
}

/// Whether the set has just the bytes of the text.
fn has_just(bytes: ByteSet, text: &str) -> bool {
    for byte in 0..=255u8 {
        if bytes.contains(byte) != text.as_bytes().contains(&byte) {
            return false;
        }
    }
    true
}

/// Whether there is a set, with just the bytes of the text, or no set and no text.
fn are_just(bytes: Option<ByteSet>, text: Option<Text>) -> bool {
    match (bytes, text) {
        (Some(bytes), Some(text)) => has_just(bytes, text),
        (None, None) => true,
        _ => false,
    }
}

/// Whether this is the printed text of a pattern.
fn is_printed(alloc: Global, pattern: &str, wanted: Option<Text>) -> Result<bool> {
    match RegexOptionsBuilder::new().reprint(alloc, pattern)? {
        Some(text) => Ok(wanted == Some(text.as_str())),
        None => Ok(wanted.is_none()),
    }
}

impl Attempt for Building {
    type Made = RegexBuilder;

    fn make(&self, alloc: Global) -> Result<RegexBuilder> {
        let mut builder = RegexBuilder::new(alloc, self.1)?;
        builder.ignore_numbered_groups_when_named_groups_exist(true);
        Ok(builder)
    }

    fn is_right(&self, alloc: Global, builder: &RegexBuilder) -> Result<bool> {
        let pattern = self.1;
        let options = RegexOptionsBuilder::new();
        match &self.0 {
            BuildCall::Parse(groups) => Ok(
                Expr::parse_tree(alloc, pattern)?.total_groups == *groups,
            ),
            BuildCall::Build(groups) => has_groups(built(alloc, pattern), *groups),
            BuildCall::BuildByBuilder(groups) => has_groups(builder.build(alloc), *groups),
            BuildCall::FromText(groups) => has_groups(Regex::try_from((pattern, alloc)), *groups),
            BuildCall::FromString(groups) => has_groups(from_string(alloc, pattern), *groups),
            BuildCall::BuildSet(members) => has_members(alloc, pattern, *members),
            BuildCall::Fault(text) => has_fault(alloc, &built(alloc, pattern), text),
            BuildCall::Reprint(wanted) => is_printed(alloc, pattern, *wanted),
            BuildCall::StartBytes(wanted) => {
                Ok(are_just(options.start_bytes(alloc, pattern)?, *wanted))
            }
            BuildCall::RequiredBytes(wanted) => {
                Ok(are_just(Some(options.required_bytes(alloc, pattern)?), *wanted))
            }
        }
    }
}
