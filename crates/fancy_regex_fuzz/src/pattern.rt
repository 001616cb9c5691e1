//! Random patterns: by a grammar of plain patterns, by a grammar of all constructs, by mutations of these, and by a grammar of groups
//! that call each other.

use crate::random::Random;
use std::alloc::{AllocError, Global};

/// How a pattern is made.
#[derive(Clone, Copy)]
pub enum Kind {
    /// By the grammar of plain patterns without counts and without repeats of what may be empty.
    Plain,
    /// By the grammar of all constructs.
    Grammar,
    /// By that grammar, with a few characters changed.
    Mutated,
    /// By the grammar of three groups that call each other and themselves.
    Calls,
}

impl Kind {
    /// The kind of the case with this number.
    pub fn of(number: u64) -> Kind {
        match number % 4 {
            0 => Kind::Plain,
            1 => Kind::Grammar,
            2 => Kind::Mutated,
            _ => Kind::Calls,
        }
    }
}

/// What a hole may become in a plain pattern. `%` is a hole.
static PLAIN: [&str; 14] = [
    "%%", "%%", "%|%", "(%)", "(?:%)", "(?:%)?", "(%)??", "a%", "b*%", "[ab]+?%", ".*%", "^%$",
    "\\b%", "\\W*%",
];

/// What a hole may become in any pattern.
static ANY: [&str; 50] = [
    "%%",
    "%%",
    "%%",
    "%|%",
    "(%)",
    "(?:%)",
    "(?:%)*",
    "(%)+?",
    "(?:%){1,2}",
    "(?:%){2}?",
    "(?:%)++",
    "(?=%)",
    "(?!%)",
    "(?<=a|bc)%",
    "(?<!b)%",
    "(?<!ab)%",
    "(?<=(a|b)c|d(?=%))%",
    "(?<=(?<=a|bc)b)%",
    "(?<=a(?=%)|(?>b|c)b|é)%",
    "(?<!\\b[ab](?<!ab)|.b)%",
    "(?<=(?:ab){2}|(?:(a)|b){2})%",
    "(?:(?<=(.))(?<!aa)%)*",
    "%(?<=(..))",
    "(?>%)",
    "(?<n>%)\\k<n>",
    "(%)\\1",
    "(%)?(?(1)%|%)",
    "(?(%)%|%)",
    "(?((?=%))%|%)",
    "(?~%)",
    "(?i:%)",
    "(?i)%",
    "(?m)^%$",
    "(?s).%",
    "(?x)% #",
    "\\K%",
    "\\G%",
    "(a%\\g<1>?b)",
    "(?(DEFINE)(?<d>%))\\g<d>",
    "(?(DEFINE)(%))%",
    "\\b%\\B",
    "\\A%",
    "%\\z",
    "%\\Z",
    "%\\R",
    "\\<%\\>",
    "a*%",
    "%|",
    "(?:%|%){0,3}",
    "(*FAIL)|%",
];

/// How a pattern of groups that call each other begins. The groups have the numbers 1 to 3; where there are fewer, a call of a missing one
/// is refused.
static CALLING: [&str; 14] = [
    "(a\\g<1>?b)%",
    "(a\\g<1>?b|%)%\\g<1>",
    "(a\\g<2>?b|c)(a\\g<1>?b|%)",
    "(\\((?:%|\\g<1>)*\\))%",
    "(a%)(%b)(c%)",
    "(?(DEFINE)(%)(a%)(%b))%\\g<1>%",
    "(?(DEFINE)(?<x>a%)(?<y>%b)(?<z>%))\\g<x>%\\g<y>",
    "(?(DEFINE)(\\(%\\))(%a)(b%))(?:%\\g<1>)+",
    "(?:(a%)|(b%)|(%))+",
    "(a%(b%(%c)))\\g<3>",
    "(a\\g<1>?%)(%)(b\\g<2>*%)",
    "(?=(%a))(?<!(b))(?>(%))\\g<1>",
    "(%)(?:(a)|(b)%)\\1(?(2)\\g<1>|%)",
    "(a\\g<2>?%|b)(b\\g<3>?%|a)(\\g<1>%c)",
];

/// What a hole may become in such a pattern.
static CALLED: [&str; 30] = [
    "%%",
    "%%",
    "%|%",
    "a%",
    "b%|%",
    "(?:%)?",
    "(?:%)*",
    "(?:%)+?",
    "(?:%){1,2}",
    "(?:%){0,2}+",
    "(?>%)",
    "(?=%)",
    "(?!%)b",
    "(?<=a)%",
    "(?<!ab)%",
    "(?~%)",
    "\\K%",
    "(%)",
    "\\1%",
    "(?(1)%|%)",
    "(?(a%)%|%)",
    "a\\g<1>?%",
    "\\g<1>",
    "(?:b\\g<2>)*",
    "\\g<2>?%",
    "a\\g<3>",
    "%\\g<3>??",
    "(?:a\\g<1>|\\g<2>)%",
    "a\\g<0>?%",
    "(?i:%\\g<1>?)",
];

/// What a hole becomes at the end.
static ATOMS: [&str; 16] = [
    "a", "b", "ab", "c", ".", "[ab]", "[^a]", "\\w", "\\d", "\\s", "é", "k", "", "[b-d&&c]",
    "\\x41", "\\n",
];

/// What a hole becomes at the end of a plain pattern, where each takes a character.
static PLAIN_ATOMS: [&str; 12] = [
    "a", "b", "ab", "c", ".", "[ab]", "\\w", "k", "é", "[^a]", "\\W", "[à-字]",
];

/// What mutations put into a pattern.
static SIGNS: [&str; 24] = [
    "(", ")", "[", "]", "{", "}", "|", "*", "+", "?", "\\", "^", "$", ".", ",", "1", "2", "a", "<",
    ">", "-", ":", "=", "é",
];

/// How often all holes are filled.
const ROUNDS: usize = 4;

/// How often they are where groups call each other.
const CALL_ROUNDS: usize = 2;

/// A pattern longer than this in bytes gets no new holes.
const LONG: usize = 50;

/// A random pattern of the kind.
pub fn make_pattern(alloc: Global, random: &mut Random, kind: Kind) -> Result<String, AllocError> {
    let made = grown(alloc, random, kind)?;
    match kind {
        Kind::Mutated => mutated(alloc, random, &made),
        _ => Ok(made),
    }
}

/// What a hole may become in a pattern of the kind.
fn rules_of(kind: Kind) -> &'static [&'static str] {
    match kind {
        Kind::Plain => &PLAIN,
        Kind::Grammar | Kind::Mutated => &ANY,
        Kind::Calls => &CALLED,
    }
}

/// What a hole becomes at the end in a pattern of the kind.
fn atoms_of(kind: Kind) -> &'static [&'static str] {
    match kind {
        Kind::Plain => &PLAIN_ATOMS,
        Kind::Grammar | Kind::Mutated | Kind::Calls => &ATOMS,
    }
}

/// How a pattern of the kind begins.
fn beginning_of(random: &mut Random, kind: Kind) -> &'static str {
    match kind {
        Kind::Calls => random.pick(&CALLING),
        _ => "%",
    }
}

/// How often all holes of a pattern of the kind are filled.
fn rounds_of(kind: Kind) -> usize {
    match kind {
        Kind::Calls => CALL_ROUNDS,
        _ => ROUNDS,
    }
}

/// A pattern by the grammar of the kind.
fn grown(alloc: Global, random: &mut Random, kind: Kind) -> Result<String, AllocError> {
    let mut pattern = String::from_str(alloc, beginning_of(random, kind))?;
    for _ in 0..rounds_of(kind) {
        if pattern.len() < LONG {
            let grown = filled(alloc, random, &pattern, rules_of(kind))?;
            pattern = grown;
        }
    }
    filled(alloc, random, &pattern, atoms_of(kind))
}

/// The pattern with one of the words in each hole.
fn filled(
    alloc: Global,
    random: &mut Random,
    pattern: &str,
    words: &[&str],
) -> Result<String, AllocError> {
    let mut text = String::new(alloc);
    for sign in pattern.chars() {
        match sign {
            '%' => text.push_str(random.pick(words))?,
            other => text.push(other)?,
        }
    }
    Ok(text)
}

/// The pattern with one or two characters removed, doubled, or with a sign before them. Numbers of two digits and more are left
/// out, since counts multiply.
fn mutated(alloc: Global, random: &mut Random, pattern: &str) -> Result<String, AllocError> {
    let mut text = String::new(alloc);
    let length = pattern.chars().count();
    let places = [random.below(length), random.below(length)];
    let mut after_digit = false;
    for (index, sign) in pattern.chars().enumerate() {
        if places.contains(&index) {
            push_mutated(&mut text, random, sign)?;
        } else if !(after_digit && sign.is_ascii_digit()) {
            text.push(sign)?;
        }
        after_digit = ends_in_digit(&text);
    }
    Ok(text)
}

/// Appends a character, or what it mutates to. A digit never mutates to more digits.
fn push_mutated(text: &mut String, random: &mut Random, sign: char) -> Result<(), AllocError> {
    let after_digit = ends_in_digit(text);
    match random.below(3) {
        0 => Ok(()),
        _ if after_digit || sign.is_ascii_digit() => text.push('b'),
        1 => {
            text.push(sign)?;
            text.push(sign)
        }
        _ => text.push_str(random.pick(&SIGNS)),
    }
}

/// Whether the last character is a digit.
fn ends_in_digit(text: &str) -> bool {
    match text.chars().last() {
        Some(sign) => sign.is_ascii_digit(),
        None => false,
    }
}
