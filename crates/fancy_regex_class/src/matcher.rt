//! The members of a class: taken from the tree that `regex_syntax` parses where that is a class or a single character, else
//! found by matching each character.

ghost use Rattle.std.specs.Prelude.{◌≡◌, ◌≢◌, ℕ, true, IsTrue, IfOk, IfErr, IfSome, IfNone, encode_utf8, is_some, chars};
ghost use Rattle.std.specs.Char.{IsScalar};
ghost use Rattle.regex_class.specs.Ranges.{in_ranges};
ghost use Rattle.regex_hir.specs.Find.{find_str};
ghost use Rattle.regex_hir.specs.Meaning.{meaning};
ghost use Rattle.regex_syntax.specs.WellFormed.{IsWellFormed};
ghost use Rattle.regex.specs.Strings.{matcher_pattern};
ghost use Rattle.fancy_regex_class.specs.Classes.{text_matches_char, matches_single_char, is_read};
ghost use Rattle.regex.specs.declared.error.Error.TheVariants as regex_error;

use regex::{Matcher, Regex};
use regex_class::Class;
use regex_hir::Hir;
use regex_syntax::{Config, ErrorKind};
use std::alloc::{AllocError, Global};

/// Why no members were determined.
#[derive(Clone, Copy, PartialEq, Eq)]
pub(crate) enum Refusal {
    /// `regex` rejects the text.
    Refused,
    /// Memory ran out.
    Memory,
}

impl From<AllocError> for Refusal {
    ghost use Rattle.std.specs.Prelude.{◌≡◌};
    ghost use Rattle.fancy_regex_class.specs.declared.matcher.Refusal.TheVariants.{Memory};

    ghost from_gives = { λ _ refusal. refusal ≡ Memory };

    fn from(_: AllocError) -> Refusal {
        Refusal::Memory
    }
}

ghost use Rattle.fancy_regex_class.specs.Matchers.{RefusesText, IsNoClass};

/// The characters whose text, as a whole haystack, the pattern matches. The error is `Refused` where `regex` rejects the
/// pattern, and `Memory` where memory runs out.
pub(crate) fn members(alloc: Global, written: &str) -> Result<Class, Refusal>
    ensures members { IfOk result (λ class. (c : ℕ) → IsScalar c → in_ranges class.ranges.items c ≡ text_matches_char
        (chars written.now) c) }
    ensures read { IfOk result (λ _. IsTrue (is_read (chars written.now))) }
    ensures refused { IfErr result (λ r. r ≡ Refusal.Refused → RefusesText (chars written.now)) }
{
    match regex_syntax::parse(alloc, written, &Config::default()) {
        Ok(parsed) => match class_of_hir(alloc, parsed.hir)? {
            Some(class) => Ok(class),
            None => members_by_search(alloc, written),
        },
        Err(error) => Err(refusal_of_syntax(error.kind)),
    }
}

/// The characters that the parsed tree matches, if it is a class or a literal of one character.
fn class_of_hir(alloc: Global, tree: Hir) -> Result<Option<Class>, AllocError>
    requires { IsWellFormed true tree }
    ensures members { IfOk result (λ o. IfSome o (λ class. (c : ℕ) → IsScalar c →
        in_ranges class.ranges.items c ≡ is_some (find_str (meaning tree) (encode_utf8 c) 0))) }
    ensures none { IfOk result (λ o. IfNone o (IsNoClass tree)) }
{
    match tree {
        Hir::Chars(class) => Ok(Some(class)),
        Hir::Bytes(class) => Ok(Some(class)),
        Hir::Literal(bytes) => match single_char(&bytes) {
            Some(c) => Ok(Some(Class::from_ranges(alloc, &[(c as u32, c as u32)])?)),
            None => Ok(None),
        },
        _ => Ok(None),
    }
}

/// The character that these bytes encode, if they are the UTF-8 of exactly one.
fn single_char(bytes: &[u8]) -> Option<char>
    ensures some { IfSome result (λ c. bytes.now ≡ encode_utf8 c) }
    ensures none { IfNone result ((c : ℕ) → IsScalar c → bytes.now ≢ encode_utf8 c) }
{
    let Ok(text) = str::from_utf8(bytes) else {
        return None;
    };
    let mut rest = text.chars();
    let first = rest.next()?;
    match rest.next() {
        Some(_) => None,
        None => Some(first),
    }
}

/// The same characters, found by running a search on the text of every character. The error is `Refused` where `regex`
/// does not build the pattern, and `Memory` where memory runs out.
fn members_by_search(alloc: Global, written: &str) -> Result<Class, Refusal>
    ensures members { IfOk result (λ class. (c : ℕ) → IsScalar c → in_ranges class.ranges.items c ≡ text_matches_char
        (chars written.now) c) }
    ensures read { IfOk result (λ _. IsTrue (is_read (chars written.now))) }
{
    match Regex::new(alloc, written) {
        Ok(regex) => {
            let mut matcher = regex.matcher(alloc)?;
            Ok(class_of_matches(alloc, &mut matcher)?)
        }
        Err(error) => Err(refusal_of_build(error)),
    }
}

/// The characters in whose text the matcher finds a match.
fn class_of_matches(alloc: Global, matcher: &mut Matcher<'_>) -> Result<Class, AllocError>
    ensures { IfOk result (λ class. (c : ℕ) → IsScalar c →
        in_ranges class.ranges.items c ≡ is_some (find_str (matcher_pattern matcher.old) (encode_utf8 c) 0)) }
{
    let mut ranges = Vec::new(alloc);
    for code in 0..0x11_0000 {
        if is_found(matcher, code) {
            ranges.push((code, code))?;
        }
    }
    Class::new(ranges)
}

/// Whether the matcher finds a match in the text of the character with this code; false for codes of no character.
fn is_found(matcher: &mut Matcher<'_>, code: u32) -> bool
    ensures found { IsScalar code → result ≡ matches_single_char (matcher_pattern matcher.old) code }
    ensures scalar { IsTrue result → IsScalar code }
    ensures same { matcher_pattern matcher.new ≡ matcher_pattern matcher.old }
{
    match char::from_u32(code) {
        Some(c) => matcher.is_match(c.encode_utf8(&mut [0; 4])),
        None => false,
    }
}

/// Tells want of memory from the other errors of building a regex.
fn refusal_of_build(error: regex::Error) -> Refusal
    ensures refused { result ≡ Refusal.Refused → error ≢ regex_error.OutOfMemory }
    ensures memory { result ≡ Refusal.Memory → error ≡ regex_error.OutOfMemory }
{
    match error {
        regex::Error::OutOfMemory => Refusal::Memory,
        _ => Refusal::Refused,
    }
}

/// Tells want of memory from the other errors of parsing.
fn refusal_of_syntax(kind: ErrorKind) -> Refusal
    ensures refused { result ≡ Refusal.Refused → kind ≢ ErrorKind.OutOfMemory }
    ensures memory { result ≡ Refusal.Memory → kind ≡ ErrorKind.OutOfMemory }
{
    match kind {
        ErrorKind::OutOfMemory => Refusal::Memory,
        _ => Refusal::Refused,
    }
}
