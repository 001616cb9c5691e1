//! Tests of single characters and of zero-width assertions.

ghost use Rattle.std.specs.Prelude.{◌≡◌, true};
ghost use Rattle.regex_hir.specs.Text.{is_some_and};
ghost use Rattle.fancy_regex_states.specs.CharTests.{IsAsciiLeaf, leaf_matches_char, passes, is_word_char, is_char as is_char_of, begins_line as begins_line_of};

use crate::atom::{Leaf, Test};
use crate::rules::Rules;
use fancy_regex_class::{CharClassMatcher, fold, is_ascii_folding, is_word};

/// Whether the leaf matches the character.
#[inline(always)]
pub fn leaf_matches(matchers: &[CharClassMatcher], unicode: bool, leaf: Leaf, c: char) -> bool
    ensures { result ≡ leaf_matches_char unicode matchers.now leaf c }
{
    match leaf {
        Leaf::Any { newline, crlf } => newline || !(c == '\n' || (crlf && c == '\r')),
        Leaf::Char(wanted) => c == wanted,
        Leaf::Folded(wanted) => fold(c, unicode) == wanted,
        Leaf::Class(number) => match matchers.get(number) {
            Some(matcher) => matcher.contains(c),
            None => false,
        },
    }
}

/// Whether all characters that the leaf matches are ASCII characters.
pub fn is_ascii_leaf(matchers: &[CharClassMatcher], unicode: bool, leaf: Leaf) -> bool
    ensures { result ≡ true → IsAsciiLeaf unicode matchers.now leaf }
{
    match leaf {
        Leaf::Any { .. } => false,
        Leaf::Char(wanted) => (wanted as u32) < 128,
        Leaf::Folded(wanted) => is_ascii_folding(wanted, unicode),
        Leaf::Class(number) => match matchers.get(number) {
            Some(matcher) => matcher.is_ascii(),
            None => true,
        },
    }
}

#[inline(always)]
fn is_char(wanted: char, c: Option<char>) -> bool
    ensures { result ≡ is_char_of wanted c }
{
    match c {
        Some(c) => c == wanted,
        None => false,
    }
}

#[inline(always)]
fn is_word_at(rules: Rules, c: Option<char>) -> bool
    ensures { result ≡ is_some_and c (is_word_char rules.unicode) }
{
    match c {
        Some(c) => is_word(c, rules.unicode),
        None => false,
    }
}

/// Whether a line begins between the characters `before` and `after`; with `crlf` also `\r` and `\r\n` end a line.
#[inline(always)]
fn begins_line(crlf: bool, before: Option<char>, after: Option<char>) -> bool
    ensures { result ≡ begins_line_of crlf before after }
{
    before.is_none()
        || is_char('\n', before)
        || (crlf && is_char('\r', before) && !is_char('\n', after))
}

/// Whether there is a character that the leaf matches; `None` is the start or the end of the text.
#[inline(always)]
pub fn is_matched(matchers: &[CharClassMatcher], unicode: bool, leaf: Leaf, c: Option<char>) -> bool
    ensures { result ≡ is_some_and c (leaf_matches_char unicode matchers.now leaf) }
{
    match c {
        Some(c) => leaf_matches(matchers, unicode, leaf, c),
        None => false,
    }
}

/// Whether the assertion holds at the byte offset `at`, between the characters `before` and `after`; `None` is the start or the end of
/// the text.
#[inline(always)]
pub fn test_holds(
    matchers: &[CharClassMatcher],
    rules: Rules,
    test: Test,
    at: usize,
    before: Option<char>,
    after: Option<char>,
) -> bool
    ensures { result ≡ passes matchers.now rules test at before after }
{
    match test {
        Test::StartText => before.is_none() && !rules.no_start_text,
        Test::EndText => after.is_none() && !rules.no_end_text,
        Test::StartLine { crlf } => begins_line(crlf, before, after),
        Test::EndLine { crlf: false } => after.is_none() || is_char('\n', after),
        Test::EndLine { crlf: true } => {
            after.is_none()
                || is_char('\r', after)
                || (is_char('\n', after) && !is_char('\r', before))
        }
        Test::WordBoundary => is_word_at(rules, before) != is_word_at(rules, after),
        Test::NotWordBoundary => is_word_at(rules, before) == is_word_at(rules, after),
        Test::LeftWordBoundary => !is_word_at(rules, before) && is_word_at(rules, after),
        Test::RightWordBoundary => is_word_at(rules, before) && !is_word_at(rules, after),
        Test::LeftWordHalfBoundary => !is_word_at(rules, before),
        Test::RightWordHalfBoundary => !is_word_at(rules, after),
        Test::StartLineOniguruma { crlf } => {
            begins_line(crlf, before, after) && !(after.is_none() && is_char('\n', before))
        }
        Test::Never => false,
        Test::Continue => rules.continue_at == Some(at),
        Test::LookAhead(leaf) => is_matched(matchers, rules.unicode, leaf, after),
        Test::LookAheadNeg(leaf) => !is_matched(matchers, rules.unicode, leaf, after),
        Test::LookBehind(leaf) => is_matched(matchers, rules.unicode, leaf, before),
        Test::LookBehindNeg(leaf) => !is_matched(matchers, rules.unicode, leaf, before),
    }
}
