//! What the assertions of a pattern ask about the characters around a place.

ghost use Rattle.std.specs.Prelude.{◌≡◌, ◌<◌, ℕ, Bool, true, IfSome};
ghost use Rattle.regex_hir.specs.Text.{is_some_and};
ghost use Rattle.fancy_regex_states.specs.CharTests.{is_char as is_char_of, is_word_char as is_word_code};
ghost use Rattle.fancy_regex_table.specs.Sorts.{sort_at, holds_between, line_begins_between, asks_for_edges as asks_edges, asks_for_lines as asks_lines, asks_for_words as asks_words, asked_with, AreAsked, AsksLeaf, AsksMore, IsAsked};
ghost use Rattle.fancy_regex_table.specs.LeafSets.{HasAll};
ghost use Rattle.fancy_regex_table.specs.declared.sort.Asked.{Asked as AskedValue};

use crate::leaf_set::LeafSet;
use crate::step::Reader;
use fancy_regex_class::is_word;
use fancy_regex_states::{State, Test};

/// What the assertions of a pattern ask about a character.
#[derive(Clone, Copy)]
pub struct Asked {
    /// Whether it is one at all, and not an end of the text.
    pub edges: bool,
    /// Whether it ends a line.
    pub lines: bool,
    /// Whether it is a word character.
    pub words: bool,
    /// Which of these leaves match it.
    pub leaves: LeafSet,
}

/// What is known of a character, or of an end of the text, as far as the assertions ask: all else is false.
#[derive(Clone, Copy)]
pub struct Sort {
    /// It is an end of the text.
    pub edge: bool,
    /// It is `\n`.
    pub newline: bool,
    /// It is `\r`.
    pub carriage_return: bool,
    /// It is a word character.
    pub word: bool,
    /// The leaves that match it.
    pub matched: LeafSet,
}

/// The sort of a character; `None` is an end of the text.
#[inline(always)]
pub fn sort_of(asked: Asked, reader: &Reader, c: Option<char>) -> Sort
    ensures { result ≡ sort_at reader.now.matchers.now asked reader.now.unicode c }
{
    Sort {
        edge: asked.edges && c.is_none(),
        newline: asked.lines && is_char('\n', c),
        carriage_return: asked.lines && is_char('\r', c),
        word: asked.words && is_word_char(reader.unicode, c),
        matched: asked.leaves.matching(reader, c),
    }
}

impl Sort {
    /// Whether the sorts are the same.
    #[inline(always)]
    pub fn is_same(&self, other: &Sort) -> bool
        ensures { result ≡ true → self.now ≡ other.now }
    {
        self.edge == other.edge
            && self.newline == other.newline
            && self.carriage_return == other.carriage_return
            && self.word == other.word
            && self.matched.is_same(&other.matched)
    }
}

#[inline(always)]
fn is_char(wanted: char, c: Option<char>) -> bool
    ensures { result ≡ is_char_of wanted c }
{
    match c {
        Some(c) => c == wanted,
        None => false,
    }
}

fn is_word_char(unicode: bool, c: Option<char>) -> bool
    ensures { result ≡ is_some_and c (is_word_code unicode) }
{
    match c {
        Some(c) => is_word(c, unicode),
        None => false,
    }
}

/// Whether a line begins between characters of these sorts.
fn begins_line(crlf: bool, before: Sort, after: Sort) -> bool
    ensures { result ≡ line_begins_between crlf before after }
{
    before.edge || before.newline || (crlf && before.carriage_return && !after.newline)
}

/// Whether the assertion holds between characters of these sorts, where no end of the text is hidden. `\G` asks for a place, so that no
/// table is made for it.
pub fn holds(test: Test, before: Sort, after: Sort) -> bool
    ensures { result ≡ holds_between test before after }
{
    match test {
        Test::StartText => before.edge,
        Test::EndText => after.edge,
        Test::StartLine { crlf } => begins_line(crlf, before, after),
        Test::EndLine { crlf: false } => after.edge || after.newline,
        Test::EndLine { crlf: true } => {
            after.edge || after.carriage_return || (after.newline && !before.carriage_return)
        }
        Test::WordBoundary => before.word != after.word,
        Test::NotWordBoundary => before.word == after.word,
        Test::LeftWordBoundary => !before.word && after.word,
        Test::RightWordBoundary => before.word && !after.word,
        Test::LeftWordHalfBoundary => !before.word,
        Test::RightWordHalfBoundary => !after.word,
        Test::StartLineOniguruma { crlf } => {
            begins_line(crlf, before, after) && !(after.edge && before.newline)
        }
        Test::Never | Test::Continue => false,
        Test::LookAhead(leaf) => after.matched.has(leaf),
        Test::LookAheadNeg(leaf) => !after.matched.has(leaf),
        Test::LookBehind(leaf) => before.matched.has(leaf),
        Test::LookBehindNeg(leaf) => !before.matched.has(leaf),
    }
}

/// Whether the assertion asks where the text begins or ends.
fn asks_for_edges(test: Test) -> bool
    ensures { result ≡ asks_edges test }
{
    match test {
        Test::StartText
        | Test::EndText
        | Test::StartLine { .. }
        | Test::EndLine { .. }
        | Test::StartLineOniguruma { .. } => true,
        _ => false,
    }
}

/// Whether the assertion asks where lines end.
fn asks_for_lines(test: Test) -> bool
    ensures { result ≡ asks_lines test }
{
    match test {
        Test::StartLine { .. } | Test::EndLine { .. } | Test::StartLineOniguruma { .. } => true,
        _ => false,
    }
}

/// Whether the assertion asks for word characters.
fn asks_for_words(test: Test) -> bool
    ensures { result ≡ asks_words test }
{
    match test {
        Test::WordBoundary
        | Test::NotWordBoundary
        | Test::LeftWordBoundary
        | Test::RightWordBoundary
        | Test::LeftWordHalfBoundary
        | Test::RightWordHalfBoundary => true,
        _ => false,
    }
}

/// What all assertions of the states ask; `None` where look-arounds ask about more than four leaves, or where one is `\G`.
pub fn asked_by(states: &[State]) -> Option<Asked>
    ensures { IfSome result (λ asked. AreAsked asked states.now) }
{
    let mut asked = Asked {
        edges: false,
        lines: false,
        words: false,
        leaves: LeafSet::new(),
    };
    for i in 0..states.len() {
        asked = with_state(asked, states[i])?;
    }
    Some(asked)
}

/// What is asked, with what this state asks, if there is room for its leaf and it is not `\G`.
fn with_state(asked: Asked, state: State) -> Option<Asked>
    ensures more { IfSome result (AsksMore asked) }
    ensures state { IfSome result (λ more. IsAsked more state) }
{
    match state {
        State::Look { test, .. } => {
            let leaves = with_leaf(asked.leaves, test)?;
            Some(with_test(asked, test, leaves))
        }
        _ => Some(asked),
    }
}

/// What is asked, with what this assertion asks, and with these leaves.
fn with_test(asked: Asked, test: Test, leaves: LeafSet) -> Asked
    ensures { result ≡ asked_with asked test leaves }
{
    Asked {
        edges: asked.edges || asks_for_edges(test),
        lines: asked.lines || asks_for_lines(test),
        words: asked.words || asks_for_words(test),
        leaves,
    }
}

/// The leaves, with the one that the assertion asks about, if there is room and it is not `\G`.
fn with_leaf(leaves: LeafSet, test: Test) -> Option<LeafSet>
    ensures kept { IfSome result (HasAll leaves) }
    ensures leaf { IfSome result (λ more. (asked : AskedValue) → asked.leaves ≡ more → AsksLeaf asked test) }
{
    match test {
        Test::LookAhead(leaf)
        | Test::LookAheadNeg(leaf)
        | Test::LookBehind(leaf)
        | Test::LookBehindNeg(leaf) => leaves.with(leaf),
        Test::Continue => None,
        _ => Some(leaves),
    }
}
