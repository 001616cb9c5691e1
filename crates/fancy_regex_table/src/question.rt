//! What tells characters apart that are not ASCII, and what is answered about them.

ghost use Rattle.std.specs.Prelude.{◌≡◌, ◌<◌, ℕ, true, Bool, Contains, IfOk, OnOk, IfSome};
ghost use Rattle.fancy_regex_class.specs.RangeBits.{AreWideBits};
ghost use Rattle.fancy_regex_states.specs.CharTests.{leaf_matches_char};
ghost use Rattle.fancy_regex_table.specs.LeafSets.{HasLeaf};
ghost use Rattle.fancy_regex_table.specs.Questions.{answer as answer_of, with_answer as number_with, number_of as number_about, AreBits, AreQuestions, IsAskedIn, IsConstant, KeepsQuestions};
ghost use Rattle.fancy_regex_table.specs.declared.leaf_set.LeafSet.{LeafSet as LeafSetValue};
ghost use Rattle.fancy_regex_states.specs.declared.atom.Leaf.{Leaf as LeafValue};

use crate::leaf_set::LeafSet;
use crate::sort::Asked;
use crate::step::Reader;
use fancy_regex_class::{
    CharClassMatcher, char_bits, constant_bits, folding_bits, is_word, word_bits,
};
use fancy_regex_states::{Leaf, is_ascii_leaf, leaf_matches};
use std::alloc::{AllocError, Global};

/// A question about a character that is not ASCII.
#[derive(Clone, Copy, PartialEq, Eq)]
pub enum Question {
    /// Whether it is a word character.
    IsWord,
    /// Whether the leaf matches it.
    Matches(Leaf),
}

/// The answer about a character.
#[inline(always)]
fn answer(matchers: &[CharClassMatcher], unicode: bool, question: Question, c: char) -> bool
    ensures { result ≡ answer_of unicode matchers.now question c }
{
    match question {
        Question::IsWord => is_word(c, unicode),
        Question::Matches(leaf) => leaf_matches(matchers, unicode, leaf, c),
    }
}

/// A number of answers, with one answer more.
#[inline(always)]
pub fn with_answer(number: u8, yes: bool) -> u8
    ensures { result ≡ number_with number yes }
{
    if yes {
        number % 128 * 2 + 1
    } else {
        number % 128 * 2
    }
}

/// The number of what is answered about a character. Two characters have one number only if they have the same answers, where at most
/// eight questions are asked.
pub fn number_of(
    matchers: &[CharClassMatcher],
    unicode: bool,
    questions: &[Question],
    c: char,
) -> u8
    ensures { result ≡ number_about unicode matchers.now questions.now c }
{
    let mut number = 0u8;
    for i in 0..questions.len() {
        let yes = answer(matchers, unicode, questions[i], c);
        number = with_answer(number, yes);
    }
    number
}

/// All questions that may tell characters apart, for these leaves and for what assertions ask. The error is want of memory.
pub fn questions_of(
    alloc: Global,
    reader: &Reader,
    leaves: &[Leaf],
    asked: Asked,
) -> Result<Vec<Question>, AllocError>
    ensures { IfOk result (λ questions. AreQuestions reader.now.unicode reader.now.matchers.now leaves.now asked questions.items) }
{
    let mut questions = Vec::new(alloc);
    if asked.words {
        questions.push(Question::IsWord)?;
    }
    add_leaves(reader, &mut questions, leaves)?;
    add_looks(reader, &mut questions, asked.leaves)?;
    Ok(questions)
}

/// Adds questions for the leaves. The error is want of memory.
fn add_leaves(
    reader: &Reader,
    questions: &mut Vec<Question>,
    leaves: &[Leaf],
) -> Result<(), AllocError>
    ensures kept { OnOk result (KeepsQuestions questions.old.items questions.new.items) }
    ensures asked { OnOk result ((leaf : LeafValue) → Contains leaves.now leaf
        → IsAskedIn reader.now.unicode reader.now.matchers.now questions.new.items leaf) }
{
    for i in 0..leaves.len() {
        add_leaf(reader, questions, leaves[i])?;
    }
    Ok(())
}

/// Adds questions for the leaves of look-arounds. The error is want of memory.
fn add_looks(
    reader: &Reader,
    questions: &mut Vec<Question>,
    leaves: LeafSet,
) -> Result<(), AllocError>
    ensures kept { OnOk result (KeepsQuestions questions.old.items questions.new.items) }
    ensures asked { OnOk result ((leaf : LeafValue) → HasLeaf leaves leaf
        → IsAskedIn reader.now.unicode reader.now.matchers.now questions.new.items leaf) }
{
    add_look(reader, questions, leaves.first)?;
    add_look(reader, questions, leaves.second)?;
    add_look(reader, questions, leaves.third)?;
    add_look(reader, questions, leaves.fourth)?;
    Ok(())
}

/// Adds a question for the leaf, if there is one. The error is want of memory.
fn add_look(
    reader: &Reader,
    questions: &mut Vec<Question>,
    leaf: Option<Leaf>,
) -> Result<(), AllocError>
    ensures kept { OnOk result (KeepsQuestions questions.old.items questions.new.items) }
    ensures asked { OnOk result (IfSome leaf (IsAskedIn reader.now.unicode reader.now.matchers.now questions.new.items)) }
{
    match leaf {
        Some(leaf) => add_leaf(reader, questions, leaf),
        None => Ok(()),
    }
}

/// Adds a question for the leaf, unless it is there or the leaf is constant. The error is want of memory.
fn add_leaf(reader: &Reader, questions: &mut Vec<Question>, leaf: Leaf) -> Result<(), AllocError>
    ensures kept { OnOk result (KeepsQuestions questions.old.items questions.new.items) }
    ensures asked { OnOk result (IsAskedIn reader.now.unicode reader.now.matchers.now questions.new.items leaf) }
{
    let question = Question::Matches(leaf);
    if is_constant(reader, leaf) || questions.contains(&question) {
        return Ok(());
    }
    questions.push(question)?;
    Ok(())
}

/// Whether the leaf matches all characters that are not ASCII, or none.
fn is_constant(reader: &Reader, leaf: Leaf) -> bool
    ensures { result ≡ true → IsConstant reader.now.unicode reader.now.matchers.now leaf }
{
    match leaf {
        Leaf::Any { .. } => true,
        _ => is_ascii_leaf(reader.matchers, reader.unicode, leaf),
    }
}

/// For each question the characters that it is true of, as words of bits. The error is want of memory.
pub fn all_bits(
    alloc: Global,
    reader: &Reader,
    questions: &[Question],
) -> Result<Vec<Vec<u64>>, AllocError>
    ensures { IfOk result (λ bits. AreBits reader.now.unicode reader.now.matchers.now questions.now bits.items) }
{
    let mut all = Vec::new(alloc);
    for i in 0..questions.len() {
        let bits = question_bits(alloc, reader, questions[i])?;
        all.push(bits)?;
    }
    Ok(all)
}

/// The characters that the question is true of. The error is want of memory.
fn question_bits(alloc: Global, reader: &Reader, question: Question) -> Result<Vec<u64>, AllocError>
    ensures { IfOk result (λ words. AreWideBits words.items (answer_of reader.now.unicode reader.now.matchers.now question)) }
{
    match question {
        Question::IsWord => word_bits(alloc, reader.unicode),
        Question::Matches(leaf) => leaf_bits(alloc, reader, leaf),
    }
}

/// The characters that the leaf matches. The error is want of memory.
fn leaf_bits(alloc: Global, reader: &Reader, leaf: Leaf) -> Result<Vec<u64>, AllocError>
    ensures { IfOk result (λ words. AreWideBits words.items (leaf_matches_char reader.now.unicode reader.now.matchers.now leaf)) }
{
    match leaf {
        Leaf::Any { .. } => constant_bits(alloc, true),
        Leaf::Char(c) => char_bits(alloc, c),
        Leaf::Folded(folding) => folding_bits(alloc, folding, reader.unicode),
        Leaf::Class(number) => match reader.matchers.get(number) {
            Some(matcher) => matcher.wide_bits(alloc),
            None => constant_bits(alloc, false),
        },
    }
}
