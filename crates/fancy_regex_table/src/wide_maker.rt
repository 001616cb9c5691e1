//! How the classes of characters that are not ASCII are made.

ghost use Rattle.std.specs.Prelude.{◌≡◌, ◌<◌, ◌≤◌, ℕ, IfOk, OnOk, length};
ghost use Rattle.fancy_regex_table.specs.Alphabets.{AreKnown, AreWide, KeepsSamples};
ghost use Rattle.fancy_regex_table.specs.Blocks.{AreClasses, AreInside};
ghost use Rattle.fancy_regex_table.specs.Questions.{AreQuestions};

use crate::alphabet::{CharTests, class_for};
use crate::blocks::{Blocks, FIRST_ROW, ROWS};
use crate::question::{Question, all_bits, number_of, questions_of};
use crate::wide::Wide;
use std::alloc::{AllocError, Global};

/// The most questions: their answers as a number are below 256.
const MOST_QUESTIONS: usize = 8;

/// The classes of such characters; none where too many questions may tell them apart. The error is want of memory.
pub fn wide_of(
    alloc: Global,
    tests: &CharTests,
    samples: &mut Vec<Option<char>>,
    hashes: &mut Vec<u64>,
) -> Result<Wide, AllocError>
    ensures kept { KeepsSamples samples.old.items samples.new.items }
    ensures classes { IfOk result (AreWide tests.now.reader.now.unicode tests.now.reader.now.matchers.now tests.now.leaves.now
        tests.now.asked samples.new.items) }
{
    let questions = questions_of(alloc, tests.reader, tests.leaves, tests.asked)?;
    if questions.len() > MOST_QUESTIONS {
        return Wide::unknown(alloc);
    }
    let bits = all_bits(alloc, tests.reader, &questions)?;
    let blocks = Blocks::new(alloc, &bits)?;
    let mut by_answers = [0; 256];
    add_classes(tests, &questions, &blocks, &mut by_answers, samples, hashes)?;
    let classes = classes_of(alloc, &blocks.answers, &by_answers)?;
    Ok(Wide {
        questions,
        by_answers,
        rows: blocks.rows,
        classes,
    })
}

/// Adds the classes of the characters of the blocks. The error is want of memory.
fn add_classes(
    tests: &CharTests,
    questions: &[Question],
    blocks: &Blocks,
    by_answers: &mut [u8; 256],
    samples: &mut Vec<Option<char>>,
    hashes: &mut Vec<u64>,
) -> Result<(), AllocError>
    requires inside { AreInside blocks.now.rows blocks.now.answers.items }
    requires few { length questions.now ≤ 8 }
    requires questions { AreQuestions tests.now.reader.now.unicode tests.now.reader.now.matchers.now tests.now.leaves.now tests.now.asked
        questions.now }
    requires known { AreKnown tests.now.reader.now.unicode tests.now.reader.now.matchers.now tests.now.leaves.now tests.now.asked
        samples.old.items questions.now by_answers.old }
    ensures kept { KeepsSamples samples.old.items samples.new.items }
    ensures known { OnOk result (AreKnown tests.now.reader.now.unicode tests.now.reader.now.matchers.now tests.now.leaves.now
        tests.now.asked samples.new.items questions.now by_answers.new) }
{
    let mut done = 0;
    for row in FIRST_ROW..ROWS {
        let block = blocks.rows[row];
        // A block was made with the first row that has it.
        if block > done {
            done = block;
            let start = block as usize * 64;
            let numbers = &blocks.answers[start..start + 64];
            add_row(tests, questions, row, numbers, by_answers, samples, hashes)?;
        }
    }
    Ok(())
}

/// Adds the classes of the characters of a row with these numbers of answers. The error is want of memory.
fn add_row(
    tests: &CharTests,
    questions: &[Question],
    row: usize,
    numbers: &[u8],
    by_answers: &mut [u8; 256],
    samples: &mut Vec<Option<char>>,
    hashes: &mut Vec<u64>,
) -> Result<(), AllocError>
    requires row { (2 ≤ row) × (row < 1024) }
    requires numbers { length numbers.now ≤ 64 }
    requires few { length questions.now ≤ 8 }
    requires questions { AreQuestions tests.now.reader.now.unicode tests.now.reader.now.matchers.now tests.now.leaves.now tests.now.asked
        questions.now }
    requires known { AreKnown tests.now.reader.now.unicode tests.now.reader.now.matchers.now tests.now.leaves.now tests.now.asked
        samples.old.items questions.now by_answers.old }
    ensures kept { KeepsSamples samples.old.items samples.new.items }
    ensures known { OnOk result (AreKnown tests.now.reader.now.unicode tests.now.reader.now.matchers.now tests.now.leaves.now
        tests.now.asked samples.new.items questions.now by_answers.new) }
{
    for place in 0..numbers.len() {
        if by_answers[numbers[place] as usize] == 0 {
            let code = (row * 64 + place) as u32;
            if let Some(c) = char::from_u32(code) {
                add_class(tests, questions, c, by_answers, samples, hashes)?;
            }
        }
    }
    Ok(())
}

/// Adds the class of a character, unless one is known of characters with the same answers. The error is want of memory.
fn add_class(
    tests: &CharTests,
    questions: &[Question],
    c: char,
    by_answers: &mut [u8; 256],
    samples: &mut Vec<Option<char>>,
    hashes: &mut Vec<u64>,
) -> Result<(), AllocError>
    requires wide { 128 ≤ c }
    requires few { length questions.now ≤ 8 }
    requires questions { AreQuestions tests.now.reader.now.unicode tests.now.reader.now.matchers.now tests.now.leaves.now tests.now.asked
        questions.now }
    requires known { AreKnown tests.now.reader.now.unicode tests.now.reader.now.matchers.now tests.now.leaves.now tests.now.asked
        samples.old.items questions.now by_answers.old }
    ensures kept { KeepsSamples samples.old.items samples.new.items }
    ensures known { OnOk result (AreKnown tests.now.reader.now.unicode tests.now.reader.now.matchers.now tests.now.leaves.now
        tests.now.asked samples.new.items questions.now by_answers.new) }
{
    let number = number_of(tests.reader.matchers, tests.reader.unicode, questions, c);
    if by_answers[number as usize] > 0 {
        return Ok(());
    }
    let class = class_for(tests, samples, hashes, Some(c))?;
    if class < 256 {
        by_answers[number as usize] = class as u8;
    }
    Ok(())
}

/// The class of each character of the blocks; 0 in the first block. The error is want of memory.
fn classes_of(alloc: Global, answers: &[u8], by_answers: &[u8; 256]) -> Result<Vec<u8>, AllocError>
    ensures { IfOk result (λ classes. AreClasses answers.now by_answers.now classes.items) }
{
    let mut classes = Vec::new(alloc);
    for i in 0..answers.len() {
        let class = if i < 64 {
            0
        } else {
            by_answers[answers[i] as usize]
        };
        classes.push(class)?;
    }
    Ok(classes)
}
