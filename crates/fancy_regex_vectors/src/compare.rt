//! The answers to the questions of a line, beside those of the table.

use crate::answer::append_answer;
use crate::case::{Case, Question, Row, input_of, limit_of, limited_options, question_of, row_of};
use crate::fault::VectorsError;
use crate::quoted::plain;
use crate::totals::Totals;
use fancy_regex::{Error, Regex};
use std::alloc::Global;

/// The texts of a row, decoded.
#[derive(Drop)]
struct Texts {
    pattern: String,
    text: String,
    template: String,
}

/// Compares the answers to each question of this line. Fails with `VectorsError::Table` if the line is no case, if standard output fails,
/// or with `VectorsError::Memory`.
pub fn compare_line(rt: &HostRuntime, line: &str, totals: &mut Totals) -> Result<(), VectorsError> {
    let row = row_of(line)?;
    let texts = texts_of(rt.alloc(), row)?;
    compare_row(rt, row, &texts, totals)
}

/// Decodes the texts of a row.
fn texts_of(alloc: Global, row: Row<'_>) -> Result<Texts, VectorsError> {
    let pattern = plain(alloc, row.patterns)?;
    let text = plain(alloc, row.text)?;
    let template = plain(alloc, row.template)?;
    Ok(Texts {
        pattern,
        text,
        template,
    })
}

/// Compares the answers to the questions of a row, with the option `seek` and without; of a row with the letter `k` only with it, of
/// a row with `p` only without.
fn compare_row(
    rt: &HostRuntime,
    row: Row<'_>,
    texts: &Texts,
    totals: &mut Totals,
) -> Result<(), VectorsError> {
    let case = Case {
        row,
        pattern: &texts.pattern,
        text: &texts.text,
        template: &texts.template,
        options: limited_options(row)?,
        cap: limit_of(row, 'c')?,
        seek: false,
    };
    if !row.letters.contains('k') {
        compare_case(rt, &case, totals)?;
    }
    if !row.letters.contains('p') {
        compare_case(rt, &Case { seek: true, ..case }, totals)?;
    }
    Ok(())
}

/// Compares the answers to the questions of a case.
fn compare_case(
    rt: &HostRuntime,
    case: &Case<'_>,
    totals: &mut Totals,
) -> Result<(), VectorsError> {
    let pattern = String::from_str(rt.alloc(), case.pattern)?;
    let built = case.options_to_build().build(rt.alloc(), pattern);
    compare_questions(rt, case, &built, totals)
}

/// Compares the answers to the questions of a case, of which `built` is the regex or why there is none.
fn compare_questions(
    rt: &HostRuntime,
    case: &Case<'_>,
    built: &Result<Regex, Error>,
    totals: &mut Totals,
) -> Result<(), VectorsError> {
    for field in case.row.questions.split('\t') {
        let question = question_of(field)?;
        let agrees = compare_answer(rt, case, built, question)?;
        totals.count(question.place, agrees);
    }
    Ok(())
}

/// Whether the answer to this question is one that is allowed. If not, prints the case and the answer.
fn compare_answer(
    rt: &HostRuntime,
    case: &Case<'_>,
    built: &Result<Regex, Error>,
    question: Question<'_>,
) -> Result<bool, VectorsError> {
    let input = input_of(case)?;
    let mut found = String::new(rt.alloc());
    append_answer(rt.alloc(), &mut found, case, input, built, question)?;
    judge(rt, case.row, question, &found)
}

/// Whether this answer is one that is allowed. If not, prints the row, the question and the answer.
fn judge(
    rt: &HostRuntime,
    row: Row<'_>,
    question: Question<'_>,
    found: &str,
) -> Result<bool, VectorsError> {
    if allows(question.allowed, found) {
        return Ok(true);
    }
    println!(rt;
        "{} {}\t{}\t{}\t{}\t{}",
        row.letters, row.limits, row.patterns, row.text, row.input, row.template
    )?;
    println!(rt;
        "{} {}={}\nanswer: {found}",
        question.name, question.argument, question.allowed
    )?;
    Ok(false)
}

/// Whether the answer is one of those that are allowed, which have ` | ` between them.
fn allows(allowed: &str, found: &str) -> bool {
    for answer in allowed.split(" | ") {
        if answer == found {
            return true;
        }
    }
    false
}
