//! The answer to a question, as a text.

use crate::analysis::append_analysis;
use crate::call::LibraryCall;
use crate::case::{Case, Question};
use crate::groups::append_groups_call;
use crate::patterns::{append_pattern_call, append_reprinted_answers};
use crate::quoted::put_error;
use crate::sets::append_set;
use crate::spans::append_span_call;
use crate::texts::append_text_call;
use fancy_regex::{Error, Regex, RegexInput};
use std::alloc::{AllocError, Global};

/// Appends the answer to a question; if the call fails, the text of its error. `input` is the input of the case, and `built` its
/// regex or why there is none.
pub fn append_answer(
    alloc: Global,
    out: &mut String,
    case: &Case<'_>,
    input: RegexInput<&str>,
    built: &Result<Regex, Error>,
    question: Question<'_>,
) -> Result<(), AllocError> {
    match question.call {
        LibraryCall::Pattern(call) => append_pattern_call(alloc, out, case, call),
        LibraryCall::Analysis(call) => append_analysis(alloc, out, case, call),
        LibraryCall::Set => append_set(alloc, out, case, input),
        _ => match built {
            Ok(regex) => append_searched(alloc, out, case, input, regex, question),
            Err(error) => put_error(alloc, out, error),
        },
    }
}

/// Appends the answer of a call on a regex; `built` for a call that only builds it.
fn append_searched(
    alloc: Global,
    out: &mut String,
    case: &Case<'_>,
    input: RegexInput<&str>,
    regex: &Regex,
    question: Question<'_>,
) -> Result<(), AllocError> {
    match question.call {
        LibraryCall::Span(call) => append_span_call(alloc, out, case, input, regex, question, call),
        LibraryCall::Group(call) => append_groups_call(
            alloc, out, case, input, regex, question, call,
        ),
        LibraryCall::Text(call) => append_text_call(alloc, out, case, regex, question, call),
        LibraryCall::Reprinted => append_reprinted_answers(alloc, out, case, regex),
        _ => out.push_str("built"),
    }
}
