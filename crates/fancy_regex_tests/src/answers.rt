//! What regexes answer to calls that a table of cases cannot ask, each by a function that tells whether the answer is right.

use crate::calls::stays_at_the_item;
use crate::replacement::{
    OF_A, OF_ANY_A, asks_once, borrows, calls_for_the_replaced, counts, stops, swaps,
};
use crate::templates::{takes_cows, takes_strings, tells_what_failed, writes};
use fancy_regex::Regex;
use std::alloc::Global;

/// What is asked of a regex.
#[derive(Clone, Copy)]
enum Question {
    AsksOnce,
    AsksOnceOfAny,
    Borrows,
    CallsForTheReplaced,
    CallsForAnyReplaced,
    Counts,
    StaysAtTheItem,
    Stops,
    Swaps,
    TakesCows,
    TakesStrings,
    TellsWhatFailed,
    Writes,
}

/// Patterns, and what is asked of their regexes.
static QUESTIONS: [(&str, Question); 13] = [
    ("a", Question::AsksOnce),
    ("a*", Question::AsksOnceOfAny),
    ("x", Question::Borrows),
    ("a", Question::CallsForTheReplaced),
    ("a*", Question::CallsForAnyReplaced),
    ("a", Question::Counts),
    ("a", Question::StaysAtTheItem),
    ("a", Question::Stops),
    ("([^,\\s]+),\\s+(\\S+)", Question::Swaps),
    ("(b)", Question::TakesCows),
    ("(b)", Question::TakesStrings),
    ("(a)()|(b)", Question::TellsWhatFailed),
    ("(a)()|(b)", Question::Writes),
];

/// Whether the regex of a pattern answers rightly.
fn is_right(alloc: Global, pattern: &str, question: Question) -> bool {
    match Regex::new(alloc, pattern) {
        Ok(regex) => is_answered(alloc, &regex, question),
        Err(_error) => false,
    }
}

/// Whether a regex answers what is asked.
fn is_answered(alloc: Global, regex: &Regex, question: Question) -> bool {
    match question {
        Question::AsksOnce => asks_once(alloc, regex, OF_A.as_slice()),
        Question::AsksOnceOfAny => asks_once(alloc, regex, OF_ANY_A.as_slice()),
        Question::Borrows => borrows(alloc, regex),
        Question::CallsForTheReplaced => calls_for_the_replaced(alloc, regex, OF_A.as_slice()),
        Question::CallsForAnyReplaced => {
            calls_for_the_replaced(alloc, regex, OF_ANY_A.as_slice())
        }
        Question::Counts => counts(alloc, regex),
        Question::StaysAtTheItem => stays_at_the_item(alloc, regex),
        Question::Stops => stops(alloc, regex),
        Question::Swaps => swaps(alloc, regex),
        Question::TakesCows => takes_cows(alloc, regex),
        Question::TakesStrings => takes_strings(alloc, regex),
        Question::TellsWhatFailed => tells_what_failed(alloc, regex),
        Question::Writes => writes(alloc, regex),
    }
}

#[test]
fn regexes_answer_rightly(rt: HostRuntime) {
    for (pattern, question) in QUESTIONS.iter() {
        assert!(rt; is_right(rt.alloc(), pattern, *question), "{pattern}");
    }
}
