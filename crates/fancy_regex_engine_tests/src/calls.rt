//! Programs that call the body of a group. They are written by hand.

use crate::compiled::Text;
use fancy_regex_class::{RunInput, Span};
use fancy_regex_compiled::Prog;
use fancy_regex_info::CompileOptions;
use fancy_regex_machine::{RunOptions, RuntimeError, run_spans};
use fancy_regex_program::{Callee, Insn, Repeat, is_valid_program};
use std::alloc::{AllocError, Global};
use std::sync::Arc;

/// An instruction. There is one group that is called.
#[derive(Clone, Copy)]
enum Step {
    Lit(Text),
    Split(usize, usize),
    Jmp(usize),
    /// The head of a greedy repeat of two iterations, counted by the group's own slot. After it comes this instruction.
    Twice(usize),
    BeginTwice,
    Call,
    Return,
    Save(usize),
    End,
}

/// The instruction with which the body of the group begins, and the instructions of the program.
#[derive(Clone, Copy)]
struct Calling(usize, &'static [Step]);

/// How many slots the programs have.
const SLOTS: usize = 42;

/// The group whose body begins with this instruction. It has one slot of its own.
fn group(start: usize) -> Callee {
    Callee {
        start,
        count: 2,
        most: 19,
        frames: 4,
        first: 3,
        own: 1,
    }
}

/// `(?<e>\(\g<e>?\))`
const BRACKETS: Calling = Calling(
    4,
    &[
        Step::Save(0),
        Step::Call,
        Step::Save(1),
        Step::End,
        Step::Lit("("),
        Step::Split(6, 7),
        Step::Call,
        Step::Lit(")"),
        Step::Return,
        Step::End,
    ],
);

/// `(?<e><(?:a\g<e>?){2}>)`, of which the count of each call is a slot of its own
const PAIRS: Calling = Calling(
    4,
    &[
        Step::Save(0),
        Step::Call,
        Step::Save(1),
        Step::End,
        Step::Lit("<"),
        Step::BeginTwice,
        Step::Twice(11),
        Step::Lit("a"),
        Step::Split(9, 10),
        Step::Call,
        Step::Jmp(6),
        Step::Lit(">"),
        Step::Return,
        Step::End,
    ],
);

/// `(?<e>a|ab){0}\g<e>-\g<e>c`
const CHOICES: Calling = Calling(
    7,
    &[
        Step::Save(0),
        Step::Call,
        Step::Lit("-"),
        Step::Call,
        Step::Lit("c"),
        Step::Save(1),
        Step::End,
        Step::Split(8, 10),
        Step::Lit("a"),
        Step::Jmp(11),
        Step::Lit("ab"),
        Step::Return,
        Step::End,
    ],
);

/// A program, a text, the limit of backtracks, and the span of the match.
struct Search(
    Calling,
    Text,
    usize,
    Result<Option<(usize, usize)>, RuntimeError>,
);

static SEARCHES: [Search; 14] = [
    Search(BRACKETS, "()", 10, Ok(Some((0, 2)))),
    Search(BRACKETS, "((()))", 10, Ok(Some((0, 6)))),
    Search(BRACKETS, "((())", 10, Ok(None)),
    // nineteen calls may be open
    Search(
        BRACKETS,
        "((((((((((((((((((()))))))))))))))))))",
        1,
        Ok(Some((0, 38))),
    ),
    // the twentieth call fails, and so do the other choices of the nineteen that are open: as many backtracks
    Search(
        BRACKETS,
        "(((((((((((((((((((())))))))))))))))))))",
        19,
        Ok(None),
    ),
    Search(
        BRACKETS,
        "(((((((((((((((((((())))))))))))))))))))",
        18,
        Err(RuntimeError::BacktrackLimitExceeded),
    ),
    // each call counts its own iterations
    Search(PAIRS, "<aa>", 10, Ok(Some((0, 4)))),
    Search(PAIRS, "<a<aa>a>", 10, Ok(Some((0, 8)))),
    Search(PAIRS, "<a<aa<aa>>a<a<aa>a>>", 20, Ok(Some((0, 20)))),
    Search(PAIRS, "<a<aa>>", 20, Ok(None)),
    Search(PAIRS, "<a<aa>aa>", 20, Ok(None)),
    // a call is gone into again, and comes back to where it did
    Search(CHOICES, "a-ac", 2, Ok(Some((0, 4)))),
    Search(CHOICES, "ab-abc", 2, Ok(Some((0, 6)))),
    Search(CHOICES, "ab-a-c", 4, Ok(None)),
];

/// The instruction of a step.
fn insn(alloc: Global, step: Step, callee: &Arc<Callee>) -> Result<Insn, AllocError> {
    match step {
        Step::Lit(text) => Ok(Insn::Lit(Arc::new(alloc, String::from_str(alloc, text)?)?)),
        Step::Split(first, second) => Ok(Insn::Split(first, second)),
        Step::Jmp(to) => Ok(Insn::Jmp(to)),
        Step::Twice(next) => Ok(Insn::RepeatGr(Box::new(
            alloc,
            Repeat {
                lo: 2,
                hi: 2,
                next,
                repeat: callee.first,
            },
        )?)),
        Step::BeginTwice => Ok(Insn::BeginRepeat(callee.first)),
        Step::Call => Ok(Insn::Call(callee.clone()?)),
        Step::Return => Ok(Insn::Return(callee.clone()?)),
        Step::Save(slot) => Ok(Insn::Save(slot)),
        Step::End => Ok(Insn::End),
    }
}

/// The instructions of a program.
fn insns(alloc: Global, calling: Calling) -> Result<Vec<Insn>, AllocError> {
    let callee = Arc::new(alloc, group(calling.0))?;
    let mut body = Vec::new(alloc);
    for step in calling.1.iter() {
        body.push(insn(alloc, *step, &callee)?)?;
    }
    Ok(body)
}

/// The program; `None` if it is not valid, or memory runs out.
fn program(alloc: Global, calling: Calling) -> Option<Prog> {
    let body = insns(alloc, calling).ok()?;
    if !is_valid_program(&body, SLOTS) {
        return None;
    }
    let options = CompileOptions {
        anchored: true,
        ..CompileOptions::default()
    };
    Prog::new(alloc, body, 1, SLOTS, true, &options).ok()
}

/// Whether a search has the wanted answer.
fn holds(alloc: Global, row: &Search) -> bool {
    let Some(prog) = program(alloc, row.0) else {
        return false;
    };
    if !prog.has_whole() {
        return false;
    }
    let input = RunInput {
        first: 0,
        continue_at: Some(0),
        range: Span {
            start: 0,
            end: row.1.len(),
        },
        anchored: false,
        no_start_text: false,
        no_end_text: false,
    };
    let options = RunOptions {
        backtrack_limit: row.2,
        find_not_empty: false,
        seek: None,
    };
    run_spans(alloc, &prog, row.1, &input, &options) == row.3
}

#[test]
fn calls_come_back(rt: HostRuntime) {
    let wrong = SEARCHES.iter().position(|row| !holds(rt.alloc(), row));
    assert_eq!(rt; wrong, None);
}

#[test]
fn a_program_has_the_slots_of_its_calls(rt: HostRuntime) {
    let alloc = rt.alloc();
    let Ok(body) = insns(alloc, BRACKETS) else {
        return;
    };
    assert!(rt; is_valid_program(&body, SLOTS));
    assert!(rt; !is_valid_program(&body, SLOTS - 1));
}
