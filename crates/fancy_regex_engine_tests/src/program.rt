//! What programs are made of, and ranges of groups.

use crate::compiled::{Text, program};
use fancy_regex_compiled::Prog;
use fancy_regex_info::CompileOptions;
use fancy_regex_program::{CaptureGroupRange, Insn};
use std::alloc::Global;

/// An instruction.
enum Step {
    Lit(Text),
    /// A part that is delegated, by its pattern. It has no capture group.
    Part(Text),
    Save(usize),
    Restore(usize),
    End,
}

/// A feature that a program has.
enum ProgramFeature {
    /// So many parts that are delegated.
    Parts(usize),
    /// Whether the end of the pattern is delegated.
    Tail(bool),
    /// So many slots.
    Slots(usize),
    /// Instructions for runs that answer only the span of a match.
    SpanCode,
    /// These instructions, where it is anchored and has no group for the whole match.
    Steps(&'static [Step]),
}

/// A pattern, and what its program has.
struct Compiled(Text, ProgramFeature);

static PROGRAMS: [Compiled; 28] = [
    Compiled("(?>(?:a?){3}b)", ProgramFeature::Parts(1)),
    Compiled("(?!(?:a?){3}b)c", ProgramFeature::Parts(1)),
    Compiled("(?((?:a?){3}b)c|d)", ProgramFeature::Parts(1)),
    Compiled("(?=(?:a?){3}b)a", ProgramFeature::Parts(1)),
    // one choice at the end, where only counts whether the body matches
    Compiled("(?=ab*)c", ProgramFeature::Parts(1)),
    Compiled("(?!a|b)c", ProgramFeature::Parts(1)),
    Compiled("(?=a*b)a", ProgramFeature::Parts(0)),
    Compiled("(?=a(?:b*c))a", ProgramFeature::Parts(0)),
    // the same body of two uses
    Compiled("(?=(?:a|b)*)(?>(?:a|b)*)", ProgramFeature::Parts(2)),
    // too few choices, a capture group, a hard node, a body that is read backwards
    Compiled("(?>a*)b", ProgramFeature::Parts(0)),
    Compiled("(?>(a?){3}b)", ProgramFeature::Parts(0)),
    Compiled("(?=(a?){3})b", ProgramFeature::Parts(0)),
    Compiled("(?<=a|b)e", ProgramFeature::Parts(0)),
    Compiled("(?>(?:a?){3}\\Gb)", ProgramFeature::Parts(0)),
    Compiled("(?<!(?:a|b)(?:c|d))e", ProgramFeature::Parts(0)),
    // the end of the pattern
    Compiled("(?<=x)a?(?:b?c)*d", ProgramFeature::Tail(true)),
    Compiled("(?:a|b){2}c", ProgramFeature::Tail(true)),
    Compiled("(?<=x)(?:a|ab){1,2}(?:c|bcd)?", ProgramFeature::Tail(true)),
    Compiled("(?:a??){2}b??", ProgramFeature::Tail(true)),
    // no choices in a repetition, a group in the last part, no row
    Compiled("(?<=x)(?:a|b)c*d*", ProgramFeature::Tail(false)),
    Compiled("(?:a|b)*(c)", ProgramFeature::Tail(false)),
    Compiled("(?:a|b)*", ProgramFeature::Tail(false)),
    Compiled("(a|b)\\g<1>", ProgramFeature::Slots(5)),
    Compiled("(?:(?:ab){2,3}){4,5}", ProgramFeature::Slots(4)),
    Compiled("((\\w)\\2)(\\w)", ProgramFeature::SpanCode),
    Compiled("(?:(a)|(b))+(?!c)", ProgramFeature::SpanCode),
    // a literal is one instruction, and so is the body of a look-ahead
    Compiled("abc", ProgramFeature::Steps(&[Step::Lit("abc"), Step::End])),
    Compiled(
        "(?=ab*)c",
        ProgramFeature::Steps(&[
            Step::Save(0),
            Step::Part("ab*"),
            Step::Restore(0),
            Step::Lit("c"),
            Step::End,
        ]),
    ),
];

/// Whether the instruction is this one.
fn is_step(insn: &Insn, step: &Step) -> bool {
    match (insn, step) {
        (Insn::Lit(text), Step::Lit(wanted)) => text.as_str() == *wanted,
        (Insn::Delegate(part), Step::Part(wanted)) => {
            part.pattern() == *wanted && part.capture_groups().to_option_if_non_empty().is_none()
        }
        (Insn::Save(slot), Step::Save(wanted)) => slot == wanted,
        (Insn::Restore(slot), Step::Restore(wanted)) => slot == wanted,
        (Insn::End, Step::End) => true,
        _ => false,
    }
}

/// Whether the program has what is wanted.
fn has(prog: &Prog, wanted: &ProgramFeature) -> bool {
    let mut body = prog.body().iter();
    match wanted {
        ProgramFeature::Parts(count) => {
            body.filter(|insn| matches!(**insn, Insn::Delegate(_)))
                .count()
                == *count
        }
        ProgramFeature::Tail(is_there) => {
            body.any(|insn| matches!(*insn, Insn::DelegateTail { .. })) == *is_there
        }
        ProgramFeature::Slots(count) => prog.slots() == *count,
        ProgramFeature::SpanCode => prog.spans().is_some(),
        ProgramFeature::Steps(steps) => {
            prog.body().len() == steps.len()
                && body
                    .zip(steps.iter())
                    .all(|(insn, step)| is_step(insn, step))
        }
    }
}

/// Whether the program of a row has what is wanted.
fn holds(alloc: Global, row: &Compiled) -> bool {
    let is_bare = matches!(row.1, ProgramFeature::Steps(_));
    let options = CompileOptions {
        anchored: is_bare,
        ..CompileOptions::default()
    };
    match program(alloc, row.0, is_bare, &options) {
        Some(prog) => has(&prog, &row.1),
        None => false,
    }
}

#[test]
fn programs_have_what_is_wanted(rt: HostRuntime) {
    let wrong = PROGRAMS.iter().position(|row| !holds(rt.alloc(), row));
    assert_eq!(rt; wrong, None);
}

#[test]
fn ranges_of_groups(rt: HostRuntime) {
    let range = CaptureGroupRange(1, 3);
    assert!(rt; range.start() == 1 && range.end() == 3);
    assert!(rt; range.to_option_if_non_empty() == Some(range));
    assert!(rt; CaptureGroupRange(2, 2).to_option_if_non_empty().is_none());
}
