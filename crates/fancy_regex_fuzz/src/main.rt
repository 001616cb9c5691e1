//! A fuzzer of `fancy_regex`: makes patterns, texts, templates, options and inputs at random, runs the public calls on them and
//! checks what has to hold between their answers. The words are the seed and the number of cases, 1 and
//! 5,000 if they are not given. It stops at the first contradiction and prints the shortest pattern that it finds for it.
//! It tells how the cases ended, counted by the kind of their patterns. Counts in patterns are digits, and programs and searches are
//! limited, so a case takes little memory and time. Exit status: 0 without a contradiction, 1 with one, 2 if it
//! cannot run or runs out of memory.
#![tactic(auto)]

mod bytes;
mod case;
mod check;
mod continuing;
mod ending;
mod engines;
mod fault;
mod groups;
mod iteration;
mod layouts;
mod part;
mod pattern;
mod random;
mod refused;
mod replacing;
mod report;
mod searches;
mod sets;
mod setting;
mod shrink;
mod states;
mod tables;
mod text;
mod variants;

use case::Case;
use ending::{Ending, ending_of};
use fault::FuzzError;
use part::Part;
use pattern::{Kind, make_pattern};
use random::Random;
use report::{Report, print_contradiction};
use setting::Setting;
use shrink::shortest_pattern;
use std::env;
use std::process::ExitCode;
use text::{make_template, make_text};

/// The seed if none is given.
const SEED: u64 = 1;

/// The number of cases if none is given.
const COUNT: u64 = 5000;

fn main(rt: HostRuntime) -> ExitCode {
    match fuzz_as_asked(&rt) {
        Ok(true) => ExitCode::from(0),
        Ok(false) => ExitCode::from(1),
        Err(_) => ExitCode::from(2),
    }
}

/// Runs as many cases from the seed as the words say; whether all agree.
fn fuzz_as_asked(rt: &HostRuntime) -> Result<bool, FuzzError> {
    let seed = asked(rt, 1, SEED)?;
    let count = asked(rt, 2, COUNT)?;
    fuzz(rt, seed, count)
}

/// The number that the word at this index gives; `FuzzError::Words` if it is no number.
fn asked(rt: &HostRuntime, index: usize, otherwise: u64) -> Result<u64, FuzzError> {
    match env::args(rt)?.nth(index) {
        Some(word) => Ok(word.parse::<u64>()?),
        None => Ok(otherwise),
    }
}

/// Runs the cases and prints that they agree, and how they ended; whether all agree.
fn fuzz(rt: &HostRuntime, seed: u64, count: u64) -> Result<bool, FuzzError> {
    let mut random = Random::new(seed);
    let mut report = Report::new();
    for number in 0..count {
        let kind = Kind::of(number);
        if !runs_well(rt, &mut random, kind, &mut report)? {
            return Ok(false);
        }
    }
    report.print(rt)?;
    println!(rt; "{count} cases without a contradiction")?;
    Ok(true)
}

/// Makes a case and runs it; whether it agrees. A contradiction is printed, and want of memory is a fault.
fn runs_well(
    rt: &HostRuntime,
    random: &mut Random,
    kind: Kind,
    report: &mut Report,
) -> Result<bool, FuzzError> {
    let pattern = make_pattern(rt.alloc(), random, kind)?;
    let text = make_text(rt.alloc(), random, kind)?;
    let template = make_template(rt.alloc(), random)?;
    let case = Case {
        pattern: &pattern,
        text: &text,
        template: &template,
        setting: Setting::random(random, kind),
        part: Part::random(random),
    };
    let ending = ending_of(rt.alloc(), case);
    report.count(kind, ending);
    match ending {
        Ending::Contradicts(check) => {
            let shortest = shortest_pattern(rt.alloc(), case, check)?;
            let case = Case {
                pattern: &shortest,
                ..case
            };
            print_contradiction(rt, case, check)?;
            Ok(false)
        }
        Ending::Memory => Err(FuzzError::Memory),
        Ending::Refused | Ending::Limited | Ending::Agrees => Ok(true),
    }
}
