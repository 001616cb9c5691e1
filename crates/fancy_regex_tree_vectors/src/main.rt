//! Compares the results of the parser and the printer of patterns with a table of expected results, which it reads from
//! standard input. Each case that differs is printed with the actual result, and at the end how many cases agree. The exit
//! status is 0 if all agree, 1 if some differ, and 2 if they could not be compared. `make_cases.py` says what a line of the
//! table holds, and where the cases come from.
#![tactic(auto)]

use case::{case_of, plain};
use fault::TreeVectorsError;
use std::io;
use std::process::ExitCode;

mod answer;
mod case;
mod fault;

fn main(rt: HostRuntime) -> ExitCode {
    match compare_all(&rt) {
        Ok(true) => ExitCode::from(0),
        Ok(false) => ExitCode::from(1),
        Err(_) => ExitCode::from(2),
    }
}

/// Compares each case of the table and prints the totals. Returns whether all cases agree. Fails if a line is not a
/// case, if memory runs out, and if standard input or output fails.
fn compare_all(rt: &HostRuntime) -> Result<bool, TreeVectorsError> {
    let table = io::read_to_string(rt.alloc(), rt.stdin())?;
    let mut cases: usize = 0;
    let mut agreeing: usize = 0;
    for line in table.lines() {
        cases = cases.saturating_add(1);
        if compare(rt, line)? {
            agreeing = agreeing.saturating_add(1);
        }
    }
    if agreeing == cases {
        println!(rt; "{cases} cases agree")?;
    } else {
        println!(rt; "{agreeing} of {cases} cases agree")?;
    }
    Ok(agreeing == cases)
}

/// Whether the case of this line agrees. If not, prints it and the actual result.
fn compare(rt: &HostRuntime, line: &str) -> Result<bool, TreeVectorsError> {
    let Some(case) = case_of(line) else {
        return Err(TreeVectorsError::Table);
    };
    let pattern = plain(rt.alloc(), case.quoted)?;
    let found = answer::answer(rt.alloc(), case.flags, &pattern)?;
    if has_all(&found, case.wanted) {
        return Ok(true);
    }
    println!(rt; "{line}\nanswer: {found}")?;
    Ok(false)
}

/// Whether the answer has each of the expected fields.
fn has_all(answer: &str, wanted: &str) -> bool {
    for field in wanted.split('\t') {
        if !answer.split('\t').any(|found| found == field) {
            return false;
        }
    }
    true
}
