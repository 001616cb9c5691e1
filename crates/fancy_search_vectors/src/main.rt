//! Runs the program's `run` on the words and inputs of a table of cases, which it reads from standard input, and compares what it
//! writes and its exit status with those of the table. Each case that differs is printed with its answer, and at the end how many
//! cases agree. The exit status is 0 if all agree, 1 if some differ, and 2 if they could not be compared. `make_cases.py` says what
//! a line of the table holds, and where the cases come from.
#![tactic(auto)]

use case::{Case, case_of};
use fault::SearchVectorsError;
use std::io;
use std::process::ExitCode;

mod answer;
mod case;
mod fault;
mod quoted;

fn main(rt: HostRuntime) -> ExitCode {
    match compare_all(&rt) {
        Ok(true) => ExitCode::from(0),
        Ok(false) => ExitCode::from(1),
        Err(_) => ExitCode::from(2),
    }
}

/// Compares each case of the table and prints the totals. Returns whether all cases agree. Fails as `case_of` does, and if
/// standard input or output fails.
fn compare_all(rt: &HostRuntime) -> Result<bool, SearchVectorsError> {
    let table = io::read_to_string(rt.alloc(), rt.stdin())?;
    let mut cases: usize = 0;
    let mut agreeing: usize = 0;
    for line in table.lines() {
        cases = cases.saturating_add(1);
        if compare(rt, line)? {
            agreeing = agreeing.saturating_add(1);
        }
    }
    if agreeing == cases {
        println!(rt; "{cases} cases agree")?;
    } else {
        println!(rt; "{agreeing} of {cases} cases agree")?;
    }
    Ok(agreeing == cases)
}

/// Whether the case of this line agrees. If not, prints it and the actual answer.
fn compare(rt: &HostRuntime, line: &str) -> Result<bool, SearchVectorsError> {
    let case = case_of(line)?;
    let found = answer::answer(rt.alloc(), &case)?;
    if allows(&case, &found) {
        return Ok(true);
    }
    println!(rt; "{line}\nanswer: {found}")?;
    Ok(false)
}

/// Whether the answer is one of those that the case allows.
fn allows(case: &Case<'_>, found: &str) -> bool {
    case.allowed
        .split('\t')
        .any(|allowed| agrees(allowed, found))
}

/// Whether the answer is the one that is allowed. One that ends in `%` does not say what is written.
fn agrees(allowed: &str, found: &str) -> bool {
    match allowed.strip_suffix('%') {
        Some(status) => found.starts_with(status),
        None => found == allowed,
    }
}
