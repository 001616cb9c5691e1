//! Asks the public calls of the library what a table of cases asks, and compares their answers with those of the table, which it
//! reads from standard input. Each answer that differs is printed with its case, and at the end how many answers of each call
//! agree. The exit status is 0 if all agree, 1 if some differ, and 2 if they could not be compared. `make_cases.py` says what a
//! line of the table holds, and where the cases come from.
#![tactic(auto)]

use compare::compare_line;
use fault::VectorsError;
use std::io;
use std::process::ExitCode;
use totals::Totals;

mod analysis;
mod answer;
mod byte_sets;
mod call;
mod case;
mod compare;
mod fault;
mod groups;
mod layout;
mod patterns;
mod quoted;
mod sets;
mod spans;
mod texts;
mod totals;

fn main(rt: HostRuntime) -> ExitCode {
    match compare_all(&rt) {
        Ok(true) => ExitCode::from(0),
        Ok(false) => ExitCode::from(1),
        Err(_) => ExitCode::from(2),
    }
}

/// Compares each case of the table and prints the totals. Returns whether all answers agree. Fails as `compare_line` does, and if
/// standard input or output fails.
fn compare_all(rt: &HostRuntime) -> Result<bool, VectorsError> {
    let table = io::read_to_string(rt.alloc(), rt.stdin())?;
    compare_table(rt, &table)
}

/// Compares each case of a table and prints the totals.
fn compare_table(rt: &HostRuntime, table: &str) -> Result<bool, VectorsError> {
    let mut totals = Totals::new();
    for line in table.lines() {
        compare_line(rt, line, &mut totals)?;
    }
    totals.print(rt)
}
