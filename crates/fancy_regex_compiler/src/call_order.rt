//! The order in which groups are taken up, so that each comes after those that it calls.

use fancy_regex_info::Info;
use fancy_regex_tree::Expr;
use std::alloc::{AllocError, Global};

/// What is done next about a group.
#[derive(Clone, Copy)]
enum Visit {
    /// The groups that its body calls come before it.
    Enter(usize),
    /// It is its turn.
    Leave(usize),
}

/// The groups, each after those that its body calls where it is written, as far as they do not call each other in a circle. The error is
/// want of memory.
pub(crate) fn call_order<'i, 'e>(
    alloc: Global,
    groups: &Vec<&'i Info<'e>>,
) -> Result<Vec<usize>, AllocError> {
    let mut order = Vec::new(alloc);
    let mut is_entered = vec![in alloc; false; groups.len()]?;
    let mut visits = first_visits(alloc, groups.len())?;
    for _ in 0..usize::MAX {
        match visits.pop() {
            Some(Visit::Enter(group)) => {
                if group < groups.len() && group < is_entered.len() && !is_entered[group] {
                    is_entered[group] = true;
                    visits.push(Visit::Leave(group))?;
                    add_visits(groups[group], &mut visits)?;
                }
            }
            Some(Visit::Leave(group)) => order.push(group)?,
            None => return Ok(order),
        }
    }
    Ok(order)
}

/// Each of so many groups is entered. The error is want of memory.
fn first_visits(alloc: Global, count: usize) -> Result<Vec<Visit>, AllocError> {
    let mut visits = Vec::new(alloc);
    for group in 0..count {
        visits.push(Visit::Enter(group))?;
    }
    Ok(visits)
}

/// Enters the groups that the node calls: not those in definitions and in what is repeated no times, which are never written there. The
/// error is want of memory.
#[cycle(visits)]
fn add_visits(info: &Info<'_>, visits: &mut Vec<Visit>) -> Result<(), AllocError> {
    match info.expr {
        Expr::SubroutineCall(group) => visits.push(Visit::Enter(*group))?,
        Expr::DefineGroup { .. } => {}
        Expr::Repeat { lo, hi, .. } if *lo == 0 && *hi == 0 => {}
        _ => add_visits_of_all(&info.children, visits)?,
    }
    Ok(())
}

/// Enters the groups that the nodes call. The error is want of memory.
#[cycle(visits)]
fn add_visits_of_all(children: &[Info<'_>], visits: &mut Vec<Visit>) -> Result<(), AllocError> {
    for child in children {
        add_visits(child, visits)?;
    }
    Ok(())
}
