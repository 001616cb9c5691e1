//! How many answers of each call agree.

use crate::call::CALLS;
use crate::fault::VectorsError;

/// How often a call was asked, and how often its answer agreed.
#[derive(Clone, Copy)]
struct Total {
    asked: usize,
    agreeing: usize,
}

/// The totals of all calls, in the order of their table.
#[derive(Clone, Copy)]
pub struct Totals {
    /// One for each row of the table.
    calls: [Total; 36],
}

impl Totals {
    /// No call was asked.
    pub fn new() -> Totals {
        Totals {
            calls: [Total {
                asked: 0,
                agreeing: 0,
            }; 36],
        }
    }

    /// Counts an answer of the call at this place of the table.
    pub fn count(&mut self, place: usize, agrees: bool) {
        if let Some(total) = self.calls.get_mut(place) {
            total.asked = total.asked.saturating_add(1);
            total.agreeing = total.agreeing.saturating_add(usize::from(agrees));
        }
    }

    /// Prints a line for each call that was asked. Returns whether all answers agree.
    pub fn print(&self, rt: &HostRuntime) -> Result<bool, VectorsError> {
        let mut all_agree = true;
        for ((name, _call), total) in CALLS.iter().zip(self.calls.iter()) {
            if total.agreeing < total.asked {
                println!(rt; "{name}: {} of {} agree", total.agreeing, total.asked)?;
                all_agree = false;
            } else if total.asked > 0 {
                println!(rt; "{name}: {} agree", total.asked)?;
            }
        }
        Ok(all_agree)
    }
}
