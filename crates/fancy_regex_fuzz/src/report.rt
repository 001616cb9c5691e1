//! What is printed: how the cases ended, counted by the kind of their patterns, and a contradiction.

use crate::case::Case;
use crate::check::Check;
use crate::ending::Ending;
use crate::fault::FuzzError;
use crate::pattern::Kind;

/// How the cases of a kind ended.
#[derive(Clone, Copy)]
struct Counts {
    refused: u64,
    limited: u64,
    agrees: u64,
}

impl Counts {
    fn new() -> Counts {
        Counts {
            refused: 0,
            limited: 0,
            agrees: 0,
        }
    }

    /// The counts with one more. Want of memory and a contradiction end the run, and are not counted.
    fn with(self, ending: Ending) -> Counts {
        match ending {
            Ending::Refused => Counts {
                refused: self.refused.saturating_add(1),
                ..self
            },
            Ending::Limited => Counts {
                limited: self.limited.saturating_add(1),
                ..self
            },
            Ending::Agrees => Counts {
                agrees: self.agrees.saturating_add(1),
                ..self
            },
            Ending::Memory | Ending::Contradicts(_) => self,
        }
    }

    fn print(self, rt: &HostRuntime, kind: &str) -> Result<(), FuzzError> {
        let Counts {
            refused,
            limited,
            agrees,
        } = self;
        println!(rt; "{kind}: {agrees} agree, {refused} refused, {limited} limited")?;
        Ok(())
    }
}

/// The counts of each kind.
#[derive(Drop)]
pub struct Report {
    plain: Counts,
    grammar: Counts,
    mutated: Counts,
    calls: Counts,
}

impl Report {
    /// No case so far.
    pub fn new() -> Report {
        Report {
            plain: Counts::new(),
            grammar: Counts::new(),
            mutated: Counts::new(),
            calls: Counts::new(),
        }
    }

    /// Counts a case.
    pub fn count(&mut self, kind: Kind, ending: Ending) {
        match kind {
            Kind::Plain => self.plain = self.plain.with(ending),
            Kind::Grammar => self.grammar = self.grammar.with(ending),
            Kind::Mutated => self.mutated = self.mutated.with(ending),
            Kind::Calls => self.calls = self.calls.with(ending),
        }
    }

    /// Prints a line for each kind.
    pub fn print(&self, rt: &HostRuntime) -> Result<(), FuzzError> {
        self.plain.print(rt, "plain")?;
        self.grammar.print(rt, "by grammar")?;
        self.mutated.print(rt, "mutated")?;
        self.calls.print(rt, "with calls")
    }
}

/// Prints a case and the check that does not hold.
pub fn print_contradiction(
    rt: &HostRuntime,
    case: Case<'_>,
    check: Check,
) -> Result<(), FuzzError> {
    println!(rt; "contradiction: {check:?}")?;
    println!(rt; "pattern: {:?}", case.pattern)?;
    println!(rt; "text: {:?}", case.text)?;
    println!(rt; "template: {:?}", case.template)?;
    println!(rt; "options: {:?}", case.setting)?;
    println!(rt; "part: {:?}", case.part)?;
    Ok(())
}
