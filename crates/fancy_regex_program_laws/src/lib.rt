//! Correctness of compiled programs: a run of a pattern's program returns the match of the pattern's search. A law only, without code.
#![tactic(auto)]

ghost use Rattle.fancy_regex_program_laws.specs.KeptLaws.{KeptProgramsAnswerSearches};
ghost use Rattle.fancy_regex_program_laws.specs.LayoutLaws.{LayoutsRunAlike};
ghost use Rattle.fancy_regex_program_laws.specs.ProgramLaws.{ProgramsAnswerSearches};

/// The reference machine, which copies all slots at each branch, ends each run of a pattern's program after finitely many steps. It
/// returns the preferred (or longest) match from the first start position that has one, with the spans of all groups. It backtracks
/// at most as often as the search has choices, and its stack of pending branches never holds more than that many.
pub fn program_law()
    ensures { ProgramsAnswerSearches }
{}

/// The same of a program in which calls stay calls: the body of each called group stands in it. Its runs return what the
/// program with its calls written out returns, within the same bounds.
pub fn kept_program_law()
    ensures { KeptProgramsAnswerSearches }
{}

/// The two programs of a pattern, with its calls written out and with calls that stay calls, run alike: where one run ends, so does
/// the other, with the same match, after as many backtracks and with as many branches open at most. Limits on them are passed by
/// both or by none. Numbers of steps differ.
pub fn layout_law()
    ensures { LayoutsRunAlike }
{}
