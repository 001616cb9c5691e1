//! Desugaring: the small core language that programs are compiled from, and the translation of syntax trees to it. Subroutine calls are
//! inlined, and a look-behind becomes a step back by a fixed number of characters. Definitions and laws only.
#![tactic(auto)]

ghost use Rattle.fancy_regex_desugar.specs.DesugarLaws.{UnfoldedKeepsWays, UnfoldedKeepsChoices, PatternKeepsMatches, PatternKeepsChoices, UnfoldedSizeIsBounded, UnfoldedStepsBackOnlyFirst, PatternSizeIsBounded, PatternStepsBackOnlyFirst, PatternGroupsAreInRange};

/// For a part of a pattern, desugared forwards or for look-behind: it has the same ordered matches as its tree, where only repeated ones
/// may be left out, at most as many choices, at most 16 instructions for each node of the tree, and steps back only at the beginning of a
/// look-around.
pub fn unfolding_laws()
    ensures ways { UnfoldedKeepsWays }
    ensures choices { UnfoldedKeepsChoices }
    ensures room { UnfoldedSizeIsBounded }
    ensures placed { UnfoldedStepsBackOnlyFirst }
{}

/// For a whole pattern, desugared: each search reports the same match of it as of its tree. It has at most as many choices as its tree, at
/// most 16 instructions for each node of the tree, steps back only at the beginning of a look-around, and has no groups but those of the
/// pattern.
pub fn desugar_laws()
    ensures matches { PatternKeepsMatches }
    ensures choices { PatternKeepsChoices }
    ensures room { PatternSizeIsBounded }
    ensures placed { PatternStepsBackOnlyFirst }
    ensures groups { PatternGroupsAreInRange }
{}
