//! The grammar of patterns, as relations between a text, the syntax tree at its beginning and the rest of the text. The laws say that the
//! parser returns exactly the tree or the error that the relations allow. Laws only: every function here has an empty body.
#![tactic(auto)]

ghost use Rattle.fancy_regex_grammar.specs.GrammarLaws.{BranchesAreExact, PatternFaultsAreInside, RestIsSuffix, PatternsAreExact, QuantifiersAreExact};
ghost use Rattle.fancy_regex_grammar.specs.Shapes.{ShapesAreExact};

/// The quantifiers after an atom are parsed, or fail, exactly as the grammar says.
pub fn quantifiers_are_exact()
    ensures { QuantifiersAreExact }
{}

/// The branches of an alternation are parsed exactly as the grammar of atoms, pieces and branches says, or fail at the first part
/// that fails.
pub fn branches_are_exact()
    ensures { BranchesAreExact }
{}

/// For each whole pattern the parser returns the tree or the error that the grammar gives; the grammar gives exactly one of the two.
pub fn patterns_are_exact()
    ensures { PatternsAreExact }
{}

/// The rest after branches is a suffix of the text. The position of a parse error is inside the pattern or at its end.
pub fn patterns_are_prefixes()
    ensures left { RestIsSuffix }
    ensures faults { PatternFaultsAreInside }
{}

/// The parser builds exactly the trees that the grammar gives for sequences of pieces, alternations, conditionals, absent operators,
/// anchors and escapes.
pub fn shapes_are_exact()
    ensures { ShapesAreExact }
{}
