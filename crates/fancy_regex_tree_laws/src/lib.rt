//! Laws of parsed trees: bounds on their size, depth and weight, positions of parse errors, what nodes there are, group numbers, and
//! the groups that references refer to. Laws only: every function here has an empty body, and its `ensures` clauses state the law.
#![tactic(auto)]

ghost use Rattle.fancy_regex_tree_laws.specs.ParseBounds.{ParseErrorsAreInside, PositionsAreInside, TreesAreBounded};
ghost use Rattle.fancy_regex_tree_laws.specs.ParsedNodes.{NodesAreParsed};
ghost use Rattle.fancy_regex_tree_laws.specs.References.{CountedLaw, LastNamedLaw, NumbersLaw, RelativeLaw};
ghost use Rattle.fancy_regex_tree_laws.specs.ResolvedGroups.{GroupsLaw, ParsedLaw, ResolvedLaw};
ghost use Rattle.fancy_regex_tree_laws.specs.WeightBounds.{WeightsAreBounded};

/// A pattern of n bytes parses to a tree of at most 2n + 1 nodes and of depth at most 832. The byte position of a parse error is at
/// most n, and so are the byte positions of the groups, references, calls and conditions in the tree before references are resolved.
pub fn parse_bounds()
    ensures trees { TreesAreBounded }
    ensures faults { ParseErrorsAreInside }
    ensures positions { PositionsAreInside }
{}

/// In a parsed tree each alternation has a branch, and each literal is one character.
pub fn node_law()
    ensures { NodesAreParsed }
{}

/// How capture groups are numbered, which groups have a number, and which group a name, a number or a signed number refers to.
pub fn reference_laws()
    ensures counted { CountedLaw }
    ensures numbers { NumbersLaw }
    ensures last { LastNamedLaw }
    ensures relative { RelativeLaw }
    ensures groups { GroupsLaw }
    ensures resolved { ResolvedLaw }
    ensures parsed { ParsedLaw }
{}

/// The tree of a pattern of n bytes has weight at most 4(n + 1), if its only quantifiers are `?`, `*` and `+` (greedy or lazy) and no
/// unbounded quantifier applies to an expression that can match the empty string.
pub fn weight_bound()
    ensures { WeightsAreBounded }
{}
