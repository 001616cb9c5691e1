//! The law that joins the parser and the analysis: which parsed trees are well-formed. Laws only: every function here has an empty
//! body, and its `ensures` clauses state the law.
#![tactic(auto)]

ghost use Rattle.fancy_regex_analysis_laws.specs.WellFormedTrees.{ParsedTreesAreWellFormed};

/// A tree that `parse_tree_with_flags` returns, with its summary of groups, calls and references, is one that `is_well_formed`
/// accepts, exactly if no quantifier in it has a lower bound above its upper bound.
pub fn well_formed_law()
    ensures { ParsedTreesAreWellFormed }
{}
