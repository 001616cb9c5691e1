//! Worked examples of parsing and printing, each computed from the definitions of `fancy_regex_tree`. There is no code here.
//!
//! Each function has a record of equations as its contract: pattern texts with their trees or errors, or trees with their texts.
#![tactic(auto)]

ghost use Rattle.fancy_regex_tree_examples.specs.ErrorExamples.{ErrorExamples};
ghost use Rattle.fancy_regex_tree_examples.specs.AtomExamples.{AtomExamples};
ghost use Rattle.fancy_regex_tree_examples.specs.QuantifierExamples.{QuantifierExamples};
ghost use Rattle.fancy_regex_tree_examples.specs.GroupExamples.{GroupExamples};
ghost use Rattle.fancy_regex_tree_examples.specs.ReferenceExamples.{ReferenceExamples};
ghost use Rattle.fancy_regex_tree_examples.specs.NameExamples.{NameExamples};
ghost use Rattle.fancy_regex_tree_examples.specs.ReferenceSummaryExamples.{ReferenceSummaryExamples};
ghost use Rattle.fancy_regex_tree_examples.specs.PrintingExamples.{PrintingExamples};

/// Small patterns with an error, and the byte offsets of the errors.
pub fn error_examples()
    ensures { ErrorExamples }
{}

/// Characters, dots, anchors and alternations.
pub fn atom_examples()
    ensures { AtomExamples }
{}

/// Quantifiers, their suffixes and their errors.
pub fn quantifier_examples()
    ensures { QuantifierExamples }
{}

/// Groups, look-around, conditionals, absent operators and control verbs.
pub fn group_examples()
    ensures { GroupExamples }
{}

/// Resolved references and group numbers.
pub fn reference_examples()
    ensures { ReferenceExamples }
{}

/// Group names outside ASCII, and longer patterns.
pub fn name_examples()
    ensures { NameExamples }
{}

/// The summary of a parsed pattern: groups, back references, calls.
pub fn reference_summary_examples()
    ensures { ReferenceSummaryExamples }
{}

/// Printed texts of trees, and trees that are not printable.
pub fn printing_examples()
    ensures { PrintingExamples }
{}
