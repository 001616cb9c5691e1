//! Laws of printing: the printed text of a tree parses back to the normal form of that tree, which has the same matches. Laws only,
//! apart from one tree walk, `counts_fit`.
#![tactic(auto)]

mod counts;

ghost use Rattle.fancy_regex_meaning.specs.Ways.{Setting};
ghost use Rattle.fancy_regex_print_laws.specs.NormalFormLaws.{NormalFormKeepsGroups, NormalFormKeepsWays, NormalFormKeepsFirstMatch, NormalFormKeepsItems};
ghost use Rattle.fancy_regex_print_laws.specs.PrintedParts.{PartsReadBack, PartsKeepWays};
ghost use Rattle.fancy_regex_print_laws.specs.ReprintLaws.{TooDeepDoesNotParse, TooDeepIsRefused, GroupsAreNumbered, PrintedIsSamePattern, PrintedMeansTheSame, PrintedParses, PrintedReadsBack};

pub use counts::{counts_fit, printed_tree_parses};

/// The normal form of a tree has as many groups as the tree. Where the tree is printable and each of its classes reads back unchanged,
/// the normal form has the same ordered matches from each position, the same first match and the same items of each iteration.
pub fn normal_form_laws()
    ensures groups { NormalFormKeepsGroups }
    ensures ways { (s : Setting) → NormalFormKeepsWays s }
    ensures matches { (s : Setting) → NormalFormKeepsFirstMatch s }
    ensures items { (s : Setting) → NormalFormKeepsItems s }
{}

/// If fewer than 64 printed groups nest, the parser reads the printed text of a printable tree as its normal form. If 64 or more nest,
/// it fails with the recursion limit, at the first opening that is the 64th of those that nest.
pub fn printed_patterns_read_back()
    ensures form { PrintedReadsBack }
    ensures deep { TooDeepIsRefused }
{}

/// Where each class reads back unchanged too, the tree that is read has the same ordered matches from each position as the original, the
/// same first match and the same items of each iteration.
pub fn printed_patterns_mean_the_same()
    ensures { (s : Setting) → PrintedMeansTheSame s }
{}

/// The printed text of a printable tree reads back in its place at each precedence: as a whole pattern or the body of a group (0), as a
/// branch (1), as a piece of a concatenation (2), before a quantifier (3). What is read is the normal form. Where each class reads back
/// unchanged too, the normal form has the same ordered matches from each position as the original.
pub fn printed_parts_read_back()
    ensures forms { PartsReadBack }
    ensures ways { (s : Setting) → PartsKeepWays s }
{}

/// Where no reference is left to resolve and no group is ignored, each opening becomes a group, and they are numbered in the order of
/// their openings, on from the groups before them.
pub fn groups_are_numbered()
    ensures { GroupsAreNumbered }
{}

/// If fewer than 64 printed groups nest, the printed text of a printable tree parses as a whole pattern: its tree is the normal form, and
/// it has the groups of the original, without names. If 64 or more nest, parsing fails with the recursion limit at the byte position of
/// the first opening that is the 64th of those that nest.
pub fn printed_patterns_parse()
    ensures form { PrintedParses }
    ensures deep { TooDeepDoesNotParse }
{}

/// Where each class reads back unchanged too, that whole pattern has the same ordered matches from each position as the original, the
/// same first match and the same items of each iteration.
pub fn printed_patterns_are_the_same()
    ensures { (s : Setting) → PrintedIsSamePattern s }
{}
