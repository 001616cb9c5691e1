//! Parses the quantifiers after an atom.

ghost use Rattle.std.specs.Prelude.{◌≡◌, ◌≤◌, ◌+◌, ◌*◌, IfOk, chars, length};
ghost use Rattle.fancy_regex_text.specs.ParseFault.{Gives};
ghost use Rattle.fancy_regex_lex.specs.Quantifiers as counts;
ghost use Rattle.fancy_regex_tree.specs.Tree.{tree_of};
ghost use Rattle.fancy_regex_tree.specs.Views.{atom_of};
ghost use Rattle.fancy_regex_tree.specs.Bounds.{nodes, depth, IsWrapped};
ghost use Rattle.fancy_regex_tree.specs.Quantifiers.{loop_of, repeated, is_dropped, marked, apply_quantifier, full, parse_quantifiers};

use crate::expr::Expr;
use crate::parser_config::ParserConfig;
use crate::tree_builders::{is_empty_tree, is_repeatable};
use fancy_regex_lex::{
    Flags, ParseError, Quantifier, QuantifierSuffix, ReadError, fail_at, leading_quantifier,
    quantifier_suffix, skip,
};
use std::alloc::{AllocError, Global};

/// A parsed atom, before its quantifiers.
#[derive(Drop)]
pub struct Atom {
    /// Its node.
    pub tree: Expr,
    /// Whether it is a non-capturing group, `(?:..)` or `(?i:..)`, whose body stands for it in the tree.
    pub is_non_capturing_group: bool,
}

/// How many quantifiers may follow an atom.
pub fn most_quantifiers(oniguruma: bool) -> usize
    ensures most { result ≤ 5 }
    ensures value { result ≡ counts.most_quantifiers oniguruma }
{
    if oniguruma { 5 } else { 1 }
}

/// The repetition of a node by a quantifier with its suffix. In Oniguruma mode bounds in the wrong order are swapped, and the
/// repetition is atomic.
#[tactic(auto, unfolding(crate::specs::Quantifiers::repeated))]
fn repeated(
    alloc: Global,
    config: ParserConfig,
    flags: Flags,
    count: Quantifier,
    marks: QuantifierSuffix,
    child: Expr,
) -> Result<Expr, AllocError>
    ensures value { IfOk result (λ e. tree_of e ≡ repeated config flags count marks (tree_of child)) }
    ensures small { IfOk result (λ e. IsWrapped (tree_of child) (tree_of e)) }
{
    let reversed = config.oniguruma && count.hi < count.lo;
    let (lo, hi) = if reversed {
        (count.hi, count.lo)
    } else {
        (count.lo, count.hi)
    };
    let repeat = Expr::Repeat {
        child: Box::new(alloc, child)?,
        lo,
        hi,
        greedy: marks.lazy == flags.swap_greed,
    };
    if marks.possessive || reversed {
        return Ok(Expr::AtomicGroup(Box::new(alloc, repeat)?));
    }
    Ok(repeat)
}

/// Whether a quantifier on the atom is ignored: in Oniguruma mode, on an empty non-capturing group.
fn is_dropped(config: ParserConfig, atom: &Atom) -> bool
    ensures { result ≡ is_dropped config (atom_of atom.now) }
{
    config.oniguruma && atom.is_non_capturing_group && is_empty_tree(&atom.tree)
}

/// Parses the suffix of a quantifier at the front of `text`; answers the repetition and the rest.
#[tactic(auto, unfolding(crate::specs::Quantifiers::marked))]
fn marked(
    alloc: Global,
    config: ParserConfig,
    flags: Flags,
    count: Quantifier,
    tree: Expr,
    text: &str,
) -> Result<(Expr, &str), ReadError>
    ensures value { Gives (λ x. (tree_of x.0, chars x.1.now)) result (marked config flags count (tree_of tree) (chars text.now)) }
    ensures shorter { IfOk result (λ x. length (chars x.1.now) ≤ length (chars text.now)) }
    ensures small { IfOk result (λ x. IsWrapped (tree_of tree) (tree_of x.0)) }
{
    let (marks, rest) = quantifier_suffix(config.oniguruma, flags.verbose, count.braces, text)?;
    if is_repeatable(&tree) {
        let tree = repeated(alloc, config, flags, count, marks, tree)?;
        return Ok((tree, rest));
    }
    Ok((tree, rest))
}

/// Applies a quantifier, which begins at `here`, to an atom; `text` is what follows the quantifier without its suffix.
/// An atom that cannot be repeated is the error `TargetNotRepeatable` at `here`.
#[tactic(auto, unfolding(crate::specs::Quantifiers::apply_quantifier))]
fn apply_quantifier<'t>(
    alloc: Global,
    config: ParserConfig,
    flags: Flags,
    here: &str,
    count: Quantifier,
    atom: Atom,
    text: &'t str,
) -> Result<(Expr, &'t str), ReadError>
    ensures value { Gives (λ x. (tree_of x.0, chars x.1.now)) result
        (apply_quantifier config flags (chars here.now) count (atom_of atom) (chars text.now)) }
    ensures shorter { IfOk result (λ x. length (chars x.1.now) ≤ length (chars text.now)) }
    ensures small { IfOk result (λ x. IsWrapped (tree_of atom.tree) (tree_of x.0)) }
{
    if is_repeatable(&atom.tree) || is_dropped(config, &atom) {
        return marked(alloc, config, flags, count, atom.tree, text);
    }
    fail_at(ParseError::TargetNotRepeatable, here)
}

/// Ends the quantifiers of an atom. In Oniguruma mode a further quantifier is the error `RecursionExceeded`.
#[tactic(auto, unfolding(crate::specs::Quantifiers::full))]
fn full(
    config: ParserConfig,
    flags: Flags,
    here: &str,
    tree: Expr,
) -> Result<(Expr, &str), ReadError>
    ensures value { Gives (λ x. (tree_of x.0, chars x.1.now)) result (full config flags (chars here.now) (tree_of tree)) }
    ensures shorter { IfOk result (λ x. length (chars x.1.now) ≤ length (chars here.now)) }
    ensures same { IfOk result (λ x. tree_of x.0 ≡ tree_of tree) }
{
    if config.oniguruma && leading_quantifier(flags.verbose, here).is_some() {
        return fail_at(ParseError::RecursionExceeded, here);
    }
    Ok((tree, here))
}

/// Parses at most `more` quantifiers after an atom; answers the node under them and the rest of the text.
#[tactic(auto, unfolding(crate::specs::Quantifiers::parse_quantifiers))]
pub fn parse_quantifiers(
    alloc: Global,
    config: ParserConfig,
    flags: Flags,
    more: usize,
    atom: Atom,
    text: &str,
) -> Result<(Expr, &str), ReadError>
    ensures value { Gives (λ x. (tree_of x.0, chars x.1.now)) result (parse_quantifiers config flags more (atom_of atom) (chars text.now)) }
    ensures shorter { IfOk result (λ x. length (chars x.1.now) ≤ length (chars text.now)) }
    ensures small { IfOk result (λ x. nodes (tree_of x.0) + 2 * length (chars x.1.now)
        ≤ nodes (tree_of atom.tree) + 2 * length (chars text.now)) }
    ensures low { IfOk result (λ x. depth (tree_of x.0) ≤ depth (tree_of atom.tree) + 2 * more) }
{
    let here = skip(flags.verbose, text)?;
    if more == 0 {
        return full(config, flags, here, atom.tree);
    }
    let Some((count, after)) = leading_quantifier(flags.verbose, here) else {
        return Ok((atom.tree, here));
    };
    let is_non_capturing_group = atom.is_non_capturing_group;
    let (tree, rest) = apply_quantifier(alloc, config, flags, here, count, atom, after)?;
    let quantified_atom = Atom {
        tree,
        is_non_capturing_group,
    };
    parse_quantifiers(alloc, config, flags, more - 1, quantified_atom, rest)
}
