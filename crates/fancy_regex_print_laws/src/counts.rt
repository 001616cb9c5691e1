//! The laws of reprinting for a tree in memory, whose quantifier bounds fit `usize`.

ghost use Rattle.std.specs.Prelude.{map};
ghost use Rattle.fancy_regex_tree.specs.Tree.{tree_of, trees};
ghost use Rattle.fancy_regex_meaning.specs.Ways.{Setting};
ghost use Rattle.fancy_regex_print_laws.specs.PrintedParts.{TreePartsReadBack};
ghost use Rattle.fancy_regex_print_laws.specs.ReprintLaws.{AllCountsFit, CountsFit, TreeIsNestedTooDeep, TreeIsSamePattern, TreeParses};

use fancy_regex_tree::Expr;

/// Walks the tree, to show that the upper bound of each quantifier fits `usize`, whose largest value means unbounded.
#[cycle(counts_fit)]
#[tactic(auto, unfolding(crate::specs::ReprintLaws::CountsFit))]
pub fn counts_fit(expr: &Expr)
    ensures { CountsFit (tree_of expr.now) }
{
    match expr {
        Expr::Concat(children) => all_counts_fit(children),
        Expr::Alt(children) => all_counts_fit(children),
        Expr::Group(child) => counts_fit(child),
        Expr::Repeat { child, hi, .. } => {
            let _hi = *hi;
            counts_fit(child)
        }
        _ => (),
    }
}

/// Does `counts_fit` for each of the children.
#[cycle(counts_fit)]
fn all_counts_fit(children: &[Expr])
    ensures { AllCountsFit (trees (map tree_of children.now)) }
{
    for i in 0..children.len() {
        counts_fit(&children[i]);
    }
}

/// The laws of `printed_patterns_parse`, `printed_patterns_are_the_same` and `printed_parts_read_back` for a tree in memory, without a
/// condition on its quantifier bounds: what the text that `Expr::to_str` appends at a precedence reads back as, in its place.
pub fn printed_tree_parses(expr: &Expr)
    ensures parses { TreeParses (tree_of expr.now) }
    ensures deep { TreeIsNestedTooDeep (tree_of expr.now) }
    ensures same { (s : Setting) → TreeIsSamePattern s (tree_of expr.now) }
    ensures places { TreePartsReadBack (tree_of expr.now) }
{
    counts_fit(expr);
}
