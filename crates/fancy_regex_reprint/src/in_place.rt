//! `print_in_place`: a tree printed at a precedence, with what its text reads back as there.

ghost use Rattle.std.specs.Prelude.{◌≡◌, ◌++◌, ℕ, Bool, true, IsTrue, OnOk, OnErr, chars, string_bytes};
ghost use Rattle.fancy_regex_tree.specs.Tree.{tree_of};
ghost use Rattle.fancy_regex_tree.specs.Printed.{printed};
ghost use Rattle.fancy_regex_tree.specs.Printable.{is_printable};
ghost use Rattle.fancy_regex_meaning.specs.Ways.{Setting};
ghost use Rattle.fancy_regex_print_laws.specs.PrintedParts.{ReadsInPlace, KeepsWays};

use fancy_regex_print_laws::{printed_parts_read_back, printed_tree_parses};
use fancy_regex_tree::Expr;
use std::alloc::AllocError;

/// Appends the printed text of a printable tree, as `Expr::to_str` does, with one more promise: in the place that the precedence names,
/// the text reads back as the normal form of the tree, and where each character class reads back unchanged, the normal form has the
/// same ordered matches from each position as the tree.
///
/// `precedence` is 0 for a whole pattern or the body of a group, 1 for a branch, 2 for a piece of a concatenation, 3 for an
/// expression with a quantifier after it. Fails only if an allocation fails; the buffer is then unchanged.
pub fn print_in_place(expr: &Expr, buf: &mut String, precedence: u8) -> Result<(), AllocError>
    requires printable { IsTrue (is_printable (tree_of expr.now)) }
    ensures printed { OnOk result (chars (string_bytes buf.new) ≡ chars (string_bytes buf.old) ++ printed precedence (tree_of expr.now)) }
    ensures refused { OnErr result (string_bytes buf.new ≡ string_bytes buf.old) }
    ensures reads_back { (size n : ℕ) (unicode : Bool) → ReadsInPlace size n unicode (tree_of expr.now) }
    ensures ways { (s : Setting) → KeepsWays s (tree_of expr.now) }
{
    printed_tree_parses(expr);
    printed_parts_read_back();
    expr.to_str(buf, precedence)
}
