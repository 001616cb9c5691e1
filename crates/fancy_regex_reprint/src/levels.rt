//! Whether the groups of a printed text are nested less deep than the parser allows.

ghost use Rattle.std.specs.Prelude.{◌≡◌, IfOk, IsTrue, chars, nat_lt};
ghost use Rattle.fancy_regex_tree.specs.Tree.{tree_of};
ghost use Rattle.fancy_regex_tree.specs.Printed.{printed};
ghost use Rattle.fancy_regex_tree.specs.Printable.{is_printable, printed_levels};

use fancy_regex_print_laws::printed_tree_parses;
use fancy_regex_tree::{Error, Expr};
use std::alloc::{AllocError, Global};

/// Whether fewer than 64 groups are nested in the printed text of a tree: then, and only then, the text parses. Fails only if
/// memory runs out.
pub fn is_within_levels(alloc: Global, expr: &Expr, text: &str) -> Result<bool, AllocError>
    requires printable { IsTrue (is_printable (tree_of expr.now)) }
    requires printed { chars text.now ≡ printed 0 (tree_of expr.now) }
    ensures { IfOk result (λ answer. answer ≡ nat_lt (printed_levels 0 (tree_of expr.now)) 64) }
{
    printed_tree_parses(expr);
    match Expr::parse_tree(alloc, text) {
        Ok(_) => Ok(true),
        Err(Error::ParseError(..)) => Ok(false),
        Err(Error::Memory) => Err(AllocError),
    }
}
