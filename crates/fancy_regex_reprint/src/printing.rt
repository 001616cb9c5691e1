//! `reprint`: a tree as the text of a pattern that means the same.

ghost use Rattle.std.specs.Prelude.{◌≡◌, IfOk, option_map};
ghost use Rattle.fancy_regex_tree.specs.Tree.{tree_of};
ghost use Rattle.fancy_regex_reprint.specs.Reprinted.{text_in, reprinted};

use crate::classes::classes_read_back;
use crate::levels::is_within_levels;
use fancy_regex_tree::Expr;
use std::alloc::{AllocError, Global};

/// The printed text of a tree; `None` exactly if the tree does not reprint: if it is not printable, the text of a character
/// class in it is parsed as another one, or 64 or more groups are nested in the printed text. Fails only if memory runs out.
#[tactic(auto, unfolding(fancy_regex_tree::specs::Printable::reprints))]
pub fn reprint(alloc: Global, expr: &Expr) -> Result<Option<String>, AllocError>
    ensures { IfOk result (λ text. option_map text_in text ≡ reprinted (tree_of expr.now)) }
{
    if !expr.is_printable(alloc)? {
        return Ok(None);
    }
    if !classes_read_back(alloc, expr)? {
        return Ok(None);
    }
    let mut text = String::new(alloc);
    expr.to_str(&mut text, 0)?;
    if is_within_levels(alloc, expr, &text)? {
        Ok(Some(text))
    } else {
        Ok(None)
    }
}
