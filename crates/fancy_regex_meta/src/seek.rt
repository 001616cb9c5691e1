//! The seek table of a pattern: the bytes that its matches start with.

ghost use Rattle.std.specs.Prelude.{◌≡◌, IfOk, IfErr};
ghost use Rattle.fancy_regex_tree.specs.Tree.{tree_of};
ghost use Rattle.fancy_regex_info.specs.declared.error.CompileError.TheVariants.{Memory};
ghost use Rattle.fancy_regex_meta.specs.SeekTables.{IsSeekTable};

use crate::options::RegexOptions;
use fancy_regex_bytes::start_bytes;
use fancy_regex_class::ClassError;
use fancy_regex_info::CompileError;
use fancy_regex_tree::Expr;
use std::alloc::Global;

/// The seek table of a tree: the entry at a byte's value says whether a match may start with the byte. `None` without the
/// option `seek`, and where the bytes are not known; so it is where `regex` rejects a class of the tree, as a class of a part
/// that is repeated no times is of no concern to a program. The error is `Memory`.
pub(crate) fn seek_table(
    alloc: Global,
    expr: &Expr,
    options: &RegexOptions,
) -> Result<Option<[bool; 256]>, CompileError>
    ensures table { IfOk result (IsSeekTable options.now (tree_of expr.now)) }
    ensures memory { IfErr result (λ e. e ≡ Memory) }
{
    if !options.seek {
        return Ok(None);
    }
    match start_bytes(alloc, expr, options.unicode_mode) {
        Ok(Some(set)) => Ok(Some(*set.table())),
        Ok(None) => Ok(None),
        Err(ClassError::InnerError(_)) => Ok(None),
        Err(ClassError::Memory) => Err(CompileError::Memory),
    }
}
