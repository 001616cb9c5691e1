//! How a part that is searched in linear time is made.

ghost use Rattle.std.specs.Prelude.{◌≡◌, true, false, IfOk, IfErr};
ghost use Rattle.fancy_regex_tree.specs.Tree.{tree_of};
ghost use Rattle.fancy_regex_info.specs.Analysis.{analysis};
ghost use Rattle.fancy_regex_info.specs.Infos.{info_of};
ghost use Rattle.fancy_regex_info.specs.declared.info.Info.{out-Info};
ghost use Rattle.fancy_regex_desugar.specs.Delegates as delegates;
ghost use Rattle.fancy_regex_program.specs.Parts.{IsDelegateOf, IsPartCause};

use crate::body_starts::body_starts;
use crate::delegate::Delegate;
use fancy_regex_info::{CompileError, CompileOptions, Info};
use fancy_regex_linear::Easy;
use fancy_regex_tree::Expr;
use std::alloc::Global;

impl Delegate {
    /// The part with its printed text, the states that it is searched with, which are those of the analyzed tree `searched`, and what
    /// is known of the bytes that a match of this tree begins with. The error is `InnerError` with the text of a class that `regex`
    /// refuses, or `Memory`.
    pub fn new(
        alloc: Global,
        part: &Expr,
        searched: &Expr,
        info: &Info<'_>,
        for_any: bool,
        unicode: bool,
    ) -> Result<Delegate, CompileError>
        requires searched { tree_of searched.now ≡ delegates.searched for_any (tree_of part.now) }
        requires easy { (out-Info info.now).hard ≡ false }
        requires info { info_of info.now ≡ analysis false (delegates.searched for_any (tree_of part.now)) }
        requires delegated { delegates.is_delegated for_any (tree_of part.now) ≡ true }
        ensures value { IfOk result (IsDelegateOf unicode for_any (tree_of part.now)) }
        ensures refused { IfErr result (IsPartCause unicode for_any (tree_of part.now)) }
    {
        let options = CompileOptions {
            unicode,
            ..CompileOptions::default()
        };
        let easy = Easy::without_table(alloc, info, &options)?;
        let starts = body_starts(alloc, searched, unicode)?;
        let mut pattern = String::new(alloc);
        part.to_str(&mut pattern, 0)?;
        let part = part.try_clone(alloc)?;
        Ok(Delegate {
            part,
            for_any,
            pattern,
            easy,
            starts,
        })
    }
}
