//! The parts of a pattern that are delegated. Each is made once, however often it is written.

ghost use Rattle.std.specs.Prelude.{◌≡◌, true, false, option_map, All, IfOk, IfErr, IfSome};
ghost use Rattle.fancy_regex_tree.specs.Tree.{tree_of, concat};
ghost use Rattle.fancy_regex_analysis.specs.AnalysisErrors.{is_too_complex};
ghost use Rattle.fancy_regex_linear.specs.Plain.{classes};
ghost use Rattle.fancy_regex_linear.specs.Refusals.{IsRead};
ghost use Rattle.fancy_regex_desugar.specs.Delegates.{searched};
ghost use Rattle.fancy_regex_program.specs.Parts.{IsDelegateIfAny, IsPartCause};
ghost use Rattle.fancy_regex_compiler.specs.Tails.{row_trees};

use crate::parts::delegate_of;
use crate::tail::row_tree;
use fancy_regex_info::{CompileError, Info};
use fancy_regex_program::Delegate;
use fancy_regex_tree::Expr;
use std::alloc::Global;
use std::sync::Arc;

/// A part that was made.
#[derive(Drop)]
struct KnownPart {
    /// Whether its classes follow Unicode.
    unicode: bool,
    /// The part with its states.
    delegate: Arc<Delegate>,
    ghost unicode_is: { delegate.value.easy.unicode ≡ unicode },
    ghost read: { All (IsRead unicode) (classes (searched delegate.value.for_any (tree_of delegate.value.part))) },
}

impl KnownPart {
    /// Whether this is the part with this tree, of the same use and with the same classes.
    fn is_of(&self, part: &Expr, for_any: bool, unicode: bool) -> bool
        ensures part { result ≡ true → tree_of self.now.delegate.value.part ≡ tree_of part.now }
        ensures for_any { result ≡ true → self.now.delegate.value.for_any ≡ for_any }
        ensures unicode { result ≡ true → self.now.unicode ≡ unicode }
    {
        if self.unicode != unicode || self.delegate.for_any() != for_any {
            return false;
        }
        *self.delegate.part() == *part
    }
}

/// The parts that were made so far, no two of them equal.
#[derive(Drop)]
pub(crate) struct PartTable {
    parts: Vec<KnownPart>,
}

impl PartTable {
    /// The table without parts.
    pub fn new(alloc: Global) -> PartTable {
        PartTable {
            parts: Vec::new(alloc),
        }
    }

    /// The part that is delegated in place of its instructions, or `None` if it is not delegated. Of the part only the first match
    /// matters, or with `for_any` only whether there is one. The error is `InnerError` with the text of a class that `regex` refuses, or
    /// `Memory`.
    pub fn delegate(
        &mut self,
        alloc: Global,
        part: &Expr,
        for_any: bool,
        unicode: bool,
    ) -> Result<Option<Arc<Delegate>>, CompileError>
        ensures value { IfOk result (λ found. IsDelegateIfAny unicode for_any (tree_of part.now) (option_map (λ d. d.value) found)) }
        ensures full { IfErr result (λ e. is_too_complex e ≡ false) }
        ensures refused { IfErr result (IsPartCause unicode for_any (tree_of part.now)) }
    {
        if let Some(known) = self.find(part, for_any, unicode) {
            let shared = known.delegate.clone()?;
            return Ok(Some(shared));
        }
        let Some(made) = delegate_of(alloc, part, for_any, unicode)? else {
            return Ok(None);
        };
        let delegate = Arc::new(alloc, made)?;
        let shared = delegate.clone()?;
        self.parts.push(KnownPart { unicode, delegate })?;
        Ok(Some(shared))
    }

    /// As `delegate`, for the concatenation of these parts, of which only the first match matters.
    pub fn delegate_row(
        &mut self,
        alloc: Global,
        parts: &[Info<'_>],
        unicode: bool,
    ) -> Result<Option<Arc<Delegate>>, CompileError>
        ensures value { IfOk result (λ found.
            IsDelegateIfAny unicode false (concat (row_trees parts.now)) (option_map (λ d. d.value) found)) }
        ensures full { IfErr result (λ e. is_too_complex e ≡ false) }
        ensures refused { IfErr result (IsPartCause unicode false (concat (row_trees parts.now))) }
    {
        let row = row_tree(alloc, parts)?;
        self.delegate(alloc, &row, false, unicode)
    }

    /// The part with this tree, of the same use and with the same classes, if it was made.
    fn find(&self, part: &Expr, for_any: bool, unicode: bool) -> Option<&KnownPart>
        ensures part { IfSome result (λ known. tree_of known.now.delegate.value.part ≡ tree_of part.now) }
        ensures for_any { IfSome result (λ known. known.now.delegate.value.for_any ≡ for_any) }
        ensures unicode { IfSome result (λ known. known.now.unicode ≡ unicode) }
    {
        for known in self.parts.iter() {
            if known.is_of(part, for_any, unicode) {
                return Some(known);
            }
        }
        None
    }
}
