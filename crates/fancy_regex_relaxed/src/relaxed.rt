//! Plain patterns that match wherever another pattern does.

ghost use Rattle.std.specs.Prelude.{◌≡◌, ◌≤◌, true, false, Bool, length, None, IfOk, IfSome, IsCharBoundary};
ghost use Rattle.fancy_regex_tree.specs.Tree.{Tree, tree_of};

use crate::copy::{begins_after_text, extended, is_relaxable};
use fancy_regex_analysis::analyze;
use fancy_regex_class::{RunInput, Steps};
use fancy_regex_info::{AnalyzeContext, CompileError, CompileOptions};
use fancy_regex_linear::{Easy, SearchMemory};
use fancy_regex_tree::{Expr, ExprTree};
use std::alloc::{AllocError, Global};
use std::collections::{BTreeMap, BTreeSet};

/// The greatest weight of a relaxed pattern: to make the table of a heavier one takes long.
const GREATEST_WEIGHT: u64 = 300;

/// A plain pattern that matches wherever another pattern does: no match of that one starts before a match of this one.
#[derive(Drop)]
pub struct Relaxed {
    /// The matcher of the plain pattern.
    easy: Easy,
}

impl Relaxed {
    ghost use Rattle.fancy_regex_relaxed.specs.Skips.{IsRelaxedOf, IsSkip};

    /// The plain pattern of a tree; `None` where the tree refers to matched text or calls groups, or has conditionals, `\R`, verbs or
    /// absent forms, where it begins with a look-behind for several characters, where the plain pattern is heavy or could match without
    /// reading a character, or where the linear engine does not serve it best. The error is want of memory; no clause says which trees
    /// have one.
    pub fn new(
        alloc: Global,
        expr: &Expr,
        options: &CompileOptions,
    ) -> Result<Option<Relaxed>, AllocError>
        ensures { IfOk result (λ found. IfSome found (λ relaxed. IsRelaxedOf relaxed options.now.unicode (tree_of expr.now))) }
    {
        if begins_after_text(expr) || !is_relaxable(expr) {
            return Ok(None);
        }
        let tree = ExprTree {
            expr: extended(alloc, expr)?,
            backrefs: BTreeSet::new(alloc),
            named_groups: BTreeMap::new(alloc),
            contains_subroutines: false,
            total_groups: 0,
            reference_above_total: false,
            named_backref_only: false,
            calls_whole: false,
        };
        let context = AnalyzeContext {
            explicit_capture_group_0: false,
            find_not_empty: false,
        };
        let info = match analyze(alloc, &tree, context) {
            Ok(info) => info,
            Err(error) => return none_unless_memory(error),
        };
        if info.weight > GREATEST_WEIGHT {
            return Ok(None);
        }
        let first = CompileOptions {
            leftmost_longest: false,
            ..*options
        };
        match Easy::if_supported(alloc, &info, &first) {
            Ok(Some(easy)) => Ok(Some(Relaxed { easy })),
            Ok(None) => Ok(None),
            Err(error) => none_unless_memory(error),
        }
    }

    /// The first start at which a search with this input may find a match of the pattern that was relaxed; `None` if there is none. The
    /// range has to end where the text does. `steps` counts the looks at the text. The error is want of memory.
    pub fn first_start(
        &self,
        text: &str,
        input: &RunInput,
        steps: &mut Steps,
        memory: &mut SearchMemory,
    ) -> Result<Option<usize>, AllocError>
        requires first { IsCharBoundary text.now input.now.first }
        requires range { input.now.first ≤ input.now.range.end }
        requires whole { input.now.range.end ≡ length text.now }
        requires free { input.now.anchored ≡ false }
        ensures answer { IfOk result (λ found. (unicode longest : Bool) (t : Tree) → IsRelaxedOf self.now unicode t
            → IsSkip unicode longest text.now input.now t found) }
    {
        let found = self.easy.find_span_in(text, input, steps, memory)?;
        match found {
            Some((start, _)) => Ok(Some(start)),
            None => Ok(None),
        }
    }
}

/// No plain pattern, unless memory ran out.
fn none_unless_memory(error: CompileError) -> Result<Option<Relaxed>, AllocError>
    ensures { IfOk result (λ found. found ≡ None) }
{
    match error {
        CompileError::Memory => Err(AllocError),
        _ => Ok(None),
    }
}
