//! Instructions of the nodes without children.

ghost use Rattle.std.specs.Prelude.{◌≡◌, ◌*◌, ℕ, List, slice_index, chars, ◌&&◌, not, true, false, IfOk, IfErr, None, length};
ghost use Rattle.fancy_regex_tree.specs.Tree as tree;
ghost use Rattle.fancy_regex_tree.specs.Tree.{tree_of};
ghost use Rattle.fancy_regex_analysis.specs.AnalysisErrors.{is_too_complex};
ghost use Rattle.fancy_regex_desugar.specs.CorePatterns.{CorePattern, keep_out, read, literal};
ghost use Rattle.fancy_regex_desugar.specs.Unfolded.{Written};
ghost use Rattle.fancy_regex_compiler.specs.Extents.{Writes};
ghost use Rattle.fancy_regex_compiler.specs.Known.{front_of};
ghost use Rattle.fancy_regex_program.specs.Ops as op;
ghost use Rattle.fancy_regex_program.specs.Ops.{op_of};
ghost use Rattle.fancy_regex_compiler.specs.Refusals.{IsMissing, IsMissingAs, IsMemoryOrTooComplex, IsNoVerb, IsNoGroup, IsNoSingle, IsNoLeaf};
ghost use Rattle.fancy_regex_compiler.specs.Tasks.{IsLetThrough};
ghost use Rattle.fancy_regex_compiler.specs.Writing.{IsInsn};
ghost use Rattle.fancy_regex_compiler.specs.declared.emitter.Need.{Need as TheNeed};

use crate::class_table::ClassTable;
use crate::emitter::{CompileContext, Emitter, Scope, first_slot};
use fancy_regex_class::CaseiLiteral;
use fancy_regex_info::CompileError;
use fancy_regex_program::Insn;
use fancy_regex_tree::{BacktrackingControlVerb, Expr};
use std::alloc::Global;

/// Emits a node without children. The errors are `InnerError` with the text of a class that `regex` refuses,
/// `InvalidBackref`, `FeatureNotYetSupported`, `UnresolvedAstNode`, `PatternTooComplex` and `Memory`.
pub(crate) fn emit_leaf(
    context: &CompileContext<'_, '_, '_>,
    emitter: &mut Emitter,
    leaf: &Expr,
    scope: Scope,
) -> Result<(), CompileError>
    ensures writes { (call : ℕ → CorePattern) (n : ℕ) (us : List Written) →
        Writes context.now emitter.old emitter.new result (front_of call n (tree_of leaf.now) us) }
    ensures allowed { IfOk result (λ _. (all : List TheNeed) (call : ℕ → CorePattern) (n : ℕ) (us : List Written) →
        IsLetThrough context.now scope.may_keep (front_of call n (tree_of leaf.now) us) all) }
    ensures refused { IfErr result (IsNoLeaf context.now.unicode (length context.now.groups.now.items) scope.may_keep (tree_of leaf.now)) }
{
    match leaf {
        Expr::Literal { val, casei } => {
            emit_literal(context, emitter, first_character(val), *casei)?;
            Ok(())
        }
        Expr::KeepOut => {
            emit_keep_out(context, emitter, scope)?;
            Ok(())
        }
        other => {
            let insn = insn_of(context, &mut emitter.classes, other)?;
            emitter.body.flush_and_push(insn)?;
            Ok(())
        }
    }
}

/// The first character of a text, or U+0000 for the empty text.
fn first_character(text: &str) -> char
    ensures { result ≡ slice_index (chars text.now) 0 }
{
    text.chars().next().unwrap_or('\0')
}

/// Emits a literal character; a case-sensitive one becomes pending text, so that adjacent literals merge.
fn emit_literal(
    context: &CompileContext<'_, '_, '_>,
    emitter: &mut Emitter,
    first: char,
    casei: bool,
) -> Result<(), CompileError>
    ensures writes { Writes context.now emitter.old emitter.new result (read (literal first casei)) }
    ensures refused { IfErr result IsMemoryOrTooComplex }
{
    if casei {
        let literal = CaseiLiteral::new(first, context.unicode);
        emitter.body.flush_and_push(Insn::LitCasei(literal))?;
    } else {
        emitter.body.push_literal_char(first)?;
    }
    Ok(())
}

/// Emits `\K`, which sets the start of the match; nothing if no group is the whole match. The error is
/// `FeatureNotYetSupported` in a look-around or an absent repeater.
fn emit_keep_out(
    context: &CompileContext<'_, '_, '_>,
    emitter: &mut Emitter,
    scope: Scope,
) -> Result<(), CompileError>
    ensures writes { Writes context.now emitter.old emitter.new result keep_out }
    ensures allowed { IfOk result (λ _. scope.may_keep ≡ true) }
    ensures refused { IfErr result (IsNoLeaf context.now.unicode (length context.now.groups.now.items) scope.may_keep tree.keep_out) }
{
    if !scope.may_keep {
        return Err(not_supported(context.alloc, "keep out"));
    }
    if context.whole {
        emitter.body.flush_and_push(Insn::Save(0))?;
    } else {
        emitter.body.flush()?;
    }
    Ok(())
}

/// The single instruction of a node.
fn insn_of(
    context: &CompileContext<'_, '_, '_>,
    classes: &mut ClassTable,
    leaf: &Expr,
) -> Result<Insn, CompileError>
    ensures insn { IfOk result (λ insn. IsInsn context.now.unicode insn (tree_of leaf.now)) }
    ensures full { IfErr result (λ e. is_too_complex e ≡ false) }
    ensures refused { IfErr result (IsNoSingle context.now.unicode (length context.now.groups.now.items) (tree_of leaf.now)) }
{
    match leaf {
        Expr::Any { newline, crlf } => Ok(any(*newline, *crlf)),
        Expr::Assertion(assertion) => Ok(Insn::Assertion(*assertion)),
        Expr::GeneralNewline { unicode } => Ok(Insn::GeneralNewline { unicode: *unicode }),
        Expr::Delegate { inner, casei } => {
            let matcher = classes.matcher(context.alloc, inner, *casei, context.unicode)?;
            Ok(Insn::CharClass(matcher))
        }
        Expr::Backref { group, casei } => {
            let slot = slot_of_group(context, *group)?;
            let casei = *casei;
            Ok(Insn::Backref { slot, casei })
        }
        Expr::BackrefExistsCondition {
            group,
            relative_recursion_level,
        } => {
            let insn = exists_of(context, *group, *relative_recursion_level)?;
            Ok(insn)
        }
        Expr::ContinueFromPreviousMatchEnd => Ok(Insn::ContinueFromPreviousMatchEnd),
        Expr::BacktrackingControlVerb(verb) => {
            let insn = insn_of_verb(context.alloc, verb)?;
            Ok(insn)
        }
        Expr::LiteralBytes { .. } => Err(not_supported(context.alloc, "raw bytes")),
        Expr::BackrefWithRelativeRecursionLevel { .. } => {
            Err(not_supported(context.alloc, "recursion level"))
        }
        _ => Err(CompileError::UnresolvedAstNode),
    }
}

/// The instruction that matches any character except the newlines that are excluded.
fn any(newline: bool, crlf: bool) -> Insn
    ensures { op_of result ≡ op.any newline (crlf && not newline) }
{
    if newline {
        Insn::Any
    } else if crlf {
        Insn::AnyNoCRLF
    } else {
        Insn::AnyNoNL
    }
}

/// The instruction of a backtracking control verb: only `(*FAIL)` is supported.
fn insn_of_verb(alloc: Global, verb: &BacktrackingControlVerb) -> Result<Insn, CompileError>
    ensures op { IfOk result (λ insn. op_of insn ≡ op.fail) }
    ensures full { IfErr result (λ e. is_too_complex e ≡ false) }
    ensures refused { IfErr result (IsNoVerb verb.now) }
{
    match verb {
        BacktrackingControlVerb::Fail => Ok(Insn::Fail),
        _ => Err(not_supported(alloc, "control verb")),
    }
}

/// The instruction of a condition that a group is set. A recursion level is not supported.
fn exists_of(
    context: &CompileContext<'_, '_, '_>,
    group: usize,
    level: Option<isize>,
) -> Result<Insn, CompileError>
    ensures level { IfOk result (λ insn. level ≡ None) }
    ensures op { IfOk result (λ insn. op_of insn ≡ op.exists (2 * group)) }
    ensures full { IfErr result (λ e. is_too_complex e ≡ false) }
    ensures refused { IfErr result (IsNoSingle context.now.unicode (length context.now.groups.now.items)
        (tree.backref_exists group level)) }
{
    match level {
        None => {
            let slot = slot_of_group(context, group)?;
            Ok(Insn::BackrefExistsCondition(slot))
        }
        Some(_) => Err(not_supported(context.alloc, "recursion level")),
    }
}

/// The first slot of a group. The error is `InvalidBackref` if there is no such group.
fn slot_of_group(context: &CompileContext<'_, '_, '_>, group: usize) -> Result<usize, CompileError>
    ensures value { IfOk result (λ slot. slot ≡ 2 * group) }
    ensures full { IfErr result (λ e. is_too_complex e ≡ false) }
    ensures refused { IfErr result (IsNoGroup (length context.now.groups.now.items) group) }
{
    let is_there = group < context.groups.len() && !(context.whole && group == 0);
    if is_there {
        first_slot(group)
    } else {
        Err(CompileError::InvalidBackref(group))
    }
}

/// The error `FeatureNotYetSupported` with this feature, or `Memory` if there is no memory for its name.
pub(crate) fn not_supported(alloc: Global, feature: &str) -> CompileError
    ensures full { is_too_complex result ≡ false }
    ensures refused { IsMissing result }
    ensures words { IsMissingAs feature.now result }
{
    match String::from_str(alloc, feature) {
        Ok(shown) => CompileError::FeatureNotYetSupported(shown),
        Err(_) => CompileError::Memory,
    }
}
