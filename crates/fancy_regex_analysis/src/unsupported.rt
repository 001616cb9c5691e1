//! Unsupported features, and look-behind of variable length, in the parts of a pattern that the compiler emits code for.
//! The body of a called group is checked once for each kind of context that it is called in.

ghost use Rattle.std.specs.Prelude.{◌≡◌, ◌⊎◌, ◌++◌, true, false, not, is_some, ◌||◌, ◌&&◌, map, IfOk, IfErr};
ghost use Rattle.std.specs.List.{list_any};
ghost use Rattle.fancy_regex_tree.specs.Tree.{Tree, tree_of, trees, absent_tree_of};
ghost use Rattle.fancy_regex_meaning.specs.Sizes.{size_with};
ghost use Rattle.fancy_regex_analysis.specs.NodeErrors.{is_memory};
ghost use Rattle.fancy_regex_analysis.specs.UnsupportedParts.{words as words_of, unsupported_feature_in, is_fixed_length as is_fixed_length_tree, are_fixed_length as are_fixed_length_trees};
ghost use Rattle.fancy_regex_analysis.specs.UnsupportedParts.{is_variable_look_behind as is_variable_look_behind_tree, is_unsupported, stops};
ghost use Rattle.fancy_regex_info.specs.Views.{size_at, body_tree};
ghost use Rattle.fancy_regex_analysis.specs.EmittedParts.{some_emitted, emitted_calls, part_at, IsWhole, SomeEmittedPart};
ghost use Rattle.fancy_regex_analysis.specs.declared.emitted.Inside.{Inside as InsideView};
ghost use Rattle.fancy_regex_analysis.specs.declared.emitted.Inside.TheVariants as inside_of;

use crate::emitted::{EmittedCall, EmittedPart, Inside, Visited, add_emitted_calls, emitted_parts};
use fancy_regex_info::{CompileError, Size, size_in};
use fancy_regex_tree::{Absent, BacktrackingControlVerb, Expr, LookAround};
use std::alloc::Global;

/// A feature that the compiler does not support.
#[derive(Clone, Copy, Debug, PartialEq, Eq)]
pub(crate) enum UnsupportedFeature {
    /// A literal of raw bytes.
    RawBytes,
    /// A backtracking control verb other than `(*FAIL)`.
    ControlVerb,
    /// An absent operator other than the repeater, or one inside of another.
    AbsentOperator,
    /// A back reference or condition with a recursion level.
    RecursionLevel,
    /// `\K` inside of a look-around or absent operator.
    KeepOut,
}

/// The text of the feature in an error.
fn words(missing: UnsupportedFeature) -> &'static str
    ensures { result.now ≡ words_of missing }
{
    match missing {
        UnsupportedFeature::RawBytes => "raw bytes",
        UnsupportedFeature::ControlVerb => "control verb",
        UnsupportedFeature::AbsentOperator => "absent operator",
        UnsupportedFeature::RecursionLevel => "recursion level",
        UnsupportedFeature::KeepOut => "keep out",
    }
}

/// Refuses a pattern that would need code for an unsupported feature (`FeatureNotYetSupported`) or for a look-behind of
/// variable length (`LookBehindNotConst`), also through subroutine calls. `groups` holds the bodies of the groups and
/// `sizes` the sizes of calls, by group number. A worklist visits each body once for each kind of context. The other
/// error is `Memory`.
pub(crate) fn check_emitted_parts(
    alloc: Global,
    expr: &Expr,
    groups: &[&Expr],
    sizes: &[Size],
) -> Result<(), CompileError>
    ensures refused { IfErr result (λ e. (is_memory e ≡ true)
        ⊎ SomeEmittedPart (map body_tree groups.now) (tree_of expr.now) (stops (size_with (size_at sizes.now)) e)) }
    ensures complete { IfOk result (λ _. (i : InsideView) (t : Tree) → IsWhole (map body_tree groups.now) (tree_of expr.now) i t
        → some_emitted (is_unsupported (size_with (size_at sizes.now))) i t ≡ false) }
{
    let mut open = Vec::new(alloc);
    check_body(alloc, expr, sizes, Inside::Nothing, &mut open)?;
    let nowhere = Visited {
        nothing: false,
        look_around: false,
        absent: false,
    };
    let mut met = vec![in alloc; nowhere; groups.len()]?;
    while let Some(call) = open.pop() {
        if call.group < groups.len() && !met[call.group].was_visited_in(call.inside) {
            met[call.group] = met[call.group].with(call.inside);
            check_body(alloc, groups[call.group], sizes, call.inside, &mut open)?;
        }
    }
    Ok(())
}

/// Checks a body, and appends the subroutine calls that code is emitted for with it.
fn check_body(
    alloc: Global,
    expr: &Expr,
    sizes: &[Size],
    inside: Inside,
    calls: &mut Vec<EmittedCall>,
) -> Result<(), CompileError>
    ensures refused { IfErr result
        (λ e. (is_memory e || some_emitted (stops (size_with (size_at sizes.now)) e) inside (tree_of expr.now)) ≡ true) }
    ensures complete { IfOk result (λ _. some_emitted (is_unsupported (size_with (size_at sizes.now))) inside (tree_of expr.now) ≡ false) }
    ensures calls { IfOk result (λ _. calls.new.items ≡ calls.old.items ++ emitted_calls inside (tree_of expr.now)) }
{
    let parts = emitted_parts(alloc, expr, inside)?;
    check_parts(alloc, &parts, sizes)?;
    add_emitted_calls(&parts, calls)?;
    Ok(())
}

/// Checks each of these parts.
fn check_parts(alloc: Global, parts: &[EmittedPart<'_>], sizes: &[Size]) -> Result<(), CompileError>
    ensures refused { IfErr result
        (λ e. (is_memory e || list_any (λ part. stops (size_with (size_at sizes.now)) e part.0 part.1) (map part_at parts.now)) ≡ true) }
    ensures complete { IfOk result
        (λ _. list_any (λ part. is_unsupported (size_with (size_at sizes.now)) part.0 part.1) (map part_at parts.now) ≡ false) }
{
    for part in parts {
        check_node(alloc, part.expr, sizes, part.inside)?;
    }
    Ok(())
}

/// Checks a node without its descendants.
fn check_node(
    alloc: Global,
    expr: &Expr,
    sizes: &[Size],
    inside: Inside,
) -> Result<(), CompileError>
    ensures refused { IfErr result (λ e. (is_memory e || stops (size_with (size_at sizes.now)) e inside (tree_of expr.now)) ≡ true) }
    ensures complete { IfOk result (λ _. is_unsupported (size_with (size_at sizes.now)) inside (tree_of expr.now) ≡ false) }
{
    if let Some(missing) = unsupported_feature(expr, inside) {
        let feature = String::from_str(alloc, words(missing))?;
        return Err(CompileError::FeatureNotYetSupported(feature));
    }
    if is_variable_look_behind(expr, sizes) {
        return Err(CompileError::LookBehindNotConst);
    }
    Ok(())
}

/// The unsupported feature of the node itself, if it has one.
fn unsupported_feature(expr: &Expr, inside: Inside) -> Option<UnsupportedFeature>
    ensures { result ≡ unsupported_feature_in inside (tree_of expr.now) }
{
    match expr {
        Expr::LiteralBytes { .. } => Some(UnsupportedFeature::RawBytes),
        Expr::BacktrackingControlVerb(verb) => missing_verb(*verb),
        Expr::Absent(absent) => missing_absent(absent, inside),
        Expr::BackrefWithRelativeRecursionLevel { .. } => Some(UnsupportedFeature::RecursionLevel),
        Expr::BackrefExistsCondition {
            relative_recursion_level,
            ..
        } => relative_recursion_level.map(|_| UnsupportedFeature::RecursionLevel),
        Expr::KeepOut => missing_keep_out(inside),
        _ => None,
    }
}

fn missing_verb(verb: BacktrackingControlVerb) -> Option<UnsupportedFeature>
    ensures { (i : InsideView) → result ≡ unsupported_feature_in i (Tree.verb verb) }
{
    match verb {
        BacktrackingControlVerb::Fail => None,
        BacktrackingControlVerb::Accept | BacktrackingControlVerb::Commit => {
            Some(UnsupportedFeature::ControlVerb)
        }
        BacktrackingControlVerb::Skip | BacktrackingControlVerb::Prune => {
            Some(UnsupportedFeature::ControlVerb)
        }
    }
}

fn missing_absent(absent: &Absent, inside: Inside) -> Option<UnsupportedFeature>
    ensures { result ≡ unsupported_feature_in inside (absent_tree_of absent.now) }
{
    match absent {
        Absent::Repeater(_) => match inside {
            Inside::Nothing | Inside::LookAround => None,
            Inside::Absent => Some(UnsupportedFeature::AbsentOperator),
        },
        Absent::Expression { .. } | Absent::Stopper(_) | Absent::Clear => {
            Some(UnsupportedFeature::AbsentOperator)
        }
    }
}

fn missing_keep_out(inside: Inside) -> Option<UnsupportedFeature>
    ensures { result ≡ unsupported_feature_in inside Tree.keep_out }
{
    match inside {
        Inside::Nothing => None,
        Inside::LookAround | Inside::Absent => Some(UnsupportedFeature::KeepOut),
    }
}

/// Whether the node is a look-behind of variable length.
fn is_variable_look_behind(expr: &Expr, sizes: &[Size]) -> bool
    ensures { result ≡ is_variable_look_behind_tree (size_with (size_at sizes.now)) (tree_of expr.now) }
{
    match expr {
        Expr::LookAround(body, LookAround::LookBehind | LookAround::LookBehindNeg) => {
            !is_fixed_length(body, sizes)
        }
        _ => false,
    }
}

/// Whether all matches have the same length, or the node is an alternation whose branches each have this property.
#[tactic(auto, unfolding(crate::specs::UnsupportedParts::is_fixed_length))]
#[cycle(steady)]
fn is_fixed_length(expr: &Expr, sizes: &[Size]) -> bool
    ensures { result ≡ is_fixed_length_tree (size_with (size_at sizes.now)) (tree_of expr.now) }
{
    let is_always = size_in(expr, sizes).always;
    match expr {
        Expr::Alt(branches) => is_always || are_fixed_length(branches, sizes),
        _ => is_always,
    }
}

#[cycle(steady)]
fn are_fixed_length(branches: &[Expr], sizes: &[Size]) -> bool
    ensures { result ≡ are_fixed_length_trees (size_with (size_at sizes.now)) (trees (map tree_of branches.now)) }
{
    for branch in branches {
        if !is_fixed_length(branch, sizes) {
            return false;
        }
    }
    true
}
