//! Which parts of a pattern are searched in linear time: those of which only the first match matters, or only whether there is one, and
//! that may have many ways.

ghost use Rattle.std.specs.Prelude.{◌≡◌, true, false, count_by, map, IfOk, IfErr};
ghost use Rattle.fancy_regex_tree.specs.Tree.{tree_of};
ghost use Rattle.fancy_regex_tree.specs.Traversal.{tree_at};
ghost use Rattle.fancy_regex_info.specs.Infos.{info_of, properties_in};
ghost use Rattle.fancy_regex_desugar.specs.Delegates as delegates;
ghost use Rattle.fancy_regex_analysis.specs.AnalysisErrors.{is_too_complex};
ghost use Rattle.fancy_regex_program.specs.Parts.{IsDelegateIfAny, IsPartCause};

use crate::lazy::lazy_copy;
use fancy_regex_info::{
    AnalyzeContext, CompileError, Info, analyze_tree, group_call_sizes, groups_of,
};
use fancy_regex_program::Delegate;
use fancy_regex_tree::Expr;
use std::alloc::{AllocError, Global};

/// The least number of alternations and quantifiers in a part that is delegated.
const LEAST_CHOICE_NODES: usize = 2;

/// The greatest weight of a part that is delegated, in states.
const GREATEST_PART_WEIGHT: u64 = 4096;

/// The part that is delegated in place of its instructions, or `None` if it offers too few choices, is hard, has a capture group,
/// is too heavy or cannot be printed. Of the part only the first match matters, or with `for_any` only whether there is one. The
/// error is `InnerError` with the text of a class that `regex` refuses, or `Memory`.
pub(crate) fn delegate_of(
    alloc: Global,
    part: &Expr,
    for_any: bool,
    unicode: bool,
) -> Result<Option<Delegate>, CompileError>
    ensures value { IfOk result (IsDelegateIfAny unicode for_any (tree_of part.now)) }
    ensures full { IfErr result (λ e. is_too_complex e ≡ false) }
    ensures refused { IfErr result (IsPartCause unicode for_any (tree_of part.now)) }
{
    if !offers_choices(alloc, part, for_any)? {
        return Ok(None);
    }
    if for_any {
        let lazy = lazy_copy(alloc, part)?;
        searched_delegate(alloc, part, &lazy, for_any, unicode)
    } else {
        searched_delegate(alloc, part, part, for_any, unicode)
    }
}

/// The same of a part that offers enough choices, where `searched` is the tree that is searched for it.
fn searched_delegate(
    alloc: Global,
    part: &Expr,
    searched: &Expr,
    for_any: bool,
    unicode: bool,
) -> Result<Option<Delegate>, CompileError>
    requires searched { tree_of searched.now ≡ delegates.searched for_any (tree_of part.now) }
    requires choices { delegates.offers_choices for_any (tree_of part.now) ≡ true }
    ensures value { IfOk result (IsDelegateIfAny unicode for_any (tree_of part.now)) }
    ensures full { IfErr result (λ e. is_too_complex e ≡ false) }
    ensures refused { IfErr result (IsPartCause unicode for_any (tree_of part.now)) }
{
    let groups = groups_of(alloc, searched, false)?;
    let sizes = group_call_sizes(alloc, searched, false)?;
    let info = analyze_tree(alloc, searched, &groups, &sizes, AnalyzeContext::default())?;
    if !is_light_part(&info) {
        return Ok(None);
    }
    if !part.is_printable(alloc)? {
        return Ok(None);
    }
    let made = Delegate::new(alloc, part, searched, &info, for_any, unicode)?;
    Ok(Some(made))
}

/// Whether the part has enough alternations and quantifiers, or with `for_any` ends in one. The error is want of memory.
fn offers_choices(alloc: Global, part: &Expr, for_any: bool) -> Result<bool, AllocError>
    ensures { IfOk result (λ offers. offers ≡ delegates.offers_choices for_any (tree_of part.now)) }
{
    if for_any && ends_in_choice(part) {
        return Ok(true);
    }
    let nodes = part.preorder(alloc)?;
    Ok(choice_nodes(&nodes) >= LEAST_CHOICE_NODES)
}

/// Whether the tree is an alternation or a quantifier, or a concatenation that ends in one.
#[tactic(auto, unfolding(fancy_regex_desugar::specs::Delegates::ends_in_choice))]
fn ends_in_choice(tree: &Expr) -> bool
    ensures { result ≡ delegates.ends_in_choice (tree_of tree.now) }
{
    match tree {
        Expr::Alt(_) | Expr::Repeat { .. } => true,
        Expr::Concat(parts) => match parts.last() {
            Some(last) => ends_in_choice(last),
            None => false,
        },
        _ => false,
    }
}

/// How many of the nodes are alternations or quantifiers.
pub(crate) fn choice_nodes(nodes: &[&Expr]) -> usize
    ensures { result ≡ count_by delegates.is_choice (map tree_at nodes.now) }
{
    nodes.iter().filter(|node| is_choice(**node)).count()
}

/// Whether the node is an alternation or a quantifier.
fn is_choice(node: &Expr) -> bool
    ensures { result ≡ delegates.is_choice (tree_of node.now) }
{
    matches!(node, Expr::Alt(_) | Expr::Repeat { .. })
}

/// Whether the analysis of a part says that it is easy, has no capture group, and is light.
fn is_light_part(info: &Info<'_>) -> bool
    ensures { result ≡ delegates.is_light_part (properties_in (info_of info.now)) }
{
    !info.hard && info.start_group() == info.end_group() && info.weight <= GREATEST_PART_WEIGHT
}
