//! The recursive analysis of a tree: each node from the results of its children.

ghost use Rattle.std.specs.Prelude.{◌≡◌, ℕ, Bool, true, List, map, IfOk, IsTrue};
ghost use Rattle.fancy_regex_tree.specs.Tree.{Tree, tree_of, trees, absent_tree_of, ast_tree_of, concat, alt, group};
ghost use Rattle.fancy_regex_info.specs.PropertyRules as combined;
ghost use Rattle.fancy_regex_info.specs.Easy.{is_easy, is_easy_assertion as is_easy_look};
ghost use Rattle.fancy_regex_info.specs.Infos.{known, infos, no_infos, more_infos, info_of, properties_of, properties_in};
ghost use Rattle.fancy_regex_info.specs.AnalysisRelations.{is_leaf, IsAnalysisOf, AreAnalysesOf, node_of};
ghost use Rattle.fancy_regex_info.specs.Views.{size_of};

use crate::info::Info;
use crate::properties::{
    NodeProperties, absent_expression_properties, alternation_properties, concat_properties,
    conditional_properties, group_properties, leaf, repeat_properties, wrapper_properties,
};
use crate::size::{Size, always, any_size, size_in};
use crate::tables::is_marked;
use fancy_regex_tree::{Absent, Assertion, AstNode, Expr};
use std::alloc::{AllocError, Global};

/// Analyzes a node and its descendants. `calls` holds the size of a call of each group, `read` marks the groups that back
/// references and conditions name, and `start` is the number of the next capture group. Recursion is as deep as the
/// tree; fails only if memory runs out.
#[cycle(analyze_node)]
pub(crate) fn analyze_node<'a>(
    alloc: Global,
    expr: &'a Expr,
    start: usize,
    calls: &[Size],
    read: &[bool],
) -> Result<Info<'a>, AllocError>
    ensures { IfOk result (λ info. IsAnalysisOf calls.now read.now start (tree_of expr.now) (info_of info)) }
{
    let parts = parts_of(alloc, expr, start, calls, read)?;
    Ok(Info::new(expr, parts.properties, parts.children))
}

/// The properties of a node, and the analysis of its children in pattern order.
#[derive(Drop)]
struct Parts<'a> {
    properties: NodeProperties,
    children: Vec<Info<'a>>,
}

#[cycle(analyze_node)]
fn parts_of<'a>(
    alloc: Global,
    expr: &'a Expr,
    start: usize,
    calls: &[Size],
    read: &[bool],
) -> Result<Parts<'a>, AllocError>
    ensures { IfOk result (λ parts. IsAnalysisOf calls.now read.now start (tree_of expr.now) (node_of parts (tree_of expr.now))) }
{
    match expr {
        Expr::Concat(parts) => parts_of_concat(alloc, parts, start, calls, read),
        Expr::Alt(branches) => parts_of_alternation(alloc, branches, start, calls, read),
        Expr::Group(child) => parts_of_group(alloc, child, start, calls, read),
        Expr::LookAround(child, _) => {
            let child = analyze_node(alloc, child, start, calls, read)?;
            wrapper_parts(alloc, always(0), child)
        }
        Expr::Repeat { child, lo, hi, .. } => {
            let child = analyze_node(alloc, child, start, calls, read)?;
            repeat_parts(alloc, *lo, *hi, child)
        }
        Expr::AtomicGroup(child) => {
            let child = analyze_node(alloc, child, start, calls, read)?;
            wrapper_parts(alloc, child.properties().size, child)
        }
        Expr::Conditional {
            condition,
            true_branch,
            false_branch,
        } => {
            let condition = analyze_node(alloc, condition, start, calls, read)?;
            let yes = analyze_node(alloc, true_branch, condition.end_group(), calls, read)?;
            let no = analyze_node(alloc, false_branch, yes.end_group(), calls, read)?;
            conditional_parts(alloc, condition, yes, no)
        }
        Expr::Absent(absent) => parts_of_absent(alloc, absent, start, calls, read),
        Expr::DefineGroup { definitions } => {
            let child = analyze_node(alloc, definitions, start, calls, read)?;
            wrapper_parts(alloc, always(0), child)
        }
        Expr::AstNode(node, _) => parts_of_unresolved(alloc, node, start, calls, read),
        leaf => Ok(leaf_parts(alloc, leaf, start, calls)),
    }
}

#[cycle(analyze_node)]
fn parts_of_concat<'a>(
    alloc: Global,
    items: &'a [Expr],
    start: usize,
    calls: &[Size],
    read: &[bool],
) -> Result<Parts<'a>, AllocError>
    ensures { IfOk result (λ parts. IsAnalysisOf calls.now read.now start (concat (trees (map tree_of items.now)))
        (node_of parts (concat (trees (map tree_of items.now))))) }
{
    let row = analyze_row(alloc, items, start, calls, read)?;
    Ok(Parts {
        properties: concat_properties(start, row.end, &row.infos),
        children: row.infos,
    })
}

#[cycle(analyze_node)]
fn parts_of_alternation<'a>(
    alloc: Global,
    branches: &'a [Expr],
    start: usize,
    calls: &[Size],
    read: &[bool],
) -> Result<Parts<'a>, AllocError>
    ensures { IfOk result (λ parts. IsAnalysisOf calls.now read.now start (alt (trees (map tree_of branches.now)))
        (node_of parts (alt (trees (map tree_of branches.now))))) }
{
    let row = analyze_row(alloc, branches, start, calls, read)?;
    Ok(Parts {
        properties: alternation_properties(start, row.end, &row.infos),
        children: row.infos,
    })
}

/// A capture group with this body; its number is `start`.
#[cycle(analyze_node)]
fn parts_of_group<'a>(
    alloc: Global,
    body: &'a Expr,
    start: usize,
    calls: &[Size],
    read: &[bool],
) -> Result<Parts<'a>, AllocError>
    ensures { IfOk result
        (λ parts. IsAnalysisOf calls.now read.now start (group (tree_of body.now)) (node_of parts (group (tree_of body.now)))) }
{
    let child = analyze_node(alloc, body, start.saturating_add(1), calls, read)?;
    let properties = group_properties(start, is_marked(read, start), child.properties());
    one_part(alloc, properties, child)
}

#[cycle(analyze_node)]
fn parts_of_absent<'a>(
    alloc: Global,
    absent: &'a Absent,
    start: usize,
    calls: &[Size],
    read: &[bool],
) -> Result<Parts<'a>, AllocError>
    ensures { IfOk result
        (λ parts. IsAnalysisOf calls.now read.now start (absent_tree_of absent.now) (node_of parts (absent_tree_of absent.now))) }
{
    match absent {
        Absent::Repeater(child) => {
            let child = analyze_node(alloc, child, start, calls, read)?;
            wrapper_parts(alloc, any_size(), child)
        }
        Absent::Stopper(child) => {
            let child = analyze_node(alloc, child, start, calls, read)?;
            wrapper_parts(alloc, any_size(), child)
        }
        Absent::Expression { absent, exp } => {
            let absent = analyze_node(alloc, absent, start, calls, read)?;
            let exp = analyze_node(alloc, exp, absent.end_group(), calls, read)?;
            absent_expression_parts(alloc, any_size(), absent, exp)
        }
        Absent::Clear => Ok(no_parts(alloc, start, any_size())),
    }
}

#[cycle(analyze_node)]
fn parts_of_unresolved<'a>(
    alloc: Global,
    node: &'a AstNode,
    start: usize,
    calls: &[Size],
    read: &[bool],
) -> Result<Parts<'a>, AllocError>
    ensures { IfOk result (λ parts. (position : ℕ) →
        IsAnalysisOf calls.now read.now start (ast_tree_of node.now position) (node_of parts (ast_tree_of node.now position))) }
{
    match node {
        AstNode::AstGroup { inner, .. } => {
            let child = analyze_node(alloc, inner, start, calls, read)?;
            wrapper_parts(alloc, always(0), child)
        }
        AstNode::Backref { .. } => Ok(no_parts(alloc, start, any_size())),
        AstNode::SubroutineCall(_) => Ok(no_parts(alloc, start, any_size())),
        AstNode::BackrefExistsCondition { .. } => Ok(no_parts(alloc, start, always(0))),
    }
}

/// The analysis of the items of a concatenation or alternation, in pattern order.
#[derive(Drop)]
struct Row<'a> {
    infos: Vec<Info<'a>>,
    /// The number of the next capture group after them.
    end: usize,
}

/// Analyzes the items of a concatenation or the branches of an alternation.
#[cycle(analyze_node)]
fn analyze_row<'a>(
    alloc: Global,
    parts: &'a [Expr],
    start: usize,
    calls: &[Size],
    read: &[bool],
) -> Result<Row<'a>, AllocError>
    ensures { IfOk result
        (λ row. AreAnalysesOf calls.now read.now start (trees (map tree_of parts.now)) (infos (map info_of row.infos.items)) row.end) }
{
    let mut infos = Vec::new(alloc);
    let mut end = start;
    for part in parts {
        let info = analyze_node(alloc, part, end, calls, read)?;
        end = info.end_group();
        infos.push(info)?;
    }
    Ok(Row { infos, end })
}

/// The result for a node without children.
fn leaf_parts<'a>(alloc: Global, expr: &Expr, start: usize, calls: &[Size]) -> Parts<'a>
    requires { IsTrue (is_leaf (tree_of expr.now)) }
    ensures { (read : List Bool) → IsAnalysisOf calls.now read start (tree_of expr.now) (node_of result (tree_of expr.now)) }
{
    Parts {
        properties: leaf(start, size_in(expr, calls), !is_easy_leaf(expr)),
        children: Vec::new(alloc),
    }
}

/// Whether this node without children is easy; one that is not named here is hard.
#[tactic(auto, unfolding(crate::specs::Easy::is_easy))]
fn is_easy_leaf(expr: &Expr) -> bool
    ensures { (reads : ℕ → Bool) (n : ℕ) → IsTrue (is_leaf (tree_of expr.now)) → result ≡ is_easy reads n (tree_of expr.now) }
{
    match expr {
        Expr::Empty | Expr::Any { .. } | Expr::Literal { .. } | Expr::Delegate { .. } => true,
        Expr::Assertion(assertion) => is_easy_assertion(*assertion),
        _ => false,
    }
}

/// The result for a hard node without children, of this size.
fn no_parts<'a>(alloc: Global, start: usize, size: Size) -> Parts<'a>
    ensures { (t : Tree) → node_of result t ≡ known (combined.leaf start (size_of size) true) t no_infos }
{
    Parts {
        properties: leaf(start, size, true),
        children: Vec::new(alloc),
    }
}

/// The result for a quantified child, from `lo` to `hi` times.
fn repeat_parts<'a>(
    alloc: Global,
    lo: usize,
    hi: usize,
    child: Info<'a>,
) -> Result<Parts<'a>, AllocError>
    ensures { IfOk result (λ parts. (t : Tree) → node_of parts t
        ≡ known (combined.repeat_properties lo hi (properties_in (info_of child.entry))) t (more_infos (info_of child.entry) no_infos)) }
{
    let properties = repeat_properties(lo, hi, child.properties());
    one_part(alloc, properties, child)
}

/// The result for another node with one child, of this size.
fn wrapper_parts<'a>(alloc: Global, size: Size, child: Info<'a>) -> Result<Parts<'a>, AllocError>
    ensures { IfOk result (λ parts. (t : Tree) → node_of parts t
        ≡ known (combined.wrapper_properties (size_of size) (properties_in (info_of child.entry))) t
        (more_infos (info_of child.entry) no_infos)) }
{
    let properties = wrapper_properties(size, child.properties());
    one_part(alloc, properties, child)
}

/// The result for a node with one child and these properties.
fn one_part<'a>(
    alloc: Global,
    properties: NodeProperties,
    child: Info<'a>,
) -> Result<Parts<'a>, AllocError>
    ensures { IfOk result (λ parts. (t : Tree) → node_of parts t
        ≡ known (properties_of properties) t (more_infos (info_of child.entry) no_infos)) }
{
    let mut children = Vec::new(alloc);
    children.push(child)?;
    Ok(Parts {
        properties,
        children,
    })
}

/// The result for an absent expression, of this size.
fn absent_expression_parts<'a>(
    alloc: Global,
    size: Size,
    first: Info<'a>,
    second: Info<'a>,
) -> Result<Parts<'a>, AllocError>
    ensures { IfOk result (λ parts. (t : Tree) → node_of parts t
        ≡ known
        (combined.absent_expression_properties (size_of size) (properties_in (info_of first.entry)) (properties_in (info_of second.entry)))
        t
        (more_infos (info_of first.entry) (more_infos (info_of second.entry) no_infos))) }
{
    let properties = absent_expression_properties(size, first.properties(), second.properties());
    let mut children = Vec::new(alloc);
    children.push(first)?;
    children.push(second)?;
    Ok(Parts {
        properties,
        children,
    })
}

/// The result for a conditional.
fn conditional_parts<'a>(
    alloc: Global,
    condition: Info<'a>,
    yes: Info<'a>,
    no: Info<'a>,
) -> Result<Parts<'a>, AllocError>
    ensures { IfOk result (λ parts. (t : Tree) → node_of parts t
        ≡ known
        (combined.conditional_properties (properties_in (info_of condition.entry)) (properties_in (info_of yes.entry))
        (properties_in (info_of no.entry)))
        t
        (more_infos (info_of condition.entry) (more_infos (info_of yes.entry) (more_infos (info_of no.entry) no_infos)))) }
{
    let properties = conditional_properties(
        condition.properties(),
        yes.properties(),
        no.properties(),
    );
    let mut children = Vec::new(alloc);
    children.push(condition)?;
    children.push(yes)?;
    children.push(no)?;
    Ok(Parts {
        properties,
        children,
    })
}

fn is_easy_assertion(assertion: Assertion) -> bool
    ensures { result ≡ is_easy_look assertion }
{
    match assertion {
        Assertion::StartText | Assertion::EndText => true,
        Assertion::StartLine { .. } | Assertion::EndLine { .. } => true,
        Assertion::LeftWordBoundary | Assertion::RightWordBoundary => true,
        Assertion::WordBoundary | Assertion::NotWordBoundary => true,
        Assertion::LeftWordHalfBoundary | Assertion::RightWordHalfBoundary => false,
        Assertion::EndTextIgnoreTrailingNewlines { .. } => false,
        Assertion::StartLineOniguruma { .. } => false,
    }
}
