//! Parses a pattern: syntax, group numbers, references, summary.

ghost use Rattle.std.specs.Prelude.{◌≡◌, ◌≤◌, ◌+◌, ◌*◌, length, chars, IfOk, IfErr};
ghost use Rattle.fancy_regex_text.specs.Text.{bytes};
ghost use Rattle.fancy_regex_tree.specs.Tree.{tree_of};
ghost use Rattle.fancy_regex_tree.specs.Parser.{parse_pattern};
ghost use Rattle.fancy_regex_tree.specs.Numbering.{AgreesWith};
ghost use Rattle.fancy_regex_tree.specs.Parse.{options_of, with_position, parse};
ghost use Rattle.fancy_regex_tree.specs.Bounds.{nodes, depth};
ghost use Rattle.fancy_regex_tree.specs.Options.{unicode_only};
ghost use Rattle.fancy_regex_tree.specs.ParseResult.{IsParsed, IsWithin, IsBounded, IsGroupSummary, IsReferenceSummary};

use crate::error::{Error, Result};
use crate::expr::Expr;
use crate::expr_tree::{ExprTree, NamedGroups};
use crate::flag_bits::FLAG_UNICODE;
use crate::group_names::{group_names, named_groups};
use crate::parse_options::ParseOptions;
use crate::parser::parse_pattern;
use crate::reference_summary::{
    any_call, any_call_of_whole, any_named, any_numbered, any_reference_above, backrefs,
};
use crate::resolve::Resolver;
use fancy_regex_lex::ReadError;
use std::alloc::{AllocError, Global};
use std::collections::BTreeSet;

/// Parses a pattern into a tree with unresolved references. An error has its byte offset, at most the length of `re`.
fn parse_unresolved(alloc: Global, re: &str, options: ParseOptions) -> Result<Expr>
    ensures value { AgreesWith tree_of result
        (with_position (bytes (chars re.now)) (parse_pattern options.oniguruma options.unicode options.flags (chars re.now))) }
    ensures small { IfOk result (λ expr. nodes (tree_of expr) ≤ 2 * length re.now + 1) }
    ensures low { IfOk result (λ expr. depth (tree_of expr) ≤ 832) }
    ensures within { IfErr result (λ e. IsWithin (length re.now) e) }
{
    match parse_pattern(alloc, options.oniguruma, options.unicode, options.flags, re) {
        Ok(expr) => Ok(expr),
        Err(ReadError::ParseFault(fault)) => Err(Error::ParseError(
            re.len().saturating_sub(fault.left),
            fault.kind,
        )),
        Err(ReadError::Memory) => Err(Error::Memory),
    }
}

/// The capture groups of a pattern, before its references are resolved.
#[derive(Drop)]
struct GroupSummary {
    /// The numbers of the groups of each name.
    named: NamedGroups,
    /// The number of capture groups.
    total: usize,
    /// Whether unnamed groups get no number.
    ignored: bool,
    /// Whether a reference other than a call of group 0 is by number or relative.
    numbered: bool,
}

/// Numbers the capture groups. Unnamed groups get no number if `ignore_numbered` is set and there is a named group.
fn summarize_groups(
    alloc: Global,
    expr: &Expr,
    ignore_numbered: bool,
) -> std::result::Result<GroupSummary, AllocError>
    ensures { IfOk result (λ groups. IsGroupSummary ignore_numbered (tree_of expr.now) groups) }
{
    let nodes = expr.preorder(alloc)?;
    let ignored = ignore_numbered && any_named(&nodes);
    let names = group_names(alloc, &nodes, ignored)?;
    Ok(GroupSummary {
        named: named_groups(alloc, &names)?,
        total: names.len(),
        ignored,
        numbered: any_numbered(&nodes),
    })
}

/// What the resolved references of a pattern refer to.
#[derive(Drop)]
struct ReferenceSummary {
    /// The group numbers, at most the total, that back references and conditions name.
    backrefs: BTreeSet<usize>,
    /// Whether there is a subroutine call.
    contains_subroutines: bool,
    /// Whether a reference names a group number above the total.
    reference_above_total: bool,
    /// Whether a call names group 0.
    calls_whole: bool,
}

/// Summarizes the references of a pattern with `total` capture groups.
fn summarize_references(
    alloc: Global,
    expr: &Expr,
    total: usize,
) -> std::result::Result<ReferenceSummary, AllocError>
    ensures { IfOk result (λ summary. IsReferenceSummary total (tree_of expr.now) summary) }
{
    let nodes = expr.preorder(alloc)?;
    Ok(ReferenceSummary {
        backrefs: backrefs(alloc, &nodes, total)?,
        contains_subroutines: any_call(&nodes),
        reference_above_total: any_reference_above(total, &nodes),
        calls_whole: any_call_of_whole(&nodes),
    })
}

impl Expr {
    /// Parses a pattern with `FLAG_UNICODE` alone; see `parse_tree_with_flags`.
    ///
    /// # Errors
    ///
    /// Those of `parse_tree_with_flags`.
    ///
    /// ```
    /// let tree = Expr::parse_tree(alloc, "ab")?;
    /// assert!(rt; matches!(&tree.expr, Expr::Concat(_)));
    /// assert!(rt; Expr::parse_tree(alloc, "(a").is_err());
    /// ```
    pub fn parse_tree(alloc: Global, re: &str) -> Result<ExprTree>
        ensures value { IsParsed result (parse unicode_only (chars re.now)) }
        ensures bounded { IsBounded (length re.now) result }
    {
        Expr::parse_tree_with_flags(alloc, re, FLAG_UNICODE)
    }

    /// Parses a pattern. `flags` is a union of the constants `FLAG_...`; other bits are ignored.
    ///
    /// Answers the syntax tree, with references resolved, and the summary of its groups and references. The tree of a pattern of
    /// n bytes has at most 2n + 1 nodes, and no path in it has more than 832.
    ///
    /// # Errors
    ///
    /// `Error::ParseError` with the first error of the pattern and its byte offset, which is at most the length of `re`; errors of
    /// syntax come before those of references. `Error::Memory` if an allocation fails.
    ///
    /// ```
    /// let tree = Expr::parse_tree_with_flags(alloc, ".", FLAG_UNICODE | FLAG_DOTNL)?;
    /// assert!(rt; matches!(&tree.expr, Expr::Any { newline: true, .. }));
    /// ```
    pub fn parse_tree_with_flags(alloc: Global, re: &str, flags: u32) -> Result<ExprTree>
        ensures value { IsParsed result (parse (options_of flags) (chars re.now)) }
        ensures bounded { IsBounded (length re.now) result }
    {
        Expr::parse_tree_with_options(alloc, re, ParseOptions::from_flags(flags))
    }

    /// Parses a pattern with the options as a struct; see `parse_tree_with_flags` for what it answers.
    ///
    /// # Errors
    ///
    /// Those of `parse_tree_with_flags`.
    ///
    /// ```
    /// let mut options = ParseOptions::from_flags(FLAG_UNICODE);
    /// options.flags.dot_newline = true;
    /// let tree = Expr::parse_tree_with_options(alloc, ".", options)?;
    /// assert!(rt; matches!(&tree.expr, Expr::Any { newline: true, .. }));
    /// ```
    pub fn parse_tree_with_options(
        alloc: Global,
        re: &str,
        options: ParseOptions,
    ) -> Result<ExprTree>
        ensures value { IsParsed result (parse options (chars re.now)) }
        ensures bounded { IsBounded (length re.now) result }
    {
        let mut expr = parse_unresolved(alloc, re, options)?;
        let groups = summarize_groups(alloc, &expr, options.ignore_numbered)?;
        let resolver = Resolver {
            named: &groups.named,
            ignored: groups.ignored,
        };
        resolver.resolve(&mut expr, 0)?;
        let summary = summarize_references(alloc, &expr, groups.total)?;
        Ok(ExprTree {
            expr,
            backrefs: summary.backrefs,
            named_groups: groups.named,
            contains_subroutines: summary.contains_subroutines,
            total_groups: groups.total,
            reference_above_total: summary.reference_above_total,
            named_backref_only: groups.ignored && groups.numbered,
            calls_whole: summary.calls_whole,
        })
    }
}
