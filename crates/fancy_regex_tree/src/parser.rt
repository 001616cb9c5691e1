//! A recursive-descent parser for patterns: alternations, branches, atoms and groups.
//!
//! Each function parses a part at the front of the text, and answers what it parsed and the rest. Groups may be up to 63 levels
//! deep; a tree of n characters has at most 2n + 1 nodes.

ghost use Rattle.std.specs.Prelude.{◌≡◌, ◌-◌, ◌+◌, ◌*◌, ◌≤◌, ◌<◌, IfOk, chars, length, map, nat_lt, true};
ghost use Rattle.std.specs.List.{list_all};
ghost use Rattle.fancy_regex_text.specs.ParseFault.{Gives, Stops, general_parse_error};
ghost use Rattle.fancy_regex_lex.specs.Openings.{opening_of};
ghost use Rattle.fancy_regex_tree.specs.Tree.{tree_of};
ghost use Rattle.fancy_regex_tree.specs.Views.{atom_of};
ghost use Rattle.fancy_regex_tree.specs.Bounds.{nodes, depth, pieces_measure, branches_measure, max_depth, max_depth_of_all, extra_nodes};
ghost use Rattle.fancy_regex_tree.specs.Parser.{plain, ends_branch, parse_group_body, parse_group_expression, parse_expression_conditional, parse_group, parse_parenthesized, parse_atom};
ghost use Rattle.fancy_regex_tree.specs.Parser.{parse_piece, parse_branch, branches, parse_alternation, inner_parser, parse_whole_pattern, parse_pattern};

use crate::expr::{Absent, Expr};
use crate::parse_atoms::{
    back_reference, call, capture, condition, look_of, parse_simple_atom, place, size_of, verb_of,
};
use crate::parser_config::ParserConfig;
use crate::quantifiers::{Atom, most_quantifiers, parse_quantifiers};
use crate::tree_builders::{
    absent_bar_of, conditional_of_branches, is_empty_body, make_conditional, pattern_of,
};
use fancy_regex_lex::{
    Flags, Opening, ParseError, ParseFault, ReadError, fail_at, is_empty, opening, skip,
    split_first, strip_prefix,
};
use std::alloc::Global;

/// The state of the parser that all parts of a pattern share.
#[derive(Clone, Copy)]
pub struct Parser {
    /// Where the tree is allocated.
    pub alloc: Global,
    /// What is fixed for the whole pattern.
    pub config: ParserConfig,
    /// Whether the parser is inside a look-around.
    pub in_look: bool,
    /// How many more levels of parentheses may open.
    pub levels: usize,
}

impl Parser {
    /// The parser inside a look-around.
    fn in_look(self) -> Parser
        ensures { result ≡ record self { in_look = true } }
    {
        Parser {
            in_look: true,
            ..self
        }
    }
}

/// Fails with `GeneralParseError` and this message, at the start of `text`.
fn general_error<T>(alloc: Global, words: &str, text: &str) -> Result<T, ReadError>
    requires { list_all (λ b. nat_lt b 128) words.now ≡ true }
    ensures { Stops result (general_parse_error words.now) (chars text.now) }
{
    fail_at(
        ParseError::GeneralParseError(String::from_str(alloc, words)?),
        text,
    )
}

/// The atom of a node that is no non-capturing group.
fn plain(tree: Expr) -> Atom
    ensures { atom_of result ≡ plain (tree_of tree) }
{
    Atom {
        tree,
        is_non_capturing_group: false,
    }
}

/// The atom of the body of a non-capturing group.
fn non_capturing(tree: Expr) -> Atom
    ensures { atom_of result ≡ record { tree = tree_of tree; is_non_capturing_group = true } }
{
    Atom {
        tree,
        is_non_capturing_group: true,
    }
}

/// Whether a branch ends here: at `|`, `)` or the end of the text.
fn ends_branch(text: &str) -> bool
    ensures { result ≡ ends_branch (chars text.now) }
{
    match split_first(text) {
        Some((c, _)) => c == '|' || c == ')',
        None => true,
    }
}

/// Parses a branch, up to `|`, `)` or the end of the text. Answers its pieces, the flags in force after it, and the rest.
#[cycle(parser)]
fn parse_branch(
    parser: Parser,
    flags: Flags,
    text: &str,
) -> Result<(Vec<Expr>, Flags, &str), ReadError>
    ensures value { Gives (λ x. (map tree_of x.0.items, x.1, chars x.2.now)) result
        (parse_branch parser.config (inner_parser parser.config parser.levels)
        (length (chars text.now) + 1) parser.in_look flags (chars text.now)) }
    ensures shorter { IfOk result (λ x. length (chars x.2.now) ≤ length (chars text.now)) }
    ensures small { IfOk result (λ x. pieces_measure (map tree_of x.0.items) + 2 * length (chars x.2.now) ≤ 2 * length (chars text.now)) }
    ensures low { IfOk result (λ x. max_depth (map tree_of x.0.items) ≤ 13 * parser.levels + 11) }
{
    let mut all = Vec::new(parser.alloc);
    let mut now = flags;
    let mut rest = text;
    loop {
        let here = skip(now.verbose, rest)?;
        if ends_branch(here) {
            return Ok((all, now, here));
        }
        let (piece, changed, after) = parse_piece(parser, now, here)?;
        all.push(piece)?;
        now = changed;
        rest = after;
    }
}

/// Parses branches with `|` between them, up to `)` or the end of the text. Answers the pieces of each, the flags in force
/// after them, and the rest.
#[cycle(parser)]
fn parse_alternation(
    parser: Parser,
    flags: Flags,
    text: &str,
) -> Result<(Vec<Vec<Expr>>, Flags, &str), ReadError>
    ensures value { Gives (λ x. (map (λ b. map tree_of b.items) x.0.items, x.1, chars x.2.now)) result
        (parse_alternation parser.config parser.levels parser.in_look flags (chars text.now)) }
    ensures shorter { IfOk result (λ x. length (chars x.2.now) ≤ length (chars text.now)) }
    ensures small { IfOk result (λ x.
        branches_measure (map (λ b. map tree_of b.items) x.0.items) + 2 * length (chars x.2.now) ≤ 2 * length (chars text.now) + 2) }
    ensures low { IfOk result (λ x. max_depth_of_all (map (λ b. map tree_of b.items) x.0.items) ≤ 13 * parser.levels + 11) }
{
    let mut all = Vec::new(parser.alloc);
    let mut now = flags;
    let mut rest = text;
    loop {
        let (branch, changed, after) = parse_branch(parser, now, rest)?;
        all.push(branch)?;
        let Some(next) = strip_prefix(after, "|") else {
            return Ok((all, changed, after));
        };
        now = changed;
        rest = next;
    }
}

/// Parses the body of a group and its closing parenthesis. Without one it is the error `UnclosedOpenParen`.
#[cycle(parser)]
#[tactic(auto, unfolding(crate::specs::Parser::parse_group_body))]
fn parse_group_body(
    parser: Parser,
    flags: Flags,
    text: &str,
) -> Result<(Vec<Vec<Expr>>, Flags, &str), ReadError>
    ensures value { Gives (λ x. (map (λ b. map tree_of b.items) x.0.items, x.1, chars x.2.now)) result
        (parse_group_body parser.config (parse_alternation parser.config parser.levels) parser.in_look flags (chars text.now)) }
    ensures shorter { IfOk result (λ x. length (chars x.2.now) < length (chars text.now)) }
    ensures small { IfOk result (λ x.
        branches_measure (map (λ b. map tree_of b.items) x.0.items) + 2 * length (chars x.2.now) ≤ 2 * length (chars text.now)) }
    ensures low { IfOk result (λ x. max_depth_of_all (map (λ b. map tree_of b.items) x.0.items) ≤ 13 * parser.levels + 11) }
{
    let (branches, changed, rest) = parse_alternation(parser, flags, text)?;
    let Some(after) = strip_prefix(rest, ")") else {
        return Err(ReadError::ParseFault(ParseFault {
            left: 0,
            kind: ParseError::UnclosedOpenParen,
        }));
    };
    Ok((branches, changed, after))
}

/// Parses the body of a group and its closing parenthesis; answers the body as one node.
#[cycle(parser)]
#[tactic(auto, unfolding(crate::specs::Parser::parse_group_expression))]
fn parse_group_expression(
    parser: Parser,
    flags: Flags,
    text: &str,
) -> Result<(Expr, Flags, &str), ReadError>
    ensures value { Gives (λ x. (tree_of x.0, x.1, chars x.2.now)) result
        (parse_group_expression parser.config (parse_alternation parser.config parser.levels) parser.in_look flags (chars text.now)) }
    ensures shorter { IfOk result (λ x. length (chars x.2.now) ≤ length (chars text.now)) }
    ensures small { IfOk result (λ x. nodes (tree_of x.0) + 1 + 2 * length (chars x.2.now) ≤ 2 * length (chars text.now)) }
    ensures low { IfOk result (λ x. depth (tree_of x.0) ≤ 13 * parser.levels + 13) }
{
    let (branches, changed, rest) = parse_group_body(parser, flags, text)?;
    Ok((pattern_of(parser.alloc, branches)?, changed, rest))
}

/// Parses a conditional whose condition is an expression, from after `(?(`; `here` is where the group opens. A conditional
/// without branches is an error.
#[cycle(parser)]
#[tactic(auto, unfolding(crate::specs::Parser::parse_expression_conditional))]
fn parse_expression_conditional<'t>(
    parser: Parser,
    here: &str,
    flags: Flags,
    text: &'t str,
) -> Result<(Expr, Flags, &'t str), ReadError>
    ensures value { Gives (λ x. (tree_of x.0, x.1, chars x.2.now)) result
        (parse_expression_conditional parser.config (parse_alternation parser.config parser.levels)
        parser.in_look (chars here.now) flags (chars text.now)) }
    ensures shorter { IfOk result (λ x. length (chars x.2.now) ≤ length (chars text.now)) }
    ensures small { IfOk result (λ x. nodes (tree_of x.0) + 2 * length (chars x.2.now) ≤ 2 * length (chars text.now)) }
    ensures low { IfOk result (λ x. depth (tree_of x.0) ≤ 13 * parser.levels + 14) }
{
    let (condition, flags_between, body_text) = parse_group_expression(parser, flags, text)?;
    let (body, flags_after, rest) = parse_group_body(parser, flags_between, body_text)?;
    if is_empty_body(&body) {
        return general_error(parser.alloc, "condition without branches", here);
    }
    Ok((
        conditional_of_branches(parser.alloc, condition, body)?,
        flags_after,
        rest,
    ))
}

/// Parses the rest of a group, after its opening token `how`; `here` is where the group opens. Answers the atom, the flags
/// in force after the group, and the rest of the text.
#[cycle(parser)]
#[tactic(auto, unfolding(crate::specs::Parser::parse_group))]
fn parse_group<'t>(
    parser: Parser,
    here: &str,
    flags: Flags,
    how: Opening<'t>,
    text: &'t str,
) -> Result<(Atom, Flags, &'t str), ReadError>
    ensures value { Gives (λ x. (atom_of x.0, x.1, chars x.2.now)) result
        (parse_group parser.config (parse_alternation parser.config parser.levels)
        parser.in_look (chars here.now) flags (opening_of how.entry) (chars text.now)) }
    ensures shorter { IfOk result (λ x. length (chars x.2.now) ≤ length (chars text.now)) }
    ensures small { IfOk result (λ x. nodes (tree_of x.0.tree) + 2 * length (chars x.2.now)
        ≤ 2 * length (chars text.now) + 1 + extra_nodes (opening_of how.entry)) }
    ensures low { IfOk result (λ x. depth (tree_of x.0.tree) ≤ 13 * parser.levels + 14) }
{
    let alloc = parser.alloc;
    let position = place(parser.config, here);
    match how {
        Opening::Capturing(name) => {
            let (body, flags_after, rest) = parse_group_expression(parser, flags, text)?;
            Ok((
                plain(capture(alloc, position, name, body)?),
                flags_after,
                rest,
            ))
        }
        Opening::NonCapturing(changed) => {
            let (tree, _, rest) = parse_group_expression(parser, changed, text)?;
            Ok((non_capturing(tree), flags, rest))
        }
        Opening::SetFlags(changed) => Ok((plain(Expr::Empty), changed, text)),
        Opening::Atomic => {
            let (body, flags_after, rest) = parse_group_expression(parser, flags, text)?;
            let atomic = Expr::AtomicGroup(Box::new(alloc, body)?);
            Ok((plain(atomic), flags_after, rest))
        }
        Opening::LookAround(look) => {
            let (body, flags_after, rest) = parse_group_expression(parser.in_look(), flags, text)?;
            let around = Expr::LookAround(Box::new(alloc, body)?, look_of(look));
            Ok((plain(around), flags_after, rest))
        }
        Opening::IfSet(reference) => {
            let (body, flags_after, rest) = parse_group_body(parser, flags, text)?;
            let condition = condition(alloc, position, reference)?;
            Ok((
                plain(make_conditional(alloc, condition, body)?),
                flags_after,
                rest,
            ))
        }
        Opening::IfMatches => {
            let (tree, flags_after, rest) = parse_expression_conditional(
                parser, here, flags, text,
            )?;
            Ok((plain(tree), flags_after, rest))
        }
        Opening::Define => {
            let (body, flags_after, rest) = parse_group_expression(parser, flags, text)?;
            let definitions = Box::new(alloc, body)?;
            Ok((plain(Expr::DefineGroup { definitions }), flags_after, rest))
        }
        Opening::Absent => {
            let (body, flags_after, rest) = parse_group_expression(parser, flags, text)?;
            let repeater = Absent::Repeater(Box::new(alloc, body)?);
            Ok((plain(Expr::Absent(repeater)), flags_after, rest))
        }
        Opening::AbsentBar => {
            let (body, flags_after, rest) = parse_group_body(parser, flags, text)?;
            Ok((plain(absent_bar_of(alloc, body)?), flags_after, rest))
        }
        Opening::BackReference(reference) => {
            let tree = back_reference(alloc, flags, position, reference)?;
            Ok((plain(tree), flags, text))
        }
        Opening::Call(target) => Ok((plain(call(alloc, position, target)?), flags, text)),
        Opening::Verb(verb) => {
            let tree = Expr::BacktrackingControlVerb(verb_of(verb));
            Ok((plain(tree), flags, text))
        }
    }
}

/// Parses a group; `text` begins with its opening parenthesis. One level too many is the error `RecursionExceeded`.
#[cycle(parser)]
#[tactic(auto, unfolding(crate::specs::Parser::parse_parenthesized))]
fn parse_parenthesized(
    parser: Parser,
    flags: Flags,
    text: &str,
) -> Result<(Atom, Flags, &str), ReadError>
    ensures value { Gives (λ x. (atom_of x.0, x.1, chars x.2.now)) result
        (parse_parenthesized parser.config (inner_parser parser.config parser.levels) parser.in_look flags (chars text.now)) }
    ensures shorter { IfOk result (λ x. length (chars x.2.now) ≤ length (chars text.now) - 1) }
    ensures small { IfOk result (λ x. nodes (tree_of x.0.tree) + 2 * length (chars x.2.now) ≤ 2 * (length (chars text.now) - 1) + 1) }
    ensures low { IfOk result (λ x. depth (tree_of x.0.tree) ≤ 13 * parser.levels + 1) }
{
    if parser.levels == 0 {
        return fail_at(ParseError::RecursionExceeded, text);
    }
    let levels = parser.levels - 1;
    let (how, rest) = opening(parser.alloc, parser.config.unicode, flags, text)?;
    parse_group(Parser { levels, ..parser }, text, flags, how, rest)
}

/// Parses the atom at the front of the text; answers it, the flags in force after it, and the rest.
#[cycle(parser)]
#[tactic(auto, unfolding(crate::specs::Parser::parse_atom))]
fn parse_atom(parser: Parser, flags: Flags, text: &str) -> Result<(Atom, Flags, &str), ReadError>
    ensures value { Gives (λ x. (atom_of x.0, x.1, chars x.2.now)) result
        (parse_atom parser.config (inner_parser parser.config parser.levels) parser.in_look flags (chars text.now)) }
    ensures shorter { IfOk result (λ x. length (chars x.2.now) ≤ length (chars text.now) - 1) }
    ensures small { IfOk result (λ x. nodes (tree_of x.0.tree) + 2 * length (chars x.2.now) ≤ 2 * (length (chars text.now) - 1) + 1) }
    ensures low { IfOk result (λ x. depth (tree_of x.0.tree) ≤ 13 * parser.levels + 1) }
{
    match split_first(text) {
        None => Ok((plain(Expr::Empty), flags, text)),
        Some(('(', _)) => parse_parenthesized(parser, flags, text),
        Some((c, rest)) => {
            let (tree, rest) = parse_simple_atom(
                parser.alloc,
                parser.config,
                parser.in_look,
                flags,
                c,
                rest,
                text,
            )?;
            Ok((plain(tree), flags, rest))
        }
    }
}

/// Parses an atom and its quantifiers; answers the node, the flags in force after it, and the rest.
#[cycle(parser)]
#[tactic(auto, unfolding(crate::specs::Parser::parse_piece))]
fn parse_piece(parser: Parser, flags: Flags, text: &str) -> Result<(Expr, Flags, &str), ReadError>
    ensures value { Gives (λ x. (tree_of x.0, x.1, chars x.2.now)) result
        (parse_piece parser.config (inner_parser parser.config parser.levels) parser.in_look flags (chars text.now)) }
    ensures shorter { IfOk result (λ x. length (chars x.2.now) ≤ length (chars text.now) - 1) }
    ensures small { IfOk result (λ x. nodes (tree_of x.0) + 2 * length (chars x.2.now) ≤ 2 * (length (chars text.now) - 1) + 1) }
    ensures low { IfOk result (λ x. depth (tree_of x.0) ≤ 13 * parser.levels + 11) }
{
    let (atom, changed, after) = parse_atom(parser, flags, text)?;
    let most = most_quantifiers(parser.config.oniguruma);
    let (tree, rest) = parse_quantifiers(parser.alloc, parser.config, changed, most, atom, after)?;
    Ok((tree, changed, rest))
}

/// Parses a whole pattern. A `)` without a group to close is an error.
#[tactic(auto, unfolding(crate::specs::Parser::parse_whole_pattern))]
fn parse_whole_pattern(
    alloc: Global,
    config: ParserConfig,
    flags: Flags,
    text: &str,
) -> Result<Expr, ReadError>
    ensures value { Gives tree_of result (parse_whole_pattern config flags (chars text.now)) }
    ensures small { IfOk result (λ e. nodes (tree_of e) ≤ 2 * length (chars text.now) + 1) }
    ensures low { IfOk result (λ e. depth (tree_of e) ≤ 832) }
{
    let parser = Parser {
        alloc,
        config,
        in_look: false,
        levels: 63,
    };
    let (branches, _, rest) = parse_alternation(parser, flags, text)?;
    if !is_empty(rest) {
        return general_error(alloc, "end of string not reached", rest);
    }
    Ok(pattern_of(alloc, branches)?)
}

/// Parses a whole pattern. `flags` are in force at its start; `unicode` is the flag `u`.
///
/// Answers the tree, in which groups have no numbers and references are not resolved, or the first error with how many bytes
/// are left there, or want of memory.
#[tactic(auto, unfolding(crate::specs::Parser::parse_pattern))]
pub fn parse_pattern(
    alloc: Global,
    oniguruma: bool,
    unicode: bool,
    flags: Flags,
    text: &str,
) -> Result<Expr, ReadError>
    ensures value { Gives tree_of result (parse_pattern oniguruma unicode flags (chars text.now)) }
    ensures small { IfOk result (λ e. nodes (tree_of e) ≤ 2 * length text.now + 1) }
    ensures low { IfOk result (λ e. depth (tree_of e) ≤ 832) }
{
    let config = ParserConfig {
        size: size_of(text),
        oniguruma,
        unicode,
    };
    parse_whole_pattern(alloc, config, flags, text)
}
