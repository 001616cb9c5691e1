//! Parses atoms that do not begin with a parenthesis, and makes the nodes of tokens.

ghost use Rattle.std.specs.Prelude.{◌≡◌, ◌-◌, ◌≤◌, ◌∷◌, ◌<◌, [], IfOk, chars, length, option_map, string_bytes};
ghost use Rattle.fancy_regex_text.specs.Text.{bytes};
ghost use Rattle.fancy_regex_text.specs.ParseFault.{Gives};
ghost use Rattle.fancy_regex_text.specs.Names.{named_of};
ghost use Rattle.fancy_regex_lex.specs.Escapes.{escape_of};
ghost use Rattle.fancy_regex_tree.specs.Tree.{tree_of, target_of, ast_backref, ast_call, ast_condition, ast_group};
ghost use Rattle.fancy_regex_tree.specs.Atoms.{place, target_named, look_of, verb_of, assertion_at, char_tree, escape_tree, line_start, line_end};
ghost use Rattle.fancy_regex_tree.specs.Bounds.{IsLeaf};
ghost use Rattle.fancy_regex_tree.specs.Parser.{parse_escape, parse_bracketed_class, parse_character, parse_simple_atom};

use crate::expr::{
    Assertion, AstNode, BacktrackingControlVerb, CaptureGroupTarget, Expr, LookAround,
};
use crate::parser_config::ParserConfig;
use fancy_regex_lex::{
    AssertionEscape, Escape, Flags, Look, ParseError, ReadError, Reference, Target, Verb,
    bracketed_class, escape, fail_at, leading_quantifier,
};
use std::alloc::{AllocError, Global};

/// The length of the text in bytes.
pub fn size_of(text: &str) -> usize
    ensures { result ≡ bytes (chars text.now) }
{
    text.len()
}

/// The byte offset in the pattern at which this rest of the pattern begins.
pub fn place(config: ParserConfig, text: &str) -> usize
    ensures { result ≡ place config (chars text.now) }
{
    config.size.saturating_sub(size_of(text))
}

/// The target of a reference as the tree holds it, with a copy of its name.
pub fn target_named(alloc: Global, target: Target<'_>) -> Result<CaptureGroupTarget, AllocError>
    ensures { IfOk result (λ t. target_of t ≡ target_named (named_of target.entry)) }
{
    match target {
        Target::ByNumber(number) => Ok(CaptureGroupTarget::ByNumber(number)),
        Target::ByName(name) => { Ok(CaptureGroupTarget::ByName(String::from_str(alloc, name)?)) }
        Target::Relative(distance) => Ok(CaptureGroupTarget::Relative(distance)),
    }
}

/// The look-around node type of a look-around token.
pub fn look_of(look: Look) -> LookAround
    ensures { result ≡ look_of look }
{
    match look {
        Look::Ahead => LookAround::LookAhead,
        Look::AheadNeg => LookAround::LookAheadNeg,
        Look::Behind => LookAround::LookBehind,
        Look::BehindNeg => LookAround::LookBehindNeg,
    }
}

/// The node type of a control verb token.
pub fn verb_of(verb: Verb) -> BacktrackingControlVerb
    ensures { result ≡ verb_of verb }
{
    match verb {
        Verb::Fail => BacktrackingControlVerb::Fail,
        Verb::Accept => BacktrackingControlVerb::Accept,
        Verb::Commit => BacktrackingControlVerb::Commit,
        Verb::Skip => BacktrackingControlVerb::Skip,
        Verb::Prune => BacktrackingControlVerb::Prune,
    }
}

/// The assertion that an escape stands for under these flags.
fn assertion_at(flags: Flags, place: AssertionEscape) -> Assertion
    ensures { result ≡ assertion_at flags place }
{
    match place {
        AssertionEscape::TextStart => Assertion::StartText,
        AssertionEscape::TextEnd => Assertion::EndText,
        AssertionEscape::TextEndOrNewlines => Assertion::EndTextIgnoreTrailingNewlines {
            crlf: flags.crlf,
        },
        AssertionEscape::WordBoundary => Assertion::WordBoundary,
        AssertionEscape::NotWordBoundary => Assertion::NotWordBoundary,
        AssertionEscape::LeftWordBoundary => Assertion::LeftWordBoundary,
        AssertionEscape::RightWordBoundary => Assertion::RightWordBoundary,
        AssertionEscape::LeftWordHalfBoundary => Assertion::LeftWordHalfBoundary,
        AssertionEscape::RightWordHalfBoundary => Assertion::RightWordHalfBoundary,
    }
}

/// The literal node of one character.
fn char_tree(alloc: Global, flags: Flags, c: char) -> Result<Expr, AllocError>
    ensures value { IfOk result (λ e. tree_of e ≡ char_tree flags c) }
    ensures leaf { IfOk result (λ e. IsLeaf (tree_of e)) }
{
    Ok(Expr::Literal {
        val: char_text(alloc, c)?,
        casei: flags.casei,
    })
}

/// A string of one character.
fn char_text(alloc: Global, c: char) -> Result<String, AllocError>
    ensures { IfOk result (λ s. chars (string_bytes s) ≡ c ∷ []) }
{
    let mut text = String::new(alloc);
    text.push(c)?;
    Ok(text)
}

/// A back reference, still unresolved, whose text begins at the byte offset `position`.
pub fn back_reference(
    alloc: Global,
    flags: Flags,
    position: usize,
    reference: Reference<'_>,
) -> Result<Expr, AllocError>
    ensures value { IfOk result (λ e.
        tree_of e ≡ ast_backref (target_named (named_of reference.entry.target)) flags.casei reference.entry.level position) }
    ensures leaf { IfOk result (λ e. IsLeaf (tree_of e)) }
{
    let node = AstNode::Backref {
        target: target_named(alloc, reference.target)?,
        casei: flags.casei,
        relative_recursion_level: reference.level,
    };
    Ok(Expr::AstNode(node, position))
}

/// A subroutine call, still unresolved, whose text begins at the byte offset `position`.
pub fn call(alloc: Global, position: usize, target: Target<'_>) -> Result<Expr, AllocError>
    ensures value { IfOk result (λ e. tree_of e ≡ ast_call (target_named (named_of target.entry)) position) }
    ensures leaf { IfOk result (λ e. IsLeaf (tree_of e)) }
{
    let node = AstNode::SubroutineCall(target_named(alloc, target)?);
    Ok(Expr::AstNode(node, position))
}

/// A condition on a capture group, still unresolved, in a conditional that begins at the byte offset `position`.
pub fn condition(
    alloc: Global,
    position: usize,
    reference: Reference<'_>,
) -> Result<Expr, AllocError>
    ensures value { IfOk result (λ e.
        tree_of e ≡ ast_condition (target_named (named_of reference.entry.target)) reference.entry.level position) }
    ensures leaf { IfOk result (λ e. IsLeaf (tree_of e)) }
{
    let node = AstNode::BackrefExistsCondition {
        target: target_named(alloc, reference.target)?,
        relative_recursion_level: reference.level,
    };
    Ok(Expr::AstNode(node, position))
}

/// A capture group whose parenthesis opens at the byte offset `position`; without a name if `name` is `None`.
pub fn capture(
    alloc: Global,
    position: usize,
    name: Option<&str>,
    inner: Expr,
) -> Result<Expr, AllocError>
    ensures { IfOk result (λ e. tree_of e ≡ ast_group (option_map (λ s. chars s.now) name.entry) (tree_of inner) position) }
{
    let name = match name {
        Some(name) => Some(String::from_str(alloc, name)?),
        None => None,
    };
    let node = AstNode::AstGroup {
        name,
        inner: Box::new(alloc, inner)?,
    };
    Ok(Expr::AstNode(node, position))
}

/// The node of an escape, whose backslash stands at the byte offset `position`.
fn escape_tree(
    alloc: Global,
    config: ParserConfig,
    flags: Flags,
    position: usize,
    escape: Escape<'_>,
) -> Result<Expr, AllocError>
    ensures value { IfOk result (λ e. tree_of e ≡ escape_tree config flags position (escape_of escape.entry)) }
    ensures leaf { IfOk result (λ e. IsLeaf (tree_of e)) }
{
    match escape {
        Escape::Character(c) => char_tree(alloc, flags, c),
        Escape::Byte(byte) => Ok(Expr::LiteralBytes {
            bytes: vec![in alloc; byte]?,
        }),
        Escape::Class(class) => Ok(Expr::Delegate {
            inner: class.text(alloc)?,
            casei: flags.casei,
        }),
        Escape::Any { newline } => Ok(Expr::Any {
            newline,
            crlf: false,
        }),
        Escape::GeneralNewline => Ok(Expr::GeneralNewline {
            unicode: config.unicode,
        }),
        Escape::Assertion(place) => Ok(Expr::Assertion(assertion_at(flags, place))),
        Escape::ContinueFromPreviousMatchEnd => Ok(Expr::ContinueFromPreviousMatchEnd),
        Escape::KeepOut => Ok(Expr::KeepOut),
        Escape::BackReference(reference) => back_reference(alloc, flags, position, reference),
        Escape::Call(target) => call(alloc, position, target),
    }
}

/// `^`
fn line_start(config: ParserConfig, flags: Flags, in_look: bool) -> Expr
    ensures value { tree_of result ≡ line_start config flags in_look }
    ensures leaf { IsLeaf (tree_of result) }
{
    let crlf = flags.crlf;
    Expr::Assertion(if !flags.multi {
        Assertion::StartText
    } else if config.oniguruma && !in_look {
        Assertion::StartLineOniguruma { crlf }
    } else {
        Assertion::StartLine { crlf }
    })
}

/// `$`
fn line_end(flags: Flags) -> Expr
    ensures value { tree_of result ≡ line_end flags }
    ensures leaf { IsLeaf (tree_of result) }
{
    Expr::Assertion(if flags.multi {
        Assertion::EndLine { crlf: flags.crlf }
    } else {
        Assertion::EndText
    })
}

/// Parses the escape at the front of the text; answers its node and the rest.
#[tactic(auto, unfolding(crate::specs::Parser::parse_escape))]
fn parse_escape(
    alloc: Global,
    config: ParserConfig,
    flags: Flags,
    text: &str,
) -> Result<(Expr, &str), ReadError>
    ensures value { Gives (λ x. (tree_of x.0, chars x.1.now)) result (parse_escape config flags (chars text.now)) }
    ensures shorter { IfOk result (λ x. length (chars x.1.now) < length (chars text.now)) }
    ensures leaf { IfOk result (λ x. IsLeaf (tree_of x.0)) }
{
    let (found, rest) = escape(alloc, config.oniguruma, text)?;
    let tree = escape_tree(alloc, config, flags, place(config, text), found)?;
    Ok((tree, rest))
}

/// Parses the class in brackets at the front of the text; answers its node and the rest.
#[tactic(auto, unfolding(crate::specs::Parser::parse_bracketed_class))]
fn parse_bracketed_class(
    alloc: Global,
    config: ParserConfig,
    flags: Flags,
    text: &str,
) -> Result<(Expr, &str), ReadError>
    ensures value { Gives (λ x. (tree_of x.0, chars x.1.now)) result (parse_bracketed_class config flags (chars text.now)) }
    ensures shorter { IfOk result (λ x. length (chars x.1.now) < length (chars text.now)) }
    ensures leaf { IfOk result (λ x. IsLeaf (tree_of x.0)) }
{
    let (inner, rest) = bracketed_class(alloc, config.oniguruma, text)?;
    let casei = flags.casei;
    Ok((Expr::Delegate { inner, casei }, rest))
}

/// Parses a literal character. A quantifier in its place is the error `TargetNotRepeatable`.
#[tactic(auto, unfolding(crate::specs::Parser::parse_character))]
fn parse_character<'t>(
    alloc: Global,
    flags: Flags,
    c: char,
    rest: &'t str,
    text: &'t str,
) -> Result<(Expr, &'t str), ReadError>
    requires { chars text.now ≡ c ∷ chars rest.now }
    ensures value { Gives (λ x. (tree_of x.0, chars x.1.now)) result (parse_character flags c (chars rest.now)) }
    ensures shorter { IfOk result (λ x. length (chars x.1.now) < length (chars text.now)) }
    ensures leaf { IfOk result (λ x. IsLeaf (tree_of x.0)) }
{
    if leading_quantifier(flags.verbose, text).is_some() {
        return fail_at(ParseError::TargetNotRepeatable, text);
    }
    Ok((char_tree(alloc, flags, c)?, rest))
}

/// Parses an atom that does not begin with a parenthesis: a class, an escape, a dot, an anchor or a literal. `text` is `c` and
/// `rest`. Answers the node and the rest after it, or the first error with how many bytes are left there.
#[tactic(auto, unfolding(crate::specs::Parser::parse_simple_atom))]
pub fn parse_simple_atom<'t>(
    alloc: Global,
    config: ParserConfig,
    in_look: bool,
    flags: Flags,
    c: char,
    rest: &'t str,
    text: &'t str,
) -> Result<(Expr, &'t str), ReadError>
    requires { chars text.now ≡ c ∷ chars rest.now }
    ensures value { Gives (λ x. (tree_of x.0, chars x.1.now)) result (parse_simple_atom config in_look flags c (chars rest.now)) }
    ensures shorter { IfOk result (λ x. length (chars x.1.now) < length (chars text.now)) }
    ensures leaf { IfOk result (λ x. IsLeaf (tree_of x.0)) }
{
    match c {
        '[' => parse_bracketed_class(alloc, config, flags, text),
        '\\' => parse_escape(alloc, config, flags, text),
        '.' => {
            let any = Expr::Any {
                newline: flags.dot_newline,
                crlf: flags.crlf,
            };
            Ok((any, rest))
        }
        '^' => Ok((line_start(config, flags, in_look), rest)),
        '$' => Ok((line_end(flags), rest)),
        _ => parse_character(alloc, flags, c, rest, text),
    }
}
