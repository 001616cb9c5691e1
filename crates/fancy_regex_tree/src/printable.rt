//! Which trees can be printed.

ghost use Rattle.std.specs.Prelude.{◌≡◌, IfOk, map, chars, is_some, false};
ghost use Rattle.fancy_regex_lex.specs.Classes.{bracketed_class};
ghost use Rattle.fancy_regex_lex.specs.Escapes.{escape};
ghost use Rattle.fancy_regex_tree.specs.Tree.{tree_of, trees};
ghost use Rattle.fancy_regex_tree.specs.NormalForm.{whole_class, whole_escape, class_alone, node_kind, normal_form};
ghost use Rattle.fancy_regex_tree.specs.Printable.{can_be_repeated, is_printable_assertion, is_one_character, has_two_branches, is_printable, is_printable_node};

use crate::expr::{Assertion, Expr};
use crate::normal_form_kind::{NormalFormKind, normal_form_kind};
use fancy_regex_lex::{Escape, ReadError, bracketed_class, escape, is_empty, split_first};
use std::alloc::{AllocError, Global};

impl Expr {
    /// Whether `to_str` may print the tree. Printable are empty nodes, dots, literals of one character, character classes that the
    /// parser accepts, assertions but `\Z` and the start of a line in Oniguruma mode, concatenations, alternations of two branches
    /// or more, capture groups, and repetitions with `lo` below `usize::MAX` of anything but an empty node or an assertion.
    ///
    /// # Errors
    ///
    /// `AllocError` if an allocation fails.
    ///
    /// ```
    /// assert!(rt; Expr::parse_tree(alloc, "a|b")?.expr.is_printable(alloc)?);
    /// assert!(rt; !Expr::parse_tree(alloc, "(?=a)")?.expr.is_printable(alloc)?);
    /// ```
    pub fn is_printable(&self, alloc: Global) -> Result<bool, AllocError>
        ensures { IfOk result (λ answer. answer ≡ is_printable (tree_of self.now)) }
    {
        let nodes = self.preorder(alloc)?;
        for node in nodes.iter() {
            if !is_printable_node(alloc, node)? {
                return Ok(false);
            }
        }
        Ok(true)
    }
}

/// Whether the node is printable if those below it are.
#[tactic(auto, unfolding(crate::specs::Printable::is_printable_node))]
fn is_printable_node(alloc: Global, node: &Expr) -> Result<bool, AllocError>
    ensures { IfOk result (λ answer. answer ≡ is_printable_node (tree_of node.now)) }
{
    match node {
        Expr::Empty | Expr::Any { .. } | Expr::Concat(_) | Expr::Group(_) => Ok(true),
        Expr::Assertion(assertion) => Ok(is_printable_assertion(*assertion)),
        Expr::Literal { val, .. } => Ok(is_one_character(val)),
        Expr::Delegate { inner, .. } => is_class(alloc, inner),
        Expr::Alt(branches) => Ok(has_two_branches(branches)),
        Expr::Repeat { child, lo, .. } => Ok(*lo < usize::MAX && can_be_repeated(child)),
        _ => Ok(false),
    }
}

/// Whether there is a text for the assertion.
#[tactic(auto, unfolding(crate::specs::Printable::is_printable_assertion))]
fn is_printable_assertion(assertion: Assertion) -> bool
    ensures { result ≡ is_printable_assertion assertion }
{
    !matches!(
        assertion,
        Assertion::EndTextIgnoreTrailingNewlines { .. } | Assertion::StartLineOniguruma { .. }
    )
}

/// Whether the text has exactly one character.
#[tactic(auto, unfolding(crate::specs::Printable::is_one_character))]
fn is_one_character(text: &str) -> bool
    ensures { result ≡ is_one_character (chars text.now) }
{
    match split_first(text) {
        Some((_, rest)) => is_empty(rest),
        None => false,
    }
}

/// Whether there are two branches or more.
fn has_two_branches(branches: &[Expr]) -> bool
    ensures { result ≡ has_two_branches (trees (map tree_of branches.now)) }
{
    branches.len() >= 2
}

/// Whether a quantifier may follow the printed text of the tree.
#[tactic(auto, unfolding(crate::specs::Printable::can_be_repeated))]
fn can_be_repeated(expr: &Expr) -> bool
    ensures { result ≡ can_be_repeated (node_kind (normal_form (tree_of expr.now))) }
{
    match normal_form_kind(expr) {
        NormalFormKind::Empty | NormalFormKind::Anchor => false,
        NormalFormKind::Repeatable => true,
    }
}

/// Whether the whole text is one character class.
#[tactic(auto, unfolding(crate::specs::NormalForm::class_alone))]
fn is_class(alloc: Global, text: &str) -> Result<bool, AllocError>
    ensures { IfOk result (λ answer. answer ≡ is_some (class_alone (chars text.now))) }
{
    match split_first(text) {
        Some(('[', _)) => is_class_in_brackets(alloc, text),
        Some(('\\', _)) => is_class_escape(alloc, text),
        _ => Ok(false),
    }
}

/// Whether the whole text, which begins with `[`, is one class in brackets.
#[tactic(auto, unfolding(crate::specs::NormalForm::whole_class))]
fn is_class_in_brackets(alloc: Global, text: &str) -> Result<bool, AllocError>
    ensures { IfOk result (λ answer. answer ≡ is_some (whole_class (bracketed_class false (chars text.now)))) }
{
    match bracketed_class(alloc, false, text) {
        Ok((_, rest)) => Ok(is_empty(rest)),
        Err(ReadError::ParseFault(_)) => Ok(false),
        Err(ReadError::Memory) => Err(AllocError),
    }
}

/// Whether the whole text, which begins with a backslash, is one escape for a class.
#[tactic(auto, unfolding(crate::specs::NormalForm::whole_escape))]
fn is_class_escape(alloc: Global, text: &str) -> Result<bool, AllocError>
    ensures { IfOk result (λ answer. answer ≡ is_some (whole_escape (escape false (chars text.now)))) }
{
    match escape(alloc, false, text) {
        Ok((Escape::Class(_), rest)) => Ok(is_empty(rest)),
        Ok(_) => Ok(false),
        Err(ReadError::ParseFault(_)) => Ok(false),
        Err(ReadError::Memory) => Err(AllocError),
    }
}
