//! Whether each character class of a tree is parsed as its own text.

ghost use Rattle.std.specs.Prelude.{◌≡◌, IfOk, IsTrue, option_map, chars, false};
ghost use Rattle.fancy_regex_lex.specs.Classes.{bracketed_class};
ghost use Rattle.fancy_regex_lex.specs.Escapes.{escape};
ghost use Rattle.fancy_regex_tree.specs.Tree.{tree_of};
ghost use Rattle.fancy_regex_tree.specs.NormalForm.{whole_class, whole_escape, class_alone};
ghost use Rattle.fancy_regex_tree.specs.Printable.{is_printable, is_same_class, classes_read_back};
ghost use Rattle.fancy_regex_reprint.specs.Reprinted.{text_in, class_reads_back};

use fancy_regex_lex::{Escape, ReadError, bracketed_class, escape, is_empty, split_first};
use fancy_regex_tree::Expr;
use std::alloc::{AllocError, Global};

/// Whether the text of each character class in the tree is parsed as that class again. Fails only if memory runs out.
pub fn classes_read_back(alloc: Global, expr: &Expr) -> Result<bool, AllocError>
    requires { IsTrue (is_printable (tree_of expr.now)) }
    ensures { IfOk result (λ answer. answer ≡ classes_read_back (tree_of expr.now)) }
{
    let nodes = expr.preorder(alloc)?;
    for node in nodes.iter() {
        if !class_reads_back(alloc, node)? {
            return Ok(false);
        }
    }
    Ok(true)
}

/// Whether the node is no character class, or its text is parsed as that class again.
#[tactic(auto, unfolding(crate::specs::Reprinted::class_reads_back))]
fn class_reads_back(alloc: Global, node: &Expr) -> Result<bool, AllocError>
    ensures { IfOk result (λ answer. answer ≡ class_reads_back (tree_of node.now)) }
{
    match node {
        Expr::Delegate { inner, .. } => is_same_class(alloc, inner),
        _ => Ok(true),
    }
}

/// Whether the whole text is one character class, and is parsed as itself.
fn is_same_class(alloc: Global, text: &str) -> Result<bool, AllocError>
    ensures { IfOk result (λ answer. answer ≡ is_same_class (chars text.now) (class_alone (chars text.now))) }
{
    match class_alone(alloc, text)? {
        Some(class) => Ok(class.as_str() == text),
        None => Ok(false),
    }
}

/// The character class that the whole text is parsed as; `None` if it is not one class.
#[tactic(auto, unfolding(fancy_regex_tree::specs::NormalForm::class_alone))]
fn class_alone(alloc: Global, text: &str) -> Result<Option<String>, AllocError>
    ensures { IfOk result (λ class. option_map text_in class ≡ class_alone (chars text.now)) }
{
    match split_first(text) {
        Some(('[', _)) => bracketed_class_alone(alloc, text),
        Some(('\\', _)) => escaped_class_alone(alloc, text),
        _ => Ok(None),
    }
}

/// The class in brackets that the whole text, which begins with `[`, is parsed as.
#[tactic(auto, unfolding(fancy_regex_tree::specs::NormalForm::whole_class))]
fn bracketed_class_alone(alloc: Global, text: &str) -> Result<Option<String>, AllocError>
    ensures { IfOk result (λ class. option_map text_in class ≡ whole_class (bracketed_class false (chars text.now))) }
{
    match bracketed_class(alloc, false, text) {
        Ok((class, rest)) if is_empty(rest) => Ok(Some(class)),
        Ok(_) => Ok(None),
        Err(ReadError::ParseFault(_)) => Ok(None),
        Err(ReadError::Memory) => Err(AllocError),
    }
}

/// The class that the whole text, which begins with a backslash, is parsed as.
#[tactic(auto, unfolding(fancy_regex_tree::specs::NormalForm::whole_escape))]
fn escaped_class_alone(alloc: Global, text: &str) -> Result<Option<String>, AllocError>
    ensures { IfOk result (λ class. option_map text_in class ≡ whole_escape (escape false (chars text.now))) }
{
    match escape(alloc, false, text) {
        Ok((Escape::Class(class), rest)) if is_empty(rest) => Ok(Some(class.text(alloc)?)),
        Ok(_) => Ok(None),
        Err(ReadError::ParseFault(_)) => Ok(None),
        Err(ReadError::Memory) => Err(AllocError),
    }
}
