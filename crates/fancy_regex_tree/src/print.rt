//! Prints trees as patterns.

ghost use Rattle.std.specs.Prelude.{◌≡◌, ◌++◌, IsTrue, OnOk, OnErr, map, chars, string_bytes};
ghost use Rattle.fancy_regex_tree.specs.Tree.{tree_of, trees};
ghost use Rattle.fancy_regex_tree.specs.Printed.{group_start, group_end, in_group, case_start, with_case, escaped, bar, printed, printed_pieces, printed_branches};
ghost use Rattle.fancy_regex_tree.specs.Printable.{is_printable};

use crate::expr::Expr;
use crate::print_text::{print_ascii, print_char, print_escaped, print_text};
use crate::print_tokens::{print_assertion, print_dot, print_quantifier};
use std::alloc::AllocError;

impl Expr {
    /// Appends the printed text of a printable tree.
    ///
    /// `precedence` says what the text is part of: 0 a whole pattern or a group, 1 a branch, 2 a concatenation, 3 an expression
    /// with a quantifier after it. Where needed, the text is put in a non-capturing group. In its place it reads back as the
    /// normal form of the tree, with the same matches where each class reads back unchanged: the laws of `fancy_regex_print_laws`.
    ///
    /// # Errors
    ///
    /// `AllocError` if an allocation fails; the buffer is then unchanged.
    ///
    /// ```
    /// let tree = Expr::parse_tree(alloc, "(?:ab)*")?;
    /// let mut text = String::new(alloc);
    /// if tree.expr.is_printable(alloc)? {
    ///     tree.expr.to_str(&mut text, 0)?;
    /// }
    /// assert!(rt; text.as_str() == "(?:ab)*");
    /// ```
    pub fn to_str(&self, buf: &mut String, precedence: u8) -> Result<(), AllocError>
        requires { IsTrue (is_printable (tree_of self.now)) }
        ensures printed { OnOk result
            (chars (string_bytes buf.new) ≡ chars (string_bytes buf.old) ++ printed precedence (tree_of self.now)) }
        ensures refused { OnErr result (string_bytes buf.new ≡ string_bytes buf.old) }
    {
        let mut text = String::new(*buf.allocator());
        print(self, precedence, &mut text)?;
        print_text(buf, &text)
    }
}

/// Appends the opening of a non-capturing group, where one is needed.
#[tactic(auto, unfolding(crate::specs::Printed::group_start))]
fn open_group(out: &mut String, needed: bool) -> Result<(), AllocError>
    ensures { OnOk result (chars (string_bytes out.new) ≡ chars (string_bytes out.old) ++ group_start needed) }
{
    if needed {
        print_ascii(out, "(?:")?;
    }
    Ok(())
}

/// Appends the closing parenthesis of a group, where one is needed.
#[tactic(auto, unfolding(crate::specs::Printed::group_end))]
fn close_group(out: &mut String, needed: bool) -> Result<(), AllocError>
    ensures { OnOk result (chars (string_bytes out.new) ≡ chars (string_bytes out.old) ++ group_end needed) }
{
    if needed {
        print_char(out, ')')?;
    }
    Ok(())
}

/// Appends the opening of a group with the flag `i`, where the node is case-insensitive.
#[tactic(auto, unfolding(crate::specs::Printed::case_start))]
fn open_case(out: &mut String, casei: bool) -> Result<(), AllocError>
    ensures { OnOk result (chars (string_bytes out.new) ≡ chars (string_bytes out.old) ++ case_start casei) }
{
    if casei {
        print_ascii(out, "(?i:")?;
    }
    Ok(())
}

/// Appends `|`, where there is a branch before.
#[tactic(auto, unfolding(crate::specs::Printed::bar))]
fn print_bar(out: &mut String, needed: bool) -> Result<(), AllocError>
    ensures { OnOk result (chars (string_bytes out.new) ≡ chars (string_bytes out.old) ++ bar needed) }
{
    if needed {
        print_char(out, '|')?;
    }
    Ok(())
}

/// Appends a literal.
#[tactic(auto, unfolding(crate::specs::Printed::with_case))]
fn print_literal(out: &mut String, val: &str, casei: bool) -> Result<(), AllocError>
    ensures { OnOk result (chars (string_bytes out.new) ≡ chars (string_bytes out.old) ++ with_case casei (escaped (chars val.now))) }
{
    open_case(out, casei)?;
    print_escaped(out, val)?;
    close_group(out, casei)
}

/// Appends a character class.
#[tactic(auto, unfolding(crate::specs::Printed::with_case))]
fn print_class(out: &mut String, inner: &str, casei: bool) -> Result<(), AllocError>
    ensures { OnOk result (chars (string_bytes out.new) ≡ chars (string_bytes out.old) ++ with_case casei (chars inner.now)) }
{
    open_case(out, casei)?;
    print_text(out, inner)?;
    close_group(out, casei)
}

/// Appends the text of a tree; a node that is not printable has no text.
#[cycle(print)]
#[tactic(auto, unfolding(crate::specs::Printed::printed, crate::specs::Printed::in_group))]
fn print(expr: &Expr, precedence: u8, out: &mut String) -> Result<(), AllocError>
    ensures { OnOk result (chars (string_bytes out.new) ≡ chars (string_bytes out.old) ++ printed precedence (tree_of expr.now)) }
{
    match expr {
        Expr::Any { newline, crlf } => print_dot(out, *newline, *crlf),
        Expr::Assertion(assertion) => print_assertion(out, *assertion),
        Expr::Literal { val, casei } => print_literal(out, val, *casei),
        Expr::Delegate { inner, casei } => print_class(out, inner, *casei),
        Expr::Concat(children) => {
            let grouped = precedence > 1;
            open_group(out, grouped)?;
            print_pieces(children, out)?;
            close_group(out, grouped)
        }
        Expr::Alt(children) => {
            let grouped = precedence > 0;
            open_group(out, grouped)?;
            print_branches(children, out)?;
            close_group(out, grouped)
        }
        Expr::Group(child) => {
            print_char(out, '(')?;
            print(child, 0, out)?;
            print_char(out, ')')
        }
        Expr::Repeat {
            child,
            lo,
            hi,
            greedy,
        } => {
            let grouped = precedence > 2;
            open_group(out, grouped)?;
            print(child, 3, out)?;
            print_quantifier(out, *lo, *hi, *greedy)?;
            close_group(out, grouped)
        }
        _ => Ok(()),
    }
}

/// Appends the texts of a concatenation.
#[cycle(print)]
fn print_pieces(pieces: &[Expr], out: &mut String) -> Result<(), AllocError>
    ensures { OnOk result (chars (string_bytes out.new) ≡ chars (string_bytes out.old) ++ printed_pieces (trees (map tree_of pieces.now))) }
{
    for i in 0..pieces.len() {
        print(&pieces[i], 2, out)?;
    }
    Ok(())
}

/// Appends the branches of an alternation, with `|` between them.
#[cycle(print)]
fn print_branches(branches: &[Expr], out: &mut String) -> Result<(), AllocError>
    ensures { OnOk result
        (chars (string_bytes out.new) ≡ chars (string_bytes out.old) ++ printed_branches (trees (map tree_of branches.now))) }
{
    for i in 0..branches.len() {
        print_bar(out, i > 0)?;
        print(&branches[i], 1, out)?;
    }
    Ok(())
}
