//! The parts of a template.

ghost use Rattle.std.specs.Prelude.{◌≡◌, ◌<◌, ◌≤◌, length, chars, option_map, IfSome};
ghost use Rattle.std.specs.Iterator.{YieldsFirstBy, item_count};
ghost use Rattle.fancy_regex_text.specs.Text.{span};
ghost use Rattle.fancy_regex_template.specs.Parts.{is_no_sign, leading_name, enclosed_name, bare_reference, reference, strip_sign, part_after_sign, first_part, parts, part_of};
ghost use Rattle.fancy_regex_template.specs.RemainingParts.{remaining_parts};

use crate::numbers::leading_number;
use crate::syntax::TemplateSyntax;
use fancy_regex_text::{is_empty, split_first, split_name, strip_prefix};

/// A part of a template.
#[derive(Clone, Copy, Debug, PartialEq, Eq)]
pub enum TemplatePart<'t> {
    /// Characters that stand for themselves: one or more, none of them the sign.
    Literal(&'t str),
    /// Two signs, which stand for one.
    DoubledSign,
    /// A reference to a group by its name or, where that gives no text, by the number that the name writes.
    Named(&'t str),
    /// A reference to a group by its number.
    Numbered(usize),
    /// A sign that begins nothing, and stands for itself.
    LooseSign,
}

/// The name that the text begins with, as long as possible, and the rest. `None` if it begins with none.
#[tactic(auto, unfolding(crate::specs::Parts::leading_name))]
fn leading_name(text: &str) -> Option<(&str, &str)>
    ensures value { option_map (λ x. (chars x.0.now, chars x.1.now)) result ≡ leading_name (chars text.now) }
{
    let (name, rest) = split_name(text);
    if is_empty(name) {
        None
    } else {
        Some((name, rest))
    }
}

/// The enclosed name that the text after a sign begins with, and the rest.
#[tactic(auto, unfolding(crate::specs::Parts::enclosed_name))]
fn enclosed_name(syntax: TemplateSyntax, text: &str) -> Option<(&str, &str)>
    ensures value { option_map (λ x. (chars x.0.now, chars x.1.now)) result ≡ enclosed_name syntax (chars text.now) }
{
    let inside = strip_prefix(text, syntax.opening())?;
    let (name, after) = leading_name(inside)?;
    let rest = strip_prefix(after, syntax.closing())?;
    Some((name, rest))
}

/// The reference without brackets that the text after a sign begins with, and the rest: a name, or in Python's syntax a
/// number.
#[tactic(auto, unfolding(crate::specs::Parts::bare_reference))]
fn bare_reference(syntax: TemplateSyntax, text: &str) -> Option<(TemplatePart<'_>, &str)>
    ensures value { option_map (λ x. (part_of x.0, chars x.1.now)) result ≡ bare_reference syntax (chars text.now) }
{
    match syntax {
        TemplateSyntax::Dollar => {
            let (name, rest) = leading_name(text)?;
            Some((TemplatePart::Named(name), rest))
        }
        TemplateSyntax::Python => {
            let (number, rest) = leading_number(text)?;
            Some((TemplatePart::Numbered(number), rest))
        }
    }
}

/// The reference that the text after a sign begins with, and the rest.
#[tactic(auto, unfolding(crate::specs::Parts::reference))]
fn reference(syntax: TemplateSyntax, text: &str) -> Option<(TemplatePart<'_>, &str)>
    ensures value { option_map (λ x. (part_of x.0, chars x.1.now)) result ≡ reference syntax (chars text.now) }
{
    match enclosed_name(syntax, text) {
        Some((name, rest)) => Some((TemplatePart::Named(name), rest)),
        None => bare_reference(syntax, text),
    }
}

/// The text after a sign. `None` if the text does not begin with one.
#[tactic(auto, unfolding(crate::specs::Parts::strip_sign))]
fn strip_sign(syntax: TemplateSyntax, text: &str) -> Option<&str>
    ensures value { option_map (λ rest. chars rest.now) result ≡ strip_sign syntax (chars text.now) }
{
    let (first, rest) = split_first(text)?;
    if first == syntax.sign() {
        Some(rest)
    } else {
        None
    }
}

/// The part that a sign begins, from the text after the sign, and the rest.
#[tactic(auto, unfolding(crate::specs::Parts::part_after_sign))]
fn part_after_sign(syntax: TemplateSyntax, text: &str) -> (TemplatePart<'_>, &str)
    ensures value { (part_of result.0, chars result.1.now) ≡ part_after_sign syntax (chars text.now) }
{
    if let Some(rest) = strip_sign(syntax, text) {
        return (TemplatePart::DoubledSign, rest);
    }
    match reference(syntax, text) {
        Some(found) => found,
        None => (TemplatePart::LooseSign, text),
    }
}

/// The text before the first sign, and the rest from it on.
pub(crate) fn split_literal(syntax: TemplateSyntax, text: &str) -> (&str, &str)
    ensures { (chars result.0.now, chars result.1.now) ≡ span (is_no_sign syntax) (chars text.now) }
{
    match text.find(syntax.sign()) {
        Some(place) => text.split_at(place),
        None => (text, ""),
    }
}

/// The first part of a template, and the rest. `None` if the template is empty.
#[tactic(auto, unfolding(crate::specs::Parts::first_part))]
fn first_part(syntax: TemplateSyntax, text: &str) -> Option<(TemplatePart<'_>, &str)>
    ensures value { option_map (λ x. (part_of x.0, chars x.1.now)) result ≡ first_part syntax (chars text.now) }
{
    if is_empty(text) {
        return None;
    }
    if let Some(following) = strip_sign(syntax, text) {
        return Some(part_after_sign(syntax, following));
    }
    let (literal, rest) = split_literal(syntax, text);
    Some((TemplatePart::Literal(literal), rest))
}

/// The iterator over the parts of a template, from the left.
#[derive(Clone, Copy, Debug)]
pub struct TemplateParts<'t> {
    /// The syntax of the template.
    syntax: TemplateSyntax,
    /// What is still to be cut.
    rest: &'t str,
}

/// The parts of a template, from the left. Their texts in the template, in order, are the template.
pub fn template_parts(syntax: TemplateSyntax, template: &str) -> TemplateParts<'_>
    ensures { remaining_parts result ≡ parts syntax (chars template.now) }
{
    TemplateParts {
        syntax,
        rest: template,
    }
}

impl<'t> Iterator for TemplateParts<'t> {
    type Item = TemplatePart<'t>;

    ghost next_gives = { YieldsFirstBy part_of remaining_parts };

    ghost remaining = { item_count remaining_parts };

    fn next(&mut self) -> Option<TemplatePart<'t>> {
        let (part, rest) = first_part(self.syntax, self.rest)?;
        self.rest = rest;
        Some(part)
    }
}
