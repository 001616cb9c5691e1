//! The expansion of a template.

ghost use Rattle.std.specs.Prelude.{◌≡◌, ◌++◌, chars, option_map, unwrap_or, string_bytes, encode_utf8_all, OnOk, OnErr, [], ◌∷◌};
ghost use Rattle.fancy_regex_template.specs.Parts.{part_of, sign_of};
ghost use Rattle.fancy_regex_template.specs.Expansion.{text_by_digits, named_text, part_text, expansion};

use crate::groups::GroupTexts;
use crate::numbers::number_of;
use crate::parts::{TemplatePart, template_parts};
use crate::syntax::TemplateSyntax;
use std::alloc::AllocError;

/// The sign as a text.
fn sign_text(syntax: TemplateSyntax) -> &'static str
    ensures { chars result.now ≡ sign_of syntax ∷ [] }
{
    match syntax {
        TemplateSyntax::Dollar => "$",
        TemplateSyntax::Python => "\\",
    }
}

/// The text, or the empty text if there is none.
fn text_or_empty(text: Option<&str>) -> &str
    ensures { chars result.now ≡ unwrap_or (option_map (λ t. chars t.now) text.entry) [] }
{
    text.unwrap_or("")
}

/// The text of the group whose number the name writes.
fn text_by_digits<'g, G: GroupTexts>(groups: &'g G, name: &str) -> Option<&'g str>
    ensures { option_map (λ t. chars t.now) result ≡ text_by_digits (G.texts groups.now) (chars name.now) }
{
    let number = number_of(name)?;
    groups.text_by_number(number)
}

/// The text of a name: of the group with this name or, where that gives none, of the group whose number it writes; else empty.
fn named_text<'g, G: GroupTexts>(groups: &'g G, name: &str) -> &'g str
    ensures { chars result.now ≡ named_text (G.texts groups.now) (chars name.now) }
{
    match groups.text_by_name(name) {
        Some(text) => text,
        None => text_or_empty(text_by_digits(groups, name)),
    }
}

/// What a part stands for.
pub(crate) fn part_text<'g, G: GroupTexts>(
    syntax: TemplateSyntax,
    groups: &'g G,
    part: TemplatePart<'g>,
) -> &'g str
    ensures { chars result.now ≡ part_text syntax (G.texts groups.now) (part_of part.entry) }
{
    match part {
        TemplatePart::Literal(text) => text,
        TemplatePart::DoubledSign | TemplatePart::LooseSign => sign_text(syntax),
        TemplatePart::Named(name) => named_text(groups, name),
        TemplatePart::Numbered(number) => text_or_empty(groups.text_by_number(number)),
    }
}

/// Appends what a template expands to, with these texts of groups. If an allocation is refused, `out` is unchanged.
pub fn append_expansion<G: GroupTexts>(
    syntax: TemplateSyntax,
    template: &str,
    groups: &G,
    out: &mut String,
) -> Result<(), AllocError>
    ensures added { OnOk result
        (string_bytes out.new ≡ string_bytes out.old ++ encode_utf8_all (expansion syntax (G.texts groups.now) (chars template.now))) }
    ensures refused { OnErr result (string_bytes out.new ≡ string_bytes out.old) }
{
    let before = out.as_str().len();
    for part in template_parts(syntax, template) {
        if let Err(refusal) = out.push_str(part_text(syntax, groups, part)) {
            out.truncate(before);
            return Err(refusal);
        }
    }
    Ok(())
}
