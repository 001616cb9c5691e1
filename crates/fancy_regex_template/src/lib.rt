//! Replacement templates: the parts of a template in either syntax, which group each reference means, the first fault of a
//! template, and escaping. Texts are cut lazily and borrowed. Only escaping allocates.
#![tactic(auto)]

mod check;
mod escape;
mod expand;
mod groups;
mod laws;
mod numbers;
mod parts;
mod sink;
mod syntax;
mod write;

pub use check::{TemplateFault, check_template};
pub use escape::{escape_pattern, escape_template};
pub use expand::append_expansion;
pub use groups::{GroupNames, GroupTexts};
pub use laws::{
    accepted_templates_exist, escaped_texts_come_back, numbers_are_digits, parts_are_cut,
    plain_templates_stay, template_examples,
};
pub use numbers::number_of;
pub use parts::{TemplatePart, TemplateParts, template_parts};
pub use sink::Sink;
pub use syntax::TemplateSyntax;
pub use write::{append_expansion_bytes, write_expansion};
