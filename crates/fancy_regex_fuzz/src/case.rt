//! A case.

use crate::part::Part;
use crate::setting::Setting;

/// A pattern, a text, a template, options, and a part of the text to be searched.
#[derive(Clone, Copy)]
pub struct Case<'c> {
    pub pattern: &'c str,
    pub text: &'c str,
    pub template: &'c str,
    pub setting: Setting,
    pub part: Part,
}
