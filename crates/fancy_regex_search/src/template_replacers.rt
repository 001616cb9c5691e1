//! Templates as replacers: `&str`, `&String`, `String`, `CowStr` and `&CowStr`. A template without a `$` is a fixed text.

ghost use Rattle.std.specs.Prelude.{◌≡◌, Some, IfSome, chars, option_map, string_bytes};
ghost use Rattle.std.specs.Cow.{cow_str_bytes};
ghost use Rattle.fancy_regex_search.specs.GroupTexts.{AnswersTemplate, is_sign, has_sign, text_without_sign};
ghost use Rattle.fancy_regex_search.specs.TemplateLaws.{template_text};

use crate::captures::Captures;
use crate::replacer::Replacer;
use fancy_regex_meta::Result;
use std::alloc::Global;
use std::borrow::CowStr;

/// Whether the character is `$`.
fn is_sign(c: char) -> bool
    ensures { result ≡ is_sign c }
{
    c == '$'
}

/// Whether the template has a `$`.
fn has_sign(template: &str) -> bool
    ensures { result ≡ has_sign (chars template.now) }
{
    template.chars().any(is_sign)
}

/// The template, if it has no `$`.
fn plain_text(template: &str) -> Option<CowStr<'_>>
    ensures { option_map cow_str_bytes result ≡ text_without_sign template.now }
{
    if has_sign(template) {
        None
    } else {
        Some(CowStr::Borrowed(template))
    }
}

impl<'a> Replacer for &'a str {
    ghost answers = { AnswersTemplate (λ s. s.now) };

    ghost fixed_text = { λ s. text_without_sign s.now };

    ghost fixed_text_is_answered = { template_text (λ s. s.now) };

    /// Appends what the template stands for in the match.
    ///
    /// # Errors
    ///
    /// `Memory` if memory runs out. The buffer is as it was.
    fn replace_append(
        &mut self,
        alloc: Global,
        captures: &Captures<'_, &str>,
        dst: &mut String,
    ) -> Result<()> {
        captures.expand(alloc, *self, dst)
    }

    /// The template, if it has no `$`.
    fn no_expansion(&self) -> Option<CowStr<'_>>
        ensures agrees { IfSome result (λ t. text_without_sign self.now.now ≡ Some (cow_str_bytes t)) }
        ensures value { option_map cow_str_bytes result ≡ text_without_sign self.now.now }
    {
        plain_text(*self)
    }
}

impl<'a> Replacer for &'a String {
    ghost answers = { AnswersTemplate (λ s. string_bytes s.now) };

    ghost fixed_text = { λ s. text_without_sign (string_bytes s.now) };

    ghost fixed_text_is_answered = { template_text (λ s. string_bytes s.now) };

    /// Appends what the template stands for in the match.
    ///
    /// # Errors
    ///
    /// `Memory` if memory runs out. The buffer is as it was.
    fn replace_append(
        &mut self,
        alloc: Global,
        captures: &Captures<'_, &str>,
        dst: &mut String,
    ) -> Result<()> {
        captures.expand(alloc, (*self).as_str(), dst)
    }

    /// The template, if it has no `$`.
    fn no_expansion(&self) -> Option<CowStr<'_>>
        ensures agrees { IfSome result (λ t. text_without_sign (string_bytes self.now.now) ≡ Some (cow_str_bytes t)) }
        ensures value { option_map cow_str_bytes result ≡ text_without_sign (string_bytes self.now.now) }
    {
        plain_text((*self).as_str())
    }
}

impl Replacer for String {
    ghost answers = { AnswersTemplate (λ s. string_bytes s) };

    ghost fixed_text = { λ s. text_without_sign (string_bytes s) };

    ghost fixed_text_is_answered = { template_text (λ s. string_bytes s) };

    /// Appends what the template stands for in the match.
    ///
    /// # Errors
    ///
    /// `Memory` if memory runs out. The buffer is as it was.
    fn replace_append(
        &mut self,
        alloc: Global,
        captures: &Captures<'_, &str>,
        dst: &mut String,
    ) -> Result<()> {
        captures.expand(alloc, self.as_str(), dst)
    }

    /// The template, if it has no `$`.
    fn no_expansion(&self) -> Option<CowStr<'_>>
        ensures agrees { IfSome result (λ t. text_without_sign (string_bytes self.now) ≡ Some (cow_str_bytes t)) }
        ensures value { option_map cow_str_bytes result ≡ text_without_sign (string_bytes self.now) }
    {
        plain_text(self.as_str())
    }
}

impl<'a> Replacer for CowStr<'a> {
    ghost answers = { AnswersTemplate (λ s. cow_str_bytes s) };

    ghost fixed_text = { λ s. text_without_sign (cow_str_bytes s) };

    ghost fixed_text_is_answered = { template_text (λ s. cow_str_bytes s) };

    /// Appends what the template stands for in the match.
    ///
    /// # Errors
    ///
    /// `Memory` if memory runs out. The buffer is as it was.
    fn replace_append(
        &mut self,
        alloc: Global,
        captures: &Captures<'_, &str>,
        dst: &mut String,
    ) -> Result<()> {
        captures.expand(alloc, self.as_str(), dst)
    }

    /// The template, if it has no `$`.
    fn no_expansion(&self) -> Option<CowStr<'_>>
        ensures agrees { IfSome result (λ t. text_without_sign (cow_str_bytes self.now) ≡ Some (cow_str_bytes t)) }
        ensures value { option_map cow_str_bytes result ≡ text_without_sign (cow_str_bytes self.now) }
    {
        plain_text(self.as_str())
    }
}

impl<'c, 'a> Replacer for &'c CowStr<'a> {
    ghost answers = { AnswersTemplate (λ s. cow_str_bytes s.now) };

    ghost fixed_text = { λ s. text_without_sign (cow_str_bytes s.now) };

    ghost fixed_text_is_answered = { template_text (λ s. cow_str_bytes s.now) };

    /// Appends what the template stands for in the match.
    ///
    /// # Errors
    ///
    /// `Memory` if memory runs out. The buffer is as it was.
    fn replace_append(
        &mut self,
        alloc: Global,
        captures: &Captures<'_, &str>,
        dst: &mut String,
    ) -> Result<()> {
        captures.expand(alloc, (*self).as_str(), dst)
    }

    /// The template, if it has no `$`.
    fn no_expansion(&self) -> Option<CowStr<'_>>
        ensures agrees { IfSome result (λ t. text_without_sign (cow_str_bytes self.now.now) ≡ Some (cow_str_bytes t)) }
        ensures value { option_map cow_str_bytes result ≡ text_without_sign (cow_str_bytes self.now.now) }
    {
        plain_text((*self).as_str())
    }
}
