//! `Expander`: expands, checks and escapes replacement templates; and the free `escape`, for texts in patterns.

ghost use Rattle.std.specs.Prelude.{◌≡◌, ◌++◌, ◌↔◌, ◌≢◌, chars, true, false, Some, None, string_bytes, IfOk, IfErr, IsOk, OnOk, OnErr};
ghost use Rattle.std.specs.Cow.{cow_str_bytes, IsBorrowedStr};
ghost use Rattle.std.specs.Io.KnownBytes.{Appends};
ghost use Rattle.fancy_regex_template.specs.Parts.{is_no_sign, parts};
ghost use Rattle.fancy_regex_template.specs.Faults.{first_fault};
ghost use Rattle.fancy_regex_template.specs.Cuts.{AllPass};
ghost use Rattle.fancy_regex_template.specs.Expansion.{escaped};
ghost use Rattle.fancy_regex_template.specs.PatternEscape.{has_special, escaped_pattern};
ghost use Rattle.fancy_regex_template.specs.Writing.{AppendsBeginning};
ghost use Rattle.fancy_regex_template.specs.declared.syntax.TemplateSyntax.TheVariants.{Dollar, Python};
ghost use Rattle.fancy_regex_meta.specs.declared.error.Error.TheVariants.{Memory};
ghost use Rattle.fancy_regex_search.specs.GroupTexts.{expanded};
ghost use Rattle.fancy_regex_search.specs.TemplateChecks.{groups_of, IsErrorOfFault};

use crate::captures::Captures;
use crate::regex::Regex;
use crate::template_check::{RegexGroups, fault_error};
use fancy_regex_meta::Result;
use fancy_regex_template::{Sink, TemplateSyntax, check_template, escape_pattern, escape_template};
use std::alloc::Global;
use std::borrow::CowStr;
use std::io::{self, Write};

/// Expands, checks and escapes replacement templates. In the default form `$name`, `${name}` and the same with a number stand for
/// the text of a group, and `$$` for `$`; in the form of Python `\g<name>`, `\g<1>` and `\1` do, and `\\` stands for `\`. A
/// group that does not exist or did not participate stands for nothing. A sign that begins nothing stands for itself.
///
/// ```
/// let date = Regex::new(alloc, r"(?<year>\d+)-(?<month>\d+)")?;
/// if let Some(groups) = date.captures(alloc, "2018-04")? {
///     let dollar = Expander::default().expansion(alloc, "${month}/$year for $$1", &groups)?;
///     assert!(rt; dollar.as_str() == "04/2018 for $1");
///     let python = Expander::python().expansion(alloc, r"\g<month>/\2", &groups)?;
///     assert!(rt; python.as_str() == "04/04");
/// }
/// ```
#[derive(Clone, Copy, Debug)]
pub struct Expander {
    /// How references are written.
    syntax: TemplateSyntax,
}

impl Default for Expander {
    ghost is_default = { λ expander. expander.syntax ≡ Dollar };

    /// The expander of the default form, with `$`.
    fn default() -> Expander {
        Expander {
            syntax: TemplateSyntax::Dollar,
        }
    }
}

impl Expander {
    /// The expander of the form of Python, with `\`.
    pub fn python() -> Expander
        ensures { result.syntax ≡ Python }
    {
        Expander {
            syntax: TemplateSyntax::Python,
        }
    }

    /// Accepts a template whose references all exist in the regex and whose signs all begin something.
    ///
    /// # Errors
    ///
    /// The first fault from the left: `CompileError` with `NamedBackrefOnly` for a number above 0 although groups have names, with
    /// `InvalidBackref` for a number that no group has, or with `InvalidGroupNameBackref` for a name that no group has; `ParseError`
    /// at 0 for a sign that begins nothing. `Memory` if memory runs out.
    ///
    /// ```
    /// let date = Regex::new(alloc, r"(?<year>\d+)")?;
    /// assert!(rt; Expander::default().check(alloc, "$year", &date).is_ok());
    /// assert!(rt; Expander::default().check(alloc, "$month", &date).is_err());
    /// ```
    pub fn check(&self, alloc: Global, template: &str, regex: &Regex) -> Result<()>
        ensures accepted { OnOk result (first_fault (groups_of regex.now.meta) (parts self.now.syntax (chars template.now)) ≡ None) }
        ensures refused { IfErr result (λ e. e ≢ Memory → (fault : _)
            × (first_fault (groups_of regex.now.meta) (parts self.now.syntax (chars template.now))
            ≡ Some fault) × IsErrorOfFault fault e) }
    {
        match check_template(self.syntax, template, &RegexGroups { regex }) {
            Ok(()) => Ok(()),
            Err(fault) => Err(fault_error(alloc, fault)?),
        }
    }

    /// The text with each sign doubled: a template that expands to the text. A text without a sign is borrowed, and
    /// nothing is allocated.
    ///
    /// # Errors
    ///
    /// `Memory` if memory runs out; never for a text without a sign.
    ///
    /// ```
    /// assert!(rt; Expander::default().escape(alloc, "$5")?.as_str() == "$$5");
    /// assert!(rt; Expander::python().escape(alloc, r"\5")?.as_str() == r"\\5");
    /// ```
    pub fn escape<'t>(&self, alloc: Global, text: &'t str) -> Result<CowStr<'t>>
        ensures value { IfOk result (λ made. chars (cow_str_bytes made) ≡ escaped self.now.syntax (chars text.entry.now)) }
        ensures borrowed { IfOk result (λ made. IsBorrowedStr made ↔ AllPass (is_no_sign self.now.syntax) (chars text.entry.now)) }
        ensures succeeds { AllPass (is_no_sign self.now.syntax) (chars text.entry.now) → IsOk result }
        ensures fails { IfErr result (λ e. e ≡ Memory) }
    {
        Ok(escape_template(alloc, self.syntax, text)?)
    }

    /// What the template stands for in a match.
    ///
    /// # Errors
    ///
    /// `Memory` if memory runs out.
    pub fn expansion(
        &self,
        alloc: Global,
        template: &str,
        captures: &Captures<'_, &str>,
    ) -> Result<String>
        ensures value { IfOk result (λ made. string_bytes made
            ≡ expanded self.now.syntax captures.now.regex.now.meta captures.now.haystack.now captures.now.slots.items template.now) }
        ensures fails { IfErr result (λ e. e ≡ Memory) }
    {
        let mut text = String::new(alloc);
        self.append_expansion(alloc, &mut text, template, captures)?;
        Ok(text)
    }

    /// Appends what the template stands for in a match.
    ///
    /// # Errors
    ///
    /// `Memory` if memory runs out. The buffer is as it was.
    ///
    /// ```
    /// let word = Regex::new(alloc, r"(\w+)!")?;
    /// let mut text = String::from_str(alloc, "a ")?;
    /// if let Some(groups) = word.captures(alloc, "so fancy!")? {
    ///     Expander::default().append_expansion(alloc, &mut text, "$1 one", &groups)?;
    /// }
    /// assert!(rt; text.as_str() == "a fancy one");
    /// ```
    pub fn append_expansion(
        &self,
        _alloc: Global,
        dst: &mut String,
        template: &str,
        captures: &Captures<'_, &str>,
    ) -> Result<()>
        ensures appends { OnOk result (string_bytes dst.new ≡ string_bytes dst.old
            ++ expanded self.now.syntax captures.now.regex.now.meta captures.now.haystack.now captures.now.slots.items template.now) }
        ensures fails { IfErr result (λ e. (e ≡ Memory) × (string_bytes dst.new ≡ string_bytes dst.old)) }
    {
        let texts = captures.texts();
        fancy_regex_template::append_expansion(self.syntax, template, &texts, dst)?;
        Ok(())
    }

    /// Writes what the template stands for in a match, in UTF-8.
    ///
    /// # Errors
    ///
    /// That of the writer, or `WriteZero` if it takes no byte. A beginning of the expansion is written then, but not all of it.
    ///
    /// ```
    /// let word = Regex::new(alloc, r"(\w+)!")?;
    /// let mut bytes: Vec<u8> = Vec::new(alloc);
    /// if let Some(groups) = word.captures(alloc, "so fancy!")? {
    ///     Expander::default().write_expansion(&mut bytes, "$1", &groups)?;
    /// }
    /// assert!(rt; bytes.as_slice() == b"fancy".as_slice());
    /// ```
    pub fn write_expansion<W: Write>(
        &self,
        dst: &mut W,
        template: &str,
        captures: &Captures<'_, &str>,
    ) -> io::Result<()>
        ensures ok { OnOk result (Appends (W.contents dst.old) (W.contents dst.new)
            (expanded self.now.syntax captures.now.regex.now.meta captures.now.haystack.now captures.now.slots.items template.now)) }
        ensures err { OnErr result (AppendsBeginning (W.contents dst.old) (W.contents dst.new)
            (expanded self.now.syntax captures.now.regex.now.meta captures.now.haystack.now captures.now.slots.items template.now)) }
    {
        write_to_sink(&mut Sink::new(dst), self.syntax, template, captures)
    }

    /// Appends the bytes of what the template stands for in a match, in UTF-8.
    ///
    /// # Errors
    ///
    /// `Memory` if memory runs out. The buffer is as it was.
    ///
    /// ```
    /// let word = Regex::new(alloc, r"(\w+)!")?;
    /// let mut bytes: Vec<u8> = Vec::new(alloc);
    /// if let Some(groups) = word.captures(alloc, "so fancy!")? {
    ///     Expander::default().write_expansion_vec(alloc, &mut bytes, "$1", &groups)?;
    /// }
    /// assert!(rt; bytes.as_slice() == b"fancy".as_slice());
    /// ```
    pub fn write_expansion_vec(
        &self,
        _alloc: Global,
        dst: &mut Vec<u8>,
        template: &str,
        captures: &Captures<'_, &str>,
    ) -> Result<()>
        ensures appends { OnOk result (dst.new.items ≡ dst.old.items
            ++ expanded self.now.syntax captures.now.regex.now.meta captures.now.haystack.now captures.now.slots.items template.now) }
        ensures fails { IfErr result (λ e. (e ≡ Memory) × (dst.new.items ≡ dst.old.items)) }
    {
        let texts = captures.texts();
        fancy_regex_template::append_expansion_bytes(self.syntax, template, &texts, dst)?;
        Ok(())
    }
}

/// Writes what the template stands for in a match to a sink. It fails only where the last write failed, or took no byte although
/// some were left; a beginning of the expansion is written then, but not all of it.
fn write_to_sink<W: Write>(
    sink: &mut Sink<'_, W>,
    syntax: TemplateSyntax,
    template: &str,
    captures: &Captures<'_, &str>,
) -> io::Result<()>
    ensures same_writer { sink.new.writer.ghost_name ≡ sink.old.writer.ghost_name }
    ensures ok { OnOk result (Appends (W.contents sink.old.writer.now) (W.contents sink.new.writer.now)
        (expanded syntax captures.now.regex.now.meta captures.now.haystack.now captures.now.slots.items template.now)) }
    ensures err { OnErr result (AppendsBeginning (W.contents sink.old.writer.now) (W.contents sink.new.writer.now)
        (expanded syntax captures.now.regex.now.meta captures.now.haystack.now captures.now.slots.items template.now)) }
    ensures failed { OnErr result (sink.new.has_failed ≡ true) }
{
    let texts = captures.texts();
    fancy_regex_template::write_expansion(sink, syntax, template, &texts)
}

impl<'r, 't> Captures<'r, &'t str> {
    /// Appends what a template stands for in this match, as `Expander::append_expansion` of the default form does.
    ///
    /// # Errors
    ///
    /// `Memory` if memory runs out. The buffer is as it was.
    pub fn expand(&self, alloc: Global, template: &str, dst: &mut String) -> Result<()>
        ensures appends { OnOk result (string_bytes dst.new ≡ string_bytes dst.old
            ++ expanded Dollar self.now.regex.now.meta self.now.haystack.now self.now.slots.items template.now) }
        ensures fails { IfErr result (λ e. (e ≡ Memory) × (string_bytes dst.new ≡ string_bytes dst.old)) }
    {
        Expander::default().append_expansion(alloc, dst, template, self)
    }
}

/// The text as a pattern that matches exactly it: a backslash stands before each of `\.+*?()|[]{}^$#`, and newlines, tabs and
/// carriage returns are `\n`, `\t` and `\r`. A text without one of these fifteen characters is borrowed as it is, and nothing
/// is allocated.
///
/// # Errors
///
/// `Memory` if memory runs out; never for a text without one of these characters.
///
/// ```
/// assert!(rt; escape(alloc, "1+1")?.as_str() == r"1\+1");
/// let regex = Regex::new(alloc, escape(alloc, "a.b")?.as_str())?;
/// assert!(rt; regex.is_match(alloc, "a.b")? && !regex.is_match(alloc, "axb")?);
/// ```
pub fn escape<'t>(alloc: Global, text: &'t str) -> Result<CowStr<'t>>
    ensures value { IfOk result (λ made. chars (cow_str_bytes made) ≡ escaped_pattern (chars text.entry.now)) }
    ensures borrowed { IfOk result (λ made. IsBorrowedStr made ↔ (has_special (chars text.entry.now) ≡ false)) }
    ensures succeeds { has_special (chars text.entry.now) ≡ false → IsOk result }
    ensures fails { IfErr result (λ e. e ≡ Memory) }
{
    Ok(escape_pattern(alloc, text)?)
}
