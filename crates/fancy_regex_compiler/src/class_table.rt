//! The classes of a program. Each is read once, however often it is written: its instructions share a matcher.

ghost use Rattle.std.specs.Prelude.{◌≡◌, chars, string_bytes, false, IfOk, IfErr, IfSome, IsTrue};
ghost use Rattle.fancy_regex_class.specs.Classes.{is_class};
ghost use Rattle.fancy_regex_class.specs.Matchers.{IsMatcherOf};
ghost use Rattle.fancy_regex_analysis.specs.AnalysisErrors.{is_too_complex};
ghost use Rattle.fancy_regex_compiler.specs.Refusals.{IsNoClass};

use fancy_regex_class::{CharClassMatcher, ClassError};
use fancy_regex_info::CompileError;
use std::alloc::Global;
use std::sync::Arc;

/// A class that was read.
#[derive(Drop)]
struct ReadClass {
    /// The class as the pattern has it.
    text: String,
    /// Whether case is ignored.
    casei: bool,
    /// Whether the class follows Unicode.
    unicode: bool,
    /// The matcher of the class.
    matcher: Arc<CharClassMatcher>,
    ghost members: { IsMatcherOf matcher.value unicode (chars (string_bytes text)) casei },
    ghost read: { IsTrue (is_class unicode (chars (string_bytes text)) casei) },
}

/// The classes that were read so far, no two of them equal.
#[derive(Drop)]
pub(crate) struct ClassTable {
    classes: Vec<ReadClass>,
}

impl ClassTable {
    /// The table without classes.
    pub fn new(alloc: Global) -> ClassTable {
        ClassTable {
            classes: Vec::new(alloc),
        }
    }

    /// The matcher of a class. The error is `InnerError` with the text of a class that `regex` refuses, or `Memory`.
    pub fn matcher(
        &mut self,
        alloc: Global,
        text: &str,
        casei: bool,
        unicode: bool,
    ) -> Result<Arc<CharClassMatcher>, CompileError>
        ensures members { IfOk result (λ m. IsMatcherOf m.value unicode (chars text.now) casei) }
        ensures read { IfOk result (λ _. IsTrue (is_class unicode (chars text.now) casei)) }
        ensures full { IfErr result (λ e. is_too_complex e ≡ false) }
        ensures refused { IfErr result (IsNoClass unicode (chars text.now) casei) }
    {
        if let Some(class) = self.find(text, casei, unicode) {
            let shared = class.matcher.clone()?;
            return Ok(shared);
        }
        let read = read_class(alloc, text, casei, unicode)?;
        let matcher = Arc::new(alloc, read)?;
        let shared = matcher.clone()?;
        let text = String::from_str(alloc, text)?;
        self.classes.push(ReadClass {
            text,
            casei,
            unicode,
            matcher,
        })?;
        Ok(shared)
    }

    /// The class with this text and these options, if it was read.
    fn find(&self, text: &str, casei: bool, unicode: bool) -> Option<&ReadClass>
        ensures text { IfSome result (λ class. chars (string_bytes class.now.text) ≡ chars text.now) }
        ensures casei { IfSome result (λ class. class.now.casei ≡ casei) }
        ensures unicode { IfSome result (λ class. class.now.unicode ≡ unicode) }
    {
        for class in self.classes.iter() {
            if class.casei == casei && class.unicode == unicode && class.text.as_str() == text {
                return Some(class);
            }
        }
        None
    }
}

/// The matcher of a class that was not read before.
fn read_class(
    alloc: Global,
    text: &str,
    casei: bool,
    unicode: bool,
) -> Result<CharClassMatcher, CompileError>
    ensures members { IfOk result (λ m. IsMatcherOf m unicode (chars text.now) casei) }
    ensures read { IfOk result (λ _. IsTrue (is_class unicode (chars text.now) casei)) }
    ensures full { IfErr result (λ e. is_too_complex e ≡ false) }
    ensures refused { IfErr result (IsNoClass unicode (chars text.now) casei) }
{
    match CharClassMatcher::new(alloc, text, casei, unicode) {
        Ok(matcher) => Ok(matcher),
        Err(ClassError::InnerError(shown)) => Err(CompileError::InnerError(shown)),
        Err(ClassError::Memory) => Err(CompileError::Memory),
    }
}
