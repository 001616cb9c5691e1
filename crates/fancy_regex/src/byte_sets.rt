//! `RegexOptionsBuilder::start_bytes` and `required_bytes`: sets of bytes that tell where a pattern cannot match.

ghost use Rattle.std.specs.Prelude.{◌≡◌, IfOk, IfErr, IfSome, option_map};
ghost use Rattle.fancy_regex_bytes.specs.ByteSets.{has};
ghost use Rattle.fancy_regex_bytes.specs.StartBytes as starts;
ghost use Rattle.fancy_regex_bytes.specs.RequiredBytes as required;
ghost use Rattle.fancy_regex_search.specs.Patterns.{tree_in};
ghost use Rattle.fancy_regex_search.specs.Reading.{IsReadingError};
ghost use Rattle.fancy_regex.specs.ByteSetLaws.{MatchesStartIn, FindsOnlyIn, MatchesRequire, FindsOnlyWith, IsStartBytesError};

use crate::options_builder::RegexOptionsBuilder;
use fancy_regex_bytes::{ByteSet, required_bytes, start_bytes};
use fancy_regex_class::ClassError;
use fancy_regex_info::CompileError;
use fancy_regex_search::{Error, Result};
use std::alloc::Global;

impl RegexOptionsBuilder {
    /// The bytes that the matches of a pattern start with, if it is parsed with these options: each match of a regex that is
    /// built of it with these options starts at a byte of the set. `None` if a match may be empty or may have its start moved
    /// by `\K`, or if the bytes are not known. The pattern is not compiled, and may be one that `build` refuses.
    ///
    /// # Errors
    ///
    /// `ParseError` if the text is no pattern, with the first error and its byte offset; `CompileError` with `InnerError` and
    /// the text of a character class that `regex` rejects; `Memory` if memory runs out.
    ///
    /// ```
    /// let options = RegexOptionsBuilder::new();
    /// let bytes = options.start_bytes(alloc, "[ab]c")?;
    /// assert!(rt; bytes.map_or(false, |bytes| bytes.contains(97) && !bytes.contains(99)));
    /// assert!(rt; options.start_bytes(alloc, "a?")?.is_none());
    /// ```
    pub fn start_bytes(&self, alloc: Global, pattern: &str) -> Result<Option<ByteSet>>
        ensures answer { IfOk result (λ set. option_map has set
            ≡ starts.start_bytes self.now.options.unicode_mode (tree_in self.now.options pattern.now)) }
        ensures starts { IfOk result (λ found. IfSome found (λ set. MatchesStartIn self.now.options pattern.now (has set))) }
        ensures members { IfOk result (λ found. IfSome found (λ set. FindsOnlyIn self.now.options pattern.now (has set))) }
        ensures refused { IfErr result (λ e. IsStartBytesError self.now.options pattern.now e) }
    {
        let tree = self.options.parse(alloc, pattern)?;
        match start_bytes(alloc, &tree.expr, self.options.unicode_mode) {
            Ok(set) => Ok(set),
            Err(ClassError::InnerError(class)) => {
                Err(Error::CompileError(CompileError::InnerError(class)))
            }
            Err(ClassError::Memory) => Err(Error::Memory),
        }
    }

    /// Bytes that each haystack has in which the pattern matches, if it is parsed with these options, in a search or as a member
    /// of a set; none are known of a part that may be left out. The pattern is not compiled, and may be one that `build` refuses.
    ///
    /// # Errors
    ///
    /// `ParseError` if the text is no pattern, with the first error and its byte offset; `Memory` if memory runs out.
    ///
    /// ```
    /// let bytes = RegexOptionsBuilder::new().required_bytes(alloc, "a?b+")?;
    /// assert!(rt; bytes.contains(98) && !bytes.contains(97));
    /// ```
    pub fn required_bytes(&self, alloc: Global, pattern: &str) -> Result<ByteSet>
        ensures answer { IfOk result (λ set. has set ≡ required.required_bytes (tree_in self.now.options pattern.now)) }
        ensures required { IfOk result (λ set. MatchesRequire self.now.options pattern.now (has set)) }
        ensures members { IfOk result (λ set. FindsOnlyWith self.now.options pattern.now (has set)) }
        ensures refused { IfErr result (λ e. IsReadingError self.now.options pattern.now e) }
    {
        let tree = self.options.parse(alloc, pattern)?;
        Ok(required_bytes(&tree.expr))
    }
}
