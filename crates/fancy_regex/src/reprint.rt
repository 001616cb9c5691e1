//! `RegexOptionsBuilder::reprint`: a pattern as its printed text.

ghost use Rattle.std.specs.Prelude.{◌≡◌, IfOk, IfErr, IfSome, option_map, string_bytes};
ghost use Rattle.fancy_regex_reprint.specs.Reprinted.{text_in, reprinted};
ghost use Rattle.fancy_regex_search.specs.Patterns.{tree_in};
ghost use Rattle.fancy_regex_search.specs.Reading.{IsReadingError};
ghost use Rattle.fancy_regex.specs.Reprinting.{IsPattern, KeepsMatches};

use crate::options_builder::RegexOptionsBuilder;
use fancy_regex_meaning::laws_of_groups;
use fancy_regex_print_laws::{normal_form_laws, printed_tree_parses};
use fancy_regex_reprint::reprint;
use fancy_regex_search::Result;
use std::alloc::Global;

impl RegexOptionsBuilder {
    /// The printed text of a pattern that is parsed with these options; `None` exactly if the pattern does not reprint: if it has
    /// a construct without a printed form, such as a look-around or a back reference, a character class whose text is parsed as
    /// another one, or if 64 or more groups are nested in the printed text. Names of groups are lost, their numbers are kept.
    ///
    /// A regex of the printed text with the same Unicode mode, the same options of searches and no other flag has the same
    /// matches.
    ///
    /// # Errors
    ///
    /// `ParseError` if the text is no pattern, with the first error and its byte offset; `Memory` if memory runs out.
    ///
    /// ```
    /// let mut options = RegexOptionsBuilder::new();
    /// let text = options.case_insensitive(true).reprint(alloc, "a|b{2}")?;
    /// assert!(rt; text.map_or(false, |text| text.as_str() == "(?i:a)|(?i:b){2}"));
    /// assert!(rt; options.reprint(alloc, "a(?=b)")?.is_none());
    /// ```
    pub fn reprint(&self, alloc: Global, pattern: &str) -> Result<Option<String>>
        ensures printed { IfOk result (λ text. option_map text_in text ≡ reprinted (tree_in self.now.options pattern.now)) }
        ensures parsed { IfOk result (λ _. IsPattern self.now.options pattern.now) }
        ensures same { IfOk result (λ text. IfSome text (λ printed. KeepsMatches self.now.options pattern.now (string_bytes printed))) }
        ensures refused { IfErr result (λ e. IsReadingError self.now.options pattern.now e) }
    {
        laws_of_groups();
        normal_form_laws();
        let tree = self.options.parse(alloc, pattern)?;
        printed_tree_parses(&tree.expr);
        Ok(reprint(alloc, &tree.expr)?)
    }
}
