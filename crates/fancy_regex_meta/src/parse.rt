//! Parsing a pattern under the options of the library.

ghost use Rattle.std.specs.Prelude.{IfOk, IfErr};
ghost use Rattle.fancy_regex_meta.specs.Reading.{IsReading, IsReadingError};

use crate::error::Result;
use crate::options::RegexOptions;
use crate::parse_options::parse_options_of;
use fancy_regex_tree::{Expr, ExprTree};
use std::alloc::Global;

impl RegexOptions {
    /// Parses a pattern under these options, and does not compile it. `ParseError` if the text is no pattern, with the first
    /// error and its byte offset; `Memory` if memory runs out.
    pub fn parse(&self, alloc: Global, pattern: &str) -> Result<ExprTree>
        ensures parsed { IfOk result (λ tree. IsReading self.now pattern.now tree) }
        ensures refused { IfErr result (λ e. IsReadingError self.now pattern.now e) }
    {
        Ok(Expr::parse_tree_with_options(alloc, pattern, parse_options_of(self))?)
    }
}
