//! The cases of the table: words, an input, and the answers that are allowed.

use crate::fault::SearchVectorsError;

/// A line of the table.
#[derive(Clone, Copy)]
pub struct Case<'t> {
    /// The words, percent-encoded, with a blank between.
    pub words: &'t str,
    /// The input, percent-encoded.
    pub input: &'t str,
    /// The answers that are allowed, separated by tabs.
    pub allowed: &'t str,
}

/// Cuts a line into its columns. Fails with `SearchVectorsError::Table` if it has too few.
pub fn case_of(line: &str) -> Result<Case<'_>, SearchVectorsError> {
    let (words, rest) = line.split_once('\t').ok_or(SearchVectorsError::Table)?;
    let (input, allowed) = rest.split_once('\t').ok_or(SearchVectorsError::Table)?;
    Ok(Case {
        words,
        input,
        allowed,
    })
}
