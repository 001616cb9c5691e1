//! The cases of the table: a pattern and its expected result.

use crate::fault::TreeVectorsError;
use fancy_regex_tree::{
    FLAG_CASEI, FLAG_CRLF, FLAG_DOTNL, FLAG_IGNORE_NUMBERED_GROUPS_WHEN_NAMED_GROUPS_EXIST,
    FLAG_IGNORE_SPACE, FLAG_MULTI, FLAG_ONIGURUMA_MODE, FLAG_SWAP_GREED, FLAG_UNICODE,
};
use percent_encoding::percent_decode_str;
use std::alloc::Global;

/// A line of the table.
#[derive(Clone, Copy)]
pub struct Case<'t> {
    /// The flags of `Expr::parse_tree_with_flags`.
    pub flags: u32,
    /// The pattern, percent-encoded.
    pub quoted: &'t str,
    /// The fields that the result must have, separated by tabs.
    pub wanted: &'t str,
}

/// Splits a line of the table. `None` if it is not a case.
pub fn case_of(line: &str) -> Option<Case<'_>> {
    let (letters, rest) = line.split_once('\t')?;
    let (quoted, wanted) = rest.split_once('\t')?;
    let flags = flags_of(letters)?;
    Some(Case {
        flags,
        quoted,
        wanted,
    })
}

/// The flags of these letters. `None` if a letter is not a flag.
fn flags_of(letters: &str) -> Option<u32> {
    let mut flags = 0;
    for letter in letters.chars() {
        flags |= match letter {
            'i' => FLAG_CASEI,
            'm' => FLAG_MULTI,
            's' => FLAG_DOTNL,
            'U' => FLAG_SWAP_GREED,
            'x' => FLAG_IGNORE_SPACE,
            'u' => FLAG_UNICODE,
            'R' => FLAG_CRLF,
            'o' => FLAG_ONIGURUMA_MODE,
            'n' => FLAG_IGNORE_NUMBERED_GROUPS_WHEN_NAMED_GROUPS_EXIST,
            _ => return None,
        };
    }
    Some(flags)
}

/// Decodes a percent-encoded text. Fails with `TreeVectorsError::Table` if the bytes are not UTF-8, or with `TreeVectorsError::Memory`.
pub fn plain(alloc: Global, quoted: &str) -> Result<String, TreeVectorsError> {
    let mut bytes = Vec::new(alloc);
    percent_decode_str(quoted).append_to(&mut bytes)?;
    match String::from_utf8(bytes) {
        Ok(text) => Ok(text),
        Err(_) => Err(TreeVectorsError::Table),
    }
}
