//! The cases of the table: what is asked, and of what.

use crate::call::{LibraryCall, call_named};
use crate::fault::VectorsError;
use fancy_regex::{
    FLAG_CASEI, FLAG_CRLF, FLAG_DOTNL, FLAG_IGNORE_NUMBERED_GROUPS_WHEN_NAMED_GROUPS_EXIST,
    FLAG_IGNORE_SPACE, FLAG_MULTI, FLAG_ONIGURUMA_MODE, FLAG_UNICODE, RegexInput,
    RegexOptionsBuilder,
};

/// A line of the table, cut into its columns.
#[derive(Clone, Copy)]
pub struct Row<'t> {
    /// The letters of the options.
    pub letters: &'t str,
    /// The limits, with a blank between.
    pub limits: &'t str,
    /// The pattern, percent-encoded; of a set its patterns, with a blank between.
    pub patterns: &'t str,
    /// The text, percent-encoded.
    pub text: &'t str,
    /// What the setters of the input set; empty for a whole text.
    pub input: &'t str,
    /// The template, percent-encoded.
    pub template: &'t str,
    /// The questions, separated by tabs.
    pub questions: &'t str,
}

/// Cuts a line into its columns. Fails with `VectorsError::Table` if it has too few.
pub fn row_of(line: &str) -> Result<Row<'_>, VectorsError> {
    let (options, rest) = line.split_once('\t').ok_or(VectorsError::Table)?;
    let (patterns, rest) = rest.split_once('\t').ok_or(VectorsError::Table)?;
    let (text, rest) = rest.split_once('\t').ok_or(VectorsError::Table)?;
    let (input, rest) = rest.split_once('\t').ok_or(VectorsError::Table)?;
    let (template, questions) = rest.split_once('\t').ok_or(VectorsError::Table)?;
    let (letters, limits) = options.split_once(' ').unwrap_or((options, ""));
    Ok(Row {
        letters,
        limits,
        patterns,
        text,
        input,
        template,
        questions,
    })
}

/// A question of a case.
#[derive(Clone, Copy)]
pub struct Question<'t> {
    /// The name of the call.
    pub name: &'t str,
    /// Its place in the table of calls.
    pub place: usize,
    pub call: LibraryCall,
    /// The argument; empty if the call has none.
    pub argument: &'t str,
    /// The argument as a number; 0 if it is none.
    pub number: usize,
    /// The answers that are allowed, separated by ` | `.
    pub allowed: &'t str,
}

/// Cuts a question into its parts. Fails with `VectorsError::Table` if it has no answer or asks no call.
pub fn question_of(field: &str) -> Result<Question<'_>, VectorsError> {
    let (asked, allowed) = field.split_once('=').ok_or(VectorsError::Table)?;
    let (name, argument) = asked.split_once(' ').unwrap_or((asked, ""));
    let (place, call) = call_named(name).ok_or(VectorsError::Table)?;
    Ok(Question {
        name,
        place,
        call,
        argument,
        number: argument.parse::<usize>().unwrap_or(0),
        allowed,
    })
}

/// A case: a row with its texts decoded, asked with the option `seek` or without.
#[derive(Clone, Copy)]
pub struct Case<'c> {
    pub row: Row<'c>,
    pub pattern: &'c str,
    pub text: &'c str,
    pub template: &'c str,
    /// The options of the row, without `seek`.
    pub options: RegexOptionsBuilder,
    /// The cap on the program, if the row has one.
    pub cap: Option<usize>,
    pub seek: bool,
}

impl Case<'_> {
    /// The options with `seek`, if the case is asked with it.
    pub fn options_to_build(&self) -> RegexOptionsBuilder {
        let mut options = self.options;
        options.seek(self.seek);
        options
    }
}

/// The number of these digits. Fails with `VectorsError::Table` if they are none.
fn number_of(digits: &str) -> Result<usize, VectorsError> {
    match digits.parse::<usize>() {
        Ok(number) => Ok(number),
        Err(_) => Err(VectorsError::Table),
    }
}

/// The limit that begins with this letter, if a row has one: `b` the backtrack limit, `c` the cap on the program.
pub fn limit_of(row: Row<'_>, letter: char) -> Result<Option<usize>, VectorsError> {
    for word in row.limits.split(' ') {
        if let Some(digits) = word.strip_prefix(letter) {
            return Ok(Some(number_of(digits)?));
        }
    }
    Ok(None)
}

/// The options that a printed text keeps, by their letters: `u` Unicode mode, `l` longest, `e` not empty.
pub fn kept_options(letters: &str) -> RegexOptionsBuilder {
    let mut options = RegexOptionsBuilder::new();
    options
        .unicode_mode(letters.contains('u'))
        .leftmost_longest(letters.contains('l'))
        .find_not_empty(letters.contains('e'));
    options
}

/// The options of these letters: those that a printed text keeps, and `i` case-insensitive, `m` multi-line, `s` dot matches newlines,
/// `x` blanks are skipped, `R` CRLF, `o` Oniguruma mode, `n` named groups alone.
fn options_of(letters: &str) -> RegexOptionsBuilder {
    let mut options = kept_options(letters);
    options
        .case_insensitive(letters.contains('i'))
        .multi_line(letters.contains('m'))
        .dot_matches_new_line(letters.contains('s'))
        .ignore_whitespace(letters.contains('x'));
    options
        .crlf(letters.contains('R'))
        .oniguruma_mode(letters.contains('o'))
        .ignore_numbered_groups_when_named_groups_exist(letters.contains('n'));
    options
}

/// The options of a row with its limits. Fails with `VectorsError::Table` if a limit is no number.
pub fn limited_options(row: Row<'_>) -> Result<RegexOptionsBuilder, VectorsError> {
    let mut options = options_of(row.letters);
    if let Some(limit) = limit_of(row, 'b')? {
        options.backtrack_limit(limit);
    }
    if let Some(limit) = limit_of(row, 'c')? {
        options.max_prog_size(limit);
    }
    Ok(options)
}

/// The flags of `Expr::parse_tree_with_flags` by the letters of the options that they stand for.
static FLAGS: [(char, u32); 8] = [
    ('i', FLAG_CASEI),
    ('m', FLAG_MULTI),
    ('s', FLAG_DOTNL),
    ('x', FLAG_IGNORE_SPACE),
    ('u', FLAG_UNICODE),
    ('R', FLAG_CRLF),
    ('o', FLAG_ONIGURUMA_MODE),
    ('n', FLAG_IGNORE_NUMBERED_GROUPS_WHEN_NAMED_GROUPS_EXIST),
];

/// The flags that these letters stand for.
pub fn flags_of(letters: &str) -> u32 {
    let mut flags = 0;
    for (letter, flag) in FLAGS.iter() {
        if letters.contains(*letter) {
            flags |= *flag;
        }
    }
    flags
}

/// The input of a case. The column has the start, both ends of the range, and letters: `a` anchored, `s` no start of the text, `e`
/// no end of it, `g` no `\G` at the start. Fails with `VectorsError::Table` if it has not, or an offset is no character boundary.
pub fn input_of<'c>(case: &Case<'c>) -> Result<RegexInput<&'c str>, VectorsError> {
    let text = case.text;
    if case.row.input.is_empty() {
        return Ok(RegexInput::new(text));
    }
    let (start, rest) = case.row.input.split_once(' ').ok_or(VectorsError::Table)?;
    let (from, rest) = rest.split_once(' ').ok_or(VectorsError::Table)?;
    let (to, letters) = rest.split_once(' ').ok_or(VectorsError::Table)?;
    let (start, from, to) = (number_of(start)?, number_of(from)?, number_of(to)?);
    if to < from || !text.is_char_boundary(from) || !text.is_char_boundary(to) {
        return Err(VectorsError::Table);
    }
    if start <= text.len() && !text.is_char_boundary(start) {
        return Err(VectorsError::Table);
    }
    let input = RegexInput::new(text).from_pos(start).range(from..to);
    Ok(
        input
            .anchored(letters.contains('a'))
            .start_text(!letters.contains('s'))
            .end_text(!letters.contains('e'))
            .continue_from_previous_match_end(!letters.contains('g')),
    )
}
