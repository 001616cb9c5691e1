//! The tokens of patterns. A token borrows names from the pattern.

use fancy_regex_text::{Reference, Target};

/// The flags that a pattern can set, by the letters after `(?`.
#[derive(Clone, Copy, Debug, PartialEq, Eq)]
pub struct Flags {
    /// `i`: letters match regardless of case.
    pub casei: bool,
    /// `m`: `^` and `$` match at line starts and line ends too.
    pub multi: bool,
    /// `s`: `.` matches a newline too.
    pub dot_newline: bool,
    /// `x`: blanks, and comments from `#` to the end of the line, are skipped.
    pub verbose: bool,
    /// `U`: quantifiers are lazy, and greedy with a `?` suffix.
    pub swap_greed: bool,
    /// `R`: CRLF mode, where `\r`, `\n` and `\r\n` each end a line.
    pub crlf: bool,
}

/// The kind of a look-around.
#[derive(Clone, Copy, Debug, PartialEq, Eq)]
pub enum Look {
    /// `(?=`: look-ahead.
    Ahead,
    /// `(?!`: negative look-ahead.
    AheadNeg,
    /// `(?<=`: look-behind.
    Behind,
    /// `(?<!`: negative look-behind.
    BehindNeg,
}

/// A backtracking control verb.
#[derive(Clone, Copy, Debug, PartialEq, Eq)]
pub enum Verb {
    /// `(*FAIL)`
    Fail,
    /// `(*ACCEPT)`
    Accept,
    /// `(*COMMIT)`
    Commit,
    /// `(*SKIP)`
    Skip,
    /// `(*PRUNE)`
    Prune,
}

/// An escape that is a zero-width assertion.
#[derive(Clone, Copy, Debug, PartialEq, Eq)]
pub enum AssertionEscape {
    /// `\A`: the start of the haystack.
    TextStart,
    /// `\z`: the end of the haystack.
    TextEnd,
    /// `\Z`: the end of the haystack, or before newlines at its end.
    TextEndOrNewlines,
    /// `\b`: the start or the end of a word.
    WordBoundary,
    /// `\B`: neither the start nor the end of a word.
    NotWordBoundary,
    /// `\<`, `\b{start}`: the start of a word.
    LeftWordBoundary,
    /// `\>`, `\b{end}`: the end of a word.
    RightWordBoundary,
    /// `\b{start-half}`: not preceded by a word character.
    LeftWordHalfBoundary,
    /// `\b{end-half}`: not followed by a word character.
    RightWordHalfBoundary,
}

/// An escape that is a character class.
#[derive(Clone, Copy, Debug, PartialEq, Eq)]
pub enum EscapedClass<'t> {
    /// A backslash and this letter, which is one of `dDwWsS`.
    Perl(char),
    /// `\h`: an ASCII hexadecimal digit.
    HexDigit,
    /// `\H`: any other character than an ASCII hexadecimal digit.
    NotHexDigit,
    /// `\pX`, `\PX`: a Unicode property of one letter. `negated` is true for `\P`.
    OneLetter { negated: bool, letter: char },
    /// `\p{name}`, `\P{name}`: a Unicode property. `negated` is true for `\P`, and turned by a `^` before the name, which
    /// `name` is without.
    Named { negated: bool, name: &'t str },
}

/// An escape: a backslash and what belongs to it.
#[derive(Clone, Copy, Debug, PartialEq, Eq)]
pub enum Escape<'t> {
    /// A literal character.
    Character(char),
    /// A literal byte above 7F, by two hexadecimal digits.
    Byte(u8),
    /// A character class.
    Class(EscapedClass<'t>),
    /// `\N`, any character but a newline; or `\O`, any character, where `newline` is true.
    Any { newline: bool },
    /// `\R`: a newline sequence of any kind.
    GeneralNewline,
    /// A zero-width assertion.
    Assertion(AssertionEscape),
    /// `\G`: the end of the previous match.
    ContinueFromPreviousMatchEnd,
    /// `\K`: the match starts here.
    KeepOut,
    /// `\1`, `\k<reference>` or `\k'reference'`: a back reference.
    BackReference(Reference<'t>),
    /// `\g<target>` or `\g'target'`: a subroutine call.
    Call(Target<'t>),
}

/// The repetition bounds of a quantifier, as written: `lo` may be above `hi`.
#[derive(Clone, Copy, Debug, PartialEq, Eq)]
pub struct Quantifier {
    /// The least number of repetitions.
    pub lo: usize,
    /// The greatest number of repetitions; `usize::MAX` if unbounded.
    pub hi: usize,
    /// Whether it is written in braces.
    pub braces: bool,
}

/// The suffix of a quantifier.
#[derive(Clone, Copy, Debug, PartialEq, Eq)]
pub struct QuantifierSuffix {
    /// Whether it has a `?`, which makes it lazy.
    pub lazy: bool,
    /// Whether it has a `+`, which makes it possessive, that is atomic.
    pub possessive: bool,
}

/// What an open parenthesis starts: a group, or a construct that is read whole.
#[derive(Clone, Copy, Debug, PartialEq, Eq)]
pub enum Opening<'t> {
    /// `(`, `(?<name>` or `(?P<name>`: a capture group, with its name if it has one.
    Capturing(Option<&'t str>),
    /// `(?:` or `(?flags:`: a non-capturing group, inside which exactly these flags hold.
    NonCapturing(Flags),
    /// `(?flags)`, read whole: from here on exactly these flags hold, to the end of the enclosing group.
    SetFlags(Flags),
    /// `(?>`: an atomic group.
    Atomic,
    /// A look-around.
    LookAround(Look),
    /// `(?(reference)`: a conditional that tests whether a capture group has matched.
    IfSet(Reference<'t>),
    /// `(?(`: a conditional that tests an expression, which follows.
    IfMatches,
    /// `(?(DEFINE)`: groups that are only called.
    Define,
    /// `(?~`: an absent repeater.
    Absent,
    /// `(?~|`: an absent expression, an absent stopper or a range clear, by what follows.
    AbsentBar,
    /// `(?P=reference)`, read whole: a back reference.
    BackReference(Reference<'t>),
    /// `(?P>target)`, read whole: a subroutine call.
    Call(Target<'t>),
    /// `(*VERB)`, read whole: a backtracking control verb.
    Verb(Verb),
}
