//! The lexical grammar of patterns, as relations between a text, a token at its beginning and the rest of the text. The laws say that each
//! lexer function of `fancy_regex_lex` returns exactly what its relation allows. Laws only: every function here has an empty body.
#![tactic(auto)]

ghost use Rattle.fancy_regex_lex_grammar.specs.Classes.{ClassesAreExact};
ghost use Rattle.fancy_regex_lex_grammar.specs.Counts.{MarksAreExact, QuantifierTokensAreExact};
ghost use Rattle.fancy_regex_lex_grammar.specs.Escapes.{ClosedReferencesAreExact, EscapesAreExact};
ghost use Rattle.fancy_regex_lex_grammar.specs.Flags.{FlagsAreExact};
ghost use Rattle.fancy_regex_lex_grammar.specs.TokenBounds.{TokenFaultsAreInside, TokensArePrefixes};
ghost use Rattle.fancy_regex_lex_grammar.specs.Layout.{NextTokenIsExact, SkipIsExact};
ghost use Rattle.fancy_regex_lex_grammar.specs.Names.{NamesAreExact};
ghost use Rattle.fancy_regex_lex_grammar.specs.Openings.{OpeningsAreExact};

/// Comments, and in verbose mode white space and `#` lines, are skipped exactly as the grammar of layout says. Skipping fails only at a
/// comment that is not closed.
pub fn layout_is_exact()
    ensures next_token { NextTokenIsExact }
    ensures skip { SkipIsExact }
{}

/// Group names, decimal numbers, signed numbers and references are recognized exactly as the grammar says.
pub fn names_are_exact()
    ensures { NamesAreExact }
{}

/// The flags of `(?flags)` and `(?flags:` are read letter by letter. They fail at an unknown letter, at a second `-`, at a `u` that changes
/// Unicode mode, and at the end of the text.
pub fn flags_are_exact()
    ensures { FlagsAreExact }
{}

/// Quantifiers (`?`, `*`, `+`, `{n,m}`) and the `?` (lazy) and `+` (possessive) after them are read exactly as the grammar says.
pub fn quantifier_tokens_are_exact()
    ensures quantifiers { QuantifierTokensAreExact }
    ensures marks { MarksAreExact }
{}

/// Escapes, and the references with a closing character in them, are read exactly as the grammar says. The position of an error in an
/// escape is that of its backslash.
pub fn escapes_are_exact()
    ensures escapes { EscapesAreExact }
    ensures references { ClosedReferencesAreExact }
{}

/// Bracketed character classes are read up to the closing `]`, or fail inside of the class, exactly as the grammar says.
pub fn classes_are_exact()
    ensures { ClassesAreExact }
{}

/// The opening of each parenthesized construct (groups, flags, look-around, conditionals, absent operators, verbs) is read exactly as the
/// grammar says, or fails as it says.
pub fn openings_are_exact()
    ensures { OpeningsAreExact }
{}

/// Each token is a prefix of the text and the rest is a suffix of it. The position of an error is inside the text or at its end.
pub fn tokens_are_prefixes()
    ensures fronts { TokensArePrefixes }
    ensures faults { TokenFaultsAreInside }
{}
