//! Worked examples of the definitions, proved by computation. The functions do nothing.

ghost use Rattle.fancy_regex_lex.specs.EscapeExamples.{EscapeExamples};
ghost use Rattle.fancy_regex_lex.specs.ClassExamples.{ClassExamples};
ghost use Rattle.fancy_regex_lex.specs.FlagExamples.{FlagExamples};
ghost use Rattle.fancy_regex_lex.specs.QuantifierExamples.{QuantifierExamples};
ghost use Rattle.fancy_regex_lex.specs.OpeningExamples.{OpeningExamples};

/// Examples of escapes.
pub fn escape_examples()
    ensures { EscapeExamples }
{}

/// Examples of bracketed classes.
pub fn class_examples()
    ensures { ClassExamples }
{}

/// Examples of flags after `(?`.
pub fn flag_examples()
    ensures { FlagExamples }
{}

/// Examples of quantifiers and their suffixes.
pub fn quantifier_examples()
    ensures { QuantifierExamples }
{}

/// Examples of open parentheses.
pub fn opening_examples()
    ensures { OpeningExamples }
{}
