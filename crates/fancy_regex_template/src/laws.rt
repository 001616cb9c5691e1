//! Laws of the definitions, and worked examples. The functions do nothing.

ghost use Rattle.fancy_regex_template.specs.Cuts.{PartsAreCut, NumbersAreDigits};
ghost use Rattle.fancy_regex_template.specs.Expansion.{PlainTemplatesStay, EscapedTextsComeBack};
ghost use Rattle.fancy_regex_template.specs.Examples.{TemplateExamples};
ghost use Rattle.fancy_regex_template.specs.Faults.{AcceptedTemplatesExist};

/// The parts of a template are the one way to cut it into parts that are each as long as possible.
pub fn parts_are_cut()
    ensures { PartsAreCut }
{}

/// A text writes a number exactly if it is one or more decimal digits whose number has at most 64 bits.
pub fn numbers_are_digits()
    ensures { NumbersAreDigits }
{}

/// A template without a sign expands to itself.
pub fn plain_templates_stay()
    ensures { PlainTemplatesStay }
{}

/// An escaped text expands to the text.
pub fn escaped_texts_come_back()
    ensures { EscapedTextsComeBack }
{}

/// The check accepts exactly the templates whose references exist and whose signs all begin something.
pub fn accepted_templates_exist()
    ensures { AcceptedTemplatesExist }
{}

/// Examples of parts, expansions, faults and escaped texts, proved by computation.
pub fn template_examples()
    ensures { TemplateExamples }
{}
