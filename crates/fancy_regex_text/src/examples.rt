//! Worked examples of the definitions, proved by computation. The functions do nothing.

ghost use Rattle.fancy_regex_text.specs.LayoutExamples.{LayoutExamples};
ghost use Rattle.fancy_regex_text.specs.NameExamples.{NameExamples};

/// Examples of layout: comments, blanks, and comments from `#` to the end of the line.
pub fn layout_examples()
    ensures { LayoutExamples }
{}

/// Examples of group names, numbers and references.
pub fn name_examples()
    ensures { NameExamples }
{}
