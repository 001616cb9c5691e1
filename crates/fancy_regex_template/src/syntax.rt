//! The syntaxes of templates.

ghost use Rattle.std.specs.Prelude.{◌≡◌};
ghost use Rattle.fancy_regex_template.specs.Parts.{sign_of, opening_of, closing_of};

/// How references are written in a template.
#[derive(Clone, Copy, Debug, PartialEq, Eq)]
pub enum TemplateSyntax {
    /// `$name`, `${name}`, and `$$` for one `$`.
    Dollar,
    /// `\1`, `\g<name>`, and `\\` for one `\`, as in Python.
    Python,
}

impl TemplateSyntax {
    /// The character that begins a reference. Two of them stand for one.
    pub fn sign(self) -> char
        ensures { result ≡ sign_of self }
    {
        match self {
            TemplateSyntax::Dollar => '$',
            TemplateSyntax::Python => '\\',
        }
    }

    /// What stands between the sign and an enclosed name.
    pub(crate) fn opening(self) -> &'static str
        ensures { result.now ≡ opening_of self }
    {
        match self {
            TemplateSyntax::Dollar => "{",
            TemplateSyntax::Python => "g<",
        }
    }

    /// What ends an enclosed name.
    pub(crate) fn closing(self) -> &'static str
        ensures { result.now ≡ closing_of self }
    {
        match self {
            TemplateSyntax::Dollar => "}",
            TemplateSyntax::Python => ">",
        }
    }
}
