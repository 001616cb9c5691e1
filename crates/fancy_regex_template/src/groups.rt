//! What a template is checked against and expanded with: the capture groups of a pattern, and their texts in a match.

ghost use Rattle.std.specs.Prelude.{◌≡◌, chars, option_map};
ghost use Rattle.fancy_regex_template.specs.Faults.{Groups};
ghost use Rattle.fancy_regex_template.specs.Expansion.{Texts};

/// The capture groups of a pattern, as far as the check of a template asks for them.
pub trait GroupNames {
    ghost groups: { Self → Groups };

    /// Whether a group has this name.
    fn contains_name(&self, name: &str) -> bool
        ensures { result ≡ (groups self.now).contains_name (chars name.now) };

    /// Whether any group has a name.
    fn has_names(&self) -> bool
        ensures { result ≡ (groups self.now).has_names };

    /// How many groups there are, with group 0.
    fn group_count(&self) -> usize
        ensures { result ≡ (groups self.now).count };
}

/// The texts of the capture groups of a match, as far as an expansion asks for them.
pub trait GroupTexts {
    ghost texts: { Self → Texts };

    /// The text of the group with this name. `None` if there is no such group, or it took no part in the match.
    fn text_by_name(&self, name: &str) -> Option<&str>
        ensures { option_map (λ t. chars t.now) result ≡ (texts self.now).by_name (chars name.now) };

    /// The text of the group with this number. `None` if there is no such group, or it took no part in the match.
    fn text_by_number(&self, number: usize) -> Option<&str>
        ensures { option_map (λ t. chars t.now) result ≡ (texts self.now).by_number number };
}
