//! References to capture groups.

/// Which capture group a reference or a subroutine call means.
#[derive(Clone, Copy, Debug, PartialEq, Eq)]
pub enum Target<'t> {
    /// A group number. 0 means the whole pattern.
    ByNumber(usize),
    /// A group name, as it is written.
    ByName(&'t str),
    /// A number of groups counted from the position of the reference, negative for groups before it.
    Relative(isize),
}

/// A reference to a capture group.
#[derive(Clone, Copy, Debug, PartialEq, Eq)]
pub struct Reference<'t> {
    /// The group.
    pub target: Target<'t>,
    /// The relative recursion level, if one is written.
    pub level: Option<isize>,
}
