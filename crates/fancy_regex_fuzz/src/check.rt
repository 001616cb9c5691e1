//! The checks of a case: what has to hold between the answers of the public calls.

/// What has to hold between calls.
#[derive(Clone, Copy, Debug, PartialEq, Eq)]
pub enum Check {
    /// All calls that need the pattern refuse it with the same error, and so do the inner calls, one after the other.
    Refused,
    /// A search with a count of looks finds what `find` finds. A plain pattern is built, and a search of it keeps its bound on looks and
    /// meets no limit.
    Plain,
    /// `is_match`, `find` and `captures` find the same.
    Whole,
    /// The searches of a part of the text, anchored there or not, find the same, inside the part.
    Part,
    /// The searches from a byte offset on find the same.
    From,
    /// A group's name gives the last group of that name, and each group that is set lies in the text.
    Groups,
    /// Reading, analysis, and the engine that the regex runs on give the groups that the regex gives.
    Engine,
    /// So does the machine, which runs every pattern.
    Machine,
    /// So do the states with parts, where the pattern has such states and may match the empty string.
    States,
    /// A pattern's program with its calls written out, and the one in which calls stay calls, end alike under every limit.
    Layouts,
    /// The linear engine has the same matches with its table and without, from several places on.
    Table,
    /// The ends of an iteration's matches increase, and its first match is that of `find`.
    Ends,
    /// After a match that is not empty the iteration finds what `find_from_pos` finds from its end.
    Next,
    /// The iteration over the groups in a part of the text has the matches of the iteration over its matches.
    Items,
    /// Pieces and matches in turn are the text.
    Pieces,
    /// A replacement by a template has the template's expansion for each match.
    Template,
    /// A replacement of the first matches by a fixed text has it between the pieces.
    Fixed,
    /// The calls that expand a template make the same of it; escaped, it has no fault and expands to what it was.
    Expansion,
    /// A set that has the pattern twice finds in a part of the text what `find_input` finds there, twice.
    Set,
    /// With start bytes and without, and by both builders, all searches have the same answers.
    Seek,
    /// So they have by the printed pattern.
    Reprint,
    /// The longest match ends where the first match ends, or after it.
    Longest,
    /// A match starts with a start byte where it takes any, and the text has all required bytes.
    Bytes,
    /// The escaped text finds the whole text.
    Escape,
}

/// All checks of a pattern that is built.
pub static CHECKS: [Check; 23] = [
    Check::Plain,
    Check::Whole,
    Check::Part,
    Check::From,
    Check::Groups,
    Check::Engine,
    Check::Machine,
    Check::Layouts,
    Check::States,
    Check::Table,
    Check::Ends,
    Check::Next,
    Check::Items,
    Check::Pieces,
    Check::Template,
    Check::Fixed,
    Check::Expansion,
    Check::Set,
    Check::Seek,
    Check::Reprint,
    Check::Longest,
    Check::Bytes,
    Check::Escape,
];
