//! The calls that a case can ask, by the names that they have in the table.

/// A call for spans of matches.
#[derive(Clone, Copy)]
pub enum SpanCall {
    Find,
    FindInput,
    FindFromPos,
    IsMatch,
    IsMatchInput,
    FindIter,
    FindIterInput,
    /// Whether the looks of `find_input_counted` lie within bounds.
    Looks,
}

/// A call for groups of matches.
#[derive(Clone, Copy)]
pub enum GroupCall {
    Captures,
    CapturesInput,
    CapturesFromPos,
    CapturesIter,
    CapturesIterInput,
    /// The group of a name in the first match.
    Name,
    CaptureNames,
}

/// A call for texts that matches are cut from or put into.
#[derive(Clone, Copy)]
pub enum TextCall {
    Split,
    SplitN,
    /// `replacen` by a template.
    ReplaceN,
    /// `replacen` by a text as it stands.
    NoExpand,
    /// The template expanded on the first match.
    Expand,
    /// The same, with a template in the form of Python.
    Python,
    Check,
}

/// A call on a pattern, or on a text for one, without a search.
#[derive(Clone, Copy)]
pub enum PatternCall {
    StartBytes,
    RequiredBytes,
    Reprint,
    Escape,
    ExpanderEscape,
}

/// A question to the analysis of a pattern.
#[derive(Clone, Copy)]
pub enum AnalysisCall {
    Sizes,
    Weight,
    Easy,
    /// The groups of the first match by the backtracking machine, which runs patterns of every kind.
    Machine,
    /// The instructions of the program.
    Layout,
    /// How many of its instructions begin a greedy repeat, and how many fail.
    Repeats,
}

/// A call that a case asks.
#[derive(Clone, Copy)]
pub enum LibraryCall {
    /// Whether a regex is built.
    Build,
    Span(SpanCall),
    Group(GroupCall),
    Text(TextCall),
    Pattern(PatternCall),
    /// Whether a regex of the printed text has the same answers.
    Reprinted,
    Analysis(AnalysisCall),
    /// The members of a set that match at the earliest place.
    Set,
}

/// All calls by their names, in the order in which their totals are printed.
pub static CALLS: [(&str, LibraryCall); 36] = [
    ("split", LibraryCall::Text(TextCall::Split)),
    ("build", LibraryCall::Build),
    ("reprint", LibraryCall::Pattern(PatternCall::Reprint)),
    (
        "required_bytes",
        LibraryCall::Pattern(PatternCall::RequiredBytes),
    ),
    ("start_bytes", LibraryCall::Pattern(PatternCall::StartBytes)),
    ("captures", LibraryCall::Group(GroupCall::Captures)),
    ("is_match", LibraryCall::Span(SpanCall::IsMatch)),
    ("weight", LibraryCall::Analysis(AnalysisCall::Weight)),
    ("looks", LibraryCall::Span(SpanCall::Looks)),
    ("find", LibraryCall::Span(SpanCall::Find)),
    ("find_input", LibraryCall::Span(SpanCall::FindInput)),
    ("is_match_input", LibraryCall::Span(SpanCall::IsMatchInput)),
    ("find_iter", LibraryCall::Span(SpanCall::FindIter)),
    ("set", LibraryCall::Set),
    ("replacen", LibraryCall::Text(TextCall::ReplaceN)),
    ("no_expand", LibraryCall::Text(TextCall::NoExpand)),
    ("escape", LibraryCall::Pattern(PatternCall::Escape)),
    ("capture_names", LibraryCall::Group(GroupCall::CaptureNames)),
    ("expand", LibraryCall::Text(TextCall::Expand)),
    ("python", LibraryCall::Text(TextCall::Python)),
    ("splitn", LibraryCall::Text(TextCall::SplitN)),
    ("sizes", LibraryCall::Analysis(AnalysisCall::Sizes)),
    ("easy", LibraryCall::Analysis(AnalysisCall::Easy)),
    ("check", LibraryCall::Text(TextCall::Check)),
    (
        "expander_escape",
        LibraryCall::Pattern(PatternCall::ExpanderEscape),
    ),
    ("machine", LibraryCall::Analysis(AnalysisCall::Machine)),
    (
        "captures_input",
        LibraryCall::Group(GroupCall::CapturesInput),
    ),
    ("find_from_pos", LibraryCall::Span(SpanCall::FindFromPos)),
    (
        "captures_from_pos",
        LibraryCall::Group(GroupCall::CapturesFromPos),
    ),
    ("captures_iter", LibraryCall::Group(GroupCall::CapturesIter)),
    ("name", LibraryCall::Group(GroupCall::Name)),
    ("reprinted", LibraryCall::Reprinted),
    ("layout", LibraryCall::Analysis(AnalysisCall::Layout)),
    ("repeats", LibraryCall::Analysis(AnalysisCall::Repeats)),
    (
        "find_iter_input",
        LibraryCall::Span(SpanCall::FindIterInput),
    ),
    (
        "captures_iter_input",
        LibraryCall::Group(GroupCall::CapturesIterInput),
    ),
];

/// The place of the call of this name in the table, and the call; `None` if there is none.
pub fn call_named(name: &str) -> Option<(usize, LibraryCall)> {
    for (place, (known, call)) in CALLS.iter().enumerate() {
        if *known == name {
            return Some((place, *call));
        }
    }
    None
}
