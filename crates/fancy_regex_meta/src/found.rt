//! What a search is asked for, and what it answers.

ghost use Rattle.std.specs.Prelude.{◌≡◌, [], option_map, slice_index};
ghost use Rattle.fancy_regex_meta.specs.FoundParts.{found_parts, parts_in};

use std::alloc::Global;

/// Which byte offsets of a match a search is asked for.
#[derive(Clone, Copy, Debug)]
pub enum MatchDetail {
    /// The start and the end of the match alone.
    Span,
    /// Those of each group too.
    Groups,
}

/// A match that a search found.
#[derive(Drop)]
pub struct FoundMatch {
    /// The byte offset at which it starts.
    pub start: usize,
    /// The byte offset at which it ends.
    pub end: usize,
    /// The start and end byte offsets of each group, both `usize::MAX` for a group that did not participate; nothing where the
    /// span alone was asked for.
    pub groups: Vec<usize>,
}

/// The match with this span, without its groups.
pub(crate) fn found_span(alloc: Global, span: Option<(usize, usize)>) -> Option<FoundMatch>
    ensures { option_map found_parts result ≡ option_map (λ s. (s.0, (s.1, []))) span }
{
    match span {
        Some((start, end)) => Some(FoundMatch {
            start,
            end,
            groups: Vec::new(alloc),
        }),
        None => None,
    }
}

/// The match with these offsets of its groups, which begin with its span.
pub(crate) fn found_groups(slots: Option<Vec<usize>>) -> Option<FoundMatch>
    ensures { option_map found_parts result ≡ option_map parts_in (option_map (λ v. v.items) slots) }
{
    match slots {
        Some(groups) => Some(FoundMatch {
            start: offset(&groups, 0),
            end: offset(&groups, 1),
            groups,
        }),
        None => None,
    }
}

/// The offset at this place, or 0 where there is none.
fn offset(slots: &[usize], place: usize) -> usize
    ensures { result ≡ slice_index slots.now place }
{
    match slots.get(place) {
        Some(offset) => *offset,
        None => 0,
    }
}
