//! A search for the span alone, by the table of a pattern as far as the table tells, which needs no memory up to there.

ghost use Rattle.std.specs.Prelude.{◌≡◌, ◌<◌, ◌≤◌, length, IfSome, IsCharBoundary, IsUtf8};
ghost use Rattle.std.specs.Char.{len_utf8};
ghost use Rattle.regex_hir.specs.Text.{char_at};
ghost use Rattle.fancy_regex_class.specs.Looks.{looked_text};
ghost use Rattle.fancy_regex_linear.specs.Alone.{AllFailBetween, AloneSays, IsUnknown, IsPassedTo};
ghost use Rattle.fancy_regex_linear.specs.Layers.{IsSearchContext};
ghost use Rattle.fancy_regex_linear.specs.Settled.{IsTableSearch};

use crate::by_table::{TableSearch, pass_counted};
use crate::search::SearchContext;
use crate::skip::{skip_pairs, skip_refused};
use crate::starts::{Start, refuse_rest, refuses_all, second_chars, start_after};
use fancy_regex_class::Counted;
use fancy_regex_table::Passed;

/// What a search by the table alone finds.
#[derive(Clone, Copy)]
pub enum Alone {
    /// The first match.
    Found { start: usize, end: usize },
    /// No match.
    NoMatch,
    /// The table does not tell whether the start here matches.
    Unknown(UnknownStart),
}

/// A start of which the table does not tell whether it matches. It was looked at.
#[derive(Clone, Copy)]
pub struct UnknownStart {
    pub place: Start,
    /// No match starts before this byte offset.
    pub from: usize,
    /// Where this is after the start, the table has read the characters up to here.
    pub read: usize,
}

/// The first start from `at` on at which the characters there do not show that no match begins, and the character there; `None` where
/// they show it for all. Each character up to that one costs a look, and another one where the character after it is tested. At the
/// start of the text, and where starts are common, it is the start here, untested.
#[inline(always)]
fn pass_over(
    context: &SearchContext,
    text: &mut Counted,
    it: TableSearch,
    at: usize,
) -> Option<(usize, Option<char>)>
    requires context { IsSearchContext context.now }
    requires table { IsTableSearch context.now (looked_text text.old) it }
    requires range { (at ≤ context.now.stop) × (context.now.stop ≤ length (looked_text text.old)) }
    requires text { IsUtf8 (looked_text text.old) }
    requires boundary { IsCharBoundary (looked_text text.old) at }
    ensures { IsPassedTo context.now text.old text.new at result }
{
    if at == 0 {
        return Some((at, text.look(at).1));
    }
    if it.passing.starts.are_common() {
        return Some((at, text.look(at).1));
    }
    if refuses_all(context) {
        refuse_rest(context, text, at);
        return None;
    }
    let Some(second) = second_chars(context) else {
        return Some(skip_refused(context, text, it, at));
    };
    Some(skip_pairs(context, text, it, at, second))
}

/// That the table does not tell of this start, where none before `from` matches and the characters up to `read` were read.
pub fn unknown(
    context: &SearchContext,
    place: (usize, Option<char>),
    from: usize,
    read: usize,
) -> Alone
    requires range { place.0 ≤ context.now.stop }
    ensures { IsUnknown context.now place from read result }
{
    let (at, after) = place;
    let next = start_after(at, after, false, context.stop);
    let place = Start { at, after, next };
    Alone::Unknown(UnknownStart { place, from, read })
}

/// Goes through the text by the table from `from` on: to the first match, to the end, or to a start of which the table does not tell
/// whether it matches. Each character that is passed over or read costs a look. Starts are passed over by what stands there, unless
/// starts are common.
#[inline(always)]
pub fn by_starts_alone(
    context: &SearchContext,
    text: &mut Counted,
    it: TableSearch,
    from: usize,
) -> Alone
    requires context { IsSearchContext context.now }
    requires table { IsTableSearch context.now (looked_text text.old) it }
    requires range { (from ≤ context.now.stop) × (context.now.stop ≤ length (looked_text text.old)) }
    requires text { IsUtf8 (looked_text text.old) }
    requires boundary { IsCharBoundary (looked_text text.old) from }
    ensures { AloneSays context.now text.old text.new from result }
{
    let mut at = from;
    'starts: loop {
        let Some((start, after)) = pass_over(context, text, it, at) else {
            return Alone::NoMatch;
        };
        match pass_counted(context, text, it, start, true) {
            Passed::Match {
                start: first,
                end,
                ..
            } => return Alone::Found { start: first, end },
            Passed::Ended => return Alone::NoMatch,
            Passed::Idle { at: next } => at = next,
            Passed::Unknown { from, read } => return unknown(context, (start, after), from, read),
        }
    }
}
