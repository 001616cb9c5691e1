//! Whether there is a match, as far as the table of a pattern tells: at the first sign of one nothing more of the text is read.

ghost use Rattle.std.specs.Prelude.{◌≡◌, ◌≤◌, IfSome, IsCharBoundary, IsUtf8, length};
ghost use Rattle.fancy_regex_class.specs.Looks.{looked_text};
ghost use Rattle.fancy_regex_linear.specs.Layers.{IsSearchContext};
ghost use Rattle.fancy_regex_linear.specs.Settled.{IsTableSearch};
ghost use Rattle.fancy_regex_linear.specs.Verdicts.{IsPassedOver, IsVerdict, IsVerdictInRange};

use crate::by_table::{TableSearch, char_before};
use crate::search::SearchContext;
use crate::skip::{skip_before, skip_pairs, skip_refused};
use crate::starts::{refuses_all, second_chars};
use fancy_regex_class::Counted;
use fancy_regex_table::Sign;

/// What a table tells of the matches of a search.
#[derive(Clone, Copy)]
pub enum Verdict {
    /// There is one.
    Match,
    /// There is none.
    NoMatch,
    /// None starts before this byte offset.
    NoneBefore { at: usize },
}

/// The first start from `at` on at which the characters there do not show that no match begins; `None` where they show it for all.
fn pass_starts(
    context: &SearchContext,
    text: &mut Counted,
    it: TableSearch,
    at: usize,
) -> Option<usize>
    requires table { IsTableSearch context.now (looked_text text.old) it }
    requires context { IsSearchContext context.now }
    requires range { at ≤ context.now.stop }
    requires text { IsUtf8 (looked_text text.old) }
    requires boundary { IsCharBoundary (looked_text text.old) at }
    ensures passed { IsPassedOver context.now (looked_text text.old) at result }
    ensures range { IfSome result (λ start. (at ≤ start) × (start ≤ context.now.stop) × IsCharBoundary (looked_text text.old) start) }
    ensures text { looked_text text.new ≡ looked_text text.old }
{
    if at == 0 {
        return Some(at);
    }
    if let Some(before) = it.before.as_ref() {
        return Some(skip_before(context, text, it, before, at).0);
    }
    if refuses_all(context) {
        return None;
    }
    let Some(second) = second_chars(context) else {
        return Some(skip_refused(context, text, it, at).0);
    };
    Some(skip_pairs(context, text, it, at, second).0)
}

/// What the table tells of the matches from the byte offset `from` on.
pub fn table_verdict(
    context: &SearchContext,
    text: &mut Counted,
    it: TableSearch,
    from: usize,
) -> Verdict
    requires context { IsSearchContext context.now }
    requires table { IsTableSearch context.now (looked_text text.old) it }
    requires range { (from ≤ context.now.stop) × (context.now.stop ≤ length (looked_text text.old)) }
    requires text { IsUtf8 (looked_text text.old) }
    requires boundary { IsCharBoundary (looked_text text.old) from }
    ensures verdict { IsVerdict context.now (looked_text text.old) from result }
    ensures range { IsVerdictInRange (looked_text text.old) from context.now.stop result }
{
    let mut at = from;
    'starts: loop {
        let Some(start) = pass_starts(context, text, it, at) else {
            return Verdict::NoMatch;
        };
        let before = char_before(it.text, start);
        match it.table.sign(context.matchers, it.text, start, before) {
            Sign::Match => return Verdict::Match,
            Sign::Ended => return Verdict::NoMatch,
            Sign::Idle { at: next } => at = next,
            Sign::Unknown { from } => return Verdict::NoneBefore { at: from },
        }
    }
}
