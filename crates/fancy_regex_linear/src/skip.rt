//! Starts that are passed over sixteen at a time, by what stands there, after it and before it.

ghost use Rattle.std.specs.Prelude.{min, ◌≡◌, ◌^◌, ◌*◌, ℕ, ◌+◌, ◌-◌, ◌<◌, ◌≤◌, IfSome, IsCharBoundary, IsUtf8};
ghost use Rattle.std.specs.Char.{len_utf8};
ghost use Rattle.regex_hir.specs.Text.{char_at};
ghost use Rattle.fancy_regex_class.specs.Looks.{looked_text, look_count, SameCounter};
ghost use Rattle.fancy_regex_states.specs.First.{RefusesSecond};
ghost use Rattle.fancy_regex_linear.specs.Settled.{IsTableSearch};
ghost use Rattle.fancy_regex_linear.specs.Starts.{IsPlaceFrom, IsSkippedAt};
ghost use Rattle.fancy_regex_linear.specs.Before.{IsBeforeOf};

use crate::by_table::TableSearch;
use crate::passing::{By, Passing, TOGETHER};
use crate::search::SearchContext;
use crate::starts::pass_pairs;
use fancy_regex_class::{Counted, count_places, skip_ascii};

/// Passes over starts from `from` on at which a character stands that no match begins with. Answers the byte offset of the first start that
/// is left, or the end, and the character there. Each byte offset up to that one costs a look.
#[inline(always)]
pub fn skip_refused(
    context: &SearchContext,
    text: &mut Counted,
    it: TableSearch,
    from: usize,
) -> (usize, Option<char>)
    requires table { IsTableSearch context.now (looked_text text.old) it }
    requires text { IsUtf8 (looked_text text.old) }
    requires range { from ≤ context.now.stop }
    requires boundary { IsCharBoundary (looked_text text.old) from }
    ensures place { IsPlaceFrom text.old text.new from context.now.stop result }
    ensures passed { (i : ℕ) → from ≤ i → i < result.0 → IsSkippedAt context.now (looked_text text.old) i }
    ensures ticked { look_count text.new ≡ min (look_count text.old + (result.0 - from + 1)) (2 ^ 64 - 1) }
{
    let Some(at) = it.passing.first_until(it.text.as_bytes(), from) else {
        return skip_ascii(text, from, context.stop, context.refused);
    };
    count_places(text, from, at);
    let (_, after) = text.look(at);
    (at, after)
}

/// Passes over starts as `skip_refused` does, and also those at which an ASCII character stands before one that is second in no match.
/// The answer is of the same kind. Each byte offset before it costs one look or two, its own and that of the one after it.
#[inline(always)]
pub fn skip_pairs(
    context: &SearchContext,
    text: &mut Counted,
    it: TableSearch,
    from: usize,
    second: &[bool; 128],
) -> (usize, Option<char>)
    requires table { IsTableSearch context.now (looked_text text.old) it }
    requires second { RefusesSecond context.now.rules.unicode context.now.matchers.now context.now.states.now context.now.entry second.now }
    requires text { IsUtf8 (looked_text text.old) }
    requires range { from ≤ context.now.stop }
    requires boundary { IsCharBoundary (looked_text text.old) from }
    ensures place { IsPlaceFrom text.old text.new from context.now.stop result }
    ensures at_least { min (look_count text.old + (result.0 - from + 1)) (2 ^ 64 - 1) ≤ look_count text.new }
    ensures at_most { look_count text.new ≤ look_count text.old + 2 * (result.0 - from) + 1 }
    ensures passed { (i : ℕ) → from ≤ i → i < result.0 → IsSkippedAt context.now (looked_text text.old) i }
{
    let bytes = it.text.as_bytes();
    let Some(at) = it.passing.pairs_until(bytes, from) else {
        return pass_pairs(context, text, from, second);
    };
    count_places(text, from, at);
    count_places(text, from, at);
    if bytes.len() - at <= TOGETHER {
        return pass_pairs(context, text, at, second);
    }
    let (_, after) = text.look(at);
    (at, after)
}

/// Goes on as `skip_before` does, if the search has characters before starts, and else as `skip_refused` does.
#[inline(never)]
fn skip_before_or_refused(
    context: &SearchContext,
    text: &mut Counted,
    it: TableSearch,
    from: usize,
) -> (usize, Option<char>)
    requires table { IsTableSearch context.now (looked_text text.old) it }
    requires text { IsUtf8 (looked_text text.old) }
    requires range { from ≤ context.now.stop }
    requires boundary { IsCharBoundary (looked_text text.old) from }
    ensures place { IsPlaceFrom text.old text.new from context.now.stop result }
    ensures passed { (i : ℕ) → from ≤ i → i < result.0 → IsSkippedAt context.now (looked_text text.old) i }
    ensures ticked { look_count text.new ≡ min (look_count text.old + (result.0 - from + 1)) (2 ^ 64 - 1) }
{
    match it.before.as_ref() {
        Some(before) => skip_before(context, text, it, before, from),
        None => skip_refused(context, text, it, from),
    }
}

/// Passes over starts from `from` on that stand after a character after which no match begins, or at which a character stands that no
/// match begins with. Answers the byte offset of the first start that is left, or the end, and the character there. Each byte offset up to
/// that one costs a look.
#[inline(always)]
pub fn skip_before(
    context: &SearchContext,
    text: &mut Counted,
    it: TableSearch,
    before: &Passing,
    from: usize,
) -> (usize, Option<char>)
    requires before { IsBeforeOf context.now.rules.unicode context.now.matchers.now context.now.states.now context.now.entry
        context.now.refused.now before.now }
    requires table { IsTableSearch context.now (looked_text text.old) it }
    requires text { IsUtf8 (looked_text text.old) }
    requires range { from ≤ context.now.stop }
    requires boundary { IsCharBoundary (looked_text text.old) from }
    ensures place { IsPlaceFrom text.old text.new from context.now.stop result }
    ensures passed { (i : ℕ) → from ≤ i → i < result.0 → IsSkippedAt context.now (looked_text text.old) i }
    ensures ticked { look_count text.new ≡ min (look_count text.old + (result.0 - from + 1)) (2 ^ 64 - 1) }
{
    let bytes = it.text.as_bytes();
    let at = before.after_pairs_until(bytes, from);
    count_places(text, from, at);
    let (_, after) = text.look(at);
    (at, after)
}

/// Passes over starts as `skip_before_or_refused` does, or one after another where the search has no table, or where the pattern says so
/// (`By::Chars`): then a match may begin with a character that is not ASCII, and few bytes can be passed over together.
#[inline(always)]
pub fn skip_firsts(
    context: &SearchContext,
    text: &mut Counted,
    table: Option<TableSearch>,
    from: usize,
) -> (usize, Option<char>)
    requires table { IfSome table (IsTableSearch context.now (looked_text text.old)) }
    requires text { IsUtf8 (looked_text text.old) }
    requires range { from ≤ context.now.stop }
    requires boundary { IsCharBoundary (looked_text text.old) from }
    ensures place { IsPlaceFrom text.old text.new from context.now.stop result }
    ensures passed { (i : ℕ) → from ≤ i → i < result.0 → IsSkippedAt context.now (looked_text text.old) i }
    ensures ticked { look_count text.new ≡ min (look_count text.old + (result.0 - from + 1)) (2 ^ 64 - 1) }
{
    if let Some(it) = table {
        match it.passing.by {
            By::Chars => {}
            By::Bytes => return skip_refused(context, text, it, from),
            By::Before => return skip_before_or_refused(context, text, it, from),
        }
    }
    skip_ascii(text, from, context.stop, context.refused)
}

/// Passes over starts as `skip_firsts` does, where second characters of matches are known: these are tested too, unless starts are passed
/// over by the characters before them.
#[inline(always)]
pub fn skip_places(
    context: &SearchContext,
    text: &mut Counted,
    table: Option<TableSearch>,
    from: usize,
    second: &[bool; 128],
) -> (usize, Option<char>)
    requires table { IfSome table (IsTableSearch context.now (looked_text text.old)) }
    requires second { RefusesSecond context.now.rules.unicode context.now.matchers.now context.now.states.now context.now.entry second.now }
    requires text { IsUtf8 (looked_text text.old) }
    requires range { from ≤ context.now.stop }
    requires boundary { IsCharBoundary (looked_text text.old) from }
    ensures place { IsPlaceFrom text.old text.new from context.now.stop result }
    ensures at_least { min (look_count text.old + (result.0 - from + 1)) (2 ^ 64 - 1) ≤ look_count text.new }
    ensures at_most { look_count text.new ≤ look_count text.old + 2 * (result.0 - from) + 1 }
    ensures passed { (i : ℕ) → from ≤ i → i < result.0 → IsSkippedAt context.now (looked_text text.old) i }
{
    if let Some(it) = table {
        match it.passing.by {
            By::Chars => {}
            By::Bytes => return skip_pairs(context, text, it, from, second),
            By::Before => return skip_before_or_refused(context, text, it, from),
        }
    }
    pass_pairs(context, text, from, second)
}
