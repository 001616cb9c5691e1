//! Looks that are counted where something else than `Counted::look` has looked.

ghost use Rattle.std.specs.Prelude.{◌≡◌, ◌+◌, ◌-◌, ◌^◌, ◌≤◌, length, min};
ghost use Rattle.fancy_regex_class.specs.Looks.{looked_text, look_count, SameCounter};

use crate::counted::Counted;

/// Counts a look at each byte offset from `from` up to `to`, which is not one of them. They stand for looks that are not made by
/// `Counted::look`: `skip_ascii` or a search of sixteen bytes at a time tested the byte at each of them, a table that has read the haystack
/// by itself tested its row there, or a state refuses each of them that refuses every character, and is not shown any.
// No public method: who has a `Counted` from the engine's public crate can look, and not count without looking.
#[inline(always)]
pub fn count_places(text: &mut Counted, from: usize, to: usize)
    requires range { (from ≤ to) × (to ≤ length (looked_text text.old)) }
    ensures ticked { look_count text.new ≡ min (look_count text.old + (to - from)) (2 ^ 64 - 1) }
    ensures text { looked_text text.new ≡ looked_text text.old }
    ensures same_counter { SameCounter text.old text.new }
{
    text.count_places(from, to);
}
