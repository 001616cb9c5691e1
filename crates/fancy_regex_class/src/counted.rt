//! A haystack that counts how often it is looked at, so that the work of a search can be bounded.

ghost use Rattle.std.specs.Prelude.{◌≡◌, ℕ, ◌+◌, ◌-◌, ◌^◌, ◌≤◌, length, min, IfSome, IsCharBoundary};
ghost use Rattle.std.specs.Char.{len_utf8};
ghost use Rattle.regex_hir.specs.Text.{char_at, char_before};

use std::marker::Model;

/// A counter of looks at a haystack. It saturates at `u64::MAX`.
///
/// ```
/// let mut steps = Steps::new();
/// let regex = Regex::new(alloc, "b")?;
/// regex.find_input_counted(alloc, RegexInput::new("ab"), &mut steps)?;
/// assert!(rt; steps.count() > 0);
/// ```
#[derive(Drop)]
pub struct Steps {
    count: u64,
}

impl Model for Steps {
    ghost Value = { ℕ };

    ghost view = { λ s. s.count };
}

impl Steps {
    /// A counter at 0.
    pub fn new() -> Steps
        ensures { result ≡ 0 }
    {
        Steps { count: 0 }
    }

    /// The number of looks so far, or `u64::MAX` if there were more.
    pub fn count(&self) -> u64
        ensures { result ≡ self.now }
    {
        self.count
    }

    /// Counts so many looks.
    #[inline(always)]
    fn add(&mut self, looks: usize)
        ensures { self.new ≡ min (self.old + looks) (2 ^ 64 - 1) }
    {
        self.count = self.count.saturating_add(looks as u64);
    }

    /// Counts one look.
    #[inline(always)]
    fn tick(&mut self)
        ensures { self.new ≡ min (self.old + 1) (2 ^ 64 - 1) }
    {
        if self.count < u64::MAX {
            self.count += 1;
        }
    }
}

/// A haystack that is read through `look` and `skip_ascii` only, and the counter that each look adds to. A look is one test of one
/// state against what stands at one place; who tests another state there, or the same one again, looks again.
#[derive(Drop)]
pub struct Counted<'t, 's> {
    text: &'t str,
    steps: &'s mut Steps,
}

impl<'t, 's> Counted<'t, 's> {
    ghost use Rattle.fancy_regex_class.specs.Looks.{looked_text, look_count, SameCounter};

    /// Wraps the haystack; its looks are added to `steps`.
    pub fn new(text: &'t str, steps: &'s mut Steps) -> Counted<'t, 's>
        ensures text { looked_text result ≡ text.now }
        ensures count { look_count result ≡ steps.old }
        ensures same_counter { result.steps.ghost_name ≡ steps.entry.ghost_name }
    {
        Counted { text, steps }
    }

    /// The haystack, for a loop that counts its looks when it ends.
    #[inline(always)]
    pub(crate) fn text(&self) -> &'t str
        ensures { result.now ≡ looked_text self.now }
    {
        self.text
    }

    /// Counts a look at each byte offset from `from` up to `to`, which is not one of them.
    #[inline(always)]
    pub(crate) fn count_places(&mut self, from: usize, to: usize)
        requires range { (from ≤ to) × (to ≤ length (looked_text self.old)) }
        ensures ticked { look_count self.new ≡ min (look_count self.old + (to - from)) (2 ^ 64 - 1) }
        ensures text { looked_text self.new ≡ looked_text self.old }
        ensures same_counter { SameCounter self.old self.new }
    {
        self.steps.add(to - from);
    }

    /// The character that ends at `position`, a byte offset, and the one that starts there; `None` at the start and at
    /// the end of the haystack. Counts one look, that of the state that is tested against them, and allocates nothing.
    #[inline(always)]
    pub fn look(&mut self, position: usize) -> (Option<char>, Option<char>)
        requires { IsCharBoundary (looked_text self.old) position }
        ensures before { result.0 ≡ char_before (looked_text self.old) position }
        ensures after { result.1 ≡ char_at (looked_text self.old) position }
        ensures next { IfSome result.1 (λ c. IsCharBoundary (looked_text self.old) (position + len_utf8 c)) }
        ensures ticked { look_count self.new ≡ min (look_count self.old + 1) (2 ^ 64 - 1) }
        ensures text { looked_text self.new ≡ looked_text self.old }
        ensures same_counter { SameCounter self.old self.new }
    {
        self.steps.tick();
        chars_around(self.text, position)
    }
}

/// The characters before and after the byte offset `position`.
#[inline(always)]
fn chars_around(text: &str, position: usize) -> (Option<char>, Option<char>)
    requires { IsCharBoundary text.now position }
    ensures before { result.0 ≡ char_before text.now position }
    ensures after { result.1 ≡ char_at text.now position }
    ensures next { IfSome result.1 (λ c. IsCharBoundary text.now (position + len_utf8 c)) }
{
    (
        char_ending_at(text, position),
        char_starting_at(text, position),
    )
}

/// The character that ends at the byte offset `position`. An ASCII character is read as one byte.
#[inline(always)]
fn char_ending_at(text: &str, position: usize) -> Option<char>
    requires { IsCharBoundary text.now position }
    ensures { result ≡ char_before text.now position }
{
    if position == 0 {
        return None;
    }
    let byte = text.as_bytes()[position - 1];
    if byte < 128 {
        return Some(byte as char);
    }
    decode_before(text, position)
}

/// The character that starts at the byte offset `position`. An ASCII character is read as one byte.
#[inline(always)]
fn char_starting_at(text: &str, position: usize) -> Option<char>
    requires { IsCharBoundary text.now position }
    ensures after { result ≡ char_at text.now position }
    ensures next { IfSome result (λ c. IsCharBoundary text.now (position + len_utf8 c)) }
{
    match text.as_bytes().get(position) {
        Some(byte) if *byte < 128 => Some(*byte as char),
        Some(_) => decode_from(text, position),
        None => None,
    }
}

/// The character that ends at the byte offset `position`, of any length.
fn decode_before(text: &str, position: usize) -> Option<char>
    requires { IsCharBoundary text.now position }
    ensures { result ≡ char_before text.now position }
{
    let (front, _) = text.split_at(position);
    front.chars().next_back()
}

/// The character that starts at the byte offset `position`, of any length.
fn decode_from(text: &str, position: usize) -> Option<char>
    requires { IsCharBoundary text.now position }
    ensures after { result ≡ char_at text.now position }
    ensures next { IfSome result (λ c. IsCharBoundary text.now (position + len_utf8 c)) }
{
    let (_, back) = text.split_at(position);
    back.chars().next()
}
