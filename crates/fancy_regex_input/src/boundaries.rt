//! Character boundaries of UTF-8 text: the next and the previous one, in bytes.

ghost use Rattle.std.specs.Prelude.{◌≡◌, ◌<◌, ◌≤◌, ◌+◌, ◌-◌, length, Some, MatchOption, IsCharBoundary};
ghost use Rattle.std.specs.Char.{len_utf8};
ghost use Rattle.regex_hir.specs.Text.{char_at, char_before};
ghost use Rattle.fancy_regex_meaning.specs.Positions.{position_after, position_before};

/// The byte offset of the character boundary after this one. At the end of the text it is one byte past the end.
pub fn next_boundary(text: &str, index: usize) -> usize
    requires { IsCharBoundary text.now index }
    ensures value { result ≡ position_after text.now index }
    ensures boundary { result ≤ length text.now → IsCharBoundary text.now result }
    ensures after { index < result }
{
    match next_char(text, index) {
        Some(c) => index + c.len_utf8(),
        None => index + 1,
    }
}

/// The byte offset of the character boundary before this one, which must not be the start of the text.
pub fn previous_boundary(text: &str, index: usize) -> usize
    requires boundary { IsCharBoundary text.now index }
    requires above { 0 < index }
    ensures value { Some result ≡ position_before text.now 1 index }
    ensures boundary { IsCharBoundary text.now result }
    ensures before { result < index }
{
    match previous_char(text, index) {
        Some(c) => index - c.len_utf8(),
        None => 0,
    }
}

/// The character after a boundary; `None` at the end of the text.
fn next_char(text: &str, index: usize) -> Option<char>
    requires { IsCharBoundary text.now index }
    ensures value { result ≡ char_at text.now index }
    ensures place { MatchOption result (length text.now ≡ index) (λ c. IsCharBoundary text.now (index + len_utf8 c)) }
{
    let (_, back) = text.split_at(index);
    back.chars().next()
}

/// The character before a boundary; `None` at the start of the text.
fn previous_char(text: &str, index: usize) -> Option<char>
    requires { IsCharBoundary text.now index }
    ensures value { result ≡ char_before text.now index }
    ensures place { MatchOption result (index ≡ 0) (λ c. (len_utf8 c ≤ index) × IsCharBoundary text.now (index - len_utf8 c)) }
{
    let (front, _) = text.split_at(index);
    front.chars().next_back()
}
