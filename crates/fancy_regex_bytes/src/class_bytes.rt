//! The first bytes of what a single node reads: a literal, a class or a line terminator.

ghost use Rattle.std.specs.Prelude.{◌≡◌, ◌||◌, ℕ, chars, encode_utf8, IfOk, IfErr, slice_index};
ghost use Rattle.ucd_case.specs.CaseFolding as folding;
ghost use Rattle.fancy_regex_tree.specs.Tree.{delegate};
ghost use Rattle.fancy_regex_class.specs.Classes.{in_class, folded};
ghost use Rattle.fancy_regex_bytes.specs.ByteSets.{has, bytes_in, either_bytes, first_byte as meant_first_byte};
ghost use Rattle.fancy_regex_bytes.specs.StartBytes.{literal_starts, class_starts, newline_starts, paired_starts};
ghost use Rattle.fancy_regex_bytes.specs.StartErrors.{IsStartError};

use crate::byte_set::ByteSet;
use fancy_regex_class::{CharClassMatcher, ClassError};
use std::alloc::Global;
use ucd_case::fold_pairs;

/// The first character of a literal's text, or U+0000 for the empty text. The parser makes a node for each character.
pub(crate) fn first_character(text: &str) -> char
    ensures { result ≡ slice_index (chars text.now) 0 }
{
    text.chars().next().unwrap_or('\0')
}

/// Adds the bytes of a character in UTF-8.
pub(crate) fn add_character(c: char, set: &mut ByteSet)
    ensures { (b : ℕ) → has set.new b ≡ (bytes_in (encode_utf8 c) b || has set.old b) }
{
    let mut buffer = [0; 4];
    set.add(c.encode_utf8(&mut buffer).as_bytes());
}

/// The first byte of a character in UTF-8.
fn first_byte(c: char) -> u8
    ensures { result ≡ meant_first_byte c }
{
    let mut buffer = [0; 4];
    c.encode_utf8(&mut buffer).as_bytes()[0]
}

/// Adds the first bytes of what a literal matches: of its character, and with `casei` of each character that folds like it.
pub(crate) fn add_literal_starts(c: char, casei: bool, unicode: bool, set: &mut ByteSet)
    ensures { has set.new ≡ either_bytes (literal_starts (folded unicode) c casei) (has set.old) }
{
    set.insert(first_byte(c));
    if casei {
        if unicode {
            add_folded_alike(c, set);
        } else {
            set.insert(first_byte(c.to_ascii_lowercase()));
            set.insert(first_byte(c.to_ascii_uppercase()));
        }
    }
}

/// Adds the first bytes of the other characters that have the same simple folding.
fn add_folded_alike(c: char, set: &mut ByteSet)
    ensures { has set.new ≡ either_bytes (paired_starts folding.fold_pairs c) (has set.old) }
{
    for pair in fold_pairs() {
        if pair.0 == c as u32 {
            if let Some(other) = char::from_u32(pair.1) {
                set.insert(first_byte(other));
            }
        }
    }
}

/// Adds the first bytes of what a class matches, as far as they are told apart: its ASCII members, and all bytes from 80 on.
/// If `regex` rejects the class, the error is `InnerError` with its text; if memory runs out, it is `Memory`.
pub(crate) fn add_class_starts(
    alloc: Global,
    class: &str,
    casei: bool,
    unicode: bool,
    set: &mut ByteSet,
) -> Result<(), ClassError>
    ensures members { IfOk result (λ _. has set.new
        ≡ either_bytes (class_starts (in_class unicode (chars class.now) casei)) (has set.old)) }
    ensures refused { IfErr result (IsStartError unicode (delegate (chars class.now) casei)) }
{
    let matcher = CharClassMatcher::new(alloc, class, casei, unicode)?;
    set.add_ascii(matcher.ascii());
    Ok(())
}

/// Adds the first bytes of line terminators: 0A to 0D, and with `unicode` those of U+0085, U+2028 and U+2029.
pub(crate) fn add_newline_starts(unicode: bool, set: &mut ByteSet)
    ensures { has set.new ≡ either_bytes (newline_starts unicode) (has set.old) }
{
    if unicode {
        set.add(&[0x0A, 0x0B, 0x0C, 0x0D, 0xC2, 0xE2]);
    } else {
        set.add(&[0x0A, 0x0B, 0x0C, 0x0D]);
    }
}
