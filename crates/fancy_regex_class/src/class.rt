//! Matchers for character classes. Membership is decided once by `regex`'s parser, and is then looked up: in a table of the ASCII
//! characters, in a bitmap of those below U+10000 where the class has many ranges, or by a search in the sorted ranges.

ghost use Rattle.std.specs.Prelude.{◌≡◌, ℕ, ◌<◌, ◌≤◌, true, false, [], ◌∷◌, ◌++◌, chars, string_bytes, IfOk, IfErr, IfSome, IsTrue, slice_index_or};
ghost use Rattle.std.specs.Char.{IsScalar};
ghost use Rattle.std.proofs.Props.{props};
ghost use Rattle.regex_class.specs.Ranges.{in_ranges};
ghost use Rattle.fancy_regex_class.specs.Classes.{class_text, is_class};
ghost use Rattle.fancy_regex_class.specs.Bitmaps.{has_member};
ghost use Rattle.fancy_regex_class.specs.RangeBits.{AreWideBits};

use crate::bitmap::Bitmap;
use crate::matcher::{Refusal, members};
use crate::range_bits::{END, words_of};
use regex_class::Class;
use std::alloc::{AllocError, Global};
use thiserror::Error;

/// Why no matcher was built for a class.
#[derive(Debug, PartialEq, Eq, Drop, Error)]
pub enum ClassError {
    /// `regex` rejects the class; the payload is the class's own text, without the groups put around it.
    #[error("inner error: {0}")]
    InnerError(String),
    /// Memory ran out.
    #[error("Out of memory")]
    Memory,
}

impl From<AllocError> for ClassError {
    ghost use Rattle.std.specs.Prelude.{◌≡◌};
    ghost use Rattle.fancy_regex_class.specs.declared.class.ClassError.TheVariants.{Memory};

    ghost from_gives = { λ _ error. error ≡ Memory };

    fn from(_: AllocError) -> ClassError {
        ClassError::Memory
    }
}

/// The most ranges of a class without a bitmap. A search in so few takes as long as a look into a bitmap.
const FEW_RANGES: usize = 8;

/// The code of the last character.
const LAST_CHAR: u32 = 0x10_FFFF;

/// The members of a character class: sorted ranges of code points, the answers for the 128 ASCII characters, and the members below
/// U+10000 as bits if there are more than a few ranges.
#[derive(Debug)]
pub struct CharClassMatcher {
    class: Class,
    ascii: [bool; 128],
    bitmap: Option<Bitmap>,
    ghost answers: { (c : ℕ) → c < 128 → slice_index_or ascii c false ≡ in_ranges class.ranges.items c },
    ghost wide: { IfSome bitmap (λ b. (c : ℕ) → c < 65536 → has_member b c ≡ in_ranges class.ranges.items c) } by { Prim.hlevel props },
}

// Written, not derived: so a crate in which such a value may be dropped uses this proof, and has none to make of each type inside.
impl Drop for CharClassMatcher {
    fn drop(self) {
        let CharClassMatcher {
            class: _class,
            ascii: _ascii,
            bitmap: _bitmap,
        } = self;
    }
}

impl CharClassMatcher {
    ghost use Rattle.fancy_regex_class.specs.Matchers.{has, IsMatcherOf, IsClassError};

    /// Builds the matcher of a class. `text` is parsed as a pattern by `regex`; with `casei` case is ignored, and
    /// without `unicode` classes and case are those of ASCII. The error is `InnerError` with `text` if the grammar of
    /// `regex` does not read the text, or if the text is neither one class nor one character and `regex` does not build
    /// it; and `Memory` if memory runs out.
    pub fn new(
        alloc: Global,
        text: &str,
        casei: bool,
        unicode: bool,
    ) -> Result<CharClassMatcher, ClassError>
        ensures members { IfOk result (λ m. IsMatcherOf m unicode (chars text.now) casei) }
        ensures read { IfOk result (λ _. IsTrue (is_class unicode (chars text.now) casei)) }
        ensures refused { IfErr result (IsClassError unicode text.now casei) }
    {
        let written = class_text(alloc, text, casei, unicode)?;
        match members(alloc, &written) {
            Ok(class) => {
                let matcher = CharClassMatcher::of(alloc, class)?;
                Ok(matcher)
            }
            Err(Refusal::Memory) => Err(ClassError::Memory),
            Err(Refusal::Refused) => Err(ClassError::InnerError(String::from_str(alloc, text)?)),
        }
    }

    /// Adds the answers for ASCII and the bitmap to the ranges. The error is want of memory.
    fn of(alloc: Global, class: Class) -> Result<CharClassMatcher, AllocError>
        ensures { IfOk result (λ matcher. (c : ℕ) → has matcher c ≡ in_ranges class.ranges.items c) }
    {
        let mut ascii = [false; 128];
        for code in 0..128 {
            ascii[code] = class.contains(code as u32);
        }
        let bitmap = if class.ranges.len() > FEW_RANGES {
            Some(Bitmap::new(alloc, &class.ranges)?)
        } else {
            None
        };
        Ok(CharClassMatcher {
            class,
            ascii,
            bitmap,
        })
    }

    /// Whether the class contains the character.
    #[inline(always)]
    pub fn contains(&self, c: char) -> bool
        ensures { result ≡ has self.now c }
    {
        let code = c as u32;
        if code < 128 {
            return self.ascii[code as usize];
        }
        if code < END {
            if let Some(bitmap) = &self.bitmap {
                return bitmap.has(code);
            }
        }
        self.class.contains(code)
    }

    /// Whether all members are ASCII characters.
    pub fn is_ascii(&self) -> bool
        ensures { result ≡ true → (c : ℕ) → 128 ≤ c → has self.now c ≡ false }
    {
        self.class.is_within(127)
    }

    /// Whether it is seen in the last range that every character that is not ASCII is a member.
    #[inline(always)]
    pub fn has_all_wide(&self) -> bool
        ensures { result ≡ true → (c : ℕ) → 128 ≤ c → IsScalar c → has self.now c ≡ true }
    {
        match self.class.ranges.last() {
            Some(last) => last.0 <= 128 && last.1 >= LAST_CHAR,
            None => false,
        }
    }

    /// For each ASCII character, by its code, whether the class contains it.
    pub fn ascii(&self) -> &[bool; 128]
        ensures { (c : ℕ) → c < 128 → slice_index_or result.now c false ≡ has self.now c }
    {
        &self.ascii
    }

    /// The members that are not ASCII and lie below U+10000, as words of bits. The error is want of memory.
    pub fn wide_bits(&self, alloc: Global) -> Result<Vec<u64>, AllocError>
        ensures { IfOk result (λ words. AreWideBits words.items (has self.now)) }
    {
        words_of(alloc, &self.class.ranges)
    }
}

/// The pattern that `regex` parses for the class: its text, in a group that sets the flags.
fn class_text(alloc: Global, text: &str, casei: bool, unicode: bool) -> Result<String, AllocError>
    ensures { IfOk result (λ s. chars (string_bytes s) ≡ class_text unicode casei (chars text.now)) }
{
    let with_case = if casei {
        wrapped(alloc, "(?i:", text)?
    } else {
        String::from_str(alloc, text)?
    };
    if unicode {
        Ok(with_case)
    } else {
        wrapped(alloc, "(?-u:", &with_case)
    }
}

/// The text in a group with this opening, which ends in `:`, and a closing parenthesis.
fn wrapped(alloc: Global, opening: &str, text: &str) -> Result<String, AllocError>
    ensures { IfOk result (λ s. chars (string_bytes s) ≡ chars opening.now ++ chars text.now ++ 41 ∷ []) }
{
    let mut written = String::from_str(alloc, opening)?;
    written.push_str(text)?;
    written.push(')')?;
    Ok(written)
}
