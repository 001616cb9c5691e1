//! `Replacer`: what replaces the matches in a text, and the replacers that need no template.

ghost use Rattle.std.specs.Prelude.{◌≡◌, ◌++◌, ℕ, List, Option, Some, None, Ok, Err, IfSome, IfErr, OnOk, option_map, string_bytes};
ghost use Rattle.std.proofs.Common.{rules};
ghost use Rattle.std.specs.declared.result.Result.{Result};
ghost use Rattle.std.specs.Cow.{cow_str_bytes};
ghost use Rattle.fancy_regex_meta.specs.declared.error.Error.{Error};
ghost use Rattle.fancy_regex_meta.specs.declared.error.Error.TheVariants.{Memory};
ghost use Rattle.fancy_regex_search.specs.Replacements.{CapturesView, IsAnswerOfFunction, AnswersText};

use crate::captures::Captures;
use fancy_regex_meta::Result;
use std::alloc::Global;
use std::borrow::CowStr;

/// What replaces the matches in a text. A replacement asks `no_expansion` once. If that returns a text, it replaces each match
/// by it; otherwise it calls `replace_append` once for each match that is replaced, in order, up to the first error.
///
/// ```
/// use fancy_regex::Replacer;
///
/// let vowel = Regex::new(alloc, "(a)n")?;
/// let mut template = "<$1>";
/// assert!(rt; template.no_expansion().is_none());
/// if let Some(groups) = vowel.captures(alloc, "banana")? {
///     let mut text = String::new(alloc);
///     template.replace_append(alloc, &groups, &mut text)?;
///     assert!(rt; text.as_str() == "<a>");
/// }
/// ```
pub trait Replacer: Drop {
    /// The replacer may be called in this state.
    ghost is_ready: { Self → Type 0 } = { λ _. Unit {0} };

    /// A call in this state, with these capture groups, may answer this text or error and leave this state.
    ghost answers: { Self → CapturesView → Result (List ℕ) Error → Self → Type 0 };

    /// The text that each call would append, if the replacer says so.
    ghost fixed_text: { Self → Option (List ℕ) } = { λ _. None };

    /// Appends what replaces the match to a buffer.
    ///
    /// # Errors
    ///
    /// That of the replacer, or `Memory` if memory runs out. The buffer is as it was.
    fn replace_append(
        &mut self,
        alloc: Global,
        captures: &Captures<'_, &str>,
        dst: &mut String,
    ) -> Result<()>
        requires { is_ready self.old }
        ensures appends { OnOk result ((w : List ℕ) × answers self.old
            (record { regex = captures.now.regex.now.meta; text = captures.now.haystack.now; slots = captures.now.slots.items })
            (Ok w) self.new
            × (string_bytes dst.new ≡ string_bytes dst.old ++ w)) }
        ensures fails { IfErr result (λ e. answers self.old (record
            { regex = captures.now.regex.now.meta; text = captures.now.haystack.now; slots = captures.now.slots.items })
            (Err e) self.new
            × (string_bytes dst.new ≡ string_bytes dst.old)) }
        ensures ready { is_ready self.new };

    /// The text that each call of `replace_append` would append, if it does not depend on the match. Default: `None`.
    fn no_expansion(&self) -> Option<CowStr<'_>>
        ensures { IfSome result (λ t. fixed_text self.now ≡ Some (cow_str_bytes t)) }
    {
        None
    }

    /// A replacer that lends this one, which can be used again afterwards.
    ///
    /// ```
    /// use fancy_regex::Replacer;
    ///
    /// let vowel = Regex::new(alloc, "a")?;
    /// let mut dot = NoExpand(".");
    /// assert!(rt; vowel.replace(alloc, "banana", dot.by_ref())?.as_str() == "b.nana");
    /// assert!(rt; vowel.replace(alloc, "cat", dot)?.as_str() == "c.t");
    /// ```
    fn by_ref(&mut self) -> ReplacerRef<'_, Self>
    where
        Self: Sized,
        ensures lent { result.0.now ≡ self.old }
        ensures same { result.0.ghost_name ≡ self.entry.ghost_name }
    {
        ReplacerRef(self)
    }

    /// Where there is such a text, each call would append it.
    ghost fixed_text_is_answered: { (s : Self) (t : List ℕ) (m : CapturesView) (w : List ℕ) (next : Self) → fixed_text s ≡ Some t
        → answers s m (Ok w) next → w ≡ t };
}

/// A replacer that is lent by `Replacer::by_ref`: it answers what the lent one does.
///
/// ```
/// use fancy_regex::Replacer;
///
/// let vowel = Regex::new(alloc, "a")?;
/// let mut dot = NoExpand(".");
/// let lent: ReplacerRef<'_, NoExpand<'_>> = dot.by_ref();
/// assert!(rt; vowel.replace_all(alloc, "banana", lent)?.as_str() == "b.n.n.");
/// ```
#[derive(Drop)]
pub struct ReplacerRef<'a, R: Replacer>(&'a mut R);

impl<'a, R: Replacer> Replacer for ReplacerRef<'a, R> {
    ghost is_ready = { λ s. R.is_ready s.0.now };

    ghost answers = { λ s m r t. R.answers s.0.now m r t.0.now × (t.0.ghost_name ≡ s.0.ghost_name) };

    ghost fixed_text = { λ s. R.fixed_text s.0.now };

    ghost fixed_text_is_answered = { λ s t m w next e h. R.fixed_text_is_answered s.0.now t m w next.0.now e h.0 };

    /// Appends what the lent replacer does.
    ///
    /// # Errors
    ///
    /// Those of the lent replacer. The buffer is as it was.
    fn replace_append(
        &mut self,
        alloc: Global,
        captures: &Captures<'_, &str>,
        dst: &mut String,
    ) -> Result<()> {
        self.0.replace_append(alloc, captures, dst)
    }

    /// The text that the lent replacer has for all matches, if it says so.
    fn no_expansion(&self) -> Option<CowStr<'_>> {
        self.0.no_expansion()
    }
}

/// A text that replaces each match as it stands: no `$` in it begins a reference.
///
/// ```
/// let price = Regex::new(alloc, r"\d+")?;
/// assert!(rt; price.replace(alloc, "for 5", NoExpand("$0"))?.as_str() == "for $0");
/// assert!(rt; price.replace(alloc, "for 5", "$0!")?.as_str() == "for 5!");
/// ```
#[derive(Clone, Copy, Debug)]
pub struct NoExpand<'t>(pub &'t str);

impl<'t> Replacer for NoExpand<'t> {
    ghost answers = { AnswersText (λ s. s.0.now) };

    ghost fixed_text = { λ s. Some s.0.now };

    ghost fixed_text_is_answered = { Prim.search rules };

    /// Appends the text as it stands.
    ///
    /// # Errors
    ///
    /// `Memory` if memory runs out. The buffer is as it was.
    fn replace_append(
        &mut self,
        _alloc: Global,
        _captures: &Captures<'_, &str>,
        dst: &mut String,
    ) -> Result<()> {
        dst.push_str(self.0)?;
        Ok(())
    }

    /// The text.
    fn no_expansion(&self) -> Option<CowStr<'_>>
        ensures agrees { IfSome result (λ t. Some self.now.0.now ≡ Some (cow_str_bytes t)) }
        ensures value { option_map cow_str_bytes result ≡ Some self.now.0.now }
    {
        Some(CowStr::Borrowed(self.0))
    }
}

/// A function of the match's groups as a replacer: it is called once for each match that is replaced, in order. An error that it
/// returns is that of the replacement.
///
/// ```
/// let word = Regex::new(alloc, r"\w+")?;
/// let length = FnReplacer::new(|groups: &Captures<'_, &str>| -> fancy_regex::Result<String> {
///     let length = groups.get(0).map_or(0, |word| word.as_str().len());
///     Ok(format!(in alloc; "{length}")?)
/// });
/// assert!(rt; word.replace_all(alloc, "so fancy", length)?.as_str() == "2 5");
/// ```
#[derive(Drop)]
pub struct FnReplacer<F> {
    /// The function.
    function: F,
}

impl<F: FnMut(&Captures<'_, &str>) -> Result<String>> FnReplacer<F> {
    /// The replacer over this function, which may always be called.
    pub fn new(function: F) -> FnReplacer<F>
        requires { F.IsAlwaysCallable function }
        ensures { result.function ≡ function }
    {
        FnReplacer { function }
    }
}

impl<F: FnMut(&Captures<'_, &str>) -> Result<String> + Drop> Replacer for FnReplacer<F> {
    ghost is_ready = { λ s. F.IsAlwaysCallable s.function };

    ghost answers = { λ s m r t. (c : _) × (q : _) × (c.now.regex.now.meta ≡ m.regex) × (c.now.haystack.now ≡ m.text)
        × (c.now.slots.items ≡ m.slots)
        × F.step s.function c q t.function × IsAnswerOfFunction q r };

    ghost fixed_text_is_answered = { Prim.search rules };

    /// Appends what the function returns for the match.
    ///
    /// # Errors
    ///
    /// That of the function, or `Memory` if memory runs out. The buffer is as it was.
    fn replace_append(
        &mut self,
        _alloc: Global,
        captures: &Captures<'_, &str>,
        dst: &mut String,
    ) -> Result<()> {
        match (self.function)(captures) {
            Ok(answer) => append(dst, answer),
            Err(error) => Err(error),
        }
    }
}

/// Appends a text to a buffer. `Memory` if there is no room, and the buffer is as it was.
fn append(dst: &mut String, text: String) -> Result<()>
    ensures appends { OnOk result (string_bytes dst.new ≡ string_bytes dst.old ++ string_bytes text) }
    ensures fails { IfErr result (λ e. (e ≡ Memory) × (string_bytes dst.new ≡ string_bytes dst.old)) }
{
    dst.push_str(text.as_str())?;
    Ok(())
}
