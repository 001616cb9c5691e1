//! Replacements by functions, by a replacer that has one text, and the text without a match.

ghost use Rattle.std.specs.Prelude.{Some, codes};
ghost use Rattle.std.proofs.Common.{rules};
ghost use Rattle.fancy_regex.specs.Replacements.{AnswersText};

use fancy_regex::{Captures, Error, FnReplacer, NoExpand, Regex, Replacer, Result, RuntimeError};
use std::alloc::Global;
use std::borrow::CowStr;
use std::cell::Cell;

/// Whether a text was made, and is this one.
pub fn is_made(made: Result<CowStr<'_>>, wanted: &str) -> bool {
    match made {
        Ok(text) => text.as_str() == wanted,
        Err(_) => false,
    }
}

/// Whether a text without a match of `x` is borrowed.
pub fn borrows(alloc: Global, regex: &Regex) -> bool {
    matches!(
        regex.replace_all(alloc, "banana", NoExpand("o")),
        Ok(CowStr::Borrowed(_))
    )
}

/// Whether a function of the groups, `([^,\s]+),\s+(\S+)`, says what replaces a match.
pub fn swaps(alloc: Global, regex: &Regex) -> bool {
    let swap = FnReplacer::new(|captures: &Captures<'_, &str>| -> Result<String> {
        match (captures.get(2), captures.get(1)) {
            (Some(first), Some(last)) => {
                Ok(format!(in alloc; "{} {}", first.as_str(), last.as_str())?)
            }
            _ => Ok(String::new(alloc)),
        }
    });
    let made = regex.replace(alloc, "Springsteen, Bruce", swap);
    is_made(made, "Bruce Springsteen")
}

/// Whether a function that is lent twice to replace `a` is called once for each match.
pub fn counts(alloc: Global, regex: &Regex) -> bool {
    let mut calls = 0u8;
    let mut count = FnReplacer::new(|_: &Captures<'_, &str>| -> Result<String> {
        calls = calls.wrapping_add(1);
        Ok(format!(in alloc; "{calls}")?)
    });
    let first = regex.replace_all(alloc, "banana", count.by_ref());
    let is_counted = is_made(first, "b1n2n3");
    let second = regex.replace_all(alloc, "aa", count.by_ref());
    is_made(second, "45") && is_counted
}

/// Whether a replacement of `a` ends with the first error of its function.
pub fn stops(alloc: Global, regex: &Regex) -> bool {
    let mut calls = 0u8;
    let fails = FnReplacer::new(|_: &Captures<'_, &str>| -> Result<String> {
        calls = calls.wrapping_add(1);
        if calls == 2 {
            return Err(Error::RuntimeError(RuntimeError::StackOverflow));
        }
        Ok(String::new(alloc))
    });
    let made = regex.replace_all(alloc, "aaa", fails);
    let is_passed_on = matches!(&made, Err(Error::RuntimeError(RuntimeError::StackOverflow)));
    is_passed_on && calls == 2
}

/// One of the calls that replace matches.
#[derive(Clone, Copy)]
enum Replacement {
    Replace,
    Replacen(usize),
    ReplaceAll,
    TryReplacen(usize),
    ReplacenBy(usize),
}

/// A replacement of matches by `o`: the call, the text, for how many matches it calls its function, and what it makes of the text.
#[derive(Clone, Copy)]
pub struct ReplacementRow(Replacement, &'static str, u8, &'static str);

/// Replacements of `a`.
pub static OF_A: [ReplacementRow; 9] = [
    ReplacementRow(Replacement::Replace, "banana", 1, "bonana"),
    ReplacementRow(Replacement::Replacen(1), "banana", 1, "bonana"),
    ReplacementRow(Replacement::Replacen(2), "banana", 2, "bonona"),
    ReplacementRow(Replacement::ReplaceAll, "banana", 3, "bonono"),
    ReplacementRow(Replacement::TryReplacen(1), "banana", 1, "bonana"),
    ReplacementRow(Replacement::TryReplacen(2), "banana", 2, "bonona"),
    ReplacementRow(Replacement::ReplacenBy(2), "banana", 2, "bonona"),
    ReplacementRow(Replacement::ReplaceAll, "been", 0, "been"),
    ReplacementRow(Replacement::TryReplacen(2), "", 0, ""),
];

/// Replacements of `a*`, which also matches no character, but not where the match before ended.
pub static OF_ANY_A: [ReplacementRow; 7] = [
    ReplacementRow(Replacement::Replace, "baac", 1, "obaac"),
    ReplacementRow(Replacement::Replacen(2), "baac", 2, "oboc"),
    ReplacementRow(Replacement::ReplaceAll, "baac", 3, "oboco"),
    ReplacementRow(Replacement::TryReplacen(3), "baac", 3, "oboco"),
    ReplacementRow(Replacement::TryReplacen(1), "aa", 1, "o"),
    ReplacementRow(Replacement::ReplacenBy(2), "baac", 2, "oboc"),
    ReplacementRow(Replacement::ReplaceAll, "", 1, "o"),
];

/// What a replacement makes of a text.
fn replaced<'t, R: Replacer>(
    alloc: Global,
    regex: &Regex,
    text: &'t str,
    replacement: Replacement,
    mut replacer: R,
) -> Result<CowStr<'t>>
    requires { R.is_ready replacer }
{
    match replacement {
        Replacement::Replace => regex.replace(alloc, text, replacer),
        Replacement::Replacen(limit) => regex.replacen(alloc, text, limit, replacer),
        Replacement::ReplaceAll => regex.replace_all(alloc, text, replacer),
        Replacement::TryReplacen(limit) => regex.try_replacen(alloc, text, limit, replacer),
        Replacement::ReplacenBy(limit) => regex.replacen_by(alloc, text, limit, &mut replacer),
    }
}

/// Whether a replacement calls its function for each match that it replaces, and makes the text.
fn makes_calls(alloc: Global, regex: &Regex, row: ReplacementRow) -> bool {
    let ReplacementRow(replacement, text, wanted, whole) = row;
    let mut calls = 0u8;
    let count = FnReplacer::new(|_: &Captures<'_, &str>| -> Result<String> {
        calls = calls.wrapping_add(1);
        Ok(String::from_str(alloc, "o")?)
    });
    let made = replaced(alloc, regex, text, replacement, count);
    is_made(made, whole) && calls == wanted
}

/// Whether each replacement calls its function for the matches that it replaces alone.
pub fn calls_for_the_replaced(alloc: Global, regex: &Regex, rows: &[ReplacementRow]) -> bool {
    for row in rows {
        if !makes_calls(alloc, regex, *row) {
            return false;
        }
    }
    true
}

/// A replacer by `o` that tells this text, or has a call made for each match. It notes how often it is asked for its text, how often it
/// is called, and whether it is called before it is asked.
#[derive(Drop)]
struct Noting<'n> {
    tells: bool,
    asked: &'n Cell<u8>,
    called: &'n Cell<u8>,
    is_called_first: &'n Cell<bool>,
}

impl Replacer for Noting<'_> {
    ghost answers = { AnswersText (λ _. codes "o") };

    ghost fixed_text = { λ _. Some (codes "o") };

    ghost fixed_text_is_answered = { Prim.search rules };

    fn replace_append(
        &mut self,
        _alloc: Global,
        _captures: &Captures<'_, &str>,
        dst: &mut String,
    ) -> Result<()> {
        self.called.set(self.called.get().wrapping_add(1));
        if self.asked.get() == 0 {
            self.is_called_first.set(true);
        }
        dst.push_str("o")?;
        Ok(())
    }

    fn no_expansion(&self) -> Option<CowStr<'_>> {
        self.asked.set(self.asked.get().wrapping_add(1));
        if self.tells {
            Some(CowStr::Borrowed("o"))
        } else {
            None
        }
    }
}

/// How a replacer is handed over.
#[derive(Clone, Copy)]
struct Handing {
    /// Whether it tells its text.
    tells: bool,
    /// Whether it is lent by `by_ref`.
    is_lent: bool,
}

static HANDINGS: [Handing; 4] = [
    Handing {
        tells: true,
        is_lent: false,
    },
    Handing {
        tells: true,
        is_lent: true,
    },
    Handing {
        tells: false,
        is_lent: false,
    },
    Handing {
        tells: false,
        is_lent: true,
    },
];

/// Whether a replacement asks its replacer for a text once, before it calls it, and calls it for each match that it replaces, or for
/// none where it tells its text.
fn asks_first(alloc: Global, regex: &Regex, row: ReplacementRow, handing: Handing) -> bool {
    let ReplacementRow(replacement, text, matches, whole) = row;
    let asked = Cell::new(0u8);
    let called = Cell::new(0u8);
    let is_called_first = Cell::new(false);
    let mut noting = Noting {
        tells: handing.tells,
        asked: &asked,
        called: &called,
        is_called_first: &is_called_first,
    };
    let made = if handing.is_lent {
        replaced(alloc, regex, text, replacement, noting.by_ref())
    } else {
        replaced(alloc, regex, text, replacement, noting)
    };
    let calls = if handing.tells { 0 } else { matches };
    is_made(made, whole) && asked.get() == 1 && called.get() == calls && !is_called_first.get()
}

/// Whether each replacement asks its replacer once, first, and calls it only where it tells no text, also where it is lent.
pub fn asks_once(alloc: Global, regex: &Regex, rows: &[ReplacementRow]) -> bool {
    for row in rows {
        for handing in HANDINGS.iter() {
            if !asks_first(alloc, regex, *row, *handing) {
                return false;
            }
        }
    }
    true
}
