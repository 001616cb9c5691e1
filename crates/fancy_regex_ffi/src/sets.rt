//! Sets of patterns: how they are built and searched.

ghost use Rattle.std.specs.Prelude.{◌≡◌, true, IsUtf8, IfOk, IfErr, map, length};
ghost use Rattle.fancy_regex.specs.SetMembers.{AreBuiltOf};
ghost use Rattle.fancy_regex_ffi_lists.specs.Choices.{chosen};
ghost use Rattle.fancy_regex_ffi_lists.specs.Mixed.{AreBuiltEach};
ghost use Rattle.fancy_regex_ffi.specs.Lists.{AreMemberGroups, AreMembers, listed};
ghost use Rattle.fancy_regex_ffi.specs.Sets.{cut_at, AreTexts, IsPieceFault, IsPieceOrFault, IsSetRefused, IsSetStored, IsMixedRefused};

use crate::contents::{Contents, Subject};
use crate::fault::CallError;
use crate::query::{Query, check_place, text_of};
use crate::status::Status;
use fancy_regex::{Error, RegexSet};
use fancy_regex_ffi_lists::{Member, Options, mixed_set, set_groups, set_members};
use std::alloc::Global;

/// What holds a set, or the fault of building it; and how that ends.
pub fn stored_set(alloc: Global, answer: Result<RegexSet, CallError>) -> (Contents, Status)
    ensures { IsSetStored answer result.0 result.1 }
{
    match answer {
        Ok(set) => (Contents::of_set(alloc, set), Status::Done),
        Err(fault) => {
            let status = Status::of_fault(&fault);
            (Contents::of_fault(alloc, fault), status)
        }
    }
}

/// Builds a set of the patterns that stand one after another.
pub fn build_set(
    alloc: Global,
    patterns: &[u8],
    ends: &[usize],
    options: &Options,
) -> Result<RegexSet, CallError>
    ensures texts { IfOk result (λ _. AreTexts patterns.now 0 ends.now) }
    ensures members { IfOk result (λ set. AreBuiltOf (chosen options.now) (cut_at patterns.now 0 ends.now) set.regexes.items) }
    ensures refused { IfErr result (IsSetRefused (chosen options.now) patterns.now ends.now) }
{
    let texts = patterns_of(alloc, patterns, ends)?;
    Ok(RegexSet::new_with_options(alloc, &texts, &options.builder())?)
}

/// The texts of patterns that stand one after another, by where each of them ends.
#[tactic(auto, using(crate::proofs::SetLemmas::texts_next, crate::proofs::SetLemmas::texts_none))]
fn patterns_of<'p>(
    alloc: Global,
    bytes: &'p [u8],
    ends: &[usize],
) -> Result<Vec<&'p str>, CallError>
    ensures texts { IfOk result (λ _. AreTexts bytes.entry.now 0 ends.now) }
    ensures same { IfOk result (λ texts. map (λ text. text.now) texts.items ≡ cut_at bytes.entry.now 0 ends.now) }
    ensures refused { IfErr result (λ fault. IsPieceFault bytes.entry.now ends.now fault) }
{
    let mut texts = Vec::new(alloc);
    let mut start = 0;
    for end in ends {
        let text = pattern_at(bytes, start, *end)?;
        match texts.push(text) {
            Ok(()) => start = *end,
            Err(_) => return Err(CallError::Regex(Error::Memory)),
        }
    }
    Ok(texts)
}

/// The text between two offsets.
fn pattern_at(bytes: &[u8], start: usize, end: usize) -> Result<&str, CallError>
    ensures { IsPieceOrFault bytes.now start end result }
{
    if start > end || end > bytes.len() {
        return Err(CallError::WrongEnds);
    }
    text_of(&bytes[start..end], false)
}

/// The members that match at the earliest place at which one of them does.
pub fn members_of(
    alloc: Global,
    subject: &Subject,
    text: &[u8],
    query: &Query,
) -> Result<Vec<Member>, CallError>
    requires { query.now.is_utf8 ≡ true → IsUtf8 text.now }
    ensures { AreMembers text.now query.now subject.now (listed (λ members. members.items) result) }
{
    match subject {
        Subject::Set(set) => {
            let text = text_of(text, query.is_utf8)?;
            check_place(text, query.position)?;
            Ok(set_members(alloc, set, text, query.position, query.continues)?)
        }
        Subject::Regex(_) | Subject::Nothing => Err(CallError::NoSet),
    }
}

/// The groups of the members that match at the earliest place at which one of them does.
pub fn member_groups_of(
    alloc: Global,
    subject: &Subject,
    text: &[u8],
    query: &Query,
) -> Result<Vec<Member>, CallError>
    requires { query.now.is_utf8 ≡ true → IsUtf8 text.now }
    ensures { AreMemberGroups text.now query.now subject.now (listed (λ groups. groups.items) result) }
{
    match subject {
        Subject::Set(set) => {
            let text = text_of(text, query.is_utf8)?;
            check_place(text, query.position)?;
            Ok(set_groups(alloc, set, text, query.position, query.continues)?)
        }
        Subject::Regex(_) | Subject::Nothing => Err(CallError::NoSet),
    }
}

/// Builds a set of the patterns that stand one after another, each with its own options.
#[tactic(auto, using(crate::proofs::SetLemmas::as_many))]
pub fn build_mixed(
    alloc: Global,
    patterns: &[u8],
    ends: &[usize],
    options: &[Options],
) -> Result<RegexSet, CallError>
    requires { length options.now ≡ length ends.now }
    ensures texts { IfOk result (λ _. AreTexts patterns.now 0 ends.now) }
    ensures members { IfOk result (λ set. AreBuiltEach options.now (cut_at patterns.now 0 ends.now) set.regexes.items) }
    ensures refused { IfErr result (IsMixedRefused options.now patterns.now ends.now) }
{
    let texts = patterns_of(alloc, patterns, ends)?;
    Ok(mixed_set(alloc, &texts, options)?)
}
