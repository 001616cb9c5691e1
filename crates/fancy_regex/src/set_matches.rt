//! The members of a set that match at one position: `RegexSetMatchesAt`, and `RegexSetMatch` for each.

ghost use Rattle.std.specs.Prelude.{◌≡◌, ◌≤◌, ◌+◌, ◌-◌, ◌<◌, None, Some, Ok, IfOk, IfErr, MatchOption, length, option_map, unwrap_or, slice_get, slice_range, IsUtf8, IsCharBoundary};
ghost use Rattle.std.specs.Iterator.{at_most};
ghost use Rattle.fancy_regex_input.specs.SearchInputs.{FitsText};
ghost use Rattle.fancy_regex.specs.SetAnswers.{YieldsMember, PassesInLimits, IsMatchOfMember};
ghost use Rattle.fancy_regex_search.specs.MatchOffsets.{AreBoundaries};

use crate::set::RegexSet;
use fancy_regex_input::{Input, SearchConfig};
use fancy_regex_search::{AnchoredMatch, Captures, Result, SearchMemory, match_at};
use std::alloc::Global;

/// The match of one member of a set.
///
/// ```
/// let set = RegexSet::new(alloc, &["x", r"(\d)px"])?;
/// if let Some(mut found) = set.find_input(alloc, RegexInput::new("a 5px"))? {
///     if let Some(member) = found.next() {
///         let member = member?;
///         assert!(rt; member.pattern() == 1 && member.start() == 2 && member.end() == 5);
///         assert!(rt; member.as_str() == "5px" && member.get().range() == (2..5));
///         assert!(rt; member.captures().len() == 2);
///     }
/// }
/// ```
#[derive(Drop)]
pub struct RegexSetMatch<'s, S: Input> {
    /// The number of the member.
    pattern: usize,
    /// The searched haystack.
    haystack: S,
    /// Its match.
    matched: AnchoredMatch<'s, S>,
    pub ghost cuts: { AreBoundaries (S.text haystack) matched.start matched.end },
}

impl<'s, S: Input> RegexSetMatch<'s, S> {
    /// The number of the member that matched.
    pub fn pattern(&self) -> usize
        ensures { result ≡ self.now.pattern }
    {
        self.pattern
    }

    /// The capture groups of the match.
    pub fn captures(&self) -> &Captures<'s, S>
        ensures { result.now ≡ self.now.matched.captures }
    {
        &self.matched.captures
    }

    /// The match, with its byte offsets.
    pub fn get(&self) -> S::Match
        ensures span { S.span result ≡ (self.now.matched.start, self.now.matched.end) }
        ensures text { S.match_text result ≡ S.text self.now.haystack }
    {
        self.haystack
            .make_match(self.matched.start, self.matched.end)
    }

    /// The byte offset at which the match starts.
    pub fn start(&self) -> usize
        ensures { result ≡ self.now.matched.start }
    {
        self.matched.start
    }

    /// The byte offset at which the match ends, exclusive.
    pub fn end(&self) -> usize
        ensures { result ≡ self.now.matched.end }
    {
        self.matched.end
    }
}

impl<'s, 't> RegexSetMatch<'s, &'t str> {
    /// The text that matched.
    pub fn as_str(&self) -> &'t str
        ensures { result.now ≡ slice_range self.now.haystack.now self.now.matched.start self.now.matched.end }
    {
        &self.haystack[self.matched.start..self.matched.end]
    }
}

/// The matches of the members of a set that match at one position, in the order of their numbers. The first item was found by the
/// set's search, and each later member is asked when its item is wanted.
///
/// # Errors
///
/// An item is `RuntimeError` if the search of its member exceeds a limit, and `Memory` if memory runs out. The members after it are
/// still asked.
///
/// ```
/// let set = RegexSet::new(alloc, &["b+", "b"])?;
/// if let Some(found) = set.find_input(alloc, RegexInput::new("abb"))? {
///     assert!(rt; found.start() == 1 && found.haystack() == "abb");
///     assert!(rt; found.regex_set().len() == 2);
/// }
/// ```
#[derive(Drop)]
pub struct RegexSetMatchesAt<'s, S: Input> {
    /// The first match, until it is returned.
    pub(crate) first: Option<RegexSetMatch<'s, S>>,
    /// The members at the position.
    pub(crate) members: MembersAt<'s, S>,
    /// The number of the first member that was not asked.
    pub(crate) next: usize,
    /// What the searches allocate, used again by each.
    pub(crate) memory: SearchMemory,
}

impl<'s, S: Input> RegexSetMatchesAt<'s, S> {
    /// The set.
    pub fn regex_set(&self) -> &'s RegexSet
        ensures { result ≡ self.now.members.set }
    {
        self.members.set
    }

    /// The searched haystack.
    pub fn haystack(&self) -> S
        ensures { result ≡ self.now.members.haystack }
    {
        self.members.haystack
    }

    /// The byte offset at which the members match. The span of a match may begin after it.
    pub fn start(&self) -> usize
        ensures { result ≡ self.now.members.position }
    {
        self.members.position
    }
}

impl<'s, S: Input> Iterator for RegexSetMatchesAt<'s, S> {
    type Item = Result<RegexSetMatch<'s, S>>;

    ghost next_gives = { λ s r t. (t.first ≡ None) × (t.members ≡ s.members)
        × MatchOption s.first (YieldsMember s.members.set.now.regexes.items (S.text s.members.haystack) s.members.config
        (λ x found. IsMatchOfMember s.members.set.now.regexes.items found x.pattern x.matched.captures.regex.now
        x.matched.captures.slots.items (x.matched.start, x.matched.end)
        × (x.haystack ≡ s.members.haystack) × (x.matched.captures.haystack ≡ s.members.haystack))
        s.members.position s.next r t.next)
        (λ x. (r ≡ Some (Ok x)) × (t.next ≡ s.next))
        × MatchOption s.first
        (PassesInLimits s.members.set.now.regexes.items (S.text s.members.haystack) s.members.config s.members.position s.next r t.next)
        (λ _. Unit {0}) };

    ghost remaining = { λ s. at_most (unwrap_or (option_map (λ _. 1) s.first) 0 + (length s.members.set.now.regexes.items - s.next)) };

    /// The next member's match or error; `None` if no member is left that matches.
    fn next(&mut self) -> Option<Result<RegexSetMatch<'s, S>>> {
        match self.first.take() {
            Some(found) => Some(Ok(found)),
            None => self.members.advance(&mut self.next, &mut self.memory),
        }
    }
}

/// The members of a set, to be asked for a match that starts at one position.
#[derive(Drop)]
pub(crate) struct MembersAt<'s, S: Input> {
    /// The allocator.
    pub alloc: Global,
    /// The set.
    pub set: &'s RegexSet,
    /// The searched haystack.
    pub haystack: S,
    /// The configuration of the set's search.
    pub config: SearchConfig,
    /// The byte offset at which the matches start.
    pub position: usize,
    pub ghost fits: { FitsText (S.text haystack) config },
    pub ghost boundary: { IsCharBoundary (S.text haystack) position },
    pub ghost inside: { position ≤ config.range_end },
}

impl<'s, S: Input> MembersAt<'s, S> {
    ghost use Rattle.fancy_regex.specs.SetAnswers.{YieldsMember, PassesInLimits, IsInLimits, IsMatchOfMember, IsAnswerOfMember, IsErrorOfMember};

    /// Asks the members from the number `next` on, in the order of their numbers, but for those that cannot match here for the byte
    /// that stands here. The match of the first that has one, or the error of a member before it; `None` if none of them matches.
    /// `next` becomes the number of the first member that was not asked.
    pub fn advance(
        &self,
        next: &mut usize,
        memory: &mut SearchMemory,
    ) -> Option<Result<RegexSetMatch<'s, S>>>
        ensures item { YieldsMember self.now.set.now.regexes.items (S.text self.now.haystack) self.now.config
            (λ x found. IsMatchOfMember self.now.set.now.regexes.items found x.pattern x.matched.captures.regex.now
            x.matched.captures.slots.items (x.matched.start, x.matched.end)
            × (x.haystack ≡ self.now.haystack) × (x.matched.captures.haystack ≡ self.now.haystack))
            self.now.position next.old result next.new }
        ensures limits { PassesInLimits self.now.set.now.regexes.items (S.text self.now.haystack) self.now.config
            self.now.position next.old result next.new }
    {
        let byte = self.byte();
        while let Some(number) = self.set.candidate(byte, *next) {
            *next = number + 1;
            match self.ask(number, memory) {
                Ok(Some(found)) => return Some(Ok(found)),
                Ok(None) => {}
                Err(error) => return Some(Err(error)),
            }
        }
        None
    }

    /// The byte at the position; `None` at the end of the haystack.
    fn byte(&self) -> Option<u8>
        ensures value { result ≡ slice_get (S.text self.now.haystack) self.now.position }
        ensures utf8 { IsUtf8 (S.text self.now.haystack) }
    {
        self.haystack.as_bytes().get(self.position).copied()
    }

    /// The match of the member with this number; `None` if it has no match that starts at the position. `RuntimeError` if its
    /// search exceeds a limit; `Memory` if memory runs out.
    fn ask(&self, number: usize, memory: &mut SearchMemory) -> Result<Option<RegexSetMatch<'s, S>>>
        requires { number < length self.now.set.now.regexes.items }
        ensures answer { IfOk result (λ found. IsAnswerOfMember self.now.set.now.regexes.items (S.text self.now.haystack) self.now.config
            (λ x found. IsMatchOfMember self.now.set.now.regexes.items found x.pattern x.matched.captures.regex.now
            x.matched.captures.slots.items (x.matched.start, x.matched.end)
            × (x.haystack ≡ self.now.haystack) × (x.matched.captures.haystack ≡ self.now.haystack))
            self.now.position number found) }
        ensures limits { IfErr result (λ e.
            IsErrorOfMember self.now.set.now.regexes.items (S.text self.now.haystack) self.now.config self.now.position number e) }
        ensures stays { IfOk result (λ _.
            IsInLimits self.now.set.now.regexes.items (S.text self.now.haystack) self.now.config self.now.position number) }
    {
        let set = self.set;
        match match_at(
            self.alloc,
            &set.regexes[number],
            self.haystack,
            &self.config,
            self.position,
            memory,
        ) {
            Ok(Some(matched)) => Ok(Some(RegexSetMatch {
                pattern: number,
                haystack: self.haystack,
                matched,
            })),
            Ok(None) => Ok(None),
            Err(error) => Err(error),
        }
    }
}
