//! The search of a set.

ghost use Rattle.std.specs.Prelude.{◌≡◌, ◌∷◌, [], IfOk, IfErr, IfSome, MatchOption, None, Some, option_map};
ghost use Rattle.fancy_regex_search.specs.MetaMatches.{meta_match};
ghost use Rattle.fancy_regex_search.specs.declared.regex.Regex.{Regex};
ghost use Rattle.fancy_regex.specs.SetAnswers.{answer_of_set, last_tried, IsSetError, SearchesInLimits, IsAnswerOfSet, IsAnswerOfOne, IsMatchOfMember};

use crate::set::RegexSet;
use crate::set_matches::{MembersAt, RegexSetMatchesAt};
use fancy_regex_input::{Input, RegexInput, SearchConfig};
use fancy_regex_meaning::laws_of_matches;
use fancy_regex_search::{Result, SearchMemory};
use std::alloc::Global;

/// The last position that a search tries: the end of its range, or, if it is anchored, the position at which it starts.
fn last_position(config: &SearchConfig) -> usize
    ensures { result ≡ last_tried config.now }
{
    let input = config.run_input();
    if input.anchored {
        input.first.min(input.range.end)
    } else {
        input.range.end
    }
}

impl RegexSet {
    /// The members that match at the earliest position at which one of them matches: each match starts there, as if that member
    /// were searched from there alone, but `\G` matches where the set's search starts. `None` if no member matches anywhere.
    ///
    /// At each position the members are asked in the order of their numbers, up to the first that matches. The members after that
    /// are asked by the iterator.
    ///
    /// # Errors
    ///
    /// The first one met: `RuntimeError` if a member's search exceeds a limit, which each of them has for itself; `Memory` if memory
    /// runs out. The set can be used again.
    ///
    /// ```
    /// let set = RegexSet::new(alloc, &["b", "c", "bc"])?;
    /// if let Some(mut found) = set.find_input(alloc, RegexInput::new("abc"))? {
    ///     while let Some(member) = found.next() {
    ///         assert!(rt; member?.start() == 1);
    ///     }
    /// }
    /// ```
    pub fn find_input<S: Input>(
        &self,
        alloc: Global,
        input: RegexInput<S>,
    ) -> Result<Option<RegexSetMatchesAt<'_, S>>>
        ensures answer { IfOk result (λ found.
            MatchOption found (answer_of_set self.now.regexes.items (S.text input.haystack) input.config ≡ None)
            (λ s. IsAnswerOfSet self.now.regexes.items (S.text input.haystack) input.config
            (λ x found. IsMatchOfMember self.now.regexes.items found x.pattern x.matched.captures.regex.now
            x.matched.captures.slots.items (x.matched.start, x.matched.end)
            × (x.haystack ≡ input.haystack) × (x.matched.captures.haystack ≡ input.haystack))
            s.members.position s.first s.next)) }
        ensures one { IfOk result (λ found. (regex : Regex) → self.now.regexes.items ≡ regex ∷ [] →
            MatchOption found (meta_match regex.meta (S.text input.haystack) input.config ≡ None)
            (λ s. IsAnswerOfOne self.now.regexes.items (S.text input.haystack) input.config
            (λ x found. IsMatchOfMember self.now.regexes.items found x.pattern x.matched.captures.regex.now
            x.matched.captures.slots.items (x.matched.start, x.matched.end)
            × (x.haystack ≡ input.haystack) × (x.matched.captures.haystack ≡ input.haystack))
            regex s.members.position s.first s.next)) }
        ensures of { IfOk result (λ found. IfSome found (λ s.
            (s.members.set.now ≡ self.now) × (s.members.haystack ≡ input.haystack) × (s.members.config ≡ input.config))) }
        ensures limits { IfErr result (λ e. IsSetError self.now.regexes.items (S.text input.haystack) input.config e) }
        ensures stays { IfOk result (λ found. SearchesInLimits self.now.regexes.items (S.text input.haystack) input.config
            (option_map (λ s. (s.members.position, s.next)) found)) }
    {
        laws_of_matches();
        self.first_answer(alloc, input)
    }

    /// The result of `find_input`.
    fn first_answer<S: Input>(
        &self,
        alloc: Global,
        input: RegexInput<S>,
    ) -> Result<Option<RegexSetMatchesAt<'_, S>>>
        ensures answer { IfOk result (λ found.
            MatchOption found (answer_of_set self.now.regexes.items (S.text input.haystack) input.config ≡ None)
            (λ s. IsAnswerOfSet self.now.regexes.items (S.text input.haystack) input.config
            (λ x found. IsMatchOfMember self.now.regexes.items found x.pattern x.matched.captures.regex.now
            x.matched.captures.slots.items (x.matched.start, x.matched.end)
            × (x.haystack ≡ input.haystack) × (x.matched.captures.haystack ≡ input.haystack))
            s.members.position s.first s.next)) }
        ensures of { IfOk result (λ found. IfSome found (λ s.
            (s.members.set.now ≡ self.now) × (s.members.haystack ≡ input.haystack) × (s.members.config ≡ input.config))) }
        ensures limits { IfErr result (λ e. IsSetError self.now.regexes.items (S.text input.haystack) input.config e) }
        ensures stays { IfOk result (λ found. SearchesInLimits self.now.regexes.items (S.text input.haystack) input.config
            (option_map (λ s. (s.members.position, s.next)) found)) }
    {
        let haystack = input.haystack();
        let config = input.config();
        let mut position = input.effective_start();
        let _text = haystack.as_bytes();
        let last = last_position(&config);
        let mut memory = SearchMemory::new(alloc);
        while position <= last {
            let members = MembersAt {
                alloc,
                set: self,
                haystack,
                config: config.copied(),
                position,
            };
            let mut next = 0;
            match members.advance(&mut next, &mut memory) {
                Some(Ok(found)) => {
                    return Ok(Some(RegexSetMatchesAt {
                        first: Some(found),
                        members,
                        next,
                        memory,
                    }));
                }
                Some(Err(error)) => return Err(error),
                None => {}
            }
            position = haystack.advance_position(position);
        }
        Ok(None)
    }
}
