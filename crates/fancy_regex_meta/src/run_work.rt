//! How much work the runs of a program may do over the searches of one text, before states answer in its place. No clause speaks of it:
//! both give the same match.

use fancy_regex_machine::Allowance;

/// What the runs over a text may do at least.
const FIRST_WORK: u64 = 100_000;

/// What they may do besides for each byte from the first start to the end of the text: a look-ahead may read all of them once or twice.
const WORK_PER_TEXT_BYTE: u64 = 4;

/// What they may do besides for each byte that the start goes on by: as measured, states take the time of about so much work.
const WORK_PER_START_BYTE: u64 = 64;

/// What a run may do first where an earlier search of the text was made.
const LEAST_SHARE: u64 = 64;

/// How many searches are made before it is asked how far apart their matches are.
const FIRST_SEARCHES: u64 = 8;

/// How many bytes a search has to come on by on the average, so that it pays to walk from its first starts before a run.
const LEAST_DISTANCE: u64 = 16;

/// How much more the next run may do where one was exhausted.
const GROWTH: u64 = 4;

/// The work that the runs over a text may still do.
#[derive(Clone, Copy)]
pub struct RunWork {
    /// Whether a search of the text was made.
    begun: bool,
    /// Whether states answer from now on.
    spent: bool,
    /// Whether the work of this search is taken from what is left.
    shared: bool,
    /// The work that is left.
    left: u64,
    /// The byte offset that the searches have come to.
    place: usize,
    /// What the next run may do.
    share: u64,
    /// What the first run of the next search may do.
    next_share: u64,
    /// How many runs have answered.
    answers: u64,
    /// How many bytes lie between the starts of these searches and those of their matches, all together.
    distance: u64,
}

impl RunWork {
    /// That of no search so far.
    pub(crate) fn new() -> RunWork {
        RunWork {
            begun: false,
            spent: false,
            shared: false,
            left: 0,
            place: 0,
            share: 0,
            next_share: LEAST_SHARE,
            answers: 0,
            distance: 0,
        }
    }

    /// Begins a search from this byte offset on. The first search of a text may do as much as all later ones have besides what they come
    /// on by. A later search may first do as much as it has come on by, or what the runs before it needed, if that is more.
    #[inline(always)]
    pub(crate) fn begin(&mut self, text: &str, first: usize) {
        let rest = text.len().saturating_sub(first) as u64;
        let whole = FIRST_WORK.saturating_add(rest.saturating_mul(WORK_PER_TEXT_BYTE));
        let distance = first.saturating_sub(self.place) as u64;
        let earned = distance.saturating_mul(WORK_PER_START_BYTE);
        self.left = if self.begun {
            self.left.saturating_add(earned)
        } else {
            whole
        };
        self.shared = self.begun;
        self.share = if self.shared {
            self.next_share.max(earned).min(self.left)
        } else {
            whole
        };
        self.begun = true;
        self.place = first;
    }

    /// Whether states answer.
    #[inline(always)]
    pub(crate) fn is_spent(&self) -> bool {
        self.spent
    }

    /// Whether it pays to walk from the first starts of a search before a run: not where most searches so far have found their match next
    /// to where they began.
    #[inline(always)]
    pub(crate) fn walks(&self) -> bool {
        self.answers < FIRST_SEARCHES
            || self.distance >= self.answers.saturating_mul(LEAST_DISTANCE)
    }

    /// What the next run may do.
    #[inline(always)]
    pub(crate) fn allowance(&self) -> Allowance {
        Allowance::Bounded {
            first: self.share,
            per_byte: WORK_PER_START_BYTE,
        }
    }

    /// Notes that a run has answered: where its match starts, or else the end of the text, and how often its delegated parts have looked at
    /// the text, since it may have gone back nowhere, and so was not exhausted, however often they did. The next search may first do a
    /// little less, so that one long look does not count for all that follow.
    #[inline(always)]
    pub(crate) fn answered(&mut self, start: usize, looks: u64) {
        self.answers = self.answers.saturating_add(1);
        let came = start.saturating_sub(self.place) as u64;
        self.distance = self.distance.saturating_add(came);
        if self.shared {
            let distance = start.saturating_sub(self.place) as u64;
            let looks = looks.saturating_sub(distance.saturating_mul(WORK_PER_START_BYTE));
            self.spent = looks > self.left;
            self.left = self.left.saturating_sub(self.share.max(looks));
            let less = self.next_share.saturating_sub(self.next_share / 8);
            self.next_share = less.max(LEAST_SHARE);
        }
    }

    /// Notes that a run was exhausted; whether another one may do more.
    pub(crate) fn grow(&mut self) -> bool {
        if !self.shared {
            return false;
        }
        self.left = self.left.saturating_sub(self.share);
        self.share = self.share.saturating_mul(GROWTH).min(self.left);
        self.next_share = self.share;
        self.share >= LEAST_SHARE
    }

    /// Notes that states answer from now on.
    pub(crate) fn stop(&mut self) {
        self.spent = true;
    }
}
