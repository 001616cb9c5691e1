//! Whether it pays to skip starts by a relaxed pattern, over the searches of one text. No clause speaks of it: the match is the same.

/// How many searches are made before it is asked whether they skip enough.
const FIRST_SEARCHES: u64 = 8;

/// After so many searches all counts are halved, so that later ones count more.
const MOST_SEARCHES: u64 = 64;

/// How many bytes they have to skip on the average: it takes about as long to search for the relaxed pattern as to try so many starts.
const LEAST_SKIP: u64 = 24;

/// How many skipped bytes of one search count: a long way does not pay for many searches that skip nothing.
const MOST_SKIP: u64 = 256;

/// How often a search may look at the text for each byte that it skips.
const LOOKS_PER_BYTE: u64 = 4;

/// How often the first searches may look at the text besides.
const FREE_LOOKS: u64 = 50_000;

/// How many looks of one search that took fewer than it may are left to later ones.
const MOST_SAVED: u64 = 4_096;

/// How many bytes a search without them has come on by at least where they begin anew.
const LONG_WAY: usize = 512;

/// What the searches for a relaxed pattern took and gave.
#[derive(Clone, Copy)]
pub struct StartSkips {
    /// Whether they go on.
    pays: bool,
    /// How many searches there were.
    searches: u64,
    /// How many bytes they skipped, as far as these count.
    skipped: u64,
    /// How often later ones may look at the text besides.
    left: u64,
}

impl StartSkips {
    /// Those of no search so far.
    pub(crate) fn new() -> StartSkips {
        StartSkips {
            pays: true,
            searches: 0,
            skipped: 0,
            left: FREE_LOOKS,
        }
    }

    /// Whether it pays to go on.
    #[inline(always)]
    pub(crate) fn pay(&self) -> bool {
        self.pays
    }

    /// Notes a search that skipped the bytes from `first` to `start`, and looked at the text so often.
    #[inline(always)]
    pub(crate) fn note(&mut self, first: usize, start: usize, looks: u64) {
        let skipped = start.saturating_sub(first) as u64;
        self.searches = self.searches.saturating_add(1);
        self.skipped = self.skipped.saturating_add(skipped.min(MOST_SKIP));
        let paid = skipped.saturating_mul(LOOKS_PER_BYTE);
        let saved = paid.saturating_sub(looks).min(MOST_SAVED);
        self.left = self.left.saturating_add(saved).min(FREE_LOOKS);
        self.left = self.left.saturating_sub(looks.saturating_sub(paid));
        let is_short = self.skipped < self.searches.saturating_mul(LEAST_SKIP);
        self.pays = self.left > 0 && !(is_short && self.searches >= FIRST_SEARCHES);
        if self.searches >= MOST_SEARCHES {
            self.searches /= 2;
            self.skipped /= 2;
        }
    }

    /// Notes from where to where a search came. Where relaxed searches skipped too little they may pay again after a long way; where they
    /// looked too often they are left out for good, since one of them may look at all of the text that is left.
    #[inline(always)]
    pub(crate) fn came(&mut self, first: usize, start: usize) {
        if self.pays || self.left == 0 || start.saturating_sub(first) < LONG_WAY {
            return;
        }
        self.searches = 0;
        self.skipped = 0;
        self.pays = true;
    }
}
