//! Pseudorandom numbers, the same from the same seed.

/// A generator of pseudorandom numbers.
#[derive(Drop)]
pub struct Random {
    state: u64,
}

impl Random {
    /// The generator with this seed.
    pub fn new(seed: u64) -> Random {
        Random { state: seed }
    }

    /// The next number below the count, 0 if that is 0.
    pub fn below(&mut self, count: usize) -> usize {
        self.state = self
            .state
            .wrapping_mul(6_364_136_223_846_793_005)
            .wrapping_add(1_442_695_040_888_963_407);
        if count == 0 {
            return 0;
        }
        (self.state >> 33) as usize % count
    }

    /// True once in `count` times.
    pub fn one_in(&mut self, count: usize) -> bool {
        self.below(count) == 0
    }

    /// One of the words, empty if there is none.
    pub fn pick<'w>(&mut self, words: &[&'w str]) -> &'w str {
        match words.get(self.below(words.len())) {
            Some(word) => word,
            None => "",
        }
    }
}
