//! Numbers that follow from a seed.

/// A linear congruential generator of 64 bits, with the constants of Knuth's MMIX.
#[derive(Clone, Copy, Drop)]
pub struct Random {
    state: u64,
}

impl Random {
    /// From a seed.
    pub(crate) fn new(seed: u64) -> Random {
        let mut it = Random { state: seed };
        let _ = it.below(2);
        it
    }

    /// The next number below n; 0 where n is 0.
    pub(crate) fn below(&mut self, n: u64) -> u64 {
        self.state = self
            .state
            .wrapping_mul(6_364_136_223_846_793_005)
            .wrapping_add(1_442_695_040_888_963_407);
        if n == 0 {
            return 0;
        }
        (self.state >> 33) % n
    }
}
