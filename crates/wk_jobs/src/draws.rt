//! Numbers that look random: the same for a seed in every run, and others for another seed.

/// The state of a linear congruential generator of 64 bits, of which the upper half is given out (the multiplier is Knuth's).
#[derive(Debug, Drop)]
pub struct Draws {
    state: u64,
}

impl Draws {
    /// Those of a seed.
    pub(crate) fn new(seed: u32) -> Draws {
        let mut draws = Draws {
            state: u64::from(seed),
        };
        let _first = draws.draw();
        let _second = draws.draw();
        draws
    }

    /// The next number, of 32 bits.
    #[inline]
    pub(crate) fn draw(&mut self) -> u32 {
        self.state = self
            .state
            .wrapping_mul(6_364_136_223_846_793_005)
            .wrapping_add(1_442_695_040_888_963_407);
        u32::try_from(self.state >> 32).unwrap_or(0)
    }

    /// The next number below a bound, or 0 below 0.
    #[inline]
    pub(crate) fn below(&mut self, bound: u32) -> u32 {
        if bound == 0 {
            return 0;
        }
        self.draw() % bound
    }

    /// Whether the next number below `of` is below `part`.
    #[inline]
    pub(crate) fn is_among(&mut self, part: u32, of: u32) -> bool {
        self.below(of) < part
    }
}
