//! Numbers that look random, the same in every run.

/// The state of a linear congruential generator.
#[derive(Debug, Drop)]
pub struct Draws {
    state: u32,
}

impl Draws {
    /// Begins at a fixed state.
    pub(crate) fn new() -> Draws {
        Draws { state: 1 }
    }

    /// The next number, of 32 bits.
    #[inline]
    pub(crate) fn draw(&mut self) -> u32 {
        self.state = self
            .state
            .wrapping_mul(1_664_525)
            .wrapping_add(1_013_904_223);
        self.state
    }
}
