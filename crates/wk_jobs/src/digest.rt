//! A digest of results.

/// What was computed so far, in 64 bits.
#[derive(Debug, Drop)]
pub struct Digest {
    state: u64,
    /// How many bytes were looked at.
    bytes: u64,
}

// The next state behind eight bytes.
#[inline]
fn mixed(state: u64, word: u64) -> u64 {
    (state ^ word)
        .wrapping_mul(0x9E37_79B9_7F4A_7C15)
        .rotate_left(29)
}

impl Digest {
    /// That of nothing.
    pub(crate) fn new() -> Digest {
        Digest {
            state: 0x6A09_E667_F3BC_C908,
            bytes: 0,
        }
    }

    /// Goes over these bytes: eight at once, so that it takes little beside what made them.
    pub(crate) fn add(&mut self, bytes: &[u8]) {
        let mut state = self.state;
        let chunks = bytes.chunks_exact(8);
        let rest = chunks.remainder();
        for chunk in chunks {
            if let [a, b, c, d, e, f, g, h] = chunk {
                state = mixed(state, u64::from_le_bytes([*a, *b, *c, *d, *e, *f, *g, *h]));
            }
        }
        for byte in rest {
            state = mixed(state, u64::from(*byte));
        }
        self.state = mixed(state, bytes.len() as u64);
        self.bytes = self.bytes.wrapping_add(bytes.len() as u64);
    }

    /// The digest of all, and how many bytes they had.
    pub(crate) fn value(&self) -> (u64, u64) {
        (self.state, self.bytes)
    }
}
