//! An output that fails.

ghost use Rattle.std.specs.Prelude.{◌≡◌};

use std::alloc::Global;
use wk_bytes::{Out, OutFault};

/// Takes a few bytes a call, until it fails.
#[derive(Drop)]
pub(crate) struct Chopped {
    taken: Vec<u8>,
    most: usize,
    left: usize,
    failures: u64,
}

impl Chopped {
    /// Takes at most `most` bytes a call, but always one, and fails at each call after the first `left`.
    pub(crate) fn new(alloc: Global, most: usize, left: usize) -> Chopped
        ensures { ⟦<Chopped as Out>⟧.failed result ≡ 0 }
    {
        Chopped {
            taken: Vec::new(alloc),
            most,
            left,
            failures: 0,
        }
    }

    /// What was taken.
    pub(crate) fn taken(&self) -> &[u8] {
        self.taken.as_slice()
    }
}

impl Out for Chopped {
    ghost use Rattle.std.specs.Prelude.{Some};

    ghost taken = { λ c. Some c.taken.items };

    ghost failed = { λ c. c.failures };

    fn put(&mut self, piece: &[u8]) -> Result<usize, OutFault> {
        let n = piece.len().min(self.most.max(1));
        if self.left == 0 || self.taken.extend_from_slice(&piece[..n]).is_err() {
            self.failures += 1;
            return Err(OutFault);
        }
        self.left -= 1;
        Ok(n)
    }

    fn failures(&self) -> u64 {
        self.failures
    }
}
