//! The bytes of a stripped module.

ghost use Rattle.std.specs.Prelude.{◌≡◌, ◌≤◌, ◌++◌, IfOk, drop, length};

use std::marker::Model;
use wk_bytes::OutOfMemory;

/// The bytes of a stripped module, which a contract sees as their list.
#[derive(Debug, Drop)]
pub struct Stripped {
    bytes: Vec<u8>,
    start: usize,
}

impl Model for Stripped {
    ghost use Rattle.std.specs.Prelude.{◌≤◌, ℕ, List, drop, length};

    ghost Value = { List ℕ };

    ghost view = { λ s. drop s.start s.bytes.items };

    ghost invariant = { λ s. s.start ≤ length s.bytes.items };
}

impl Stripped {
    // All of these bytes.
    pub(crate) fn whole(bytes: Vec<u8>) -> Stripped
        ensures { result ≡ bytes.items }
    {
        Stripped { bytes, start: 0 }
    }

    // These bytes with others in the place of the gap at their front, which is as long as the others or longer.
    fn within(front: &[u8], gap: usize, mut bytes: Vec<u8>) -> Stripped
        requires room { length front.now ≤ gap }
        requires within { gap ≤ length bytes.items }
        ensures { result ≡ front.now ++ drop gap bytes.items }
    {
        let start = gap - front.len();
        bytes[start..gap].copy_from_slice(front);
        Stripped { bytes, start }
    }

    // The same where the others may be longer than the gap. Then all of it goes behind them.
    pub(crate) fn behind(
        front: Vec<u8>,
        gap: usize,
        bytes: Vec<u8>,
    ) -> Result<Stripped, OutOfMemory>
        requires { gap ≤ length bytes.items }
        ensures { IfOk result (λ s. s ≡ front.items ++ drop gap bytes.items) }
    {
        if front.len() <= gap {
            return Ok(Stripped::within(&front, gap, bytes));
        }
        let mut whole = front;
        whole.extend_from_slice(&bytes[gap..])?;
        Ok(Stripped::whole(whole))
    }

    /// The bytes.
    pub fn as_slice(&self) -> &[u8]
        ensures { result.now ≡ self.now }
    {
        &self.bytes[self.start..]
    }
}
