//! Inputs of integers, and their reading.
ghost use Rattle.std.specs.Prelude.{◌≤◌, length};

use crate::draws::Draws;
use std::alloc::Global;
use wk_bytes::{Cursor, LIMIT, OutOfMemory, ReadFault, put_u32};

/// Which integers an input holds.
#[derive(Clone, Copy, Debug, PartialEq, Eq)]
pub enum Spelling {
    /// Those below 128.
    OneByte,
    /// Those of one to five bytes, of each about as many.
    Mixed,
}

impl Spelling {
    /// What the times are called.
    pub(crate) fn name(self) -> &'static str {
        match self {
            Spelling::OneByte => "one byte each",
            Spelling::Mixed => "one to five bytes each",
        }
    }

    fn integer(self, draws: &mut Draws) -> u32 {
        let n = draws.draw();
        match self {
            Spelling::OneByte => n >> 25,
            Spelling::Mixed => match (draws.draw() >> 16) % 5 {
                0 => n >> 25,
                1 => n >> 18,
                2 => n >> 11,
                3 => n >> 4,
                _ => n,
            },
        }
    }
}

/// That many integers, each in its shortest spelling.
pub(crate) fn spelled(
    alloc: Global,
    spelling: Spelling,
    count: u32,
) -> Result<Vec<u8>, OutOfMemory> {
    let mut draws = Draws::new();
    let mut bytes = Vec::new(alloc);
    for _ in 0..count {
        put_u32(&mut bytes, spelling.integer(&mut draws))?;
    }
    Ok(bytes)
}

/// Reads that many integers, and adds them to the sum, which wraps.
pub(crate) fn add_all(bytes: &[u8], count: u32, sum: u64) -> Result<u64, ReadFault> {
    let mut cursor = Cursor::new(&bytes[..bytes.len().min(LIMIT)]);
    let mut sum = sum;
    for _ in 0..count {
        sum = sum.wrapping_add(u64::from(cursor.u32()?));
    }
    Ok(sum)
}
