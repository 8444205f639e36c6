//! A module of many sections, and the walk over its frames.

use crate::draws::Draws;
use std::alloc::Global;
use wk_bytes::{OutOfMemory, Sections, put_u32};

const HEADER: [u8; 8] = *b"\0asm\x01\0\0\0";

static ZEROS: [u8; 256] = [0; 256];

/// What a walk saw.
#[derive(Clone, Copy, Debug, Default, PartialEq, Eq)]
pub struct Walk {
    /// The number of sections.
    pub sections: u64,
    /// The bytes of their contents.
    pub contents: u64,
    /// The number of faults, at most one a walk.
    pub faults: u64,
}

/// A module of that many custom sections, of up to 255 bytes each.
pub(crate) fn sample_module(alloc: Global, sections: u32) -> Result<Vec<u8>, OutOfMemory> {
    let mut draws = Draws::new();
    let mut bytes = Vec::new(alloc);
    bytes.extend_from_slice(&HEADER)?;
    for _ in 0..sections {
        let size = draws.draw() >> 24;
        bytes.push(0).map_err(|_| OutOfMemory)?;
        put_u32(&mut bytes, size)?;
        bytes.extend_from_slice(&ZEROS[..size as usize])?;
    }
    Ok(bytes)
}

/// Walks over the frames, and counts on.
pub(crate) fn walk_frames(bytes: &[u8], seen: Walk) -> Walk {
    let mut seen = seen;
    for section in Sections::new(bytes) {
        match section {
            Ok(section) => {
                seen.sections = seen.sections.wrapping_add(1);
                seen.contents = seen.contents.wrapping_add(section.contents.len() as u64);
            }
            Err(_) => seen.faults = seen.faults.wrapping_add(1),
        }
    }
    seen
}
