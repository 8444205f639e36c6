//! A module with a code section, and the reading of its bodies.

use crate::draws::Draws;
use std::alloc::Global;
use wk_body::{Profile, Scratch};
use wk_bytes::{Cursor, OutOfMemory, ReadFault, Sections, put_u32};

const HEADER: [u8; 8] = *b"\0asm\x01\0\0\0";

/// The id of the code section (5.5.2).
const CODE: u8 = 10;

// Some instructions that may stand one after the other in any order.
static PIECES: [&[u8]; 8] = [
    b"\x20\x00",
    b"\x41\x80\x80\x04",
    b"\x6a",
    b"\x28\x02\xc0\x01",
    b"\x10\x95\x02",
    b"\x02\x40\x0d\x00\x0b",
    b"\x04\x7f\x41\x01\x05\x41\x02\x0b",
    b"\x21\x05",
];

/// What was read.
#[derive(Clone, Copy, Debug, Default, PartialEq, Eq)]
pub struct Codes {
    /// The number of bodies.
    pub bodies: u64,
    /// The number of their tokens.
    pub tokens: u64,
    /// The number of faults, at most one a code section.
    pub faults: u64,
}

/// A module of that many bodies, of up to 255 pieces each.
pub(crate) fn sample_codes(alloc: Global, bodies: u32) -> Result<Vec<u8>, OutOfMemory> {
    let mut draws = Draws::new();
    let mut contents = Vec::new(alloc);
    put_u32(&mut contents, bodies)?;
    let mut code: Vec<u8> = Vec::new(alloc);
    for _ in 0..bodies {
        code.clear();
        code.extend_from_slice(b"\x01\x06\x7f")?;
        for _ in 0..draws.draw() >> 24 {
            code.extend_from_slice(PIECES[(draws.draw() >> 29) as usize])?;
        }
        code.push(0x0B).map_err(|_| OutOfMemory)?;
        put_u32(&mut contents, u32::try_from(code.len()).unwrap_or(0))?;
        contents.extend_from_slice(&code)?;
    }
    let mut bytes = Vec::new(alloc);
    bytes.extend_from_slice(&HEADER)?;
    bytes.push(CODE).map_err(|_| OutOfMemory)?;
    put_u32(&mut bytes, u32::try_from(contents.len()).unwrap_or(0))?;
    bytes.extend_from_slice(&contents)?;
    Ok(bytes)
}

// Reads one body of a code section, in its own end.
fn read_code(
    alloc: Global,
    scratch: &mut Scratch,
    cursor: &mut Cursor<'_>,
) -> Result<u64, ReadFault> {
    let size = cursor.u32()?;
    let at = cursor.at();
    let code = Cursor::within(cursor.take(size)?, at);
    let body = scratch.read_body(alloc, &code, Profile::Extended)?;
    Ok(body.tokens().0.len() as u64)
}

// Reads the bodies of a code section, and counts on.
fn read_section(
    alloc: Global,
    scratch: &mut Scratch,
    cursor: &mut Cursor<'_>,
    seen: &mut Codes,
) -> Result<(), ReadFault> {
    let count = cursor.u32()?;
    for _ in 0..count {
        let tokens = read_code(alloc, scratch, cursor)?;
        seen.bodies = seen.bodies.wrapping_add(1);
        seen.tokens = seen.tokens.wrapping_add(tokens);
    }
    Ok(())
}

/// Reads each body of a module's code section, one after the other in one room, and counts on.
pub(crate) fn read_codes(alloc: Global, bytes: &[u8], seen: Codes) -> Codes {
    let mut seen = seen;
    let mut scratch = Scratch::new(alloc);
    for section in Sections::new(bytes) {
        let Ok(section) = section else { break };
        if section.id == CODE
            && read_section(alloc, &mut scratch, &mut section.cursor(), &mut seen).is_err()
        {
            seen.faults = seen.faults.wrapping_add(1);
        }
    }
    seen
}
