//! Blocks in one another: a code is written again as the body that it spells is, on both sides of each depth from which on its open
//! blocks are kept otherwise.

use std::alloc::{AllocError, Global};
use std::test::Fail;
use wk_body::{Profile, Scratch, encode_body, read_body_in};
use wk_bytes::Cursor;

// What stands in front of the inside of a block, and what behind it.
type Nest = (&'static [u8], &'static [u8]);

const NESTS: [Nest; 14] = [
    (b"\x02\x40", b"\x0b"),
    (b"\x04\x40", b"\x0b"),
    // an else that holds something, and one that holds nothing
    (b"\x04\x40\x01", b"\x05\x01\x0b"),
    (b"\x04\x7f", b"\x05\x0b"),
    (b"\x04\x40\x01\x05", b"\x0b"),
    // blocks and ifs
    (b"\x03\x40\x04\x40", b"\x05\x0b\x0b"),
    (b"\x04\x40\x02\x40", b"\x0b\x05\x01\x0b"),
    // ifs whose else holds nothing, in a block and in an else
    (b"\x02\x40\x04\x40\x05\x0b", b"\x04\x40\x05\x0b\x0b"),
    (b"\x04\x40\x05\x04\x40\x05\x0b", b"\x04\x40\x05\x0b\x0b"),
    // padded integers
    (b"\x04\x40\x41\x80\x00\x1a", b"\x05\x41\x80\x00\x1a\x0b"),
    (b"\x02\x40\x41\x80\x00\x04\x40", b"\x05\x0b\x20\x81\x00\x0b"),
    // types of other lengths
    (b"\x02\x80\x01", b"\x0b"),
    (b"\x04\x05", b"\x05\x0b"),
    (b"\x04\x81\x80\x00\x02\x7c", b"\x0b\x05\x01\x0b"),
];

// Depths about 31 and 62, and about sums of them.
const DEPTHS: [u32; 12] = [30, 31, 32, 61, 62, 63, 64, 93, 94, 95, 125, 200];

// Depths about 20,000, the greatest, and about what lies 64 below it.
const GREAT_DEPTHS: [u32; 4] = [19_936, 19_937, 20_000, 20_001];

// The bytes, so many times.
fn put_times(out: &mut Vec<u8>, bytes: &[u8], times: u32) -> Result<(), AllocError> {
    for _ in 0..times {
        out.extend_from_slice(bytes)?;
    }
    Ok(())
}

// A body of so many nests in one another, the innermost of which are closed and opened again, twice.
fn nested(alloc: Global, nest: Nest, depth: u32, again: u32) -> Result<Vec<u8>, AllocError> {
    let (front, behind) = nest;
    let mut bytes = Vec::new(alloc);
    bytes.push(0x00)?;
    put_times(&mut bytes, front, depth)?;
    for _ in 0..2 {
        put_times(&mut bytes, behind, again)?;
        put_times(&mut bytes, front, again)?;
    }
    put_times(&mut bytes, behind, depth)?;
    bytes.push(0x0B)?;
    Ok(bytes)
}

// Whether the bytes are written again as the body is that is read from them, or are refused alike.
fn is_written_alike(alloc: Global, scratch: &mut Scratch, bytes: &[u8]) -> bool {
    if bytes.len() > 1_000_000 {
        return false;
    }
    let read = read_body_in(alloc, bytes, Profile::Extended);
    let written = scratch.written_form(alloc, &Cursor::new(bytes), Profile::Extended);
    match (read, written) {
        (Ok(body), Ok(written)) => match encode_body(alloc, &body) {
            Ok(code) => code.as_slice() == written,
            Err(_) => false,
        },
        (Err(fault), Err(other)) => fault == other,
        _ => false,
    }
}

// Whether the length of the written form is told as it is written, or refused alike.
fn is_measured_alike(alloc: Global, scratch: &mut Scratch, bytes: &[u8]) -> bool {
    if bytes.len() > 1_000_000 {
        return false;
    }
    let len = scratch.written_len(alloc, &Cursor::new(bytes), Profile::Extended);
    let written = scratch.written_form(alloc, &Cursor::new(bytes), Profile::Extended);
    match (len, written) {
        (Ok(len), Ok(written)) => len as usize == written.len(),
        (Err(fault), Err(other)) => fault == other,
        _ => false,
    }
}

// The first of these depths at which a nest is not written or measured alike.
fn wrong_depth(
    alloc: Global,
    nests: &[Nest],
    depths: &[u32],
    times: &[u32],
) -> Result<Option<u32>, AllocError> {
    let mut scratch = Scratch::new(alloc);
    for &nest in nests {
        for &depth in depths {
            for &again in times {
                let bytes = nested(alloc, nest, depth, again)?;
                if !is_written_alike(alloc, &mut scratch, &bytes)
                    || !is_measured_alike(alloc, &mut scratch, &bytes)
                {
                    return Ok(Some(depth));
                }
            }
        }
    }
    Ok(None)
}

#[test]
fn writes_nested_blocks(rt: HostRuntime) -> Result<(), Fail> {
    let times = [0, 31, 63];
    assert_eq!(rt; wrong_depth(rt.alloc(), &NESTS, &DEPTHS, &times)?, None);
    Ok(())
}

#[test]
fn writes_blocks_as_deep_as_they_may_be(rt: HostRuntime) -> Result<(), Fail> {
    assert_eq!(rt;
        wrong_depth(rt.alloc(), &NESTS[..3], &GREAT_DEPTHS, &[0])?,
        None
    );
    Ok(())
}
