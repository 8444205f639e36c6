//! Long bodies: what is written over the ends of a buffer, with integers at the borders of their lengths.

use std::alloc::{AllocError, Global};
use std::test::Fail;
use wk_body::{append_body, encode_body, read_body};

// Indices, constants and offsets of one byte next to those of two, the longest integers, words, and a branch by a table.
const BORDERS: &[u8] = b"\x20\x7f\x20\x80\x01\x10\xff\x7f\x23\x80\x80\x01\x0d\xff\xff\xff\xff\x0f\
    \x41\x3f\x41\xc0\x00\x41\x40\x41\xbf\x7f\x41\x80\x80\x80\x80\x78\
    \x42\x3f\x42\xc0\x00\x42\x40\x42\xbf\x7f\x42\x80\x80\x80\x80\x80\x80\x80\x80\x80\x7f\
    \x28\x02\x7f\x28\x02\x80\x01\x36\x80\x01\x00\x11\x80\x01\x00\
    \x43\x01\x02\x03\x04\x44\x01\x02\x03\x04\x05\x06\x07\x08\
    \x0e\x02\x00\x80\x01\x01\x02\x7e\x3f\x00\x0b\x6a";

// A body of that many instructions of one byte, and behind them all those at the borders, some times over.
fn long_body(alloc: Global, first: u32) -> Result<Vec<u8>, AllocError> {
    let mut bytes = Vec::new(alloc);
    bytes.push(0x00)?;
    for _ in 0..first {
        bytes.push(0x01)?;
    }
    for _ in 0..8 {
        bytes.extend_from_slice(BORDERS)?;
    }
    bytes.push(0x0B)?;
    Ok(bytes)
}

// Whether the body that the bytes spell is written as they are, in a vector of its own and behind others.
fn is_written_again(alloc: Global, bytes: &[u8]) -> bool {
    let Ok(body) = read_body(alloc, bytes) else {
        return false;
    };
    let Ok(code) = encode_body(alloc, &body) else {
        return false;
    };
    let mut twice = Vec::new(alloc);
    append_body(&mut twice, &body).is_ok()
        && append_body(&mut twice, &body).is_ok()
        && code.as_slice() == bytes
        && twice.len() / 2 == bytes.len()
        && twice.as_slice().starts_with(bytes)
        && twice.as_slice().ends_with(bytes)
}

// The first length of what stands in front with which it is not.
fn wrong_front(alloc: Global) -> Result<Option<u32>, AllocError> {
    for first in 0..300 {
        let bytes = long_body(alloc, first)?;
        if !is_written_again(alloc, &bytes) {
            return Ok(Some(first));
        }
    }
    Ok(None)
}

#[test]
fn writes_over_the_end_of_a_buffer(rt: HostRuntime) -> Result<(), Fail> {
    assert_eq!(rt; wrong_front(rt.alloc())?, None);
    Ok(())
}
