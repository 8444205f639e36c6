//! Modules of which no body is kept.

use std::alloc::Global;
use std::test::Fail;
use wk_bytes::Items;
use wk_module::{Module, Profile, encode, read_outline};
use wk_samples::modules::{CODES_OF_TWO, TWO_CODES};

// The module of two codes, with a stub in the place of each.
const TWO_STUBS: &[u8] = b"\0asm\x01\0\0\0\
    \x00\x02\x01c\
    \x01\x05\x01\x60\x00\x01\x7f\
    \x03\x03\x02\x00\x00\
    \x07\x05\x01\x01f\x00\x01\
    \x0a\x09\x02\x03\x00\x00\x0b\x03\x00\x00\x0b\
    \x00\x02\x01d\
    \x0b\x07\x01\x00\x41\x00\x0b\x01\xaa";

// A code whose integer has a byte more than it needs, between custom sections.
const LONG_CODE: &[u8] = b"\0asm\x01\0\0\0\
    \x01\x05\x01\x60\x00\x01\x7f\
    \x03\x02\x01\x00\
    \x00\x02\x01c\
    \x0a\x07\x01\x05\x00\x41\x87\x00\x0b\
    \x00\x02\x01d";

const LONG_STUB: &[u8] = b"\0asm\x01\0\0\0\
    \x01\x05\x01\x60\x00\x01\x7f\
    \x03\x02\x01\x00\
    \x00\x02\x01c\
    \x0a\x05\x01\x03\x00\x00\x0b\
    \x00\x02\x01d";

fn is_encoded(alloc: Global, module: &Module, bytes: &[u8]) -> bool {
    match encode(alloc, module) {
        Ok(written) => written.as_slice() == bytes,
        Err(_) => false,
    }
}

fn are_codes(codes: &[Items<u8>], expected: &[&[u8]]) -> bool {
    for (code, bytes) in codes.iter().zip(expected) {
        if code.as_slice() != *bytes {
            return false;
        }
    }
    codes.len() == expected.len()
}

// Whether bytes are read as that module and these codes.
fn parts(alloc: Global, bytes: &[u8], module: &[u8], codes: &[&[u8]]) -> bool {
    match read_outline(alloc, bytes, Profile::Core) {
        Ok(outline) => {
            is_encoded(alloc, &outline.module, module) && are_codes(&outline.codes, codes)
        }
        Err(_) => false,
    }
}

#[test]
fn reads_outlines(rt: HostRuntime) -> Result<(), Fail> {
    assert!(rt; parts(rt.alloc(), TWO_CODES, TWO_STUBS, &CODES_OF_TWO));
    assert!(rt; parts(rt.alloc(), LONG_CODE, LONG_STUB, &[b"\x00\x41\x07\x0b"]));
    Ok(())
}
