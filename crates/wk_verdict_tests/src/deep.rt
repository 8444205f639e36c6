//! As many blocks as may be open at once.

use crate::judged::{NOTHING, judged, with_code};
use std::alloc::{AllocError, Global};
use std::test::Fail;
use wk_module::Profile;

// The code of a function without locals: as many openers as may be, bytes in the innermost block, and an end for each and one more.
fn nested(alloc: Global, opener: &[u8], inside: &[u8]) -> Result<Vec<u8>, AllocError> {
    let mut bytes = Vec::new(alloc);
    bytes.push(0x00)?;
    for _ in 0..20_000 {
        bytes.extend_from_slice(opener)?;
    }
    bytes.extend_from_slice(inside)?;
    for _ in 0..20_001 {
        bytes.push(0x0B)?;
    }
    Ok(bytes)
}

#[test]
fn judges_20_000_blocks(rt: HostRuntime) -> Result<(), Fail> {
    let rows: [(&[u8], &[u8], &str); 4] = [
        (b"\x02\x40", b"", "valid"),
        // a branch to the function's end, and one beyond
        (b"\x03\x40", b"\x0c\xa0\x9c\x01", "valid"),
        (
            b"\x03\x40",
            b"\x0c\xa1\x9c\x01",
            "invalid V12 UnknownLabel at section 10 item 0 token 20000",
        ),
        // an operand that is left in the innermost block
        (
            b"\x02\x40",
            b"\x41\0",
            "invalid V15 StackHeight at section 10 item 0 token 20001",
        ),
    ];
    for (opener, inside, text) in rows {
        let code = nested(rt.alloc(), opener, inside)?;
        let sections = with_code(&rt, rt.alloc(), NOTHING, code.as_slice())?;
        let verdict = judged(rt.alloc(), sections.as_slice(), Profile::Core)?;
        assert_eq!(rt; format!(in rt.alloc(); "{verdict}")?.as_str(), text);
    }
    Ok(())
}
