//! Bodies that are typed while they are read, of a function from an i32 to an i32.

use crate::judged::{Row, behind_header, faults, with_code};
use crate::spelled::{passes_both, refuses_bytes, tells, token};
use std::alloc::Global;
use std::process::Abort;
use std::test::Fail;
use wk_bytes::ReadKind;
use wk_check::FaultKind;
use wk_module::Profile;

// The function, up to its code.
const FUNC: &[u8] = b"\x01\x06\x01\x60\x01\x7f\x01\x7f\x03\x02\x01\0";

// A module with a function of such a code.
fn module_of(rt: &impl Abort, alloc: Global, code: &[u8]) -> Result<Vec<u8>, Fail> {
    let sections = with_code(rt, alloc, FUNC, code)?;
    Ok(behind_header(alloc, &sections)?)
}

#[test]
fn passes_bodies(rt: HostRuntime) -> Result<(), Fail> {
    let rows: [&[u8]; 7] = [
        // an if with an empty else, without one, and with a result
        b"\0\x20\0\x04\x40\x05\x0b\x20\0\x0b",
        b"\0\x20\0\x04\x40\x0b\x20\0\x0b",
        b"\0\x20\0\x04\x7f\x20\0\x05\x41\0\x0b\x0b",
        // a br_table out of a loop in a block
        b"\0\x02\x40\x03\x40\x20\0\x0e\x01\0\x01\x0b\x0b\x20\0\x0b",
        // instructions that are not reached
        b"\0\0\x6a\x1a\x20\0\x0b",
        // a block with a result
        b"\0\x02\x7f\x20\0\x0b\x0b",
        // local groups of two types
        b"\x02\x01\x7f\x01\x7e\x20\x02\x1a\x20\0\x0b",
    ];
    for code in rows {
        passes_both(&rt, rt.alloc(), &module_of(&rt, rt.alloc(), code)?)?;
    }
    // one body after another
    let two = b"\0asm\x01\0\0\0\x01\x06\x01\x60\x01\x7f\x01\x7f\x03\x03\x02\0\0\
        \x0a\x10\x02\x09\0\x02\x40\x0c\0\x0b\x20\0\x0b\x04\0\x20\0\x0b";
    passes_both(&rt, rt.alloc(), two)
}

#[test]
fn tells_tokens_of_faults(rt: HostRuntime) -> Result<(), Fail> {
    let rows: &[Row] = &faults! {
        // behind an empty else, which is no token
        b"\0\x20\0\x04\x40\x05\x0b\x42\0\x0b" => TypeMismatch 4,
        // behind an else, and in a loop
        b"\0\x20\0\x04\x40\x05\x6a\x0b\x20\0\x0b" => StackUnderflow 3,
        b"\0\x03\x40\x6a\x0b\x20\0\x0b" => StackUnderflow 1,
        // a br_table to two types
        b"\0\x02\x7f\x02\x40\x41\0\x20\0\x0e\x01\0\x01\x0b\x41\0\x0b\x0b" => LabelTypes 4,
    };
    for &(code, kind, at) in rows {
        let bytes = module_of(&rt, rt.alloc(), code)?;
        let wanted = Some((kind, token(10, 0, at)));
        tells(&rt, rt.alloc(), &bytes, Profile::Core, wanted)?;
    }
    // the second body
    let second = b"\0asm\x01\0\0\0\x01\x06\x01\x60\x01\x7f\x01\x7f\x03\x03\x02\0\0\
        \x0a\x0b\x02\x04\0\x20\0\x0b\x04\0\x42\0\x0b";
    let wanted = Some((FaultKind::TypeMismatch, token(10, 1, 1)));
    tells(&rt, rt.alloc(), second, Profile::Core, wanted)
}

#[test]
fn tells_what_is_no_body(rt: HostRuntime) -> Result<(), Fail> {
    // bytes behind the end, an open block, and an else in a block
    let rows: [(&[u8], ReadKind, u32); 3] = [
        (b"\0\x20\0\x0b\0", ReadKind::BodySize, 28),
        (b"\0\x02\x40\x20\0\x0b", ReadKind::UnexpectedEnd, 30),
        (b"\0\x02\x40\x05\x0b\x20\0\x0b", ReadKind::UnknownOpcode, 27),
    ];
    for (code, kind, at) in rows {
        let bytes = module_of(&rt, rt.alloc(), code)?;
        refuses_bytes(&rt, rt.alloc(), &[(&bytes, kind, at)])?;
    }
    // a code section twice, behind the data, and of no bytes
    let rows: [(&[u8], ReadKind, u32); 3] = [
        (
            b"\0asm\x01\0\0\0\x0a\x01\0\x0a\x01\0",
            ReadKind::SectionOrder,
            11,
        ),
        (
            b"\0asm\x01\0\0\0\x0b\x01\0\x0a\x01\0",
            ReadKind::SectionOrder,
            11,
        ),
        (b"\0asm\x01\0\0\0\x0a\0", ReadKind::UnexpectedEnd, 10),
    ];
    refuses_bytes(&rt, rt.alloc(), &rows)
}
