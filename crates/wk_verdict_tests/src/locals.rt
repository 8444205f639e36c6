//! Bodies with locals or a memory, and the verdicts on them.

use crate::judged::{NOTHING, Row, faults, passes_codes, refuses_codes};
use std::alloc::Global;
use std::process::Abort;
use std::test::Fail;
use wk_bytes::put_u32;
use wk_module::Profile::Core;

// A function that takes an i64 and an f64.
const TWO_PARAMETERS: &[u8] = b"\x01\x06\x01\x60\x02\x7e\x7c\0\x03\x02\x01\0";

// A function that takes nothing and gives nothing, and a memory.
const MEMORY: &[u8] = b"\x01\x04\x01\x60\0\0\x03\x02\x01\0\x05\x03\x01\0\x01";

#[test]
fn takes_locals(rt: HostRuntime) -> Result<(), Fail> {
    let rows: [&[u8]; 6] = [
        // parameters
        b"\0\x20\0\x50\x1a\x20\x01\x99\x1a\x0b",
        // groups behind them
        b"\x02\x02\x7f\x01\x7d\x20\x02\x20\x03\x6a\x21\x03\x20\x04\x8b\x21\x04\x0b",
        // groups of none
        b"\x03\0\x7f\x01\x7e\0\x7d\x20\x02\x50\x1a\x0b",
        // one that is set and kept
        b"\x01\x01\x7f\x41\0\x22\x02\x45\x1a\x0b",
        // as many as may be
        b"\x01\xff\xff\xff\xff\x0f\x7f\x20\x02\x45\x1a\x20\xff\xff\xff\xff\x0f\x45\x1a\x0b",
        b"\x02\xfe\xff\xff\xff\x0f\x7f\x01\x7e\x20\xff\xff\xff\xff\x0f\x45\x1a\x0b",
    ];
    passes_codes(&rt, rt.alloc(), Core, TWO_PARAMETERS, &rows)
}

#[test]
fn refuses_locals(rt: HostRuntime) -> Result<(), Fail> {
    let rows: &[Row] = &faults! {
        // locals that are not there
        b"\0\x20\x02\x1a\x0b" => UnknownLocal 0,
        b"\x02\x02\x7f\x01\x7d\x20\x05\x1a\x0b" => UnknownLocal 0,
        b"\x03\0\x7f\x01\x7e\0\x7d\x41\0\x21\x03\x0b" => UnknownLocal 1,
        b"\0\x22\xff\xff\xff\xff\x0f\x1a\x0b" => UnknownLocal 0,
        // other types
        b"\0\x20\0\x45\x1a\x0b" => TypeMismatch 1,
        b"\x02\x02\x7f\x01\x7d\x20\x04\x45\x1a\x0b" => TypeMismatch 1,
        b"\x01\x01\x7f\x42\0\x21\x02\x0b" => TypeMismatch 1,
        b"\x01\x01\x7f\x42\0\x22\x02\x1a\x0b" => TypeMismatch 1,
        // nothing to set
        b"\0\x21\0\x0b" => StackUnderflow 0,
        b"\0\x22\x01\x1a\x0b" => StackUnderflow 0,
    };
    refuses_codes(&rt, rt.alloc(), Core, TWO_PARAMETERS, rows)
}

#[test]
fn refuses_the_last_of_many_locals(rt: HostRuntime) -> Result<(), Fail> {
    let rows: &[Row] = &faults! {
        // one more than all
        b"\x01\xff\xff\xff\xff\x0f\x7f\x20\xff\xff\xff\xff\x0f\x1a\x0b" => UnknownLocal 0,
        // the last of all
        b"\x02\xfe\xff\xff\xff\x0f\x7f\x01\x7e\x20\xfe\xff\xff\xff\x0f\x45\x1a\x0b" => TypeMismatch 1,
    };
    refuses_codes(&rt, rt.alloc(), Core, NOTHING, rows)
}

// A function that takes so many i32 and an i64, and gives nothing, up to its code. They are from 128 to 16,000.
fn many_parameters(rt: &impl Abort, alloc: Global, ints: u32) -> Result<Vec<u8>, Fail> {
    assert!(rt; ints >= 128 && ints <= 16_000);
    let mut front = Vec::new(alloc);
    front.push(0x01)?;
    put_u32(&mut front, ints + 6)?;
    front.extend_from_slice(b"\x01\x60")?;
    put_u32(&mut front, ints + 1)?;
    for _ in 0..ints {
        front.push(0x7F)?;
    }
    front.extend_from_slice(b"\x7e\0\x03\x02\x01\0")?;
    Ok(front)
}

#[test]
fn takes_locals_up_to_256_and_past_them(rt: HostRuntime) -> Result<(), Fail> {
    let rows: [&[u8]; 8] = [
        // 256 with the parameters, in one group, in two, and with groups of none
        b"\x01\xfe\x01\x7f\x20\xff\x01\x45\x1a\x0b",
        b"\x02\xfd\x01\x7f\x01\x7e\x20\xfe\x01\x45\x1a\x20\xff\x01\x50\x1a\x0b",
        b"\x03\0\x7d\xfe\x01\x7f\0\x7e\x20\xff\x01\x45\x1a\x0b",
        // one more
        b"\x01\xff\x01\x7f\x20\x80\x02\x45\x1a\x0b",
        b"\x02\xfe\x01\x7f\x01\x7e\x20\xff\x01\x45\x1a\x20\x80\x02\x50\x1a\x0b",
        b"\x03\xfe\x01\x7f\0\x7d\x01\x7e\x20\xff\x01\x45\x1a\x20\x80\x02\x50\x1a\x0b",
        // groups of two, of 300 and of one: the last of the first, both ends of the second, and the last
        b"\x03\x02\x7d\xac\x02\x7f\x01\x7e\x20\x03\x8b\x21\x02\x20\x04\x22\xaf\x02\x45\x1a\x20\xb0\x02\x50\x1a\x0b",
        // a group of none among those that are far
        b"\x03\xff\x01\x7f\0\x7e\x01\x7d\x20\x80\x02\x45\x1a\x20\x81\x02\x8b\x1a\x0b",
    ];
    passes_codes(&rt, rt.alloc(), Core, TWO_PARAMETERS, &rows)
}

#[test]
fn refuses_locals_past_256(rt: HostRuntime) -> Result<(), Fail> {
    let rows: &[Row] = &faults! {
        // one past the last of 256
        b"\x01\xfe\x01\x7f\x20\x80\x02\x1a\x0b" => UnknownLocal 0,
        b"\x02\xfd\x01\x7f\x01\x7e\x41\0\x21\x80\x02\x0b" => UnknownLocal 1,
        b"\x03\0\x7d\xfe\x01\x7f\0\x7e\x20\x80\x02\x1a\x0b" => UnknownLocal 0,
        // of 257
        b"\x01\xff\x01\x7f\x20\x81\x02\x1a\x0b" => UnknownLocal 0,
        b"\x02\xfe\x01\x7f\x01\x7e\x41\0\x22\x81\x02\x1a\x0b" => UnknownLocal 1,
        // of groups of two, of 300 and of one
        b"\x03\x02\x7d\xac\x02\x7f\x01\x7e\x20\xb1\x02\x1a\x0b" => UnknownLocal 0,
        // the type of the group in front, and of the one behind
        b"\x02\xfd\x01\x7f\x01\x7e\x20\xff\x01\x45\x1a\x0b" => TypeMismatch 1,
        b"\x02\xfe\x01\x7f\x01\x7e\x20\x80\x02\x45\x1a\x0b" => TypeMismatch 1,
        b"\x03\x02\x7d\xac\x02\x7f\x01\x7e\x20\x04\x8b\x1a\x0b" => TypeMismatch 1,
        b"\x03\x02\x7d\xac\x02\x7f\x01\x7e\x20\xaf\x02\x50\x1a\x0b" => TypeMismatch 1,
        b"\x03\x02\x7d\xac\x02\x7f\x01\x7e\x20\xb0\x02\x45\x1a\x0b" => TypeMismatch 1,
    };
    refuses_codes(&rt, rt.alloc(), Core, TWO_PARAMETERS, rows)
}

#[test]
fn tells_locals_behind_256_parameters(rt: HostRuntime) -> Result<(), Fail> {
    let front = many_parameters(&rt, rt.alloc(), 255)?;
    let rows: [&[u8]; 2] = [
        b"\0\x20\xfe\x01\x45\x1a\x20\xff\x01\x50\x1a\x0b",
        b"\x01\x01\x7d\x20\xff\x01\x50\x1a\x20\x80\x02\x8b\x1a\x0b",
    ];
    passes_codes(&rt, rt.alloc(), Core, front.as_slice(), &rows)?;
    let rows: &[Row] = &faults! {
        b"\0\x20\x80\x02\x1a\x0b" => UnknownLocal 0,
        b"\x01\x01\x7d\x20\x81\x02\x1a\x0b" => UnknownLocal 0,
        b"\x01\x01\x7d\x20\x80\x02\x50\x1a\x0b" => TypeMismatch 1,
    };
    refuses_codes(&rt, rt.alloc(), Core, front.as_slice(), rows)
}

#[test]
fn tells_locals_behind_257_parameters(rt: HostRuntime) -> Result<(), Fail> {
    let front = many_parameters(&rt, rt.alloc(), 256)?;
    let rows: [&[u8]; 2] = [
        b"\0\x20\0\x45\x1a\x20\x80\x02\x50\x1a\x0b",
        b"\x02\x01\x7d\x01\x7c\x20\x80\x02\x50\x1a\x20\x81\x02\x8b\x1a\x20\x82\x02\x99\x1a\x0b",
    ];
    passes_codes(&rt, rt.alloc(), Core, front.as_slice(), &rows)?;
    let rows: &[Row] = &faults! {
        b"\0\x20\x81\x02\x1a\x0b" => UnknownLocal 0,
        b"\x02\x01\x7d\x01\x7c\x20\x83\x02\x1a\x0b" => UnknownLocal 0,
        b"\0\x20\x80\x02\x45\x1a\x0b" => TypeMismatch 1,
        b"\x02\x01\x7d\x01\x7c\x20\x81\x02\x50\x1a\x0b" => TypeMismatch 1,
    };
    refuses_codes(&rt, rt.alloc(), Core, front.as_slice(), rows)
}

#[test]
fn takes_accesses(rt: HostRuntime) -> Result<(), Fail> {
    let rows: [&[u8]; 8] = [
        // alignments up to the width
        b"\0\x41\0\x28\x02\0\x1a\x0b",
        b"\0\x41\0\x29\x03\0\x1a\x0b",
        b"\0\x41\0\x2d\0\0\x1a\x41\0\x2f\x01\0\x1a\x0b",
        b"\0\x41\0\x35\x02\0\x50\x1a\x0b",
        // stores
        b"\0\x41\0\x41\0\x36\0\0\x0b",
        b"\0\x41\0\x42\0\x3c\0\x07\x0b",
        b"\0\x41\0\x44\0\0\0\0\0\0\0\0\x39\x03\xff\xff\xff\xff\x0f\x0b",
        // sizes
        b"\0\x3f\0\x40\0\x1a\x0b",
    ];
    passes_codes(&rt, rt.alloc(), Core, MEMORY, &rows)
}

#[test]
fn refuses_accesses(rt: HostRuntime) -> Result<(), Fail> {
    let rows: &[Row] = &faults! {
        // alignments above the width
        b"\0\x41\0\x28\x03\0\x1a\x0b" => Alignment 1,
        b"\0\x41\0\x2d\x01\0\x1a\x0b" => Alignment 1,
        b"\0\x41\0\x33\x02\0\x1a\x0b" => Alignment 1,
        b"\0\x41\0\x42\0\x37\x04\0\x0b" => Alignment 2,
        b"\0\x41\0\x28\xff\xff\xff\xff\x0f\0\x1a\x0b" => Alignment 1,
        // an alignment comes before operands
        b"\0\x28\x03\0\x1a\x0b" => Alignment 0,
        // operands
        b"\0\x28\x02\0\x1a\x0b" => StackUnderflow 0,
        b"\0\x42\0\x28\x02\0\x1a\x0b" => TypeMismatch 1,
        b"\0\x42\0\x41\0\x36\x02\0\x0b" => TypeMismatch 2,
        b"\0\x41\0\x41\0\x37\x03\0\x0b" => TypeMismatch 2,
    };
    refuses_codes(&rt, rt.alloc(), Core, MEMORY, rows)
}
