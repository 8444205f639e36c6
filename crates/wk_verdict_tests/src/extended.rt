//! Bodies of the other profile, and the verdicts on them.

use crate::judged::{NOTHING, Row, faults, passes_codes, refuses_codes};
use std::test::Fail;
use wk_module::Profile::Extended;

// A function that takes nothing and gives nothing, and a type [i32] -> [i32].
const SAME: &[u8] = b"\x01\x09\x02\x60\0\0\x60\x01\x7f\x01\x7f\x03\x02\x01\0";

// The function, and a type [i32] -> [i64].
const OTHER: &[u8] = b"\x01\x09\x02\x60\0\0\x60\x01\x7f\x01\x7e\x03\x02\x01\0";

// The function, and types [i32, i64] -> [f32, i32] and [] -> [i32, i32].
const MANY: &[u8] =
    b"\x01\x10\x03\x60\0\0\x60\x02\x7f\x7e\x02\x7d\x7f\x60\0\x02\x7f\x7f\x03\x02\x01\0";

#[test]
fn takes_blocks_that_take_operands(rt: HostRuntime) -> Result<(), Fail> {
    let rows: [&[u8]; 7] = [
        // blocks that take an operand
        b"\0\x41\0\x02\x01\x45\x0b\x1a\x0b",
        b"\0\x41\0\x03\x01\x0c\0\x0b\x1a\x0b",
        b"\0\x41\0\x41\x01\x04\x01\x0b\x1a\x0b",
        b"\0\x41\0\x41\x01\x04\x01\x45\x05\x41\x02\x6a\x0b\x1a\x0b",
        // no operands, by an index
        b"\0\x02\0\x0b\x0b",
        // extensions of signs
        b"\0\x41\x80\x01\xc0\x1a\x0b",
        b"\0\x42\0\xc4\x50\x1a\x0b",
    ];
    passes_codes(&rt, rt.alloc(), Extended, SAME, &rows)
}

#[test]
fn refuses_blocks_that_take_operands(rt: HostRuntime) -> Result<(), Fail> {
    let rows: &[Row] = &faults! {
        // an operand that is missing
        b"\0\x02\x01\x0b\x1a\x0b" => StackUnderflow 0,
        b"\0\x41\x01\x04\x01\x0b\x1a\x0b" => StackUnderflow 1,
        // one of another type
        b"\0\x42\0\x02\x01\x0b\x1a\x0b" => TypeMismatch 1,
        // one that is taken, and not given
        b"\0\x41\0\x02\x01\x1a\x0b\x1a\x0b" => StackUnderflow 3,
        b"\0\x41\0\x03\x01\x1a\x0c\0\x0b\x1a\x0b" => StackUnderflow 3,
        // a type that is not there
        b"\0\x41\0\x02\x02\x45\x0b\x1a\x0b" => UnknownType 1,
        b"\0\x04\x05\x0b\x0b" => UnknownType 0,
        // an extension of a sign
        b"\0\x42\0\xc0\x1a\x0b" => TypeMismatch 1,
    };
    refuses_codes(&rt, rt.alloc(), Extended, SAME, rows)
}

#[test]
fn refuses_other_results(rt: HostRuntime) -> Result<(), Fail> {
    let rows: &[Row] = &faults! {
        // no else, where parameters are no results
        b"\0\x41\0\x41\x01\x04\x01\x1a\x42\0\x0b\x1a\x0b" => TypeMismatch 5,
        // a loop whose label takes its parameter
        b"\0\x41\0\x03\x01\x1a\x42\0\x0c\0\x0b\x1a\x0b" => TypeMismatch 4,
    };
    refuses_codes(&rt, rt.alloc(), Extended, OTHER, rows)
}

#[test]
fn takes_many_results(rt: HostRuntime) -> Result<(), Fail> {
    let rows: [&[u8]; 4] = [
        // in order
        b"\0\x41\0\x42\0\x02\x01\x1a\x1a\x43\0\0\0\0\x41\0\x0b\x1a\x8b\x1a\x0b",
        b"\0\x41\0\x42\0\x02\x01\x50\x0c\x01\x0b\x1a\x1a\x0b",
        b"\0\x02\x02\x41\0\x41\x01\x0b\x6a\x1a\x0b",
        // of a branch
        b"\0\x02\x02\x41\0\x41\x01\x41\x02\x0d\0\x0b\x6a\x1a\x0b",
    ];
    passes_codes(&rt, rt.alloc(), Extended, MANY, &rows)
}

#[test]
fn refuses_many_results(rt: HostRuntime) -> Result<(), Fail> {
    let rows: &[Row] = &faults! {
        // parameters in another order
        b"\0\x42\0\x41\0\x02\x01\0\x0b\x1a\x1a\x0b" => TypeMismatch 2,
        // results in another order
        b"\0\x41\0\x42\0\x02\x01\x1a\x1a\x41\0\x43\0\0\0\0\x0b\x1a\x1a\x0b" => TypeMismatch 7,
        // one result of two
        b"\0\x02\x02\x41\0\x0b\x1a\x1a\x0b" => StackUnderflow 2,
        // three of two
        b"\0\x02\x02\x41\0\x41\0\x41\0\x0b\x1a\x1a\x0b" => StackHeight 4,
        // a branch with one of two
        b"\0\x02\x02\x41\0\x0c\0\x0b\x1a\x1a\x0b" => StackUnderflow 2,
    };
    refuses_codes(&rt, rt.alloc(), Extended, MANY, rows)
}

#[test]
fn refuses_unknown_types(rt: HostRuntime) -> Result<(), Fail> {
    let rows: &[Row] = &faults! {
        b"\0\x41\0\x02\x01\x45\x0b\x1a\x0b" => UnknownType 1,
        b"\0\x02\x40\x02\x40\x03\x07\x0b\x0b\x0b\x0b" => UnknownType 2,
    };
    refuses_codes(&rt, rt.alloc(), Extended, NOTHING, rows)
}
