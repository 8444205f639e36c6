//! Bodies that refer to what is outside of them, and the verdicts on them.

use crate::judged::{NOTHING, Row, faults, passes_codes, refuses_codes};
use std::test::Fail;
use wk_module::Profile::Core;

// A function that gives an i32.
const ONE_RESULT: &[u8] = b"\x01\x05\x01\x60\0\x01\x7f\x03\x02\x01\0";

// A function that gives an i64.
const LONG_RESULT: &[u8] = b"\x01\x05\x01\x60\0\x01\x7e\x03\x02\x01\0";

// Types [] -> [], [i32] -> [] and [i64] -> [f64]; imported a table, a function of the second type, a memory, a constant i64, a
// function of the third type and an f32; a function of the first type and an i32.
const MIXED: &[u8] =
    b"\x01\x0d\x03\x60\0\0\x60\x01\x7f\0\x60\x01\x7e\x01\x7c\x02\x1e\x06\0\0\x01\x70\0\0\0\0\0\x01\0\0\x02\0\0\0\0\x03\x7e\0\0\0\0\x02\0\0\x03\x7d\x01\x03\x02\x01\0\x06\x06\x01\x7f\x01\x41\0\x0b";

#[test]
fn takes_results(rt: HostRuntime) -> Result<(), Fail> {
    let rows: [&[u8]; 7] = [
        // a result
        b"\0\x41\0\x0b",
        // that of a stop
        b"\0\0\x0b",
        // by a return or a branch, over operands that are left
        b"\0\x41\0\x0f\x0b",
        b"\0\x42\0\x41\0\x0f\x0b",
        b"\0\x42\0\x41\0\x0c\0\x0b",
        b"\0\x02\x40\x41\0\x0c\x01\x0b\x41\x01\x0b",
        b"\0\x41\0\x41\x01\x0d\0\x0b",
    ];
    passes_codes(&rt, rt.alloc(), Core, ONE_RESULT, &rows)
}

#[test]
fn refuses_results(rt: HostRuntime) -> Result<(), Fail> {
    let rows: &[Row] = &faults! {
        // none, another, and two
        b"\0\x0b" => StackUnderflow 0,
        b"\0\x42\0\x0b" => TypeMismatch 1,
        b"\0\x41\0\x41\0\x0b" => StackHeight 2,
        // another where code is not reached
        b"\0\0\x42\0\x0b" => TypeMismatch 2,
        // none at a return, and another
        b"\0\x0f\x0b" => StackUnderflow 0,
        b"\0\x42\0\x0f\x0b" => TypeMismatch 1,
        // none at a branch
        b"\0\x41\x01\x0d\0\x41\0\x0b" => StackUnderflow 1,
        // labels of two types, that of a block and that of the function
        b"\0\x02\x40\x41\0\x41\0\x0e\x01\0\x01\x0b\x41\0\x0b" => LabelTypes 3,
    };
    refuses_codes(&rt, rt.alloc(), Core, ONE_RESULT, rows)
}

#[test]
fn takes_long_results(rt: HostRuntime) -> Result<(), Fail> {
    let rows: [&[u8]; 4] = [
        // chosen where code is not reached
        b"\0\0\x1b\x0b",
        b"\0\0\x42\0\x41\0\x1b\x0b",
        b"\0\0\x0f\x0b",
        b"\0\x42\0\x42\x01\x7c\x0b",
    ];
    passes_codes(&rt, rt.alloc(), Core, LONG_RESULT, &rows)
}

// Imports of other kinds take no indices.
#[test]
fn takes_references(rt: HostRuntime) -> Result<(), Fail> {
    let rows: [&[u8]; 7] = [
        // functions
        b"\0\x41\0\x10\0\x0b",
        b"\0\x42\0\x10\x01\x1a\x10\x02\x0b",
        // functions of the table
        b"\0\x41\0\x11\0\0\x0b",
        b"\0\x42\0\x41\0\x11\x02\0\x99\x1a\x0b",
        // globals
        b"\0\x23\0\x50\x1a\x0b",
        b"\0\x43\0\0\0\0\x24\x01\x23\x02\x24\x02\x0b",
        b"\0\x23\x01\x8b\x24\x01\x0b",
    ];
    passes_codes(&rt, rt.alloc(), Core, MIXED, &rows)
}

#[test]
fn refuses_calls(rt: HostRuntime) -> Result<(), Fail> {
    let rows: &[Row] = &faults! {
        // functions
        b"\0\x10\x03\x0b" => UnknownFunc 0,
        b"\0\x10\0\x0b" => StackUnderflow 0,
        b"\0\x41\0\x10\x01\x1a\x0b" => TypeMismatch 1,
        b"\0\x42\0\x10\x01\x45\x1a\x0b" => TypeMismatch 2,
        // functions of the table
        b"\0\x41\0\x11\x03\0\x0b" => UnknownType 1,
        b"\0\x42\0\x11\0\0\x0b" => TypeMismatch 1,
        b"\0\x41\0\x11\x02\0\x1a\x0b" => StackUnderflow 1,
    };
    refuses_codes(&rt, rt.alloc(), Core, MIXED, rows)
}

#[test]
fn refuses_global_instructions(rt: HostRuntime) -> Result<(), Fail> {
    let rows: &[Row] = &faults! {
        // globals that are not there
        b"\0\x23\x03\x1a\x0b" => UnknownGlobal 0,
        b"\0\x41\0\x24\x03\x0b" => UnknownGlobal 1,
        // one that is not set
        b"\0\x42\0\x24\0\x0b" => GlobalImmutable 1,
        b"\0\x24\0\x0b" => GlobalImmutable 0,
        // another type
        b"\0\x41\0\x24\x01\x0b" => TypeMismatch 1,
        b"\0\x23\0\x45\x1a\x0b" => TypeMismatch 1,
        // nothing to set
        b"\0\x24\x02\x0b" => StackUnderflow 0,
    };
    refuses_codes(&rt, rt.alloc(), Core, MIXED, rows)
}

#[test]
fn takes_calls_of_the_function_itself(rt: HostRuntime) -> Result<(), Fail> {
    let rows: [&[u8]; 2] = [b"\0\x10\0\x0b", b"\0\x10\0\x10\0\x0b"];
    passes_codes(&rt, rt.alloc(), Core, NOTHING, &rows)
}

#[test]
fn refuses_what_is_not_there(rt: HostRuntime) -> Result<(), Fail> {
    let rows: &[Row] = &faults! {
        // calls
        b"\0\x10\x7f\x0b" => UnknownFunc 0,
        b"\0\x10\0\x10\x01\x0b" => UnknownFunc 1,
        // a type, and then the table
        b"\0\x41\0\x11\x01\0\x0b" => UnknownType 1,
        b"\0\x41\0\x11\0\0\x0b" => UnknownTable 1,
        // the memory
        b"\0\x3f\0\x1a\x0b" => UnknownMemory 0,
        b"\0\x41\0\x40\0\x1a\x0b" => UnknownMemory 1,
        b"\0\x41\0\x28\x03\0\x1a\x0b" => UnknownMemory 1,
        b"\0\x41\0\x41\0\x36\x02\0\x0b" => UnknownMemory 2,
        // globals
        b"\0\x23\0\x1a\x0b" => UnknownGlobal 0,
        b"\0\x24\0\x0b" => UnknownGlobal 0,
    };
    refuses_codes(&rt, rt.alloc(), Core, NOTHING, rows)
}
