//! Globals and segments, and the verdicts on their constant expressions.

use crate::judged::{passes, refuses};
use std::test::Fail;
use wk_module::Profile;

#[test]
fn takes_globals(rt: HostRuntime) -> Result<(), Fail> {
    let rows: [&[u8]; 2] = [
        // a constant of each type
        b"\x06\x1f\x04\x7f\0\x41\x7f\x0b\x7e\x01\x42\0\x0b\x7d\0\x43\0\0\0\0\x0b\x7c\x01\x44\0\0\0\0\0\0\0\0\x0b",
        // an imported constant global
        b"\x02\x10\x03\0\0\x03\x7f\0\0\0\x03\x7f\x01\0\0\x03\x7e\0\x06\x0b\x02\x7f\x01\x23\0\x0b\x7e\0\x23\x02\x0b",
    ];
    passes(&rt, rt.alloc(), Profile::Core, &rows)
}

#[test]
fn refuses_globals(rt: HostRuntime) -> Result<(), Fail> {
    let rows: [(&[u8], &str); 7] = [
        // none, too many, and another type
        (
            b"\x06\x04\x01\x7f\0\x0b",
            "V13 StackUnderflow at section 6 item 0 token 0",
        ),
        (
            b"\x06\x08\x01\x7f\0\x41\0\x41\0\x0b",
            "V15 StackHeight at section 6 item 0 token 2",
        ),
        (
            b"\x06\x0b\x02\x7f\0\x41\0\x0b\x7f\x01\x42\0\x0b",
            "V14 TypeMismatch at section 6 item 1 token 1",
        ),
        (
            b"\x02\x10\x03\0\0\x03\x7f\0\0\0\x03\x7f\x01\0\0\x03\x7e\0\x06\x06\x01\x7f\0\x23\x02\x0b",
            "V14 TypeMismatch at section 6 item 0 token 1",
        ),
        // own globals, and none
        (
            b"\x06\x0b\x02\x7f\0\x41\0\x0b\x7f\0\x23\0\x0b",
            "V10 UnknownGlobal at section 6 item 1 token 0",
        ),
        (
            b"\x02\x10\x03\0\0\x03\x7f\0\0\0\x03\x7f\x01\0\0\x03\x7e\0\x06\x0b\x02\x7f\0\x23\0\x0b\x7f\0\x23\x03\x0b",
            "V10 UnknownGlobal at section 6 item 1 token 0",
        ),
        // an imported global that may be set
        (
            b"\x02\x10\x03\0\0\x03\x7f\0\0\0\x03\x7f\x01\0\0\x03\x7e\0\x06\x06\x01\x7f\0\x23\x01\x0b",
            "V19 ConstantExpected at section 6 item 0 token 0",
        ),
    ];
    refuses(&rt, rt.alloc(), &rows)
}

#[test]
fn refuses_what_is_not_constant(rt: HostRuntime) -> Result<(), Fail> {
    let rows: [(&[u8], &str); 5] = [
        // an addition, a block, no operation, a stop and a call
        (
            b"\x06\x09\x01\x7f\0\x41\0\x41\0\x6a\x0b",
            "V19 ConstantExpected at section 6 item 0 token 2",
        ),
        (
            b"\x06\x09\x01\x7f\0\x02\x7f\x41\0\x0b\x0b",
            "V19 ConstantExpected at section 6 item 0 token 0",
        ),
        (
            b"\x06\x07\x01\x7f\0\x41\0\x01\x0b",
            "V19 ConstantExpected at section 6 item 0 token 1",
        ),
        (
            b"\x06\x05\x01\x7f\0\0\x0b",
            "V19 ConstantExpected at section 6 item 0 token 0",
        ),
        (
            b"\x01\x05\x01\x60\0\x01\x7f\x02\x05\x01\0\0\0\0\x06\x06\x01\x7f\0\x10\0\x0b",
            "V19 ConstantExpected at section 6 item 0 token 0",
        ),
    ];
    refuses(&rt, rt.alloc(), &rows)
}

#[test]
fn refuses_what_is_not_constant_first(rt: HostRuntime) -> Result<(), Fail> {
    let rows: [(&[u8], &str); 3] = [
        // an instruction that is not constant comes before all faults of typing
        (
            b"\x06\x09\x01\x7f\0\x42\0\x42\0\x6a\x0b",
            "V19 ConstantExpected at section 6 item 0 token 2",
        ),
        (
            b"\x06\x07\x01\x7f\0\x23\0\x01\x0b",
            "V19 ConstantExpected at section 6 item 0 token 1",
        ),
        (
            b"\x06\x08\x01\x7f\0\x41\0\x20\0\x0b",
            "V19 ConstantExpected at section 6 item 0 token 1",
        ),
    ];
    refuses(&rt, rt.alloc(), &rows)
}

#[test]
fn takes_elements(rt: HostRuntime) -> Result<(), Fail> {
    let rows: [&[u8]; 4] = [
        // under a table of the module, and an imported one
        b"\x01\x04\x01\x60\0\0\x03\x02\x01\0\x04\x04\x01\x70\0\x01\x08\x01\0\x09\x07\x01\0\x41\0\x0b\x01\0\x0a\x04\x01\x02\0\x0b",
        b"\x01\x04\x01\x60\0\0\x02\x07\x01\0\0\x01\x70\0\0\x03\x02\x01\0\x09\x07\x01\0\x41\0\x0b\x01\0\x0a\x04\x01\x02\0\x0b",
        // no functions, and some twice
        b"\x01\x04\x01\x60\0\0\x03\x02\x01\0\x04\x04\x01\x70\0\0\x09\x0e\x02\0\x41\x7f\x0b\0\0\x41\0\x0b\x03\0\0\0\x0a\x04\x01\x02\0\x0b",
        // at a constant global, imported or not
        b"\x02\x10\x03\0\0\x03\x7f\0\0\0\x03\x7f\x01\0\0\x03\x7e\0\x04\x04\x01\x70\0\0\x06\x06\x01\x7f\0\x41\0\x0b\x09\x0b\x02\0\x23\0\x0b\0\0\x23\x03\x0b\0",
    ];
    passes(&rt, rt.alloc(), Profile::Core, &rows)
}

#[test]
fn refuses_elements(rt: HostRuntime) -> Result<(), Fail> {
    let rows: [(&[u8], &str); 6] = [
        // a function that is not there
        (
            b"\x01\x04\x01\x60\0\0\x03\x02\x01\0\x04\x04\x01\x70\0\x01\x08\x01\0\x09\x07\x01\0\x41\0\x0b\x01\x05\x0a\x04\x01\x02\0\x0b",
            "V7 UnknownFunc at section 9 item 0",
        ),
        (
            b"\x01\x04\x01\x60\0\0\x03\x02\x01\0\x04\x04\x01\x70\0\x01\x09\x0e\x02\0\x41\0\x0b\x01\0\0\x41\0\x0b\x02\0\x01\x0a\x04\x01\x02\0\x0b",
            "V7 UnknownFunc at section 9 item 1",
        ),
        // no table, and one more
        (
            b"\x01\x04\x01\x60\0\0\x03\x02\x01\0\x08\x01\0\x09\x07\x01\0\x41\0\x0b\x01\0\x0a\x04\x01\x02\0\x0b",
            "V8 UnknownTable at section 9 item 0",
        ),
        (
            b"\x04\x04\x01\x70\0\0\x09\x06\x01\x01\x41\0\x0b\0",
            "V8 UnknownTable at section 9 item 0",
        ),
        // the start function alone, and in front of that
        (
            b"\x01\x04\x01\x60\0\0\x03\x02\x01\0\x04\x04\x01\x70\0\x01\x08\x01\x01\x09\x07\x01\0\x41\0\x0b\x01\0\x0a\x04\x01\x02\0\x0b",
            "V7 UnknownFunc at section 8 item 0",
        ),
        (
            b"\x01\x04\x01\x60\0\0\x03\x02\x01\0\x04\x04\x01\x70\0\x01\x08\x01\x01\x09\x07\x01\0\x41\0\x0b\x01\x05\x0a\x04\x01\x02\0\x0b",
            "V7 UnknownFunc at section 8 item 0",
        ),
    ];
    refuses(&rt, rt.alloc(), &rows)
}

#[test]
fn refuses_offsets(rt: HostRuntime) -> Result<(), Fail> {
    let rows: [(&[u8], &str); 5] = [
        // offsets
        (
            b"\x04\x04\x01\x70\0\0\x09\x06\x01\0\x42\0\x0b\0",
            "V14 TypeMismatch at section 9 item 0 token 1",
        ),
        (
            b"\x04\x04\x01\x70\0\0\x09\x0d\x02\0\x41\0\x0b\0\0\x41\0\x41\0\x0b\0",
            "V15 StackHeight at section 9 item 1 token 2",
        ),
        (
            b"\x04\x04\x01\x70\0\0\x06\x06\x01\x7f\x01\x41\0\x0b\x09\x06\x01\0\x23\0\x0b\0",
            "V19 ConstantExpected at section 9 item 0 token 0",
        ),
        // the table, the offset and the functions, in this order
        (
            b"\x09\x06\x01\0\x01\x0b\x01\0",
            "V8 UnknownTable at section 9 item 0",
        ),
        (
            b"\x04\x04\x01\x70\0\0\x09\x07\x01\0\x23\0\x0b\x01\0",
            "V10 UnknownGlobal at section 9 item 0 token 0",
        ),
    ];
    refuses(&rt, rt.alloc(), &rows)
}

#[test]
fn takes_data(rt: HostRuntime) -> Result<(), Fail> {
    let rows: [&[u8]; 2] = [
        // at a constant global of the module
        b"\x05\x03\x01\0\x01\x06\x06\x01\x7f\0\x41\0\x0b\x0b\x06\x01\0\x23\0\x0b\0",
        // in an imported memory
        b"\x02\x06\x01\0\0\x02\0\0\x0b\x0c\x02\0\x41\0\x0b\x01\xff\0\x41\0\x0b\0",
    ];
    passes(&rt, rt.alloc(), Profile::Core, &rows)
}

#[test]
fn refuses_data(rt: HostRuntime) -> Result<(), Fail> {
    let rows: [(&[u8], &str); 7] = [
        // no memory, and one more
        (
            b"\x0b\x06\x01\0\x41\0\x0b\0",
            "V9 UnknownMemory at section 11 item 0",
        ),
        (
            b"\x05\x03\x01\0\0\x0b\x0b\x02\0\x41\0\x0b\0\x01\x41\0\x0b\0",
            "V9 UnknownMemory at section 11 item 1",
        ),
        // offsets
        (
            b"\x05\x03\x01\0\0\x0b\x04\x01\0\x0b\0",
            "V13 StackUnderflow at section 11 item 0 token 0",
        ),
        (
            b"\x05\x03\x01\0\0\x0b\x12\x02\0\x41\0\x0b\0\0\x44\0\0\0\0\0\0\0\0\x0b\0",
            "V14 TypeMismatch at section 11 item 1 token 1",
        ),
        (
            b"\x05\x03\x01\0\0\x06\x06\x01\x7f\x01\x41\0\x0b\x0b\x06\x01\0\x23\0\x0b\0",
            "V19 ConstantExpected at section 11 item 0 token 0",
        ),
        (
            b"\x05\x03\x01\0\0\x0b\x06\x01\0\x23\0\x0b\0",
            "V10 UnknownGlobal at section 11 item 0 token 0",
        ),
        // the memory comes before the offset
        (
            b"\x0b\x05\x01\0\x01\x0b\0",
            "V9 UnknownMemory at section 11 item 0",
        ),
    ];
    refuses(&rt, rt.alloc(), &rows)
}
