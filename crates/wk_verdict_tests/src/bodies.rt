//! Bodies that take nothing and give nothing, and the verdicts on them.

use crate::judged::{NOTHING, Row, faults, passes_codes, refuses_codes};
use std::test::Fail;
use wk_module::Profile::Core;

#[test]
fn takes_plain_instructions(rt: HostRuntime) -> Result<(), Fail> {
    let rows: [&[u8]; 11] = [
        // nothing, and an early return
        b"\0\x0b",
        b"\0\x0f\x0b",
        // operands of any type, where code is not reached
        b"\0\0\x1b\x1a\x0b",
        b"\0\0\x6a\x1a\x0b",
        b"\0\0\x41\0\x6a\x1a\x0b",
        b"\0\0\x0f\x42\0\x1a\x0b",
        b"\0\0\x41\0\x1b\x45\x1a\x0b",
        b"\0\0\x1a\x1a\x1a\x0b",
        // numbers
        b"\0\x42\0\x50\x1a\x43\0\0\0\0\xbb\x44\0\0\0\0\0\0\0\0\x62\x1a\x0b",
        b"\0\x42\0\x42\x01\x7c\xa7\x41\x02\x6a\xb2\x8d\x43\0\0\0\0\x5d\x1a\x0b",
        // the same type on both sides of a choice
        b"\0\x42\0\x42\x01\x41\0\x1b\x50\x1a\x0b",
    ];
    passes_codes(&rt, rt.alloc(), Core, NOTHING, &rows)
}

#[test]
fn refuses_operands(rt: HostRuntime) -> Result<(), Fail> {
    let rows: &[Row] = &faults! {
        // operands that are missing
        b"\0\x1a\x0b" => StackUnderflow 0,
        b"\0\x41\0\x6a\x0b" => StackUnderflow 1,
        // or stand outside of the block
        b"\0\x41\0\x02\x40\x41\0\x6a\x1a\x0b\x1a\x0b" => StackUnderflow 3,
        b"\0\x41\0\x02\x40\x45\x1a\x0b\x1a\x0b" => StackUnderflow 2,
        b"\0\x41\0\x41\0\x1b\x1a\x0b" => StackUnderflow 2,
        // the operand on top comes first
        b"\0\x42\0\x6a\x1a\x0b" => TypeMismatch 1,
        b"\0\x41\0\x42\0\x6a\x1a\x0b" => TypeMismatch 2,
        b"\0\x42\0\x41\0\x6a\x1a\x0b" => TypeMismatch 2,
        // a choice of two types, and one by an i64
        b"\0\x41\0\x42\0\x41\0\x1b\x1a\x0b" => TypeMismatch 3,
        b"\0\x41\0\x41\0\x42\0\x1b\x1a\x0b" => TypeMismatch 3,
        // operands that are left
        b"\0\x41\0\x0b" => StackHeight 1,
        b"\0\x0f\x45\x0b" => StackHeight 2,
    };
    refuses_codes(&rt, rt.alloc(), Core, NOTHING, rows)
}

#[test]
fn refuses_operands_of_dead_code(rt: HostRuntime) -> Result<(), Fail> {
    let rows: &[Row] = &faults! {
        // operands that were pushed keep their types
        b"\0\0\x41\0\x42\0\x6a\x1a\x0b" => TypeMismatch 3,
        b"\0\x0f\x42\0\x45\x1a\x0b" => TypeMismatch 2,
        b"\0\0\x42\0\x41\0\x1b\x45\x1a\x0b" => TypeMismatch 4,
        // so are immediates
        b"\0\0\x20\0\x1a\x0b" => UnknownLocal 1,
        b"\0\x0c\0\x0c\x01\x0b" => UnknownLabel 1,
        // a block within is reached anew
        b"\0\0\x02\x40\x1a\x0b\x0b" => StackUnderflow 2,
        // a block within that ends is left alive
        b"\0\x02\x40\0\x0b\x1a\x0b" => StackUnderflow 3,
    };
    refuses_codes(&rt, rt.alloc(), Core, NOTHING, rows)
}

#[test]
fn takes_blocks(rt: HostRuntime) -> Result<(), Fail> {
    let rows: [&[u8]; 9] = [
        // a branch
        b"\0\x41\0\x02\x40\x0c\0\x1a\x0b\x1a\x0b",
        // results
        b"\0\x02\x7f\x41\0\x0b\x1a\x0b",
        b"\0\x41\0\x04\x7e\x42\0\x05\x42\x01\x0b\x1a\x0b",
        b"\0\x03\x7d\x43\0\0\0\0\x0b\x1a\x0b",
        // an if without else, and one with an empty else
        b"\0\x41\0\x04\x40\x01\x0b\x0b",
        b"\0\x41\0\x04\x40\x05\x0b\x0b",
        // blocks in blocks
        b"\0\x02\x40\x03\x40\x41\0\x04\x40\x0c\x01\x05\x0c\x02\x0b\x0b\x0b\x0b",
        // a block that is not left
        b"\0\x02\x7f\0\x0b\x1a\x0b",
        b"\0\x41\0\x04\x7f\x41\x01\x05\0\x0b\x1a\x0b",
    ];
    passes_codes(&rt, rt.alloc(), Core, NOTHING, &rows)
}

#[test]
fn refuses_blocks(rt: HostRuntime) -> Result<(), Fail> {
    let rows: &[Row] = &faults! {
        // operands of the block around
        b"\0\x41\0\x02\x40\x1a\x0b\x1a\x0b" => StackUnderflow 2,
        b"\0\x41\0\x03\x40\x1a\x0b\x1a\x0b" => StackUnderflow 2,
        // results that are missing
        b"\0\x41\x01\x04\x7f\x41\x02\x0b\x1a\x0b" => StackUnderflow 3,
        b"\0\x02\x7f\x0b\x1a\x0b" => StackUnderflow 1,
        b"\0\x41\0\x04\x7f\x05\x41\0\x0b\x1a\x0b" => StackUnderflow 2,
        // results of another type
        b"\0\x02\x7f\x42\0\x0b\x1a\x0b" => TypeMismatch 2,
        b"\0\x41\0\x04\x7f\x41\0\x05\x42\0\x0b\x1a\x0b" => TypeMismatch 5,
        // operands that are left
        b"\0\x02\x40\x41\0\x0b\x0b" => StackHeight 2,
        b"\0\x41\0\x04\x40\x41\0\x05\x01\x0b\x0b" => StackHeight 3,
        b"\0\x41\0\x04\x40\x01\x05\x41\0\x0b\x0b" => StackHeight 5,
    };
    refuses_codes(&rt, rt.alloc(), Core, NOTHING, rows)
}

#[test]
fn refuses_ifs(rt: HostRuntime) -> Result<(), Fail> {
    let rows: &[Row] = &faults! {
        // a test that is missing, and one of another type
        b"\0\x04\x40\x0b\x0b" => StackUnderflow 0,
        b"\0\x42\0\x04\x40\x0b\x0b" => TypeMismatch 1,
        // an else without instructions is as none: it is no token
        b"\0\x41\x01\x04\x7f\x41\x02\x05\x0b\x1a\x0b" => StackUnderflow 3,
        b"\0\x41\0\x04\x40\x05\x0b\x1a\x0b" => StackUnderflow 3,
        // what is left behind a block
        b"\0\x02\x7f\x41\0\x0b\x0b" => StackHeight 3,
        b"\0\x02\x7f\x41\0\x0b\x50\x1a\x0b" => TypeMismatch 3,
    };
    refuses_codes(&rt, rt.alloc(), Core, NOTHING, rows)
}

#[test]
fn takes_branches(rt: HostRuntime) -> Result<(), Fail> {
    let rows: [&[u8]; 10] = [
        // to a block with its result
        b"\0\x02\x7f\x41\0\x0c\0\x0b\x1a\x0b",
        // over operands that are left
        b"\0\x02\x7f\x41\0\x41\x01\x0c\0\x0b\x1a\x0b",
        // to a loop, which takes nothing
        b"\0\x03\x40\x0c\0\x0b\x0b",
        b"\0\x03\x7f\x0c\0\x0b\x1a\x0b",
        // if
        b"\0\x02\x7f\x41\0\x41\x01\x0d\0\x0b\x1a\x0b",
        b"\0\x03\x40\x41\0\x0d\0\x0b\x0b",
        // tables
        b"\0\x02\x40\x02\x40\x41\0\x0e\x02\0\x01\0\x0b\x0b\x0b",
        b"\0\x41\0\x0e\0\0\x0b",
        b"\0\x02\x7f\x41\x01\x41\0\x0e\x01\0\0\x0b\x1a\x0b",
        // to the end of the function
        b"\0\x02\x40\x02\x40\x0c\x02\x0b\x0b\x0b",
    ];
    passes_codes(&rt, rt.alloc(), Core, NOTHING, &rows)
}

#[test]
fn refuses_branches(rt: HostRuntime) -> Result<(), Fail> {
    let rows: &[Row] = &faults! {
        // labels that are not there
        b"\0\x0c\x01\x0b" => UnknownLabel 0,
        b"\0\x41\0\x0d\x01\x0b" => UnknownLabel 1,
        b"\0\x41\0\x0e\x01\x05\0\x0b" => UnknownLabel 1,
        b"\0\x41\0\x0e\x01\0\x05\x0b" => UnknownLabel 1,
        // operands that are missing
        b"\0\x02\x7f\x0c\0\x0b\x1a\x0b" => StackUnderflow 1,
        b"\0\x0d\0\x0b" => StackUnderflow 0,
        b"\0\x02\x7f\x41\0\x0d\0\x41\0\x0b\x1a\x0b" => StackUnderflow 2,
        // operands of another type
        b"\0\x02\x7f\x42\0\x0c\0\x0b\x1a\x0b" => TypeMismatch 2,
        b"\0\x42\0\x0d\0\x0b" => TypeMismatch 1,
        b"\0\x42\0\x0e\0\0\x0b" => TypeMismatch 1,
    };
    refuses_codes(&rt, rt.alloc(), Core, NOTHING, rows)
}

#[test]
fn refuses_branch_tables(rt: HostRuntime) -> Result<(), Fail> {
    let rows: &[Row] = &faults! {
        // labels of two types
        b"\0\x02\x7f\x41\0\x41\0\x0e\x01\0\x01\x0b\x1a\x0b" => LabelTypes 3,
        b"\0\x02\x7f\x03\x7f\x41\0\x41\0\x0e\x01\0\x01\x0b\x0b\x1a\x0b" => LabelTypes 4,
        // where code is not reached, too
        b"\0\x02\x7f\x02\x7d\0\x0e\x01\0\x01\x0b\x1a\x41\0\x0b\x1a\x0b" => LabelTypes 3,
    };
    refuses_codes(&rt, rt.alloc(), Core, NOTHING, rows)
}

#[test]
fn refuses_labels_of_branch_tables_first(rt: HostRuntime) -> Result<(), Fail> {
    let rows: &[Row] = &faults! {
        // labels that are not there come before those of two types
        b"\0\x02\x7f\x41\0\x0e\x02\0\x01\x07\x0b\x1a\x0b" => UnknownLabel 2,
        b"\0\x02\x7f\x41\0\x0e\x02\x01\x07\0\x0b\x1a\x0b" => UnknownLabel 2,
        // labels come before operands
        b"\0\x02\x7f\x0e\x01\0\x01\x0b\x1a\x0b" => LabelTypes 1,
        b"\0\x02\x7f\x0e\x01\0\0\x0b\x1a\x0b" => StackUnderflow 1,
        b"\0\x02\x7f\x41\0\x0e\x01\0\0\x0b\x1a\x0b" => StackUnderflow 2,
    };
    refuses_codes(&rt, rt.alloc(), Core, NOTHING, rows)
}
