//! What is asked of each section's items but code, and the verdicts on them.

use crate::judged::{passes, refuses};
use std::test::Fail;
use wk_module::Profile;

#[test]
fn takes_imports(rt: HostRuntime) -> Result<(), Fail> {
    let rows: [&[u8]; 4] = [
        // a function of the last type
        b"\x01\x09\x02\x60\x01\x7f\0\x60\0\x01\x7e\x02\x07\x01\x01\x61\x01\x62\0\x01",
        // a table and a memory
        b"\x02\x0d\x02\0\0\x01\x70\0\x01\0\0\x02\x01\0\x01",
        // globals of both kinds, and one name for all
        b"\x02\x10\x03\0\0\x03\x7f\0\0\0\x03\x7f\x01\0\0\x03\x7c\x01",
        // as many pages as may be, and a table of any size
        b"\x02\x16\x02\0\0\x02\x01\x80\x80\x04\x80\x80\x04\0\0\x01\x70\x01\0\xff\xff\xff\xff\x0f",
    ];
    passes(&rt, rt.alloc(), Profile::Core, &rows)
}

#[test]
fn refuses_imports(rt: HostRuntime) -> Result<(), Fail> {
    let rows: [(&[u8], &str); 6] = [
        // types that are not there
        (
            b"\x02\x05\x01\0\0\0\0",
            "V2 UnknownType at section 2 item 0",
        ),
        (
            b"\x01\x04\x01\x60\0\0\x02\x0e\x03\0\0\0\0\0\0\x03\x7f\0\0\0\0\x01",
            "V2 UnknownType at section 2 item 2",
        ),
        // limits
        (
            b"\x02\x08\x01\0\0\x01\x70\x01\x02\x01",
            "V3 LimitsOrder at section 2 item 0",
        ),
        (
            b"\x02\x0c\x02\0\0\x03\x7f\0\0\0\x02\x01\x02\x01",
            "V3 LimitsOrder at section 2 item 1",
        ),
        (
            b"\x02\x08\x01\0\0\x02\0\x81\x80\x04",
            "V4 MemoryRange at section 2 item 0",
        ),
        (
            b"\x02\x09\x01\0\0\x02\x01\0\x81\x80\x04",
            "V4 MemoryRange at section 2 item 0",
        ),
    ];
    refuses(&rt, rt.alloc(), &rows)
}

#[test]
fn refuses_second_imports(rt: HostRuntime) -> Result<(), Fail> {
    let rows: [(&[u8], &str); 4] = [
        // a second table, and a second memory
        (
            b"\x02\x12\x03\0\0\x01\x70\0\0\0\0\x02\0\0\0\0\x01\x70\0\0",
            "V5 TooManyTables at section 2 item 2",
        ),
        (
            b"\x02\x11\x03\0\0\x02\0\0\0\0\x01\x70\0\0\0\0\x02\0\0",
            "V6 TooManyMemories at section 2 item 2",
        ),
        // what is asked first
        (
            b"\x02\x0e\x02\0\0\x01\x70\0\0\0\0\x01\x70\x01\x02\x01",
            "V3 LimitsOrder at section 2 item 1",
        ),
        (
            b"\x02\x0b\x01\0\0\x02\x01\x81\x80\x04\x80\x80\x04",
            "V3 LimitsOrder at section 2 item 0",
        ),
    ];
    refuses(&rt, rt.alloc(), &rows)
}

#[test]
fn refuses_functions(rt: HostRuntime) -> Result<(), Fail> {
    let rows: [(&[u8], &str); 3] = [
        // types that are not there
        (
            b"\x01\x04\x01\x60\0\0\x03\x03\x02\0\x01\x0a\x07\x02\x02\0\x0b\x02\0\x0b",
            "V2 UnknownType at section 3 item 1",
        ),
        (
            b"\x03\x02\x01\0\x0a\x04\x01\x02\0\x0b",
            "V2 UnknownType at section 3 item 0",
        ),
        (
            b"\x01\x04\x01\x60\0\0\x03\x08\x03\0\xff\xff\xff\xff\x0f\x07\x0a\x0a\x03\x02\0\x0b\x02\0\x0b\x02\0\x0b",
            "V2 UnknownType at section 3 item 1",
        ),
    ];
    refuses(&rt, rt.alloc(), &rows)
}

#[test]
fn takes_tables_and_memories(rt: HostRuntime) -> Result<(), Fail> {
    let rows: [&[u8]; 5] = [
        // a memory of the most pages
        b"\x05\x05\x01\0\x80\x80\x04",
        b"\x05\x08\x01\x01\x80\x80\x04\x80\x80\x04",
        // a table of any size
        b"\x04\x0d\x01\x70\x01\xff\xff\xff\xff\x0f\xff\xff\xff\xff\x0f",
        // an imported table beside an own memory
        b"\x02\x07\x01\0\0\x01\x70\0\0\x05\x03\x01\0\0",
        // an imported memory beside an own table
        b"\x02\x06\x01\0\0\x02\0\0\x04\x05\x01\x70\x01\0\0",
    ];
    passes(&rt, rt.alloc(), Profile::Core, &rows)
}

#[test]
fn refuses_sizes(rt: HostRuntime) -> Result<(), Fail> {
    let rows: [(&[u8], &str); 4] = [
        // a memory of a page more
        (
            b"\x05\x05\x01\0\x81\x80\x04",
            "V4 MemoryRange at section 5 item 0",
        ),
        (
            b"\x05\x06\x01\x01\0\x81\x80\x04",
            "V4 MemoryRange at section 5 item 0",
        ),
        // limits
        (
            b"\x04\x05\x01\x70\x01\x01\0",
            "V3 LimitsOrder at section 4 item 0",
        ),
        (
            b"\x05\x0a\x01\x01\xff\xff\xff\xff\x0f\x80\x80\x04",
            "V3 LimitsOrder at section 5 item 0",
        ),
    ];
    refuses(&rt, rt.alloc(), &rows)
}

#[test]
fn refuses_second_tables_and_memories(rt: HostRuntime) -> Result<(), Fail> {
    let rows: [(&[u8], &str); 6] = [
        // a second table, own or behind an imported one
        (
            b"\x04\x07\x02\x70\0\0\x70\0\0",
            "V5 TooManyTables at section 4 item 1",
        ),
        (
            b"\x02\x07\x01\0\0\x01\x70\0\0\x04\x04\x01\x70\0\0",
            "V5 TooManyTables at section 4 item 0",
        ),
        // a second memory, own or behind an imported one
        (
            b"\x05\x05\x02\0\0\0\0",
            "V6 TooManyMemories at section 5 item 1",
        ),
        (
            b"\x02\x06\x01\0\0\x02\0\0\x05\x03\x01\0\0",
            "V6 TooManyMemories at section 5 item 0",
        ),
        // what is asked first
        (
            b"\x02\x06\x01\0\0\x02\0\0\x05\x05\x01\0\x81\x80\x04",
            "V4 MemoryRange at section 5 item 0",
        ),
        (
            b"\x04\x08\x02\x70\0\0\x70\x01\x01\0",
            "V3 LimitsOrder at section 4 item 1",
        ),
    ];
    refuses(&rt, rt.alloc(), &rows)
}

#[test]
fn takes_exports(rt: HostRuntime) -> Result<(), Fail> {
    let rows: [&[u8]; 3] = [
        // each kind, and the imported ones
        b"\x01\x04\x01\x60\0\0\x02\x15\x04\0\0\0\0\0\0\x01\x70\0\0\0\0\x02\0\0\0\0\x03\x7f\x01\x07\x11\x04\x01\x61\0\0\x01\x62\x01\0\x01\x63\x02\0\x01\x64\x03\0",
        b"\x01\x04\x01\x60\0\0\x03\x02\x01\0\x04\x04\x01\x70\0\0\x05\x03\x01\0\0\x06\x06\x01\x7f\x01\x41\0\x0b\x07\x11\x04\x01\x61\0\0\x01\x62\x01\0\x01\x63\x02\0\x01\x64\x03\0\x0a\x04\x01\x02\0\x0b",
        // one function under two names, of which one begins with the other
        b"\x01\x04\x01\x60\0\0\x03\x02\x01\0\x07\x0d\x03\0\0\0\x01\x61\0\0\x02\x61\x61\0\0\x0a\x04\x01\x02\0\x0b",
    ];
    passes(&rt, rt.alloc(), Profile::Core, &rows)
}

#[test]
fn refuses_exports(rt: HostRuntime) -> Result<(), Fail> {
    let rows: [(&[u8], &str); 6] = [
        // what is not there, of each kind
        (
            b"\x07\x05\x01\x01\x61\0\0",
            "V7 UnknownFunc at section 7 item 0",
        ),
        (
            b"\x07\x05\x01\x01\x61\x01\0",
            "V8 UnknownTable at section 7 item 0",
        ),
        (
            b"\x07\x05\x01\x01\x61\x02\0",
            "V9 UnknownMemory at section 7 item 0",
        ),
        (
            b"\x07\x05\x01\x01\x61\x03\0",
            "V10 UnknownGlobal at section 7 item 0",
        ),
        // the index behind the last one
        (
            b"\x01\x04\x01\x60\0\0\x03\x02\x01\0\x07\x09\x02\x01\x61\0\0\x01\x62\0\x01\x0a\x04\x01\x02\0\x0b",
            "V7 UnknownFunc at section 7 item 1",
        ),
        (
            b"\x04\x04\x01\x70\0\0\x07\x05\x01\x01\x61\x01\x01",
            "V8 UnknownTable at section 7 item 0",
        ),
    ];
    refuses(&rt, rt.alloc(), &rows)
}

#[test]
fn refuses_names_of_exports(rt: HostRuntime) -> Result<(), Fail> {
    let rows: [(&[u8], &str); 4] = [
        // one name twice, of one kind or two
        (
            b"\x01\x04\x01\x60\0\0\x03\x02\x01\0\x07\x09\x02\x01\x61\0\0\x01\x61\0\0\x0a\x04\x01\x02\0\x0b",
            "V20 DuplicateExport at section 7 item 1",
        ),
        (
            b"\x01\x04\x01\x60\0\0\x03\x02\x01\0\x05\x03\x01\0\0\x07\x0d\x03\x01\x61\0\0\x01\x62\0\0\x01\x61\x02\0\x0a\x04\x01\x02\0\x0b",
            "V20 DuplicateExport at section 7 item 2",
        ),
        // an index comes before a name
        (
            b"\x01\x04\x01\x60\0\0\x03\x02\x01\0\x07\x09\x02\x01\x61\0\0\x01\x61\0\x01\x0a\x04\x01\x02\0\x0b",
            "V7 UnknownFunc at section 7 item 1",
        ),
        // the first of two names
        (
            b"\x01\x04\x01\x60\0\0\x03\x02\x01\0\x07\x11\x04\x01\x61\0\0\x01\x62\0\0\x01\x62\0\0\x01\x61\0\0\x0a\x04\x01\x02\0\x0b",
            "V20 DuplicateExport at section 7 item 2",
        ),
    ];
    refuses(&rt, rt.alloc(), &rows)
}

#[test]
fn takes_start_functions(rt: HostRuntime) -> Result<(), Fail> {
    let rows: [&[u8]; 3] = [
        // a function of the module, and an imported one
        b"\x01\x04\x01\x60\0\0\x03\x03\x02\0\0\x08\x01\x01\x0a\x07\x02\x02\0\x0b\x02\0\x0b",
        b"\x01\x04\x01\x60\0\0\x02\x05\x01\0\0\0\0\x08\x01\0",
        // one that has a type of its own
        b"\x01\x08\x02\x60\x01\x7f\0\x60\0\0\x02\x05\x01\0\0\0\0\x03\x02\x01\x01\x08\x01\x01\x0a\x04\x01\x02\0\x0b",
    ];
    passes(&rt, rt.alloc(), Profile::Core, &rows)
}

#[test]
fn refuses_start_functions(rt: HostRuntime) -> Result<(), Fail> {
    let rows: [(&[u8], &str); 5] = [
        // a parameter, and a result
        (
            b"\x01\x05\x01\x60\x01\x7f\0\x03\x02\x01\0\x08\x01\0\x0a\x04\x01\x02\0\x0b",
            "V21 StartType at section 8 item 0",
        ),
        (
            b"\x01\x05\x01\x60\0\x01\x7f\x03\x02\x01\0\x08\x01\0\x0a\x06\x01\x04\0\x41\0\x0b",
            "V21 StartType at section 8 item 0",
        ),
        // an imported function with a parameter
        (
            b"\x01\x08\x02\x60\x01\x7f\0\x60\0\0\x02\x05\x01\0\0\0\0\x03\x02\x01\x01\x08\x01\0\x0a\x04\x01\x02\0\x0b",
            "V21 StartType at section 8 item 0",
        ),
        // no function
        (b"\x08\x01\0", "V7 UnknownFunc at section 8 item 0"),
        (
            b"\x01\x04\x01\x60\0\0\x03\x02\x01\0\x08\x01\x01\x0a\x04\x01\x02\0\x0b",
            "V7 UnknownFunc at section 8 item 0",
        ),
    ];
    refuses(&rt, rt.alloc(), &rows)
}
