//! Scripts, line by line.

use std::alloc::Global;
use std::test::Fail;
use wk_edit::{ScriptFault, read_script};
use wk_module::ValType;
use wk_session::Edit;

static LINES_OF_TYPES: [(&[u8], &[ValType], &[ValType]); 5] = [
    (b"type - -", &[], &[]),
    (b"type - -\n", &[], &[]),
    (b"\n\ntype i32 -\n\n", &[ValType::I32], &[]),
    (b"type - f64", &[], &[ValType::F64]),
    (
        b"type i32,i64,f32 f64,i32",
        &[ValType::I32, ValType::I64, ValType::F32],
        &[ValType::F64, ValType::I32],
    ),
];

static NAMES: [(&[u8], &str); 9] = [
    (b"custom strip name", "name"),
    (b"custom strip -", "-"),
    (b"custom strip x", "x"),
    (b"custom strip !~", "!~"),
    (b"custom strip x:", ""),
    (b"custom strip x:66", "f"),
    (b"custom strip x:C3A9", "\u{e9}"),
    (b"custom strip x:c3a9\n", "\u{e9}"),
    (b"custom strip x:20783a", " x:"),
];

static BYTES: [(&[u8], &str, &[u8]); 7] = [
    (b"custom set c -", "c", b""),
    (b"custom set - -", "-", b""),
    (b"custom set c 00", "c", b"\0"),
    (b"custom set x: fF0a", "", b"\xff\x0a"),
    (b"custom set x:C3a9 AbcdEF\n", "\u{e9}", b"\xab\xcd\xef"),
    (b"custom set set 7365740a", "set", b"set\n"),
    (
        b"\ncustom set ff 0123456789abcdef\n",
        "ff",
        b"\x01\x23\x45\x67\x89\xab\xcd\xef",
    ),
];

// Each wrong word of a line is tried on the program (`tests/cases/scripts.txt`).
static FAULTS: [(&[u8], ScriptFault); 13] = [
    (b" ", ScriptFault::BadWord { line: 1 }),
    (b"type i32,,i32 -", ScriptFault::BadWord { line: 1 }),
    (b"custom strip x:ff", ScriptFault::BadWord { line: 1 }),
    (b"custom set a 0g", ScriptFault::BadWord { line: 1 }),
    (
        b"\n\ntype - -\n\ncustom\n",
        ScriptFault::BadWord { line: 5 },
    ),
    (
        b"custom strip a\ncustom\nstrips\n",
        ScriptFault::BadWord { line: 2 },
    ),
    (b"\x80", ScriptFault::NotAscii { line: 1 }),
    (
        b"type - -\n\ncustom strip \xc3\xa9\n",
        ScriptFault::NotAscii { line: 3 },
    ),
    (b"wrong \xff", ScriptFault::NotAscii { line: 1 }),
    (b"wrong\n\xff", ScriptFault::BadWord { line: 1 }),
    (b"\xff\nwrong", ScriptFault::NotAscii { line: 1 }),
    (b"type - -\xff\n", ScriptFault::NotAscii { line: 1 }),
    (b"\n\xc3\xa9", ScriptFault::NotAscii { line: 2 }),
];

// Whether a script has one edit, which adds a type of these parameters and results.
fn is_type(alloc: Global, script: &[u8], params: &[ValType], results: &[ValType]) -> bool {
    match read_script(alloc, script) {
        Ok(edits) => match edits.as_slice() {
            [Edit::Ty(ty)] => ty.params.as_slice() == params && ty.results.as_slice() == results,
            _ => false,
        },
        Err(_) => false,
    }
}

// Whether a script has one edit, which strips the custom sections of this name.
fn is_strip(alloc: Global, script: &[u8], wanted: &str) -> bool {
    match read_script(alloc, script) {
        Ok(edits) => match edits.as_slice() {
            [Edit::StripCustom(name)] => name.as_str() == wanted,
            _ => false,
        },
        Err(_) => false,
    }
}

// Whether a script has one edit, which gives the custom section of this name these bytes.
fn is_set(alloc: Global, script: &[u8], called: &str, wanted: &[u8]) -> bool {
    match read_script(alloc, script) {
        Ok(edits) => match edits.as_slice() {
            [Edit::SetCustom { name, bytes }] => {
                name.as_str() == called && bytes.as_slice() == wanted
            }
            _ => false,
        },
        Err(_) => false,
    }
}

// The first script that is read otherwise.
fn wrong_edit(alloc: Global) -> Option<&'static [u8]> {
    for (script, params, results) in &LINES_OF_TYPES {
        if !is_type(alloc, script, params, results) {
            return Some(*script);
        }
    }
    for (script, name) in &NAMES {
        if !is_strip(alloc, script, name) {
            return Some(*script);
        }
    }
    for (script, name, bytes) in &BYTES {
        if !is_set(alloc, script, name, bytes) {
            return Some(*script);
        }
    }
    None
}

static COUNTS: [(&[u8], usize); 6] = [
    (b"", 0),
    (b"\n", 0),
    (b"\n\n\n", 0),
    (b"strip\n", 1),
    (b"custom strip d\ntype - -\n", 2),
    (b"\ncustom strip d\n\n\ntype - -\n\ntype - -", 3),
];

// The first script with another number of edits.
fn wrong_count(alloc: Global) -> Option<&'static [u8]> {
    for (script, count) in &COUNTS {
        let found = read_script(alloc, script).ok().map(|edits| edits.len());
        if found != Some(*count) {
            return Some(*script);
        }
    }
    None
}

// The first script with another fault, or none.
fn wrong_fault(alloc: Global) -> Option<&'static [u8]> {
    for (script, fault) in &FAULTS {
        if read_script(alloc, script).err() != Some(*fault) {
            return Some(*script);
        }
    }
    None
}

#[test]
fn reads_edits(rt: HostRuntime) -> Result<(), Fail> {
    assert_eq!(rt; wrong_edit(rt.alloc()), None);
    assert_eq!(rt; wrong_count(rt.alloc()), None);
    Ok(())
}

#[test]
fn refuses_words(rt: HostRuntime) -> Result<(), Fail> {
    assert_eq!(rt; wrong_fault(rt.alloc()), None);
    Ok(())
}
