//! Modules with many faults, the first of which is told, and modules whose code is judged elsewhere.

use crate::judged::{passes, refuses};
use std::alloc::Global;
use std::process::Abort;
use std::test::Fail;
use wk_check::{Fault, FaultKind, Place, Verdict, judge_around};
use wk_module::{Lists, Parts, Profile, read};

// A section of each id that is right, where the others are.
const RIGHT: [&[u8]; 11] = [
    b"\x01\x04\x01\x60\0\0",
    b"\x02\x06\x01\0\0\x03\x7f\0",
    b"\x03\x02\x01\0",
    b"\x04\x04\x01\x70\0\x01",
    b"\x05\x03\x01\0\x01",
    b"\x06\x06\x01\x7f\0\x41\0\x0b",
    b"\x07\x05\x01\x01\x61\0\0",
    b"\x08\x01\0",
    b"\x09\x07\x01\0\x41\0\x0b\x01\0",
    b"\x0a\x04\x01\x02\0\x0b",
    b"\x0b\x06\x01\0\x41\0\x0b\0",
];

// A section of each id that is wrong, and its fault.
const WRONG: [(&[u8], &str); 11] = [
    (
        b"\x01\x06\x01\x60\0\x02\x7f\x7f",
        "V1 TypeArity at section 1 item 0",
    ),
    (
        b"\x02\x05\x01\0\0\0\x07",
        "V2 UnknownType at section 2 item 0",
    ),
    (b"\x03\x02\x01\x09", "V2 UnknownType at section 3 item 0"),
    (
        b"\x04\x05\x01\x70\x01\x01\0",
        "V3 LimitsOrder at section 4 item 0",
    ),
    (
        b"\x05\x04\x01\x01\x01\0",
        "V3 LimitsOrder at section 5 item 0",
    ),
    (
        b"\x06\x04\x01\x7f\0\x0b",
        "V13 StackUnderflow at section 6 item 0 token 0",
    ),
    (
        b"\x07\x05\x01\x01\x61\x01\x09",
        "V8 UnknownTable at section 7 item 0",
    ),
    (b"\x08\x01\x09", "V7 UnknownFunc at section 8 item 0"),
    (
        b"\x09\x07\x01\x09\x41\0\x0b\x01\x09",
        "V8 UnknownTable at section 9 item 0",
    ),
    (
        b"\x0a\x05\x01\x03\0\x1a\x0b",
        "V13 StackUnderflow at section 10 item 0 token 0",
    ),
    (
        b"\x0b\x06\x01\x09\x41\0\x0b\0",
        "V9 UnknownMemory at section 11 item 0",
    ),
];

// The first sections are right, and the others wrong.
#[test]
fn tells_the_first_section(rt: HostRuntime) -> Result<(), Fail> {
    for first in 0..11 {
        let mut sections = Vec::new(rt.alloc());
        for right in &RIGHT[..first] {
            sections.extend_from_slice(right)?;
        }
        for (wrong, _) in &WRONG[first..] {
            sections.extend_from_slice(wrong)?;
        }
        let (_, fault) = WRONG[first];
        refuses(&rt, rt.alloc(), &[(sections.as_slice(), fault)])?;
    }
    Ok(())
}

#[test]
fn takes_all_sections(rt: HostRuntime) -> Result<(), Fail> {
    let mut sections = Vec::new(rt.alloc());
    for right in &RIGHT {
        sections.extend_from_slice(right)?;
    }
    passes(&rt, rt.alloc(), Profile::Core, &[sections.as_slice()])
}

#[test]
fn tells_the_first_item_and_step(rt: HostRuntime) -> Result<(), Fail> {
    let rows: [(&[u8], &str); 7] = [
        // functions of two types that are not there
        (
            b"\x01\x04\x01\x60\0\0\x03\x04\x03\0\x05\x04\x0a\x0a\x03\x02\0\x0b\x02\0\x0b\x02\0\x0b",
            "V2 UnknownType at section 3 item 1",
        ),
        // two bodies, and a third that is not reached
        (
            b"\x01\x04\x01\x60\0\0\x03\x04\x03\0\0\0\x0a\x0d\x03\x02\0\x0b\x03\0\x45\x0b\x04\0\x10\x09\x0b",
            "V13 StackUnderflow at section 10 item 1 token 0",
        ),
        (
            b"\x01\x04\x01\x60\0\0\x03\x03\x02\0\0\x0a\x09\x02\x04\0\x20\0\x0b\x02\0\x0b",
            "V11 UnknownLocal at section 10 item 0 token 0",
        ),
        // two steps of a body
        (
            b"\x01\x04\x01\x60\0\0\x03\x02\x01\0\x0a\x0b\x01\x09\0\x01\x0c\x01\x20\0\x10\x09\x0b",
            "V12 UnknownLabel at section 10 item 0 token 1",
        ),
        (
            b"\x01\x04\x01\x60\0\0\x03\x02\x01\0\x0a\x0a\x01\x08\0\x41\0\x24\0\x20\0\x0b",
            "V10 UnknownGlobal at section 10 item 0 token 1",
        ),
        // two globals
        (
            b"\x06\x0e\x03\x7f\0\x41\0\x0b\x7f\0\x42\0\x0b\x7f\0\x0b",
            "V14 TypeMismatch at section 6 item 1 token 1",
        ),
        // two segments
        (
            b"\x05\x03\x01\0\0\x0b\x0f\x03\0\x41\0\x0b\0\0\x01\x0b\0\x01\x41\0\x0b\0",
            "V19 ConstantExpected at section 11 item 1 token 0",
        ),
    ];
    refuses(&rt, rt.alloc(), &rows)
}

// The verdict by lists of a module with one function, whose code has this first fault.
fn by_lists(
    rt: &impl Abort,
    alloc: Global,
    parts: &Parts,
    code: Option<Fault>,
) -> Result<Verdict, Fail> {
    let lists = Lists {
        profile: parts.profile,
        types: parts.types.as_slice(),
        imports: &[],
        funcs: &[0],
        tables: &[],
        memories: parts.memories.as_slice(),
        globals: &[],
        exports: &[],
        start: Some(0),
        elems: &[],
        datas: parts.datas.as_slice(),
    };
    assert!(rt; lists.types.len() < 10);
    assert!(rt; lists.memories.len() < 10);
    assert!(rt; lists.datas.len() < 10);
    Ok(judge_around(alloc, &lists, code)?)
}

// The verdict of a module with one function, whose code has this first fault.
fn around(
    rt: &impl Abort,
    alloc: Global,
    bytes: &[u8],
    code: Option<Fault>,
) -> Result<Verdict, Fail> {
    let module = read(alloc, bytes)?;
    by_lists(rt, alloc, module.parts(), code)
}

// Looks at verdicts without a fault of the code, and with this one.
fn looks_around(rt: &impl Abort, alloc: Global, rows: &[(&[u8], &str, &str)]) -> Result<(), Fail> {
    let code = Fault {
        kind: FaultKind::LabelTypes,
        place: Place {
            section: 10,
            item: 3,
            token: Some(7),
        },
    };
    for (bytes, without, with) in rows {
        let verdict = around(rt, alloc, bytes, None)?;
        assert_eq!(rt;
            format!(in alloc; "{verdict}")?.as_str(),
            *without,
            "{bytes:?}"
        );
        let verdict = around(rt, alloc, bytes, Some(code))?;
        assert_eq!(rt;
            format!(in alloc; "{verdict}")?.as_str(),
            *with,
            "{bytes:?}"
        );
    }
    Ok(())
}

#[test]
fn judges_around_codes(rt: HostRuntime) -> Result<(), Fail> {
    let rows: [(&[u8], &str, &str); 4] = [
        (
            b"\0\x61\x73\x6d\x01\0\0\0\x01\x04\x01\x60\0\0\x05\x03\x01\0\x01\x0b\x06\x01\0\x41\0\x0b\0",
            "valid",
            "invalid V16 LabelTypes at section 10 item 3 token 7",
        ),
        // a memory that is too big
        (
            b"\0\x61\x73\x6d\x01\0\0\0\x01\x04\x01\x60\0\0\x05\x05\x01\0\x81\x80\x04\x0b\x06\x01\0\x41\0\x0b\0",
            "invalid V4 MemoryRange at section 5 item 0",
            "invalid V4 MemoryRange at section 5 item 0",
        ),
        // data of a memory that is not there
        (
            b"\0\x61\x73\x6d\x01\0\0\0\x01\x04\x01\x60\0\0\x05\x03\x01\0\x01\x0b\x06\x01\x09\x41\0\x0b\0",
            "invalid V9 UnknownMemory at section 11 item 0",
            "invalid V16 LabelTypes at section 10 item 3 token 7",
        ),
        // both
        (
            b"\0\x61\x73\x6d\x01\0\0\0\x01\x04\x01\x60\0\0\x05\x05\x01\0\x81\x80\x04\x0b\x06\x01\x09\x41\0\x0b\0",
            "invalid V4 MemoryRange at section 5 item 0",
            "invalid V4 MemoryRange at section 5 item 0",
        ),
    ];
    looks_around(&rt, rt.alloc(), &rows)
}
