//! Modules that are judged while they are read, and what is told of them.

use std::alloc::Global;
use std::process::Abort;
use std::test::Fail;
use wk_bytes::{ReadKind, put_u32};
use wk_judging::{Fault, FaultKind, Place, Verdict, judge_bytes, judge_spelled};
use wk_module::{Profile, read_outline};

/// The verdict on these bytes, which spell a module, is valid, or this first fault, also where it is known that they spell one.
pub(crate) fn tells(
    rt: &impl Abort,
    alloc: Global,
    bytes: &[u8],
    profile: Profile,
    wanted: Option<(FaultKind, Place)>,
) -> Result<(), Fail> {
    let wanted = match wanted {
        None => Verdict::Valid,
        Some((kind, place)) => Verdict::Invalid(Fault { kind, place }),
    };
    let verdict = judge_bytes(alloc, bytes, profile)?;
    assert_eq!(rt; verdict, wanted, "{bytes:?}");
    read_outline(alloc, bytes, profile)?;
    let verdict = judge_spelled(alloc, bytes, profile)?;
    assert_eq!(rt; verdict, wanted, "{bytes:?}, which spell a module");
    Ok(())
}

/// These bytes spell a module that is valid in either profile.
pub(crate) fn passes_both(rt: &impl Abort, alloc: Global, bytes: &[u8]) -> Result<(), Fail> {
    tells(rt, alloc, bytes, Profile::Core, None)?;
    tells(rt, alloc, bytes, Profile::Extended, None)
}

/// These bytes spell no module, which is told so.
pub(crate) fn refuses_bytes(
    rt: &impl Abort,
    alloc: Global,
    rows: &[(&[u8], ReadKind, u32)],
) -> Result<(), Fail> {
    for &(bytes, kind, at) in rows {
        let fault = judge_bytes(alloc, bytes, Profile::Core);
        let fault = fault.err().ok_or("a fault")?;
        assert_eq!(rt; fault.kind, kind, "{bytes:?}");
        assert_eq!(rt; fault.at, at, "{bytes:?}");
    }
    Ok(())
}

// A place that is no token.
fn item(section: u8, item: u32) -> Place {
    Place {
        section,
        item,
        token: None,
    }
}

/// A token of an item.
pub(crate) fn token(section: u8, item: u32, token: u32) -> Place {
    Place {
        section,
        item,
        token: Some(token),
    }
}

// Two functions of two types, a memory, a data segment and custom sections. The second function calls the first.
const VALID: &[u8] = b"\0asm\x01\0\0\0\
    \x00\x02\x01c\
    \x01\x08\x02\x60\0\0\x60\0\x01\x7f\
    \x03\x03\x02\0\x01\
    \x05\x03\x01\0\x01\
    \x0a\x0b\x02\x02\0\x0b\x06\0\x10\0\x41\x08\x0b\
    \x00\x02\x01d\
    \x0b\x07\x01\0\x41\0\x0b\x01\xaa";

#[test]
fn passes_modules(rt: HostRuntime) -> Result<(), Fail> {
    let rows: [&[u8]; 4] = [
        VALID,
        b"\0asm\x01\0\0\0",
        // no functions, whether there is a code section or none
        b"\0asm\x01\0\0\0\x01\x04\x01\x60\0\0\x03\x01\0",
        b"\0asm\x01\0\0\0\x01\x04\x01\x60\0\0\x0a\x01\0",
    ];
    for bytes in rows {
        passes_both(&rt, rt.alloc(), bytes)?;
    }
    Ok(())
}

#[test]
fn tells_first_faults(rt: HostRuntime) -> Result<(), Fail> {
    let rows: [(&[u8], FaultKind, Place); 7] = [
        // the second body, and both
        (
            b"\0asm\x01\0\0\0\x01\x08\x02\x60\0\0\x60\0\x01\x7f\x03\x03\x02\0\x01\x0a\x09\x02\x02\0\x0b\x04\0\x42\0\x0b",
            FaultKind::TypeMismatch,
            token(10, 1, 1),
        ),
        (
            b"\0asm\x01\0\0\0\x01\x04\x01\x60\0\0\x03\x03\x02\0\0\x0a\x0a\x02\x03\0\x1a\x0b\x04\0\x20\0\x0b",
            FaultKind::StackUnderflow,
            token(10, 0, 0),
        ),
        // a body, and a data segment behind it
        (
            b"\0asm\x01\0\0\0\x01\x04\x01\x60\0\0\x03\x02\x01\0\x0a\x05\x01\x03\0\x1a\x0b\x0b\x06\x01\0\x41\0\x0b\0",
            FaultKind::StackUnderflow,
            token(10, 0, 0),
        ),
        // a data segment of no memory, behind a body that is right
        (
            b"\0asm\x01\0\0\0\x01\x04\x01\x60\0\0\x03\x02\x01\0\x0a\x04\x01\x02\0\x0b\x0b\x06\x01\0\x41\0\x0b\0",
            FaultKind::UnknownMemory,
            item(11, 0),
        ),
        // an export and a start function, in front of a body that is wrong
        (
            b"\0asm\x01\0\0\0\x01\x04\x01\x60\0\0\x03\x02\x01\0\x07\x05\x01\x01f\x01\0\x0a\x05\x01\x03\0\x1a\x0b",
            FaultKind::UnknownTable,
            item(7, 0),
        ),
        (
            b"\0asm\x01\0\0\0\x01\x04\x01\x60\0\0\x03\x02\x01\0\x08\x01\x09\x0a\x05\x01\x03\0\x1a\x0b",
            FaultKind::UnknownFunc,
            item(8, 0),
        ),
        // a data segment where there is no code section
        (
            b"\0asm\x01\0\0\0\x0b\x06\x01\0\x41\0\x0b\0",
            FaultKind::UnknownMemory,
            item(11, 0),
        ),
    ];
    for (bytes, kind, place) in rows {
        let wanted = Some((kind, place));
        tells(&rt, rt.alloc(), bytes, Profile::Core, wanted)?;
    }
    Ok(())
}

#[test]
fn tells_what_is_no_module(rt: HostRuntime) -> Result<(), Fail> {
    let rows: [(&[u8], ReadKind, u32); 8] = [
        (b"\0asm\x02\0\0\0", ReadKind::BadVersion, 4),
        // in front of the code, and behind a body that is invalid
        (b"\0asm\x01\0\0\0\x00\x02\x01\xff", ReadKind::BadUtf8, 11),
        (
            b"\0asm\x01\0\0\0\x01\x04\x01\x60\0\0\x03\x02\x01\0\x0a\x05\x01\x03\0\x1a\x0b\x00\x02\x01\xff",
            ReadKind::BadUtf8,
            28,
        ),
        (
            b"\0asm\x01\0\0\0\x01\x04\x01\x60\0\0\x03\x02\x01\0\x0a\x06\x01\x03\0\x1a\x0b\0",
            ReadKind::SectionSize,
            25,
        ),
        (
            b"\0asm\x01\0\0\0\x01\x04\x01\x60\0\0\x03\x03\x02\0\0\x0a\x08\x02\x03\0\x1a\x0b\x02\0\xff",
            ReadKind::UnknownOpcode,
            28,
        ),
        // functions and codes that are not as many
        (
            b"\0asm\x01\0\0\0\x01\x04\x01\x60\0\0\x03\x02\x01\0\x0a\x01\0",
            ReadKind::FuncCodeCount,
            20,
        ),
        (
            b"\0asm\x01\0\0\0\x01\x04\x01\x60\0\0\x03\x02\x01\0\x00\x01\0",
            ReadKind::FuncCodeCount,
            21,
        ),
        // functions of no type, which do not matter where there is no module
        (
            b"\0asm\x01\0\0\0\x03\x02\x01\x09",
            ReadKind::FuncCodeCount,
            12,
        ),
    ];
    refuses_bytes(&rt, rt.alloc(), &rows)
}

#[test]
fn judges_by_either_profile(rt: HostRuntime) -> Result<(), Fail> {
    // a type with two results, and a body that gives them
    let results =
        b"\0asm\x01\0\0\0\x01\x06\x01\x60\0\x02\x7f\x7f\x03\x02\x01\0\x0a\x08\x01\x06\0\x41\0\x41\0\x0b";
    let arity = Some((FaultKind::TypeArity, item(1, 0)));
    tells(&rt, rt.alloc(), results, Profile::Core, arity)?;
    tells(&rt, rt.alloc(), results, Profile::Extended, None)?;
    // a sign extension, which reads a 64-bit number in vain
    let extends =
        b"\0asm\x01\0\0\0\x01\x04\x01\x60\0\0\x03\x02\x01\0\x0a\x08\x01\x06\0\x42\0\xc0\x1a\x0b";
    refuses_bytes(&rt, rt.alloc(), &[(extends, ReadKind::UnknownOpcode, 25)])?;
    let mismatch = Some((FaultKind::TypeMismatch, token(10, 0, 1)));
    tells(&rt, rt.alloc(), extends, Profile::Extended, mismatch)
}

// A module with a memory and so many exports of it, of which two have one name.
fn with_same_names(alloc: Global, count: u8, first: u8, second: u8) -> Result<Vec<u8>, Fail> {
    let mut bytes = Vec::from_slice(alloc, b"\0asm\x01\0\0\0\x05\x03\x01\0\x01\x07")?;
    // Each has five bytes, with those of its name.
    put_u32(&mut bytes, u32::from(count) * 5 + 1)?;
    bytes.push(count)?;
    for index in 0..count {
        let name = if index == second { first } else { index };
        bytes.extend_from_slice(&[2, b'm', b' ' + name % 90, 2, 0])?;
    }
    Ok(bytes)
}

#[test]
fn tells_names_that_come_twice(rt: HostRuntime) -> Result<(), Fail> {
    // Up to sixteen names are compared one by one; of more, all lie in a set.
    let rows: [(u8, u8, u8); 9] = [
        (2, 0, 1),
        (16, 0, 15),
        (16, 14, 15),
        (17, 0, 16),
        (17, 15, 16),
        (18, 16, 17),
        (40, 3, 5),
        (40, 15, 39),
        (40, 20, 30),
    ];
    for (count, first, second) in rows {
        let bytes = with_same_names(rt.alloc(), count, first, second)?;
        let wanted = Some((FaultKind::DuplicateExport, item(7, u32::from(second))));
        tells(&rt, rt.alloc(), &bytes, Profile::Core, wanted)?;
        let bytes = with_same_names(rt.alloc(), count, first, first)?;
        tells(&rt, rt.alloc(), &bytes, Profile::Core, None)?;
    }
    Ok(())
}
