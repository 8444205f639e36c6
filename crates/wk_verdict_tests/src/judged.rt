//! Small modules, and their verdicts.

use std::alloc::{AllocError, Global};
use std::process::Abort;
use std::test::Fail;
use wk_bytes::put_u32;
use wk_check::{Fault, FaultKind, Place, Verdict, judge};
use wk_judging::judge_bytes;
use wk_module::{Profile, read_in};

const HEADER: &[u8] = b"\0asm\x01\0\0\0";

/// A function that takes nothing and gives nothing, up to its code.
pub(crate) const NOTHING: &[u8] = b"\x01\x04\x01\x60\0\0\x03\x02\x01\0";

/// A code, and the fault that it has at a token.
pub(crate) type Row<'a> = (&'a [u8], FaultKind, u32);

// Rows of faults, a line each.
macro_rules! faults {
    ($($code:literal => $kind:ident $token:literal,)*) => {
        [$(($code, wk_check::FaultKind::$kind, $token)),*]
    };
}

pub(crate) use faults;

/// A code section of a test has fewer bytes.
const MANY: usize = 100_000;

/// The header, and then these sections.
pub(crate) fn behind_header(alloc: Global, sections: &[u8]) -> Result<Vec<u8>, AllocError> {
    let mut bytes = Vec::new(alloc);
    bytes.extend_from_slice(HEADER)?;
    bytes.extend_from_slice(sections)?;
    Ok(bytes)
}

// The verdict of a module of a profile.
fn judged_whole(alloc: Global, bytes: &[u8], profile: Profile) -> Result<Verdict, Fail> {
    let module = read_in(alloc, bytes, profile)?;
    Ok(judge(alloc, &module)?)
}

/// The verdict of a module of a profile, which is given by what comes behind its header. It is the same while the module is read.
pub(crate) fn judged(alloc: Global, sections: &[u8], profile: Profile) -> Result<Verdict, Fail> {
    let bytes = behind_header(alloc, sections)?;
    let verdict = judged_whole(alloc, bytes.as_slice(), profile)?;
    let is_same = judge_bytes(alloc, bytes.as_slice(), profile)? == verdict;
    Ok(
        is_same
            .then_some(verdict)
            .ok_or("another verdict while it is read")?,
    )
}

// The fault of a module that is not valid.
fn fault_of(verdict: Verdict) -> Option<Fault> {
    match verdict {
        Verdict::Valid => None,
        Verdict::Invalid(fault) => Some(fault),
    }
}

/// These modules of a profile, without their headers, are valid.
pub(crate) fn passes(
    rt: &impl Abort,
    alloc: Global,
    profile: Profile,
    rows: &[&[u8]],
) -> Result<(), Fail> {
    for sections in rows {
        let verdict = judged(alloc, sections, profile)?;
        assert_eq!(rt; verdict, Verdict::Valid, "{sections:?}");
    }
    Ok(())
}

/// These modules of 1.0, without their headers, have these first faults.
pub(crate) fn refuses(rt: &impl Abort, alloc: Global, rows: &[(&[u8], &str)]) -> Result<(), Fail> {
    for (sections, fault) in rows {
        let verdict = judged(alloc, sections, Profile::Core)?;
        let text = format!(in alloc; "{}", fault_of(verdict).ok_or("a fault")?)?;
        assert_eq!(rt; text.as_str(), *fault, "{sections:?}");
    }
    Ok(())
}

/// The sections of a module with one function, whose code comes behind the sections in front.
pub(crate) fn with_code(
    rt: &impl Abort,
    alloc: Global,
    front: &[u8],
    code: &[u8],
) -> Result<Vec<u8>, Fail> {
    assert!(rt; code.len() < MANY);
    let mut contents = Vec::new(alloc);
    contents.push(0x01)?;
    put_u32(&mut contents, code.len() as u32)?;
    contents.extend_from_slice(code)?;
    assert!(rt; contents.len() < MANY);
    let mut bytes = Vec::new(alloc);
    bytes.extend_from_slice(front)?;
    bytes.push(0x0A)?;
    put_u32(&mut bytes, contents.len() as u32)?;
    bytes.extend_from_slice(contents.as_slice())?;
    Ok(bytes)
}

/// A module of a profile, with these sections in front and one function, is valid, where the code is any of these.
pub(crate) fn passes_codes(
    rt: &impl Abort,
    alloc: Global,
    profile: Profile,
    front: &[u8],
    codes: &[&[u8]],
) -> Result<(), Fail> {
    for code in codes {
        let sections = with_code(rt, alloc, front, code)?;
        let verdict = judged(alloc, sections.as_slice(), profile)?;
        assert_eq!(rt; verdict, Verdict::Valid, "{code:?}");
    }
    Ok(())
}

/// A module of a profile, with these sections in front and one function, has these first faults at these tokens of its code.
pub(crate) fn refuses_codes(
    rt: &impl Abort,
    alloc: Global,
    profile: Profile,
    front: &[u8],
    rows: &[Row],
) -> Result<(), Fail> {
    for &(code, kind, token) in rows {
        let sections = with_code(rt, alloc, front, code)?;
        let verdict = judged(alloc, sections.as_slice(), profile)?;
        let place = Place {
            section: 10,
            item: 0,
            token: Some(token),
        };
        assert_eq!(rt;
            verdict,
            Verdict::Invalid(Fault { kind, place }),
            "{code:?}"
        );
    }
    Ok(())
}

#[test]
fn takes_types(rt: HostRuntime) -> Result<(), Fail> {
    let rows: [&[u8]; 6] = [
        // nothing at all
        b"",
        // no types
        b"\x01\x01\0",
        // results, none or one, beside any number of parameters
        b"\x01\x04\x01\x60\0\0",
        b"\x01\x0c\x02\x60\0\x01\x7f\x60\x03\x7c\x7c\x7d\x01\x7e",
        // a type twice
        b"\x01\x07\x02\x60\0\0\x60\0\0",
        // custom sections
        b"\0\x04\x01\x61\x7f\x7f\x01\x04\x01\x60\0\0\0\x01\0",
    ];
    passes(&rt, rt.alloc(), Profile::Core, &rows)
}

#[test]
fn refuses_many_results(rt: HostRuntime) -> Result<(), Fail> {
    let rows: [(&[u8], &str); 6] = [
        // two results
        (
            b"\x01\x06\x01\x60\0\x02\x7f\x7f",
            "V1 TypeArity at section 1 item 0",
        ),
        // of two parameters
        (
            b"\x01\x08\x01\x60\x02\x7f\x7f\x02\x7f\x7f",
            "V1 TypeArity at section 1 item 0",
        ),
        // the last of three
        (
            b"\x01\x0d\x03\x60\0\0\x60\0\x01\x7f\x60\0\x02\x7e\x7e",
            "V1 TypeArity at section 1 item 2",
        ),
        // the first of two
        (
            b"\x01\x0f\x03\x60\0\0\x60\0\x02\x7f\x7f\x60\0\x03\x7f\x7f\x7f",
            "V1 TypeArity at section 1 item 1",
        ),
        (
            b"\x01\x0e\x03\x60\0\x02\x7f\x7f\x60\0\0\x60\0\x02\x7f\x7f",
            "V1 TypeArity at section 1 item 0",
        ),
        // custom sections are no items
        (
            b"\0\x02\x01\x61\x01\x09\x02\x60\0\0\x60\0\x02\x7f\x7f\0\x01\0",
            "V1 TypeArity at section 1 item 1",
        ),
    ];
    refuses(&rt, rt.alloc(), &rows)
}

#[test]
fn takes_many_results_in_the_other_profile(rt: HostRuntime) -> Result<(), Fail> {
    let rows: [&[u8]; 3] = [
        b"\x01\x08\x01\x60\x02\x7f\x7f\x02\x7f\x7f",
        b"\x01\x08\x01\x60\0\x04\x7f\x7e\x7d\x7c",
        b"\x01\x0f\x03\x60\0\0\x60\0\x02\x7f\x7f\x60\0\x03\x7f\x7f\x7f",
    ];
    passes(&rt, rt.alloc(), Profile::Extended, &rows)
}
