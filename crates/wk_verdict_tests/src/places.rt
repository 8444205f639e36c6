//! Where items and tokens of modules lie in their bytes. The offsets are counted by hand.

use crate::judged::behind_header;
use std::alloc::Global;
use std::process::Abort;
use std::test::Fail;
use wk_bytes::{ReadFault, ReadKind};
use wk_judging::{Fault, FaultKind, Place, Verdict, judge_bytes};
use wk_module::{Profile, Token, TokenReader, read_in};
use wk_place::{Located, entry_of_fault, func_of_fault, locate, read_token};

/// A section, an item and a token, and the offset and the function that are wanted, if there is such a place.
type Row = ((u8, u32, Option<u32>), Option<(u32, Option<u32>)>);

// What `locate` says of a place.
fn located(alloc: Global, bytes: &[u8], place: Place) -> Result<Option<Located>, Fail> {
    let fault = Fault {
        kind: FaultKind::TypeMismatch,
        place,
    };
    Ok(locate(alloc, bytes, Profile::Core, &fault)?)
}

// These places of the input lie there.
fn lie_there(rt: &impl Abort, alloc: Global, bytes: &[u8], rows: &[Row]) -> Result<(), Fail> {
    for &((section, item, token), wanted) in rows {
        let place = Place {
            section,
            item,
            token,
        };
        let wanted = wanted.map(|(offset, func)| Located { offset, func });
        assert_eq!(rt; located(alloc, bytes, place)?, wanted, "{place:?}");
    }
    Ok(())
}

// A type, an imported function and memory, a custom section, two functions, and codes with padded integers and an empty `else`.
const CODES: &[u8] = b"\x01\x04\x01\x60\0\0\
    \x02\x0a\x02\0\0\0\0\0\0\x02\0\0\
    \0\x02\x01a\
    \x03\x03\x02\0\0\
    \x0a\x14\x82\0\x83\0\0\x01\x0b\x0c\x01\x01\x7f\x41\0\x04\x40\x01\x05\x0b\x1a\x0b";

#[test]
fn finds_codes(rt: HostRuntime) -> Result<(), Fail> {
    let bytes = behind_header(rt.alloc(), CODES)?;
    let rows: [Row; 16] = [
        ((10, 0, None), Some((39, Some(1)))),
        ((10, 0, Some(0)), Some((42, Some(1)))),
        ((10, 0, Some(1)), Some((43, Some(1)))),
        ((10, 0, Some(2)), None),
        ((10, 1, None), Some((44, Some(2)))),
        ((10, 1, Some(0)), Some((48, Some(2)))),
        ((10, 1, Some(1)), Some((50, Some(2)))),
        ((10, 1, Some(2)), Some((52, Some(2)))),
        // the `end` behind the `else` whose branch is empty
        ((10, 1, Some(3)), Some((54, Some(2)))),
        ((10, 1, Some(4)), Some((55, Some(2)))),
        ((10, 1, Some(5)), Some((56, Some(2)))),
        ((10, 1, Some(6)), None),
        ((10, 2, None), None),
        ((2, 1, None), Some((21, None))),
        ((3, 1, None), Some((34, None))),
        ((3, 0, Some(0)), None),
    ];
    lie_there(&rt, rt.alloc(), bytes.as_slice(), &rows)
}

#[test]
fn finds_the_fault_of_a_verdict(rt: HostRuntime) -> Result<(), Fail> {
    let alloc = rt.alloc();
    let bytes = behind_header(alloc, CODES)?;
    let Verdict::Invalid(fault) = judge_bytes(alloc, bytes.as_slice(), Profile::Core)? else {
        return Err("a fault".into());
    };
    let located = locate(alloc, bytes.as_slice(), Profile::Core, &fault)?;
    let wanted = Located {
        offset: 55,
        func: Some(2),
    };
    assert_eq!(rt; located, Some(wanted));
    Ok(())
}

// A table, a memory, and two segments of either kind.
const SEGMENTS: &[u8] = b"\x04\x04\x01\x70\0\x01\
    \x05\x03\x01\0\x01\
    \x09\x0b\x02\0\x41\0\x0b\0\0\x23\0\x0b\0\
    \x0b\x0a\x02\0\x41\0\x0b\x01a\0\x0b\0";

#[test]
fn finds_segments(rt: HostRuntime) -> Result<(), Fail> {
    let bytes = behind_header(rt.alloc(), SEGMENTS)?;
    let rows: [Row; 9] = [
        ((4, 0, None), Some((11, None))),
        ((5, 0, None), Some((17, None))),
        ((9, 0, Some(1)), Some((25, None))),
        ((9, 1, None), Some((27, None))),
        ((9, 1, Some(0)), Some((28, None))),
        ((11, 0, None), Some((35, None))),
        ((11, 1, Some(0)), Some((42, None))),
        ((11, 1, Some(1)), None),
        ((10, 0, None), None),
    ];
    lie_there(&rt, rt.alloc(), bytes.as_slice(), &rows)
}

// Two globals, two exports of one name, and a start function.
const NAMES: &[u8] = b"\x06\x0b\x02\x7f\0\x41\0\x0b\x7e\x01\x42\0\x0b\
    \x07\x09\x02\x01a\x03\0\x01a\x03\0\
    \x08\x01\0";

#[test]
fn finds_globals_and_exports(rt: HostRuntime) -> Result<(), Fail> {
    let bytes = behind_header(rt.alloc(), NAMES)?;
    let rows: [Row; 9] = [
        ((6, 0, None), Some((11, None))),
        ((6, 1, Some(0)), Some((18, None))),
        ((6, 1, Some(1)), Some((20, None))),
        ((7, 1, None), Some((28, None))),
        ((7, 1, Some(0)), None),
        ((8, 0, None), Some((34, None))),
        ((8, 1, None), None),
        ((0, 0, None), None),
        ((12, 0, None), None),
    ];
    lie_there(&rt, rt.alloc(), bytes.as_slice(), &rows)
}

// What comes in front of the place is malformed, or there is no header.
#[test]
fn finds_nothing_behind_a_fault(rt: HostRuntime) -> Result<(), Fail> {
    let alloc = rt.alloc();
    let bad_type = behind_header(alloc, b"\x01\x05\x02\x61\0\0\x60\x03\x02\x01\0")?;
    let rows: [Row; 3] = [
        ((1, 0, None), Some((11, None))),
        ((1, 1, None), None),
        ((3, 0, None), Some((18, None))),
    ];
    lie_there(&rt, alloc, bad_type.as_slice(), &rows)?;
    lie_there(&rt, alloc, b"\0asm", &[((1, 0, None), None)])
}

// Tokens of codes by their offsets: one with an operand, an opener, an `else`, an `end`, and what is none.
#[test]
fn reads_tokens(rt: HostRuntime) -> Result<(), Fail> {
    let alloc = rt.alloc();
    let bytes = behind_header(alloc, CODES)?;
    let mut reader = TokenReader::new(alloc);
    let rows: [(u32, Option<Token>); 6] = [
        (48, Some(Token::I32Const(0))),
        (52, Some(Token::Nop)),
        (53, Some(Token::Else { skip: 0 })),
        (54, Some(Token::End)),
        (56, Some(Token::End)),
        (57, None),
    ];
    for (offset, wanted) in rows {
        let token = read_token(&mut reader, bytes.as_slice(), Profile::Core, offset)?;
        assert_eq!(rt; token, wanted, "{offset}");
    }
    Ok(())
}

#[test]
fn lends_the_labels_of_a_table(rt: HostRuntime) -> Result<(), Fail> {
    let mut reader = TokenReader::new(rt.alloc());
    let token = read_token(&mut reader, b"\x01\x0e\x02\x07\x08\x09", Profile::Core, 1)?;
    let wanted = Token::BrTable {
        start: 0,
        len: 2,
        other: 9,
    };
    assert_eq!(rt; token, Some(wanted));
    assert_eq!(rt; reader.labels(), [7, 8].as_slice());
    Ok(())
}

// The first fault of an input, and the function in whose body it is said to lie.
fn faulty(alloc: Global, sections: &[u8]) -> Result<(ReadFault, Option<u32>), Fail> {
    let bytes = behind_header(alloc, sections)?;
    let Err(fault) = read_in(alloc, bytes.as_slice(), Profile::Core) else {
        return Err("no fault".into());
    };
    let func = func_of_fault(alloc, bytes.as_slice(), Profile::Core, &fault)?;
    Ok((fault, func))
}

#[test]
fn finds_the_body_of_a_first_fault(rt: HostRuntime) -> Result<(), Fail> {
    // A type, an imported function, and two functions.
    const FRONT: &[u8] = b"\x01\x04\x01\x60\0\0\x02\x05\x01\0\0\0\0\x03\x03\x02\0\0";
    let alloc = rt.alloc();
    let rows: [(&[u8], ReadKind, u32, Option<u32>); 5] = [
        // an opcode that is none, in the first body and in the second
        (
            b"\x0a\x08\x02\x03\0\xff\x0b\x02\0\x0b",
            ReadKind::UnknownOpcode,
            31,
            Some(1),
        ),
        (
            b"\x0a\x08\x02\x02\0\x0b\x03\0\xff\x0b",
            ReadKind::UnknownOpcode,
            34,
            Some(2),
        ),
        // a body that has no end
        (
            b"\x0a\x07\x02\x02\0\x0b\x02\0\x01",
            ReadKind::UnexpectedEnd,
            35,
            Some(2),
        ),
        // a size that counts too many bytes, and a count that is another one
        (
            b"\x0a\x07\x02\x02\0\x0b\x03\0\x0b",
            ReadKind::UnexpectedEnd,
            33,
            None,
        ),
        (b"\x0a\x04\x01\x02\0\x0b", ReadKind::FuncCodeCount, 28, None),
    ];
    for (code, kind, at, wanted) in rows {
        let mut sections = Vec::from_slice(alloc, FRONT)?;
        sections.extend_from_slice(code)?;
        let (fault, func) = faulty(alloc, sections.as_slice())?;
        assert_eq!(rt; fault, ReadFault { kind, at }, "{code:?}");
        assert_eq!(rt; func, wanted, "{code:?}");
    }
    Ok(())
}

// The entry that the fault of an invalid module means.
fn entry_told(alloc: Global, sections: &[u8]) -> Result<Option<u32>, Fail> {
    let bytes = behind_header(alloc, sections)?;
    let Verdict::Invalid(fault) = judge_bytes(alloc, bytes.as_slice(), Profile::Core)? else {
        return Err("a fault".into());
    };
    Ok(entry_of_fault(alloc, bytes.as_slice(), Profile::Core, &fault)?)
}

// Two imported functions and a memory, a function, and a table: the module has the functions 0 to 2.
const FUNCS: &[u8] = b"\x01\x04\x01\x60\0\0\
    \x02\x0e\x03\0\0\0\0\0\0\x02\0\0\0\0\0\0\
    \x03\x02\x01\0\
    \x04\x04\x01\x70\0\x08";

const BODY: &[u8] = b"\x0a\x04\x01\x02\0\x0b";

#[test]
fn tells_entries_of_segments(rt: HostRuntime) -> Result<(), Fail> {
    let alloc = rt.alloc();
    let rows: [(&[u8], Option<u32>); 9] = [
        // the first, one in the middle, and the last
        (b"\x09\x09\x01\0\x41\0\x0b\x03\x03\0\x01", Some(0)),
        (b"\x09\x09\x01\0\x41\0\x0b\x03\x02\x05\x01", Some(1)),
        (b"\x09\x09\x01\0\x41\0\x0b\x03\x02\x01\x03", Some(2)),
        // two that are unknown
        (b"\x09\x09\x01\0\x41\0\x0b\x03\0\x7f\x03", Some(1)),
        // of a second segment, whose count, table, offset and indices are padded
        (
            b"\x09\x13\x02\0\x41\0\x0b\x01\0\x80\0\x41\x80\0\x0b\x82\0\x82\0\x83\0",
            Some(1),
        ),
        // a segment of one function
        (b"\x09\x07\x01\0\x41\0\x0b\x01\x03", None),
        // an offset that is no constant of its type, and a table that is not there, in front of an unknown function
        (b"\x09\x08\x01\0\x42\0\x0b\x02\0\x03", None),
        (b"\x09\x08\x01\x01\x41\0\x0b\x02\0\x03", None),
        // an unknown function that is exported
        (b"\x07\x05\x01\x01a\0\x03", None),
    ];
    for (wrong, wanted) in rows {
        let mut sections = Vec::from_slice(alloc, FUNCS)?;
        sections.extend_from_slice(wrong)?;
        sections.extend_from_slice(BODY)?;
        let entry = entry_told(alloc, sections.as_slice())?;
        assert_eq!(rt; entry, wanted, "{wrong:?}");
    }
    Ok(())
}

// Where neither section of functions is there, each function is unknown; and a fault that is of no segment of the module means no entry.
#[test]
fn tells_entries_of_a_module_without_functions(rt: HostRuntime) -> Result<(), Fail> {
    let alloc = rt.alloc();
    let sections = b"\x04\x04\x01\x70\0\x08\x09\x08\x01\0\x41\0\x0b\x02\0\0";
    assert_eq!(rt; entry_told(alloc, sections)?, Some(0));
    let bytes = behind_header(alloc, sections)?;
    for (section, item, token) in [(9, 1, None), (9, 0, Some(0)), (11, 0, None)] {
        let place = Place {
            section,
            item,
            token,
        };
        let kind = FaultKind::UnknownFunc;
        let fault = Fault { kind, place };
        let entry = entry_of_fault(alloc, bytes.as_slice(), Profile::Core, &fault)?;
        assert_eq!(rt; entry, None, "{place:?}");
    }
    Ok(())
}
