//! Modules that are read section by section, and code by code.

use std::alloc::Global;
use std::test::Fail;
use wk_bytes::{RawSection, ReadFault, ReadKind};
use wk_module::{
    Body, CodeReader, Lists, OwnedLists, Profile, Scratch, SectionReader, encode_body,
};
use wk_samples::modules::{CODES_OF_TWO, TWO_CODES};

type UpToCode<'a> = Result<(SectionReader<'a>, Option<RawSection<'a>>), ReadFault>;

// What reading up to the code section gives.
fn up_to_code(alloc: Global, bytes: &[u8]) -> UpToCode<'_> {
    SectionReader::new(alloc, bytes, Profile::Core).up_to_code(alloc, &mut Scratch::new(alloc))
}

fn is_encoded(alloc: Global, body: &Body, bytes: &[u8]) -> bool {
    match encode_body(alloc, body) {
        Ok(written) => written.as_slice() == bytes,
        Err(_) => false,
    }
}

// Whether the next code is this one.
fn is_next(alloc: Global, codes: &mut CodeReader<'_>, bytes: &[u8]) -> bool {
    match codes.next(alloc, &mut Scratch::new(alloc), Profile::Core) {
        Ok(body) => is_encoded(alloc, &body, bytes),
        Err(_) => false,
    }
}

// Whether the next code has these bytes.
fn are_next_bytes(codes: &mut CodeReader<'_>, bytes: &[u8]) -> bool {
    match codes.next_code() {
        Ok(code) => code.rest() == bytes,
        Err(_) => false,
    }
}

// Whether the codes are those of the module, read as bodies and then as bytes.
fn holds_codes(alloc: Global, section: &RawSection<'_>) -> bool {
    let (Ok(mut codes), Ok(mut bytes)) = (
        CodeReader::open(section, 2),
        CodeReader::open(section, 2),
    ) else {
        return false;
    };
    for code in CODES_OF_TWO {
        if !is_next(alloc, &mut codes, code) || !are_next_bytes(&mut bytes, code) {
            return false;
        }
    }
    codes.end() == Ok(()) && bytes.end() == Ok(())
}

// Whether there are so many functions and data segments.
fn has(lists: &Lists<'_>, funcs: &[u32], datas: usize) -> bool {
    lists.funcs == funcs && lists.datas.len() == datas
}

// The lists of a module whose codes were read, without the reader.
fn lists_to_end(alloc: Global, reader: SectionReader<'_>) -> Option<OwnedLists> {
    match reader.to_end(alloc, &mut Scratch::new(alloc)) {
        Ok(reader) => Some(reader.into_lists()),
        Err(_) => None,
    }
}

// Whether what stands behind the codes is read.
fn reads_the_rest(alloc: Global, reader: SectionReader<'_>, funcs: &[u32]) -> bool {
    match lists_to_end(alloc, reader) {
        Some(lists) => has(&lists.lists(), funcs, 1),
        None => false,
    }
}

// Whether the section holds the codes, if there is one.
fn are_codes(alloc: Global, section: &Option<RawSection<'_>>) -> bool {
    match section {
        Some(section) => holds_codes(alloc, section),
        None => false,
    }
}

fn reads_two(alloc: Global) -> bool {
    match up_to_code(alloc, TWO_CODES) {
        Ok((reader, section)) => {
            let is_front = has(&reader.lists(), &[0, 0], 0) && are_codes(alloc, &section);
            let is_rest = reads_the_rest(alloc, reader, &[0, 0]);
            is_front && is_rest
        }
        Err(_) => false,
    }
}

// Functions that wait for their codes, and a data segment.
const NO_CODES: &[u8] =
    b"\0asm\x01\0\0\0\x03\x03\x02\x05\x06\x00\x01\x00\x0b\x06\x01\x00\x41\x00\x0b\x00";

fn reads_none(alloc: Global) -> bool {
    match up_to_code(alloc, NO_CODES) {
        Ok((reader, section)) => {
            let is_front = has(&reader.lists(), &[5, 6], 1) && section.is_none();
            let is_rest = reads_the_rest(alloc, reader, &[5, 6]);
            is_front && is_rest
        }
        Err(_) => false,
    }
}

#[test]
fn reads_sections_and_codes(rt: HostRuntime) -> Result<(), Fail> {
    assert!(rt; reads_two(rt.alloc()) && reads_none(rt.alloc()));
    Ok(())
}

// What is wrong in front of a code section, which is not looked into.
fn fault_in_front(alloc: Global, bytes: &[u8]) -> Option<ReadFault> {
    up_to_code(alloc, bytes).err()
}

// What is wrong behind it.
fn fault_behind(alloc: Global, bytes: &[u8]) -> Option<ReadFault> {
    match up_to_code(alloc, bytes) {
        Ok((reader, _)) => reader.to_end(alloc, &mut Scratch::new(alloc)).err(),
        Err(_) => None,
    }
}

// Modules whose codes are none, with what is wrong behind them.
const WRONG_BEHIND: [(&[u8], ReadFault); 4] = [
    (
        b"\0asm\x01\0\0\0\x0a\x01\xff\x00\x02\x01\xff",
        ReadFault {
            kind: ReadKind::BadUtf8,
            at: 14,
        },
    ),
    (
        b"\0asm\x01\0\0\0\x0a\x01\xff\x0a\x01\0",
        ReadFault {
            kind: ReadKind::SectionOrder,
            at: 11,
        },
    ),
    (
        b"\0asm\x01\0\0\0\x0a\x01\xff\x0b\x06\x01\0\x41\0\x05\0",
        ReadFault {
            kind: ReadKind::UnknownOpcode,
            at: 17,
        },
    ),
    (
        b"\0asm\x01\0\0\0\x0a\x01\xff\x0b\x01\0\x0c",
        ReadFault {
            kind: ReadKind::UnknownSection,
            at: 14,
        },
    ),
];

// The first of these faults that is not found.
fn wrong_behind(alloc: Global) -> Option<ReadFault> {
    for (bytes, fault) in WRONG_BEHIND {
        if fault_behind(alloc, bytes) != Some(fault) {
            return Some(fault);
        }
    }
    None
}

#[test]
fn refuses_what_is_wrong_around_codes(rt: HostRuntime) -> Result<(), Fail> {
    assert_eq!(rt; wrong_behind(rt.alloc()), None);
    let name = ReadFault {
        kind: ReadKind::BadUtf8,
        at: 11,
    };
    let front = b"\0asm\x01\0\0\0\x00\x02\x01\xff\x0a\x01\xff";
    assert_eq!(rt; fault_in_front(rt.alloc(), front), Some(name));
    Ok(())
}
