//! The texts of faults and of verdicts.

use std::alloc::{AllocError, Global};
use std::fmt;
use std::test::Fail;
use wk_bytes::{OutFault, OutOfMemory, ReadFault, ReadKind};
use wk_check::{Fault, FaultKind, Place, Verdict};
use wk_edit::{RunFault, ScriptFault, malformed_line, verdict_line};
use wk_session::EditFault;

static READ_KINDS: [(ReadKind, &str); 17] = [
    (ReadKind::BadMagic, "R1 BadMagic"),
    (ReadKind::BadVersion, "R2 BadVersion"),
    (ReadKind::UnexpectedEnd, "R3 UnexpectedEnd"),
    (ReadKind::IntTooLong, "R4 IntTooLong"),
    (ReadKind::IntTooLarge, "R5 IntTooLarge"),
    (ReadKind::UnknownSection, "R6 UnknownSection"),
    (ReadKind::SectionOrder, "R7 SectionOrder"),
    (ReadKind::SectionSize, "R8 SectionSize"),
    (ReadKind::BadUtf8, "R9 BadUtf8"),
    (ReadKind::BadByte, "R10 BadByte"),
    (ReadKind::UnknownOpcode, "R11 UnknownOpcode"),
    (ReadKind::TooManyLocals, "R12 TooManyLocals"),
    (ReadKind::FuncCodeCount, "R13 FuncCodeCount"),
    (ReadKind::BodySize, "R14 BodySize"),
    (ReadKind::TooDeep, "R15 TooDeep"),
    (ReadKind::LongInput, "R16 LongInput"),
    (ReadKind::Memory, "R17 Memory"),
];

static FAULT_KINDS: [(FaultKind, &str); 21] = [
    (FaultKind::TypeArity, "V1 TypeArity"),
    (FaultKind::UnknownType, "V2 UnknownType"),
    (FaultKind::LimitsOrder, "V3 LimitsOrder"),
    (FaultKind::MemoryRange, "V4 MemoryRange"),
    (FaultKind::TooManyTables, "V5 TooManyTables"),
    (FaultKind::TooManyMemories, "V6 TooManyMemories"),
    (FaultKind::UnknownFunc, "V7 UnknownFunc"),
    (FaultKind::UnknownTable, "V8 UnknownTable"),
    (FaultKind::UnknownMemory, "V9 UnknownMemory"),
    (FaultKind::UnknownGlobal, "V10 UnknownGlobal"),
    (FaultKind::UnknownLocal, "V11 UnknownLocal"),
    (FaultKind::UnknownLabel, "V12 UnknownLabel"),
    (FaultKind::StackUnderflow, "V13 StackUnderflow"),
    (FaultKind::TypeMismatch, "V14 TypeMismatch"),
    (FaultKind::StackHeight, "V15 StackHeight"),
    (FaultKind::LabelTypes, "V16 LabelTypes"),
    (FaultKind::GlobalImmutable, "V17 GlobalImmutable"),
    (FaultKind::Alignment, "V18 Alignment"),
    (FaultKind::ConstantExpected, "V19 ConstantExpected"),
    (FaultKind::DuplicateExport, "V20 DuplicateExport"),
    (FaultKind::StartType, "V21 StartType"),
];

const STACK_HEIGHT: Fault = Fault {
    kind: FaultKind::StackHeight,
    place: Place {
        section: 10,
        item: 0,
        token: Some(1),
    },
};

const UNKNOWN_OPCODE: ReadFault = ReadFault {
    kind: ReadKind::UnknownOpcode,
    at: 1,
};

static EDIT_FAULTS: [(EditFault, &str); 8] = [
    (EditFault::NoSuchFunction, "E1 NoSuchFunction"),
    (EditFault::NoSuchExport, "E2 NoSuchExport"),
    (EditFault::NoSuchCustom, "E3 NoSuchCustom"),
    (EditFault::IndexOverflow, "E4 IndexOverflow"),
    (EditFault::TooLarge, "E5 TooLarge"),
    (
        EditFault::BadBytes(UNKNOWN_OPCODE),
        "E6 BadBytes R11 UnknownOpcode at 0x00000001",
    ),
    (
        EditFault::WouldBreak(STACK_HEIGHT),
        "E7 WouldBreak V15 StackHeight at section 10 item 0 token 1",
    ),
    (EditFault::Memory, "E8 Memory"),
];

static OFFSETS: [(u32, &str); 5] = [
    (0, "R5 IntTooLarge at 0x00000000"),
    (9, "R5 IntTooLarge at 0x00000009"),
    (0xab_cdef, "R5 IntTooLarge at 0x00abcdef"),
    (2_147_483_647, "R5 IntTooLarge at 0x7fffffff"),
    (u32::MAX, "R5 IntTooLarge at 0xffffffff"),
];

static ENDS: [(RunFault, &str); 3] = [
    (RunFault::Out, "cannot write the module"),
    (RunFault::Report, "cannot write the report"),
    (RunFault::Memory, "out of memory"),
];

static SCRIPT_FAULTS: [(ScriptFault, &str); 3] = [
    (ScriptFault::BadWord { line: 3 }, "S1 BadWord line 3"),
    (ScriptFault::NotAscii { line: 12 }, "S2 NotAscii line 12"),
    (ScriptFault::Memory, "S3 Memory"),
];

static VERDICTS: [(Verdict, &str); 2] = [
    (Verdict::Valid, "valid"),
    (
        Verdict::Invalid(STACK_HEIGHT),
        "invalid V15 StackHeight at section 10 item 0 token 1",
    ),
];

static PLACES: [(Place, &str); 1] = [(
    Place {
        section: 1,
        item: u32::MAX,
        token: None,
    },
    "section 1 item 4294967295",
)];

static MEMORY: [(OutOfMemory, &str); 1] = [(OutOfMemory, "out of memory")];

static OUTPUT: [(OutFault, &str); 1] = [(OutFault, "the output failed")];

fn is_text<T: fmt::Display>(alloc: Global, value: &T, text: &str) -> bool {
    match format!(in alloc; "{value}") {
        Ok(found) => found.as_str() == text,
        Err(_) => false,
    }
}

// The text of the first of these values that has another.
fn wrong_text<T: fmt::Display>(
    alloc: Global,
    rows: &'static [(T, &'static str)],
) -> Option<&'static str> {
    for (value, text) in rows {
        if !is_text(alloc, value, text) {
            return Some(*text);
        }
    }
    None
}

// The same of offsets.
fn wrong_offset(alloc: Global) -> Option<&'static str> {
    for (at, text) in &OFFSETS {
        let fault = ReadFault {
            kind: ReadKind::IntTooLarge,
            at: *at,
        };
        if !is_text(alloc, &fault, text) {
            return Some(*text);
        }
    }
    None
}

#[test]
fn names_faults(rt: HostRuntime) -> Result<(), Fail> {
    let alloc = rt.alloc();
    assert_eq!(rt; wrong_text(alloc, &READ_KINDS), None);
    assert_eq!(rt; wrong_text(alloc, &FAULT_KINDS), None);
    assert_eq!(rt; wrong_text(alloc, &EDIT_FAULTS), None);
    assert_eq!(rt; wrong_text(alloc, &SCRIPT_FAULTS), None);
    assert_eq!(rt; wrong_offset(alloc), None);
    Ok(())
}

#[test]
fn names_ends(rt: HostRuntime) -> Result<(), Fail> {
    let alloc = rt.alloc();
    assert_eq!(rt; wrong_text(alloc, &ENDS), None);
    assert_eq!(rt; wrong_text(alloc, &VERDICTS), None);
    assert_eq!(rt; wrong_text(alloc, &PLACES), None);
    assert_eq!(rt; wrong_text(alloc, &MEMORY), None);
    assert_eq!(rt; wrong_text(alloc, &OUTPUT), None);
    Ok(())
}

// Whether lines end with a line feed.
fn writes_lines(alloc: Global) -> Result<bool, AllocError> {
    let malformed = malformed_line(alloc, &UNKNOWN_OPCODE)?;
    let verdict = verdict_line(alloc, &Verdict::Invalid(STACK_HEIGHT))?;
    Ok(
        malformed.as_str() == "malformed R11 UnknownOpcode at 0x00000001\n"
            && verdict.as_str() == "invalid V15 StackHeight at section 10 item 0 token 1\n",
    )
}

#[test]
fn ends_lines(rt: HostRuntime) -> Result<(), Fail> {
    assert_eq!(rt; writes_lines(rt.alloc()), Ok(true));
    Ok(())
}
