//! The texts of faults.

ghost use Rattle.std.specs.Prelude.{Some, codes};
ghost use Rattle.wk_bytes.specs.FaultText.{read_fault_text, read_kind_text};

use crate::fault::{ReadFault, ReadKind};
use crate::memory::OutOfMemory;
use crate::output::OutFault;
use std::error::Error;
use std::fmt;

/// The number and the name of the kind, as in `R5 IntTooLarge`.
impl fmt::Display for ReadKind {
    ghost output = { λ x. Some (read_kind_text x) };

    fn fmt<W: fmt::Write>(&self, f: &mut fmt::Formatter<W>) -> fmt::Result {
        f.write_str(match self {
            ReadKind::BadMagic => "R1 BadMagic",
            ReadKind::BadVersion => "R2 BadVersion",
            ReadKind::UnexpectedEnd => "R3 UnexpectedEnd",
            ReadKind::IntTooLong => "R4 IntTooLong",
            ReadKind::IntTooLarge => "R5 IntTooLarge",
            ReadKind::UnknownSection => "R6 UnknownSection",
            ReadKind::SectionOrder => "R7 SectionOrder",
            ReadKind::SectionSize => "R8 SectionSize",
            ReadKind::BadUtf8 => "R9 BadUtf8",
            ReadKind::BadByte => "R10 BadByte",
            ReadKind::UnknownOpcode => "R11 UnknownOpcode",
            ReadKind::TooManyLocals => "R12 TooManyLocals",
            ReadKind::FuncCodeCount => "R13 FuncCodeCount",
            ReadKind::BodySize => "R14 BodySize",
            ReadKind::TooDeep => "R15 TooDeep",
            ReadKind::LongInput => "R16 LongInput",
            ReadKind::Memory => "R17 Memory",
        })
    }
}

/// The kind, and the offset in eight hexadecimal digits, as in `R5 IntTooLarge at 0x00000009`.
impl fmt::Display for ReadFault {
    ghost output = { λ x. Some (read_fault_text x) };

    fn fmt<W: fmt::Write>(&self, f: &mut fmt::Formatter<W>) -> fmt::Result {
        let kind = self.kind;
        let at = self.at;
        write!(f, "{kind} at 0x{at:08x}")
    }
}

impl Error for ReadFault {}

impl fmt::Display for OutOfMemory {
    ghost output = { λ _. Some (codes "out of memory") };

    fn fmt<W: fmt::Write>(&self, f: &mut fmt::Formatter<W>) -> fmt::Result {
        f.write_str("out of memory")
    }
}

impl Error for OutOfMemory {}

impl fmt::Display for OutFault {
    ghost output = { λ _. Some (codes "the output failed") };

    fn fmt<W: fmt::Write>(&self, f: &mut fmt::Formatter<W>) -> fmt::Result {
        f.write_str("the output failed")
    }
}

impl Error for OutFault {}
