//! The texts of verdicts.

ghost use Rattle.std.specs.Prelude.{Some};
ghost use Rattle.wk_typing.specs.VerdictText.{fault_kind_text, fault_text, place_text, verdict_text};

use crate::fault::{Fault, FaultKind, Place, Verdict};
use std::fmt;

/// The number and the name of the kind, as in `V15 StackHeight`.
impl fmt::Display for FaultKind {
    ghost output = { λ x. Some (fault_kind_text x) };

    fn fmt<W: fmt::Write>(&self, f: &mut fmt::Formatter<W>) -> fmt::Result {
        f.write_str(match self {
            FaultKind::TypeArity => "V1 TypeArity",
            FaultKind::UnknownType => "V2 UnknownType",
            FaultKind::LimitsOrder => "V3 LimitsOrder",
            FaultKind::MemoryRange => "V4 MemoryRange",
            FaultKind::TooManyTables => "V5 TooManyTables",
            FaultKind::TooManyMemories => "V6 TooManyMemories",
            FaultKind::UnknownFunc => "V7 UnknownFunc",
            FaultKind::UnknownTable => "V8 UnknownTable",
            FaultKind::UnknownMemory => "V9 UnknownMemory",
            FaultKind::UnknownGlobal => "V10 UnknownGlobal",
            FaultKind::UnknownLocal => "V11 UnknownLocal",
            FaultKind::UnknownLabel => "V12 UnknownLabel",
            FaultKind::StackUnderflow => "V13 StackUnderflow",
            FaultKind::TypeMismatch => "V14 TypeMismatch",
            FaultKind::StackHeight => "V15 StackHeight",
            FaultKind::LabelTypes => "V16 LabelTypes",
            FaultKind::GlobalImmutable => "V17 GlobalImmutable",
            FaultKind::Alignment => "V18 Alignment",
            FaultKind::ConstantExpected => "V19 ConstantExpected",
            FaultKind::DuplicateExport => "V20 DuplicateExport",
            FaultKind::StartType => "V21 StartType",
        })
    }
}

/// The numbers in decimal, as in `section 10 item 0 token 1`.
/// Without an instruction the last two words are left out.
impl fmt::Display for Place {
    ghost output = { λ x. Some (place_text x) };

    fn fmt<W: fmt::Write>(&self, f: &mut fmt::Formatter<W>) -> fmt::Result {
        let section = self.section;
        let item = self.item;
        match self.token {
            Some(token) => write!(f, "section {section} item {item} token {token}"),
            None => write!(f, "section {section} item {item}"),
        }
    }
}

/// The kind and the place, as in `V1 TypeArity at section 1 item 0`.
impl fmt::Display for Fault {
    ghost output = { λ x. Some (fault_text x) };

    fn fmt<W: fmt::Write>(&self, f: &mut fmt::Formatter<W>) -> fmt::Result {
        let kind = self.kind;
        let place = self.place;
        write!(f, "{kind} at {place}")
    }
}

/// `valid`, or `invalid` and the fault.
impl fmt::Display for Verdict {
    ghost output = { λ x. Some (verdict_text x) };

    fn fmt<W: fmt::Write>(&self, f: &mut fmt::Formatter<W>) -> fmt::Result {
        match self {
            Verdict::Valid => f.write_str("valid"),
            Verdict::Invalid(fault) => write!(f, "invalid {fault}"),
        }
    }
}
