//! What a verdict says.

ghost use Rattle.std.specs.Prelude.{◌≡◌, None};
ghost use Rattle.wk_typing.specs.Faults.{fault_at};
ghost use Rattle.wk_typing.specs.Faults.{body_flaw};

/// What is wrong with a module, V1 to V21 in this order.
#[derive(Clone, Copy, Debug, PartialEq, Eq)]
pub enum FaultKind {
    /// V1: a function type has more than one result.
    TypeArity,
    /// V2: there is no type of that index.
    UnknownType,
    /// V3: the least size is above the greatest.
    LimitsOrder,
    /// V4: a size of a memory is above 65,536 pages.
    MemoryRange,
    /// V5: there is more than one table.
    TooManyTables,
    /// V6: there is more than one memory.
    TooManyMemories,
    /// V7: there is no function of that index.
    UnknownFunc,
    /// V8: there is no table of that index.
    UnknownTable,
    /// V9: there is no memory of that index.
    UnknownMemory,
    /// V10: there is no global of that index.
    UnknownGlobal,
    /// V11: there is no local of that index.
    UnknownLocal,
    /// V12: there is no label of that index.
    UnknownLabel,
    /// V13: an operand is missing.
    StackUnderflow,
    /// V14: an operand has another type.
    TypeMismatch,
    /// V15: operands are left at the end of a block.
    StackHeight,
    /// V16: two labels of a `br_table` have different types.
    LabelTypes,
    /// V17: a constant global is set.
    GlobalImmutable,
    /// V18: an alignment is above the width of the access.
    Alignment,
    /// V19: an instruction of a constant expression is not constant.
    ConstantExpected,
    /// V20: two exports have one name.
    DuplicateExport,
    /// V21: the start function takes or gives values, or has no known type.
    StartType,
}

/// Where a fault stands.
#[derive(Clone, Copy, Debug, PartialEq, Eq)]
pub struct Place {
    /// The id of the section, 1 to 11.
    pub section: u8,
    /// The item, counted from 0 in the section's own list.
    pub item: u32,
    /// The instruction of a body or an expression, counted from 0 in written order.
    pub token: Option<u32>,
}

/// The first thing that is wrong with a module.
#[derive(Clone, Copy, Debug, PartialEq, Eq)]
pub struct Fault {
    /// What is wrong.
    pub kind: FaultKind,
    /// Where.
    pub place: Place,
}

/// Whether a module is valid (chapter 3 of the standard).
#[derive(Clone, Copy, Debug, PartialEq, Eq)]
pub enum Verdict {
    /// Nothing is wrong.
    Valid,
    /// This comes first.
    Invalid(Fault),
}

/// Whether a body is valid under its type (3.4.1).
#[derive(Clone, Copy, Debug, PartialEq, Eq)]
pub enum BodyVerdict {
    /// Nothing is wrong.
    Valid,
    /// This comes first.
    Invalid {
        /// What is wrong.
        kind: FaultKind,
        /// The instruction, counted from 0 in written order with `else` and `end`.
        token: u32,
    },
}

impl BodyVerdict {
    /// What is wrong with the body, if anything is.
    pub fn flaw(self) -> Option<Flaw>
        ensures { result ≡ body_flaw self }
    {
        match self {
            BodyVerdict::Valid => None,
            BodyVerdict::Invalid { kind, token } => Some(Flaw {
                kind,
                token: Some(token),
            }),
        }
    }
}

/// What is wrong with an item of a section.
#[derive(Clone, Copy, Debug, PartialEq, Eq)]
pub struct Flaw {
    /// What is wrong.
    pub kind: FaultKind,
    /// The instruction of a body or an expression.
    pub token: Option<u32>,
}

impl Flaw {
    /// A flaw of the whole item.
    pub fn of(kind: FaultKind) -> Flaw
        ensures { result ≡ record { kind = kind; token = None } }
    {
        Flaw { kind, token: None }
    }

    /// The flaw, at its place.
    pub fn at(self, section: u8, item: u32) -> Fault
        ensures { result ≡ fault_at section item self }
    {
        Fault {
            kind: self.kind,
            place: Place {
                section,
                item,
                token: self.token,
            },
        }
    }
}
