//! A fault and its place, in numbers.

ghost use Rattle.std.specs.Prelude.{◌≡◌, ◌≤◌, ◌++◌, drop, length};
ghost use Rattle.wk_ffi.specs.Numbers.{func_in, in_order, invalid_numbers, malformed_numbers, offset_in, or_none, read_number, valid_numbers, verdict_number};

use wk_bytes::{ReadFault, ReadKind};
use wk_check::{Fault, FaultKind};
use wk_place::Located;

/// How many numbers a fault and its place are.
pub const COUNT: usize = 6;

// Stands for a number that there is not.
const NONE: u32 = u32::MAX;

/// The fault of bytes and its place, as `struct wasmkit_fault` has them. A number that there is not is 4,294,967,295.
#[derive(Clone, Copy, Debug, PartialEq, Eq)]
pub struct FaultNumbers {
    /// 1 to 21 for V1 to V21 of an invalid module, 1 to 16 for R1 to R16 of bytes that are no module, and 0 of a valid module.
    pub fault: u32,
    /// The id of the section, 1 to 11, of an invalid module.
    pub section: u32,
    /// The item, counted from 0 in the section's own list, of an invalid module.
    pub item: u32,
    /// The token, counted from 0 in written order, where the verdict names one.
    pub token: u32,
    /// The offset of the fault, in bytes from the first: of an invalid module that of the first byte of the token or else of the item.
    pub offset: u32,
    /// The index in the function index space (2.5.1) of the function in whose body the fault is.
    pub function: u32,
}

// The number in V1 to V21.
fn verdict_number(kind: FaultKind) -> u32
    ensures { result ≡ verdict_number kind }
{
    match kind {
        FaultKind::TypeArity => 1,
        FaultKind::UnknownType => 2,
        FaultKind::LimitsOrder => 3,
        FaultKind::MemoryRange => 4,
        FaultKind::TooManyTables => 5,
        FaultKind::TooManyMemories => 6,
        FaultKind::UnknownFunc => 7,
        FaultKind::UnknownTable => 8,
        FaultKind::UnknownMemory => 9,
        FaultKind::UnknownGlobal => 10,
        FaultKind::UnknownLocal => 11,
        FaultKind::UnknownLabel => 12,
        FaultKind::StackUnderflow => 13,
        FaultKind::TypeMismatch => 14,
        FaultKind::StackHeight => 15,
        FaultKind::LabelTypes => 16,
        FaultKind::GlobalImmutable => 17,
        FaultKind::Alignment => 18,
        FaultKind::ConstantExpected => 19,
        FaultKind::DuplicateExport => 20,
        FaultKind::StartType => 21,
    }
}

// The number in R1 to R17, of which the last, want of memory, is no fault of the bytes.
fn read_number(kind: ReadKind) -> u32
    ensures { result ≡ read_number kind }
{
    match kind {
        ReadKind::BadMagic => 1,
        ReadKind::BadVersion => 2,
        ReadKind::UnexpectedEnd => 3,
        ReadKind::IntTooLong => 4,
        ReadKind::IntTooLarge => 5,
        ReadKind::UnknownSection => 6,
        ReadKind::SectionOrder => 7,
        ReadKind::SectionSize => 8,
        ReadKind::BadUtf8 => 9,
        ReadKind::BadByte => 10,
        ReadKind::UnknownOpcode => 11,
        ReadKind::TooManyLocals => 12,
        ReadKind::FuncCodeCount => 13,
        ReadKind::BodySize => 14,
        ReadKind::TooDeep => 15,
        ReadKind::LongInput => 16,
        ReadKind::Memory => 17,
    }
}

// The number, where there is one.
fn or_none(number: Option<u32>) -> u32
    ensures { result ≡ or_none number }
{
    number.unwrap_or(NONE)
}

// The offset of a place that was found.
fn offset_in(located: Option<Located>) -> u32
    ensures { result ≡ or_none (offset_in located) }
{
    match located {
        Some(located) => located.offset,
        None => NONE,
    }
}

// The function of a place that was found.
fn func_in(located: Option<Located>) -> u32
    ensures { result ≡ or_none (func_in located) }
{
    match located {
        Some(located) => or_none(located.func),
        None => NONE,
    }
}

impl FaultNumbers {
    /// Of a valid module.
    pub fn of_valid() -> FaultNumbers
        ensures { result ≡ valid_numbers }
    {
        FaultNumbers {
            fault: 0,
            section: NONE,
            item: NONE,
            token: NONE,
            offset: NONE,
            function: NONE,
        }
    }

    /// Of an invalid module, in whose bytes the place of the fault was looked for.
    pub fn of_invalid(fault: &Fault, located: Option<Located>) -> FaultNumbers
        ensures { result ≡ invalid_numbers fault.now located }
    {
        FaultNumbers {
            fault: verdict_number(fault.kind),
            section: u32::from(fault.place.section),
            item: fault.place.item,
            token: or_none(fault.place.token),
            offset: offset_in(located),
            function: func_in(located),
        }
    }

    /// Of bytes that are no module, whose fault lies in the body of a function, or in none.
    pub fn of_malformed(fault: &ReadFault, func: Option<u32>) -> FaultNumbers
        ensures { result ≡ malformed_numbers fault.now func }
    {
        FaultNumbers {
            fault: read_number(fault.kind),
            section: NONE,
            item: NONE,
            token: NONE,
            offset: fault.at,
            function: or_none(func),
        }
    }

    /// Puts the numbers in front of what memory holds.
    pub fn put(&self, numbers: &mut [u32])
        requires { 6 ≤ length numbers.old }
        ensures { numbers.new ≡ in_order self.now ++ drop 6 numbers.old }
    {
        let (front, _) = numbers.split_at_mut(COUNT);
        front.copy_from_slice(&[
            self.fault,
            self.section,
            self.item,
            self.token,
            self.offset,
            self.function,
        ]);
    }
}
