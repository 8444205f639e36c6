//! Tokens that are as short as they may be. A table tells instructions that have a byte for each of their integers, ends, and openers of
//! blocks whose type has one byte; those with integers of two bytes or with words are told by the kind of their immediates,
//! and `br_table` by its labels.

ghost use Rattle.std.specs.Prelude.{ℕ, ◌+◌, ◌*◌, ◌≡◌, ◌<◌, ◌≤◌, ◌^◌, ◌%◌, true, false, ◌⊎◌, length, reverse, get_or};
ghost use Rattle.wk_body.specs.declared.types.Profile.TheVariants.{Core};
ghost use Rattle.wk_body.specs.Instructions.{form_of};
ghost use Rattle.wk_body.specs.ImmediateKinds.{imm_kind_in};
ghost use Rattle.wk_body.specs.TokenLen.{IsMinimal};
ghost use Rattle.wk_body.specs.Minimal.{number_of, blocks_after, IsShortType, IsWideIndex, IsWideNumber, IsWide, IsShortTable, IsOther};

use crate::immediate_kind::{ImmediateKind, imm_kind};
use crate::opcode;
use crate::token_len::{is_minimal, min_len};
use crate::types::Profile;

// Whether an opcode opens a block. (Both that ask it are one test then.)
#[inline(always)]
fn opens(opcode: u8) -> bool
    ensures yes { result ≡ true → (0x02 ≤ opcode) × (opcode ≤ 0x04) }
    ensures no { result ≡ false → (opcode < 0x02) ⊎ (0x04 < opcode) }
{
    opcode::BLOCK <= opcode && opcode <= opcode::IF
}

// Whether the byte behind an opcode is a block type, where the opcode opens a block.
#[inline(always)]
fn has_type(opcode: u8, x: u8) -> bool
    ensures { result ≡ true → (opcode ≡ 0x02) ⊎ ((opcode ≡ 0x03) ⊎ (opcode ≡ 0x04))
        → IsShortType x }
{
    !opens(opcode) || x == 0x40 || (0x7C <= x && x <= 0x7F)
}

/// Whether these bytes begin with an opcode that the table has a length for and, where it opens a block, a type of one byte that is no
/// index. Where they don't, the token's own way is shorter than to try.
#[inline(always)]
pub(crate) fn begins_minimal(bytes: &[u8]) -> bool {
    match bytes {
        [opcode, x, ..] => min_len(*opcode) > 0 && has_type(*opcode, *x),
        _ => false,
    }
}

/// The open blocks behind a token, as the bits of a number.
#[inline(always)]
pub(crate) fn blocks_after(blocks: u64, opcode: u8) -> u64
    requires { blocks ≤ 2 ^ 62 }
    ensures { result ≡ blocks_after opcode blocks }
{
    let opened = if opens(opcode) {
        2 * blocks + u64::from(opcode == opcode::IF)
    } else {
        blocks
    };
    if opcode == opcode::END {
        opened / 2
    } else {
        opened
    }
}

/// The greatest number whose bits are open blocks: 62 of them.
pub(crate) const MAX_BLOCKS: u64 = 1 << 62;

/// These blocks, the innermost last, as the bits of a number.
#[inline(always)]
pub(crate) fn number_of(blocks: &[bool]) -> u64
    requires { length blocks.now ≤ 31 }
    ensures number { result ≡ number_of (reverse blocks.now) }
    ensures small { result ≤ 2 ^ 62 }
{
    let mut number: u64 = 1;
    for &block in blocks {
        number = 2 * number + u64::from(block);
    }
    number
}

/// Whether a token that has that many bytes, where it is as short as it may be, and leaves these blocks open, is so.
#[inline(always)]
pub(crate) fn may_skip(opcode: u8, len: u8, x: u8, y: u8, after: u64) -> bool
    requires { len ≤ 3 }
    ensures minimal { result ≡ true → IsMinimal len x y }
    ensures ty { result ≡ true → (opcode ≡ 0x02) ⊎ ((opcode ≡ 0x03) ⊎ (opcode ≡ 0x04))
        → IsShortType x }
    ensures some { result ≡ true → 0 < after }
    ensures small { result ≡ true → after ≤ 2 ^ 62 }
{
    is_minimal(len, x, y) && has_type(opcode, x) && 0 < after && after <= MAX_BLOCKS
}

// Whether two bytes, the first lowest, are an unsigned integer that is as short as it may be.
#[inline(always)]
fn is_wide_index(both: u16) -> bool
    ensures { result ≡ true → (x y : ℕ) → x < 256 → y < 256 → both ≡ x + y * 256 → IsWideIndex x y }
{
    both & 0x8080 == 0x0080 && both / 0x80 != 1
}

// Whether two bytes, the first lowest, are a signed integer that is as short as it may be: the bits of the last one aren't all the sign
// of the first.
#[inline(always)]
fn is_wide_number(both: u16) -> bool
    ensures { result ≡ true → (x y : ℕ) → x < 256 → y < 256 → both ≡ x + y * 256
        → IsWideNumber x y }
{
    if both & 0x8080 != 0x0080 {
        return false;
    }
    both / 0x40 != 0x002 && both / 0x40 != 0x1FF
}

// Whether the second of two bytes, the first lowest, is an unsigned integer that is as short as it may be with the byte behind them,
// and the first is one alone.
#[inline(always)]
fn is_wide_second(both: u16, z: u8) -> bool
    ensures { result ≡ true → (x y : ℕ) → x < 256 → y < 256 → both ≡ x + y * 256
        → (x < 128) × IsWideIndex y z }
{
    both & 0x8080 == 0x8000 && 0 < z && z < 0x80
}

// How many bytes an instruction has that the table has no length for, or that has an integer of two bytes, where two bytes, the
// first lowest, and a third stand behind its opcode and leave it as short as it may be. It is 0 where they don't tell.
#[inline(always)]
fn wide_len(opcode: u8, both: u16, z: u8) -> usize
    ensures { 0 < result → (x y : ℕ) → x < 256 → y < 256 → both ≡ x + y * 256
        → IsWide (imm_kind_in (form_of Core opcode)) result x y z }
{
    let Some(kind) = imm_kind(Profile::Core, opcode) else {
        return 0;
    };
    match kind {
        ImmediateKind::Reserved if both % 256 == 0 => 2,
        ImmediateKind::Index if is_wide_index(both) => 3,
        ImmediateKind::IndexReserved if both < 0x80 => 3,
        ImmediateKind::Memarg if is_wide_second(both, z) => 4,
        ImmediateKind::Signed32 | ImmediateKind::Signed64 if is_wide_number(both) => 3,
        ImmediateKind::Word32 => 5,
        ImmediateKind::Word64 => 9,
        _ => 0,
    }
}

// The byte that stands there, or 0 behind the end.
#[inline(always)]
fn byte_or_0(bytes: &[u8], at: usize) -> u8
    ensures { result ≡ get_or bytes.now at 0 }
{
    if at < bytes.len() { bytes[at] } else { 0 }
}

/// The offset behind the integers of one byte that stand from an offset on, up to another.
#[inline(always)]
pub(crate) fn behind_short(bytes: &[u8], from: usize, end: usize) -> usize
    requires order { from ≤ end }
    requires inside { end ≤ length bytes.now }
    ensures from { from ≤ result }
    ensures within { result ≤ end }
    ensures short { (i : ℕ) → from ≤ i → i < result → get_or bytes.now i 0 < 128 }
{
    let mut at = from;
    while at < end && bytes[at] < 0x80 {
        at += 1;
    }
    at
}

// How many bytes the `br_table` at an offset has, where each of its integers has one. It is 0 where one has more. It stands apart, so
// that the loop over other tokens has its registers.
#[inline(never)]
fn table_len(bytes: &[u8], at: usize) -> usize
    requires { at + 1 < length bytes.now }
    ensures { 0 < result → IsShortTable bytes.now at result }
{
    let len = usize::from(bytes[at + 1]) + 3;
    if bytes.len() - at < len {
        return 0;
    }
    let end = at + len;
    if behind_short(bytes, at + 1, end) < end {
        return 0;
    }
    len
}

/// How many bytes the instruction at an offset has that the table has no length for, or that has longer integers, where it is as short
/// as it may be if it ends within these bytes. It is 0 where it isn't told.
#[inline(always)]
pub(crate) fn other_len(bytes: &[u8], at: usize) -> usize
    requires { at + 2 < length bytes.now }
    ensures { 0 < result → IsOther bytes.now at result }
{
    let opcode = bytes[at];
    if opcode == opcode::BR_TABLE {
        return table_len(bytes, at);
    }
    let both = u16::from_le_bytes([bytes[at + 1], bytes[at + 2]]);
    wide_len(opcode, both, byte_or_0(bytes, at + 3))
}

/// Whether a nop is in front.
#[inline(always)]
pub(crate) fn begins_nop(bytes: &[u8]) -> bool {
    match bytes.first() {
        Some(&opcode) => opcode == opcode::NOP,
        None => false,
    }
}

/// How many nops are in front. It stands apart, so that the loop over other tokens has its registers.
#[inline(never)]
pub(crate) fn nops(bytes: &[u8]) -> usize
    ensures within { result ≤ length bytes.now }
    ensures nops { (i : ℕ) → i < result → get_or bytes.now i 0 ≡ 0x01 }
{
    let mut count = 0;
    while count < bytes.len() && bytes[count] == opcode::NOP {
        count += 1;
    }
    count
}

/// Whether an else may come in the innermost of the open blocks that are the bits of a number.
#[inline(always)]
pub(crate) fn takes_else(blocks: u64) -> bool
    ensures some { result ≡ true → 1 < blocks }
    ensures may { result ≡ true → blocks % 2 ≡ 1 }
{
    blocks > 1 && blocks % 2 == 1
}
