//! Reads instructions token by token.

ghost use Rattle.std.specs.Prelude.{◌≡◌, ◌≢◌, ◌+◌, ◌<◌, ◌≤◌, ◌^◌, suc, length, IfOk, MatchResult, [], Ok};
ghost use Rattle.wk_bytes.specs.declared.fault.ReadKind.TheVariants.{UnknownOpcode, TooDeep};
ghost use Rattle.wk_bytes.specs.LebLaws.{IsBytes};
ghost use Rattle.wk_bytes.specs.Span.{u32_at};
ghost use Rattle.wk_body.specs.Vectors.{items_at};
ghost use Rattle.wk_body.specs.Reads.{FailsAs, Parses};
ghost use Rattle.wk_body.specs.Instructions.{numeric_in};
ghost use Rattle.wk_body.specs.Reading.{reserved_at, index_at, type_at, type_here, plain_at, tok_at, labels_at, behind_at, token_at, expr_at};
ghost use Rattle.wk_body.specs.Kept.{told, IsWithin};
ghost use Rattle.wk_body.specs.Building.{Good, size_of, kinds_of, ReadsLabels, ReadsPlain, ReadsToken};

use crate::expr::Expr;
use crate::memory::MemoryOp;
use crate::numeric::NumericOp;
use crate::opcode;
use crate::scratch::Scratch;
use crate::token::Token;
use crate::types::{BlockKind, BlockType, Profile, ValType};
use std::alloc::Global;
use wk_bytes::{Cursor, ReadFault, ReadKind};

/// The most blocks that are open at one place of a body or an expression.
pub const MAX_DEPTH: usize = 20_000;

/// Each byte is below 256, which proofs ask for where a cursor holds the bytes. It does nothing.
pub(crate) fn are_bytes(bytes: &[u8])
    ensures { IsBytes bytes.now }
{}

// A reserved byte, which is 00.
#[tactic(auto, unfolding(crate::specs::Reading::reserved_at))]
#[inline(always)]
pub(crate) fn reserved(cursor: &mut Cursor<'_>) -> Result<u8, ReadFault>
    ensures { Parses (λ x. x) reserved_at cursor.old result cursor.new }
{
    let at = cursor.at();
    let byte = cursor.byte()?;
    if byte != 0 {
        return Err(ReadFault {
            kind: ReadKind::BadByte,
            at,
        });
    }
    Ok(byte)
}

// A type index, which is a signed integer of 33 bits that is not negative.
#[tactic(auto, unfolding(crate::specs::Reading::index_at))]
#[inline(always)]
fn type_index(profile: Profile, cursor: &mut Cursor<'_>) -> Result<BlockType, ReadFault>
    ensures { Parses (λ x. x) (index_at profile) cursor.old result cursor.new }
{
    let at = cursor.at();
    let bad = ReadFault {
        kind: ReadKind::BadByte,
        at,
    };
    if profile == Profile::Core {
        return Err(bad);
    }
    let index = cursor.s33()?;
    if index < 0 {
        return Err(bad);
    }
    Ok(BlockType::Index(index as u32))
}

// A block type (5.3.2).
#[tactic(auto, unfolding(crate::specs::Reading::type_at))]
#[inline(always)]
pub(crate) fn block_type(profile: Profile, cursor: &mut Cursor<'_>) -> Result<BlockType, ReadFault>
    ensures { Parses (λ x. x) (type_at profile) cursor.old result cursor.new }
{
    let mut ahead = cursor.ahead();
    let byte = ahead.byte()?;
    if byte == 0x40 {
        *cursor = ahead;
        return Ok(BlockType::Empty);
    }
    match ValType::from_byte(byte) {
        Some(ty) => {
            *cursor = ahead;
            Ok(BlockType::Value(ty))
        }
        None => type_index(profile, cursor),
    }
}

// A load or store behind its opcode.
#[tactic(auto, unfolding(crate::specs::Reading::plain_at, crate::specs::Reading::behind_form, crate::specs::Instructions::form_of))]
#[inline(always)]
fn memory_of(opcode: u8, cursor: &mut Cursor<'_>) -> Result<Token, ReadFault>
    requires low { 0x28 ≤ opcode }
    requires high { opcode ≤ 0x3E }
    ensures read { (profile : Profile) (e : ReadFault)
        → Parses (λ x. told [] x) (tok_at (plain_at profile e opcode)) cursor.old result
        cursor.new }
    ensures within { IfOk result (IsWithin 0) }
{
    let Some(op) = MemoryOp::from_opcode(opcode) else {
        unreachable!()
    };
    let align = cursor.u32()?;
    let offset = cursor.u32()?;
    Ok(Token::Access { op, align, offset })
}

// The constant of an `i64.const` behind its opcode. It is a function of its own, as `double_of` is, since the room of a result that
// has 64 bits is cleared where the function that holds it begins, and no other token is to pay for it.
#[tactic(auto, unfolding(crate::specs::Reading::plain_at, crate::specs::Reading::behind_form, crate::specs::Instructions::form_of))]
#[inline(always)]
fn long_of(cursor: &mut Cursor<'_>) -> Result<Token, ReadFault>
    ensures read { (profile : Profile) (e : ReadFault)
        → Parses (λ x. told [] x) (tok_at (plain_at profile e 0x42)) cursor.old result cursor.new }
    ensures within { IfOk result (IsWithin 0) }
{
    Ok(Token::I64Const(cursor.s64()?))
}

// The constant of an `f64.const` behind its opcode.
#[tactic(auto, unfolding(crate::specs::Reading::plain_at, crate::specs::Reading::behind_form, crate::specs::Instructions::form_of))]
#[inline(always)]
fn double_of(cursor: &mut Cursor<'_>) -> Result<Token, ReadFault>
    ensures read { (profile : Profile) (e : ReadFault)
        → Parses (λ x. told [] x) (tok_at (plain_at profile e 0x44)) cursor.old result cursor.new }
    ensures within { IfOk result (IsWithin 0) }
{
    Ok(Token::F64Const(cursor.word64()?))
}

// The numeric instruction of an opcode.
#[inline(always)]
pub(crate) fn numeric_of(profile: Profile, opcode: u8) -> Option<NumericOp>
    ensures { result ≡ numeric_in profile opcode }
{
    if profile == Profile::Core && opcode > opcode::LAST_CORE {
        return None;
    }
    NumericOp::from_opcode(opcode)
}

// An instruction that holds no others and has no labels, behind its opcode, which stands at `at`.
#[tactic(auto, unfolding(crate::specs::Reading::plain_at, crate::specs::Reading::behind_form, crate::specs::Instructions::form_of))]
#[inline(always)]
pub(crate) fn simple_of(
    profile: Profile,
    opcode: u8,
    at: u32,
    cursor: &mut Cursor<'_>,
) -> Result<Token, ReadFault>
    requires { opcode ≢ 0x0E }
    ensures read { Parses (λ x. told [] x)
        (tok_at (plain_at profile (record { kind = UnknownOpcode; at = at }) opcode)) cursor.old
        result cursor.new }
    ensures within { IfOk result (IsWithin 0) }
{
    match opcode {
        opcode::UNREACHABLE => Ok(Token::Unreachable),
        opcode::NOP => Ok(Token::Nop),
        opcode::BR => Ok(Token::Br(cursor.u32()?)),
        opcode::BR_IF => Ok(Token::BrIf(cursor.u32()?)),
        opcode::RETURN => Ok(Token::Return),
        opcode::CALL => Ok(Token::Call(cursor.u32()?)),
        opcode::CALL_INDIRECT => {
            let x = cursor.u32()?;
            let _zero = reserved(cursor)?;
            Ok(Token::CallIndirect(x))
        }
        opcode::DROP => Ok(Token::Drop),
        opcode::SELECT => Ok(Token::Select),
        opcode::LOCAL_GET => Ok(Token::LocalGet(cursor.u32()?)),
        opcode::LOCAL_SET => Ok(Token::LocalSet(cursor.u32()?)),
        opcode::LOCAL_TEE => Ok(Token::LocalTee(cursor.u32()?)),
        opcode::GLOBAL_GET => Ok(Token::GlobalGet(cursor.u32()?)),
        opcode::GLOBAL_SET => Ok(Token::GlobalSet(cursor.u32()?)),
        opcode::FIRST_ACCESS..=opcode::LAST_ACCESS => memory_of(opcode, cursor),
        opcode::MEMORY_SIZE => {
            let _zero = reserved(cursor)?;
            Ok(Token::MemorySize)
        }
        opcode::MEMORY_GROW => {
            let _zero = reserved(cursor)?;
            Ok(Token::MemoryGrow)
        }
        opcode::I32_CONST => Ok(Token::I32Const(cursor.s32()?)),
        opcode::I64_CONST => long_of(cursor),
        opcode::F32_CONST => Ok(Token::F32Const(cursor.word32()?)),
        opcode::F64_CONST => double_of(cursor),
        _ => match numeric_of(profile, opcode) {
            Some(op) => Ok(Token::Numeric(op)),
            None => Err(ReadFault {
                kind: ReadKind::UnknownOpcode,
                at,
            }),
        },
    }
}

// Labels, which go to the end of the pool. No room is made for a count.
fn labels_of(scratch: &mut Scratch, count: u32, cursor: &mut Cursor<'_>) -> Result<(), ReadFault>
    requires { Good scratch.old }
    ensures { MatchResult result
        (λ _. ReadsLabels (items_at u32_at count cursor.old.end cursor.old.rest) scratch.old
        scratch.new cursor.old cursor.new)
        (λ e. FailsAs e e.kind (items_at u32_at count cursor.old.end cursor.old.rest)) }
{
    for _ in 0..count {
        let label = cursor.u32()?;
        scratch.add_label(label)?;
    }
    Ok(())
}

// A `br_table` behind its opcode.
#[tactic(auto, unfolding(crate::specs::Reading::plain_at, crate::specs::Reading::behind_form, crate::specs::Instructions::form_of, crate::specs::Vectors::vector_at))]
fn table_of(scratch: &mut Scratch, cursor: &mut Cursor<'_>) -> Result<(), ReadFault>
    requires good { Good scratch.old }
    requires room { size_of scratch.old + length cursor.old.rest < 2 ^ 31 }
    ensures { MatchResult result
        (λ _. ReadsPlain (labels_at cursor.old.end cursor.old.rest) scratch.old scratch.new
        cursor.old cursor.new)
        (λ e. FailsAs e e.kind (labels_at cursor.old.end cursor.old.rest)) }
{
    let start = scratch.labels.len() as u32;
    let len = cursor.u32()?;
    labels_of(scratch, len, cursor)?;
    let other = cursor.u32()?;
    scratch.push(Token::BrTable { start, len, other })?;
    Ok(())
}

// The type of a block that opens here, behind its opcode, which stands at `at`.
// It is in line down to the integer: the room of a result that is called for is cleared at each token, of whatever kind.
#[tactic(auto, unfolding(crate::specs::Reading::type_here))]
#[inline(always)]
fn opening_of(
    scratch: &Scratch,
    profile: Profile,
    at: u32,
    cursor: &mut Cursor<'_>,
) -> Result<BlockType, ReadFault>
    ensures { Parses (λ x. x)
        (type_here profile (kinds_of scratch.now) (record { kind = TooDeep; at = at })) cursor.old
        result cursor.new }
{
    if scratch.depth() < MAX_DEPTH {
        block_type(profile, cursor)
    } else {
        Err(ReadFault {
            kind: ReadKind::TooDeep,
            at,
        })
    }
}

// A token behind its opcode, which stands at `at`. Whether it is the end that closes no block.
#[tactic(auto, unfolding(crate::specs::Reading::behind_at))]
fn token_behind(
    scratch: &mut Scratch,
    profile: Profile,
    opcode: u8,
    at: u32,
    cursor: &mut Cursor<'_>,
) -> Result<bool, ReadFault>
    requires good { Good scratch.old }
    requires room { size_of scratch.old + length cursor.old.rest < 2 ^ 31 }
    ensures { MatchResult result
        (λ last. ReadsToken
        (behind_at profile (kinds_of scratch.old) at opcode cursor.old.end cursor.old.rest) last
        scratch.old scratch.new (suc (length cursor.old.rest)) cursor.old.end cursor.new)
        (λ e. FailsAs e e.kind
        (behind_at profile (kinds_of scratch.old) at opcode cursor.old.end cursor.old.rest)) }
{
    match opcode {
        opcode::END => Ok(scratch.close()?),
        opcode::ELSE => {
            if !scratch.may_else() {
                return Err(ReadFault {
                    kind: ReadKind::UnknownOpcode,
                    at,
                });
            }
            scratch.start_else()?;
            Ok(false)
        }
        opcode::BLOCK => {
            let ty = opening_of(scratch, profile, at, cursor)?;
            scratch.open_block(BlockKind::Block, ty)?;
            Ok(false)
        }
        opcode::LOOP => {
            let ty = opening_of(scratch, profile, at, cursor)?;
            scratch.open_block(BlockKind::Loop, ty)?;
            Ok(false)
        }
        opcode::IF => {
            let ty = opening_of(scratch, profile, at, cursor)?;
            scratch.open_if(ty)?;
            Ok(false)
        }
        opcode::BR_TABLE => {
            table_of(scratch, cursor)?;
            Ok(false)
        }
        _ => {
            let token = simple_of(profile, opcode, at, cursor)?;
            scratch.push(token)?;
            Ok(false)
        }
    }
}

// One token. Whether it is the end that closes no block.
fn token_of(
    scratch: &mut Scratch,
    profile: Profile,
    cursor: &mut Cursor<'_>,
) -> Result<bool, ReadFault>
    requires good { Good scratch.old }
    requires room { size_of scratch.old + length cursor.old.rest < 2 ^ 31 }
    ensures { MatchResult result
        (λ last. ReadsToken (token_at profile (kinds_of scratch.old) cursor.old.end cursor.old.rest)
        last scratch.old scratch.new (length cursor.old.rest) cursor.old.end cursor.new)
        (λ e. FailsAs e e.kind
        (token_at profile (kinds_of scratch.old) cursor.old.end cursor.old.rest)) }
{
    let at = cursor.at();
    let opcode = cursor.byte()?;
    token_behind(scratch, profile, opcode, at, cursor)
}

/// Reads the instructions at the front, up to their end, in a room that is used again and again.
pub(crate) fn read_front(
    alloc: Global,
    scratch: &mut Scratch,
    profile: Profile,
    cursor: &mut Cursor<'_>,
) -> Result<Expr, ReadFault>
    ensures exact { Parses (λ e. e) (expr_at profile) cursor.old result cursor.new }
{
    // The proof asks what these two say: each byte is below 256, and the bytes are few.
    are_bytes(cursor.rest());
    let _at = cursor.at();
    scratch.clear();
    // A cursor of its own, which stays in registers from token to token.
    let mut ahead = cursor.ahead();
    loop {
        if token_of(scratch, profile, &mut ahead)? {
            *cursor = ahead;
            return Ok(scratch.copied(alloc)?);
        }
    }
}
