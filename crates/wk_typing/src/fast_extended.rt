//! Tokens that one profile alone has, typed from their bytes: sign extensions, and blocks of a type index.
//!
//! They stand apart from `fast_path`, so that the loop over the tokens of both profiles is as small as it can be.

ghost use Rattle.std.specs.Prelude.{◌≡◌, ◌≤◌, false, true, Some, Ok, IfOk, IfSome};
ghost use Rattle.wk_body.specs.declared.types.BlockType.{BlockType};
ghost use Rattle.wk_body.specs.declared.types.Profile.{Profile};
ghost use Rattle.wk_body.specs.Numeric.{numeric_of};
ghost use Rattle.wk_body.specs.Reading.{type_at};
ghost use Rattle.wk_body.specs.TokenReading.{TokenReading};
ghost use Rattle.wk_typing.specs.Streaming.{IsTaken, IsSigned, IsOpened};

use crate::control::enter_indexed;
use crate::env::Scope;
use crate::stacks::{FrameKind, Stacks};
use crate::step::{Function, numeric};
use crate::stop::Stop;
use wk_bytes::Cursor;
use wk_module::{NumericOp, TokenReader, ValType};

// A block type that is the index of a type, where no shorter one stands.
#[tactic(auto, unfolding(wk_body::specs::Reading::type_at, wk_body::specs::Reading::index_at))]
#[inline(always)]
fn indexed_type(cursor: &mut Cursor<'_>) -> Option<u32>
    ensures { IfSome result
        (λ x. (type_at Profile.Extended cursor.old.end cursor.old.rest
        ≡ Ok (BlockType.Index x, cursor.new.rest))
        × (cursor.new.end ≡ cursor.old.end)) }
{
    let mut ahead = cursor.ahead();
    let Ok(byte) = ahead.byte() else {
        return None;
    };
    if byte == 0x40 {
        return None;
    }
    if let Some(_) = ValType::from_byte(byte) {
        return None;
    }
    let Ok(index) = cursor.s33() else {
        return None;
    };
    if index < 0 {
        return None;
    }
    Some(index as u32)
}

// What opens a block of a type index, behind its opcode, with a test or without one.
#[inline(always)]
fn open_indexed<E: Scope>(
    env: &E,
    test: bool,
    kind: FrameKind,
    reader: &mut TokenReader,
    s: &mut Stacks,
    cursor: &mut Cursor<'_>,
) -> Result<bool, Stop>
    ensures taken { IfOk result
        (λ t. t ≡ true
        → IsOpened (E.answers env.now) test kind Profile.Extended reader.old reader.new
        cursor.old cursor.new s.old s.new) }
    ensures left { IfOk result (λ t. t ≡ false → (s.new ≡ s.old) × (reader.new ≡ reader.old)) }
{
    let Some(x) = indexed_type(cursor) else {
        return Ok(false);
    };
    if !reader.open_block(test) {
        return Ok(false);
    }
    enter_indexed(env, s, test, kind, x)?;
    Ok(true)
}

// The sign extension of an opcode.
#[inline(always)]
fn sign_of(opcode: u8) -> Option<NumericOp>
    ensures { IfSome result (λ op. numeric_of opcode ≡ Some op) }
{
    match opcode {
        0xC0 => Some(NumericOp::I32Extend8S),
        0xC1 => Some(NumericOp::I32Extend16S),
        0xC2 => Some(NumericOp::I64Extend8S),
        0xC3 => Some(NumericOp::I64Extend16S),
        0xC4 => Some(NumericOp::I64Extend32S),
        _ => None,
    }
}

// A sign extension.
#[inline(always)]
fn type_sign_extend<E: Scope>(
    env: &E,
    f: &Function<'_>,
    opcode: u8,
    s: &mut Stacks,
) -> Result<bool, Stop>
    requires low { 0xC0 ≤ opcode }
    requires high { opcode ≤ 0xC4 }
    ensures taken { IfOk result
        (λ t. t ≡ true
        → IsSigned (E.answers env.now) f.now opcode s.old s.new) }
    ensures left { IfOk result (λ t. t ≡ false → s.new ≡ s.old) }
{
    let Some(op) = sign_of(opcode) else {
        return Ok(false);
    };
    numeric(s, op)?;
    Ok(true)
}

/// Types the token at the front, if it is a sign extension. Whether it is; else the open blocks are as they were, and the cursor
/// stands anywhere.
#[inline(always)]
pub(crate) fn fast_sign_extend<E: Scope>(
    env: &E,
    f: &Function<'_>,
    s: &mut Stacks,
    cursor: &mut Cursor<'_>,
) -> Result<bool, Stop>
    ensures taken { (r : TokenReading)
        → IfOk result
        (λ t. t ≡ true
        → IsTaken (E.answers env.now) f.now Profile.Extended r r cursor.old cursor.new s.old
        s.new) }
    ensures left { IfOk result (λ t. t ≡ false → s.new ≡ s.old) }
{
    let Ok(opcode) = cursor.byte() else {
        return Ok(false);
    };
    match opcode {
        0xC0..=0xC4 => type_sign_extend(env, f, opcode, s),
        _ => Ok(false),
    }
}

/// Types the token at the front, if it opens a block of a type index. Whether it does; else the reader and the open blocks are as
/// they were, and the cursor stands anywhere.
#[inline(always)]
pub(crate) fn fast_open_indexed<E: Scope>(
    env: &E,
    f: &Function<'_>,
    reader: &mut TokenReader,
    s: &mut Stacks,
    cursor: &mut Cursor<'_>,
) -> Result<bool, Stop>
    ensures taken { IfOk result
        (λ t. t ≡ true
        → IsTaken (E.answers env.now) f.now Profile.Extended reader.old reader.new cursor.old
        cursor.new s.old s.new) }
    ensures left { IfOk result (λ t. t ≡ false → (s.new ≡ s.old) × (reader.new ≡ reader.old)) }
{
    let Ok(opcode) = cursor.byte() else {
        return Ok(false);
    };
    match opcode {
        0x02 => open_indexed(env, false, FrameKind::Block, reader, s, cursor),
        0x03 => open_indexed(env, false, FrameKind::Loop, reader, s, cursor),
        0x04 => open_indexed(env, true, FrameKind::If, reader, s, cursor),
        _ => Ok(false),
    }
}
