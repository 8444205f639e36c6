//! Openers, `else` and `end` on the fast path: each is typed behind its opcode, as `fast_path` has it.

ghost use Rattle.std.specs.Prelude.{◌≡◌, [], Ok, IfOk, IfSome};
ghost use Rattle.wk_body.specs.declared.types.Profile.{Profile};
ghost use Rattle.wk_body.specs.Reading.{type_at};
ghost use Rattle.wk_typing.specs.Levels.{enter_block, end_then, end_block};
ghost use Rattle.wk_typing.specs.Moves.{Steps, MadeBy};
ghost use Rattle.wk_typing.specs.Streaming.{IsShort, IsOpened, IsParted, IsClosed};

use crate::control::{end_block_in_line, end_then};
use crate::env::Scope;
use crate::fault::FaultKind;
use crate::operands::pop_val;
use crate::stacks::{FrameKind, Stacks};
use crate::stop::{Growth, Stop, to_registers};
use wk_bytes::Cursor;
use wk_module::{BlockType, TokenReader, ValType};

/// What the fast path came to at the front.
#[derive(Clone, Copy, Debug, PartialEq, Eq)]
pub(crate) enum FastStep {
    /// A token, which was typed.
    Token,
    /// The end that closes no block.
    Last,
    /// A token that is left to others, and nothing was done.
    Other,
}

// A block type of one byte that names no other type.
#[tactic(auto, unfolding(wk_body::specs::Reading::type_at))]
#[inline(always)]
fn short_type(cursor: &mut Cursor<'_>) -> Option<BlockType>
    ensures read { (profile : Profile)
        → IfSome result
        (λ ty. (type_at profile cursor.old.end cursor.old.rest ≡ Ok (ty, cursor.new.rest))
        × (cursor.new.end ≡ cursor.old.end)) }
    ensures known { IfSome result IsShort }
{
    let Ok(byte) = cursor.byte() else {
        return None;
    };
    if byte == 0x40 {
        return Some(BlockType::Empty);
    }
    match ValType::from_byte(byte) {
        Some(ty) => Some(BlockType::Value(ty)),
        None => None,
    }
}

// A block of such a type begins, behind its test, where there is one.
#[inline(always)]
fn enter_short<E: Scope>(
    env: &E,
    test: bool,
    kind: FrameKind,
    block: BlockType,
    s: &mut Stacks,
) -> Result<(), Stop>
    requires { IsShort block }
    ensures { Steps (enter_block (E.answers env.now) test kind block s.old) result s.new }
{
    if test {
        pop_val(s, ValType::I32)?;
        s.push_ctrl(kind, block)?;
        return Ok(());
    }
    s.push_ctrl(kind, block)?;
    Ok(())
}

/// What opens a block, behind its opcode, with a test or without one.
#[inline(always)]
pub(crate) fn fast_open<E: Scope>(
    env: &E,
    test: bool,
    kind: FrameKind,
    reader: &mut TokenReader,
    s: &mut Stacks,
    cursor: &mut Cursor<'_>,
) -> Result<FastStep, Stop>
    ensures taken { (profile : Profile)
        → IfOk result
        (λ p. p ≡ FastStep.Token
        → IsOpened (E.answers env.now) test kind profile reader.old reader.new cursor.old
        cursor.new s.old s.new) }
    ensures left { IfOk result
        (λ p. p ≡ FastStep.Other → (s.new ≡ s.old) × (reader.new ≡ reader.old)) }
    ensures never { IfOk result (λ p. p ≡ FastStep.Last → ⊥) }
{
    let Some(block) = short_type(cursor) else {
        return Ok(FastStep::Other);
    };
    if !reader.open_block(test) {
        return Ok(FastStep::Other);
    }
    enter_short(env, test, kind, block, s)?;
    Ok(FastStep::Token)
}

// The end of a then branch that has a type or operands, out of line.
#[inline(never)]
fn end_then_typed<E: Scope>(env: &E, s: &mut Stacks) -> Result<(), Stop>
    ensures { Steps (end_then (E.answers env.now) s.old) result s.new }
{
    end_then(env, s)
}

/// An `else`. Most have no type, and nothing is left of the branch before.
#[inline(always)]
pub(crate) fn fast_else<E: Scope>(
    env: &E,
    reader: &mut TokenReader,
    s: &mut Stacks,
) -> Result<FastStep, Stop>
    ensures taken { IfOk result
        (λ p. p ≡ FastStep.Token → IsParted (E.answers env.now) reader.old reader.new s.old s.new) }
    ensures left { IfOk result
        (λ p. p ≡ FastStep.Other → (s.new ≡ s.old) × (reader.new ≡ reader.old)) }
    ensures never { IfOk result (λ p. p ≡ FastStep.Last → ⊥) }
{
    if !reader.part_block() {
        return Ok(FastStep::Other);
    }
    if let BlockType::Empty = s.block()
        && s.is_clear()
    {
        s.begin_else();
        return Ok(FastStep::Token);
    }
    end_then_typed(env, s)?;
    Ok(FastStep::Token)
}

// The end of a block that has a type or operands, out of line, whose answer goes in registers.
#[inline(never)]
fn end_block_typed<E: Scope>(env: &E, s: &mut Stacks) -> Result<Growth, FaultKind>
    ensures { MadeBy (end_block (E.answers env.now) s.old.inner.kind s.old) result s.new }
{
    to_registers(end_block_in_line(env, s))
}

/// An `end`. Most close a block of no type in another, and nothing is left of it.
#[inline(always)]
pub(crate) fn fast_end<E: Scope>(
    env: &E,
    reader: &mut TokenReader,
    s: &mut Stacks,
) -> Result<FastStep, Stop>
    ensures taken { IfOk result
        (λ p. p ≡ FastStep.Token → IsClosed (E.answers env.now) reader.old reader.new s.old s.new) }
    ensures last { IfOk result
        (λ p. p ≡ FastStep.Last → (reader.old.kinds ≡ []) × (s.new ≡ s.old)) }
    ensures never { IfOk result (λ p. p ≡ FastStep.Other → ⊥) }
{
    if !reader.close_block() {
        return Ok(FastStep::Last);
    }
    let is_bare = s.is_clear() && !s.is_outermost();
    if let BlockType::Empty = s.block()
        && is_bare
    {
        s.pop_ctrl();
        return Ok(FastStep::Token);
    }
    match end_block_typed(env, s)? {
        Growth::Made => Ok(FastStep::Token),
        Growth::Refused => Err(Stop::Memory),
    }
}
