//! The fast path of typing a body while it is read: a token is typed where its opcode is looked at.
//!
//! The model is reading a token (`TokenReader::next`) and typing it (`type_token`), which put it
//! together and look at it twice. Each function here is proved to do what these two do. With the
//! commonest instructions alone `validate` takes 0.83 of the instructions, and the jobs `judge` and
//! `plugins` gain 1.09 and 1.07 in time (`docs/PERF.md`).
//!
//! Left to the model, by way of `type_slow` and `read_and_type` of `streaming`, are
//! - a `br_table` (0x0E), and each opcode that 1.0 does not have;
//! - in the profile that has them sign extensions (0xC0 to 0xC4) and blocks of a type index, which
//!   `fast_extended` types from their bytes on that way;
//! - a token whose bytes are refused, and a block for which there is no room yet.
//!
//! There is a function for each form of immediates. It is in line, and its opcode is a constant at
//! each call, so that what it does for other opcodes is gone where it runs: an opcode is looked at
//! once, in `type_fast` and `type_operator`. Loads, stores and numeric instructions alone take
//! theirs as it was read, and find their row of a table by it. Openers, `else` and `end` are in
//! `fast_blocks`.

ghost use Rattle.std.specs.Prelude.{◌≡◌, ◌≤◌, ℕ, List, None, Ok, Result, false, slice_get, true, IfOk};
ghost use Rattle.wk_bytes.specs.Span.{byte_at, u32_at};
ghost use Rattle.wk_body.specs.declared.references.Ref.{Ref};
ghost use Rattle.wk_body.specs.declared.types.Profile.{Profile};
ghost use Rattle.wk_body.specs.TokenReading.{NextRead};
ghost use Rattle.wk_typing.specs.Effects.{branch_effect, branch_if_effect, call_effect, indirect_effect};
ghost use Rattle.wk_typing.specs.Levels.{Blocks, labels_of};
ghost use Rattle.wk_typing.specs.Moves.{acting, MadeBy, Steps};
ghost use Rattle.wk_typing.specs.Streaming.{IsAlone, HasIndex, HasReserved, HasSigned, HasWord, TypesBehind, TakesBehind, IsTaken};

use crate::control::{branch, branch_if, call_in_line, call_indirect_in_line};
use crate::env::Scope;
use crate::fast_blocks::{FastStep, fast_else, fast_end, fast_open};
use crate::fault::FaultKind;
use crate::operands::{apply_polymorphic, drop_top, pop_val, push_val, select};
use crate::stacks::{FrameKind, Stacks};
use crate::step::{
    Function, access, get_global, get_local, memory_grow, memory_size, numeric, set_global,
    set_local, tee_local,
};
use crate::stop::{Growth, Stop, to_registers};
use wk_bytes::Cursor;
use wk_module::{BlockType, MemoryOp, NumericOp, TokenReader, ValType};

// What a call out of line came to, whose answer went in registers.
#[inline(always)]
fn from_registers(told: Result<Growth, FaultKind>) -> Result<(), Stop>
    ensures { (o : Result Blocks FaultKind) (b : Blocks) → MadeBy o told b → Steps o result b }
{
    match told? {
        Growth::Made => Ok(()),
        Growth::Refused => Err(Stop::Memory),
    }
}

// What a `call` came to. (It goes in one register, so that the loop asks once. The kind of a fault isn't told: whoever asks for it
// reads the whole body.)
#[derive(Clone, Copy, Debug, PartialEq, Eq)]
enum Called {
    // It was typed.
    Typed,
    // It has a fault.
    Wrong,
    // Memory was refused.
    Memory,
}

// A `call`, out of line.
#[inline(never)]
fn call_typed<E: Scope>(env: &E, s: &mut Stacks, x: u32) -> Called
    ensures { result ≡ Called.Typed
        → acting (call_effect (E.answers env.now (Ref.Func x))) s.old ≡ Ok s.new }
{
    match call_in_line(env, s, x) {
        Ok(()) => Called::Typed,
        Err(Stop::Fault(_)) => Called::Wrong,
        Err(Stop::Memory) => Called::Memory,
    }
}

// A `call_indirect`, out of line, whose answer goes in registers.
#[inline(never)]
fn indirect_typed<E: Scope>(env: &E, s: &mut Stacks, x: u32) -> Result<Growth, FaultKind>
    ensures { MadeBy
        (acting (indirect_effect (E.answers env.now (Ref.Ty x)) (E.answers env.now Ref.Table))
        s.old)
        result s.new }
{
    to_registers(call_indirect_in_line(env, s, x))
}

// A `br`. Most lead to a block of no types.
#[inline(always)]
fn br<E: Scope>(env: &E, s: &mut Stacks, x: u32) -> Result<(), Stop>
    ensures { Steps
        (acting (branch_effect (slice_get (labels_of (E.answers env.now) s.old) x)) s.old)
        result
        s.new }
{
    let Some((_, BlockType::Empty)) = s.head(x as usize) else {
        branch(env, s, x)?;
        return Ok(());
    };
    s.unreachable();
    Ok(())
}

// A `br_if`. Most lead to a block of no types.
#[inline(always)]
fn br_if<E: Scope>(env: &E, s: &mut Stacks, x: u32) -> Result<(), Stop>
    ensures { Steps
        (acting (branch_if_effect (slice_get (labels_of (E.answers env.now) s.old) x)) s.old)
        result
        s.new }
{
    let Some((_, BlockType::Empty)) = s.head(x as usize) else {
        branch_if(env, s, x)?;
        return Ok(());
    };
    pop_val(s, ValType::I32)
}

// What an instruction without immediates does.
#[tactic(auto, unfolding(wk_body::specs::Reading::plain_at, wk_body::specs::Reading::behind_form, wk_body::specs::Instructions::form_of))]
#[inline(always)]
fn type_alone<E: Scope>(env: &E, f: &Function<'_>, opcode: u8, s: &mut Stacks) -> Result<(), Stop>
    requires { IsAlone opcode }
    ensures { (end : ℕ) (from : List ℕ) →
        TypesBehind (E.answers env.now) f.now opcode end from from s.old result s.new }
{
    match opcode {
        0x00 => apply_polymorphic(s, false, &[]), // unreachable
        0x01 => Ok(()), // nop
        0x0F => apply_polymorphic(s, false, f.results), // return
        0x1A => drop_top(s), // drop
        0x1B => select(s), // select
        _ => unreachable!(),
    }
}

// One without immediates.
#[inline(always)]
fn fast_alone<E: Scope>(
    env: &E,
    f: &Function<'_>,
    opcode: u8,
    s: &mut Stacks,
    cursor: &Cursor<'_>,
) -> Result<bool, Stop>
    requires { IsAlone opcode }
    ensures { IfOk result
        (TakesBehind (E.answers env.now) f.now opcode cursor.now cursor.now s.old s.new) }
{
    type_alone(env, f, opcode, s)?;
    Ok(true)
}

// What an instruction with an index or a label does, once that is read.
#[tactic(auto, unfolding(wk_body::specs::Reading::plain_at, wk_body::specs::Reading::behind_form, wk_body::specs::Instructions::form_of))]
#[inline(always)]
fn type_indexed<E: Scope>(
    env: &E,
    f: &Function<'_>,
    opcode: u8,
    s: &mut Stacks,
    x: u32,
) -> Result<(), Stop>
    requires { HasIndex opcode }
    ensures { (end : ℕ) (from rest : List ℕ) → u32_at end from ≡ Ok (x, rest) →
        TypesBehind (E.answers env.now) f.now opcode end from rest s.old result s.new }
{
    match opcode {
        0x0C => br(env, s, x),
        0x0D => br_if(env, s, x),
        0x20 => get_local(&f.locals, s, x),
        0x21 => set_local(&f.locals, s, x),
        0x22 => tee_local(&f.locals, s, x),
        0x23 => get_global(env, s, x),
        0x24 => set_global(env, s, x),
        _ => unreachable!(),
    }
}

// One with an index or a label.
#[inline(always)]
fn fast_index<E: Scope>(
    env: &E,
    f: &Function<'_>,
    opcode: u8,
    s: &mut Stacks,
    cursor: &mut Cursor<'_>,
) -> Result<bool, Stop>
    requires { HasIndex opcode }
    ensures { IfOk result
        (TakesBehind (E.answers env.now) f.now opcode cursor.old cursor.new s.old s.new) }
{
    let Ok(x) = cursor.u32() else {
        return Ok(false);
    };
    type_indexed(env, f, opcode, s, x)?;
    Ok(true)
}

// The one with an index that is a `call`.
#[tactic(auto, unfolding(wk_body::specs::Reading::plain_at, wk_body::specs::Reading::behind_form, wk_body::specs::Instructions::form_of))]
#[inline(always)]
fn fast_call<E: Scope>(
    env: &E,
    f: &Function<'_>,
    s: &mut Stacks,
    cursor: &mut Cursor<'_>,
) -> Result<bool, Stop>
    ensures { IfOk result
        (TakesBehind (E.answers env.now) f.now 0x10 cursor.old cursor.new s.old s.new) }
{
    let Ok(x) = cursor.u32() else {
        return Ok(false);
    };
    match call_typed(env, s, x) {
        Called::Typed => Ok(true),
        Called::Wrong => Err(Stop::Fault(FaultKind::UnknownFunc)),
        Called::Memory => Err(Stop::Memory),
    }
}

// The one with an index and a byte 00: a `call_indirect`.
#[tactic(auto, unfolding(wk_body::specs::Reading::plain_at, wk_body::specs::Reading::behind_form, wk_body::specs::Reading::reserved_at, wk_body::specs::Instructions::form_of))]
#[inline(always)]
fn fast_index_reserved<E: Scope>(
    env: &E,
    f: &Function<'_>,
    s: &mut Stacks,
    cursor: &mut Cursor<'_>,
) -> Result<bool, Stop>
    ensures { IfOk result
        (TakesBehind (E.answers env.now) f.now 0x11 cursor.old cursor.new s.old s.new) }
{
    let Ok(x) = cursor.u32() else {
        return Ok(false);
    };
    let Ok(0) = cursor.byte() else {
        return Ok(false);
    };
    from_registers(indirect_typed(env, s, x))?;
    Ok(true)
}

// What an instruction with a byte 00 does, once that is read.
#[tactic(auto, unfolding(wk_body::specs::Reading::plain_at, wk_body::specs::Reading::behind_form, wk_body::specs::Reading::reserved_at, wk_body::specs::Instructions::form_of))]
#[inline(always)]
fn type_reserved<E: Scope>(
    env: &E,
    f: &Function<'_>,
    opcode: u8,
    s: &mut Stacks,
) -> Result<(), Stop>
    requires { HasReserved opcode }
    ensures { (end : ℕ) (from rest : List ℕ) → byte_at end from ≡ Ok (0, rest) →
        TypesBehind (E.answers env.now) f.now opcode end from rest s.old result s.new }
{
    match opcode {
        0x3F => memory_size(env, s),
        0x40 => memory_grow(env, s),
        _ => unreachable!(),
    }
}

// One with a byte 00.
#[inline(always)]
fn fast_reserved<E: Scope>(
    env: &E,
    f: &Function<'_>,
    opcode: u8,
    s: &mut Stacks,
    cursor: &mut Cursor<'_>,
) -> Result<bool, Stop>
    requires { HasReserved opcode }
    ensures { IfOk result
        (TakesBehind (E.answers env.now) f.now opcode cursor.old cursor.new s.old s.new) }
{
    let Ok(0) = cursor.byte() else {
        return Ok(false);
    };
    type_reserved(env, f, opcode, s)?;
    Ok(true)
}

// One with a signed integer: a constant.
#[tactic(auto, unfolding(wk_body::specs::Reading::plain_at, wk_body::specs::Reading::behind_form, wk_body::specs::Instructions::form_of))]
#[inline(always)]
fn fast_signed<E: Scope>(
    env: &E,
    f: &Function<'_>,
    opcode: u8,
    s: &mut Stacks,
    cursor: &mut Cursor<'_>,
) -> Result<bool, Stop>
    requires { HasSigned opcode }
    ensures { IfOk result
        (TakesBehind (E.answers env.now) f.now opcode cursor.old cursor.new s.old s.new) }
{
    match opcode {
        // i32.const
        0x41 => {
            let Ok(_) = cursor.s32() else {
                return Ok(false);
            };
            push_val(s, ValType::I32)?;
            Ok(true)
        }
        // i64.const
        0x42 => {
            let Ok(_) = cursor.s64() else {
                return Ok(false);
            };
            push_val(s, ValType::I64)?;
            Ok(true)
        }
        _ => unreachable!(),
    }
}

// One with a word: a constant of a float.
#[tactic(auto, unfolding(wk_body::specs::Reading::plain_at, wk_body::specs::Reading::behind_form, wk_body::specs::Instructions::form_of))]
#[inline(always)]
fn fast_word<E: Scope>(
    env: &E,
    f: &Function<'_>,
    opcode: u8,
    s: &mut Stacks,
    cursor: &mut Cursor<'_>,
) -> Result<bool, Stop>
    requires { HasWord opcode }
    ensures { IfOk result
        (TakesBehind (E.answers env.now) f.now opcode cursor.old cursor.new s.old s.new) }
{
    match opcode {
        // f32.const
        0x43 => {
            let Ok(_) = cursor.word32() else {
                return Ok(false);
            };
            push_val(s, ValType::F32)?;
            Ok(true)
        }
        // f64.const
        0x44 => {
            let Ok(_) = cursor.word64() else {
                return Ok(false);
            };
            push_val(s, ValType::F64)?;
            Ok(true)
        }
        _ => unreachable!(),
    }
}

// One with an alignment and an offset: a load or a store.
#[tactic(auto, unfolding(wk_body::specs::Reading::plain_at, wk_body::specs::Reading::behind_form, wk_body::specs::Instructions::form_of))]
#[inline(always)]
fn fast_memarg<E: Scope>(
    env: &E,
    f: &Function<'_>,
    opcode: u8,
    s: &mut Stacks,
    cursor: &mut Cursor<'_>,
) -> Result<bool, Stop>
    requires low { 0x28 ≤ opcode }
    requires high { opcode ≤ 0x3E }
    ensures { IfOk result
        (TakesBehind (E.answers env.now) f.now opcode cursor.old cursor.new s.old s.new) }
{
    let Some(op) = MemoryOp::from_opcode(opcode) else {
        return Ok(false);
    };
    let Ok(align) = cursor.u32() else {
        return Ok(false);
    };
    let Ok(_) = cursor.u32() else {
        return Ok(false);
    };
    access(env, s, op, align)?;
    Ok(true)
}

// A numeric instruction of both profiles, which has no immediates.
#[tactic(auto, unfolding(wk_body::specs::Reading::plain_at, wk_body::specs::Reading::behind_form, wk_body::specs::Instructions::form_of))]
#[inline(always)]
fn fast_numeric<E: Scope>(
    env: &E,
    f: &Function<'_>,
    opcode: u8,
    s: &mut Stacks,
    cursor: &Cursor<'_>,
) -> Result<bool, Stop>
    requires low { 0x45 ≤ opcode }
    requires high { opcode ≤ 0xBF }
    ensures { IfOk result
        (TakesBehind (E.answers env.now) f.now opcode cursor.now cursor.now s.old s.new) }
{
    let Some(op) = NumericOp::from_opcode(opcode) else {
        return Ok(false);
    };
    numeric(s, op)?;
    Ok(true)
}

// What stands behind an opcode that opens and closes nothing. Where it isn't taken the open blocks
// are as they were, and the cursor stands anywhere. (Arms of one form that were joined, with the
// opcode handed on, would look at it again.)
#[inline(always)]
fn type_operator<E: Scope>(
    env: &E,
    f: &Function<'_>,
    opcode: u8,
    s: &mut Stacks,
    cursor: &mut Cursor<'_>,
) -> Result<bool, Stop>
    ensures { IfOk result
        (TakesBehind (E.answers env.now) f.now opcode cursor.old cursor.new s.old s.new) }
{
    match opcode {
        0x00 => fast_alone(env, f, 0x00, s, cursor), // unreachable
        0x01 => fast_alone(env, f, 0x01, s, cursor), // nop
        0x0C => fast_index(env, f, 0x0C, s, cursor), // br
        0x0D => fast_index(env, f, 0x0D, s, cursor), // br_if
        0x0F => fast_alone(env, f, 0x0F, s, cursor), // return
        0x10 => fast_call(env, f, s, cursor), // call
        0x11 => fast_index_reserved(env, f, s, cursor), // call_indirect
        0x1A => fast_alone(env, f, 0x1A, s, cursor), // drop
        0x1B => fast_alone(env, f, 0x1B, s, cursor), // select
        0x20 => fast_index(env, f, 0x20, s, cursor), // local.get
        0x21 => fast_index(env, f, 0x21, s, cursor), // local.set
        0x22 => fast_index(env, f, 0x22, s, cursor), // local.tee
        0x23 => fast_index(env, f, 0x23, s, cursor), // global.get
        0x24 => fast_index(env, f, 0x24, s, cursor), // global.set
        0x28..=0x3E => fast_memarg(env, f, opcode, s, cursor),
        0x3F => fast_reserved(env, f, 0x3F, s, cursor), // memory.size
        0x40 => fast_reserved(env, f, 0x40, s, cursor), // memory.grow
        0x41 => fast_signed(env, f, 0x41, s, cursor), // i32.const
        0x42 => fast_signed(env, f, 0x42, s, cursor), // i64.const
        0x43 => fast_word(env, f, 0x43, s, cursor), // f32.const
        0x44 => fast_word(env, f, 0x44, s, cursor), // f64.const
        0x45..=0xBF => fast_numeric(env, f, opcode, s, cursor),
        _ => Ok(false),
    }
}

// What the fast path came to, by whether a token was typed.
#[inline(always)]
fn token_if(taken: bool) -> FastStep
    ensures yes { result ≡ FastStep.Token → taken ≡ true }
    ensures no { result ≡ FastStep.Other → taken ≡ false }
    ensures never { result ≡ FastStep.Last → ⊥ }
{
    if taken {
        FastStep::Token
    } else {
        FastStep::Other
    }
}

/// Types the token at the front, if it is one of those that are typed from their bytes. Else the reader and the open blocks are as
/// they were, and the cursor stands anywhere.
#[inline(always)]
pub(crate) fn type_fast<E: Scope>(
    env: &E,
    f: &Function<'_>,
    reader: &mut TokenReader,
    s: &mut Stacks,
    cursor: &mut Cursor<'_>,
) -> Result<FastStep, Stop>
    ensures taken { (profile : Profile)
        → IfOk result
        (λ p. p ≡ FastStep.Token
        → IsTaken (E.answers env.now) f.now profile reader.old reader.new cursor.old cursor.new
        s.old s.new) }
    ensures last { (profile : Profile)
        → IfOk result
        (λ p. p ≡ FastStep.Last
        → NextRead profile reader.old reader.new cursor.old cursor.new None
        × (s.new ≡ s.old)) }
    ensures left { IfOk result
        (λ p. p ≡ FastStep.Other → (s.new ≡ s.old) × (reader.new ≡ reader.old)) }
{
    let Ok(opcode) = cursor.byte() else {
        return Ok(FastStep::Other);
    };
    match opcode {
        0x02 => fast_open(env, false, FrameKind::Block, reader, s, cursor),
        0x03 => fast_open(env, false, FrameKind::Loop, reader, s, cursor),
        0x04 => fast_open(env, true, FrameKind::If, reader, s, cursor),
        0x05 => fast_else(env, reader, s),
        0x0B => fast_end(env, reader, s),
        _ => Ok(token_if(type_operator(env, f, opcode, s, cursor)?)),
    }
}
