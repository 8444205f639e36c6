//! What each instruction does to the open blocks (3.3).

ghost use Rattle.std.specs.Prelude.{◌≡◌, ◌∷◌, [], length, ◌^◌};
ghost use Rattle.wk_body.specs.Kept.{told, IsWithin};
ghost use Rattle.wk_body.specs.Numeric.{numeric_type};
ghost use Rattle.wk_body.specs.MemoryOps.{memory_width};
ghost use Rattle.wk_body.specs.declared.references.Ref.{Ref};
ghost use Rattle.wk_body.specs.declared.types.ValType.TheVariants.{I32};
ghost use Rattle.wk_typing.specs.Effects.{Takes, Selects, local_type, local_get, local_set, local_tee, global_get, global_set, with_memory, access_effect, numeric_effect};
ghost use Rattle.wk_typing.specs.Typing.{after_effect};
ghost use Rattle.wk_typing.specs.Levels.{step, enter_block, end_then};
ghost use Rattle.wk_typing.specs.Locals.{is_over};
ghost use Rattle.wk_typing.specs.Moves.{Steps, acting, on_top};

use crate::control::{
    branch, branch_if, branch_table, call, call_indirect, check_memory, end_block, end_then,
    enter_block,
};
use crate::env::{Lookup, Scope};
use crate::fault::FaultKind;
use crate::locals::Locals;
use crate::operands::{
    apply_polymorphic, binop, drop_top, pop_two, pop_val, push_val, select, unop,
};
use crate::stacks::{FrameKind, Stacks};
use crate::stop::Stop;
use wk_module::{BlockType, MemoryOp, NumericOp, NumericType, Ref, Token, ValType};

/// What instructions see of their function.
#[derive(Drop)]
pub(crate) struct Function<'a> {
    /// The locals.
    pub(crate) locals: Locals<'a>,
    /// The results, which `return` takes.
    pub(crate) results: &'a [ValType],
}

// A `local.get`.
#[inline(always)]
pub(crate) fn get_local(locals: &Locals, s: &mut Stacks, x: u32) -> Result<(), Stop>
    ensures { Steps (acting (local_get (local_type locals.now.params locals.now.groups x)) s.old)
        result s.new }
{
    match locals.ty(x) {
        Some(ty) => push_val(s, ty),
        None => Err(Stop::Fault(FaultKind::UnknownLocal)),
    }
}

// A `local.set`.
#[inline(always)]
pub(crate) fn set_local(locals: &Locals, s: &mut Stacks, x: u32) -> Result<(), Stop>
    ensures { Steps (acting (local_set (local_type locals.now.params locals.now.groups x)) s.old)
        result s.new }
{
    match locals.ty(x) {
        Some(ty) => pop_val(s, ty),
        None => Err(Stop::Fault(FaultKind::UnknownLocal)),
    }
}

// A `local.tee`.
#[inline(always)]
pub(crate) fn tee_local(locals: &Locals, s: &mut Stacks, x: u32) -> Result<(), Stop>
    ensures { Steps (acting (local_tee (local_type locals.now.params locals.now.groups x)) s.old)
        result s.new }
{
    match locals.ty(x) {
        Some(ty) => unop(s, ty, ty),
        None => Err(Stop::Fault(FaultKind::UnknownLocal)),
    }
}

// A `global.get`.
pub(crate) fn get_global<E: Scope>(env: &E, s: &mut Stacks, x: u32) -> Result<(), Stop>
    ensures { Steps (acting (global_get (E.answers env.now (Ref.Global x))) s.old) result s.new }
{
    match env.look_up(Ref::Global(x)) {
        Lookup::Global(global) => push_val(s, global.val),
        _ => Err(Stop::Fault(FaultKind::UnknownGlobal)),
    }
}

// A `global.set`.
pub(crate) fn set_global<E: Scope>(env: &E, s: &mut Stacks, x: u32) -> Result<(), Stop>
    ensures { Steps (acting (global_set (E.answers env.now (Ref.Global x))) s.old) result s.new }
{
    match env.look_up(Ref::Global(x)) {
        Lookup::Global(global) => {
            if global.mutable {
                pop_val(s, global.val)
            } else {
                Err(Stop::Fault(FaultKind::GlobalImmutable))
            }
        }
        _ => Err(Stop::Fault(FaultKind::UnknownGlobal)),
    }
}

// The exponent of the width of an access.
#[inline(always)]
fn natural_align(op: MemoryOp) -> u32
    ensures { memory_width op ≡ 2 ^ result }
{
    match op.width() {
        1 => 0,
        2 => 1,
        4 => 2,
        _ => 3,
    }
}

// Whether the power of two with this exponent is above the width of the access.
#[inline(always)]
fn is_over(op: MemoryOp, align: u32) -> bool
    ensures { result ≡ is_over (memory_width op) align }
{
    align > natural_align(op)
}

// A load or a store.
#[inline(always)]
pub(crate) fn access<E: Scope>(
    env: &E,
    s: &mut Stacks,
    op: MemoryOp,
    align: u32,
) -> Result<(), Stop>
    ensures { Steps (acting (access_effect (E.answers env.now Ref.Memory) op align) s.old) result
        s.new }
{
    check_memory(env)?;
    if is_over(op, align) {
        return Err(Stop::Fault(FaultKind::Alignment));
    }
    if op.is_store() {
        pop_two(s, ValType::I32, op.ty())
    } else {
        unop(s, ValType::I32, op.ty())
    }
}

// A `memory.size`.
pub(crate) fn memory_size<E: Scope>(env: &E, s: &mut Stacks) -> Result<(), Stop>
    ensures { Steps
        (acting (with_memory (E.answers env.now Ref.Memory) (Takes [] (I32 ∷ []))) s.old) result
        s.new }
{
    check_memory(env)?;
    push_val(s, ValType::I32)
}

// A `memory.grow`.
pub(crate) fn memory_grow<E: Scope>(env: &E, s: &mut Stacks) -> Result<(), Stop>
    ensures { Steps
        (acting (with_memory (E.answers env.now Ref.Memory) (Takes (I32 ∷ []) (I32 ∷ []))) s.old)
        result s.new }
{
    check_memory(env)?;
    unop(s, ValType::I32, ValType::I32)
}

// The beginning of a block. (Its answer comes through memory, into a place that is this function's own, and its type goes through
// memory in a copy: so the loop over the tokens keeps its answers and the tokens in registers.)
#[inline(always)]
fn type_open<E: Scope>(
    env: &E,
    s: &mut Stacks,
    test: bool,
    kind: FrameKind,
    ty: &BlockType,
) -> Result<(), Stop>
    ensures { Steps (enter_block (E.answers env.now) test kind ty.now s.old) result s.new }
{
    let ty = *ty;
    enter_block(env, s, test, kind, &ty)?;
    Ok(())
}

// An `else`, with a place of its own as well.
#[inline(always)]
fn type_else<E: Scope>(env: &E, s: &mut Stacks) -> Result<(), Stop>
    ensures { Steps (end_then (E.answers env.now) s.old) result s.new }
{
    end_then(env, s)?;
    Ok(())
}

// A `select`, with a place of its own as well.
#[inline(always)]
fn type_select(s: &mut Stacks) -> Result<(), Stop>
    ensures { Steps (on_top (after_effect Selects) s.old) result s.new }
{
    select(s)?;
    Ok(())
}

// A numeric instruction.
#[inline(always)]
pub(crate) fn numeric(s: &mut Stacks, op: NumericOp) -> Result<(), Stop>
    ensures { Steps (on_top (after_effect (numeric_effect (numeric_type op))) s.old) result s.new }
{
    match op.ty() {
        NumericType::Unary {
            operand,
            result: given,
        } => unop(s, operand, given),
        NumericType::Binary {
            operand,
            result: given,
        } => binop(s, operand, given),
    }
}

/// Types one token, whose labels stand in the pool.
#[inline(always)]
pub(crate) fn type_token<E: Scope>(
    env: &E,
    f: &Function<'_>,
    pool: &[u32],
    s: &mut Stacks,
    token: &Token,
) -> Result<(), Stop>
    requires { IsWithin (length pool.now) token.now }
    ensures { Steps
        (step (E.answers env.now) (local_type f.now.locals.params f.now.locals.groups)
        f.now.results.now (told pool.now token.now) s.old)
        result s.new }
{
    match token {
        Token::Unreachable => apply_polymorphic(s, false, &[]),
        Token::Nop => Ok(()),
        Token::Block { ty, .. } => type_open(env, s, false, FrameKind::Block, ty),
        Token::Loop { ty, .. } => type_open(env, s, false, FrameKind::Loop, ty),
        Token::If { ty, .. } => type_open(env, s, true, FrameKind::If, ty),
        Token::Else { .. } => type_else(env, s),
        Token::End => end_block(env, s),
        Token::Br(to) => branch(env, s, *to),
        Token::BrIf(to) => branch_if(env, s, *to),
        Token::BrTable { start, len, other } => {
            let start = *start as usize;
            branch_table(env, s, &pool[start..start + *len as usize], *other)
        }
        Token::Return => apply_polymorphic(s, false, f.results),
        Token::Call(x) => call(env, s, *x),
        Token::CallIndirect(x) => call_indirect(env, s, *x),
        Token::Drop => drop_top(s),
        Token::Select => type_select(s),
        Token::LocalGet(x) => get_local(&f.locals, s, *x),
        Token::LocalSet(x) => set_local(&f.locals, s, *x),
        Token::LocalTee(x) => tee_local(&f.locals, s, *x),
        Token::GlobalGet(x) => get_global(env, s, *x),
        Token::GlobalSet(x) => set_global(env, s, *x),
        Token::Access { op, align, .. } => access(env, s, *op, *align),
        Token::MemorySize => memory_size(env, s),
        Token::MemoryGrow => memory_grow(env, s),
        Token::I32Const(_) => push_val(s, ValType::I32),
        Token::I64Const(_) => push_val(s, ValType::I64),
        Token::F32Const(_) => push_val(s, ValType::F32),
        Token::F64Const(_) => push_val(s, ValType::F64),
        Token::Numeric(op) => numeric(s, *op),
    }
}
