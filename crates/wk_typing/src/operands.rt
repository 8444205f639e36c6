//! Pops and pushes of several operands.

ghost use Rattle.std.specs.Prelude.{◌≡◌, [], ◌∷◌, OnOk};
ghost use Rattle.wk_typing.specs.Slots.{Known};
ghost use Rattle.wk_typing.specs.Own.{popped_one, popped, pushed};
ghost use Rattle.wk_typing.specs.Effects.{same_types, Stops, Drops, Selects};
ghost use Rattle.wk_typing.specs.Typing.{after_effect, with_index};
ghost use Rattle.wk_typing.specs.Levels.{with_top};
ghost use Rattle.wk_typing.specs.Moves.{Pops, popped_on, pushed_on, Does, Steps, MadeBy, on_top, applied_on};

use crate::fault::FaultKind;
use crate::operand::Operand;
use crate::stacks::Stacks;
use crate::stop::{Growth, Stop, to_registers};
use wk_bytes::OutOfMemory;
use wk_module::ValType;

/// Whether two lists of value types are the same.
pub(crate) fn are_same(a: &[ValType], b: &[ValType]) -> bool
    ensures { result ≡ same_types a.now b.now }
{
    if a.len() != b.len() {
        return false;
    }
    for i in 0..a.len() {
        if a[i] != b[i] {
            return false;
        }
    }
    true
}

/// Pops an operand that fits.
#[inline(always)]
fn pop_as(s: &mut Stacks, want: Operand) -> Result<Operand, FaultKind>
    ensures { Pops (popped_on (popped_one want) s.old) result s.new }
{
    let x = s.pop_val()?;
    if want.fits(x) {
        Ok(x)
    } else {
        Err(FaultKind::TypeMismatch)
    }
}

// Pops an operand that fits a type.
#[inline(always)]
fn pop_known(s: &mut Stacks, ty: ValType) -> Result<Operand, FaultKind>
    ensures { Pops (popped_on (popped_one (Known ty)) s.old) result s.new }
{
    pop_as(s, Operand::known(ty))
}

// Pushes an operand of a type.
#[inline(always)]
fn push_known(s: &mut Stacks, ty: ValType) -> Result<(), OutOfMemory>
    ensures { OnOk result (s.new ≡ pushed_on (Known ty) s.old) }
{
    s.push_val(Operand::known(ty))
}

// Pops an operand of a type.
#[inline(always)]
fn pop_type(s: &mut Stacks, ty: ValType) -> Result<(), FaultKind>
    ensures { Does (on_top (popped (ty ∷ [])) s.old) result s.new }
{
    pop_known(s, ty)?;
    Ok(())
}

/// Pops operands of these types, the last first. It takes no more steps than there are operands.
pub(crate) fn pop_types(s: &mut Stacks, types: &[ValType]) -> Result<(), FaultKind>
    ensures { Does (on_top (popped types.now) s.old) result s.new }
{
    let mut n = types.len();
    while n > 0 {
        if s.is_spent() {
            return Ok(());
        }
        n -= 1;
        pop_known(s, types[n])?;
    }
    Ok(())
}

/// Pops operands of these types, and before them an i32 where there is a test or an index.
#[inline(always)]
pub(crate) fn pop_indexed(s: &mut Stacks, index: bool, types: &[ValType]) -> Result<(), FaultKind>
    ensures { Does (on_top (popped (with_index index types.now)) s.old) result s.new }
{
    if index {
        pop_known(s, ValType::I32)?;
        return pop_types(s, types);
    }
    pop_types(s, types)
}

/// Pushes operands of these types, the first first.
pub(crate) fn push_types(s: &mut Stacks, types: &[ValType]) -> Result<(), OutOfMemory>
    ensures { OnOk result (s.new ≡ with_top (pushed types.now s.old.inner.own) s.old) }
{
    for ty in types {
        push_known(s, *ty)?;
    }
    Ok(())
}

/// Pops operands, and before them an i32 where there is an index, and pushes results, in line.
#[inline(always)]
pub(crate) fn apply_type_in_line(
    s: &mut Stacks,
    index: bool,
    operands: &[ValType],
    results: &[ValType],
) -> Result<(), Stop>
    ensures { Steps (applied_on (with_index index operands.now) results.now s.old) result s.new }
{
    pop_indexed(s, index, operands)?;
    push_types(s, results)?;
    Ok(())
}

/// Pops operands, and before them an i32 where there is an index, and pushes results.
pub(crate) fn apply_type(
    s: &mut Stacks,
    index: bool,
    operands: &[ValType],
    results: &[ValType],
) -> Result<(), Stop>
    ensures { Steps (applied_on (with_index index operands.now) results.now s.old) result s.new }
{
    apply_type_in_line(s, index, operands, results)
}

/// Pops operands, and before them an i32 where there is an index, and does not go on.
pub(crate) fn apply_polymorphic(
    s: &mut Stacks,
    index: bool,
    operands: &[ValType],
) -> Result<(), Stop>
    ensures { Steps (on_top (after_effect (Stops (with_index index operands.now))) s.old) result
        s.new }
{
    pop_indexed(s, index, operands)?;
    s.unreachable();
    Ok(())
}

/// Pushes an operand.
#[inline(always)]
pub(crate) fn push_val(s: &mut Stacks, ty: ValType) -> Result<(), Stop>
    ensures { Steps (applied_on [] (ty ∷ []) s.old) result s.new }
{
    push_known(s, ty)?;
    Ok(())
}

/// Pops an operand.
#[inline(always)]
pub(crate) fn pop_val(s: &mut Stacks, ty: ValType) -> Result<(), Stop>
    ensures { Steps (applied_on (ty ∷ []) [] s.old) result s.new }
{
    pop_type(s, ty)?;
    Ok(())
}

/// Pops two operands, the second first.
#[inline(always)]
pub(crate) fn pop_two(s: &mut Stacks, first: ValType, second: ValType) -> Result<(), Stop>
    ensures { Steps (applied_on (first ∷ second ∷ []) [] s.old) result s.new }
{
    pop_type(s, second)?;
    pop_val(s, first)
}

// Pops an operand and pushes a result, one after the other.
#[inline(always)]
fn unop_in_steps(s: &mut Stacks, operand: ValType, given: ValType) -> Result<(), Stop>
    ensures { Steps (applied_on (operand ∷ []) (given ∷ []) s.old) result s.new }
{
    pop_type(s, operand)?;
    push_val(s, given)
}

// The same out of line, where `unop` finds no operand that fits.
#[cold]
#[inline(never)]
fn unop_slow(s: &mut Stacks, operand: ValType, given: ValType) -> Result<Growth, FaultKind>
    ensures { MadeBy (applied_on (operand ∷ []) (given ∷ []) s.old) result s.new }
{
    to_registers(unop_in_steps(s, operand, given))
}

/// Pops an operand and pushes a result: a unop, and all of that shape, as tests, conversions, loads, `local.tee` and `memory.grow`.
/// Where an operand that fits is there, the result takes its place: that is a pop and a push without a look for room.
#[inline(always)]
pub(crate) fn unop(s: &mut Stacks, operand: ValType, given: ValType) -> Result<(), Stop>
    ensures { Steps (applied_on (operand ∷ []) (given ∷ []) s.old) result s.new }
{
    if s.unop_top(Operand::known(operand), Operand::known(given)) {
        return Ok(());
    }
    match unop_slow(s, operand, given)? {
        Growth::Made => Ok(()),
        Growth::Refused => Err(Stop::Memory),
    }
}

// Pops two operands of one type and pushes a result, one after the other.
#[inline(always)]
fn binop_in_steps(s: &mut Stacks, operand: ValType, given: ValType) -> Result<(), Stop>
    ensures { Steps (applied_on (operand ∷ operand ∷ []) (given ∷ []) s.old) result s.new }
{
    pop_type(s, operand)?;
    unop_in_steps(s, operand, given)
}

// The same out of line, where `binop` does not find two operands that fit.
#[cold]
#[inline(never)]
fn binop_slow(s: &mut Stacks, operand: ValType, given: ValType) -> Result<Growth, FaultKind>
    ensures { MadeBy (applied_on (operand ∷ operand ∷ []) (given ∷ []) s.old) result s.new }
{
    to_registers(binop_in_steps(s, operand, given))
}

/// Pops two operands of one type and pushes a result: a binop or a relation. Where two that fit are there, the result takes the place
/// of the first.
#[inline(always)]
pub(crate) fn binop(s: &mut Stacks, operand: ValType, given: ValType) -> Result<(), Stop>
    ensures { Steps (applied_on (operand ∷ operand ∷ []) (given ∷ []) s.old) result s.new }
{
    if s.binop_top(Operand::known(operand), Operand::known(given)) {
        return Ok(());
    }
    match binop_slow(s, operand, given)? {
        Growth::Made => Ok(()),
        Growth::Refused => Err(Stop::Memory),
    }
}

/// Pops any operand.
#[inline(always)]
pub(crate) fn drop_top(s: &mut Stacks) -> Result<(), Stop>
    ensures { Steps (on_top (after_effect Drops) s.old) result s.new }
{
    s.pop_val()?;
    Ok(())
}

/// Pops an i32 and two operands of one type, and pushes one of them.
pub(crate) fn select(s: &mut Stacks) -> Result<(), Stop>
    ensures { Steps (on_top (after_effect Selects) s.old) result s.new }
{
    pop_known(s, ValType::I32)?;
    let second = s.pop_val()?;
    let first = pop_as(s, second)?;
    s.push_val(second.or(first))?;
    Ok(())
}
