//! Blocks, labels and branches (3.3.5), and what instructions ask of the module.

ghost use Rattle.std.specs.Prelude.{◌≡◌, ◌∷◌, [], MatchOption, MatchResult, slice_get, Some, None, Err};
ghost use Rattle.wk_typing.specs.Answers.{IsPresent};
ghost use Rattle.wk_typing.specs.Effects.{Effect, params_of, results_of, known, all_known, all_same, has_types, branch_effect, branch_if_effect, table_effect, call_effect, indirect_effect, with_memory};
ghost use Rattle.wk_typing.specs.Levels.{level_label, labels_of, enter_block, end_then, end_inner, end_block};
ghost use Rattle.wk_typing.specs.Moves.{Steps, Ends, acting};
ghost use Rattle.wk_body.specs.declared.references.Ref.{Ref};

use crate::env::{Lookup, Scope};
use crate::fault::FaultKind;
use crate::operands::{
    apply_polymorphic, apply_type, apply_type_in_line, are_same, pop_indexed, pop_types, pop_val,
    push_types,
};
use crate::stacks::{FrameKind, Stacks};
use crate::stop::Stop;
use wk_module::{BlockType, Ref, ValType};

/// A list of one type.
pub(crate) fn one(ty: ValType) -> &'static [ValType]
    ensures { result.now ≡ ty ∷ [] }
{
    match ty {
        ValType::I32 => &[ValType::I32],
        ValType::I64 => &[ValType::I64],
        ValType::F32 => &[ValType::F32],
        ValType::F64 => &[ValType::F64],
    }
}

/// The parameters of a block type, none where it is unknown.
pub(crate) fn params<E: Scope>(env: &E, block: BlockType) -> &[ValType]
    ensures { result.now ≡ params_of (E.answers env.now) block }
{
    match block {
        BlockType::Empty => &[],
        BlockType::Value(_) => &[],
        BlockType::Index(x) => match env.look_up(Ref::Ty(x)) {
            Lookup::Ty(ty) => ty.params,
            _ => &[],
        },
    }
}

/// The results of a block type, none where it is unknown.
pub(crate) fn results<E: Scope>(env: &E, block: BlockType) -> &[ValType]
    ensures { result.now ≡ results_of (E.answers env.now) block }
{
    match block {
        BlockType::Empty => &[],
        BlockType::Value(ty) => one(ty),
        BlockType::Index(x) => match env.look_up(Ref::Ty(x)) {
            Lookup::Ty(ty) => ty.results,
            _ => &[],
        },
    }
}

/// Whether a block type is known.
pub(crate) fn check_known<E: Scope>(env: &E, block: BlockType) -> Result<(), FaultKind>
    ensures { result ≡ known (E.answers env.now) block }
{
    match block {
        BlockType::Empty => Ok(()),
        BlockType::Value(_) => Ok(()),
        BlockType::Index(x) => match env.look_up(Ref::Ty(x)) {
            Lookup::Ty(_) => Ok(()),
            _ => Err(FaultKind::UnknownType),
        },
    }
}

// The types that a branch to a block takes.
fn branch_types<E: Scope>(env: &E, kind: FrameKind, block: BlockType) -> &[ValType]
    ensures { result.now ≡ level_label (E.answers env.now) kind block }
{
    match kind {
        FrameKind::Loop => params(env, block),
        _ => results(env, block),
    }
}

// The types of a label.
#[inline(always)]
fn label<'a, E: Scope>(env: &'a E, s: &Stacks, label: u32) -> Option<&'a [ValType]>
    ensures { MatchOption
        result
        (slice_get (labels_of (E.answers env.now) s.now) label ≡ None)
        (λ ts. slice_get (labels_of (E.answers env.now) s.now) label ≡ Some ts.now) }
{
    match s.head(label as usize) {
        Some((kind, block)) => Some(branch_types(env, kind, block)),
        None => None,
    }
}

// Whether each label is known.
fn are_known<E: Scope>(env: &E, s: &Stacks, labels: &[u32]) -> bool
    ensures { result ≡ all_known (labels_of (E.answers env.now) s.now) labels.now }
{
    for each in labels {
        if label(env, s, *each).is_none() {
            return false;
        }
    }
    true
}

// Whether a label has these types. Most lead to a block of no types, which is told without looking for any.
#[inline(always)]
fn has_types<E: Scope>(env: &E, s: &Stacks, to: u32, types: &[ValType]) -> bool
    ensures { result ≡ has_types types.now (slice_get (labels_of (E.answers env.now) s.now) to) }
{
    match s.head(to as usize) {
        Some((_, BlockType::Empty)) => types.is_empty(),
        Some((kind, block)) => are_same(branch_types(env, kind, block), types),
        None => false,
    }
}

// Whether each label has these types.
fn are_alike<E: Scope>(env: &E, s: &Stacks, labels: &[u32], types: &[ValType]) -> bool
    ensures { result ≡ all_same (labels_of (E.answers env.now) s.now) types.now labels.now }
{
    for each in labels {
        if !has_types(env, s, *each, types) {
            return false;
        }
    }
    true
}

/// A `br`.
pub(crate) fn branch<E: Scope>(env: &E, s: &mut Stacks, to: u32) -> Result<(), Stop>
    ensures { Steps
        (acting (branch_effect (slice_get (labels_of (E.answers env.now) s.old) to)) s.old) result
        s.new }
{
    match label(env, s, to) {
        Some(types) => apply_polymorphic(s, false, types),
        None => Err(Stop::Fault(FaultKind::UnknownLabel)),
    }
}

/// A `br_if`.
pub(crate) fn branch_if<E: Scope>(env: &E, s: &mut Stacks, to: u32) -> Result<(), Stop>
    ensures { Steps
        (acting (branch_if_effect (slice_get (labels_of (E.answers env.now) s.old) to)) s.old)
        result s.new }
{
    match label(env, s, to) {
        // (most labels have no types)
        Some([]) => pop_val(s, ValType::I32),
        Some(types) => apply_type(s, true, types, types),
        None => Err(Stop::Fault(FaultKind::UnknownLabel)),
    }
}

/// A `br_table`: its labels have equal types.
pub(crate) fn branch_table<E: Scope>(
    env: &E,
    s: &mut Stacks,
    labels: &[u32],
    other: u32,
) -> Result<(), Stop>
    ensures { Steps
        (acting (table_effect (labels_of (E.answers env.now) s.old) labels.now other) s.old) result
        s.new }
{
    if !are_known(env, s, labels) {
        return Err(Stop::Fault(FaultKind::UnknownLabel));
    }
    let Some(types) = label(env, s, other) else {
        return Err(Stop::Fault(FaultKind::UnknownLabel));
    };
    if are_alike(env, s, labels, types) {
        apply_polymorphic(s, true, types)
    } else {
        Err(Stop::Fault(FaultKind::LabelTypes))
    }
}

/// A `call`, in line.
#[inline(always)]
pub(crate) fn call_in_line<E: Scope>(env: &E, s: &mut Stacks, x: u32) -> Result<(), Stop>
    ensures { Steps (acting (call_effect (E.answers env.now (Ref.Func x))) s.old) result s.new }
{
    match env.look_up(Ref::Func(x)) {
        Lookup::Func(ty) => apply_type_in_line(s, false, ty.params, ty.results),
        Lookup::FuncOfNoType => Err(Stop::Fault(FaultKind::UnknownType)),
        _ => Err(Stop::Fault(FaultKind::UnknownFunc)),
    }
}

/// A `call`.
pub(crate) fn call<E: Scope>(env: &E, s: &mut Stacks, x: u32) -> Result<(), Stop>
    ensures { Steps (acting (call_effect (E.answers env.now (Ref.Func x))) s.old) result s.new }
{
    call_in_line(env, s, x)
}

/// A `call_indirect`, in line.
#[inline(always)]
pub(crate) fn call_indirect_in_line<E: Scope>(env: &E, s: &mut Stacks, x: u32) -> Result<(), Stop>
    ensures { Steps
        (acting (indirect_effect (E.answers env.now (Ref.Ty x)) (E.answers env.now Ref.Table))
        s.old)
        result s.new }
{
    let Lookup::Ty(ty) = env.look_up(Ref::Ty(x)) else {
        return Err(Stop::Fault(FaultKind::UnknownType));
    };
    match env.look_up(Ref::Table) {
        Lookup::Present => apply_type_in_line(s, true, ty.params, ty.results),
        _ => Err(Stop::Fault(FaultKind::UnknownTable)),
    }
}

/// A `call_indirect`.
pub(crate) fn call_indirect<E: Scope>(env: &E, s: &mut Stacks, x: u32) -> Result<(), Stop>
    ensures { Steps
        (acting (indirect_effect (E.answers env.now (Ref.Ty x)) (E.answers env.now Ref.Table))
        s.old)
        result s.new }
{
    call_indirect_in_line(env, s, x)
}

/// Whether there is a memory.
pub(crate) fn check_memory<E: Scope>(env: &E) -> Result<(), FaultKind>
    ensures { MatchResult
        result
        (λ _. E.answers env.now Ref.Memory ≡ IsPresent)
        (λ e. (w : Effect) → with_memory (E.answers env.now Ref.Memory) w ≡ Err e) }
{
    match env.look_up(Ref::Memory) {
        Lookup::Present => Ok(()),
        _ => Err(FaultKind::UnknownMemory),
    }
}

/// Opens a block of this type, which has to be known, after popping a test, where there is one, and its parameters.
#[inline(never)]
pub(crate) fn enter_block<E: Scope>(
    env: &E,
    s: &mut Stacks,
    test: bool,
    kind: FrameKind,
    block: &BlockType,
) -> Result<(), Stop>
    ensures { Steps (enter_block (E.answers env.now) test kind block.now s.old) result s.new }
{
    let block = *block;
    check_known(env, block)?;
    pop_indexed(s, test, params(env, block))?;
    s.push_ctrl(kind, block)?;
    push_types(s, params(env, block))?;
    Ok(())
}

/// Opens a block of the type of an index, as `enter_block` does, in line: the type is looked for
/// once.
#[inline(always)]
pub(crate) fn enter_indexed<E: Scope>(
    env: &E,
    s: &mut Stacks,
    test: bool,
    kind: FrameKind,
    x: u32,
) -> Result<(), Stop>
    ensures { Steps (enter_block (E.answers env.now) test kind (BlockType.Index x) s.old) result
        s.new }
{
    let Lookup::Ty(ty) = env.look_up(Ref::Ty(x)) else {
        return Err(Stop::Fault(FaultKind::UnknownType));
    };
    pop_indexed(s, test, ty.params)?;
    s.push_ctrl(kind, BlockType::Index(x))?;
    push_types(s, ty.params)?;
    Ok(())
}

/// Pops a block's results, after which its stack is empty.
pub(crate) fn check_end(s: &mut Stacks, types: &[ValType]) -> Result<(), FaultKind>
    ensures { Ends types.now s.old result s.new }
{
    pop_types(s, types)?;
    if s.is_clear() {
        Ok(())
    } else {
        Err(FaultKind::StackHeight)
    }
}

/// Ends a then branch, and begins the else branch.
pub(crate) fn end_then<E: Scope>(env: &E, s: &mut Stacks) -> Result<(), Stop>
    ensures { Steps (end_then (E.answers env.now) s.old) result s.new }
{
    let block = s.block();
    check_end(s, results(env, block))?;
    s.begin_else();
    push_types(s, params(env, block))?;
    Ok(())
}

// Ends a block that stands in another, whose branches but the last have ended.
#[inline(always)]
fn end_inner<E: Scope>(env: &E, s: &mut Stacks) -> Result<(), Stop>
    ensures { Steps (end_inner (E.answers env.now) s.old.inner s.old.outer) result s.new }
{
    if s.is_outermost() {
        return Ok(());
    }
    let types = results(env, s.block());
    check_end(s, types)?;
    s.pop_ctrl();
    push_types(s, types)?;
    Ok(())
}

/// Ends the innermost block, in line. The outermost one stays.
#[inline(always)]
pub(crate) fn end_block_in_line<E: Scope>(env: &E, s: &mut Stacks) -> Result<(), Stop>
    ensures { Steps (end_block (E.answers env.now) s.old.inner.kind s.old) result s.new }
{
    match s.frame_kind() {
        FrameKind::If => {
            end_then(env, s)?;
        }
        FrameKind::Body | FrameKind::Block | FrameKind::Loop | FrameKind::Else => {}
    }
    end_inner(env, s)
}

/// Ends the innermost block. The outermost one stays.
pub(crate) fn end_block<E: Scope>(env: &E, s: &mut Stacks) -> Result<(), Stop>
    ensures { Steps (end_block (E.answers env.now) s.old.inner.kind s.old) result s.new }
{
    end_block_in_line(env, s)
}
