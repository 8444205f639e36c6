//! The fast path of a constant expression that is still to be read: one constant of the wanted type, and the end behind it.
//!
//! The model is reading the expression (`Scratch::next_expr`) and asking what is wrong with it
//! (`constant_flaw`), which puts its two tokens together, copies them and types them as a body.
//! Of such bytes the answer is known: nothing is wrong. Nearly all initialisers and offsets are
//! such (`docs/PERF.md` has what it gains). Left to the model are a `global.get`, a constant of
//! another type, and all that is no constant or can't be read.

ghost use Rattle.std.specs.Prelude.{◌≡◌, Ok, None, true};
ghost use Rattle.wk_bytes.specs.declared.fault.ReadFault.{ReadFault as AnyFault};
ghost use Rattle.wk_body.specs.declared.references.Ref.{Ref};
ghost use Rattle.wk_body.specs.declared.types.Profile.{Profile};
ghost use Rattle.wk_body.specs.Instructions.{Plain};
ghost use Rattle.wk_body.specs.Reading.{expr_at, plain_at};
ghost use Rattle.wk_module.specs.Formats.{made_at};
ghost use Rattle.wk_typing.specs.Answers.{Found};
ghost use Rattle.wk_typing.specs.Constants.{constant_flaw, is_constant_of, constant_opcode};

use wk_bytes::Cursor;
use wk_module::ValType;

// The opcode of the constant of a type (5.4.5).
#[inline(always)]
fn constant_opcode(ty: ValType) -> u8
    ensures { result ≡ constant_opcode ty }
{
    match ty {
        ValType::I32 => 0x41,
        ValType::I64 => 0x42,
        ValType::F32 => 0x43,
        ValType::F64 => 0x44,
    }
}

// Passes the value of a constant of a type behind its opcode, and tells whether there is one.
#[tactic(auto, unfolding(wk_body::specs::Reading::plain_at, wk_body::specs::Reading::behind_form, wk_body::specs::Instructions::form_of))]
#[inline(always)]
fn pass_value(ty: ValType, cursor: &mut Cursor<'_>) -> bool
    ensures { (profile : Profile) (e : AnyFault) → result ≡ true
        → (p : Plain) × (is_constant_of ty p ≡ true)
        × (plain_at profile e (constant_opcode ty) cursor.old.end cursor.old.rest
        ≡ Ok (p, cursor.new.rest))
        × (cursor.new.end ≡ cursor.old.end) }
{
    match ty {
        ValType::I32 => cursor.s32().is_ok(),
        ValType::I64 => cursor.s64().is_ok(),
        ValType::F32 => cursor.word32().is_ok(),
        ValType::F64 => cursor.word64().is_ok(),
    }
}

/// Passes a constant of the type and its end, and tells whether that is what comes next. Where it isn't, the cursor stands anywhere.
#[inline]
pub(crate) fn pass_constant(ty: ValType, cursor: &mut Cursor<'_>) -> bool
    ensures { (A : Ref → Found) (profile : Profile) → result ≡ true
        → (made_at (constant_flaw A ty) (expr_at profile) cursor.old.end cursor.old.rest
        ≡ Ok (None, cursor.new.rest))
        × (cursor.new.end ≡ cursor.old.end) }
{
    let Ok(opcode) = cursor.byte() else {
        return false;
    };
    if opcode != constant_opcode(ty) || !pass_value(ty, cursor) {
        return false;
    }
    matches!(cursor.byte(), Ok(0x0B))
}
