//! The texts of types and kinds.

ghost use Rattle.std.specs.Prelude.{◌≡◌, ◌++◌, codes, decimal, OnOk};
ghost use Rattle.wk_list.specs.Text.{valtype_name, joined, functype_text, max_text, limits_text, mutability_text, globaltype_text, kind_name};

use crate::text::put_number;
use wk_bytes::OutOfMemory;
use wk_module::{FuncType, GlobalType, Kind, Limits, ValType};

/// The name of a value type (6.4.1).
pub(crate) fn valtype_name(ty: ValType) -> &'static str
    ensures { result.now ≡ valtype_name ty }
{
    match ty {
        ValType::I32 => "i32",
        ValType::I64 => "i64",
        ValType::F32 => "f32",
        ValType::F64 => "f64",
    }
}

/// The name of a kind of what has an index.
pub(crate) fn kind_name(kind: Kind) -> &'static str
    ensures { result.now ≡ kind_name kind }
{
    match kind {
        Kind::Func => "func",
        Kind::Table => "table",
        Kind::Memory => "memory",
        Kind::Global => "global",
    }
}

// Value types with commas between them.
fn put_types(text: &mut Vec<u8>, types: &[ValType]) -> Result<(), OutOfMemory>
    ensures { OnOk result (text.new.items ≡ text.old.items ++ joined valtype_name types.now) }
{
    let Some((first, others)) = types.split_first() else {
        return Ok(());
    };
    text.extend_from_slice(valtype_name(*first).as_bytes())?;
    for ty in others {
        text.extend_from_slice(b",")?;
        text.extend_from_slice(valtype_name(*ty).as_bytes())?;
    }
    Ok(())
}

/// Numbers with commas between them.
pub(crate) fn put_joined(text: &mut Vec<u8>, numbers: &[u32]) -> Result<(), OutOfMemory>
    ensures { OnOk result (text.new.items ≡ text.old.items ++ joined decimal numbers.now) }
{
    let Some((first, others)) = numbers.split_first() else {
        return Ok(());
    };
    put_number(text, u64::from(*first))?;
    for n in others {
        text.extend_from_slice(b",")?;
        put_number(text, u64::from(*n))?;
    }
    Ok(())
}

/// A function type, as `(i32,i64)->(i32)`.
pub(crate) fn put_functype(text: &mut Vec<u8>, ty: &FuncType) -> Result<(), OutOfMemory>
    ensures { OnOk result (text.new.items ≡ text.old.items ++ functype_text ty.now) }
{
    text.extend_from_slice(b"(")?;
    put_types(text, ty.params.as_slice())?;
    text.extend_from_slice(b")->(")?;
    put_types(text, ty.results.as_slice())?;
    text.extend_from_slice(b")")?;
    Ok(())
}

/// Limits, as ` min=1 max=2`.
pub(crate) fn put_limits(text: &mut Vec<u8>, limits: &Limits) -> Result<(), OutOfMemory>
    ensures { OnOk result (text.new.items ≡ text.old.items ++ limits_text limits.now) }
{
    text.extend_from_slice(b" min=")?;
    put_number(text, u64::from(limits.min))?;
    let Some(max) = limits.max else {
        return Ok(());
    };
    text.extend_from_slice(b" max=")?;
    put_number(text, u64::from(max))
}

/// A global type, as ` i32 const`.
pub(crate) fn put_globaltype(text: &mut Vec<u8>, ty: GlobalType) -> Result<(), OutOfMemory>
    ensures { OnOk result (text.new.items ≡ text.old.items ++ globaltype_text ty) }
{
    text.extend_from_slice(b" ")?;
    text.extend_from_slice(valtype_name(ty.val).as_bytes())?;
    text.extend_from_slice(if ty.mutable { b" var" } else { b" const" })?;
    Ok(())
}
