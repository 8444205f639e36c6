//! Types and kinds of a script.

ghost use Rattle.std.specs.Prelude.{◌≡◌, IfOk, map};
ghost use Rattle.wk_edit.specs.Words.{desc_of, global_type_of, kind_named, mutable_named, type_named, types_of};

use crate::number::{read_limits, read_number};
use crate::pieces::Pieces;
use std::alloc::{AllocError, Global};
use wk_bytes::Items;
use wk_module::{GlobalType, ImportDesc, Kind, ValType};

// The value type of a word.
fn read_type(word: &[u8]) -> Option<ValType>
    ensures { result ≡ type_named word.now }
{
    match word {
        b"i32" => Some(ValType::I32),
        b"i64" => Some(ValType::I64),
        b"f32" => Some(ValType::F32),
        b"f64" => Some(ValType::F64),
        _ => None,
    }
}

/// The value types of a word, `-` or names joined by `,`; `None` where it is neither.
#[tactic(auto, using(crate::proofs::ScriptSteps::type_steps))]
pub(crate) fn read_types(alloc: Global, word: &[u8]) -> Result<Option<Items<ValType>>, AllocError>
    ensures { IfOk result (λ types. types ≡ types_of word.now) }
{
    let mut types = Items::new(alloc);
    if word == b"-".as_slice() {
        return Ok(Some(types));
    }
    for piece in Pieces::new(word, b',') {
        let Some(ty) = read_type(piece) else {
            return Ok(None);
        };
        types.push(ty)?;
    }
    Ok(Some(types))
}

// Whether a global may be set.
fn read_mutable(word: &[u8]) -> Option<bool>
    ensures { result ≡ mutable_named word.now }
{
    if word == b"const".as_slice() {
        Some(false)
    } else if word == b"var".as_slice() {
        Some(true)
    } else {
        None
    }
}

/// The type of a global, by its value's type and `const` or `var`. `None` where it is none.
pub(crate) fn read_global_type(val: &[u8], set: &[u8]) -> Option<GlobalType>
    ensures { result ≡ global_type_of val.now set.now }
{
    Some(GlobalType {
        val: read_type(val)?,
        mutable: read_mutable(set)?,
    })
}

/// The kind of a word: `func`, `table`, `memory` or `global`. `None` where it is none.
pub(crate) fn read_kind(word: &[u8]) -> Option<Kind>
    ensures { result ≡ kind_named word.now }
{
    if word == b"func".as_slice() {
        Some(Kind::Func)
    } else if word == b"table".as_slice() {
        Some(Kind::Table)
    } else if word == b"memory".as_slice() {
        Some(Kind::Memory)
    } else if word == b"global".as_slice() {
        Some(Kind::Global)
    } else {
        None
    }
}

// The index of the type of an imported function.
fn read_func(words: &[&[u8]]) -> Option<ImportDesc>
    ensures { result ≡ desc_of Kind.Func (map (λ w. w.now) words.now) }
{
    match words {
        &[ty] => Some(ImportDesc::Func(read_number(ty)?)),
        _ => None,
    }
}

// The type of an imported global.
fn read_global(words: &[&[u8]]) -> Option<ImportDesc>
    ensures { result ≡ desc_of Kind.Global (map (λ w. w.now) words.now) }
{
    match words {
        &[val, set] => Some(ImportDesc::Global(read_global_type(val, set)?)),
        _ => None,
    }
}

/// What is imported, by its kind and the words behind its names. `None` where they say nothing.
pub(crate) fn read_desc(kind: Kind, words: &[&[u8]]) -> Option<ImportDesc>
    ensures { result ≡ desc_of kind (map (λ w. w.now) words.now) }
{
    match kind {
        Kind::Func => read_func(words),
        Kind::Table => Some(ImportDesc::Table(read_limits(words)?)),
        Kind::Memory => Some(ImportDesc::Memory(read_limits(words)?)),
        Kind::Global => read_global(words),
    }
}
