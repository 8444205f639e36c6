//! The edits of a script, by the words of a line behind the first one.

ghost use Rattle.std.specs.Prelude.{◌≡◌, IfOk, map, ◌∷◌, []};
ghost use Rattle.wk_edit.specs.Script.{body_edit, custom_edit, edit_by, export_edit, func_edit, global_edit, import_edit, strip_edit, type_edit, unexport_edit};

use crate::bytes::read_data;
use crate::name::read_name;
use crate::number::read_number;
use crate::types::{read_desc, read_global_type, read_kind, read_types};
use crate::verb::Verb;
use std::alloc::{AllocError, Global};
use wk_bytes::{Items, Text};
use wk_module::{Export, FuncType, Import};
use wk_session::Edit;

// `type TYPES TYPES`
fn read_ty(alloc: Global, words: &[&[u8]]) -> Result<Option<Edit>, AllocError>
    ensures { IfOk result (λ edit. edit ≡ type_edit (map (λ w. w.now) words.now)) }
{
    let &[params, results] = words else {
        return Ok(None);
    };
    let Some(params) = read_types(alloc, params)? else {
        return Ok(None);
    };
    let Some(results) = read_types(alloc, results)? else {
        return Ok(None);
    };
    Ok(Some(Edit::Ty(FuncType { params, results })))
}

// `import KIND NAME NAME ..`
fn read_import(alloc: Global, words: &[&[u8]]) -> Result<Option<Edit>, AllocError>
    ensures { IfOk result (λ edit. edit ≡ import_edit (map (λ w. w.now) words.now)) }
{
    let &[kind, from, name, ref more @ ..] = words else {
        return Ok(None);
    };
    let Some(kind) = read_kind(kind) else {
        return Ok(None);
    };
    let Some(desc) = read_desc(kind, more) else {
        return Ok(None);
    };
    let Some(from) = read_name(alloc, from)? else {
        return Ok(None);
    };
    let Some(name) = read_name(alloc, name)? else {
        return Ok(None);
    };
    Ok(Some(Edit::Import(Import { from, name, desc })))
}

// `func U32 BYTES`
fn read_func(alloc: Global, words: &[&[u8]]) -> Result<Option<Edit>, AllocError>
    ensures { IfOk result (λ edit. edit ≡ func_edit (map (λ w. w.now) words.now)) }
{
    let &[ty, digits] = words else {
        return Ok(None);
    };
    let Some(ty) = read_number(ty) else {
        return Ok(None);
    };
    match read_data(alloc, digits)? {
        Some(code) => Ok(Some(Edit::Func { ty, code })),
        None => Ok(None),
    }
}

// `body U32 BYTES`
fn read_body(alloc: Global, words: &[&[u8]]) -> Result<Option<Edit>, AllocError>
    ensures { IfOk result (λ edit. edit ≡ body_edit (map (λ w. w.now) words.now)) }
{
    let &[func, digits] = words else {
        return Ok(None);
    };
    let Some(func) = read_number(func) else {
        return Ok(None);
    };
    match read_data(alloc, digits)? {
        Some(code) => Ok(Some(Edit::Body { func, code })),
        None => Ok(None),
    }
}

// `global VALTYPE MUT BYTES`
fn read_global(alloc: Global, words: &[&[u8]]) -> Result<Option<Edit>, AllocError>
    ensures { IfOk result (λ edit. edit ≡ global_edit (map (λ w. w.now) words.now)) }
{
    let &[val, set, digits] = words else {
        return Ok(None);
    };
    let Some(ty) = read_global_type(val, set) else {
        return Ok(None);
    };
    match read_data(alloc, digits)? {
        Some(init) => Ok(Some(Edit::Global { ty, init })),
        None => Ok(None),
    }
}

// `export KIND NAME U32`
fn read_export(alloc: Global, words: &[&[u8]]) -> Result<Option<Edit>, AllocError>
    ensures { IfOk result (λ edit. edit ≡ export_edit (map (λ w. w.now) words.now)) }
{
    let &[kind, name, index] = words else {
        return Ok(None);
    };
    let Some(kind) = read_kind(kind) else {
        return Ok(None);
    };
    let Some(index) = read_number(index) else {
        return Ok(None);
    };
    match read_name(alloc, name)? {
        Some(name) => Ok(Some(Edit::Export(Export { name, kind, index }))),
        None => Ok(None),
    }
}

// `unexport NAME`
fn read_unexport(alloc: Global, words: &[&[u8]]) -> Result<Option<Edit>, AllocError>
    ensures { IfOk result (λ edit. edit ≡ unexport_edit (map (λ w. w.now) words.now)) }
{
    let &[name] = words else {
        return Ok(None);
    };
    match read_name(alloc, name)? {
        Some(name) => Ok(Some(Edit::Unexport(name))),
        None => Ok(None),
    }
}

// `custom strip NAME`
fn read_strip_custom(alloc: Global, kind: &[u8], name: &[u8]) -> Result<Option<Edit>, AllocError>
    ensures { IfOk result (λ edit. edit ≡ custom_edit (kind.now ∷ name.now ∷ [])) }
{
    if kind != b"strip".as_slice() {
        return Ok(None);
    }
    match read_name(alloc, name)? {
        Some(name) => Ok(Some(Edit::StripCustom(name))),
        None => Ok(None),
    }
}

// `custom set NAME BYTES`
fn read_set_custom(
    alloc: Global,
    kind: &[u8],
    name: &[u8],
    digits: &[u8],
) -> Result<Option<Edit>, AllocError>
    ensures { IfOk result (λ edit. edit ≡ custom_edit (kind.now ∷ name.now ∷ digits.now ∷ [])) }
{
    if kind != b"set".as_slice() {
        return Ok(None);
    }
    let Some(name) = read_name(alloc, name)? else {
        return Ok(None);
    };
    let Some(bytes) = read_data(alloc, digits)? else {
        return Ok(None);
    };
    Ok(Some(Edit::SetCustom { name, bytes }))
}

// `custom set NAME BYTES` and `custom strip NAME`
fn read_custom(alloc: Global, words: &[&[u8]]) -> Result<Option<Edit>, AllocError>
    ensures { IfOk result (λ edit. edit ≡ custom_edit (map (λ w. w.now) words.now)) }
{
    match words {
        &[kind, name] => read_strip_custom(alloc, kind, name),
        &[kind, name, digits] => read_set_custom(alloc, kind, name, digits),
        _ => Ok(None),
    }
}

// `strip`
fn read_strip(words: &[&[u8]]) -> Option<Edit>
    ensures { result ≡ strip_edit (map (λ w. w.now) words.now) }
{
    if words.is_empty() {
        Some(Edit::StripAll)
    } else {
        None
    }
}

/// The edit of a line, by its first word and the others. `None` where these are wrong.
pub(crate) fn read_edit(
    alloc: Global,
    verb: Verb,
    words: &[&[u8]],
) -> Result<Option<Edit>, AllocError>
    ensures { IfOk result (λ edit. edit ≡ edit_by verb (map (λ w. w.now) words.now)) }
{
    match verb {
        Verb::TypeLine => read_ty(alloc, words),
        Verb::ImportLine => read_import(alloc, words),
        Verb::FuncLine => read_func(alloc, words),
        Verb::BodyLine => read_body(alloc, words),
        Verb::GlobalLine => read_global(alloc, words),
        Verb::ExportLine => read_export(alloc, words),
        Verb::UnexportLine => read_unexport(alloc, words),
        Verb::CustomLine => read_custom(alloc, words),
        Verb::StripLine => Ok(read_strip(words)),
    }
}
