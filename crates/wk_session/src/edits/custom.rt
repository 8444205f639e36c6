//! Custom sections: other bytes for one, one more, or some less.

ghost use Rattle.std.specs.Prelude.{◌≡◌, ◌-◌, ◌+◌, ◌<◌, ◌≤◌, ℕ, Some, [], ◌∷◌, ◌++◌, not, filter, map, length, position, IfSome, OnOk, OnErr};
ghost use Rattle.std.specs.List.{list_any};
ghost use Rattle.wk_bytes.specs.Frames.{limit};
ghost use Rattle.wk_body.specs.Lengths.{limited};
ghost use Rattle.wk_module.specs.declared.types.Custom.{Custom as CustomOf};
ghost use Rattle.wk_module.specs.declared.types.Parts.{Parts as PartsOf};
ghost use Rattle.wk_module.specs.Shape.{IsInOrderFrom, IsShaped};
ghost use Rattle.wk_module.specs.Writing.{encoded, Fits};
ghost use Rattle.wk_module.specs.WritingLaws.{written_frame};
ghost use Rattle.wk_pieces.specs.Pieces.{customs_size};
ghost use Rattle.wk_session.specs.declared.edit.Edit.{Edit};
ghost use Rattle.wk_session.specs.Customs.{IsPut, bytes_at, last_custom, with_customs_len};
ghost use Rattle.wk_session.specs.Edits.{is_named, with_custom, without_customs};
ghost use Rattle.wk_session.specs.Kept.{IsKept, Leads};

use crate::cache::Cache;
use crate::edit::{EditFault, Reply, work_on};
use crate::verdict_and_len::{admit, check_verdict};
use std::alloc::{AllocError, Global};
use std::mem;
use wk_bytes::{Items, LIMIT, Text};
use wk_module::{Custom, Parts, framed_len, named_len, section_id};
use wk_pieces::customs_len;

// Keeps the length of a module that has other customs than before, and how much of it these are.
fn keep_len(kept: &mut Cache, len: u32)
    requires before { kept.old.pieces.customs_len ≤ kept.old.len }
    requires after { kept.old.len - kept.old.pieces.customs_len ≤ len }
    ensures { kept.new ≡ with_customs_len len kept.old }
{
    let others = kept.len - kept.pieces.customs_len;
    kept.pieces.customs_len = len - others;
    kept.len = len;
}

// Keeps the length of a module that fits and has these customs, where this is kept of it but for them.
fn keep_customs(kept: &mut Cache, customs: &Items<Custom>)
    requires before { kept.old.pieces.customs_len ≤ kept.old.len }
    requires fits { kept.old.len - kept.old.pieces.customs_len + customs_size customs.now ≤ limit }
    ensures { kept.new
        ≡ with_customs_len (kept.old.len - kept.old.pieces.customs_len + customs_size customs.now)
        kept.old }
{
    let Some(customs) = customs_len(customs) else {
        unreachable!()
    };
    let len = kept.len - kept.pieces.customs_len + customs;
    keep_len(kept, len);
}

// Whether a custom section has the name.
fn has_custom(parts: &Parts, name: &Text) -> bool
    ensures { result ≡ list_any (is_named name.now) parts.now.customs }
{
    parts
        .customs
        .as_slice()
        .iter()
        .any(|custom| custom.name.as_str() == name.as_str())
}

// The customs without those of a name.
fn without_name(customs: Items<Custom>, name: &Text) -> Items<Custom>
    ensures { result ≡ filter (λ c. not (is_named name.now c)) customs }
{
    let mut customs = customs.into_vec();
    customs.retain(|custom| custom.name.as_str() != name.as_str());
    Items::from_vec(customs)
}

// Removes the custom sections of a name.
fn remove_customs(alloc: Global, parts: &mut Parts, name: &Text)
    ensures { parts.new ≡ without_customs name.now parts.old }
{
    let customs = mem::replace(&mut parts.customs, Items::new(alloc));
    parts.customs = without_name(customs, name);
}

// Where the first custom section of the name stands among them.
fn find_custom(parts: &Parts, name: &Text) -> Option<usize>
    ensures place { result ≡ position (is_named name.now) parts.now.customs }
    ensures within { IfSome result (λ i. i < length parts.now.customs) }
{
    parts
        .customs
        .as_slice()
        .iter()
        .position(|custom| custom.name.as_str() == name.as_str())
}

// The length of a custom section with a name and so many bytes, its id and its size with it, or nothing past 2,147,483,647.
fn frame_len(name: &Text, len: usize) -> Option<u32>
    ensures { (c : CustomOf) → c.name ≡ name.now → length c.bytes ≡ len
        → result ≡ limited (length (written_frame c)) }
{
    framed_len(named_len(name, len)?)
}

// A length with one part in the place of another, or nothing past 2,147,483,647.
fn exchange(len: u32, old: u32, new: Option<u32>) -> Option<u32>
    requires old { old ≤ len }
    requires len { len ≤ limit }
    ensures { (n : ℕ) → new ≡ limited n → result ≡ limited (len - old + n) }
{
    let new = new?;
    let rest = len - old;
    if new as usize > LIMIT - rest as usize {
        return None;
    }
    Some(rest + new)
}

// The length of a module with these bytes in the custom section at an index, or nothing past 2,147,483,647.
fn len_with_bytes(parts: &Parts, kept: &Cache, index: usize, bytes: &Items<u8>) -> Option<u32>
    requires order { IsInOrderFrom 0 parts.now.customs }
    requires len { limited (length (encoded parts.now)) ≡ Some kept.now.len }
    requires within { index < length parts.now.customs }
    ensures { result
        ≡ limited (length (encoded (record parts.now
        { customs = bytes_at index bytes.now parts.now.customs }))) }
{
    let custom = &parts.customs.as_slice()[index];
    let Some(old) = frame_len(&custom.name, custom.bytes.len()) else {
        unreachable!()
    };
    exchange(kept.len, old, frame_len(&custom.name, bytes.len()))
}

// The length of a module with one custom section more behind all others, or nothing past 2,147,483,647.
fn len_with_custom(parts: &Parts, kept: &Cache, name: &Text, bytes: &Items<u8>) -> Option<u32>
    requires order { IsInOrderFrom 0 parts.now.customs }
    requires len { limited (length (encoded parts.now)) ≡ Some kept.now.len }
    ensures { result
        ≡ limited (length (encoded (record parts.now
        { customs = parts.now.customs ++ last_custom name.now bytes.now ∷ [] }))) }
{
    exchange(kept.len, 0, frame_len(name, bytes.len()))
}

// Gives the custom section at an index these bytes.
fn put_bytes(alloc: Global, parts: &mut Parts, index: usize, bytes: Items<u8>)
    requires { index < length parts.old.customs }
    ensures { parts.new ≡ record parts.old { customs = bytes_at index bytes parts.old.customs } }
{
    let mut customs = mem::replace(&mut parts.customs, Items::new(alloc)).into_vec();
    customs[index].bytes = bytes;
    parts.customs = Items::from_vec(customs);
}

// Appends a custom section behind all others, or changes nothing.
fn push_custom(
    alloc: Global,
    parts: &mut Parts,
    name: &Text,
    bytes: &Items<u8>,
) -> Result<(), AllocError>
    ensures ok { OnOk result
        (parts.new
        ≡ record parts.old
        { customs = parts.old.customs ++ last_custom name.now bytes.now ∷ [] }) }
    ensures err { OnErr result (parts.new ≡ parts.old) }
{
    // The greatest place, which settling lowers.
    let custom = Custom {
        place: section_id::LAST,
        name: name.copy(alloc)?,
        bytes: bytes.copy(alloc)?,
    };
    parts.customs.push(custom).map_err(|_| AllocError)
}

// Gives the custom section at an index a copy of these bytes, unless the module is then too large or may not stay.
fn replace_bytes(
    alloc: Global,
    keep: bool,
    parts: &mut Parts,
    kept: &mut Cache,
    index: usize,
    bytes: &Items<u8>,
) -> Result<(), EditFault>
    requires shaped { IsShaped parts.old }
    requires kept { IsKept parts.old kept.old }
    requires within { index < length parts.old.customs }
    ensures { IsPut keep parts.old
        (record parts.old { customs = bytes_at index bytes.now parts.old.customs })
        kept.old result parts.new kept.new }
{
    let len = len_with_bytes(parts, kept, index, bytes);
    let appraisal = admit(keep, kept.verdict, len)?;
    let bytes = bytes.copy(alloc)?;
    put_bytes(alloc, parts, index, bytes);
    keep_len(kept, appraisal.len);
    Ok(())
}

// Appends a custom section behind all others, unless the module is then too large or may not stay.
fn append_custom(
    alloc: Global,
    keep: bool,
    parts: &mut Parts,
    kept: &mut Cache,
    name: &Text,
    bytes: &Items<u8>,
) -> Result<(), EditFault>
    requires shaped { IsShaped parts.old }
    requires kept { IsKept parts.old kept.old }
    ensures { IsPut keep parts.old
        (record parts.old { customs = parts.old.customs ++ last_custom name.now bytes.now ∷ [] })
        kept.old result parts.new kept.new }
{
    // The text's contract says that it is UTF-8, which a module asks of its names.
    let _text = name.as_str();
    let len = len_with_custom(parts, kept, name, bytes);
    let appraisal = admit(keep, kept.verdict, len)?;
    push_custom(alloc, parts, name, bytes)?;
    keep_len(kept, appraisal.len);
    Ok(())
}

// Gives the first custom section of a name these bytes, or appends one, unless the module is then too large or may not stay.
fn put_custom(
    alloc: Global,
    keep: bool,
    parts: &mut Parts,
    kept: &mut Cache,
    name: &Text,
    bytes: &Items<u8>,
) -> Result<(), EditFault>
    requires shaped { IsShaped parts.old }
    requires kept { IsKept parts.old kept.old }
    ensures { IsPut keep parts.old (with_custom name.now bytes.now parts.old) kept.old result
        parts.new kept.new }
{
    match find_custom(parts, name) {
        Some(index) => replace_bytes(alloc, keep, parts, kept, index, bytes),
        None => append_custom(alloc, keep, parts, kept, name, bytes),
    }
}

/// Gives the first custom section of a name other bytes, or appends one.
pub(crate) fn set_custom(
    alloc: Global,
    keep: bool,
    parts: &mut Parts,
    kept: &mut Cache,
    name: &Text,
    bytes: &Items<u8>,
) -> Reply
    requires shaped { IsShaped parts.old }
    requires kept { IsKept parts.old kept.old }
    ensures { Leads keep (Edit.SetCustom name.now bytes.now) parts.old result parts.new kept.new }
{
    put_custom(alloc, keep, parts, kept, name, bytes)?;
    Ok(work_on(1))
}

/// Removes all custom sections of a name.
pub(crate) fn strip_custom(
    alloc: Global,
    keep: bool,
    parts: &mut Parts,
    kept: &mut Cache,
    name: &Text,
) -> Reply
    requires shaped { IsShaped parts.old }
    requires kept { IsKept parts.old kept.old }
    ensures { Leads keep (Edit.StripCustom name.now) parts.old result parts.new kept.new }
{
    if !has_custom(parts, name) {
        return Err(EditFault::NoSuchCustom);
    }
    check_verdict(keep, &kept.verdict)?;
    remove_customs(alloc, parts, name);
    keep_customs(kept, &parts.customs);
    Ok(work_on(0))
}

/// Removes all custom sections.
pub(crate) fn strip_all(alloc: Global, keep: bool, parts: &mut Parts, kept: &mut Cache) -> Reply
    requires shaped { IsShaped parts.old }
    requires kept { IsKept parts.old kept.old }
    ensures { Leads keep Edit.StripAll parts.old result parts.new kept.new }
{
    check_verdict(keep, &kept.verdict)?;
    parts.customs = Items::new(alloc);
    keep_customs(kept, &parts.customs);
    Ok(work_on(0))
}
