//! The written form of a module.

ghost use Rattle.std.specs.Prelude.{◌≡◌, ◌≤◌, ◌∷◌, ◌++◌, Some, length, OnOk, OnErr, IfOk, IfErr, MatchResult};
ghost use Rattle.wk_bytes.specs.Frames.{limit};
ghost use Rattle.wk_bytes.specs.Short.{short};
ghost use Rattle.wk_body.specs.declared.fault.EncodeFault.TheVariants.{TooLarge, Memory};
ghost use Rattle.wk_body.specs.Lengths.{limited};
ghost use Rattle.wk_body.specs.Written.{Fits as FewBytes, StaysInFront, Unwritten};
ghost use Rattle.wk_module.specs.declared.types.Parts.{Parts as Seen};
ghost use Rattle.wk_module.specs.Codes.{body_sizes};
ghost use Rattle.wk_module.specs.Customs.{written_custom};
ghost use Rattle.wk_module.specs.Listed.{listed, IsListId};
ghost use Rattle.wk_module.specs.Modules.{Spells};
ghost use Rattle.wk_module.specs.Sections.{of_number};
ghost use Rattle.wk_module.specs.Shape.{lists_of, IsInOrderFrom, IsShaped};
ghost use Rattle.wk_module.specs.Writing.{encoded, framed, contents_by, section_by, section_of, customs_at, Fits};

use crate::codes::put_codes;
use crate::format::FuncIndices;
use crate::length::{contents_len_by, custom_len};
use crate::lists::Lists;
use crate::measures::measure_parts;
use crate::module::Module;
use crate::module_read::{laws_of_sections, one_module};
use crate::section_id;
use crate::types::{Custom, Parts};
use crate::vector_write::{put_bytes, put_list};
use std::alloc::Global;
use wk_body::EncodeFault;
use wk_bytes::{Items, OutOfMemory, put_u32};

/// The magic and the version (5.5.15).
pub const HEADER: [u8; 8] = [0, 97, 115, 109, 1, 0, 0, 0];

/// The written form of a module (5.5.15).
///
/// Each integer has its shortest spelling, and empty sections are left out. Each custom section stands behind the section
/// with the id of its place, those of one place in their order.
///
/// # Errors
///
/// `TooLarge` where the bytes are more than 2,147,483,647, and else `Memory` where a growth is refused.
pub fn encode(alloc: Global, module: &Module) -> Result<Vec<u8>, EncodeFault>
    ensures ok { IfOk result (λ bytes. bytes.items ≡ encoded «module».now) }
    ensures fits { OnOk result (Fits «module».now) }
    ensures too_large { IfErr result (λ e. e ≡ TooLarge → Fits «module».now → ⊥) }
    ensures memory { IfErr result (λ e. e ≡ Memory → Fits «module».now) }
    // Where the module fits, its written form spells it, and no other of its profile.
    ensures spells { Fits «module».now → Spells (encoded «module».now) «module».now }
    ensures alone { (n : Seen) → Fits «module».now → n.profile ≡ («module».now).profile
        → Spells (encoded «module».now) n → n ≡ «module».now }
{
    // The proof asks for what these two say of modules.
    written_form_of_module();
    one_module();
    encode_parts(alloc, module.parts())
}

/// The law of the written form: where a module fits, it spells the module. It does nothing.
pub fn written_form_of_module()
    ensures spells { (m : Seen) → IsShaped m → Fits m → Spells (encoded m) m }
{
    laws_of_sections();
}

/// The contents of the section of an id, 1 to 9 or 11, as they stand in the written form: no bytes where the section is left
/// out.
///
/// # Errors
///
/// `TooLarge` where the bytes are more than 2,147,483,647, and else `Memory` where a growth is refused.
pub fn encode_section(alloc: Global, lists: &Lists<'_>, id: u8) -> Result<Vec<u8>, EncodeFault>
    requires { IsListId id }
    ensures { MatchResult result
        (λ bytes. (bytes.items ≡ contents_by (listed lists.now) (of_number id))
        × FewBytes bytes.items)
        (Unwritten (contents_by (listed lists.now) (of_number id))) }
{
    let Some(len) = lists.contents_len(id) else {
        return Err(EncodeFault::TooLarge);
    };
    let mut bytes = Vec::with_capacity(alloc, len as usize)?;
    lists.put_contents(id, &mut bytes)?;
    Ok(bytes)
}

// The section of an id, whose contents are so many bytes: its id, their number and they; or nothing where there are none.
fn put_section_by(
    lists: &Lists<'_>,
    id: u8,
    contents: u32,
    bytes: &mut Vec<u8>,
) -> Result<(), OutOfMemory>
    requires { Some contents ≡ limited (length (contents_by (listed lists.now) (of_number id))) }
    ensures ok { OnOk result
        (bytes.new.items ≡ bytes.old.items ++ section_by (listed lists.now) (of_number id)) }
    ensures err { OnErr result (StaysInFront bytes.old.items bytes.new.items) }
{
    if contents == 0 {
        return Ok(());
    }
    put_front(id, contents, bytes)?;
    lists.put_contents(id, bytes)
}

/// Appends the section of an id, 1 to 9 or 11, as it is in the written form: its id, its size and its contents, or nothing where it
/// is left out. Of any other id nothing is appended, since lists that are lent have no codes.
///
/// # Errors
///
/// `TooLarge` where the contents are more than 2,147,483,647 bytes, and else `Memory` where a growth is refused. Then `bytes` holds
/// what it held before.
pub fn append_section(lists: &Lists<'_>, id: u8, bytes: &mut Vec<u8>) -> Result<(), EncodeFault>
    ensures ok { OnOk result
        (bytes.new.items ≡ bytes.old.items ++ section_by (listed lists.now) (of_number id)) }
    ensures err { OnErr result (bytes.new.items ≡ bytes.old.items) }
    ensures fault { IfErr result (Unwritten (contents_by (listed lists.now) (of_number id))) }
{
    let Some(contents) = lists.contents_len(id) else {
        return Err(EncodeFault::TooLarge);
    };
    let start = bytes.len();
    if put_section_by(lists, id, contents, bytes).is_err() {
        bytes.truncate(start);
        return Err(EncodeFault::Memory);
    }
    Ok(())
}

/// The contents of a custom section: its name and its bytes.
///
/// # Errors
///
/// `TooLarge` where the bytes are more than 2,147,483,647, and else `Memory` where a growth is refused.
pub fn encode_custom(alloc: Global, custom: &Custom) -> Result<Vec<u8>, EncodeFault>
    ensures { MatchResult result
        (λ bytes. (bytes.items ≡ written_custom custom.now) × FewBytes bytes.items)
        (Unwritten (written_custom custom.now)) }
{
    let Some(len) = custom_len(custom) else {
        return Err(EncodeFault::TooLarge);
    };
    let mut bytes = Vec::with_capacity(alloc, len as usize)?;
    put_custom(custom, &mut bytes)?;
    Ok(bytes)
}

// The same of the parts of a module. Each body is measured once, unless its size has no room.
fn encode_parts(alloc: Global, parts: &Parts) -> Result<Vec<u8>, EncodeFault>
    requires { IsInOrderFrom 0 parts.now.customs }
    ensures { MatchResult result
        (λ bytes. (bytes.items ≡ encoded parts.now) × FewBytes bytes.items)
        (Unwritten (encoded parts.now)) }
{
    let measures = measure_parts(alloc, parts)?;
    let mut bytes = Vec::with_capacity(alloc, measures.whole as usize)?;
    put_module(parts, &measures.bodies, &mut bytes)?;
    Ok(bytes)
}

// Appends the header, and each section with the custom sections behind it.
#[tactic(auto, unfolding(crate::specs::Writing::encoded))]
fn put_module(parts: &Parts, code_sizes: &[u32], bytes: &mut Vec<u8>) -> Result<(), OutOfMemory>
    requires fits { Fits parts.now }
    requires sizes { code_sizes.now ≡ body_sizes parts.now.funcs }
    ensures { OnOk result (bytes.new.items ≡ bytes.old.items ++ encoded parts.now) }
{
    bytes.extend_from_slice(&HEADER)?;
    for id in 0..=section_id::LAST {
        put_section(parts, code_sizes, id, bytes)?;
        put_customs_at(&parts.customs, id, bytes)?;
    }
    Ok(())
}

// Appends the contents of the section of an id.
fn put_contents(
    parts: &Parts,
    code_sizes: &[u32],
    id: u8,
    bytes: &mut Vec<u8>,
) -> Result<(), OutOfMemory>
    requires sizes { code_sizes.now ≡ body_sizes parts.now.funcs }
    requires fits { length (contents_by (lists_of parts.now) (of_number id)) ≤ limit }
    ensures { OnOk result
        (bytes.new.items ≡ bytes.old.items ++ contents_by (lists_of parts.now) (of_number id)) }
{
    match id {
        section_id::FUNCTION => put_list::<FuncIndices>(parts.funcs.as_slice(), bytes),
        section_id::CODE => put_codes(parts.funcs.as_slice(), code_sizes, bytes),
        _ => Lists::of(parts, &[]).put_contents(id, bytes),
    }
}

// Appends what stands in front of the contents of a section: its id, and how many bytes they are.
fn put_front(id: u8, size: u32, bytes: &mut Vec<u8>) -> Result<(), OutOfMemory>
    ensures ok { OnOk result (bytes.new.items ≡ bytes.old.items ++ id ∷ short size) }
    ensures err { OnErr result (StaysInFront bytes.old.items bytes.new.items) }
{
    bytes.push(id)?;
    put_u32(bytes, size)
}

// Appends the section of an id that is not a custom one, unless it has no contents.
fn put_section(
    parts: &Parts,
    code_sizes: &[u32],
    id: u8,
    bytes: &mut Vec<u8>,
) -> Result<(), OutOfMemory>
    requires sizes { code_sizes.now ≡ body_sizes parts.now.funcs }
    requires fits { length (section_of parts.now id) ≤ limit }
    ensures { OnOk result (bytes.new.items ≡ bytes.old.items ++ section_of parts.now id) }
{
    let Some(size) = contents_len_by(parts, code_sizes, id) else {
        unreachable!()
    };
    if size == 0 {
        return Ok(());
    }
    put_front(id, size, bytes)?;
    put_contents(parts, code_sizes, id, bytes)
}

// Appends the contents of a custom section.
fn put_custom(custom: &Custom, bytes: &mut Vec<u8>) -> Result<(), OutOfMemory>
    requires { length (written_custom custom.now) ≤ limit }
    ensures { OnOk result (bytes.new.items ≡ bytes.old.items ++ written_custom custom.now) }
{
    put_bytes(custom.name.as_str().as_bytes(), bytes)?;
    bytes.extend_from_slice(custom.bytes.as_slice())?;
    Ok(())
}

// Appends a custom section.
fn put_custom_section(custom: &Custom, bytes: &mut Vec<u8>) -> Result<(), OutOfMemory>
    requires { length (framed 0 (written_custom custom.now)) ≤ limit }
    ensures { OnOk result
        (bytes.new.items ≡ bytes.old.items ++ framed 0 (written_custom custom.now)) }
{
    let Some(size) = custom_len(custom) else {
        unreachable!()
    };
    put_front(section_id::CUSTOM, size, bytes)?;
    put_custom(custom, bytes)
}

// Appends the custom sections of a place.
fn put_customs_at(
    customs: &Items<Custom>,
    place: u8,
    bytes: &mut Vec<u8>,
) -> Result<(), OutOfMemory>
    requires { length (customs_at place customs.now) ≤ limit }
    ensures { OnOk result (bytes.new.items ≡ bytes.old.items ++ customs_at place customs.now) }
{
    for custom in customs.as_slice() {
        if custom.place == place {
            put_custom_section(custom, bytes)?;
        }
    }
    Ok(())
}
