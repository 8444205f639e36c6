//! How long written forms get.

ghost use Rattle.std.specs.Prelude.{◌≡◌, ◌+◌, ℕ, List, length};
ghost use Rattle.wk_body.specs.Lengths.{limited, GrowsBy};
ghost use Rattle.std.specs.List.{flat_map};
ghost use Rattle.wk_module.specs.Codes.{body_sizes, code_contents};
ghost use Rattle.wk_module.specs.Customs.{written_custom};
ghost use Rattle.wk_module.specs.Formats.{written_bytes};
ghost use Rattle.wk_module.specs.Items.{written_export};
ghost use Rattle.wk_module.specs.Types.{written_functype};
ghost use Rattle.wk_module.specs.declared.types.Parts.{Parts as PartsOf};
ghost use Rattle.wk_module.specs.Listed.{listed};
ghost use Rattle.wk_module.specs.Sections.{SectionLists, of_number};
ghost use Rattle.wk_module.specs.Shape.{lists_of, IsInOrderFrom};
ghost use Rattle.wk_module.specs.Sizes.{framed_size, section_size, whole_size, AreListsOf};
ghost use Rattle.wk_module.specs.Writing.{encoded, framed, section_by, section_of, ids, contents_by, SectionLen};

use crate::codes::{codes_len, codes_len_by};
use crate::format::{Exports, FuncIndices, FuncTypes};
use crate::lists::Lists;
use crate::module::Module;
use crate::section_id;
use crate::types::{Custom, Export, FuncType, Parts};
use crate::vector_write::{Writable, list_len, plus, plus_bytes, plus_u32};
use wk_bytes::{Items, LIMIT, Text};

/// How many bytes the magic and the version are (5.5.15).
pub const HEADER_LEN: u32 = 8;

/// How many bytes the written form of a module has (`encode`), or nothing past 2,147,483,647. It takes no memory.
pub fn encoded_len(module: &Module) -> Option<u32>
    ensures { result ≡ limited (length (encoded «module».now)) }
{
    len_of_parts(module.parts())
}

/// The same of the parts of a module.
pub(crate) fn len_of_parts(parts: &Parts) -> Option<u32>
    requires { IsInOrderFrom 0 parts.now.customs }
    ensures { result ≡ limited (length (encoded parts.now)) }
{
    len_by_code(parts, codes_len(parts.funcs.as_slice()))
}

/// The same, where the contents of the code section have that length.
pub(crate) fn len_by_code(parts: &Parts, code: Option<u32>) -> Option<u32>
    requires order { IsInOrderFrom 0 parts.now.customs }
    requires code { code ≡ limited (length (code_contents parts.now.funcs)) }
    ensures { result ≡ limited (length (encoded parts.now)) }
{
    let total = plus_sections(Some(HEADER_LEN), parts, code);
    plus_customs(total, &parts.customs)
}

/// How many bytes the contents of the section of an id have in the written form: 0 where the section is left out. Nothing where
/// they are more than 2,147,483,647, or where the id is not 1 to 11. It takes no memory.
pub fn section_len(module: &Module, id: u8) -> Option<u32>
    ensures { SectionLen (lists_of «module».now) (of_number id) result }
{
    if id == section_id::CUSTOM || id > section_id::LAST {
        return None;
    }
    contents_len(module.parts(), id)
}

/// How many bytes the contents of a custom section have, its name and its bytes, or nothing past 2,147,483,647. It takes no
/// memory.
pub fn custom_len(custom: &Custom) -> Option<u32>
    ensures { result ≡ limited (length (written_custom custom.now)) }
{
    named_len(&custom.name, custom.bytes.len())
}

/// How many bytes the contents of a custom section have that has a name and so many bytes behind it, or nothing past 2,147,483,647. It
/// takes no memory.
pub fn named_len(name: &Text, len: usize) -> Option<u32>
    ensures { result ≡ limited (length (written_bytes name.now) + len) }
{
    let total = plus_bytes(name.as_str().as_bytes(), Some(0));
    plus(total, len)
}

/// How many bytes a type has in the written form of a type section, or nothing past 2,147,483,647. It takes no memory.
pub fn type_len(ty: &FuncType) -> Option<u32>
    ensures { result ≡ limited (length (written_functype ty.now)) }
{
    FuncTypes::measure(ty, Some(0))
}

/// How many bytes an export has in the written form of an export section, or nothing past 2,147,483,647. It takes no memory.
pub fn export_len(export: &Export) -> Option<u32>
    ensures { result ≡ limited (length (written_export export.now)) }
{
    Exports::measure(export, Some(0))
}

/// The length of the contents of the section of an id: 0 where it is left out or is one of other ids, nothing past the limit.
pub(crate) fn contents_len(parts: &Parts, id: u8) -> Option<u32>
    ensures { result ≡ limited (length (contents_by (lists_of parts.now) (of_number id))) }
{
    match id {
        section_id::FUNCTION => list_len::<FuncIndices>(parts.funcs.as_slice()),
        section_id::CODE => codes_len(parts.funcs.as_slice()),
        _ => Lists::of(parts, &[]).contents_len(id),
    }
}

/// The same by the sizes of the bodies, which are not measured again.
pub(crate) fn contents_len_by(parts: &Parts, code_sizes: &[u32], id: u8) -> Option<u32>
    requires { code_sizes.now ≡ body_sizes parts.now.funcs }
    ensures { result ≡ limited (length (contents_by (lists_of parts.now) (of_number id))) }
{
    match id {
        section_id::CODE => codes_len_by(code_sizes),
        _ => contents_len(parts, id),
    }
}

/// How many bytes the written form has of a module with these lists, whose bodies have these sizes, each without the size that stands in
/// front of it, and with these custom sections; or nothing past 2,147,483,647. It takes no memory.
pub fn len_of_lists(lists: &Lists<'_>, code_sizes: &[u32], customs: &Items<Custom>) -> Option<u32>
    ensures { (m : PartsOf) → AreListsOf (listed lists.now) code_sizes.now m
        → customs.now ≡ m.customs → IsInOrderFrom 0 m.customs
        → result ≡ limited (length (encoded m)) }
{
    let mut total = Some(HEADER_LEN);
    for id in 0..=section_id::LAST {
        total = plus_lent(total, lists, code_sizes, id);
    }
    plus_customs(total, customs)
}

/// How many bytes a section has whose contents are that many, with its id and its size; or nothing past 2,147,483,647. It takes no
/// memory.
pub fn framed_len(contents: u32) -> Option<u32>
    ensures { result ≡ limited (framed_size contents) }
{
    plus_size(Some(0), contents as usize)
}

/// How many bytes a module has whose sections have that many contents, by their ids from 0 on, and whose custom sections have that
/// many together, ids and sizes with them; or nothing past 2,147,483,647. A section without contents is left out. It takes no
/// memory.
pub fn whole_len(contents: &[usize], customs: usize) -> Option<u32>
    ensures { result ≡ limited (whole_size contents.now customs) }
{
    let mut total = Some(HEADER_LEN);
    for size in contents {
        total = plus_sized(total, *size);
    }
    plus(total, customs)
}

/// A length with a section of that many contents added, which is left out where it has none.
fn plus_sized(total: Option<u32>, contents: usize) -> Option<u32>
    ensures { GrowsBy (section_size contents) total result }
{
    if contents == 0 {
        return total;
    }
    plus_size(total, contents)
}

/// A length with a section of that many contents added, or nothing past the limit.
fn plus_size(total: Option<u32>, contents: usize) -> Option<u32>
    ensures { GrowsBy (framed_size contents) total result }
{
    if contents > LIMIT {
        return None;
    }
    let total = plus_u32(plus(total, 1), contents as u32);
    plus(total, contents)
}

/// A length with a section whose contents are so long added, or nothing past the limit.
fn plus_framed(total: Option<u32>, size: Option<u32>) -> Option<u32>
    ensures { (id : ℕ) (contents : List ℕ) → size ≡ limited (length contents)
        → GrowsBy (length (framed id contents)) total result }
{
    let size = size?;
    plus_size(total, size as usize)
}

/// A length with the section of an id added whose contents are so long, which is left out where it has none.
fn plus_contents(total: Option<u32>, size: Option<u32>, id: u8) -> Option<u32>
    ensures { (l : SectionLists) → size ≡ limited (length (contents_by l (of_number id)))
        → GrowsBy (length (section_by l (of_number id))) total result }
{
    if size == Some(0) {
        return total;
    }
    plus_framed(total, size)
}

/// A length with the section of an id added, where the contents of the code section have a length that is known.
fn plus_section(total: Option<u32>, parts: &Parts, code: Option<u32>, id: u8) -> Option<u32>
    requires { code ≡ limited (length (code_contents parts.now.funcs)) }
    ensures { GrowsBy (length (section_of parts.now id)) total result }
{
    let size = if id == section_id::CODE {
        code
    } else {
        contents_len(parts, id)
    };
    plus_contents(total, size, id)
}

/// A length with the section of an id added, by lists that are lent and the sizes of bodies.
fn plus_lent(total: Option<u32>, lists: &Lists<'_>, code_sizes: &[u32], id: u8) -> Option<u32>
    ensures { (m : PartsOf) → AreListsOf (listed lists.now) code_sizes.now m
        → GrowsBy (length (section_of m id)) total result }
{
    let size = if id == section_id::CODE {
        codes_len_by(code_sizes)
    } else {
        lists.contents_len(id)
    };
    plus_contents(total, size, id)
}

/// A length with the sections that are no custom ones added, where the contents of the code section have a length that is known.
fn plus_sections(total: Option<u32>, parts: &Parts, code: Option<u32>) -> Option<u32>
    requires { code ≡ limited (length (code_contents parts.now.funcs)) }
    ensures { GrowsBy (length (flat_map (section_of parts.now) ids)) total result }
{
    let mut all = total;
    for id in 0..=section_id::LAST {
        all = plus_section(all, parts, code, id);
    }
    all
}

/// A length with the custom sections added.
fn plus_customs(total: Option<u32>, customs: &Items<Custom>) -> Option<u32>
    ensures { GrowsBy (length (flat_map (λ c. framed 0 (written_custom c)) customs.now)) total
        result }
{
    let mut all = total;
    for custom in customs.as_slice() {
        all = plus_framed(all, custom_len(custom));
    }
    all
}
