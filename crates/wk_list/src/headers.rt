//! The headers listing.

ghost use Rattle.std.specs.Prelude.{◌≡◌, ◌+◌, ◌-◌, ◌<◌, ◌≤◌, ◌^◌, ◌++◌, length, OnOk, IfOk};
ghost use Rattle.wk_bytes.specs.Frames.{limit};
ghost use Rattle.wk_module.specs.Customs.{written_custom};
ghost use Rattle.wk_module.specs.Sections.{of_number};
ghost use Rattle.wk_module.specs.Shape.{lists_of};
ghost use Rattle.wk_module.specs.Writing.{contents_by, section_of, customs_at};
ghost use Rattle.wk_module.specs.declared.types.Parts.{Parts as Seen};
ghost use Rattle.wk_list.specs.Sketches.{IsSketch};
ghost use Rattle.wk_list.specs.Taken.{PutsOut};
ghost use Rattle.wk_list.specs.Headers.{count_text, start_text, tail_by, header_by, custom_header, custom_frame, customs_of, placed, headers_text, contents_start};

use crate::fault::{ListFault, Listed};
use crate::header::put_header;
use crate::page::spill;
use crate::sketch::Sketch;
use crate::text::{put_name, put_number};
use wk_bytes::{Out, OutOfMemory, leb_len_u32};
use wk_module::{Custom, HEADER_LEN, Parts, section_id};

/// Where the contents of a section start that begins at an offset and has contents of that length.
pub(crate) fn contents_start(at: u32, size: u32) -> u32
    requires { at + 6 < 2 ^ 32 }
    ensures { result ≡ contents_start at size }
{
    at + 1 + leb_len_u32(size) as u32
}

// How many items there are.
fn put_count(text: &mut Vec<u8>, count: usize) -> Result<(), OutOfMemory>
    ensures { OnOk result (text.new.items ≡ text.old.items ++ count_text count) }
{
    text.extend_from_slice(b" count=")?;
    put_number(text, count as u64)
}

// The index of the function that is called first.
fn put_start(text: &mut Vec<u8>, start: Option<u32>) -> Result<(), OutOfMemory>
    ensures { OnOk result (text.new.items ≡ text.old.items ++ start_text start) }
{
    let Some(index) = start else {
        return Ok(());
    };
    text.extend_from_slice(b" index=")?;
    put_number(text, u64::from(index))
}

// What stands behind the size of the section of an id.
fn put_tail(text: &mut Vec<u8>, parts: &Parts, id: u8) -> Result<(), OutOfMemory>
    ensures { OnOk result (text.new.items ≡ text.old.items ++ tail_by parts.now (of_number id)) }
{
    match id {
        section_id::TYPE => put_count(text, parts.types.len()),
        section_id::IMPORT => put_count(text, parts.imports.len()),
        section_id::FUNCTION | section_id::CODE => put_count(text, parts.funcs.len()),
        section_id::TABLE => put_count(text, parts.tables.len()),
        section_id::MEMORY => put_count(text, parts.memories.len()),
        section_id::GLOBAL => put_count(text, parts.globals.len()),
        section_id::EXPORT => put_count(text, parts.exports.len()),
        section_id::START => put_start(text, parts.start),
        section_id::ELEMENT => put_count(text, parts.elems.len()),
        section_id::DATA => put_count(text, parts.datas.len()),
        _ => Ok(()),
    }
}

// The line of the section of an id, which begins at an offset and has contents of that length: none where it is left out.
fn put_section(
    text: &mut Vec<u8>,
    parts: &Parts,
    id: u8,
    at: u32,
    size: u32,
) -> Result<(), OutOfMemory>
    requires { (m : Seen) × (size ≡ length (contents_by (lists_of m) (of_number id)))
        × (at + length (section_of m id) ≤ limit) }
    ensures { (m : Seen) → IsSketch m parts.now
        → size ≡ length (contents_by (lists_of m) (of_number id))
        → OnOk result (text.new.items ≡ text.old.items ++ header_by m at (of_number id)) }
{
    if size == 0 {
        return Ok(());
    }
    put_header(text, id, contents_start(at, size), size)?;
    put_tail(text, parts, id)?;
    text.extend_from_slice(b"\n")?;
    Ok(())
}

/// Where the section of an id ends, which begins at an offset and has contents of that length.
pub(crate) fn section_end(id: u8, at: u32, size: u32) -> u32
    requires { (m : Seen) × (size ≡ length (contents_by (lists_of m) (of_number id)))
        × (at + length (section_of m id) ≤ limit) }
    ensures { (m : Seen) → size ≡ length (contents_by (lists_of m) (of_number id))
        → result ≡ at + length (section_of m id) }
{
    if size == 0 {
        return at;
    }
    contents_start(at, size) + size
}

// The line of a custom section that begins at an offset and has contents of that length.
fn put_custom(text: &mut Vec<u8>, custom: &Custom, at: u32, size: u32) -> Result<(), OutOfMemory>
    requires fits { at + length (custom_frame custom.now) ≤ limit }
    requires size { size ≡ length (written_custom custom.now) }
    ensures { OnOk result (text.new.items ≡ text.old.items ++ custom_header at custom.now) }
{
    put_header(text, section_id::CUSTOM, contents_start(at, size), size)?;
    text.extend_from_slice(b" name=")?;
    put_name(text, custom.name.as_str())?;
    text.extend_from_slice(b"\n")?;
    Ok(())
}

// The lines of the custom sections of a place, the first of which begins at an offset. Answers where they end.
fn list_customs<S: Sketch, W: Out>(
    sketch: &S,
    place: u8,
    at: u32,
    text: &mut Vec<u8>,
    out: &mut W,
) -> Result<u32, ListFault>
    requires room { W.failed out.old < 2 ^ 64 - 1 }
    requires fits { at + length (customs_at place (S.seen sketch.now).customs) ≤ limit }
    ensures end { IfOk result
        (λ end. end ≡ at + length (customs_at place (S.seen sketch.now).customs)) }
    ensures puts { PutsOut W.taken W.failed out.old out.new
        (text.old.items
        ++ placed custom_frame custom_header at (customs_of place (S.seen sketch.now).customs))
        text.new.items result }
{
    let mut next = at;
    for (index, custom) in sketch.parts().customs.as_slice().iter().enumerate() {
        if custom.place == place {
            let size = sketch.custom_len(index);
            put_custom(text, custom, next, size)?;
            spill(text, out)?;
            next = contents_start(next, size) + size;
        }
    }
    Ok(next)
}

/// The lines of all sections.
pub(crate) fn list_headers<S: Sketch, W: Out>(sketch: &S, text: &mut Vec<u8>, out: &mut W) -> Listed
    requires room { W.failed out.old < 2 ^ 64 - 1 }
    ensures { PutsOut W.taken W.failed out.old out.new
        (text.old.items ++ headers_text (S.seen sketch.now)) text.new.items result }
{
    let parts = sketch.parts();
    let mut at = HEADER_LEN;
    for id in 0..=section_id::LAST {
        let size = sketch.section_len(id);
        put_section(text, parts, id, at, size)?;
        at = section_end(id, at, size);
        at = list_customs(sketch, id, at, text, out)?;
    }
    Ok(())
}
