//! The details listing.

ghost use Rattle.std.specs.Prelude.{◌≡◌, ◌≢◌, ◌+◌, ◌<◌, ◌-◌, ◌^◌, ◌++◌, length, OnOk};
ghost use Rattle.std.specs.List.{flat_map};
ghost use Rattle.wk_body.specs.Written.{written_body};
ghost use Rattle.wk_module.specs.declared.types.Func.{Func as Function};
ghost use Rattle.wk_module.specs.Listed.{AreNumbered};
ghost use Rattle.wk_module.specs.Sections.{CodeSection, of_number};
ghost use Rattle.wk_module.specs.Shape.{lists_of};
ghost use Rattle.wk_list.specs.Taken.{PutsOut};
ghost use Rattle.wk_list.specs.Headers.{customs_of};
ghost use Rattle.wk_list.specs.Details.{group, row_line, code_size_line, start_line, custom_details, section_details, details_by, details_text};

use crate::fault::Listed;
use crate::imports::list_imports;
use crate::page::spill;
use crate::rows::{Row, put_field, put_heading, put_item};
use crate::sketch::Sketch;
use crate::spaces::{count_of, first_index};
use crate::text::{put_hex, put_name, put_number};
use wk_bytes::{Items, Out, OutOfMemory};
use wk_module::{Custom, Kind, Parts, section_id};

// A section of these items, the first of which has that index: its heading, and a line for each. Nothing where there are none.
fn list_group<R: Row, W: Out>(
    id: u8,
    name: &str,
    first: u32,
    items: &Items<R>,
    text: &mut Vec<u8>,
    out: &mut W,
) -> Listed
    requires room { W.failed out.old < 2 ^ 64 - 1 }
    requires few { length items.now < 2 ^ 32 }
    ensures { PutsOut W.taken W.failed out.old out.new
        (text.old.items ++ group id (λ n. row_line R.rest name.now (first + n)) items.now)
        text.new.items result }
{
    put_heading(text, id, items.len())?;
    for (index, item) in items.as_slice().iter().enumerate() {
        put_item(text, name, u64::from(first) + index as u64)?;
        item.put_row(text)?;
        spill(text, out)?;
    }
    Ok(())
}

// The line of the code of a function, whose code has that length.
fn put_size(text: &mut Vec<u8>, index: u64, size: u32) -> Result<(), OutOfMemory>
    ensures { (f : Function) → size ≡ length (written_body f.body)
        → OnOk result (text.new.items ≡ text.old.items ++ code_size_line index f) }
{
    put_item(text, "func", index)?;
    put_field(text, " size=", size)?;
    text.extend_from_slice(b"\n")?;
    Ok(())
}

// The code section: the length of each code.
fn list_codes<S: Sketch, W: Out>(sketch: &S, text: &mut Vec<u8>, out: &mut W) -> Listed
    requires room { W.failed out.old < 2 ^ 64 - 1 }
    ensures { PutsOut W.taken W.failed out.old out.new
        (text.old.items ++ section_details (S.seen sketch.now) CodeSection) text.new.items result }
{
    let parts = sketch.parts();
    let count = parts.funcs.len();
    let imported = count_of(Kind::Func, parts.imports.as_slice());
    put_heading(text, section_id::CODE, count)?;
    for index in 0..count {
        let size = sketch.body_len(index);
        put_size(text, u64::from(imported) + index as u64, size)?;
        spill(text, out)?;
    }
    Ok(())
}

// The start section.
fn put_start(text: &mut Vec<u8>, start: Option<u32>) -> Result<(), OutOfMemory>
    ensures { OnOk result (text.new.items ≡ text.old.items ++ start_line start) }
{
    let Some(index) = start else {
        return Ok(());
    };
    text.extend_from_slice(b"Start:\n - start ")?;
    put_number(text, u64::from(index))?;
    text.extend_from_slice(b"\n")?;
    Ok(())
}

// The section of an id but that of the codes.
fn list_items<W: Out>(parts: &Parts, id: u8, text: &mut Vec<u8>, out: &mut W) -> Listed
    requires room { W.failed out.old < 2 ^ 64 - 1 }
    requires numbered { AreNumbered (lists_of parts.now) }
    requires other { id ≢ 10 }
    ensures { PutsOut W.taken W.failed out.old out.new
        (text.old.items ++ details_by parts.now (of_number id)) text.new.items result }
{
    let first = first_index(id, parts.imports.as_slice());
    match id {
        section_id::TYPE => list_group(id, "type", first, &parts.types, text, out),
        section_id::IMPORT => list_imports(parts.imports.as_slice(), text, out),
        section_id::FUNCTION => list_group(id, "func", first, &parts.funcs, text, out),
        section_id::TABLE => list_group(id, "table", first, &parts.tables, text, out),
        section_id::MEMORY => list_group(id, "memory", first, &parts.memories, text, out),
        section_id::GLOBAL => list_group(id, "global", first, &parts.globals, text, out),
        section_id::EXPORT => list_group(id, "export", first, &parts.exports, text, out),
        section_id::START => Ok(put_start(text, parts.start)?),
        section_id::ELEMENT => list_group(id, "elem", first, &parts.elems, text, out),
        section_id::DATA => list_group(id, "data", first, &parts.datas, text, out),
        _ => Ok(()),
    }
}

// The section of an id.
fn list_section<S: Sketch, W: Out>(sketch: &S, id: u8, text: &mut Vec<u8>, out: &mut W) -> Listed
    requires room { W.failed out.old < 2 ^ 64 - 1 }
    ensures { PutsOut W.taken W.failed out.old out.new
        (text.old.items ++ details_by (S.seen sketch.now) (of_number id)) text.new.items result }
{
    if id == section_id::CODE {
        return list_codes(sketch, text, out);
    }
    list_items(sketch.parts(), id, text, out)
}

// A custom section.
fn put_custom(text: &mut Vec<u8>, custom: &Custom) -> Result<(), OutOfMemory>
    ensures { OnOk result (text.new.items ≡ text.old.items ++ custom_details custom.now) }
{
    text.extend_from_slice(b"Custom:\n - custom ")?;
    put_name(text, custom.name.as_str())?;
    text.extend_from_slice(b" bytes=")?;
    put_hex(text, custom.bytes.as_slice())?;
    text.extend_from_slice(b"\n")?;
    Ok(())
}

// The custom sections of a place.
fn list_customs<W: Out>(customs: &[Custom], place: u8, text: &mut Vec<u8>, out: &mut W) -> Listed
    requires room { W.failed out.old < 2 ^ 64 - 1 }
    ensures { PutsOut W.taken W.failed out.old out.new
        (text.old.items ++ flat_map custom_details (customs_of place customs.now)) text.new.items
        result }
{
    for custom in customs {
        if custom.place == place {
            put_custom(text, custom)?;
            spill(text, out)?;
        }
    }
    Ok(())
}

/// All sections, each with its items.
pub(crate) fn list_details<S: Sketch, W: Out>(sketch: &S, text: &mut Vec<u8>, out: &mut W) -> Listed
    requires room { W.failed out.old < 2 ^ 64 - 1 }
    ensures { PutsOut W.taken W.failed out.old out.new
        (text.old.items ++ details_text (S.seen sketch.now)) text.new.items result }
{
    let parts = sketch.parts();
    for id in 0..=section_id::LAST {
        list_section(sketch, id, text, out)?;
        list_customs(parts.customs.as_slice(), id, text, out)?;
    }
    Ok(())
}
