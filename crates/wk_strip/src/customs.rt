//! The custom sections that stay.

ghost use Rattle.std.specs.Prelude.{◌≡◌, ◌++◌, Some, None, if◌then◌else◌, option_map, OnOk, IfOk, IsTrue, ◌↔◌};
ghost use Rattle.std.specs.Str.{bytes_eq};
ghost use Rattle.wk_bytes.specs.Frames.{frame_of};
ghost use Rattle.wk_bytes.specs.Raw.{raw_view};
ghost use Rattle.wk_module.specs.declared.types.Custom.{Custom};
ghost use Rattle.wk_module.specs.Customs.{IsEmptyFrame, SpellsCustom, written_custom};
ghost use Rattle.wk_module.specs.Writing.{customs_at, framed};
ghost use Rattle.wk_strip.specs.Stripped.{AreKept};

use std::alloc::Global;
use std::marker::Model;
use wk_bytes::{OutOfMemory, RawSection, Sections, Text, leb_len_u32, put_u32};
use wk_module::section_id;

// A custom section that stays, with the size of its contents as they are written.
#[derive(Drop)]
pub(crate) struct KeptCustom {
    place: u8,
    size: u32,
    name: String,
    bytes: Vec<u8>,
}

impl Model for KeptCustom {
    ghost use Rattle.std.specs.Prelude.{◌≡◌, length, string_bytes};
    ghost use Rattle.wk_module.specs.declared.types.Custom.{Custom};
    ghost use Rattle.wk_module.specs.Customs.{written_custom};

    ghost Value = { Custom };

    ghost view = { λ k. record { place = k.place; name = string_bytes k.name; bytes = k.bytes.items } };

    ghost invariant = { λ k. k.size ≡ length (written_custom
        (record { place = k.place; name = string_bytes k.name; bytes = k.bytes.items })) };
}

impl KeptCustom {
    // Appends the section.
    fn append(&self, out: &mut Vec<u8>) -> Result<(), OutOfMemory>
        ensures { OnOk result
            (out.new.items ≡ out.old.items ++ framed 0 (written_custom self.now)) }
    {
        out.push(section_id::CUSTOM)?;
        put_u32(out, self.size)?;
        put_u32(out, self.name.len() as u32)?;
        out.extend_from_slice(self.name.as_bytes())?;
        out.extend_from_slice(&self.bytes)?;
        Ok(())
    }
}

// The custom section in memory of its own, if it has that name.
fn named(
    alloc: Global,
    name: &Text,
    place: u8,
    section: &RawSection<'_>,
) -> Result<Option<KeptCustom>, OutOfMemory>
    ensures { IfOk result
        (λ kept. (c : Custom) → c.place ≡ place → SpellsCustom section.now.contents.now c
        → kept ≡ (if bytes_eq c.name name.now then Some c else None)) }
{
    let mut cursor = section.cursor();
    let Ok(found) = cursor.name() else {
        return Ok(None);
    };
    if found != name.as_str() {
        return Ok(None);
    }
    let bytes = cursor.rest();
    let size = leb_len_u32(found.len() as u32) + found.len() + bytes.len();
    Ok(Some(KeptCustom {
        place,
        size: size as u32,
        name: String::from_str(alloc, found)?,
        bytes: Vec::from_slice(alloc, bytes)?,
    }))
}

// Whether a section is empty: its contents are a count of zero. Only the start section has no count.
fn is_empty(section: &RawSection<'_>) -> bool
    ensures { IsTrue result ↔ IsEmptyFrame (frame_of (raw_view section.now)) }
{
    if section.id == section_id::START {
        return false;
    }
    let mut cursor = section.cursor();
    let Ok(count) = cursor.u32() else {
        return false;
    };
    count == 0 && cursor.rest().is_empty()
}

// The custom sections of the name to keep, each with its place: the id of the last section in front of it that is not empty.
pub(crate) fn kept_customs(
    alloc: Global,
    bytes: &[u8],
    keep: Option<&Text>,
) -> Result<Vec<KeptCustom>, OutOfMemory>
    ensures { IfOk result
        (λ kept. AreKept (option_map (λ name. name.now) keep.entry) bytes.now kept.items) }
{
    let mut kept = Vec::new(alloc);
    let Some(name) = keep else {
        return Ok(kept);
    };
    let mut place = 0;
    for section in Sections::new(bytes) {
        let Ok(section) = section else {
            return Ok(kept);
        };
        if section.id == section_id::CUSTOM {
            let found = named(alloc, name, place, &section)?;
            if let Some(custom) = found {
                kept.push(custom)?;
            }
        } else if !is_empty(&section) {
            place = section.id;
        }
    }
    Ok(kept)
}

// Appends those of a place.
pub(crate) fn append_customs(
    customs: &[KeptCustom],
    place: u8,
    out: &mut Vec<u8>,
) -> Result<(), OutOfMemory>
    ensures { OnOk result (out.new.items ≡ out.old.items ++ customs_at place customs.now) }
{
    for custom in customs {
        if custom.place == place {
            custom.append(out)?;
        }
    }
    Ok(())
}
