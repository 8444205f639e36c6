//! Puts the written form of a module out, piece after piece, without memory.

ghost use Rattle.std.specs.Prelude.{◌≡◌, ◌-◌, ◌<◌, ◌≤◌, ◌^◌, ◌∷◌, length, OnOk, OnErr};
ghost use Rattle.std.specs.Io.KnownBytes.{Appends};
ghost use Rattle.std.specs.List.{flat_map};
ghost use Rattle.wk_bytes.specs.Frames.{limit};
ghost use Rattle.wk_bytes.specs.Short.{short};
ghost use Rattle.wk_bytes.specs.Taken.{TakesFront, failures_after};
ghost use Rattle.wk_module.specs.Formats.{written_bytes};
ghost use Rattle.wk_module.specs.Writing.{customs_at};
ghost use Rattle.wk_module.specs.WritingLaws.{written_frame};
ghost use Rattle.wk_pieces.specs.Pieces.{code_section, entries_size, framed_some, section_pieces};
ghost use Rattle.wk_pieces.specs.Puts.{Takes};
ghost use Rattle.wk_pieces.specs.Recoded.{encoded_with, place_with, section_with};

use crate::codes::Codes;
use wk_bytes::{Items, Out, OutFault, leb_len_u32, out_u32, put_all};
use wk_module::{Custom, HEADER, Parts, custom_len, section_id};

// The id and the size of a section.
fn put_head<W: Out>(out: &mut W, id: u8, size: u32) -> Result<(), OutFault>
    requires { W.failed out.old < 2 ^ 64 - 1 }
    ensures taken { Takes (W.taken out.old) (W.taken out.new) (id ∷ short size) result }
    ensures failures { W.failed out.new ≡ failures_after (W.failed out.old) result }
{
    put_all(out, &[id])?;
    out_u32(out, size)
}

// Bytes behind their number.
fn put_bytes<W: Out>(out: &mut W, bytes: &[u8]) -> Result<(), OutFault>
    requires failed { W.failed out.old < 2 ^ 64 - 1 }
    requires few { length bytes.now ≤ limit }
    ensures taken { Takes (W.taken out.old) (W.taken out.new) (written_bytes bytes.now) result }
    ensures failures { W.failed out.new ≡ failures_after (W.failed out.old) result }
{
    out_u32(out, bytes.len() as u32)?;
    put_all(out, bytes)
}

// A section, unless it has no contents.
fn put_section<W: Out>(out: &mut W, id: u8, contents: &Items<u8>) -> Result<(), OutFault>
    requires failed { W.failed out.old < 2 ^ 64 - 1 }
    requires few { length contents.now ≤ limit }
    ensures taken { Takes (W.taken out.old) (W.taken out.new) (framed_some id contents.now) result }
    ensures failures { W.failed out.new ≡ failures_after (W.failed out.old) result }
{
    if contents.is_empty() {
        return Ok(());
    }
    put_head(out, id, contents.len() as u32)?;
    put_all(out, contents.as_slice())
}

// Codes with their sizes.
fn put_codes<W: Out>(out: &mut W, codes: &Codes<'_>) -> Result<(), OutFault>
    requires failed { W.failed out.old < 2 ^ 64 - 1 }
    requires few { entries_size codes.now ≤ limit }
    ensures taken { Takes (W.taken out.old) (W.taken out.new)
        (flat_map written_bytes codes.now) result }
    ensures failures { W.failed out.new ≡ failures_after (W.failed out.old) result }
{
    for i in 0..codes.count() {
        put_bytes(out, codes.at(i))?;
    }
    Ok(())
}

// The code section, unless it has no codes.
fn put_code_section<W: Out>(out: &mut W, codes: &Codes<'_>) -> Result<(), OutFault>
    requires failed { W.failed out.old < 2 ^ 64 - 1 }
    requires few { length (code_section codes.now) ≤ limit }
    ensures taken { Takes (W.taken out.old) (W.taken out.new) (code_section codes.now) result }
    ensures failures { W.failed out.new ≡ failures_after (W.failed out.old) result }
{
    let count = codes.count() as u32;
    if count == 0 {
        return Ok(());
    }
    let size = leb_len_u32(count) as u32 + codes.len();
    put_head(out, section_id::CODE, size)?;
    out_u32(out, count)?;
    put_codes(out, codes)
}

// A custom section.
fn put_custom<W: Out>(out: &mut W, custom: &Custom) -> Result<(), OutFault>
    requires failed { W.failed out.old < 2 ^ 64 - 1 }
    requires few { length (written_frame custom.now) ≤ limit }
    ensures taken { Takes (W.taken out.old) (W.taken out.new) (written_frame custom.now) result }
    ensures failures { W.failed out.new ≡ failures_after (W.failed out.old) result }
{
    let Some(size) = custom_len(custom) else {
        unreachable!()
    };
    put_head(out, section_id::CUSTOM, size)?;
    put_bytes(out, custom.name.as_str().as_bytes())?;
    put_all(out, custom.bytes.as_slice())
}

// The custom sections of a place.
fn put_customs_at<W: Out>(out: &mut W, customs: &Items<Custom>, place: u8) -> Result<(), OutFault>
    requires failed { W.failed out.old < 2 ^ 64 - 1 }
    requires few { length (customs_at place customs.now) ≤ limit }
    ensures taken { Takes (W.taken out.old) (W.taken out.new)
        (customs_at place customs.now) result }
    ensures failures { W.failed out.new ≡ failures_after (W.failed out.old) result }
{
    for custom in customs.as_slice() {
        if custom.place == place {
            put_custom(out, custom)?;
        }
    }
    Ok(())
}

// The section of an id.
fn put_section_of<W: Out>(
    out: &mut W,
    parts: &Parts,
    sections: &Vec<Items<u8>>,
    codes: &Codes<'_>,
    id: u8,
) -> Result<(), OutFault>
    requires failed { W.failed out.old < 2 ^ 64 - 1 }
    requires id { id < 12 }
    requires sections { sections.now.items ≡ section_pieces parts.now }
    requires few { length (section_with parts.now codes.now id) ≤ limit }
    ensures taken { Takes (W.taken out.old) (W.taken out.new)
        (section_with parts.now codes.now id) result }
    ensures failures { W.failed out.new ≡ failures_after (W.failed out.old) result }
{
    if id == section_id::CODE {
        return put_code_section(out, codes);
    }
    put_section(out, id, &sections[id as usize])
}

// The section of an id, and the custom sections behind it.
fn put_place<W: Out>(
    out: &mut W,
    parts: &Parts,
    sections: &Vec<Items<u8>>,
    codes: &Codes<'_>,
    id: u8,
) -> Result<(), OutFault>
    requires failed { W.failed out.old < 2 ^ 64 - 1 }
    requires id { id < 12 }
    requires sections { sections.now.items ≡ section_pieces parts.now }
    requires few { length (place_with parts.now codes.now id) ≤ limit }
    ensures taken { Takes (W.taken out.old) (W.taken out.new)
        (place_with parts.now codes.now id) result }
    ensures failures { W.failed out.new ≡ failures_after (W.failed out.old) result }
{
    put_section_of(out, parts, sections, codes, id)?;
    put_customs_at(out, &parts.customs, id)
}

/// Puts a module out by the contents of its sections, with these codes in the place of its own. After a fault a beginning of that form
/// stands taken.
pub fn put_module<W: Out>(
    out: &mut W,
    parts: &Parts,
    sections: &Vec<Items<u8>>,
    codes: &Codes<'_>,
) -> Result<(), OutFault>
    requires failed { W.failed out.old < 2 ^ 64 - 1 }
    requires sections { sections.now.items ≡ section_pieces parts.now }
    requires few { length (encoded_with parts.now codes.now) ≤ limit }
    ensures ok { OnOk result
        (Appends (W.taken out.old) (W.taken out.new) (encoded_with parts.now codes.now)) }
    ensures err { OnErr result
        (TakesFront (W.taken out.old) (W.taken out.new) (encoded_with parts.now codes.now)) }
    ensures failures { W.failed out.new ≡ failures_after (W.failed out.old) result }
{
    put_all(out, &HEADER)?;
    for id in 0..=section_id::LAST {
        put_place(out, parts, sections, codes, id)?;
    }
    Ok(())
}
