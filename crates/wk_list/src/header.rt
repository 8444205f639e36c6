//! The line of a section: its name, where it is, and how long.

ghost use Rattle.std.specs.Prelude.{◌≡◌, ◌+◌, ◌<◌, ◌^◌, ◌++◌, OnOk, OnErr};
ghost use Rattle.wk_bytes.specs.FaultText.{offset_text};
ghost use Rattle.wk_list.specs.Headers.{in_eight, section_name, header_text};
ghost use Rattle.wk_list.specs.Text.{StandsInFront};

use crate::text::{put_hex8, put_spaces};
use wk_bytes::OutOfMemory;
use wk_module::section_id;

/// The name of the sections with an id: nothing past 11.
pub(crate) fn section_name(id: u8) -> &'static str
    ensures { result.now ≡ section_name id }
{
    match id {
        section_id::CUSTOM => "Custom",
        section_id::TYPE => "Type",
        section_id::IMPORT => "Import",
        section_id::FUNCTION => "Function",
        section_id::TABLE => "Table",
        section_id::MEMORY => "Memory",
        section_id::GLOBAL => "Global",
        section_id::EXPORT => "Export",
        section_id::START => "Start",
        section_id::ELEMENT => "Elem",
        section_id::CODE => "Code",
        section_id::DATA => "Data",
        _ => "",
    }
}

// The name of the sections with an id, right-aligned in eight places.
fn put_aligned_name(text: &mut Vec<u8>, id: u8) -> Result<(), OutOfMemory>
    ensures ok { OnOk result (text.new.items ≡ text.old.items ++ in_eight (section_name id)) }
    ensures err { OnErr result (StandsInFront text.old.items text.new.items) }
{
    let name = section_name(id);
    put_spaces(text, 8usize.saturating_sub(name.len()))?;
    text.extend_from_slice(name.as_bytes())?;
    Ok(())
}

// An offset or a size, as `0x` and eight hexadecimal digits.
fn put_offset(text: &mut Vec<u8>, n: u32) -> Result<(), OutOfMemory>
    ensures ok { OnOk result (text.new.items ≡ text.old.items ++ offset_text n) }
    ensures err { OnErr result (StandsInFront text.old.items text.new.items) }
{
    text.extend_from_slice(b"0x")?;
    put_hex8(text, n)
}

// The line of a section as far as its size, or a part of it where memory is refused.
fn put_line(text: &mut Vec<u8>, id: u8, start: u32, size: u32) -> Result<(), OutOfMemory>
    requires { start + size < 2 ^ 32 }
    ensures ok { OnOk result (text.new.items ≡ text.old.items ++ header_text id start size) }
    ensures err { OnErr result (StandsInFront text.old.items text.new.items) }
{
    put_aligned_name(text, id)?;
    text.extend_from_slice(b" start=")?;
    put_offset(text, start)?;
    text.extend_from_slice(b" end=")?;
    put_offset(text, start + size)?;
    text.extend_from_slice(b" size=")?;
    put_offset(text, size)
}

/// Appends the line of a section as far as its size, as `    Type start=0x0000000a end=0x0000000e size=0x00000004`: where its
/// contents start, where they end, and how many bytes they are. A section's id is 0 to 11; other ids have no name.
///
/// # Errors
///
/// Want of memory. Then `text` holds what it held before.
pub fn put_header(text: &mut Vec<u8>, id: u8, start: u32, size: u32) -> Result<(), OutOfMemory>
    requires { start + size < 2 ^ 32 }
    ensures ok { OnOk result (text.new.items ≡ text.old.items ++ header_text id start size) }
    ensures err { OnErr result (text.new.items ≡ text.old.items) }
{
    let len = text.len();
    let put = put_line(text, id, start, size);
    if put.is_err() {
        text.truncate(len);
    }
    put
}
