//! The sections of a module, listed with their contents unread.
ghost use Rattle.std.specs.Prelude.{◌≡◌, ◌++◌, All, IfOk, OnOk};
ghost use Rattle.std.specs.List.{list_any};
ghost use Rattle.wk_bytes.specs.Frames.{sections_of};
ghost use Rattle.wk_bytes.specs.Raw.{item_view, raw_view};
ghost use Rattle.wk_bytes.specs.Stands.{ItemStands};
ghost use Rattle.wk_answers.specs.Listing.{is_fault, item_line, listing, section_line};

use std::alloc::Global;
use wk_bytes::{OutOfMemory, RawSection, ReadFault, Sections};
use wk_check::malformed_line;
use wk_list::put_header;

/// A line for each section, and one for the fault behind them, if there is one.
#[derive(Debug, Drop)]
pub struct Listing {
    /// The lines.
    pub text: Vec<u8>,
    /// Whether there is a fault.
    pub has_fault: bool,
}

// The line of a section.
fn put_section(text: &mut Vec<u8>, section: &RawSection<'_>) -> Result<(), OutOfMemory>
    ensures { OnOk result (text.new.items ≡ text.old.items ++ section_line (raw_view section.now)) }
{
    let size = section.contents.len() as u32;
    put_header(text, section.id, section.at, size)?;
    text.extend_from_slice(b"\n")?;
    Ok(())
}

// The line of a section, or of the fault.
fn put_item(
    alloc: Global,
    text: &mut Vec<u8>,
    item: &Result<RawSection<'_>, ReadFault>,
) -> Result<(), OutOfMemory>
    ensures { OnOk result (text.new.items ≡ text.old.items ++ item_line (item_view item.now)) }
{
    match item {
        Ok(section) => put_section(text, section),
        Err(fault) => {
            let line = malformed_line(alloc, fault)?;
            text.extend_from_slice(line.as_bytes())?;
            Ok(())
        }
    }
}

/// Lists the sections that stand in the bytes, and then the fault of their frames, if there is one.
///
/// # Errors
///
/// Want of memory.
pub fn list_sections(alloc: Global, bytes: &[u8]) -> Result<Listing, OutOfMemory>
    ensures text { IfOk result (λ l. l.text.items ≡ listing (sections_of bytes.now)) }
    ensures fault { IfOk result (λ l. l.has_fault ≡ list_any is_fault (sections_of bytes.now)) }
    // Each section that has a line lies in the bytes, and the fault stands in them.
    ensures stands { All (ItemStands bytes.now) (sections_of bytes.now) }
{
    let mut text = Vec::new(alloc);
    let mut has_fault = false;
    for item in Sections::new(bytes) {
        put_item(alloc, &mut text, &item)?;
        has_fault |= item.is_err();
    }
    Ok(Listing { text, has_fault })
}
