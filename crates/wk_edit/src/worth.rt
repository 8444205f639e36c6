//! Whether edits of a module are worth a draft, by the sections of its bytes.

use wk_bytes::{RawSection, Sections};
use wk_module::section_id;

/// For how many bytes of codes a code stands: its stub and its own room take as long as a draft spares on a short body.
const CODE_WEIGHT: usize = 64;

/// For how many bytes of codes an item of a list stands: it is read and judged once more.
const ITEM_WEIGHT: usize = 64;

/// For how many bytes of codes a byte of a list stands, most of all in an element segment, where it is an index.
const BYTE_WEIGHT: usize = 3;

/// How many bytes of data segments stand for a byte of codes: they are copied once more.
const DATA_BYTES: usize = 4;

/// At how many sections is looked: all kinds of them, and some custom ones.
const LOOKED_AT: usize = 32;

// What a draft of a section takes more than a session over it, as so many bytes of codes, of which a draft spares as much. It is told by the
// length and the count.
fn weight_of(section: &RawSection<'_>) -> usize {
    let count = match section.cursor().u32() {
        Ok(count) => count as usize,
        Err(_) => 0,
    };
    let bytes = section.contents.len().saturating_mul(BYTE_WEIGHT);
    let items = count.saturating_mul(ITEM_WEIGHT);
    match section.id {
        section_id::CUSTOM | section_id::START => 0,
        section_id::FUNCTION => bytes,
        section_id::CODE => count.saturating_mul(CODE_WEIGHT),
        section_id::DATA => items.saturating_add(section.contents.len() / DATA_BYTES),
        _ => items.saturating_add(bytes),
    }
}

/// Whether the codes outweigh all else, so that a draft spares more than it takes. Few sections are looked at, and nothing in them is read but
/// a count, so that an input that is refused early still is. What comes of the edits is the same either way.
pub(crate) fn is_worth_draft(input: &[u8]) -> bool {
    let mut sections = Sections::new(input);
    let mut codes: usize = 0;
    let mut rest: usize = 0;
    for _ in 0..LOOKED_AT {
        let section = match sections.next() {
            Some(Ok(section)) => section,
            Some(Err(_)) => return false,
            None => return codes > rest,
        };
        rest = rest.saturating_add(weight_of(&section));
        if section.id == section_id::CODE {
            codes = section.contents.len();
        }
        // Behind it stand custom sections alone.
        if section.id == section_id::DATA {
            return codes > rest;
        }
    }
    false
}
