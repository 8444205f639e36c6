//! A module that is another one but for some of its sections. A constant of the type `Sections` is told of as that whole module, and
//! holds only the sections that differ from it.

use std::alloc::Global;

/// What stands in the places of sections of a module, from 0, or of its end: a section with its id and its size, several, or none.
pub type Sections = &'static [(usize, &'static [u8])];

// How long the header of a module is.
const HEADER_LEN: usize = 8;

// How many bytes the first of these sections has with its id and its size, which is one byte.
fn section_len(sections: &[u8]) -> usize {
    match sections {
        [_, size, ..] => 2 + usize::from(*size),
        _ => 0,
    }
}

// What stands in that place, if not what stood there.
fn section_at(sections: Sections, place: usize) -> Option<&'static [u8]> {
    for (other, section) in sections {
        if *other == place {
            return Some(*section);
        }
    }
    None
}

/// The module with these sections, where there is memory for it. Each of its own, custom ones among them, is a place, and has fewer
/// than 128 bytes of contents.
pub fn with_sections(alloc: Global, module: &[u8], sections: Sections) -> Option<Vec<u8>> {
    let mut bytes = Vec::from_slice(alloc, module.get(..HEADER_LEN)?).ok()?;
    let mut rest = module.get(HEADER_LEN..)?;
    for place in 0..=rest.len() {
        let len = section_len(rest);
        let section = section_at(sections, place).unwrap_or(rest.get(..len)?);
        bytes.extend_from_slice(section).ok()?;
        rest = rest.get(len..)?;
    }
    Some(bytes)
}
