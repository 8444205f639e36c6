//! A section of an input by its id.

ghost use Rattle.std.specs.Prelude.{◌≡◌};
ghost use Rattle.wk_bytes.specs.Frames.{sections_of};
ghost use Rattle.wk_module.specs.ListReading.{code_view};
ghost use Rattle.wk_place.specs.Seeking.{first_with};

use wk_bytes::{RawSection, Sections};

/// The first section of an id, or none where no section of it comes in front of the end or of a fault of the frames. It takes no memory.
pub(crate) fn find_section(bytes: &[u8], id: u8) -> Option<RawSection<'_>>
    ensures { code_view result ≡ first_with id (sections_of bytes.now) }
{
    for section in Sections::new(bytes) {
        let Ok(section) = section else {
            return None;
        };
        if section.id == id {
            return Some(section);
        }
    }
    None
}
