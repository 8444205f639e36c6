//! `strip_bytes`.

use crate::bodies::NO_MEMORY;
use crate::mark::{call_begins, call_ends};
use crate::modules::{OF_MOVING, OF_TYPES, OF_WIDE, Sample};
use std::alloc::{AllocError, Global};
use wk_bytes::Text;
use wk_samples::outcome::Outcome;
use wk_samples::sections::{Sections, with_sections};
use wk_samples::{edits, moving, wide};
use wk_strip::strip_bytes;

/// A module that is stripped, and what is left.
#[derive(Clone, Copy)]
pub(crate) struct Strip {
    sample: Sample,
    /// The name of the custom sections that stay.
    keep: Option<&'static str>,
    /// The sections of it that are others then.
    left: Sections,
}

/// Types alone are left.
pub(crate) const TO_TYPES: Strip = Strip {
    sample: OF_TYPES,
    keep: None,
    left: edits::WITHOUT_CUSTOMS,
};

/// Code is left.
pub(crate) const TO_CODE: Strip = Strip {
    sample: OF_MOVING,
    keep: None,
    left: moving::WITHOUT_CUSTOMS,
};

/// Code of the wider profile is left.
pub(crate) const TO_WIDE: Strip = Strip {
    sample: OF_WIDE,
    keep: None,
    left: wide::WITHOUT_CUSTOMS,
};

/// The same with custom sections of one name.
pub(crate) const TO_ONE_NAME: Strip = Strip {
    sample: OF_WIDE,
    keep: Some("c"),
    left: wide::WITHOUT_D,
};

fn text(alloc: Global, name: Option<&str>) -> Result<Option<Text>, AllocError> {
    match name {
        Some(name) => Ok(Some(Text::from_string(String::from_str(alloc, name)?))),
        None => Ok(None),
    }
}

impl Strip {
    /// The call.
    pub(crate) fn run(self, alloc: Global) -> Outcome {
        match text(alloc, self.keep) {
            Ok(keep) => self.run_by(alloc, keep.as_ref()),
            Err(AllocError) => Outcome::NO_SAMPLE,
        }
    }

    // Whether these bytes are left.
    fn is_left(self, alloc: Global, stripped: &[u8]) -> bool {
        match with_sections(alloc, self.sample.bytes, self.left) {
            Some(bytes) => bytes.as_slice() == stripped,
            None => false,
        }
    }

    fn run_by(self, alloc: Global, keep: Option<&Text>) -> Outcome {
        match Vec::from_slice(alloc, self.sample.bytes) {
            Ok(bytes) => self.run_with(alloc, bytes, keep),
            Err(AllocError) => Outcome::NO_SAMPLE,
        }
    }

    fn run_with(self, alloc: Global, bytes: Vec<u8>, keep: Option<&Text>) -> Outcome {
        let profile = self.sample.profile;
        call_begins(alloc);
        let answer = strip_bytes(alloc, bytes, profile, keep);
        call_ends(alloc);
        match &answer {
            Ok(stripped) => Outcome::answered(self.is_left(alloc, stripped.as_slice())),
            Err(fault) => Outcome::refused(*fault == NO_MEMORY),
        }
    }
}
