//! Calls of `wk_module` on the sections of a module.

use crate::bodies::NO_MEMORY;
use crate::mark::{call_begins, call_ends};
use crate::modules::{Sample, was_encoded};
use crate::scenario::and_drop;
use crate::sinks::{BEFORE, Room, vector};
use std::alloc::{AllocError, Global};
use wk_bytes::{RawSection, ReadFault};
use wk_module::{
    CodeReader, EncodeFault, Lists, Module, Parts, Profile, Scratch, SectionReader, append_section,
    encode_custom, encode_section,
};
use wk_samples::modules::{CUSTOMS_OF_WHOLE, OF_WHOLE, WHOLE};
use wk_samples::outcome::Outcome;

/// A call that is lent the module with every section, in a profile.
#[derive(Clone, Copy)]
pub(crate) enum OfWhole {
    /// `encode_section` of each.
    Encode,
    /// `append_section` of each.
    Append,
    /// `encode_custom` of each custom section.
    Customs,
    /// `copy` of its types, imports and exports.
    Copy,
}

// Writes a section alone. Says whether the bytes are right.
fn encode_one(alloc: Global, lists: &Lists<'_>, id: u8, bytes: &[u8]) -> Result<bool, EncodeFault> {
    if 1 <= id && id <= 11 && id != 10 {
        let written = encode_section(alloc, lists, id)?;
        return Ok(written.as_slice() == bytes);
    }
    Ok(false)
}

// Writes each section alone, up to the first that is refused. Says whether the bytes are right.
fn encode_each(alloc: Global, lists: &Lists<'_>) -> Result<bool, EncodeFault> {
    let mut are_right = true;
    for section in OF_WHOLE {
        are_right = encode_one(alloc, lists, section.id, section.bytes)? && are_right;
    }
    Ok(are_right)
}

// The bytes behind a section of one byte of size, with which these begin.
fn behind_section<'a>(bytes: &'a [u8], id: u8, contents: &[u8]) -> Option<&'a [u8]> {
    match bytes {
        [first, size, rest @ ..] if *first == id && usize::from(*size) == contents.len() => {
            rest.strip_prefix(contents)
        }
        _ => None,
    }
}

// Whether these bytes are `BEFORE`, and then the sections, or the first of them where the others were refused.
fn are_sections(bytes: &[u8], is_refused: bool) -> bool {
    let Some(mut rest) = bytes.strip_prefix(&BEFORE) else {
        return false;
    };
    for section in OF_WHOLE {
        if rest.is_empty() {
            return is_refused;
        }
        let Some(behind) = behind_section(rest, section.id, section.bytes) else {
            return false;
        };
        rest = behind;
    }
    rest.is_empty()
}

// Appends each section, up to the first that is refused.
fn append_each(lists: &Lists<'_>, out: &mut Vec<u8>) -> Result<(), EncodeFault> {
    for section in OF_WHOLE {
        append_section(lists, section.id, out)?;
    }
    Ok(())
}

fn encode_customs(alloc: Global, parts: &Parts) -> Result<bool, EncodeFault> {
    let mut are_right = true;
    for (custom, bytes) in parts.customs.as_slice().iter().zip(CUSTOMS_OF_WHOLE) {
        let written = encode_custom(alloc, custom)?;
        are_right = are_right && written.as_slice() == bytes;
    }
    Ok(are_right)
}

// Copies each type, import and export, up to the first that is refused. Says whether the copies are right.
fn copy_each(alloc: Global, parts: &Parts) -> Result<bool, AllocError> {
    let mut are_right = true;
    for ty in parts.types.as_slice() {
        let copy = ty.copy(alloc)?;
        are_right = are_right && copy.params.as_slice() == ty.params.as_slice();
    }
    for import in parts.imports.as_slice() {
        let copy = import.copy(alloc)?;
        are_right = are_right && copy.from.as_str() == "a" && copy.desc == import.desc;
    }
    for export in parts.exports.as_slice() {
        let copy = export.copy(alloc)?;
        are_right = are_right && copy.name.as_str() == "f" && copy.index == export.index;
    }
    Ok(are_right)
}

impl OfWhole {
    /// The call.
    pub(crate) fn run(self, alloc: Global, profile: Profile) -> Outcome {
        let whole = Sample {
            profile,
            bytes: WHOLE,
        };
        match whole.read(alloc) {
            Ok(module) => and_drop(self.run_on(alloc, &module), module),
            Err(_) => Outcome::NO_SAMPLE,
        }
    }

    fn run_on(self, alloc: Global, module: &Module) -> Outcome {
        let lists = Lists::of(module.parts(), &[0]);
        match self {
            OfWhole::Encode => {
                call_begins(alloc);
                let answer = encode_each(alloc, &lists);
                call_ends(alloc);
                was_encoded(alloc, answer, module, WHOLE)
            }
            OfWhole::Append => appends_each(alloc, module, &lists),
            OfWhole::Customs => {
                call_begins(alloc);
                let answer = encode_customs(alloc, module.parts());
                call_ends(alloc);
                was_encoded(alloc, answer, module, WHOLE)
            }
            OfWhole::Copy => copies(alloc, module),
        }
    }
}

fn appends_each(alloc: Global, module: &Module, lists: &Lists<'_>) -> Outcome {
    let Some(mut bytes) = vector(alloc, Room::Scant) else {
        return Outcome::NO_SAMPLE;
    };
    call_begins(alloc);
    let answer = append_each(lists, &mut bytes);
    call_ends(alloc);
    let are_right = are_sections(&bytes, answer.is_err());
    match answer {
        Ok(()) => Outcome::answered(are_right),
        Err(fault) if are_right => was_encoded(alloc, Err(fault), module, WHOLE),
        Err(_) => Outcome::refused(false),
    }
}

fn copies(alloc: Global, module: &Module) -> Outcome {
    call_begins(alloc);
    let answer = copy_each(alloc, module.parts());
    call_ends(alloc);
    match answer {
        Ok(are_right) => Outcome::answered(are_right),
        Err(AllocError) => Outcome::refused(true),
    }
}

/// A module of two functions that is read section by section.
#[derive(Clone, Copy)]
pub(crate) enum Walk {
    /// `SectionReader::up_to_code`.
    UpToCode,
    /// `SectionReader::to_end`, behind the codes, and `SectionReader::into_lists`.
    ToEnd,
    /// `CodeReader::next` of each code.
    Codes,
}

type UpToCode<'a> = Result<(SectionReader<'a>, Option<RawSection<'a>>), ReadFault>;

fn up_to_code(alloc: Global, sample: Sample, scratch: &mut Scratch) -> UpToCode<'static> {
    SectionReader::new(alloc, sample.bytes, sample.profile).up_to_code(alloc, scratch)
}

impl Walk {
    /// The call.
    pub(crate) fn run(self, alloc: Global, sample: Sample) -> Outcome {
        let mut scratch = Scratch::new(alloc);
        if let Walk::UpToCode = self {
            return reads_up_to_code(alloc, sample, &mut scratch);
        }
        match up_to_code(alloc, sample, &mut scratch) {
            Ok((reader, section)) => match section {
                Some(section) => self.run_from(alloc, sample, reader, &section, &mut scratch),
                None => Outcome::NO_SAMPLE,
            },
            Err(_) => Outcome::NO_SAMPLE,
        }
    }

    fn run_from(
        self,
        alloc: Global,
        sample: Sample,
        reader: SectionReader<'_>,
        section: &RawSection<'_>,
        scratch: &mut Scratch,
    ) -> Outcome {
        match self {
            Walk::Codes => reads_codes(alloc, sample.profile, section),
            Walk::ToEnd | Walk::UpToCode => ends(alloc, reader, scratch),
        }
    }
}

fn reads_up_to_code(alloc: Global, sample: Sample, scratch: &mut Scratch) -> Outcome {
    call_begins(alloc);
    let answer = up_to_code(alloc, sample, scratch);
    call_ends(alloc);
    match &answer {
        Ok((reader, section)) => {
            Outcome::answered(reader.lists().funcs.len() == 2 && section.is_some())
        }
        Err(fault) => Outcome::refused(*fault == NO_MEMORY),
    }
}

fn ends(alloc: Global, reader: SectionReader<'_>, scratch: &mut Scratch) -> Outcome {
    call_begins(alloc);
    let answer = reader.to_end(alloc, scratch);
    call_ends(alloc);
    match answer {
        Ok(reader) => Outcome::answered(reader.into_lists().lists().datas.len() == 1),
        Err(fault) => Outcome::refused(fault == NO_MEMORY),
    }
}

// Reads both codes, up to the first that is refused. Says how many tokens they have.
fn read_both(
    alloc: Global,
    profile: Profile,
    section: &RawSection<'_>,
    scratch: &mut Scratch,
) -> Result<(usize, usize), ReadFault> {
    let mut codes = CodeReader::open(section, 2)?;
    let first = codes.next(alloc, scratch, profile)?.tokens().0.len();
    let second = codes.next(alloc, scratch, profile)?.tokens().0.len();
    codes.end()?;
    Ok((first, second))
}

fn reads_codes(alloc: Global, profile: Profile, section: &RawSection<'_>) -> Outcome {
    let mut scratch = Scratch::new(alloc);
    call_begins(alloc);
    let answer = read_both(alloc, profile, section, &mut scratch);
    call_ends(alloc);
    match answer {
        Ok(counts) => Outcome::answered(counts == (2, 2) || counts == (11, 12)),
        Err(fault) => Outcome::refused(fault == NO_MEMORY),
    }
}
