//! Calls of `wk_module` on modules.

use crate::bodies::{NO_MEMORY, is_length};
use crate::mark::{call_begins, call_ends};
use crate::scenario::and_drop;
use std::alloc::Global;
use wk_bytes::{Items, ReadFault};
use wk_module::{
    EncodeFault, Func, Kind, Module, MovedLists, Outline, Parts, Profile, ShiftFault, Skeleton,
    body_len, encode, encode_body, encoded_len, read, read_in, read_outline, read_skeleton,
    section_len, shift_lists,
};
use wk_samples::edits::{MODULE, VALID};
use wk_samples::modules::{ALL_OF_ONE, TWO_CODES, WHOLE};
use wk_samples::moving::MOVING;
use wk_samples::outcome::Outcome;
use wk_samples::wide::WIDE;

// A type, and 70 functions of it that do nothing.
const SEVENTY_CODES: &[u8] = b"\0asm\x01\0\0\0\x01\x04\x01\x60\0\0\x03\x47\x46\
      \0\0\0\0\0\0\0\0\0\0\0\0\0\0\0\0\0\0\0\0\0\0\0\0\0\0\0\0\0\0\0\0\0\0\0\
      \0\0\0\0\0\0\0\0\0\0\0\0\0\0\0\0\0\0\0\0\0\0\0\0\0\0\0\0\0\0\0\0\0\0\0\
      \x0a\xd3\x01\x46\
      \x02\0\x0b\x02\0\x0b\x02\0\x0b\x02\0\x0b\x02\0\x0b\x02\0\x0b\x02\0\x0b\
      \x02\0\x0b\x02\0\x0b\x02\0\x0b\x02\0\x0b\x02\0\x0b\x02\0\x0b\x02\0\x0b\
      \x02\0\x0b\x02\0\x0b\x02\0\x0b\x02\0\x0b\x02\0\x0b\x02\0\x0b\x02\0\x0b\
      \x02\0\x0b\x02\0\x0b\x02\0\x0b\x02\0\x0b\x02\0\x0b\x02\0\x0b\x02\0\x0b\
      \x02\0\x0b\x02\0\x0b\x02\0\x0b\x02\0\x0b\x02\0\x0b\x02\0\x0b\x02\0\x0b\
      \x02\0\x0b\x02\0\x0b\x02\0\x0b\x02\0\x0b\x02\0\x0b\x02\0\x0b\x02\0\x0b\
      \x02\0\x0b\x02\0\x0b\x02\0\x0b\x02\0\x0b\x02\0\x0b\x02\0\x0b\x02\0\x0b\
      \x02\0\x0b\x02\0\x0b\x02\0\x0b\x02\0\x0b\x02\0\x0b\x02\0\x0b\x02\0\x0b\
      \x02\0\x0b\x02\0\x0b\x02\0\x0b\x02\0\x0b\x02\0\x0b\x02\0\x0b\x02\0\x0b\
      \x02\0\x0b\x02\0\x0b\x02\0\x0b\x02\0\x0b\x02\0\x0b\x02\0\x0b\x02\0\x0b";

/// The bytes of a module, and the profile that it is read in.
#[derive(Clone, Copy)]
pub(crate) struct Sample {
    /// The profile.
    pub(crate) profile: Profile,
    /// The written form of the module.
    pub(crate) bytes: &'static [u8],
}

macro_rules! sample {
    ($profile:ident, $bytes:expr) => {
        Sample {
            profile: Profile::$profile,
            bytes: $bytes,
        }
    };
}

/// Types and custom sections.
pub(crate) const OF_TYPES: Sample = sample!(Core, MODULE);

/// Every section.
pub(crate) const OF_ALL: Sample = sample!(Core, WHOLE);

/// A valid module.
pub(crate) const OF_VALID: Sample = sample!(Core, VALID);

/// A valid module in which all that can move does.
pub(crate) const OF_MOVING: Sample = sample!(Core, MOVING);

/// Two functions.
pub(crate) const OF_TWO: Sample = sample!(Core, TWO_CODES);

/// A valid module of the wider profile, with every section.
pub(crate) const OF_WIDE: Sample = sample!(Extended, WIDE);

/// More functions than an outline has room for behind its first code.
pub(crate) const OF_MANY: Sample = sample!(Core, SEVENTY_CODES);

/// Whether the module is written as these bytes.
pub(crate) fn is_written_as(alloc: Global, module: &Module, bytes: &[u8]) -> bool {
    match encode(alloc, module) {
        Ok(written) => written.as_slice() == bytes,
        Err(_) => false,
    }
}

// Whether the code is the written form of the body of that function.
fn is_code_of(alloc: Global, code: &Items<u8>, func: &Func) -> bool {
    match encode_body(alloc, &func.body) {
        Ok(written) => written.as_slice() == code.as_slice(),
        Err(_) => false,
    }
}

// Whether it has the code and the type of each function.
fn is_outline(alloc: Global, outline: &Outline, parts: &Parts) -> bool {
    let (stubs, funcs) = (&outline.module.parts().funcs, &parts.funcs);
    if stubs.len() != funcs.len() || outline.codes.len() != funcs.len() {
        return false;
    }
    for (index, func) in funcs.as_slice().iter().enumerate() {
        let (Some(stub), Some(code)) = (stubs.as_slice().get(index), outline.codes.get(index))
        else {
            return false;
        };
        if stub.ty != func.ty || !is_code_of(alloc, code, func) {
            return false;
        }
    }
    true
}

// Whether it has the length of each body, and that of the code section.
fn is_skeleton(skeleton: &Skeleton, module: &Module) -> bool {
    let funcs = module.parts().funcs.as_slice();
    if skeleton.module.parts().funcs.len() != funcs.len() || skeleton.bodies.len() != funcs.len() {
        return false;
    }
    for (len, func) in skeleton.bodies.iter().zip(funcs) {
        if body_len(&func.body) != Some(*len) {
            return false;
        }
    }
    section_len(module, 10) == Some(skeleton.codes)
}

/// What an encoder answered, where these bytes are right; the module stays the one that the input spells.
pub(crate) fn was_encoded(
    alloc: Global,
    answer: Result<bool, EncodeFault>,
    module: &Module,
    input: &[u8],
) -> Outcome {
    match answer {
        Ok(is_right) => Outcome::answered(is_right),
        Err(EncodeFault::Memory) => Outcome::refused(is_written_as(alloc, module, input)),
        Err(EncodeFault::TooLarge) => Outcome::Wrong("a small module is too large"),
    }
}

impl Sample {
    /// The module: by `read`, or by `read_in` of the wider profile.
    pub(crate) fn read(self, alloc: Global) -> Result<Module, ReadFault> {
        match self.profile {
            Profile::Core => read(alloc, self.bytes),
            profile => read_in(alloc, self.bytes, profile),
        }
    }

    /// The reading of the module.
    pub(crate) fn reads(self, alloc: Global) -> Outcome {
        call_begins(alloc);
        let answer = self.read(alloc);
        call_ends(alloc);
        and_drop(self.was_read(alloc, &answer), answer)
    }

    // What reading the module answered.
    fn was_read(self, alloc: Global, answer: &Result<Module, ReadFault>) -> Outcome {
        match answer {
            Ok(module) => Outcome::answered(is_written_as(alloc, module, self.bytes)),
            Err(fault) => Outcome::refused(*fault == NO_MEMORY),
        }
    }

    /// `read_outline` of the module.
    pub(crate) fn outlines(self, alloc: Global) -> Outcome {
        match self.read(alloc) {
            Ok(module) => and_drop(self.outlines_module(alloc, &module), module),
            Err(_) => Outcome::NO_SAMPLE,
        }
    }

    fn outlines_module(self, alloc: Global, module: &Module) -> Outcome {
        call_begins(alloc);
        let answer = read_outline(alloc, self.bytes, self.profile);
        call_ends(alloc);
        match answer {
            Ok(outline) => and_drop(
                Outcome::answered(is_outline(alloc, &outline, module.parts())),
                outline,
            ),
            Err(fault) => Outcome::refused(fault == NO_MEMORY),
        }
    }

    /// `read_skeleton` of the module.
    pub(crate) fn measures(self, alloc: Global) -> Outcome {
        match self.read(alloc) {
            Ok(module) => and_drop(self.measures_module(alloc, &module), module),
            Err(_) => Outcome::NO_SAMPLE,
        }
    }

    fn measures_module(self, alloc: Global, module: &Module) -> Outcome {
        call_begins(alloc);
        let answer = read_skeleton(alloc, self.bytes, self.profile);
        call_ends(alloc);
        match answer {
            Ok(skeleton) => Outcome::answered(is_skeleton(&skeleton, module)),
            Err(fault) => Outcome::refused(fault == NO_MEMORY),
        }
    }

    /// `encode` of the module.
    pub(crate) fn encodes(self, alloc: Global) -> Outcome {
        match self.read(alloc) {
            Ok(module) => and_drop(self.encodes_module(alloc, &module), module),
            Err(_) => Outcome::NO_SAMPLE,
        }
    }

    fn encodes_module(self, alloc: Global, module: &Module) -> Outcome {
        call_begins(alloc);
        let answer = encode(alloc, module);
        call_ends(alloc);
        let answer = answer.map(|bytes| bytes.as_slice() == self.bytes);
        was_encoded(alloc, answer, module, self.bytes)
    }

    /// `Module::of`, `parts`, `into_parts` and `encoded_len`.
    pub(crate) fn settles(self, alloc: Global) -> Outcome {
        match self.read(alloc) {
            Ok(module) => self.settles_module(alloc, module),
            Err(_) => Outcome::NO_SAMPLE,
        }
    }

    fn settles_module(self, alloc: Global, module: Module) -> Outcome {
        call_begins(alloc);
        let types = module.parts().types.len();
        let module = Module::of(module.into_parts());
        let len = encoded_len(&module);
        call_ends(alloc);
        let is_kept = is_length(len, self.bytes) && module.parts().types.len() == types;
        Outcome::answered(is_kept && is_written_as(alloc, &module, self.bytes))
    }
}

// Each kind, and which lists of a module of one item each move with what it names: globals, exports, the start, elements and data.
const MOVES: [(Kind, [bool; 5]); 4] = [
    (Kind::Func, [false, true, true, true, false]),
    (Kind::Table, [false, false, false, true, false]),
    (Kind::Memory, [false, false, false, false, true]),
    (Kind::Global, [true, true, false, true, true]),
];

// Which lists moved.
fn lists_of(moved: &MovedLists) -> [bool; 5] {
    [
        moved.globals.is_some(),
        moved.exports.is_some(),
        moved.start.is_some(),
        moved.elems.is_some(),
        moved.datas.is_some(),
    ]
}

// Moves what names each kind, up to the first move that is refused. Says whether the lists are right.
fn shift_each(alloc: Global, parts: &Parts) -> Result<bool, ShiftFault> {
    let mut are_right = true;
    for (kind, wanted) in MOVES {
        let moved = shift_lists(alloc, parts, kind, 1)?;
        are_right = are_right && lists_of(&moved) == wanted;
    }
    Ok(are_right)
}

/// `shift_lists` of each kind, which moves all lists that there are.
pub(crate) fn shifts_lists(alloc: Global) -> Outcome {
    match read(alloc, ALL_OF_ONE) {
        Ok(module) => and_drop(shifts_lists_of(alloc, &module), module),
        Err(_) => Outcome::NO_SAMPLE,
    }
}

fn shifts_lists_of(alloc: Global, module: &Module) -> Outcome {
    call_begins(alloc);
    let answer = shift_each(alloc, module.parts());
    call_ends(alloc);
    match answer {
        Ok(is_right) => Outcome::answered(is_right),
        Err(fault) => {
            let is_memory = fault == ShiftFault::Memory;
            Outcome::refused(is_memory && is_written_as(alloc, module, ALL_OF_ONE))
        }
    }
}
