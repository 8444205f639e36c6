//! Calls of `wk_check` and `wk_judging`.

ghost use Rattle.wk_module.specs.Listed.{AreNumbered, listed};

use crate::bodies::NO_MEMORY;
use crate::mark::{call_begins, call_ends};
use crate::modules::Sample;
use crate::scenario::and_drop;
use std::alloc::Global;
use wk_bytes::{Cursor, OutOfMemory, RawSection, ReadFault};
use wk_check::{
    BodyVerdict, Meter, Verdict, Whole, first_code_fault, judge, judge_around, judge_body,
    verdict_with_export, verdict_with_global, verdict_with_import, verdict_with_type,
};
use wk_judging::{Validator, judge_bytes};
use wk_module::Profile::Core;
use wk_module::{CodeReader, Func, Lists, Module, Scratch, SectionReader, ValType};
use wk_samples::outcome::Outcome;
use wk_typing::{FaultKind, Flaw, Rooms, next_constant_flaw, type_encoded_body};

// The types of the functions that the modules define which have everything that moves.
const TYPES: &[u32] = &[1, 0];

// What judging a valid module answered.
fn judged(answer: Result<Verdict, OutOfMemory>) -> Outcome {
    match answer {
        Ok(verdict) => Outcome::answered(verdict == Verdict::Valid),
        Err(OutOfMemory) => Outcome::refused(true),
    }
}

/// `judge` of a valid module.
pub(crate) fn judges(alloc: Global, sample: Sample) -> Outcome {
    match sample.read(alloc) {
        Ok(module) => and_drop(judges_valid(alloc, &module), module),
        Err(_) => Outcome::NO_SAMPLE,
    }
}

fn judges_valid(alloc: Global, module: &Module) -> Outcome {
    call_begins(alloc);
    let answer = judge(alloc, module);
    call_ends(alloc);
    judged(answer)
}

/// `judge_bytes` of a valid module.
pub(crate) fn judges_bytes(alloc: Global, sample: Sample) -> Outcome {
    call_begins(alloc);
    let answer = judge_bytes(alloc, sample.bytes, sample.profile);
    call_ends(alloc);
    match answer {
        Ok(verdict) => Outcome::answered(verdict == Verdict::Valid),
        Err(fault) => Outcome::refused(fault == NO_MEMORY),
    }
}

/// `Validator::judge_bytes` of a valid module.
#[derive(Clone, Copy)]
pub(crate) enum Validate {
    /// By one that has judged nothing.
    New,
    /// By one that has judged an invalid module and a malformed one.
    Used,
    /// By one that has judged this module twice: then each room has grown.
    Again,
    /// By one that has judged this module, and gave its room back.
    Shrunk,
}

// A function without results, of `i32.const 0`, `block` and two `end`s: it leaves an operand.
const INVALID: &[u8] =
    b"\0asm\x01\0\0\0\x01\x04\x01\x60\0\0\x03\x02\x01\0\x0a\x09\x01\x07\0\x41\0\x02\x40\x0b\x0b";

// The same, whose code ends in a block.
const CUT: &[u8] =
    b"\0asm\x01\0\0\0\x01\x04\x01\x60\0\0\x03\x02\x01\0\x0a\x08\x01\x06\0\x41\0\x02\x40\x0b";

impl Validate {
    // Judges what comes before. Says whether that was judged as it should be.
    fn prepare(self, alloc: Global, sample: Sample, validator: &mut Validator) -> bool {
        match self {
            Validate::New => true,
            Validate::Used => {
                let invalid = validator.judge_bytes(alloc, INVALID, sample.profile);
                let cut = validator.judge_bytes(alloc, CUT, sample.profile);
                matches!(invalid, Ok(Verdict::Invalid(_))) && cut.is_err()
            }
            Validate::Again => {
                let first = validator.judge_bytes(alloc, sample.bytes, sample.profile);
                let second = validator.judge_bytes(alloc, sample.bytes, sample.profile);
                first == Ok(Verdict::Valid) && second == first
            }
            Validate::Shrunk => {
                let answer = validator.judge_bytes(alloc, sample.bytes, sample.profile);
                validator.shrink(alloc);
                answer == Ok(Verdict::Valid)
            }
        }
    }

    /// Makes the call, and another one behind it, which is to answer whatever this one did.
    pub(crate) fn run(self, alloc: Global, sample: Sample) -> Outcome {
        let mut validator = Validator::new(alloc);
        if !self.prepare(alloc, sample, &mut validator) {
            return Outcome::NO_SAMPLE;
        }
        call_begins(alloc);
        let answer = validator.judge_bytes(alloc, sample.bytes, sample.profile);
        call_ends(alloc);
        let next = validator.judge_bytes(alloc, sample.bytes, sample.profile);
        let serves_on = next == Ok(Verdict::Valid);
        match answer {
            Ok(verdict) => Outcome::answered(serves_on && verdict == Verdict::Valid),
            Err(fault) => Outcome::refused(serves_on && fault == NO_MEMORY),
        }
    }
}

// Whether each code of a section is valid, by rooms that are lent.
fn are_valid(
    alloc: Global,
    whole: &Whole<'_>,
    lists: &Lists<'_>,
    section: &RawSection<'_>,
    rooms: &mut Rooms,
) -> Result<bool, ReadFault> {
    let mut codes = CodeReader::open(section, lists.funcs.len())?;
    let mut are_valid = true;
    for ty in lists.funcs {
        let code = codes.next_code()?;
        let verdict = type_encoded_body(alloc, whole, *ty, lists.profile, &code, rooms)?;
        are_valid = are_valid && verdict == BodyVerdict::Valid;
    }
    Ok(are_valid)
}

/// `type_encoded_body` of each code of a valid module, in rooms that have typed them before.
pub(crate) fn types_codes(alloc: Global, sample: Sample) -> Outcome {
    let mut rooms = Rooms::new(alloc);
    let reader = SectionReader::new(alloc, sample.bytes, sample.profile);
    match reader.up_to_code(alloc, &mut rooms.scratch) {
        Ok((reader, section)) => match section {
            Some(section) => types_each(alloc, &reader.lists(), &section, &mut rooms),
            None => Outcome::NO_SAMPLE,
        },
        Err(_) => Outcome::NO_SAMPLE,
    }
}

fn types_each(
    alloc: Global,
    lists: &Lists<'_>,
    section: &RawSection<'_>,
    rooms: &mut Rooms,
) -> Outcome {
    let Ok(whole) = Whole::of(alloc, *lists) else {
        return Outcome::NO_SAMPLE;
    };
    let before = are_valid(alloc, &whole, lists, section, rooms);
    call_begins(alloc);
    let answer = are_valid(alloc, &whole, lists, section, rooms);
    call_ends(alloc);
    match answer {
        Ok(are_valid) => Outcome::answered(are_valid && before == Ok(true)),
        Err(fault) => Outcome::refused(fault == NO_MEMORY),
    }
}

// A constant of each type and its end, one behind the other.
const CONSTANTS: &[u8] =
    b"\x41\x7f\x0b\x42\x80\x01\x0b\x43\0\0\x80\x3f\x0b\x44\0\0\0\0\0\0\xf0\x3f\x0b";

const CONSTANT_TYPES: [ValType; 4] = [ValType::I32, ValType::I64, ValType::F32, ValType::F64];

// A constant, an instruction that may not stand behind it, and the end.
const NOT_CONSTANT: &[u8] = b"\x41\0\x01\x0b";

/// `next_constant_flaw` where nothing refers to a module.
#[derive(Clone, Copy)]
pub(crate) enum Constants {
    /// Of constants alone, which are told from their bytes.
    Plain,
    /// Of an expression that is not constant, which is read into tokens.
    Wrong,
}

impl Constants {
    // Whether the answers are right.
    fn judge(self, alloc: Global, whole: &Whole<'_>, rooms: &mut Rooms) -> Result<bool, ReadFault> {
        match self {
            Constants::Plain => {
                let mut cursor = Cursor::new(CONSTANTS);
                let mut are_right = true;
                for ty in CONSTANT_TYPES {
                    let flaw = next_constant_flaw(alloc, whole, ty, Core, &mut cursor, rooms)?;
                    are_right = are_right && flaw.is_none();
                }
                Ok(are_right && cursor.rest().is_empty())
            }
            Constants::Wrong => {
                let mut cursor = Cursor::new(NOT_CONSTANT);
                let ty = ValType::I32;
                let flaw = next_constant_flaw(alloc, whole, ty, Core, &mut cursor, rooms)?;
                let wanted = Flaw {
                    kind: FaultKind::ConstantExpected,
                    token: Some(1),
                };
                Ok(flaw == Some(wanted) && cursor.rest().is_empty())
            }
        }
    }

    // Makes the calls in rooms that hold nothing yet, and again where memory was refused.
    fn run_beside(self, alloc: Global, lists: &Lists<'_>) -> Outcome {
        let Ok(whole) = Whole::of(alloc, *lists) else {
            return Outcome::NO_SAMPLE;
        };
        let mut rooms = Rooms::new(alloc);
        call_begins(alloc);
        let answer = self.judge(alloc, &whole, &mut rooms);
        call_ends(alloc);
        let serves_on = self.judge(alloc, &whole, &mut rooms) == Ok(true);
        match answer {
            Ok(are_right) => Outcome::answered(serves_on && are_right),
            Err(fault) => Outcome::refused(serves_on && fault == NO_MEMORY),
        }
    }

    /// Makes the calls.
    pub(crate) fn run(self, alloc: Global, sample: Sample) -> Outcome {
        let mut scratch = Scratch::new(alloc);
        let reader = SectionReader::new(alloc, sample.bytes, sample.profile);
        match reader.up_to_code(alloc, &mut scratch) {
            Ok((reader, _)) => self.run_beside(alloc, &reader.lists()),
            Err(_) => Outcome::NO_SAMPLE,
        }
    }
}

/// A call that is lent a valid module in which all that can move does.
#[derive(Clone, Copy)]
pub(crate) enum OfValid {
    /// `judge_around`.
    Around,
    /// `Whole::of`.
    Whole,
    /// `judge_body`, which counts the body also where it refuses.
    Body,
    /// `verdict_with_global` of a global that is there.
    WithGlobal,
    /// `verdict_with_type`, `verdict_with_import` and `verdict_with_export` of what is there, and `first_code_fault` of a valid body.
    Look,
}

// The lists of the module.
fn lists_of(module: &Module) -> Lists<'_>
    ensures { AreNumbered (listed result) }
{
    Lists::of(module.parts(), TYPES)
}

impl OfValid {
    /// The call.
    pub(crate) fn run(self, alloc: Global, sample: Sample) -> Outcome {
        match sample.read(alloc) {
            Ok(module) => and_drop(self.run_on(alloc, &module), module),
            Err(_) => Outcome::NO_SAMPLE,
        }
    }

    fn run_on(self, alloc: Global, module: &Module) -> Outcome {
        match self {
            OfValid::Around => judges_around(alloc, module),
            OfValid::Whole => sees_whole(alloc, module),
            OfValid::Body => judges_body(alloc, module),
            OfValid::WithGlobal => adds_global(alloc, module),
            OfValid::Look => looks(alloc, module),
        }
    }
}

fn judges_around(alloc: Global, module: &Module) -> Outcome {
    let lists = lists_of(module);
    call_begins(alloc);
    let answer = judge_around(alloc, &lists, None);
    call_ends(alloc);
    judged(answer)
}

fn sees_whole(alloc: Global, module: &Module) -> Outcome {
    let lists = lists_of(module);
    call_begins(alloc);
    let answer = Whole::of(alloc, lists);
    call_ends(alloc);
    match answer {
        Ok(_) => Outcome::answered(true),
        Err(OutOfMemory) => Outcome::refused(true),
    }
}

fn judges_body(alloc: Global, module: &Module) -> Outcome {
    match module.parts().funcs.as_slice().first() {
        Some(func) => judges_body_of(alloc, module, func),
        None => Outcome::NO_SAMPLE,
    }
}

fn judges_body_of(alloc: Global, module: &Module, func: &Func) -> Outcome {
    match Whole::of(alloc, lists_of(module)) {
        Ok(whole) => judges_func(alloc, &whole, func),
        Err(OutOfMemory) => Outcome::NO_SAMPLE,
    }
}

fn judges_func(alloc: Global, whole: &Whole<'_>, func: &Func) -> Outcome {
    let mut meter = Meter::new(alloc);
    call_begins(alloc);
    let answer = judge_body(whole, func.ty, &func.body, &mut meter);
    call_ends(alloc);
    match answer {
        Ok(verdict) => Outcome::answered(verdict == BodyVerdict::Valid && meter.typed() == 1),
        Err(OutOfMemory) => Outcome::refused(meter.typed() == 1),
    }
}

fn adds_global(alloc: Global, module: &Module) -> Outcome {
    let lists = lists_of(module);
    let Some(global) = module.parts().globals.as_slice().first() else {
        return Outcome::NO_SAMPLE;
    };
    call_begins(alloc);
    let answer = verdict_with_global(alloc, &lists, global.ty, &global.init);
    call_ends(alloc);
    judged(answer)
}

// A type and an import of a function come once more. An export does not, since another one has its name.
fn looks(alloc: Global, module: &Module) -> Outcome {
    let lists = lists_of(module);
    let (Some(ty), Some(import), Some(export)) = (
        lists.types.first(),
        lists.imports.first(),
        lists.exports.first(),
    ) else {
        return Outcome::NO_SAMPLE;
    };
    call_begins(alloc);
    let with_type = verdict_with_type(lists.profile, 0, ty);
    let with_import = verdict_with_import(&lists, import);
    let with_export = verdict_with_export(&lists, export);
    let fault = first_code_fault(&[BodyVerdict::Valid]);
    call_ends(alloc);
    let are_valid = with_type == Verdict::Valid && with_import == Verdict::Valid;
    Outcome::answered(are_valid && with_export != Verdict::Valid && fault.is_none())
}
