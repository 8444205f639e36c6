//! Calls of `wk_body` on bodies. Those that give the same kind of answer are one function.

ghost use Rattle.std.specs.Prelude.{◌≤◌, length};

use crate::mark::{call_begins, call_ends};
use crate::scenario::and_drop;
use crate::sinks::{Room, has_appended, vector};
use std::alloc::{AllocError, Global};
use std::collections::BTreeSet;
use wk_body::{
    Body, EncodeFault, Moving, Profile, Ref, Scratch, ShiftFault, Shifts, TokenReader, append_body,
    append_shifted, append_shifts, code_bytes, encode_body, expr_movement, moving_of_code,
    next_groups, read_body, read_body_in, refs, shift, shift_uses, uses,
};
use wk_bytes::{Cursor, LIMIT, OutOfMemory, ReadFault, ReadKind};
use wk_samples::bodies::{
    BODY, PADDED, REFERRING, WIDE, WIDE_PADDED, WIDE_WITH_FUNC_MOVED, WITH_FUNC_MOVED,
};
use wk_samples::outcome::Outcome;

/// What a reading answers where memory is wanting.
pub(crate) const NO_MEMORY: ReadFault = ReadFault {
    kind: ReadKind::Memory,
    at: 0,
};

// The index of the type of a function with such a code.
const OWN_TYPE: u32 = 4;

// What `uses` finds beside what the code refers to.
const OWN_REF: [Ref; 1] = [Ref::Ty(OWN_TYPE)];

/// The code of a function in a profile, and what its calls give.
#[derive(Clone, Copy)]
pub(crate) struct Code {
    profile: Profile,
    /// With padded integers.
    padded: &'static [u8],
    /// In its written form.
    written: &'static [u8],
    /// With the function 5 and those above it moved.
    moved: &'static [u8],
    /// What it refers to.
    refs: &'static [Ref],
}

/// Code of WebAssembly 1.0.
pub(crate) const CORE_CODE: Code = Code {
    profile: Profile::Core,
    padded: PADDED,
    written: BODY,
    moved: WITH_FUNC_MOVED,
    refs: &[
        Ref::Ty(3),
        Ref::Func(5),
        Ref::Global(7),
        Ref::Table,
        Ref::Memory,
    ],
};

/// Code that only the wider profile has.
pub(crate) const WIDE_CODE: Code = Code {
    profile: Profile::Extended,
    padded: WIDE_PADDED,
    written: WIDE,
    moved: WIDE_WITH_FUNC_MOVED,
    refs: &[
        Ref::Ty(3),
        Ref::Func(5),
        Ref::Global(7),
        Ref::Table,
        Ref::Memory,
        Ref::Ty(64),
    ],
};

// Whether the body is written as these bytes.
fn is_body(alloc: Global, body: &Body, bytes: &[u8]) -> bool {
    match encode_body(alloc, body) {
        Ok(written) => written.as_slice() == bytes,
        Err(_) => false,
    }
}

/// Whether it is the length of these bytes.
pub(crate) fn is_length(len: Option<u32>, bytes: &[u8]) -> bool {
    match len {
        Some(len) => len as usize == bytes.len(),
        None => false,
    }
}

// Whether these references are found.
fn has_all(found: &BTreeSet<Ref>, wanted: &[Ref]) -> bool {
    for reference in wanted {
        if !found.contains(reference) {
            return false;
        }
    }
    true
}

/// A call that reads a code.
#[derive(Clone, Copy)]
pub(crate) enum ReadCode {
    /// `read_body`, or `read_body_in` of the wider profile.
    Body,
    /// `Scratch::read_body` in a room that was used before.
    Again,
    /// `Scratch::written_form`.
    Form,
    /// `Scratch::written_len`.
    Len,
    /// `encode_body`.
    Encode,
    /// `code_bytes` of bytes that are not the shortest.
    Shorten,
    /// `next_groups`, and `TokenReader::next` up to the end.
    Tokens,
}

impl ReadCode {
    /// The call.
    pub(crate) fn run(self, alloc: Global, code: Code) -> Outcome {
        if code.padded.len() > LIMIT {
            return Outcome::NO_SAMPLE;
        }
        match self {
            ReadCode::Body | ReadCode::Again => code.reads(alloc, matches!(self, ReadCode::Again)),
            ReadCode::Form | ReadCode::Len | ReadCode::Tokens => self.looks(alloc, code),
            ReadCode::Encode => code.encodes(alloc, false),
            ReadCode::Shorten => code.encodes(alloc, true),
        }
    }

    // A call that gives no body.
    fn looks(self, alloc: Global, code: Code) -> Outcome
        requires { length code.padded.now ≤ LIMIT }
    {
        let mut scratch = Scratch::new(alloc);
        call_begins(alloc);
        let answer = self.is_right(alloc, code, &mut scratch);
        call_ends(alloc);
        match answer {
            Ok(is_right) => Outcome::answered(is_right),
            Err(fault) => Outcome::refused(fault == NO_MEMORY),
        }
    }

    // Whether it answers the written form, its length, or each token.
    fn is_right(self, alloc: Global, code: Code, scratch: &mut Scratch) -> Result<bool, ReadFault>
        requires { length code.padded.now ≤ LIMIT }
    {
        let cursor = Cursor::new(code.padded);
        match self {
            ReadCode::Form => {
                Ok(scratch.written_form(alloc, &cursor, code.profile)? == code.written)
            }
            ReadCode::Len => {
                let len = scratch.written_len(alloc, &cursor, code.profile)?;
                Ok(is_length(Some(len), code.written))
            }
            _ => has_tokens(alloc, code.profile, cursor),
        }
    }
}

// Whether two groups and the tokens of a body come, one after the other, up to its end.
fn has_tokens(alloc: Global, profile: Profile, mut cursor: Cursor<'_>) -> Result<bool, ReadFault> {
    let mut groups = Vec::new(alloc);
    let mut reader = TokenReader::new(alloc);
    next_groups(&mut groups, &mut cursor)?;
    reader.begin();
    for _ in 0..cursor.rest().len() {
        if reader.next(profile, &mut cursor)?.is_none() {
            break;
        }
    }
    Ok(cursor.rest().is_empty() && groups.len() == 2)
}

impl Code {
    fn read(self, alloc: Global) -> Result<Body, ReadFault> {
        match self.profile {
            Profile::Core => read_body(alloc, self.padded),
            profile => read_body_in(alloc, self.padded, profile),
        }
    }

    // Reads the body, in a room that was used before or in none.
    fn reads(self, alloc: Global, in_room: bool) -> Outcome
        requires { length self.padded.now ≤ LIMIT }
    {
        let mut scratch = Scratch::new(alloc);
        let cursor = Cursor::new(self.padded);
        if in_room && scratch.read_body(alloc, &cursor, self.profile).is_err() {
            return Outcome::NO_SAMPLE;
        }
        call_begins(alloc);
        let answer = if in_room {
            scratch.read_body(alloc, &cursor, self.profile)
        } else {
            self.read(alloc)
        };
        call_ends(alloc);
        let outcome = match &answer {
            Ok(body) => Outcome::answered(is_body(alloc, body, self.written)),
            Err(fault) => Outcome::refused(*fault == NO_MEMORY),
        };
        and_drop(outcome, answer)
    }

    // Encodes the body, by itself or by the bytes that spell it.
    fn encodes(self, alloc: Global, by_bytes: bool) -> Outcome {
        let Ok(body) = read_body_in(alloc, self.padded, self.profile) else {
            return Outcome::NO_SAMPLE;
        };
        call_begins(alloc);
        let answer = if by_bytes {
            code_bytes(alloc, &body, self.padded)
        } else {
            encode_body(alloc, &body)
        };
        call_ends(alloc);
        let outcome = match &answer {
            Ok(bytes) => Outcome::answered(bytes.as_slice() == self.written),
            Err(fault) => Outcome::refused(
                *fault == EncodeFault::Memory && is_body(alloc, &body, self.written),
            ),
        };
        and_drop(outcome, (answer, body))
    }
}

/// A call that is lent a body.
#[derive(Clone, Copy)]
pub(crate) enum OfBody {
    /// `append_body`.
    Append,
    /// `append_shifted` of functions.
    AppendShifted,
    /// `append_shifts` of functions, in the written form.
    AppendShifts,
    /// `shift` of functions.
    Shift,
    /// `Body::clone`.
    Clone,
    /// `shift_uses` of functions.
    ShiftUses,
    /// `refs`.
    Refs,
    /// `uses`.
    Uses,
}

impl OfBody {
    /// The call.
    pub(crate) fn run(self, alloc: Global, code: Code) -> Outcome {
        match code.read(alloc) {
            Ok(body) => self.run_on(alloc, code, &body),
            Err(_) => Outcome::NO_SAMPLE,
        }
    }

    fn run_on(self, alloc: Global, code: Code, body: &Body) -> Outcome {
        match self {
            OfBody::Append | OfBody::AppendShifted | OfBody::AppendShifts => {
                code.appends(alloc, self, body)
            }
            OfBody::Shift => code.copies(alloc, body, true),
            OfBody::Clone => code.copies(alloc, body, false),
            OfBody::ShiftUses => code.shifts_uses(alloc, body),
            OfBody::Refs => code.finds(alloc, body, &[]),
            OfBody::Uses => code.finds(alloc, body, &OWN_REF),
        }
    }
}

// The functions from 5 on move by one.
const SHIFTS: Shifts = Shifts {
    funcs_from: 5,
    funcs_by: 1,
    globals_from: 0,
    globals_by: 0,
};

impl Code {
    // Appends the body, or what it becomes.
    fn appends(self, alloc: Global, call: OfBody, body: &Body) -> Outcome {
        let (Some(mut bytes), Ok(code)) = (vector(alloc, Room::Scant), encode_body(alloc, body))
        else {
            return Outcome::NO_SAMPLE;
        };
        if expr_movement(body.expr(), Moving::Func, 5).stuck {
            return Outcome::NO_SAMPLE;
        }
        call_begins(alloc);
        let answer = match call {
            OfBody::Append => append_body(&mut bytes, body).and(Ok(true)),
            OfBody::AppendShifted => {
                append_shifted(&mut bytes, body, &code, Moving::Func, 5).and(Ok(true))
            }
            _ => append_shifts(&mut bytes, self.written, SHIFTS),
        };
        call_ends(alloc);
        let wanted = match call {
            OfBody::Append => self.written,
            _ => self.moved,
        };
        match answer {
            Ok(is_done) => Outcome::answered(is_done && has_appended(&bytes, wanted)),
            Err(OutOfMemory) => Outcome::refused(has_appended(&bytes, b"")),
        }
    }

    // Copies the body, with or without a move.
    fn copies(self, alloc: Global, body: &Body, moves: bool) -> Outcome {
        call_begins(alloc);
        let answer = if moves {
            shift(alloc, body, Moving::Func, 5)
        } else {
            let copy: Result<Body, AllocError> = body.clone();
            copy.or(Err(ShiftFault::Memory))
        };
        call_ends(alloc);
        let wanted = if moves { self.moved } else { self.written };
        let outcome = match &answer {
            Ok(copy) => Outcome::answered(is_body(alloc, copy, wanted)),
            Err(fault) => Outcome::refused(
                *fault == ShiftFault::Memory && is_body(alloc, body, self.written),
            ),
        };
        and_drop(outcome, answer)
    }

    // Whether what it refers to is found, with these, and nothing else.
    fn are_refs(self, found: &BTreeSet<Ref>, own: &[Ref]) -> bool {
        let count = self.refs.len().saturating_add(own.len());
        has_all(found, self.refs) && has_all(found, own) && found.len() == count
    }

    // What its code refers to, or with its own type what the function does.
    fn finds(self, alloc: Global, body: &Body, own: &[Ref]) -> Outcome {
        call_begins(alloc);
        let answer = if own.is_empty() {
            refs(alloc, body)
        } else {
            uses(alloc, OWN_TYPE, body)
        };
        call_ends(alloc);
        let outcome = match &answer {
            Ok(found) => Outcome::answered(self.are_refs(found, own)),
            Err(OutOfMemory) => Outcome::refused(is_body(alloc, body, self.written)),
        };
        and_drop(outcome, answer)
    }

    // What the references are that moving the body leaves.
    fn uses_of_moved(self, alloc: Global, body: &Body) -> Option<BTreeSet<Ref>> {
        let moved = shift(alloc, body, Moving::Func, 5).ok()?;
        uses(alloc, OWN_TYPE, &moved).ok()
    }

    fn shifts_uses(self, alloc: Global, body: &Body) -> Outcome {
        // The proof asks what this says: of what the function refers to there moves what moves of the body.
        moving_of_code();
        let (Ok(found), Some(wanted)) = (
            uses(alloc, OWN_TYPE, body),
            self.uses_of_moved(alloc, body),
        ) else {
            return Outcome::NO_SAMPLE;
        };
        if expr_movement(body.expr(), Moving::Func, 5).stuck {
            return Outcome::NO_SAMPLE;
        }
        call_begins(alloc);
        let answer = shift_uses(alloc, &found, Moving::Func, 5);
        call_ends(alloc);
        match answer {
            Ok(moved) => Outcome::answered(moved == wanted),
            Err(OutOfMemory) => Outcome::refused(self.are_refs(&found, &OWN_REF)),
        }
    }
}

/// `refs` of twenty functions.
pub(crate) fn finds_many(alloc: Global) -> Outcome {
    let Ok(body) = read_body(alloc, REFERRING) else {
        return Outcome::NO_SAMPLE;
    };
    call_begins(alloc);
    let answer = refs(alloc, &body);
    call_ends(alloc);
    let outcome = match &answer {
        Ok(found) => Outcome::answered(found.len() == 20),
        Err(OutOfMemory) => Outcome::refused(is_body(alloc, &body, REFERRING)),
    };
    and_drop(outcome, (answer, body))
}
