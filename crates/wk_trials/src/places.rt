//! Calls of `wk_place`.

use crate::mark::{call_begins, call_ends};
use std::alloc::Global;
use wk_bytes::{OutOfMemory, ReadFault, ReadKind};
use wk_check::{Fault, FaultKind, Place};
use wk_module::{Profile, Token, TokenReader};
use wk_place::{Located, entry_of_fault, func_of_fault, locate, read_token};
use wk_samples::outcome::Outcome;

// Two types, a function, two globals, and a body with a local, a `block`, a `br_table` and two `end`s.
const MODULE: &[u8] = b"\0asm\x01\0\0\0\
    \x01\x08\x02\x60\x01\x7f\0\x60\0\0\
    \x03\x02\x01\x01\
    \x06\x0b\x02\x7f\0\x41\0\x0b\x7e\0\x42\0\x0b\
    \x0a\x0f\x01\x0d\x01\x01\x7f\x02\x40\x41\0\x0e\x01\0\0\x0b\x0b";

// A type, a function, and a body whose `block` holds no instruction but a byte that is none.
const BROKEN: &[u8] = b"\0asm\x01\0\0\0\
    \x01\x04\x01\x60\0\0\
    \x03\x02\x01\0\
    \x0a\x08\x01\x06\0\x02\x40\xff\x0b\x0b";

// A type, a function, a table, and a segment of two functions, of which the second is not there.
const SEGMENT: &[u8] = b"\0asm\x01\0\0\0\
    \x01\x04\x01\x60\0\0\
    \x03\x02\x01\0\
    \x04\x04\x01\x70\0\x02\
    \x09\x08\x01\0\x41\0\x0b\x02\0\x01\
    \x0a\x04\x01\x02\0\x0b";

/// A call that looks for a place.
#[derive(Clone, Copy)]
pub(crate) enum Placing {
    /// `locate` of a type behind another one.
    Type,
    /// `locate` of a token of a global behind another one.
    Global,
    /// `locate` of the last token of a body.
    Code,
    /// `read_token` of a `br_table`.
    Token,
    /// `func_of_fault`.
    Func,
    /// `entry_of_fault`.
    Entry,
}

impl Placing {
    /// Runs it.
    pub(crate) fn run(self, alloc: Global) -> Outcome {
        match self {
            Placing::Type => locates(alloc, (1, 1, None), (15, None)),
            Placing::Global => locates(alloc, (6, 1, Some(1)), (34, None)),
            Placing::Code => locates(alloc, (10, 0, Some(4)), (51, Some(0))),
            Placing::Token => reads_token(alloc),
            Placing::Func => finds_func(alloc),
            Placing::Entry => finds_entry(alloc),
        }
    }
}

// `locate` of a section, an item and a token, which lie at an offset and in a function.
fn locates(alloc: Global, place: (u8, u32, Option<u32>), wanted: (u32, Option<u32>)) -> Outcome {
    let (section, item, token) = place;
    let fault = Fault {
        kind: FaultKind::TypeMismatch,
        place: Place {
            section,
            item,
            token,
        },
    };
    call_begins(alloc);
    let answer = locate(alloc, MODULE, Profile::Core, &fault);
    call_ends(alloc);
    let (offset, func) = wanted;
    match answer {
        Ok(located) => Outcome::answered(located == Some(Located { offset, func })),
        Err(OutOfMemory) => Outcome::refused(true),
    }
}

fn reads_token(alloc: Global) -> Outcome {
    let mut reader = TokenReader::new(alloc);
    call_begins(alloc);
    let answer = read_token(&mut reader, MODULE, Profile::Core, 46);
    call_ends(alloc);
    let wanted = Token::BrTable {
        start: 0,
        len: 1,
        other: 0,
    };
    match answer {
        Ok(token) => Outcome::answered(token == Some(wanted) && reader.labels().len() == 1),
        Err(OutOfMemory) => Outcome::refused(true),
    }
}

fn finds_func(alloc: Global) -> Outcome {
    let fault = ReadFault {
        kind: ReadKind::UnknownOpcode,
        at: 25,
    };
    call_begins(alloc);
    let answer = func_of_fault(alloc, BROKEN, Profile::Core, &fault);
    call_ends(alloc);
    match answer {
        Ok(func) => Outcome::answered(func == Some(0)),
        Err(OutOfMemory) => Outcome::refused(true),
    }
}

fn finds_entry(alloc: Global) -> Outcome {
    let fault = Fault {
        kind: FaultKind::UnknownFunc,
        place: Place {
            section: 9,
            item: 0,
            token: None,
        },
    };
    call_begins(alloc);
    let answer = entry_of_fault(alloc, SEGMENT, Profile::Core, &fault);
    call_ends(alloc);
    match answer {
        Ok(entry) => Outcome::answered(entry == Some(1)),
        Err(OutOfMemory) => Outcome::refused(true),
    }
}
