//! Edits of a module of 1,000 functions, none of which an edit types or writes again.

use crate::edits::edit_of;
use crate::mark::{call_begins, call_ends};
use crate::same::{are_same, is_session_of};
use crate::scenario::and_drop;
use std::alloc::{AllocError, Global};
use wk_module::Profile;
use wk_samples::outcome::{Counts, Outcome};
use wk_session::{Edit, EditFault, Reply, Session, Work};

// A type, and the sizes and counts of the sections behind it.
const FRONT: &[u8] = b"\0asm\x01\0\0\0\x01\x04\x01\x60\x00\x00\x03\xea\x07\xe8\x07";

const FRONT_OF_CODES: &[u8] = b"\x0a\xf2\x2e\xe8\x07";

// A constant that is dropped, behind its size.
const CODE: &[u8] = b"\x05\x00\x41\x00\x1a\x0b";

const FUNCTIONS: usize = 1000;

// A module of functions of one type.
fn module(alloc: Global) -> Result<Vec<u8>, AllocError> {
    let mut bytes = Vec::from_slice(alloc, FRONT)?;
    bytes.resize(FRONT.len() + FUNCTIONS, 0)?;
    bytes.extend_from_slice(FRONT_OF_CODES)?;
    for _ in 0..FUNCTIONS {
        bytes.extend_from_slice(CODE)?;
    }
    Ok(bytes)
}

/// `Session::apply` of the line of a script.
pub(crate) fn edits(alloc: Global, line: &[u8]) -> Outcome {
    match edit_of(alloc, line) {
        Some(edit) => edits_by(alloc, &edit),
        None => Outcome::NO_SAMPLE,
    }
}

fn edits_by(alloc: Global, edit: &Edit) -> Outcome {
    match module(alloc) {
        Ok(bytes) => edits_bytes(alloc, &bytes, edit),
        Err(AllocError) => Outcome::NO_SAMPLE,
    }
}

fn edits_bytes(alloc: Global, bytes: &[u8], edit: &Edit) -> Outcome {
    match Session::open(alloc, bytes) {
        Ok(mut session) => and_drop(edits_in(alloc, &mut session, bytes, edit), session),
        Err(_) => Outcome::NO_SAMPLE,
    }
}

fn edits_in(alloc: Global, session: &mut Session, bytes: &[u8], edit: &Edit) -> Outcome {
    match Session::open(alloc, bytes) {
        Ok(mut apart) => edits_beside(alloc, session, &mut apart, bytes, edit),
        Err(_) => Outcome::NO_SAMPLE,
    }
}

fn edits_beside(
    alloc: Global,
    session: &mut Session,
    apart: &mut Session,
    bytes: &[u8],
    edit: &Edit,
) -> Outcome {
    call_begins(alloc);
    let reply = session.apply(edit);
    call_ends(alloc);
    was_replied(alloc, session, apart, bytes, edit, reply)
}

fn counts_of(work: Work) -> Counts {
    let Work {
        typed,
        encoded,
        sections,
    } = work;
    Counts {
        typed,
        encoded,
        sections,
    }
}

// What an edit was replied, beside a session apart that is made the same.
fn was_replied(
    alloc: Global,
    session: &Session,
    apart: &mut Session,
    bytes: &[u8],
    edit: &Edit,
    reply: Reply,
) -> Outcome {
    match reply {
        Err(EditFault::Memory) => {
            Outcome::refused(is_session_of(alloc, session, Profile::Core, bytes))
        }
        Ok(work) if apart.apply(edit) == reply && are_same(alloc, session, apart) => {
            Outcome::FineOf(counts_of(work))
        }
        _ => Outcome::answered(false),
    }
}
