//! `Session::write_with`.

ghost use Rattle.std.specs.Prelude.{◌≡◌, ◌≤◌, ◌∷◌, [], IfSome, Some, length, map};
ghost use Rattle.wk_bytes.specs.Frames.{limit};
ghost use Rattle.wk_pieces.specs.Overlays.{with_items};
ghost use Rattle.wk_pieces.specs.Pieces.{code_of};
ghost use Rattle.wk_pieces.specs.Recoded.{encoded_with};

use crate::mark::{call_begins, call_ends};
use crate::same::is_session_of;
use crate::scenario::and_drop;
use crate::sinks::{Room, holds, holds_begun, sink};
use std::alloc::Global;
use wk_bytes::{Items, Out, Sink};
use wk_list::Shape;
use wk_module::{Body, Lists, Profile, encode_body, len_of_lists, read_body};
use wk_samples::edits::VALID;
use wk_samples::outcome::Outcome;
use wk_samples::sections::{Sections, with_sections};
use wk_session::{Session, WriteFault};

// Two constants that are added.
const BODY: &[u8] = b"\x00\x42\x05\x42\x06\x7c\x0b";

// `VALID`, which has one function, with it.
const WITH_BODY: Sections = &[(7, b"\x0a\x09\x01\x07\x00\x42\x05\x42\x06\x7c\x0b")];

/// `Session::write_with` of another code in the place of its own, to a sink with that much room.
pub(crate) fn writes_with(alloc: Global, room: Room) -> Outcome {
    match Session::open(alloc, VALID) {
        Ok(session) => and_drop(writes_of(alloc, &session, room), session),
        Err(_) => Outcome::NO_SAMPLE,
    }
}

fn writes_of(alloc: Global, session: &Session, room: Room) -> Outcome {
    match (read_body(alloc, BODY), sink(alloc, room)) {
        (Ok(body), Some(sink)) => writes_body(alloc, session, &body, sink),
        _ => Outcome::NO_SAMPLE,
    }
}

// A code for the one function that there is.
fn one_code(alloc: Global, code: Vec<u8>) -> Option<Vec<Option<Items<u8>>>>
    ensures { IfSome result (λ codes. codes.items ≡ Some code.items ∷ []) }
{
    let mut codes = Vec::new(alloc);
    codes.push(Some(Items::from_vec(code))).ok()?;
    Some(codes)
}

fn writes_body(alloc: Global, session: &Session, body: &Body, sink: Sink) -> Outcome
    requires { ⟦<Sink as Out>⟧.failed sink ≡ 0 }
{
    let parts = session.parts();
    let [func] = parts.funcs.as_slice() else {
        return Outcome::NO_SAMPLE;
    };
    let Ok(code) = encode_body(alloc, body) else {
        return Outcome::NO_SAMPLE;
    };
    let types = [func.ty];
    let sizes = [code.len() as u32];
    let Some(_len) = len_of_lists(&Lists::of(parts, &types), &sizes, &parts.customs) else {
        return Outcome::NO_SAMPLE;
    };
    let Some(codes) = one_code(alloc, code) else {
        return Outcome::NO_SAMPLE;
    };
    writes_codes(alloc, session, &codes, sink)
}

fn writes_codes(
    alloc: Global,
    session: &Session,
    codes: &Vec<Option<Items<u8>>>,
    mut sink: Sink,
) -> Outcome
    requires failed { ⟦<Sink as Out>⟧.failed sink ≡ 0 }
    requires many { length codes.now.items ≡ length (session.now).funcs }
    requires fits { length (encoded_with session.now
        (with_items (map code_of (session.now).funcs) codes.now.items))
        ≤ limit }
{
    call_begins(alloc);
    let answer = session.write_with(codes, &mut sink);
    call_ends(alloc);
    let is_kept = is_session_of(alloc, session, Profile::Core, VALID);
    let Some(wanted) = with_sections(alloc, VALID, WITH_BODY) else {
        return Outcome::NO_SAMPLE;
    };
    match answer {
        Ok(()) => Outcome::answered(is_kept && holds(sink, 0, &wanted)),
        Err(WriteFault::Write) => Outcome::refused(is_kept && holds_begun(sink, 1, &wanted)),
        Err(WriteFault::Memory) => Outcome::Wrong("writing took memory of its own"),
    }
}
