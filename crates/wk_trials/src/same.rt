//! Whether two sessions say the same.

use std::alloc::Global;
use std::collections::BTreeSet;
use wk_bytes::Sink;
use wk_list::Part;
use wk_module::{Profile, Ref};
use wk_session::Session;

const PARTS: [Part; 4] = [Part::Headers, Part::Details, Part::Code, Part::Uses];

// More functions than any sample defines.
const ENTRIES: u32 = 4;

// The bytes that a session writes.
fn written(alloc: Global, session: &Session) -> Option<Vec<u8>> {
    let mut sink = Sink::new(Vec::new(alloc));
    session.write(&mut sink).ok()?;
    Some(sink.into_inner())
}

/// Whether the session writes these bytes.
pub(crate) fn is_written(alloc: Global, session: &Session, bytes: &[u8]) -> bool {
    match written(alloc, session) {
        Some(written) => written.as_slice() == bytes,
        None => false,
    }
}

// A part of the listing.
fn listed(alloc: Global, session: &Session, part: Part) -> Option<Vec<u8>> {
    let mut sink = Sink::new(Vec::new(alloc));
    session.list(part, &mut sink).ok()?;
    Some(sink.into_inner())
}

fn are_listed_alike(alloc: Global, session: &Session, other: &Session, part: Part) -> bool {
    match listed(alloc, session, part) {
        Some(text) => is_listed(alloc, other, part, &text),
        None => false,
    }
}

fn is_listed(alloc: Global, session: &Session, part: Part, text: &[u8]) -> bool {
    match listed(alloc, session, part) {
        Some(listed) => listed.as_slice() == text,
        None => false,
    }
}

fn are_same_refs(refs: Option<&BTreeSet<Ref>>, other: Option<&BTreeSet<Ref>>) -> bool {
    let (Some(refs), Some(other)) = (refs, other) else {
        return refs.is_none() && other.is_none();
    };
    for reference in refs {
        if !other.contains(reference) {
            return false;
        }
    }
    refs.len() == other.len()
}

fn are_used_alike(session: &Session, other: &Session) -> bool {
    for entry in 0..ENTRIES {
        if !are_same_refs(session.uses(entry), other.uses(entry)) {
            return false;
        }
    }
    true
}

fn are_all_listed_alike(alloc: Global, session: &Session, other: &Session) -> bool {
    for part in PARTS {
        if !are_listed_alike(alloc, session, other, part) {
            return false;
        }
    }
    true
}

/// Whether verdict, length, bytes, all parts of the listing and what the functions refer to are the same.
pub(crate) fn are_same(alloc: Global, session: &Session, other: &Session) -> bool {
    let is_measured = session.encoded_len() == other.encoded_len();
    let is_judged = *session.verdict() == *other.verdict();
    let are_listed = are_all_listed_alike(alloc, session, other);
    let are_used = are_used_alike(session, other);
    match written(alloc, other) {
        Some(bytes) => {
            let is_whole = is_written(alloc, session, &bytes);
            is_judged && is_measured && is_whole && are_listed && are_used
        }
        None => false,
    }
}

/// Whether the session is that of the module whose written form these bytes are.
pub(crate) fn is_session_of(
    alloc: Global,
    session: &Session,
    profile: Profile,
    bytes: &[u8],
) -> bool {
    match Session::open_in(alloc, bytes, profile) {
        Ok(other) => are_same(alloc, session, &other) && is_written(alloc, session, bytes),
        Err(_) => false,
    }
}
