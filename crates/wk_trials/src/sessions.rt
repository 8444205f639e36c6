//! Sessions that are opened, looked at, listed and written.

ghost use Rattle.std.specs.Prelude.{◌≡◌};

use crate::bodies::NO_MEMORY;
use crate::listings::sample;
use crate::mark::{call_begins, call_ends};
use crate::modules::Sample;
use crate::same::{is_session_of, is_written};
use crate::scenario::and_drop;
use crate::sinks::{Room, holds, holds_begun, sink};
use std::alloc::Global;
use wk_bytes::{Out, ReadFault, Sink};
use wk_judging::{Verdict, judge_bytes};
use wk_list::{ListFault, Part};
use wk_module::{EncodeFault, Module, Outline, Profile, Ref, read_outline};
use wk_samples::outcome::Outcome;
use wk_session::{Session, WriteFault};

// Whether the session says that the module is valid, and how long it is, and writes it.
fn is_valid_session_of(alloc: Global, session: &Session, bytes: &[u8]) -> bool {
    let is_told = *session.verdict() == Verdict::Valid
        && session.encoded_len() as usize == bytes.len();
    is_told && is_written(alloc, session, bytes)
}

/// `Session::open`, or `Session::open_in` of the wider profile, of a valid module in its written form.
pub(crate) fn opens(alloc: Global, sample: Sample) -> Outcome {
    call_begins(alloc);
    let answer = match sample.profile {
        Profile::Core => Session::open(alloc, sample.bytes),
        profile => Session::open_in(alloc, sample.bytes, profile),
    };
    call_ends(alloc);
    and_drop(was_opened(alloc, &answer, sample.bytes), answer)
}

/// `Session::open_judged` of a valid module in its written form.
pub(crate) fn opens_judged(alloc: Global, sample: Sample) -> Outcome {
    let Sample { profile, bytes } = sample;
    let Ok(verdict) = judge_bytes(alloc, bytes, profile) else {
        return Outcome::NO_SAMPLE;
    };
    call_begins(alloc);
    let answer = Session::open_judged(alloc, bytes, profile, verdict);
    call_ends(alloc);
    and_drop(was_opened(alloc, &answer, bytes), answer)
}

/// `Session::open_outlined` of a valid module in its written form, whose verdict is not known.
pub(crate) fn opens_outlined(alloc: Global, sample: Sample) -> Outcome {
    let Sample { profile, bytes } = sample;
    let Ok(Outline { module, codes }) = read_outline(alloc, bytes, profile) else {
        return Outcome::NO_SAMPLE;
    };
    drop(module);
    call_begins(alloc);
    let answer = Session::open_outlined(alloc, bytes, profile, None, codes);
    call_ends(alloc);
    and_drop(was_opened(alloc, &answer, bytes), answer)
}

/// `Session::of` of a valid module.
pub(crate) fn holds_module(alloc: Global, sample: Sample) -> Outcome {
    match sample.read(alloc) {
        Ok(module) => holds_given(alloc, module, sample),
        Err(_) => Outcome::NO_SAMPLE,
    }
}

fn holds_given(alloc: Global, module: Module, sample: Sample) -> Outcome {
    call_begins(alloc);
    let answer = Session::of(alloc, module);
    call_ends(alloc);
    let outcome = match &answer {
        Ok(session) => {
            let Sample { profile, bytes } = sample;
            Outcome::answered(is_session_of(alloc, session, profile, bytes))
        }
        Err(fault) => Outcome::refused(*fault == EncodeFault::Memory),
    };
    and_drop(outcome, answer)
}

// What opening a session answered.
fn was_opened(alloc: Global, answer: &Result<Session, ReadFault>, bytes: &[u8]) -> Outcome {
    match answer {
        Ok(session) => Outcome::answered(is_valid_session_of(alloc, session, bytes)),
        Err(fault) => Outcome::refused(*fault == NO_MEMORY),
    }
}

/// `Session::verdict`, `Session::encoded_len` and `Session::uses`, of a module of two functions, the first of which calls function 2.
pub(crate) fn tells(alloc: Global, sample: Sample) -> Outcome {
    match Session::open_in(alloc, sample.bytes, sample.profile) {
        Ok(session) => and_drop(tells_of(alloc, &session, sample.bytes), session),
        Err(_) => Outcome::NO_SAMPLE,
    }
}

fn tells_of(alloc: Global, session: &Session, bytes: &[u8]) -> Outcome {
    call_begins(alloc);
    let is_valid = *session.verdict() == Verdict::Valid;
    let len = session.encoded_len();
    let refs = session.uses(0);
    let past = session.uses(2);
    call_ends(alloc);
    let are_used = match refs {
        Some(refs) => refs.contains(&Ref::Func(2)),
        None => false,
    };
    Outcome::answered(is_valid && len as usize == bytes.len() && are_used && past.is_none())
}

/// `Session::list` of a part of a module of a profile, to a sink with that much room.
pub(crate) fn lists(alloc: Global, part: Part, profile: Profile, room: Room) -> Outcome {
    let (input, text) = sample(part, profile);
    match Session::open_in(alloc, input.bytes, profile) {
        Ok(session) => and_drop(lists_of(alloc, &session, part, input, text, room), session),
        Err(_) => Outcome::NO_SAMPLE,
    }
}

fn lists_of(
    alloc: Global,
    session: &Session,
    part: Part,
    input: Sample,
    text: &[u8],
    room: Room,
) -> Outcome {
    match sink(alloc, room) {
        Some(sink) => lists_to(alloc, session, part, input, text, sink),
        None => Outcome::NO_SAMPLE,
    }
}

fn lists_to(
    alloc: Global,
    session: &Session,
    part: Part,
    input: Sample,
    text: &[u8],
    mut sink: Sink,
) -> Outcome
    requires { ⟦<Sink as Out>⟧.failed sink ≡ 0 }
{
    call_begins(alloc);
    let answer = session.list(part, &mut sink);
    call_ends(alloc);
    let is_kept = is_session_of(alloc, session, input.profile, input.bytes);
    match answer {
        Ok(()) => Outcome::answered(is_kept && holds(sink, 0, text)),
        Err(ListFault::Write) => Outcome::refused(is_kept && holds_begun(sink, 1, text)),
        Err(ListFault::Memory) => Outcome::refused(is_kept && holds_begun(sink, 0, text)),
    }
}

/// `Session::write` to a sink with that much room.
pub(crate) fn writes(alloc: Global, input: Sample, room: Room) -> Outcome {
    match Session::open_in(alloc, input.bytes, input.profile) {
        Ok(session) => and_drop(writes_of(alloc, &session, input, room), session),
        Err(_) => Outcome::NO_SAMPLE,
    }
}

fn writes_of(alloc: Global, session: &Session, input: Sample, room: Room) -> Outcome {
    match sink(alloc, room) {
        Some(sink) => writes_to(alloc, session, input, sink),
        None => Outcome::NO_SAMPLE,
    }
}

fn writes_to(alloc: Global, session: &Session, input: Sample, mut sink: Sink) -> Outcome
    requires { ⟦<Sink as Out>⟧.failed sink ≡ 0 }
{
    let Sample { profile, bytes } = input;
    call_begins(alloc);
    let answer = session.write(&mut sink);
    call_ends(alloc);
    let is_kept = is_session_of(alloc, session, profile, bytes);
    match answer {
        Ok(()) => Outcome::answered(is_kept && holds(sink, 0, bytes)),
        Err(WriteFault::Write) => Outcome::refused(is_kept && holds_begun(sink, 1, bytes)),
        Err(WriteFault::Memory) => Outcome::Wrong("writing took memory of its own"),
    }
}
