//! Sessions: opened, edited, run, written, and asked for what functions refer to.

use crate::step::{Step, Walk};
use crate::walks::{EMPTY, MIXED, ONE_TYPE, OWN_CALL, TWO_RESULTS, WALKS};
use std::alloc::Global;
use std::collections::BTreeSet;
use std::test::Fail;
use wk_bytes::{OutOfMemory, ReadFault, ReadKind, Sink};
use wk_edit::read_script;
use wk_judging::{Fault, FaultKind, Place, Verdict, judge_bytes};
use wk_module::{Outline, Profile, Ref, read_in, read_outline};
use wk_session::{Edit, Reply, Session};

/// Whether a session has this verdict, and is measured and written as these bytes.
pub(crate) fn says(alloc: Global, session: &Session, whole: &[u8], verdict: Verdict) -> bool {
    let mut out = Sink::new(Vec::new(alloc));
    let is_written = session.write(&mut out).is_ok();
    let bytes = out.into_inner();
    is_written
        && *session.verdict() == verdict
        && session.encoded_len() as usize == whole.len()
        && bytes.as_slice() == whole
}

/// A session over a module of a profile.
pub(crate) fn open(alloc: Global, profile: Profile, bytes: &[u8]) -> Result<Session, ReadFault> {
    match profile {
        Profile::Core => Session::open(alloc, bytes),
        Profile::Extended => Session::open_in(alloc, bytes, profile),
    }
}

// The same with the verdict of its bytes.
fn open_judged(alloc: Global, profile: Profile, bytes: &[u8]) -> Result<Session, ReadFault> {
    let verdict = judge_bytes(alloc, bytes, profile)?;
    Session::open_judged(alloc, bytes, profile, verdict)
}

// The same with the codes of its outline, and without the verdict.
fn open_outlined(alloc: Global, profile: Profile, bytes: &[u8]) -> Result<Session, ReadFault> {
    let Outline { module, codes } = read_outline(alloc, bytes, profile)?;
    drop(module);
    Session::open_outlined(alloc, bytes, profile, None, codes)
}

// Whether a module is opened with this verdict, and written as these bytes, whether it is judged or its verdict is known, and with codes that
// are at hand.
fn opens_as(alloc: Global, profile: Profile, bytes: &[u8], whole: &[u8], verdict: Verdict) -> bool {
    let Ok(session) = open(alloc, profile, bytes) else {
        return false;
    };
    let Ok(judged) = open_judged(alloc, profile, bytes) else {
        return false;
    };
    let Ok(outlined) = open_outlined(alloc, profile, bytes) else {
        return false;
    };
    says(alloc, &session, whole, verdict)
        && says(alloc, &judged, whole, verdict)
        && says(alloc, &outlined, whole, verdict)
}

// Whether a session over the module that was read says the same.
fn is_over(alloc: Global, profile: Profile, bytes: &[u8], whole: &[u8], verdict: Verdict) -> bool {
    let Ok(module) = read_in(alloc, bytes, profile) else {
        return false;
    };
    match Session::of(alloc, module) {
        Ok(session) => says(alloc, &session, whole, verdict),
        Err(_) => false,
    }
}

// A function of `i32.const 0`, `i32.extend8_s` and `drop`.
const SIGN_EXTENSION: &[u8] =
    b"\0asm\x01\0\0\0\x01\x04\x01\x60\0\0\x03\x02\x01\0\x0a\x08\x01\x06\0\x41\0\xc0\x1a\x0b";

// Three functions: the first is empty, the second leaves an operand, and the third drops one that is not there.
const TWO_INVALID: &[u8] =
    b"\0asm\x01\0\0\0\x01\x04\x01\x60\0\0\x03\x04\x03\0\0\0\x0a\x0d\x03\x02\0\x0b\x04\0\x41\0\x0b\x03\0\x1a\x0b";

const LEFT_BY_SECOND: Verdict = Verdict::Invalid(Fault {
    kind: FaultKind::StackHeight,
    place: Place {
        section: 10,
        item: 1,
        token: Some(1),
    },
});

const TWO_RESULTS_OF_FIRST: Verdict = Verdict::Invalid(Fault {
    kind: FaultKind::TypeArity,
    place: Place {
        section: 1,
        item: 0,
        token: None,
    },
});

// A profile, a module, and its written form and verdict.
type Opened = (Profile, &'static [u8], &'static [u8], Verdict);

static OPENED: [Opened; 10] = [
    (Profile::Core, EMPTY, EMPTY, Verdict::Valid),
    (Profile::Core, ONE_TYPE, ONE_TYPE, Verdict::Valid),
    (
        Profile::Core,
        b"\0asm\x01\0\0\0\x01\x84\x80\x80\x80\0\x01\x60\0\0",
        ONE_TYPE,
        Verdict::Valid,
    ),
    (
        Profile::Core,
        TWO_RESULTS,
        TWO_RESULTS,
        TWO_RESULTS_OF_FIRST,
    ),
    (Profile::Core, MIXED, MIXED, Verdict::Valid),
    (Profile::Core, TWO_INVALID, TWO_INVALID, LEFT_BY_SECOND),
    (
        Profile::Core,
        b"\0asm\x01\0\0\0\x01\x01\0\0\x02\x01c",
        b"\0asm\x01\0\0\0\0\x02\x01c",
        Verdict::Valid,
    ),
    (Profile::Extended, ONE_TYPE, ONE_TYPE, Verdict::Valid),
    (Profile::Extended, TWO_RESULTS, TWO_RESULTS, Verdict::Valid),
    (
        Profile::Extended,
        SIGN_EXTENSION,
        SIGN_EXTENSION,
        Verdict::Valid,
    ),
];

// Bytes that spell no module of 1.0, and their first fault.
static REFUSED: [(&[u8], ReadKind, u32); 4] = [
    (b"", ReadKind::UnexpectedEnd, 0),
    (b"\0asm\x01\0\0\0\0\x02\x01\xff", ReadKind::BadUtf8, 11),
    (
        b"\0asm\x01\0\0\0\x01\x04\x01\x60\0\0\x0c\0",
        ReadKind::UnknownSection,
        14,
    ),
    (SIGN_EXTENSION, ReadKind::UnknownOpcode, 25),
];

#[test]
fn opens(rt: HostRuntime) -> Result<(), Fail> {
    for &(profile, bytes, whole, verdict) in &OPENED {
        let is_opened = opens_as(rt.alloc(), profile, bytes, whole, verdict)
            && is_over(rt.alloc(), profile, bytes, whole, verdict);
        assert!(rt; is_opened, "{bytes:?}");
    }
    for &(bytes, kind, at) in &REFUSED {
        let fault = open(rt.alloc(), Profile::Core, bytes).err();
        assert_eq!(rt; fault, Some(ReadFault { kind, at }), "{bytes:?}");
    }
    Ok(())
}

// What the one edit of a script is answered.
fn reply_to(alloc: Global, session: &mut Session, keep: bool, script: &[u8]) -> Option<Reply> {
    let edits = read_script(alloc, script).ok()?;
    match edits.first() {
        Some(edit) if keep => Some(session.apply_kept(edit)),
        Some(edit) => Some(session.apply(edit)),
        None => None,
    }
}

// Whether a step is answered, leaves and reopens what it has to.
fn goes(alloc: Global, session: &mut Session, keep: bool, step: &Step) -> bool {
    let (line, answer, whole, judged) = step;
    let verdict = judged.verdict();
    let is_answered = reply_to(alloc, session, keep, line) == Some(answer.reply());
    is_answered
        && says(alloc, session, whole, verdict)
        && opens_as(alloc, Profile::Core, whole, whole, verdict)
}

// The line of the first step of a walk that goes otherwise.
fn wrong_step(alloc: Global, walk: &Walk) -> Option<&'static [u8]> {
    let Ok(mut session) = Session::open(alloc, walk.bytes) else {
        return Some(walk.bytes);
    };
    for step in walk.steps {
        if !goes(alloc, &mut session, walk.keep, step) {
            return Some(step.0);
        }
    }
    None
}

#[test]
fn applies(rt: HostRuntime) -> Result<(), Fail> {
    for walk in &WALKS {
        assert_eq!(rt; wrong_step(rt.alloc(), walk), None);
    }
    Ok(())
}

// The edits of a walk as one script.
fn edits_of(alloc: Global, steps: &[Step]) -> Option<Vec<Edit>> {
    let mut script = Vec::new(alloc);
    for (line, ..) in steps {
        script.extend_from_slice(line).ok()?;
        script.push(b'\n').ok()?;
    }
    read_script(alloc, script.as_slice()).ok()
}

/// What edits are answered.
pub(crate) fn run(
    session: &mut Session,
    keep: bool,
    edits: &[Edit],
) -> Result<Vec<Reply>, OutOfMemory> {
    if keep {
        session.run_kept(edits)
    } else {
        session.run(edits)
    }
}

fn are_replies(replies: &[Reply], steps: &[Step]) -> bool {
    for (reply, step) in replies.iter().zip(steps) {
        if *reply != step.1.reply() {
            return false;
        }
    }
    replies.len() == steps.len()
}

// Whether the edits, run at once, are answered so.
fn is_run(alloc: Global, session: &mut Session, walk: &Walk) -> bool {
    let Some(edits) = edits_of(alloc, walk.steps) else {
        return false;
    };
    match run(session, walk.keep, &edits) {
        Ok(replies) => are_replies(&replies, walk.steps),
        Err(_) => false,
    }
}

// Whether they leave what the last of them has to.
fn runs(alloc: Global, walk: &Walk) -> bool {
    let Ok(mut session) = Session::open(alloc, walk.bytes) else {
        return false;
    };
    let is_answered = is_run(alloc, &mut session, walk);
    match walk.steps.last() {
        Some((_, _, whole, judged)) => {
            is_answered && says(alloc, &session, whole, judged.verdict())
        }
        None => is_answered,
    }
}

#[test]
fn runs_at_once(rt: HostRuntime) -> Result<(), Fail> {
    for walk in &WALKS {
        assert!(rt; runs(rt.alloc(), walk), "{:?}", walk.bytes);
    }
    Ok(())
}

// Whether these references are found, and no others.
fn are_refs(found: Option<&BTreeSet<Ref>>, wanted: &[Ref]) -> bool {
    let Some(found) = found else {
        return false;
    };
    for reference in wanted {
        if !found.contains(reference) {
            return false;
        }
    }
    found.len() == wanted.len()
}

// A function that calls itself refers to the function behind it where one is imported.
fn tells_uses(alloc: Global) -> bool {
    let Ok(mut session) = Session::open(alloc, OWN_CALL) else {
        return false;
    };
    let is_before = are_refs(session.uses(0), &[Ref::Ty(0), Ref::Func(0)]);
    let reply = reply_to(alloc, &mut session, false, b"import func env f 0");
    is_before
        && matches!(reply, Some(Ok(_)))
        && are_refs(session.uses(0), &[Ref::Ty(0), Ref::Func(1)])
        && session.uses(1).is_none()
}

#[test]
fn refers(rt: HostRuntime) -> Result<(), Fail> {
    assert!(rt; tells_uses(rt.alloc()));
    Ok(())
}
