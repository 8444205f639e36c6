//! Sessions and modules written and listed onto an output that fails.

ghost use Rattle.std.specs.Prelude.{◌≡◌, ◌<◌, ◌-◌, ◌^◌};

use crate::chopped::Chopped;
use crate::sessions::open;
use crate::walks::MIXED;
use std::alloc::{AllocError, Global};
use std::test::Fail;
use wk_bytes::{Out, Sink};
use wk_list::{Part, Plain, list};
use wk_module::{Module, Profile, read};
use wk_samples::lacking::NO_BLOCK_TYPE_MENDED;
use wk_samples::modules::WHOLE;
use wk_samples::moving::MOVING;
use wk_samples::wide::WIDE;
use wk_session::Session;

// A call that puts to an output.
#[derive(Clone, Copy, Debug, PartialEq, Eq)]
enum Call {
    Write,
    List(Part),
}

const CALLS: [Call; 5] = [
    Call::Write,
    Call::List(Part::Headers),
    Call::List(Part::Details),
    Call::List(Part::Code),
    Call::List(Part::Uses),
];

impl Call {
    // Whether it put all. Memory is not wanting here.
    fn put<W: Out>(self, session: &Session, out: &mut W) -> bool
        requires { W.failed out.old < 2 ^ 64 - 1 }
    {
        match self {
            Call::Write => session.write(out).is_ok(),
            Call::List(part) => session.list(part, out).is_ok(),
        }
    }

    // What it puts where nothing fails.
    fn whole(self, alloc: Global, session: &Session) -> Option<Vec<u8>> {
        let mut out = Sink::new(Vec::new(alloc));
        if self.put(session, &mut out) {
            Some(out.into_inner())
        } else {
            None
        }
    }

    // Whether so many calls are right for an output that takes `most` bytes at each. A listing goes out whole and takes as many as
    // its bytes fill; a module goes out in pieces and takes as many or more, but no more than it has bytes.
    fn is_fair(self, calls: usize, len: usize, most: usize) -> bool
        requires { 0 < most }
    {
        let least = len.div_ceil(most);
        match self {
            Call::Write => least <= calls && calls <= len,
            Call::List(_) => calls == least,
        }
    }
}

// Puts to an output that fails after so many calls. Answers whether it took all; where it took neither all nor a beginning, nothing.
fn is_taken(call: Call, session: &Session, whole: &[u8], mut out: Chopped) -> Option<bool>
    requires { ⟦<Chopped as Out>⟧.failed out ≡ 0 }
{
    let is_put = call.put(session, &mut out);
    let taken = out.taken();
    let is_right = if is_put {
        out.failures() == 0 && taken == whole
    } else {
        out.failures() == 1 && taken.len() < whole.len() && whole.starts_with(taken)
    };
    if is_right { Some(is_put) } else { None }
}

// After how many calls an output that takes so many bytes at each never fails.
fn calls_wanted(
    alloc: Global,
    call: Call,
    session: &Session,
    whole: &[u8],
    most: usize,
) -> Option<usize> {
    for calls in 0..=whole.len() {
        if is_taken(call, session, whole, Chopped::new(alloc, most, calls))? {
            return Some(calls);
        }
    }
    None
}

// Whether the call leaves beginnings at one, two or seven bytes a call.
fn leaves_beginnings(alloc: Global, call: Call, session: &Session) -> bool {
    let Some(whole) = call.whole(alloc, session) else {
        return false;
    };
    for most in [1, 2, 7] {
        let is_fair = match calls_wanted(alloc, call, session, &whole, most) {
            Some(calls) => call.is_fair(calls, whole.len(), most),
            None => false,
        };
        if !is_fair {
            return false;
        }
    }
    true
}

// The first call of a session that does not.
fn wrong_call(alloc: Global, session: &Session) -> Option<Call> {
    for call in CALLS {
        if !leaves_beginnings(alloc, call, session) {
            return Some(call);
        }
    }
    None
}

// The same of a session over a module, which has to be opened.
fn wrong_call_over(alloc: Global, profile: Profile, bytes: &[u8]) -> Option<Call> {
    match open(alloc, profile, bytes) {
        Ok(session) => wrong_call(alloc, &session),
        Err(_) => Some(Call::Write),
    }
}

static MODULES: [(Profile, &[u8]); 5] = [
    (Profile::Core, MIXED),
    (Profile::Core, WHOLE),
    (Profile::Core, MOVING),
    (Profile::Extended, NO_BLOCK_TYPE_MENDED),
    (Profile::Extended, WIDE),
];

fn wrong_call_of_any(alloc: Global) -> Option<Call> {
    for (profile, bytes) in &MODULES {
        let wrong = wrong_call_over(alloc, *profile, bytes);
        if wrong.is_some() {
            return wrong;
        }
    }
    None
}

#[test]
fn leaves_beginnings_of_sessions(rt: HostRuntime) -> Result<(), Fail> {
    assert_eq!(rt; wrong_call_of_any(rt.alloc()), None);
    Ok(())
}

// What stands in front of 6,000 instructions and an `end`, in a module of one function.
const LONG: &[u8] = b"\0asm\x01\0\0\0\x01\x04\x01\x60\0\0\x03\x02\x01\0\x0a\xf5\x2e\x01\xf2\x2e\0";

fn long_module(alloc: Global) -> Result<Vec<u8>, AllocError> {
    let mut bytes = Vec::from_slice(alloc, LONG)?;
    bytes.resize(LONG.len() + 6000, 0x01)?;
    bytes.push(0x0b)?;
    Ok(bytes)
}

// Whether the code of a module is listed to an output that fails after so many calls.
fn is_listed(alloc: Global, module: &Module, calls: usize) -> Option<bool> {
    let plain = Plain::of(module)?;
    let mut out = Chopped::new(alloc, 1 << 20, calls);
    Some(list(alloc, &plain, Part::Code, &mut out).is_ok())
}

fn is_in_two_pieces(alloc: Global, module: &Module) -> bool {
    is_listed(alloc, module, 1) == Some(false) && is_listed(alloc, module, 2) == Some(true)
}

fn is_read_in_two_pieces(alloc: Global, bytes: &[u8]) -> bool {
    match read(alloc, bytes) {
        Ok(module) => is_in_two_pieces(alloc, &module),
        Err(_) => false,
    }
}

fn puts_two_pieces(alloc: Global) -> bool {
    match long_module(alloc) {
        Ok(bytes) => is_read_in_two_pieces(alloc, &bytes),
        Err(_) => false,
    }
}

#[test]
fn puts_out_long_text_in_pieces(rt: HostRuntime) -> Result<(), Fail> {
    assert!(rt; puts_two_pieces(rt.alloc()));
    Ok(())
}
