//! What `edit` gives, beside a session over the whole module, on both sides of where it begins to hold bodies as bytes: the same, whichever
//! way it goes. `tests/growth` tells the ways apart.

ghost use Rattle.std.specs.Prelude.{◌<◌};

use crate::sessions::run;
use std::alloc::Global;
use std::test::Fail;
use wk_bytes::{OutOfMemory, Sink, put_u32};
use wk_check::Verdict;
use wk_edit::{Status, edit_in, read_script, verdict_line};
use wk_module::Profile;
use wk_session::{Reply, Session};

// How much a module of one function has of what.
#[derive(Clone, Copy)]
struct Shape {
    // Instructions that do nothing, in its body.
    nops: u32,
    exports: u32,
    datas: u32,
    // Custom sections in front of all others.
    customs: u32,
    // Whether the body leaves an operand, for which it has two bytes more.
    is_invalid: bool,
}

// Shapes, a line each, in the order of their fields.
macro_rules! shapes {
    ($($nops:expr, $exports:literal, $datas:literal, $customs:literal, $is_invalid:literal;)*) => {
        [$(Shape {
            nops: $nops,
            exports: $exports,
            datas: $datas,
            customs: $customs,
            is_invalid: $is_invalid,
        }),*]
    };
}

// The fewest instructions at which the body outweighs its type, its stub and the rest, where nothing else is there.
const ENOUGH: u32 = 142;

static SHAPES: [Shape; 14] = shapes! {
    0, 0, 0, 0, false;
    ENOUGH - 1, 0, 0, 0, false;
    ENOUGH, 0, 0, 0, false;
    ENOUGH, 1, 0, 0, false;
    ENOUGH + 81, 1, 0, 0, false;
    ENOUGH + 82, 1, 0, 0, false;
    ENOUGH + 137, 0, 1, 0, false;
    ENOUGH + 138, 0, 1, 0, false;
    ENOUGH, 0, 0, 28, false;
    ENOUGH, 0, 0, 29, false;
    ENOUGH + 138, 0, 1, 27, false;
    ENOUGH + 138, 0, 1, 28, false;
    ENOUGH - 3, 0, 0, 0, true;
    ENOUGH - 2, 0, 0, 0, true;
};

// Scripts that a draft answers, and that it leaves to a session where each edit has to leave a valid module.
static SCRIPTS: [&[u8]; 4] = [
    b"",
    b"import func m f 0\nfunc 0 0010010b\nexport func x 2\nbody 1 0010000b\n",
    b"import table m t 1\nimport table m u 1\nbody 7 000b\n",
    b"type - i32,i32\nimport func m f 1\n",
];

fn push_all(out: &mut Vec<u8>, bytes: &[u8], times: u32) -> Result<(), OutOfMemory> {
    for _ in 0..times {
        out.extend_from_slice(bytes)?;
    }
    Ok(())
}

// A section whose contents these are.
fn put_section(out: &mut Vec<u8>, id: u8, contents: &[u8]) -> Result<(), OutOfMemory> {
    out.extend_from_slice(&[id])?;
    put_u32(out, u32::try_from(contents.len()).unwrap_or(0))?;
    out.extend_from_slice(contents)?;
    Ok(())
}

// A count, and items one as the other.
fn list(alloc: Global, count: u32, item: &[u8]) -> Result<Vec<u8>, OutOfMemory> {
    let mut contents = Vec::new(alloc);
    put_u32(&mut contents, count)?;
    push_all(&mut contents, item, count)?;
    Ok(contents)
}

impl Shape {
    fn body(&self, alloc: Global) -> Result<Vec<u8>, OutOfMemory> {
        let mut body = Vec::from_slice(alloc, &[0])?;
        push_all(&mut body, &[0x01], self.nops)?;
        if self.is_invalid {
            body.extend_from_slice(&[0x41, 0])?;
        }
        body.extend_from_slice(&[0x0B])?;
        Ok(body)
    }

    fn code(&self, alloc: Global) -> Result<Vec<u8>, OutOfMemory> {
        let body = self.body(alloc)?;
        let mut code = Vec::from_slice(alloc, &[1])?;
        put_u32(&mut code, u32::try_from(body.len()).unwrap_or(0))?;
        code.extend_from_slice(&body)?;
        Ok(code)
    }

    // The module.
    fn module(&self, alloc: Global) -> Result<Vec<u8>, OutOfMemory> {
        let mut out = Vec::from_slice(alloc, b"\0asm\x01\0\0\0")?;
        push_all(&mut out, b"\0\x02\x01c", self.customs)?;
        put_section(&mut out, 1, b"\x01\x60\0\0")?;
        put_section(&mut out, 3, b"\x01\0")?;
        if self.datas > 0 {
            put_section(&mut out, 5, b"\x01\0\x01")?;
        }
        if self.exports > 0 {
            put_section(&mut out, 7, &list(alloc, self.exports, b"\x02ex\0\0")?)?;
        }
        put_section(&mut out, 10, &self.code(alloc)?)?;
        if self.datas > 0 {
            put_section(&mut out, 11, &list(alloc, self.datas, b"\0\x41\0\x0b\0")?)?;
        }
        Ok(out)
    }
}

// A module, a report and a status.
type Given = (Vec<u8>, Vec<u8>, Status);

fn put_reply(
    alloc: Global,
    text: &mut Vec<u8>,
    number: usize,
    reply: &Reply,
) -> Result<(), OutOfMemory> {
    let line = match reply {
        Ok(_) => format!(in alloc; "{number} ok\n")?,
        Err(fault) => format!(in alloc; "{number} refused {fault}\n")?,
    };
    text.extend_from_slice(line.as_bytes())?;
    Ok(())
}

// The report of replies, and how the run ends.
fn told(
    alloc: Global,
    replies: &[Reply],
    verdict: &Verdict,
) -> Result<(Vec<u8>, Status), OutOfMemory> {
    let mut text = Vec::new(alloc);
    for (index, reply) in replies.iter().enumerate() {
        put_reply(alloc, &mut text, index.saturating_add(1), reply)?;
    }
    text.extend_from_slice(verdict_line(alloc, verdict)?.as_bytes())?;
    let is_accepted = replies.iter().all(|reply| reply.is_ok());
    if is_accepted && *verdict == Verdict::Valid {
        return Ok((text, Status::Accepted));
    }
    Ok((text, Status::Refused))
}

// What comes of a session over the whole module.
fn by_session(alloc: Global, input: &[u8], script: &[u8], keep: bool) -> Option<Given> {
    let edits = read_script(alloc, script).ok()?;
    let mut session = Session::open(alloc, input).ok()?;
    let replies = run(&mut session, keep, &edits).ok()?;
    let (text, status) = told(alloc, &replies, session.verdict()).ok()?;
    let mut out = Sink::new(Vec::new(alloc));
    session.write(&mut out).ok()?;
    Some((out.into_inner(), text, status))
}

fn by_edit(alloc: Global, input: &[u8], script: &[u8], keep: bool) -> Option<Given> {
    let mut out = Sink::new(Vec::new(alloc));
    let mut report = Sink::new(Vec::new(alloc));
    let profile = Profile::Core;
    let status = edit_in(alloc, input, script, keep, profile, &mut out, &mut report).ok()?;
    Some((out.into_inner(), report.into_inner(), status))
}

// Whether both give the same, and something.
fn are_same(alloc: Global, input: &[u8], script: &[u8], keep: bool) -> bool {
    let Some((bytes, text, status)) = by_edit(alloc, input, script, keep) else {
        return false;
    };
    match by_session(alloc, input, script, keep) {
        Some((other, words, end)) => {
            bytes.as_slice() == other.as_slice()
                && text.as_slice() == words.as_slice()
                && status == end
        }
        None => false,
    }
}

fn is_right(alloc: Global, input: &[u8], script: &[u8]) -> bool {
    are_same(alloc, input, script, false) && are_same(alloc, input, script, true)
}

// The place of the first shape, and the script, with which they give different things.
fn wrong(alloc: Global) -> Option<(usize, &'static [u8])> {
    for (place, shape) in SHAPES.iter().enumerate() {
        let Ok(input) = shape.module(alloc) else {
            return Some((place, b"no memory"));
        };
        for script in &SCRIPTS {
            if !is_right(alloc, &input, script) {
                return Some((place, *script));
            }
        }
    }
    None
}

#[test]
fn gives_what_sessions_give(rt: HostRuntime) -> Result<(), Fail> {
    assert_eq!(rt; wrong(rt.alloc()), None);
    Ok(())
}
