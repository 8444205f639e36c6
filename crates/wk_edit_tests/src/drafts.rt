//! Edits of a valid module of which the untouched bodies stay bytes, beside those of a session over the whole module.

use crate::sessions::{open, run, says};
use crate::walks::{EMPTY, TWO_RESULTS};
use std::alloc::Global;
use std::test::Fail;
use wk_bytes::{ReadFault, ReadKind, Sink};
use wk_draft::{Answer, Drafted, Edited, Run, edit_outline, edit_valid, is_valid};
use wk_edit::read_script;
use wk_judging::judge_bytes;
use wk_module::{Profile, read_outline};
use wk_samples::moving::MOVING;
use wk_samples::wide::WIDE;
use wk_session::{Edit, Reply};

// It imports a function and a global, and defines a global and two functions. The first of these calls both that stand before it, the
// second itself and, from either branch of an `if`, the same two; its integers are padded.
const BODIES: &[u8] =
    b"\0asm\x01\0\0\0\x01\x09\x02\x60\0\0\x60\x01\x7f\x01\x7f\x02\x0e\x02\x01m\x01f\0\0\x01m\x01g\x03\x7f\0\
    \x03\x03\x02\0\x01\x06\x06\x01\x7f\x01\x41\x01\x0b\x07\x05\x01\x01x\0\x02\
    \x0a\x32\x02\x11\0\x10\0\x10\x01\x23\0\x24\x01\x23\x01\x1a\x41\xc0\0\x1a\x0b\
    \x1e\0\x20\0\x10\x82\x80\x80\x80\0\x23\x81\x80\x80\x80\0\x6a\x41\0\x04\x40\x10\0\x05\x10\x01\x0b\x41\x03\x1a\x0b\0\x02\x01c";

// It has two types, a function and an export, and nothing that moves.
const PLAIN: &[u8] =
    b"\0asm\x01\0\0\0\x01\x08\x02\x60\0\0\x60\x01\x7f\0\x03\x02\x01\0\x07\x05\x01\x01x\0\0\x0a\x09\x01\x07\0\x41\0\x1a\x01\x01\x0b";

const IMPORTS: &[u8] = b"import func m h 0\nimport global m k i32 const\n";

// A module and its profile.
type Module = (&'static [u8], Profile);

// Scripts, and whether each edit has to leave a valid module.
static SCRIPTS: [(&[u8], bool); 8] = [
    (b"", false),
    (
        b"import func m h 0\nimport global m k f32 const\nimport func m i 1\n",
        false,
    ),
    (
        b"import table m t 1\nimport memory m n 1\nimport global m k i32 var\n",
        true,
    ),
    (
        b"import func m h 0\nbody 3 00200010010b\nfunc 0 0010030b\nexport func y 4\n\
            import func m i 0\n",
        true,
    ),
    (
        b"body 1 0010020b\nbody 9 000b\nbody 1 00ff\nbody 1 000b\nbody 2 0020000b\n",
        false,
    ),
    (
        b"export func x 1\nexport func y 9\nunexport x\nunexport z\nglobal i32 const 23000b\n",
        true,
    ),
    (
        b"type i32 i64\nfunc 2 0042000b\ncustom set c ff\ncustom set d 00\ncustom strip e\n",
        true,
    ),
    (b"strip\nimport func m h 9\ntype - -\n", false),
];

fn is_alike(answer: &Answer, wanted: &Reply) -> bool {
    match (answer, wanted) {
        (Ok(()), Ok(_)) => true,
        (Err(fault), Err(other)) => *fault == *other,
        _ => false,
    }
}

fn are_alike(answers: &[Answer], wanted: &[Reply]) -> bool {
    for (answer, other) in answers.iter().zip(wanted) {
        if !is_alike(answer, other) {
            return false;
        }
    }
    answers.len() == wanted.len()
}

fn written(alloc: Global, edited: &Edited) -> Option<Vec<u8>> {
    let mut out = Sink::new(Vec::new(alloc));
    edited.write(&mut out).ok()?;
    Some(out.into_inner())
}

// Valid modules of the shapes for which a draft is meant: of few kinds of lists, and of all, in either profile.
static MODULES: [Module; 4] = [
    (BODIES, Profile::Core),
    (PLAIN, Profile::Core),
    (MOVING, Profile::Core),
    (WIDE, Profile::Extended),
];

// Whether a session over the whole module answers the edits so, and leaves the same.
fn is_of_session(alloc: Global, module: Module, made: &Run, edits: &[Edit], keep: bool) -> bool {
    let Ok(mut session) = open(alloc, module.1, module.0) else {
        return false;
    };
    let Ok(replies) = run(&mut session, keep, edits) else {
        return false;
    };
    match written(alloc, &made.edited) {
        Some(bytes) => {
            are_alike(&made.replies, &replies) && says(alloc, &session, &bytes, made.verdict)
        }
        None => false,
    }
}

// What edits make of a module, where it is found valid.
fn made_of(alloc: Global, module: Module, edits: &[Edit], keep: bool) -> Option<Run> {
    let (bytes, profile) = module;
    let Ok(is_valid) = is_valid(alloc, bytes, profile) else {
        return None;
    };
    if !is_valid {
        return None;
    }
    edit_valid(alloc, bytes, profile, edits, keep).ok()?
}

// What comes of edits of a module of which an outline was read.
fn drafted_of(alloc: Global, module: Module, edits: &[Edit], keep: bool) -> Option<Drafted> {
    let (bytes, profile) = module;
    let Ok(outline) = read_outline(alloc, bytes, profile) else {
        return None;
    };
    edit_outline(alloc, outline, bytes, profile, edits, keep).ok()
}

// Whether both make what those of a session make. Each is dropped by a call, which is proved once.
fn are_drafted(alloc: Global, module: Module, edits: &[Edit], keep: bool) -> bool {
    let made = made_of(alloc, module, edits, keep);
    let is_so = match &made {
        Some(made) => is_of_session(alloc, module, made, edits, keep),
        None => false,
    };
    drop(made);
    is_so && is_outlined(alloc, module, edits, keep)
}

// The same of the draft of an outline.
fn is_outlined(alloc: Global, module: Module, edits: &[Edit], keep: bool) -> bool {
    let made = drafted_of(alloc, module, edits, keep);
    let is_so = match &made {
        Some(Drafted::Made(made)) => is_of_session(alloc, module, made, edits, keep),
        _ => false,
    };
    drop(made);
    is_so
}

fn is_drafted(alloc: Global, module: Module, script: &[u8], keep: bool) -> bool {
    match read_script(alloc, script) {
        Ok(edits) => are_drafted(alloc, module, &edits, keep),
        Err(_) => false,
    }
}

// The first script whose edits make something else.
fn wrong_script(alloc: Global) -> Option<&'static [u8]> {
    for (script, keep) in &SCRIPTS {
        if !is_drafted(alloc, (BODIES, Profile::Core), script, *keep) {
            return Some(*script);
        }
    }
    None
}

// The first module of which an import of each kind that moves makes something else.
fn wrong_module(alloc: Global) -> Option<&'static [u8]> {
    for (bytes, profile) in &MODULES {
        let module = (*bytes, *profile);
        if !is_drafted(alloc, module, b"", true) || !is_drafted(alloc, module, IMPORTS, true) {
            return Some(*bytes);
        }
    }
    None
}

#[test]
fn drafts(rt: HostRuntime) -> Result<(), Fail> {
    assert_eq!(rt; wrong_script(rt.alloc()), None);
    assert_eq!(rt; wrong_module(rt.alloc()), None);
    Ok(())
}

// Edits that may be left to a session.
fn left(alloc: Global, module: Module, script: &[u8]) -> Option<Drafted> {
    let edits = read_script(alloc, script).ok()?;
    drafted_of(alloc, module, &edits, true)
}

// Whether edits of a module are left to a session, before it is judged or with its verdict.
fn is_left(alloc: Global, module: Module, script: &[u8], is_judged: bool) -> bool {
    match left(alloc, module, script) {
        Some(
            Drafted::Unmade {
                verdict: Some(verdict),
                codes: Some(_),
            },
        ) => is_judged && judge_bytes(alloc, module.0, module.1) == Ok(verdict),
        Some(
            Drafted::Unmade {
                verdict: None,
                codes: Some(_),
            },
        ) => !is_judged,
        Some(Drafted::Unmade { .. }) => false,
        Some(Drafted::Made(_)) => false,
        None => false,
    }
}

// Scripts with an import that would leave an invalid module: of no type, also behind a type that is refused, of a second table or memory, and
// of sizes that are out of order or too large.
static BREAKING: [&[u8]; 7] = [
    b"import func m h 9\n",
    b"type - i32,i32\nimport func m h 2\n",
    b"import table m t 1\nimport table m u 1\n",
    b"import memory m n 1\nimport memory m o 1\n",
    b"import table m t 2 1\n",
    b"import memory m n 65537\n",
    b"import memory m n 1 65537\n",
];

// Such an import is not answered for, and told before the module is judged. Nor is any edit of an invalid module made.
fn gives_up(alloc: Global) -> bool {
    let module = (BODIES, Profile::Core);
    BREAKING
        .iter()
        .all(|script| is_left(alloc, module, *script, false))
        && is_left(alloc, (TWO_RESULTS, Profile::Core), b"", true)
}

#[test]
fn leaves_it_to_a_session(rt: HostRuntime) -> Result<(), Fail> {
    assert!(rt; gives_up(rt.alloc()));
    Ok(())
}

#[test]
fn judges(rt: HostRuntime) -> Result<(), Fail> {
    let fault = ReadFault {
        kind: ReadKind::UnexpectedEnd,
        at: 0,
    };
    assert_eq!(rt; is_valid(rt.alloc(), EMPTY, Profile::Core), Ok(true));
    assert_eq!(rt; is_valid(rt.alloc(), TWO_RESULTS, Profile::Core), Ok(false));
    assert_eq!(rt; is_valid(rt.alloc(), b"", Profile::Core), Err(fault));
    Ok(())
}
