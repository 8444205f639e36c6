//! The lists of a module, moved. `wk_trials` has each written alone.

use std::alloc::Global;
use std::test::Fail;
use wk_module::{
    Kind, Lists, Module, MovedLists, Parts, ShiftFault, encode_section, read, shift_lists,
};
use wk_samples::modules::{ALL_OF_ONE, HEADER};

// How the lists of a module move, and the contents of the sections that moved, each behind its id: nothing where an index has no
// next.
#[derive(Clone, Copy)]
struct Move {
    kind: Kind,
    from: u32,
    sections: Option<&'static [u8]>,
}

const MOVES: [Move; 6] = [
    Move {
        kind: Kind::Func,
        from: 1,
        sections: Some(
            b"\x07\x02\x01a\x03\x01\x01b\x00\x02\x08\x02\x09\x01\x01\x23\x01\x0b\x02\x00\x02",
        ),
    },
    Move {
        kind: Kind::Global,
        from: 1,
        sections: Some(
            b"\x06\x01\x7d\x01\x23\x02\x0b\x07\x02\x01a\x03\x02\x01b\x00\x01\
              \x09\x01\x01\x23\x02\x0b\x02\x00\x01\x0b\x01\x01\x23\x02\x0b\x02\xaa\xbb",
        ),
    },
    Move {
        kind: Kind::Table,
        from: 1,
        sections: Some(b"\x09\x01\x02\x23\x01\x0b\x02\x00\x01"),
    },
    Move {
        kind: Kind::Memory,
        from: 0,
        sections: Some(b"\x0b\x01\x02\x23\x01\x0b\x02\xaa\xbb"),
    },
    Move {
        kind: Kind::Func,
        from: 2,
        sections: Some(b""),
    },
    Move {
        kind: Kind::Global,
        from: 2,
        sections: Some(b""),
    },
];

// Appends the id and the contents of a section that moved.
fn put_moved(alloc: Global, out: &mut Vec<u8>, lists: &Lists<'_>, id: u8) -> Option<()> {
    if id < 1 || 11 < id || id == 10 {
        return None;
    }
    let contents = encode_section(alloc, lists, id).ok()?;
    out.push(id).ok()?;
    out.extend_from_slice(&contents).ok()
}

// The ids and the contents of the sections that moved.
fn moved_sections(alloc: Global, module: &Module, moved: &MovedLists) -> Option<Vec<u8>> {
    let now = Lists::of(module.parts(), &[]).with_moved(moved);
    let mut out = Vec::new(alloc);
    for (id, moves) in [
        (6, moved.globals.is_some()),
        (7, moved.exports.is_some()),
        (8, moved.start.is_some()),
        (9, moved.elems.is_some()),
        (11, moved.datas.is_some()),
    ] {
        if moves {
            put_moved(alloc, &mut out, &now, id)?;
        }
    }
    Some(out)
}

// Whether the lists of a module move so.
fn moves(alloc: Global, module: &Module, row: Move) -> bool {
    match (
        shift_lists(alloc, module.parts(), row.kind, row.from),
        row.sections,
    ) {
        (Ok(moved), Some(bytes)) => moved_sections(alloc, module, &moved).as_deref() == Some(bytes),
        (Err(ShiftFault::Overflow), None) => true,
        _ => false,
    }
}

// Whether all rows of the table are right.
fn moves_all(alloc: Global) -> bool {
    match read(alloc, ALL_OF_ONE) {
        Ok(module) => wrong_move(alloc, &module).is_none(),
        Err(_) => false,
    }
}

// The first row of the table that is wrong.
fn wrong_move(alloc: Global, module: &Module) -> Option<(Kind, u32)> {
    for row in MOVES {
        if !moves(alloc, module, row) {
            return Some((row.kind, row.from));
        }
    }
    None
}

// Sections that hold the greatest index, behind a header.
const GREATEST: [(Kind, &[u8]); 7] = [
    (
        Kind::Global,
        b"\x06\x0a\x01\x7d\x01\x23\xff\xff\xff\xff\x0f\x0b",
    ),
    (Kind::Memory, b"\x07\x09\x01\x01a\x02\xff\xff\xff\xff\x0f"),
    (Kind::Func, b"\x08\x05\xff\xff\xff\xff\x0f"),
    (
        Kind::Table,
        b"\x09\x0a\x01\xff\xff\xff\xff\x0f\x41\x00\x0b\x00",
    ),
    (
        Kind::Global,
        b"\x09\x0a\x01\x00\x23\xff\xff\xff\xff\x0f\x0b\x00",
    ),
    (
        Kind::Func,
        b"\x09\x0b\x01\x00\x41\x00\x0b\x01\xff\xff\xff\xff\x0f",
    ),
    (
        Kind::Global,
        b"\x0b\x0a\x01\x00\x23\xff\xff\xff\xff\x0f\x0b\x00",
    ),
];

fn module_behind(alloc: Global, bytes: &[u8]) -> Option<Module> {
    let mut input = Vec::from_slice(alloc, HEADER).ok()?;
    input.extend_from_slice(bytes).ok()?;
    read(alloc, &input).ok()
}

// Whether references of the kind do not move, since one has no next.
fn is_stuck(alloc: Global, kind: Kind, bytes: &[u8]) -> bool {
    let sections = None;
    match module_behind(alloc, bytes) {
        Some(module) => moves(
            alloc,
            &module,
            Move {
                kind,
                from: 0,
                sections,
            },
        ),
        None => false,
    }
}

// The kind of the first of these modules that moves.
fn loose_kind(alloc: Global) -> Option<Kind> {
    for (kind, bytes) in GREATEST {
        if !is_stuck(alloc, kind, bytes) {
            return Some(kind);
        }
    }
    None
}

#[test]
fn moves_lists(rt: HostRuntime) -> Result<(), Fail> {
    assert!(rt; moves_all(rt.alloc()));
    assert_eq!(rt; loose_kind(rt.alloc()), None);
    Ok(())
}

// The parts of a module after its functions moved.
fn moved_parts(alloc: Global, parts: Parts) -> Parts {
    match shift_lists(alloc, &parts, Kind::Func, 1) {
        Ok(moved) => moved.put_into(parts),
        Err(_) => parts,
    }
}

fn have_moved(parts: &Parts) -> bool {
    parts.start == Some(2) && parts.exports.len() == 2 && parts.globals.len() == 1
}

fn puts_moved(alloc: Global) -> bool {
    match read(alloc, ALL_OF_ONE) {
        Ok(module) => have_moved(&moved_parts(alloc, module.into_parts())),
        Err(_) => false,
    }
}

#[test]
fn puts_lists_back(rt: HostRuntime) -> Result<(), Fail> {
    assert!(rt; puts_moved(rt.alloc()));
    Ok(())
}
