//! Bodies judged one by one, where references find other answers than those of a module.

ghost use Rattle.std.specs.Prelude.{◌<◌};

use std::alloc::Global;
use std::process::Abort;
use std::test::Fail;
use wk_bytes::{Cursor, ReadFault, ReadKind};
use wk_check::FaultKind::{
    Alignment, ConstantExpected, GlobalImmutable, StackHeight, StackUnderflow, TypeMismatch,
    UnknownFunc, UnknownGlobal, UnknownMemory, UnknownTable, UnknownType,
};
use wk_check::{Answer, BodyVerdict, Env, FaultKind, Lookup, Meter, Scope, Whole, judge_body};
use wk_module::{
    FuncType, GlobalType, Limits, Lists, Parts, Profile, Ref, TypeList, ValType, read_body_in,
    read_expr_in, read_in,
};
use wk_typing::{
    Fault, Flaw, Place, Room, Rooms, constant_flaw, next_constant_flaw, type_body,
    type_encoded_body,
};

// The types [] -> [], [i32] -> [i32] and [] -> [i32, i32].
const TYPES: &[u8] = b"\0asm\x01\0\0\0\x01\x0e\x03\x60\0\0\x60\x01\x7f\x01\x7f\x60\0\x02\x7f\x7f";

// The types [] -> [], [i32] -> [] and [i64] -> [f64], and imported a table, a function of the second type, a memory, a constant
// i64, a function of the third type and an f32.
const IMPORTS: &[u8] =
    b"\0\x61\x73\x6d\x01\0\0\0\x01\x0d\x03\x60\0\0\x60\x01\x7f\0\x60\x01\x7e\x01\x7c\x02\x1e\x06\0\0\x01\x70\0\0\0\0\0\x01\0\0\x02\0\0\0\0\x03\x7e\0\0\0\0\x02\0\0\x03\x7d\x01";

const GLOBALS: [GlobalType; 2] = [
    GlobalType {
        val: ValType::I32,
        mutable: false,
    },
    GlobalType {
        val: ValType::I64,
        mutable: true,
    },
];

const PAGE: Limits = Limits { min: 1, max: None };

// The index of a type, a code under it, and the fault that this has at a token.
type Row<'a> = (u32, &'a [u8], Option<(FaultKind, u32)>);

// What references find in lists that are lent.
#[derive(Clone, Copy)]
struct Lent<'a> {
    types: &'a [FuncType],
    funcs: &'a [u32],
    globals: &'a [GlobalType],
    tables: &'a [Limits],
    memories: &'a [Limits],
}

impl<'a> Env for Lent<'a> {
    ghost use Rattle.wk_check.specs.Spaces.{answer_in, answers_of_kind};
    ghost use Rattle.wk_verdict_tests.specs.Lent.{lent};

    ghost answers = { λ l r. answer_in
        (lent l.types.now l.funcs.now l.tables.now l.memories.now l.globals.now) r };

    ghost of_kind = { λ l r. answers_of_kind
        (lent l.types.now l.funcs.now l.tables.now l.memories.now l.globals.now) r };

    fn answer(&self, reference: Ref) -> Answer<'_> {
        match reference {
            Ref::Ty(x) => match self.types.get(x as usize) {
                Some(ty) => Answer::Ty(ty),
                None => Answer::NoType,
            },
            Ref::Func(x) => match self.funcs.get(x as usize) {
                Some(ty) => match self.types.get(*ty as usize) {
                    Some(ty) => Answer::Func(ty),
                    None => Answer::FuncOfNoType,
                },
                None => Answer::NoFunc,
            },
            Ref::Global(x) => match self.globals.get(x as usize) {
                Some(ty) => Answer::Global(*ty),
                None => Answer::NoGlobal,
            },
            Ref::Table if self.tables.is_empty() => Answer::Absent,
            Ref::Table => Answer::Present,
            Ref::Memory if self.memories.is_empty() => Answer::Absent,
            Ref::Memory => Answer::Present,
        }
    }
}

// What references find where types lie in one room, and all else in lists that are lent.
#[derive(Clone, Copy)]
struct InRoom<'a> {
    types: &'a TypeList,
    rest: Lent<'a>,
}

impl<'a> Scope for InRoom<'a> {
    ghost use Rattle.wk_check.specs.Spaces.{answer_in, answers_of_kind};
    ghost use Rattle.wk_verdict_tests.specs.Lent.{lent};

    ghost answers = { λ s r. answer_in
        (lent s.types.now s.rest.funcs.now s.rest.tables.now s.rest.memories.now s.rest.globals.now)
        r };

    ghost of_kind = { λ s r. answers_of_kind
        (lent s.types.now s.rest.funcs.now s.rest.tables.now s.rest.memories.now s.rest.globals.now)
        r };

    fn look_up(&self, reference: Ref) -> Lookup<'_> {
        match reference {
            Ref::Ty(x) => match self.types.get(x as usize) {
                Some(ty) => Lookup::Ty(ty),
                None => Lookup::NoType,
            },
            Ref::Func(x) => match self.rest.funcs.get(x as usize) {
                Some(ty) => match self.types.get(*ty as usize) {
                    Some(ty) => Lookup::Func(ty),
                    None => Lookup::FuncOfNoType,
                },
                None => Lookup::NoFunc,
            },
            _ => self.rest.look_up(reference),
        }
    }
}

// The verdict of a body under the type of an index.
fn judged<E: Scope>(
    alloc: Global,
    env: &E,
    own_type: u32,
    code: &[u8],
    meter: &mut Meter,
) -> Result<BodyVerdict, Fail>
    requires { meter.old < 100 }
{
    let body = read_body_in(alloc, code, Profile::Extended)?;
    Ok(judge_body(env, own_type, &body, meter)?)
}

// The verdict of the same body by the call that counts nothing, and by the one that reads it too.
fn typed<E: Scope>(
    alloc: Global,
    env: &E,
    own_type: u32,
    code: &[u8],
    rooms: &mut Rooms,
) -> Result<(BodyVerdict, BodyVerdict), Fail> {
    let body = read_body_in(alloc, code, Profile::Extended)?;
    let verdict = type_body(env, own_type, &body, &mut rooms.room)?;
    let cursor = Cursor::new(code);
    let encoded = type_encoded_body(alloc, env, own_type, Profile::Extended, &cursor, rooms)?;
    Ok((verdict, encoded))
}

// The verdict on a body that has this fault at a token, or none.
fn verdict_of(fault: Option<(FaultKind, u32)>) -> BodyVerdict {
    match fault {
        None => BodyVerdict::Valid,
        Some((kind, token)) => BodyVerdict::Invalid { kind, token },
    }
}

// Judges bodies, each under the type of an index, with one meter and in one room: valid, or a fault and its token.
fn looks<E: Scope>(rt: &impl Abort, alloc: Global, env: &E, rows: &[Row]) -> Result<(), Fail> {
    let mut meter = Meter::new(alloc);
    let mut rooms = Rooms::new(alloc);
    let mut count = 0;
    for &(own_type, code, fault) in rows {
        assert_eq!(rt; meter.typed(), count);
        assert!(rt; count < 100);
        count += 1;
        let verdict = judged(alloc, env, own_type, code, &mut meter)?;
        let wanted = verdict_of(fault);
        assert_eq!(rt; verdict, wanted, "{code:?}");
        let again = typed(alloc, env, own_type, code, &mut rooms)?;
        assert_eq!(rt; again, (wanted, wanted), "{code:?}");
    }
    assert_eq!(rt; meter.typed(), count);
    Ok(())
}

// The same where the functions are one of the second type and one of a type that is not there, and the globals a constant i32
// and an i64: with types that are held, and with the same in one room.
fn judges(
    rt: &impl Abort,
    alloc: Global,
    tables: &[Limits],
    memories: &[Limits],
    rows: &[Row],
) -> Result<(), Fail> {
    let module = read_in(alloc, TYPES, Profile::Extended)?;
    let env = Lent {
        types: module.parts().types.as_slice(),
        funcs: &[1, 9],
        globals: &GLOBALS,
        tables,
        memories,
    };
    looks(rt, alloc, &env, rows)?;
    let mut types = TypeList::new(alloc);
    // Behind the header, and the id, the size and the count of the section.
    let mut cursor = Cursor::new(TYPES.get(11..).unwrap_or(&[]));
    for _ in 0..3 {
        types.read_next(&mut cursor)?;
    }
    let rest = Lent { types: &[], ..env };
    let in_room = InRoom {
        types: &types,
        rest,
    };
    looks(rt, alloc, &in_room, rows)
}

#[test]
fn judges_valid_bodies(rt: HostRuntime) -> Result<(), Fail> {
    let rows: [Row; 8] = [
        (0, b"\0\x0b", None),
        (1, b"\0\x20\0\x0b", None),
        (2, b"\0\x41\0\x41\x01\x0b", None),
        (0, b"\0\x41\0\x10\0\x1a\x0b", None),
        (1, b"\0\x41\0\x41\0\x11\x01\0\x0b", None),
        (0, b"\0\x41\0\x28\x02\0\x1a\x0b", None),
        (0, b"\0\x42\0\x24\x01\x23\0\x1a\x0b", None),
        (0, b"\0\x41\0\x02\x01\x45\x0b\x1a\x0b", None),
    ];
    judges(&rt, rt.alloc(), &[PAGE], &[PAGE], &rows)
}

#[test]
fn judges_faulty_bodies(rt: HostRuntime) -> Result<(), Fail> {
    let rows: [Row; 8] = [
        // under a type that is not there
        (3, b"\0\x1a\x0b", Some((UnknownType, 0))),
        // a function of a type that is not there, and no function
        (0, b"\0\x10\x01\x0b", Some((UnknownType, 0))),
        (0, b"\0\x10\x02\x0b", Some((UnknownFunc, 0))),
        (0, b"\0\x41\0\x11\x03\0\x0b", Some((UnknownType, 1))),
        (0, b"\0\x41\0\x24\0\x0b", Some((GlobalImmutable, 1))),
        (0, b"\0\x23\x02\x1a\x0b", Some((UnknownGlobal, 0))),
        (0, b"\0\x41\0\x28\x03\0\x1a\x0b", Some((Alignment, 1))),
        (2, b"\0\x41\0\x0b", Some((StackUnderflow, 1))),
    ];
    judges(&rt, rt.alloc(), &[PAGE], &[PAGE], &rows)
}

// The meter is as good after a fault as before.
#[test]
fn judges_one_after_the_other(rt: HostRuntime) -> Result<(), Fail> {
    let rows: [Row; 6] = [
        (0, b"\0\x41\0\x11\x01\0\x0b", Some((UnknownTable, 1))),
        (0, b"\0\x0b", None),
        (
            2,
            b"\0\x41\0\x02\x40\x41\0\x3f\0\x0b\x0b",
            Some((UnknownMemory, 3)),
        ),
        (2, b"\0\x41\0\x0b", Some((StackUnderflow, 1))),
        (0, b"\x01\x02\x7f\x20\x01\x1a\x0b", None),
        (0, b"\0\x1a\x0b", Some((StackUnderflow, 0))),
    ];
    judges(&rt, rt.alloc(), &[], &[], &rows)
}

// Judges bodies by what the code of a module sees, which has these types and imports. Its own functions are one of the first type
// and one of a type that is not there.
fn judges_by_parts(
    rt: &impl Abort,
    alloc: Global,
    parts: &Parts,
    rows: &[Row],
) -> Result<(), Fail> {
    let lists = Lists {
        profile: parts.profile,
        types: parts.types.as_slice(),
        imports: parts.imports.as_slice(),
        funcs: &[0, 9],
        tables: &[],
        memories: &[],
        globals: &[],
        exports: &[],
        start: None,
        elems: &[],
        datas: &[],
    };
    let whole = Whole::of(alloc, lists)?;
    looks(rt, alloc, &whole, rows)
}

#[test]
fn judges_by_lists(rt: HostRuntime) -> Result<(), Fail> {
    let rows: [Row; 8] = [
        (1, b"\0\x20\0\x10\0\x10\x02\x0b", None),
        (2, b"\0\x23\0\x10\x01\x0b", None),
        (0, b"\0\x41\0\x11\0\0\x3f\0\x1a\x0b", None),
        (0, b"\0\x10\x03\x0b", Some((UnknownType, 0))),
        (0, b"\0\x10\x04\x0b", Some((UnknownFunc, 0))),
        (0, b"\0\x23\0\x24\0\x0b", Some((GlobalImmutable, 1))),
        (0, b"\0\x23\x02\x1a\x0b", Some((UnknownGlobal, 0))),
        (3, b"\0\x0b", Some((UnknownType, 0))),
    ];
    let module = read_in(rt.alloc(), IMPORTS, Profile::Core)?;
    judges_by_parts(&rt, rt.alloc(), module.parts(), &rows)
}

// What is wrong with constant expressions of i32, one after the other in one room, and with bodies: each stands at its item.
#[test]
fn finds_flaws_at_their_places(rt: HostRuntime) -> Result<(), Fail> {
    let rows: [(&[u8], Option<(FaultKind, u32)>); 6] = [
        (b"\x41\0\x0b", None),
        (b"\x23\0\x0b", None),
        // a nop, and a global that can be set, are not constant
        (b"\x41\0\x01\x0b", Some((ConstantExpected, 1))),
        (b"\x23\x01\x0b", Some((ConstantExpected, 0))),
        (b"\x42\0\x0b", Some((TypeMismatch, 1))),
        (b"\x41\0\x41\0\x0b", Some((StackHeight, 2))),
    ];
    let alloc = rt.alloc();
    let env = Lent {
        types: &[],
        funcs: &[],
        globals: &GLOBALS,
        tables: &[],
        memories: &[],
    };
    let mut room = Room::new(alloc);
    for (code, fault) in rows {
        let expr = read_expr_in(alloc, code, Profile::Core)?;
        let flaw = constant_flaw(&env, ValType::I32, &expr, &mut room)?;
        let wanted = verdict_of(fault);
        assert_eq!(rt; flaw, wanted.flaw(), "{code:?}");
    }
    let place = Place {
        section: 6,
        item: 2,
        token: None,
    };
    let kind = StackHeight;
    assert_eq!(rt; Flaw::of(kind).at(6, 2), Fault { kind, place });
    Ok(())
}

// A type, bytes that begin with a constant expression, what is wrong with it at a token, and how many bytes are left behind it.
type Constant = (ValType, &'static [u8], Option<(FaultKind, u32)>, usize);

const CONSTANTS: [Constant; 14] = [
    // a constant of each type, short and padded, and what may come behind it
    (ValType::I32, b"\x41\x7f\x0b\xaa", None, 1),
    (ValType::I32, b"\x41\x80\x80\0\x0b", None, 0),
    (
        ValType::I64,
        b"\x42\x80\x80\x80\x80\x80\x80\x80\x80\x80\x7f\x0b",
        None,
        0,
    ),
    (ValType::F32, b"\x43\0\0\x80\x3f\x0b", None, 0),
    (ValType::F64, b"\x44\0\0\0\0\0\0\xf0\x3f\x0b\x0b", None, 1),
    // one of another type
    (ValType::I64, b"\x41\0\x0b", Some((TypeMismatch, 1)), 0),
    (
        ValType::F32,
        b"\x44\0\0\0\0\0\0\0\0\x0b",
        Some((TypeMismatch, 1)),
        0,
    ),
    // globals
    (ValType::I32, b"\x23\0\x0b\x0b", None, 1),
    (ValType::F32, b"\x23\0\x0b", Some((TypeMismatch, 1)), 0),
    (
        ValType::I64,
        b"\x23\x01\x0b",
        Some((ConstantExpected, 0)),
        0,
    ),
    (ValType::I32, b"\x23\x02\x0b", Some((UnknownGlobal, 0)), 0),
    // none, two, and what is not constant
    (ValType::I32, b"\x0b\xaa", Some((StackUnderflow, 0)), 1),
    (ValType::I32, b"\x41\0\x41\0\x0b", Some((StackHeight, 2)), 0),
    (
        ValType::I32,
        b"\x41\0\x01\x0b\x0b",
        Some((ConstantExpected, 1)),
        1,
    ),
];

// The place of the first row that is judged otherwise, each in the rooms of those before it.
fn wrong_constant(alloc: Global, env: &Lent) -> Option<usize> {
    let mut rooms = Rooms::new(alloc);
    for (place, (ty, bytes, fault, left)) in CONSTANTS.iter().enumerate() {
        let mut cursor = Cursor::new(bytes);
        let wanted = verdict_of(*fault).flaw();
        match next_constant_flaw(alloc, env, *ty, Profile::Core, &mut cursor, &mut rooms) {
            Ok(flaw) if flaw == wanted && cursor.rest().len() == *left => {}
            _ => return Some(place),
        }
    }
    None
}

// A type, bytes that begin with no constant expression of 1.0, and the fault of reading them.
const NO_CONSTANTS: [(ValType, &[u8], ReadKind, u32); 7] = [
    (ValType::I32, b"", ReadKind::UnexpectedEnd, 0),
    (ValType::I32, b"\x41", ReadKind::UnexpectedEnd, 1),
    (ValType::I32, b"\x41\0", ReadKind::UnexpectedEnd, 2),
    (
        ValType::I32,
        b"\x41\x80\x80\x80\x80\x80\0\x0b",
        ReadKind::IntTooLong,
        1,
    ),
    (
        ValType::I64,
        b"\x41\xff\xff\xff\xff\x3f\x0b",
        ReadKind::IntTooLarge,
        1,
    ),
    (ValType::F32, b"\x43\0\0\0", ReadKind::UnexpectedEnd, 1),
    // a sign extension
    (ValType::I32, b"\x41\0\xc0\x0b", ReadKind::UnknownOpcode, 2),
];

fn wrong_refusal(alloc: Global, env: &Lent) -> Option<usize> {
    let mut rooms = Rooms::new(alloc);
    for (place, (ty, bytes, kind, at)) in NO_CONSTANTS.iter().enumerate() {
        let mut cursor = Cursor::new(bytes);
        let wanted = ReadFault {
            kind: *kind,
            at: *at,
        };
        match next_constant_flaw(alloc, env, *ty, Profile::Core, &mut cursor, &mut rooms) {
            Err(fault) if fault == wanted && cursor.rest().len() == bytes.len() => {}
            _ => return Some(place),
        }
    }
    None
}

// A sign extension, which may be read in the extended profile, and is not constant.
fn extended_flaw(alloc: Global, env: &Lent) -> Result<Option<Flaw>, ReadFault> {
    let mut rooms = Rooms::new(alloc);
    let mut cursor = Cursor::new(b"\x41\0\xc0\x0b");
    let ty = ValType::I32;
    next_constant_flaw(alloc, env, ty, Profile::Extended, &mut cursor, &mut rooms)
}

#[test]
fn judges_constants_that_are_read(rt: HostRuntime) -> Result<(), Fail> {
    let env = Lent {
        types: &[],
        funcs: &[],
        globals: &GLOBALS,
        tables: &[],
        memories: &[],
    };
    assert_eq!(rt; wrong_constant(rt.alloc(), &env), None);
    assert_eq!(rt; wrong_refusal(rt.alloc(), &env), None);
    let wanted = verdict_of(Some((ConstantExpected, 1))).flaw();
    assert_eq!(rt; extended_flaw(rt.alloc(), &env), Ok(wanted));
    Ok(())
}
