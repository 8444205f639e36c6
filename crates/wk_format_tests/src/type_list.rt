//! Function types whose lists lie in one room, which is used again.

use std::alloc::{AllocError, Global};
use std::test::Fail;
use wk_bytes::{Cursor, ReadFault, ReadKind};
use wk_module::{FuncTypeRef, TypeList, ValType};

const I32: ValType = ValType::I32;

const I64: ValType = ValType::I64;

const F32: ValType = ValType::F32;

const F64: ValType = ValType::F64;

// Parameters and results.
type Row = (&'static [ValType], &'static [ValType]);

const THREE: &[u8] = b"\x60\x02\x7f\x7e\x01\x7d\x60\x00\x00\x60\x01\x7c\x00";

const ARE_THREE: [Row; 3] = [(&[I32, I64], &[F32]), (&[], &[]), (&[F64], &[])];

// Fewer and more parameters and results than stood in the same places before.
const OTHERS: &[u8] = b"\x60\x00\x02\x7c\x7c\x60\x81\x00\x7f\x00\x60\x00\x00\x60\x01\x7e\x01\x7d";

const ARE_OTHERS: [Row; 4] = [
    (&[], &[F64, F64]),
    (&[I32], &[]),
    (&[], &[]),
    (&[I64], &[F32]),
];

// Reads so many types.
fn read_types(list: &mut TypeList, bytes: &[u8], count: usize) -> Result<usize, ReadFault> {
    if bytes.len() > 1000 {
        return Ok(bytes.len());
    }
    let mut cursor = Cursor::new(bytes);
    for _ in 0..count {
        list.read_next(&mut cursor)?;
    }
    Ok(cursor.rest().len())
}

fn is_type(ty: Option<FuncTypeRef<'_>>, row: Option<&Row>) -> bool {
    match (ty, row) {
        (Some(ty), Some(row)) => ty.params == row.0 && ty.results == row.1,
        (None, None) => true,
        _ => false,
    }
}

// Whether the list has these types and no others.
fn are(list: &TypeList, rows: &[Row]) -> bool {
    for (place, row) in rows.iter().enumerate() {
        if !is_type(list.get(place), Some(row)) {
            return false;
        }
    }
    list.len() == rows.len()
        && list.get(rows.len()).is_none()
        && list.get(usize::MAX).is_none()
        && is_type(list.last(), rows.last())
}

// Whether these types are read, with nothing left.
fn reads(list: &mut TypeList, bytes: &[u8], rows: &[Row]) -> bool {
    read_types(list, bytes, rows.len()) == Ok(0) && are(list, rows)
}

// A type with so many parameters and so many results, at most 127 of each.
fn wide(alloc: Global, params: u8, results: u8) -> Result<Vec<u8>, AllocError> {
    let mut bytes = Vec::new(alloc);
    bytes.push(0x60)?;
    for count in [params, results] {
        bytes.push(count)?;
        for _ in 0..count {
            bytes.push(0x7e)?;
        }
    }
    Ok(bytes)
}

fn is_wide(ty: Option<FuncTypeRef<'_>>, params: u8, results: u8) -> bool {
    match ty {
        Some(ty) => {
            ty.params.len() == usize::from(params)
                && ty.results.len() == usize::from(results)
                && ty.params.iter().all(|ty| *ty == I64)
                && ty.results.iter().all(|ty| *ty == I64)
        }
        None => false,
    }
}

// Whether a wide type is read into an empty list, which is empty again.
fn reads_wide(alloc: Global, list: &mut TypeList, params: u8, results: u8) -> bool {
    match wide(alloc, params, results) {
        Ok(bytes) => {
            let is_read = read_types(list, &bytes, 1) == Ok(0);
            let is_so = is_wide(list.get(0), params, results)
                && is_wide(list.last(), params, results);
            list.clear();
            is_read && is_so && are(list, &[])
        }
        Err(_) => false,
    }
}

// Wide types and narrow ones, in turns, in one list.
fn reads_in_turns(alloc: Global) -> bool {
    let mut list = TypeList::new(alloc);
    for (params, results) in [
        (33, 0),
        (0, 33),
        (32, 32),
        (1, 127),
        (100, 65),
        (31, 1),
        (0, 0),
    ] {
        if !reads_wide(alloc, &mut list, params, results) {
            return false;
        }
        if !reads(&mut list, OTHERS, &ARE_OTHERS) {
            return false;
        }
        list.clear();
    }
    true
}

// One list, over and over.
fn reads_again(alloc: Global) -> bool {
    let mut list = TypeList::new(alloc);
    let is_new = are(&list, &[]);
    let is_first = reads(&mut list, THREE, &ARE_THREE);
    list.clear();
    let is_clear = are(&list, &[]);
    let is_second = reads(&mut list, OTHERS, &ARE_OTHERS);
    list.clear();
    list.clear();
    is_new && is_first && is_clear && is_second && reads(&mut list, THREE, &ARE_THREE)
}

// Whether the types are those of `THREE`, so many times one after the other.
fn are_threes(list: &TypeList, times: usize) -> bool {
    for place in 0..list.len() {
        if !is_type(list.get(place), ARE_THREE.get(place % 3)) {
            return false;
        }
    }
    list.len() / 3 == times && list.len() % 3 == 0 && list.get(list.len()).is_none()
}

// More types than take no memory for where they lie, and more value types than room is made for at first: those in front stay as they are.
fn reads_many(alloc: Global) -> bool {
    let mut list = TypeList::new(alloc);
    for times in 0..40 {
        if !are_threes(&list, times) || read_types(&mut list, THREE, 3) != Ok(0) {
            return false;
        }
    }
    let are_many = are_threes(&list, 40) && is_type(list.last(), ARE_THREE.last());
    list.clear();
    are_many && are(&list, &[]) && reads(&mut list, OTHERS, &ARE_OTHERS)
}

#[test]
fn reads_types_in_room_of_others(rt: HostRuntime) -> Result<(), Fail> {
    assert!(rt; reads_again(rt.alloc()));
    assert!(rt; reads_in_turns(rt.alloc()));
    assert!(rt; reads_many(rt.alloc()));
    Ok(())
}

// Types that are not read behind those of `THREE`, with the kind of the fault and its offset.
const BAD: [(&[u8], ReadKind, u32); 8] = [
    (b"", ReadKind::UnexpectedEnd, 0),
    (b"\x61\x00\x00", ReadKind::BadByte, 0),
    (b"\x60", ReadKind::UnexpectedEnd, 1),
    (b"\x60\x02\x7f\x7b\x00", ReadKind::BadByte, 3),
    (b"\x60\x02\x7f", ReadKind::UnexpectedEnd, 3),
    (b"\x60\x00\x01\x40", ReadKind::BadByte, 3),
    (b"\x60\x00", ReadKind::UnexpectedEnd, 2),
    (
        b"\x60\x00\xff\xff\xff\xff\x0f\x7f",
        ReadKind::UnexpectedEnd,
        8,
    ),
];

// Whether the fault comes, and the list stays.
fn refuses(list: &mut TypeList, row: (&[u8], ReadKind, u32)) -> bool {
    let fault = ReadFault {
        kind: row.1,
        at: row.2,
    };
    row.0.len() <= 8
        && list.read_next(&mut Cursor::new(row.0)) == Err(fault)
        && are(list, &ARE_THREE)
}

// The first of them that is not refused so, in new room or in that of types that were cleared away.
fn wrong_fault(alloc: Global) -> Option<usize> {
    let mut list = TypeList::new(alloc);
    for (place, row) in BAD.iter().enumerate() {
        if !reads(&mut list, THREE, &ARE_THREE) || !refuses(&mut list, *row) {
            return Some(place);
        }
        list.clear();
        if !reads(&mut list, OTHERS, &ARE_OTHERS) {
            return Some(100 + place);
        }
        list.clear();
    }
    None
}

// A fault in the second of two types.
fn keeps_the_first(alloc: Global) -> bool {
    let mut list = TypeList::new(alloc);
    let fault = ReadFault {
        kind: ReadKind::BadByte,
        at: 10,
    };
    read_types(
        &mut list,
        b"\x60\x02\x7f\x7e\x01\x7d\x60\x03\x7f\x7f\x7b",
        2,
    ) == Err(fault)
        && are(&list, &[(&[I32, I64], &[F32])])
}

#[test]
fn keeps_types_where_it_refuses(rt: HostRuntime) -> Result<(), Fail> {
    assert_eq!(rt; wrong_fault(rt.alloc()), None);
    assert!(rt; keeps_the_first(rt.alloc()));
    Ok(())
}
