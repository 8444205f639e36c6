//! Items that are read where they stand.

use std::test::Fail;
use wk_bytes::{Cursor, ReadFault, ReadKind};
use wk_module::{
    GlobalType, ImportDesc, Kind, Limits, ValType, read_export, read_global_type, read_import_desc,
    read_memory_type, read_sized_bytes, read_table_type,
};

// Bytes, the kind of the fault that they have, and where it lies.
type Bad = (&'static [u8], ReadKind, u32);

// Whether the fault is that of the row.
fn is_fault(fault: ReadFault, row: Bad) -> bool {
    fault.kind == row.1 && fault.at == row.2
}

// What imports are of, and how many bytes are left behind each.
const IMPORTS: [(&[u8], ImportDesc, usize); 5] = [
    (b"\x01m\x02fn\x00\x05", ImportDesc::Func(5), 0),
    (
        b"\x00\x00\x01\x70\x01\x02\x03\xaa",
        ImportDesc::Table(Limits {
            min: 2,
            max: Some(3),
        }),
        1,
    ),
    (
        b"\x01m\x00\x02\x00\x80\x01",
        ImportDesc::Memory(Limits {
            min: 128,
            max: None,
        }),
        0,
    ),
    (
        b"\x00\x01g\x03\x7e\x01\x00\x00",
        ImportDesc::Global(GlobalType {
            val: ValType::I64,
            mutable: true,
        }),
        2,
    ),
    (
        b"\x02\xc3\xa9\x00\x03\x7d\x00",
        ImportDesc::Global(GlobalType {
            val: ValType::F32,
            mutable: false,
        }),
        0,
    ),
];

// Each of the two names, the kind, and what stands behind each kind.
const BAD_IMPORTS: [Bad; 10] = [
    (b"\x02m", ReadKind::UnexpectedEnd, 1),
    (b"\x01\xff\x00\x00\x00", ReadKind::BadUtf8, 1),
    (b"\x01m", ReadKind::UnexpectedEnd, 2),
    (b"\x01m\x01\xff\x00\x05", ReadKind::BadUtf8, 3),
    (b"\x00\x00", ReadKind::UnexpectedEnd, 2),
    (b"\x00\x00\x04\x00", ReadKind::BadByte, 2),
    (
        b"\x00\x00\x00\xff\xff\xff\xff\x1f",
        ReadKind::IntTooLarge,
        3,
    ),
    (b"\x00\x00\x01\x6f\x00\x00", ReadKind::BadByte, 3),
    (b"\x00\x00\x02\x01\x00", ReadKind::UnexpectedEnd, 5),
    (b"\x00\x00\x03\x7f\x02", ReadKind::BadByte, 4),
];

// The first import that is not read so, by its place in the tables.
fn wrong_import() -> Option<usize> {
    for (place, row) in IMPORTS.iter().enumerate() {
        let mut cursor = Cursor::new(row.0);
        if read_import_desc(&mut cursor) != Ok(row.1) || cursor.rest().len() != row.2 {
            return Some(place);
        }
    }
    for (place, row) in BAD_IMPORTS.iter().enumerate() {
        match read_import_desc(&mut Cursor::new(row.0)) {
            Err(fault) if is_fault(fault, *row) => {}
            _ => return Some(100 + place),
        }
    }
    None
}

#[test]
fn reads_imports(rt: HostRuntime) -> Result<(), Fail> {
    assert_eq!(rt; wrong_import(), None);
    Ok(())
}

// Exports of each kind, one behind the other.
const EXPORTS: &[u8] = b"\x02ab\x03\x07\x00\x00\x80\x01\x02\xc3\xa9\x02\x00\x01t\x01\x01";

const NAMED: [(&str, Kind, u32); 4] = [
    ("ab", Kind::Global, 7),
    ("", Kind::Func, 128),
    ("é", Kind::Memory, 0),
    ("t", Kind::Table, 1),
];

const BAD_EXPORTS: [Bad; 5] = [
    (b"", ReadKind::UnexpectedEnd, 0),
    (b"\x02a", ReadKind::UnexpectedEnd, 1),
    (b"\x01\x80\x00\x00", ReadKind::BadUtf8, 1),
    (b"\x01a\x04\x00", ReadKind::BadByte, 2),
    (b"\x01a\x00", ReadKind::UnexpectedEnd, 3),
];

// The first export that is not read so, by its place in the tables.
fn wrong_export() -> Option<usize> {
    let mut cursor = Cursor::new(EXPORTS);
    for (place, row) in NAMED.iter().enumerate() {
        match read_export(&mut cursor) {
            Ok(export) if export.name == row.0 && export.kind == row.1 && export.index == row.2 =>
                {}
            _ => return Some(place),
        }
    }
    for (place, row) in BAD_EXPORTS.iter().enumerate() {
        match read_export(&mut Cursor::new(row.0)) {
            Err(fault) if is_fault(fault, *row) => {}
            _ => return Some(100 + place),
        }
    }
    None
}

#[test]
fn reads_exports(rt: HostRuntime) -> Result<(), Fail> {
    assert_eq!(rt; wrong_export(), None);
    Ok(())
}

// Limits alone, or behind the type of elements.
const MEMORIES: [(&[u8], Result<Limits, (ReadKind, u32)>); 5] = [
    (b"\x00\x03", Ok(Limits { min: 3, max: None })),
    (
        b"\x01\x04\x02",
        Ok(Limits {
            min: 4,
            max: Some(2),
        }),
    ),
    (b"\x02\x00", Err((ReadKind::BadByte, 0))),
    (b"\x00", Err((ReadKind::UnexpectedEnd, 1))),
    (b"\x01\x00\x80", Err((ReadKind::UnexpectedEnd, 2))),
];

const TABLES: [(&[u8], Result<Limits, (ReadKind, u32)>); 4] = [
    (b"\x70\x00\x03", Ok(Limits { min: 3, max: None })),
    (
        b"\x70\x01\x04\x02",
        Ok(Limits {
            min: 4,
            max: Some(2),
        }),
    ),
    (b"\x6f\x00\x03", Err((ReadKind::BadByte, 0))),
    (b"\x70\x03\x03", Err((ReadKind::BadByte, 1))),
];

fn wrong_limits() -> Option<usize> {
    for (place, row) in MEMORIES.iter().enumerate() {
        if read_memory_type(&mut Cursor::new(row.0)).map_err(|e| (e.kind, e.at)) != row.1 {
            return Some(place);
        }
    }
    for (place, row) in TABLES.iter().enumerate() {
        if read_table_type(&mut Cursor::new(row.0)).map_err(|e| (e.kind, e.at)) != row.1 {
            return Some(100 + place);
        }
    }
    None
}

#[test]
fn reads_limits(rt: HostRuntime) -> Result<(), Fail> {
    assert_eq!(rt; wrong_limits(), None);
    Ok(())
}

// Types of globals, and how many bytes are left behind each.
const GLOBAL_TYPES: [(&[u8], ValType, bool, usize); 4] = [
    (b"\x7f\x00", ValType::I32, false, 0),
    (b"\x7e\x01\x42\x00\x0b", ValType::I64, true, 3),
    (b"\x7d\x01", ValType::F32, true, 0),
    (b"\x7c\x00\xaa", ValType::F64, false, 1),
];

const BAD_GLOBAL_TYPES: [Bad; 4] = [
    (b"", ReadKind::UnexpectedEnd, 0),
    (b"\x7b\x00", ReadKind::BadByte, 0),
    (b"\x7f", ReadKind::UnexpectedEnd, 1),
    (b"\x7f\x02", ReadKind::BadByte, 1),
];

fn wrong_global_type() -> Option<usize> {
    for (place, (bytes, val, mutable, left)) in GLOBAL_TYPES.iter().enumerate() {
        let mut cursor = Cursor::new(bytes);
        let ty = GlobalType {
            val: *val,
            mutable: *mutable,
        };
        if read_global_type(&mut cursor) != Ok(ty) || cursor.rest().len() != *left {
            return Some(place);
        }
    }
    None
}

fn wrong_bad_global_type() -> Option<usize> {
    for (place, row) in BAD_GLOBAL_TYPES.iter().enumerate() {
        let mut cursor = Cursor::new(row.0);
        match read_global_type(&mut cursor) {
            Err(fault) if is_fault(fault, *row) && cursor.rest().len() == row.0.len() => {}
            _ => return Some(place),
        }
    }
    None
}

#[test]
fn reads_global_types(rt: HostRuntime) -> Result<(), Fail> {
    assert_eq!(rt; wrong_global_type(), None);
    assert_eq!(rt; wrong_bad_global_type(), None);
    Ok(())
}

const BAD_BYTES: [Bad; 3] = [
    (b"\x80", ReadKind::UnexpectedEnd, 0),
    (b"\x03\xaa\xbb", ReadKind::UnexpectedEnd, 1),
    (b"\x80\x80\x80\x80\x80\x00", ReadKind::IntTooLong, 0),
];

fn wrong_bytes() -> Option<usize> {
    let mut cursor = Cursor::new(b"\x82\x00\xaa\xbb\x00\xcc");
    if read_sized_bytes(&mut cursor) != Ok(b"\xaa\xbb".as_slice()) {
        return Some(0);
    }
    if read_sized_bytes(&mut cursor) != Ok(b"".as_slice()) || cursor.at() != 5 {
        return Some(1);
    }
    for (place, row) in BAD_BYTES.iter().enumerate() {
        match read_sized_bytes(&mut Cursor::new(row.0)) {
            Err(fault) if is_fault(fault, *row) => {}
            _ => return Some(100 + place),
        }
    }
    None
}

#[test]
fn reads_bytes(rt: HostRuntime) -> Result<(), Fail> {
    assert_eq!(rt; wrong_bytes(), None);
    Ok(())
}
