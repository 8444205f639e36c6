//! Modules: read, measured, written, changed and settled.

use std::alloc::{AllocError, Global};
use std::test::Fail;
use wk_bytes::{Items, ReadFault, ReadKind};
use wk_module::{
    FuncType, Kind, Lists, Module, Profile, ValType, custom_len, encode, encoded_len, export_len,
    framed_len, import_count, named_len, read, read_in, section_len, type_len, whole_len,
};
use wk_samples::modules::{
    CUSTOMS_OF_WHOLE, EXPORTED, EXTENDED, HEADER, LONGER, OF_WHOLE, PRIVATE, SHORTEST, WHOLE,
};

// Whether it is the length of these bytes.
fn is_length(len: Option<u32>, bytes: &[u8]) -> bool {
    match len {
        Some(len) => len as usize == bytes.len(),
        None => false,
    }
}

// Whether the module is measured and written as these bytes.
fn is_written(alloc: Global, module: &Module, bytes: &[u8]) -> bool {
    let is_measured = is_length(encoded_len(module), bytes);
    match encode(alloc, module) {
        Ok(written) => is_measured && written.as_slice() == bytes,
        Err(_) => false,
    }
}

// Bytes, the profile by which they are read, and their written form.
type Row = (&'static [u8], Profile, &'static [u8]);

static ROWS: [Row; 4] = [
    (WHOLE, Profile::Core, WHOLE),
    (LONGER, Profile::Core, SHORTEST),
    (WHOLE, Profile::Extended, WHOLE),
    (EXTENDED, Profile::Extended, EXTENDED),
];

// Whether bytes are read and written so.
fn becomes(alloc: Global, row: Row) -> bool {
    let (bytes, profile, written) = row;
    match read_in(alloc, bytes, profile) {
        Ok(module) => is_written(alloc, &module, written) && module.parts().profile == profile,
        Err(_) => false,
    }
}

#[test]
fn reads_and_writes(rt: HostRuntime) -> Result<(), Fail> {
    for row in &ROWS {
        assert!(rt; becomes(rt.alloc(), *row), "{row:?}");
    }
    Ok(())
}

#[test]
fn refuses_the_other_profile(rt: HostRuntime) -> Result<(), Fail> {
    let index = ReadFault {
        kind: ReadKind::BadByte,
        at: 31,
    };
    assert_eq!(rt; read(rt.alloc(), EXTENDED).err(), Some(index));
    Ok(())
}

// Whether the sections of the whole module are as long as their contents, which is told of the lists alone, too.
fn are_sections_measured(module: &Module) -> bool {
    let lists = Lists::of(module.parts(), &[0]);
    for row in OF_WHOLE {
        let has_lengths = is_length(section_len(module, row.id), row.bytes)
            && is_length(lists.contents_len(row.id), row.bytes);
        if !has_lengths {
            return false;
        }
    }
    section_len(module, 10) == Some(6)
        && section_len(module, 0).is_none()
        && section_len(module, 12).is_none()
}

// Whether its first type and its first export are so long.
fn are_items_measured(module: &Module) -> bool {
    let parts = module.parts();
    match (
        parts.types.as_slice().first(),
        parts.exports.as_slice().first(),
    ) {
        (Some(ty), Some(export)) => type_len(ty) == Some(3) && export_len(export) == Some(4),
        _ => false,
    }
}

fn are_customs_measured(module: &Module) -> bool {
    let customs = module.parts().customs.as_slice();
    for (custom, bytes) in customs.iter().zip(CUSTOMS_OF_WHOLE) {
        let len = custom_len(custom);
        if !is_length(len, bytes) || named_len(&custom.name, custom.bytes.len()) != len {
            return false;
        }
    }
    customs.len() == CUSTOMS_OF_WHOLE.len()
}

// The imports of the whole module, one of each kind, and lengths of sections of 9 and 30 bytes.
fn counts(module: &Module) -> bool {
    let imports = module.parts().imports.as_slice();
    import_count(imports, Kind::Func) == 1
        && import_count(imports, Kind::Global) == 1
        && framed_len(30) == Some(32)
        && whole_len(&[0, 9, 30], 5) == Some(56)
}

fn is_whole_measured(alloc: Global) -> bool {
    match read(alloc, WHOLE) {
        Ok(module) => {
            are_sections_measured(&module)
                && are_items_measured(&module)
                && are_customs_measured(&module)
                && counts(&module)
        }
        Err(_) => false,
    }
}

fn empty_is_a_header(alloc: Global) -> bool {
    is_written(alloc, &Module::empty(alloc, Profile::Core), HEADER)
}

#[test]
fn measures(rt: HostRuntime) -> Result<(), Fail> {
    assert!(rt; is_whole_measured(rt.alloc()) && empty_is_a_header(rt.alloc()));
    Ok(())
}

// The module without its exports.
fn without_exports(alloc: Global, module: Module) -> Module {
    let mut parts = module.into_parts();
    parts.exports = Items::new(alloc);
    Module::of(parts)
}

// Whether the first custom section stands at a place, and the module is written so.
fn is_settled(alloc: Global, module: &Module, place: u8, bytes: &[u8]) -> bool {
    let customs = module.parts().customs.as_slice();
    let is_placed = match customs.first() {
        Some(custom) => custom.place == place,
        None => false,
    };
    is_placed && is_written(alloc, module, bytes)
}

// A section that becomes empty lowers the place of the custom section behind it.
fn settles(alloc: Global) -> bool {
    let Ok(module) = read(alloc, EXPORTED) else {
        return false;
    };
    let is_read = is_settled(alloc, &module, 7, EXPORTED);
    let private = without_exports(alloc, module);
    is_settled(alloc, &private, 3, PRIVATE) && is_read
}

#[test]
fn lowers_the_place_of_a_custom(rt: HostRuntime) -> Result<(), Fail> {
    assert!(rt; settles(rt.alloc()));
    Ok(())
}

// A copy of a type from i32 to i64.
fn copies_type(alloc: Global) -> Result<bool, AllocError> {
    let ty = FuncType {
        params: Items::from_vec(Vec::from_slice(alloc, &[ValType::I32])?),
        results: Items::from_vec(Vec::from_slice(alloc, &[ValType::I64])?),
    };
    let copy = ty.copy(alloc)?;
    Ok(
        copy.params.as_slice() == [ValType::I32].as_slice()
            && copy.results.as_slice() == [ValType::I64].as_slice(),
    )
}

#[test]
fn copies(rt: HostRuntime) -> Result<(), Fail> {
    assert_eq!(rt; copies_type(rt.alloc()), Ok(true));
    Ok(())
}
