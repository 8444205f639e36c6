//! The entry of an element segment that a fault means.

ghost use Rattle.std.specs.Prelude.{◌≡◌, ◌↔◌, IfOk, IsTrue};
ghost use Rattle.wk_bytes.specs.Leb.{Answers};
ghost use Rattle.wk_body.specs.Reading.{expr_at};
ghost use Rattle.wk_body.specs.Reads.{Parses, Reads};
ghost use Rattle.wk_module.specs.declared.types.Parts.{Parts};
ghost use Rattle.wk_module.specs.Modules.{Spells};
ghost use Rattle.wk_place.specs.Entries.{IsEntry, IsOfFuncs};
ghost use Rattle.wk_place.specs.Seeking.{defined_at, entry_at, known_at, passed, unknown_at, unknown_from};

use crate::items::ItemReader;
use crate::place::{find_place, imported_funcs};
use crate::sections::find_section;
use std::alloc::Global;
use wk_bytes::{Cursor, OutOfMemory, ReadFault, ReadKind};
use wk_check::{Fault, FaultKind, Place};
use wk_module::{Profile, section_id};

// How many functions an input defines, by the count of its function section (5.5.6).
fn defined_funcs(bytes: &[u8]) -> Result<u32, ReadFault>
    ensures { Answers (λ n. n) result (defined_at bytes.now) }
{
    let Some(section) = find_section(bytes, section_id::FUNCTION) else {
        return Ok(0);
    };
    section.cursor().u32()
}

// How many functions an input has, imported and defined (2.5.1), if they can be counted.
fn known_funcs(bytes: &[u8]) -> Option<u64>
    ensures { result ≡ known_at bytes.now }
{
    let imported = imported_funcs(bytes).ok()?;
    let defined = defined_funcs(bytes).ok()?;
    Some(u64::from(imported) + u64::from(defined))
}

// Of so many functions of a segment the first that is not below a count.
#[tactic(auto, using(crate::proofs::EntrySteps::fails, crate::proofs::EntrySteps::meets, crate::proofs::EntrySteps::goes_on, crate::proofs::EntrySteps::ends))]
fn first_unknown(known: u64, count: u32, funcs: &mut Cursor<'_>) -> Result<Option<u32>, ReadFault>
    ensures { Reads (λ entry. entry) result
        (unknown_from known 0 count funcs.old.end funcs.old.rest) }
{
    for entry in 0..count {
        let func = funcs.u32()?;
        if u64::from(func) >= known {
            return Ok(Some(entry));
        }
    }
    Ok(None)
}

// Passes the offset of a segment.
fn pass_offset(alloc: Global, profile: Profile, cursor: &mut Cursor<'_>) -> Result<(), ReadFault>
    ensures { Parses (λ _. tt) (passed (expr_at profile)) cursor.old result cursor.new }
{
    ItemReader::new(alloc, profile).pass_expr(cursor)
}

// The first unknown function of the segment that the cursor stands at, where the segment has several.
#[tactic(auto, unfolding(crate::specs::Seeking::unknown_at))]
fn unknown_func(
    alloc: Global,
    profile: Profile,
    known: u64,
    segment: Cursor<'_>,
) -> Result<Option<u32>, ReadFault>
    ensures { Reads (λ entry. entry) result
        (unknown_at profile known segment.entry.end segment.entry.rest) }
{
    let mut cursor = segment;
    let _table = cursor.u32()?;
    pass_offset(alloc, profile, &mut cursor)?;
    let count = cursor.u32()?;
    if count < 2 {
        return Ok(None);
    }
    first_unknown(known, count, &mut cursor)
}

// The first unknown function of the segment at a place.
#[tactic(auto, unfolding(crate::specs::Seeking::entry_at))]
fn find_entry(
    alloc: Global,
    bytes: &[u8],
    profile: Profile,
    place: &Place,
) -> Result<Option<u32>, ReadFault>
    ensures { Reads (λ entry. entry) result (entry_at profile bytes.now place.now) }
{
    let Some(segment) = find_place(alloc, bytes, profile, place)? else {
        return Ok(None);
    };
    let Some(known) = known_funcs(bytes) else {
        return Ok(None);
    };
    unknown_func(alloc, profile, known, segment)
}

// Whether a fault is that of the functions of an element segment.
fn is_of_funcs(fault: &Fault) -> bool
    ensures { IsTrue result ↔ IsOfFuncs fault.now }
{
    fault.kind == FaultKind::UnknownFunc
        && fault.place.section == section_id::ELEMENT
        && fault.place.token.is_none()
}

/// The entry of an element segment that a fault of a module of the profile means, in the bytes that spell the module: where the fault is that
/// the module has not each of several functions of the segment, the number of the first that it has not, counted from 0. No entry is meant by
/// another fault, nor by that of a segment of one function.
///
/// It reads the segments up to that one, the imports, and the count of the function section.
///
/// # Errors
///
/// Want of memory.
pub fn entry_of_fault(
    alloc: Global,
    bytes: &[u8],
    profile: Profile,
    fault: &Fault,
) -> Result<Option<u32>, OutOfMemory>
    ensures { (m : Parts) → m.profile ≡ profile → Spells bytes.now m
        → IfOk result (IsEntry m fault.now) }
{
    if !is_of_funcs(fault) {
        return Ok(None);
    }
    match find_entry(alloc, bytes, profile, &fault.place) {
        Ok(entry) => Ok(entry),
        Err(fault) => match fault.kind {
            ReadKind::Memory => Err(OutOfMemory),
            _ => Ok(None),
        },
    }
}
