//! The body in which a fault of an input lies that spells no module.

ghost use Rattle.std.specs.Prelude.{◌≡◌, IfOk, MatchOption};
ghost use Rattle.wk_bytes.specs.Raw.{raw_view};
ghost use Rattle.wk_body.specs.Reading.{all_body_at};
ghost use Rattle.wk_body.specs.Reads.{Reads};
ghost use Rattle.wk_module.specs.Reading.{section_end};
ghost use Rattle.wk_place.specs.Places.{IsInBodyOf, IsInNoBody};
ghost use Rattle.wk_place.specs.Seeking.{broken_at, broken_in, fault_met, imported_at, IsFuncIf};

use crate::place::imported_funcs;
use crate::sections::find_section;
use crate::tokens::take_code;
use std::alloc::Global;
use wk_bytes::{Cursor, OutOfMemory, RawSection, ReadFault, ReadKind};
use wk_module::{Profile, Scratch, section_id};

// The fault of the bytes of a code, if they spell no body.
fn fault_of_body(
    alloc: Global,
    scratch: &mut Scratch,
    profile: Profile,
    code: &Cursor<'_>,
) -> Result<Option<ReadFault>, OutOfMemory>
    ensures { IfOk result
        (λ met. met ≡ fault_met (all_body_at profile code.now.end code.now.rest)) }
{
    match scratch.written_len(alloc, code, profile) {
        Ok(_) => Ok(None),
        Err(fault) => match fault.kind {
            ReadKind::Memory => Err(OutOfMemory),
            _ => Ok(Some(fault)),
        },
    }
}

// The first code of a section that spells no body, by its number, and its fault.
#[tactic(auto, unfolding(crate::specs::Seeking::broken_at))]
fn first_broken(
    alloc: Global,
    profile: Profile,
    section: &RawSection<'_>,
) -> Result<Option<(u32, ReadFault)>, ReadFault>
    ensures { Reads (λ met. met) result
        (broken_at profile (section_end (raw_view section.now)) section.now.contents.now) }
{
    let mut scratch = Scratch::new(alloc);
    let mut cursor = section.cursor();
    let count = cursor.u32()?;
    for item in 0..count {
        let code = take_code(&mut cursor)?;
        if let Some(fault) = fault_of_body(alloc, &mut scratch, profile, &code)? {
            return Ok(Some((item, fault)));
        }
    }
    Ok(None)
}

// The first code of an input that spells no body, by its number, and its fault.
fn broken_code(
    alloc: Global,
    bytes: &[u8],
    profile: Profile,
) -> Result<Option<(u32, ReadFault)>, ReadFault>
    ensures { Reads (λ met. met) result (broken_in profile bytes.now) }
{
    let Some(section) = find_section(bytes, section_id::CODE) else {
        return Ok(None);
    };
    first_broken(alloc, profile, &section)
}

// The index of the function of a code, where this is its fault.
fn func_of(bytes: &[u8], fault: &ReadFault, item: u32, met: &ReadFault) -> Option<u32>
    ensures { IsFuncIf fault.now item met.now (imported_at bytes.now) result }
{
    if *met != *fault {
        return None;
    }
    let imported = imported_funcs(bytes).ok()?;
    imported.checked_add(item)
}

/// The index in the function index space (2.5.1) of the function in whose body the first fault of an input lies, where that spells no
/// module of the profile and the fault is that of reading it. There is none where the fault lies in no body.
///
/// It reads the bodies up to that one.
///
/// # Errors
///
/// Want of memory.
pub fn func_of_fault(
    alloc: Global,
    bytes: &[u8],
    profile: Profile,
    fault: &ReadFault,
) -> Result<Option<u32>, OutOfMemory>
    ensures { IfOk result
        (λ o. MatchOption o (IsInNoBody profile bytes.now fault.now)
        (IsInBodyOf profile bytes.now fault.now)) }
{
    match broken_code(alloc, bytes, profile) {
        Ok(Some((item, met))) => Ok(func_of(bytes, fault, item, &met)),
        Ok(None) => Ok(None),
        Err(fault) => match fault.kind {
            ReadKind::Memory => Err(OutOfMemory),
            _ => Ok(None),
        },
    }
}
