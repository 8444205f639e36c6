//! Where a fault lies.

ghost use Rattle.std.specs.Prelude.{◌≡◌, ◌≢◌, ℕ, None, List, IfOk, IfSome, MatchOption};
ghost use Rattle.wk_bytes.specs.LebLaws.{IsBytes};
ghost use Rattle.wk_bytes.specs.Span.{Span};
ghost use Rattle.wk_bytes.specs.Leb.{Answers};
ghost use Rattle.wk_body.specs.Reads.{Reads};
ghost use Rattle.wk_module.specs.declared.types.Parts.{Parts};
ghost use Rattle.wk_module.specs.Imports.{is_of_kind};
ghost use Rattle.wk_module.specs.Modules.{Spells};
ghost use Rattle.wk_typing.specs.declared.fault.Verdict.{Verdict};
ghost use Rattle.wk_check.specs.Verdict.{module_verdict};
ghost use Rattle.wk_place.specs.Places.{func_index, IsNowhere, IsPlaceAt, LiesThere};
ghost use Rattle.wk_place.specs.Seeking.{func_at, funcs_at, imported_at, located_at, one_if, place_at};

use crate::items::ItemReader;
use crate::sections::find_section;
use crate::tokens::{find_instructions, find_token};
use std::alloc::Global;
use wk_bytes::{Cursor, OutOfMemory, ReadFault, ReadKind};
use wk_check::{Fault, Place};
use wk_module::{ImportDesc, Kind, Profile, read_import_desc, section_id};

/// Where a fault lies in the bytes of its module.
#[derive(Clone, Copy, Debug, PartialEq, Eq)]
pub struct Located {
    /// The offset of the first byte of the token that the fault names, or else of the item, in bytes from the first of the input.
    pub offset: u32,
    /// The index of the function in the function index space, where the item is a body (2.5.1). The imported functions come first.
    pub func: Option<u32>,
}

// 1 for a function, and 0 for anything else that is imported.
fn one_if_func(desc: &ImportDesc) -> u32
    ensures { result ≡ one_if (is_of_kind Kind.Func desc.now) }
{
    match desc {
        ImportDesc::Func(_) => 1,
        _ => 0,
    }
}

// How many functions are imported (5.5.5), by the imports that the cursor stands at.
#[tactic(auto, using(crate::proofs::Counting::begins, crate::proofs::Counting::no_count), unfolding(wk_module::specs::Formats::made_at))]
fn count_funcs(cursor: &mut Cursor<'_>) -> Result<u32, ReadFault>
    ensures { Answers (λ n. (n, cursor.new.rest)) result
        (funcs_at cursor.old.end cursor.old.rest) }
{
    let count = cursor.u32()?;
    let mut funcs = 0;
    for _ in 0..count {
        let desc = read_import_desc(cursor)?;
        funcs += one_if_func(&desc);
    }
    Ok(funcs)
}

/// How many functions an input imports.
///
/// # Errors
///
/// The first fault of its imports.
pub(crate) fn imported_funcs(bytes: &[u8]) -> Result<u32, ReadFault>
    ensures { Answers (λ n. n) result (imported_at bytes.now) }
{
    let Some(section) = find_section(bytes, section_id::IMPORT) else {
        return Ok(0);
    };
    count_funcs(&mut section.cursor())
}

/// The bytes from a place on.
#[tactic(auto, unfolding(crate::specs::Seeking::place_at))]
pub(crate) fn find_place<'a>(
    alloc: Global,
    bytes: &'a [u8],
    profile: Profile,
    place: &Place,
) -> Result<Option<Cursor<'a>>, ReadFault>
    ensures { Reads (λ s. s) result (place_at profile bytes.now place.now) }
{
    if place.section == section_id::CUSTOM {
        return Ok(None);
    }
    let Some(section) = find_section(bytes, place.section) else {
        return Ok(None);
    };
    let Some(item) = ItemReader::new(alloc, profile).seek_item(&section, place.item)? else {
        return Ok(None);
    };
    let Some(token) = place.token else {
        return Ok(Some(item));
    };
    let Some(code) = find_instructions(alloc, place.section, item)? else {
        return Ok(None);
    };
    find_token(alloc, profile, code, token)
}

// The index of the function whose body an item is, if it is one.
fn func_of(bytes: &[u8], place: &Place) -> Option<u32>
    ensures { result ≡ func_at bytes.now place.now }
{
    if place.section != section_id::CODE {
        return None;
    }
    let imported = imported_funcs(bytes).ok()?;
    imported.checked_add(place.item)
}

// Where the place of which these are the bytes lies.
fn locate_found(bytes: &[u8], place: &Place, found: Option<Cursor<'_>>) -> Option<Located>
    ensures { result ≡ located_at (func_at bytes.now place.now) found.entry }
{
    let cursor = found?;
    Some(Located {
        offset: cursor.at(),
        func: func_of(bytes, place),
    })
}

/// Where a fault of a module of the profile lies in the bytes that spell it. There is no such place where the bytes spell no such module,
/// or where it has no item, or the item no token, of these numbers.
///
/// It reads the section that the place names, up to the place, and the imports where that is the code section.
///
/// # Errors
///
/// Want of memory.
pub fn locate(
    alloc: Global,
    bytes: &[u8],
    profile: Profile,
    fault: &Fault,
) -> Result<Option<Located>, OutOfMemory>
    ensures place { IfOk result
        (λ o. MatchOption o (IsNowhere profile bytes.now fault.now.place)
        (LiesThere profile bytes.now fault.now.place)) }
    ensures func { (m : Parts) → m.profile ≡ profile → Spells bytes.now m
        → IfOk result (λ o. IfSome o (λ l. l.func ≡ func_index m fault.now.place)) }
    // The fault of a module's verdict has a place.
    ensures found { (m : Parts) → m.profile ≡ profile → Spells bytes.now m
        → module_verdict m ≡ Verdict.Invalid fault.now → IfOk result (λ o. o ≢ None) }
{
    match find_place(alloc, bytes, profile, &fault.place) {
        Ok(found) => Ok(locate_found(bytes, &fault.place, found)),
        Err(fault) => match fault.kind {
            ReadKind::Memory => Err(OutOfMemory),
            _ => Ok(None),
        },
    }
}

/// The law of places: the bytes of an input have one place of a section, an item and a token at most, so that its offset is one. It does
/// nothing.
pub fn one_place()
    ensures { (profile : Profile) (b : List ℕ) (p : Place) (s t : Span) → IsBytes b
        → IsPlaceAt profile b p s → IsPlaceAt profile b p t → s ≡ t }
{}
