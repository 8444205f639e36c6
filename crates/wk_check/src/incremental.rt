//! The verdict of a valid module to which one item comes: what is wrong with that item, as nothing is wrong with the rest.

ghost use Rattle.std.specs.Prelude.{◌≡◌, ℕ, [], ◌∷◌, Some, length, option_map, slice_get, IfOk};
ghost use Rattle.wk_body.specs.Bodies.{BodyOf};
ghost use Rattle.wk_module.specs.declared.types.Parts.{Parts as PartsOf};
ghost use Rattle.wk_module.specs.Changes.{with_type, with_import, with_func, with_body, with_global, with_export};
ghost use Rattle.wk_module.specs.Imports.{import_count};
ghost use Rattle.wk_module.specs.Items.{desc_kind};
ghost use Rattle.wk_module.specs.Listed.{listed, AreNumbered};
ghost use Rattle.wk_module.specs.Moving.{moved_parts};
ghost use Rattle.wk_module.specs.Shape.{lists_of};
ghost use Rattle.wk_check.specs.Flaws.{first_in, verdict_by};
ghost use Rattle.wk_check.specs.Growth.{crowded_by, StaysWithout, HasValidBodies, VerdictsStay, ReferencesStay};
ghost use Rattle.wk_check.specs.SpacesLaws.{answers_of};
ghost use Rattle.wk_typing.specs.Typing.{body_verdict};
ghost use Rattle.wk_check.specs.Verdict.{module_verdict};

use crate::exports::flaw_of_export;
use crate::rules::{flaw_of_next_import, flaw_of_type};
use crate::spaces::Initial;
use crate::whole::Whole;
use std::alloc::Global;
use wk_bytes::OutOfMemory;
use wk_module::{
    Export, Expr, FuncType, GlobalType, Import, ImportDesc, Lists, Profile, section_id,
};
use wk_typing::{BodyVerdict, FaultKind, Flaw, Room, Verdict, constant_flaw};

// The verdict of a module where nothing but this may be wrong.
fn verdict_by_flaw(flaw: Option<Flaw>, section: u8, item: u32) -> Verdict
    ensures { result ≡ verdict_by (first_in section item (flaw ∷ [])) }
{
    match flaw {
        Some(flaw) => Verdict::Invalid(flaw.at(section, item)),
        None => Verdict::Valid,
    }
}

/// The verdict of a valid module of a profile to which a type comes, at the index `place`: what is wrong with the type, or valid. It
/// takes no memory.
pub fn verdict_with_type(profile: Profile, place: u32, ty: &FuncType) -> Verdict
    ensures { (m : PartsOf) → m.profile ≡ profile → length m.types ≡ place
        → module_verdict m ≡ Verdict.Valid → result ≡ module_verdict (with_type ty.now m) }
{
    verdict_by_flaw(flaw_of_type(profile, ty.as_ref()), section_id::TYPE, place)
}

/// The verdict of a valid module with so many types to which a function comes, the one of number `place` among those that it
/// defines, where `own` is the verdict of the body in the module with the function. That the type is not there comes before what the
/// body's verdict says. It takes no memory.
pub fn verdict_with_func(types: u32, place: u32, ty: u32, own: BodyVerdict) -> Verdict
    ensures { (m : PartsOf) (b : BodyOf) → length m.types ≡ types → length m.funcs ≡ place
        → module_verdict m ≡ Verdict.Valid → own ≡ body_verdict (answers_of (with_func ty b m)) ty b
        → result ≡ module_verdict (with_func ty b m) }
{
    if ty >= types {
        return verdict_by_flaw(
            Some(Flaw::of(FaultKind::UnknownType)),
            section_id::FUNCTION,
            place,
        );
    }
    verdict_by_flaw(own.flaw(), section_id::CODE, place)
}

/// The verdict of a valid module in which a body is replaced, that of the function of number `place` among those that it defines,
/// where `own` is the verdict of the body under the type of the function. It takes no memory.
pub fn verdict_with_body(place: u32, own: BodyVerdict) -> Verdict
    ensures { (m : PartsOf) (ty : ℕ) (b : BodyOf)
        → Some ty ≡ option_map (λ f. f.ty) (slice_get m.funcs place)
        → module_verdict m ≡ Verdict.Valid → own ≡ body_verdict (answers_of m) ty b
        → result ≡ module_verdict (with_body place b m) }
{
    verdict_by_flaw(own.flaw(), section_id::CODE, place)
}

/// The verdict of a valid module with these lists to which a global comes: what is wrong with its initialiser, which sees imported
/// globals alone, or valid.
///
/// # Errors
///
/// Want of memory.
pub fn verdict_with_global(
    alloc: Global,
    lists: &Lists<'_>,
    ty: GlobalType,
    init: &Expr,
) -> Result<Verdict, OutOfMemory>
    requires { AreNumbered (listed lists.now) }
    ensures { IfOk result
        (λ verdict. (m : PartsOf) → listed lists.now ≡ record (lists_of m) { codes = [] }
        → module_verdict m ≡ Verdict.Valid
        → verdict ≡ module_verdict (with_global ty init.now m)) }
{
    let whole = Whole::of(alloc, *lists)?;
    let initial = Initial {
        spaces: &whole,
        imported: whole.imported_globals(),
    };
    let flaw = constant_flaw(&initial, ty.val, init, &mut Room::new(alloc))?;
    Ok(verdict_by_flaw(flaw, section_id::GLOBAL, lists.globals.len() as u32))
}

/// The verdict of a valid module with these lists to which an export comes: what it names is not there, or another export has its
/// name, or valid. The names are gone through once. It takes no memory.
pub fn verdict_with_export(lists: &Lists<'_>, export: &Export) -> Verdict
    requires { AreNumbered (listed lists.now) }
    ensures { (m : PartsOf) → listed lists.now ≡ record (lists_of m) { codes = [] }
        → module_verdict m ≡ Verdict.Valid → result ≡ module_verdict (with_export export.now m) }
{
    verdict_by_flaw(
        flaw_of_export(lists, export),
        section_id::EXPORT,
        lists.exports.len() as u32,
    )
}

// The verdict of a module to which an import comes that is well in itself: a table, or a memory, that the module defines is one too
// many then.
fn verdict_beside(lists: &Lists<'_>, desc: &ImportDesc) -> Verdict
    ensures { (m : PartsOf) → listed lists.now ≡ record (lists_of m) { codes = [] }
        → result ≡ verdict_by (crowded_by desc.now m) }
{
    match desc {
        ImportDesc::Table(_) if !lists.tables.is_empty() => {
            Verdict::Invalid(Flaw::of(FaultKind::TooManyTables).at(section_id::TABLE, 0))
        }
        ImportDesc::Memory(_) if !lists.memories.is_empty() => {
            Verdict::Invalid(Flaw::of(FaultKind::TooManyMemories).at(section_id::MEMORY, 0))
        }
        _ => Verdict::Valid,
    }
}

/// The verdict of a valid module with these lists to which an import comes, so that each reference of its kind to what the module
/// defines becomes one more: what is wrong with the import, or that the table or the memory that the module defines is one too many,
/// or valid. It takes no memory.
pub fn verdict_with_import(lists: &Lists<'_>, import: &Import) -> Verdict
    requires { AreNumbered (listed lists.now) }
    ensures { (m : PartsOf) → listed lists.now ≡ record (lists_of m) { codes = [] }
        → module_verdict m ≡ Verdict.Valid
        → (let kind = desc_kind import.now.desc in result
        ≡ module_verdict (with_import import.now
        (moved_parts kind (import_count kind m.imports) m))) }
{
    match flaw_of_next_import(lists, &import.desc) {
        Some(flaw) => Verdict::Invalid(flaw.at(section_id::IMPORT, lists.imports.len() as u32)),
        None => verdict_beside(lists, &import.desc),
    }
}

/// What is known of a valid module, for all modules at once: it stays valid without one of its exports; its bodies are valid; and where
/// what was there is found as it was, they stay so, and all that its functions refer to is found as it was. It does nothing.
pub fn laws_of_valid_modules()
    ensures without { StaysWithout }
    ensures bodies { HasValidBodies }
    ensures stay { VerdictsStay }
    ensures found { ReferencesStay }
{}
