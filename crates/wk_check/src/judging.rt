//! Judging a module (3.4.10).

ghost use Rattle.std.specs.Prelude.{◌≡◌, ◌↔◌, ◌<◌, ◌^◌, [], ◌∷◌, length, map, IfOk};
ghost use Rattle.wk_module.specs.declared.types.Parts.{Parts as PartsOf};
ghost use Rattle.wk_module.specs.Listed.{listed, AreNumbered};
ghost use Rattle.wk_module.specs.Shape.{lists_of};
ghost use Rattle.wk_typing.specs.declared.fault.Verdict.{Verdict};
ghost use Rattle.wk_check.specs.Flaws.{first_in, first_fault};
ghost use Rattle.wk_check.specs.Items.{earlier, start_flaws};
ghost use Rattle.wk_check.specs.Spaces.{spaces_of};
ghost use Rattle.wk_check.specs.Valid.{IsValidModule};
ghost use Rattle.wk_check.specs.Verdict.{type_flaws, import_flaws, func_flaws, table_flaws, memory_flaws, global_flaws, export_flaws, elem_flaws, code_flaws, front_fault, verdict_from, verdict_around, module_verdict, IsVerdict, IsNotArity, extended};

use crate::exports::exports_fault;
use crate::rule::first_fault;
use crate::rules::{FuncRule, StorageRule, TypeRule, flaw_of_start, imports_fault};
use crate::whole::Whole;
use std::alloc::Global;
use wk_bytes::OutOfMemory;
use wk_module::{Func, Lists, Module, Parts, Profile, section_id};
use wk_typing::{Fault, Room, Verdict};

// The first fault of the types, the imports and the functions.
fn fault_of_types(
    profile: Profile,
    whole: &Whole<'_>,
    room: &mut Room,
) -> Result<Option<Fault>, OutOfMemory>
    requires { AreNumbered whole.now }
    ensures { IfOk result
        (λ r. r
        ≡ first_fault 1
        (type_flaws profile whole.now ∷ import_flaws whole.now ∷ func_flaws whole.now ∷ [])) }
{
    let lists = whole.lists();
    let rule = TypeRule { profile };
    if let Some(fault) = first_fault(&rule, section_id::TYPE, lists.types, room)? {
        return Ok(Some(fault));
    }
    if let Some(fault) = imports_fault(lists.types, lists.imports) {
        return Ok(Some(fault));
    }
    let rule = FuncRule {
        types: lists.types.len(),
    };
    first_fault(&rule, section_id::FUNCTION, lists.funcs, room)
}

// The first fault of the tables, the memories and the globals.
fn fault_of_storage(whole: &Whole<'_>, room: &mut Room) -> Result<Option<Fault>, OutOfMemory>
    requires { AreNumbered whole.now }
    ensures { IfOk result
        (λ r. r
        ≡ first_fault 4
        (table_flaws whole.now ∷ memory_flaws whole.now ∷ global_flaws whole.now ∷ [])) }
{
    let lists = whole.lists();
    let rule = StorageRule {
        is_memory: false,
        imported: whole.imported_tables(),
    };
    if let Some(fault) = first_fault(&rule, section_id::TABLE, lists.tables, room)? {
        return Ok(Some(fault));
    }
    let rule = StorageRule {
        is_memory: true,
        imported: whole.imported_memories(),
    };
    if let Some(fault) = first_fault(&rule, section_id::MEMORY, lists.memories, room)? {
        return Ok(Some(fault));
    }
    first_fault(whole, section_id::GLOBAL, lists.globals, room)
}

// The first fault of the exports, the start function and the element segments.
fn fault_of_uses(
    alloc: Global,
    whole: &Whole<'_>,
    room: &mut Room,
) -> Result<Option<Fault>, OutOfMemory>
    requires { AreNumbered whole.now }
    ensures { IfOk result
        (λ r. r
        ≡ first_fault 7
        (export_flaws whole.now ∷ start_flaws (spaces_of whole.now) whole.now.start
        ∷ elem_flaws whole.now ∷ [])) }
{
    let lists = whole.lists();
    if let Some(fault) = exports_fault(alloc, whole, lists.exports)? {
        return Ok(Some(fault));
    }
    if let Some(start) = lists.start {
        if let Some(flaw) = flaw_of_start(whole, start) {
            return Ok(Some(flaw.at(section_id::START, 0)));
        }
    }
    first_fault(whole, section_id::ELEMENT, lists.elems, room)
}

/// The first fault of the sections in front of the code section.
pub(crate) fn fault_before_code(
    alloc: Global,
    profile: Profile,
    whole: &Whole<'_>,
    room: &mut Room,
) -> Result<Option<Fault>, OutOfMemory>
    requires { AreNumbered whole.now }
    ensures { IfOk result (λ r. r ≡ front_fault profile whole.now) }
{
    if let Some(fault) = fault_of_types(profile, whole, room)? {
        return Ok(Some(fault));
    }
    if let Some(fault) = fault_of_storage(whole, room)? {
        return Ok(Some(fault));
    }
    fault_of_uses(alloc, whole, room)
}

/// The verdict where this is the first fault of the sections up to the code section: that, or the first fault of the data segments.
pub(crate) fn verdict_behind(
    whole: &Whole<'_>,
    fault: Option<Fault>,
    room: &mut Room,
) -> Result<Verdict, OutOfMemory>
    requires { AreNumbered whole.now }
    ensures { IfOk result (λ verdict. verdict ≡ verdict_from whole.now fault) }
{
    if let Some(fault) = fault {
        return Ok(Verdict::Invalid(fault));
    }
    match first_fault(whole, section_id::DATA, whole.lists().datas, room)? {
        Some(fault) => Ok(Verdict::Invalid(fault)),
        None => Ok(Verdict::Valid),
    }
}

/// Judges a module with these lists whose first fault in the code section is `code`: valid, or the first fault by section, item,
/// and what is looked at.
///
/// Want of memory is the only refusal.
pub fn judge_around(
    alloc: Global,
    lists: &Lists<'_>,
    code: Option<Fault>,
) -> Result<Verdict, OutOfMemory>
    requires { AreNumbered (listed lists.now) }
    ensures { IfOk result
        (λ verdict. verdict ≡ verdict_around lists.now.profile (listed lists.now) code) }
{
    let whole = Whole::of(alloc, *lists)?;
    let mut room = Room::new(alloc);
    let first = match fault_before_code(alloc, lists.profile, &whole, &mut room)? {
        Some(fault) => Some(fault),
        None => code,
    };
    verdict_behind(&whole, first, &mut room)
}

// The types of functions.
fn types_of(alloc: Global, funcs: &[Func]) -> Result<Vec<u32>, OutOfMemory>
    ensures { IfOk result (λ types. types.items ≡ map (λ f. f.ty) funcs.now) }
{
    let mut types = Vec::with_capacity(alloc, funcs.len())?;
    for func in funcs {
        types.push_reserved(func.ty);
    }
    Ok(types)
}

// The lists of a module, with the types of its functions.
fn lists_of<'a>(parts: &'a Parts, funcs: &'a [u32]) -> Lists<'a>
    requires { funcs.now ≡ map (λ f. f.ty) parts.now.funcs }
    ensures lists { listed result ≡ record (lists_of parts.now) { codes = [] } }
    ensures profile { result.profile ≡ parts.now.profile }
{
    Lists::of(parts, funcs)
}

// The first fault of the sections up to the code section. Bodies are typed only where nothing in front of them is wrong.
fn fault_up_to_code(
    alloc: Global,
    parts: &Parts,
    whole: &Whole<'_>,
    room: &mut Room,
) -> Result<Option<Fault>, OutOfMemory>
    requires few { length parts.now.funcs < 2 ^ 32 }
    requires numbered { AreNumbered whole.now }
    ensures { IfOk result
        (λ r. r
        ≡ earlier (front_fault parts.now.profile whole.now)
        (first_in 10 0 (code_flaws whole.now parts.now.funcs))) }
{
    if let Some(fault) = fault_before_code(alloc, parts.profile, whole, room)? {
        return Ok(Some(fault));
    }
    first_fault(whole, section_id::CODE, parts.funcs.as_slice(), room)
}

/// Judges a module: valid, or the first fault by section, item, and what is looked at.
///
/// Want of memory is the only refusal.
pub fn judge(alloc: Global, module: &Module) -> Result<Verdict, OutOfMemory>
    ensures exact { IfOk result (λ verdict. verdict ≡ module_verdict «module».now) }
    ensures meaning { IfOk result (λ verdict. IsVerdict «module».now verdict) }
    // It is valid exactly where the declarative rules derive each body, each initialiser and each offset, and nothing is wrong with
    // the rest of it (chapter 3).
    ensures valid { IfOk result (λ verdict. verdict ≡ Verdict.Valid ↔ IsValidModule «module».now) }
    // Under the rules of the other profile the verdict is the same, unless the first fault was many results of a type.
    ensures extended { IfOk result
        (λ verdict. IsNotArity verdict → module_verdict (extended «module».now) ≡ verdict) }
{
    let parts = module.parts();
    let types = types_of(alloc, parts.funcs.as_slice())?;
    let lists = lists_of(parts, types.as_slice());
    let whole = Whole::of(alloc, lists)?;
    let mut room = Room::new(alloc);
    let fault = fault_up_to_code(alloc, parts, &whole, &mut room)?;
    verdict_behind(&whole, fault, &mut room)
}

/// The law of verdicts: that of a module is valid exactly where the module is (chapter 3). It does nothing.
pub fn meaning_of_verdicts()
    ensures { (m : PartsOf) → module_verdict m ≡ Verdict.Valid ↔ IsValidModule m }
{}
