//! What is asked of the items of each section (3.2, 3.4).

ghost use Rattle.std.specs.Prelude.{◌≡◌, ◌+◌, ◌<◌, ◌^◌, ℕ, length, take, nat_lt, if◌then◌else◌};
ghost use Rattle.wk_module.specs.InPlace.{func_type_view};
ghost use Rattle.wk_check.specs.Flaws.{numbered, first_in};
ghost use Rattle.wk_typing.specs.Faults.{body_flaw};
ghost use Rattle.wk_check.specs.Items.{in_order, in_range, all_within, table_flaw, memory_flaw, type_flaw, global_flaw, elem_flaw, data_flaw, import_flaw, unless, import_flaw_by, is_start, start_flaw};
ghost use Rattle.wk_check.specs.Spaces.{answer_in, spaces_of, initial_spaces};
ghost use Rattle.wk_check.specs.Verdict.{func_verdict};
ghost use Rattle.wk_typing.specs.Answers.{seen};

use crate::rule::Rule;
use crate::spaces::{IndexSpaces, Initial, found_func};
use crate::whole::Whole;
use wk_bytes::OutOfMemory;
use wk_module::{
    DataSeg, Elem, Func, FuncType, FuncTypeRef, GlobalDef, Import, ImportDesc, Kind, Limits, Lists,
    Profile, ValType, import_count, section_id,
};
use wk_typing::{Fault, FaultKind, Flaw, Lookup, Room, constant_flaw, type_body};

/// The most pages that a memory may have, 4 GiB in all.
const MAX_PAGES: u32 = 1 << 16;

// Whether the least size is not above the greatest.
fn are_in_order(limits: &Limits) -> bool
    ensures { result ≡ in_order limits.now.min limits.now.max }
{
    match limits.max {
        Some(max) => limits.min <= max,
        None => true,
    }
}

// Whether a memory may have these sizes.
fn are_in_range(limits: &Limits) -> bool
    ensures { result ≡ in_range limits.now.min limits.now.max }
{
    match limits.max {
        Some(max) => limits.min <= MAX_PAGES && max <= MAX_PAGES,
        None => limits.min <= MAX_PAGES,
    }
}

/// What is wrong with a table, which is the first in its space or not.
pub fn flaw_of_table(limits: &Limits, is_first: bool) -> Option<Flaw>
    ensures { (before : ℕ) → is_first ≡ nat_lt before 1 → result ≡ table_flaw before limits.now }
{
    if !are_in_order(limits) {
        return Some(Flaw::of(FaultKind::LimitsOrder));
    }
    if !is_first {
        return Some(Flaw::of(FaultKind::TooManyTables));
    }
    None
}

/// What is wrong with a memory, which is the first in its space or not.
pub fn flaw_of_memory(limits: &Limits, is_first: bool) -> Option<Flaw>
    ensures { (before : ℕ) → is_first ≡ nat_lt before 1 → result ≡ memory_flaw before limits.now }
{
    if !are_in_order(limits) {
        return Some(Flaw::of(FaultKind::LimitsOrder));
    }
    if !are_in_range(limits) {
        return Some(Flaw::of(FaultKind::MemoryRange));
    }
    if !is_first {
        return Some(Flaw::of(FaultKind::TooManyMemories));
    }
    None
}

/// What is wrong with a type of a module of a profile: in WebAssembly 1.0 it has at most one result.
pub fn flaw_of_type(profile: Profile, ty: FuncTypeRef<'_>) -> Option<Flaw>
    ensures { result ≡ type_flaw profile (func_type_view ty.entry) }
{
    if profile == Profile::Core && ty.results.len() > 1 {
        return Some(Flaw::of(FaultKind::TypeArity));
    }
    None
}

/// What is wrong with the index of a type, where there are so many.
pub fn flaw_of_type_index(types: usize, ty: u32) -> Option<Flaw>
    ensures { result ≡ unless FaultKind.UnknownType (nat_lt ty types) }
{
    if (ty as usize) < types {
        return None;
    }
    Some(Flaw::of(FaultKind::UnknownType))
}

/// A type has at most one result, in WebAssembly 1.0.
#[derive(Clone, Copy)]
pub(crate) struct TypeRule {
    pub(crate) profile: Profile,
}

impl Rule<FuncType> for TypeRule {
    ghost wrong = { λ rule _ t. type_flaw rule.profile t };

    fn flaw(
        &self,
        _index: usize,
        ty: &FuncType,
        _room: &mut Room,
    ) -> Result<Option<Flaw>, OutOfMemory> {
        Ok(flaw_of_type(self.profile, ty.as_ref()))
    }
}

/// The type of a function is one of so many.
#[derive(Clone, Copy)]
pub(crate) struct FuncRule {
    pub(crate) types: usize,
}

impl Rule<u32> for FuncRule {
    ghost use Rattle.wk_typing.specs.declared.fault.FaultKind.TheVariants.{UnknownType};

    ghost wrong = { λ rule _ x. unless UnknownType (nat_lt x rule.types) };

    fn flaw(&self, _index: usize, ty: &u32, _room: &mut Room) -> Result<Option<Flaw>, OutOfMemory> {
        Ok(flaw_of_type_index(self.types, *ty))
    }
}

/// A table, or a memory, comes behind so many imported ones.
#[derive(Clone, Copy)]
pub(crate) struct StorageRule {
    pub(crate) is_memory: bool,
    pub(crate) imported: usize,
}

impl Rule<Limits> for StorageRule {
    ghost wrong = { λ rule index l. (if rule.is_memory then memory_flaw (rule.imported + index) l
        else table_flaw (rule.imported + index) l) };

    fn flaw(
        &self,
        index: usize,
        limits: &Limits,
        _room: &mut Room,
    ) -> Result<Option<Flaw>, OutOfMemory> {
        let is_first = self.imported == 0 && index == 0;
        if self.is_memory {
            return Ok(flaw_of_memory(limits, is_first));
        }
        Ok(flaw_of_table(limits, is_first))
    }
}

/// The initialiser of a global is constant, of its type, and sees imported globals alone.
impl<'a> Rule<GlobalDef> for Whole<'a> {
    ghost wrong = { λ w _ g. global_flaw (answer_in (initial_spaces w)) g };

    fn flaw(
        &self,
        _index: usize,
        global: &GlobalDef,
        room: &mut Room,
    ) -> Result<Option<Flaw>, OutOfMemory> {
        let initial = Initial {
            spaces: self,
            imported: self.imported_globals(),
        };
        constant_flaw(&initial, global.ty.val, &global.init, room)
    }
}

// Whether each function is there.
fn are_there(whole: &Whole<'_>, funcs: &[u32]) -> bool
    ensures { result ≡ all_within (length (spaces_of whole.now).funcs) funcs.now }
{
    for func in funcs {
        if !whole.has_func(*func) {
            return false;
        }
    }
    true
}

/// The table of an element segment is there; its offset is a constant i32; its functions are there.
impl<'a> Rule<Elem> for Whole<'a> {
    ghost wrong = { λ w _ e. elem_flaw (spaces_of w) e };

    fn flaw(
        &self,
        _index: usize,
        elem: &Elem,
        room: &mut Room,
    ) -> Result<Option<Flaw>, OutOfMemory> {
        if !self.has_table(elem.table) {
            return Ok(Some(Flaw::of(FaultKind::UnknownTable)));
        }
        if let Some(flaw) = constant_flaw(self, ValType::I32, &elem.offset, room)? {
            return Ok(Some(flaw));
        }
        if are_there(self, elem.funcs.as_slice()) {
            return Ok(None);
        }
        Ok(Some(Flaw::of(FaultKind::UnknownFunc)))
    }
}

/// The memory of a data segment is there; its offset is a constant i32.
impl<'a> Rule<DataSeg> for Whole<'a> {
    ghost wrong = { λ w _ d. data_flaw (spaces_of w) d };

    fn flaw(
        &self,
        _index: usize,
        data: &DataSeg,
        room: &mut Room,
    ) -> Result<Option<Flaw>, OutOfMemory> {
        if !self.has_memory(data.memory) {
            return Ok(Some(Flaw::of(FaultKind::UnknownMemory)));
        }
        constant_flaw(self, ValType::I32, &data.offset, room)
    }
}

/// A body is valid under the type of its function.
impl<'a> Rule<Func> for Whole<'a> {
    ghost wrong = { λ w _ f. body_flaw (func_verdict (answer_in (spaces_of w)) f) };

    fn flaw(
        &self,
        _index: usize,
        func: &Func,
        room: &mut Room,
    ) -> Result<Option<Flaw>, OutOfMemory> {
        let verdict = type_body(self, func.ty, &func.body, room)?;
        Ok(verdict.flaw())
    }
}

/// What is wrong with an import, where there are so many types, and so many tables and memories are imported before it.
pub fn flaw_of_import(
    types: usize,
    tables: usize,
    memories: usize,
    desc: &ImportDesc,
) -> Option<Flaw>
    ensures { result ≡ import_flaw_by types tables memories desc.now }
{
    match desc {
        ImportDesc::Func(ty) => flaw_of_type_index(types, *ty),
        ImportDesc::Table(limits) => flaw_of_table(limits, tables == 0),
        ImportDesc::Memory(limits) => flaw_of_memory(limits, memories == 0),
        ImportDesc::Global(_) => None,
    }
}

/// What is wrong with an import that comes behind those of these lists. It takes no memory.
pub(crate) fn flaw_of_next_import(lists: &Lists<'_>, desc: &ImportDesc) -> Option<Flaw>
    ensures { result ≡ import_flaw lists.now.types.now lists.now.imports.now desc.now }
{
    let tables = import_count(lists.imports, Kind::Table);
    let memories = import_count(lists.imports, Kind::Memory);
    flaw_of_import(lists.types.len(), tables, memories, desc)
}

/// The first fault of the import section.
pub(crate) fn imports_fault(types: &[FuncType], imports: &[Import]) -> Option<Fault>
    requires { length imports.now < 2 ^ 32 }
    ensures { result
        ≡ first_in 2 0
        (numbered (λ item i. import_flaw types.now (take item imports.now) i.desc) 0
        imports.now) }
{
    let mut tables: usize = 0;
    let mut memories: usize = 0;
    for (index, import) in imports.iter().enumerate() {
        if let Some(flaw) = flaw_of_import(types.len(), tables, memories, &import.desc) {
            return Some(flaw.at(section_id::IMPORT, index as u32));
        }
        match import.desc {
            ImportDesc::Func(_) => {}
            ImportDesc::Table(_) => tables += 1,
            ImportDesc::Memory(_) => memories += 1,
            ImportDesc::Global(_) => {}
        }
    }
    None
}

// Whether a function takes nothing and gives nothing.
fn is_start(func: Lookup<'_>) -> bool
    ensures { result ≡ is_start (seen func.entry) }
{
    match func {
        Lookup::Func(ty) => ty.params.is_empty() && ty.results.is_empty(),
        _ => false,
    }
}

/// What is wrong with the start function.
pub fn flaw_of_start<S: IndexSpaces>(spaces: &S, start: u32) -> Option<Flaw>
    ensures { result ≡ start_flaw (S.spaces spaces.now) start }
{
    if !spaces.has_func(start) {
        return Some(Flaw::of(FaultKind::UnknownFunc));
    }
    if !is_start(found_func(spaces, start)) {
        return Some(Flaw::of(FaultKind::StartType));
    }
    None
}
