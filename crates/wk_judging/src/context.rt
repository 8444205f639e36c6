//! The context in which the items of a module's sections are judged while they are read (3.1.1).

ghost use Rattle.std.specs.Prelude.{◌≡◌, ◌++◌, ◌∷◌, [], length, OnOk};
ghost use Rattle.wk_module.specs.Sections.{no_lists};
ghost use Rattle.wk_judging.specs.Contexts.{context_of, add_desc, add_func, add_table, add_memory};

use crate::few_limits::FewLimits;
use crate::func_space::FuncSpace;
use std::alloc::Global;
use std::marker::Model;
use wk_bytes::OutOfMemory;
use wk_check::{IndexSpaces, look_up_in};
use wk_module::{FuncTypeRef, GlobalType, ImportDesc, Limits, Ref, TypeList};
use wk_typing::{Lookup, Scope};

/// What the items of a module refer to (3.1.1), in room that may be kept from one module to the next.
#[derive(Debug, Drop)]
pub(crate) struct Context {
    pub(crate) types: TypeList,
    // the imported ones first, as in the two below
    funcs: FuncSpace,
    tables: FewLimits,
    memories: FewLimits,
    imported_globals: Vec<GlobalType>,
    globals: Vec<GlobalType>,
}

impl Model for Context {
    ghost use Rattle.std.specs.Coded.{codes};
    ghost use Rattle.wk_judging.specs.Contexts.{ModuleContext};

    ghost Value = { ModuleContext };

    ghost coded = { Prim.hlevel codes };

    ghost view = { λ c. record {
      types = c.types;
      imported_funcs = c.funcs.imported;
      funcs = c.funcs.own;
      tables = c.tables;
      memories = c.memories;
      imported_globals = c.imported_globals.items;
      globals = c.globals.items;
    } };
}

// For how many items room is made in front of the first: short lists then ask for memory once.
const FIRST_ROOM: u32 = 64;

// Appends an item, where so many are still to come, this one among them.
fn append<T: Drop>(items: &mut Vec<T>, item: T, left: u32) -> Result<(), OutOfMemory>
    ensures { OnOk result (items.new.items ≡ items.old.items ++ item ∷ []) }
{
    if items.is_empty() {
        items.reserve(left.min(FIRST_ROOM) as usize)?;
    }
    items.push(item)?;
    Ok(())
}

impl Context {
    /// That of a module of which no section is read. It takes no memory yet.
    pub(crate) fn new(alloc: Global) -> Context
        ensures { result ≡ context_of no_lists }
    {
        Context {
            types: TypeList::new(alloc),
            funcs: FuncSpace::new(alloc),
            tables: FewLimits::new(alloc),
            memories: FewLimits::new(alloc),
            imported_globals: Vec::new(alloc),
            globals: Vec::new(alloc),
        }
    }

    /// The same, in the room of the module before.
    pub(crate) fn clear(&mut self)
        ensures { self.new ≡ context_of no_lists }
    {
        self.types.clear();
        self.funcs.clear();
        self.tables.clear();
        self.memories.clear();
        self.imported_globals.clear();
        self.globals.clear();
    }

    /// Adds what is imported.
    pub(crate) fn add_import(&mut self, desc: ImportDesc) -> Result<(), OutOfMemory>
        ensures { OnOk result (self.new ≡ add_desc self.old desc) }
    {
        match desc {
            ImportDesc::Func(ty) => self.funcs.push_imported(ty),
            ImportDesc::Table(limits) => self.tables.push(limits),
            ImportDesc::Memory(limits) => self.memories.push(limits),
            ImportDesc::Global(ty) => append(&mut self.imported_globals, ty, FIRST_ROOM),
        }
    }

    /// Adds a function of the type with an index.
    pub(crate) fn add_func(&mut self, ty: u32) -> Result<(), OutOfMemory>
        ensures { OnOk result (self.new ≡ add_func self.old ty) }
    {
        self.funcs.push_own(ty)
    }

    /// Adds a table.
    pub(crate) fn add_table(&mut self, limits: Limits) -> Result<(), OutOfMemory>
        ensures { OnOk result (self.new ≡ add_table self.old limits) }
    {
        self.tables.push(limits)
    }

    /// Adds a memory.
    pub(crate) fn add_memory(&mut self, limits: Limits) -> Result<(), OutOfMemory>
        ensures { OnOk result (self.new ≡ add_memory self.old limits) }
    {
        self.memories.push(limits)
    }

    /// Adds a global of a type, where so many are still to come.
    pub(crate) fn add_global(&mut self, ty: GlobalType, left: u32) -> Result<(), OutOfMemory>
        ensures { OnOk result
            (self.new ≡ record self.old { globals = self.old.globals ++ ty ∷ [] }) }
    {
        append(&mut self.globals, ty, left)
    }

    /// The index of the type of each function that the module defines.
    pub(crate) fn funcs(&self) -> &[u32]
        ensures { result.now ≡ self.now.funcs }
    {
        self.funcs.own()
    }

    /// The types of the imported globals.
    pub(crate) fn imported_globals(&self) -> &[GlobalType]
        ensures { result.now ≡ self.now.imported_globals }
    {
        self.imported_globals.as_slice()
    }

    /// How many tables there are.
    pub(crate) fn tables(&self) -> usize
        ensures { result ≡ length self.now.tables }
    {
        self.tables.len()
    }

    /// How many memories there are.
    pub(crate) fn memories(&self) -> usize
        ensures { result ≡ length self.now.memories }
    {
        self.memories.len()
    }
}

impl IndexSpaces for Context {
    ghost use Rattle.wk_judging.specs.Contexts.{spaces_in};

    ghost spaces = { λ c. spaces_in c };

    fn type_count(&self) -> usize {
        self.types.len()
    }

    #[inline(always)]
    fn func_type(&self, x: u32) -> Option<FuncTypeRef<'_>> {
        self.types.get(x as usize)
    }

    #[inline(always)]
    fn func(&self, x: u32) -> Option<u32> {
        self.funcs.get(x)
    }

    fn global(&self, x: u32) -> Option<GlobalType> {
        let x = x as usize;
        if x < self.imported_globals.len() {
            return Some(self.imported_globals[x]);
        }
        self.globals.get(x - self.imported_globals.len()).copied()
    }

    fn has_func(&self, x: u32) -> bool {
        (x as usize) < self.funcs.len()
    }

    fn has_table(&self, x: u32) -> bool {
        (x as usize) < self.tables.len()
    }

    fn has_memory(&self, x: u32) -> bool {
        (x as usize) < self.memories.len()
    }

    fn has_global(&self, x: u32) -> bool {
        let x = x as usize;
        x < self.imported_globals.len() || x - self.imported_globals.len() < self.globals.len()
    }
}

impl Scope for Context {
    ghost use Rattle.wk_judging.specs.Contexts.{spaces_in};
    ghost use Rattle.wk_check.specs.Spaces.{answer_in, answers_of_kind};

    ghost answers = { λ c r. answer_in (spaces_in c) r };

    ghost of_kind = { λ c r. answers_of_kind (spaces_in c) r };

    #[inline(always)]
    fn look_up(&self, reference: Ref) -> Lookup<'_> {
        look_up_in(self, reference)
    }
}
