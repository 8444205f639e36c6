//! A module as its code sees it.

ghost use Rattle.std.specs.Prelude.{◌≡◌, ◌++◌, ◌∷◌, [], IfOk, OnOk, if◌then◌else◌, length};
ghost use Rattle.wk_body.specs.declared.references.Ref.{Ref};
ghost use Rattle.wk_module.specs.Listed.{listed};
ghost use Rattle.wk_typing.specs.Answers.{IsAbsent, IsPresent, found};
ghost use Rattle.wk_check.specs.Spaces.{answer_in, imported, spaces_of, table_in, memory_in, global_in};
ghost use Rattle.wk_check.specs.Whole.{IsImported};

use crate::spaces::IndexSpaces;
use std::alloc::Global;
use std::marker::Model;
use wk_bytes::OutOfMemory;
use wk_module::{FuncTypeRef, GlobalType, Import, ImportDesc, Lists, Ref};
use wk_typing::{Answer, Env};

/// What is counted of a module's imports, which come first in their spaces (2.5.1).
#[derive(Debug, Drop)]
pub(crate) struct Imported {
    // the type of each imported function
    funcs: Vec<u32>,
    // the type of each imported global
    globals: Vec<GlobalType>,
    // how many tables are imported
    tables: usize,
    // how many memories are imported
    memories: usize,
}

/// The lists of a module with what its imports are, so that each reference is found in constant time: functions and globals that
/// are imported come first in their spaces (2.5.1).
#[derive(Debug, Drop)]
pub struct Whole<'a> {
    lists: Lists<'a>,
    imports: Imported,
}

impl<'a> Model for Whole<'a> {
    ghost use Rattle.std.specs.Coded.{codes};
    ghost use Rattle.wk_body.specs.Bodies.{coded_body};
    ghost use Rattle.wk_body.specs.TreeCode.{coded_instrs};
    ghost use Rattle.wk_module.specs.Listed.{listed};
    ghost use Rattle.wk_module.specs.Sections.{SectionLists};
    ghost use Rattle.wk_check.specs.Whole.{IsImported};

    ghost Value = { SectionLists };

    ghost coded = { Prim.hlevel (codes, coded_instrs, coded_body) };

    ghost view = { λ w. listed w.lists };

    ghost invariant = { λ w. IsImported w.lists.imports.now w.imports };
}

// Adds the type of a function. The first makes room for as many as there are imports: most of them are functions.
fn add(funcs: &mut Vec<u32>, ty: u32, imports: usize) -> Result<(), OutOfMemory>
    ensures { OnOk result (funcs.new.items ≡ funcs.old.items ++ ty ∷ []) }
{
    if funcs.is_empty() {
        funcs.reserve(imports)?;
    }
    funcs.push(ty)?;
    Ok(())
}

impl Imported {
    // What is counted of the imports. It takes memory for the functions and globals alone.
    fn of(alloc: Global, imports: &[Import]) -> Result<Imported, OutOfMemory>
        ensures { IfOk result (λ i. IsImported imports.now i) }
    {
        let mut funcs = Vec::new(alloc);
        let mut globals = Vec::new(alloc);
        let mut tables: usize = 0;
        let mut memories: usize = 0;
        for import in imports {
            match import.desc {
                ImportDesc::Func(ty) => add(&mut funcs, ty, imports.len())?,
                ImportDesc::Table(_) => tables += 1,
                ImportDesc::Memory(_) => memories += 1,
                ImportDesc::Global(ty) => globals.push(ty)?,
            }
        }
        Ok(Imported {
            funcs,
            globals,
            tables,
            memories,
        })
    }
}

impl<'a> Whole<'a> {
    /// What the code of a module with these lists sees. It takes memory for the imports alone.
    ///
    /// # Errors
    ///
    /// Want of memory.
    pub fn of(alloc: Global, lists: Lists<'a>) -> Result<Whole<'a>, OutOfMemory>
        ensures { IfOk result (λ w. w ≡ listed lists.entry) }
    {
        let imports = Imported::of(alloc, lists.imports)?;
        Ok(Whole { lists, imports })
    }

    /// The lists.
    pub(crate) fn lists(&self) -> &Lists<'a>
        ensures { listed result.now ≡ self.now }
    {
        &self.lists
    }

    /// How many tables are imported.
    pub(crate) fn imported_tables(&self) -> usize
        ensures { result ≡ length (imported table_in self.now.imports) }
    {
        self.imports.tables
    }

    /// How many memories are imported.
    pub(crate) fn imported_memories(&self) -> usize
        ensures { result ≡ length (imported memory_in self.now.imports) }
    {
        self.imports.memories
    }

    /// The types of the imported globals.
    pub(crate) fn imported_globals(&self) -> &[GlobalType]
        ensures { result.now ≡ imported global_in self.now.imports }
    {
        self.imports.globals.as_slice()
    }
}

impl<'a> IndexSpaces for Whole<'a> {
    ghost use Rattle.wk_check.specs.Spaces.{spaces_of};

    ghost spaces = { λ w. spaces_of w };

    fn type_count(&self) -> usize {
        self.lists.types.len()
    }

    fn func_type(&self, x: u32) -> Option<FuncTypeRef<'_>> {
        match self.lists.types.get(x as usize) {
            Some(ty) => Some(ty.as_ref()),
            None => None,
        }
    }

    fn func(&self, x: u32) -> Option<u32> {
        let x = x as usize;
        if x < self.imports.funcs.len() {
            return Some(self.imports.funcs[x]);
        }
        self.lists.funcs.get(x - self.imports.funcs.len()).copied()
    }

    fn global(&self, x: u32) -> Option<GlobalType> {
        let x = x as usize;
        if x < self.imports.globals.len() {
            return Some(self.imports.globals[x]);
        }
        self.lists
            .globals
            .get(x - self.imports.globals.len())
            .map(|global| global.ty)
    }

    fn has_func(&self, x: u32) -> bool {
        let x = x as usize;
        x < self.imports.funcs.len() || x - self.imports.funcs.len() < self.lists.funcs.len()
    }

    fn has_table(&self, x: u32) -> bool {
        let x = x as usize;
        x < self.imports.tables || x - self.imports.tables < self.lists.tables.len()
    }

    fn has_memory(&self, x: u32) -> bool {
        let x = x as usize;
        x < self.imports.memories || x - self.imports.memories < self.lists.memories.len()
    }

    fn has_global(&self, x: u32) -> bool {
        let x = x as usize;
        x < self.imports.globals.len() || x - self.imports.globals.len() < self.lists.globals.len()
    }
}

impl<'a> Whole<'a> {
    // What a reference to a function finds.
    fn found_func(&self, x: u32) -> Answer<'_>
        ensures { found result ≡ answer_in (spaces_of self.now) (Ref.Func x) }
    {
        let Some(ty) = self.func(x) else {
            return Answer::NoFunc;
        };
        match self.lists.types.get(ty as usize) {
            Some(ty) => Answer::Func(ty),
            None => Answer::FuncOfNoType,
        }
    }
}

// What a reference to the table, or to the memory, finds, where it is known whether there is a first.
fn found_first(has_first: bool) -> Answer<'static>
    ensures { found result ≡ (if has_first then IsPresent else IsAbsent) }
{
    if has_first {
        return Answer::Present;
    }
    Answer::Absent
}

impl<'a> Env for Whole<'a> {
    ghost use Rattle.wk_check.specs.Spaces.{answer_in, spaces_of, answers_of_kind};

    ghost answers = { λ w r. answer_in (spaces_of w) r };

    ghost of_kind = { λ w r. answers_of_kind (spaces_of w) r };

    fn answer(&self, reference: Ref) -> Answer<'_> {
        match reference {
            Ref::Ty(x) => match self.lists.types.get(x as usize) {
                Some(ty) => Answer::Ty(ty),
                None => Answer::NoType,
            },
            Ref::Func(x) => self.found_func(x),
            Ref::Global(x) => match self.global(x) {
                Some(ty) => Answer::Global(ty),
                None => Answer::NoGlobal,
            },
            Ref::Table => found_first(self.has_table(0)),
            Ref::Memory => found_first(self.has_memory(0)),
        }
    }
}
