//! The index space of functions, while a module is read (2.5.1).

ghost use Rattle.std.specs.Prelude.{◌≡◌, ◌++◌, ◌∷◌, [], OnOk, length, slice_get};

use std::alloc::Global;
use std::marker::Model;
use wk_bytes::OutOfMemory;

// For how many functions room is made in front of the first: short lists then ask for memory once.
const FIRST_ROOM: usize = 64;

/// The index of the type of each function, imported ones first, in one list.
#[derive(Debug, Drop)]
pub(crate) struct FuncSpace {
    types: Vec<u32>,
    // how many of them are imported
    imported: usize,
}

impl Model for FuncSpace {
    ghost use Rattle.std.specs.Coded.{codes};
    ghost use Rattle.std.specs.Prelude.{◌≤◌, drop, length, take};
    ghost use Rattle.wk_judging.specs.Contexts.{FuncsSoFar};

    ghost Value = { FuncsSoFar };

    ghost coded = { Prim.hlevel codes };

    ghost view = { λ s. record {
      imported = take s.imported s.types.items;
      own = drop s.imported s.types.items;
    } };

    ghost invariant = { λ s. s.imported ≤ length s.types.items };
}

impl FuncSpace {
    /// One without functions. It takes no memory yet.
    pub(crate) fn new(alloc: Global) -> FuncSpace
        ensures { result ≡ record { imported = []; own = [] } }
    {
        FuncSpace {
            types: Vec::new(alloc),
            imported: 0,
        }
    }

    /// Forgets the functions, and keeps their room.
    pub(crate) fn clear(&mut self)
        ensures { self.new ≡ record { imported = []; own = [] } }
    {
        self.imported = 0;
        self.types.clear();
    }

    // Makes room in front of the first function.
    fn make_first_room(&mut self) -> Result<(), OutOfMemory>
        ensures { self.new ≡ self.old }
    {
        if self.types.is_empty() {
            self.types.reserve(FIRST_ROOM)?;
        }
        Ok(())
    }

    /// Adds an imported function of the type with an index.
    pub(crate) fn push_imported(&mut self, ty: u32) -> Result<(), OutOfMemory>
        ensures { OnOk result
            (self.new ≡ record self.old { imported = self.old.imported ++ ty ∷ [] }) }
    {
        self.make_first_room()?;
        // In a module that is read imports come first, so this moves nothing.
        self.types.insert(self.imported, ty)?;
        self.imported += 1;
        Ok(())
    }

    /// Adds a function of the type with an index that the module defines.
    pub(crate) fn push_own(&mut self, ty: u32) -> Result<(), OutOfMemory>
        ensures { OnOk result (self.new ≡ record self.old { own = self.old.own ++ ty ∷ [] }) }
    {
        self.make_first_room()?;
        self.types.push(ty)?;
        Ok(())
    }

    /// The index of the type of each function that the module defines.
    pub(crate) fn own(&self) -> &[u32]
        ensures { result.now ≡ self.now.own }
    {
        &self.types[self.imported..]
    }

    /// The index of the type of a function.
    #[inline(always)]
    pub(crate) fn get(&self, x: u32) -> Option<u32>
        ensures { result ≡ slice_get (self.now.imported ++ self.now.own) x }
    {
        self.types.get(x as usize).copied()
    }

    /// How many functions there are.
    pub(crate) fn len(&self) -> usize
        ensures { result ≡ length (self.now.imported ++ self.now.own) }
    {
        self.types.len()
    }
}
