//! The type of a module.

ghost use Rattle.std.specs.Prelude.{◌≡◌};
ghost use Rattle.wk_module.specs.Shape.{nothing, settle, IsFormed, IsShaped};

use crate::settle::{filled_ids, settle_customs};
use crate::types::Parts;
use std::alloc::Global;
use std::marker::Model;
use wk_body::Profile;

/// A module (2.5), seen as its parts.
///
/// Its lists are formed: numbers are in their ranges, names are UTF-8, expressions and bodies belong to its profile, and custom
/// sections stand in the order of their places, which are at most 11. And each custom section is settled: its place is the id of
/// a section that is not empty, or 0.
#[derive(Debug, Drop)]
pub struct Module {
    parts: Parts,
}

impl Model for Module {
    ghost use Rattle.wk_module.specs.declared.types.Parts.{Parts as Seen};
    ghost use Rattle.wk_module.specs.Shape.{IsShaped};
    ghost use Rattle.std.specs.Coded.{codes};
    ghost use Rattle.wk_body.specs.Bodies.{coded_body};
    ghost use Rattle.wk_body.specs.TreeCode.{coded_instrs};

    ghost Value = { Seen };

    ghost coded = { Prim.hlevel (codes, coded_instrs, coded_body) };

    ghost view = { λ m. m.parts };

    ghost invariant = { λ m. IsShaped m.parts };
}

impl Module {
    /// The module of a profile without anything. It takes no memory.
    #[tactic(auto, using(crate::specs::ShapeLaws::nothing_shaped))]
    pub fn empty(alloc: Global, profile: Profile) -> Module
        ensures { result ≡ nothing profile }
    {
        Module {
            parts: Parts::new(alloc, profile),
        }
    }

    /// The module of these parts, each custom section settled. It takes no memory.
    #[tactic(auto, using(crate::specs::ShapeLaws::settle_shaped))]
    pub fn of(parts: Parts) -> Module
        requires { IsFormed parts }
        ensures { result ≡ settle parts }
    {
        let filled = filled_ids(&parts);
        let Parts { customs, .. } = parts;
        let customs = settle_customs(customs, &filled);
        Module {
            parts: Parts { customs, ..parts },
        }
    }

    /// The parts of the module.
    pub fn parts(&self) -> &Parts
        ensures value { result.now ≡ self.now }
        ensures shaped { IsShaped self.now }
    {
        &self.parts
    }

    /// The parts of the module, open to change.
    pub fn into_parts(self) -> Parts
        ensures value { result ≡ self }
        ensures shaped { IsShaped self }
    {
        let Module { parts } = self;
        parts
    }
}
