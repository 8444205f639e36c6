//! A module whose lengths are counted when they are asked for.

ghost use Rattle.std.specs.Prelude.{◌≡◌, IfSome, IfNone};
ghost use Rattle.wk_module.specs.Writing.{Fits};

use crate::shape::Shape;
use std::marker::Model;
use wk_module::{Module, Parts, body_len, custom_len, encoded_len, section_len};

/// A module that fits, whose lengths are counted when they are asked for. It is seen as the module.
#[derive(Debug, Drop)]
pub struct Plain<'a> {
    whole: &'a Module,
}

impl<'a> Model for Plain<'a> {
    ghost use Rattle.std.specs.Coded.{codes};
    ghost use Rattle.wk_body.specs.Bodies.{coded_body};
    ghost use Rattle.wk_body.specs.TreeCode.{coded_instrs};
    ghost use Rattle.wk_module.specs.declared.types.Parts.{Parts as Seen};
    ghost use Rattle.wk_module.specs.Writing.{Fits};

    ghost Value = { Seen };

    ghost coded = { Prim.hlevel (codes, coded_instrs, coded_body) };

    ghost view = { λ p. p.whole.now };

    ghost invariant = { λ p. Fits p.whole.now };
}

impl<'a> Plain<'a> {
    /// The module, or nothing exactly where it does not fit: its written form has more than 2,147,483,647 bytes. It takes no memory.
    pub fn of(whole: &'a Module) -> Option<Plain<'a>>
        ensures some { IfSome result (λ p. (p ≡ whole.now) × Fits whole.now) }
        ensures none { IfNone result (Fits whole.now → ⊥) }
    {
        encoded_len(whole)?;
        Some(Plain { whole })
    }

    // A module that is known to fit.
    pub(crate) fn fitting(whole: &'a Module) -> Plain<'a>
        requires { Fits whole.now }
        ensures { result ≡ whole.now }
    {
        Plain { whole }
    }
}

impl<'a> Shape for Plain<'a> {
    ghost seen = { λ p. p };

    fn parts(&self) -> &Parts {
        self.whole.parts()
    }

    fn section_len(&self, id: u8) -> u32 {
        section_len(self.whole, id).unwrap_or(0)
    }

    fn custom_len(&self, index: usize) -> u32 {
        let custom = &self.whole.parts().customs.as_slice()[index];
        custom_len(custom).unwrap_or(0)
    }

    fn body_len(&self, index: usize) -> u32 {
        let func = &self.whole.parts().funcs.as_slice()[index];
        body_len(&func.body).unwrap_or(0)
    }
}
