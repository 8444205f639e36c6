//! A module whose bodies are measured once.

ghost use Rattle.std.specs.Prelude.{◌≡◌, MatchResult};
ghost use Rattle.wk_body.specs.Written.{Unwritten};
ghost use Rattle.wk_module.specs.Writing.{encoded, Fits};

use crate::plain::Plain;
use crate::shape::Shape;
use std::alloc::Global;
use std::marker::Model;
use wk_module::{EncodeFault, Measures, Module, Parts, measure, section_id};

/// A module that fits, with the lengths that a walk over its bodies tells. It is seen as the module.
#[derive(Debug, Drop)]
pub struct Layout<'a> {
    plain: Plain<'a>,
    bodies: Vec<u32>,
    code_len: u32,
}

impl<'a> Model for Layout<'a> {
    ghost use Rattle.std.specs.Prelude.{◌≡◌, length};
    ghost use Rattle.std.specs.Coded.{codes};
    ghost use Rattle.wk_body.specs.Bodies.{coded_body};
    ghost use Rattle.wk_body.specs.TreeCode.{coded_instrs};
    ghost use Rattle.wk_module.specs.declared.types.Parts.{Parts as Seen};
    ghost use Rattle.wk_module.specs.Codes.{body_sizes, code_contents};

    ghost Value = { Seen };

    ghost coded = { Prim.hlevel (codes, coded_instrs, coded_body) };

    ghost view = { λ l. l.plain };

    ghost invariant = { λ l. (l.bodies.items ≡ body_sizes l.plain.funcs)
        × (l.code_len ≡ length (code_contents l.plain.funcs)) };
}

impl<'a> Layout<'a> {
    /// The module, each of its bodies measured once. The memory taken is a number for each body.
    ///
    /// # Errors
    ///
    /// `TooLarge` where the module does not fit: its written form has more than 2,147,483,647 bytes; and else `Memory` where a
    /// growth is refused.
    pub fn of(alloc: Global, whole: &'a Module) -> Result<Layout<'a>, EncodeFault>
        ensures { MatchResult result (λ l. (l ≡ whole.now) × Fits whole.now)
            (Unwritten (encoded whole.now)) }
    {
        let Measures { bodies, codes, .. } = measure(alloc, whole)?;
        Ok(Layout {
            plain: Plain::fitting(whole),
            bodies,
            code_len: codes,
        })
    }
}

impl<'a> Shape for Layout<'a> {
    ghost seen = { λ l. l };

    fn parts(&self) -> &Parts {
        self.plain.parts()
    }

    fn section_len(&self, id: u8) -> u32 {
        if id == section_id::CODE {
            self.code_len
        } else {
            self.plain.section_len(id)
        }
    }

    fn custom_len(&self, index: usize) -> u32 {
        self.plain.custom_len(index)
    }

    fn body_len(&self, index: usize) -> u32 {
        self.bodies[index]
    }
}
