//! What headers and details ask of a module.

use crate::shape::Shape;
use wk_module::Parts;

/// A module that fits, with the lengths of the pieces of its written form. Its parts may have other bodies than it has.
///
/// The clauses of the lengths are those of [`Shape`].
pub(crate) trait Sketch {
    ghost use Rattle.std.specs.Prelude.{◌≡◌, ◌<◌, length, slice_index_or};
    ghost use Rattle.wk_body.specs.Written.{written_body};
    ghost use Rattle.wk_module.specs.declared.types.Parts.{Parts as Seen};
    ghost use Rattle.wk_module.specs.declared.types.Custom.{Custom as CustomSection};
    ghost use Rattle.wk_module.specs.declared.types.Func.{Func as Function};
    ghost use Rattle.wk_module.specs.Customs.{written_custom};
    ghost use Rattle.wk_module.specs.Listed.{AreNumbered};
    ghost use Rattle.wk_module.specs.Sections.{of_number};
    ghost use Rattle.wk_module.specs.Shape.{lists_of, IsShaped};
    ghost use Rattle.wk_module.specs.Writing.{contents_by, Fits};
    ghost use Rattle.wk_list.specs.Sketches.{IsSketch};

    // The module.
    ghost seen: { Self → Seen };

    /// The parts of the module, but for its bodies.
    fn parts(&self) -> &Parts
        ensures value { IsSketch (seen self.now) result.now }
        ensures numbered { AreNumbered (lists_of result.now) }
        ensures shaped { IsShaped (seen self.now) }
        ensures fits { Fits (seen self.now) };

    /// How many bytes the contents of the section of an id have in the written form: 0 where it is left out, and for other ids than
    /// 1 to 11.
    fn section_len(&self, id: u8) -> u32
        ensures { result ≡ length (contents_by (lists_of (seen self.now)) (of_number id)) };

    /// How many bytes the contents of a custom section have.
    fn custom_len(&self, index: usize) -> u32
        requires { index < length (seen self.now).customs }
        ensures { (other : CustomSection)
            → result
            ≡ length (written_custom (slice_index_or (seen self.now).customs index other)) };

    /// How many bytes the code of a function that the module defines has, without its size.
    fn body_len(&self, index: usize) -> u32
        requires { index < length (seen self.now).funcs }
        ensures { (other : Function)
            → result
            ≡ length (written_body (slice_index_or (seen self.now).funcs index other).body) };
}

/// A module that is there as a whole.
#[derive(Drop)]
pub(crate) struct Whole<'a, S: Shape> {
    /// The module.
    pub(crate) shape: &'a S,
}

impl<'a, S: Shape> Sketch for Whole<'a, S> {
    ghost seen = { λ w. S.seen w.shape.now };

    fn parts(&self) -> &Parts {
        self.shape.parts()
    }

    fn section_len(&self, id: u8) -> u32 {
        self.shape.section_len(id)
    }

    fn custom_len(&self, index: usize) -> u32 {
        self.shape.custom_len(index)
    }

    fn body_len(&self, index: usize) -> u32 {
        self.shape.body_len(index)
    }
}
