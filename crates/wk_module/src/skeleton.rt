//! Reading a module of whose bodies only their lengths are kept (5.5.15).

ghost use Rattle.std.specs.Prelude.{◌≡◌, ◌≢◌, Ok, IfErr, MatchResult, length};
ghost use Rattle.wk_bytes.specs.Stands.{StandsIn};
ghost use Rattle.wk_body.specs.Reads.{FailsAs};
ghost use Rattle.wk_module.specs.declared.types.Parts.{Parts as PartsOf};
ghost use Rattle.wk_module.specs.Codes.{body_sizes, code_contents};
ghost use Rattle.wk_module.specs.FirstFaults.{IsFirstFault};
ghost use Rattle.wk_module.specs.Modules.{SpellsNone};
ghost use Rattle.wk_module.specs.Outlines.{outlined};
ghost use Rattle.wk_module.specs.Reading.{module_at};

use crate::codes::codes_len_by;
use crate::module::Module;
use crate::module_read::reading_of_module;
use crate::outline::{Keep, read_apart};
use std::alloc::Global;
use wk_body::{Profile, Scratch};
use wk_bytes::{Cursor, ReadFault, ReadKind};

/// A module without its bodies, with how long their written forms are, in bytes.
#[derive(Debug, Drop)]
pub struct Skeleton {
    /// The module with a stub in the place of each body.
    pub module: Module,
    /// The length of the written form of each body, without the size that stands in front of it, in their order.
    pub bodies: Vec<u32>,
    /// The length of the contents of the code section in the written form: 0 where it is left out.
    pub codes: u32,
}

// How long the written form is.
struct WrittenLen;

impl Keep for WrittenLen {
    type Item = u32;

    ghost use Rattle.wk_module.specs.Sizes.{body_size};

    ghost kept = { body_size };

    fn read(
        alloc: Global,
        scratch: &mut Scratch,
        profile: Profile,
        code: &Cursor<'_>,
    ) -> Result<u32, ReadFault> {
        scratch.written_len(alloc, code, profile)
    }
}

/// Reads a module of a profile, as [`read_in`](crate::read_in) does, and keeps of each body the length of its written form alone: a
/// stub stands in its place.
///
/// Each code is read once, but for one that is refused. The memory taken is that of the lists, of a stub and a number for each body,
/// and room for the longest code.
///
/// # Errors
///
/// Where the bytes spell no module of the profile, the first fault from left to right, at its offset; where a growth is refused,
/// `Memory` at 0.
pub fn read_skeleton(alloc: Global, bytes: &[u8], profile: Profile) -> Result<Skeleton, ReadFault>
    ensures exact { MatchResult result
        (λ s. (m : PartsOf) × (module_at profile bytes.now ≡ Ok m) × (s.«module» ≡ outlined m)
        × (s.bodies.items ≡ body_sizes m.funcs) × (s.codes ≡ length (code_contents m.funcs)))
        (λ e. FailsAs e e.kind (module_at profile bytes.now)) }
    ensures refused { IfErr result (λ e. e.kind ≢ ReadKind.Memory → SpellsNone profile bytes.now) }
    ensures fault { IfErr result (λ e. StandsIn bytes.now e) }
    ensures first { IfErr result
        (λ e. e.kind ≢ ReadKind.Memory → IsFirstFault profile bytes.now e) }
{
    // The proof asks for what this says of modules: one that is read fits.
    reading_of_module(bytes, profile);
    let (module, bodies) = read_apart::<WrittenLen>(alloc, bytes, profile)?;
    let Some(codes) = codes_len_by(&bodies) else {
        unreachable!()
    };
    Ok(Skeleton {
        module,
        bodies,
        codes,
    })
}
