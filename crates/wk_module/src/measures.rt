//! What a walk over the bodies of a module tells of its written form, each body measured once.

ghost use Rattle.std.specs.Prelude.{◌≡◌, length, MatchResult};
ghost use Rattle.wk_body.specs.Written.{Unwritten};
ghost use Rattle.wk_module.specs.Codes.{body_sizes, code_contents};
ghost use Rattle.wk_module.specs.Shape.{IsInOrderFrom};
ghost use Rattle.wk_module.specs.Writing.{encoded, Fits};

use crate::codes::{codes_len_by, sizes_of_bodies};
use crate::length::{len_by_code, len_of_parts};
use crate::module::Module;
use crate::types::Parts;
use std::alloc::Global;
use wk_body::EncodeFault;

/// Lengths in the written form of a module, in bytes.
#[derive(Debug, Drop)]
pub struct Measures {
    /// That of each body, without the size that stands in front of it.
    pub bodies: Vec<u32>,
    /// That of the contents of the code section: 0 where it is left out.
    pub codes: u32,
    /// That of the module.
    pub whole: u32,
}

/// Measures a module, each of its bodies once. The memory taken is a number for each body.
///
/// # Errors
///
/// `TooLarge` where the written form has more than 2,147,483,647 bytes, and else `Memory` where a growth is refused.
pub fn measure(alloc: Global, module: &Module) -> Result<Measures, EncodeFault>
    ensures { MatchResult result
        (λ m. (m.bodies.items ≡ body_sizes «module».now.funcs)
        × (m.codes ≡ length (code_contents «module».now.funcs))
        × (m.whole ≡ length (encoded «module».now)) × Fits «module».now)
        (Unwritten (encoded «module».now)) }
{
    measure_parts(alloc, module.parts())
}

/// The same of the parts of a module.
pub(crate) fn measure_parts(alloc: Global, parts: &Parts) -> Result<Measures, EncodeFault>
    requires { IsInOrderFrom 0 parts.now.customs }
    ensures { MatchResult result
        (λ m. (m.bodies.items ≡ body_sizes parts.now.funcs)
        × (m.codes ≡ length (code_contents parts.now.funcs))
        × (m.whole ≡ length (encoded parts.now)) × Fits parts.now)
        (Unwritten (encoded parts.now)) }
{
    let bodies = measure_codes(alloc, parts)?;
    let codes = codes_len_by(&bodies);
    let Some(whole) = len_by_code(parts, codes) else {
        return Err(EncodeFault::TooLarge);
    };
    let Some(codes) = codes else { unreachable!() };
    Ok(Measures {
        bodies,
        codes,
        whole,
    })
}

// The size of each body.
fn measure_codes(alloc: Global, parts: &Parts) -> Result<Vec<u32>, EncodeFault>
    requires { IsInOrderFrom 0 parts.now.customs }
    ensures { MatchResult result
        (λ sizes. sizes.items ≡ body_sizes parts.now.funcs)
        (Unwritten (encoded parts.now)) }
{
    match sizes_of_bodies(alloc, parts.funcs.as_slice()) {
        Ok(sizes) => Ok(sizes),
        Err(EncodeFault::TooLarge) => Err(EncodeFault::TooLarge),
        Err(EncodeFault::Memory) => Err(unwritten_fault(parts)),
    }
}

// Why nothing is written where memory is wanted before it is known whether the module fits.
fn unwritten_fault(parts: &Parts) -> EncodeFault
    requires { IsInOrderFrom 0 parts.now.customs }
    ensures { Unwritten (encoded parts.now) result }
{
    match len_of_parts(parts) {
        Some(_) => EncodeFault::Memory,
        None => EncodeFault::TooLarge,
    }
}
