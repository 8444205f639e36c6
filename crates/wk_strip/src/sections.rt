//! The sections that hold lists, each with the custom sections behind it.

ghost use Rattle.std.specs.Prelude.{◌≡◌, ◌≢◌, ◌-◌, ◌≤◌, ◌++◌, Ok, Err, OnOk, IfErr, MatchResult};
ghost use Rattle.wk_bytes.specs.Frames.{magic, version};
ghost use Rattle.wk_body.specs.declared.fault.EncodeFault.TheVariants.{TooLarge, Memory};
ghost use Rattle.wk_module.specs.Listed.{listed};
ghost use Rattle.wk_strip.specs.Written.{sections_from, IsTooLong};

use crate::customs::{KeptCustom, append_customs};
use std::alloc::Global;
use wk_bytes::OutOfMemory;
use wk_module::{EncodeFault, HEADER, Lists, append_section, section_id};

/// The ids end in front of this.
pub(crate) const END: u8 = section_id::LAST + 1;

// Appends the sections of the ids from `first` up to `end`, which is not among them, each with the custom sections of its place.
pub(crate) fn append_sections(
    lists: &Lists<'_>,
    customs: &[KeptCustom],
    first: u8,
    end: u8,
    out: &mut Vec<u8>,
) -> Result<(), EncodeFault>
    requires { first ≤ end }
    ensures ok { OnOk result
        (out.new.items
        ≡ out.old.items ++ sections_from (listed lists.now) customs.now first (end - first)) }
    ensures fault { IfErr result (λ e. e ≡ TooLarge → IsTooLong (listed lists.now) first end) }
{
    for id in first..end {
        append_section(lists, id, out)?;
        append_customs(customs, id, out)?;
    }
    Ok(())
}

// The header, and the sections of the ids below `end`.
pub(crate) fn begin(
    alloc: Global,
    lists: &Lists<'_>,
    customs: &[KeptCustom],
    end: u8,
) -> Result<Vec<u8>, EncodeFault>
    ensures { MatchResult result
        (λ bytes. bytes.items
        ≡ (magic ++ version) ++ sections_from (listed lists.now) customs.now 0 end)
        (λ e. e ≡ TooLarge → IsTooLong (listed lists.now) 0 end) }
{
    let mut bytes = Vec::new(alloc);
    bytes.extend_from_slice(&HEADER)?;
    append_sections(lists, customs, 0, end, &mut bytes)?;
    Ok(bytes)
}

// What was written, or want of memory: no other fault comes of a module that fits.
pub(crate) fn written<T>(answer: Result<T, EncodeFault>) -> Result<T, OutOfMemory>
    requires { IfErr answer (λ e. e ≢ TooLarge) }
    ensures { MatchResult result (λ x. answer ≡ Ok x) (λ e. answer ≡ Err Memory) }
{
    match answer {
        Ok(x) => Ok(x),
        Err(EncodeFault::Memory) => Err(OutOfMemory),
        Err(EncodeFault::TooLarge) => unreachable!(),
    }
}
