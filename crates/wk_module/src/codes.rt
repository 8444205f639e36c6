//! The code section (5.5.13), by the sizes of its bodies: each is found once, and stands in front of its body.

ghost use Rattle.std.specs.Prelude.{◌≡◌, ◌<◌, ◌≤◌, ◌++◌, List, length, map, OnOk, IfOk, IfErr};
ghost use Rattle.wk_bytes.specs.Frames.{limit};
ghost use Rattle.wk_body.specs.Bodies.{BodyOf};
ghost use Rattle.wk_body.specs.Lengths.{limited, GrowsBy};
ghost use Rattle.wk_body.specs.declared.fault.EncodeFault.TheVariants.{TooLarge};
ghost use Rattle.wk_module.specs.Codes.{body_sizes, code_contents};
ghost use Rattle.wk_module.specs.Items.{written_code};
ghost use Rattle.wk_module.specs.Sections.{CodeSection};
ghost use Rattle.wk_module.specs.Sizes.{body_size, entry_size};
ghost use Rattle.wk_module.specs.Writing.{section_contents};

use crate::types::Func;
use crate::vector_write::{plus, plus_count, plus_u32};
use std::alloc::Global;
use wk_body::{EncodeFault, append_body, body_len};
use wk_bytes::{OutOfMemory, put_u32};

// A length with a code added whose body has that size.
fn plus_code(total: Option<u32>, size: u32) -> Option<u32>
    ensures { GrowsBy (entry_size size) total result }
{
    plus(plus_u32(total, size), size as usize)
}

/// The length of the contents of the code section of functions, or nothing past the limit. It takes no memory.
pub(crate) fn codes_len(funcs: &[Func]) -> Option<u32>
    ensures { result ≡ limited (length (code_contents funcs.now)) }
{
    if funcs.is_empty() {
        return Some(0);
    }
    let mut total = Some(0);
    for func in funcs {
        total = plus_code(total, body_len(&func.body)?);
    }
    plus_count(total, funcs.len())
}

/// The same by the sizes of the bodies.
pub(crate) fn codes_len_by(sizes: &[u32]) -> Option<u32>
    ensures { (bodies : List BodyOf) → sizes.now ≡ map body_size bodies
        → result ≡ limited (length (section_contents CodeSection bodies)) }
{
    if sizes.is_empty() {
        return Some(0);
    }
    let mut total = Some(0);
    for size in sizes {
        total = plus_code(total, *size);
    }
    plus_count(total, sizes.len())
}

/// The size of each body, without the size that stands in front of it.
///
/// # Errors
///
/// `TooLarge` only where the code section has more than 2,147,483,647 bytes, and else `Memory` where a growth is refused.
pub(crate) fn sizes_of_bodies(alloc: Global, funcs: &[Func]) -> Result<Vec<u32>, EncodeFault>
    ensures ok { IfOk result (λ sizes. sizes.items ≡ body_sizes funcs.now) }
    ensures too_large { IfErr result
        (λ e. e ≡ TooLarge → limit < length (code_contents funcs.now)) }
{
    let mut sizes = Vec::with_capacity(alloc, funcs.len())?;
    for func in funcs {
        let Some(size) = body_len(&func.body) else {
            return Err(EncodeFault::TooLarge);
        };
        sizes.push_reserved(size);
    }
    Ok(sizes)
}

// Appends a code: its size, which is known, and its body.
fn put_code(func: &Func, size: u32, bytes: &mut Vec<u8>) -> Result<(), OutOfMemory>
    requires { size ≡ body_size func.now.body }
    ensures { OnOk result (bytes.new.items ≡ bytes.old.items ++ written_code func.now.body) }
{
    put_u32(bytes, size)?;
    append_body(bytes, &func.body)
}

/// Appends the contents of the code section of functions whose bodies have these sizes: none where there are no functions.
pub(crate) fn put_codes(
    funcs: &[Func],
    sizes: &[u32],
    bytes: &mut Vec<u8>,
) -> Result<(), OutOfMemory>
    requires sizes { sizes.now ≡ body_sizes funcs.now }
    requires fits { length (code_contents funcs.now) ≤ limit }
    ensures { OnOk result (bytes.new.items ≡ bytes.old.items ++ code_contents funcs.now) }
{
    if funcs.is_empty() {
        return Ok(());
    }
    put_u32(bytes, funcs.len() as u32)?;
    for (func, size) in funcs.iter().zip(sizes) {
        put_code(func, *size, bytes)?;
    }
    Ok(())
}
