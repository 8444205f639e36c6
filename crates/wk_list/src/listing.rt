//! The parts of a listing.

ghost use Rattle.std.specs.Prelude.{◌≡◌, ◌<◌, ◌-◌, ◌^◌, ◌++◌, OnOk, OnErr};
ghost use Rattle.std.specs.Io.KnownBytes.{Appends};
ghost use Rattle.wk_bytes.specs.Taken.{TakesFront};
ghost use Rattle.wk_list.specs.Taken.{PutsOut, failed_after};
ghost use Rattle.wk_list.specs.Listing.{listing, lists_bodies};

use crate::code::list_code;
use crate::details::list_details;
use crate::fault::{ListFault, Listed};
use crate::headers::list_headers;
use crate::page::flush;
use crate::shape::Shape;
use crate::sketch::Whole;
use crate::uses::list_uses;
use std::alloc::Global;
use wk_bytes::Out;

/// What is listed of a module. All offsets are those of its written form.
#[derive(Clone, Copy, Debug, PartialEq, Eq)]
pub enum Part {
    /// A line for each section: where its contents start and end, and how many items they are.
    Headers,
    /// A line for each item of each section.
    Details,
    /// The instructions of each function that the module defines, each with its offset.
    Code,
    /// What each function that the module defines refers to, with its own type.
    Uses,
}

impl Part {
    /// Whether the part tells what stands in bodies: then the module has to be read with them.
    pub fn lists_bodies(self) -> bool
        ensures { result ≡ lists_bodies self }
    {
        matches!(self, Part::Code | Part::Uses)
    }
}

// Gathers the lines of a part, and puts out those that are many.
fn list_part<S: Shape, W: Out>(shape: &S, part: Part, text: &mut Vec<u8>, out: &mut W) -> Listed
    requires room { W.failed out.old < 2 ^ 64 - 1 }
    ensures { PutsOut W.taken W.failed out.old out.new
        (text.old.items ++ listing (S.seen shape.now) part) text.new.items result }
{
    match part {
        Part::Headers => list_headers(&Whole { shape }, text, out),
        Part::Details => list_details(&Whole { shape }, text, out),
        Part::Code => list_code(shape, text, out),
        Part::Uses => list_uses(shape, text, out),
    }
}

/// Writes a part of the listing of a module.
///
/// # Errors
///
/// `Write` only where the [`Out`] failed in this call, and else `Memory` where a growth was refused. After either a beginning of the
/// text was taken.
///
/// # Example
///
/// ```rust
/// let alloc = rt.alloc();
/// // A function of `nop` and `end`.
/// let bytes = b"\0asm\x01\0\0\0\x01\x04\x01\x60\0\0\x03\x02\x01\0\x0a\x05\x01\x03\0\x01\x0b";
/// let module = read(alloc, bytes)?;
/// let plain = Plain::of(&module).ok_or("a module that fits")?;
/// let mut out = Sink::new(Vec::new(alloc));
/// list(alloc, &plain, Part::Code, &mut out)?;
/// let text = "func[0] type=0:\n 00000017: nop\n 00000018: end\n";
/// assert_eq!(rt; out.into_inner().as_slice(), text.as_bytes());
/// ```
pub fn list<S: Shape, W: Out>(
    alloc: Global,
    shape: &S,
    part: Part,
    out: &mut W,
) -> Result<(), ListFault>
    requires room { W.failed out.old < 2 ^ 64 - 1 }
    ensures ok { OnOk result
        (Appends (W.taken out.old) (W.taken out.new) (listing (S.seen shape.now) part)) }
    ensures err { OnErr result
        (TakesFront (W.taken out.old) (W.taken out.new) (listing (S.seen shape.now) part)) }
    ensures failures { W.failed out.new ≡ failed_after (W.failed out.old) result }
{
    let mut text = Vec::new(alloc);
    list_part(shape, part, &mut text, out)?;
    flush(&text, out)
}
