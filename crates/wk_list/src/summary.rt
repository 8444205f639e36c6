//! A module of whose bodies only their lengths are known.

ghost use Rattle.std.specs.Prelude.{◌≡◌, ◌≢◌, ◌<◌, ◌-◌, ◌^◌, ◌++◌, false, IfErr, IfOk, OnErr, OnOk};
ghost use Rattle.std.specs.Io.KnownBytes.{Appends};
ghost use Rattle.wk_bytes.specs.Stands.{StandsIn};
ghost use Rattle.wk_bytes.specs.Taken.{TakesFront};
ghost use Rattle.wk_body.specs.Reads.{Reads};
ghost use Rattle.wk_module.specs.declared.types.Parts.{Parts as PartsOf};
ghost use Rattle.wk_module.specs.Writing.{Fits};
ghost use Rattle.wk_module.specs.Modules.{Spells, SpellsNone};
ghost use Rattle.wk_module.specs.Reading.{module_at};
ghost use Rattle.wk_list.specs.Listing.{listing, lists_bodies};
ghost use Rattle.wk_list.specs.Taken.{PutsOut, failed_after};

use crate::details::list_details;
use crate::fault::{ListFault, Listed};
use crate::headers::list_headers;
use crate::listing::Part;
use crate::page::flush;
use crate::sketch::Sketch;
use std::alloc::Global;
use std::marker::Model;
use wk_bytes::{Out, ReadFault, ReadKind};
use wk_module::{
    Parts, Profile, Skeleton, custom_len, read_skeleton, reading_of_module, section_id, section_len,
};

/// A module that was read without its bodies, which were measured. It is seen as the module that its bytes spell.
///
/// It is all that headers and details tell of.
#[derive(Debug, Drop)]
pub struct Summary<'a> {
    bytes: &'a [u8],
    profile: Profile,
    skeleton: Skeleton,
}

impl<'a> Model for Summary<'a> {
    ghost use Rattle.std.specs.Coded.{codes};
    ghost use Rattle.wk_body.specs.Bodies.{coded_body};
    ghost use Rattle.wk_body.specs.TreeCode.{coded_instrs};
    ghost use Rattle.wk_module.specs.declared.types.Parts.{Parts as Seen};
    ghost use Rattle.wk_list.specs.Sketches.{spelled, IsMeasured};

    ghost Value = { Seen };

    ghost coded = { Prim.hlevel (codes, coded_instrs, coded_body) };

    ghost view = { λ s. spelled s.profile s.bytes.now };

    ghost invariant = { λ s. IsMeasured (spelled s.profile s.bytes.now) s.skeleton };
}

impl<'a> Summary<'a> {
    /// Reads the module of a profile that the bytes spell (5.5.15), as `read_in` of `wk_module` does, and keeps no body.
    ///
    /// Each code is read once, but one that is refused twice. The memory taken is that of the lists, of a stub and a number for each
    /// body, and room for the longest code.
    ///
    /// # Errors
    ///
    /// Where the bytes spell no module of the profile, the first fault from left to right, at its offset; where a growth is refused,
    /// `Memory` at 0.
    pub fn read(alloc: Global, bytes: &'a [u8], profile: Profile) -> Result<Summary<'a>, ReadFault>
        ensures exact { Reads (λ m. m) result (module_at profile bytes.now) }
        ensures found { IfOk result (λ m. Spells bytes.now m) }
        ensures profile { IfOk result (λ m. m.profile ≡ profile) }
        ensures only { IfOk result
            (λ m. (n : PartsOf) → n.profile ≡ profile → Spells bytes.now n → n ≡ m) }
        ensures fits { IfOk result (λ m. Fits m) }
        ensures refused { IfErr result
            (λ e. e.kind ≢ ReadKind.Memory → SpellsNone profile bytes.now) }
        ensures fault { IfErr result (λ e. StandsIn bytes.now e) }
    {
        // The proof asks for what this says of modules: one that is read is shaped and fits.
        reading_of_module(bytes, profile);
        let skeleton = read_skeleton(alloc, bytes, profile)?;
        Ok(Summary {
            bytes,
            profile,
            skeleton,
        })
    }
}

impl<'a> Sketch for Summary<'a> {
    ghost seen = { λ s. s };

    fn parts(&self) -> &Parts {
        self.skeleton.module.parts()
    }

    fn section_len(&self, id: u8) -> u32 {
        if id == section_id::CODE {
            self.skeleton.codes
        } else {
            section_len(&self.skeleton.module, id).unwrap_or(0)
        }
    }

    fn custom_len(&self, index: usize) -> u32 {
        let custom = &self.skeleton.module.parts().customs.as_slice()[index];
        custom_len(custom).unwrap_or(0)
    }

    fn body_len(&self, index: usize) -> u32 {
        self.skeleton.bodies[index]
    }
}

// Gathers the lines of a part that tells nothing of what stands in bodies, and puts out those that are many.
fn list_summary_part<W: Out>(
    summary: &Summary<'_>,
    part: Part,
    text: &mut Vec<u8>,
    out: &mut W,
) -> Listed
    requires room { W.failed out.old < 2 ^ 64 - 1 }
    requires part { lists_bodies part ≡ false }
    ensures { PutsOut W.taken W.failed out.old out.new
        (text.old.items ++ listing summary.now part) text.new.items result }
{
    match part {
        Part::Headers => list_headers(summary, text, out),
        Part::Details => list_details(summary, text, out),
        Part::Code | Part::Uses => unreachable!(),
    }
}

/// Writes the headers or the details of a module whose bodies were not kept, as [`list`](crate::list) does of the whole module. The
/// parts [`Code`](Part::Code) and [`Uses`](Part::Uses) tell of bodies, and are not among those that it lists.
///
/// # Errors
///
/// `Write` only where the [`Out`] failed in this call, and else `Memory` where a growth was refused. After either a beginning of the
/// text was taken.
///
/// # Example
///
/// ```rust
/// let alloc = rt.alloc();
/// // A function of `nop` and `end`, whose code has a size of two bytes where one would do.
/// let bytes = b"\0asm\x01\0\0\0\x01\x04\x01\x60\0\0\x03\x02\x01\0\x0a\x06\x01\x83\0\0\x01\x0b";
/// let summary = Summary::read(alloc, bytes, Profile::Core)?;
/// let mut out = Sink::new(Vec::new(alloc));
/// list_summary(alloc, &summary, Part::Details, &mut out)?;
/// let text = "Type[1]:\n - type[0] ()->()\nFunction[1]:\n - func[0] type=0\nCode[1]:\n - func[0] size=3\n";
/// assert_eq!(rt; out.into_inner().as_slice(), text.as_bytes());
/// ```
pub fn list_summary<W: Out>(
    alloc: Global,
    summary: &Summary<'_>,
    part: Part,
    out: &mut W,
) -> Result<(), ListFault>
    requires room { W.failed out.old < 2 ^ 64 - 1 }
    requires part { lists_bodies part ≡ false }
    ensures ok { OnOk result
        (Appends (W.taken out.old) (W.taken out.new) (listing summary.now part)) }
    ensures err { OnErr result
        (TakesFront (W.taken out.old) (W.taken out.new) (listing summary.now part)) }
    ensures failures { W.failed out.new ≡ failed_after (W.failed out.old) result }
{
    let mut text = Vec::new(alloc);
    list_summary_part(summary, part, &mut text, out)?;
    flush(&text, out)
}
