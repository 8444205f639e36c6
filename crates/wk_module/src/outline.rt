//! Reading a module of which no body is kept (5.5.15).

ghost use Rattle.std.specs.Prelude.{◌≡◌, ◌≢◌, [], Ok, IfOk, IfErr, MatchResult, length, map};
ghost use Rattle.wk_bytes.specs.Fault.{no_memory};
ghost use Rattle.wk_bytes.specs.Frames.{sections_of};
ghost use Rattle.wk_bytes.specs.Raw.{raw_view};
ghost use Rattle.wk_bytes.specs.Stands.{StandsIn};
ghost use Rattle.wk_body.specs.Reads.{FailsAs, Parses, Reads};
ghost use Rattle.wk_body.specs.Written.{written_body};
ghost use Rattle.wk_module.specs.declared.types.Parts.{Parts as PartsOf};
ghost use Rattle.wk_module.specs.Formats.{all_at};
ghost use Rattle.wk_module.specs.FirstFaults.{IsFirstFault};
ghost use Rattle.wk_module.specs.Modules.{SpellsNone};
ghost use Rattle.wk_module.specs.OutlineReading.{aside, code_aside_at, codes_aside_at, read_aside, read_outlined, stub_of, partial, without_codes};
ghost use Rattle.wk_module.specs.Outlines.{outlined, stub};
ghost use Rattle.wk_module.specs.Reading.{Progress, at_start, joined, module_at, section_end, sections_read, with_section};

use crate::module::Module;
use crate::module_read::{PartialModule, place_behind, reading_of_module};
use crate::section_id;
use crate::section_reader::CodeReader;
use crate::types::{Func, Parts};
use std::alloc::Global;
use wk_body::{Body, Profile, Scratch, read_body_in};
use wk_bytes::{Cursor, Items, RawSection, ReadFault, ReadKind, Sections};

/// A body that traps, without locals.
const STUB: &[u8] = &[0x00, 0x00, 0x0B];

// For how many codes room is made behind the first. Behind them it grows with the codes that are read.
const FIRST_ROOM: usize = 64;

/// A module of which each body stands aside, as its written form.
#[derive(Debug, Drop)]
pub struct Outline {
    /// The module with a stub in the place of each body.
    pub module: Module,
    /// The written form of each body, without its size, in their order.
    pub codes: Vec<Items<u8>>,
}

/// What is kept of a body that is read, in the place of its tokens.
pub(crate) trait Keep {
    /// What that is.
    type Item: Drop;

    ghost use Rattle.std.specs.Prelude.{◌≡◌, Ok, MatchResult};
    ghost use Rattle.wk_body.specs.Bodies.{BodyOf};
    ghost use Rattle.wk_body.specs.Reading.{all_body_at};
    ghost use Rattle.wk_body.specs.Reads.{FailsAs};

    // What that is of a body.
    ghost kept: { BodyOf → Self.Item };

    /// What is kept of the body that all that the cursor has left spells.
    fn read(
        alloc: Global,
        scratch: &mut Scratch,
        profile: Profile,
        code: &Cursor<'_>,
    ) -> Result<Self::Item, ReadFault>
        ensures { MatchResult result
            (λ x. (b : BodyOf) × (all_body_at profile code.now.end code.now.rest ≡ Ok b)
            × (x ≡ kept b))
            (λ e. FailsAs e e.kind (all_body_at profile code.now.end code.now.rest)) };
}

// The written form.
struct WrittenForm;

impl Keep for WrittenForm {
    type Item = Items<u8>;

    ghost use Rattle.wk_body.specs.Written.{written_body};

    ghost kept = { written_body };

    fn read(
        alloc: Global,
        scratch: &mut Scratch,
        profile: Profile,
        code: &Cursor<'_>,
    ) -> Result<Items<u8>, ReadFault> {
        let written = scratch.written_form(alloc, code, profile)?;
        Ok(Items::from_vec(Vec::from_slice(alloc, written)?))
    }
}

// What is kept of the next code.
#[tactic(auto, unfolding(crate::specs::Formats::made_at, crate::specs::Items::code_at))]
fn next_kept<K: Keep>(
    alloc: Global,
    scratch: &mut Scratch,
    profile: Profile,
    codes: &mut CodeReader<'_>,
) -> Result<K::Item, ReadFault>
    ensures { Parses (λ x. x) (code_aside_at K.kept profile) codes.old result codes.new }
{
    let code = codes.next_code()?;
    K::read(alloc, scratch, profile, &code)
}

// What is kept of each code of the code section, where that many functions were declared. Room for a few is made once the first is
// read; else it grows with the codes and not with the number.
#[tactic(auto, using(crate::proofs::VectorReading::goes_on, crate::proofs::VectorReading::stops, crate::proofs::VectorReading::is_done, crate::proofs::Outlining::opened_front))]
fn read_codes<K: Keep>(
    alloc: Global,
    scratch: &mut Scratch,
    profile: Profile,
    funcs: usize,
    section: &RawSection<'_>,
) -> Result<Vec<K::Item>, ReadFault>
    ensures { Reads (λ x. x.items) result
        (all_at (codes_aside_at K.kept profile funcs) (section_end (raw_view section.now))
        section.now.contents.now) }
{
    let mut codes = CodeReader::open(section, funcs)?;
    let mut kept = Vec::new(alloc);
    for _ in 0..funcs {
        let code = next_kept::<K>(alloc, scratch, profile, &mut codes)?;
        if kept.is_empty() {
            kept.reserve(funcs.min(FIRST_ROOM))?;
        }
        kept.push(code)?;
    }
    codes.end()?;
    Ok(kept)
}

// Reads one more section. Of what was read so far nothing is said after a refusal.
fn read_section<K: Keep>(
    alloc: Global,
    scratch: &mut Scratch,
    profile: Profile,
    section: &RawSection<'_>,
    so_far: &mut PartialModule,
    kept: &mut Vec<K::Item>,
) -> Result<(), ReadFault>
    ensures { (p : Progress) → partial so_far.old kept.old.items ≡ aside K.kept p
        → Reads (λ u. partial so_far.new kept.new.items) result
        (read_aside K.kept (with_section profile p (raw_view section.now))) }
{
    if section.id != section_id::CODE {
        return so_far.read_section(alloc, scratch, profile, section);
    }
    let funcs = so_far.indices.len();
    *kept = read_codes::<K>(alloc, scratch, profile, funcs, section)?;
    so_far.place = place_behind(so_far.place, section_id::CODE, !kept.is_empty());
    Ok(())
}

// Reads each section of an input, from the first on.
fn read_each_section<K: Keep>(
    alloc: Global,
    scratch: &mut Scratch,
    bytes: &[u8],
    profile: Profile,
    so_far: &mut PartialModule,
    kept: &mut Vec<K::Item>,
) -> Result<(), ReadFault>
    requires first { so_far.old ≡ at_start }
    requires none { kept.old.items ≡ [] }
    ensures { Reads (λ u. partial so_far.new kept.new.items) result
        (read_aside K.kept (sections_read profile at_start (sections_of bytes.now))) }
{
    for section in Sections::new(bytes) {
        read_section::<K>(alloc, scratch, profile, &section?, so_far, kept)?;
    }
    Ok(())
}

// Section after section: all but the codes, and what is kept of each.
fn read_sections<K: Keep>(
    alloc: Global,
    bytes: &[u8],
    profile: Profile,
) -> Result<(PartialModule, Vec<K::Item>), ReadFault>
    ensures { Reads (λ u. partial u.0 u.1.items) result
        (read_aside K.kept (sections_read profile at_start (sections_of bytes.now))) }
{
    let mut scratch = Scratch::new(alloc);
    let mut so_far = PartialModule::new(alloc, profile);
    let mut kept = Vec::new(alloc);
    let read = read_each_section::<K>(alloc, &mut scratch, bytes, profile, &mut so_far, &mut kept);
    drop(scratch);
    if let Err(fault) = read {
        drop(so_far);
        return Err(fault);
    }
    Ok((so_far, kept))
}

// The body that stands in the place of each. Only memory may be wanting.
fn read_stub(alloc: Global, profile: Profile) -> Result<Body, ReadFault>
    ensures { MatchResult result (λ body. body ≡ stub) (λ e. e ≡ no_memory) }
{
    read_body_in(alloc, STUB, profile)
}

// A function for each type, with a stub for its body.
fn stubs(alloc: Global, profile: Profile, indices: &[u32]) -> Result<Items<Func>, ReadFault>
    ensures { MatchResult result (λ funcs. funcs ≡ map stub_of indices.now) (λ e. e ≡ no_memory) }
{
    let stub = read_stub(alloc, profile)?;
    let mut funcs = Vec::with_capacity(alloc, indices.len())?;
    for ty in indices {
        funcs.push(Func {
            ty: *ty,
            body: stub.clone()?,
        })?;
    }
    Ok(Items::from_vec(funcs))
}

// The parts of the module of all that was read of an input with that many bytes, and of that many codes.
fn finish_outline(
    alloc: Global,
    profile: Profile,
    so_far: PartialModule,
    codes: usize,
    len: u32,
) -> Result<Parts, ReadFault>
    ensures { (p : Progress) → so_far ≡ without_codes p → codes ≡ length p.lists.codes
        → Reads (λ d. d) result (read_outlined (joined profile len p)) }
{
    if so_far.indices.len() != codes {
        drop(so_far);
        return Err(ReadFault {
            kind: ReadKind::FuncCodeCount,
            at: len,
        });
    }
    match stubs(alloc, profile, so_far.indices.as_slice()) {
        Ok(funcs) => Ok(so_far.parts.with_funcs(profile, funcs)),
        Err(fault) => {
            drop(so_far);
            Err(fault)
        }
    }
}

/// Reads a module of a profile without its bodies: a stub stands in the place of each, and something is kept of it.
///
/// # Errors
///
/// As [`read_outline`] says.
pub(crate) fn read_apart<K: Keep>(
    alloc: Global,
    bytes: &[u8],
    profile: Profile,
) -> Result<(Module, Vec<K::Item>), ReadFault>
    ensures exact { MatchResult result
        (λ r. (m : PartsOf) × (module_at profile bytes.now ≡ Ok m) × (r.0 ≡ outlined m)
        × (r.1.items ≡ map (λ f. K.kept f.body) m.funcs))
        (λ e. FailsAs e e.kind (module_at profile bytes.now)) }
    ensures refused { IfErr result (λ e. e.kind ≢ ReadKind.Memory → SpellsNone profile bytes.now) }
    ensures fault { IfErr result (λ e. StandsIn bytes.now e) }
    ensures first { IfErr result
        (λ e. e.kind ≢ ReadKind.Memory → IsFirstFault profile bytes.now e) }
{
    // The proof asks for what this says of modules.
    reading_of_module(bytes, profile);
    let (so_far, kept) = read_sections::<K>(alloc, bytes, profile)?;
    let parts = finish_outline(alloc, profile, so_far, kept.len(), bytes.len() as u32)?;
    Ok((Module::of(parts), kept))
}

/// Reads a module of a profile, as [`read_in`](crate::read_in) does, without keeping its bodies: each stands aside, as its written
/// form, and a stub in its place.
///
/// Each code is read once, and what is kept of it is its written form.
///
/// # Errors
///
/// Where the bytes spell no module of the profile, the first fault from left to right, at its offset; where a growth is refused,
/// `Memory` at 0.
pub fn read_outline(alloc: Global, bytes: &[u8], profile: Profile) -> Result<Outline, ReadFault>
    ensures exact { MatchResult result
        (λ o. (m : PartsOf) × (module_at profile bytes.now ≡ Ok m) × (o.«module» ≡ outlined m)
        × (o.codes.items ≡ map (λ f. written_body f.body) m.funcs))
        (λ e. FailsAs e e.kind (module_at profile bytes.now)) }
    ensures refused { IfErr result (λ e. e.kind ≢ ReadKind.Memory → SpellsNone profile bytes.now) }
    ensures fault { IfErr result (λ e. StandsIn bytes.now e) }
    ensures first { IfErr result
        (λ e. e.kind ≢ ReadKind.Memory → IsFirstFault profile bytes.now e) }
{
    let (module, codes) = read_apart::<WrittenForm>(alloc, bytes, profile)?;
    Ok(Outline { module, codes })
}
