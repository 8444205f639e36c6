//! Reading a module (5.5.15).

ghost use Rattle.std.specs.Prelude.{◌≡◌, ◌≢◌, ◌≤◌, ℕ, length, IfOk, IfErr, if◌then◌else◌};
ghost use Rattle.wk_bytes.specs.Frames.{sections_of};
ghost use Rattle.wk_bytes.specs.Raw.{raw_view};
ghost use Rattle.wk_bytes.specs.Stands.{StandsIn};
ghost use Rattle.wk_body.specs.Reads.{Reads};
ghost use Rattle.wk_module.specs.declared.types.Parts.{Parts as Lists};
ghost use Rattle.wk_module.specs.Customs.{custom_at};
ghost use Rattle.wk_module.specs.FirstFaults.{IsFirstFault};
ghost use Rattle.wk_module.specs.FormatLaws.{SectionLaws};
ghost use Rattle.wk_module.specs.Formats.{all_at};
ghost use Rattle.wk_module.specs.ModuleLaws.{SpellOne, SpellAlike};
ghost use Rattle.wk_module.specs.Modules.{Spells, SpellsNone};
ghost use Rattle.wk_module.specs.ListReading.{AreListsOfModule, IsReading, Rise};
ghost use Rattle.wk_module.specs.Writing.{Fits};
ghost use Rattle.wk_module.specs.Sections.{contents_at, is_full, StartSection, CodeSection};
ghost use Rattle.wk_module.specs.Reading.{at_start, section_end, with_section, sections_read, joined, zipped, module_at};

use crate::format::{
    Datas, Elems, Exports, FuncTypes, Globals, Imports, Indices, Memories, Tables,
};
use crate::module::Module;
use crate::section_id;
use crate::section_reader::CodeReader;
use crate::types::{Custom, Func, Parts};
use crate::vector_read::{at_end, read_list, read_name};
use std::alloc::Global;
use std::marker::Model;
use wk_body::{
    Body, Profile, Scratch, one_spelling_of_code, reading_of_code, written_form_of_code,
};
use wk_bytes::{Items, OutOfMemory, RawSection, ReadFault, ReadKind, Sections};

// What was read so far: the lists, where the functions are parted into their types and their bodies, and the id of the last
// section that is not empty.
// A reader that gives up drops it by a call: where the drops of all its lists stand in the reader, the proof takes many times as long.
#[derive(Debug, Drop)]
pub(crate) struct PartialModule {
    pub(crate) parts: Parts,
    pub(crate) indices: Items<u32>,
    bodies: Items<Body>,
    pub(crate) place: u8,
}

impl Model for PartialModule {
    ghost use Rattle.std.specs.Coded.{codes};
    ghost use Rattle.wk_body.specs.Bodies.{coded_body};
    ghost use Rattle.wk_body.specs.TreeCode.{coded_instrs};
    ghost use Rattle.wk_module.specs.Reading.{Progress};

    ghost Value = { Progress };

    ghost coded = { Prim.hlevel (codes, coded_instrs, coded_body) };

    ghost view = { λ s. record {
      lists = record {
        types = s.parts.types;
        imports = s.parts.imports;
        funcs = s.indices;
        tables = s.parts.tables;
        memories = s.parts.memories;
        globals = s.parts.globals;
        exports = s.parts.exports;
        start = s.parts.start;
        elems = s.parts.elems;
        codes = s.bodies;
        datas = s.parts.datas;
      };
      customs = s.parts.customs;
      place = s.place;
    } };
}

// Reads a custom section that stands at a place.
#[tactic(auto, unfolding(crate::specs::Customs::custom_at))]
fn read_custom(alloc: Global, place: u8, section: &RawSection<'_>) -> Result<Custom, ReadFault>
    ensures { Reads (λ c. c) result
        (custom_at place (section_end (raw_view section.now)) section.now.contents.now) }
{
    let mut cursor = section.cursor();
    let name = read_name(alloc, &mut cursor)?;
    Ok(Custom {
        place,
        name,
        bytes: Items::from_vec(Vec::from_slice(alloc, cursor.rest())?),
    })
}

// Reads the start section, which is one index. It is never empty.
#[tactic(auto, unfolding(crate::specs::Formats::made_at))]
fn read_start(
    start: &mut Option<u32>,
    profile: Profile,
    section: &RawSection<'_>,
) -> Result<bool, ReadFault>
    ensures read { Reads (λ _. start.new) result
        (all_at (contents_at profile 0 StartSection) (section_end (raw_view section.now))
        section.now.contents.now) }
    ensures full { IfOk result (λ full. full ≡ is_full StartSection start.new) }
{
    let mut cursor = section.cursor();
    *start = Some(cursor.u32()?);
    at_end(&cursor)?;
    Ok(true)
}

// Reads the code section, where that many functions were declared.
#[tactic(auto, using(crate::proofs::VectorReading::goes_on, crate::proofs::VectorReading::stops, crate::proofs::VectorReading::is_done), unfolding(crate::specs::Sections::codes_at))]
fn read_codes(
    alloc: Global,
    scratch: &mut Scratch,
    profile: Profile,
    funcs: usize,
    section: &RawSection<'_>,
) -> Result<Items<Body>, ReadFault>
    ensures { Reads (λ x. x) result
        (all_at (contents_at profile funcs CodeSection) (section_end (raw_view section.now))
        section.now.contents.now) }
{
    let mut codes = CodeReader::open(section, funcs)?;
    let mut bodies = Items::new(alloc);
    for _ in 0..funcs {
        bodies.push(codes.next(alloc, scratch, profile)?)?;
    }
    codes.end()?;
    Ok(bodies)
}

// The place behind a section: its id, unless it is empty.
pub(crate) fn place_behind(place: u8, id: u8, full: bool) -> u8
    ensures { result ≡ (if full then id else place) }
{
    if full { id } else { place }
}

// Of what was read so far nothing is said after a refusal.
impl PartialModule {
    // Before the first section.
    pub(crate) fn new(alloc: Global, profile: Profile) -> PartialModule
        ensures { result ≡ at_start }
    {
        PartialModule {
            parts: Parts::new(alloc, profile),
            indices: Items::new(alloc),
            bodies: Items::new(alloc),
            place: 0,
        }
    }

    // Reads a section of the ids 1 to 11.
    #[tactic(auto, unfolding(crate::specs::Reading::section_by))]
    pub(crate) fn read_known_section(
        &mut self,
        alloc: Global,
        scratch: &mut Scratch,
        profile: Profile,
        section: &RawSection<'_>,
    ) -> Result<(), ReadFault>
        requires low { 1 ≤ section.now.id }
        requires high { section.now.id ≤ 11 }
        ensures { Reads (λ u. self.new) result
            (with_section profile self.old (raw_view section.now)) }
    {
        let full = match section.id {
            section_id::TYPE => {
                read_list::<FuncTypes>(&mut self.parts.types, alloc, scratch, profile, section)?
            }
            section_id::IMPORT => {
                read_list::<Imports>(&mut self.parts.imports, alloc, scratch, profile, section)?
            }
            section_id::FUNCTION => {
                read_list::<Indices>(&mut self.indices, alloc, scratch, profile, section)?
            }
            section_id::TABLE => {
                read_list::<Tables>(&mut self.parts.tables, alloc, scratch, profile, section)?
            }
            section_id::MEMORY => {
                read_list::<Memories>(&mut self.parts.memories, alloc, scratch, profile, section)?
            }
            section_id::GLOBAL => {
                read_list::<Globals>(&mut self.parts.globals, alloc, scratch, profile, section)?
            }
            section_id::EXPORT => {
                read_list::<Exports>(&mut self.parts.exports, alloc, scratch, profile, section)?
            }
            section_id::START => read_start(&mut self.parts.start, profile, section)?,
            section_id::ELEMENT => {
                read_list::<Elems>(&mut self.parts.elems, alloc, scratch, profile, section)?
            }
            section_id::CODE => {
                let funcs = self.indices.len();
                self.bodies = read_codes(alloc, scratch, profile, funcs, section)?;
                !self.bodies.is_empty()
            }
            _ => read_list::<Datas>(&mut self.parts.datas, alloc, scratch, profile, section)?,
        };
        self.place = place_behind(self.place, section.id, full);
        Ok(())
    }

    // Reads one more section.
    #[tactic(auto, unfolding(crate::specs::Reading::section_by))]
    pub(crate) fn read_section(
        &mut self,
        alloc: Global,
        scratch: &mut Scratch,
        profile: Profile,
        section: &RawSection<'_>,
    ) -> Result<(), ReadFault>
        ensures { Reads (λ u. self.new) result
            (with_section profile self.old (raw_view section.now)) }
    {
        match section.id {
            section_id::TYPE..=section_id::DATA => self.read_known_section(
                alloc, scratch, profile, section,
            ),
            _ => {
                let custom = read_custom(alloc, self.place, section)?;
                self.parts.customs.push(custom)?;
                Ok(())
            }
        }
    }

    // Reads each section of an input.
    #[tactic(auto, unfolding(crate::specs::Reading::sections_read))]
    fn read_sections(
        &mut self,
        alloc: Global,
        scratch: &mut Scratch,
        profile: Profile,
        bytes: &[u8],
    ) -> Result<(), ReadFault>
        ensures { Reads (λ u. self.new) result
            (sections_read profile self.old (sections_of bytes.now)) }
    {
        for section in Sections::new(bytes) {
            self.read_section(alloc, scratch, profile, &section?)?;
        }
        Ok(())
    }
}

// Section after section.
fn read_sections(alloc: Global, bytes: &[u8], profile: Profile) -> Result<PartialModule, ReadFault>
    ensures { Reads (λ p. p) result (sections_read profile at_start (sections_of bytes.now)) }
{
    let mut scratch = Scratch::new(alloc);
    let mut so_far = PartialModule::new(alloc, profile);
    let read = so_far.read_sections(alloc, &mut scratch, profile, bytes);
    drop(scratch);
    if let Err(fault) = read {
        drop(so_far);
        return Err(fault);
    }
    Ok(so_far)
}

// Each function's type and body.
fn functions(
    alloc: Global,
    indices: &Items<u32>,
    bodies: Items<Body>,
) -> Result<Items<Func>, OutOfMemory>
    requires { length indices.now ≡ length bodies }
    ensures { IfOk result (λ funcs. funcs ≡ zipped indices.now bodies) }
{
    let indices = indices.as_slice();
    let mut funcs = Vec::with_capacity(alloc, indices.len())?;
    for body in bodies.into_vec() {
        let ty = indices[funcs.len()];
        funcs.push_reserved(Func { ty, body });
    }
    Ok(Items::from_vec(funcs))
}

// The module of all that was read of an input with that many bytes.
fn finish_module(
    alloc: Global,
    profile: Profile,
    so_far: PartialModule,
    len: u32,
) -> Result<Parts, ReadFault>
    ensures { Reads (λ m. m) result (joined profile len so_far) }
{
    if so_far.indices.len() != so_far.bodies.len() {
        drop(so_far);
        return Err(ReadFault {
            kind: ReadKind::FuncCodeCount,
            at: len,
        });
    }
    let PartialModule {
        parts,
        indices,
        bodies,
        ..
    } = so_far;
    match functions(alloc, &indices, bodies) {
        Ok(funcs) => Ok(parts.with_funcs(profile, funcs)),
        Err(refused) => {
            drop(parts);
            Err(ReadFault::from(refused))
        }
    }
}

// The lists of a module, as they are spelled.
#[tactic(auto, unfolding(crate::specs::Reading::module_at))]
pub(crate) fn read_parts(alloc: Global, bytes: &[u8], profile: Profile) -> Result<Parts, ReadFault>
    ensures { Reads (λ m. m) result (module_at profile bytes.now) }
{
    let so_far = read_sections(alloc, bytes, profile)?;
    finish_module(alloc, profile, so_far, bytes.len() as u32)
}

/// Reads a module of a profile (5.5.15): the header and the sections, each read to its end before the next one's id.
///
/// The module is the only one of the profile that the bytes spell. Where they spell none the answer is the first fault from left
/// to right, at its offset in `bytes`; where a growth is refused it is `Memory`, at 0.
///
/// # Example
///
/// ```rust
/// let alloc = rt.alloc();
/// // A module of one type, which takes nothing and gives nothing.
/// let spelled: &[u8] = b"\0asm\x01\0\0\0\x01\x04\x01\x60\0\0";
/// let module = read_in(alloc, spelled, Profile::Core)?;
/// assert_eq!(rt; module.parts().types.len(), 1);
/// assert_eq!(rt; encode(alloc, &module)?.as_slice(), spelled);
///
/// // Without its last byte the contents of the section break off: they begin at offset 10.
/// let kind = ReadKind::UnexpectedEnd;
/// let cut = read_in(alloc, &spelled[..13], Profile::Core);
/// assert_eq!(rt; cut.err(), Some(ReadFault { kind, at: 10 }));
/// ```
pub fn read_in(alloc: Global, bytes: &[u8], profile: Profile) -> Result<Module, ReadFault>
    ensures exact { Reads (λ m. m) result (module_at profile bytes.now) }
    ensures found { IfOk result (λ m. Spells bytes.now m) }
    ensures profile { IfOk result (λ m. m.profile ≡ profile) }
    ensures only { IfOk result
        (λ m. (n : Lists) → n.profile ≡ profile → Spells bytes.now n → n ≡ m) }
    ensures fits { IfOk result (λ m. Fits m) }
    ensures refused { IfErr result (λ e. e.kind ≢ ReadKind.Memory → SpellsNone profile bytes.now) }
    ensures fault { IfErr result (λ e. StandsIn bytes.now e) }
    ensures first { IfErr result
        (λ e. e.kind ≢ ReadKind.Memory → IsFirstFault profile bytes.now e) }
{
    // The proof asks for what this says of sections.
    laws_of_sections();
    Ok(Module::of(read_parts(alloc, bytes, profile)?))
}

/// Reads a module of WebAssembly 1.0, as [`read_in`] does.
pub fn read(alloc: Global, bytes: &[u8]) -> Result<Module, ReadFault>
    ensures exact { Reads (λ m. m) result (module_at Profile.Core bytes.now) }
    ensures found { IfOk result (λ m. Spells bytes.now m) }
    ensures profile { IfOk result (λ m. m.profile ≡ Profile.Core) }
    ensures only { IfOk result
        (λ m. (n : Lists) → n.profile ≡ Profile.Core → Spells bytes.now n → n ≡ m) }
    ensures fits { IfOk result (λ m. Fits m) }
    ensures refused { IfErr result
        (λ e. e.kind ≢ ReadKind.Memory → SpellsNone Profile.Core bytes.now) }
    ensures fault { IfErr result (λ e. StandsIn bytes.now e) }
    ensures first { IfErr result
        (λ e. e.kind ≢ ReadKind.Memory → IsFirstFault Profile.Core bytes.now e) }
{
    read_in(alloc, bytes, Profile::Core)
}

/// The laws of the contents of sections, by those of expressions and bodies. It does nothing.
pub(crate) fn laws_of_sections()
    ensures { (profile : Profile) → SectionLaws profile }
{
    reading_of_code();
    written_form_of_code();
}

/// The laws that make modules readable in one way: no bytes spell two modules of one profile, and what spells one of 1.0 spells
/// the one of the other profile with the same lists. It does nothing.
pub fn one_module()
    ensures one { SpellOne }
    ensures alike { SpellAlike }
{
    laws_of_sections();
    one_spelling_of_code();
}

/// The laws of reading a module: what is read is the one module that the bytes spell, and fits, or none and the fault stands; its
/// lists are those that are read one after the other; and sections come by rising ids. It does nothing.
pub fn reading_of_module(bytes: &[u8], profile: Profile)
    ensures is { IsReading profile bytes.now (module_at profile bytes.now) }
    ensures fits { IfOk (module_at profile bytes.now) (λ m. Fits m) }
    ensures lists { AreListsOfModule profile bytes.now }
    ensures rise { Rise 0 (sections_of bytes.now) }
{
    laws_of_sections();
}
