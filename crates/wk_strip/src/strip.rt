//! A module without its custom sections.

ghost use Rattle.std.specs.Prelude.{◌≡◌, ◌≢◌, ◌+◌, ◌-◌, ◌<◌, ◌≤◌, ◌++◌, ◌^◌, [], Ok, Err, IfOk, IfErr, MatchResult, drop, length, option_map};
ghost use Rattle.std.specs.Result.{result_map_both};
ghost use Rattle.wk_bytes.specs.Frames.{limit, magic, version, sections_of};
ghost use Rattle.wk_bytes.specs.Raw.{raw_view};
ghost use Rattle.wk_bytes.specs.Short.{short};
ghost use Rattle.wk_bytes.specs.Stands.{StandsIn};
ghost use Rattle.wk_body.specs.Reads.{FailsAs};
ghost use Rattle.wk_module.specs.declared.types.Parts.{Parts};
ghost use Rattle.wk_module.specs.Listed.{listed};
ghost use Rattle.wk_module.specs.ListReading.{lists_read};
ghost use Rattle.wk_module.specs.Modules.{SpellsNone};
ghost use Rattle.wk_module.specs.Reading.{module_at};
ghost use Rattle.wk_module.specs.Sections.{no_lists};
ghost use Rattle.wk_module.specs.Shape.{settle};
ghost use Rattle.wk_module.specs.Writing.{encoded};
ghost use Rattle.wk_strip.specs.Apart.{HasCodes, HasNoCodes, IsApart, IsFront, IsReadApart};
ghost use Rattle.wk_strip.specs.Rewritten.{codes_in};
ghost use Rattle.wk_strip.specs.Stripped.{FitsWith, IsStripped, IsWrittenWith, with_kept};
ghost use Rattle.wk_strip.specs.Written.{code_front, sections_from, IsTooLong};

use crate::codes::{Codes, append_code_front, rewrite_codes};
use crate::customs::{KeptCustom, kept_customs};
use crate::sections::{END, append_sections, begin, written};
use crate::stripped::Stripped;
use std::alloc::Global;
use wk_bytes::{OutOfMemory, RawSection, ReadFault, ReadKind, Text};
use wk_module::{
    Lists, OwnedLists, Profile, Scratch, SectionReader, one_module, reading_of_module, section_id,
    written_form_of_module,
};

// What the sections of a module but that of the codes were read as.
#[derive(Drop)]
pub(crate) enum Apart {
    // Where the codes stand that are still to be read, and the lists of the other sections, or their fault.
    WithCodes(Codes, Result<OwnedLists, ReadFault>),
    // There is no code section.
    WithoutCode(OwnedLists),
}

// Puts a module together: its codes, which stand behind a gap, what stands in front of them, and the sections behind them.
fn assemble(
    alloc: Global,
    gap: usize,
    codes: Vec<u8>,
    lists: &Lists<'_>,
    kept: &[KeptCustom],
) -> Result<Stripped, OutOfMemory>
    requires within { gap ≤ length codes.items }
    requires few { length lists.now.funcs.now < 2 ^ 32 }
    requires fits { length (short (length lists.now.funcs.now)) + (length codes.items - gap)
        ≤ limit }
    requires front { IsTooLong (listed lists.now) 0 10 → ⊥ }
    requires short { IsTooLong (listed lists.now) 10 12 → ⊥ }
    ensures { IfOk result
        (λ s. s
        ≡ (((magic ++ version) ++ sections_from (listed lists.now) kept.now 0 10)
        ++ code_front (length lists.now.funcs.now) (length codes.items - gap))
        ++ (drop gap codes.items ++ sections_from (listed lists.now) kept.now 10 2)) }
{
    let size = codes.len() - gap;
    let mut front = written(begin(alloc, lists, kept, section_id::CODE))?;
    append_code_front(lists.funcs.len() as u32, size as u32, &mut front)?;
    let mut bytes = codes;
    written(append_sections(lists, kept, section_id::CODE, END, &mut bytes))?;
    Stripped::behind(front, gap, bytes)
}

// Strips the module of these bytes, of which all sections but that of the codes are read.
fn strip_codes(
    alloc: Global,
    scratch: &mut Scratch,
    profile: Profile,
    bytes: Vec<u8>,
    codes: Codes,
    others: Result<&OwnedLists, ReadFault>,
    kept: &[KeptCustom],
) -> Result<Stripped, ReadFault>
    requires order { codes.first ≤ codes.end }
    requires within { codes.end ≤ length bytes.items }
    requires few { codes.end ≤ limit }
    requires apart { IsApart profile bytes.items (codes_in profile bytes.items codes)
        (result_map_both (λ l. l.now) (λ e. e) others) }
    requires fits { FitsWith profile bytes.items kept.now }
    ensures { MatchResult result
        (IsWrittenWith profile bytes.items kept.now)
        (λ e. FailsAs e e.kind (module_at profile bytes.items)) }
{
    let mut rewritten = bytes;
    let end = rewrite_codes(alloc, scratch, profile, &mut rewritten, codes)?;
    let others = others?;
    rewritten.truncate(end);
    Ok(assemble(alloc, codes.first, rewritten, &others.lists(), kept)?)
}

// Does so where the other sections spell lists, which it frees.
fn strip_with_code(
    alloc: Global,
    scratch: &mut Scratch,
    profile: Profile,
    bytes: Vec<u8>,
    codes: Codes,
    others: OwnedLists,
    kept: &[KeptCustom],
) -> Result<Stripped, ReadFault>
    requires read { HasCodes profile bytes.items codes (Ok others) }
    requires fits { FitsWith profile bytes.items kept.now }
    ensures { MatchResult result
        (IsWrittenWith profile bytes.items kept.now)
        (λ e. FailsAs e e.kind (module_at profile bytes.items)) }
{
    strip_codes(alloc, scratch, profile, bytes, codes, Ok(&others), kept)
}

// Strips the module of these bytes, which are read and hold no code section.
fn strip_lists(
    alloc: Global,
    profile: Profile,
    bytes: &[u8],
    all: &OwnedLists,
    kept: &[KeptCustom],
) -> Result<Stripped, ReadFault>
    requires none { all.now.lists.codes ≡ [] }
    requires read { lists_read profile no_lists (sections_of bytes.now) ≡ Ok all.now.lists }
    requires fits { FitsWith profile bytes.now kept.now }
    ensures { MatchResult result
        (IsWrittenWith profile bytes.now kept.now)
        (λ e. FailsAs e e.kind (module_at profile bytes.now)) }
{
    let lists = all.lists();
    // The proof asks for what this says of modules.
    reading_of_module(bytes, profile);
    if !lists.funcs.is_empty() {
        return Err(ReadFault {
            kind: ReadKind::FuncCodeCount,
            at: bytes.len() as u32,
        });
    }
    let bytes = written(begin(alloc, &lists, kept, END))?;
    Ok(Stripped::whole(bytes))
}

// Does so by lists that it frees.
fn strip_without_code(
    alloc: Global,
    profile: Profile,
    bytes: &[u8],
    all: OwnedLists,
    kept: &[KeptCustom],
) -> Result<Stripped, ReadFault>
    requires read { HasNoCodes profile bytes.now all }
    requires fits { FitsWith profile bytes.now kept.now }
    ensures { MatchResult result
        (IsWrittenWith profile bytes.now kept.now)
        (λ e. FailsAs e e.kind (module_at profile bytes.now)) }
{
    strip_lists(alloc, profile, bytes, &all, kept)
}

// The lists that were read, or the fault.
fn lists_alone(read: Result<SectionReader<'_>, ReadFault>) -> Result<OwnedLists, ReadFault>
    ensures { MatchResult read.entry
        (λ r. result ≡ Ok (record { profile = r.profile; lists = r.lists }))
        (λ e. result ≡ Err e) }
{
    match read {
        Ok(reader) => Ok(reader.into_lists()),
        Err(fault) => Err(fault),
    }
}

// Reads the number of codes of a section, and the sections behind it. What stands in front of it is read.
fn read_beside_codes(
    alloc: Global,
    scratch: &mut Scratch,
    profile: Profile,
    bytes: &[u8],
    section: &RawSection<'_>,
    front: SectionReader<'_>,
) -> Result<Apart, ReadFault>
    requires { IsFront profile bytes.now front (raw_view section.now) }
    ensures { MatchResult result
        (IsReadApart profile bytes.now)
        (λ e. FailsAs e e.kind (module_at profile bytes.now)) }
{
    // The proof asks for what this says of modules.
    reading_of_module(bytes, profile);
    let codes = Codes::of(section, front.lists().funcs.len())?;
    // Their fault comes behind those of the codes, but they are read before any code is written over.
    Ok(Apart::WithCodes(codes, lists_alone(front.to_end(alloc, scratch))))
}

// Reads all sections of a module but that of the codes.
fn read_apart(
    alloc: Global,
    scratch: &mut Scratch,
    profile: Profile,
    bytes: &[u8],
) -> Result<Apart, ReadFault>
    ensures { MatchResult result
        (IsReadApart profile bytes.now)
        (λ e. FailsAs e e.kind (module_at profile bytes.now)) }
{
    // The proof asks for what this says of modules.
    reading_of_module(bytes, profile);
    let (reader, section) = SectionReader::new(alloc, bytes, profile).up_to_code(alloc, scratch)?;
    match section {
        Some(section) => read_beside_codes(alloc, scratch, profile, bytes, &section, reader),
        None => Ok(Apart::WithoutCode(reader.into_lists())),
    }
}

// The written form of the module of these bytes with these custom sections in the place of its own, by a scratch room that is lent.
fn strip_by_scratch(
    alloc: Global,
    scratch: &mut Scratch,
    profile: Profile,
    bytes: Vec<u8>,
    kept: &[KeptCustom],
) -> Result<Stripped, ReadFault>
    requires { FitsWith profile bytes.items kept.now }
    ensures { MatchResult result
        (IsWrittenWith profile bytes.items kept.now)
        (λ e. FailsAs e e.kind (module_at profile bytes.items)) }
{
    match read_apart(alloc, scratch, profile, &bytes)? {
        Apart::WithCodes(codes, Ok(others)) => {
            strip_with_code(alloc, scratch, profile, bytes, codes, others, kept)
        }
        Apart::WithCodes(codes, Err(fault)) => {
            strip_codes(alloc, scratch, profile, bytes, codes, Err(fault), kept)
        }
        Apart::WithoutCode(all) => strip_without_code(alloc, profile, &bytes, all, kept),
    }
}

// The same by a scratch room of its own.
fn strip_with(
    alloc: Global,
    bytes: Vec<u8>,
    profile: Profile,
    kept: &[KeptCustom],
) -> Result<Stripped, ReadFault>
    requires { FitsWith profile bytes.items kept.now }
    ensures { MatchResult result
        (IsWrittenWith profile bytes.items kept.now)
        (λ e. FailsAs e e.kind (module_at profile bytes.items)) }
{
    let mut scratch = Scratch::new(alloc);
    strip_by_scratch(alloc, &mut scratch, profile, bytes, kept)
}

/// Strips the module of a profile that bytes spell of its custom sections (5.5.3), or of all but those of a name.
///
/// What comes is the written form of that module, as [`encode`](wk_module::encode) gives it. The bytes are the room that it is written
/// in: each code is written over those that were read before it, and no body is kept. The memory taken is rooms for the longest code
/// and for the sections in front of the codes, the lists of the module without its bodies and custom sections, and the custom
/// sections to keep; and a second room for what is written where the sections in front of the codes are longer than they were.
///
/// # Errors
///
/// Where the bytes spell no module of the profile, the first fault from left to right, at its offset; where a growth is refused,
/// `Memory` at 0.
pub fn strip_bytes(
    alloc: Global,
    bytes: Vec<u8>,
    profile: Profile,
    keep: Option<&Text>,
) -> Result<Stripped, ReadFault>
    ensures exact { MatchResult result
        (λ s. (m : Parts) × (module_at profile bytes.items ≡ Ok m)
        × (s ≡ encoded (settle (with_kept (option_map (λ name. name.now) keep.entry) m))))
        (λ e. FailsAs e e.kind (module_at profile bytes.items)) }
    ensures meaning { IfOk result
        (λ s. IsStripped profile (option_map (λ name. name.now) keep.entry) bytes.items s) }
    ensures refused { IfErr result
        (λ e. e.kind ≢ ReadKind.Memory → SpellsNone profile bytes.items) }
    ensures fault { IfErr result (λ e. StandsIn bytes.items e) }
{
    let input: &[u8] = &bytes;
    // The proof asks for what these say of modules.
    reading_of_module(input, profile);
    written_form_of_module();
    one_module();
    let kept = kept_customs(alloc, input, keep)?;
    strip_with(alloc, bytes, profile, &kept)
}
