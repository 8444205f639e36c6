//! The written form of a module in pieces, so that an edit makes anew only those that it changes.

ghost use Rattle.std.specs.Prelude.{◌≡◌, ◌+◌, ◌<◌, ◌≤◌, ◌^◌, ℕ, length, map, IfOk, IfSome, OnOk, MatchResult};
ghost use Rattle.wk_bytes.specs.Frames.{limit};
ghost use Rattle.wk_body.specs.declared.types.Profile.{Profile};
ghost use Rattle.wk_body.specs.Spelling.{SpellsBody};
ghost use Rattle.wk_body.specs.Written.{written_body};
ghost use Rattle.wk_module.specs.Listed.{IsListId, listed};
ghost use Rattle.wk_module.specs.Sections.{of_number};
ghost use Rattle.wk_module.specs.Shape.{IsInOrderFrom};
ghost use Rattle.wk_module.specs.Writing.{Fits, contents_by};
ghost use Rattle.wk_pieces.specs.Pieces.{ArePieces, IsOneRemade, IsOverlong, IsUnwritten, code_of, contents_of, no_news};

use crate::lengths::{codes_len, customs_len};
use std::alloc::{AllocError, Global};
use wk_bytes::{Items, OutOfMemory};
use wk_module::{
    Body, EncodeFault, Lists, Parts, append_body, code_bytes, encode_body, encode_section,
    section_id,
};

/// The written form of a module in pieces (`ArePieces` of `specs/Pieces`). Custom sections are not kept a second time: the module holds
/// their bytes.
#[derive(Debug, Drop)]
pub struct EncodedSections {
    /// The contents of each section by its id, 0 to 11; none of custom sections and of the code section.
    pub sections: Vec<Items<u8>>,
    /// The code of each function, without its size.
    pub codes: Vec<Items<u8>>,
    /// How many bytes all codes have, with their sizes.
    pub codes_len: u32,
    /// How many bytes all custom sections have, with their ids and sizes.
    pub customs_len: u32,
}

/// The sections that an edit makes anew.
#[derive(Debug, Drop)]
pub struct NewSections {
    /// The new contents by the ids of sections, 0 to 11; nothing in the place of those that stay.
    pub sections: Vec<Option<Items<u8>>>,
    /// How many were made.
    pub made: u32,
}

/// Makes the contents of the section of an id, and counts it. No other function of this crate, and none of `wk_session`, encodes sections.
pub fn remake_section(
    alloc: Global,
    lists: &Lists<'_>,
    id: u8,
    made: &mut u32,
) -> Result<Items<u8>, EncodeFault>
    requires id { IsListId id }
    requires few { made.old < 12 }
    ensures contents { MatchResult result
        (λ c. c ≡ contents_by (listed lists.now) (of_number id))
        (IsOverlong (contents_by (listed lists.now) (of_number id))) }
    ensures few { IfOk result (λ c. length c ≤ limit) }
    ensures made { made.new ≡ made.old + 1 }
{
    *made += 1;
    let contents = encode_section(alloc, lists, id)?;
    Ok(Items::from_vec(contents))
}

/// Makes the code of a body, without its size, and counts it: a copy of the bytes that spell it, where they are its written form. No
/// other function of this crate but [`code_in_room`], and none of `wk_session` but `shifted_code`, encodes bodies.
pub fn encoded_body(
    alloc: Global,
    body: &Body,
    spelled: Option<&[u8]>,
    made: &mut u32,
) -> Result<Items<u8>, EncodeFault>
    requires spelled { IfSome spelled
        (λ s. (profile : Profile) × SpellsBody profile body.now s.now) }
    requires few { made.old + 1 < 2 ^ 32 }
    ensures code { MatchResult result (λ c. c ≡ written_body body.now)
        (IsOverlong (written_body body.now)) }
    ensures made { made.new ≡ made.old + 1 }
{
    *made += 1;
    let code = match spelled {
        Some(spelled) => code_bytes(alloc, body, spelled)?,
        None => encode_body(alloc, body)?,
    };
    Ok(Items::from_vec(code))
}

/// Makes the code of a body, without its size, and counts it. It is written in a room that serves one body after the other, so that it
/// is not measured first, and copied from there, so that it has no spare capacity.
pub fn code_in_room(
    alloc: Global,
    room: &mut Vec<u8>,
    body: &Body,
    made: &mut u32,
) -> Result<Items<u8>, OutOfMemory>
    requires { made.old + 1 < 2 ^ 32 }
    ensures code { IfOk result (λ c. c ≡ written_body body.now) }
    ensures made { made.new ≡ made.old + 1 }
{
    *made += 1;
    room.clear();
    append_body(room, body)?;
    let code = Vec::from_slice(alloc, room.as_slice())?;
    Ok(Items::from_vec(code))
}

/// Nothing in the place of any section.
pub fn no_news(alloc: Global) -> Result<Vec<Option<Items<u8>>>, OutOfMemory>
    ensures { IfOk result (λ v. v.items ≡ no_news) }
{
    let mut news = Vec::with_capacity(alloc, section_id::COUNT)?;
    for _ in 0..section_id::COUNT {
        news.push(None)?;
    }
    Ok(news)
}

/// Makes the contents of one section anew, and of no other.
pub fn one_remade(alloc: Global, lists: &Lists<'_>, id: u8) -> Result<NewSections, EncodeFault>
    requires { IsListId id }
    ensures { MatchResult result
        (IsOneRemade id (contents_by (listed lists.now) (of_number id)))
        (IsOverlong (contents_by (listed lists.now) (of_number id))) }
{
    let mut made = 0;
    let mut sections = no_news(alloc)?;
    let contents = remake_section(alloc, lists, id, &mut made)?;
    sections[id as usize] = Some(contents);
    Ok(NewSections { sections, made })
}

// The contents of the section of an id, none for ids of no list.
fn contents_at(
    alloc: Global,
    lists: &Lists<'_>,
    id: u8,
    made: &mut u32,
) -> Result<Items<u8>, EncodeFault>
    requires id { id < 12 }
    requires few { made.old < 12 }
    ensures contents { MatchResult result
        (λ c. c ≡ contents_by (listed lists.now) (of_number id))
        (IsOverlong (contents_by (listed lists.now) (of_number id))) }
    ensures made { made.new ≤ made.old + 1 }
{
    if id == section_id::CUSTOM || id == section_id::CODE {
        return Ok(Items::new(alloc));
    }
    remake_section(alloc, lists, id, made)
}

/// Makes the contents of all sections, by their ids.
pub(crate) fn all_remade(alloc: Global, lists: &Lists<'_>) -> Result<Vec<Items<u8>>, EncodeFault>
    ensures { MatchResult result (λ v. v.items ≡ contents_of (listed lists.now))
        (IsUnwritten (listed lists.now)) }
{
    let mut made = 0;
    let mut sections = Vec::with_capacity(alloc, section_id::COUNT)?;
    for id in 0..=section_id::LAST {
        let contents = contents_at(alloc, lists, id, &mut made)?;
        sections.push(contents).map_err(|_| AllocError)?;
    }
    Ok(sections)
}

// The contents of all sections of a module that is not too large.
fn sections_of(alloc: Global, lists: &Lists<'_>) -> Result<Vec<Items<u8>>, OutOfMemory>
    requires { (id : ℕ) → length (contents_by (listed lists.now) (of_number id)) ≤ limit }
    ensures { IfOk result (λ v. v.items ≡ contents_of (listed lists.now)) }
{
    match all_remade(alloc, lists) {
        Ok(sections) => Ok(sections),
        Err(EncodeFault::Memory) => Err(OutOfMemory),
        Err(EncodeFault::TooLarge) => unreachable!(),
    }
}

impl EncodedSections {
    /// The pieces of a module that is not too large and whose functions have these types and these codes.
    pub fn of(
        alloc: Global,
        parts: &Parts,
        types: &[u32],
        codes: Vec<Items<u8>>,
    ) -> Result<EncodedSections, OutOfMemory>
        requires types { types.now ≡ map (λ f. f.ty) parts.now.funcs }
        requires codes { codes.items ≡ map code_of parts.now.funcs }
        requires order { IsInOrderFrom 0 parts.now.customs }
        requires fits { Fits parts.now }
        ensures { IfOk result (ArePieces parts.now) }
    {
        let sections = sections_of(alloc, &Lists::of(parts, types))?;
        let (Some(codes_len), Some(customs_len)) = (codes_len(&codes), customs_len(&parts.customs))
        else {
            unreachable!()
        };
        Ok(EncodedSections {
            sections,
            codes,
            codes_len,
            customs_len,
        })
    }
}
