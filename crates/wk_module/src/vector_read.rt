//! Reading items one after the other (5.1.3).

ghost use Rattle.std.specs.Prelude.{◌≡◌, ◌≢◌, not, [], IfOk, IfErr, MatchResult};
ghost use Rattle.wk_bytes.specs.ListWords.{is_empty};
ghost use Rattle.wk_bytes.specs.Raw.{raw_view};
ghost use Rattle.wk_bytes.specs.Span.{fault, name_at};
ghost use Rattle.wk_body.specs.Reads.{Parses, Reads};
ghost use Rattle.wk_body.specs.Vectors.{vector_at};
ghost use Rattle.wk_module.specs.Formats.{coded_at, this_byte_at, all_at};
ghost use Rattle.wk_module.specs.Reading.{section_end};

use std::alloc::Global;
use wk_body::{Profile, Scratch};
use wk_bytes::{Cursor, Items, RawSection, ReadFault, ReadKind, Text};

/// A way in which items of vectors are spelled, as they are read.
pub(crate) trait Readable {
    /// What is read.
    type Item: Drop;

    ghost use Rattle.std.specs.Prelude.{ℕ, List, Result};
    ghost use Rattle.wk_bytes.specs.declared.fault.ReadFault.{ReadFault};
    ghost use Rattle.wk_body.specs.declared.types.Profile.{Profile as InProfile};

    // How one is read at the front of bytes that end at an offset.
    ghost read_at: { InProfile → ℕ → List ℕ → Result (Self.Item × List ℕ) ReadFault };

    /// Reads one. A refusal leaves the cursor anywhere.
    fn read(
        alloc: Global,
        scratch: &mut Scratch,
        profile: Profile,
        cursor: &mut Cursor<'_>,
    ) -> Result<Self::Item, ReadFault>
        ensures { Parses (λ x. x) (read_at profile) cursor.old result cursor.new };
}

/// For how many items room is made behind the first: short lists then ask for memory once.
pub(crate) const FIRST_ROOM: u32 = 64;

/// Reads a count and as many items. Room for a few is made once the first is read; else it grows with the items and not with the count,
/// which may be any number.
#[tactic(auto, using(crate::proofs::VectorReading::goes_on, crate::proofs::VectorReading::stops, crate::proofs::VectorReading::is_done), unfolding(wk_body::specs::Vectors::vector_at))]
pub(crate) fn read_vector<F: Readable>(
    alloc: Global,
    scratch: &mut Scratch,
    profile: Profile,
    cursor: &mut Cursor<'_>,
) -> Result<Items<F::Item>, ReadFault>
    ensures { Parses (λ x. x) (vector_at (F.read_at profile)) cursor.old result cursor.new }
{
    let count = cursor.u32()?;
    let mut items = Vec::new(alloc);
    for _ in 0..count {
        let item = F::read(alloc, scratch, profile, cursor)?;
        if items.is_empty() {
            items.reserve(count.min(FIRST_ROOM) as usize)?;
        }
        items.push(item)?;
    }
    Ok(Items::from_vec(items))
}

/// What was read took all of a section's contents.
pub(crate) fn at_end(cursor: &Cursor<'_>) -> Result<(), ReadFault>
    ensures { MatchResult result (λ _. cursor.now.rest ≡ [])
        (λ e. (e ≡ fault ReadKind.SectionSize cursor.now.end cursor.now.rest)
        × (cursor.now.rest ≢ [])) }
{
    if !cursor.rest().is_empty() {
        return Err(cursor.fault(ReadKind::SectionSize));
    }
    Ok(())
}

/// Reads a vector that fills the contents of a section, in the place of a list, and tells whether it has an item.
pub(crate) fn read_list<F: Readable>(
    list: &mut Items<F::Item>,
    alloc: Global,
    scratch: &mut Scratch,
    profile: Profile,
    section: &RawSection<'_>,
) -> Result<bool, ReadFault>
    ensures read { Reads (λ _. list.new) result
        (all_at (vector_at (F.read_at profile)) (section_end (raw_view section.now))
        section.now.contents.now) }
    ensures full { IfOk result (λ full. full ≡ not (is_empty list.new)) }
{
    let mut cursor = section.cursor();
    *list = read_vector::<F>(alloc, scratch, profile, &mut cursor)?;
    at_end(&cursor)?;
    Ok(!list.is_empty())
}

/// Reads a byte that has to be there.
#[tactic(auto, using(crate::proofs::InPlace::stands_sure), unfolding(crate::specs::Formats::this_byte_at))]
pub(crate) fn read_this(wanted: u8, cursor: &mut Cursor<'_>) -> Result<u8, ReadFault>
    ensures exact { Parses (λ x. x) (this_byte_at wanted) cursor.old result cursor.new }
    ensures sure { IfErr result (λ e. e.kind ≢ ReadKind.Memory) }
{
    let at = cursor.at();
    let byte = cursor.byte()?;
    if byte != wanted {
        return Err(ReadFault {
            kind: ReadKind::BadByte,
            at,
        });
    }
    Ok(byte)
}

/// Reads a name (5.2.4).
pub(crate) fn read_name(alloc: Global, cursor: &mut Cursor<'_>) -> Result<Text, ReadFault>
    ensures { Parses (λ x. x) name_at cursor.old result cursor.new }
{
    let name = cursor.name()?;
    Ok(Text::from_string(String::from_str(alloc, name)?))
}
