//! What edits share that add to a module something that references may find.

ghost use Rattle.std.specs.Prelude.{◌≡◌, ◌+◌, ◌<◌, ◌≤◌, ◌^◌, ℕ, Bool, List, count_by, drop, length, map, unwrap_or, IfOk, IfSome, MatchResult, OnOk};
ghost use Rattle.wk_bytes.specs.Frames.{limit};
ghost use Rattle.wk_body.specs.Lengths.{limited};
ghost use Rattle.wk_body.specs.declared.references.Ref.{Ref as RefOf};
ghost use Rattle.wk_module.specs.declared.types.Parts.{Parts as PartsOf};
ghost use Rattle.wk_module.specs.Listed.{IsListId, listed};
ghost use Rattle.wk_module.specs.Sections.{of_number};
ghost use Rattle.wk_module.specs.Shape.{IsFormed, IsInOrderFrom, IsShaped};
ghost use Rattle.wk_module.specs.Writing.{contents_by, encoded};
ghost use Rattle.wk_typing.specs.Answers.{Found};
ghost use Rattle.wk_typing.specs.Finds.{Grows};
ghost use Rattle.wk_check.specs.Spaces.{answer_in, spaces_of};
ghost use Rattle.wk_check.specs.SpacesLaws.{answers_of};
ghost use Rattle.wk_check.specs.Verdict.{func_verdict};
ghost use Rattle.wk_pieces.specs.Longer.{IsLonger};
ghost use Rattle.wk_pieces.specs.Pieces.{IsOverlong, codes_size, customs_size};
ghost use Rattle.wk_session.specs.Dependents.{is_retyped_in};
ghost use Rattle.wk_session.specs.Kept.{IsKept};
ghost use Rattle.wk_session.specs.Added.{IsNewItem};
ghost use Rattle.wk_session.specs.Judged.{AreKept, IsGrown, IsJudged, IsKnown};

use crate::basis::Basis;
use crate::cache::Cache;
use crate::edit::EditFault;
use crate::judged::rejudge_bodies;
use crate::verdict_and_len::{Appraisal, admit, appraise};
use std::alloc::Global;
use wk_bytes::{Items, OutOfMemory};
use wk_check::{BodyVerdict, Meter, Verdict, Whole};
use wk_module::{EncodeFault, Lists, Parts};
use wk_pieces::{EncodedSections, append_item, grown_len, module_len, remake_section, sizes_with};

/// What is to be kept of a module that an edit would make.
#[derive(Drop)]
pub(crate) struct Judgement {
    /// The verdicts of its bodies, or nothing where they stay.
    pub(crate) verdicts: Option<Vec<BodyVerdict>>,
    /// Its verdict and its length.
    pub(crate) appraisal: Appraisal,
}

/// An item that comes to a list, as it is written.
#[derive(Drop)]
pub(crate) struct NewItem {
    /// The id of the section of the list.
    pub(crate) id: u8,
    /// How many items the list has without it.
    pub(crate) count: u32,
    /// The contents of a list of this item alone.
    pub(crate) alone: Items<u8>,
    /// How many sections change with it: its own.
    pub(crate) made: u32,
}

// The verdicts of the bodies of a module in which each reference finds what it found before, if that was there.
fn verdicts_grown(
    alloc: Global,
    basis: Basis<'_>,
    before: Lists<'_>,
    meter: &mut Meter,
) -> Result<Vec<BodyVerdict>, OutOfMemory>
    requires formed { IsFormed basis.parts.now }
    requires grows { Grows (answer_in (spaces_of (listed before))) (answers_of basis.parts.now) }
    requires kept { AreKept (answer_in (spaces_of (listed before))) basis.parts.now basis.kept.now }
    requires fresh { meter.old ≡ 0 }
    ensures verdicts { let n = basis.entry.parts.now in IfOk result
        (λ v. v.items ≡ map (func_verdict (answers_of n)) n.funcs) }
    ensures typed { let n = basis.entry.parts.now in OnOk result (meter.new ≡ count_by
        (is_retyped_in (answer_in (spaces_of (listed before.entry))) (answers_of n)) n.funcs) }
{
    let old = Whole::of(alloc, before)?;
    let new = Whole::of(alloc, Lists::of(basis.parts, &basis.kept.types))?;
    rejudge_bodies(alloc, &old, &new, basis, meter)
}

/// Judges a module in which each reference finds what it found before, if that was there, and which is so long. What is kept is of the
/// module before but for what came to it. Where the verdict is known no body is looked at.
pub(super) fn judge_grown(
    alloc: Global,
    basis: Basis<'_>,
    before: Lists<'_>,
    len: Option<u32>,
    known: Option<Verdict>,
    meter: &mut Meter,
) -> Result<Judgement, EditFault>
    requires formed { IsFormed basis.parts.now }
    requires grows { Grows (answer_in (spaces_of (listed before))) (answers_of basis.parts.now) }
    requires kept { AreKept (answer_in (spaces_of (listed before))) basis.parts.now basis.kept.now }
    requires len { len ≡ limited (length (encoded basis.parts.now)) }
    requires known { IfSome known
        (IsKnown (answer_in (spaces_of (listed before))) basis.parts.now) }
    requires fresh { meter.old ≡ 0 }
    ensures { IsJudged basis.entry.keep (answer_in (spaces_of (listed before.entry)))
        basis.entry.parts.now basis.entry.kept.now meter.new result }
{
    if let Some(verdict) = known {
        let appraisal = admit(basis.keep, verdict, len)?;
        return Ok(Judgement {
            verdicts: None,
            appraisal,
        });
    }
    let verdicts = verdicts_grown(alloc, basis, before, meter)?;
    let lists = Lists::of(basis.parts, &basis.kept.types);
    let appraisal = appraise(alloc, basis.keep, None, &lists, &verdicts, len)?;
    Ok(Judgement {
        verdicts: Some(verdicts),
        appraisal,
    })
}

/// The item of lists of which that of an id has no other, as it comes to a list of so many.
pub(crate) fn new_item(
    alloc: Global,
    lists: &Lists<'_>,
    id: u8,
    count: u32,
) -> Result<NewItem, EncodeFault>
    requires id { IsListId id }
    requires count { count + 1 < 2 ^ 32 }
    ensures { MatchResult result
        (IsNewItem id count (contents_by (listed lists.now) (of_number id)))
        (IsOverlong (contents_by (listed lists.now) (of_number id))) }
{
    let mut made = 0;
    let alone = remake_section(alloc, lists, id, &mut made)?;
    Ok(NewItem {
        id,
        count,
        alone,
        made,
    })
}

/// The item, without the count of one in front of it.
pub(crate) fn bytes_of(item: &NewItem) -> &[u8]
    ensures { result.now ≡ drop 1 item.now.alone }
{
    item.alone.as_slice().get(1..).unwrap_or(&[])
}

/// How many bytes the item has.
pub(crate) fn item_len(item: &NewItem) -> u32
    requires { length item.now.alone ≤ limit }
    ensures { result ≡ length (drop 1 item.now.alone) }
{
    bytes_of(item).len() as u32
}

/// The length of a module with an item more in the list of an id, which has so many: by how long the item is, how many functions the
/// module defines, and how many bytes its codes have with their sizes; or nothing past 2,147,483,647, as of an item that is so long. It
/// takes no memory.
pub(crate) fn len_grown(
    pieces: &EncodedSections,
    id: u8,
    count: u32,
    item: Option<u32>,
    funcs: usize,
    codes: u32,
) -> Option<u32>
    requires sections { length pieces.now.sections.items ≡ 12 }
    requires id { id < 12 }
    requires count { count + 1 < 2 ^ 32 }
    requires funcs { funcs < 2 ^ 32 }
    ensures { (n : PartsOf) → (alone : List ℕ) → IsInOrderFrom 0 n.customs
        → IsLonger id count alone pieces.now.sections.items n
        → item ≡ limited (length (drop 1 alone)) → funcs ≡ length n.funcs
        → codes ≡ codes_size n.funcs → pieces.now.customs_len ≡ customs_size n.customs
        → result ≡ limited (length (encoded n)) }
{
    let item = item?;
    let sections = &pieces.sections;
    let size = grown_len(sections[id as usize].as_slice(), count, item);
    let sizes = sizes_with(sections, id as usize, size);
    module_len(sizes, funcs, codes, pieces.customs_len)
}

/// The same where no function comes, by what is kept of the module without the item.
pub(crate) fn len_beside(
    parts: &Parts,
    kept: &Cache,
    id: u8,
    count: usize,
    item: Option<u32>,
) -> Option<u32>
    requires shaped { IsShaped parts.now }
    requires kept { IsKept parts.now kept.now }
    requires id { id < 12 }
    requires count { count + 1 < 2 ^ 32 }
    ensures { (n : PartsOf) → (alone : List ℕ) → n.funcs ≡ (parts.now).funcs
        → n.customs ≡ (parts.now).customs
        → IsLonger id count alone kept.now.pieces.sections.items n
        → item ≡ limited (length (drop 1 alone)) → result ≡ limited (length (encoded n)) }
{
    let pieces = &kept.pieces;
    let funcs = parts.funcs.len();
    len_grown(pieces, id, count as u32, item, funcs, pieces.codes_len)
}

/// Keeps what is to be kept of a module that an edit makes, but for its sections.
pub(crate) fn keep_judgement(kept: &mut Cache, judgement: Judgement)
    ensures { kept.new ≡ record kept.old {
      verdict = judgement.appraisal.verdict;
      len = judgement.appraisal.len;
      verdicts = unwrap_or judgement.verdicts kept.old.verdicts;
    } }
{
    let Judgement {
        verdicts,
        appraisal,
    } = judgement;
    kept.verdict = appraisal.verdict;
    kept.len = appraisal.len;
    if let Some(verdicts) = verdicts {
        kept.verdicts = verdicts;
    }
}

/// Keeps what is to be kept of a module with an item more where it may stay, and answers how many sections changed; or leaves
/// what is kept as it was.
pub(crate) fn keep_grown(
    alloc: Global,
    kept: &mut Cache,
    item: &NewItem,
    judged: Result<Judgement, EditFault>,
) -> Result<u32, EditFault>
    requires id { item.now.id < length kept.old.pieces.sections.items }
    requires count { item.now.count + 1 < 2 ^ 32 }
    ensures { (keep : Bool) → (before : RefOf → Found) → (n : PartsOf) → (typed : ℕ)
        → AreKept before n kept.old
        → IsLonger item.now.id item.now.count item.now.alone kept.old.pieces.sections.items n
        → IsJudged keep before n kept.old typed judged
        → IsGrown keep before n typed item.now.made kept.old kept.new result }
{
    let judgement = judged?;
    let section = &mut kept.pieces.sections[item.id as usize];
    append_item(alloc, section, item.count, bytes_of(item))?;
    keep_judgement(kept, judgement);
    Ok(item.made)
}
