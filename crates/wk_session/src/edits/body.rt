//! Another body for a function.

ghost use Rattle.std.specs.Prelude.{◌≡◌, ◌<◌, IfOk, OnOk, length, map, slice_get, slice_set, option_map, set, List, Some, ℕ, ◌≤◌};
ghost use Rattle.wk_bytes.specs.Frames.{limit};
ghost use Rattle.wk_body.specs.Lengths.{limited};
ghost use Rattle.wk_body.specs.Bodies.{BodyOf};
ghost use Rattle.wk_body.specs.Spelling.{SpellsBody};
ghost use Rattle.wk_module.specs.declared.types.Func.{Func as FuncOf};
ghost use Rattle.wk_module.specs.declared.types.Parts.{Parts as PartsOf};
ghost use Rattle.wk_module.specs.Changes.{with_body};
ghost use Rattle.wk_module.specs.Items.{IsCode};
ghost use Rattle.wk_module.specs.Shape.{IsShaped};
ghost use Rattle.wk_module.specs.Writing.{encoded};
ghost use Rattle.wk_check.specs.SpacesLaws.{answers_of};
ghost use Rattle.wk_typing.specs.Typing.{body_verdict};
ghost use Rattle.wk_check.specs.Verdict.{func_verdict};
ghost use Rattle.wk_pieces.specs.Pieces.{entries_size};
ghost use Rattle.wk_session.specs.declared.edit.Edit.{Edit};
ghost use Rattle.wk_session.specs.Edits.{entry_of as entry_of_index};
ghost use Rattle.wk_session.specs.Functions.{AreVerdicts, IsEntryJudged, IsEntryPlanned};
ghost use Rattle.wk_session.specs.Kept.{IsKept, Leads};

use crate::basis::Basis;
use crate::cache::{Cache, func_uses};
use crate::edit::{EditFault, Reply, Work};
use crate::edits::code_entry::{Entry, Verdicts, keep_entry, spelled_body, with_other};
use crate::judged::type_body;
use crate::verdict_and_len::{Appraisal, admit, appraise};
use std::alloc::Global;
use std::mem;
use wk_bytes::{Items, OutOfMemory};
use wk_check::{BodyVerdict, Meter, Verdict, Whole, verdict_with_body};
use wk_module::{Body, Func, Kind, Lists, Parts, import_count};
use wk_pieces::{EncodedSections, encoded_body, module_len, plus_code, sizes_of};

// Which of the functions that the module defines has an index.
fn entry_of(parts: &Parts, func: u32) -> Option<usize>
    ensures { result ≡ entry_of_index func parts.now }
{
    let imported = import_count(parts.imports.as_slice(), Kind::Func);
    let index = func as usize;
    if index < imported || index - imported >= parts.funcs.len() {
        return None;
    }
    Some(index - imported)
}

// The type of a code entry.
fn type_at(funcs: &Items<Func>, entry: usize) -> u32
    requires { entry < length funcs.now }
    ensures { Some result ≡ option_map (λ f. f.ty) (slice_get funcs.now entry) }
{
    funcs.as_slice()[entry].ty
}

// The verdict of a body that comes in the place of another.
fn own_verdict(
    alloc: Global,
    basis: Basis<'_>,
    entry: usize,
    ty: u32,
    body: &Body,
    meter: &mut Meter,
) -> Result<BodyVerdict, OutOfMemory>
    requires kept { IsKept basis.parts.now basis.kept.now }
    requires fresh { meter.old ≡ 0 }
    ensures own { let n = with_body entry body.now basis.entry.parts.now in IfOk result
        (λ v. v ≡ body_verdict (answers_of n) ty body.now) }
    ensures typed { OnOk result (meter.new ≡ 1) }
{
    let whole = Whole::of(alloc, Lists::of(basis.parts, &basis.kept.types))?;
    type_body(&whole, ty, body, meter)
}

// The verdicts of bodies where one is replaced, and what is kept of the module as a whole, which is so long; or why it may not stay. In a
// valid module no other is looked at.
fn judged_body(
    alloc: Global,
    basis: Basis<'_>,
    entry: usize,
    ty: u32,
    body: &Body,
    len: Option<u32>,
    meter: &mut Meter,
) -> Result<(Verdicts, Appraisal), EditFault>
    requires shaped { IsShaped basis.parts.now }
    requires kept { IsKept basis.parts.now basis.kept.now }
    requires within { entry < length basis.parts.now.funcs }
    requires ty { Some ty ≡ option_map (λ f. f.ty) (slice_get basis.parts.now.funcs entry) }
    requires valid { IsCode basis.parts.now.profile body.now }
    requires len { len ≡ limited (length (encoded (with_body entry body.now basis.parts.now))) }
    requires fresh { meter.old ≡ 0 }
    ensures judged { let m = basis.entry.parts.now in
        IsEntryJudged basis.entry.keep ty body.now (with_body entry body.now m) m.funcs
        basis.entry.kept.now.verdicts.items result }
    ensures typed { OnOk result (meter.new ≡ 1) }
{
    let Basis { keep, parts, kept } = basis;
    let own = own_verdict(alloc, basis, entry, ty, body, meter)?;
    if let Verdict::Valid = kept.verdict {
        let verdict = verdict_with_body(entry as u32, own);
        let appraisal = admit(keep, verdict, len)?;
        return Ok((Verdicts::Own(own), appraisal));
    }
    let verdicts = with_other(alloc, &kept.verdicts, entry, own)?;
    let lists = Lists::of(parts, &kept.types);
    let appraisal = appraise(alloc, keep, None, &lists, &verdicts, len)?;
    Ok((Verdicts::All(verdicts), appraisal))
}

// How many bytes all codes have with this one in the place of that of an entry, sizes with them; or nothing past 2,147,483,647.
fn codes_len_with(pieces: &EncodedSections, entry: usize, code: &Items<u8>) -> Option<u32>
    requires within { entry < length pieces.now.codes.items }
    requires len { pieces.now.codes_len ≡ entries_size pieces.now.codes.items }
    requires fits { pieces.now.codes_len ≤ limit }
    ensures { result ≡ limited (entries_size (set pieces.now.codes.items entry code.now)) }
{
    let Some(before) = plus_code(Some(0), &pieces.codes[entry]) else {
        unreachable!()
    };
    plus_code(Some(pieces.codes_len - before), code)
}

// What is to be kept of the module with another body; or why it may not be.
fn planned_body(
    alloc: Global,
    basis: Basis<'_>,
    entry: usize,
    ty: u32,
    body: &Body,
    spelled: &Items<u8>,
    meter: &mut Meter,
) -> Result<Entry, EditFault>
    requires shaped { IsShaped basis.parts.now }
    requires spelled { SpellsBody basis.parts.now.profile body.now spelled.now }
    requires kept { IsKept basis.parts.now basis.kept.now }
    requires within { entry < length basis.parts.now.funcs }
    requires ty { Some ty ≡ option_map (λ f. f.ty) (slice_get basis.parts.now.funcs entry) }
    requires valid { IsCode basis.parts.now.profile body.now }
    requires fresh { meter.old ≡ 0 }
    ensures planned { let m = basis.entry.parts.now in
        IsEntryPlanned basis.entry.keep ty body.now (with_body entry body.now m) m.funcs
        basis.entry.kept.now.verdicts.items 0 result }
    ensures typed { OnOk result (meter.new ≡ 1) }
{
    let Basis { parts, kept, .. } = basis;
    let mut encoded = 0;
    let code = encoded_body(alloc, body, Some(spelled.as_slice()), &mut encoded)?;
    let pieces = &kept.pieces;
    let Some(codes_len) = codes_len_with(pieces, entry, &code) else {
        return Err(EditFault::TooLarge);
    };
    let sizes = sizes_of(&pieces.sections);
    let len = module_len(sizes, parts.funcs.len(), codes_len, pieces.customs_len);
    let uses = func_uses(alloc, ty, body)?;
    let (verdicts, appraisal) = judged_body(alloc, basis, entry, ty, body, len, meter)?;
    Ok(Entry {
        uses,
        verdicts,
        code,
        codes_len,
        encoded,
        sections: 0,
        appraisal,
    })
}

// Puts the verdicts that are others in their places.
fn put_verdicts(kept: &mut Vec<BodyVerdict>, entry: usize, verdicts: Verdicts)
    requires { entry < length kept.old.items }
    ensures { (t : ℕ) → (b : BodyOf) → (n : PartsOf) → (fs : List FuncOf)
        → n.funcs ≡ slice_set fs entry (record { ty = t; body = b })
        → AreVerdicts t b n fs kept.old.items verdicts
        → kept.new.items ≡ map (func_verdict (answers_of n)) n.funcs }
{
    match verdicts {
        Verdicts::Own(own) => kept[entry] = own,
        Verdicts::All(all) => *kept = all,
    }
}

// Replaces the body of a code entry.
fn put_at(
    alloc: Global,
    keep: bool,
    parts: &mut Parts,
    kept: &mut Cache,
    meter: &mut Meter,
    entry: usize,
    code: &Items<u8>,
) -> Reply
    requires shaped { IsShaped parts.old }
    requires kept { IsKept parts.old kept.old }
    requires within { entry < length parts.old.funcs }
    requires fresh { meter.old ≡ 0 }
    ensures { (func : ℕ) → entry_of_index func parts.old ≡ Some entry
        → Leads keep (Edit.Body func code.now) parts.old result parts.new kept.new }
{
    let body = spelled_body(alloc, parts.profile, code)?;
    let ty = type_at(&parts.funcs, entry);
    let basis = Basis { keep, parts, kept };
    let planned = planned_body(alloc, basis, entry, ty, &body, code, meter)?;
    let _before = parts.funcs.set(entry, Func { ty, body });
    keep_entry(kept, &planned);
    let Entry {
        uses,
        verdicts,
        code,
        encoded,
        sections,
        ..
    } = planned;
    put_verdicts(&mut kept.verdicts, entry, verdicts);
    let _unused = mem::replace(&mut kept.refs[entry], uses);
    kept.pieces.codes[entry] = code;
    Ok(Work {
        typed: meter.typed() as u32,
        encoded,
        sections,
    })
}

/// Replaces the body of a function that the module defines.
pub(crate) fn put_body(
    alloc: Global,
    keep: bool,
    parts: &mut Parts,
    kept: &mut Cache,
    meter: &mut Meter,
    func: u32,
    code: &Items<u8>,
) -> Reply
    requires shaped { IsShaped parts.old }
    requires kept { IsKept parts.old kept.old }
    requires fresh { meter.old ≡ 0 }
    ensures { Leads keep (Edit.Body func code.now) parts.old result parts.new kept.new }
{
    match entry_of(parts, func) {
        Some(entry) => put_at(alloc, keep, parts, kept, meter, entry, code),
        None => Err(EditFault::NoSuchFunction),
    }
}
