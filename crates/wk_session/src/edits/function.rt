//! A function more.

ghost use Rattle.std.specs.Prelude.{◌≡◌, ◌+◌, ◌<◌, ◌^◌, ℕ, List, [], ◌∷◌, ◌++◌, if◌then◌else◌, IfOk, OnOk, OnErr, MatchResult, is_ok, true, length, map, vec_capacity, vec_len};
ghost use Rattle.wk_bytes.specs.Short.{short};
ghost use Rattle.wk_body.specs.Lengths.{limited};
ghost use Rattle.wk_body.specs.Bodies.{BodyOf};
ghost use Rattle.wk_body.specs.Spelling.{SpellsBody};
ghost use Rattle.wk_module.specs.declared.types.Func.{Func as FuncOf};
ghost use Rattle.wk_module.specs.declared.types.Parts.{Parts as PartsOf};
ghost use Rattle.wk_module.specs.Changes.{with_func};
ghost use Rattle.wk_module.specs.Items.{IsCode};
ghost use Rattle.wk_module.specs.Shape.{IsShaped};
ghost use Rattle.wk_module.specs.Writing.{encoded, list_contents};
ghost use Rattle.wk_check.specs.SpacesLaws.{answers_of};
ghost use Rattle.wk_check.specs.Verdict.{func_verdict};
ghost use Rattle.wk_pieces.specs.Pieces.{IsOverlong, section_pieces};
ghost use Rattle.wk_session.specs.declared.edit.Edit.{Edit};
ghost use Rattle.wk_session.specs.Functions.{AreVerdicts, IsEntryJudged, IsEntryPlanned, IsKeptWithType, is_own, typed_with};
ghost use Rattle.wk_session.specs.Kept.{IsKept, Leads};
ghost use Rattle.wk_session.specs.Added.{IsNewItem};

use crate::basis::Basis;
use crate::cache::{Cache, func_uses};
use crate::edit::{EditFault, Reply, Work};
use crate::edits::code_entry::{Entry, Verdicts, keep_entry, spelled_body};
use crate::edits::plan_append::{NewItem, bytes_of, item_len, len_grown, new_item};
use crate::judged::{rejudge_bodies, type_body};
use crate::verdict_and_len::{Appraisal, admit, appraise};
use std::alloc::Global;
use std::slice;
use wk_bytes::{Items, OutOfMemory};
use wk_check::{BodyVerdict, Meter, Verdict, Whole, laws_of_valid_modules, verdict_with_func};
use wk_module::{Body, EncodeFault, Func, Lists, Parts, section_id};
use wk_pieces::{append_item, encoded_body, plus_code};

// The verdicts of all bodies where a function comes whose type stands behind those of the others already.
fn verdicts_with(
    alloc: Global,
    basis: Basis<'_>,
    ty: u32,
    body: &Body,
    meter: &mut Meter,
) -> Result<Vec<BodyVerdict>, OutOfMemory>
    requires shaped { IsShaped basis.parts.now }
    requires kept { IsKeptWithType ty basis.parts.now basis.kept.now }
    requires fresh { meter.old ≡ 0 }
    ensures verdicts { let n = with_func ty body.now basis.entry.parts.now in IfOk result
        (λ v. v.items ≡ map (func_verdict (answers_of n)) n.funcs) }
    ensures typed { OnOk result (meter.new ≡ typed_with ty body.now basis.entry.parts.now) }
{
    let Basis { parts, kept, .. } = basis;
    let before = &kept.types[..parts.funcs.len()];
    let old = Whole::of(alloc, Lists::of(parts, before))?;
    let new = Whole::of(alloc, Lists::of(parts, &kept.types))?;
    let mut verdicts = rejudge_bodies(alloc, &old, &new, basis, meter)?;
    let own = type_body(&new, ty, body, meter)?;
    verdicts.push(own)?;
    Ok(verdicts)
}

// The same as `judged_func` where a function comes to a valid module: no body but its own is looked at.
fn judged_in_valid(
    alloc: Global,
    basis: Basis<'_>,
    ty: u32,
    body: &Body,
    len: Option<u32>,
    meter: &mut Meter,
) -> Result<(Verdicts, Appraisal), EditFault>
    requires shaped { IsShaped basis.parts.now }
    requires kept { IsKeptWithType ty basis.parts.now basis.kept.now }
    requires was_valid { basis.kept.now.verdict ≡ Verdict.Valid }
    requires valid { IsCode basis.parts.now.profile body.now }
    requires len { len ≡ limited (length (encoded (with_func ty body.now basis.parts.now))) }
    requires fresh { meter.old ≡ 0 }
    ensures judged { let m = basis.entry.parts.now in
        IsEntryJudged basis.entry.keep ty body.now (with_func ty body.now m) m.funcs
        basis.entry.kept.now.verdicts.items result }
    ensures typed { OnOk result (meter.new ≡ typed_with ty body.now basis.entry.parts.now) }
{
    // The proof asks what this says: bodies of a valid module find what they found.
    laws_of_valid_modules();
    let Basis { keep, parts, kept } = basis;
    let whole = Whole::of(alloc, Lists::of(parts, &kept.types))?;
    let own = type_body(&whole, ty, body, meter)?;
    let verdict = verdict_with_func(parts.types.len() as u32, parts.funcs.len() as u32, ty, own);
    let appraisal = admit(keep, verdict, len)?;
    Ok((Verdicts::Own(own), appraisal))
}

// The verdicts of bodies where a function comes whose type stands behind those of the others already, and what is kept of the
// module with it as a whole, which is so long; or why it may not stay.
fn judged_func(
    alloc: Global,
    basis: Basis<'_>,
    ty: u32,
    body: &Body,
    len: Option<u32>,
    meter: &mut Meter,
) -> Result<(Verdicts, Appraisal), EditFault>
    requires shaped { IsShaped basis.parts.now }
    requires kept { IsKeptWithType ty basis.parts.now basis.kept.now }
    requires valid { IsCode basis.parts.now.profile body.now }
    requires len { len ≡ limited (length (encoded (with_func ty body.now basis.parts.now))) }
    requires fresh { meter.old ≡ 0 }
    ensures judged { let m = basis.entry.parts.now in
        IsEntryJudged basis.entry.keep ty body.now (with_func ty body.now m) m.funcs
        basis.entry.kept.now.verdicts.items result }
    ensures own { IfOk result
        (λ r. is_own r.0 ≡ true → basis.entry.kept.now.verdict ≡ Verdict.Valid) }
    ensures typed { OnOk result (meter.new ≡ typed_with ty body.now basis.entry.parts.now) }
{
    if let Verdict::Valid = basis.kept.verdict {
        return judged_in_valid(alloc, basis, ty, body, len, meter);
    }
    let verdicts = verdicts_with(alloc, basis, ty, body, meter)?;
    let lists = Lists::of(basis.parts, &basis.kept.types);
    let appraisal = appraise(alloc, basis.keep, None, &lists, &verdicts, len)?;
    Ok((Verdicts::All(verdicts), appraisal))
}

// The index of a type as it comes to those of the others.
fn new_index(alloc: Global, parts: &Parts, kept: &Cache, ty: &u32) -> Result<NewItem, EncodeFault>
    requires { length parts.now.funcs + 1 < 2 ^ 32 }
    ensures { MatchResult result
        (IsNewItem 3 (length parts.now.funcs) (list_contents short (ty.now ∷ [])))
        (IsOverlong (list_contents short (ty.now ∷ []))) }
{
    let alone = Lists {
        funcs: slice::from_ref(ty),
        ..Lists::of(parts, &kept.types)
    };
    let count = parts.funcs.len() as u32;
    new_item(alloc, &alone, section_id::FUNCTION, count)
}

// What is to be kept of the module with a function more, whose type stands behind those of the others already; or why it may not be.
fn planned_func(
    alloc: Global,
    basis: Basis<'_>,
    ty: u32,
    body: &Body,
    spelled: &Items<u8>,
    item: &NewItem,
    meter: &mut Meter,
) -> Result<Entry, EditFault>
    requires shaped { IsShaped basis.parts.now }
    requires item { IsNewItem 3 (length basis.parts.now.funcs) (list_contents short (ty ∷ []))
        item.now }
    requires spelled { SpellsBody basis.parts.now.profile body.now spelled.now }
    requires kept { IsKeptWithType ty basis.parts.now basis.kept.now }
    requires valid { IsCode basis.parts.now.profile body.now }
    requires fresh { meter.old ≡ 0 }
    ensures planned { let m = basis.entry.parts.now in
        IsEntryPlanned basis.entry.keep ty body.now (with_func ty body.now m) m.funcs
        basis.entry.kept.now.verdicts.items 1 result }
    ensures own { IfOk result
        (λ p. is_own p.verdicts ≡ true → basis.entry.kept.now.verdict ≡ Verdict.Valid) }
    ensures typed { OnOk result (meter.new ≡ typed_with ty body.now basis.entry.parts.now) }
{
    let kept = basis.kept;
    let pieces = &kept.pieces;
    let mut encoded = 0;
    let code = encoded_body(alloc, body, Some(spelled.as_slice()), &mut encoded)?;
    let Some(codes_len) = plus_code(Some(pieces.codes_len), &code) else {
        return Err(EditFault::TooLarge);
    };
    let len = len_grown(
        pieces,
        item.id,
        item.count,
        Some(item_len(item)),
        kept.types.len(),
        codes_len,
    );
    let uses = func_uses(alloc, ty, body)?;
    let (verdicts, appraisal) = judged_func(alloc, basis, ty, body, len, meter)?;
    Ok(Entry {
        uses,
        verdicts,
        code,
        codes_len,
        encoded,
        sections: item.made,
        appraisal,
    })
}

// Appends a function, whose type stands behind those of the others already, and that type to the kept contents of the section. Says what
// else is to be kept of the module with it; or leaves all as it was.
fn push_planned(
    alloc: Global,
    keep: bool,
    parts: &mut Parts,
    kept: &mut Cache,
    meter: &mut Meter,
    func: Func,
    spelled: &Items<u8>,
) -> Result<Entry, EditFault>
    requires spelled { SpellsBody parts.old.profile func.body spelled.now }
    requires shaped { IsShaped parts.old }
    requires kept { IsKeptWithType func.ty parts.old kept.old }
    requires valid { IsCode parts.old.profile func.body }
    requires fresh { meter.old ≡ 0 }
    ensures planned { let n = with_func func.ty func.body parts.old in
        IsEntryPlanned keep func.ty func.body n parts.old.funcs kept.old.verdicts.items 1 result }
    ensures own { IfOk result (λ p. is_own p.verdicts ≡ true → kept.old.verdict ≡ Verdict.Valid) }
    ensures pushed { OnOk result (parts.new ≡ with_func func.ty func.body parts.old) }
    ensures same { OnErr result (parts.new ≡ parts.old) }
    ensures typed { OnOk result (meter.new ≡ typed_with func.ty func.body parts.old) }
    ensures rest { kept.new
        ≡ record kept.old
        { pieces = record kept.old.pieces { sections = kept.new.pieces.sections } } }
    ensures sections { OnOk result
        (kept.new.pieces.sections.items ≡ section_pieces (with_func func.ty func.body parts.old)) }
    ensures sections_same { OnErr result
        (kept.new.pieces.sections.items ≡ kept.old.pieces.sections.items) }
{
    let item = new_index(alloc, parts, kept, &func.ty)?;
    let basis = Basis { keep, parts, kept };
    let entry = planned_func(alloc, basis, func.ty, &func.body, spelled, &item, meter)?;
    parts.funcs.push(func)?;
    let section = &mut kept.pieces.sections[section_id::FUNCTION as usize];
    match append_item(alloc, section, item.count, bytes_of(&item)) {
        Ok(()) => Ok(entry),
        Err(OutOfMemory) => {
            let _ = parts.funcs.pop();
            Err(EditFault::Memory)
        }
    }
}

// Appends a function, and its type to those that are kept, and says what else is to be kept of the module with it; or leaves all as it was.
fn push_func(
    alloc: Global,
    keep: bool,
    parts: &mut Parts,
    kept: &mut Cache,
    meter: &mut Meter,
    func: Func,
    spelled: &Items<u8>,
) -> Result<Entry, EditFault>
    requires spelled { SpellsBody parts.old.profile func.body spelled.now }
    requires shaped { IsShaped parts.old }
    requires kept { IsKept parts.old kept.old }
    requires valid { IsCode parts.old.profile func.body }
    requires fresh { meter.old ≡ 0 }
    ensures planned { let n = with_func func.ty func.body parts.old in
        IsEntryPlanned keep func.ty func.body n parts.old.funcs kept.old.verdicts.items 1 result }
    ensures own { IfOk result (λ p. is_own p.verdicts ≡ true → kept.old.verdict ≡ Verdict.Valid) }
    ensures pushed { OnOk result (parts.new ≡ with_func func.ty func.body parts.old) }
    ensures same { OnErr result (parts.new ≡ parts.old) }
    ensures typed { OnOk result (meter.new ≡ typed_with func.ty func.body parts.old) }
    ensures rest { kept.new ≡ record kept.old {
      types = kept.new.types;
      pieces = record kept.old.pieces { sections = kept.new.pieces.sections };
    } }
    ensures types { kept.new.types.items
        ≡ (if is_ok result then kept.old.types.items ++ func.ty ∷ [] else kept.old.types.items) }
    ensures sections { OnOk result
        (kept.new.pieces.sections.items ≡ section_pieces (with_func func.ty func.body parts.old)) }
    ensures sections_same { OnErr result
        (kept.new.pieces.sections.items ≡ kept.old.pieces.sections.items) }
{
    kept.types.push(func.ty)?;
    let pushed = push_planned(alloc, keep, parts, kept, meter, func, spelled);
    if pushed.is_err() {
        let _ = kept.types.pop();
    }
    pushed
}

// Asks for room for the verdict of a function more where it comes to those that are kept: in a valid module. In any other a list of all
// takes their place.
fn reserve_verdict(kept: &mut Cache) -> Result<(), OutOfMemory>
    ensures rest { kept.new ≡ record kept.old { verdicts = kept.new.verdicts } }
    ensures same { kept.new.verdicts.items ≡ kept.old.verdicts.items }
    ensures room { OnOk result (kept.old.verdict ≡ Verdict.Valid
        → vec_len kept.new.verdicts < vec_capacity kept.new.verdicts) }
{
    if let Verdict::Valid = kept.verdict {
        kept.verdicts.reserve(1)?;
    }
    Ok(())
}

// Puts the verdicts that are others in their places. There is room for one more where it comes to those that are kept.
fn put_verdicts(kept: &mut Vec<BodyVerdict>, verdicts: Verdicts)
    requires { is_own verdicts ≡ true → vec_len kept.old < vec_capacity kept.old }
    ensures { (t : ℕ) → (b : BodyOf) → (n : PartsOf) → (fs : List FuncOf)
        → n.funcs ≡ fs ++ record { ty = t; body = b } ∷ []
        → AreVerdicts t b n fs kept.old.items verdicts
        → kept.new.items ≡ map (func_verdict (answers_of n)) n.funcs }
{
    match verdicts {
        Verdicts::Own(own) => kept.push_reserved(own),
        Verdicts::All(all) => *kept = all,
    }
}

/// Appends a function.
pub(crate) fn add_func(
    alloc: Global,
    keep: bool,
    parts: &mut Parts,
    kept: &mut Cache,
    meter: &mut Meter,
    ty: u32,
    code: &Items<u8>,
) -> Reply
    requires shaped { IsShaped parts.old }
    requires kept { IsKept parts.old kept.old }
    requires fresh { meter.old ≡ 0 }
    ensures { Leads keep (Edit.Func ty code.now) parts.old result parts.new kept.new }
{
    let body = spelled_body(alloc, parts.profile, code)?;
    reserve_verdict(kept)?;
    kept.refs.reserve(1)?;
    kept.pieces.codes.reserve(1)?;
    let entry = push_func(alloc, keep, parts, kept, meter, Func { ty, body }, code)?;
    keep_entry(kept, &entry);
    let Entry {
        uses,
        verdicts,
        code,
        encoded,
        sections,
        ..
    } = entry;
    put_verdicts(&mut kept.verdicts, verdicts);
    kept.refs.push_reserved(uses);
    kept.pieces.codes.push_reserved(code);
    Ok(Work {
        typed: meter.typed() as u32,
        encoded,
        sections,
    })
}
