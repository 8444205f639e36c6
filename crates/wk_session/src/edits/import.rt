//! An import more.

ghost use Rattle.std.specs.Prelude.{◌≡◌, ◌≢◌, ◌<◌, ◌≤◌, ◌^◌, Err, true, false, length, map, unwrap_or, count_by, is_some, Some, IfOk, IfNone, IfSome, OnOk, OnErr, MatchResult};
ghost use Rattle.std.specs.List.{list_any};
ghost use Rattle.wk_body.specs.Shape.{IsU32};
ghost use Rattle.wk_module.specs.Items.{desc_kind, IsImport, IsDesc};
ghost use Rattle.wk_module.specs.Types.{AreLimits};
ghost use Rattle.wk_module.specs.Changes.{with_import};
ghost use Rattle.wk_module.specs.Listed.{IsListId, listed, listed_with};
ghost use Rattle.wk_module.specs.Moving.{moved_func, moved_lists, is_code_moving, is_code_stuck, are_parts_stuck, with_lists};
ghost use Rattle.wk_module.specs.Shape.{IsShaped, IsFormed};
ghost use Rattle.wk_typing.specs.Finds.{Grows};
ghost use Rattle.wk_check.specs.Spaces.{answer_in, spaces_of};
ghost use Rattle.wk_check.specs.SpacesLaws.{answers_of};
ghost use Rattle.wk_check.specs.Verdict.{func_verdict, module_verdict};
ghost use Rattle.wk_pieces.specs.Overlays.{with_items};
ghost use Rattle.wk_pieces.specs.Pieces.{IsUnwritten};
ghost use Rattle.wk_session.specs.declared.edit.Edit.{Edit};
ghost use Rattle.wk_session.specs.Dependents.{is_retyped_in};
ghost use Rattle.wk_session.specs.Edits.{import_place};
ghost use Rattle.wk_session.specs.Imported.{IsRemadeAfter, IsRemadeWhere, after_import, before_import, retyped_by, IsImportPlan, IsUnplanned, IsReady, IsImportJudgement, IsImportRefusal};
ghost use Rattle.wk_session.specs.Kept.{IsKept, Leads};

use crate::basis::Basis;
use crate::cache::Cache;
use crate::edit::{EditFault, Reply, Work};
use crate::edits::renumber::{MovedEntries, is_any_code_stuck, moved_entries, put_moved};
use crate::judged::rejudge_bodies;
use crate::verdict_and_len::{Appraisal, appraise};
use std::alloc::Global;
use wk_bytes::OutOfMemory;
use wk_check::{
    BodyVerdict, Meter, Verdict, Whole, laws_of_valid_modules, verdict_with_import,
    verdicts_that_keep,
};
use wk_module::{
    EncodeFault, Import, ImportDesc, Kind, Limits, Lists, MovedLists, Parts, ShiftFault,
    import_count, moving_of_code, moving_of_module, section_id, shift_lists,
};
use wk_pieces::{
    NewSections, codes_len_after, module_len, one_remade, remake_section, replace_each, sizes_after,
};

/// What an import makes of a module beside its list of imports.
#[derive(Drop)]
struct ImportPlan {
    /// The lists of which something moves.
    lists: MovedLists,
    /// What is kept of the code entries.
    entries: MovedEntries,
}

/// What is to be kept of a module with an import more.
#[derive(Drop)]
struct ImportJudgement {
    /// What is kept of it as a whole.
    appraisal: Appraisal,
    /// The verdicts of its bodies, or nothing where they stay.
    verdicts: Option<Vec<BodyVerdict>>,
    /// The sections that are made anew.
    remade: NewSections,
    /// How many bytes all codes have, with their sizes.
    codes_len: u32,
}

// A number of 32 bits is one. It does nothing.
fn spelled_number(_x: u32)
    ensures { IsU32 _x }
{}

// Limits are such numbers. It does nothing.
fn spelled_limits(limits: Limits)
    ensures { AreLimits limits }
{
    spelled_number(limits.min);
    if let Some(max) = limits.max {
        spelled_number(max);
    }
}

// What is imported is one that bytes can spell. It does nothing.
fn spelled_desc(desc: ImportDesc)
    ensures { IsDesc desc }
{
    match desc {
        ImportDesc::Func(index) => spelled_number(index),
        ImportDesc::Table(limits) => spelled_limits(limits),
        ImportDesc::Memory(limits) => spelled_limits(limits),
        ImportDesc::Global(_) => {}
    }
}

// An import is one that bytes can spell: its names are texts, and its numbers fit. It does nothing.
fn spelled_import(import: &Import)
    ensures { IsImport import.now }
{
    let _from = import.from.as_str();
    let _name = import.name.as_str();
    spelled_desc(import.desc);
}

// The lists of which something moves, moved, where no reference of the module is one that can't.
fn lists_after(
    alloc: Global,
    parts: &Parts,
    kept: &Cache,
    kind: Kind,
    from: u32,
) -> Result<MovedLists, EditFault>
    requires { IsKept parts.now kept.now }
    ensures { MatchResult result
        (λ v. (are_parts_stuck kind from parts.now ≡ false) × (v ≡ moved_lists kind from parts.now))
        (λ e. e ≢ EditFault.Memory
        → (e ≡ EditFault.IndexOverflow) × (are_parts_stuck kind from parts.now ≡ true)) }
{
    // The proof asks what this says: of what a function refers to there moves what moves of its body.
    moving_of_code();
    if is_any_code_stuck(kind, from, &kept.refs) {
        return Err(EditFault::IndexOverflow);
    }
    match shift_lists(alloc, parts, kind, from) {
        Ok(lists) => Ok(lists),
        Err(ShiftFault::Overflow) => Err(EditFault::IndexOverflow),
        Err(ShiftFault::Memory) => Err(EditFault::Memory),
    }
}

// All that an import of the kind at the index `from` moves.
fn plan_import(
    alloc: Global,
    parts: &Parts,
    kept: &Cache,
    kind: Kind,
    from: u32,
) -> Result<ImportPlan, EditFault>
    requires kept { IsKept parts.now kept.now }
    requires few { length parts.now.funcs < 2 ^ 32 }
    ensures { MatchResult result (IsImportPlan kind from parts.now)
        (IsUnplanned kind from parts.now) }
{
    let lists = lists_after(alloc, parts, kept, kind, from)?;
    let codes = &kept.pieces.codes;
    let entries = moved_entries(alloc, &parts.funcs, &kept.refs, codes, kind, from)?;
    Ok(ImportPlan { lists, entries })
}

// The verdicts of bodies beside one import more, which is the last one, where nothing that is found goes; or nothing where they stay, as
// those of a valid module do.
fn verdicts_beside(
    alloc: Global,
    basis: Basis<'_>,
    now: &Lists<'_>,
    meter: &mut Meter,
) -> Result<Option<Vec<BodyVerdict>>, OutOfMemory>
    requires some { 0 < length basis.parts.now.imports }
    requires few { length basis.parts.now.funcs < 2 ^ 32 }
    requires kept { IsKept (before_import basis.parts.now) basis.kept.now }
    requires grows { Grows (answers_of (before_import basis.parts.now))
        (answer_in (spaces_of (listed now.now))) }
    requires fresh { meter.old ≡ 0 }
    ensures verdicts { let now = answer_in (spaces_of (listed now.now)) in IfOk result
        (λ v. (unwrap_or v basis.entry.kept.now.verdicts).items
        ≡ map (func_verdict now) basis.entry.parts.now.funcs) }
    ensures typed { let m = basis.entry.parts.now in OnOk result (meter.new ≡ count_by
        (is_retyped_in (answers_of (before_import m)) (answer_in (spaces_of (listed now.now))))
        m.funcs) }
{
    let Basis { parts, kept, .. } = basis;
    // The proof asks what this says: bodies of a valid module find what they found.
    laws_of_valid_modules();
    if let Verdict::Valid = kept.verdict {
        return Ok(None);
    }
    let imports = parts.imports.as_slice();
    let before = Lists {
        imports: &imports[..imports.len() - 1],
        ..Lists::of(parts, &kept.types)
    };
    let old = Whole::of(alloc, before)?;
    let new = Whole::of(alloc, *now)?;
    let verdicts = rejudge_bodies(alloc, &old, &new, basis, meter)?;
    Ok(Some(verdicts))
}

// The verdicts of bodies after an import, or nothing where they stay: after an import of a function or a global each reference finds
// what it found.
fn verdicts_after(
    alloc: Global,
    basis: Basis<'_>,
    now: &Lists<'_>,
    meter: &mut Meter,
    import: &Import,
    plan: &ImportPlan,
) -> Result<Option<Vec<BodyVerdict>>, OutOfMemory>
    requires ready { let p = basis.parts.now in
        IsReady import.now (before_import p) p basis.kept.now plan.now }
    requires lists { let n = after_import import.now (before_import basis.parts.now) in
        listed now.now ≡ listed_with (map (λ f. f.ty) n.funcs) n }
    requires fresh { meter.old ≡ 0 }
    ensures verdicts { let n = after_import import.now (before_import basis.entry.parts.now) in
        IfOk result (λ v. (unwrap_or v basis.entry.kept.now.verdicts).items
        ≡ map (func_verdict (answers_of n)) n.funcs) }
    ensures typed { OnOk result
        (meter.new ≡ retyped_by import.now (before_import basis.entry.parts.now)) }
{
    // The proof asks what these say: verdicts are kept where bodies move, and nothing else of a module does where nothing in it moves.
    verdicts_that_keep();
    match import.desc {
        ImportDesc::Func(_) => Ok(None),
        ImportDesc::Table(_) => verdicts_beside(alloc, basis, now, meter),
        ImportDesc::Memory(_) => verdicts_beside(alloc, basis, now, meter),
        ImportDesc::Global(_) => Ok(None),
    }
}

// The verdicts that are there, or those that are kept.
fn verdicts_or<'a>(
    verdicts: &'a Option<Vec<BodyVerdict>>,
    kept: &'a Vec<BodyVerdict>,
) -> &'a Vec<BodyVerdict>
    ensures { result.now ≡ unwrap_or verdicts.now kept.now }
{
    match verdicts {
        Some(verdicts) => verdicts,
        None => kept,
    }
}

// Makes the section of an id anew where it has moved.
fn remake_where(
    alloc: Global,
    lists: &Lists<'_>,
    news: &mut NewSections,
    id: u8,
    is_moved: bool,
) -> Result<(), EncodeFault>
    requires id { IsListId id }
    requires few { news.old.made < 12 }
    requires all { length news.old.sections.items ≡ 12 }
    ensures { MatchResult result
        (λ _. IsRemadeWhere (listed lists.now) is_moved id news.old news.new)
        (IsUnwritten (listed lists.now)) }
{
    if is_moved {
        let contents = remake_section(alloc, lists, id, &mut news.made)?;
        news.sections[id as usize] = Some(contents);
    }
    Ok(())
}

// Makes the import section anew, and all that have moved.
fn remade_after(
    alloc: Global,
    lists: &Lists<'_>,
    moved: &MovedLists,
) -> Result<NewSections, EncodeFault>
    ensures { MatchResult result (IsRemadeAfter (listed lists.now) moved.now)
        (IsUnwritten (listed lists.now)) }
{
    let mut news = one_remade(alloc, lists, section_id::IMPORT)?;
    remake_where(
        alloc,
        lists,
        &mut news,
        section_id::GLOBAL,
        moved.globals.is_some(),
    )?;
    remake_where(
        alloc,
        lists,
        &mut news,
        section_id::EXPORT,
        moved.exports.is_some(),
    )?;
    remake_where(
        alloc,
        lists,
        &mut news,
        section_id::START,
        moved.start.is_some(),
    )?;
    remake_where(
        alloc,
        lists,
        &mut news,
        section_id::ELEMENT,
        moved.elems.is_some(),
    )?;
    remake_where(
        alloc,
        lists,
        &mut news,
        section_id::DATA,
        moved.datas.is_some(),
    )?;
    Ok(news)
}

// The verdict of a module with an import more, where it is known: where the one without is valid.
fn known_with_import(parts: &Parts, kept: &Cache, import: &Import) -> Option<Verdict>
    requires formed { IsFormed parts.now }
    requires kept { IsKept parts.now kept.now }
    ensures some { IfSome result (λ v. v ≡ module_verdict (after_import import.now parts.now)) }
    ensures none { IfNone result (kept.now.verdict ≢ Verdict.Valid) }
{
    match kept.verdict {
        Verdict::Valid => Some(verdict_with_import(&Lists::of(parts, &kept.types), import)),
        Verdict::Invalid(_) => None,
    }
}

// Judges the module with the import, which is pushed on its list, and with all that it moves.
fn judged_import(
    alloc: Global,
    basis: Basis<'_>,
    meter: &mut Meter,
    import: &Import,
    plan: &ImportPlan,
    known: Option<Verdict>,
) -> Result<ImportJudgement, EditFault>
    requires ready { let p = basis.parts.now in
        IsReady import.now (before_import p) p basis.kept.now plan.now }
    requires known { IfSome known
        (λ v. v ≡ module_verdict (after_import import.now (before_import basis.parts.now))) }
    requires fresh { meter.old ≡ 0 }
    ensures judgement { let m = before_import basis.entry.parts.now in MatchResult result
        (IsImportJudgement basis.entry.keep import.now m basis.entry.kept.now)
        (IsImportRefusal basis.entry.keep import.now m) }
    ensures typed { OnOk result
        (meter.new ≡ retyped_by import.now (before_import basis.entry.parts.now)) }
{
    // The proof asks what this says: the lists that moved, laid over the others, are those of the module.
    moving_of_module();
    let Basis { keep, parts, kept } = basis;
    let now = Lists::of(parts, &kept.types).with_moved(&plan.lists);
    let remade = remade_after(alloc, &now, &plan.lists)?;
    let pieces = &kept.pieces;
    let Some(codes_len) = codes_len_after(&pieces.codes, &plan.entries.codes) else {
        return Err(EditFault::TooLarge);
    };
    let sizes = sizes_after(&pieces.sections, &remade.sections);
    let len = module_len(sizes, parts.funcs.len(), codes_len, pieces.customs_len);
    let verdicts = verdicts_after(alloc, basis, &now, meter, import, plan)?;
    let verdicts_now = verdicts_or(&verdicts, &kept.verdicts);
    let appraisal = appraise(alloc, keep, known, &now, verdicts_now, len)?;
    Ok(ImportJudgement {
        appraisal,
        verdicts,
        remade,
        codes_len,
    })
}

// Pushes the import on its list and judges the module with it; or leaves the list as it was.
fn push_judged(
    alloc: Global,
    keep: bool,
    parts: &mut Parts,
    kept: &Cache,
    meter: &mut Meter,
    import: &Import,
    plan: &ImportPlan,
) -> Result<ImportJudgement, EditFault>
    requires kept { IsKept parts.old kept.now }
    requires plan { IsImportPlan (desc_kind import.now.desc) (import_place import.now parts.old)
        parts.old plan.now }
    requires formed { IsFormed parts.old }
    requires fresh { meter.old ≡ 0 }
    ensures ok { OnOk result (parts.new ≡ with_import import.now parts.old) }
    ensures err { OnErr result (parts.new ≡ parts.old) }
    ensures judgement { MatchResult result
        (IsImportJudgement keep import.now parts.old kept.now)
        (IsImportRefusal keep import.now parts.old) }
    ensures formed { OnOk result (IsFormed (after_import import.now parts.old)) }
    ensures typed { OnOk result (meter.new ≡ retyped_by import.now parts.old) }
{
    spelled_import(import);
    moving_of_module();
    let known = known_with_import(parts, kept, import);
    let copy = import.copy(alloc)?;
    parts.imports.push(copy)?;
    let basis = Basis { keep, parts, kept };
    let judged = judged_import(alloc, basis, meter, import, plan, known);
    if judged.is_err() {
        let _ = parts.imports.pop();
    }
    judged
}

// Moves what an import of the kind at the index `from` moves, and puts what is kept of it in its place. It takes no memory.
fn put_import(
    alloc: Global,
    parts: &mut Parts,
    kept: &mut Cache,
    kind: Kind,
    from: u32,
    plan: ImportPlan,
    judgement: ImportJudgement,
)
    requires moves { map is_some plan.entries.codes.items
        ≡ map (λ f. is_code_moving kind from f.body.instrs) parts.old.funcs }
    requires free { list_any (λ f. is_code_stuck kind from f.body.instrs) parts.old.funcs ≡ false }
    requires refs { length plan.entries.refs.items ≤ length kept.old.refs.items }
    requires codes { length plan.entries.codes.items ≤ length kept.old.pieces.codes.items }
    requires sections { length judgement.remade.sections.items
        ≤ length kept.old.pieces.sections.items }
    ensures parts { parts.new
        ≡ record (with_lists plan.lists parts.old)
        { funcs = map (moved_func kind from) parts.old.funcs } }
    ensures verdict { kept.new.verdict ≡ judgement.appraisal.verdict }
    ensures len { kept.new.len ≡ judgement.appraisal.len }
    ensures types { kept.new.types ≡ kept.old.types }
    ensures verdicts { kept.new.verdicts ≡ unwrap_or judgement.verdicts kept.old.verdicts }
    ensures refs { kept.new.refs.items ≡ with_items kept.old.refs.items plan.entries.refs.items }
    ensures codes { kept.new.pieces.codes.items
        ≡ with_items kept.old.pieces.codes.items plan.entries.codes.items }
    ensures codes_len { kept.new.pieces.codes_len ≡ judgement.codes_len }
    ensures customs_len { kept.new.pieces.customs_len ≡ kept.old.pieces.customs_len }
    ensures sections { kept.new.pieces.sections.items
        ≡ with_items kept.old.pieces.sections.items judgement.remade.sections.items }
{
    let ImportPlan { lists, entries } = plan;
    let MovedEntries {
        refs,
        codes,
        encoded: _,
    } = entries;
    let ImportJudgement {
        appraisal,
        verdicts,
        remade,
        codes_len,
    } = judgement;
    put_moved(alloc, parts, lists, &codes, kind, from);
    replace_each(&mut kept.refs, refs);
    replace_each(&mut kept.pieces.codes, codes);
    replace_each(&mut kept.pieces.sections, remade.sections);
    kept.pieces.codes_len = codes_len;
    if let Some(verdicts) = verdicts {
        kept.verdicts = verdicts;
    }
    kept.verdict = appraisal.verdict;
    kept.len = appraisal.len;
}

/// Appends an import. References of its kind to what comes behind the imported ones become one more.
pub(crate) fn add_import(
    alloc: Global,
    keep: bool,
    parts: &mut Parts,
    kept: &mut Cache,
    meter: &mut Meter,
    import: &Import,
) -> Reply
    requires shaped { IsShaped parts.old }
    requires kept { IsKept parts.old kept.old }
    requires fresh { meter.old ≡ 0 }
    ensures { Leads keep (Edit.Import import.now) parts.old result parts.new kept.new }
{
    moving_of_module();
    let kind = import.desc.kind();
    let from = import_count(parts.imports.as_slice(), kind) as u32;
    let plan = plan_import(alloc, parts, kept, kind, from)?;
    let judgement = push_judged(alloc, keep, parts, kept, meter, import, &plan)?;
    let work = Work {
        typed: meter.typed() as u32,
        encoded: plan.entries.encoded,
        sections: judgement.remade.made,
    };
    put_import(alloc, parts, kept, kind, from, plan, judgement);
    Ok(work)
}
